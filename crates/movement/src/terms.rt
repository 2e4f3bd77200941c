//! The terms of a book's members: the custodians that act for each, category by category.
ghost use Rattle.std.specs.Prelude.{◌≡◌, true, if◌then◌else◌, Some, ◌==◌, is_ok, length, max};
ghost use Rattle.movement.specs.declared.category.Category.{Category};
ghost use Rattle.movement.specs.Agreed.{member_known};
ghost use Rattle.movement.specs.Bounds.{TermsFit};
ghost use Rattle.movement.specs.Letters.{row as row_of};
ghost use Rattle.movement.specs.Limits.{categories};
ghost use Rattle.movement.specs.MemberRows.{agreed_in, pair_in};
ghost use Rattle.movement.specs.Settings.{participant_known};

use crate::category::Category;
use crate::limits::{CATEGORIES, MEMBERS};
use fault::{Fault, ask};

/// For each category the custodians of securities and of cash, where they are set.
#[derive(Clone, Copy)]
pub struct MemberRow {
    pub(crate) pairs: [Option<(u8, u8)>; CATEGORIES],
}

/// The terms of all members of a book, whose custodians are participants of it.
#[derive(Clone, Copy)]
pub struct Terms {
    // how many accounts the book has, the largest one where terms were set for other books too;
    // those from 1 on are participants
    accounts: u8,
    // Stays: a rule of the project: rows of fixed size in a plain struct, which want no memory
    // (docs/DECISIONS.md, language forms).
    rows: [MemberRow; MEMBERS],
    // every custodian that is set is a participant
    ghost fit: { TermsFit accounts (agreed_in rows) },
}

/// Terms as a member sets them, by any numbers.
#[derive(Clone, Copy, PartialEq, Eq, Debug)]
pub struct Setting {
    pub member: u8,
    /// A letter.
    // Stays: a rule of the project: a caller may give any letter, which is asked about in its turn.
    pub category: u8,
    /// The custodian of securities.
    pub securities: u8,
    /// The custodian of cash.
    pub cash: u8,
}

impl MemberRow {
    // Sets one category; a row has a place for each of them and no more.
    fn set(&mut self, category: Category, custodians: (u8, u8))
        ensures pairs { (d : Category) → pair_in self.new d
            ≡ (if row_of d == row_of category then Some custodians else pair_in self.old d) }
        ensures places { length self.new.pairs ≡ categories }
    {
        self.pairs[category.row()] = Some(custodians);
    }
}

// Whether it is a member's number.
fn is_member(member: u8) -> bool
    ensures { result ≡ member_known member }
{
    member >= 1 && usize::from(member) <= MEMBERS
}

// Whether an account is a participant's in a book of so many accounts.
fn is_participant(account: u8, accounts: u8) -> bool
    ensures { result ≡ participant_known accounts account }
{
    account >= 1 && account < accounts
}

impl Terms {
    ghost use Rattle.register.specs.Answers.{Changed};
    ghost use Rattle.fault.specs.Questions.{passes};
    ghost use Rattle.movement.specs.Agreed.{lookup, none_agreed, with_terms};
    ghost use Rattle.movement.specs.Bounds.{agreed_fits, pair_fits};
    ghost use Rattle.movement.specs.Settings.{terms_after, terms_questions};
    ghost use Rattle.movement.specs.Terms.{accounts_of, agreed};

    /// No terms are set, in a book of so many accounts.
    pub fn new(accounts: u8) -> Terms
        ensures none { agreed result ≡ none_agreed }
        ensures accounts { accounts_of result ≡ accounts }
    {
        let row = MemberRow {
            pairs: [None; CATEGORIES],
        };
        Terms {
            accounts,
            rows: [row; MEMBERS],
        }
    }

    /// How many accounts the book has, the largest one where terms were set for other books too.
    pub fn accounts(&self) -> u8
        ensures { result ≡ accounts_of self.now }
    {
        self.accounts
    }

    /// Whether an account is a participant's; account 0 is the depository's own.
    pub fn is_participant(&self, account: u8) -> bool
        ensures { result ≡ participant_known (accounts_of self.now) account }
    {
        is_participant(account, self.accounts)
    }

    /// The custodians of securities and of cash for a member's category, of main where it was never
    /// set.
    // Stays: a rule of the project: the lookup answers a pair (docs/DECISIONS.md, language forms).
    pub fn look_up(&self, member: u8, category: Category) -> Option<(u8, u8)>
        ensures terms { result ≡ lookup (agreed self.now) member category }
        ensures participants { agreed_fits (accounts_of self.now) result ≡ true }
    {
        if !is_member(member) {
            return None;
        }
        let pairs = self.rows[member as usize - 1].pairs;
        pairs[category.row()].or(pairs[Category::Main.row()])
    }

    /// Sets the terms of one category of one member.
    pub fn agree(&mut self, setting: Setting) -> Result<(), Fault>
        ensures terms { Changed
            (agreed self.old)
            (passes (terms_questions (accounts_of self.old) setting))
            (terms_after (agreed self.old) setting)
            result
            (agreed self.new) }
        ensures accounts { accounts_of self.new ≡ accounts_of self.old }
    {
        self.agree_for(self.accounts, setting)
    }

    /// Sets the terms of one category of one member for a book of so many accounts, where one table
    /// of terms serves books of several sizes: the custodians are to be participants of that book.
    /// Where they are accepted, the terms count as those of the larger book from then on.
    pub fn agree_for(&mut self, accounts: u8, setting: Setting) -> Result<(), Fault>
        ensures terms { Changed
            (agreed self.old)
            (passes (terms_questions accounts setting))
            (terms_after (agreed self.old) setting)
            result
            (agreed self.new) }
        ensures accounts { accounts_of self.new
            ≡ (if is_ok result then max (accounts_of self.old) accounts else accounts_of self.old) }
    {
        ask(is_member(setting.member), Fault::UnknownMember)?;
        let category = Category::try_from(setting.category).map_err(|_| Fault::TermsCategory)?;
        ask(
            is_participant(setting.securities, accounts) && is_participant(setting.cash, accounts),
            Fault::TermsCustodian,
        )?;
        self.accounts = self.accounts.max(accounts);
        self.set(setting.member, category, (setting.securities, setting.cash));
        Ok(())
    }

    // Writes the custodians of one category of one member.
    fn set(&mut self, member: u8, category: Category, custodians: (u8, u8))
        requires member { member_known member ≡ true }
        requires participants { pair_fits (accounts_of self.old) custodians ≡ true }
        ensures terms { agreed self.new
            ≡ with_terms (agreed self.old) member category custodians }
        ensures accounts { accounts_of self.new ≡ accounts_of self.old }
    {
        self.rows[member as usize - 1].set(category, custodians);
    }
}
