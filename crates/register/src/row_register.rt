//! A register over rows of the host that go kind by kind, as many for each kind.
ghost use Rattle.std.specs.Prelude.{◌≡◌};
ghost use Rattle.register.specs.Rows.{stride as stride_of};

use crate::cell::Cell;
use crate::columns::Columns;
use crate::entry::Entry;
use crate::refusal::Refusal;
use crate::register::{MOST, Register};
use std::alloc::{AllocError, Global};

/// A register over the rows of a host, as many for each kind. Rows that no kind has, being left
/// over, are kept and never read.
#[derive(Drop)]
pub struct RowRegister<X> {
    // Stays: a rule of the project: the host hands its rows over and gets them back as they are
    // laid out, so no other shape could hold them.
    rows: Vec<X>,
    kinds: usize,
    // How many rows each kind has.
    stride: usize,
    ghost even: { stride ≡ stride_of kinds rows.items },
}

/// A register over signed rows.
pub type Table = RowRegister<i64>;

/// A register over rows of credits and debits.
pub type Turnover = RowRegister<Columns>;

impl<X: Cell> RowRegister<X> {
    ghost use Rattle.std.specs.Prelude.{◌≡◌, ◌≤◌, ◌<◌, ◌*◌, length, replicate, Ok, IfOk};
    ghost use Rattle.register.specs.Answers.{unless_unknown};
    ghost use Rattle.register.specs.Holdings.{most, zero_holdings};
    ghost use Rattle.register.specs.Rows.{laid, place as place_of};
    ghost use Rattle.register.specs.RowRegister.{rows_of, kinds_of, holdings_of};

    /// A register over the rows, kind by kind.
    pub fn new(rows: Vec<X>, kinds: usize) -> RowRegister<X>
        ensures shows { holdings_of X.amount X.empty result
            ≡ laid kinds rows.items X.amount X.empty }
        ensures kinds { kinds_of result ≡ kinds }
        ensures rows { rows_of result ≡ rows.items }
    {
        let stride = if kinds == 0 { 0 } else { rows.len() / kinds };
        RowRegister {
            rows,
            kinds,
            stride,
        }
    }

    /// A register in which nothing has been entered.
    pub fn zeroed(
        alloc: Global,
        kinds: usize,
        accounts: usize,
    ) -> Result<RowRegister<X>, AllocError>
        requires some_kinds { 0 < kinds }
        requires few_kinds { kinds ≤ most }
        requires few_accounts { accounts ≤ most }
        ensures shows { IfOk result (λ r.
            holdings_of X.amount X.empty r ≡ zero_holdings kinds accounts) }
        ensures rows { IfOk result (λ r. rows_of r ≡ replicate (kinds * accounts) X.empty) }
    {
        let rows = vec![in alloc; X::empty(); kinds * accounts]?;
        Ok(RowRegister::new(rows, kinds))
    }

    /// The rows as they stand.
    pub fn into_rows(self) -> Vec<X>
        ensures { result.items ≡ rows_of self }
    {
        let RowRegister {
            rows,
            kinds: _,
            stride: _,
        } = self;
        rows
    }

    // Where the row of a kind and an account stands.
    fn locate(&self, kind: usize, account: usize) -> Result<usize, Refusal>
        ensures place { result ≡ unless_unknown (holdings_of X.amount X.empty self.now) kind account
            (Ok (place_of (kinds_of self.now) (rows_of self.now) kind account)) }
        ensures within { IfOk result (λ place. place < length (rows_of self.now)) }
    {
        self.ask_known(kind, account)?;
        Ok(kind * self.stride + account)
    }
}

impl<X: Cell> Register for RowRegister<X> {
    ghost use Rattle.std.specs.Prelude.{OnOk};
    ghost use Rattle.register.specs.Answers.{Enters, Put, Taken};
    ghost use Rattle.register.specs.Rows.{laid_bounded};
    ghost use Rattle.register.specs.RowRegister.{rows_of, kinds_of, holdings_of, row_of, Entered};
    ghost use Rattle.std.proofs.Common.{rules};

    ghost shows = { holdings_of X.amount X.empty };

    ghost few_kinds = { Prim.search rules };

    ghost few_accounts = { Prim.search rules };

    ghost bounded = { λ s. laid_bounded (kinds_of s) (rows_of s) X.amount X.empty X.bounded };

    ghost unknown_kind = { Prim.search rules };

    ghost unknown_account = { Prim.search rules };

    fn kinds(&self) -> usize {
        self.kinds.min(MOST)
    }

    fn accounts(&self) -> usize {
        self.stride.min(MOST)
    }

    fn tell(&self, kind: usize, account: usize) -> u64 {
        match self.locate(kind, account) {
            Ok(place) => self.rows[place].amount(),
            Err(_) => 0,
        }
    }

    #[tactic(auto, using(crate::proofs::Places::row_enters))]
    fn enter(&mut self, kind: usize, account: usize, entry: Entry) -> Result<(), Refusal>
        ensures enters { Enters (holdings_of X.amount X.empty self.old) kind account entry result
            (holdings_of X.amount X.empty self.new) }
        ensures entered { Entered X.empty X.kept self.old kind account
            (X.with_entry (row_of X.empty self.old kind account) entry)
            result self.new }
        ensures counted { OnOk result (X.amount (row_of X.empty self.old kind account)
            ≡ (holdings_of X.amount X.empty self.old).amount kind account) }
    {
        let place = self.locate(kind, account)?;
        let row = self.rows[place];
        row.ask_room(entry)?;
        self.rows[place] = row.with_entry(entry);
        Ok(())
    }

    // Stays: a rule of the project: put and take are the callers' words, each with its own promise
    // (docs/DECISIONS.md).
    fn put(&mut self, kind: usize, account: usize, amount: u64) -> Result<(), Refusal>
        ensures put { Put (holdings_of X.amount X.empty self.old) kind account amount result
            (holdings_of X.amount X.empty self.new) }
        ensures entered { Entered X.empty X.kept self.old kind account
            (X.with_entry (row_of X.empty self.old kind account) (Entry.Put amount))
            result self.new }
        ensures counted { OnOk result (X.amount (row_of X.empty self.old kind account)
            ≡ (holdings_of X.amount X.empty self.old).amount kind account) }
    {
        self.enter(kind, account, Entry::Put(amount))
    }

    fn take(&mut self, kind: usize, account: usize, amount: u64) -> Result<(), Refusal>
        ensures taken { Taken (holdings_of X.amount X.empty self.old) kind account amount result
            (holdings_of X.amount X.empty self.new) }
        ensures entered { Entered X.empty X.kept self.old kind account
            (X.with_entry (row_of X.empty self.old kind account) (Entry.Take amount))
            result self.new }
        ensures counted { OnOk result (X.amount (row_of X.empty self.old kind account)
            ≡ (holdings_of X.amount X.empty self.old).amount kind account) }
    {
        self.enter(kind, account, Entry::Take(amount))
    }
}
