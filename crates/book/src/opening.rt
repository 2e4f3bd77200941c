//! Opening a book, and giving its registers back.
ghost use Rattle.std.specs.Prelude.{◌≡◌, Ok};
ghost use Rattle.book.specs.Books.{state_of};
ghost use Rattle.book.specs.Opening.{opened, opening_questions, opens_on, sizes_of};
ghost use Rattle.fault.specs.Questions.{asked, unless};

use crate::book::Book;
use crate::daybook::Daybook;
use crate::sums::within_limit;
use fault::{Fault, ask};
use movement::{CURRENCIES, MAX_ACCOUNTS, MAX_SECURITIES};
use register::Register;

/// The last day on which a book can open.
const LAST_DAY: u32 = 60_000;

/// Asks what is asked of an opening, and answers the numbers of accounts and of securities.
fn sizes<S: Register, C: Register>(
    securities: &S,
    cash: &C,
    first_day: u32,
) -> Result<(u8, u8), Fault>
    ensures { let o = opens_on (S.Register.shows securities.now) (C.Register.shows cash.now)
        first_day in
        result ≡ asked (opening_questions o) (sizes_of o) }
{
    let accounts = securities.accounts();
    ask(
        accounts == cash.accounts() && accounts >= 2 && accounts <= MAX_ACCOUNTS,
        Fault::AccountCount,
    )?;
    let kinds = securities.kinds();
    ask(
        kinds >= 1 && kinds <= MAX_SECURITIES && cash.kinds() == CURRENCIES,
        Fault::KindCount,
    )?;
    ask(
        within_limit(securities) && within_limit(cash),
        Fault::OpeningSum,
    )?;
    ask(first_day <= LAST_DAY, Fault::FirstDay)?;
    Ok((accounts as u8, kinds as u8))
}

impl<S: Register, C: Register> Book<S, C> {
    /// Opens a book on two registers.
    /// Where a question of the opening fails, every call is refused by its number.
    pub fn open(securities: S, cash: C, first_day: u32) -> Self
        ensures { state_of S.Register.shows C.Register.shows result
            ≡ opened (opens_on (S.Register.shows securities) (C.Register.shows cash) first_day) }
    {
        let sizes = sizes(&securities, &cash, first_day);
        let (accounts, kinds) = sizes.unwrap_or((0, 0));
        Book {
            failed: sizes.err(),
            daybook: Daybook::new(accounts, kinds, first_day),
            securities,
            cash,
        }
    }

    /// Closes the book for good and gives the registers back.
    pub fn into_registers(self) -> (S, C)
        ensures { (result.0 ≡ self.securities) × (result.1 ≡ self.cash) }
    {
        let Book {
            failed: _,
            daybook: _,
            securities,
            cash,
        } = self;
        (securities, cash)
    }

    /// Refuses by the opening question that failed.
    pub(crate) fn passed(&self) -> Result<(), Fault>
        ensures { result ≡ unless self.now.failed (Ok tt) }
    {
        match self.failed {
            Some(fault) => Err(fault),
            None => Ok(()),
        }
    }
}
