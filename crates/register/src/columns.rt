//! A row of two columns: what was put and what was taken.
ghost use Rattle.std.specs.Prelude.{◌≡◌, ◌+◌, ◌-◌, ◌≤◌};
ghost use Rattle.register.specs.Columns.{balance, empty as empty_columns, ready as ready_of, credited as credited_by, debited as debited_by, columns_after, Fits};
ghost use Rattle.register.specs.Holdings.{limit};
ghost use Rattle.std.proofs.Common.{rules};

use crate::cell::Cell;
use crate::entry::Entry;
use crate::register::LIMIT;

/// No column that a register writes is larger.
pub const COLUMN_LIMIT: u64 = 1_000_000_000_000_000_000;

/// What was put and what was taken. Any two numbers are columns: what they count as is their
/// balance, from 0 to the limit.
#[derive(Clone, Copy, PartialEq, Eq, Debug)]
pub struct Columns {
    /// What was put.
    pub credits: u64,
    /// What was taken.
    pub debits: u64,
}

impl Columns {
    /// Credits less debits, as an amount.
    pub fn amount(&self) -> u64
        ensures { result ≡ balance self.now }
    {
        self.credits.saturating_sub(self.debits).min(LIMIT)
    }

    // The same amount, brought forward unless the columns are open for so many more credits.
    fn ready(self, more: u64) -> Columns
        requires { more ≤ limit }
        ensures { result ≡ ready_of self more }
    {
        let plain = self.debits <= self.credits && self.credits - self.debits <= LIMIT;
        if plain && self.credits <= COLUMN_LIMIT - more {
            self
        } else {
            Columns {
                credits: self.amount(),
                debits: 0,
            }
        }
    }

    // The columns with an amount put.
    fn credited(self, amount: u64) -> Columns
        requires { balance self + amount ≤ limit }
        ensures columns { result ≡ credited_by self amount }
        ensures balance { balance result ≡ balance self + amount }
        ensures fits { Fits result }
    {
        let Columns { credits, debits } = self.ready(amount);
        Columns {
            credits: credits + amount,
            debits,
        }
    }

    // The columns with an amount taken.
    fn debited(self, amount: u64) -> Columns
        requires { amount ≤ balance self }
        ensures columns { result ≡ debited_by self amount }
        ensures balance { balance result ≡ balance self - amount }
        ensures fits { Fits result }
    {
        let Columns { credits, debits } = self.ready(0);
        Columns {
            credits,
            debits: debits + amount,
        }
    }
}

impl Cell for Columns {
    ghost amount = { balance };

    ghost with_entry = { columns_after };

    ghost kept = { Fits };

    ghost empty = { empty_columns };

    fn amount(&self) -> u64 {
        Columns::amount(self)
    }

    fn with_entry(self, entry: Entry) -> Columns {
        match entry {
            Entry::Put(amount) => self.credited(amount),
            Entry::Take(amount) => self.debited(amount),
        }
    }

    fn empty() -> Columns {
        Columns {
            credits: 0,
            debits: 0,
        }
    }

    ghost bounded = { Prim.search rules };

    ghost copied = { Prim.search rules };
}
