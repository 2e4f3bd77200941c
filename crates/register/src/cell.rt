//! A row of the host, as a register reads and writes it.
ghost use Rattle.std.specs.Prelude.{◌≡◌, ℕ, ◌≤◌, Ok, pos};
ghost use Rattle.register.specs.Entry.{room_for, amount_after};
ghost use Rattle.register.specs.Holdings.{limit};
ghost use Rattle.register.specs.SignedRow.{counted, counted_after, IsAmount};
ghost use Rattle.std.proofs.Common.{rules};

use crate::entry::Entry;
use crate::refusal::Refusal;
use crate::register::LIMIT;

/// What a register asks of its rows, whatever a row looks like.
pub trait Cell: Copy {
    ghost use Rattle.register.specs.declared.entry.Entry.{Entry};

    /// The amount that the row counts as.
    ghost amount: { Self → ℕ };

    /// The row that an entry leaves.
    ghost with_entry: { Self → Entry → Self };

    /// What holds of each row that a register has written.
    ghost kept: { Self → Type 0 };

    /// The row of an account on which nothing has been entered.
    ghost empty: { Self };

    /// What the row counts as.
    fn amount(&self) -> u64
        ensures { result ≡ amount self.now };

    /// Refuses an entry for which there is no room.
    fn ask_room(&self, entry: Entry) -> Result<(), Refusal>
        ensures { result ≡ room_for (amount self.now) entry }
    {
        entry.ask_room(self.amount())
    }

    /// The row after an entry for which there is room.
    fn with_entry(self, entry: Entry) -> Self
        requires { room_for (amount self) entry ≡ Ok tt }
        ensures row { result ≡ with_entry self entry }
        ensures amount { amount result ≡ amount_after (amount self) entry }
        ensures kept { kept result };

    /// A row that counts for nothing.
    fn empty() -> Self
        ensures row { result ≡ empty }
        ensures amount { amount result ≡ 0 };

    /// No row counts for more than a register may show.
    ghost bounded: { (x : Self) → amount x ≤ limit };

    /// A copy of a row is the row.
    ghost copied: { (x y : Self) → Self.is_clone x y → y ≡ x };
}

/// A signed row: below 0 it counts as 0, above the limit as the limit.
impl Cell for i64 {
    ghost amount = { counted };

    ghost with_entry = { counted_after };

    ghost kept = { IsAmount };

    ghost empty = { pos 0 };

    fn amount(&self) -> u64 {
        (*self).clamp(0, LIMIT as i64) as u64
    }

    fn with_entry(self, entry: Entry) -> i64 {
        entry.amount_after(self.amount()) as i64
    }

    fn empty() -> i64 {
        0
    }

    ghost bounded = { Prim.search rules };

    ghost copied = { Prim.search rules };
}
