//! What is entered on one account: an amount put or an amount taken.
ghost use Rattle.std.specs.Prelude.{◌≡◌, ◌≤◌, Ok};
ghost use Rattle.register.specs.Entry.{room_for, amount_after as after};
ghost use Rattle.register.specs.Holdings.{limit};

use crate::refusal::Refusal;
use crate::register::LIMIT;

/// A change of one amount.
#[derive(Clone, Copy, PartialEq, Eq, Debug)]
pub enum Entry {
    /// An amount is put.
    Put(u64),
    /// An amount is taken.
    Take(u64),
}

impl Entry {
    /// Refuses what would take a held amount past the limit, and what is more than is held.
    pub fn ask_room(self, held: u64) -> Result<(), Refusal>
        requires { held ≤ limit }
        ensures { result ≡ room_for held self }
    {
        match self {
            Entry::Put(amount) if amount > LIMIT - held => Err(Refusal::OverLimit),
            Entry::Take(amount) if amount > held => Err(Refusal::HoldsLess),
            _ => Ok(()),
        }
    }

    /// What is held after the entry.
    pub fn amount_after(self, held: u64) -> u64
        requires { room_for held self ≡ Ok tt }
        ensures { result ≡ after held self }
    {
        match self {
            Entry::Put(amount) => held + amount,
            Entry::Take(amount) => held - amount,
        }
    }
}
