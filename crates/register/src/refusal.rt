//! Why a register refuses to change an amount.
ghost use Rattle.std.specs.Prelude.{◌≡◌};
ghost use Rattle.register.specs.Refusals.{refusal_number};

use thiserror::Error;

/// A register answers by the first of these that holds.
#[derive(Clone, Copy, PartialEq, Eq, Debug, Error)]
pub enum Refusal {
    #[error("the register does not know the kind")]
    UnknownKind = 91,
    #[error("the register does not know the account")]
    UnknownAccount = 92,
    #[error("the register's account holds less")]
    HoldsLess = 93,
    #[error("the register's account would pass 10^15")]
    OverLimit = 94,
}

impl Refusal {
    /// The number by which the refusal is known outside.
    pub fn number(&self) -> u8
        ensures { result ≡ refusal_number self.now }
    {
        *self as u8
    }
}
