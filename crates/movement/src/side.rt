//! The two sides of a trade: what is given, and what is paid for it.
ghost use Rattle.std.specs.Prelude.{◌≡◌};
ghost use Rattle.fault.specs.Questions.{or_fault};
ghost use Rattle.fault.specs.declared.fault.Fault.TheVariants.{UnknownSide};
ghost use Rattle.movement.specs.Sides.{side_of};

use fault::Fault;

/// A side; each has a register of its own.
#[derive(Clone, Copy, PartialEq, Eq, Debug)]
pub enum Side {
    /// What is given.
    Securities,
    /// What is paid.
    Cash,
}

impl TryFrom<u8> for Side {
    type Error = Fault;

    ghost try_from_gives = { λ number r. r ≡ or_fault UnknownSide (side_of number) };

    /// 0 is securities, 1 is cash.
    fn try_from(number: u8) -> Result<Side, Fault> {
        match number {
            0 => Ok(Side::Securities),
            1 => Ok(Side::Cash),
            _ => Err(Fault::UnknownSide),
        }
    }
}
