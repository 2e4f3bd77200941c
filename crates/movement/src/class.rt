//! The two classes of trades.
ghost use Rattle.std.specs.Prelude.{◌≡◌};
ghost use Rattle.fault.specs.Questions.{or_fault};
ghost use Rattle.fault.specs.declared.fault.Fault.TheVariants.{UnknownClass};
ghost use Rattle.movement.specs.Letters.{class_of};

use fault::Fault;

/// How a trade was made.
#[derive(Clone, Copy, PartialEq, Eq, Debug, Default)]
pub enum Class {
    /// On the central market.
    #[default]
    Central,
    /// Agreed directly.
    Direct,
}

impl TryFrom<u8> for Class {
    type Error = Fault;

    ghost try_from_gives = { λ letter r. r ≡ or_fault UnknownClass (class_of letter) };

    /// The class of a letter, as a trade has it.
    fn try_from(letter: u8) -> Result<Class, Fault> {
        match letter as char {
            'C' => Ok(Class::Central),
            'D' => Ok(Class::Direct),
            _ => Err(Fault::UnknownClass),
        }
    }
}
