//! The categories for which a member sets terms.
ghost use Rattle.std.specs.Prelude.{◌≡◌, ◌<◌};
ghost use Rattle.fault.specs.Questions.{or_fault};
ghost use Rattle.fault.specs.declared.fault.Fault.TheVariants.{UnknownCategory};
ghost use Rattle.movement.specs.Letters.{category_of, row as row_of};
ghost use Rattle.movement.specs.Limits.{categories};

use fault::Fault;

/// For whom a member trades, each with terms of its own.
#[derive(Clone, Copy, PartialEq, Eq, Debug)]
pub enum Category {
    Client,
    Own,
    MarketMaker,
    Issuer,
    /// The terms of every category that has none.
    Main,
}

impl TryFrom<u8> for Category {
    type Error = Fault;

    ghost try_from_gives = { λ letter r. r ≡ or_fault UnknownCategory (category_of letter) };

    /// The category of a letter, as a trade has it.
    fn try_from(letter: u8) -> Result<Category, Fault> {
        match letter as char {
            'C' => Ok(Category::Client),
            'O' => Ok(Category::Own),
            'M' => Ok(Category::MarketMaker),
            'I' => Ok(Category::Issuer),
            '-' => Ok(Category::Main),
            _ => Err(Fault::UnknownCategory),
        }
    }
}

impl Category {
    /// Its place in a member's terms.
    pub(crate) fn row(self) -> usize
        ensures value { result ≡ row_of self }
        ensures bound { result < categories }
    {
        self as usize
    }
}
