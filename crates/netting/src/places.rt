//! The places: one for each account of each kind.
ghost use Rattle.std.specs.Prelude.{◌≡◌};
ghost use Rattle.netting.specs.Places.{place_of};

use movement::{CURRENCIES, MAX_ACCOUNTS, MAX_SECURITIES, Side};

/// How many places there are: the accounts of each kind of securities, then of each kind of cash.
pub const PLACES: usize = MAX_ACCOUNTS * (MAX_SECURITIES + CURRENCIES);

/// The place of an account of a kind of securities or of cash.
pub fn place_of(side: Side, kind: u8, account: u8) -> usize
    ensures { result ≡ place_of side kind account }
{
    let row = match side {
        Side::Securities => usize::from(kind),
        Side::Cash => MAX_SECURITIES + usize::from(kind),
    };
    MAX_ACCOUNTS * row + usize::from(account)
}
