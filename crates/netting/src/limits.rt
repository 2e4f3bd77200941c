//! What the netting takes.
ghost use Rattle.std.specs.Prelude.{◌≡◌, ◌-◌, length};
ghost use Rattle.std.specs.List.{list_all};
ghost use Rattle.netting.specs.Search.{none_below};
ghost use Rattle.netting.specs.Limits.{known_accounts, known_kinds, amounts_fit, fits as fits_limits, falls, fitting as fitting_of, small, bounded};

use crate::places::PLACES;
use movement::{
    CURRENCIES, MAX_ACCOUNTS, MAX_MOVED, MAX_MOVEMENTS, MAX_SECURITIES, Movement, Party,
};
use register::LIMIT;

/// The most movements that a package has.
pub const MOVEMENTS: usize = MAX_MOVEMENTS;

fn accounts_known(party: &Party) -> bool
    ensures { result ≡ known_accounts party.now }
{
    usize::from(party.securities) < MAX_ACCOUNTS && usize::from(party.cash) < MAX_ACCOUNTS
}

fn amounts_fit(m: &Movement) -> bool
    ensures { result ≡ amounts_fit m.now }
{
    m.quantity <= MAX_MOVED && m.sum <= MAX_MOVED
}

fn kinds_known(m: &Movement) -> bool
    ensures { result ≡ known_kinds m.now }
{
    usize::from(m.security) < MAX_SECURITIES && usize::from(m.currency) < CURRENCIES
}

fn fits(m: &Movement) -> bool
    ensures { result ≡ fits_limits m.now }
{
    kinds_known(m) && amounts_fit(m) && accounts_known(&m.seller) && accounts_known(&m.buyer)
}

fn all_fit(movements: &[Movement]) -> bool
    ensures { result ≡ list_all fits_limits movements.now }
{
    movements.iter().all(fits)
}

fn all_rise(movements: &[Movement]) -> bool
    ensures { result ≡ none_below (length movements.now - 1) (falls movements.now) }
{
    movements
        .windows(2)
        .all(|pair| pair[0].number < pair[1].number)
}

fn all_small(amounts: &[u64; PLACES]) -> bool
    ensures { result ≡ small amounts.now }
{
    amounts.iter().all(|amount| *amount <= LIMIT)
}

/// Whether the movements can be netted, whatever their order.
pub fn fitting(movements: &[Movement]) -> bool
    ensures { result ≡ fitting_of movements.now }
{
    movements.len() <= MOVEMENTS && all_fit(movements)
}

/// Whether movements and amounts are within the limits.
pub fn within_limits(movements: &[Movement], amounts: &[u64; PLACES]) -> bool
    ensures { result ≡ bounded movements.now amounts.now }
{
    fitting(movements) && all_rise(movements) && all_small(amounts)
}
