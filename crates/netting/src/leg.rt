//! The legs of a movement.
ghost use Rattle.std.specs.Prelude.{◌≡◌};
ghost use Rattle.netting.specs.Places.{leg_of, leg_takes, leg_brings};

use crate::places::place_of;
use movement::{Movement, Side};

/// An amount that leaves one place and enters another.
#[derive(Clone, Copy)]
pub struct Leg {
    pub from: usize,
    pub to: usize,
    pub amount: u64,
}

impl Leg {
    /// The leg of a movement in securities or in cash.
    pub fn of(m: &Movement, side: Side) -> Leg
        ensures { result ≡ leg_of side m.now }
    {
        match side {
            Side::Securities => Leg {
                from: place_of(side, m.security, m.giver()),
                to: place_of(side, m.security, m.receiver()),
                amount: m.quantity,
            },
            Side::Cash => Leg {
                from: place_of(side, m.currency, m.payer()),
                to: place_of(side, m.currency, m.payee()),
                amount: m.sum,
            },
        }
    }

    // Stays: the new form is no plainer: strikes ask for what is taken and what is brought by these
    // names, and one function of both would need a parameter that says which.
    /// What it takes from a place.
    pub fn takes(&self, place: usize) -> u64
        ensures { result ≡ leg_takes self.now place }
    {
        if place == self.from { self.amount } else { 0 }
    }

    /// What it brings to a place.
    pub fn brings(&self, place: usize) -> u64
        ensures { result ≡ leg_brings self.now place }
    {
        if place == self.to { self.amount } else { 0 }
    }
}
