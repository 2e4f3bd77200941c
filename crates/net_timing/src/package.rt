//! The packages whose settling is timed.
use movement::{Class, Movement, Party, Side};
use netting::{MOVEMENTS, PLACES, place_of};
use std::array;

// What a place holds that is not short.
const PLENTY: u64 = 1_000_000;

/// The movements of a case, all tried, and what each place holds.
// Stays: a rule of the project: what netting takes is in arrays of fixed size, by movement and
// place.
#[derive(Clone, Copy)]
pub struct Package {
    pub movements: [Movement; MOVEMENTS],
    pub amounts: [u64; PLACES],
}

fn party(securities: u8, cash: u8) -> Party {
    Party {
        securities,
        cash,
        standard: (securities, cash),
        one_off: false,
        consented: true,
    }
}

fn moving(number: u32, security: u8, currency: u8, seller: Party, buyer: Party) -> Movement {
    Movement {
        number,
        class: Class::Central,
        security,
        quantity: 10,
        currency,
        sum: 100,
        day: 0,
        seller,
        buyer,
        late: false,
    }
}

// An account from a number.
fn account(n: u16) -> u8 {
    (n % 32) as u8
}

// Everyone sells to account 31 for euro.
fn worst_movement(i: u8) -> Movement {
    let seller = i % 31;
    moving(
        u32::from(i) + 1,
        i % 16,
        1,
        party(seller, seller),
        party(31, 31),
    )
}

// Securities, currencies and accounts are mixed.
fn full_movement(i: u8) -> Movement {
    let n = u16::from(i);
    moving(
        u32::from(i) + 1,
        i % 16,
        i % 2,
        party(account(7 * n), account(3 * n)),
        party(account(7 * n + 5), account(3 * n + 11)),
    )
}

impl Package {
    /// Account 31 has no euro: all are struck for the last place, and none can rejoin.
    pub fn worst() -> Package {
        let mut amounts = [PLENTY; PLACES];
        amounts[place_of(Side::Cash, 1, 31)] = 0;
        Package {
            movements: array::from_fn(|i| worst_movement(i as u8)),
            amounts,
        }
    }

    /// Nothing is short: all settle.
    pub fn full() -> Package {
        Package {
            movements: array::from_fn(|i| full_movement(i as u8)),
            amounts: [PLENTY; PLACES],
        }
    }

    /// Alters what does not matter, so that no turn can take the answer of the one before.
    pub fn turn(&mut self, turn: u32) {
        let litas_of_account_0 = place_of(Side::Cash, 0, 0);
        self.amounts[litas_of_account_0] = PLENTY + u64::from(turn);
        self.movements[0].day = (turn % 65_536) as u16;
    }
}
