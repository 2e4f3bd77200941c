//! An account statement, kept from calls and answers alone.
use book::Place;
use fault::Fault;
use history::{Answer, Call};
use register::Entry;
use std::alloc::{AllocError, Global};

/// What was put or taken at a place.
#[derive(Clone, Copy)]
struct Booking {
    place: Place,
    entry: Entry,
}

/// What was booked, in turn.
#[derive(Drop)]
pub struct Statement {
    bookings: Vec<Booking>,
}

impl Statement {
    /// Nothing is booked yet.
    pub fn new(alloc: Global) -> Statement {
        Statement {
            bookings: Vec::new(alloc),
        }
    }

    /// Pay-ins add, pay-outs take, nothing else moves an amount yet; a refused call leaves the
    /// statement alone.
    pub fn read(&mut self, call: Call, answer: Result<Answer, Fault>) -> Result<(), AllocError> {
        if answer.is_err() {
            return Ok(());
        }
        match call {
            Call::PayIn(place, amount) => self.book(place, Entry::Put(amount)),
            Call::PayOut(place, amount) => self.book(place, Entry::Take(amount)),
            Call::Terms(_)
            | Call::Trade(_)
            | Call::Consent(_, _)
            | Call::Cancel(_)
            | Call::Tell(_) => Ok(()),
        }
    }

    fn book(&mut self, place: Place, entry: Entry) -> Result<(), AllocError> {
        self.bookings.push(Booking { place, entry })?;
        Ok(())
    }

    /// What stands at a place: what was paid in less what was paid out.
    pub fn amount(&self, place: Place) -> i128 {
        self.bookings
            .iter()
            .filter(|booking| booking.place == place)
            .fold(0, |sum: i128, booking| match booking.entry {
                Entry::Put(amount) => sum.saturating_add(i128::from(amount)),
                Entry::Take(amount) => sum.saturating_sub(i128::from(amount)),
            })
    }
}
