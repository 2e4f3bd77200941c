//! A call on a book, and what an accepted call answers.
use book::Place;
use movement::{Setting, Trade};

/// A call, by its arguments.
#[derive(Clone, Copy, PartialEq, Eq, Debug)]
pub enum Call {
    PayIn(Place, u64),
    PayOut(Place, u64),
    Terms(Setting),
    Trade(Trade),
    /// A movement's number and a participant.
    Consent(u32, u8),
    /// A movement's number.
    Cancel(u32),
    Tell(Place),
}

/// What an accepted call answers.
// Stays: the new form is no plainer: `None` would say that nothing is told, where `Done` says that
// the call was done.
#[derive(Clone, Copy, PartialEq, Eq, Debug)]
pub enum Answer {
    Done,
    Amount(u64),
}
