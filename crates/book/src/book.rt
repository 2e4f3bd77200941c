//! A book over a securities register and a cash register.
use crate::daybook::Daybook;
use fault::Fault;
use register::Register;
use std::marker::Model;

/// A book: what it keeps of its day, and the registers of its two sides.
///
/// Unless its opening failed, both registers show the accounts and the kinds that the book goes by,
/// and no kind's sum passes the limit.
#[derive(Drop)]
pub struct Book<S: Register, C: Register> {
    // The opening question that failed, if one did.
    // Stays: the new form is no plainer: the rules' state has the fault as an Option, and after a
    // failed opening a day book with its day and sizes of 0 beside it, so a Result of the day book
    // would have to keep both.
    pub(crate) failed: Option<Fault>,
    pub(crate) daybook: Daybook,
    pub(crate) securities: S,
    pub(crate) cash: C,
}

impl<S: Register, C: Register> Model for Book<S, C> {
    ghost use Rattle.book.specs.Parts.{Parts};
    ghost use Rattle.book.specs.Books.{parts, state_of};
    ghost use Rattle.book.specs.Sound.{IsSound};

    ghost Value = { Parts S C };

    ghost view = { λ b. parts b.failed b.daybook b.securities b.cash };

    ghost invariant = { λ b. IsSound (state_of S.Register.shows C.Register.shows
        (parts b.failed b.daybook b.securities b.cash)) };
}
