//! A whole run of calls, from the opening.
ghost use Rattle.std.specs.Prelude.{IfOk};
ghost use Rattle.book.specs.Books.{state_of};
ghost use Rattle.book.specs.Opening.{opens_on};
ghost use Rattle.history.specs.Law.{Ran};

use crate::call::{Answer, Call};
use crate::dispatch::perform;
use book::Book;
use fault::Fault;
use register::Register;
use std::alloc::{AllocError, Global};

/// What a run leaves: the book, and the answer of each call in turn.
#[derive(Drop)]
pub struct Finished<S: Register, C: Register> {
    pub book: Book<S, C>,
    pub answers: Vec<Result<Answer, Fault>>,
}

/// Opens a book and performs the calls one after the other.
/// Only want of memory for the answers, before the first call, can stop it.
pub fn run<S: Register, C: Register>(
    alloc: Global,
    securities: S,
    cash: C,
    first_day: u32,
    calls: &[Call],
) -> Result<Finished<S, C>, AllocError>
    ensures { IfOk result (λ f. Ran
        (opens_on (S.Register.shows securities) (C.Register.shows cash) first_day)
        calls.now f.answers.items (state_of S.Register.shows C.Register.shows f.book)) }
{
    let mut book = Book::open(securities, cash, first_day);
    let mut answers = Vec::with_capacity(alloc, calls.len())?;
    for call in calls {
        answers.push_reserved(perform(&mut book, *call));
    }
    Ok(Finished { book, answers })
}
