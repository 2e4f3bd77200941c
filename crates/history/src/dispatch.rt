//! One call, by name.
ghost use Rattle.history.specs.Step.{Stepped};
ghost use Rattle.history.specs.Law.{Performed};

use crate::call::{Answer, Call};
use book::Settlement;
use fault::Fault;

/// Hands a call to the book's method for it.
fn dispatch<B: Settlement>(book: &mut B, call: Call) -> Result<Answer, Fault>
    ensures { Stepped (B.Settlement.state book.old) call result (B.Settlement.state book.new) }
{
    match call {
        Call::PayIn(place, amount) => {
            book.pay_in(place, amount)?;
            Ok(Answer::Done)
        }
        Call::PayOut(place, amount) => {
            book.pay_out(place, amount)?;
            Ok(Answer::Done)
        }
        Call::Terms(setting) => {
            book.set_terms(setting)?;
            Ok(Answer::Done)
        }
        Call::Trade(trade) => {
            book.trade(trade)?;
            Ok(Answer::Done)
        }
        Call::Consent(number, participant) => {
            book.consent(number, participant)?;
            Ok(Answer::Done)
        }
        Call::Cancel(number) => {
            book.cancel(number)?;
            Ok(Answer::Done)
        }
        Call::Tell(place) => Ok(Answer::Amount(book.tell(place)?)),
    }
}

/// Performs a call on a book: answered by the rules, and lawful after every history.
pub fn perform<B: Settlement>(book: &mut B, call: Call) -> Result<Answer, Fault>
    ensures { Performed (B.Settlement.state book.old) call result (B.Settlement.state book.new) }
{
    dispatch(book, call)
}
