//! Paying into and out of one register.
ghost use Rattle.std.specs.Prelude.{◌≡◌};
ghost use Rattle.fault.specs.Questions.{asked, passes};
ghost use Rattle.movement.specs.Limits.{most_moved};
ghost use Rattle.movement.specs.Bounds.{from_one_to};
ghost use Rattle.book.specs.Paying.{amount_of, inquiry_questions, payment_questions, Pays};

use crate::place::Place;
use crate::sums::sum;
use fault::{Fault, ask};
use movement::MAX_MOVED;
use register::{Entry, LIMIT, Register};

/// Asks what is asked of an amount paid into an account or out of it.
// Stays: the new form is no plainer: calls come with a place and an amount, and a struct of place and
// entry would be made for one call and taken apart in it.
fn payable<R: Register>(register: &R, place: Place, entry: Entry) -> Result<(), Fault>
    ensures { result ≡ passes (payment_questions (R.Register.shows register.now) place entry) }
{
    let kind = usize::from(place.kind);
    let account = usize::from(place.account);
    ask(kind < register.kinds(), Fault::UnknownKind)?;
    ask(
        account >= 1 && account < register.accounts(),
        Fault::UnknownAccount,
    )?;
    let amount = amount(entry);
    ask(is_movable(amount), Fault::AmountRange)?;
    match entry {
        Entry::Put(_) => ask(sum(register, kind) + amount <= LIMIT, Fault::SumRange),
        Entry::Take(_) => ask(amount <= register.tell(kind, account), Fault::HoldsLess),
    }
}

/// Pays an amount into an account or out of it.
pub fn pay<R: Register>(register: &mut R, place: Place, entry: Entry) -> Result<(), Fault>
    ensures { Pays (R.Register.shows register.old) place entry result
        (R.Register.shows register.new) }
{
    payable(register, place, entry)?;
    register.enter(usize::from(place.kind), usize::from(place.account), entry)?;
    Ok(())
}

/// Whether an amount may be moved at once: it is from 1 to 10^12.
pub fn is_movable(amount: u64) -> bool
    ensures { result ≡ from_one_to most_moved amount }
{
    amount >= 1 && amount <= MAX_MOVED
}

/// What an entry moves.
fn amount(entry: Entry) -> u64
    ensures { result ≡ amount_of entry }
{
    match entry {
        Entry::Put(amount) | Entry::Take(amount) => amount,
    }
}

/// Tells the amount of an account, account 0 too.
pub fn inquire<R: Register>(register: &R, place: Place) -> Result<u64, Fault>
    ensures { result ≡ asked (inquiry_questions (R.Register.shows register.now) place)
        ((R.Register.shows register.now).amount place.kind place.account) }
{
    let kind = usize::from(place.kind);
    let account = usize::from(place.account);
    ask(kind < register.kinds(), Fault::UnknownKind)?;
    ask(account < register.accounts(), Fault::UnknownAccount)?;
    Ok(register.tell(kind, account))
}
