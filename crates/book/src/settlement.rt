//! The calls on a book, each by its contract: the answer, and the state after it.
ghost use Rattle.std.specs.Prelude.{◌≡◌};
ghost use Rattle.register.specs.declared.entry.Entry.TheVariants.{Put, Take};
ghost use Rattle.book.specs.State.{State};
ghost use Rattle.book.specs.Books.{state_of};
ghost use Rattle.book.specs.Paying.{Paid, told};
ghost use Rattle.book.specs.Trading.{CancelDone, Consented, TermsSet, Traded};

use crate::book::Book;
use crate::paying::{inquire, pay};
use crate::place::Place;
use fault::Fault;
use movement::{Setting, Side, Trade};
use register::{Entry, Register};

/// What a book does.
pub trait Settlement {
    /// The state that the rules speak of.
    ghost state: { Self → State };

    /// Pays an amount into an account.
    fn pay_in(&mut self, place: Place, amount: u64) -> Result<(), Fault>
        ensures { Paid (state self.old) place (Put amount) result (state self.new) };

    /// Pays an amount out of an account.
    fn pay_out(&mut self, place: Place, amount: u64) -> Result<(), Fault>
        ensures { Paid (state self.old) place (Take amount) result (state self.new) };

    /// Sets the terms of one category of one member.
    fn set_terms(&mut self, setting: Setting) -> Result<(), Fault>
        ensures { TermsSet (state self.old) setting result (state self.new) };

    /// Forms a movement from a trade and enters it.
    fn trade(&mut self, trade: Trade) -> Result<(), Fault>
        ensures { Traded (state self.old) trade result (state self.new) };

    /// Takes a participant's consent to a movement.
    fn consent(&mut self, number: u32, participant: u8) -> Result<(), Fault>
        ensures { Consented (state self.old) number participant result (state self.new) };

    /// Takes a movement off the book.
    fn cancel(&mut self, number: u32) -> Result<(), Fault>
        ensures { CancelDone (state self.old) number result (state self.new) };

    /// Tells the amount of an account.
    fn tell(&self, place: Place) -> Result<u64, Fault>
        ensures { result ≡ told (state self.now) place };
}

impl<S: Register, C: Register> Book<S, C> {
    /// Pays an amount into an account or out of it.
    fn pay(&mut self, place: Place, entry: Entry) -> Result<(), Fault>
        ensures { Paid (state_of S.Register.shows C.Register.shows self.old) place entry result
            (state_of S.Register.shows C.Register.shows self.new) }
    {
        self.passed()?;
        // Stays: the new form is no plainer: the two registers are of two types, and what is done
        // with either is one generic function already.
        match Side::try_from(place.side)? {
            Side::Securities => pay(&mut self.securities, place, entry),
            Side::Cash => pay(&mut self.cash, place, entry),
        }
    }
}

impl<S: Register, C: Register> Settlement for Book<S, C> {
    ghost state = { state_of S.Register.shows C.Register.shows };

    fn pay_in(&mut self, place: Place, amount: u64) -> Result<(), Fault> {
        self.pay(place, Entry::Put(amount))
    }

    fn pay_out(&mut self, place: Place, amount: u64) -> Result<(), Fault> {
        self.pay(place, Entry::Take(amount))
    }

    fn set_terms(&mut self, setting: Setting) -> Result<(), Fault> {
        self.passed()?;
        self.daybook.agree(setting)
    }

    fn trade(&mut self, trade: Trade) -> Result<(), Fault> {
        self.passed()?;
        self.daybook.trade(trade)
    }

    fn consent(&mut self, number: u32, participant: u8) -> Result<(), Fault> {
        self.passed()?;
        self.daybook.consent(number, participant)
    }

    fn cancel(&mut self, number: u32) -> Result<(), Fault> {
        self.passed()?;
        self.daybook.cancel(number)
    }

    fn tell(&self, place: Place) -> Result<u64, Fault> {
        self.passed()?;
        // Stays: the new form is no plainer: the two registers are of two types, and what is done
        // with either is one generic function already.
        match Side::try_from(place.side)? {
            Side::Securities => inquire(&self.securities, place),
            Side::Cash => inquire(&self.cash, place),
        }
    }
}
