//! A worked day: the calls on a book, each told in words, and the account statement that is kept
//! beside it.
use crate::calls::{euros, shares, terms, trade};
use crate::depository::{Depository, open};
use crate::statement::Statement;
use book::Place;
use history::{Answer, Call, perform};

/// A call, and the words that tell it.
type Step = (&'static str, Call);

/// A depository's book, its account statement, and where the day is told.
#[derive(Drop)]
pub struct WorkedDay<'a> {
    rt: &'a HostRuntime,
    book: Depository,
    statement: Statement,
}

impl<'a> WorkedDay<'a> {
    /// Everything is 0.
    pub fn open(rt: &'a HostRuntime) -> anyhow::Result<Self> {
        Ok(WorkedDay {
            rt,
            book: open(rt.alloc())?,
            statement: Statement::new(rt.alloc()),
        })
    }

    /// The whole day.
    pub fn tell(&mut self) -> anyhow::Result<()> {
        println!(self.rt; "A depository opens with three participants, everything 0.")?;
        self.pay()?;
        self.deal()?;
        self.call_off()?;
        println!(self.rt; "The account statement, worked out from the calls and answers alone:")?;
        self.compare("Shares of participant 1", shares(1))?;
        self.compare("Euro cents of participant 2", euros(2))?;
        self.compare("Shares of the depository", shares(0))
    }

    /// Performs a call, says what came of it, and enters it into the statement.
    fn step(&mut self, words: &str, call: Call) -> anyhow::Result<()> {
        let answer = perform(&mut self.book, call);
        self.statement.read(call, answer)?;
        match answer {
            Ok(Answer::Done) => println!(self.rt; "{words}: done.")?,
            Ok(Answer::Amount(amount)) => println!(self.rt; "{words}: {amount}.")?,
            Err(fault) => {
                let number = fault.number();
                println!(self.rt; "{words}: refused by {number}, {fault}.")?;
            }
        }
        Ok(())
    }

    fn steps(&mut self, steps: &[Step]) -> anyhow::Result<()> {
        for (words, call) in steps {
            self.step(words, *call)?;
        }
        Ok(())
    }

    /// Compares the statement's amount of a place with the register's.
    fn compare(&mut self, words: &str, place: Place) -> anyhow::Result<()> {
        let stated = self.statement.amount(place);
        match perform(&mut self.book, Call::Tell(place)) {
            Ok(Answer::Amount(amount)) => {
                let verdict = if stated == i128::from(amount) {
                    "equal"
                } else {
                    "NOT equal"
                };
                println!(self.rt; "{words}: register {amount}, statement {stated}, {verdict}.")?;
            }
            _ => println!(self.rt; "{words}: not told.")?,
        }
        Ok(())
    }

    fn pay(&mut self) -> anyhow::Result<()> {
        self.steps(&[
            (
                "Participant 1 pays in 10 shares",
                Call::PayIn(shares(1), 10),
            ),
            (
                "Participant 2 pays in 5.00 euro",
                Call::PayIn(euros(2), 500),
            ),
            ("Shares of participant 1", Call::Tell(shares(1))),
            (
                "Participant 1 pays out 11 shares",
                Call::PayOut(shares(1), 11),
            ),
            (
                "Participant 1 pays out 4 shares",
                Call::PayOut(shares(1), 4),
            ),
            (
                "The depository's own account pays in 1 share",
                Call::PayIn(shares(0), 1),
            ),
            ("Shares of participant 1", Call::Tell(shares(1))),
        ])
    }

    fn deal(&mut self) -> anyhow::Result<()> {
        self.steps(&[
            ("Trade 1, before any terms are set", trade(1, *b"    ")),
            (
                "Member 1 names participant 1 for all its trades",
                terms(1, 1),
            ),
            (
                "Member 2 names participant 2 for all its trades",
                terms(2, 2),
            ),
            (
                "Trade 1: member 1 sells 6 shares to member 2 for 5.00 euro",
                trade(1, *b"    "),
            ),
            (
                "Participant 1, who gives the shares, consents",
                Call::Consent(1, 1),
            ),
            (
                "Participant 3, who has no duty, consents",
                Call::Consent(1, 3),
            ),
            ("Participant 2, who pays, consents", Call::Consent(1, 2)),
            ("Participant 2 consents once more", Call::Consent(1, 2)),
        ])
    }

    fn call_off(&mut self) -> anyhow::Result<()> {
        self.steps(&[
            (
                "Trade 2: the same, participant 3 acting for the buyer",
                trade(2, *b"V003"),
            ),
            ("Participant 3 consents", Call::Consent(2, 3)),
            ("Trade 2 is cancelled", Call::Cancel(2)),
            ("Trade 2 is cancelled once more", Call::Cancel(2)),
            ("Trade 2 is entered again", trade(2, *b"    ")),
            (
                "Shares of participant 1, nothing being settled yet",
                Call::Tell(shares(1)),
            ),
        ])
    }
}
