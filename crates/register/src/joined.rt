//! Two registers shown as one: the kinds of the first, then those of the second.
ghost use Rattle.std.specs.Prelude.{◌≡◌};
ghost use Rattle.register.specs.Answers.{Enters, Put, Taken};
ghost use Rattle.register.specs.Entry.{holdings_after};
ghost use Rattle.register.specs.Holdings.{raised, lowered};
ghost use Rattle.register.specs.Joined.{joined_holdings, joined_shows, first_of, second_of, PartsLeft};
ghost use Rattle.std.proofs.Common.{rules};

use crate::entry::Entry;
use crate::refusal::Refusal;
use crate::register::{MOST, Register};

/// Two registers as one. Calls on a kind are passed to the part that has it.
#[derive(Drop)]
pub struct Joined<S: Register, C: Register> {
    first: S,
    second: C,
}

impl<S: Register, C: Register> Joined<S, C> {
    /// The two as one: the accounts that both have, and as many kinds as a register may show.
    pub fn new(first: S, second: C) -> Joined<S, C>
        ensures shows { joined_shows S.Register.shows C.Register.shows result
            ≡ joined_holdings (S.Register.shows first) (C.Register.shows second) }
        ensures first { first_of result ≡ first }
        ensures second { second_of result ≡ second }
    {
        Joined { first, second }
    }

    /// The parts as they stand.
    pub fn into_parts(self) -> (S, C)
        ensures first { result.0 ≡ first_of self }
        ensures second { result.1 ≡ second_of self }
    {
        let Joined { first, second } = self;
        (first, second)
    }
}

impl<S: Register, C: Register> Register for Joined<S, C> {
    ghost shows = { joined_shows S.Register.shows C.Register.shows };

    ghost few_kinds = { Prim.search rules };

    ghost few_accounts = { Prim.search rules };

    ghost bounded = { Prim.search rules };

    ghost unknown_kind = { Prim.search rules };

    ghost unknown_account = { Prim.search rules };

    fn kinds(&self) -> usize {
        (self.first.kinds() + self.second.kinds()).min(MOST)
    }

    fn accounts(&self) -> usize {
        self.first.accounts().min(self.second.accounts())
    }

    fn tell(&self, kind: usize, account: usize) -> u64 {
        if self.ask_known(kind, account).is_err() {
            return 0;
        }
        let first = self.first.kinds();
        // Stays: the new form is no plainer: the two registers are of two types, and a `dyn` made
        // for one call says no more than the two arms.
        if kind < first {
            self.first.tell(kind, account)
        } else {
            self.second.tell(kind - first, account)
        }
    }

    fn enter(&mut self, kind: usize, account: usize, entry: Entry) -> Result<(), Refusal>
        ensures enters { Enters (joined_shows S.Register.shows C.Register.shows self.old)
            kind account entry result
            (joined_shows S.Register.shows C.Register.shows self.new) }
        ensures parts { PartsLeft
            (S.Register.shows (first_of self.old)) (C.Register.shows (second_of self.old))
            (λ h k. holdings_after h k account entry) kind result
            (S.Register.shows (first_of self.new)) (C.Register.shows (second_of self.new)) }
    {
        self.ask_known(kind, account)?;
        let first = self.first.kinds();
        // Stays: the new form is no plainer: the two registers are of two types, and a `dyn` made
        // for one call says no more than the two arms.
        if kind < first {
            self.first.enter(kind, account, entry)
        } else {
            self.second.enter(kind - first, account, entry)
        }
    }

    // Stays: a rule of the project: put and take are the callers' words, each with its own promise
    // (docs/DECISIONS.md).
    fn put(&mut self, kind: usize, account: usize, amount: u64) -> Result<(), Refusal>
        ensures put { Put (joined_shows S.Register.shows C.Register.shows self.old)
            kind account amount result
            (joined_shows S.Register.shows C.Register.shows self.new) }
        ensures parts { PartsLeft
            (S.Register.shows (first_of self.old)) (C.Register.shows (second_of self.old))
            (λ h k. raised h k account amount) kind result
            (S.Register.shows (first_of self.new)) (C.Register.shows (second_of self.new)) }
    {
        self.enter(kind, account, Entry::Put(amount))
    }

    fn take(&mut self, kind: usize, account: usize, amount: u64) -> Result<(), Refusal>
        ensures taken { Taken (joined_shows S.Register.shows C.Register.shows self.old)
            kind account amount result
            (joined_shows S.Register.shows C.Register.shows self.new) }
        ensures parts { PartsLeft
            (S.Register.shows (first_of self.old)) (C.Register.shows (second_of self.old))
            (λ h k. lowered h k account amount) kind result
            (S.Register.shows (first_of self.new)) (C.Register.shows (second_of self.new)) }
    {
        self.enter(kind, account, Entry::Take(amount))
    }
}
