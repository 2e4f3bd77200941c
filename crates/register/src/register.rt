//! What a register is, whatever it keeps its amounts in.
ghost use Rattle.std.specs.Prelude.{◌≡◌, ℕ, ◌≤◌};
ghost use Rattle.register.specs.Holdings.{Holdings, limit, most};
ghost use Rattle.register.specs.Answers.{known_answer, Enters, Put, Taken, Transferred};

use crate::entry::Entry;
use crate::refusal::Refusal;

/// No amount is larger.
pub const LIMIT: u64 = 1_000_000_000_000_000;

/// No register shows more kinds, or more accounts.
pub const MOST: usize = 1000;

/// How many pieces or hundredths of each kind stand on each account.
pub trait Register: Drop {
    /// The meaning: the amount of each kind on each account.
    ghost shows: { Self → Holdings };

    /// How many kinds there are.
    fn kinds(&self) -> usize
        ensures { result ≡ (shows self.now).kinds };

    /// How many accounts there are.
    fn accounts(&self) -> usize
        ensures { result ≡ (shows self.now).accounts };

    /// The amount of a kind on an account, 0 where either is unknown.
    fn tell(&self, kind: usize, account: usize) -> u64
        ensures { result ≡ (shows self.now).amount kind account };

    /// Refuses a kind or an account that is not shown.
    fn ask_known(&self, kind: usize, account: usize) -> Result<(), Refusal>
        ensures { result ≡ known_answer (shows self.now) kind account }
    {
        if kind >= self.kinds() {
            return Err(Refusal::UnknownKind);
        }
        if account >= self.accounts() {
            return Err(Refusal::UnknownAccount);
        }
        Ok(())
    }

    /// Enters a change of one amount.
    fn enter(&mut self, kind: usize, account: usize, entry: Entry) -> Result<(), Refusal>
        ensures { Enters (shows self.old) kind account entry result (shows self.new) }
    {
        match entry {
            Entry::Put(amount) => self.put(kind, account, amount),
            Entry::Take(amount) => self.take(kind, account, amount),
        }
    }

    /// Raises one amount.
    fn put(&mut self, kind: usize, account: usize, amount: u64) -> Result<(), Refusal>
        ensures { Put (shows self.old) kind account amount result (shows self.new) };

    /// Lowers one amount.
    fn take(&mut self, kind: usize, account: usize, amount: u64) -> Result<(), Refusal>
        ensures { Taken (shows self.old) kind account amount result (shows self.new) };

    /// Lowers one amount and raises another of the same kind by the same number.
    fn transfer(&mut self, kind: usize, from: usize, to: usize, amount: u64) -> Result<(), Refusal>
        ensures { Transferred (shows self.old) kind from to amount result (shows self.new) }
    {
        self.ask_known(kind, from)?;
        self.ask_known(kind, to)?;
        Entry::Take(amount).ask_room(self.tell(kind, from))?;
        if from == to {
            return Ok(());
        }
        Entry::Put(amount).ask_room(self.tell(kind, to))?;
        self.take(kind, from, amount)?;
        self.put(kind, to, amount)
    }

    ghost few_kinds: { (s : Self) → (shows s).kinds ≤ most };

    ghost few_accounts: { (s : Self) → (shows s).accounts ≤ most };

    ghost bounded: { (s : Self) (k a : ℕ) → (shows s).amount k a ≤ limit };

    ghost unknown_kind: { (s : Self) (k a : ℕ) → (shows s).kinds ≤ k → (shows s).amount k a ≡ 0 };

    ghost unknown_account: { (s : Self) (k a : ℕ) →
        (shows s).accounts ≤ a → (shows s).amount k a ≡ 0 };
}
