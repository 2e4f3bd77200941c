//! Sums over the accounts of a register.
ghost use Rattle.std.specs.Prelude.{◌≡◌, ◌≤◌, ◌*◌};
ghost use Rattle.register.specs.Holdings.{limit, most, total};
ghost use Rattle.book.specs.Opening.{sums_within};

use register::{LIMIT, Register};

/// What all accounts hold of a kind together.
pub fn sum<R: Register>(register: &R, kind: usize) -> u64
    ensures value { result ≡ total (R.Register.shows register.now) kind }
    ensures bound { result ≤ most * limit }
{
    (0..register.accounts())
        .map(|account| register.tell(kind, account))
        .sum()
}

/// Whether no kind's sum passes the limit of a register.
pub fn within_limit<R: Register>(register: &R) -> bool
    ensures { result ≡ sums_within (R.Register.shows register.now) }
{
    (0..register.kinds()).all(|kind| sum(register, kind) <= LIMIT)
}
