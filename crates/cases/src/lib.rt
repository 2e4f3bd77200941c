//! Worked cases of the rules, and tests of many cases.
#![tactic(auto)]

ghost use Rattle.std.specs.Prelude.{◌≡◌, length};
ghost use Rattle.cases.specs.Worked.{WorkedCases, table};

#[cfg(test)]
mod building;
pub mod caller;
#[cfg(test)]
mod calls;
#[cfg(test)]
mod edges;
#[cfg(test)]
mod lives;
#[cfg(test)]
mod openings;
#[cfg(test)]
mod order;
#[cfg(test)]
mod registers;
#[cfg(test)]
mod runs;

/// How many cases are worked.
pub fn worked_cases() -> usize
    ensures right { WorkedCases }
    ensures count { result ≡ length table }
{
    42
}
