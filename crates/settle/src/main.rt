//! Reads frames from standard input, one a line, and answers each with a line.
#![tactic(auto)]

mod opening;
mod settling;
#[cfg(test)]
mod tests;

use crate::settling::{settle, told};

fn main(rt: HostRuntime) -> anyhow::Result<()> {
    settle(rt.alloc(), &mut rt.stdin(), &mut rt.stdout()).map_err(told)
}
