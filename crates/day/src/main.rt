//! One day at a small depository, told step by step.
#![tactic(auto)]

mod calls;
mod depository;
mod statement;
mod worked_day;

use crate::worked_day::WorkedDay;

fn main(rt: HostRuntime) -> anyhow::Result<()> {
    WorkedDay::open(&rt)?.tell()
}
