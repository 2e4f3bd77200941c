//! Calls by name, and the law that every run of calls keeps.
#![tactic(auto)]

pub mod call;
mod dispatch;
mod runs;

pub use call::{Answer, Call};
pub use dispatch::perform;
pub use runs::{Finished, run};
