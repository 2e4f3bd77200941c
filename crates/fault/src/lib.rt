//! Faults: every reason for which a call is refused, with its number, and the questions that a call
//! asks.
#![tactic(auto)]

pub mod fault;
pub mod question;

pub use fault::Fault;
pub use question::ask;
