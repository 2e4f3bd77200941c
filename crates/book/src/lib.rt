//! The book: two registers, a day, and the calls on them.
#![tactic(auto)]

pub mod book;
pub mod daybook;
mod opening;
mod paying;
pub mod place;
pub mod settlement;
mod sums;

pub use book::Book;
pub use place::Place;
pub use settlement::Settlement;
