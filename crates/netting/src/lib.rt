//! Netting: which movements of a package settle.
#![tactic(auto)]

mod cases;
mod leg;
mod limits;
mod package;
mod places;
mod positions;
mod settle;
#[cfg(test)]
mod tests;

pub use limits::MOVEMENTS;
pub use places::{PLACES, place_of};
pub use positions::position;
pub use settle::settling;
