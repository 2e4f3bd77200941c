//! Registers: how many pieces or hundredths of each kind stand on each account.
#![tactic(auto)]

pub mod cell;
pub mod columns;
pub mod entry;
pub mod joined;
pub mod refusal;
mod register;
pub mod row_register;
pub mod table;
pub mod turnover;

pub use cell::Cell;
pub use columns::{COLUMN_LIMIT, Columns};
pub use entry::Entry;
pub use joined::Joined;
pub use refusal::Refusal;
pub use register::{LIMIT, MOST, Register};
pub use row_register::{RowRegister, Table, Turnover};

#[cfg(test)]
mod tests;
