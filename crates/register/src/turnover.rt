//! The register over rows of credits and debits, at a path of its own.
pub use crate::row_register::Turnover;
