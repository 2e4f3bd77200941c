//! The register over signed rows, at a path of its own.
pub use crate::row_register::Table;
