//! Places: one account of one kind in one of the two registers.

/// A place as a caller names it, by any numbers.
#[derive(Clone, Copy, PartialEq, Eq, Debug)]
pub struct Place {
    // Stays: a rule of the project: a caller may give any number, which is asked about in its turn,
    // after the opening's own questions.
    pub side: u8,
    pub kind: u8,
    pub account: u8,
}
