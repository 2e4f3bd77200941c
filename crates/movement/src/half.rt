//! The two halves of a day.

/// A half of a day; the package settles between them.
#[derive(Clone, Copy, PartialEq, Eq, Debug)]
pub enum Half {
    /// Before midday.
    Morning,
    /// After it.
    Afternoon,
}
