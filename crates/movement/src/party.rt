//! One side of a movement.

/// The seller or the buyer of a movement, by the accounts that act for it.
#[derive(Clone, Copy, PartialEq, Eq, Debug, Default)]
pub struct Party {
    /// The custodian of securities.
    pub securities: u8,
    /// The custodian of cash.
    pub cash: u8,
    /// The pair that the member's terms gave: of securities, of cash.
    pub standard: (u8, u8),
    /// Whether the custodians come from the trade itself and not from the terms.
    // Stays: a rule of the project, since the clearing field's Option is taken apart when a
    // movement is formed: into both custodians and this mark (docs/DECISIONS.md, language forms).
    pub one_off: bool,
    /// Whether the custodian that has to give has consented: of the seller that of securities, of
    /// the buyer that of cash.
    pub consented: bool,
}
