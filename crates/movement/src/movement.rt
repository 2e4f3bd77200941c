//! A movement of securities against cash.
use crate::class::Class;
use crate::party::Party;

/// What a trade becomes on the book: securities that its seller gives, and cash that its buyer pays
/// for them. The default fills the unused room of a list of fixed room.
#[derive(Clone, Copy, PartialEq, Eq, Debug, Default)]
pub struct Movement {
    /// The number of its trade.
    pub number: u32,
    pub class: Class,
    /// The kind that is given.
    pub security: u8,
    /// How many pieces.
    pub quantity: u64,
    /// The kind of cash that is paid.
    // Stays: the new form is no plainer: this is the number of a kind of the cash register, as the
    // security is of the other, and netting answers its callers for any.
    pub currency: u8,
    /// How many hundredths of it.
    pub sum: u64,
    /// The day of settlement.
    pub day: u16,
    pub seller: Party,
    pub buyer: Party,
    /// Whether it became ready this afternoon.
    // Stays: the new form is no plainer: that it is ready follows from the two consents already.
    pub late: bool,
}
