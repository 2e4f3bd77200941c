//! A trade as the exchange reports it, by any numbers.

/// A side of a trade.
#[derive(Clone, Copy, PartialEq, Eq, Debug)]
pub struct TradeSide {
    pub member: u8,
    /// A letter.
    // Stays: a rule of the project: a caller may give any letter, which is asked about in its turn.
    pub category: u8,
    /// Blank, or the participant that acts for the side this once.
    // Stays: a rule of the project: a clearing field is four characters, any of which are asked
    // about in their turn.
    pub clearing: [u8; 4],
}

/// A trade, before anything is asked of it.
#[derive(Clone, Copy, PartialEq, Eq, Debug)]
pub struct Trade {
    pub number: u32,
    /// A letter.
    // Stays: a rule of the project: a caller may give any letter, which is asked about in its turn.
    pub class: u8,
    pub security: u8,
    pub quantity: u64,
    // Stays: a rule of the project: a caller may give any number, which is asked about in its turn.
    pub currency: u8,
    pub sum: u64,
    /// The day of settlement.
    pub day: u16,
    pub seller: TradeSide,
    pub buyer: TradeSide,
}
