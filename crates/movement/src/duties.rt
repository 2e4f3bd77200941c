//! Who gives and who receives, and whether a movement may be tried.
ghost use Rattle.std.specs.Prelude.{◌≡◌};
ghost use Rattle.movement.specs.Movements.{due, giver as giver_of, payee as payee_of, payer as payer_of, ready, receiver as receiver_of};

use crate::movement::Movement;

impl Movement {
    /// The account that the securities leave.
    pub fn giver(&self) -> u8
        ensures { result ≡ giver_of self.now }
    {
        self.seller.securities
    }

    /// The account that the securities enter.
    pub fn receiver(&self) -> u8
        ensures { result ≡ receiver_of self.now }
    {
        self.buyer.securities
    }

    /// The account that the cash leaves.
    pub fn payer(&self) -> u8
        ensures { result ≡ payer_of self.now }
    {
        self.buyer.cash
    }

    /// The account that the cash enters.
    pub fn payee(&self) -> u8
        ensures { result ≡ payee_of self.now }
    {
        self.seller.cash
    }

    /// Whether giver and payer have consented.
    pub fn is_ready(&self) -> bool
        ensures { result ≡ ready self.now }
    {
        self.seller.consented && self.buyer.consented
    }

    /// Whether its day has come.
    pub fn is_due(&self, today: u32) -> bool
        ensures { result ≡ due today self.now }
    {
        u32::from(self.day) <= today
    }
}
