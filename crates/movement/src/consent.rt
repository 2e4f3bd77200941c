//! Consent of the participants that have to give.
ghost use Rattle.std.specs.Prelude.{◌≡◌};
ghost use Rattle.movement.specs.Consents.{consented as consented_by, has_duty, silent};

use crate::half::Half;
use crate::movement::Movement;

impl Movement {
    /// Whether a participant is its giver or payer.
    pub fn has_duty(&self, participant: u8) -> bool
        ensures { result ≡ has_duty self.now participant }
    {
        self.giver() == participant || self.payer() == participant
    }

    /// Whether a participant has a duty for which it has not consented.
    pub fn is_silent(&self, participant: u8) -> bool
        ensures { result ≡ silent self.now participant }
    {
        self.giver() == participant && !self.seller.consented
            || self.payer() == participant && !self.buyer.consented
    }

    /// The movement with a participant's consent to every duty it has, given in this half of the
    /// day.
    pub fn consented(mut self, participant: u8, half: Half) -> Movement
        ensures { result ≡ consented_by self participant half }
    {
        self.seller.consented |= self.giver() == participant;
        self.buyer.consented |= self.payer() == participant;
        self.late |= half == Half::Afternoon && self.is_ready();
        self
    }
}
