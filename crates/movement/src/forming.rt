//! A movement is formed from a trade.
ghost use Rattle.std.specs.Prelude.{◌≡◌, ◌++◌};
ghost use Rattle.fault.specs.Questions.{asked};
ghost use Rattle.movement.specs.Forming.{formed, movement_of, party_of, side_questions};
ghost use Rattle.movement.specs.Terms.{accounts_of, agreed};

use crate::category::Category;
use crate::class::Class;
use crate::clearing::one_off_participant;
use crate::movement::Movement;
use crate::party::Party;
use crate::terms::Terms;
use crate::trade::{Trade, TradeSide};
use fault::Fault;

// The party with the standard pair of its custodians: one-off terms give both duties to one
// participant.
fn party_with(standard: (u8, u8), one_off: Option<u8>) -> Party
    ensures { result ≡ formed standard one_off }
{
    let (securities, cash) = one_off.map_or(standard, |participant| (participant, participant));
    Party {
        securities,
        cash,
        standard,
        one_off: one_off.is_some(),
        consented: false,
    }
}

// The party of one side of a trade, in a book of so many accounts.
fn party(terms: &Terms, accounts: u8, side: TradeSide) -> Result<Party, Fault>
    ensures { result ≡ asked
        (side_questions (agreed terms.now) accounts side)
        (party_of (agreed terms.now) side) }
{
    let category = Category::try_from(side.category)?;
    let standard = terms.look_up(side.member, category).ok_or(Fault::NoTerms)?;
    let one_off = one_off_participant(side.clearing, accounts)?;
    Ok(party_with(standard, one_off))
}

/// The movement of a trade of a known class in the book of the terms, by these as they stand.
pub fn form(terms: &Terms, class: Class, trade: Trade) -> Result<Movement, Fault>
    ensures { result ≡ asked
        (side_questions (agreed terms.now) (accounts_of terms.now) trade.seller
        ++ side_questions (agreed terms.now) (accounts_of terms.now) trade.buyer)
        (movement_of (agreed terms.now) class trade) }
{
    form_for(terms, terms.accounts(), class, trade)
}

/// The movement of a trade of a known class in a book of so many accounts, where one table of terms
/// serves books of several sizes: a clearing field may name a participant of that book alone. The
/// custodians are as the terms have them, for whichever book they were set.
pub fn form_for(terms: &Terms, accounts: u8, class: Class, trade: Trade) -> Result<Movement, Fault>
    ensures { result ≡ asked
        (side_questions (agreed terms.now) accounts trade.seller
        ++ side_questions (agreed terms.now) accounts trade.buyer)
        (movement_of (agreed terms.now) class trade) }
{
    let seller = party(terms, accounts, trade.seller)?;
    let buyer = party(terms, accounts, trade.buyer)?;
    // Stays: the new form is no plainer: a conversion from the trade alone could not know the
    // parties.
    Ok(Movement {
        number: trade.number,
        class,
        security: trade.security,
        quantity: trade.quantity,
        currency: trade.currency,
        sum: trade.sum,
        day: trade.day,
        seller,
        buyer,
        late: false,
    })
}
