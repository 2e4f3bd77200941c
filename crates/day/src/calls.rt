//! The calls of the day.
use book::Place;
use history::Call;
use movement::{Setting, Side, Trade, TradeSide};

// Stays: the new form is no plainer: a public function of book, with a contract and an edit of its
// own, for a record of three fields that a program and the tests write once each.
fn place(side: Side, kind: u8, account: u8) -> Place {
    Place {
        side: side as u8,
        kind,
        account,
    }
}

/// Where an account's shares stand.
pub fn shares(account: u8) -> Place {
    place(Side::Securities, 0, account)
}

/// Where an account's euro stand.
pub fn euros(account: u8) -> Place {
    place(Side::Cash, 1, account)
}

/// A member names one custodian for all its trades, of securities and of cash.
pub fn terms(member: u8, custodian: u8) -> Call {
    Call::Terms(Setting {
        member,
        category: b'-',
        securities: custodian,
        cash: custodian,
    })
}

fn client_of(member: u8, clearing: [u8; 4]) -> TradeSide {
    TradeSide {
        member,
        category: b'C',
        clearing,
    }
}

/// Member 1 sells 6 shares to member 2 for 5.00 euro, to be settled tomorrow.
pub fn trade(number: u32, clearing: [u8; 4]) -> Call {
    Call::Trade(Trade {
        number,
        class: b'C',
        security: 0,
        quantity: 6,
        currency: 1,
        sum: 500,
        day: 1,
        seller: client_of(1, *b"    "),
        buyer: client_of(2, clearing),
    })
}
