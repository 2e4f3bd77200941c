//! The calls that the tests make.
use book::Place;
use history::Call;
use movement::{Setting, Side, Trade, TradeSide};

// Stays: the new form is no plainer: a public function of book, with a contract and an edit of its
// own, for a record of three fields that a program and the tests write once each.
fn place(side: Side, kind: u8, account: u8) -> Place {
    Place {
        side: side as u8,
        kind,
        account,
    }
}

/// Where a security of an account stands.
pub fn shares(kind: u8, account: u8) -> Place {
    place(Side::Securities, kind, account)
}

/// Where a currency of an account stands.
pub fn money(kind: u8, account: u8) -> Place {
    place(Side::Cash, kind, account)
}

/// The terms of a member for a category, by its letter.
pub fn terms(member: u8, category: u8, securities: u8, cash: u8) -> Call {
    Call::Terms(Setting {
        member,
        category,
        securities,
        cash,
    })
}

/// A client of a member, with a blank clearing field.
pub fn client(member: u8) -> TradeSide {
    TradeSide {
        member,
        category: b'C',
        clearing: *b"    ",
    }
}

/// A client of member 1 sells one share to a client of member 2 for one cent, today.
pub fn numbered(number: u32) -> Trade {
    Trade {
        number,
        class: b'C',
        security: 0,
        quantity: 1,
        currency: 0,
        sum: 1,
        day: 0,
        seller: client(1),
        buyer: client(2),
    }
}

/// The call of that trade.
pub fn trade(number: u32) -> Call {
    Call::Trade(numbered(number))
}

/// The call of that trade with a change.
pub fn changed<F: FnOnce(&mut Trade)>(number: u32, change: F) -> Call
    requires { F.IsAlwaysCallable change }
{
    let mut trade = numbered(number);
    change(&mut trade);
    Call::Trade(trade)
}
