//! A caller of a book, as a new user would write one, with what is proved of it.
ghost use Rattle.std.specs.Prelude.{◌≡◌, Some, Ok, IfOk};
ghost use Rattle.register.specs.Table.{table_shows};
ghost use Rattle.book.specs.Books.{state_of};
ghost use Rattle.book.specs.Daily.{on_book};
ghost use Rattle.cases.specs.Caller.{new_book, sale};

use book::{Book, Place, Settlement};
use fault::Fault;
use movement::{Setting, Side, Trade, TradeSide};
use register::Table;
use std::alloc::{AllocError, Global};

// The pieces of participant 1.
const SHARES: Place = Place {
    side: Side::Securities as u8,
    kind: 0,
    account: 1,
};

// Members 1 and 2 each name one participant for all their trades, of securities and of cash.
const SELLER: Setting = Setting {
    member: 1,
    category: b'-',
    securities: 1,
    cash: 1,
};

const BUYER: Setting = Setting {
    member: 2,
    category: b'-',
    securities: 2,
    cash: 2,
};

// A client of member 1 sells 6 pieces to a client of member 2 for 3.00 litas, to be settled the day
// after tomorrow.
const SALE: Trade = Trade {
    number: 1,
    class: b'C',
    security: 0,
    quantity: 6,
    currency: 0,
    sum: 300,
    day: 2,
    seller: TradeSide {
        member: 1,
        category: b'C',
        clearing: [b' '; 4],
    },
    buyer: TradeSide {
        member: 2,
        category: b'C',
        clearing: [b' '; 4],
    },
};

/// A depository with one security and two currencies on its own account and two participants'.
/// Nothing stands yet.
pub fn open(alloc: Global) -> Result<Book<Table, Table>, AllocError>
    ensures { IfOk result (λ b. state_of table_shows table_shows b ≡ new_book) }
{
    let securities = Table::zeroed(alloc, 1, 3)?;
    let cash = Table::zeroed(alloc, 2, 3)?;
    Ok(Book::open(securities, cash, 0))
}

/// Participant 1 pays in 10 pieces, of which 6 are sold: the sale stands on the book. Nothing
/// settles yet, so the participant still has 10, and that is told.
pub fn sell(book: &mut Book<Table, Table>) -> Result<u64, Fault>
    requires { state_of table_shows table_shows book.old ≡ new_book }
    ensures told { result ≡ Ok 10 }
    ensures entered { on_book 1 (state_of table_shows table_shows book.new).daily.movements
        ≡ Some sale }
{
    book.pay_in(SHARES, 10)?;
    book.set_terms(SELLER)?;
    book.set_terms(BUYER)?;
    book.trade(SALE)?;
    book.tell(SHARES)
}

/// The same from the opening on. Only want of memory stops it, before the first call.
pub fn open_and_sell(alloc: Global) -> Result<Result<u64, Fault>, AllocError>
    ensures { IfOk result (λ told. told ≡ Ok 10) }
{
    let mut book = open(alloc)?;
    Ok(sell(&mut book))
}

#[cfg(test)]
mod tests {
    use super::*;
    use std::test::Fail;

    #[test]
    fn the_caller_is_told_what_it_paid_in(rt: HostRuntime) -> Result<(), Fail> {
        assert_eq!(rt; open_and_sell(rt.alloc())?, Ok(10));
        Ok(())
    }
}
