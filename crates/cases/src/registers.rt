//! Registers are handed over to a book, and given back as its calls leave them.
use crate::building::compare;
use crate::calls::{money, shares};
use book::Book;
use history::{Answer, Call, perform};
use register::{Columns, Joined, Table, Turnover};
use std::test::Fail;

const MOST: u64 = 1_000_000_000_000;

#[test]
fn a_book_gives_its_registers_back(rt: HostRuntime) -> Result<(), Fail> {
    let alloc = rt.alloc();
    // two securities on three accounts, and a row that is left over
    let rows = vec![in alloc; -5, 3, 8, 0, 0, 1_000_000_000_000_007, 9]?;
    let securities = Table::new(rows, 2);
    let cash = Table::new(vec![in alloc; 0, 1, 0, 0, 0, 6]?, 2);
    let mut book = Book::open(securities, cash, 0);
    let cases = [
        (Call::PayIn(shares(0, 1), 2), 0),
        (Call::PayOut(shares(0, 2), 9), 15),
        (Call::PayOut(shares(0, 2), 8), 0),
        (Call::PayIn(shares(0, 0), 1), 12),
        // 10^15 + 7 counts as 10^15
        (Call::PayIn(shares(1, 1), 1), 14),
        (Call::PayOut(shares(1, 2), MOST), 0),
        (Call::PayIn(money(0, 2), 4), 0),
        (Call::PayOut(money(1, 1), 1), 15),
    ];
    compare(&mut book, &cases)?;
    let (securities, cash) = book.into_registers();
    assert_eq!(rt;
        securities.into_rows().as_slice(),
        [-5, 5, 0, 0, 0, 999_000_000_000_000, 9].as_slice()
    );
    assert_eq!(rt; cash.into_rows().as_slice(), [0, 1, 4, 0, 0, 6].as_slice());
    Ok(())
}

// Credits less debits.
fn columns(credits: u64, debits: u64) -> Columns {
    Columns { credits, debits }
}

#[test]
fn a_book_keeps_joined_registers(rt: HostRuntime) -> Result<(), Fail> {
    let alloc = rt.alloc();
    // one security in a table of four accounts, two in a turnover register of three: three
    // securities on three accounts
    let table = Table::new(vec![in alloc; 0, 9, 0, 77]?, 1);
    let turnover = Turnover::new(vec![in alloc; columns(9, 5); 6]?, 2);
    let litas = Turnover::new(vec![in alloc; columns(9, 5); 3]?, 1);
    let euro = Table::new(vec![in alloc; 0, 0, 2]?, 1);
    let securities = Joined::new(table, turnover);
    let mut book = Book::open(securities, Joined::new(litas, euro), 0);
    let cases = [
        (Call::Tell(shares(3, 0)), 11),
        (Call::Tell(shares(0, 3)), 12),
        (Call::PayIn(shares(1, 1), 6), 0),
        (Call::PayOut(shares(2, 2), 5), 15),
        (Call::PayOut(shares(2, 2), 4), 0),
        (Call::PayOut(shares(0, 1), 9), 0),
        (Call::PayIn(money(0, 2), 3), 0),
        (Call::PayIn(money(1, 2), 3), 0),
        (Call::PayIn(money(2, 2), 3), 11),
    ];
    compare(&mut book, &cases)?;
    let told = [
        (shares(0, 1), 0),
        (shares(1, 0), 4),
        (shares(1, 1), 10),
        (shares(2, 2), 0),
        (money(0, 2), 7),
        (money(1, 2), 5),
    ];
    for (place, amount) in told {
        assert_eq!(rt;
            perform(&mut book, Call::Tell(place)),
            Ok(Answer::Amount(amount))
        );
    }
    let (securities, cash) = book.into_registers();
    let (table, turnover) = securities.into_parts();
    assert_eq!(rt; table.into_rows().as_slice(), [0, 0, 0, 77].as_slice());
    let left = [
        columns(9, 5),
        columns(15, 5),
        columns(9, 5),
        columns(9, 5),
        columns(9, 5),
        columns(9, 9),
    ];
    assert_eq!(rt; turnover.into_rows().as_slice(), left.as_slice());
    let (litas, euro) = cash.into_parts();
    let left = [columns(9, 5), columns(9, 5), columns(12, 5)];
    assert_eq!(rt; litas.into_rows().as_slice(), left.as_slice());
    assert_eq!(rt; euro.into_rows().as_slice(), [0, 0, 5].as_slice());
    Ok(())
}
