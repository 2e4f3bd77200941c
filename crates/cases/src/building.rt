//! A book to try calls on, and what its answers are compared with.
use crate::calls::terms;
use book::Book;
use history::{Call, perform};
use register::{Register, Table};
use std::alloc::{AllocError, Global};
use std::test::Fail;

/// A book over two tables.
pub type Depository = Book<Table, Table>;

/// A table with the same amount in every row.
pub fn table(alloc: Global, kinds: u8, accounts: u8, amount: i64) -> Result<Table, AllocError> {
    let rows = vec![in alloc; amount; usize::from(kinds) * usize::from(accounts)]?;
    Ok(Table::new(rows, usize::from(kinds)))
}

/// 32 accounts, 4 securities, everything 0. Member 1 has the custodians 1 and 2, member 2 has 3 and
/// 4.
pub fn opened_on(alloc: Global, first_day: u32) -> Result<Depository, Fail> {
    let securities = Table::zeroed(alloc, 4, 32)?;
    let cash = Table::zeroed(alloc, 2, 32)?;
    let mut book = Book::open(securities, cash, first_day);
    expect(&mut book, terms(1, b'-', 1, 2), 0)?;
    expect(&mut book, terms(2, b'-', 3, 4), 0)?;
    Ok(book)
}

/// The same on day 0.
pub fn opened(alloc: Global) -> Result<Depository, Fail> {
    opened_on(alloc, 0)
}

/// Makes a call, and compares the number of its answer, 0 where it is accepted.
// Stays: the new form is no plainer: a table says the numbers of docs/RULES.md, and 0 is none of
// them.
pub fn expect<S: Register, C: Register>(
    book: &mut Book<S, C>,
    call: Call,
    number: u8,
) -> Result<(), Fail> {
    let answered = match perform(book, call) {
        Ok(_) => 0,
        Err(fault) => fault.number(),
    };
    if answered != number {
        return Err(Fail::new(format_args!("{answered}, not {number}, is answered to {call:?}")));
    }
    Ok(())
}

/// Makes the calls of a table, one after the other, and compares the number of each answer.
pub fn compare<S: Register, C: Register>(
    book: &mut Book<S, C>,
    cases: &[(Call, u8)],
) -> Result<(), Fail> {
    for (call, number) in cases {
        expect(book, *call, *number)?;
    }
    Ok(())
}
