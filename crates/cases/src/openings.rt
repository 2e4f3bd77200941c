//! Openings that pass and openings that fail.
use crate::building::{Depository, compare, expect, table};
use crate::calls::{shares, terms, trade};
use book::Book;
use history::Call;
use std::alloc::{AllocError, Global};
use std::test::Fail;

// The numbers of accounts and of securities, the amount in every row, and the first day.
#[derive(Clone, Copy)]
struct Opening(u8, u8, i64, u32);

fn opened(alloc: Global, opening: Opening) -> Result<Depository, AllocError> {
    let Opening(accounts, kinds, amount, day) = opening;
    let securities = table(alloc, kinds, accounts, amount)?;
    let cash = table(alloc, 2, accounts, amount)?;
    Ok(Book::open(securities, cash, day))
}

// 32 times as much is 10^15.
const SHARE: i64 = 31_250_000_000_000;

#[test]
fn an_opening_gets_its_first_no(rt: HostRuntime) -> Result<(), Fail> {
    let cases = [
        (Opening(32, 16, SHARE, 60_000), 0),
        (Opening(2, 1, 0, 0), 0),
        (Opening(33, 17, 0, 0), 1),
        (Opening(1, 1, 0, 0), 1),
        (Opening(32, 17, SHARE + 1, 0), 2),
        (Opening(32, 16, SHARE + 1, 60_001), 3),
        (Opening(32, 16, SHARE, 60_001), 4),
    ];
    for (opening, number) in cases.iter() {
        let mut book = opened(rt.alloc(), *opening)?;
        expect(&mut book, Call::Tell(shares(0, 0)), *number)?;
    }
    Ok(())
}

// One call of each kind, to be answered by a number.
fn one_of_each(number: u8) -> [(Call, u8); 7] {
    [
        (Call::PayIn(shares(0, 1), 1), number),
        (Call::PayOut(shares(0, 1), 1), number),
        (Call::Tell(shares(0, 1)), number),
        (terms(1, b'-', 1, 1), number),
        (trade(1), number),
        (Call::Consent(1, 1), number),
        (Call::Cancel(1), number),
    ]
}

#[test]
fn a_book_whose_opening_failed_answers_every_call_by_its_number(
    rt: HostRuntime,
) -> Result<(), Fail> {
    let cases = [
        (Opening(33, 4, 0, 0), 1),
        (Opening(32, 17, 0, 0), 2),
        (Opening(32, 4, SHARE + 1, 0), 3),
        (Opening(32, 4, 0, 60_001), 4),
    ];
    for (opening, number) in cases.iter() {
        let mut book = opened(rt.alloc(), *opening)?;
        compare(&mut book, &one_of_each(*number))?;
        compare(&mut book, &one_of_each(*number))?;
    }
    Ok(())
}
