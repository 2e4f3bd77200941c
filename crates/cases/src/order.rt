//! Every question is asked before the next: a call that fails two of them gets the number of the
//! first.
use crate::building::{Depository, compare, expect, opened};
use crate::calls::{changed, money, shares, terms, trade};
use book::Place;
use history::Call;
use movement::Trade;
use std::test::Fail;

// A change of a trade, which may be made of any.
#[derive(Clone, Copy)]
struct Change {
    apply: fn(&mut Trade),
    ghost always: { IsAlwaysCallable apply },
}

impl Change {
    fn new(apply: fn(&mut Trade)) -> Change
        requires { IsAlwaysCallable apply }
    {
        Change { apply }
    }
}

// Makes a trade by each two changes of a table, and compares its answer with the first's number.
// The table has a change for each question of a trade, in the order in which they are asked.
// Members 3 and 4 have no terms; each clearing field fails the questions after its own too.
fn compare_by_two(book: &mut Depository, number: u32) -> Result<(), Fail> {
    let refused = [
        (Change::new(|t| t.number = 0), 20),
        (Change::new(|t| t.class = b'X'), 21),
        (Change::new(|t| t.security = 4), 22),
        (Change::new(|t| t.quantity = 0), 23),
        (Change::new(|t| t.currency = 2), 24),
        (Change::new(|t| t.sum = 0), 25),
        (Change::new(|t| t.day = 31), 26),
        (Change::new(|t| t.seller.category = b'X'), 28),
        (Change::new(|t| t.seller.member = 3), 27),
        (Change::new(|t| t.seller.clearing = *b"v032"), 29),
        (Change::new(|t| t.seller.clearing = *b"R032"), 30),
        (Change::new(|t| t.seller.clearing = *b"V032"), 31),
        (Change::new(|t| t.buyer.category = b'X'), 28),
        (Change::new(|t| t.buyer.member = 4), 27),
        (Change::new(|t| t.buyer.clearing = *b"v032"), 29),
        (Change::new(|t| t.buyer.clearing = *b"R032"), 30),
        (Change::new(|t| t.buyer.clearing = *b"V032"), 31),
    ];
    // Stays: the new form is no plainer: each second change stands at the first's own place or
    // after it.
    for (i, (first, expected)) in refused.iter().enumerate() {
        for (second, _) in refused.iter().skip(i) {
            let twice = changed(number, |t| {
                (second.apply)(t);
                (first.apply)(t);
            });
            expect(book, twice, *expected)?;
        }
    }
    Ok(())
}

#[test]
fn a_trade_that_fails_two_questions_gets_the_first(rt: HostRuntime) -> Result<(), Fail> {
    let mut book = opened(rt.alloc())?;
    compare_by_two(&mut book, 1)?;
    expect(&mut book, trade(1), 0)
}

#[test]
fn a_full_book_is_asked_last(rt: HostRuntime) -> Result<(), Fail> {
    let mut book = opened(rt.alloc())?;
    for number in 1..=128 {
        expect(&mut book, trade(number), 0)?;
    }
    compare_by_two(&mut book, 129)?;
    expect(&mut book, trade(129), 32)
}

#[test]
fn other_calls_that_fail_two_questions_get_the_first(rt: HostRuntime) -> Result<(), Fail> {
    let mut book = opened(rt.alloc())?;
    let nowhere = Place {
        side: 2,
        kind: 4,
        account: 32,
    };
    let cases = [
        (Call::PayIn(nowhere, 1), 10),
        (Call::PayIn(shares(4, 0), 1), 11),
        (Call::PayIn(money(2, 0), 1), 11),
        (Call::PayIn(shares(3, 0), 0), 12),
        (Call::PayIn(shares(3, 1), u64::MAX), 13),
        (Call::PayOut(nowhere, 1), 10),
        (Call::PayOut(shares(4, 0), 1), 11),
        (Call::PayOut(shares(3, 0), 0), 12),
        (Call::PayOut(shares(3, 1), u64::MAX), 13),
        (Call::Tell(nowhere), 10),
        (Call::Tell(shares(4, 32)), 11),
        (terms(0, b'X', 1, 1), 40),
        (terms(1, b'X', 0, 1), 41),
        (trade(1), 0),
        (Call::Consent(2, 9), 50),
        (Call::Consent(1, 9), 51),
        (Call::Cancel(2), 50),
    ];
    compare(&mut book, &cases)
}
