//! A run answers as its calls one by one do, and leaves the same.
use crate::building::{Depository, compare, expect};
use crate::calls::{changed, money, shares, terms};
use book::Book;
use fault::Fault;
use history::{Answer, Call, perform, run};
use register::Table;
use std::alloc::{AllocError, Global};
use std::test::Fail;

// Two securities and two currencies on three accounts.
fn registers(alloc: Global) -> Result<(Table, Table), AllocError> {
    let securities = Table::new(vec![in alloc; 100, 5, 0, 0, 0, 7]?, 2);
    let cash = Table::new(vec![in alloc; 0, 0, 40, 0, 0, 0]?, 2);
    Ok((securities, cash))
}

// Calls on day 10, and their answers.
fn calls_and_answers() -> [(Call, Result<Answer, Fault>); 15] {
    [
        (Call::PayIn(shares(0, 1), 6), Ok(Answer::Done)),
        (Call::Tell(shares(0, 1)), Ok(Answer::Amount(11))),
        (Call::PayOut(shares(1, 2), 8), Err(Fault::HoldsLess)),
        (Call::PayOut(shares(1, 2), 7), Ok(Answer::Done)),
        (Call::PayOut(money(0, 2), 1), Ok(Answer::Done)),
        (terms(1, b'-', 1, 1), Ok(Answer::Done)),
        (terms(2, b'-', 2, 2), Ok(Answer::Done)),
        (changed(1, |t| t.day = 9), Err(Fault::SettlementDay)),
        (changed(1, |t| t.day = 12), Ok(Answer::Done)),
        (Call::Consent(1, 2), Ok(Answer::Done)),
        (Call::Consent(1, 2), Err(Fault::AlreadyConsented)),
        (changed(1, |t| t.day = 12), Err(Fault::TradeNumber)),
        (changed(2, |t| t.day = 40), Ok(Answer::Done)),
        (Call::Cancel(1), Ok(Answer::Done)),
        (Call::Tell(money(0, 2)), Ok(Answer::Amount(39))),
    ]
}

// The rows of both registers, after calls that show what is left: movement 1 is cancelled, movement
// 2 stands on the book without consents, 2 is the highest number.
fn rows_left(mut book: Depository) -> Result<(Vec<i64>, Vec<i64>), Fail> {
    let cases = [
        (Call::Consent(1, 1), 50),
        (Call::Consent(2, 1), 0),
        (Call::Consent(2, 2), 0),
        (changed(2, |t| t.day = 12), 20),
        (changed(3, |t| t.day = 41), 26),
        (changed(3, |t| t.seller.member = 3), 26),
    ];
    compare(&mut book, &cases)?;
    let (securities, cash) = book.into_registers();
    Ok((securities.into_rows(), cash.into_rows()))
}

#[test]
fn a_run_is_its_calls_one_by_one(rt: HostRuntime) -> Result<(), Fail> {
    let alloc = rt.alloc();
    let cases = calls_and_answers();
    let calls = cases.map(|(call, _)| call);
    let (securities, cash) = registers(alloc)?;
    let finished = run(alloc, securities, cash, 10, &calls)?;
    let (securities, cash) = registers(alloc)?;
    let mut book = Book::open(securities, cash, 10);
    for ((call, expected), answered) in cases.iter().zip(finished.answers.iter()) {
        let performed = perform(&mut book, *call);
        assert_eq!(rt; (performed, *answered), (*expected, *expected));
    }
    assert_eq!(rt; finished.answers.len(), cases.len());
    let (securities, cash) = rows_left(finished.book)?;
    assert_eq!(rt; securities.as_slice(), [100, 11, 0, 0, 0, 0].as_slice());
    assert_eq!(rt; cash.as_slice(), [0, 0, 39, 0, 0, 0].as_slice());
    let performed = rows_left(book)?;
    assert_eq!(rt; performed, (securities, cash));
    Ok(())
}

#[test]
fn a_run_on_a_failed_opening_answers_every_call_by_its_number(rt: HostRuntime) -> Result<(), Fail> {
    let alloc = rt.alloc();
    let (securities, cash) = registers(alloc)?;
    let calls = [Call::Tell(shares(0, 1)), Call::Cancel(1)];
    let finished = run(alloc, securities, cash, 60_001, &calls)?;
    assert_eq!(rt;
        finished.answers.as_slice(),
        [Err(Fault::FirstDay), Err(Fault::FirstDay)].as_slice()
    );
    let mut book = finished.book;
    expect(&mut book, Call::Tell(shares(0, 1)), 4)
}
