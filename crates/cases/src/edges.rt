//! The first and the last of what is taken, and what lies beyond.
use crate::building::{compare, expect, opened, opened_on};
use crate::calls::{changed, client, money, shares, terms};
use history::Call;
use movement::TradeSide;
use std::test::Fail;

const MOST: u64 = 1_000_000_000_000;

#[test]
fn a_trade_is_taken_within_its_edges(rt: HostRuntime) -> Result<(), Fail> {
    let cases = [
        (changed(1, |t| t.class = b'D'), 0),
        (changed(2, |t| t.class = b'c'), 21),
        (changed(3, |t| t.security = 3), 0),
        (changed(4, |t| t.security = 4), 22),
        (changed(5, |t| t.quantity = 0), 23),
        (changed(6, |t| t.quantity = MOST), 0),
        (changed(7, |t| t.quantity = MOST + 1), 23),
        (changed(8, |t| t.currency = 1), 0),
        (changed(9, |t| t.currency = 2), 24),
        (changed(10, |t| t.sum = 0), 25),
        (changed(11, |t| t.sum = MOST), 0),
        (changed(12, |t| t.sum = MOST + 1), 25),
        (changed(13, |t| t.day = 30), 0),
        (changed(14, |t| t.day = 31), 26),
        (changed(15, |t| t.number = 0), 20),
        (changed(16, |t| t.number = u32::MAX), 0),
        (changed(17, |t| t.number = u32::MAX), 20),
    ];
    compare(&mut opened(rt.alloc())?, &cases)
}

#[test]
fn a_trade_settles_within_30_days_of_the_latest_opening(rt: HostRuntime) -> Result<(), Fail> {
    let cases = [
        (changed(1, |t| t.day = 59_999), 26),
        (changed(2, |t| t.day = 60_000), 0),
        (changed(3, |t| t.day = 60_030), 0),
        (changed(4, |t| t.day = 60_031), 26),
        (changed(5, |t| t.day = u16::MAX), 26),
    ];
    compare(&mut opened_on(rt.alloc(), 60_000)?, &cases)
}

// A client of a member, with a change.
fn changed_side<F: FnOnce(&mut TradeSide)>(member: u8, change: F) -> TradeSide
    requires { F.IsAlwaysCallable change }
{
    let mut side = client(member);
    change(&mut side);
    side
}

// What a side of a trade may be, and what it may not, by a client of a member.
fn sides(member: u8) -> [(TradeSide, u8); 21] {
    [
        (changed_side(member, |s| s.category = b'O'), 0),
        (changed_side(member, |s| s.category = b'M'), 0),
        (changed_side(member, |s| s.category = b'I'), 0),
        (changed_side(member, |s| s.category = b'-'), 0),
        (changed_side(member, |s| s.category = b' '), 28),
        (changed_side(member, |s| s.member = 0), 27),
        (changed_side(member, |s| s.member = 3), 27),
        (changed_side(member, |s| s.member = 17), 27),
        (changed_side(member, |s| s.clearing = *b"V001"), 0),
        (changed_side(member, |s| s.clearing = *b"V031"), 0),
        (changed_side(member, |s| s.clearing = *b"V032"), 31),
        (changed_side(member, |s| s.clearing = *b"V000"), 31),
        (changed_side(member, |s| s.clearing = *b"V256"), 31),
        (changed_side(member, |s| s.clearing = *b"V257"), 31),
        (changed_side(member, |s| s.clearing = *b"R002"), 30),
        (changed_side(member, |s| s.clearing = *b"T002"), 30),
        (changed_side(member, |s| s.clearing = *b"v002"), 29),
        (changed_side(member, |s| s.clearing = *b"V 02"), 29),
        (changed_side(member, |s| s.clearing = *b"   2"), 29),
        (changed_side(member, |s| s.clearing = *b"V0/2"), 29),
        (changed_side(member, |s| s.clearing = *b"V0:2"), 29),
    ]
}

#[test]
fn each_side_of_a_trade_is_taken_within_its_edges(rt: HostRuntime) -> Result<(), Fail> {
    let mut book = opened(rt.alloc())?;
    for (number, (side, expected)) in (1..).zip(sides(1)) {
        expect(&mut book, changed(number, |t| t.seller = side), expected)?;
    }
    for (number, (side, expected)) in (22..).zip(sides(2)) {
        expect(&mut book, changed(number, |t| t.buyer = side), expected)?;
    }
    Ok(())
}

#[test]
fn payments_and_terms_are_taken_within_their_edges(rt: HostRuntime) -> Result<(), Fail> {
    let cases = [
        (Call::PayIn(shares(3, 31), MOST), 0),
        (Call::PayIn(shares(3, 31), MOST + 1), 13),
        (Call::PayIn(shares(3, 31), 0), 13),
        (Call::PayIn(shares(4, 31), 1), 11),
        (Call::PayIn(shares(3, 32), 1), 12),
        (Call::PayIn(shares(3, 0), 1), 12),
        (Call::PayIn(money(1, 1), 1), 0),
        (Call::PayIn(money(2, 1), 1), 11),
        (Call::PayOut(money(1, 1), 2), 15),
        (Call::PayOut(money(1, 1), 1), 0),
        (Call::PayOut(money(1, 1), 1), 15),
        (Call::Tell(shares(3, 0)), 0),
        (Call::Tell(shares(3, 32)), 12),
        (terms(16, b'I', 31, 31), 0),
        (terms(17, b'I', 31, 31), 40),
        (terms(0, b'I', 31, 31), 40),
        (terms(16, b'i', 31, 31), 41),
        (terms(16, b'I', 32, 31), 42),
        (terms(16, b'I', 31, 32), 42),
        (terms(16, b'I', 31, 0), 42),
    ];
    compare(&mut opened(rt.alloc())?, &cases)
}

#[test]
fn a_kind_is_paid_in_up_to_its_limit(rt: HostRuntime) -> Result<(), Fail> {
    let mut book = opened(rt.alloc())?;
    for _ in 0..1000 {
        expect(&mut book, Call::PayIn(shares(0, 1), MOST), 0)?;
    }
    let cases = [
        (Call::PayIn(shares(0, 2), MOST + 1), 13),
        (Call::PayIn(shares(0, 2), 1), 14),
        (Call::PayIn(shares(1, 2), 1), 0),
        (Call::PayIn(money(0, 2), 1), 0),
        (Call::PayOut(shares(0, 1), 1), 0),
        (Call::PayIn(shares(0, 2), 2), 14),
        (Call::PayIn(shares(0, 2), 1), 0),
    ];
    compare(&mut book, &cases)
}
