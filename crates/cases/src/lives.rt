//! What becomes of trades: their numbers, their room on the book, and who may consent.
use crate::building::{compare, expect, opened};
use crate::calls::{changed, terms, trade};
use history::Call;
use std::test::Fail;

#[test]
fn the_movement_129_waits_until_one_is_cancelled(rt: HostRuntime) -> Result<(), Fail> {
    let mut book = opened(rt.alloc())?;
    for number in 1..=128 {
        expect(&mut book, trade(number), 0)?;
    }
    let cases = [
        (trade(129), 32),
        (Call::Consent(64, 1), 0),
        (trade(129), 32),
        (Call::Cancel(64), 0),
        (trade(129), 0),
        (trade(130), 32),
        (Call::Cancel(129), 0),
        (trade(130), 0),
    ];
    compare(&mut book, &cases)
}

#[test]
fn only_an_accepted_trade_uses_its_number_up(rt: HostRuntime) -> Result<(), Fail> {
    let cases = [
        (changed(9, |t| t.seller.clearing = *b"V032"), 31),
        (trade(5), 0),
        (trade(5), 20),
        (trade(4), 20),
        (Call::Cancel(9), 50),
        (Call::Cancel(5), 0),
        (Call::Cancel(5), 50),
        (Call::Consent(5, 1), 50),
        (trade(5), 20),
        (trade(6), 0),
        (Call::Cancel(6), 0),
    ];
    compare(&mut opened(rt.alloc())?, &cases)
}

#[test]
fn giver_and_payer_consent_once(rt: HostRuntime) -> Result<(), Fail> {
    let cases = [
        (trade(1), 0),
        // a stranger, the depository, and the two that receive
        (Call::Consent(1, 9), 51),
        (Call::Consent(1, 0), 51),
        (Call::Consent(1, 2), 51),
        (Call::Consent(1, 3), 51),
        (Call::Consent(2, 1), 50),
        (Call::Consent(1, 1), 0),
        (Call::Consent(1, 1), 52),
        (Call::Consent(1, 4), 0),
        (Call::Consent(1, 4), 52),
        (Call::Consent(1, 9), 51),
        // giver by the clearing field, payer by terms
        (changed(2, |t| t.seller.clearing = *b"V004"), 0),
        (Call::Consent(2, 4), 0),
        (Call::Consent(2, 4), 52),
        (Call::Consent(2, 1), 51),
        // consent to one movement is none to another
        (trade(3), 0),
        (Call::Consent(3, 4), 0),
        (Call::Cancel(3), 0),
    ];
    compare(&mut opened(rt.alloc())?, &cases)
}

#[test]
fn a_one_off_participant_has_the_duties(rt: HostRuntime) -> Result<(), Fail> {
    let cases = [
        (changed(1, |t| t.seller.clearing = *b"V031"), 0),
        (Call::Consent(1, 1), 51),
        (Call::Consent(1, 31), 0),
        (Call::Consent(1, 31), 52),
        (Call::Consent(1, 4), 0),
        (changed(2, |t| t.buyer.clearing = *b"V030"), 0),
        (Call::Consent(2, 4), 51),
        (Call::Consent(2, 30), 0),
        (Call::Consent(2, 30), 52),
        (Call::Consent(2, 1), 0),
        // for the next trade the terms hold again
        (trade(3), 0),
        (Call::Consent(3, 31), 51),
        (Call::Consent(3, 1), 0),
    ];
    compare(&mut opened(rt.alloc())?, &cases)
}

#[test]
fn a_movement_keeps_the_terms_that_it_took(rt: HostRuntime) -> Result<(), Fail> {
    let cases = [
        // clients were never set: main
        (trade(1), 0),
        (terms(1, b'C', 5, 6), 0),
        (trade(2), 0),
        (changed(3, |t| t.seller.category = b'O'), 0),
        (terms(1, b'-', 7, 8), 0),
        (trade(4), 0),
        (changed(5, |t| t.seller.category = b'O'), 0),
        (Call::Consent(1, 5), 51),
        (Call::Consent(1, 7), 51),
        (Call::Consent(1, 1), 0),
        (Call::Consent(2, 1), 51),
        (Call::Consent(2, 7), 51),
        (Call::Consent(2, 5), 0),
        (Call::Consent(3, 5), 51),
        (Call::Consent(3, 1), 0),
        (Call::Consent(4, 7), 51),
        (Call::Consent(4, 5), 0),
        (Call::Consent(5, 1), 51),
        (Call::Consent(5, 7), 0),
    ];
    compare(&mut opened(rt.alloc())?, &cases)
}
