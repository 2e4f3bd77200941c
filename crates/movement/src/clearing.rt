//! The clearing field of a trade's side: blank, or the participant that acts for it this once.
ghost use Rattle.std.specs.Prelude.{◌≡◌, true};
ghost use Rattle.fault.specs.Questions.{asked};
ghost use Rattle.movement.specs.Clearing.{blank, clearing_questions, digits as digits_of, one_off_of, shaped};

use fault::{Fault, ask};

// Whether it is four spaces.
fn is_blank(field: [u8; 4]) -> bool
    ensures { result ≡ blank field }
{
    field == *b"    "
}

// Whether it is V, R or T and three digits.
fn is_shaped(field: [u8; 4]) -> bool
    ensures { result ≡ shaped field }
{
    let [letter, hundreds, tens, ones] = field;
    matches!(letter, b'V' | b'R' | b'T')
        && hundreds.is_ascii_digit()
        && tens.is_ascii_digit()
        && ones.is_ascii_digit()
}

// The number that its three digits write.
// Stays: the new form is no plainer: three places by name, where a fold would take the letter
// along.
fn digits(field: [u8; 4]) -> u16
    requires { shaped field ≡ true }
    ensures { result ≡ digits_of field }
{
    let [_, hundreds, tens, ones] = field;
    100 * u16::from(hundreds - b'0') + 10 * u16::from(tens - b'0') + u16::from(ones - b'0')
}

/// The participant that a clearing field names, none where it is blank.
pub fn one_off_participant(field: [u8; 4], accounts: u8) -> Result<Option<u8>, Fault>
    ensures { result ≡ asked (clearing_questions accounts field) (one_off_of field) }
{
    if is_blank(field) {
        return Ok(None);
    }
    ask(is_shaped(field), Fault::ClearingField)?;
    ask(field[0] == b'V', Fault::ClearingLetter)?;
    let participant = digits(field);
    ask(
        participant >= 1 && participant < u16::from(accounts),
        Fault::ClearingParticipant,
    )?;
    Ok(Some(participant as u8))
}
