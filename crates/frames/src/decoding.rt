//! The call that a frame says.
ghost use Rattle.std.specs.Prelude.{◌≡◌, ◌+◌, ◌≤◌, length, drop};
ghost use Rattle.std.specs.Int.{w64};
ghost use Rattle.frames.specs.Bytes.{number_at};
ghost use Rattle.frames.specs.Calls.{call_in, frame_call, place_in, setting_in, side_at, trade_in};
ghost use Rattle.frames.specs.Codes.{frame_len};

use crate::bytes::field;
use crate::code::Code;
use book::Place;
use fault::{Fault, ask};
use history::Call;
use movement::{Setting, Trade, TradeSide};

/// The call of a frame: refused where its code is not offered, then where its length does not fit.
pub fn decode(bytes: &[u8]) -> Result<Call, Fault>
    ensures { result ≡ frame_call bytes.now }
{
    let [code, fields @ ..] = bytes else {
        return Err(Fault::UnknownCode);
    };
    let code = Code::try_from(*code)?;
    ask(bytes.len() == code.frame_len(), Fault::FrameLength)?;
    Ok(call_in(code, fields))
}

// The call of a code, by the fields after it.
fn call_in(code: Code, fields: &[u8]) -> Call
    requires { length fields.now + 1 ≡ frame_len code }
    ensures { result ≡ call_in code fields.now }
{
    match code {
        Code::PayIn => {
            let (place, amount) = payment_in(fields);
            Call::PayIn(place, amount)
        }
        Code::PayOut => {
            let (place, amount) = payment_in(fields);
            Call::PayOut(place, amount)
        }
        Code::Terms => Call::Terms(setting_in(fields)),
        Code::Trade => Call::Trade(trade_in(fields)),
        Code::Consent => {
            let (number, fields) = field(fields);
            let ([participant], _) = field::<1>(fields);
            Call::Consent(u32::from_be_bytes(number), participant)
        }
        Code::Cancel => {
            let (number, _) = field(fields);
            Call::Cancel(u32::from_be_bytes(number))
        }
        Code::Tell => {
            let (place, _) = place_in(fields);
            Call::Tell(place)
        }
    }
}

// A place, and the fields after it.
fn place_in(fields: &[u8]) -> (Place, &[u8])
    requires { 3 ≤ length fields.now }
    ensures place { result.0 ≡ place_in fields.now }
    ensures rest { result.1.now ≡ drop 3 fields.now }
{
    let ([side, kind, account], fields) = field::<3>(fields);
    let place = Place {
        side,
        kind,
        account,
    };
    (place, fields)
}

// A place and an amount.
fn payment_in(fields: &[u8]) -> (Place, u64)
    requires { 11 ≤ length fields.now }
    ensures place { result.0 ≡ place_in fields.now }
    ensures amount { result.1 ≡ number_at w64 3 fields.now }
{
    let (place, fields) = place_in(fields);
    let (amount, _) = field(fields);
    (place, u64::from_be_bytes(amount))
}

fn setting_in(fields: &[u8]) -> Setting
    requires { 4 ≤ length fields.now }
    ensures { result ≡ setting_in fields.now }
{
    let ([member, category, securities, cash], _) = field::<4>(fields);
    Setting {
        member,
        category,
        securities,
        cash,
    }
}

// A side of a trade, and the fields after it.
fn side_in(fields: &[u8]) -> (TradeSide, &[u8])
    requires { 6 ≤ length fields.now }
    ensures side { result.0 ≡ side_at 0 fields.now }
    ensures rest { result.1.now ≡ drop 6 fields.now }
{
    let ([member, category], fields) = field::<2>(fields);
    let (clearing, fields) = field(fields);
    let side = TradeSide {
        member,
        category,
        clearing,
    };
    (side, fields)
}

fn trade_in(fields: &[u8]) -> Trade
    requires { 37 ≤ length fields.now }
    ensures { result ≡ trade_in fields.now }
{
    let (number, fields) = field(fields);
    let ([class, security], fields) = field::<2>(fields);
    let (quantity, fields) = field(fields);
    let ([currency], fields) = field::<1>(fields);
    let (sum, fields) = field(fields);
    let (day, fields) = field(fields);
    let (seller, fields) = side_in(fields);
    let (buyer, _) = side_in(fields);
    Trade {
        number: u32::from_be_bytes(number),
        class,
        security,
        quantity: u64::from_be_bytes(quantity),
        currency,
        sum: u64::from_be_bytes(sum),
        day: u16::from_be_bytes(day),
        seller,
        buyer,
    }
}
