//! A line of hexadecimal digits is read into its bytes.
ghost use Rattle.std.specs.Prelude.{◌≡◌, ◌*◌, ◌%◌, ◌≤◌, length};
ghost use Rattle.std.specs.Option.{option_map};
ghost use Rattle.frames.specs.Frames.{frame_bytes};
ghost use Rattle.frames.specs.Hex.{byte_of, digit_value, has_right_length, line_bytes, pairs, most_bytes};

use crate::frame::{Frame, MAX_FRAME};
use crate::hex::digit;

/// The bytes of a line: none where it is too short or too long, or not all digits, or their number
/// is odd.
pub fn unhex(line: &[u8]) -> Option<Frame>
    ensures { option_map frame_bytes result ≡ line_bytes line.now }
{
    if has_right_length(line.len()) {
        paired(line)
    } else {
        None
    }
}

fn has_right_length(count: usize) -> bool
    ensures { result ≡ has_right_length count }
{
    (2..=2 * MAX_FRAME).contains(&count) && count.is_multiple_of(2)
}

// The bytes of a line of the right length.
fn paired(line: &[u8]) -> Option<Frame>
    requires short { length line.now ≤ 2 * most_bytes }
    requires even { length line.now % 2 ≡ 0 }
    ensures { option_map frame_bytes result ≡ pairs line.now }
{
    let mut bytes = [0; MAX_FRAME];
    let mut len = 0;
    let mut rest = line;
    while let [high, low, after @ ..] = rest {
        bytes[len] = byte(*high, *low)?;
        len += 1;
        rest = after;
    }
    Some(Frame { bytes, len })
}

// The byte of two digits.
fn byte(high: u8, low: u8) -> Option<u8>
    ensures { result ≡ byte_of (digit_value high) (digit_value low) }
{
    Some(digit(high)? * 16 + digit(low)?)
}
