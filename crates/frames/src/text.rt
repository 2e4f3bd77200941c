//! Bytes are written as hexadecimal digits.
ghost use Rattle.std.specs.Prelude.{◌≡◌, ◌+◌, ◌*◌, ◌<◌, ◌≤◌, ◌++◌, length, vec_len, vec_capacity};
ghost use Rattle.frames.specs.Hex.{RoundTrip, hex_of, hex_text, letter_of};

// Appends two capital digits for each byte, where there is room for them.
pub(crate) fn write_hex(out: &mut Vec<u8>, bytes: &[u8])
    requires { vec_len out.old + 2 * length bytes.now ≤ vec_capacity out.old }
    ensures items { out.new.items ≡ out.old.items ++ hex_text bytes.now }
    ensures len { vec_len out.new ≡ vec_len out.old + 2 * length bytes.now }
    ensures capacity { vec_capacity out.new ≡ vec_capacity out.old }
    ensures round_trip { RoundTrip }
{
    for b in bytes {
        push_byte(out, *b);
    }
}

// The two digits of a byte, where there is room for them.
fn push_byte(out: &mut Vec<u8>, b: u8)
    requires { vec_len out.old + 2 ≤ vec_capacity out.old }
    ensures items { out.new.items ≡ out.old.items ++ hex_of b }
    ensures len { vec_len out.new ≡ vec_len out.old + 2 }
    ensures capacity { vec_capacity out.new ≡ vec_capacity out.old }
{
    out.push_reserved(letter(b / 16));
    out.push_reserved(letter(b % 16));
}

// The digit of a number below 16.
fn letter(n: u8) -> u8
    requires { n < 16 }
    ensures { result ≡ letter_of n }
{
    if n < 10 { b'0' + n } else { b'A' + (n - 10) }
}
