//! The line of an answer is written.
ghost use Rattle.std.specs.Prelude.{◌≡◌, ◌+◌, ◌≤◌, ◌++◌, vec_len, vec_capacity};
ghost use Rattle.frames.specs.Replies.{answer_line, longest};

use crate::bytes::u64_bytes;
use crate::text::write_hex;
use fault::Fault;
use history::Answer;

// No answer's line is longer: two digits for each of nine bytes, and the end of the line.
pub(crate) const MAX_REPLY: usize = 2 * 9 + 1;

// Appends the line of an answer, where there is room for the longest.
pub(crate) fn write_answer(out: &mut Vec<u8>, answer: Result<Answer, Fault>)
    requires { vec_len out.old + longest ≤ vec_capacity out.old }
    ensures items { out.new.items ≡ out.old.items ++ answer_line answer }
    ensures len { vec_len out.new ≤ vec_len out.old + longest }
    ensures capacity { vec_capacity out.new ≡ vec_capacity out.old }
{
    match answer {
        Ok(Answer::Done) => write_hex(out, &[0x00]),
        Ok(Answer::Amount(amount)) => {
            write_hex(out, &[0x00]);
            write_hex(out, &u64_bytes(amount));
        }
        Err(fault) => write_hex(out, &[0xFF, fault.number()]),
    }
    out.push_reserved(b'\n');
}
