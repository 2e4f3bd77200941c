//! The answer of a line.
ghost use Rattle.std.specs.Prelude.{◌≡◌};
ghost use Rattle.frames.specs.Calls.{line_call};
ghost use Rattle.frames.specs.Replies.{LineAnswered};

use crate::decoding::decode;
use crate::line::unhex;
use book::Settlement;
use fault::Fault;
use history::{Answer, Call, perform};

/// Answers a line over a book.
pub fn answer<B: Settlement>(book: &mut B, line: &[u8]) -> Result<Answer, Fault>
    ensures { LineAnswered line.now (B.Settlement.state book.old) result
        (B.Settlement.state book.new) }
{
    let call = read(line)?;
    perform(book, call)
}

// The call that a line says.
fn read(line: &[u8]) -> Result<Call, Fault>
    ensures { result ≡ line_call line.now }
{
    let frame = unhex(line).ok_or(Fault::NoFrame)?;
    decode(frame.as_slice())
}
