//! A line is answered by a line.
ghost use Rattle.std.specs.Prelude.{is_ok};
ghost use Rattle.frames.specs.Replies.{Responded};

use crate::reply::answer;
use crate::writing::{MAX_REPLY, write_answer};
use book::Settlement;
use std::alloc::AllocError;

/// Answers a line over a book and appends the line of the answer. Want of memory stops it before
/// anything is done.
pub fn respond<B: Settlement>(
    book: &mut B,
    line: &[u8],
    out: &mut Vec<u8>,
) -> Result<(), AllocError>
    ensures { Responded line.now (B.Settlement.state book.old) (B.Settlement.state book.new)
        out.old out.new (is_ok result) }
{
    out.reserve(MAX_REPLY)?;
    write_answer(out, answer(book, line));
    Ok(())
}
