//! The whole program, over any reader and writer.
ghost use Rattle.std.specs.Prelude.{[], OnOk, IfSome};
ghost use Rattle.std.specs.Io.KnownBytes.{Appends};
ghost use Rattle.book.specs.Opening.{opened};
ghost use Rattle.frames.specs.Sessions.{answers, text_lines};
ghost use Rattle.settle.specs.Opening.{from_nothing};

use crate::opening::open;
use frames::Session;
use std::alloc::{AllocError, Global};
use std::io;
use std::io::{ErrorKind, Read, Write};

/// Answers every line of the input, by a book that is opened on day 0 with nothing on the accounts.
pub fn settle<R: Read, W: Write>(alloc: Global, input: &mut R, output: &mut W) -> io::Result<()>
    ensures { OnOk result (IfSome (R.remaining input.old) (λ text.
        Appends (W.contents output.old) (W.contents output.new)
        (answers (opened from_nothing) (text_lines [] text)))) }
{
    let mut session = Session::new(open(alloc)?);
    session.serve(alloc, input, output)
}

/// The error that the program ends with: the allocator's where memory is wanting, and else what the
/// system said of a read or a write.
pub fn told(error: io::Error) -> anyhow::Error {
    if error.kind() == ErrorKind::OutOfMemory && error.raw_os_error().is_none() {
        anyhow::Error::from(AllocError)
    } else {
        anyhow::Error::from(error)
    }
}
