//! Lines come in chunks of text and are answered one after the other.
ghost use Rattle.std.specs.Prelude.{◌≡◌, ℕ, List, ◌*◌, ◌<◌, ◌≤◌, [], ◌∷◌, ◌++◌, length, vec_len, vec_capacity, is_ok, if◌then◌else◌, IfOk, OnOk, IfSome};
ghost use Rattle.std.specs.Io.KnownBytes.{Appends};
ghost use Rattle.frames.specs.Partials.{characters};
ghost use Rattle.frames.specs.Replies.{longest};
ghost use Rattle.frames.specs.Sessions.{ChunksAlike, Ended, Fed, LinesLawful, Serves, TextsAlike, after_lines, answers, last_line, lines, rest};
ghost use Rattle.frames.specs.Stream.{kept};

use crate::partial::Partial;
use crate::responding::respond;
use crate::writing::MAX_REPLY;
use book::Settlement;
use memchr::memchr;
use std::alloc::{AllocError, Global};
use std::io;
use std::io::{ErrorKind, Read, Write};

// How much is read at a time.
const CHUNK: usize = 32_768;

/// A book, and what has come of a line so far.
#[derive(Drop)]
pub struct Session<B> {
    pub book: B,
    pub pending: Partial,
}

impl<B: Settlement> Session<B> {
    /// A session over a book, before any text.
    pub fn new(book: B) -> Session<B>
        ensures book { result.book ≡ book }
        ensures pending { characters result.pending ≡ [] }
    {
        Session {
            book,
            pending: Partial::new(),
        }
    }

    /// Answers each line that ends in a chunk of text, and keeps what is left for the next one.
    /// Where memory is wanting, the first of the lines are answered, and nothing is said of what is
    /// kept.
    pub fn feed(&mut self, chunk: &[u8], out: &mut Vec<u8>) -> Result<(), AllocError>
        ensures feeds { Fed (characters self.old.pending) chunk.now
            (B.Settlement.state self.old.book) (B.Settlement.state self.new.book)
            out.old out.new (characters self.new.pending) (is_ok result) }

        // It is so for each text before the chunk of which those characters are kept.
        ensures whole { (text : List ℕ) → characters self.old.pending ≡ kept text
            → Fed text chunk.now
            (B.Settlement.state self.old.book) (B.Settlement.state self.new.book)
            out.old out.new (characters self.new.pending) (is_ok result) }
        ensures texts { TextsAlike }
        ensures chunks { ChunksAlike }
        ensures lawful { LinesLawful }
    {
        feed(&mut self.book, &mut self.pending, chunk, out)
    }

    /// Answers the line whose end has not come, at the end of the input. An empty one is no line.
    pub fn finish(&mut self, out: &mut Vec<u8>) -> Result<(), AllocError>
        ensures answers { Ended (last_line (characters self.old.pending))
            (B.Settlement.state self.old.book) (B.Settlement.state self.new.book)
            out.old out.new (is_ok result) }
        ensures whole { (text : List ℕ) → characters self.old.pending ≡ kept text
            → Ended (last_line text)
            (B.Settlement.state self.old.book) (B.Settlement.state self.new.book)
            out.old out.new (is_ok result) }
        ensures clears { characters self.new.pending
            ≡ (if is_ok result then [] else characters self.old.pending) }
    {
        finish(&mut self.book, &mut self.pending, out)
    }

    /// Answers each line that a reader has, the last one too where its end does not come. It asks
    /// for memory before it reads; the answers after that have room. After an error some of what
    /// was read may be answered and its answers not written.
    pub fn serve<R: Read, W: Write>(
        &mut self,
        alloc: Global,
        input: &mut R,
        output: &mut W,
    ) -> io::Result<()>
        ensures { OnOk result (IfSome (R.remaining input.old) (λ text.
            Serves (characters self.old.pending) text
            (B.Settlement.state self.old.book) (B.Settlement.state self.new.book)
            (W.contents output.old) (W.contents output.new))) }
    {
        let mut chunk = zeros(alloc, CHUNK)?;
        let mut out = Vec::with_capacity(alloc, MAX_REPLY * CHUNK)?;
        self.serve_with(&mut chunk, &mut out, input, output)
    }

    // The same, with room for what is read at a time and for the answers to that much.
    // Stays: the new form is no plainer: a struct of buffer and writer would be made by `serve` alone,
    // and taken apart for `feed`, which has the buffer and no writer.
    fn serve_with<R: Read, W: Write>(
        &mut self,
        chunk: &mut [u8],
        out: &mut Vec<u8>,
        input: &mut R,
        output: &mut W,
    ) -> io::Result<()>
        requires some { 0 < length chunk.old }
        requires room { longest * length chunk.old ≤ vec_capacity out.old }
        ensures { OnOk result (IfSome (R.remaining input.old) (λ text.
            Serves (characters self.old.pending) text
            (B.Settlement.state self.old.book) (B.Settlement.state self.new.book)
            (W.contents output.old) (W.contents output.new))) }
    {
        // Stays: a rule of the project: a loop that may never end would be a wait, and none is
        // allowed.
        for _ in 0..u64::MAX {
            let count = input.read(chunk)?;
            if count == 0 {
                self.answer_last(out, output)?;
                return Ok(());
            }
            self.answer_chunk(&chunk[..count], out, output)?;
        }
        // So many reads are never made; what an input that long has left would not be answered.
        Err(io::Error::from(ErrorKind::FileTooLarge))
    }

    // Answers a chunk and writes the answers, for which there is room.
    fn answer_chunk<W: Write>(
        &mut self,
        chunk: &[u8],
        out: &mut Vec<u8>,
        output: &mut W,
    ) -> io::Result<()>
        requires { longest * length chunk.now ≤ vec_capacity out.old }
        ensures written { OnOk result (Appends (W.contents output.old) (W.contents output.new)
            (answers (B.Settlement.state self.old.book)
            (lines (characters self.old.pending) chunk.now))) }
        ensures becomes { B.Settlement.state self.new.book
            ≡ after_lines (B.Settlement.state self.old.book)
            (lines (characters self.old.pending) chunk.now) }
        ensures keeps { characters self.new.pending
            ≡ kept (rest (characters self.old.pending) chunk.now) }
        ensures room { vec_capacity out.old ≤ vec_capacity out.new }
    {
        out.clear();
        self.feed(chunk, out).unwrap();
        output.write_all(out)?;
        output.flush()
    }

    // Answers the line whose end has not come, and writes the answer, for which there is room.
    fn answer_last<W: Write>(&mut self, out: &mut Vec<u8>, output: &mut W) -> io::Result<()>
        requires { longest ≤ vec_capacity out.old }
        ensures written { OnOk result (Appends (W.contents output.old) (W.contents output.new)
            (answers (B.Settlement.state self.old.book)
            (last_line (characters self.old.pending)))) }
        ensures becomes { B.Settlement.state self.new.book
            ≡ after_lines (B.Settlement.state self.old.book)
            (last_line (characters self.old.pending)) }
    {
        out.clear();
        self.finish(out).unwrap();
        output.write_all(out)?;
        output.flush()
    }
}

/// Answers each line that ends in a chunk of text, and keeps what is left for the next one. Where
/// memory is wanting, the first of the lines are answered, and nothing is said of what is kept.
pub fn feed<B: Settlement>(
    book: &mut B,
    pending: &mut Partial,
    chunk: &[u8],
    out: &mut Vec<u8>,
) -> Result<(), AllocError>
    ensures feeds { Fed (characters pending.old) chunk.now
        (B.Settlement.state book.old) (B.Settlement.state book.new)
        out.old out.new (characters pending.new) (is_ok result) }

    // It is so for each text before the chunk of which those characters are kept.
    ensures whole { (text : List ℕ) → characters pending.old ≡ kept text → Fed text chunk.now
        (B.Settlement.state book.old) (B.Settlement.state book.new)
        out.old out.new (characters pending.new) (is_ok result) }
    ensures texts { TextsAlike }
    ensures chunks { ChunksAlike }
    ensures lawful { LinesLawful }
{
    let mut left = chunk;
    while let Some(end) = memchr(b'\n', left) {
        let (line, after) = left.split_at(end);
        end_line(book, pending, line, out)?;
        left = &after[1..];
    }
    pending.extend(left);
    Ok(())
}

// Answers the line that a part ends.
fn end_line<B: Settlement>(
    book: &mut B,
    pending: &mut Partial,
    part: &[u8],
    out: &mut Vec<u8>,
) -> Result<(), AllocError>
    ensures answers { Ended ((characters pending.old ++ part.now) ∷ [])
        (B.Settlement.state book.old) (B.Settlement.state book.new)
        out.old out.new (is_ok result) }
    ensures clears { OnOk result (characters pending.new ≡ []) }
{
    if pending.is_empty() {
        return respond(book, part, out);
    }
    pending.extend(part);
    finish(book, pending, out)
}

/// Answers the line whose end has not come, at the end of the input. An empty one is no line.
pub fn finish<B: Settlement>(
    book: &mut B,
    pending: &mut Partial,
    out: &mut Vec<u8>,
) -> Result<(), AllocError>
    ensures answers { Ended (last_line (characters pending.old))
        (B.Settlement.state book.old) (B.Settlement.state book.new)
        out.old out.new (is_ok result) }
    ensures whole { (text : List ℕ) → characters pending.old ≡ kept text
        → Ended (last_line text)
        (B.Settlement.state book.old) (B.Settlement.state book.new)
        out.old out.new (is_ok result) }
    ensures clears { characters pending.new
        ≡ (if is_ok result then [] else characters pending.old) }
{
    if !pending.is_empty() {
        respond(book, pending.as_slice(), out)?;
        pending.clear();
    }
    Ok(())
}

// Room for what is read at a time.
fn zeros(alloc: Global, len: usize) -> Result<Vec<u8>, AllocError>
    ensures { IfOk result (λ v. vec_len v ≡ len) }
{
    vec![in alloc; 0; len]
}
