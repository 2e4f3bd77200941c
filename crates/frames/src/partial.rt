//! What has come of a line so far.
ghost use Rattle.std.specs.Prelude.{◌≡◌, ◌-◌, ◌≤◌, min, [], ◌∷◌, ◌++◌, length, ◌==◌};
ghost use Rattle.frames.specs.Stream.{CutAlike, kept, most_kept};

use crate::frame::MAX_FRAME;

/// No more characters of a line are kept: one as long as this is refused whatever follows.
pub const MAX_KEPT: usize = 2 * MAX_FRAME + 1;

/// The first characters of a line that comes in parts.
// Stays: a rule of the project: what is kept can be copied, and an `ArrayVec` can be no `Copy`.
#[derive(Clone, Copy)]
pub struct Partial {
    bytes: [u8; MAX_KEPT],
    len: usize,
    ghost within: { len ≤ most_kept },
}

impl Partial {
    ghost use Rattle.frames.specs.Partials.{characters};

    /// Nothing has come.
    pub fn new() -> Partial
        ensures { characters result ≡ [] }
    {
        Partial {
            bytes: [0; MAX_KEPT],
            len: 0,
        }
    }

    /// The characters that are kept.
    pub fn as_slice(&self) -> &[u8]
        ensures value { result.now ≡ characters self.now }
        ensures fits { length result.now ≤ most_kept }
    {
        &self.bytes[0..self.len]
    }

    /// Whether nothing has come.
    pub fn is_empty(&self) -> bool
        ensures { result ≡ (length (characters self.now) == 0) }
    {
        self.len == 0
    }

    /// Begins a new line.
    pub fn clear(&mut self)
        ensures { characters self.new ≡ [] }
    {
        self.len = 0;
    }

    /// One more character.
    pub fn push(&mut self, character: u8)
        ensures { characters self.new ≡ kept (characters self.old ++ character ∷ []) }
    {
        self.extend(&[character]);
    }

    /// Some more characters.
    pub fn extend(&mut self, part: &[u8])
        ensures keeps { characters self.new ≡ kept (characters self.old ++ part.now) }
        ensures same { CutAlike }
    {
        let count = self.fitting(part.len());
        let end = self.len + count;
        self.bytes[self.len..end].copy_from_slice(&part[0..count]);
        self.len = end;
    }

    // How many of some more characters are kept.
    fn fitting(&self, count: usize) -> usize
        ensures { result ≡ min count (most_kept - self.now.len) }
    {
        count.min(MAX_KEPT - self.len)
    }
}
