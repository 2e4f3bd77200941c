//! The bytes of one line.
ghost use Rattle.std.specs.Prelude.{◌≡◌, ◌≤◌, length};
ghost use Rattle.frames.specs.Hex.{most_bytes};

/// No line says more bytes.
pub const MAX_FRAME: usize = 38;

/// The bytes of one line.
// Stays: a rule of the project: a frame can be copied, and an `ArrayVec` can be no `Copy`.
#[derive(Clone, Copy)]
pub struct Frame {
    pub(crate) bytes: [u8; MAX_FRAME],
    pub(crate) len: usize,
    ghost within: { len ≤ most_bytes },
}

impl Frame {
    ghost use Rattle.frames.specs.Frames.{frame_bytes};

    /// The bytes that it holds.
    pub fn as_slice(&self) -> &[u8]
        ensures value { result.now ≡ frame_bytes self.now }
        ensures fits { length result.now ≤ most_bytes }
    {
        &self.bytes[0..self.len]
    }
}
