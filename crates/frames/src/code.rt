//! The first byte of a frame says which call it is.
ghost use Rattle.std.specs.Prelude.{◌≡◌};

use fault::Fault;

/// The calls that a frame can say.
#[derive(Clone, Copy, Debug, PartialEq, Eq)]
pub(crate) enum Code {
    PayIn,
    PayOut,
    Terms,
    Trade,
    Consent,
    Cancel,
    Tell,
}

impl TryFrom<u8> for Code {
    ghost use Rattle.frames.specs.Codes.{code_of};

    type Error = Fault;

    ghost try_from_gives = { λ byte read. read ≡ code_of byte };

    fn try_from(byte: u8) -> Result<Code, Fault> {
        match byte {
            0x01 => Ok(Code::PayIn),
            0x02 => Ok(Code::PayOut),
            0x03 => Ok(Code::Terms),
            0x04 => Ok(Code::Trade),
            0x05 => Ok(Code::Consent),
            0x06 => Ok(Code::Cancel),
            0x0A => Ok(Code::Tell),
            _ => Err(Fault::UnknownCode),
        }
    }
}

impl Code {
    ghost use Rattle.frames.specs.Codes.{frame_len};

    /// How many bytes a frame of this call has, the code counted.
    pub(crate) fn frame_len(self) -> usize
        ensures { result ≡ frame_len self }
    {
        match self {
            Code::PayIn | Code::PayOut => 12,
            Code::Terms | Code::Cancel => 5,
            Code::Trade => 38,
            Code::Consent => 6,
            Code::Tell => 4,
        }
    }
}
