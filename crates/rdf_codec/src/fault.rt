//! Why bytes are not what they should spell.

use std::alloc::AllocError;
use std::fmt;

/// What is wrong with the bytes: the first fault from left to right. Places count from the start of the input.
#[derive(Clone, Copy, Debug, PartialEq, Eq)]
pub enum CodecFault {
    /// A field passes the end of the input; `at` is the input's length.
    Truncated { at: u32 },
    /// The byte at this place is no kind, tag or phase that may stand there.
    BadKind { at: u32 },
    /// The length, volume, count or position that begins at this place has a value that may not stand there.
    BadNumber { at: u32 },
    /// The byte at this place is the first of a text that is not of its class.
    BadByte { at: u32 },
    /// The byte at this place stands behind a value that should take the whole input.
    Extra { at: u32 },
    /// There was no memory for the value.
    NoMemory,
}

impl fmt::Display for CodecFault {
    ghost use Rattle.std.specs.Prelude.{Some};
    ghost use Rattle.rdf_codec.specs.Saying.{codec_fault_text};

    ghost output = { λ fault. Some (codec_fault_text fault) };

    fn fmt<W: fmt::Write>(&self, f: &mut fmt::Formatter<W>) -> fmt::Result {
        match *self {
            CodecFault::Truncated { at } => write!(f, "truncated at {at}"),
            CodecFault::BadKind { at } => write!(f, "bad kind at {at}"),
            CodecFault::BadNumber { at } => write!(f, "bad number at {at}"),
            CodecFault::BadByte { at } => write!(f, "bad byte at {at}"),
            CodecFault::Extra { at } => write!(f, "extra bytes at {at}"),
            CodecFault::NoMemory => f.write_str("no memory"),
        }
    }
}

impl From<AllocError> for CodecFault {
    ghost use Rattle.std.specs.Prelude.{◌≡◌};
    ghost use Rattle.rdf_codec.specs.declared.fault.CodecFault.TheVariants.{NoMemory};

    ghost from_gives = { λ e fault. fault ≡ NoMemory };

    fn from(_: AllocError) -> CodecFault {
        CodecFault::NoMemory
    }
}
