ghost use Rattle.std.specs.Prelude.{◌≡◌};
ghost use Rattle.rpc_meta.specs.declared.fault.MetaFault.TheVariants.{Memory};

use std::alloc::{AllocError, AllocFailed};
use std::error::Error;
use std::fmt;

/// Why bytes are no meta: the first fault from the left, with the offset in the whole meta of the first byte of the key
/// of the innermost field in which it stands. The faults are this project's own choice.
#[derive(Clone, Copy, Debug, PartialEq, Eq)]
pub enum MetaFault {
    /// The key or the value runs past the end of its message.
    Cut(u32),
    /// A varint has ten bytes with the high bit set in the tenth.
    LongVarint(u32),
    /// The type is 3, 4, 6 or 7, or the field number is 0 or above 536,870,911.
    WireType(u32),
    /// A service or method name isn't UTF-8.
    BadText(u32),
    /// An attachment size is negative.
    Range(u32),
    /// Memory ran out. The bytes may be a meta.
    Memory,
}

impl fmt::Display for MetaFault {
    fn fmt<W: fmt::Write>(&self, f: &mut fmt::Formatter<W>) -> fmt::Result {
        match self {
            MetaFault::Cut(at) => write!(f, "the field at {at} is cut off"),
            MetaFault::LongVarint(at) => write!(
                f,
                "the field at {at} has a varint of more than ten bytes"
            ),
            MetaFault::WireType(at) => write!(f, "the field at {at} has no such type or number"),
            MetaFault::BadText(at) => write!(f, "the name at {at} isn't UTF-8"),
            MetaFault::Range(at) => write!(f, "the attachment size at {at} is negative"),
            MetaFault::Memory => f.write_str("memory ran out"),
        }
    }
}

impl Error for MetaFault {}

impl From<AllocError> for MetaFault {
    ghost from_gives = { λ _ e. e ≡ Memory };

    fn from(_error: AllocError) -> MetaFault {
        MetaFault::Memory
    }
}

impl<T: Drop> From<AllocFailed<T>> for MetaFault {
    ghost from_gives = { λ _ e. e ≡ Memory };

    fn from(_error: AllocFailed<T>) -> MetaFault {
        MetaFault::Memory
    }
}
