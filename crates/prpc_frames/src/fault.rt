ghost use Rattle.std.specs.Prelude.{◌≡◌};
ghost use Rattle.prpc_frames.specs.declared.fault.FeedFault.TheVariants.{Memory};

use rpc_meta::MetaFault;
use std::alloc::AllocError;
use std::error::Error;
use std::fmt;

/// Why a stream can't be read on: the first fault in it, with its place. Places count bytes from the start of the
/// stream; a place past 18,446,744,073,709,551,615 is told as that number. Each but `Memory` is final. The faults are
/// this project's own choice.
#[derive(Clone, Copy, Debug, PartialEq, Eq)]
pub enum FeedFault {
    /// This byte, one of a frame's first four, differs from `PRPC`.
    Magic(u64),
    /// The body of the frame that begins here has more than 16,777,216 bytes.
    TooLarge(u64),
    /// The meta of the frame that begins here is longer than its body.
    MetaPastBody(u64),
    /// The meta of the frame that begins here has this fault, which is never want of memory.
    Meta(u64, MetaFault),
    /// The frame that begins here is compressed.
    Compressed(u64),
    /// The attachment of the frame that begins here is longer than what its body has behind the meta.
    Attachment(u64),
    /// Memory ran out. The piece was not taken.
    Memory,
}

impl fmt::Display for FeedFault {
    fn fmt<W: fmt::Write>(&self, f: &mut fmt::Formatter<W>) -> fmt::Result {
        match self {
            FeedFault::Magic(at) => write!(f, "the byte at {at} begins no frame"),
            FeedFault::TooLarge(at) => write!(f, "the frame at {at} is too large"),
            FeedFault::MetaPastBody(at) => write!(
                f,
                "the meta of the frame at {at} passes its body"
            ),
            FeedFault::Meta(at, fault) => write!(f, "in the meta of the frame at {at}, {fault}"),
            FeedFault::Compressed(at) => write!(f, "the frame at {at} is compressed"),
            FeedFault::Attachment(at) => write!(
                f,
                "the attachment of the frame at {at} passes its body"
            ),
            FeedFault::Memory => f.write_str("memory ran out"),
        }
    }
}

impl Error for FeedFault {}

impl From<AllocError> for FeedFault {
    ghost from_gives = { λ _ e. e ≡ Memory };

    fn from(_error: AllocError) -> FeedFault {
        FeedFault::Memory
    }
}
