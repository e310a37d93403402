ghost use Rattle.std.specs.Prelude.{◌≡◌};
ghost use Rattle.echo_server.specs.Halted.{served_of};

use prpc_frames::FeedFault;

/// Why a serving loop ended.
#[derive(Clone, Copy, Debug, PartialEq, Eq)]
pub enum Served {
    /// The reading met the end, and every frame was answered.
    End,
    /// An answer said close, and the answers up to it were written.
    Closed,
    /// The reading failed, and every frame that came before was answered.
    ReadFault,
    /// The writing failed. A front of the answers was written.
    WriteFault,
    /// The stream has this fault, and every frame before it was answered. It is never want of memory.
    BadFrame(FeedFault),
    /// Memory ran out. A front of the answers was written.
    Memory,
}

/// Why the answering of the frames that waited stopped.
#[derive(Clone, Copy, Debug, PartialEq, Eq)]
pub(crate) enum Halt {
    Closed,
    WriteFault,
    Memory,
}

impl Halt {
    /// The answer of the loop.
    pub(crate) fn served(self) -> Served
        ensures { result ≡ served_of self }
    {
        match self {
            Halt::Closed => Served::Closed,
            Halt::WriteFault => Served::WriteFault,
            Halt::Memory => Served::Memory,
        }
    }
}
