use crate::chan::Chan;
use crate::direction::Direction;
use crate::kinds::{MapKind, MergeKind};
use rpc_base::{Bytes, List};

/// How a script is to run.
#[derive(Clone, Copy, Debug, PartialEq, Eq)]
pub enum Mode {
    /// It is replayed: the script tells the replies and the moments.
    Sim,
    /// It is run against servers.
    Live,
}

/// A script as typed lines.
#[derive(Debug, Drop)]
pub struct Script {
    pub mode: Mode,
    /// How many calls may be open at once, 1 to 4,096.
    pub slots: u32,
    /// How many servers the channels name. Servers are numbered in the order of their first mention, from 0.
    pub servers: u32,
    /// The channels, in the order of their lines.
    pub chans: List<Chan<MapKind, MergeKind>>,
    /// What servers do, in the order of the lines; each server at most once. A server that isn't named answers plainly.
    pub serves: List<Serve>,
    /// What happens, in the order of the lines.
    pub acts: List<Act>,
}

/// What a server does: the i-th request, from 0, follows direction i modulo their number.
#[derive(Debug, Drop)]
pub struct Serve {
    /// The server's number.
    pub server: u32,
    /// The directions, 1 to 1,000.
    pub words: List<Direction>,
}

/// A line that says what happens. `at` is a moment in milliseconds, below 2^53.
#[derive(Debug, Drop, PartialEq, Eq)]
pub enum Act {
    /// A call begins on the channel of this number.
    Call {
        at: u64,
        call: u32,
        chan: u32,
        text: Bytes,
    },
    /// A call is cancelled.
    Cancel {
        at: u64,
        call: u32,
    },
    /// A reply comes to an attempt of a leaf.
    Reply {
        at: u64,
        call: u32,
        node: u32,
        attempt: u32,
        code: u32,
        text: Bytes,
    },
    /// An attempt of a leaf is lost, for the reason that the code names.
    Lose {
        at: u64,
        call: u32,
        node: u32,
        attempt: u32,
        code: u32,
    },
    /// Time goes on.
    Tick {
        at: u64,
    },
    /// A call is joined.
    Join {
        call: u32,
    },
}

/// Why a line of a script was refused: the first of these, in the order of the steps in which a line is looked at. The
/// steps and the causes are this project's own choice; `docs/SCRIPT.md` has the table.
#[derive(Clone, Copy, Debug, PartialEq, Eq)]
pub enum Cause {
    /// The script has more than `SCRIPT_LIMIT` bytes. It is told of line 0.
    TooLong,
    /// The line has more than `LINE_LIMIT` bytes.
    LineTooLong,
    /// The line has a byte outside 0x20 to 0x7e.
    BadByte,
    /// A word is empty, the first word or the third after `at` is unknown, or there are too few or too many words.
    BadLine,
    /// The line is one of scripts that are replayed.
    SimOnly,
    /// The line is one of scripts that are run against servers.
    LiveOnly,
    /// A word isn't a decimal number without a needless leading zero, or the number is out of its range.
    BadNumber,
    /// A word isn't `key=value` with the key of its place.
    BadOption,
    /// A name isn't 1 to `NAME_LIMIT` of `a` to `z`, `0` to `9` and `_`, or a list has too many names.
    BadName,
    /// An earlier line has given this name.
    DupName,
    /// No earlier line has given this name.
    NoName,
    /// A word isn't a sub channel with its mapper and merger.
    BadSub,
    /// A word isn't a server with its tag.
    BadTag,
    /// A word isn't a direction of a server.
    BadWord,
    /// An earlier line begins the call of this number.
    DupCall,
    /// No earlier line begins a call of this number.
    NoCall,
    /// A word isn't `NODE#ATTEMPT`, the node is no leaf of the call's plan, or the leaf can't issue the attempt.
    BadAttempt,
    /// A text has more than `TEXT_LIMIT` bytes.
    TextTooLong,
    /// The line stands behind one that it has to stand before.
    Late,
    /// A partition channel has no server for some part.
    MissingPart,
    /// A channel's sub channels nest too deep.
    TooDeep,
    /// The call's plan has too many nodes and attempts.
    TooWide,
    /// The line brings more channels, servers, calls or events than a script may have.
    TooMany,
    /// The call brings the weight of all calls above its limit.
    TooMuch,
}
