use prpc_frames::Frame;

/// What a server does with a frame.
#[derive(Debug, Drop, PartialEq, Eq)]
pub struct Answer {
    /// The reply, if there is one.
    pub reply: Option<Frame>,
    /// How many times it is written: 0 where there is no reply, else 1 or 2.
    pub times: u32,
    /// The milliseconds that pass before it is written.
    pub nap: u64,
    /// Whether the connection is closed after it.
    pub close: bool,
}
