use rpc_model::Event;

/// What comes to a call.
#[derive(Drop)]
pub(crate) enum Turn {
    /// An outer event, or what became of an attempt, at a moment in milliseconds.
    Event(Event, u64),
    /// This moment is reached, in milliseconds.
    Due(u64),
}
