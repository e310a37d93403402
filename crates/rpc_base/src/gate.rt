use std::sync::Wait;

/// What is called ahead of each delivery of a reader and after each call that a lane collected. A test may hold threads
/// here. This trait is this project's own choice.
pub trait Gate: Sync {
    /// A reader is about to deliver to this call; 0 where the id isn't outstanding on its wire.
    fn before<R: Wait>(&self, rt: &R, call: u32);

    /// A lane has collected this call.
    fn after<R: Wait>(&self, rt: &R, call: u32);
}

/// A gate that holds nobody: both calls return at once.
#[derive(Clone, Copy, Debug)]
pub struct OpenGate;

impl Gate for OpenGate {
    fn before<R: Wait>(&self, _rt: &R, _call: u32) {}

    fn after<R: Wait>(&self, _rt: &R, _call: u32) {}
}
