ghost use Rattle.std.specs.Prelude.{◌≤◌, ◌<◌, length};

use std::alloc::{AllocError, AllocFailed, Global};
use std::collections::VecDeque;
use std::sync::{Arc, Condvar, Mutex, Wait};

/// The bytes that were written and not read yet, and whether the writing has ended.
#[derive(Drop)]
struct Flow {
    bytes: VecDeque<u8>,
    ended: bool,
}

impl Flow {
    /// Moves bytes from the front into `to`, and answers how many.
    fn take(&mut self, to: &mut [u8]) -> usize
        ensures { result ≤ length to.new }
    {
        let count = to.len().min(self.bytes.len());
        for place in to[..count].iter_mut() {
            *place = self.bytes.pop_front().unwrap_or(0);
        }
        count
    }

    /// Puts bytes behind the others. Where memory runs out it puts none.
    fn put(&mut self, from: &[u8]) -> Result<(), AllocError> {
        self.bytes.reserve(from.len())?;
        for byte in from {
            self.bytes.push_back(*byte)?;
        }
        Ok(())
    }
}

/// One direction of a connection in memory, a list of bytes that its two ends share.
#[derive(Drop)]
pub(crate) struct Pipe {
    flow: Mutex<Flow>,
    moved: Condvar,
}

impl Pipe {
    pub(crate) fn new(alloc: Global) -> Result<Arc<Pipe, Global>, AllocFailed<Pipe>> {
        let flow = Flow {
            bytes: VecDeque::new(alloc),
            ended: false,
        };
        Arc::new(
            alloc,
            Pipe {
                flow: Mutex::new(flow),
                moved: Condvar::new(),
            },
        )
    }

    /// Waits until bytes are there or the writing has ended, and moves bytes into `to`.
    pub(crate) fn take<R: Wait>(&self, rt: &R, to: &mut [u8]) -> usize
        ensures { result ≤ length to.new }
    {
        let mut flow = self.moved.wait_while(rt, self.flow.lock(rt), |flow| {
            flow.bytes.is_empty() && !flow.ended
        });
        flow.take(to)
    }

    /// Puts bytes in. Where memory runs out none are put.
    pub(crate) fn put<R: Wait>(&self, rt: &R, from: &[u8]) -> Result<(), AllocError> {
        let mut flow = self.flow.lock(rt);
        let done = flow.put(from);
        self.moved.notify_all();
        done
    }

    /// Ends the writing.
    pub(crate) fn end<R: Wait>(&self, rt: &R) {
        let mut flow = self.flow.lock(rt);
        flow.ended = true;
        self.moved.notify_all();
    }
}
