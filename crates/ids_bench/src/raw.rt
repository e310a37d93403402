//! Raw atomics: as many operations as one life of a range has, on a slot's word and a node's two.
use std::sync::atomic::{AtomicU64, Ordering};

const ORDER: Ordering = Ordering::SeqCst;

/// A slot's word, and the words of a node.
#[derive(Drop)]
pub struct Words {
    slot: AtomicU64,
    first: AtomicU64,
    second: AtomicU64,
}

impl Words {
    pub fn new() -> Words {
        Words {
            slot: AtomicU64::new(0),
            first: AtomicU64::new(0),
            second: AtomicU64::new(0),
        }
    }

    fn change(&self, old: u64, new: u64) {
        let _ = self.slot.compare_exchange(old, new, ORDER, ORDER);
    }

    // Locks and takes the value out.
    fn lock(&self) {
        self.slot.load(ORDER);
        self.change(2, 3);
        self.slot.load(ORDER);
    }

    // Puts the value home and unlocks.
    fn unlock(&self) {
        self.slot.load(ORDER);
        self.change(3, 2);
    }

    // Puts a node onto the locked word.
    fn post(&self) {
        self.slot.load(ORDER);
        self.first.load(ORDER);
        self.first.store(7, ORDER);
        self.second.store(8, ORDER);
        self.change(3, 65539);
    }

    // Takes it.
    fn take(&self) {
        self.unlock();
        self.slot.fetch_and(7, ORDER);
        self.first.load(ORDER);
        self.second.load(ORDER);
        self.first.store(0, ORDER);
        self.slot.load(ORDER);
    }

    /// One life, with an error or without.
    pub fn lives(&self, error: bool) {
        self.slot.load(ORDER);
        self.change(0, 1);
        self.change(1, 3);
        self.unlock();
        if error {
            self.lock();
            self.post();
            self.take();
            self.unlock();
        }
        self.lock();
        self.slot.load(ORDER);
        self.slot.swap(4, ORDER);
        self.slot.load(ORDER);
        self.slot.store(0, ORDER);
    }
}
