//! The posters of the crowd: passes that post errors to ranges that others hold.
ghost use Rattle.std.specs.Prelude.{◌≡◌, ◌<◌};
ghost use Rattle.id_shared.specs.Standing.{IsAtRest};

use crate::crowd_holding_tests::{Signs, after, settles};
use crate::post_tests::Book;
use crate::{Ids, Pass, Receipt, TryPost, halves};
use id_pool::make_id;
use id_rule::unpack;
use std::alloc::Global;
use std::process::Abort;
use std::sync::Wait;
use std::sync::atomic::Ordering;
use std::thread;

/// How many errors each poster queues.
pub(crate) const ERRORS: usize = 25000;

/// What a poster noted: its number, and for each of its receipts the first id of the range.
#[derive(Drop)]
pub(crate) struct Sent {
    pub(crate) number: u32,
    pub(crate) firsts: Vec<u64>,
}

impl Sent {
    // Notes a receipt, which is the next one.
    fn note(&mut self, rt: &impl Abort, first: u64, receipt: Receipt) {
        assert_eq!(rt; receipt.pass, self.number);
        assert_eq!(rt; receipt.number as usize, self.firsts.len());
        let Ok(()) = self.firsts.push(first) else {
            panic!(rt; "no memory")
        };
    }
}

// Posts an error to the range that is in the slot now. What it locks it settles.
fn posts<R: Wait + Abort>(
    rt: &R,
    ids: &Ids<Book>,
    pass: &mut Pass<Book>,
    slot: u32,
    code: u32,
    signs: &Signs,
    sent: &mut Sent,
)
    requires own { IsAtRest ids.now pass.old }
    requires slot { (slot < ids.now.sizes.slots) × (slot < 64) }
    requires code { code < 65536 }
    ensures own { IsAtRest ids.now pass.new }
{
    let first = make_id(slot, unpack(halves::load(ids, pass, slot)).first);
    match ids.try_post(pass, first, code) {
        TryPost::Locked(hold, book) => {
            settles(rt, ids, pass, hold, book);
        }
        TryPost::Queued(receipt) => sent.note(rt, first, receipt),
        TryPost::NoNode => {
            signs.stuck.fetch_add(1, Ordering::SeqCst);
            thread::yield_now();
        }
        TryPost::Gone(_) => {}
        TryPost::NoSlot => {}
        TryPost::Again(_, _) => {}
    }
}

/// Posts errors all over the table, until so many were queued.
pub(crate) fn queues<R: Wait + Abort>(
    rt: &R,
    ids: &Ids<Book>,
    alloc: Global,
    signs: &Signs,
    mut pass: Pass<Book>,
) -> Sent
    requires own { IsAtRest ids.now pass }
    requires slots { ids.now.sizes.slots ≡ 64 }
{
    let mut place = pass.number;
    let mut sent = Sent {
        number: pass.number,
        firsts: Vec::new(alloc),
    };
    for _ in rt.forever() {
        if sent.firsts.len() >= ERRORS {
            signs.done.fetch_add(1, Ordering::SeqCst);
            return sent;
        }
        place = after(place);
        posts(
            rt,
            ids,
            &mut pass,
            place / 65536 % 64,
            place % 65536,
            signs,
            &mut sent,
        );
    }
    unreachable!()
}
