//! Posting an error to an id: its range is locked at once, or the error waits for the holder in a node of the pass.
ghost use Rattle.std.specs.Prelude.{◌≡◌, ◌<◌, ◌≤◌, ◌^◌, ◌+◌, ◌-◌, true, vec_capacity};
ghost use Rattle.rpc_model.specs.Gone.{code_in, first_in, range_in, is_live_in};
ghost use Rattle.id_rule.specs.Nodes.{node_word, word_at};
ghost use Rattle.id_rule.specs.Parts.{own_number};
ghost use Rattle.id_shared.specs.Answers.{HasSeenEnd};
ghost use Rattle.id_shared.specs.Claims.{HasTriedPost, KeepsClaims, KeepsErrors};
ghost use Rattle.id_shared.specs.Picking.{HasPicked, HasPickedFirst, HasPushed, IsLooking, IsPicking, IsPushing, notice_at};
ghost use Rattle.id_shared.specs.Posts.{IsGonePost, IsPostedFrom, IsQueuedFrom, IsTriedPost};
ghost use Rattle.id_shared.specs.Standing.{IsPassOf};

use crate::answers::{TryLock, TryPost};
use crate::ids::Ids;
use crate::pass::Pass;
use atomic_table::Seat;
use id_pool::{slot_of, version_of};
use id_rule::{
    LetGo, Pick, Push, Receipt, State, Tenant, View, WriteFirst, WriteSecond, is_live, is_locked,
    pack, unpack,
};

// The first word of a node that waits: the next node, the error's code and its offset.
fn error_word(next: u32, offset: u32, code: u32) -> u64
    requires bounds { (offset < 2048) × (code < 65536) }
    ensures word { result ≡ node_word next offset code }
{
    u64::from(next) + u64::from(code) * 65536 + u64::from(offset) * 4294967296 + 8796093022208
}

impl<T: Tenant> Ids<T> {
    // Loads the word of one of the pass's own nodes, which is in its hand if it was free.
    fn pick_one(&self, seat: &mut Seat<Option<T>, View<T::Entry>>, node: u32) -> u64
        requires picking { IsPicking self.now node seat.old.table_id seat.old.me.0 }
        ensures same { (seat.new.table_id ≡ seat.old.table_id) × (seat.new.id ≡ seat.old.id) × (seat.new.me.1 ≡ seat.old.me.1) }
        ensures picked { HasPicked (word_at self.now.sizes.slots node) node seat.old.me.0 result seat.new.me.0 }
    {
        let place = self.place_of(node);
        self.table.shared.load::<Pick>(seat, place as usize)
    }

    // Loads the words of the pass's own nodes, from its first one on, up to one that is free, which is in its hand then.
    fn pick(
        &self,
        seat: &mut Seat<Option<T>, View<T::Entry>>,
        words: &mut Vec<u64>,
        number: u32,
    ) -> Option<u32>
        requires looking { IsLooking self.now number seat.old.table_id seat.old.me.0 }
        requires room { self.now.sizes.nodes ≤ vec_capacity words.old }
        ensures same { (seat.new.table_id ≡ seat.old.table_id) × (seat.new.id ≡ seat.old.id) × (seat.new.me.1 ≡ seat.old.me.1) × (vec_capacity words.new ≡ vec_capacity words.old) }
        ensures picked { HasPickedFirst self.now number seat.old.me.0 words.new.items result seat.new.me.0 }
    {
        words.clear();
        let mut count = 0;
        while count < self.sizes.nodes {
            let node = number * self.sizes.nodes + count + 1;
            let word = self.pick_one(seat, node);
            words.push_reserved(word);
            if word == 0 {
                return Some(node);
            }
            count += 1;
        }
        None
    }

    // Pushes the node in hand onto a slot whose word was seen locked, with this error. If the word is another now, the node
    // is free again. Answers the word that the exchange found.
    fn push(
        &self,
        seat: &mut Seat<Option<T>, View<T::Entry>>,
        node: u32,
        slot: u32,
        word: u64,
        offset: u32,
        code: u32,
        number: u64,
    ) -> u64
        requires pushing { IsPushing self.now seat.old.table_id seat.old.me.0 node slot word offset code number }
        ensures same { (seat.new.table_id ≡ seat.old.table_id) × (seat.new.id ≡ seat.old.id) × (seat.new.me.1 ≡ seat.old.me.1) }
        ensures pushed { HasPushed slot word (notice_at slot word offset code (own_number seat.old.me.0.numbers) number) seat.old.me.0 result seat.new.me.0 }
    {
        let place = self.place_of(node);
        let parts = unpack(word);
        let first = error_word(parts.head, offset, code);
        self.table
            .shared
            .store::<WriteFirst>(seat, place as usize, first);
        self.table
            .shared
            .store::<WriteSecond>(seat, place as usize + 1, number);
        let new = pack(parts.first, parts.range, State::Locked, node);
        let found = self
            .table
            .shared
            .compare_exchange::<Push>(seat, slot as usize, word, new);
        if found == word {
            return found;
        }
        self.table.shared.store::<LetGo>(seat, place as usize, 0);
        found
    }

    // Queues an error to a slot whose word was seen locked.
    fn queue_from(
        &self,
        pass: &mut Pass<T>,
        slot: u32,
        word: u64,
        offset: u32,
        code: u32,
    ) -> TryPost<T>
        requires own { IsPassOf self.now pass.old }
        requires slot { slot < self.now.sizes.slots }
        requires word { (code_in word ≡ 3) × (offset < range_in word) }
        requires code { code < 65536 }
        ensures own { IsPassOf self.now pass.new }
        ensures answer { IsQueuedFrom {T = T} self.now.sizes.slots slot word offset code pass.old result pass.new }
    {
        // Opens the table for the proof, which needs its invariant: this body names no field of it.
        let _ = &self.table;
        let number = pass.sent;
        if number == u64::MAX {
            return TryPost::NoNode;
        }
        let Some(node) = self.pick(&mut pass.seat, &mut pass.words, pass.number) else {
            return TryPost::NoNode;
        };
        let found = self.push(&mut pass.seat, node, slot, word, offset, code, number);
        if found != word {
            return TryPost::Again(word, found);
        }
        pass.sent = number + 1;
        TryPost::Queued(Receipt {
            pass: pass.number,
            number,
        })
    }

    // Posts an error to a slot whose word was seen to have the version live.
    pub(crate) fn post_from(
        &self,
        pass: &mut Pass<T>,
        slot: u32,
        word: u64,
        version: u32,
        code: u32,
    ) -> TryPost<T>
        requires own { IsPassOf self.now pass.old }
        requires slot { slot < self.now.sizes.slots }
        requires word { (word < 2 ^ 62) × (is_live_in word version ≡ true) }
        requires code { code < 65536 }
        ensures own { IsPassOf self.now pass.new }
        ensures answer { IsPostedFrom T.log T.first_id T.receipt self.now.sizes.slots slot word (version - first_in word) code pass.old result pass.new }
    {
        if is_locked(word) {
            let offset = version - unpack(word).first;
            return self.queue_from(pass, slot, word, offset, code);
        }
        match self.lock_from(pass, slot, word) {
            TryLock::Locked(hold, value) => TryPost::Locked(hold, value),
            TryLock::Again(word, found) => TryPost::Again(word, found),
            _ => unreachable!(),
        }
    }

    // Loads the word, and posts the error if the version is live.
    fn post_once(&self, pass: &mut Pass<T>, id: u64, code: u32) -> TryPost<T>
        requires own { IsPassOf self.now pass.old }
        requires code { code < 65536 }
        ensures own { IsPassOf self.now pass.new }
        ensures answer { IsTriedPost T.log T.first_id T.receipt self.now.sizes.slots id code pass.old result pass.new }
        ensures stays_gone { HasSeenEnd self.now.sizes.slots id pass.old → IsGonePost result }
    {
        let Some(slot) = slot_of(id) else {
            return TryPost::NoSlot;
        };
        if slot >= self.sizes.slots {
            return TryPost::NoSlot;
        }
        let word = self.load(pass, slot);
        if !is_live(word, version_of(id)) {
            return TryPost::Gone(word);
        }
        self.post_from(pass, slot, word, version_of(id), code)
    }

    /// Posts an error with a code below 65,536 to an id. If its range is free, it is locked to handle the error at once; if
    /// another pass holds it, the error is queued for the holder, in a node of this pass.
    ///
    /// `Locked` is as in `try_lock`. `Queued` comes only where the error was pushed onto a locked word with the version live,
    /// and gives its receipt: this pass's number, and how many it numbered before. `Gone` and `NoSlot` are as in `try_lock`.
    /// `NoNode` comes only where the range was seen locked, and each of this pass's nodes was loaded as not free or it has
    /// numbered 2^64 - 1 receipts; `Again` exactly where the exchange found another word than the one loaded. After each of
    /// these the pass has what it had, and its node is free again. Once a pass has seen a range end, each of its ids is `Gone`.
    pub fn try_post(&self, pass: &mut Pass<T>, id: u64, code: u32) -> TryPost<T>
        requires own { IsPassOf self.now pass.old }
        requires code { code < 65536 }
        ensures own { IsPassOf self.now pass.new }
        ensures answer { IsTriedPost T.log T.first_id T.receipt self.now.sizes.slots id code pass.old result pass.new }
        ensures stays_gone { HasSeenEnd self.now.sizes.slots id pass.old → IsGonePost result }
        ensures holding { HasTriedPost T.log pass.new result }
        ensures claims { KeepsClaims pass.old pass.new }
        ensures errors { KeepsErrors pass.old pass.new }
    {
        self.post_once(pass, id, code)
    }
}
