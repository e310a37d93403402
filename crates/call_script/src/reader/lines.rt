//! A line by its words.

ghost use Rattle.std.specs.Prelude.{◌≡◌, ◌+◌, ◌<◌, ◌≤◌, IsTrue, map, take, length, IfSome};
ghost use Rattle.std.specs.List.{list_all};
ghost use Rattle.rpc_model.specs.Lines as spec;
ghost use Rattle.call_script.specs.Judged.{Judged};
ghost use Rattle.call_script.specs.Spelled.{AreFewWords};

use super::Reader;
use crate::cut::{Few, FewWords, cut};
use crate::fault::LineFault;
use crate::reader::part_lines::PartOptions;
use crate::words::{all_within, is_text};
use rpc_model::{Cause, LINE_LIMIT, SUB_LIMIT};

impl Reader {
    fn two_words(&mut self, kind: &[u8], word: &[u8]) -> Result<(), LineFault>
        ensures { Judged result self.new (spec.two_words self.old kind.now word.now) }
    {
        if is_text(kind, b"open") {
            return self.open_line(word);
        }
        if is_text(kind, b"join") {
            return self.join_line(word);
        }
        Err(LineFault::Refused(Cause::BadLine))
    }

    fn three_words(&mut self, kind: &[u8], at: &[u8], what: &[u8]) -> Result<(), LineFault>
        ensures { Judged result self.new (spec.three_words self.old kind.now at.now what.now) }
    {
        if is_text(kind, b"at") && is_text(what, b"tick") {
            return self.tick_line(at);
        }
        Err(LineFault::Refused(Cause::BadLine))
    }

    fn four_words(
        &mut self,
        kind: &[u8],
        at: &[u8],
        what: &[u8],
        call: &[u8],
    ) -> Result<(), LineFault>
        ensures { Judged result self.new (spec.four_words self.old kind.now at.now what.now call.now) }
    {
        if is_text(kind, b"at") && is_text(what, b"cancel") {
            return self.cancel_line(at, call);
        }
        Err(LineFault::Refused(Cause::BadLine))
    }

    fn six_words(
        &mut self,
        kind: &[u8],
        a: &[u8],
        b: &[u8],
        c: &[u8],
        d: &[u8],
        e: &[u8],
    ) -> Result<(), LineFault>
        ensures { Judged result self.new (spec.six_words self.old kind.now a.now b.now c.now d.now e.now) }
    {
        if is_text(kind, b"leaf") {
            return self.leaf_line(a, b, c, d, e);
        }
        if !is_text(kind, b"at") {
            return Err(LineFault::Refused(Cause::BadLine));
        }
        if is_text(b, b"call") {
            return self.call_line(a, c, d, e);
        }
        if is_text(b, b"lose") {
            return self.lose_line(a, c, d, e);
        }
        Err(LineFault::Refused(Cause::BadLine))
    }

    fn seven_words(
        &mut self,
        kind: &[u8],
        at: &[u8],
        what: &[u8],
        call: &[u8],
        attempt: &[u8],
        code: &[u8],
        text: &[u8],
    ) -> Result<(), LineFault>
        ensures { Judged result self.new (spec.seven_words self.old kind.now at.now what.now call.now attempt.now code.now text.now) }
    {
        if is_text(kind, b"at") && is_text(what, b"reply") {
            return self.reply_line(at, call, attempt, code, text);
        }
        Err(LineFault::Refused(Cause::BadLine))
    }

    /// A line of as many words as its kind has.
    #[tactic(auto, unfolding(rpc_model::specs::Lines::fixed_line))]
    fn fixed_line(&mut self, words: &[&[u8]]) -> Result<(), LineFault>
        ensures { Judged result self.new (spec.fixed_line self.old (map (λ w. w.now) words.now)) }
    {
        match words {
            [kind, word] => self.two_words(kind, word),
            [kind, at, what] => self.three_words(kind, at, what),
            [kind, at, what, call] => self.four_words(kind, at, what, call),
            [kind, a, b, c, d, e] => self.six_words(kind, a, b, c, d, e),
            [kind, at, what, call, attempt, code, text] => {
                self.seven_words(kind, at, what, call, attempt, code, text)
            }
            _ => Err(LineFault::Refused(Cause::BadLine)),
        }
    }

    /// A line `serve`, by the words ahead of its list, and the list.
    #[tactic(auto, unfolding(rpc_model::specs::Lines::serve_head))]
    fn serve_head(&mut self, head: &[&[u8]], words: &[&[u8]]) -> Result<(), LineFault>
        ensures { Judged result self.new (spec.serve_head self.old (map (λ w. w.now) head.now) (map (λ w. w.now) words.now)) }
    {
        let [_, server] = head else {
            return Err(LineFault::Refused(Cause::BadLine));
        };
        self.serve_line(server, words)
    }

    #[tactic(auto, unfolding(rpc_model::specs::Lines::par_head))]
    fn par_head(&mut self, head: &[&[u8]], words: &[&[u8]]) -> Result<(), LineFault>
        requires some { 1 ≤ length words.now }
        requires few { length words.now ≤ 1000 }
        ensures { Judged result self.new (spec.par_head self.old (map (λ w. w.now) head.now) (map (λ w. w.now) words.now)) }
    {
        let [_, name, fail, ok, timeout] = head else {
            return Err(LineFault::Refused(Cause::BadLine));
        };
        self.par_line(name, fail, ok, timeout, words)
    }

    #[tactic(auto, unfolding(rpc_model::specs::Lines::sel_head))]
    fn sel_head(&mut self, head: &[&[u8]], words: &[&[u8]]) -> Result<(), LineFault>
        requires some { 1 ≤ length words.now }
        requires few { length words.now ≤ 1000 }
        ensures { Judged result self.new (spec.sel_head self.old (map (λ w. w.now) head.now) (map (λ w. w.now) words.now)) }
    {
        let [_, name, retry, timeout] = head else {
            return Err(LineFault::Refused(Cause::BadLine));
        };
        self.sel_line(name, retry, timeout, words)
    }

    #[tactic(auto, unfolding(rpc_model::specs::Lines::part_head))]
    fn part_head(&mut self, head: &[&[u8]], words: &[&[u8]]) -> Result<(), LineFault>
        requires some { 1 ≤ length words.now }
        requires few { length words.now ≤ 1000 }
        ensures { Judged result self.new (spec.part_head self.old (map (λ w. w.now) head.now) (map (λ w. w.now) words.now)) }
    {
        let [_, name, parts, retry, backup, fail, ok, timeout, kinds] = head else {
            return Err(LineFault::Refused(Cause::BadLine));
        };
        let options = PartOptions {
            retry,
            backup,
            fail,
            ok,
            timeout,
        };
        self.part_line(name, parts, options, kinds, words)
    }

    /// A line by its kind.
    #[tactic(auto, using(crate::proofs::Heads::head_words, crate::proofs::Heads::list_words))]
    fn kind_says(&mut self, words: &[&[u8]]) -> Result<(), LineFault>
        ensures { Judged result self.new (spec.kind_says self.old (map (λ w. w.now) words.now)) }
    {
        if is_kind(words, b"serve", 2) {
            let (head, list) = words.split_at(2);
            return self.serve_head(head, list);
        }
        if is_kind(words, b"par", 5) {
            let (head, list) = words.split_at(5);
            return self.par_head(head, list);
        }
        self.other_kind_says(words)
    }

    #[tactic(auto, using(crate::proofs::Heads::head_words, crate::proofs::Heads::list_words))]
    fn other_kind_says(&mut self, words: &[&[u8]]) -> Result<(), LineFault>
        ensures { Judged result self.new (spec.other_kind_says self.old (map (λ w. w.now) words.now)) }
    {
        if is_kind(words, b"sel", 4) {
            let (head, list) = words.split_at(4);
            return self.sel_head(head, list);
        }
        if is_kind(words, b"part", 9) {
            let (head, list) = words.split_at(9);
            return self.part_head(head, list);
        }
        self.fixed_line(words)
    }

    #[tactic(auto, unfolding(rpc_model::specs::Lines::words_say))]
    fn words_say(&mut self, words: &[&[u8]]) -> Result<(), LineFault>
        ensures { Judged result self.new (spec.words_say self.old (map (λ w. w.now) words.now)) }
    {
        if !are_words(words) {
            return Err(LineFault::Refused(Cause::BadLine));
        }
        self.kind_says(words)
    }

    /// One more line, where this is what was found of its words, which then stand first in `few`.
    #[tactic(auto, unfolding(rpc_model::specs::Lines::line_says))]
    pub(crate) fn line_says(
        &mut self,
        line: &[u8],
        found: Option<FewWords>,
        few: &Few<'_>,
    ) -> Result<(), LineFault>
        requires words { IfSome found (λ found. AreFewWords line.now (map (λ w. w.now) (take found.count few.now))) }
        requires room { IfSome found (λ found. found.count ≤ 8) }
        ensures { Judged result self.new (spec.line_says self.old line.now) }
    {
        if line.len() > LINE_LIMIT {
            return Err(LineFault::Refused(Cause::LineTooLong));
        }
        if let Some(words) = found {
            return self.kind_says(&few[..words.count]);
        }
        if !all_within(line, b' ', b'~') {
            return Err(LineFault::Refused(Cause::BadByte));
        }
        match line {
            [] | [b'#', ..] => Ok(()),
            _ => {
                let words = cut(self.alloc, line, b' ')?;
                self.words_say(&words)
            }
        }
    }
}

/// Whether no word is empty.
fn are_words(words: &[&[u8]]) -> bool
    ensures { result ≡ list_all spec.is_word (map (λ w. w.now) words.now) }
{
    words.iter().all(|word| is_word(word))
}

fn is_word(word: &[u8]) -> bool
    ensures { result ≡ spec.is_word word.now }
{
    !word.is_empty()
}

/// So many words: the first few, and then a list of at least one and at most `SUB_LIMIT`.
fn has_list(few: usize, count: usize) -> bool
    requires { few ≤ 9 }
    ensures { result ≡ spec.has_list few count }
{
    few < count && count <= few + SUB_LIMIT
}

/// Whether the line is of this kind, with so few words ahead of its list.
#[inline(always)]
fn is_kind(words: &[&[u8]], kind: &[u8], few: usize) -> bool
    requires { few ≤ 9 }
    ensures kind { result ≡ spec.is_kind kind.now few (map (λ w. w.now) words.now) }
    ensures few { IsTrue result → (few < length words.now) × (length words.now ≤ few + 1000) }
{
    let Some((first, rest)) = words.split_first() else {
        return false;
    };
    is_text(first, kind) && has_list(few, rest.len() + 1)
}
