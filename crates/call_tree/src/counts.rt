//! The counts of a parallel node.

ghost use Rattle.std.specs.Prelude.{◌≡◌, ◌+◌, ◌-◌, ◌<◌, ◌||◌, nat_le, None};
ghost use Rattle.std.specs.Option.{option_map};
ghost use Rattle.call_tree.specs.Counts.{IsOpen, with_end, with_some};

use rpc_model::End;

/// How many subs of a parallel node are asked, how many failures and successes end it, and how many there were.
#[derive(Clone, Copy, Debug)]
pub(crate) struct Counts {
    pub(crate) count: u32,
    pub(crate) fail: u32,
    pub(crate) ok: u32,
    pub(crate) goods: u32,
    pub(crate) bads: u32,
}

impl Counts {
    /// One more end of a sub.
    pub(crate) fn with(self, end: &End) -> Counts
        requires { IsOpen self None }
        ensures { result ≡ with_end self end.now }
    {
        match end {
            End::Good(_) => Counts {
                goods: self.goods + 1,
                ..self
            },
            End::Bad(_) => Counts {
                bads: self.bads + 1,
                ..self
            },
        }
    }

    /// One more end of a sub, if there is one.
    pub(crate) fn with_some(self, end: Option<&End>) -> Counts
        requires { IsOpen self None }
        ensures { result ≡ with_some self (option_map (λ e. e.now) end.entry) }
    {
        match end {
            None => self,
            Some(end) => self.with(end),
        }
    }

    /// Whether the failures end the node.
    pub(crate) fn has_failed(self) -> bool
        ensures { result ≡ nat_le self.fail self.bads }
    {
        self.fail <= self.bads
    }

    /// Whether the successes end the node, or all subs ended.
    pub(crate) fn is_complete(self) -> bool
        ensures { result ≡ (nat_le self.ok self.goods || nat_le self.count (self.goods + self.bads)) }
    {
        self.ok <= self.goods
            || u64::from(self.count) <= u64::from(self.goods) + u64::from(self.bads)
    }

    /// How many subs have failed once the deadline is reached: those that didn't succeed.
    pub(crate) fn late(self) -> u32
        requires { IsOpen self None }
        ensures { result ≡ self.count - self.goods }
    {
        self.count - self.goods
    }
}
