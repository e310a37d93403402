//! What lies behind a range of ids.
ghost use Rattle.std.specs.Prelude.{◌≡◌, ℕ, List, Option};
ghost use Rattle.id_rule.specs.declared.view.Receipt.{Receipt};

/// A value that is shared under a range of ids.
pub trait Tenant {
    /// What its log is made of.
    type Entry;

    // What happened to the value so far, oldest first.
    ghost log: { Self → List Self.Entry };

    // The receipt of the queued error that an entry took in, if it took one in.
    ghost receipt: { Self.Entry → Option Receipt };

    // The first id of the value's range.
    ghost first_id: { Self → ℕ };

    /// The first id of the value's range.
    fn first(&self) -> u64
        ensures first { result ≡ first_id self.now };
}
