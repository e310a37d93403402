ghost use Rattle.std.specs.Prelude.{◌≡◌, ◌+◌, ◌-◌, ◌<◌, ◌^◌, ◌++◌, ◌∷◌, [], ℕ, List, false, OnErr, OnOk, IfOk};
ghost use Rattle.std.specs.declared.option.Option.{Option};
ghost use Rattle.rpc_base.specs.Causes.{HasCause};
ghost use Rattle.rpc_base.specs.Moved.{IsFresh};
ghost use Rattle.rpc_base.specs.declared.net.Ends.{Ends as SomeEnds};

use crate::fault::Failed;
use crate::wire::{WireIn, WireOut};
use std::alloc::Global;
use std::sync::Wait;

/// Both ends of one connection: what the client writes the server reads, and the other way round.
#[derive(Drop)]
pub struct Ends<I, O> {
    pub client_in: I,
    pub client_out: O,
    pub server_in: I,
    pub server_out: O,
}

/// A net that opens connections. `wires` is the ends that it took back, each with its server, `opened` is how many
/// connections are out, and `faults` counts how often it failed. This trait is this project's own choice.
pub trait Net {
    type In: WireIn;

    type Out: WireOut;

    ghost wires: { Self → List (ℕ × SomeEnds Self.In Self.Out) };

    ghost opened: { Self → ℕ };

    ghost faults: { Self → ℕ };

    /// Opens a connection to this server. Its ends have moved no bytes.
    fn open<R: Wait>(
        &mut self,
        rt: &R,
        alloc: Global,
        server: u32,
    ) -> Result<Ends<Self::In, Self::Out>, Failed>
        ensures wires { wires self.new ≡ wires self.old }
        ensures opened { OnOk result (opened self.new ≡ opened self.old + 1) }
        ensures client_in { IfOk result (λ e. IsFresh (Self.In.got e.client_in) (Self.In.met e.client_in) (Self.In.faults e.client_in)) }
        ensures client_out { IfOk result (λ e. IsFresh (Self.Out.given e.client_out) (Self.Out.closed e.client_out) (Self.Out.faults e.client_out)) }
        ensures server_in { IfOk result (λ e. IsFresh (Self.In.got e.server_in) (Self.In.met e.server_in) (Self.In.faults e.server_in)) }
        ensures server_out { IfOk result (λ e. IsFresh (Self.Out.given e.server_out) (Self.Out.closed e.server_out) (Self.Out.faults e.server_out)) }
        ensures refused { OnErr result (opened self.new ≡ opened self.old) }
        ensures cause { HasCause (faults self.old) (faults self.new) result };

    /// Takes the ends of a connection back when their workers have ended. It can't fail.
    fn shut<R: Wait>(&mut self, rt: &R, server: u32, ends: Ends<Self::In, Self::Out>)
        requires { 0 < opened self.old }
        ensures wires { wires self.new ≡ wires self.old ++ (server, ends) ∷ [] }
        ensures opened { opened self.new ≡ opened self.old - 1 }
        ensures faults { faults self.new ≡ faults self.old };
}
