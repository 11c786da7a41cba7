// What a lock can hold.
ghost use Rattle.std.specs.Prelude.{◌≡◌, Result};
ghost use Rattle.ndis_base.specs.declared.OutOfMemory.{OutOfMemory};
ghost use Rattle.ndis_base.specs.declared.Phase.{Phase};

use ndis_base::{OutOfMemory, Phase};

/// An object that changes by steps alone. It has a fixed part, which no step changes, and a phase.
pub trait Turned {
    /// What a step is asked.
    type Call;

    /// What a step answers.
    type Reply;

    /// What no step changes.
    type Fixed;

    // The fixed part of an object.
    ghost fixed: { Self → Self.Fixed };

    // Which calls fit an object with this fixed part.
    ghost fits: { Self.Fixed → Self.Call → Type 0 };

    // What a step may do: the object before, the call, the answer and the object after.
    ghost steps: { Self → Self.Call → Result Self.Reply OutOfMemory → Self → Type 0 };

    ghost phase_of: { Self → Phase };

    /// One step. An object whose steps take memory holds its allocator. Where memory runs out the answer is
    /// `OutOfMemory`, and what the object is then, its `steps` say.
    fn step(&mut self, call: Self::Call) -> Result<Self::Reply, OutOfMemory>
        requires { fits (fixed self.old) call }
        ensures steps { steps self.old call result self.new }
        ensures fixed { fixed self.new ≡ fixed self.old };

    /// The phase of the object.
    fn phase(&self) -> Phase
        ensures { result ≡ phase_of self.now };
}
