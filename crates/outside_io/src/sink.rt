//! Where bytes go.
ghost use Rattle.std.specs.Prelude.{List, Option, ◌≡◌, ℕ, ◌+◌, ◌≤◌, ◌<◌, length, take, IfOk, OnErr, OnOk};
ghost use Rattle.outside_io.specs.Edges.{Rose, after, AddsPrefix};

use crate::source::Failed;

/// What bytes are written to. `holds` is what it holds, where it tells that, and `faults` a count of
/// its faults, which never falls.
pub trait Sink {
    ghost holds: { Self → Option (List ℕ) };

    ghost faults: { Self → ℕ };

    /// Writes some bytes from the front of the piece, at least one, and answers how many.
    fn write(&mut self, piece: &[u8]) -> Result<usize, Failed>
        requires { 0 < length piece.now }
        ensures some { IfOk result (λ n. 0 < n) }
        ensures bound { IfOk result (λ n. n ≤ length piece.now) }
        ensures told { IfOk result (λ n. holds self.new ≡ after (holds self.old) (take n piece.now)) }
        ensures failed { OnErr result (Rose (faults self.old) (faults self.new)) }
        ensures kept { OnErr result (holds self.new ≡ holds self.old) }
        ensures count { faults self.old ≤ faults self.new };
}

/// Writes the whole piece, by one call of the sink where that takes all. It takes no memory.
pub fn write_whole<K: Sink>(sink: &mut K, piece: &[u8]) -> Result<(), Failed>
    ensures whole { OnOk result (K.holds sink.new ≡ after (K.holds sink.old) piece.now) }
    ensures prefix { OnErr result (AddsPrefix (K.holds sink.old) (K.holds sink.new) piece.now) }
    ensures failed { OnErr result (Rose (K.faults sink.old) (K.faults sink.new)) }
    ensures count { K.faults sink.old ≤ K.faults sink.new }
{
    let mut from = 0;
    while from < piece.len() {
        from += sink.write(&piece[from..])?;
    }
    Ok(())
}
