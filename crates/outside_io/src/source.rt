//! Where bytes come from.
ghost use Rattle.std.specs.Prelude.{List, Option, ◌≡◌, ℕ, ◌+◌, ◌≤◌, ◌<◌, [], length, take, IfOk, IfSome, OnErr};
ghost use Rattle.outside_io.specs.Edges.{Rose, before, Takes, TakesMore};

use std::alloc::{AllocError, Global};
use thiserror::Error;

/// A read or a write failed.
#[derive(Clone, Copy, Debug, PartialEq, Eq, Error)]
#[error("a read or a write failed")]
pub struct Failed;

/// What bytes are read from. `left` is what it has left, where it tells that, and `faults` a count
/// of its faults, which never falls.
pub trait Source {
    ghost left: { Self → Option (List ℕ) };

    ghost faults: { Self → ℕ };

    /// Reads some bytes to the front of `out`, at most as many as it has, and answers how many; 0
    /// only at the end of input.
    fn read(&mut self, out: &mut [u8]) -> Result<usize, Failed>
        requires { 0 < length out.old }
        ensures bound { IfOk result (λ n. n ≤ length out.old) }
        ensures told { IfOk result (λ n. left self.old ≡ before (take n out.new) (left self.new)) }
        ensures end { IfOk result (λ n. n ≡ 0 → IfSome (left self.new) (λ rest. rest ≡ [])) }
        ensures failed { OnErr result (Rose (faults self.old) (faults self.new)) }
        ensures kept { OnErr result (left self.new ≡ left self.old) }
        ensures count { faults self.old ≤ faults self.new };
}

/// Why a source wasn't read to its end.
#[derive(Clone, Copy, Debug, PartialEq, Eq, Error)]
pub enum ReadRefusal {
    /// A read failed.
    #[error("read fault")]
    Failed,
    /// More bytes were read than the limit.
    #[error("too many bytes")]
    TooLong,
    /// Memory ran out.
    #[error("out of memory")]
    Memory,
}

/// Reads to the end of input, which may have so many bytes. After a refusal what was read is lost.
pub fn read_all<S: Source>(
    alloc: Global,
    source: &mut S,
    limit: usize,
) -> Result<Vec<u8>, ReadRefusal>
    ensures all { IfOk result (λ v. S.left source.old ≡ before v.items (S.left source.new)) }
    ensures end { IfOk result (λ v. IfSome (S.left source.new) (λ rest. rest ≡ [])) }
    ensures short { IfOk result (λ v. length v.items ≤ limit) }
    ensures long { result ≡ Err ReadRefusal.TooLong → TakesMore limit (S.left source.old) (S.left source.new) }
    ensures taken { OnErr result (Takes (S.left source.old) (S.left source.new)) }
    ensures failed { result ≡ Err ReadRefusal.Failed → Rose (S.faults source.old) (S.faults source.new) }
    ensures count { S.faults source.old ≤ S.faults source.new }
{
    let mut bytes = Vec::new(alloc);
    let mut chunk = [0u8; 4096];
    while bytes.len() <= limit {
        match source.read(&mut chunk) {
            Ok(0) => return Ok(bytes),
            Ok(n) => match bytes.extend_from_slice(&chunk[..n]) {
                Ok(()) => {}
                Err(AllocError) => return Err(ReadRefusal::Memory),
            },
            Err(Failed) => return Err(ReadRefusal::Failed),
        }
    }
    Err(ReadRefusal::TooLong)
}
