//! Programs copied.
ghost use Rattle.std.specs.Prelude.{◌≡◌, IfOk};

use ndis_base::OutOfMemory;
use program_types::Program;
use std::alloc::Global;

/// An equal program.
pub fn copy(alloc: Global, program: &Program) -> Result<Program, OutOfMemory>
    ensures { IfOk result (λ p. p ≡ program.now) }
{
    Ok(Program::of(Vec::from_slice(alloc, program.rules())?))
}
