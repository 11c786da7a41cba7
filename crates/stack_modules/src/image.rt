//! The rules of a program, as a proof remembers them. An image takes no memory and has nothing at run
//! time: it lets the state of a stack speak of the programs of each filter without a second copy of
//! them. Nothing ties an image to memory but the contracts of the functions that make and keep it.
ghost use Rattle.std.specs.Prelude.{◌≡◌, List};
ghost use Rattle.program_types.specs.declared.Rule.{Rule};
ghost use base.Fml.{ftrue};

use program_types::Program;
use std::marker::Model;

/// What the rules of a program were at a moment.
#[derive(Drop)]
pub struct ProgramImage {
    pub ghost rules: { List Rule },
}

impl Model for ProgramImage {
    ghost also_owns = { λ _. ftrue };
}

impl ProgramImage {
    /// The image of this program.
    pub fn of(_program: &Program) -> ProgramImage
        ensures { result.rules ≡ _program.now }
    {
        ProgramImage {}
    }
}

// It owns nothing.
unsafe impl Send for ProgramImage {}
