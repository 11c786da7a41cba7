//! What the buffers of a list showed when it was issued. It exists only in proofs, and takes no
//! memory. Nothing ties it to memory but the contracts of the pool's calls.
ghost use Rattle.std.specs.Prelude.{◌≡◌, ℕ, List};
ghost use base.Fml.{ftrue};

use crate::space::Space;
use std::marker::Model;

#[derive(Drop)]
pub struct Image {
    pub ghost frames: { List (List ℕ) },
}

impl Model for Image {
    ghost also_owns = { λ _. ftrue };
}

impl Image {
    /// The frames now.
    pub fn of(_space: &Space) -> Image
        ensures { result.frames ≡ _space.now.frames }
    {
        Image {}
    }
}

// It owns nothing.
unsafe impl Send for Image {}
