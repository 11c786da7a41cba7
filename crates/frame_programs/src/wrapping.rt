//! Frames of the bytes in spaces.
ghost use Rattle.std.specs.Prelude.{◌≡◌, ◌≤◌, [], All, vec_len, vec_capacity};
ghost use Rattle.frame_programs.specs.Spaces.{HasRoom, written};

use frame_rules::NetSpace;
use ndis_base::Frame;

/// Makes frames of the first so many spaces, without a copy. The others are left.
pub(crate) fn wrap(many: usize, spaces: &mut Vec<NetSpace>, made: &mut Vec<Frame>)
    requires spaces { many ≤ vec_len spaces.old }
    requires room { All HasRoom spaces.old.items }
    requires none { made.old.items ≡ [] }
    requires places { many ≤ vec_capacity made.old }
    ensures frames { made.new.items ≡ written spaces.old.items many }
    ensures room { All HasRoom spaces.new.items }
{
    while made.len() < many {
        let space = spaces.remove(0);
        made.push_reserved(space.into_frame());
    }
}
