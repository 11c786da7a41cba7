//! Whether a program drops, keeps or changes the frames of a list.
ghost use Rattle.std.specs.Prelude.{◌≡◌, ◌≤◌, All, length, vec_len};
ghost use Rattle.program_types.specs.Apply.{applied};
ghost use Rattle.hand_lemmas.specs.Frames.{AreSized};
ghost use Rattle.frame_programs.specs.Judged.{Judges, both};
ghost use Rattle.frame_programs.specs.Spaces.{HasRoom, written};

use buffer_pools::BufferList;
use frame_rules::{NetSpace, Verdict, apply_into};
use program_types::Program;

/// The bytes that a frame has at most: an Ethernet frame with one VLAN tag (IEEE 802.3 and 802.1Q).
pub(crate) const LONGEST: usize = 1518;

fn both(before: Verdict, next: Verdict) -> Verdict
    ensures { result ≡ both before next }
{
    match before {
        Verdict::Drop => Verdict::Drop,
        Verdict::Same => next,
        Verdict::Changed => match next {
            Verdict::Drop => Verdict::Drop,
            Verdict::Same | Verdict::Changed => Verdict::Changed,
        },
    }
}

/// What becomes of the frames of a list. What the program makes of each stands in a space of its own.
pub(crate) fn judge(program: &Program, list: &BufferList, spaces: &mut Vec<NetSpace>) -> Verdict
    requires sized { AreSized list.now.frames }
    requires spaces { length list.now.frames ≤ vec_len spaces.old }
    requires room { All HasRoom spaces.old.items }
    ensures verdict { Judges result (applied 1518 program.now list.now.frames) list.now.frames (written spaces.new.items (length list.now.frames)) }
    ensures spaces { vec_len spaces.new ≡ vec_len spaces.old }
    ensures room { All HasRoom spaces.new.items }
{
    let mut verdict = Verdict::Same;
    for i in 0..list.buffers() {
        let next = apply_into(program, LONGEST, list.frame(i).data(), &mut spaces[i]);
        verdict = both(verdict, next);
    }
    verdict
}
