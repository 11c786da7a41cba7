//! Frames as programs leave them.
ghost use Rattle.std.specs.Prelude.{◌≡◌, ◌≤◌, [], OnOk, All, vec_len};
ghost use Rattle.program_types.specs.Apply.{applied};
ghost use Rattle.hand_lemmas.specs.Frames.{AreSized};
ghost use Rattle.frame_rules.specs.declared.applying.Verdict.TheVariants.{Same};
ghost use Rattle.frame_programs.specs.Judged.{Leaves};
ghost use Rattle.frame_programs.specs.Spaces.{HasRoom};

use crate::addresses::tell_addresses;
use crate::judging::{LONGEST, judge};
use crate::wrapping::wrap;
use buffer_pools::BufferList;
use frame_rules::{NetSpace, Verdict};
use ndis_base::{Frame, OutOfMemory};
use program_types::Program;
use std::alloc::Global;
use std::marker::Model;

/// The frames that a list has at most.
const FRAMES: usize = 8;

/// What a program made of the frames of the last list that it changed, and for how many more lists there is
/// room.
#[derive(Drop)]
pub struct MadeFrames {
    alloc: Global,
    spaces: Vec<NetSpace>,
    made: Vec<Frame>,
    room: usize,
}

impl Model for MadeFrames {
    ghost use Rattle.frame_programs.specs.Made.{MadeView};

    ghost Value = { MadeView };

    ghost use Rattle.frame_programs.specs.Inside.{made_view, IsMade};

    ghost view = { made_view };

    ghost invariant = { IsMade };
}

fn fill_spaces(alloc: Global, spaces: &mut Vec<NetSpace>) -> Result<(), OutOfMemory>
    requires { All HasRoom spaces.old.items }
    ensures many { OnOk result (8 ≤ vec_len spaces.new) }
    ensures room { All HasRoom spaces.new.items }
{
    while spaces.len() < FRAMES {
        spaces.push(NetSpace::make(alloc, LONGEST)?)?;
    }
    Ok(())
}

impl MadeFrames {
    /// No frames, and no room for those of a list. It takes no memory.
    pub fn empty(alloc: Global) -> MadeFrames
        ensures { result ≡ record { frames = []; room = 0 } }
    {
        MadeFrames {
            alloc,
            spaces: Vec::new(alloc),
            made: Vec::new(alloc),
            room: 0,
        }
    }

    /// Makes room for the frames of one list.
    pub fn make_room(&mut self) -> Result<(), OutOfMemory>
        ensures { OnOk result (1 ≤ self.new.room) }
    {
        if self.room == 0 {
            self.made.clear();
            self.made.reserve(FRAMES)?;
            fill_spaces(self.alloc, &mut self.spaces)?;
            self.room = 1;
        }
        Ok(())
    }

    /// Tells what a program makes of the frames of a list. Where it changes them, what it makes is kept here, and
    /// the room is used up. It takes no memory.
    pub fn apply(&mut self, program: &Program, list: &BufferList) -> Verdict
        requires room { 1 ≤ self.old.room }
        requires sized { AreSized list.now.frames }
        ensures leaves { Leaves result (applied 1518 program.now list.now.frames) list.now.frames self.new.frames }
        ensures room { result ≡ Same → self.new.room ≡ self.old.room }
    {
        match judge(program, list, &mut self.spaces) {
            Verdict::Same => Verdict::Same,
            Verdict::Drop => Verdict::Drop,
            Verdict::Changed => {
                tell_addresses(program.rules());
                self.made.clear();
                self.room = 0;
                wrap(list.buffers(), &mut self.spaces, &mut self.made);
                Verdict::Changed
            }
        }
    }

    /// What the last program that changed the frames of a list made of them.
    pub fn frames(&self) -> &[Frame]
        ensures { result.now ≡ self.now.frames }
    {
        self.made.as_slice()
    }
}
