//! What a program makes of a frame.
ghost use Rattle.std.specs.Prelude.{◌≡◌, ◌+◌, ◌≤◌, ◌<◌, MatchOption, false, true, IsTrue, length};
ghost use Rattle.program_types.specs.Apply.{holds, is_tagged, pair_at, act, apply};
ghost use Rattle.frame_rules.specs.Tells.{Tells, Performs};

use crate::net_space::NetSpace;
use program_types::{Action, Program, Test};

/// What became of a frame.
#[derive(Clone, Copy, PartialEq, Eq)]
pub enum Verdict {
    Same,
    Changed,
    Drop,
}

fn has_tag(frame: &[u8]) -> bool
    ensures { result ≡ is_tagged frame.now }
{
    frame.len() >= 18 && frame[12] == 0x81 && frame[13] == 0x00
}

fn number_at(frame: &[u8], at: usize) -> u16
    requires { at + 1 < length frame.now }
    ensures { result ≡ pair_at frame.now at }
{
    u16::from_be_bytes([frame[at], frame[at + 1]])
}

// Whether a test holds of a frame.
fn is_met(test: Test, frame: &[u8]) -> bool
    requires { 14 ≤ length frame.now }
    ensures { result ≡ holds test frame.now }
{
    match test {
        Test::Any => true,
        Test::Tagged => has_tag(frame),
        Test::Untagged => !has_tag(frame),
        Test::Dst(address) => frame[0..6] == address[..],
        Test::Src(address) => frame[6..12] == address[..],
        Test::EtherType(number) => number_at(frame, 12) == number,
        Test::Vlan(vlan) => has_tag(frame) && number_at(frame, 14) % 4096 == vlan,
        Test::Longer(bytes) => frame.len() > bytes as usize,
        Test::Byte { at, value } => frame.len() > at as usize && frame[at as usize] == value,
    }
}

// Does an action to the frame in a space, and answers whether it left one.
fn perform(action: Action, max: usize, space: &mut NetSpace) -> bool
    requires long { 14 ≤ length space.old.bytes }
    requires short { length space.old.bytes ≤ max }
    requires room { max ≤ space.old.room }
    ensures { Performs result (act max action space.old.bytes) max space.old space.new }
{
    match action {
        Action::Drop => return false,
        Action::Pop => {
            if has_tag(space.bytes()) {
                space.pop_tag();
            }
        }
        Action::Push(control) => {
            if max - space.bytes().len() < 4 {
                return false;
            }
            space.push_tag(control);
        }
        Action::SetDst(address) => space.set_first_six(&address),
        Action::SetSrc(address) => space.set_next_six(&address),
        Action::SetByte { at, value } => {
            if space.bytes().len() > at as usize {
                space.set_byte(at as usize, value);
            }
        }
    }
    true
}

// Does the rules' actions to the frame in a space, each where its test holds, and answers whether
// they left one.
fn perform_all(program: &Program, max: usize, space: &mut NetSpace) -> bool
    requires long { 14 ≤ length space.old.bytes }
    requires short { length space.old.bytes ≤ max }
    requires room { max ≤ space.old.room }
    ensures { Performs result (apply max program.now space.old.bytes) max space.old space.new }
{
    for rule in program.rules() {
        if is_met(rule.test, space.bytes()) && !perform(rule.action, max, space) {
            return false;
        }
    }
    true
}

/// What a program makes of a frame of 14 to `max` bytes, in a space of room for `max` bytes. A
/// program may not let a frame grow past `max`. It takes no memory.
pub fn apply_into(program: &Program, max: usize, frame: &[u8], out: &mut NetSpace) -> Verdict
    requires long { 14 ≤ length frame.now }
    requires short { length frame.now ≤ max }
    requires room { max ≤ out.old.room }
    ensures verdict { Tells result (apply max program.now frame.now) frame.now out.new.bytes }
    ensures room { out.new.room ≡ out.old.room }
{
    out.fill(frame);
    if !perform_all(program, max, out) {
        Verdict::Drop
    } else if out.bytes() == frame {
        Verdict::Same
    } else {
        Verdict::Changed
    }
}
