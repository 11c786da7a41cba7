//! Which programs drop the lists with a frame of one EtherType, and how the lists with a frame of a class are
//! dropped.
ghost use Rattle.std.specs.Prelude.{◌≡◌, ◌≤◌};
ghost use Rattle.hand_lemmas.specs.Frames.{AreSized};
ghost use Rattle.classify_filters.specs.Blocking as form;

use crate::class::FrameClass;
use buffer_pools::BufferList;
use driver_calls::LentFate;
use driver_tray::Tray;
use journal_types::Setup;
use ndis_base::ListStatus;
use program_types::{Action, Rule, Test};

fn is_drop(ethertype: u16, rule: Rule) -> bool
    ensures { result ≡ form.is_drop ethertype rule.test rule.action }
{
    match rule.test {
        Test::EtherType(number) => match rule.action {
            Action::Drop => number == ethertype,
            _ => false,
        },
        _ => false,
    }
}

fn is_only_drop(ethertype: u16, rules: &[Rule]) -> bool
    ensures { result ≡ form.is_only_drop ethertype rules.now }
{
    match rules {
        [rule] => is_drop(ethertype, *rule),
        _ => false,
    }
}

/// Whether both programs have one rule, which drops this EtherType.
pub fn is_blocking(ethertype: u16, setup: &Setup) -> bool
    ensures { result ≡ form.is_blocking ethertype setup.now }
{
    is_only_drop(ethertype, setup.send.rules()) && is_only_drop(ethertype, setup.receive.rules())
}

/// Whether a frame of a list is of the class.
fn carries<C: FrameClass>(class: &C, list: &BufferList) -> bool
    requires { AreSized list.now.frames }
    ensures { result ≡ form.carries (C.ethertype class.now) list.now.frames }
{
    let mut found = false;
    for i in 0..list.buffers() {
        let here = class.is_of(list.frame(i).data());
        found = found || here;
    }
    found
}

/// Turns a list back as Dropped where a frame of it is of the class, and passes any other list on.
pub fn block<C: FrameClass>(class: &C, list: BufferList, tray: &mut Tray)
    requires sized { AreSized list.frames }
    requires rows { 2 ≤ tray.old.room.rows }
    requires slack { 1 ≤ tray.old.slack }
    ensures { tray.new ≡ form.blocked (C.ethertype class.now) list tray.old }
{
    if carries(class, &list) {
        tray.turn_back(list, ListStatus::Dropped);
    } else {
        tray.forward(list);
    }
}

/// What becomes of a lent list: it is dropped where a frame of it is of the class, and left else.
pub fn lent<C: FrameClass>(class: &C, list: &BufferList) -> LentFate
    requires { AreSized list.now.frames }
    ensures { result ≡ form.lent (C.ethertype class.now) list.now.frames }
{
    if carries(class, list) {
        LentFate::Dropped
    } else {
        LentFate::Left
    }
}
