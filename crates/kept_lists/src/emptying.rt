//! The lists that leave are passed on, or turned or passed back.
ghost use Rattle.std.specs.Prelude.{◌≡◌, ◌*◌, ◌≤◌, [], length};
ghost use Rattle.std.specs.VecDeque.{deque_capacity};
ghost use Rattle.driver_tray.specs.Tray.{each_turned_back, each_passed_on, each_passed_back};

use buffer_pools::KeptList;
use driver_tray::Tray;
use ndis_base::ListStatus;
use std::collections::VecDeque;

/// Turns all back, the first first.
pub(crate) fn turn_back_all(leaving: &mut VecDeque<KeptList>, status: ListStatus, tray: &mut Tray)
    requires rows { 2 * length leaving.old.items ≤ tray.old.room.rows }
    requires slack { length leaving.old.items ≤ tray.old.slack }
    ensures tray { tray.new ≡ each_turned_back tray.old leaving.old.items status }
    ensures none { leaving.new.items ≡ [] }
    ensures capacity { deque_capacity leaving.new ≡ deque_capacity leaving.old }
{
    while let Some(list) = leaving.pop_front() {
        tray.turn_back(list.into_list(), status);
    }
}

/// Passes all on, the first first.
pub(crate) fn pass_on_all(leaving: &mut VecDeque<KeptList>, tray: &mut Tray)
    requires rows { length leaving.old.items ≤ tray.old.room.rows }
    requires slack { length leaving.old.items ≤ tray.old.slack }
    ensures tray { tray.new ≡ each_passed_on tray.old leaving.old.items }
    ensures none { leaving.new.items ≡ [] }
    ensures capacity { deque_capacity leaving.new ≡ deque_capacity leaving.old }
{
    while let Some(list) = leaving.pop_front() {
        tray.forward(list.into_list());
    }
}

/// Passes all homewards, the first first.
pub(crate) fn pass_back_all(leaving: &mut VecDeque<KeptList>, status: ListStatus, tray: &mut Tray)
    requires rows { length leaving.old.items ≤ tray.old.room.rows }
    requires slack { length leaving.old.items ≤ tray.old.slack }
    ensures tray { tray.new ≡ each_passed_back tray.old leaving.old.items status }
    ensures none { leaving.new.items ≡ [] }
    ensures capacity { deque_capacity leaving.new ≡ deque_capacity leaving.old }
{
    while let Some(list) = leaving.pop_front() {
        tray.pass_back(list.into_list(), status);
    }
}
