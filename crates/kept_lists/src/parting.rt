//! Which of the kept lists leave.
ghost use Rattle.std.specs.Prelude.{◌≡◌, ◌&&◌, ◌+◌, ◌<◌, ◌≤◌, [], Some, not, filter};
ghost use Rattle.std.specs.VecDeque.{deque_capacity, deque_len};
ghost use Rattle.stack_rules.specs.Tests.{is_down, same_number};
ghost use Rattle.kept_lists.specs.Kept.{leaves};
ghost use Rattle.kept_lists.specs.Moves.{Moves};

use buffer_pools::{BufferList, KeptList};
use driver_tray::Tray;
use ndis_base::Direction;
use std::collections::VecDeque;

fn is_send_of(list: &BufferList, id: u32) -> bool
    ensures { result ≡ (is_down list.now.label.direction && same_number list.now.label.cancel (Some id)) }
{
    match list.cancel() {
        Some(own) => matches!(list.direction(), Direction::Down) && own == id,
        None => false,
    }
}

fn leaves(tray: &Tray, id: Option<u32>, list: &BufferList) -> bool
    ensures { result ≡ leaves tray.now.net id list.now }
{
    let waits = tray.waits(list.number());
    match id {
        Some(id) => !waits && is_send_of(list, id),
        None => !waits,
    }
}

fn move_first(
    kept: &mut VecDeque<KeptList>,
    leaving: &mut VecDeque<KeptList>,
    tray: &Tray,
    id: Option<u32>,
)
    requires some { 0 < deque_len kept.old }
    requires room { deque_len leaving.old < deque_capacity leaving.old }
    requires within { deque_len kept.old ≤ deque_capacity kept.old }
    ensures moves { Moves (leaves tray.now.net id) kept.old.items leaving.old.items kept.new.items leaving.new.items }
    ensures all { deque_len kept.new + deque_len leaving.new ≡ deque_len kept.old + deque_len leaving.old }
    ensures kept_capacity { deque_capacity kept.new ≡ deque_capacity kept.old }
    ensures leaving_capacity { deque_capacity leaving.new ≡ deque_capacity leaving.old }
{
    match kept.pop_front() {
        Some(first) => {
            if leaves(tray, id, first.list()) {
                leaving.push_back_reserved(first);
            } else {
                kept.push_back_reserved(first);
            }
        }
        None => unreachable!(),
    }
}

/// Parts the lists that leave from those that stay.
pub(crate) fn part(
    kept: &mut VecDeque<KeptList>,
    leaving: &mut VecDeque<KeptList>,
    tray: &Tray,
    id: Option<u32>,
)
    requires none { leaving.old.items ≡ [] }
    requires room { deque_len kept.old ≤ deque_capacity leaving.old }
    ensures stay { kept.new.items ≡ filter (λ l. not (leaves tray.now.net id l)) kept.old.items }
    ensures leave { leaving.new.items ≡ filter (leaves tray.now.net id) kept.old.items }
    ensures all { deque_len kept.new + deque_len leaving.new ≡ deque_len kept.old + deque_len leaving.old }
    ensures kept_capacity { deque_capacity kept.new ≡ deque_capacity kept.old }
    ensures leaving_capacity { deque_capacity leaving.new ≡ deque_capacity leaving.old }
{
    for _i in 0..kept.len() {
        move_first(kept, leaving, tray, id);
    }
}
