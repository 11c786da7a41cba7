//! What is on its way in a stack: lists, statuses and answers, in one queue.
#![tactic(auto)]

ghost use Rattle.std.specs.Prelude.{◌≡◌, ◌+◌, ◌<◌, ◌≤◌, ◌++◌, ◌∷◌, [], ◌*◌, None, Some, not, filter};
ghost use Rattle.std.specs.VecDeque.{deque_capacity, deque_len};
ghost use Rattle.agenda_items.specs.declared.Carried.TheVariants as carried;
ghost use Rattle.agenda_items.specs.declared.Carried.{Carried};
ghost use Rattle.agenda_items.specs.declared.Item.{Item};
ghost use Rattle.agenda_items.specs.Views.{kept_as, carries_status, carries_answer};

use buffer_pools::{BufferList, KeptList};
use journal_types::{PassWay, Target};
use ndis_base::{OidNo, StatusNo};
use stack_rules::{Answered, StatusAway};
use std::collections::VecDeque;

/// Something on its way, as the queue has it: a list with which way it is passed and to where, a
/// status, or an answer.
#[derive(Drop)]
pub enum Carried {
    List {
        kept: KeptList,
        way: PassWay,
        to: Target,
    },
    Status(StatusAway),
    Answer(Answered),
}

/// The same, taken out. A list must be spent.
pub enum Item {
    List {
        list: BufferList,
        way: PassWay,
        to: Target,
    },
    Status(StatusAway),
    Answer(Answered),
}

/// Puts a list behind what is on its way.
pub fn enqueue(queue: &mut VecDeque<Carried>, list: BufferList, way: PassWay, to: Target)
    requires { deque_len queue.old < deque_capacity queue.old }
    ensures items { queue.new.items ≡ queue.old.items ++ carried.List list way to ∷ [] }
    ensures len { deque_len queue.new ≡ deque_len queue.old + 1 }
    ensures capacity { deque_capacity queue.new ≡ deque_capacity queue.old }
{
    queue.push_back_reserved(Carried::List {
        kept: KeptList::of(list),
        way,
        to,
    });
}

/// Takes the first thing that is on its way.
pub fn dequeue(queue: &mut VecDeque<Carried>) -> Option<Item>
    ensures none { result ≡ None → (queue.old.items ≡ []) × (queue.new.items ≡ []) }
    ensures some { (i : Item) → result ≡ Some i → queue.old.items ≡ kept_as i ∷ queue.new.items }
    ensures len { deque_len queue.new ≤ deque_len queue.old }
    ensures capacity { deque_capacity queue.new ≡ deque_capacity queue.old }
{
    match queue.pop_front() {
        Some(Carried::List { kept, way, to }) => Some(Item::List {
            list: kept.into_list(),
            way,
            to,
        }),
        Some(Carried::Status(status)) => Some(Item::Status(status)),
        Some(Carried::Answer(answer)) => Some(Item::Answer(answer)),
        None => None,
    }
}

/// Puts a status behind what is on its way.
pub fn enqueue_status(queue: &mut VecDeque<Carried>, status: StatusAway)
    requires { deque_len queue.old < deque_capacity queue.old }
    ensures items { queue.new.items ≡ queue.old.items ++ carried.Status status ∷ [] }
    ensures len { deque_len queue.new ≡ deque_len queue.old + 1 }
    ensures capacity { deque_capacity queue.new ≡ deque_capacity queue.old }
{
    queue.push_back_reserved(Carried::Status(status));
}

/// Puts an answer behind what is on its way.
pub fn enqueue_answer(queue: &mut VecDeque<Carried>, answer: Answered)
    requires { deque_len queue.old < deque_capacity queue.old }
    ensures items { queue.new.items ≡ queue.old.items ++ carried.Answer answer ∷ [] }
    ensures len { deque_len queue.new ≡ deque_len queue.old + 1 }
    ensures capacity { deque_capacity queue.new ≡ deque_capacity queue.old }
{
    queue.push_back_reserved(Carried::Answer(answer));
}

fn carries_status(number: StatusNo, carried: &Carried) -> bool
    ensures { result ≡ carries_status number.0 carried.now }
{
    match carried {
        Carried::Status(status) => status.number.0 == number.0,
        _ => false,
    }
}

fn carries_answer(parent: OidNo, carried: &Carried) -> bool
    ensures { result ≡ carries_answer parent.0 carried.now }
{
    match carried {
        Carried::Answer(answer) => answer.parent.0 == parent.0,
        _ => false,
    }
}

/// Takes the status of a number from what is on its way.
pub fn take_status(queue: &mut VecDeque<Carried>, number: StatusNo)
    ensures items { queue.new.items ≡ filter (λ c. not (carries_status number.0 c)) queue.old.items }
    ensures len { deque_len queue.new ≤ deque_len queue.old }
    ensures capacity { deque_capacity queue.new ≡ deque_capacity queue.old }
{
    queue.retain(|carried| !carries_status(number, carried));
}

/// Takes the answer to a request from what is on its way.
pub fn take_answer(queue: &mut VecDeque<Carried>, parent: OidNo)
    ensures items { queue.new.items ≡ filter (λ c. not (carries_answer parent.0 c)) queue.old.items }
    ensures len { deque_len queue.new ≤ deque_len queue.old }
    ensures capacity { deque_capacity queue.new ≡ deque_capacity queue.old }
{
    queue.retain(|carried| !carries_answer(parent, carried));
}
