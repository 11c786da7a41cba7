//! A whole run of one stack: the opening with its filters, the calls with their tails, and the ending.
ghost use Rattle.std.specs.Prelude.{◌≡◌, ◌≤◌, List, [], ◌∷◌, true, OnOk, length, map};
ghost use Rattle.std.specs.List.{list_all};
ghost use Rattle.ndis_base.specs.declared.LaneNo.{LaneNo};
ghost use Rattle.ndis_base.specs.declared.Phase.TheVariants as phase;
ghost use Rattle.script_types.specs.declared.StackSetup.{StackSetup};
ghost use Rattle.promise_rules.specs.Followed.{IsFollowed};
ghost use Rattle.lane_orders.specs.Orders.{is_below, ordered};
ghost use Rattle.book_lemmas.specs.Stands.{IsShelved};
ghost use Rattle.book_parts.specs.Parts.{view_of};
ghost use Rattle.book_runs.specs.Runs.{IsBetween, IsInPhase, is_fine};
ghost use Rattle.book_scripts.specs.Laws.{MeetsLaws};
ghost use Rattle.book_scripts.specs.Orders.{CallsInOrder};
ghost use Rattle.stack_rules.specs.Sound.{Sound};
ghost use Rattle.book_scripts.specs.Served.{DriversServed, FiltersServed};
ghost use Rattle.book_scripts.specs.Scripts.{MakesOne, MakesEach, RunsWhole, is_asked_call};

use book_parts::BookParts;
use book_runs::{end_stack, open_stack, run_call};
use driver_calls::{FilterCalls, MiniportCalls, ProtocolCalls};
use lane_orders::in_order;
use ndis_base::OutOfMemory;
use script_events::event_of_call;
use script_types::{Call, FilterSetup};
use std::alloc::Global;

/// Makes one call, and its tail.
fn run_one<M: MiniportCalls, P: ProtocolCalls, F: FilterCalls>(
    book: &mut BookParts<M, P, F>,
    alloc: Global,
    call: &Call,
) -> Result<(), OutOfMemory>
    requires between { IsBetween (view_of M.state P.state F.state book.old) }
    requires asked { is_asked_call (view_of M.state P.state F.state book.old).tray.head call.now ≡ true }
    ensures between { IsBetween (view_of M.state P.state F.state book.new) }
    ensures made { OnOk result (MakesOne call.now (view_of M.state P.state F.state book.old) (view_of M.state P.state F.state book.new)) }
{
    let Some(event) = event_of_call(alloc, &call.kind)? else {
        unreachable!()
    };
    run_call(book, alloc, call.lane, event, call.pump)?;
    Ok(())
}

/// Makes calls in order, each with its tail.
fn run_calls<M: MiniportCalls, P: ProtocolCalls, F: FilterCalls>(
    book: &mut BookParts<M, P, F>,
    alloc: Global,
    calls: &[&Call],
) -> Result<(), OutOfMemory>
    requires between { IsBetween (view_of M.state P.state F.state book.old) }
    requires asked { list_all (is_asked_call (view_of M.state P.state F.state book.old).tray.head) (map (λ c. c.now) calls.now) ≡ true }
    ensures between { IsBetween (view_of M.state P.state F.state book.new) }
    ensures made { OnOk result (MakesEach (map (λ c. c.now) calls.now) (view_of M.state P.state F.state book.old) (view_of M.state P.state F.state book.new)) }
{
    for call in calls {
        run_one(book, alloc, call)?;
    }
    Ok(())
}

/// Runs a stack that was just opened: it is initialised, these filters are inserted and it is restarted; the calls of
/// so many lanes are made in the order that is given, each with its tail; and it is ended. The calls stand in the
/// journal in that order, each with its tail, and so each lane's calls once and in order, between the opening and the
/// ending; the laws of sound journals hold of it; the drivers of the miniport and of the bindings count and log what
/// it tells; once it is opened the stack runs, unless its adapter counted that it refused; and shelf and seats are
/// those that are promised of the journal, where they were so before it.
pub fn run_stack<M: MiniportCalls, P: ProtocolCalls, F: FilterCalls>(
    book: &mut BookParts<M, P, F>,
    alloc: Global,
    filters: &[FilterSetup],
    lanes: u8,
    calls: &[Call],
    order: &[u8],
) -> Result<(), OutOfMemory>
    requires halted { IsInPhase (view_of M.state P.state F.state book.old) phase.Halted }
    requires fresh { (view_of M.state P.state F.state book.old).tray.turns ≡ [] }
    requires few { length filters.now ≤ 16 }
    requires fine { list_all is_fine filters.now ≡ true }
    requires asked { list_all (is_asked_call (view_of M.state P.state F.state book.old).tray.head) calls.now ≡ true }
    requires below { list_all (is_below lanes) calls.now ≡ true }
    ensures between { IsBetween (view_of M.state P.state F.state book.new) }
    ensures whole { OnOk result (RunsWhole filters.now (ordered lanes order.now calls.now) (view_of M.state P.state F.state book.old) (view_of M.state P.state F.state book.new)) }
    ensures in_order { OnOk result ((stacks : List StackSetup) → CallsInOrder stacks (view_of M.state P.state F.state book.old).tray.head filters.now (ordered lanes order.now calls.now) (view_of M.state P.state F.state book.new).tray.turns) }
    ensures followed { OnOk result ((stacks : List StackSetup) → (lane : LaneNo) → IsFollowed stacks lane calls.now ((view_of M.state P.state F.state book.new).tray.turns ∷ [])) }
    ensures laws { OnOk result (MeetsLaws (view_of M.state P.state F.state book.old).tray.head (view_of M.state P.state F.state book.new).tray.turns) }
    ensures sound { OnOk result (Sound (view_of M.state P.state F.state book.old).tray.head (view_of M.state P.state F.state book.new).tray.turns) }
    ensures served { OnOk result (DriversServed (view_of M.state P.state F.state book.old).tray.head filters.now (view_of M.state P.state F.state book.new).tray.turns (view_of M.state P.state F.state book.old).held (view_of M.state P.state F.state book.new).held) }
    ensures shelved { OnOk result (IsShelved (view_of M.state P.state F.state book.old).tray.net (view_of M.state P.state F.state book.old).tray.turns (view_of M.state P.state F.state book.old).held → IsShelved (view_of M.state P.state F.state book.new).tray.net (view_of M.state P.state F.state book.new).tray.turns (view_of M.state P.state F.state book.new).held) }
    ensures filters_served { OnOk result (IsShelved (view_of M.state P.state F.state book.old).tray.net (view_of M.state P.state F.state book.old).tray.turns (view_of M.state P.state F.state book.old).held → FiltersServed (view_of M.state P.state F.state book.new).tray.turns (view_of M.state P.state F.state book.old).held.filters (view_of M.state P.state F.state book.new).held.filters) }
{
    let calls = in_order(alloc, lanes, calls, order)?;
    open_stack(book, alloc, filters)?;
    run_calls(book, alloc, calls.as_slice())?;
    end_stack(book, alloc)?;
    Ok(())
}
