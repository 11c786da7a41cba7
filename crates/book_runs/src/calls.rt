//! A call of a lane, and its tail.
ghost use Rattle.std.specs.Prelude.{◌≡◌, true, OnOk};
ghost use Rattle.flat_journal.specs.Shown.{reply_of};
ghost use Rattle.promise_rules.specs.declared.Tail.TheVariants.{Pumping};
ghost use Rattle.promise_rules.specs.Tails.{paused, restarted, unless_refused};
ghost use Rattle.stack_rules.specs.Conditions.{may_ask};
ghost use Rattle.book_parts.specs.Parts.{view_of};
ghost use Rattle.book_runs.specs.Adds.{tail_of_call};
ghost use Rattle.book_runs.specs.Runs.{AnswersSo, IsBetween, MakesCall, MakesTail, MayCall, PausesSo, RestartsSo};

use crate::answers::{is_paused, is_refusal, is_running, is_waiting};
use crate::asking::{ask_for, pump_all};
use crate::pausing::{drain_once, pause_all};
use crate::restarting::restart_all;
use book_parts::BookParts;
use driver_calls::{FilterCalls, MiniportCalls, ProtocolCalls};
use flat_journal::FlatReply;
use journal_types::{Asked, Event};
use ndis_base::{LaneNo, OutOfMemory, Who};
use std::alloc::Global;

/// After a call that is answered so the stack is pumped until nothing moves, unless the call is refused.
fn pump_on<M: MiniportCalls, P: ProtocolCalls, F: FilterCalls>(
    book: &mut BookParts<M, P, F>,
    alloc: Global,
    lane: LaneNo,
    reply: FlatReply,
) -> Result<(), OutOfMemory>
    requires between { IsBetween (view_of M.state P.state F.state book.old) }
    ensures between { IsBetween (view_of M.state P.state F.state book.new) }
    ensures tail { OnOk result (MakesTail lane (unless_refused (Pumping 0) (reply_of (view_of M.state P.state F.state book.old).tray.payloads reply)) (view_of M.state P.state F.state book.old) (view_of M.state P.state F.state book.new)) }
{
    if is_refusal(reply) {
        return Ok(());
    }
    pump_all(book, alloc, Who::Help(lane))?;
    Ok(())
}

/// After a step of a pause that is answered so the stack is paused to the end, unless it is Paused or the step is
/// refused.
fn pause_on<M: MiniportCalls, P: ProtocolCalls, F: FilterCalls>(
    book: &mut BookParts<M, P, F>,
    alloc: Global,
    lane: LaneNo,
    reply: FlatReply,
) -> Result<(), OutOfMemory>
    requires between { IsBetween (view_of M.state P.state F.state book.old) }
    requires pauses { PausesSo (reply_of (view_of M.state P.state F.state book.old).tray.payloads reply) (view_of M.state P.state F.state book.old) }
    ensures between { IsBetween (view_of M.state P.state F.state book.new) }
    ensures tail { OnOk result (MakesTail lane (paused 0 (reply_of (view_of M.state P.state F.state book.old).tray.payloads reply)) (view_of M.state P.state F.state book.old) (view_of M.state P.state F.state book.new)) }
{
    if is_waiting(reply) {
        drain_once(book, alloc, Who::Help(lane))?;
        pause_all(book, alloc, Who::Help(lane))?;
        return Ok(());
    }
    if is_refusal(reply) || is_paused(reply) {
        return Ok(());
    }
    pause_all(book, alloc, Who::Help(lane))?;
    Ok(())
}

/// After a step of a restart that is answered so the stack is restarted until it runs, unless the step is refused.
fn restart_on<M: MiniportCalls, P: ProtocolCalls, F: FilterCalls>(
    book: &mut BookParts<M, P, F>,
    alloc: Global,
    lane: LaneNo,
    reply: FlatReply,
) -> Result<(), OutOfMemory>
    requires between { IsBetween (view_of M.state P.state F.state book.old) }
    requires restarts { RestartsSo (reply_of (view_of M.state P.state F.state book.old).tray.payloads reply) (view_of M.state P.state F.state book.old) }
    ensures between { IsBetween (view_of M.state P.state F.state book.new) }
    ensures tail { OnOk result (MakesTail lane (restarted 0 (reply_of (view_of M.state P.state F.state book.old).tray.payloads reply)) (view_of M.state P.state F.state book.old) (view_of M.state P.state F.state book.new)) }
{
    if is_refusal(reply) || is_running(reply) {
        return Ok(());
    }
    restart_all(book, alloc, Who::Help(lane))?;
    Ok(())
}

/// The tail of a call that was answered so.
fn tail<M: MiniportCalls, P: ProtocolCalls, F: FilterCalls>(
    book: &mut BookParts<M, P, F>,
    alloc: Global,
    lane: LaneNo,
    event: &Event,
    reply: FlatReply,
) -> Result<(), OutOfMemory>
    requires between { IsBetween (view_of M.state P.state F.state book.old) }
    requires call { MayCall event.now }
    requires answers { AnswersSo event.now (reply_of (view_of M.state P.state F.state book.old).tray.payloads reply) (view_of M.state P.state F.state book.old) }
    ensures between { IsBetween (view_of M.state P.state F.state book.new) }
    ensures tail { OnOk result (MakesTail lane (tail_of_call event.now (reply_of (view_of M.state P.state F.state book.old).tray.payloads reply)) (view_of M.state P.state F.state book.old) (view_of M.state P.state F.state book.new)) }
{
    match event {
        Event::BeginPause | Event::PauseNext => pause_on(book, alloc, lane, reply),
        Event::RestartNext => restart_on(book, alloc, lane, reply),
        Event::Insert { .. } | Event::Remove { .. } | Event::Replace { .. } => Ok(()),
        _ => pump_on(book, alloc, lane, reply),
    }
}

/// A call of a lane, and its tail where it wants one, unless the call is refused: after a step of a pause the stack is
/// paused to the end, and after a step of a restart it is restarted until it runs; after a change of the filters
/// nothing follows; and after every other call the stack is pumped until nothing moves.
pub fn run_call<M: MiniportCalls, P: ProtocolCalls, F: FilterCalls>(
    book: &mut BookParts<M, P, F>,
    alloc: Global,
    lane: LaneNo,
    event: Event,
    pump: bool,
) -> Result<(), OutOfMemory>
    requires between { IsBetween (view_of M.state P.state F.state book.old) }
    requires call { MayCall event }
    requires may { may_ask (view_of M.state P.state F.state book.old).tray.head event ≡ true }
    ensures between { IsBetween (view_of M.state P.state F.state book.new) }
    ensures made { OnOk result (MakesCall lane event pump (view_of M.state P.state F.state book.old) (view_of M.state P.state F.state book.new)) }
{
    let asked = Asked {
        who: Who::Call(lane),
        event,
    };
    let reply = ask_for(book, alloc, &asked)?;
    if !pump {
        return Ok(());
    }
    tail(book, alloc, lane, &asked.event, reply)?;
    Ok(())
}
