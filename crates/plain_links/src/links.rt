//! Joined stacks.
ghost use Rattle.std.specs.Prelude.{◌≡◌, ◌+◌, ◌&&◌, IfOk, map};
ghost use Rattle.std.specs.List.{list_all};
ghost use Rattle.program_types.specs.Apply.{pushed};
ghost use Rattle.journal_types.specs.declared.Way.TheVariants as crossing;
ghost use Rattle.promise_rules.specs.Links.{is_crossing, is_linked_event, is_ended, is_linked_journal, are_linked_from, are_linked};

use crate::messages::{count_ends, count_puts, is_put, is_refused, left, tagged, was_put_as};
use journal_types::{Event, Frames, OutWay, Reply, Row, Turn, Way};
use ndis_base::OutOfMemory;
use std::alloc::Global;

/// Whether a message left its stack with its frames, is put once, and an accepted put issues these frames.
fn is_crossing(
    journals: &[&[Turn]],
    stack: u8,
    message: u64,
    way: Way,
    frames: &Frames,
    issued: &Frames,
    reply: &Reply,
    rows: &[Row],
) -> Result<bool, OutOfMemory>
    ensures { IfOk result (λ holds. holds ≡ is_crossing (map (λ j. j.now) journals.now) stack message way frames.now issued.now reply.now rows.now) }
{
    let puts = count_puts(journals, stack, message, way)?;
    let is_rightly_put = is_refused(reply) || is_put(stack, message, way, frames, issued, rows);
    Ok(left(journals, stack, message, way, frames) && (puts == 1 && is_rightly_put))
}

/// Whether a message on its way down is put rightly: the tag of the VLAN is pushed.
fn is_crossing_down(
    alloc: Global,
    journals: &[&[Turn]],
    stack: u8,
    message: u64,
    vlan: u16,
    frames: &Frames,
    reply: &Reply,
    rows: &[Row],
) -> Result<bool, OutOfMemory>
    ensures { IfOk result (λ holds. holds ≡ is_crossing (map (λ j. j.now) journals.now) stack message crossing.Down frames.now (map (pushed vlan) frames.now) reply.now rows.now) }
{
    let issued = tagged(alloc, vlan, frames)?;
    is_crossing(
        journals,
        stack,
        message,
        Way::Down,
        frames,
        &issued,
        reply,
        rows,
    )
}

fn is_linked_event(
    alloc: Global,
    journals: &[&[Turn]],
    stack: u8,
    event: &Event,
    reply: &Reply,
    rows: &[Row],
) -> Result<bool, OutOfMemory>
    ensures { IfOk result (λ holds. holds ≡ is_linked_event (map (λ j. j.now) journals.now) stack event.now reply.now rows.now) }
{
    match event {
        Event::CrossPut {
            stack: from,
            message,
            vlan,
            frames,
        } => is_crossing_down(
            alloc, journals, *from, message.0, *vlan, frames, reply, rows,
        ),
        Event::CrossPutUp {
            stack: from,
            message,
            frames,
        } => is_crossing(
            journals,
            *from,
            message.0,
            Way::Up,
            frames,
            frames,
            reply,
            rows,
        ),
        Event::CrossDone { message, status } => {
            Ok(!is_refused(reply) && was_put_as(journals, stack, message.0, *status))
        }
        _ => Ok(true),
    }
}

fn is_ended(turns: &[Turn], row: &Row) -> bool
    ensures { result ≡ is_ended turns.now row.now }
{
    match row {
        Row::CrossOut { message, way, .. } => match *way {
            OutWay::Down(_) => count_ends(message.0, turns) == 1,
            OutWay::Up => true,
        },
        _ => true,
    }
}

fn are_ended(turns: &[Turn], rows: &[Row]) -> bool
    ensures { result ≡ list_all (is_ended turns.now) rows.now }
{
    match rows {
        [] => true,
        [row, others @ ..] => is_ended(turns, row) && are_ended(turns, others),
    }
}

fn is_linked_turn(
    alloc: Global,
    journals: &[&[Turn]],
    stack: u8,
    turns: &[Turn],
    turn: &Turn,
) -> Result<bool, OutOfMemory>
    ensures { IfOk result (λ holds. holds ≡ (is_linked_event (map (λ j. j.now) journals.now) stack turn.now.event turn.now.reply turn.now.rows && list_all (is_ended turns.now) turn.now.rows)) }
{
    let rows = turn.rows.items();
    let linked = is_linked_event(alloc, journals, stack, &turn.event, &turn.reply, rows)?;
    Ok(linked && are_ended(turns, rows))
}

fn are_linked_turns(
    alloc: Global,
    journals: &[&[Turn]],
    stack: u8,
    whole: &[Turn],
    turns: &[Turn],
) -> Result<bool, OutOfMemory>
    ensures { IfOk result (λ hold. hold ≡ list_all (λ t. is_linked_event (map (λ j. j.now) journals.now) stack t.event t.reply t.rows && list_all (is_ended whole.now) t.rows) turns.now) }
{
    match turns {
        [] => Ok(true),
        [turn, others @ ..] => {
            if is_linked_turn(alloc, journals, stack, whole, turn)? {
                are_linked_turns(alloc, journals, stack, whole, others)
            } else {
                Ok(false)
            }
        }
    }
}

fn is_linked_journal(
    alloc: Global,
    journals: &[&[Turn]],
    stack: u8,
    turns: &[Turn],
) -> Result<bool, OutOfMemory>
    ensures { IfOk result (λ holds. holds ≡ is_linked_journal (map (λ j. j.now) journals.now) stack turns.now) }
{
    are_linked_turns(alloc, journals, stack, turns, turns)
}

/// The number of the next stack. One past the greatest counts as want of memory.
fn next_stack(stack: u8) -> Result<u8, OutOfMemory>
    ensures { IfOk result (λ next. next ≡ stack + 1) }
{
    if stack < u8::MAX {
        Ok(stack + 1)
    } else {
        Err(OutOfMemory)
    }
}

fn are_linked_from<'a>(
    alloc: Global,
    journals: &[&'a [Turn]],
    stack: u8,
    others: &[&'a [Turn]],
) -> Result<bool, OutOfMemory>
    ensures { IfOk result (λ hold. hold ≡ are_linked_from (map (λ j. j.now) journals.now) stack (map (λ j. j.now) others.now)) }
{
    match others {
        [] => Ok(true),
        [turns, more @ ..] => {
            if is_linked_journal(alloc, journals, stack, turns)? {
                are_linked_from(alloc, journals, next_stack(stack)?, more)
            } else {
                Ok(false)
            }
        }
    }
}

/// Whether the journals of all stacks, from stack 0, are linked: each message that enters a stack left the
/// other one, once, with its frames, and a list that was taken down is done with what became of its message.
pub fn are_linked(alloc: Global, journals: &[&[Turn]]) -> Result<bool, OutOfMemory>
    ensures { IfOk result (λ holds. holds ≡ are_linked (map (λ j. j.now) journals.now)) }
{
    are_linked_from(alloc, journals, 0, journals)
}
