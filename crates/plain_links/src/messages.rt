//! The messages between stacks.
ghost use Rattle.std.specs.Prelude.{◌≡◌, IfOk, map, count_by};
ghost use Rattle.std.specs.List.{list_any};
ghost use Rattle.program_types.specs.Apply.{pushed};
ghost use Rattle.promise_rules.specs.Links.{same_way, way_of, leaves, enters, issues_frames, is_refused, is_put, left, journal_of, puts, count_puts, status_of_put, told_as, is_done_as, was_put_as, ends_message};

use journal_types::{Event, Frames, OutWay, Refusal, Reply, Row, Turn, Way};
use ndis_base::{Frame, ListStatus, Origin, OutOfMemory};
use plain_families::rows::same_status;
use plain_parts::rows::sum_of;
use plain_parts::same::same_frames;
use plain_programs::bytes::pushed;
use std::alloc::Global;

fn same_way(a: Way, b: Way) -> bool
    ensures { result ≡ same_way a b }
{
    match a {
        Way::Down => matches!(b, Way::Down),
        Way::Up => matches!(b, Way::Up),
    }
}

fn way_of(out: OutWay) -> Way
    ensures { result ≡ way_of out }
{
    match out {
        OutWay::Down(_) => Way::Down,
        OutWay::Up => Way::Up,
    }
}

fn leaves(message: u64, way: Way, frames: &Frames, row: &Row) -> bool
    ensures { result ≡ leaves message way frames.now row.now }
{
    match row {
        Row::CrossOut {
            message: m,
            way: out,
            frames: shown,
        } => m.0 == message && (same_way(way_of(*out), way) && same_frames(shown, frames)),
        _ => false,
    }
}

fn enters(stack: u8, message: u64, way: Way, frames: &Frames, row: &Row) -> bool
    ensures { result ≡ enters stack message way frames.now row.now }
{
    match row {
        Row::CrossIn {
            stack: s,
            message: m,
            way: w,
            frames: shown,
        } => {
            *s == stack && (m.0 == message && (same_way(*w, way) && same_frames(shown, frames)))
        }
        _ => false,
    }
}

fn count_entries(stack: u8, message: u64, way: Way, frames: &Frames, rows: &[Row]) -> usize
    ensures { result ≡ count_by (enters stack message way frames.now) rows.now }
{
    let mut n = 0;
    for row in rows {
        if enters(stack, message, way, frames, row) {
            n += 1;
        }
    }
    n
}

fn issues_frames(frames: &Frames, row: &Row) -> bool
    ensures { result ≡ issues_frames frames.now row.now }
{
    match row {
        Row::Issue {
            origin,
            frames: shown,
            ..
        } => match *origin {
            Origin::Root => same_frames(shown, frames),
            _ => false,
        },
        _ => false,
    }
}

fn is_issued(frames: &Frames, rows: &[Row]) -> bool
    ensures { result ≡ list_any (issues_frames frames.now) rows.now }
{
    match rows {
        [] => false,
        [row, others @ ..] => issues_frames(frames, row) || is_issued(frames, others),
    }
}

pub fn is_refused(reply: &Reply) -> bool
    ensures { result ≡ is_refused reply.now }
{
    matches!(reply, Reply::Refused(_))
}

/// Whether the rows of a turn put a message: it enters once with its frames, and a list is issued.
pub fn is_put(
    stack: u8,
    message: u64,
    way: Way,
    frames: &Frames,
    issued: &Frames,
    rows: &[Row],
) -> bool
    ensures { result ≡ is_put stack message way frames.now issued.now rows.now }
{
    count_entries(stack, message, way, frames, rows) == 1 && is_issued(issued, rows)
}

fn leaves_in(message: u64, way: Way, frames: &Frames, rows: &[Row]) -> bool
    ensures { result ≡ list_any (leaves message way frames.now) rows.now }
{
    match rows {
        [] => false,
        [row, others @ ..] => leaves(message, way, frames, row)
            || leaves_in(message, way, frames, others),
    }
}

fn leaves_journal(message: u64, way: Way, frames: &Frames, turns: &[Turn]) -> bool
    ensures { result ≡ list_any (λ t. list_any (leaves message way frames.now) t.rows) turns.now }
{
    match turns {
        [] => false,
        [turn, others @ ..] => leaves_in(message, way, frames, turn.rows.items())
            || leaves_journal(message, way, frames, others),
    }
}

fn journal_of<'a>(journals: &[&'a [Turn]], stack: u8) -> &'a [Turn]
    ensures { result.now ≡ journal_of (map (λ j. j.now) journals.now) stack }
{
    if (stack as usize) < journals.len() {
        journals[stack as usize]
    } else {
        &[]
    }
}

/// Whether a message left its stack this way with these frames.
pub fn left(journals: &[&[Turn]], stack: u8, message: u64, way: Way, frames: &Frames) -> bool
    ensures { result ≡ left (map (λ j. j.now) journals.now) stack message way frames.now }
{
    leaves_journal(message, way, frames, journal_of(journals, stack))
}

fn puts(stack: u8, message: u64, way: Way, event: &Event) -> bool
    ensures { result ≡ puts stack message way event.now }
{
    match event {
        Event::CrossPut {
            stack: s,
            message: m,
            ..
        } => *s == stack && (m.0 == message && same_way(way, Way::Down)),
        Event::CrossPutUp {
            stack: s,
            message: m,
            ..
        } => *s == stack && (m.0 == message && same_way(way, Way::Up)),
        _ => false,
    }
}

fn count_puts_in(stack: u8, message: u64, way: Way, turns: &[Turn]) -> usize
    ensures { result ≡ count_by (λ t. puts stack message way t.event) turns.now }
{
    let mut n = 0;
    for turn in turns {
        if puts(stack, message, way, &turn.event) {
            n += 1;
        }
    }
    n
}

/// How many turns put a message of this stack, number and way.
pub fn count_puts(
    journals: &[&[Turn]],
    stack: u8,
    message: u64,
    way: Way,
) -> Result<u64, OutOfMemory>
    ensures { IfOk result (λ n. n ≡ count_puts (map (λ j. j.now) journals.now) stack message way) }
{
    match journals {
        [] => Ok(0),
        [turns, others @ ..] => sum_of(
            count_puts_in(stack, message, way, turns) as u64,
            count_puts(others, stack, message, way)?,
        ),
    }
}

/// What became of a put, as the status of the list that was taken down.
fn status_of_put(reply: &Reply) -> Option<ListStatus>
    ensures { result ≡ status_of_put reply.now }
{
    match reply {
        Reply::Crossed { .. } => Some(ListStatus::Success),
        Reply::Refused(cause) => match *cause {
            Refusal::Paused { .. } => Some(ListStatus::Paused),
            Refusal::TooLong => Some(ListStatus::Dropped),
            Refusal::NoList => Some(ListStatus::Resources),
            _ => None,
        },
        _ => None,
    }
}

fn told_as(status: ListStatus, told: Option<ListStatus>) -> bool
    ensures { result ≡ told_as status told }
{
    match told {
        None => false,
        Some(told) => same_status(told, status),
    }
}

fn is_done_as(stack: u8, message: u64, status: ListStatus, turn: &Turn) -> bool
    ensures { result ≡ is_done_as stack message status turn.now }
{
    puts(stack, message, Way::Down, &turn.event) && told_as(status, status_of_put(&turn.reply))
}

fn was_put_in(stack: u8, message: u64, status: ListStatus, turns: &[Turn]) -> bool
    ensures { result ≡ list_any (is_done_as stack message status) turns.now }
{
    match turns {
        [] => false,
        [turn, others @ ..] => is_done_as(stack, message, status, turn)
            || was_put_in(stack, message, status, others),
    }
}

/// Whether a put of this message was answered so.
pub fn was_put_as(journals: &[&[Turn]], stack: u8, message: u64, status: ListStatus) -> bool
    ensures { result ≡ was_put_as (map (λ j. j.now) journals.now) stack message status }
{
    match journals {
        [] => false,
        [turns, others @ ..] => was_put_in(stack, message, status, turns)
            || was_put_as(others, stack, message, status),
    }
}

fn ends_message(message: u64, event: &Event) -> bool
    ensures { result ≡ ends_message message event.now }
{
    match event {
        Event::CrossDone { message: m, .. } => m.0 == message,
        _ => false,
    }
}

/// How many turns say that the list taken in a message is done.
pub fn count_ends(message: u64, turns: &[Turn]) -> usize
    ensures { result ≡ count_by (λ t. ends_message message t.event) turns.now }
{
    let mut n = 0;
    for turn in turns {
        if ends_message(message, &turn.event) {
            n += 1;
        }
    }
    n
}

fn pushed_items(alloc: Global, vlan: u16, frames: &[Frame]) -> Result<Vec<Frame>, OutOfMemory>
    ensures { IfOk result (λ made. made.items ≡ map (pushed vlan) frames.now) }
{
    match frames {
        [] => Ok(Vec::new(alloc)),
        [frame, others @ ..] => {
            let mut made = pushed_items(alloc, vlan, others)?;
            made.insert(0, pushed(alloc, vlan, frame.bytes())?)?;
            Ok(made)
        }
    }
}

/// Frames with a tag pushed.
pub fn tagged(alloc: Global, vlan: u16, frames: &Frames) -> Result<Frames, OutOfMemory>
    ensures { IfOk result (λ made. made ≡ map (pushed vlan) frames.now) }
{
    Ok(Frames::of(pushed_items(alloc, vlan, frames.items())?))
}
