//! The bytes of the frames in a turn. Bytes past the greatest number count as want of memory.
ghost use Rattle.std.specs.Prelude.{◌≡◌, ◌+◌, IfOk, sum_by};
ghost use Rattle.journal_store.specs.Sizes.{frames_bytes, event_bytes, reply_bytes, row_bytes, turn_bytes};

use journal_types::{Event, Frames, Reply, Row, Turn};
use ndis_base::{Frame, OutOfMemory};

fn sum(a: usize, b: usize) -> Result<usize, OutOfMemory>
    ensures { IfOk result (λ n. n ≡ a + b) }
{
    if b <= usize::MAX - a {
        Ok(a + b)
    } else {
        Err(OutOfMemory)
    }
}

fn items_bytes(frames: &[Frame]) -> Result<usize, OutOfMemory>
    ensures { IfOk result (λ n. n ≡ frames_bytes frames.now) }
{
    match frames {
        [] => Ok(0),
        [frame, others @ ..] => sum(frame.bytes().len(), items_bytes(others)?),
    }
}

fn frames_bytes(frames: &Frames) -> Result<usize, OutOfMemory>
    ensures { IfOk result (λ n. n ≡ frames_bytes frames.now) }
{
    items_bytes(frames.items())
}

fn event_bytes(event: &Event) -> Result<usize, OutOfMemory>
    ensures { IfOk result (λ n. n ≡ event_bytes event.now) }
{
    match event {
        Event::Send { frames, .. }
        | Event::Indicate { frames }
        | Event::Lend { frames }
        | Event::CrossPut { frames, .. }
        | Event::CrossPutUp { frames, .. } => frames_bytes(frames),
        _ => Ok(0),
    }
}

fn reply_bytes(reply: &Reply) -> Result<usize, OutOfMemory>
    ensures { IfOk result (λ n. n ≡ reply_bytes reply.now) }
{
    match reply {
        Reply::Taken { frames, .. } => frames_bytes(frames),
        _ => Ok(0),
    }
}

fn row_bytes(row: &Row) -> Result<usize, OutOfMemory>
    ensures { IfOk result (λ n. n ≡ row_bytes row.now) }
{
    match row {
        Row::Issue { frames, .. }
        | Row::Wire { frames, .. }
        | Row::Deliver { frames, .. }
        | Row::CrossOut { frames, .. }
        | Row::CrossIn { frames, .. } => frames_bytes(frames),
        _ => Ok(0),
    }
}

fn rows_bytes(rows: &[Row]) -> Result<usize, OutOfMemory>
    ensures { IfOk result (λ n. n ≡ sum_by row_bytes rows.now) }
{
    match rows {
        [] => Ok(0),
        [row, others @ ..] => sum(row_bytes(row)?, rows_bytes(others)?),
    }
}

/// The bytes of all frames in a turn.
pub fn turn_bytes(turn: &Turn) -> Result<usize, OutOfMemory>
    ensures { IfOk result (λ n. n ≡ turn_bytes turn.now) }
{
    let asked = sum(event_bytes(&turn.event)?, reply_bytes(&turn.reply)?)?;
    sum(asked, rows_bytes(turn.rows.items())?)
}
