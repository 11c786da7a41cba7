//! How many bytes the frames of a turn have.
ghost use Rattle.std.specs.Prelude.{◌≡◌, ◌+◌, ◌<◌, ◌^◌, length, sum_by};
ghost use Rattle.journal_store.specs.Sizes.{frames_bytes, event_bytes, reply_bytes, row_bytes, turn_bytes};

use journal_types::{Event, Frames, Reply, Row, Turn};

/// The bytes of the frames of a list.
pub fn bytes_of_frames(frames: &Frames) -> usize
    requires { frames_bytes frames.now < 2 ^ 64 }
    ensures { result ≡ frames_bytes frames.now }
{
    let mut bytes = 0;
    for frame in frames.items() {
        bytes += frame.bytes().len();
    }
    bytes
}

fn bytes_of_event(event: &Event) -> usize
    requires { event_bytes event.now < 2 ^ 64 }
    ensures { result ≡ event_bytes event.now }
{
    match event {
        Event::Send { frames, .. }
        | Event::Indicate { frames }
        | Event::Lend { frames }
        | Event::CrossPut { frames, .. }
        | Event::CrossPutUp { frames, .. } => bytes_of_frames(frames),
        _ => 0,
    }
}

fn bytes_of_reply(reply: &Reply) -> usize
    requires { reply_bytes reply.now < 2 ^ 64 }
    ensures { result ≡ reply_bytes reply.now }
{
    match reply {
        Reply::Taken { frames, .. } => bytes_of_frames(frames),
        _ => 0,
    }
}

fn bytes_of_row(row: &Row) -> usize
    requires { row_bytes row.now < 2 ^ 64 }
    ensures { result ≡ row_bytes row.now }
{
    match row {
        Row::Issue { frames, .. }
        | Row::Wire { frames, .. }
        | Row::Deliver { frames, .. }
        | Row::CrossOut { frames, .. }
        | Row::CrossIn { frames, .. } => bytes_of_frames(frames),
        _ => 0,
    }
}

fn bytes_of_rows(rows: &[Row]) -> usize
    requires { sum_by row_bytes rows.now < 2 ^ 64 }
    ensures { result ≡ sum_by row_bytes rows.now }
{
    let mut bytes = 0;
    for row in rows {
        bytes += bytes_of_row(row);
    }
    bytes
}

/// The bytes of all frames in a turn.
pub fn bytes_of_turn(turn: &Turn) -> usize
    requires { turn_bytes turn.now < 2 ^ 64 }
    ensures { result ≡ turn_bytes turn.now }
{
    bytes_of_event(&turn.event) + bytes_of_reply(&turn.reply) + bytes_of_rows(turn.rows.items())
}
