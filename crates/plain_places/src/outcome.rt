//! What a turn answers, and the rows that it writes.
ghost use Rattle.std.specs.Prelude.{◌≡◌, IfOk};
ghost use Rattle.stack_rules.specs.Outcome.{answered, refused, root};

use journal_types::{Frames, Refusal, Reply, Row};
use ndis_base::{ConfigNo, Direction, ListNo, ModuleId, Origin, OutOfMemory};
use plain_net::PlainNet;
use plain_parts::copies::copy_frames;
use std::alloc::Global;
use std::marker::Model;

/// The bytes that a frame has at most: an Ethernet frame with one VLAN tag (IEEE 802.3 and 802.1Q).
pub const MAX_FRAME: usize = 1518;

/// The filters that a stack has at most.
pub const MAX_FILTERS: usize = 16;

/// What a turn answers, and its rows.
#[derive(Drop)]
pub struct PlainOutcome {
    reply: Reply,
    rows: Vec<Row>,
}

impl Model for PlainOutcome {
    ghost use Rattle.stack_rules.specs.Outcome.{Outcome};

    ghost Value = { Outcome };

    ghost view = { λ o. record { reply = o.reply; rows = o.rows.items } };
}

impl PlainOutcome {
    /// This reply with these rows.
    pub fn of(reply: Reply, rows: Vec<Row>) -> PlainOutcome
        ensures { result ≡ record { reply = reply; rows = rows.items } }
    {
        PlainOutcome { reply, rows }
    }

    /// What the turn answers.
    pub fn reply(&self) -> &Reply
        ensures { result.now ≡ self.now.reply }
    {
        &self.reply
    }

    /// The rows that the turn writes.
    pub fn rows(&self) -> &[Row]
        ensures { result.now ≡ self.now.rows }
    {
        self.rows.as_slice()
    }

    /// The reply and the rows.
    pub fn into_parts(self) -> (Reply, Vec<Row>)
        ensures reply { result.0 ≡ self.reply }
        ensures rows { result.1.items ≡ self.rows }
    {
        let PlainOutcome { reply, rows } = self;
        (reply, rows)
    }
}

/// An answer without rows.
pub fn answered(alloc: Global, reply: Reply) -> PlainOutcome
    ensures { result ≡ answered reply }
{
    PlainOutcome::of(reply, Vec::new(alloc))
}

/// A refused event has no rows.
pub fn refused(alloc: Global, cause: Refusal) -> PlainOutcome
    ensures { result ≡ refused cause }
{
    answered(alloc, Reply::Refused(cause))
}

/// The row that issues a list of its owner's own, which is no clone and no copy.
pub fn root(
    alloc: Global,
    net: &PlainNet,
    n: u64,
    owner: ModuleId,
    direction: Direction,
    cancel: Option<u32>,
    frames: &Frames,
) -> Result<Row, OutOfMemory>
    ensures { IfOk result (λ made. made ≡ root net.now n owner direction cancel frames.now) }
{
    Ok(Row::Issue {
        list: ListNo(n),
        owner,
        config: ConfigNo(net.modules().config()),
        direction,
        cancel,
        origin: Origin::Root,
        frames: copy_frames(alloc, frames)?,
    })
}
