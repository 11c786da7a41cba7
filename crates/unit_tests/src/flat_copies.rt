//! Journals copied into flat ones.
ghost use Rattle.std.specs.Prelude.{◌≡◌, IfOk};

use flat_journal::FlatJournal;
use journal_types::{BindingSetups, StackHead, UpperLinks};
use ndis_base::OutOfMemory;
use ndis_journal::Journal;
use std::alloc::Global;

fn copied_head(alloc: Global, head: &StackHead) -> Result<StackHead, OutOfMemory>
    ensures { IfOk result (λ copy. copy ≡ head.now) }
{
    Ok(StackHead {
        stack: head.stack,
        kind: head.kind,
        port: head.port,
        link: head.link,
        bindings: BindingSetups::of(Vec::from_slice(alloc, head.bindings.items())?),
        uppers: UpperLinks::of(Vec::from_slice(alloc, head.uppers.items())?),
    })
}

/// A flat journal of the same head and turns.
pub fn flat_copy(alloc: Global, journal: &Journal) -> Result<FlatJournal, OutOfMemory>
    ensures head { IfOk result (λ flat. flat.head ≡ journal.now.head) }
    ensures turns { IfOk result (λ flat. flat.turns ≡ journal.now.turns) }
{
    let mut flat = FlatJournal::make(alloc, copied_head(alloc, journal.head())?);
    for turn in journal.turns() {
        flat.push_turn(alloc, turn)?;
    }
    Ok(flat)
}
