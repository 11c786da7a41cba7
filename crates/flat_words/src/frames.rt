//! The frames of a span.
ghost use Rattle.std.specs.Prelude.{◌≡◌, ◌++◌, OnOk};
ghost use Rattle.frame_arena.specs.Spans.{frames_at, SpanWithin};
ghost use Rattle.journal_words.specs.Words.{word, frames_text, more_frames_text};

use flat_journal::FlatJournal;
use frame_arena::FrameSpan;
use journal_words::page::Page;
use ndis_base::OutOfMemory;

/// Adds frames behind others, each after a stroke.
#[tactic(auto, using(crate::proofs::Spans::more_shown))]
fn push_more_frames(
    page: &mut Page,
    journal: &FlatJournal,
    frames: FrameSpan,
) -> Result<(), OutOfMemory>
    requires { SpanWithin journal.now.payloads.frames frames }
    ensures { OnOk result (page.new ≡ page.old ++ more_frames_text (frames_at journal.now.payloads.frames frames)) }
{
    let all = journal.frame_count();
    for i in 0..frames.count {
        prove!(frames.first + i < all);
        page.text("/")?;
        page.hex(journal.frame(frames.first + i))?;
    }
    Ok(())
}

/// Adds the frames of a list as a word.
pub fn push_frames(
    page: &mut Page,
    journal: &FlatJournal,
    frames: FrameSpan,
) -> Result<(), OutOfMemory>
    requires { SpanWithin journal.now.payloads.frames frames }
    ensures { OnOk result (page.new ≡ word page.old (frames_text (frames_at journal.now.payloads.frames frames))) }
{
    if frames.count == 0 {
        return page.word("-");
    }
    let all = journal.frame_count();
    prove!(frames.first < all);
    let more = FrameSpan {
        first: frames.first + 1,
        count: frames.count - 1,
    };
    page.text(" ")?;
    page.hex(journal.frame(frames.first))?;
    push_more_frames(page, journal, more)
}
