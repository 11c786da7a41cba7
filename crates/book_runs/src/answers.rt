//! How a step was answered.
ghost use Rattle.std.specs.Prelude.{◌≡◌, true, false};
ghost use Rattle.flat_journal.specs.Payloads.{Payloads};
ghost use Rattle.flat_journal.specs.Shown.{reply_of};
ghost use Rattle.journal_types.specs.declared.Reply.TheVariants as answers;
ghost use Rattle.book_runs.specs.Adds.{is_refused};
ghost use Rattle.book_runs.specs.Runs.{IsAnswer, IsWaiting, is_inserted};

use flat_journal::FlatReply;

/// Whether something moved.
pub(crate) fn is_moved(reply: FlatReply) -> bool
    ensures { IsAnswer answers.Moved reply result }
{
    matches!(reply, FlatReply::Moved)
}

/// Whether the stack is Paused now.
pub(crate) fn is_paused(reply: FlatReply) -> bool
    ensures { IsAnswer answers.Paused reply result }
{
    matches!(reply, FlatReply::Paused)
}

/// Whether the stack runs now.
pub(crate) fn is_running(reply: FlatReply) -> bool
    ensures { IsAnswer answers.Running reply result }
{
    matches!(reply, FlatReply::Running)
}

/// Whether the pause has to wait.
pub(crate) fn is_waiting(reply: FlatReply) -> bool
    ensures yes { result ≡ true → (p : Payloads) → IsWaiting (reply_of p reply) }
    ensures no { result ≡ false → (p : Payloads) → IsWaiting (reply_of p reply) → ⊥ }
{
    matches!(reply, FlatReply::Waiting { .. })
}

/// Whether the event was refused.
pub(crate) fn is_refusal(reply: FlatReply) -> bool
    ensures { (p : Payloads) → result ≡ is_refused (reply_of p reply) }
{
    matches!(reply, FlatReply::Refused(_))
}

/// Whether a filter was inserted.
pub(crate) fn has_inserted(reply: FlatReply) -> bool
    ensures { (p : Payloads) → result ≡ is_inserted (reply_of p reply) }
{
    matches!(reply, FlatReply::Inserted { .. })
}
