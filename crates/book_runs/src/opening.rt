//! The opening: the stack is initialised, its filters are inserted, and it is restarted until it runs.
ghost use Rattle.std.specs.Prelude.{◌≡◌, ◌+◌, ◌≤◌, ◌<◌, true, if◌then◌else◌, OnOk, IfOk, length};
ghost use Rattle.std.specs.List.{list_all};
ghost use Rattle.ndis_base.specs.declared.Phase.TheVariants as phase;
ghost use Rattle.journal_types.specs.declared.Event.TheVariants as event;
ghost use Rattle.book_parts.specs.Parts.{view_of};
ghost use Rattle.book_runs.specs.Runs.{IsBetween, IsInPhase, InsertsOne, InsertsEach, OpensStack, is_fine};

use crate::answers::{has_inserted, is_refusal};
use crate::asking::ask;
use crate::restarting::restart_all;
use book_parts::BookParts;
use driver_calls::{FilterCalls, MiniportCalls, ProtocolCalls};
use flat_journal::copied_setup;
use journal_types::Event;
use ndis_base::{OutOfMemory, Who};
use script_types::FilterSetup;
use std::alloc::Global;

/// The event that inserts a filter below those that are attached.
fn insert_event(alloc: Global, filter: &FilterSetup, attached: u8) -> Result<Event, OutOfMemory>
    requires { attached < 255 }
    ensures { IfOk result (λ e. e ≡ event.Insert filter.now.kind (attached + 1) filter.now.setup) }
{
    Ok(Event::Insert {
        kind: filter.kind,
        position: attached + 1,
        setup: copied_setup(alloc, &filter.setup)?,
    })
}

/// One filter more, where one was inserted.
fn counted(attached: u8, inserted: bool) -> u8
    requires { attached < 255 }
    ensures { result ≡ (if inserted then attached + 1 else attached) }
{
    if inserted { attached + 1 } else { attached }
}

/// Inserts a filter below those that are attached. Where it is refused it is left out. It gives how many are attached
/// then.
fn insert_one<M: MiniportCalls, P: ProtocolCalls, F: FilterCalls>(
    book: &mut BookParts<M, P, F>,
    alloc: Global,
    filter: &FilterSetup,
    attached: u8,
) -> Result<u8, OutOfMemory>
    requires paused { IsInPhase (view_of M.state P.state F.state book.old) phase.Paused }
    requires few { attached < 16 }
    requires fine { is_fine filter.now ≡ true }
    ensures between { IsBetween (view_of M.state P.state F.state book.new) }
    ensures inserts { IfOk result (λ now. InsertsOne attached filter.now now (view_of M.state P.state F.state book.old) (view_of M.state P.state F.state book.new)) }
{
    let event = insert_event(alloc, filter, attached)?;
    let reply = ask(book, alloc, Who::Own, event)?;
    Ok(counted(attached, has_inserted(reply)))
}

/// Inserts filters below those that are attached, one below the other. It gives how many are attached in the end.
fn insert_each<M: MiniportCalls, P: ProtocolCalls, F: FilterCalls>(
    book: &mut BookParts<M, P, F>,
    alloc: Global,
    filters: &[FilterSetup],
    attached: u8,
) -> Result<u8, OutOfMemory>
    requires paused { IsInPhase (view_of M.state P.state F.state book.old) phase.Paused }
    requires few { attached + length filters.now ≤ 16 }
    requires fine { list_all is_fine filters.now ≡ true }
    ensures between { IsBetween (view_of M.state P.state F.state book.new) }
    ensures inserts { IfOk result (λ all. InsertsEach attached filters.now all (view_of M.state P.state F.state book.old) (view_of M.state P.state F.state book.new)) }
{
    let [filter, others @ ..] = filters else {
        return Ok(attached);
    };
    let now = insert_one(book, alloc, filter, attached)?;
    let all = insert_each(book, alloc, others, now)?;
    Ok(all)
}

/// Opens a Halted stack: it is initialised, these filters are inserted from top to bottom, and it is restarted until it
/// runs. Where its adapter refuses to be initialised, it stays Halted, and the adapter counts that.
pub fn open_stack<M: MiniportCalls, P: ProtocolCalls, F: FilterCalls>(
    book: &mut BookParts<M, P, F>,
    alloc: Global,
    filters: &[FilterSetup],
) -> Result<(), OutOfMemory>
    requires halted { IsInPhase (view_of M.state P.state F.state book.old) phase.Halted }
    requires few { length filters.now ≤ 16 }
    requires fine { list_all is_fine filters.now ≡ true }
    ensures between { IsBetween (view_of M.state P.state F.state book.new) }
    ensures opens { OnOk result (OpensStack filters.now (view_of M.state P.state F.state book.old) (view_of M.state P.state F.state book.new)) }
{
    let reply = ask(book, alloc, Who::Own, Event::Initialize)?;
    if is_refusal(reply) {
        return Ok(());
    }
    insert_each(book, alloc, filters, 0)?;
    restart_all(book, alloc, Who::Own)?;
    Ok(())
}
