//! A send of a binding is home.
ghost use Rattle.std.specs.Prelude.{◌≡◌, ℕ, ◌<◌, ◌≤◌, ◌∷◌, OnOk, OnErr, length, map, slice_set, slice_index_or};
ghost use Rattle.agenda_items.specs.declared.Carried.TheVariants.{List as a_list};
ghost use Rattle.journal_types.specs.declared.PassWay.TheVariants as way;
ghost use Rattle.book_lemmas.specs.Views.{no_pool, no_protocol};
ghost use Rattle.journal_types.specs.declared.Event.TheVariants as event;
ghost use Rattle.journal_types.specs.declared.Reply.TheVariants as reply;
ghost use Rattle.promise_rules.specs.declared.Called.TheVariants as called;
ghost use Rattle.driver_calls.specs.Rooms.{CanCount};
ghost use Rattle.book_parts.specs.Parts.{view_of};
ghost use Rattle.book_parts.specs.Events.{IsBook, IsIdle, DidEvent, IsUnmoved, CanEnd};
ghost use Rattle.binding_work.specs.Homes.{BeginsWithList, IsDoneWay, GoesToBinding, IsDoneFor, IsReadyFor, IsRoomed, MayComeHome, ComesHome, HasComeHome};

use agenda_items::Item;
use book_parts::BookParts;
use buffer_pools::{BufferList, ListPool};
use driver_calls::{FilterCalls, MiniportCalls, ProtocolCalls};
use driver_tray::Tray;
use flat_journal::Room;
use journal_types::{PassWay, Target};
use ndis_base::{ListStatus, ModuleId, OutOfMemory};

const FAR: u64 = 1 << 60;

/// Takes the first list that is on its way.
pub(crate) fn take_list(tray: &mut Tray) -> (BufferList, PassWay, Target)
    requires { BeginsWithList tray.old.queue }
    ensures { tray.old ≡ record tray.new { queue = a_list result.0 result.1 result.2 ∷ tray.new.queue } }
{
    match tray.dequeue() {
        Some(Item::List { list, way, to }) => (list, way, to),
        Some(Item::Status(_)) => unreachable!(),
        Some(Item::Answer(_answer)) => unreachable!(),
        None => unreachable!(),
    }
}

fn status_of(passed: PassWay) -> ListStatus
    requires { IsDoneWay passed }
    ensures { passed ≡ way.Done result }
{
    match passed {
        PassWay::Done(status) => status,
        _ => unreachable!(),
    }
}

/// Takes a list home, and tells the protocol that sent it.
fn home_to<P: ProtocolCalls>(
    protocol: &mut P,
    tray: &mut Tray,
    pool: &mut ListPool,
    binding: u32,
    list: BufferList,
    status: ListStatus,
)
    requires { MayComeHome (P.state protocol.old) list tray.old pool.old }
    ensures { ComesHome binding list status (P.state protocol.old) tray.old pool.old (P.state protocol.new) tray.new pool.new }
{
    protocol.sent(&list, status);
    tray.set_caller(ModuleId::Binding(binding));
    tray.exchange_pool(pool);
    tray.spend(list, status);
    tray.exchange_pool(pool);
}

/// The same at the binding's place.
fn home_at<P: ProtocolCalls>(
    protocols: &mut Vec<P>,
    tray: &mut Tray,
    pools: &mut Vec<ListPool>,
    binding: u32,
    list: BufferList,
    status: ListStatus,
)
    requires protocols { binding < length protocols.old.items }
    requires pools { binding < length pools.old.items }
    requires may { MayComeHome (slice_index_or (map P.state protocols.old.items) binding no_protocol) list tray.old (slice_index_or pools.old.items binding no_pool) }
    ensures protocols { map P.state protocols.new.items ≡ slice_set (map P.state protocols.old.items) binding (slice_index_or (map P.state protocols.new.items) binding no_protocol) }
    ensures pools { pools.new.items ≡ slice_set pools.old.items binding (slice_index_or pools.new.items binding no_pool) }
    ensures home { ComesHome binding list status (slice_index_or (map P.state protocols.old.items) binding no_protocol) tray.old (slice_index_or pools.old.items binding no_pool) (slice_index_or (map P.state protocols.new.items) binding no_protocol) tray.new (slice_index_or pools.new.items binding no_pool) }
{
    home_to(
        &mut protocols[binding as usize],
        tray,
        &mut pools[binding as usize],
        binding,
        list,
        status,
    );
}

/// Makes room for a list to come home, where the protocol's calls can be counted.
fn make_room<M: MiniportCalls, P: ProtocolCalls, F: FilterCalls>(
    book: &mut BookParts<M, P, F>,
    binding: u32,
) -> Result<(), OutOfMemory>
    requires { binding < length book.old.protocols.items }
    ensures ready { OnOk result (IsReadyFor binding (view_of M.state P.state F.state book.old) (view_of M.state P.state F.state book.new)) }
    ensures memory { OnErr result (IsRoomed (view_of M.state P.state F.state book.old) (view_of M.state P.state F.state book.new)) }
{
    if book.protocols[binding as usize].served().send_complete >= FAR {
        return Err(OutOfMemory);
    }
    book.tray.make_room(
        Room {
            turns: 1,
            rows: 1,
            ..Room::none()
        },
        0,
    )?;
    Ok(())
}

/// The first list on its way comes home to its binding.
fn home_first<M: MiniportCalls, P: ProtocolCalls, F: FilterCalls>(
    book: &mut BookParts<M, P, F>,
    binding: u32,
)
    requires book { IsBook (view_of M.state P.state F.state book.old) }
    requires idle { IsIdle (view_of M.state P.state F.state book.old) }
    requires first { IsDoneFor (view_of M.state P.state F.state book.old) binding }
    requires room { 1 ≤ (view_of M.state P.state F.state book.old).tray.room.rows }
    requires count { CanCount called.SendComplete (slice_index_or (view_of M.state P.state F.state book.old).held.protocols binding no_protocol).did.served }
    ensures { HasComeHome binding (view_of M.state P.state F.state book.old) (view_of M.state P.state F.state book.new) }
{
    let (list, way, _to) = take_list(&mut book.tray);
    let status = status_of(way);
    home_at(
        &mut book.protocols,
        &mut book.tray,
        &mut book.protocol_pools,
        binding,
        list,
        status,
    );
}

/// The first thing on its way, a list that goes to a binding, is home there: it is a send of that binding.
pub fn work_owner<M: MiniportCalls, P: ProtocolCalls, F: FilterCalls>(
    book: &mut BookParts<M, P, F>,
    binding: u32,
) -> Result<(), OutOfMemory>
    requires book { IsBook (view_of M.state P.state F.state book.old) }
    requires idle { IsIdle (view_of M.state P.state F.state book.old) }
    requires first { GoesToBinding (view_of M.state P.state F.state book.old) binding }
    ensures did { OnOk result (DidEvent (view_of M.state P.state F.state book.old) (view_of M.state P.state F.state book.new) event.Pump reply.Moved) }
    ensures turn { OnOk result (CanEnd (view_of M.state P.state F.state book.new)) }
    ensures memory { OnErr result (IsUnmoved (view_of M.state P.state F.state book.old) (view_of M.state P.state F.state book.new)) }
{
    make_room(book, binding)?;
    home_first(book, binding);
    Ok(())
}
