//! A receive is delivered to a binding as its own.
ghost use Rattle.std.specs.Prelude.{◌≡◌, ◌<◌, ◌≤◌, OnOk, OnErr, length, map, slice_set, slice_index_or};
ghost use Rattle.ndis_base.specs.declared.Phase.TheVariants.{Running};
ghost use Rattle.journal_types.specs.declared.PassWay.TheVariants.{Up};
ghost use Rattle.journal_types.specs.declared.Target.TheVariants.{Bindings};
ghost use Rattle.journal_types.specs.declared.Event.TheVariants as event;
ghost use Rattle.journal_types.specs.declared.Reply.TheVariants as reply;
ghost use Rattle.stack_rules.specs.Heads.{kind_of_binding};
ghost use Rattle.book_lemmas.specs.Views.{no_pool, no_protocol};
ghost use Rattle.book_parts.specs.Parts.{view_of};
ghost use Rattle.book_parts.specs.Events.{IsBook, IsIdle, FirstIs, DidEvent, IsUnmoved, CanEnd};
ghost use Rattle.binding_work.specs.Owns.{MayOwn, Owns, BeginsUp, TrayRoomed, OwnsFirst, IsTakenBy};

use crate::homes::take_list;
use book_parts::BookParts;
use buffer_pools::{BufferList, ListPool};
use driver_calls::{FilterCalls, MiniportCalls, ProtocolCalls};
use driver_tray::Tray;
use flat_journal::Room;
use journal_types::How;
use ndis_base::{ModuleId, OutOfMemory};

const FAR: u64 = 1 << 60;

/// Delivers a list to the protocol of a binding.
pub fn own_to<P: ProtocolCalls>(
    protocol: &mut P,
    tray: &mut Tray,
    pool: &mut ListPool,
    binding: u32,
    list: BufferList,
)
    requires may { MayOwn (P.state protocol.old) list tray.old pool.old }
    requires room { 1 ≤ P.room protocol.old }
    ensures { Owns binding list (P.state protocol.old) tray.old pool.old (P.state protocol.new) tray.new pool.new }
{
    tray.set_caller(ModuleId::Binding(binding));
    tray.exchange_pool(pool);
    let span = tray.deliver(&list, binding, How::Own);
    protocol.receive(list, span, tray);
    tray.exchange_pool(pool);
}

/// Makes all room, and delivers the first list on its way to the protocol of a binding.
fn own_first<P: ProtocolCalls>(
    protocol: &mut P,
    tray: &mut Tray,
    pool: &mut ListPool,
    binding: u32,
) -> Result<(), OutOfMemory>
    requires first { BeginsUp tray.old.queue }
    requires pool { pool.old.bytes ≡ 1518 }
    ensures owns { OnOk result (OwnsFirst binding (P.state protocol.old) tray.old pool.old (P.state protocol.new) tray.new pool.new) }
    ensures protocol { OnErr result (P.state protocol.new ≡ P.state protocol.old) }
    ensures tray { OnErr result (TrayRoomed tray.old tray.new) }
    ensures same { OnErr result (pool.new ≡ pool.old) }
{
    if protocol.served().receive >= FAR {
        return Err(OutOfMemory);
    }
    protocol.make_room(1518)?;
    tray.make_room(
        Room {
            turns: 1,
            rows: 4,
            frames: 8,
            bytes: 8 * 1518,
            ..Room::none()
        },
        2,
    )?;
    let (list, _way, _to) = take_list(tray);
    own_to(protocol, tray, pool, binding, list);
    Ok(())
}

/// The same at the binding's place.
fn own_at<P: ProtocolCalls>(
    protocols: &mut Vec<P>,
    tray: &mut Tray,
    pools: &mut Vec<ListPool>,
    binding: u32,
) -> Result<(), OutOfMemory>
    requires protocols { binding < length protocols.old.items }
    requires pools { binding < length pools.old.items }
    requires first { BeginsUp tray.old.queue }
    requires pool { (slice_index_or pools.old.items binding no_pool).bytes ≡ 1518 }
    ensures protocols { map P.state protocols.new.items ≡ slice_set (map P.state protocols.old.items) binding (slice_index_or (map P.state protocols.new.items) binding no_protocol) }
    ensures pools { pools.new.items ≡ slice_set pools.old.items binding (slice_index_or pools.new.items binding no_pool) }
    ensures owns { OnOk result (OwnsFirst binding (slice_index_or (map P.state protocols.old.items) binding no_protocol) tray.old (slice_index_or pools.old.items binding no_pool) (slice_index_or (map P.state protocols.new.items) binding no_protocol) tray.new (slice_index_or pools.new.items binding no_pool)) }
    ensures same_protocols { OnErr result (map P.state protocols.new.items ≡ map P.state protocols.old.items) }
    ensures tray { OnErr result (TrayRoomed tray.old tray.new) }
    ensures same_pools { OnErr result (pools.new.items ≡ pools.old.items) }
{
    own_first(
        &mut protocols[binding as usize],
        tray,
        &mut pools[binding as usize],
        binding,
    )
}

/// The first thing on its way, a receive that one binding takes, is delivered to it.
pub fn deliver_to_one<M: MiniportCalls, P: ProtocolCalls, F: FilterCalls>(
    book: &mut BookParts<M, P, F>,
    binding: u32,
) -> Result<(), OutOfMemory>
    requires book { IsBook (view_of M.state P.state F.state book.old) }
    requires idle { IsIdle (view_of M.state P.state F.state book.old) }
    requires first { FirstIs (view_of M.state P.state F.state book.old) Up Bindings }
    requires running { (view_of M.state P.state F.state book.old).tray.net.phase ≡ Running }
    requires there { binding < length (view_of M.state P.state F.state book.old).tray.head.bindings }
    requires taken { IsTakenBy (view_of M.state P.state F.state book.old) binding }
    requires kind { (slice_index_or (view_of M.state P.state F.state book.old).held.protocols binding no_protocol).kind ≡ kind_of_binding (view_of M.state P.state F.state book.old).tray.net.head binding }
    ensures did { OnOk result (DidEvent (view_of M.state P.state F.state book.old) (view_of M.state P.state F.state book.new) event.Pump reply.Moved) }
    ensures turn { OnOk result (CanEnd (view_of M.state P.state F.state book.new)) }
    ensures memory { OnErr result (IsUnmoved (view_of M.state P.state F.state book.old) (view_of M.state P.state F.state book.new)) }
{
    own_at(
        &mut book.protocols,
        &mut book.tray,
        &mut book.protocol_pools,
        binding,
    )?;
    Ok(())
}
