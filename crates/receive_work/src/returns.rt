//! A protocol gives back a list that it keeps.
ghost use Rattle.std.specs.Prelude.{◌≡◌, ℕ, ◌<◌, true, OnOk, OnErr, IfOk, length, map, slice_set, slice_index_or};
ghost use Rattle.flat_journal.specs.Shown.{reply_of};
ghost use Rattle.flat_journal.specs.Within.{ReplyWithin};
ghost use Rattle.journal_types.specs.declared.Event.TheVariants as event;
ghost use Rattle.stack_rules.specs.Conditions.{may_ask};
ghost use Rattle.driver_calls.specs.Rooms.{HasRoomFor};
ghost use Rattle.book_lemmas.specs.Views.{no_pool, no_protocol};
ghost use Rattle.book_parts.specs.Parts.{view_of};
ghost use Rattle.book_parts.specs.Events.{IsBook, IsIdle, DidEvent, IsUnmoved, CanEnd};
ghost use Rattle.receive_work.specs.Returns.{Returns};

use book_parts::BookParts;
use buffer_pools::ListPool;
use driver_calls::{FilterCalls, MiniportCalls, ProtocolCalls};
use driver_tray::Tray;
use flat_journal::{FlatReply, Room};
use journal_types::Refusal;
use ndis_base::{ListNo, ModuleId, OutOfMemory};

/// A protocol gives back the list of this number, and answers whether it kept it.
fn return_from<P: ProtocolCalls>(
    protocol: &mut P,
    tray: &mut Tray,
    pool: &mut ListPool,
    binding: u32,
    list: ListNo,
) -> bool
    requires { HasRoomFor 1 1 tray.old }
    ensures { Returns binding list.0 (P.state protocol.old) tray.old pool.old result (P.state protocol.new) tray.new pool.new }
{
    tray.set_caller(ModuleId::Binding(binding));
    tray.exchange_pool(pool);
    let kept = protocol.give_back(list, tray);
    tray.exchange_pool(pool);
    kept
}

/// The same at the binding's place.
fn return_at<P: ProtocolCalls>(
    protocols: &mut Vec<P>,
    tray: &mut Tray,
    pools: &mut Vec<ListPool>,
    binding: u32,
    list: ListNo,
) -> bool
    requires protocols { binding < length protocols.old.items }
    requires pools { binding < length pools.old.items }
    requires room { HasRoomFor 1 1 tray.old }
    ensures protocols { map P.state protocols.new.items ≡ slice_set (map P.state protocols.old.items) binding (slice_index_or (map P.state protocols.new.items) binding no_protocol) }
    ensures pools { pools.new.items ≡ slice_set pools.old.items binding (slice_index_or pools.new.items binding no_pool) }
    ensures returns { Returns binding list.0 (slice_index_or (map P.state protocols.old.items) binding no_protocol) tray.old (slice_index_or pools.old.items binding no_pool) result (slice_index_or (map P.state protocols.new.items) binding no_protocol) tray.new (slice_index_or pools.new.items binding no_pool) }
{
    return_from(
        &mut protocols[binding as usize],
        tray,
        &mut pools[binding as usize],
        binding,
        list,
    )
}

/// A binding returns a list that its protocol keeps (WDK, "Receiving Data in Protocol Drivers":
/// NdisReturnNetBufferLists).
pub fn give_back<M: MiniportCalls, P: ProtocolCalls, F: FilterCalls>(
    book: &mut BookParts<M, P, F>,
    binding: u32,
    list: ListNo,
) -> Result<FlatReply, OutOfMemory>
    requires book { IsBook (view_of M.state P.state F.state book.old) }
    requires idle { IsIdle (view_of M.state P.state F.state book.old) }
    requires may { may_ask (view_of M.state P.state F.state book.old).tray.head (event.GiveBack binding list) ≡ true }
    ensures did { IfOk result (λ r. DidEvent (view_of M.state P.state F.state book.old) (view_of M.state P.state F.state book.new) (event.GiveBack binding list) (reply_of (view_of M.state P.state F.state book.new).tray.payloads r)) }
    ensures within { IfOk result (λ r. ReplyWithin (view_of M.state P.state F.state book.new).tray.payloads r) }
    ensures turn { OnOk result (CanEnd (view_of M.state P.state F.state book.new)) }
    ensures memory { OnErr result (IsUnmoved (view_of M.state P.state F.state book.old) (view_of M.state P.state F.state book.new)) }
{
    book.tray.make_room(
        Room {
            turns: 1,
            rows: 1,
            ..Room::none()
        },
        1,
    )?;
    let kept = return_at(
        &mut book.protocols,
        &mut book.tray,
        &mut book.protocol_pools,
        binding,
        list,
    );
    if kept {
        Ok(FlatReply::Ok)
    } else {
        Ok(FlatReply::Refused(Refusal::NotHeld))
    }
}
