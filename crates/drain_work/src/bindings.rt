//! The protocols of the bindings give away what they keep ready.
ghost use Rattle.std.specs.Prelude.{◌≡◌, ℕ, ◌<◌, OnOk, OnErr, IfOk, length, map, slice_set, slice_index_or};
ghost use Rattle.stack_rules.specs.Drains.{returns_all};
ghost use Rattle.driver_calls.specs.Protocols.{IsDrained};
ghost use Rattle.ndis_base.specs.declared.ModuleId.TheVariants.{Binding};
ghost use Rattle.book_lemmas.specs.Views.{no_pool, no_protocol};
ghost use Rattle.book_parts.specs.Parts.{view_of};
ghost use Rattle.drain_work.specs.Drains.{IsRoomed, TicksRoomed, IsResting, IsSame, Gives, returned_from};

use crate::calls::{make_room, tick_protocol};
use book_parts::BookParts;
use buffer_pools::ListPool;
use driver_calls::{FilterCalls, MiniportCalls, ProtocolCalls};
use driver_tray::Tray;
use ndis_base::OutOfMemory;

/// A protocol gives away what it keeps ready, once there is room for that.
fn drain_protocol<P: ProtocolCalls>(
    protocol: &mut P,
    tray: &mut Tray,
    pool: &mut ListPool,
    binding: u32,
) -> Result<bool, OutOfMemory>
    ensures ticks { IfOk result (λ moved. TicksRoomed (Binding binding) (λ t left. IsDrained (P.state protocol.old) t (P.state protocol.new) left) tray.old pool.old moved tray.new pool.new) }
    ensures protocol { OnErr result (P.state protocol.new ≡ P.state protocol.old) }
    ensures tray { OnErr result (IsRoomed tray.old tray.new) }
    ensures pool { OnErr result (pool.new ≡ pool.old) }
{
    make_room(tray, protocol.held())?;
    Ok(tick_protocol(protocol, tray, pool, binding))
}

/// The same at the binding's place.
fn drain_at<P: ProtocolCalls>(
    protocols: &mut Vec<P>,
    tray: &mut Tray,
    pools: &mut Vec<ListPool>,
    binding: u32,
) -> Result<bool, OutOfMemory>
    requires protocols { binding < length protocols.old.items }
    requires pools { binding < length pools.old.items }
    ensures protocols { map P.state protocols.new.items ≡ slice_set (map P.state protocols.old.items) binding (slice_index_or (map P.state protocols.new.items) binding no_protocol) }
    ensures pools { pools.new.items ≡ slice_set pools.old.items binding (slice_index_or pools.new.items binding no_pool) }
    ensures ticks { IfOk result (λ moved. TicksRoomed (Binding binding) (λ t left. IsDrained (slice_index_or (map P.state protocols.old.items) binding no_protocol) t (slice_index_or (map P.state protocols.new.items) binding no_protocol) left) tray.old (slice_index_or pools.old.items binding no_pool) moved tray.new (slice_index_or pools.new.items binding no_pool)) }
    ensures same_protocols { OnErr result (map P.state protocols.new.items ≡ map P.state protocols.old.items) }
    ensures tray { OnErr result (IsRoomed tray.old tray.new) }
    ensures same_pools { OnErr result (pools.new.items ≡ pools.old.items) }
{
    drain_protocol(
        &mut protocols[binding as usize],
        tray,
        &mut pools[binding as usize],
        binding,
    )
}

/// The protocol of a binding gives away what it keeps ready, if it retains lists. It answers whether it
/// gave any.
fn drain_binding<M: MiniportCalls, P: ProtocolCalls, F: FilterCalls>(
    book: &mut BookParts<M, P, F>,
    binding: u32,
) -> Result<bool, OutOfMemory>
    requires rests { IsResting (view_of M.state P.state F.state book.old) }
    requires there { binding < length (view_of M.state P.state F.state book.old).tray.net.head.bindings }
    ensures gives { IfOk result (λ moved. Gives (view_of M.state P.state F.state book.old) (view_of M.state P.state F.state book.new) (returns_all (view_of M.state P.state F.state book.old).tray.net binding) moved) }
    ensures memory { OnErr result (IsSame (view_of M.state P.state F.state book.old) (view_of M.state P.state F.state book.new)) }
{
    drain_at(
        &mut book.protocols,
        &mut book.tray,
        &mut book.protocol_pools,
        binding,
    )
}

/// The first protocol from a binding on that keeps ready lists gives them away, of so many bindings. It
/// answers whether there is one.
pub fn drain_bindings<M: MiniportCalls, P: ProtocolCalls, F: FilterCalls>(
    book: &mut BookParts<M, P, F>,
    binding: u32,
    count: u32,
) -> Result<bool, OutOfMemory>
    requires rests { IsResting (view_of M.state P.state F.state book.old) }
    requires all { count ≡ length (view_of M.state P.state F.state book.old).tray.net.head.bindings }
    ensures gives { IfOk result (λ moved. Gives (view_of M.state P.state F.state book.old) (view_of M.state P.state F.state book.new) (returned_from (view_of M.state P.state F.state book.old).tray.net binding) moved) }
    ensures memory { OnErr result (IsSame (view_of M.state P.state F.state book.old) (view_of M.state P.state F.state book.new)) }
{
    if binding >= count {
        return Ok(false);
    }
    if drain_binding(book, binding)? {
        return Ok(true);
    }
    drain_bindings(book, binding + 1, count)
}
