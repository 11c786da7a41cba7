//! Opening a stack over the drivers that are handed in.
ghost use Rattle.std.specs.Prelude.{◌≡◌, ◌+◌, ◌<◌, ◌≤◌, ◌↔◌, [], None, Some, IfOk, IfErr, length, map};
ghost use Rattle.std.specs.Vec.{vec_capacity};
ghost use Rattle.book_parts.specs.Parts.{view_of};
ghost use Rattle.book_opening.specs.declared.opening.OpenFault.TheVariants as open_fault;
ghost use Rattle.driver_choice.specs.Chosen.{Lacks, Takes};
ghost use Rattle.book_opening.specs.Opened.{drivers_of, handed_of, AreIdle, IsOpenedBook, HasParts};

use crate::pools::{make_pools, no_pools, places_of};
use book_parts::BookParts;
use buffer_pools::ListPool;
use driver_calls::{FilterCalls, MiniportCalls, ProtocolCalls};
use driver_choice::choosing::{are_enough, first_miniport, take_protocols};
use driver_tray::Tray;
use journal_types::StackHead;
use ndis_base::{OutOfMemory, ProtocolKind};
use std::alloc::{AllocError, Global};
use std::mem;
use thiserror::Error;

const MAX_FRAME: usize = 1518;

/// The drivers that a stack may take: miniports, protocols, and filters on the shelf, each in an order of
/// the caller's.
#[derive(Drop)]
pub struct StackDrivers<M, P, F> {
    pub miniports: Vec<M>,
    pub protocols: Vec<P>,
    pub shelf: Vec<F>,
}

/// Why a stack was not opened: its head names more miniports or protocols of a kind than were handed in,
/// or memory ran out.
#[derive(Clone, Copy, Debug, PartialEq, Eq, Error)]
pub enum OpenFault {
    #[error("too few drivers")]
    NoParts,
    #[error("out of memory")]
    Memory,
}

#[derive(Drop)]
struct Beginning {
    setups: Vec<(ProtocolKind, usize)>,
    tray: Tray,
    shelf: Vec<usize>,
    seats: Vec<(u64, usize)>,
    miniport_pool: ListPool,
    protocol_pools: Vec<ListPool>,
    filter_pools: Vec<ListPool>,
}

fn begin<F: FilterCalls>(
    alloc: Global,
    head: StackHead,
    filters: &[F],
) -> Result<Beginning, OutOfMemory>
    ensures { IfOk result (λ b. HasParts head (map F.state filters.now) b) }
{
    let miniport_pool = ListPool::make(alloc, head.port.pool, MAX_FRAME)?;
    let protocol_pools = make_pools(alloc, head.bindings.items())?;
    let filter_pools = no_pools(alloc, filters.len())?;
    let shelf = places_of(alloc, filters)?;
    let seats = Vec::new(alloc);
    let setups = Vec::from_slice(alloc, head.bindings.items())?;
    let tray = Tray::make(alloc, head)?;
    Ok(Beginning {
        setups,
        tray,
        shelf,
        seats,
        miniport_pool,
        protocol_pools,
        filter_pools,
    })
}

fn assemble<M, P, F>(
    begun: Beginning,
    miniport: M,
    protocols: Vec<P>,
    filters: Vec<F>,
) -> BookParts<M, P, F>
    ensures tray { result.tray ≡ begun.tray }
    ensures miniport { result.miniport ≡ miniport }
    ensures protocols { result.protocols ≡ protocols }
    ensures filters { result.filters ≡ filters }
    ensures shelf { result.shelf ≡ begun.shelf }
    ensures seats { result.seats ≡ begun.seats }
    ensures miniport_pool { result.miniport_pool ≡ begun.miniport_pool }
    ensures protocol_pools { result.protocol_pools ≡ begun.protocol_pools }
    ensures filter_pools { result.filter_pools ≡ begun.filter_pools }
{
    BookParts {
        tray: begun.tray,
        miniport,
        protocols,
        filters,
        shelf: begun.shelf,
        seats: begun.seats,
        miniport_pool: begun.miniport_pool,
        protocol_pools: begun.protocol_pools,
        filter_pools: begun.filter_pools,
    }
}

/// Opens a stack over the drivers that its head takes of those that are handed in, and all filters, and
/// gives the others back beside it. Where the head names more miniports or protocols of a kind than were
/// handed in, or memory runs out, all come back as they were.
pub fn open<M: MiniportCalls, P: ProtocolCalls, F: FilterCalls>(
    alloc: Global,
    head: StackHead,
    drivers: StackDrivers<M, P, F>,
) -> Result<(BookParts<M, P, F>, StackDrivers<M, P, F>), (StackDrivers<M, P, F>, OpenFault)>
    requires bound { 1 ≤ length head.bindings }
    requires idle { AreIdle (handed_of M.state P.state F.state drivers) }
    ensures opened { IfOk result (λ r. IsOpenedBook head (view_of M.state P.state F.state r.0)) }
    ensures takes { IfOk result (λ r. Takes head (drivers_of M.state P.state drivers) (M.state r.0.miniport) (map P.state r.0.protocols.items) (drivers_of M.state P.state r.1)) }
    ensures filters { IfOk result (λ r. r.0.filters ≡ drivers.shelf) }
    ensures no_shelf { IfOk result (λ r. r.1.shelf.items ≡ []) }
    ensures idle { IfOk result (λ r. AreIdle (handed_of M.state P.state F.state r.1)) }
    // The room that `close` asks for.
    ensures miniport_room { IfOk result (λ r. length r.1.miniports.items < vec_capacity r.1.miniports) }
    ensures protocol_room { IfOk result (λ r. length r.1.protocols.items + length head.bindings ≤ vec_capacity r.1.protocols) }
    ensures enough { IfOk result (λ r. Lacks head (drivers_of M.state P.state drivers) → ⊥) }
    ensures lacks { IfErr result (λ e. (e.1 ≡ open_fault.NoParts) ↔ Lacks head (drivers_of M.state P.state drivers)) }
    ensures unchanged { IfErr result (λ e. e.0 ≡ drivers) }
{
    let Some(at) = first_miniport(drivers.miniports.as_slice(), head.kind) else {
        return Err((drivers, OpenFault::NoParts));
    };
    if !are_enough(drivers.protocols.as_slice(), head.bindings.items()) {
        return Err((drivers, OpenFault::NoParts));
    }
    let mut protocols = match Vec::with_capacity(alloc, head.bindings.items().len()) {
        Ok(protocols) => protocols,
        Err(AllocError) => return Err((drivers, OpenFault::Memory)),
    };
    let begun = match begin(alloc, head, drivers.shelf.as_slice()) {
        Ok(begun) => begun,
        Err(OutOfMemory) => return Err((drivers, OpenFault::Memory)),
    };
    let mut others = drivers;
    take_protocols(
        &mut others.protocols,
        &mut protocols,
        begun.setups.as_slice(),
    );
    let miniport = others.miniports.remove(at);
    let filters = mem::replace(&mut others.shelf, Vec::new(alloc));
    Ok((assemble(begun, miniport, protocols, filters), others))
}
