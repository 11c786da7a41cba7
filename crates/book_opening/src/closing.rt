//! Closing a stack, which hands its drivers back.
ghost use Rattle.std.specs.Prelude.{◌≡◌, ◌+◌, ◌<◌, ◌≤◌, ◌++◌, ◌∷◌, length, map};
ghost use Rattle.std.specs.Vec.{vec_capacity};
ghost use Rattle.ndis_base.specs.declared.Phase.TheVariants as phase;
ghost use Rattle.book_lemmas.specs.Stands.{IsShelved};
ghost use Rattle.book_parts.specs.Events.{IsBook, IsIdle};
ghost use Rattle.book_parts.specs.Parts.{view_of};
ghost use Rattle.book_opening.specs.Opened.{handed_of, AreIdle};

use crate::opening::StackDrivers;
use book_parts::BookParts;
use driver_calls::{FilterCalls, MiniportCalls, ProtocolCalls};
use flat_journal::FlatJournal;

/// Puts one before the others.
fn put_before<T>(items: &mut Vec<T>, item: T)
    requires room { length items.old.items < vec_capacity items.old }
    ensures items { items.new.items ≡ item ∷ items.old.items }
    ensures capacity { vec_capacity items.new ≡ vec_capacity items.old }
{
    items.push_reserved(item);
    items.rotate_right(1);
}

/// Puts those before the others.
fn put_first<T: Drop>(items: &mut Vec<T>, those: Vec<T>)
    requires room { length items.old.items + length those.items ≤ vec_capacity items.old }
    ensures { items.new.items ≡ those.items ++ items.old.items }
{
    let mut those = those;
    while let Some(item) = those.pop() {
        put_before(items, item);
    }
}

/// The drivers with a miniport and protocols before the others, and with these filters on the shelf.
fn join<M: MiniportCalls, P: ProtocolCalls, F: FilterCalls>(
    others: StackDrivers<M, P, F>,
    miniport: M,
    protocols: Vec<P>,
    filters: Vec<F>,
) -> StackDrivers<M, P, F>
    requires miniports { length others.miniports.items < vec_capacity others.miniports }
    requires protocols { length others.protocols.items + length protocols.items ≤ vec_capacity others.protocols }
    ensures miniports { result.miniports.items ≡ miniport ∷ others.miniports.items }
    ensures protocols { result.protocols.items ≡ protocols.items ++ others.protocols.items }
    ensures shelf { result.shelf ≡ filters }
{
    let StackDrivers {
        mut miniports,
        protocols: mut given,
        shelf: _,
    } = others;
    put_before(&mut miniports, miniport);
    put_first(&mut given, protocols);
    StackDrivers {
        miniports,
        protocols: given,
        shelf: filters,
    }
}

/// Closes a Halted stack: the drivers that were left at its opening, those of the stack before them, in the
/// order of its head, and all filters at their places; and its journal.
pub fn close<M: MiniportCalls, P: ProtocolCalls, F: FilterCalls>(
    book: BookParts<M, P, F>,
    others: StackDrivers<M, P, F>,
) -> (StackDrivers<M, P, F>, FlatJournal)
    requires book { IsBook (view_of M.state P.state F.state book) }
    requires between { IsIdle (view_of M.state P.state F.state book) }
    requires halted { (view_of M.state P.state F.state book).tray.net.phase ≡ phase.Halted }
    requires shelved { IsShelved (view_of M.state P.state F.state book).tray.net (view_of M.state P.state F.state book).tray.turns (view_of M.state P.state F.state book).held }
    requires miniport_room { length others.miniports.items < vec_capacity others.miniports }
    requires protocol_room { length others.protocols.items + length (view_of M.state P.state F.state book).tray.head.bindings ≤ vec_capacity others.protocols }
    ensures head { result.1.head ≡ (view_of M.state P.state F.state book).tray.head }
    ensures turns { result.1.turns ≡ (view_of M.state P.state F.state book).tray.turns }
    ensures miniports { map M.state result.0.miniports.items ≡ (view_of M.state P.state F.state book).held.miniport ∷ map M.state others.miniports.items }
    ensures protocols { map P.state result.0.protocols.items ≡ (view_of M.state P.state F.state book).held.protocols ++ map P.state others.protocols.items }
    ensures shelf { result.0.shelf ≡ book.filters }
    ensures idle { AreIdle (handed_of M.state P.state F.state others) → AreIdle (handed_of M.state P.state F.state result.0) }
{
    let BookParts {
        tray,
        miniport,
        protocols,
        filters,
        shelf: _,
        seats: _,
        miniport_pool: _,
        protocol_pools: _,
        filter_pools: _,
    } = book;
    let drivers = join(others, miniport, protocols, filters);
    (drivers, tray.into_journal())
}

/// Gives up a stack with all its drivers, after want of memory.
pub fn abandon<M: MiniportCalls, P: ProtocolCalls, F: FilterCalls>(book: BookParts<M, P, F>) {
    let BookParts {
        tray: _,
        miniport: _,
        protocols: _,
        filters: _,
        shelf: _,
        seats: _,
        miniport_pool: _,
        protocol_pools: _,
        filter_pools: _,
    } = book;
}
