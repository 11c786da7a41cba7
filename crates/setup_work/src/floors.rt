//! The position that restarts, and its drivers.
ghost use Rattle.std.specs.Prelude.{◌≡◌, ◌+◌, ◌*◌, ◌≤◌, ◌<◌, [], length, map, reverse, slice_index_or};
ghost use Rattle.stack_rules.specs.Pauses.{floors};
ghost use Rattle.book_lemmas.specs.Views.{seat_of};
ghost use Rattle.book_parts.specs.Parts.{held_of};
ghost use Rattle.setup_work.specs.Floors.{modules_of, floor_room, IsOf, Sits, SitsOn};

use book_parts::BookParts;
use driver_calls::{FilterCalls, MiniportCalls, ProtocolCalls};
use driver_tray::Tray;

/// A position of a stack: the miniport, a filter, or the bindings, of which there are so many.
#[derive(Clone, Copy)]
pub enum Floor {
    Port,
    Middle(u64),
    Top(u32),
}

/// The position at a place from the bottom. It has its number of bindings from the caller.
pub fn floor_at(tray: &Tray, from_below: usize, bindings: u32) -> Floor
    requires within { from_below < length (floors tray.now.net.modules) }
    requires bindings { bindings ≡ length tray.now.net.modules.bindings }
    ensures modules { modules_of result ≡ slice_index_or (reverse (floors tray.now.net.modules)) from_below [] }
    ensures order { IsOf tray.now.net.modules.order result }
    ensures room { floor_room result ≤ bindings * 2 + 2 }
{
    let order = tray.order();
    if from_below == 0 {
        return Floor::Port;
    }
    if from_below > order.len() {
        return Floor::Top(bindings);
    }
    Floor::Middle(order[order.len() - from_below])
}

/// The place of a filter's driver.
fn place_of(seats: &[(u64, usize)], f: u64) -> Option<usize>
    ensures { result ≡ seat_of seats.now f }
{
    match seats {
        [] => None,
        [seat, others @ ..] => {
            if seat.0 == f {
                Some(seat.1)
            } else {
                place_of(others, f)
            }
        }
    }
}

fn restart_protocol<P: ProtocolCalls>(protocol: &mut P)
    ensures { P.state protocol.new ≡ P.state protocol.old }
{
    protocol.restart();
}

fn restart_protocols<P: ProtocolCalls>(protocols: &mut Vec<P>)
    ensures { map P.state protocols.new.items ≡ map P.state protocols.old.items }
{
    for i in 0..protocols.len() {
        restart_protocol(&mut protocols[i]);
    }
}

fn restart_filter<F: FilterCalls>(filter: &mut F)
    ensures { F.state filter.new ≡ F.state filter.old }
{
    filter.restart();
}

fn restart_filter_of<F: FilterCalls>(filters: &mut Vec<F>, seats: &[(u64, usize)], f: u64)
    requires { Sits seats.now (length filters.old.items) f }
    ensures { map F.state filters.new.items ≡ map F.state filters.old.items }
{
    let Some(place) = place_of(seats, f) else {
        unreachable!()
    };
    restart_filter(&mut filters[place]);
}

/// Tells the drivers of a position that they run again (WDK, "FilterRestart", "MiniportRestart", and
/// "ProtocolNetPnPEvent" with NetEventRestart). Nothing changes that contracts see.
pub fn restart_floor<M: MiniportCalls, P: ProtocolCalls, F: FilterCalls>(
    book: &mut BookParts<M, P, F>,
    floor: Floor,
)
    requires { SitsOn book.old.seats.items (length book.old.filters.items) floor }
    ensures tray { book.new.tray ≡ book.old.tray }
    ensures held { held_of M.state P.state F.state book.new ≡ held_of M.state P.state F.state book.old }
{
    match floor {
        Floor::Port => book.miniport.restart(),
        Floor::Middle(f) => restart_filter_of(&mut book.filters, book.seats.as_slice(), f),
        Floor::Top(_bindings) => restart_protocols(&mut book.protocols),
    }
}
