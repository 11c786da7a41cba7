//! The modules of a position are told to pause.
ghost use Rattle.std.specs.Prelude.{◌≡◌, ◌<◌, length, map};
ghost use Rattle.book_parts.specs.Parts.{held_of};

use crate::counts::place_of;
use crate::floor::Floor;
use book_parts::BookParts;
use driver_calls::{FilterCalls, MiniportCalls, ProtocolCalls};

fn pause_protocol<P: ProtocolCalls>(protocol: &mut P)
    ensures { P.state protocol.new ≡ P.state protocol.old }
{
    protocol.pause();
}

/// Tells the protocol at a place (WDK, "ProtocolNetPnPEvent" with NetEventPause).
fn pause_binding<P: ProtocolCalls>(protocols: &mut [P], place: usize)
    requires { place < length protocols.old }
    ensures { map P.state protocols.new ≡ map P.state protocols.old }
{
    pause_protocol(&mut protocols[place]);
}

fn pause_bindings<P: ProtocolCalls>(protocols: &mut [P])
    ensures { map P.state protocols.new ≡ map P.state protocols.old }
{
    for place in 0..protocols.len() {
        pause_binding(protocols, place);
    }
}

fn pause_one<F: FilterCalls>(filter: &mut F)
    ensures { F.state filter.new ≡ F.state filter.old }
{
    filter.pause();
}

/// Tells the filter at a place (WDK, "FilterPause").
fn pause_filter<F: FilterCalls>(filters: &mut [F], place: usize)
    requires { place < length filters.old }
    ensures { map F.state filters.new ≡ map F.state filters.old }
{
    pause_one(&mut filters[place]);
}

/// Tells the modules of a position.
pub fn pause_floor<M: MiniportCalls, P: ProtocolCalls, F: FilterCalls>(
    book: &mut BookParts<M, P, F>,
    floor: Floor,
)
    ensures held { held_of M.state P.state F.state book.new ≡ held_of M.state P.state F.state book.old }
    ensures tray { book.new.tray ≡ book.old.tray }
{
    match floor {
        Floor::Bindings(_many) => pause_bindings(book.protocols.as_mut_slice()),
        Floor::Filter(f) => {
            if let Some(place) = place_of(book.seats.as_slice(), f) {
                if place < book.filters.len() {
                    pause_filter(book.filters.as_mut_slice(), place);
                }
            }
        }
        Floor::Miniport => book.miniport.pause(),
    }
}
