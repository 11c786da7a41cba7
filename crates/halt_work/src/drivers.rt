//! The drivers of a stack are shut down.
ghost use Rattle.std.specs.Prelude.{◌≡◌, ◌+◌, ◌≤◌, ◌++◌, ◌∷◌, [], All, length, map, take, drop};
ghost use Rattle.std.specs.Vec.{vec_len, vec_capacity};
ghost use Rattle.rewire_work.specs.Seated.{without_seat};
ghost use Rattle.setup_work.specs.SetUp.{closed};
ghost use Rattle.halt_work.specs.Halted.{KeepsNothing, unported};
ghost use Rattle.halt_work.specs.Risen.{sides, risen_each, CanEachRise};

use driver_calls::{FilterCalls, MiniportCalls, ProtocolCalls};
use rewire_work::seats::{detach_at, place_of};

fn close_protocol<P: ProtocolCalls>(protocol: &mut P)
    requires { (P.state protocol.old).kept ≡ [] }
    ensures { P.state protocol.new ≡ closed (P.state protocol.old) }
{
    protocol.close();
}

/// Closes the protocols of the bindings from one on, in rising order (WDK, "Unbinding from an Adapter").
pub fn close_from<P: ProtocolCalls>(protocols: &mut Vec<P>, from: usize)
    requires within { from ≤ length protocols.old.items }
    requires kept { All KeepsNothing (drop from (map P.state protocols.old.items)) }
    ensures { map P.state protocols.new.items ≡ take from (map P.state protocols.old.items) ++ map closed (drop from (map P.state protocols.old.items)) }
{
    if from >= protocols.len() {
        return;
    }
    close_protocol(&mut protocols[from]);
    close_from(protocols, from + 1);
}

/// A filter gets up from its place, which goes to the shelf's end.
fn get_up(seats: &mut Vec<(u64, usize)>, shelf: &mut Vec<usize>, f: u64, place: usize)
    requires { vec_len shelf.old + 1 ≤ vec_capacity shelf.old }
    ensures seats { seats.new.items ≡ without_seat f seats.old.items }
    ensures shelf { shelf.new.items ≡ shelf.old.items ++ place ∷ [] }
    ensures longer { vec_len shelf.new ≡ vec_len shelf.old + 1 }
    ensures capacity { vec_capacity shelf.new ≡ vec_capacity shelf.old }
{
    seats.retain(|seat| seat.0 != f);
    shelf.push_reserved(place);
}

/// Detaches filters in an order (WDK, "Detaching a Filter Module").
pub fn detach_each<F: FilterCalls>(
    filters: &mut Vec<F>,
    seats: &mut Vec<(u64, usize)>,
    shelf: &mut Vec<usize>,
    order: &[u64],
)
    requires room { vec_len shelf.old + length order.now ≤ vec_capacity shelf.old }
    requires rise { CanEachRise (sides (map F.state filters.old.items) seats.old.items shelf.old.items) order.now }
    ensures { sides (map F.state filters.new.items) seats.new.items shelf.new.items ≡ risen_each (sides (map F.state filters.old.items) seats.old.items shelf.old.items) order.now }
{
    let [first, others @ ..] = order else {
        return;
    };
    let Some(place) = place_of(seats.as_slice(), *first) else {
        unreachable!()
    };
    detach_at(filters, place);
    get_up(seats, shelf, *first, place);
    detach_each(filters, seats, shelf, others);
}

/// Halts the miniport (WDK, "Halting a Miniport Adapter").
pub fn halt_miniport<M: MiniportCalls>(miniport: &mut M)
    requires { (M.state miniport.old).kept ≡ [] }
    ensures { M.state miniport.new ≡ unported (M.state miniport.old) }
{
    miniport.halt();
}
