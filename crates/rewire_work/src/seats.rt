//! The drivers of filters at their places, their seats and their shelf.
ghost use Rattle.std.specs.Prelude.{◌≡◌, ◌==◌, ◌≤◌, ◌<◌, ◌∷◌, ◌++◌, [], ℕ, All, Some, OnOk, OnErr, IfErr, length, map, find, slice_set};
ghost use Rattle.std.specs.Vec.{vec_len, vec_capacity};
ghost use Rattle.promise_rules.specs.Drivers.{same_filter_kind, without_place};
ghost use Rattle.driver_calls.specs.declared.faults.AttachFault.TheVariants.{Refused, Memory};
ghost use Rattle.driver_calls.specs.Filters.{MayAttach, Refuses};
ghost use Rattle.book_lemmas.specs.Views.{filter_at, seat_of};
ghost use Rattle.rewire_work.specs.Seated.{is_kind_at, set_up, put_down, without_seat};

use buffer_pools::ListPool;
use driver_calls::{AttachFault, FilterCalls};
use journal_types::Setup;
use ndis_base::FilterKind;
use std::alloc::Global;

/// The place of a filter's driver.
pub fn place_of(seats: &[(u64, usize)], f: u64) -> Option<usize>
    ensures { result ≡ seat_of seats.now f }
{
    match seats {
        [] => None,
        [seat, others @ ..] => {
            if seat.0 == f {
                Some(seat.1)
            } else {
                place_of(others, f)
            }
        }
    }
}

fn is_of_kind<F: FilterCalls>(filter: &F, kind: FilterKind) -> bool
    ensures { result ≡ same_filter_kind (F.state filter.now).kind kind }
{
    filter.kind() == kind
}

fn is_kind_at<F: FilterCalls>(filters: &[F], place: usize, kind: FilterKind) -> bool
    requires { place < length filters.now }
    ensures { result ≡ is_kind_at kind (map F.state filters.now) place }
{
    is_of_kind(&filters[place], kind)
}

/// The first place on the shelf whose driver is of a kind.
pub fn first_of_kind<F: FilterCalls>(
    filters: &[F],
    shelf: &[usize],
    kind: FilterKind,
) -> Option<usize>
    requires { All (λ place. place < length filters.now) shelf.now }
    ensures { result ≡ find (is_kind_at kind (map F.state filters.now)) shelf.now }
{
    match shelf {
        [] => None,
        [place, others @ ..] => {
            if is_kind_at(filters, *place, kind) {
                Some(*place)
            } else {
                first_of_kind(filters, others, kind)
            }
        }
    }
}

fn attach_one<F: FilterCalls>(
    filter: &mut F,
    alloc: Global,
    setup: Setup,
) -> Result<(), AttachFault>
    requires { MayAttach (F.state filter.old) }
    ensures attached { OnOk result (F.state filter.new ≡ set_up (F.state filter.old) setup) }
    ensures refused { IfErr result (λ fault. fault ≡ Refused → Refuses (F.state filter.old) (F.state filter.new)) }
    ensures memory { IfErr result (λ fault. fault ≡ Memory → F.state filter.new ≡ F.state filter.old) }
{
    filter.attach(alloc, setup)
}

/// Attaches the driver at a place.
pub fn attach_at<F: FilterCalls>(
    filters: &mut Vec<F>,
    place: usize,
    alloc: Global,
    setup: Setup,
) -> Result<(), AttachFault>
    requires place { place < length filters.old.items }
    requires may { MayAttach (filter_at (map F.state filters.old.items) (Some place)) }
    ensures filters { map F.state filters.new.items ≡ slice_set (map F.state filters.old.items) place (filter_at (map F.state filters.new.items) (Some place)) }
    ensures attached { OnOk result (filter_at (map F.state filters.new.items) (Some place) ≡ set_up (filter_at (map F.state filters.old.items) (Some place)) setup) }
    ensures refused { IfErr result (λ fault. fault ≡ Refused → Refuses (filter_at (map F.state filters.old.items) (Some place)) (filter_at (map F.state filters.new.items) (Some place))) }
    ensures memory { IfErr result (λ fault. fault ≡ Memory → map F.state filters.new.items ≡ map F.state filters.old.items) }
{
    attach_one(&mut filters[place], alloc, setup)
}

/// Takes a place off the shelf.
pub fn take_off(shelf: &mut Vec<usize>, place: usize)
    ensures places { shelf.new.items ≡ without_place place shelf.old.items }
    ensures bound { vec_len shelf.new ≤ vec_len shelf.old }
    ensures capacity { vec_capacity shelf.new ≡ vec_capacity shelf.old }
{
    shelf.retain(|other| *other != place);
}

/// A filter sits down at a place, with its pool.
pub fn seat(
    seats: &mut Vec<(u64, usize)>,
    pools: &mut Vec<ListPool>,
    f: u64,
    place: usize,
    pool: ListPool,
)
    requires room { vec_len seats.old < vec_capacity seats.old }
    requires place { place < length pools.old.items }
    ensures seats { seats.new.items ≡ seats.old.items ++ (f, place) ∷ [] }
    ensures pools { pools.new.items ≡ slice_set pools.old.items place pool }
{
    seats.push_reserved((f, place));
    pools[place] = pool;
}

fn detach_one<F: FilterCalls>(filter: &mut F)
    requires { (F.state filter.old).kept ≡ [] }
    ensures { F.state filter.new ≡ put_down (F.state filter.old) }
{
    filter.detach();
}

/// Detaches the driver at a place.
pub fn detach_at<F: FilterCalls>(filters: &mut Vec<F>, place: usize)
    requires place { place < length filters.old.items }
    requires kept { (filter_at (map F.state filters.old.items) (Some place)).kept ≡ [] }
    ensures { map F.state filters.new.items ≡ slice_set (map F.state filters.old.items) place (put_down (filter_at (map F.state filters.old.items) (Some place))) }
{
    detach_one(&mut filters[place]);
}

/// A filter gets up from its place, which goes to the shelf's end.
pub fn rise(seats: &mut Vec<(u64, usize)>, shelf: &mut Vec<usize>, f: u64, place: usize)
    requires { vec_len shelf.old < vec_capacity shelf.old }
    ensures seats { seats.new.items ≡ without_seat f seats.old.items }
    ensures shelf { shelf.new.items ≡ shelf.old.items ++ place ∷ [] }
{
    seats.retain(|seat| seat.0 != f);
    shelf.push_reserved(place);
}
