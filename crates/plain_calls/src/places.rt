//! Which of the handed-in drivers stands for the miniport and for each binding.
ghost use Rattle.std.specs.Prelude.{◌≡◌, ◌==◌, IfOk};
ghost use Rattle.std.specs.List.{list_any};
ghost use Rattle.promise_rules.specs.Drivers.{miniport_from, miniport_place, protocol_from, with_place, protocol_places};

use crate::kinds::{same_miniport_kind, same_protocol_kind};
use ndis_base::{MiniportKind, OutOfMemory, ProtocolKind};
use std::alloc::Global;

/// The place of the miniport's driver: the first miniport of the kind.
pub fn miniport_place(kind: MiniportKind, kinds: &[MiniportKind]) -> Option<usize>
    ensures { result ≡ miniport_place kind kinds.now }
{
    for (place, k) in kinds.iter().enumerate() {
        if same_miniport_kind(*k, kind) {
            return Some(place);
        }
    }
    None
}

fn is_used(place: usize, used: &[usize]) -> bool
    ensures { result ≡ list_any (λ p. p == place) used.now }
{
    match used {
        [] => false,
        [p, others @ ..] => *p == place || is_used(place, others),
    }
}

/// The place of a binding's driver: the first protocol of its kind that no earlier binding has.
fn protocol_place(used: &[usize], kind: ProtocolKind, kinds: &[ProtocolKind]) -> Option<usize>
    ensures { result ≡ protocol_from 0 used.now kind kinds.now }
{
    for (place, k) in kinds.iter().enumerate() {
        if same_protocol_kind(*k, kind) && !is_used(place, used) {
            return Some(place);
        }
    }
    None
}

/// The places with one more, where there is one.
pub fn with_place(places: Vec<usize>, place: Option<usize>) -> Result<Vec<usize>, OutOfMemory>
    ensures { IfOk result (λ all. all.items ≡ with_place places.items place) }
{
    let mut all = places;
    if let Some(place) = place {
        all.push(place)?;
    }
    Ok(all)
}

/// The places of the bindings' drivers, where there are drivers enough, the used places being taken.
pub fn protocol_places(
    alloc: Global,
    used: Vec<usize>,
    bindings: &[(ProtocolKind, usize)],
    kinds: &[ProtocolKind],
) -> Result<Vec<Option<usize>>, OutOfMemory>
    ensures { IfOk result (λ places. places.items ≡ protocol_places used.items bindings.now kinds.now) }
{
    match bindings {
        [] => Ok(Vec::new(alloc)),
        [binding, others @ ..] => {
            let place = protocol_place(used.as_slice(), binding.0, kinds);
            let mut places = protocol_places(alloc, with_place(used, place)?, others, kinds)?;
            places.insert(0, place)?;
            Ok(places)
        }
    }
}
