//! Whether drivers are of one kind.
ghost use Rattle.std.specs.Prelude.{◌≡◌};
ghost use Rattle.promise_rules.specs.Drivers.{same_miniport_kind, same_filter_kind, same_protocol_kind};

use ndis_base::{FilterKind, MiniportKind, ProtocolKind};

pub fn same_miniport_kind(a: MiniportKind, b: MiniportKind) -> bool
    ensures { result ≡ same_miniport_kind a b }
{
    match a {
        MiniportKind::Ring => matches!(b, MiniportKind::Ring),
        MiniportKind::Loop => matches!(b, MiniportKind::Loop),
        MiniportKind::Virtual => matches!(b, MiniportKind::Virtual),
    }
}

pub fn same_filter_kind(a: FilterKind, b: FilterKind) -> bool
    ensures { result ≡ same_filter_kind a b }
{
    match a {
        FilterKind::Pass => matches!(b, FilterKind::Pass),
        FilterKind::Rule => matches!(b, FilterKind::Rule),
        FilterKind::Hold => matches!(b, FilterKind::Hold),
        FilterKind::Tag => matches!(b, FilterKind::Tag),
        FilterKind::Count => matches!(b, FilterKind::Count),
        FilterKind::Classify => matches!(b, FilterKind::Classify),
    }
}

pub fn same_protocol_kind(a: ProtocolKind, b: ProtocolKind) -> bool
    ensures { result ≡ same_protocol_kind a b }
{
    match a {
        ProtocolKind::Log => matches!(b, ProtocolKind::Log),
        ProtocolKind::Retain => matches!(b, ProtocolKind::Retain),
        ProtocolKind::Echo => matches!(b, ProtocolKind::Echo),
        ProtocolKind::Mux => matches!(b, ProtocolKind::Mux),
    }
}
