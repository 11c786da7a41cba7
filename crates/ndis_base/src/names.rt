//! The names that journals and scripts write.
ghost use Rattle.std.specs.Prelude.{◌≡◌, option_map, IfSome, IfNone, ◌≢◌};
ghost use Rattle.ndis_base.specs.Names.{state_text, phase_text, list_status_text, oid_status_text, oid_kind_text, status_name_text, miniport_kind_text, protocol_kind_text, filter_kind_text, direction_text};
ghost use Rattle.ndis_base.specs.declared.ModuleState.{ModuleState};
ghost use Rattle.ndis_base.specs.declared.Phase.{Phase};
ghost use Rattle.ndis_base.specs.declared.ListStatus.{ListStatus};
ghost use Rattle.ndis_base.specs.declared.OidStatus.{OidStatus};
ghost use Rattle.ndis_base.specs.declared.OidKind.{OidKind};
ghost use Rattle.ndis_base.specs.declared.StatusName.{StatusName};
ghost use Rattle.ndis_base.specs.declared.MiniportKind.{MiniportKind};
ghost use Rattle.ndis_base.specs.declared.ProtocolKind.{ProtocolKind};
ghost use Rattle.ndis_base.specs.declared.FilterKind.{FilterKind};
ghost use Rattle.ndis_base.specs.declared.Direction.{Direction};

use crate::{
    Direction, FilterKind, ListStatus, MiniportKind, ModuleState, OidKind, OidStatus, Phase,
    ProtocolKind, StatusName,
};

pub fn name_of_state(value: ModuleState) -> &'static str
    ensures { result.now ≡ state_text value }
{
    match value {
        ModuleState::Halted => "Halted",
        ModuleState::Detached => "Detached",
        ModuleState::Attaching => "Attaching",
        ModuleState::Unbound => "Unbound",
        ModuleState::Opening => "Opening",
        ModuleState::Closing => "Closing",
        ModuleState::Paused => "Paused",
        ModuleState::Restarting => "Restarting",
        ModuleState::Running => "Running",
        ModuleState::Pausing => "Pausing",
    }
}

pub fn state_of_name(text: &str) -> Option<ModuleState>
    ensures named { IfSome result (λ value. text.now ≡ state_text value) }
    ensures none { IfNone result ((value : ModuleState) → text.now ≢ state_text value) }
{
    match text {
        "Halted" => Some(ModuleState::Halted),
        "Detached" => Some(ModuleState::Detached),
        "Attaching" => Some(ModuleState::Attaching),
        "Unbound" => Some(ModuleState::Unbound),
        "Opening" => Some(ModuleState::Opening),
        "Closing" => Some(ModuleState::Closing),
        "Paused" => Some(ModuleState::Paused),
        "Restarting" => Some(ModuleState::Restarting),
        "Running" => Some(ModuleState::Running),
        "Pausing" => Some(ModuleState::Pausing),
        _ => None,
    }
}

pub fn name_of_phase(value: Phase) -> &'static str
    ensures { result.now ≡ phase_text value }
{
    match value {
        Phase::Halted => "Halted",
        Phase::Paused => "Paused",
        Phase::Restarting => "Restarting",
        Phase::Running => "Running",
        Phase::Pausing => "Pausing",
    }
}

pub fn phase_of_name(text: &str) -> Option<Phase>
    ensures named { IfSome result (λ value. text.now ≡ phase_text value) }
    ensures none { IfNone result ((value : Phase) → text.now ≢ phase_text value) }
{
    match text {
        "Halted" => Some(Phase::Halted),
        "Paused" => Some(Phase::Paused),
        "Restarting" => Some(Phase::Restarting),
        "Running" => Some(Phase::Running),
        "Pausing" => Some(Phase::Pausing),
        _ => None,
    }
}

pub fn name_of_list_status(value: ListStatus) -> &'static str
    ensures { result.now ≡ list_status_text value }
{
    match value {
        ListStatus::Success => "Success",
        ListStatus::Paused => "Paused",
        ListStatus::Aborted => "Aborted",
        ListStatus::Dropped => "Dropped",
        ListStatus::Resources => "Resources",
    }
}

pub fn list_status_of_name(text: &str) -> Option<ListStatus>
    ensures named { IfSome result (λ value. text.now ≡ list_status_text value) }
    ensures none { IfNone result ((value : ListStatus) → text.now ≢ list_status_text value) }
{
    match text {
        "Success" => Some(ListStatus::Success),
        "Paused" => Some(ListStatus::Paused),
        "Aborted" => Some(ListStatus::Aborted),
        "Dropped" => Some(ListStatus::Dropped),
        "Resources" => Some(ListStatus::Resources),
        _ => None,
    }
}

pub fn name_of_oid_status(value: OidStatus) -> &'static str
    ensures { result.now ≡ oid_status_text value }
{
    match value {
        OidStatus::Success => "Success",
        OidStatus::NotSupported => "NotSupported",
        OidStatus::BadLength => "BadLength",
    }
}

pub fn oid_status_of_name(text: &str) -> Option<OidStatus>
    ensures named { IfSome result (λ value. text.now ≡ oid_status_text value) }
    ensures none { IfNone result ((value : OidStatus) → text.now ≢ oid_status_text value) }
{
    match text {
        "Success" => Some(OidStatus::Success),
        "NotSupported" => Some(OidStatus::NotSupported),
        "BadLength" => Some(OidStatus::BadLength),
        _ => None,
    }
}

pub fn name_of_oid_kind(value: OidKind) -> &'static str
    ensures { result.now ≡ oid_kind_text value }
{
    match value {
        OidKind::Query => "query",
        OidKind::Set => "set",
    }
}

pub fn oid_kind_of_name(text: &str) -> Option<OidKind>
    ensures named { IfSome result (λ value. text.now ≡ oid_kind_text value) }
    ensures none { IfNone result ((value : OidKind) → text.now ≢ oid_kind_text value) }
{
    match text {
        "query" => Some(OidKind::Query),
        "set" => Some(OidKind::Set),
        _ => None,
    }
}

pub fn name_of_status_name(value: StatusName) -> &'static str
    ensures { result.now ≡ status_name_text value }
{
    match value {
        StatusName::LinkUp => "LinkUp",
        StatusName::LinkDown => "LinkDown",
        StatusName::Notice => "Notice",
    }
}

pub fn status_name_of_name(text: &str) -> Option<StatusName>
    ensures named { IfSome result (λ value. text.now ≡ status_name_text value) }
    ensures none { IfNone result ((value : StatusName) → text.now ≢ status_name_text value) }
{
    match text {
        "LinkUp" => Some(StatusName::LinkUp),
        "LinkDown" => Some(StatusName::LinkDown),
        "Notice" => Some(StatusName::Notice),
        _ => None,
    }
}

pub fn name_of_miniport_kind(value: MiniportKind) -> &'static str
    ensures { result.now ≡ miniport_kind_text value }
{
    match value {
        MiniportKind::Ring => "ring",
        MiniportKind::Loop => "loop",
        MiniportKind::Virtual => "virtual",
    }
}

pub fn miniport_kind_of_name(text: &str) -> Option<MiniportKind>
    ensures named { IfSome result (λ value. text.now ≡ miniport_kind_text value) }
    ensures none { IfNone result ((value : MiniportKind) → text.now ≢ miniport_kind_text value) }
{
    match text {
        "ring" => Some(MiniportKind::Ring),
        "loop" => Some(MiniportKind::Loop),
        "virtual" => Some(MiniportKind::Virtual),
        _ => None,
    }
}

pub fn name_of_protocol_kind(value: ProtocolKind) -> &'static str
    ensures { result.now ≡ protocol_kind_text value }
{
    match value {
        ProtocolKind::Log => "log",
        ProtocolKind::Retain => "retain",
        ProtocolKind::Echo => "echo",
        ProtocolKind::Mux => "mux",
    }
}

pub fn protocol_kind_of_name(text: &str) -> Option<ProtocolKind>
    ensures named { IfSome result (λ value. text.now ≡ protocol_kind_text value) }
    ensures none { IfNone result ((value : ProtocolKind) → text.now ≢ protocol_kind_text value) }
{
    match text {
        "log" => Some(ProtocolKind::Log),
        "retain" => Some(ProtocolKind::Retain),
        "echo" => Some(ProtocolKind::Echo),
        "mux" => Some(ProtocolKind::Mux),
        _ => None,
    }
}

pub fn name_of_filter_kind(value: FilterKind) -> &'static str
    ensures { result.now ≡ filter_kind_text value }
{
    match value {
        FilterKind::Pass => "pass",
        FilterKind::Rule => "rule",
        FilterKind::Hold => "hold",
        FilterKind::Tag => "tag",
        FilterKind::Count => "count",
        FilterKind::Classify => "classify",
    }
}

pub fn filter_kind_of_name(text: &str) -> Option<FilterKind>
    ensures named { IfSome result (λ value. text.now ≡ filter_kind_text value) }
    ensures none { IfNone result ((value : FilterKind) → text.now ≢ filter_kind_text value) }
{
    match text {
        "pass" => Some(FilterKind::Pass),
        "rule" => Some(FilterKind::Rule),
        "hold" => Some(FilterKind::Hold),
        "tag" => Some(FilterKind::Tag),
        "count" => Some(FilterKind::Count),
        "classify" => Some(FilterKind::Classify),
        _ => None,
    }
}

pub fn name_of_direction(value: Direction) -> &'static str
    ensures { result.now ≡ direction_text value }
{
    match value {
        Direction::Down => "down",
        Direction::Up => "up",
        Direction::Lent => "lent",
    }
}

pub fn direction_of_name(text: &str) -> Option<Direction>
    ensures named { IfSome result (λ value. text.now ≡ direction_text value) }
    ensures none { IfNone result ((value : Direction) → text.now ≢ direction_text value) }
{
    match text {
        "down" => Some(Direction::Down),
        "up" => Some(Direction::Up),
        "lent" => Some(Direction::Lent),
        _ => None,
    }
}
