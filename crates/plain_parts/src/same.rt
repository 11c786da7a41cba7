//! Tests on the small types.
ghost use Rattle.std.specs.Prelude.{◌≡◌};
ghost use Rattle.std.specs.Str.{bytes_eq};
ghost use Rattle.stack_rules.specs.Tests.{same_module, same_frames, same_number, is_hold, is_loop, is_virtual, is_retain, is_echo, is_mux, is_down, phase_is_running};

use journal_types::Frames;
use ndis_base::{Direction, FilterKind, Frame, MiniportKind, ModuleId, Phase, ProtocolKind};

/// Whether both name the same module.
pub fn same_module(a: ModuleId, b: ModuleId) -> bool
    ensures { result ≡ same_module a b }
{
    match a {
        ModuleId::Miniport => matches!(b, ModuleId::Miniport),
        ModuleId::Filter(f) => match b {
            ModuleId::Filter(g) => f == g,
            _ => false,
        },
        ModuleId::Binding(f) => match b {
            ModuleId::Binding(g) => f == g,
            _ => false,
        },
    }
}

/// Whether the bytes are the same.
pub fn same_bytes(a: &[u8], b: &[u8]) -> bool
    ensures { result ≡ bytes_eq a.now b.now }
{
    a == b
}

fn same_items(a: &[Frame], b: &[Frame]) -> bool
    ensures { result ≡ same_frames a.now b.now }
{
    match a {
        [] => b.is_empty(),
        [x, xs @ ..] => match b {
            [] => false,
            [y, ys @ ..] => same_bytes(x.bytes(), y.bytes()) && same_items(xs, ys),
        },
    }
}

/// Whether the frames are as many and of the same bytes.
pub fn same_frames(a: &Frames, b: &Frames) -> bool
    ensures { result ≡ same_frames a.now b.now }
{
    same_items(a.items(), b.items())
}

/// Whether both are the same number, or there is neither.
pub fn same_number(a: Option<u32>, b: Option<u32>) -> bool
    ensures { result ≡ same_number a b }
{
    match a {
        None => b.is_none(),
        Some(x) => match b {
            None => false,
            Some(y) => x == y,
        },
    }
}

/// Whether it is a hold filter.
pub fn is_hold(kind: FilterKind) -> bool
    ensures { result ≡ is_hold kind }
{
    matches!(kind, FilterKind::Hold)
}

/// Whether it is a loop adapter.
pub fn is_loop(kind: MiniportKind) -> bool
    ensures { result ≡ is_loop kind }
{
    matches!(kind, MiniportKind::Loop)
}

/// Whether it is a virtual miniport.
pub fn is_virtual(kind: MiniportKind) -> bool
    ensures { result ≡ is_virtual kind }
{
    matches!(kind, MiniportKind::Virtual)
}

/// Whether it is a retain protocol.
pub fn is_retain(kind: ProtocolKind) -> bool
    ensures { result ≡ is_retain kind }
{
    matches!(kind, ProtocolKind::Retain)
}

/// Whether it is an echo protocol.
pub fn is_echo(kind: ProtocolKind) -> bool
    ensures { result ≡ is_echo kind }
{
    matches!(kind, ProtocolKind::Echo)
}

/// Whether it is a mux protocol.
pub fn is_mux(kind: ProtocolKind) -> bool
    ensures { result ≡ is_mux kind }
{
    matches!(kind, ProtocolKind::Mux)
}

/// Whether it is a send.
pub fn is_down(direction: Direction) -> bool
    ensures { result ≡ is_down direction }
{
    matches!(direction, Direction::Down)
}

/// Whether the stack runs.
pub fn is_running_phase(phase: Phase) -> bool
    ensures { result ≡ phase_is_running phase }
{
    matches!(phase, Phase::Running)
}
