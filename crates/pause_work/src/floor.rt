//! The positions of a stack.
ghost use Rattle.std.specs.Prelude.{◌≡◌, ◌≤◌, ◌^◌, length};
ghost use Rattle.state_laws.specs.Shape.{AllBelow};
ghost use Rattle.pause_work.specs.Positions.{IsFound, width};

use driver_tray::Tray;

/// A position of a stack: its bindings, of which there are so many, a filter, or the miniport.
#[derive(Clone, Copy)]
pub enum Floor {
    Bindings(u32),
    Filter(u64),
    Miniport,
}

/// How many modules a position has.
pub fn width(floor: Floor) -> usize
    ensures many { result ≡ width floor }
    ensures few { result ≤ 2 ^ 32 }
{
    match floor {
        Floor::Bindings(many) => many as usize,
        Floor::Filter(_filter) => 1,
        Floor::Miniport => 1,
    }
}

/// What is at a position, from the top; None below the miniport.
pub fn floor_at(tray: &Tray, bindings: u32, position: usize) -> Option<Floor>
    requires bindings { bindings ≡ length tray.now.net.modules.bindings }
    requires below { AllBelow tray.now.net.next.filter tray.now.net.modules.order }
    ensures { IsFound tray.now.net.modules position result }
{
    let order = tray.order();
    let _next = tray.next_filter();
    if position == 0 {
        return Some(Floor::Bindings(bindings));
    }
    if position <= order.len() {
        return Some(Floor::Filter(order[position - 1]));
    }
    if position == order.len() + 1 {
        return Some(Floor::Miniport);
    }
    None
}
