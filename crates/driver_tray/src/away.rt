//! Which lists on their way count at a position of the stack.
ghost use Rattle.std.specs.Prelude.{◌≡◌, count_by};
ghost use Rattle.stack_rules.specs.Places.{position_of_target};
ghost use Rattle.stack_modules.specs.Pairs.{has};
ghost use Rattle.driver_tray.specs.Away.{nearest_below, position_on_way, counts_there};

use crate::tray::Tray;
use agenda_items::Carried;
use journal_types::{PassWay, Target};
use ndis_base::ModuleId;
use stack_modules::pairs::{first_with, rest_of};
use stack_modules::{Pair, StackModules, position};

/// The position of a target: that of its module, or the bindings'.
fn position_of(order: &[u64], to: Target) -> usize
    ensures { result ≡ position_of_target order.now to }
{
    match to {
        Target::Module(id) => position(order, id),
        Target::Bindings => 0,
    }
}

/// The position of the nearest filter below a position that has the pair, else that of the miniport.
fn nearest_below(ms: &StackModules, pair: Pair, from: usize) -> usize
    ensures { result ≡ nearest_below ms.now (has pair ms.now) from }
{
    let below = rest_of(ms.order(), from);
    let nearest = first_with(ms, pair, below, Target::Module(ModuleId::Miniport));
    position_of(ms.order(), nearest)
}

/// The position of a list that is passed so to a target.
fn position_on_way(ms: &StackModules, way: PassWay, to: Target) -> usize
    ensures { result ≡ position_on_way ms.now way to }
{
    let target = position_of(ms.order(), to);
    match way {
        PassWay::Down => target,
        PassWay::Back(_status) => target,
        PassWay::Done(_status) => nearest_below(ms, Pair::Send, target),
        PassWay::Up => nearest_below(ms, Pair::Receive, target),
    }
}

fn counts_there(ms: &StackModules, at: usize, carried: &Carried) -> bool
    ensures { result ≡ counts_there ms.now at carried.now }
{
    match carried {
        Carried::List { kept, way, to } => {
            position(ms.order(), kept.list().owner()) != at && position_on_way(ms, *way, *to) == at
        }
        Carried::Status(_) => false,
        Carried::Answer(_) => false,
    }
}

impl Tray {
    /// How many lists on their way are at a position that isn't their owner's.
    pub fn away_at(&self, at: usize) -> usize
        ensures { result ≡ count_by (counts_there self.now.net.modules at) self.now.queue }
    {
        let ms = self.modules();
        self.queue
            .iter()
            .filter(|carried| counts_there(ms, at, carried))
            .count()
    }
}
