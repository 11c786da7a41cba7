//! The target of each way.
ghost use Rattle.std.specs.Prelude.{◌≡◌};
ghost use Rattle.stack_rules.specs.Targets.{next_back, next_done, next_down, next_up, next_status};

use crate::modules::StackModules;
use crate::pairs::{Pair, first_with, front_of, last_with, position, rest_of};
use journal_types::Target;
use ndis_base::ModuleId;

/// A send goes down to the next filter with the send pair, else to the miniport.
pub fn next_down(ms: &StackModules, from: usize) -> Target
    ensures { result ≡ next_down ms.now from }
{
    let below = rest_of(ms.order(), from);
    first_with(ms, Pair::Send, below, Target::Module(ModuleId::Miniport))
}

/// A receive goes up to the next filter with the receive pair, else to the bindings.
pub fn next_up(ms: &StackModules, from: usize) -> Target
    ensures { result ≡ next_up ms.now from }
{
    let above = front_of(ms.order(), from.saturating_sub(1));
    last_with(ms, Pair::Receive, above, Target::Bindings)
}

/// A done send goes up through the filters that had passed it, and to its owner.
pub fn next_done(ms: &StackModules, from: usize, owner: ModuleId) -> Target
    ensures { result ≡ next_done ms.now from owner }
{
    let above = front_of(ms.order(), from.saturating_sub(1));
    let between = rest_of(above, position(ms.order(), owner));
    last_with(ms, Pair::Send, between, Target::Module(owner))
}

/// A returned receive goes down through the filters that had passed it, and to its owner.
pub fn next_back(ms: &StackModules, from: usize, owner: ModuleId) -> Target
    ensures { result ≡ next_back ms.now from owner }
{
    let to = position(ms.order(), owner);
    let above = front_of(ms.order(), to.saturating_sub(1));
    let between = rest_of(above, from);
    first_with(ms, Pair::Receive, between, Target::Module(owner))
}

/// A status goes up to the next filter with the status handler, else to the bindings.
pub fn next_status(ms: &StackModules, from: usize) -> Target
    ensures { result ≡ next_status ms.now from }
{
    let above = front_of(ms.order(), from.saturating_sub(1));
    last_with(ms, Pair::Status, above, Target::Bindings)
}
