//! Whether a filter's programs fit its kind.
ghost use Rattle.std.specs.Prelude.{◌≡◌};
ghost use Rattle.plain_walk.specs.Choices.{is_any, is_lldp, is_drop, is_pop, control_of, vlan_of, drops_lldp, pushed_tag, popped_vlan, has_vlan, is_empty, fits};

use journal_types::Setup;
use ndis_base::FilterKind;
use program_types::{Action, Rule, Test};

fn is_any(test: Test) -> bool
    ensures { result ≡ is_any test }
{
    matches!(test, Test::Any)
}

fn is_lldp(test: Test) -> bool
    ensures { result ≡ is_lldp test }
{
    match test {
        Test::EtherType(n) => n == 35020,
        _ => false,
    }
}

fn is_drop(action: Action) -> bool
    ensures { result ≡ is_drop action }
{
    matches!(action, Action::Drop)
}

fn is_pop(action: Action) -> bool
    ensures { result ≡ is_pop action }
{
    matches!(action, Action::Pop)
}

fn control_of(action: Action) -> Option<u16>
    ensures { result ≡ control_of action }
{
    match action {
        Action::Push(control) => Some(control),
        _ => None,
    }
}

fn vlan_of(test: Test) -> Option<u16>
    ensures { result ≡ vlan_of test }
{
    match test {
        Test::Vlan(vlan) => Some(vlan),
        _ => None,
    }
}

fn drops_lldp(rules: &[Rule]) -> bool
    ensures { result ≡ drops_lldp rules.now }
{
    match rules {
        [rule] => is_lldp(rule.test) && is_drop(rule.action),
        _ => false,
    }
}

fn pushed_tag(rules: &[Rule]) -> Option<u16>
    ensures { result ≡ pushed_tag rules.now }
{
    match rules {
        [rule] => {
            if is_any(rule.test) {
                control_of(rule.action)
            } else {
                None
            }
        }
        _ => None,
    }
}

fn popped_vlan(rules: &[Rule]) -> Option<u16>
    ensures { result ≡ popped_vlan rules.now }
{
    match rules {
        [rule] => {
            if is_pop(rule.action) {
                vlan_of(rule.test)
            } else {
                None
            }
        }
        _ => None,
    }
}

fn has_vlan(control: Option<u16>, vlan: Option<u16>) -> bool
    ensures { result ≡ has_vlan control vlan }
{
    match control {
        None => false,
        Some(control) => match vlan {
            None => false,
            Some(vlan) => control % 4096 == vlan,
        },
    }
}

fn is_empty(rules: &[Rule]) -> bool
    ensures { result ≡ is_empty rules.now }
{
    match rules {
        [] => true,
        _ => false,
    }
}

/// Pass, hold and count filters want no rules, a tag filter pushes one tag and pops the tags of its VLAN,
/// a classify filter drops LLDP frames, and a rule filter takes any programs.
pub fn fits(kind: FilterKind, setup: &Setup) -> bool
    ensures { result ≡ fits kind setup.now }
{
    let send = setup.send.rules();
    let receive = setup.receive.rules();
    match kind {
        FilterKind::Rule => true,
        FilterKind::Pass => is_empty(send) && is_empty(receive),
        FilterKind::Hold => is_empty(send) && is_empty(receive),
        FilterKind::Count => is_empty(send) && is_empty(receive),
        FilterKind::Tag => has_vlan(pushed_tag(send), popped_vlan(receive)),
        FilterKind::Classify => drops_lldp(send) && drops_lldp(receive),
    }
}
