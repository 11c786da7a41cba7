//! Which programs put a VLAN tag on what is sent, and take it off what is received.
ghost use Rattle.std.specs.Prelude.{◌≡◌};
ghost use Rattle.rule_filters.specs.Tagging as form;

use journal_types::Setup;
use program_types::{Action, Rule, Test};

fn tag_of(rule: Rule) -> Option<u16>
    ensures { result ≡ form.tag_of rule.test rule.action }
{
    match rule.test {
        Test::Any => match rule.action {
            Action::Push(control) => Some(control),
            _ => None,
        },
        _ => None,
    }
}

fn vlan_of(rule: Rule) -> Option<u16>
    ensures { result ≡ form.vlan_of rule.test rule.action }
{
    match rule.action {
        Action::Pop => match rule.test {
            Test::Vlan(vlan) => Some(vlan),
            _ => None,
        },
        _ => None,
    }
}

fn pushed_tag(rules: &[Rule]) -> Option<u16>
    ensures { result ≡ form.pushed_tag rules.now }
{
    match rules {
        [rule] => tag_of(*rule),
        _ => None,
    }
}

fn popped_vlan(rules: &[Rule]) -> Option<u16>
    ensures { result ≡ form.popped_vlan rules.now }
{
    match rules {
        [rule] => vlan_of(*rule),
        _ => None,
    }
}

/// Whether the one rule for sends puts a tag on each frame, and the one rule for receives takes the tag off the
/// frames of that tag's VLAN.
pub(crate) fn is_tagging(setup: &Setup) -> bool
    ensures { result ≡ form.is_tagging setup.now }
{
    match pushed_tag(setup.send.rules()) {
        Some(control) => match popped_vlan(setup.receive.rules()) {
            Some(vlan) => vlan == control % 4096,
            None => false,
        },
        None => false,
    }
}
