//! Programs read from JSON.
ghost use Rattle.std.specs.Prelude.{◌≡◌, [], map};
ghost use Rattle.serde_json.specs.View.{view, items_view};
ghost use Rattle.program_forms.specs.Form.{number_below, six_bytes, offset_and_byte, two_numbers, test_of_word, test_of_member, test_in, action_of_word, action_of_member, action_in, rule_in, rule_or_fault, rule_after, program_in};
ghost use Rattle.program_forms.specs.declared.reading.RuleFault.TheVariants as faults;
ghost use Rattle.json_forms.specs.Lists.{read_all};
ghost use Rattle.program_forms.specs.Gives.{Gives};

use hex::FromHex;
use json_forms::{is_object_of, only_member};
use program_types::{Action, Program, Rule, Test};
use serde_json::Value;
use std::alloc::{AllocFailed, Global};
use thiserror::Error;

/// Why a value is no program.
#[derive(Clone, Copy, Debug, Error)]
pub enum RuleFault {
    /// The first place in the list that isn't a rule, from 0; 0 too where the value is no list.
    #[error("bad rule {0}")]
    BadRule(usize),
    /// More than 16 rules.
    #[error("more than 16 rules")]
    TooMany,
    #[error("out of memory")]
    Memory,
}

impl From<AllocFailed<Rule>> for RuleFault {
    ghost from_gives = { λ e fault. fault ≡ faults.Memory };

    fn from(_fault: AllocFailed<Rule>) -> RuleFault {
        RuleFault::Memory
    }
}

fn number_of(value: &Value, limit: u64) -> Option<u64>
    ensures { result ≡ number_below limit (view value.now) }
{
    let number = value.as_u64()?;
    if number < limit { Some(number) } else { None }
}

fn word_number(value: &Value) -> Option<u16>
    ensures { result ≡ number_below 65536 (view value.now) }
{
    Some(number_of(value, 65536)? as u16)
}

fn byte_number(value: &Value) -> Option<u8>
    ensures { result ≡ number_below 256 (view value.now) }
{
    Some(number_of(value, 256)? as u8)
}

fn vlan_number(value: &Value) -> Option<u16>
    ensures { result ≡ number_below 4096 (view value.now) }
{
    Some(number_of(value, 4096)? as u16)
}

fn address_of(value: &Value) -> Option<[u8; 6]>
    ensures { result ≡ six_bytes (view value.now) }
{
    let text = value.as_str()?;
    <[u8; 6] as FromHex>::from_hex(text).ok()
}

fn two_of(items: &[Value]) -> Option<(u16, u8)>
    ensures { result ≡ two_numbers (items_view items.now) }
{
    if items.len() != 2 {
        return None;
    }
    let at = word_number(&items[0])?;
    let value = byte_number(&items[1])?;
    Some((at, value))
}

fn place_and_byte(value: &Value) -> Option<(u16, u8)>
    ensures { result ≡ offset_and_byte (view value.now) }
{
    let items = value.as_array()?;
    two_of(items.as_slice())
}

fn word_test(word: &str) -> Option<Test>
    ensures { result ≡ test_of_word word.now }
{
    match word {
        "any" => Some(Test::Any),
        "tagged" => Some(Test::Tagged),
        "untagged" => Some(Test::Untagged),
        _ => None,
    }
}

fn member_test(name: &str, value: &Value) -> Option<Test>
    ensures { result ≡ test_of_member name.now (view value.now) }
{
    match name {
        "dst" => Some(Test::Dst(address_of(value)?)),
        "src" => Some(Test::Src(address_of(value)?)),
        "ethertype" => Some(Test::EtherType(word_number(value)?)),
        "vlan" => Some(Test::Vlan(vlan_number(value)?)),
        "longer" => Some(Test::Longer(word_number(value)?)),
        "byte" => {
            let (at, value) = place_and_byte(value)?;
            Some(Test::Byte { at, value })
        }
        _ => None,
    }
}

fn test_of(value: &Value) -> Option<Test>
    ensures { result ≡ test_in (view value.now) }
{
    match value.as_str() {
        Some(word) => word_test(word),
        None => {
            let (name, member) = only_member(value)?;
            member_test(name, member)
        }
    }
}

fn word_action(word: &str) -> Option<Action>
    ensures { result ≡ action_of_word word.now }
{
    match word {
        "drop" => Some(Action::Drop),
        "pop" => Some(Action::Pop),
        _ => None,
    }
}

fn member_action(name: &str, value: &Value) -> Option<Action>
    ensures { result ≡ action_of_member name.now (view value.now) }
{
    match name {
        "push" => Some(Action::Push(word_number(value)?)),
        "set_dst" => Some(Action::SetDst(address_of(value)?)),
        "set_src" => Some(Action::SetSrc(address_of(value)?)),
        "set_byte" => {
            let (at, value) = place_and_byte(value)?;
            Some(Action::SetByte { at, value })
        }
        _ => None,
    }
}

fn action_of(value: &Value) -> Option<Action>
    ensures { result ≡ action_in (view value.now) }
{
    match value.as_str() {
        Some(word) => word_action(word),
        None => {
            let (name, member) = only_member(value)?;
            member_action(name, member)
        }
    }
}

fn rule_at(value: &Value) -> Option<Rule>
    ensures { result ≡ rule_in (view value.now) }
{
    if !is_object_of(value, &["test", "action"], &[]) {
        return None;
    }
    let test = test_of(value.get("test")?)?;
    let action = action_of(value.get("action")?)?;
    Some(Rule { test, action })
}

fn rule_or_fault(place: usize, value: &Value) -> Result<Rule, RuleFault>
    ensures { result ≡ rule_or_fault place (rule_in (view value.now)) }
{
    match rule_at(value) {
        Some(rule) => Ok(rule),
        None => Err(RuleFault::BadRule(place)),
    }
}

fn rules_of(alloc: Global, items: &[Value]) -> Result<Program, RuleFault>
    ensures { Gives result (read_all rule_after [] (map view items.now)) }
{
    let mut rules = Vec::new(alloc);
    for (place, item) in items.iter().enumerate() {
        rules.push(rule_or_fault(place, item)?)?;
    }
    Ok(Program::of(rules))
}

/// The program that a JSON value is. It is TooMany above 16 rules, else BadRule at the first place
/// that isn't a rule.
pub fn read(alloc: Global, value: &Value) -> Result<Program, RuleFault>
    ensures { Gives result (program_in (view value.now)) }
{
    let Some(items) = value.as_array() else {
        return Err(RuleFault::BadRule(0));
    };
    let rules = items.as_slice();
    if rules.len() > 16 {
        return Err(RuleFault::TooMany);
    }
    rules_of(alloc, rules)
}
