//! Programs written as JSON.
ghost use Rattle.std.specs.Prelude.{◌≡◌, Ok, IfOk, true, map};
ghost use Rattle.serde_json.specs.View.{view};
ghost use Rattle.program_forms.specs.Form.{program_in};
ghost use Rattle.program_forms.specs.Written.{test_data, action_data, rule_data, program_data, is_program, member_data, number_data, hex_data, offset_and_byte_data};
ghost use Rattle.serde_json.specs.Data.{string};

use ndis_base::OutOfMemory;
use program_types::{Action, Program, Rule, Test};
use serde_json::{Value, json};
use std::alloc::{AllocError, Global};

fn word_value(alloc: Global, word: &str) -> Result<Value, AllocError>
    ensures { IfOk result (λ v. view v ≡ string word.now) }
{
    json!(in alloc; word)
}

fn number_member(alloc: Global, name: &str, number: u16) -> Result<Value, AllocError>
    ensures { IfOk result (λ v. view v ≡ member_data name.now (number_data number)) }
{
    json!(in alloc; {name: number})
}

fn hex_member(alloc: Global, name: &str, bytes: [u8; 6]) -> Result<Value, AllocError>
    ensures { IfOk result (λ v. view v ≡ member_data name.now (hex_data bytes)) }
{
    let text = hex::encode(alloc, &bytes)?;
    json!(in alloc; {name: text})
}

fn place_and_byte_value(alloc: Global, at: u16, value: u8) -> Result<Value, AllocError>
    ensures { IfOk result (λ v. view v ≡ offset_and_byte_data at value) }
{
    json!(in alloc; [at, value])
}

fn byte_member(alloc: Global, name: &str, at: u16, value: u8) -> Result<Value, AllocError>
    ensures { IfOk result (λ v. view v ≡ member_data name.now (offset_and_byte_data at value)) }
{
    let both = place_and_byte_value(alloc, at, value)?;
    json!(in alloc; {name: both})
}

fn test_value(alloc: Global, test: Test) -> Result<Value, AllocError>
    ensures { IfOk result (λ v. view v ≡ test_data test) }
{
    match test {
        Test::Any => word_value(alloc, "any"),
        Test::Tagged => word_value(alloc, "tagged"),
        Test::Untagged => word_value(alloc, "untagged"),
        Test::Dst(address) => hex_member(alloc, "dst", address),
        Test::Src(address) => hex_member(alloc, "src", address),
        Test::EtherType(number) => number_member(alloc, "ethertype", number),
        Test::Vlan(vlan) => number_member(alloc, "vlan", vlan),
        Test::Longer(bytes) => number_member(alloc, "longer", bytes),
        Test::Byte { at, value } => byte_member(alloc, "byte", at, value),
    }
}

fn action_value(alloc: Global, action: Action) -> Result<Value, AllocError>
    ensures { IfOk result (λ v. view v ≡ action_data action) }
{
    match action {
        Action::Drop => word_value(alloc, "drop"),
        Action::Pop => word_value(alloc, "pop"),
        Action::Push(control) => number_member(alloc, "push", control),
        Action::SetDst(address) => hex_member(alloc, "set_dst", address),
        Action::SetSrc(address) => hex_member(alloc, "set_src", address),
        Action::SetByte { at, value } => byte_member(alloc, "set_byte", at, value),
    }
}

fn rule_value(alloc: Global, rule: Rule) -> Result<Value, AllocError>
    ensures { IfOk result (λ v. view v ≡ rule_data rule) }
{
    let action = action_value(alloc, rule.action)?;
    let test = test_value(alloc, rule.test)?;
    json!(in alloc; {"action": action, "test": test})
}

fn rule_values(alloc: Global, rules: &[Rule]) -> Result<Vec<Value>, AllocError>
    ensures { IfOk result (λ v. map view v.items ≡ map rule_data rules.now) }
{
    let mut values = Vec::new(alloc);
    for rule in rules {
        values.push(rule_value(alloc, *rule)?)?;
    }
    Ok(values)
}

/// The program as JSON. A program of at most 16 rules, whose VLANs are below 4,096, is read back
/// from it.
pub fn write(alloc: Global, program: &Program) -> Result<Value, OutOfMemory>
    ensures written { IfOk result (λ v. view v ≡ program_data program.now) }
    ensures read_back { IfOk result (λ v. is_program program.now ≡ true → program_in (view v) ≡ Ok program.now) }
{
    Ok(Value::Array(rule_values(alloc, program.rules())?))
}
