//! The text of frame programs.
ghost use Rattle.std.specs.Prelude.{◌≡◌, ◌++◌, OnOk, codes, decimal};
ghost use Rattle.journal_words.specs.Words.{word, hex_text};
ghost use Rattle.journal_words.specs.Programs.{member_text, quoted_text, pair_text, test_text, action_text, rule_text, more_rules_text, rules_text, program_text};

use crate::page::Page;
use ndis_base::OutOfMemory;
use program_types::{Action, Program, Rule, Test};

/// An object with one member, a number.
fn push_number(page: &mut Page, name: &str, number: u16) -> Result<(), OutOfMemory>
    ensures { OnOk result (page.new ≡ page.old ++ member_text name.now (decimal number)) }
{
    page.text("{\"")?;
    page.text(name)?;
    page.text("\":")?;
    page.digits(u64::from(number))?;
    page.text("}")
}

/// An object with one member, an Ethernet address.
fn push_address(page: &mut Page, name: &str, address: &[u8; 6]) -> Result<(), OutOfMemory>
    ensures { OnOk result (page.new ≡ page.old ++ member_text name.now (quoted_text (hex_text address.now))) }
{
    page.text("{\"")?;
    page.text(name)?;
    page.text("\":\"")?;
    page.hex(address)?;
    page.text("\"}")
}

fn push_pair(page: &mut Page, first: u16, second: u8) -> Result<(), OutOfMemory>
    ensures { OnOk result (page.new ≡ page.old ++ pair_text first second) }
{
    page.text("[")?;
    page.digits(u64::from(first))?;
    page.text(",")?;
    page.digits(u64::from(second))?;
    page.text("]")
}

/// An object with one member, a list of an offset and a byte.
fn push_byte(page: &mut Page, name: &str, at: u16, value: u8) -> Result<(), OutOfMemory>
    ensures { OnOk result (page.new ≡ page.old ++ member_text name.now (pair_text at value)) }
{
    page.text("{\"")?;
    page.text(name)?;
    page.text("\":")?;
    push_pair(page, at, value)?;
    page.text("}")
}

fn push_test(page: &mut Page, test: &Test) -> Result<(), OutOfMemory>
    ensures { OnOk result (page.new ≡ page.old ++ test_text test.now) }
{
    match test {
        Test::Any => page.text("\"any\""),
        Test::Tagged => page.text("\"tagged\""),
        Test::Untagged => page.text("\"untagged\""),
        Test::Dst(address) => push_address(page, "dst", address),
        Test::Src(address) => push_address(page, "src", address),
        Test::EtherType(number) => push_number(page, "ethertype", *number),
        Test::Vlan(number) => push_number(page, "vlan", *number),
        Test::Longer(number) => push_number(page, "longer", *number),
        Test::Byte { at, value } => push_byte(page, "byte", *at, *value),
    }
}

fn push_action(page: &mut Page, action: &Action) -> Result<(), OutOfMemory>
    ensures { OnOk result (page.new ≡ page.old ++ action_text action.now) }
{
    match action {
        Action::Drop => page.text("\"drop\""),
        Action::Pop => page.text("\"pop\""),
        Action::Push(number) => push_number(page, "push", *number),
        Action::SetDst(address) => push_address(page, "set_dst", address),
        Action::SetSrc(address) => push_address(page, "set_src", address),
        Action::SetByte { at, value } => push_byte(page, "set_byte", *at, *value),
    }
}

#[tactic(auto, unfolding(crate::specs::Programs::rule_text))]
fn push_rule(page: &mut Page, rule: &Rule) -> Result<(), OutOfMemory>
    ensures { OnOk result (page.new ≡ page.old ++ rule_text rule.now) }
{
    page.text("{\"action\":")?;
    push_action(page, &rule.action)?;
    page.text(",\"test\":")?;
    push_test(page, &rule.test)?;
    page.text("}")
}

fn push_next_rule(page: &mut Page, rule: &Rule) -> Result<(), OutOfMemory>
    ensures { OnOk result (page.new ≡ page.old ++ (codes "," ++ rule_text rule.now)) }
{
    page.text(",")?;
    push_rule(page, rule)
}

fn push_more_rules(page: &mut Page, rules: &[Rule]) -> Result<(), OutOfMemory>
    ensures { OnOk result (page.new ≡ page.old ++ more_rules_text rules.now) }
{
    for rule in rules {
        push_next_rule(page, rule)?;
    }
    Ok(())
}

fn push_rules(page: &mut Page, rules: &[Rule]) -> Result<(), OutOfMemory>
    ensures { OnOk result (page.new ≡ page.old ++ rules_text rules.now) }
{
    match rules {
        [] => Ok(()),
        [first, more @ ..] => {
            push_rule(page, first)?;
            push_more_rules(page, more)
        }
    }
}

/// Adds a program as a word of compact JSON.
pub fn push_program(page: &mut Page, program: &Program) -> Result<(), OutOfMemory>
    ensures { OnOk result (page.new ≡ word page.old (program_text program.now)) }
{
    page.text(" ")?;
    page.text("[")?;
    push_rules(page, program.rules())?;
    page.text("]")
}
