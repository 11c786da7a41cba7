//! The first lines of a journal.
ghost use Rattle.std.specs.Prelude.{◌≡◌, ◌++◌, OnOk};
ghost use Rattle.journal_words.specs.Words.{spaced};
ghost use Rattle.journal_lines.specs.Text.{stack_words, link_words, vlan_words, port_words, head_line, binding_line};

use journal_types::{PortSetup, StackHead};
use journal_words::page::Page;
use ndis_base::{OutOfMemory, ProtocolKind, name_of_miniport_kind, name_of_protocol_kind};

fn push_port(page: &mut Page, port: &PortSetup) -> Result<(), OutOfMemory>
    ensures { OnOk result (page.new ≡ spaced page.old (port_words port.now)) }
{
    page.word("address")?;
    page.address(&port.address)?;
    page.word("ring")?;
    page.number(port.ring as u64)?;
    page.word("pool")?;
    page.number(port.pool as u64)
}

fn push_link(page: &mut Page, link: Option<(u8, u32)>) -> Result<(), OutOfMemory>
    ensures { OnOk result (page.new ≡ spaced page.old (link_words link)) }
{
    match link {
        None => Ok(()),
        Some((stack, binding)) => {
            page.word("lower")?;
            page.number(u64::from(stack))?;
            page.binding(binding)
        }
    }
}

fn push_vlan(page: &mut Page, vlan: Option<u16>) -> Result<(), OutOfMemory>
    ensures { OnOk result (page.new ≡ spaced page.old (vlan_words vlan)) }
{
    match vlan {
        None => Ok(()),
        Some(vlan) => {
            page.word("vlan")?;
            page.number(u64::from(vlan))
        }
    }
}

fn push_stack(page: &mut Page, head: &StackHead) -> Result<(), OutOfMemory>
    ensures { OnOk result (page.new ≡ spaced page.old (stack_words head.now)) }
{
    page.number(u64::from(head.stack))?;
    page.word("miniport")?;
    page.word(name_of_miniport_kind(head.kind))
}

fn push_head_words(page: &mut Page, head: &StackHead) -> Result<(), OutOfMemory>
    ensures { OnOk result (page.new ≡ spaced (spaced (spaced (spaced page.old (stack_words head.now)) (port_words head.now.port)) (link_words head.now.link)) (vlan_words head.now.port.vlan)) }
{
    push_stack(page, head)?;
    push_port(page, &head.port)?;
    push_link(page, head.link)?;
    push_vlan(page, head.port.vlan)
}

/// Adds the first line of a journal.
pub fn push_head(page: &mut Page, head: &StackHead) -> Result<(), OutOfMemory>
    ensures { OnOk result (page.new ≡ page.old ++ head_line head.now) }
{
    page.text("stack")?;
    push_head_words(page, head)?;
    page.text("\n")
}

/// Adds the line of the binding of this number.
#[tactic(auto, unfolding(crate::specs::Text::binding_line))]
pub fn push_binding(
    page: &mut Page,
    number: usize,
    setup: &(ProtocolKind, usize),
) -> Result<(), OutOfMemory>
    ensures { OnOk result (page.new ≡ page.old ++ binding_line number setup.now) }
{
    page.text("binding")?;
    page.word("b")?;
    page.digits(number as u64)?;
    page.word(name_of_protocol_kind(setup.0))?;
    page.word("pool")?;
    page.number(setup.1 as u64)?;
    page.text("\n")
}
