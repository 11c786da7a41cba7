//! Stacks written as JSON.
ghost use Rattle.std.specs.Prelude.{◌≡◌, map, IfOk};
ghost use Rattle.serde_json.specs.View.{view, members_view};
ghost use Rattle.script_writing.specs.Written as spec;
ghost use Rattle.script_writing.specs.Written.{plain_port_data, linked_port_data, miniport_data, binding_data, stack_data};

use crate::filters::filter_values;
use crate::members::{object_with, with_hex, with_member, with_text};
use journal_types::PortSetup;
use ndis_base::{
    MiniportKind, OutOfMemory, ProtocolKind, name_of_miniport_kind, name_of_protocol_kind,
};
use script_types::{MiniportSetup, StackSetup};
use serde_json::{Map, Value, json};
use std::alloc::{AllocError, Global};

// The members that each miniport has.
fn port_members(
    alloc: Global,
    kind: MiniportKind,
    port: &PortSetup,
) -> Result<Map<String, Value>, AllocError>
    ensures { IfOk result (λ m. members_view m.entries ≡ spec.port_members kind port.now) }
{
    let named = with_text(alloc, Map::new(alloc), "kind", name_of_miniport_kind(kind))?;
    let addressed = with_hex(alloc, named, "address", &port.address)?;
    let pooled = with_member(alloc, addressed, "pool", Value::from(port.pool))?;
    with_member(alloc, pooled, "ring", Value::from(port.ring))
}

fn plain_port_value(
    alloc: Global,
    kind: MiniportKind,
    port: &PortSetup,
) -> Result<Value, AllocError>
    ensures { IfOk result (λ v. view v ≡ plain_port_data kind port.now) }
{
    let members = port_members(alloc, kind, port)?;
    Ok(Value::from(members))
}

fn linked_port_value(
    alloc: Global,
    kind: MiniportKind,
    port: &PortSetup,
    link: (u8, u32),
    vlan: u16,
) -> Result<Value, AllocError>
    ensures { IfOk result (λ v. view v ≡ linked_port_data kind port.now link vlan) }
{
    let members = port_members(alloc, kind, port)?;
    let bound = with_member(alloc, members, "binding", Value::from(link.1))?;
    let standing = with_member(alloc, bound, "lower", Value::from(link.0))?;
    object_with(alloc, standing, "vlan", Value::from(vlan))
}

fn miniport_value(alloc: Global, miniport: &MiniportSetup) -> Result<Value, AllocError>
    ensures { IfOk result (λ v. view v ≡ miniport_data miniport.now) }
{
    match (miniport.link, miniport.port.vlan) {
        (Some(link), Some(vlan)) => {
            linked_port_value(alloc, miniport.kind, &miniport.port, link, vlan)
        }
        _ => plain_port_value(alloc, miniport.kind, &miniport.port),
    }
}

fn binding_value(alloc: Global, binding: (ProtocolKind, usize)) -> Result<Value, AllocError>
    ensures { IfOk result (λ v. view v ≡ binding_data binding) }
{
    let named = with_text(
        alloc,
        Map::new(alloc),
        "kind",
        name_of_protocol_kind(binding.0),
    )?;
    object_with(alloc, named, "pool", Value::from(binding.1))
}

fn binding_values(
    alloc: Global,
    bindings: &[(ProtocolKind, usize)],
) -> Result<Vec<Value>, AllocError>
    ensures { IfOk result (λ v. map view v.items ≡ map binding_data bindings.now) }
{
    let mut values = Vec::new(alloc);
    for binding in bindings {
        values.push(binding_value(alloc, *binding)?)?;
    }
    Ok(values)
}

fn stack_value(alloc: Global, stack: &StackSetup) -> Result<Value, OutOfMemory>
    ensures { IfOk result (λ v. view v ≡ stack_data stack.now) }
{
    let bindings = binding_values(alloc, stack.bindings.items())?;
    let filters = filter_values(alloc, stack.filters.items())?;
    let miniport = miniport_value(alloc, &stack.miniport)?;
    Ok(json!(in alloc; {
        "bindings": Value::Array(bindings),
        "filters": Value::Array(filters),
        "miniport": miniport
    })?)
}

pub fn stack_values(alloc: Global, stacks: &[StackSetup]) -> Result<Vec<Value>, OutOfMemory>
    ensures { IfOk result (λ v. map view v.items ≡ map stack_data stacks.now) }
{
    let mut values = Vec::new(alloc);
    for stack in stacks {
        values.push(stack_value(alloc, stack)?)?;
    }
    Ok(values)
}
