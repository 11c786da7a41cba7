//! Stacks read from JSON.
ghost use Rattle.std.specs.Prelude.{◌≡◌, ◌<◌, [], length, map, None};
ghost use Rattle.serde_json.specs.View.{view};
ghost use Rattle.json_forms.specs.Lists.{read_all};
ghost use Rattle.script_forms.specs.Results.{Gives};
ghost use Rattle.script_forms.specs.Stack.{miniport_kind_in, protocol_kind_in, miniport_members, earlier, mux_at, stands_there, free_vlan, link_in, miniport_of, miniport_in, binding_in, stack_in};
ghost use Rattle.script_forms.specs.Values.{members_in};

use crate::filters::each_filter;
use journal_types::{BindingSetups, PortSetup};
use ndis_base::{MiniportKind, ProtocolKind, miniport_kind_of_name, protocol_kind_of_name};
use script_forms::members::{address_at, items_at, member_of, number_at};
use script_forms::parts::{Trouble, check_members, text_of};
use script_forms::words::Link;
use script_types::{MiniportSetup, ScriptCause, StackSetup};
use serde_json::Value;
use std::alloc::Global;

fn miniport_kind_of(value: &Value) -> Result<MiniportKind, Trouble>
    ensures { Gives result (miniport_kind_in (view value.now)) }
{
    match miniport_kind_of_name(text_of(value)?) {
        Some(kind) => Ok(kind),
        None => Err(Trouble::Bad(ScriptCause::Range)),
    }
}

fn protocol_kind_of(value: &Value) -> Result<ProtocolKind, Trouble>
    ensures { Gives result (protocol_kind_in (view value.now)) }
{
    match protocol_kind_of_name(text_of(value)?) {
        Some(kind) => Ok(kind),
        None => Err(Trouble::Bad(ScriptCause::Range)),
    }
}

fn check_miniport_members(value: &Value, kind: MiniportKind) -> Result<(), Trouble>
    ensures { Gives result (members_in (miniport_members kind) [] (view value.now)) }
{
    match kind {
        MiniportKind::Ring | MiniportKind::Loop => {
            check_members(value, &["kind", "address", "ring", "pool"], &[])
        }
        MiniportKind::Virtual => check_members(
            value,
            &[
                "kind", "address", "ring", "pool", "lower", "binding", "vlan",
            ],
            &[],
        ),
    }
}

// A stack of the script that is earlier than this one.
fn earlier_stack(count: usize, own: usize, lower: u64) -> Result<u64, Trouble>
    ensures { Gives result (earlier count own lower) }
{
    if lower >= count as u64 {
        Err(Trouble::Bad(ScriptCause::Range))
    } else if lower >= own as u64 {
        Err(Trouble::Bad(ScriptCause::BadLink))
    } else {
        Ok(lower)
    }
}

// A binding of an earlier stack, which is a mux protocol's.
fn mux_binding(before: &[StackSetup], lower: u64, binding: u64) -> Result<u64, Trouble>
    requires { lower < length before.now }
    ensures { Gives result (mux_at before.now lower binding) }
{
    match before[lower as usize]
        .bindings
        .items()
        .get(binding as usize)
    {
        None => Err(Trouble::Bad(ScriptCause::Range)),
        Some((ProtocolKind::Mux, _)) => Ok(binding),
        Some(_) => Err(Trouble::Bad(ScriptCause::BadLink)),
    }
}

fn is_there(stack: &StackSetup, lower: u64, binding: u64, vlan: u64) -> bool
    ensures { result ≡ stands_there lower binding vlan stack.now }
{
    let stands_on = match stack.miniport.link {
        Some((stack, mux)) => u64::from(stack) == lower && u64::from(mux) == binding,
        None => false,
    };
    let has_vlan = match stack.miniport.port.vlan {
        Some(other) => u64::from(other) == vlan,
        None => false,
    };
    stands_on && has_vlan
}

fn unused_vlan(before: &[StackSetup], lower: u64, binding: u64, vlan: u64) -> Result<u64, Trouble>
    ensures { Gives result (free_vlan before.now lower binding vlan) }
{
    for stack in before {
        if is_there(stack, lower, binding, vlan) {
            return Err(Trouble::Bad(ScriptCause::BadLink));
        }
    }
    Ok(vlan)
}

fn link_of(count: usize, before: &[StackSetup], value: &Value) -> Result<Link, Trouble>
    ensures { Gives result (link_in count before.now (view value.now)) }
{
    let lower = earlier_stack(count, before.len(), number_at(value, "lower", 0, 3)?)?;
    let binding = mux_binding(before, lower, number_at(value, "binding", 0, 7)?)?;
    let vlan = unused_vlan(before, lower, binding, number_at(value, "vlan", 1, 4094)?)?;
    Ok(Link {
        lower: lower as u8,
        binding: binding as u32,
        vlan: vlan as u16,
    })
}

fn miniport_of_kind(
    kind: MiniportKind,
    count: usize,
    before: &[StackSetup],
    value: &Value,
    mut port: PortSetup,
) -> Result<MiniportSetup, Trouble>
    requires { port.vlan ≡ None }
    ensures { Gives result (miniport_of kind count before.now (view value.now) port.address port.ring port.pool) }
{
    match kind {
        MiniportKind::Ring | MiniportKind::Loop => Ok(MiniportSetup {
            kind,
            port,
            link: None,
        }),
        MiniportKind::Virtual => {
            let link = link_of(count, before, value)?;
            port.vlan = Some(link.vlan);
            Ok(MiniportSetup {
                kind,
                port,
                link: Some((link.lower, link.binding)),
            })
        }
    }
}

fn port_of_miniport(
    alloc: Global,
    count: usize,
    before: &[StackSetup],
    value: &Value,
) -> Result<MiniportSetup, Trouble>
    ensures { Gives result (miniport_in count before.now (view value.now)) }
{
    let kind = miniport_kind_of(member_of(value, "kind")?)?;
    check_miniport_members(value, kind)?;
    let address = address_at(alloc, value, "address")?;
    let ring = number_at(value, "ring", 1, 256)? as usize;
    let pool = number_at(value, "pool", 1, 256)? as usize;
    let port = PortSetup {
        address,
        ring,
        pool,
        vlan: None,
    };
    miniport_of_kind(kind, count, before, value, port)
}

fn binding_of(value: &Value) -> Result<(ProtocolKind, usize), Trouble>
    ensures { Gives result (binding_in (view value.now)) }
{
    check_members(value, &["kind", "pool"], &[])?;
    let kind = protocol_kind_of(member_of(value, "kind")?)?;
    let pool = number_at(value, "pool", 1, 256)? as usize;
    Ok((kind, pool))
}

fn each_binding(alloc: Global, items: &[Value]) -> Result<BindingSetups, Trouble>
    ensures { Gives result (read_all (λ earlier. binding_in) [] (map view items.now)) }
{
    let mut bindings = Vec::new(alloc);
    for item in items {
        bindings.push(binding_of(item)?)?;
    }
    Ok(BindingSetups::of(bindings))
}

/// A stack of a script of so many, behind those before it.
pub fn stack_of(
    alloc: Global,
    count: usize,
    before: &[StackSetup],
    value: &Value,
) -> Result<StackSetup, Trouble>
    ensures { Gives result (stack_in count before.now (view value.now)) }
{
    check_members(value, &["miniport", "bindings", "filters"], &[])?;
    let miniport = port_of_miniport(alloc, count, before, member_of(value, "miniport")?)?;
    let bindings = each_binding(alloc, items_at(value, "bindings", 1, 8)?)?;
    let filters = each_filter(alloc, items_at(value, "filters", 0, 16)?)?;
    Ok(StackSetup {
        miniport,
        bindings,
        filters,
    })
}
