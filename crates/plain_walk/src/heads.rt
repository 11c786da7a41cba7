//! The heads of the journals of a script's stacks.
ghost use Rattle.std.specs.Prelude.{◌≡◌, ◌+◌, IfOk};
ghost use Rattle.plain_walk.specs.Heads.{upper_by, upper_of, with_upper, uppers_from, head_of};

use journal_types::{BindingSetups, StackHead, UpperLinks};
use ndis_base::OutOfMemory;
use script_types::{MiniportSetup, StackSetup};
use std::alloc::Global;

fn upper_by(
    number: u8,
    upper: u8,
    link: Option<(u8, u32)>,
    vlan: Option<u16>,
) -> Option<(u8, u32, u16)>
    ensures { result ≡ upper_by number upper link vlan }
{
    match link {
        None => None,
        Some(link) => match vlan {
            None => None,
            Some(vlan) => {
                if link.0 == number {
                    Some((upper, link.1, vlan))
                } else {
                    None
                }
            }
        },
    }
}

// The virtual miniport as the stack of this number sees it, where it stands on it.
fn upper_of(number: u8, upper: u8, miniport: &MiniportSetup) -> Option<(u8, u32, u16)>
    ensures { result ≡ upper_of number upper miniport.now }
{
    upper_by(number, upper, miniport.link, miniport.port.vlan)
}

fn with_upper(
    upper: Option<(u8, u32, u16)>,
    uppers: Vec<(u8, u32, u16)>,
) -> Result<Vec<(u8, u32, u16)>, OutOfMemory>
    ensures { IfOk result (λ all. all.items ≡ with_upper upper uppers.items) }
{
    match upper {
        None => Ok(uppers),
        Some(upper) => {
            let mut all = uppers;
            all.insert(0, upper)?;
            Ok(all)
        }
    }
}

// The number of the next stack. One past the greatest counts as want of memory.
fn next_stack(number: u8) -> Result<u8, OutOfMemory>
    ensures { IfOk result (λ next. next ≡ number + 1) }
{
    if number < u8::MAX {
        Ok(number + 1)
    } else {
        Err(OutOfMemory)
    }
}

fn uppers_from(
    alloc: Global,
    number: u8,
    upper: u8,
    stacks: &[StackSetup],
) -> Result<Vec<(u8, u32, u16)>, OutOfMemory>
    ensures { IfOk result (λ uppers. uppers.items ≡ uppers_from number upper stacks.now) }
{
    match stacks {
        [] => Ok(Vec::new(alloc)),
        [stack, others @ ..] => {
            let uppers = uppers_from(alloc, number, next_stack(upper)?, others)?;
            with_upper(upper_of(number, upper, &stack.miniport), uppers)
        }
    }
}

fn copy_bindings(alloc: Global, bindings: &BindingSetups) -> Result<BindingSetups, OutOfMemory>
    ensures { IfOk result (λ copy. copy ≡ bindings.now) }
{
    Ok(BindingSetups::of(Vec::from_slice(alloc, bindings.items())?))
}

/// The head of the stack of this number among the stacks of a script.
pub fn head_of(
    alloc: Global,
    number: u8,
    stack: &StackSetup,
    stacks: &[StackSetup],
) -> Result<StackHead, OutOfMemory>
    ensures { IfOk result (λ head. head ≡ head_of number stack.now stacks.now) }
{
    Ok(StackHead {
        stack: number,
        kind: stack.miniport.kind,
        port: stack.miniport.port,
        link: stack.miniport.link,
        bindings: copy_bindings(alloc, &stack.bindings)?,
        uppers: UpperLinks::of(uppers_from(alloc, number, 0, stacks)?),
    })
}
