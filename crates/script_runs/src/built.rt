//! Which scripts can be run.
ghost use Rattle.std.specs.Prelude.{◌≡◌, ◌^◌, IfOk, nat_le};
ghost use Rattle.std.specs.List.{list_all};
ghost use Rattle.stack_rules.specs.Conditions.{is_between, is_cancel, is_identifier, is_frame, are_frames, is_fine_test, is_program, is_setup};
ghost use Rattle.journal_types.specs.declared.StackHead.{StackHead};
ghost use Rattle.script_events.specs.Events.{event_of};
ghost use Rattle.lane_orders.specs.Orders.{is_below};
ghost use Rattle.book_scripts.specs.Scripts.{is_asked_call, is_asked_event, is_fine};
ghost use Rattle.script_runs.specs.Built as form;

use journal_types::{BindingSetups, Setup, StackHead, UpperLinks};
use ndis_base::{Frame, ListNo, MiniportKind, OutOfMemory, ProtocolKind};
use program_types::{Rule, Test};
use script_types::{Call, CallKind, FilterSetup, Script, StackSetup};
use std::alloc::Global;

/// Whether a script can be run: one stack of an adapter with a ring, of 1 to 8 protocols that
/// log, retain or echo, and of at most 16 filters; and calls of the script's lanes that send, indicate, lend,
/// give back, cancel, tell statuses, ask requests, transmit, pump, drain, pause, restart, or change the filters.
pub fn is_built(script: &Script) -> bool
    ensures { result ≡ form.is_built script.now }
{
    are_below(script.lanes, script.calls.items())
        && match script.stacks.items() {
            [stack] => is_built_stack(stack) && are_asked_calls(stack, script.calls.items()),
            _ => false,
        }
}

fn are_below(lanes: u8, calls: &[Call]) -> bool
    ensures { result ≡ list_all (is_below lanes) calls.now }
{
    calls.iter().all(|call| call.lane.0 < lanes)
}

fn is_built_stack(stack: &StackSetup) -> bool
    ensures { result ≡ form.is_built_stack stack.now }
{
    let bindings = stack.bindings.items();
    let filters = stack.filters.items();
    is_built_miniport(stack.miniport.kind)
        && (1..=8).contains(&bindings.len())
        && are_built_bindings(bindings)
        && filters.len() <= 16
        && are_built_filters(filters)
}

fn is_built_miniport(kind: MiniportKind) -> bool
    ensures { result ≡ form.is_built_miniport kind }
{
    !matches!(kind, MiniportKind::Virtual)
}

fn are_built_bindings(bindings: &[(ProtocolKind, usize)]) -> bool
    ensures { result ≡ list_all form.is_built_binding bindings.now }
{
    match bindings {
        [first, rest @ ..] => { !matches!(first.0, ProtocolKind::Mux) && are_built_bindings(rest) }
        [] => true,
    }
}

fn are_built_filters(filters: &[FilterSetup]) -> bool
    ensures { result ≡ list_all is_fine filters.now }
{
    match filters {
        [first, rest @ ..] => is_setup(&first.setup) && are_built_filters(rest),
        [] => true,
    }
}

fn is_setup(setup: &Setup) -> bool
    ensures { result ≡ is_setup setup.now }
{
    (1..=256).contains(&setup.pool)
        && is_program(setup.send.rules())
        && is_program(setup.receive.rules())
}

fn is_program(rules: &[Rule]) -> bool
    ensures { result ≡ is_program rules.now }
{
    rules.len() <= 16 && are_fine(rules)
}

fn are_fine(rules: &[Rule]) -> bool
    ensures { result ≡ list_all (λ r. is_fine_test r.test) rules.now }
{
    match rules {
        [first, rest @ ..] => is_fine_test(first.test) && are_fine(rest),
        [] => true,
    }
}

fn is_fine_test(test: Test) -> bool
    ensures { result ≡ is_fine_test test }
{
    match test {
        Test::Vlan(n) => n < 4096,
        _ => true,
    }
}

fn are_asked_calls(stack: &StackSetup, calls: &[Call]) -> bool
    ensures { result ≡ list_all (is_asked_call (form.head_of stack.now)) calls.now }
{
    calls.iter().all(|call| is_asked_call(stack, call))
}

fn is_asked_call(stack: &StackSetup, call: &Call) -> bool
    ensures { result ≡ is_asked_call (form.head_of stack.now) call.now }
{
    call.stack == 0 && is_asked_kind(stack, &call.kind)
}

fn is_asked_kind(stack: &StackSetup, kind: &CallKind) -> bool
    ensures { result ≡ is_asked_event (form.head_of stack.now) (event_of kind.now) }
{
    match kind {
        CallKind::Send {
            binding,
            cancel,
            frames,
        } => {
            (*binding as usize) < stack.bindings.items().len()
                && is_cancel(*cancel)
                && are_frames(frames.items())
        }
        CallKind::Indicate { frames } | CallKind::Lend { frames } => are_frames(frames.items()),
        CallKind::GiveBack { binding, list } => {
            (*binding as usize) < stack.bindings.items().len() && is_list(*list)
        }
        CallKind::Cancel { id } => is_identifier(*id),
        CallKind::Ask { binding, value, .. } => {
            (*binding as usize) < stack.bindings.items().len() && value.bytes().len() <= 8
        }
        CallKind::Insert { setup, .. } => is_setup(setup),
        CallKind::Remove { filter } => is_number(*filter),
        CallKind::Replace { filter, setup, .. } => is_number(*filter) && is_setup(setup),
        CallKind::Status { .. }
        | CallKind::Transmit
        | CallKind::Pump
        | CallKind::Drain
        | CallKind::BeginPause
        | CallKind::PauseNext
        | CallKind::RestartNext => true,
        _ => false,
    }
}

fn is_number(filter: u64) -> bool
    ensures { result ≡ nat_le filter 999999999 }
{
    filter <= 999_999_999
}

fn is_list(list: ListNo) -> bool
    ensures { result ≡ is_between 1 (2 ^ 60) list.0 }
{
    (1..=1_152_921_504_606_846_976).contains(&list.0)
}

fn is_identifier(id: u32) -> bool
    ensures { result ≡ is_identifier id }
{
    id >= 1
}

fn is_cancel(cancel: Option<u32>) -> bool
    ensures { result ≡ is_cancel cancel }
{
    match cancel {
        Some(id) => id >= 1,
        None => true,
    }
}

fn are_frames(frames: &[Frame]) -> bool
    ensures { (head : StackHead) → result ≡ are_frames head frames.now }
{
    (1..=8).contains(&frames.len()) && fit(frames)
}

fn fit(frames: &[Frame]) -> bool
    ensures { (head : StackHead) → result ≡ list_all (is_frame head) frames.now }
{
    match frames {
        [first, rest @ ..] => (14..=1518).contains(&first.bytes().len()) && fit(rest),
        [] => true,
    }
}

/// The head of the journal of a script's only stack.
pub fn head_of(alloc: Global, stack: &StackSetup) -> Result<StackHead, OutOfMemory>
    ensures { IfOk result (λ h. h ≡ form.head_of stack.now) }
{
    let bindings = Vec::from_slice(alloc, stack.bindings.items())?;
    Ok(StackHead {
        stack: 0,
        kind: stack.miniport.kind,
        port: stack.miniport.port,
        link: stack.miniport.link,
        bindings: BindingSetups::of(bindings),
        uppers: UpperLinks::of(Vec::new(alloc)),
    })
}
