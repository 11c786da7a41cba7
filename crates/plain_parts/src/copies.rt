//! Copies of what a journal is made of.
ghost use Rattle.std.specs.Prelude.{◌≡◌, IfOk};

use journal_types::{BindingSetups, FilterList, Frames, Setup, StackHead, UpperLinks};
use ndis_base::{Frame, OutOfMemory};
use program_types::Program;
use stack_rules::{LiveList, Request};
use std::alloc::Global;

/// A copy of frames.
pub fn copy_frames(alloc: Global, frames: &Frames) -> Result<Frames, OutOfMemory>
    ensures { IfOk result (λ copy. copy ≡ frames.now) }
{
    let items = frames.items();
    let mut copy = Vec::new(alloc);
    for frame in items {
        copy.push(Frame::make(alloc, frame.bytes())?)?;
    }
    Ok(Frames::of(copy))
}

/// A copy of a frame program.
pub fn copy_program(alloc: Global, program: &Program) -> Result<Program, OutOfMemory>
    ensures { IfOk result (λ copy. copy ≡ program.now) }
{
    Ok(Program::of(Vec::from_slice(alloc, program.rules())?))
}

/// A copy of a filter's setup.
pub fn copy_setup(alloc: Global, setup: &Setup) -> Result<Setup, OutOfMemory>
    ensures { IfOk result (λ copy. copy ≡ setup.now) }
{
    Ok(Setup {
        handlers: setup.handlers,
        pool: setup.pool,
        send: copy_program(alloc, &setup.send)?,
        receive: copy_program(alloc, &setup.receive)?,
    })
}

/// A configuration's filters, from their numbers.
pub fn copy_filters(alloc: Global, filters: &[u64]) -> Result<FilterList, OutOfMemory>
    ensures { IfOk result (λ copy. copy ≡ filters.now) }
{
    Ok(FilterList::of(Vec::from_slice(alloc, filters)?))
}

/// A copy of filters' numbers.
pub fn copy_numbers(alloc: Global, numbers: &[u64]) -> Result<Vec<u64>, OutOfMemory>
    ensures { IfOk result (λ copy. copy.items ≡ numbers.now) }
{
    Ok(Vec::from_slice(alloc, numbers)?)
}

fn copy_bindings(alloc: Global, bindings: &BindingSetups) -> Result<BindingSetups, OutOfMemory>
    ensures { IfOk result (λ copy. copy ≡ bindings.now) }
{
    Ok(BindingSetups::of(Vec::from_slice(alloc, bindings.items())?))
}

fn copy_uppers(alloc: Global, uppers: &UpperLinks) -> Result<UpperLinks, OutOfMemory>
    ensures { IfOk result (λ copy. copy ≡ uppers.now) }
{
    Ok(UpperLinks::of(Vec::from_slice(alloc, uppers.items())?))
}

/// A copy of the fixed part of a stack.
pub fn copy_head(alloc: Global, head: &StackHead) -> Result<StackHead, OutOfMemory>
    ensures { IfOk result (λ copy. copy ≡ head.now) }
{
    Ok(StackHead {
        stack: head.stack,
        kind: head.kind,
        port: head.port,
        link: head.link,
        bindings: copy_bindings(alloc, &head.bindings)?,
        uppers: copy_uppers(alloc, &head.uppers)?,
    })
}

/// A copy of a live list.
pub fn copy_list(alloc: Global, l: &LiveList) -> Result<LiveList, OutOfMemory>
    ensures { IfOk result (λ copy. copy ≡ l.now) }
{
    Ok(LiveList {
        list: l.list,
        owner: l.owner,
        direction: l.direction,
        cancel: l.cancel,
        origin: l.origin,
        frames: copy_frames(alloc, &l.frames)?,
        last: l.last,
        stand: l.stand,
        crossed: l.crossed,
    })
}

/// A copy of a request. It takes no memory.
pub fn copy_request(r: &Request) -> Request
    ensures { result ≡ r.now }
{
    Request {
        request: r.request,
        parent: r.parent,
        binding: r.binding,
        kind: r.kind,
        code: r.code,
        value: r.value.copy(),
        at: r.at,
    }
}
