//! What a virtual miniport was sent goes down tagged, and what a mux binding got with a tag of one of its
//! VLANs goes up without it.
ghost use Rattle.std.specs.Prelude.{◌≡◌, ◌∷◌, [], not, IfOk, None, option_copied, find, map};
ghost use Rattle.ndis_base.specs.declared.ModuleId.TheVariants.{Binding};
ghost use Rattle.ndis_base.specs.declared.Direction.TheVariants as direction;
ghost use Rattle.journal_types.specs.declared.Reply.TheVariants as reply;
ghost use Rattle.stack_rules.specs.Outcome.{cross_no, root};
ghost use Rattle.stack_rules.specs.Receives.{indicated};
ghost use Rattle.stack_rules.specs.Tests.{is_mux};
ghost use Rattle.std.specs.List.{list_any};
ghost use Rattle.program_types.specs.Apply.{pushed};
ghost use Rattle.journal_types.specs.declared.Row.TheVariants as row;
ghost use Rattle.journal_types.specs.declared.Way.TheVariants as crossing;
ghost use Rattle.stack_rules.specs.Heads.{kind_of_binding};
ghost use Rattle.stack_rules.specs.Messages.{is_for};
ghost use Rattle.stack_rules.specs.Net.{lists};
ghost use Rattle.stack_rules.specs.Places.{is_crossed};
ghost use Rattle.stack_rules.specs.Crosses.{take_of, take_outcome, is_link_from, lowest_mux, binding_of_link, mux_binding_for, is_too_long_tagged, put_rows, put_outcome, is_in_message, done_of, done_outcome, take_up_of, take_up_outcome, put_up_outcome};

use journal_types::{Frames, OutWay, Refusal, Reply, Row, StackHead, Way};
use ndis_base::{
    CrossNo, Direction, Frame, ListNo, ListStatus, ModuleId, ModuleState, OutOfMemory,
};
use plain_net::PlainNet;
use plain_parts::copies::copy_frames;
use plain_parts::rows::{one_row, row_before, two_rows};
use plain_parts::same::{is_mux, is_running_phase, is_virtual};
use plain_places::PlainOutcome;
use plain_places::lists::{binding_numbers, is_full, kept_lists};
use plain_places::outcome::{MAX_FRAME, answered, refused, root};
use plain_places::places::{is_crossed, position};
use plain_places::targets::{homeward, onward};
use plain_ports::messages::{is_for, kind_of_binding};
use plain_programs::bytes::pushed;
use plain_receives::receives::indicated;
use stack_rules::{LiveList, Message, Thing};
use std::alloc::Global;

fn first_not_crossed(kept: &[LiveList]) -> Option<&LiveList>
    ensures { option_copied result ≡ find (λ l. not (is_crossed l.crossed)) kept.now }
{
    for l in kept {
        if !is_crossed(l.crossed) {
            return Some(l);
        }
    }
    None
}

fn out_row(
    alloc: Global,
    message: u64,
    way: OutWay,
    frames: &Frames,
) -> Result<Vec<Row>, OutOfMemory>
    ensures { IfOk result (λ rows. rows.items ≡ row.CrossOut (cross_no message) way frames.now ∷ []) }
{
    one_row(
        alloc,
        Row::CrossOut {
            message: CrossNo(message),
            way,
            frames: copy_frames(alloc, frames)?,
        },
    )
}

fn taken(alloc: Global, message: u64, frames: &Frames) -> Result<Reply, OutOfMemory>
    ensures { IfOk result (λ made. made ≡ reply.Taken (cross_no message) frames.now) }
{
    Ok(Reply::Taken {
        message: CrossNo(message),
        frames: copy_frames(alloc, frames)?,
    })
}

fn take_of(alloc: Global, net: &PlainNet, l: Option<&LiveList>) -> Result<PlainOutcome, OutOfMemory>
    ensures { IfOk result (λ o. o ≡ take_of net.now (option_copied l.entry)) }
{
    match l {
        None => Ok(answered(alloc, Reply::Nothing)),
        Some(l) => {
            let message = net.next().message();
            let rows = out_row(alloc, message, OutWay::Down(l.list), &l.frames)?;
            Ok(PlainOutcome::of(taken(alloc, message, &l.frames)?, rows))
        }
    }
}

/// A virtual miniport's oldest list that isn't with the other stack is taken in a message.
pub fn take_outcome(alloc: Global, net: &PlainNet) -> Result<PlainOutcome, OutOfMemory>
    ensures { IfOk result (λ o. o ≡ take_outcome net.now) }
{
    if is_virtual(net.head().kind) {
        let kept = kept_lists(alloc, net, ModuleId::Miniport)?;
        take_of(alloc, net, first_not_crossed(kept.as_slice()))
    } else {
        take_of(alloc, net, None)
    }
}

fn first_mux(head: &StackHead, bindings: &[u32]) -> Option<u32>
    ensures { result ≡ find (λ b. is_mux (kind_of_binding head.now b)) bindings.now }
{
    match bindings {
        [] => None,
        [b, others @ ..] => {
            if is_mux(kind_of_binding(head, *b)) {
                Some(*b)
            } else {
                first_mux(head, others)
            }
        }
    }
}

fn lowest_mux(alloc: Global, head: &StackHead) -> Result<u32, OutOfMemory>
    ensures { IfOk result (λ b. b ≡ lowest_mux head.now) }
{
    let bindings = binding_numbers(alloc, head)?;
    match first_mux(head, bindings.as_slice()) {
        None => Ok(0),
        Some(b) => Ok(b),
    }
}

fn link_from(stack: u8, links: &[(u8, u32, u16)]) -> Option<&(u8, u32, u16)>
    ensures { option_copied result ≡ find (is_link_from stack) links.now }
{
    for link in links {
        if link.0 == stack {
            return Some(link);
        }
    }
    None
}

fn binding_of_link(
    alloc: Global,
    head: &StackHead,
    link: Option<&(u8, u32, u16)>,
) -> Result<u32, OutOfMemory>
    ensures { IfOk result (λ b. b ≡ binding_of_link head.now (option_copied link.entry)) }
{
    match link {
        None => lowest_mux(alloc, head),
        Some(link) => Ok(link.1),
    }
}

/// The mux binding that a virtual miniport stands on, else the lowest one.
fn mux_binding_for(alloc: Global, head: &StackHead, stack: u8) -> Result<u32, OutOfMemory>
    ensures { IfOk result (λ b. b ≡ mux_binding_for head.now stack) }
{
    binding_of_link(alloc, head, link_from(stack, head.uppers.items()))
}

fn any_grows_too_long(head: &StackHead, frames: &[Frame]) -> bool
    ensures { result ≡ list_any (is_too_long_tagged head.now) frames.now }
{
    for frame in frames {
        if MAX_FRAME < frame.bytes().len() + 4 {
            return true;
        }
    }
    false
}

fn frames_pushed(alloc: Global, vlan: u16, frames: &[Frame]) -> Result<Vec<Frame>, OutOfMemory>
    ensures { IfOk result (λ made. made.items ≡ map (pushed vlan) frames.now) }
{
    match frames {
        [] => Ok(Vec::new(alloc)),
        [frame, others @ ..] => {
            let mut made = frames_pushed(alloc, vlan, others)?;
            made.insert(0, pushed(alloc, vlan, frame.bytes())?)?;
            Ok(made)
        }
    }
}

fn in_row(
    alloc: Global,
    stack: u8,
    message: CrossNo,
    way: Way,
    frames: &Frames,
) -> Result<Row, OutOfMemory>
    ensures { IfOk result (λ made. made ≡ row.CrossIn stack message way frames.now) }
{
    Ok(Row::CrossIn {
        stack,
        message,
        way,
        frames: copy_frames(alloc, frames)?,
    })
}

fn put_root(
    alloc: Global,
    net: &PlainNet,
    binding: u32,
    vlan: u16,
    frames: &Frames,
) -> Result<Row, OutOfMemory>
    ensures { IfOk result (λ made. made ≡ root net.now net.now.next.list (Binding binding) direction.Down None (map (pushed vlan) frames.now)) }
{
    let tagged = Frames::of(frames_pushed(alloc, vlan, frames.items())?);
    root(
        alloc,
        net,
        net.next().list(),
        ModuleId::Binding(binding),
        Direction::Down,
        None,
        &tagged,
    )
}

fn put_rows(
    alloc: Global,
    net: &PlainNet,
    binding: u32,
    stack: u8,
    message: CrossNo,
    vlan: u16,
    frames: &Frames,
) -> Result<Vec<Row>, OutOfMemory>
    requires { binding ≡ mux_binding_for net.now.head stack }
    ensures { IfOk result (λ rows. rows.items ≡ put_rows net.now stack message vlan frames.now) }
{
    let put = in_row(alloc, stack, message, Way::Down, frames)?;
    let issue = put_root(alloc, net, binding, vlan, frames)?;
    let pass = onward(
        alloc,
        net.modules(),
        ListNo(net.next().list()),
        Direction::Down,
        0,
    )?;
    row_before(put, two_rows(alloc, issue, pass)?)
}

fn put_at(
    alloc: Global,
    net: &PlainNet,
    binding: u32,
    stack: u8,
    message: CrossNo,
    vlan: u16,
    frames: &Frames,
) -> Result<PlainOutcome, OutOfMemory>
    requires { binding ≡ mux_binding_for net.now.head stack }
    ensures { IfOk result (λ o. o ≡ put_outcome net.now stack message vlan frames.now) }
{
    if !is_running_phase(net.phase()) {
        return Ok(refused(alloc, Refusal::Paused { phase: net.phase() }));
    }
    if any_grows_too_long(net.head(), frames.items()) {
        return Ok(refused(alloc, Refusal::TooLong));
    }
    if is_full(net, ModuleId::Binding(binding)) {
        return Ok(refused(alloc, Refusal::NoList));
    }
    let rows = put_rows(alloc, net, binding, stack, message, vlan, frames)?;
    Ok(PlainOutcome::of(
        Reply::Crossed {
            list: ListNo(net.next().list()),
        },
        rows,
    ))
}

/// A mux binding sends the frames of a message from above, tagged.
pub fn put_outcome(
    alloc: Global,
    net: &PlainNet,
    stack: u8,
    message: CrossNo,
    vlan: u16,
    frames: &Frames,
) -> Result<PlainOutcome, OutOfMemory>
    ensures { IfOk result (λ o. o ≡ put_outcome net.now stack message vlan frames.now) }
{
    let binding = mux_binding_for(alloc, net.head(), stack)?;
    put_at(alloc, net, binding, stack, message, vlan, frames)
}

fn is_in_message(n: u64, crossed: Option<CrossNo>) -> bool
    ensures { result ≡ is_in_message n crossed }
{
    match crossed {
        None => false,
        Some(message) => message.0 == n,
    }
}

fn list_in_message(n: u64, things: &[Thing]) -> Option<&LiveList>
    ensures { option_copied result ≡ find (λ l. is_in_message n l.crossed) (lists things.now) }
{
    for t in things {
        if let Thing::List(l) = t {
            if is_in_message(n, l.crossed) {
                return Some(l);
            }
        }
    }
    None
}

fn done_of(
    alloc: Global,
    net: &PlainNet,
    status: ListStatus,
    l: Option<&LiveList>,
) -> Result<PlainOutcome, OutOfMemory>
    ensures { IfOk result (λ o. o ≡ done_of net.now status (option_copied l.entry)) }
{
    match l {
        None => Ok(refused(alloc, Refusal::NotTaken)),
        Some(l) => {
            let ms = net.modules();
            let at = position(ms.order(), ModuleId::Miniport);
            let rows = one_row(alloc, homeward(alloc, ms, l, at, status)?)?;
            Ok(PlainOutcome::of(Reply::Ok, rows))
        }
    }
}

/// The list that was taken in a message is done.
pub fn done_outcome(
    alloc: Global,
    net: &PlainNet,
    message: CrossNo,
    status: ListStatus,
) -> Result<PlainOutcome, OutOfMemory>
    ensures { IfOk result (λ o. o ≡ done_outcome net.now message status) }
{
    done_of(alloc, net, status, list_in_message(message.0, net.things()))
}

fn oldest_for(binding: u32, vlan: u16, messages: &[Message]) -> Option<&Message>
    ensures { option_copied result ≡ find (is_for binding vlan) messages.now }
{
    for m in messages {
        if is_for(binding, vlan, m) {
            return Some(m);
        }
    }
    None
}

fn take_up_of(
    alloc: Global,
    net: &PlainNet,
    m: Option<&Message>,
) -> Result<PlainOutcome, OutOfMemory>
    ensures { IfOk result (λ o. o ≡ take_up_of net.now (option_copied m.entry)) }
{
    match m {
        None => Ok(answered(alloc, Reply::Nothing)),
        Some(m) => {
            let message = net.next().message();
            let rows = out_row(alloc, message, OutWay::Up, &m.frames)?;
            Ok(PlainOutcome::of(taken(alloc, message, &m.frames)?, rows))
        }
    }
}

/// The oldest message of a VLAN is taken.
pub fn take_up_outcome(
    alloc: Global,
    net: &PlainNet,
    binding: u32,
    vlan: u16,
) -> Result<PlainOutcome, OutOfMemory>
    ensures { IfOk result (λ o. o ≡ take_up_outcome net.now binding vlan) }
{
    take_up_of(alloc, net, oldest_for(binding, vlan, net.messages()))
}

fn put_up_rows(
    alloc: Global,
    net: &PlainNet,
    stack: u8,
    message: CrossNo,
    frames: &Frames,
) -> Result<Vec<Row>, OutOfMemory>
    ensures { IfOk result (λ rows. rows.items ≡ row.CrossIn stack message crossing.Up frames.now ∷ indicated net.now frames.now) }
{
    row_before(
        in_row(alloc, stack, message, Way::Up, frames)?,
        indicated(alloc, net, frames)?,
    )
}

/// A virtual miniport indicates the frames of a message from below.
pub fn put_up_outcome(
    alloc: Global,
    net: &PlainNet,
    stack: u8,
    message: CrossNo,
    frames: &Frames,
) -> Result<PlainOutcome, OutOfMemory>
    ensures { IfOk result (λ o. o ≡ put_up_outcome net.now stack message frames.now) }
{
    if !matches!(net.modules().miniport(), ModuleState::Running) {
        return Ok(refused(alloc, Refusal::NotRunning));
    }
    if is_full(net, ModuleId::Miniport) {
        return Ok(refused(alloc, Refusal::NoList));
    }
    let rows = put_up_rows(alloc, net, stack, message, frames)?;
    Ok(PlainOutcome::of(
        Reply::Indicated {
            list: ListNo(net.next().list()),
        },
        rows,
    ))
}
