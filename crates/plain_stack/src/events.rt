//! What an event answers and writes.
ghost use Rattle.std.specs.Prelude.{◌≡◌, IfOk};
ghost use Rattle.stack_rules.specs.Sound.{outcome};

use journal_types::Event;
use ndis_base::OutOfMemory;
use plain_crosses::crosses::{
    done_outcome, put_outcome, put_up_outcome, take_outcome, take_up_outcome,
};
use plain_net::PlainNet;
use plain_oids::requests::ask_outcome;
use plain_oids::statuses::status_outcome;
use plain_phases::pauses::{
    begin_outcome, halt_outcome, initialize_outcome, pause_outcome, restart_outcome,
};
use plain_places::PlainOutcome;
use plain_pumps::cancels::cancel_outcome;
use plain_pumps::drains::drain_outcome;
use plain_pumps::pumps::pump_outcome;
use plain_receives::receives::{give_back_outcome, indicate_outcome, lend_outcome};
use plain_rewires::rewires::{insert_outcome, remove_outcome, replace_outcome};
use plain_sends::sends::{send_outcome, transmit_outcome};
use stack_rules::Choice;
use std::alloc::Global;

/// What an event answers and writes after a journal, as the drivers choose.
pub fn outcome_of(
    alloc: Global,
    net: &PlainNet,
    event: &Event,
    choice: Choice,
) -> Result<PlainOutcome, OutOfMemory>
    ensures { IfOk result (λ o. o ≡ outcome net.now event.now choice) }
{
    match event {
        Event::Initialize => initialize_outcome(alloc, net, choice.refuses),
        Event::Insert { position, .. } => insert_outcome(alloc, net, *position, choice),
        Event::Remove { filter } => remove_outcome(alloc, net, *filter),
        Event::Replace { filter, .. } => replace_outcome(alloc, net, *filter, choice),
        Event::Send {
            binding,
            cancel,
            frames,
        } => send_outcome(alloc, net, *binding, *cancel, frames),
        Event::Indicate { frames } => indicate_outcome(alloc, net, frames),
        Event::Lend { frames } => lend_outcome(alloc, net, frames),
        Event::GiveBack { binding, list } => give_back_outcome(alloc, net, *binding, *list),
        Event::Cancel { id } => cancel_outcome(alloc, net, *id),
        Event::Ask {
            binding,
            kind,
            code,
            value,
        } => ask_outcome(alloc, net, *binding, *kind, *code, value),
        Event::Status { name } => status_outcome(alloc, net, *name),
        Event::Transmit => transmit_outcome(alloc, net),
        Event::Pump => pump_outcome(alloc, net, choice.keeps),
        Event::Drain => drain_outcome(alloc, net, choice.keeps),
        Event::BeginPause => begin_outcome(alloc, net),
        Event::PauseNext => pause_outcome(alloc, net),
        Event::RestartNext => restart_outcome(alloc, net),
        Event::Halt => halt_outcome(alloc, net),
        Event::CrossTake => take_outcome(alloc, net),
        Event::CrossPut {
            stack,
            message,
            vlan,
            frames,
        } => put_outcome(alloc, net, *stack, *message, *vlan, frames),
        Event::CrossDone { message, status } => done_outcome(alloc, net, *message, *status),
        Event::CrossTakeUp { binding, vlan } => take_up_outcome(alloc, net, *binding, *vlan),
        Event::CrossPutUp {
            stack,
            message,
            frames,
        } => put_up_outcome(alloc, net, *stack, *message, frames),
    }
}
