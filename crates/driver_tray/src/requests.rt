//! OID requests (WDK, "OID Request Serialization", "Filter Module OID Requests").
ghost use Rattle.std.specs.Prelude.{◌≡◌, ◌≤◌, ◌<◌, ◌^◌, Some, None, length, filter, not};
ghost use Rattle.agenda_items.specs.Views.{carries_answer};
ghost use Rattle.journal_types.specs.declared.Row.TheVariants as row;
ghost use Rattle.flat_journal.specs.Payloads.{value_at};
ghost use Rattle.flat_journal.specs.Within.{ValueWithin};
ghost use Rattle.stack_rules.specs.Net.{request_of};
ghost use Rattle.stack_rules.specs.Outcome.{oid_no};
ghost use Rattle.stack_rules.specs.Requests.{next_giving};
ghost use Rattle.driver_tray.specs.Tray.{first_answer, valued, request_issued, asked, forwarded, request_given, completed, queue_after_answer, slack_after_answer, written};

use crate::tray::Tray;
use agenda_items::{Carried, enqueue_answer, take_answer};
use flat_journal::{FlatRow, ValueNo};
use ndis_base::{ModuleId, OidKind, OidNo, OidStatus, OidValue};
use stack_ledger::Giving;
use stack_ledger::giving::copy_request;
use stack_rules::{Answered, Request};

fn copy_answer(answer: &Answered) -> Answered
    ensures { result ≡ answer.now }
{
    Answered {
        request: answer.request,
        parent: answer.parent,
        status: answer.status,
        value: answer.value.copy(),
    }
}

impl Tray {
    /// The number of the request that is issued next.
    pub fn next_request(&self) -> OidNo
        ensures { result ≡ oid_no self.now.net.next.request }
    {
        self.ledger.next_request()
    }

    /// The request that a pump works where nothing is on its way.
    pub fn next_giving(&self) -> Option<Giving>
        ensures { result ≡ next_giving self.now.net }
    {
        self.ledger.next_giving()
    }

    /// A copy of the request of a number.
    pub fn request_of(&self, n: u64) -> Option<Request>
        ensures { result ≡ request_of n self.now.net.requests }
    {
        match self.ledger.request_of(n) {
            None => None,
            Some(request) => Some(copy_request(request)),
        }
    }

    /// A copy of the first thing on its way, where it is an answer.
    pub fn first_answer(&self) -> Option<Answered>
        ensures { result ≡ first_answer self.now.queue }
    {
        match self.queue.front() {
            Some(Carried::Answer(answer)) => Some(copy_answer(answer)),
            _ => None,
        }
    }

    fn hold_value(&mut self, value: &OidValue) -> ValueNo
        requires frame_room { 1 ≤ self.old.room.frames }
        requires byte_room { length value.now ≤ self.old.room.bytes }
        ensures tray { self.new ≡ valued self.old value.now }
        ensures within { ValueWithin self.new.payloads result }
        ensures shown { value_at self.new.payloads.frames result ≡ value.now }
    {
        self.journal.push_value(value.bytes())
    }

    fn write_issued(
        &mut self,
        parent: Option<OidNo>,
        binding: u32,
        kind: OidKind,
        code: u32,
        value: &OidValue,
        held: ValueNo,
    )
        requires within { ValueWithin self.old.payloads held }
        requires shown { value_at self.old.payloads.frames held ≡ value.now }
        requires low { self.old.net.next.request < 2 ^ 60 }
        requires room { 1 ≤ self.old.room.rows }
        requires slack { 1 ≤ self.old.slack }
        ensures { self.new ≡ request_issued self.old (row.OidIssue (oid_no self.old.net.next.request) parent binding kind code value.now) }
    {
        let request = self.ledger.next_request();
        self.journal.write_row(FlatRow::OidIssue {
            request,
            parent,
            binding,
            kind,
            code,
            value: held,
        });
        self.ledger
            .oid_issue(request, parent, binding, kind, code, value);
        self.slack -= 1;
    }

    /// A binding issues a request whose value the journal has.
    pub fn ask(&mut self, binding: u32, kind: OidKind, code: u32, value: &OidValue, held: ValueNo)
        requires within { ValueWithin self.old.payloads held }
        requires shown { value_at self.old.payloads.frames held ≡ value.now }
        requires low { self.old.net.next.request < 2 ^ 60 }
        requires room { 1 ≤ self.old.room.rows }
        requires slack { 1 ≤ self.old.slack }
        ensures { self.new ≡ asked self.old binding kind code value.now }
    {
        self.write_issued(None, binding, kind, code, value, held);
    }

    /// A filter forwards a request by a clone.
    pub fn forward_clone(&mut self, request: &Request)
        requires low { self.old.net.next.request < 2 ^ 60 }
        requires frame_room { 1 ≤ self.old.room.frames }
        requires byte_room { length request.now.value ≤ self.old.room.bytes }
        requires room { 1 ≤ self.old.room.rows }
        requires slack { 1 ≤ self.old.slack }
        ensures { self.new ≡ forwarded self.old request.now }
    {
        let held = self.hold_value(&request.value);
        self.write_issued(
            Some(request.request),
            request.binding,
            request.kind,
            request.code,
            &request.value,
            held,
        );
    }

    /// Gives a request to a module.
    pub fn give_request(&mut self, request: OidNo, to: ModuleId)
        requires { 1 ≤ self.old.room.rows }
        ensures { self.new ≡ request_given self.old request to }
    {
        self.journal.write_row(FlatRow::OidGive {
            request,
            module: to,
        });
        self.ledger.oid_give(request, to);
    }

    fn write_done(&mut self, request: OidNo, status: OidStatus, held: ValueNo)
        requires within { ValueWithin self.old.payloads held }
        requires room { 1 ≤ self.old.room.rows }
        ensures { self.new ≡ written self.old (row.OidDone request status (value_at self.old.payloads.frames held)) }
    {
        self.journal.write_row(FlatRow::OidDone {
            request,
            status,
            value: held,
        });
        self.ledger.oid_done(request, status);
    }

    fn take_answer(&mut self, request: OidNo)
        ensures { self.new ≡ record self.old { queue = filter (λ c. not (carries_answer request.0 c)) self.old.queue } }
    {
        take_answer(&mut self.queue, request);
    }

    fn put_answer(
        &mut self,
        parent: Option<OidNo>,
        request: OidNo,
        status: OidStatus,
        value: &OidValue,
    )
        requires { 1 ≤ self.old.slack }
        ensures { self.new ≡ record self.old { queue = queue_after_answer parent request status value.now self.old.queue; slack = slack_after_answer parent self.old.slack } }
    {
        if let Some(parent) = parent {
            enqueue_answer(
                &mut self.queue,
                Answered {
                    request,
                    parent,
                    status,
                    value: value.copy(),
                },
            );
            self.slack -= 1;
        }
    }

    /// Completes a request. Where it was a clone, its answer is behind what is on its way. The answer that
    /// completes it, where there was one, is no longer on its way.
    pub fn complete(&mut self, request: OidNo, status: OidStatus, value: &OidValue)
        requires frame_room { 1 ≤ self.old.room.frames }
        requires byte_room { length value.now ≤ self.old.room.bytes }
        requires room { 1 ≤ self.old.room.rows }
        requires slack { 1 ≤ self.old.slack }
        ensures { self.new ≡ completed self.old request status value.now }
    {
        let asked = self.request_of(request.0);
        let held = self.hold_value(value);
        self.write_done(request, status, held);
        if let Some(asked) = asked {
            self.take_answer(request);
            self.put_answer(asked.parent, request, status, value);
        }
    }
}
