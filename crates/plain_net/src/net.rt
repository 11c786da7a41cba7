//! The state after a journal.
ghost use Rattle.std.specs.Prelude.{◌≡◌, ◌==◌, not, [], IfOk, OnOk, Some, filter};
ghost use Rattle.journal_types.specs.declared.Row.TheVariants as row;
ghost use Rattle.journal_types.specs.declared.PhaseOf.TheVariants as of;
ghost use Rattle.stack_rules.specs.Outcome.{list_no, config_no};
ghost use Rattle.stack_rules.specs.Port.{port_after_done, port_after_out};
ghost use Rattle.stack_rules.specs.Messages.{messages_after};
ghost use Rattle.stack_rules.specs.Net.{start, after, after_change, had_by, told, with_filter, without, without_status, things_after_done, things_after_out, port_after, request_of};

use journal_types::{
    Event, FilterList, Frames, OutWay, PassWay, PhaseOf, Reply, Row, Setup, StackHead, Target,
};
use ndis_base::{
    ConfigNo, CrossNo, Direction, FilterKind, ListNo, ModuleId, ModuleState, OidKind, OidNo,
    OidStatus, OidValue, Origin, OutOfMemory, Phase, StatusName, StatusNo,
};
use plain_parts::copies::{copy_frames, copy_head, copy_numbers, copy_request, copy_setup};
use plain_ports::messages::{messages_after, without_oldest};
use plain_ports::port::{PlainPort, first_port};
use plain_state::counters::{PlainCounters, first_counters};
use plain_state::modules::{PlainModules, first_modules};
use plain_state::requests::{place_of_request, request_of, requests_given, without_request};
use plain_things::things::{
    kept, passed, things_done, things_had_by, things_taken_by, without, without_status,
};
use stack_rules::{Attached, LiveList, Message, Request, Stand, StatusAway, Thing};
use std::alloc::Global;
use std::marker::Model;
use std::mem;

/// The state of a stack after the turns of its journal so far.
#[derive(Drop)]
pub struct PlainNet {
    alloc: Global,
    head: StackHead,
    phase: Phase,
    modules: PlainModules,
    things: Vec<Thing>,
    requests: Vec<Request>,
    port: PlainPort,
    messages: Vec<Message>,
    next: PlainCounters,
}

impl Model for PlainNet {
    ghost use Rattle.stack_rules.specs.Net.{Net};

    ghost Value = { Net };

    ghost view = { λ n. record { head = n.head; phase = n.phase; modules = n.modules; things = n.things.items; requests = n.requests.items; port = n.port; messages = n.messages.items; next = n.next } };
}

impl PlainNet {
    /// The state before the first turn of a stack.
    pub fn start(alloc: Global, head: &StackHead) -> Result<PlainNet, OutOfMemory>
        ensures { IfOk result (λ net. net ≡ start head.now) }
    {
        let many = head.bindings.items().len();
        Ok(PlainNet {
            alloc,
            head: copy_head(alloc, head)?,
            phase: Phase::Halted,
            modules: first_modules(alloc, many)?,
            things: Vec::new(alloc),
            requests: Vec::new(alloc),
            port: first_port(alloc, many)?,
            messages: Vec::new(alloc),
            next: first_counters(),
        })
    }

    /// The fixed part of the stack.
    pub fn head(&self) -> &StackHead
        ensures { result.now ≡ self.now.head }
    {
        &self.head
    }

    /// The phase of the stack.
    pub fn phase(&self) -> Phase
        ensures { result ≡ self.now.phase }
    {
        self.phase
    }

    /// The modules and the configuration.
    pub fn modules(&self) -> &PlainModules
        ensures { result.now ≡ self.now.modules }
    {
        &self.modules
    }

    /// The lists, statuses and answers that are kept or on their way, in the order of their last row.
    pub fn things(&self) -> &[Thing]
        ensures { result.now ≡ self.now.things }
    {
        self.things.as_slice()
    }

    /// The requests that aren't answered, the oldest first.
    pub fn requests(&self) -> &[Request]
        ensures { result.now ≡ self.now.requests }
    {
        self.requests.as_slice()
    }

    /// What the miniport has counted, and the packet filters.
    pub fn port(&self) -> &PlainPort
        ensures { result.now ≡ self.now.port }
    {
        &self.port
    }

    /// The messages that mux bindings keep, the oldest first.
    pub fn messages(&self) -> &[Message]
        ensures { result.now ≡ self.now.messages }
    {
        self.messages.as_slice()
    }

    /// The numbers that come next.
    pub fn next(&self) -> &PlainCounters
        ensures { result.now ≡ self.now.next }
    {
        &self.next
    }

    fn take_things(&mut self) -> Vec<Thing>
        ensures taken { result.items ≡ self.old.things }
        ensures rest { self.new ≡ record self.old { things = [] } }
    {
        mem::replace(&mut self.things, Vec::new(self.alloc))
    }

    // The state doesn't depend on the row's configuration.
    fn note_issue(
        &mut self,
        list: ListNo,
        owner: ModuleId,
        direction: Direction,
        cancel: Option<u32>,
        origin: Origin,
        frames: &Frames,
    ) -> Result<(), OutOfMemory>
        ensures { OnOk result (self.new ≡ after self.old (row.Issue list owner (config_no 0) direction cancel origin frames.now)) }
    {
        let copy = copy_frames(self.alloc, frames)?;
        self.things.push(Thing::List(LiveList {
            list,
            owner,
            direction,
            cancel,
            origin,
            frames: copy,
            last: owner,
            stand: Stand::Unplaced,
            crossed: None,
        }))?;
        if matches!(owner, ModuleId::Miniport) {
            self.port.count_received(frames.items().len())?;
        }
        self.next.count_list()
    }

    fn note_give(&mut self, list: ListNo, m: ModuleId) -> Result<(), OutOfMemory>
        ensures { OnOk result (self.new ≡ record self.old { things = after_change list.0 (had_by m) self.old.things }) }
    {
        let things = self.take_things();
        self.things = things_had_by(self.alloc, list.0, m, things)?;
        Ok(())
    }

    fn note_pass(&mut self, list: ListNo, way: PassWay, to: Target) -> Result<(), OutOfMemory>
        ensures { OnOk result (self.new ≡ after self.old (row.Pass list way to)) }
    {
        let things = self.take_things();
        self.things = passed(self.alloc, list.0, way, to, things)?;
        Ok(())
    }

    fn note_keep(&mut self, list: ListNo, m: ModuleId) -> Result<(), OutOfMemory>
        ensures { OnOk result (self.new ≡ after self.old (row.Keep list m)) }
    {
        let things = self.take_things();
        self.things = kept(self.alloc, list.0, m, things)?;
        Ok(())
    }

    fn note_home(&mut self, list: ListNo) -> Result<(), OutOfMemory>
        ensures { OnOk result (self.new ≡ record self.old { things = without list.0 self.old.things }) }
    {
        let things = self.take_things();
        self.things = without(self.alloc, list.0, things)?;
        Ok(())
    }

    // The state doesn't depend on the row's list.
    fn note_wire(&mut self, frames: &Frames) -> Result<(), OutOfMemory>
        ensures { OnOk result (self.new ≡ after self.old (row.Wire (list_no 0) frames.now)) }
    {
        self.port.count_sent(frames.items().len())
    }

    fn note_deliver(&mut self, binding: u32, frames: &Frames) -> Result<(), OutOfMemory>
        ensures { OnOk result (self.new ≡ record self.old { messages = messages_after self.old.head binding frames.now self.old.messages }) }
    {
        let messages = mem::replace(&mut self.messages, Vec::new(self.alloc));
        self.messages = messages_after(self.alloc, &self.head, binding, frames, messages)?;
        Ok(())
    }

    fn note_first_port(&mut self, m: ModuleId) -> Result<(), OutOfMemory>
        ensures { OnOk result (self.new ≡ record self.old { port = port_after self.old m }) }
    {
        if matches!(m, ModuleId::Miniport)
            && matches!(self.modules.miniport(), ModuleState::Halted)
        {
            self.port = first_port(self.alloc, self.head.bindings.items().len())?;
        }
        Ok(())
    }

    fn note_state(&mut self, m: ModuleId, s: ModuleState) -> Result<(), OutOfMemory>
        ensures { OnOk result (self.new ≡ after self.old (row.Phase (of.Module m s))) }
    {
        self.note_first_port(m)?;
        self.modules.take_state(m, s)?;
        self.next.count_filter(m, s)
    }

    fn note_phase(&mut self, p: Phase)
        ensures { self.new ≡ after self.old (row.Phase (of.Stack p)) }
    {
        self.phase = p;
        if matches!(p, Phase::Halted) {
            self.messages = Vec::new(self.alloc);
        }
    }

    fn note_config(&mut self, config: ConfigNo, filters: &FilterList) -> Result<(), OutOfMemory>
        ensures { OnOk result (self.new ≡ after self.old (row.Config config filters.now)) }
    {
        let order = copy_numbers(self.alloc, filters.items())?;
        self.modules.take_config(config.0, order);
        Ok(())
    }

    fn note_oid_issue(
        &mut self,
        request: OidNo,
        parent: Option<OidNo>,
        binding: u32,
        kind: OidKind,
        code: u32,
        value: &OidValue,
    ) -> Result<(), OutOfMemory>
        ensures { OnOk result (self.new ≡ after self.old (row.OidIssue request parent binding kind code value.now)) }
    {
        let at = place_of_request(&self.modules, self.requests.as_slice(), parent);
        self.requests.push(Request {
            request,
            parent,
            binding,
            kind,
            code,
            value: value.copy(),
            at,
        })?;
        self.next.count_request()
    }

    fn note_oid_give(&mut self, request: OidNo, m: ModuleId) -> Result<(), OutOfMemory>
        ensures { OnOk result (self.new ≡ after self.old (row.OidGive request m)) }
    {
        let requests = mem::replace(&mut self.requests, Vec::new(self.alloc));
        self.requests = requests_given(self.alloc, request.0, m, requests)?;
        Ok(())
    }

    fn copy_of_request(&self, request: OidNo) -> Option<Request>
        ensures { result ≡ request_of request.0 self.now.requests }
    {
        match request_of(request.0, self.requests.as_slice()) {
            None => None,
            Some(r) => Some(copy_request(r)),
        }
    }

    fn drop_request(&mut self, request: OidNo) -> Result<(), OutOfMemory>
        ensures { OnOk result (self.new ≡ record self.old { requests = filter (λ r. not (r.request.0 == request.0)) self.old.requests }) }
    {
        let requests = mem::replace(&mut self.requests, Vec::new(self.alloc));
        self.requests = without_request(self.alloc, request.0, requests)?;
        Ok(())
    }

    fn complete(
        &mut self,
        r: &Request,
        request: OidNo,
        status: OidStatus,
        value: &OidValue,
    ) -> Result<(), OutOfMemory>
        ensures { OnOk result (self.new ≡ record self.old { things = things_after_done (Some r.now) request status value.now self.old.things; port = port_after_done (Some r.now) status self.old.port }) }
    {
        let things = self.take_things();
        self.things = things_done(self.alloc, r, request, status, value, things)?;
        self.port.take_done(r, status);
        Ok(())
    }

    fn note_oid_done(
        &mut self,
        request: OidNo,
        status: OidStatus,
        value: &OidValue,
    ) -> Result<(), OutOfMemory>
        ensures { OnOk result (self.new ≡ after self.old (row.OidDone request status value.now)) }
    {
        match self.copy_of_request(request) {
            None => self.drop_request(request),
            Some(r) => {
                self.complete(&r, request, status, value)?;
                self.drop_request(request)
            }
        }
    }

    fn note_status(
        &mut self,
        number: StatusNo,
        name: StatusName,
        to: Target,
    ) -> Result<(), OutOfMemory>
        ensures { OnOk result (self.new ≡ after self.old (row.Status number name to)) }
    {
        self.note_seen(number)?;
        self.things
            .push(Thing::Status(StatusAway { number, name, to }))?;
        self.next.count_status(number.0)
    }

    fn note_seen(&mut self, number: StatusNo) -> Result<(), OutOfMemory>
        ensures { OnOk result (self.new ≡ record self.old { things = without_status number.0 self.old.things }) }
    {
        let things = self.take_things();
        self.things = without_status(self.alloc, number.0, things)?;
        Ok(())
    }

    fn note_out(&mut self, message: CrossNo, way: OutWay, many: usize) -> Result<(), OutOfMemory>
        ensures { OnOk result (self.new ≡ record self.old { things = things_after_out message.0 way self.old.things; port = port_after_out way many self.old.port }) }
    {
        match way {
            OutWay::Up => Ok(()),
            OutWay::Down(list) => {
                let things = self.take_things();
                self.things = things_taken_by(self.alloc, list.0, message.0, things)?;
                self.port.count_sent(many)
            }
        }
    }

    fn note_cross_out(
        &mut self,
        message: CrossNo,
        way: OutWay,
        frames: &Frames,
    ) -> Result<(), OutOfMemory>
        ensures { OnOk result (self.new ≡ after self.old (row.CrossOut message way frames.now)) }
    {
        self.note_out(message, way, frames.items().len())?;
        self.next.count_message()
    }

    /// Notes one more row. After want of memory the state is not to be used further; a number or count
    /// past the greatest counts as want of memory.
    pub fn note(&mut self, row: &Row) -> Result<(), OutOfMemory>
        ensures { OnOk result (self.new ≡ after self.old row.now) }
    {
        match row {
            Row::Issue {
                list,
                owner,
                config: _,
                direction,
                cancel,
                origin,
                frames,
            } => self.note_issue(*list, *owner, *direction, *cancel, *origin, frames),
            Row::Give { list, module, .. } => self.note_give(*list, *module),
            Row::Pass { list, way, to } => self.note_pass(*list, *way, *to),
            Row::Keep { list, module } => self.note_keep(*list, *module),
            Row::TurnBack { list, module, .. } => self.note_give(*list, *module),
            Row::Home { list, .. } => self.note_home(*list),
            Row::Wire { frames, .. } => self.note_wire(frames),
            Row::Deliver {
                binding,
                frames,
                ..
            } => self.note_deliver(*binding, frames),
            Row::Phase { of } => match *of {
                PhaseOf::Module(m, s) => self.note_state(m, s),
                PhaseOf::Stack(p) => {
                    self.note_phase(p);
                    Ok(())
                }
            },
            Row::Config { config, filters } => self.note_config(*config, filters),
            Row::OidIssue {
                request,
                parent,
                binding,
                kind,
                code,
                value,
            } => self.note_oid_issue(*request, *parent, *binding, *kind, *code, value),
            Row::OidGive { request, module } => self.note_oid_give(*request, *module),
            Row::OidDone {
                request,
                status,
                value,
            } => self.note_oid_done(*request, *status, value),
            Row::Status { number, name, to } => self.note_status(*number, *name, *to),
            Row::Seen { number, .. } => self.note_seen(*number),
            Row::CrossOut {
                message,
                way,
                frames,
            } => self.note_cross_out(*message, *way, frames),
            Row::CrossIn { .. } => Ok(()),
        }
    }

    fn take_filter(&mut self, f: u64, kind: FilterKind, setup: &Setup) -> Result<(), OutOfMemory>
        ensures { OnOk result (self.new ≡ with_filter f kind setup.now self.old) }
    {
        let copy = copy_setup(self.alloc, setup)?;
        self.modules.take_filter(Attached {
            filter: f,
            kind,
            setup: copy,
            state: ModuleState::Detached,
        })
    }

    /// Takes what an event and its reply tell beside the rows: the setup of a new filter, and the
    /// message that was taken. After want of memory the state is not to be used further.
    pub fn tell(&mut self, event: &Event, reply: &Reply) -> Result<(), OutOfMemory>
        ensures { OnOk result (self.new ≡ told self.old event.now reply.now) }
    {
        match event {
            Event::Insert { kind, setup, .. } => match reply {
                Reply::Inserted { filter } => self.take_filter(*filter, *kind, setup),
                _ => Ok(()),
            },
            Event::Replace { kind, setup, .. } => match reply {
                Reply::Replaced { filter } => self.take_filter(*filter, *kind, setup),
                _ => Ok(()),
            },
            Event::CrossTakeUp { binding, vlan } => match reply {
                Reply::Taken { .. } => {
                    without_oldest(*binding, *vlan, &mut self.messages);
                    Ok(())
                }
                _ => Ok(()),
            },
            _ => Ok(()),
        }
    }
}
