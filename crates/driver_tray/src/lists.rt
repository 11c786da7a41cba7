//! What a driver does with a list: each function writes its rows and takes no memory.
ghost use Rattle.std.specs.Prelude.{◌≡◌, ℕ, ◌*◌, ◌+◌, ◌≤◌, ◌<◌, ◌^◌, None, IfOk, OnOk, OnErr, IsErr, ◌↔◌, length, sum_by};
ghost use Rattle.buffer_pools.specs.Views.{Fits, IsOf, live_count};
ghost use Rattle.frame_arena.specs.Spans.{frames_at, SpanWithin};
ghost use Rattle.stack_rules.specs.Places.{position};
ghost use Rattle.journal_types.specs.declared.Row.TheVariants as row;
ghost use Rattle.stack_rules.specs.Outcome.{list_no};
ghost use Rattle.driver_tray.specs.Tray.{given, passed_on, passed_back, turned_back, noted, written, wired, delivered, onward_row, homeward_row, root_label, Starts, Clones, Spends, LendsOut, Copies};

use crate::tray::Tray;
use buffer_pools::{BufferList, Label, NoList};
use flat_journal::FlatRow;
use frame_arena::FrameSpan;
use journal_types::{Handler, How, PassWay, Target};
use ndis_base::{Direction, Frame, ListNo, ListStatus, Origin};

impl Tray {
    /// Gives a list to the module that is called.
    pub fn give(&mut self, list: ListNo, handler: Handler)
        requires { 1 ≤ self.old.room.rows }
        ensures { self.new ≡ given self.old list handler }
    {
        self.write(FlatRow::Give {
            list,
            module: self.caller,
            handler,
        });
    }

    fn from(&self) -> usize
        ensures { result ≡ position self.now.net.modules.order self.now.caller }
    {
        self.ledger.position(self.caller)
    }

    fn onward(&self, list: &BufferList) -> (PassWay, Target)
        ensures { row.Pass list.now.label.number result.0 result.1 ≡ onward_row self.now list.now }
    {
        let from = self.from();
        match list.direction() {
            Direction::Down => (PassWay::Down, self.ledger.next_down(from)),
            Direction::Up | Direction::Lent => (PassWay::Up, self.ledger.next_up(from)),
        }
    }

    fn homeward(&self, list: &BufferList, status: ListStatus) -> (PassWay, Target)
        ensures { row.Pass list.now.label.number result.0 result.1 ≡ homeward_row self.now list.now status }
    {
        let from = self.from();
        match list.direction() {
            Direction::Down => (
                PassWay::Done(status),
                self.ledger.next_done(from, list.owner()),
            ),
            Direction::Up | Direction::Lent => (
                PassWay::Back(status),
                self.ledger.next_back(from, list.owner()),
            ),
        }
    }

    /// Passes a list on: down for a send, up for a receive.
    pub fn forward(&mut self, list: BufferList)
        requires room { 1 ≤ self.old.room.rows }
        requires slack { 1 ≤ self.old.slack }
        ensures { self.new ≡ passed_on self.old list }
    {
        let (way, to) = self.onward(&list);
        self.pass(list, way, to);
    }

    /// Passes a list homewards with a status: done for a send, back for a receive.
    pub fn pass_back(&mut self, list: BufferList, status: ListStatus)
        requires room { 1 ≤ self.old.room.rows }
        requires slack { 1 ≤ self.old.slack }
        ensures { self.new ≡ passed_back self.old list status }
    {
        let (way, to) = self.homeward(&list, status);
        self.pass(list, way, to);
    }

    /// Turns a list back.
    pub fn turn_back(&mut self, list: BufferList, status: ListStatus)
        requires room { 2 ≤ self.old.room.rows }
        requires slack { 1 ≤ self.old.slack }
        ensures { self.new ≡ turned_back self.old list status }
    {
        self.write(FlatRow::TurnBack {
            list: list.number(),
            module: self.caller,
            status,
        });
        self.pass_back(list, status);
    }

    /// Tells that the module keeps a list.
    pub fn keep_note(&mut self, list: ListNo)
        requires { 1 ≤ self.old.room.rows }
        ensures { self.new ≡ noted self.old list }
    {
        self.write(FlatRow::Keep {
            list,
            module: self.caller,
        });
    }

    fn write_wire(&mut self, list: ListNo, frames: FrameSpan)
        requires within { SpanWithin self.old.payloads.frames frames }
        requires low { self.old.net.port.sent + frames.count < 2 ^ 64 }
        requires room { 1 ≤ self.old.room.rows }
        ensures { self.new ≡ written self.old (row.Wire list (frames_at self.old.payloads.frames frames)) }
    {
        self.journal.write_row(FlatRow::Wire { list, frames });
        self.ledger.wire(frames.count);
    }

    /// Puts a list's frames onto the wire, and gives where the journal has them.
    pub fn wire(&mut self, list: &BufferList) -> FrameSpan
        requires frame_room { length list.now.frames ≤ self.old.room.frames }
        requires byte_room { sum_by length list.now.frames ≤ self.old.room.bytes }
        requires low { self.old.net.port.sent + length list.now.frames < 2 ^ 64 }
        requires room { 1 ≤ self.old.room.rows }
        ensures tray { self.new ≡ wired self.old list.now }
        ensures within { SpanWithin self.new.payloads.frames result }
        ensures shown { frames_at self.new.payloads.frames result ≡ list.now.frames }
    {
        let frames = self.hold_list(list);
        self.write_wire(list.number(), frames);
        frames
    }

    /// Tells that a list is delivered to a binding, and gives where the journal has its frames.
    pub fn deliver(&mut self, list: &BufferList, binding: u32, how: How) -> FrameSpan
        requires frame_room { length list.now.frames ≤ self.old.room.frames }
        requires byte_room { sum_by length list.now.frames ≤ self.old.room.bytes }
        requires room { 1 ≤ self.old.room.rows }
        ensures tray { self.new ≡ delivered self.old list.now binding how }
        ensures within { SpanWithin self.new.payloads.frames result }
        ensures shown { frames_at self.new.payloads.frames result ≡ list.now.frames }
    {
        let frames = self.hold_list(list);
        self.write(FlatRow::Deliver {
            list: list.number(),
            binding,
            how,
            frames,
        });
        frames
    }

    fn root(&self, direction: Direction, cancel: Option<u32>) -> Label
        ensures { result ≡ root_label self.now direction cancel }
    {
        Label {
            number: self.ledger.next_list(),
            owner: self.caller,
            config: self.ledger.config(),
            direction,
            cancel,
            origin: Origin::Root,
        }
    }

    /// Sends or indicates a new list of the called module's pool with these frames, which the journal
    /// has. After `NoList` the tray is as before.
    pub fn start(
        &mut self,
        direction: Direction,
        cancel: Option<u32>,
        made: &[Frame],
        span: FrameSpan,
    ) -> Result<ListNo, NoList>
        requires fits { Fits made.now self.old.pool.bytes }
        requires within { SpanWithin self.old.payloads.frames span }
        requires shown { frames_at self.old.payloads.frames span ≡ made.now }
        requires room { 2 ≤ self.old.room.rows }
        requires slack { 1 ≤ self.old.slack }
        requires low { self.old.net.next.list < 2 ^ 60 }
        requires received { self.old.net.port.received < 2 ^ 60 }
        ensures starts { OnOk result (Starts self.old direction cancel made.now self.new) }
        ensures number { IfOk result (λ n. n ≡ list_no self.old.net.next.list) }
        ensures no_list { IsErr result ↔ (live_count self.old.pool ≡ self.old.pool.size) }
        ensures unchanged { OnErr result (self.new ≡ self.old) }
    {
        let label = self.root(direction, cancel);
        let list = self.pool.issue(label, made)?;
        self.issue_held(label, span);
        self.forward(list);
        Ok(label.number)
    }

    /// Sends or indicates a new list of the called module's pool with the frames of another list, which
    /// the journal has. After `NoList` the tray is as before.
    pub fn start_copy(
        &mut self,
        direction: Direction,
        from: &BufferList,
        span: FrameSpan,
    ) -> Result<ListNo, NoList>
        requires fits { Fits from.now.frames self.old.pool.bytes }
        requires within { SpanWithin self.old.payloads.frames span }
        requires shown { frames_at self.old.payloads.frames span ≡ from.now.frames }
        requires room { 2 ≤ self.old.room.rows }
        requires slack { 1 ≤ self.old.slack }
        requires low { self.old.net.next.list < 2 ^ 60 }
        requires received { self.old.net.port.received < 2 ^ 60 }
        ensures starts { OnOk result (Starts self.old direction None from.now.frames self.new) }
        ensures number { IfOk result (λ n. n ≡ list_no self.old.net.next.list) }
        ensures no_list { IsErr result ↔ (live_count self.old.pool ≡ self.old.pool.size) }
        ensures unchanged { OnErr result (self.new ≡ self.old) }
    {
        let label = self.root(direction, None);
        let list = self.pool.clone_of(label, from)?;
        self.issue_held(label, span);
        self.forward(list);
        Ok(label.number)
    }

    /// Takes a list of the called module's own pool home.
    pub fn spend(&mut self, list: BufferList, status: ListStatus)
        requires own { IsOf self.old.pool list }
        requires room { 1 ≤ self.old.room.rows }
        ensures { Spends self.old list status self.new }
    {
        self.write(FlatRow::Home {
            list: list.number(),
            owner: list.owner(),
            status,
        });
        self.pool.free(list);
    }

    /// Sends a clone with other frames on in the place of a list, which the module keeps. After
    /// `NoList` the tray is as before.
    pub fn pass_clone(&mut self, list: &BufferList, made: &[Frame]) -> Result<(), NoList>
        requires fits { Fits made.now 1518 }
        requires pool { self.old.pool.bytes ≡ 1518 }
        requires room { 3 ≤ self.old.room.rows }
        requires frame_room { 8 ≤ self.old.room.frames }
        requires byte_room { 8 * 1518 ≤ self.old.room.bytes }
        requires slack { 1 ≤ self.old.slack }
        requires low { self.old.net.next.list < 2 ^ 60 }
        requires received { self.old.net.port.received < 2 ^ 60 }
        ensures clones { OnOk result (Clones self.old list.now made.now self.new) }
        ensures no_list { IsErr result ↔ (live_count self.old.pool ≡ self.old.pool.size) }
        ensures unchanged { OnErr result (self.new ≡ self.old) }
    {
        let label = Label {
            number: self.ledger.next_list(),
            owner: self.caller,
            config: self.ledger.config(),
            direction: list.direction(),
            cancel: list.cancel(),
            origin: Origin::Clone(list.number()),
        };
        let clone = self.pool.issue(label, made)?;
        let (way, to) = self.onward(&clone);
        let span = self.hold_frames(made);
        self.issue_clone(label, list.number(), span, clone, way, to);
        self.keep_note(list.number());
        self.write(FlatRow::Pass {
            list: label.number,
            way,
            to,
        });
        Ok(())
    }

    /// Makes a new list of the called module's pool with these frames, which the journal has. The list is its
    /// owner's while it is lent to other modules (WDK, "Receiving Data", NDIS_RECEIVE_FLAGS_RESOURCES). After
    /// `NoList` the tray is as before.
    pub fn lend(&mut self, made: &[Frame], span: FrameSpan) -> Result<BufferList, NoList>
        requires fits { Fits made.now self.old.pool.bytes }
        requires within { SpanWithin self.old.payloads.frames span }
        requires shown { frames_at self.old.payloads.frames span ≡ made.now }
        requires room { 1 ≤ self.old.room.rows }
        requires low { self.old.net.next.list < 2 ^ 60 }
        requires received { self.old.net.port.received < 2 ^ 60 }
        ensures lends { IfOk result (λ l. LendsOut self.old made.now l self.new) }
        ensures no_list { IsErr result ↔ (live_count self.old.pool ≡ self.old.pool.size) }
        ensures unchanged { OnErr result (self.new ≡ self.old) }
    {
        let label = self.root(Direction::Lent, None);
        let list = self.pool.issue(label, made)?;
        self.issue_held(label, span);
        Ok(list)
    }

    /// Passes a copy with other frames on in the place of a list that is lent to the called module. After
    /// `NoList` the tray is as before.
    pub fn pass_copy(&mut self, list: &BufferList, made: &[Frame]) -> Result<(), NoList>
        requires fits { Fits made.now 1518 }
        requires pool { self.old.pool.bytes ≡ 1518 }
        requires room { 2 ≤ self.old.room.rows }
        requires frame_room { 8 ≤ self.old.room.frames }
        requires byte_room { 8 * 1518 ≤ self.old.room.bytes }
        requires slack { 1 ≤ self.old.slack }
        requires low { self.old.net.next.list < 2 ^ 60 }
        requires received { self.old.net.port.received < 2 ^ 60 }
        ensures copies { OnOk result (Copies self.old list.now made.now self.new) }
        ensures no_list { IsErr result ↔ (live_count self.old.pool ≡ self.old.pool.size) }
        ensures unchanged { OnErr result (self.new ≡ self.old) }
    {
        let label = Label {
            number: self.ledger.next_list(),
            owner: self.caller,
            config: self.ledger.config(),
            direction: Direction::Up,
            cancel: None,
            origin: Origin::Copy(list.number()),
        };
        let copy = self.pool.issue(label, made)?;
        let span = self.hold_frames(made);
        self.issue_copy(label, list.number(), span);
        self.forward(copy);
        Ok(())
    }
}
