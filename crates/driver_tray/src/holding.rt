//! What the journal holds beside rows: events, the filters of configurations, and the set-ups of new filters.
ghost use Rattle.std.specs.Prelude.{◌≡◌, ◌≤◌, [], None, IfOk, length};
ghost use Rattle.journal_types.specs.declared.Event.TheVariants as event;
ghost use Rattle.journal_types.specs.declared.Reply.TheVariants as reply;
ghost use Rattle.flat_journal.specs.Grows.{Grows};
ghost use Rattle.flat_journal.specs.Payloads.{setup_at};
ghost use Rattle.flat_journal.specs.Shown.{event_of};
ghost use Rattle.flat_journal.specs.Within.{EventWithin, SetupWithin};
ghost use Rattle.driver_tray.specs.Tray.{configured, told_to};

use crate::telling::Telling;
use crate::tray::Tray;
use flat_journal::{FlatEvent, FlatReply, FlatRow, SetupNo};
use journal_types::{Event, Setup};
use ndis_base::{ConfigNo, FilterKind, OutOfMemory};
use std::alloc::Global;

impl Tray {
    /// Copies what an event refers to, so that rows and the turn can show it. Nothing else changes but the
    /// room.
    pub fn hold_event(&mut self, alloc: Global, event: &Event) -> Result<FlatEvent, OutOfMemory>
        ensures same { self.new ≡ record self.old { payloads = self.new.payloads; room = self.new.room } }
        ensures grows { Grows self.old.payloads self.new.payloads }
        ensures within { IfOk result (λ e. EventWithin self.new.payloads e) }
        ensures shown { IfOk result (λ e. event_of self.new.payloads e ≡ event.now) }
    {
        self.journal.copy_event(alloc, event)
    }

    /// A set-up that the journal holds.
    pub fn setup(&self, setup: SetupNo) -> &Setup
        requires { SetupWithin self.now.payloads setup }
        ensures { result.now ≡ setup_at self.now.payloads.setups setup }
    {
        self.journal.setup(setup)
    }

    /// Writes that the stack has another configuration: its number, and its filters from top to bottom.
    pub fn write_config(&mut self, config: ConfigNo, filters: &[u64])
        requires few { length filters.now ≤ 16 }
        requires filter_room { length filters.now ≤ self.old.room.filters }
        requires room { 1 ≤ self.old.room.rows }
        ensures { self.new ≡ configured self.old config filters.now }
    {
        let span = self.journal.push_filters(filters);
        self.journal.write_row(FlatRow::Config {
            config,
            filters: span,
        });
        self.ledger.configure(config, filters);
    }

    /// Tells that the filter of the next number is inserted: a turn of it begins, and its set-up is known.
    pub fn tell_inserted(&mut self, kind: FilterKind, position: u8, setup: SetupNo)
        requires idle { self.old.rows ≡ [] }
        requires untold { self.old.told_by ≡ None }
        requires setup { SetupWithin self.old.payloads setup }
        requires few { length self.old.net.modules.filters ≤ 16 }
        ensures { self.new ≡ told_to self.old (event.Insert kind position (setup_at self.old.payloads.setups setup)) (reply.Inserted self.old.net.next.filter) }
    {
        let filter = self.ledger.next_filter();
        self.ledger.attach(filter, kind, self.journal.setup(setup));
        self.told = Some(Telling {
            event: FlatEvent::Insert {
                kind,
                position,
                setup,
            },
            reply: FlatReply::Inserted { filter },
        });
    }

    /// Tells that the filter of the next number takes the place of another: a turn of it begins, and its
    /// set-up is known.
    pub fn tell_replaced(&mut self, old: u64, kind: FilterKind, setup: SetupNo)
        requires idle { self.old.rows ≡ [] }
        requires untold { self.old.told_by ≡ None }
        requires setup { SetupWithin self.old.payloads setup }
        requires few { length self.old.net.modules.filters ≤ 16 }
        ensures { self.new ≡ told_to self.old (event.Replace old kind (setup_at self.old.payloads.setups setup)) (reply.Replaced self.old.net.next.filter) }
    {
        let filter = self.ledger.next_filter();
        self.ledger.attach(filter, kind, self.journal.setup(setup));
        self.told = Some(Telling {
            event: FlatEvent::Replace {
                filter: old,
                kind,
                setup,
            },
            reply: FlatReply::Replaced { filter },
        });
    }
}
