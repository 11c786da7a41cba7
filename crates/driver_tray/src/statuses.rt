//! Statuses on their way (WDK, "Status Indications").
ghost use Rattle.std.specs.Prelude.{◌≡◌, ◌-◌, ◌≤◌, ◌<◌, ◌^◌, ◌++◌, ◌∷◌, []};
ghost use Rattle.agenda_items.specs.declared.Carried.TheVariants as carried;
ghost use Rattle.journal_types.specs.declared.Row.TheVariants as row;
ghost use Rattle.stack_rules.specs.Outcome.{status_no};
ghost use Rattle.driver_tray.specs.Tray.{first_status, indicated, seen_at, status_from, without_status, written};

use crate::tray::Tray;
use agenda_items::{Carried, enqueue_status, take_status};
use flat_journal::FlatRow;
use ndis_base::{ModuleId, StatusName, StatusNo};
use stack_rules::StatusAway;

impl Tray {
    /// The number of the status that is indicated next.
    pub fn next_status_number(&self) -> StatusNo
        ensures { result ≡ status_no self.now.net.next.status }
    {
        self.ledger.next_status_number()
    }

    /// The first thing on its way, where it is a status.
    pub fn first_status(&self) -> Option<StatusAway>
        ensures { result ≡ first_status self.now.queue }
    {
        match self.queue.front() {
            Some(Carried::Status(status)) => Some(*status),
            _ => None,
        }
    }

    fn take_status(&mut self, number: StatusNo)
        ensures { self.new ≡ without_status self.old number.0 }
    {
        take_status(&mut self.queue, number);
    }

    fn enqueue_status(&mut self, status: StatusAway)
        requires { 1 ≤ self.old.slack }
        ensures { self.new ≡ record self.old { queue = self.old.queue ++ carried.Status status ∷ []; slack = self.old.slack - 1 } }
    {
        enqueue_status(&mut self.queue, status);
        self.slack -= 1;
    }

    fn write_status(&mut self, status: StatusAway)
        requires low { self.old.net.next.status < 2 ^ 60 }
        requires room { 1 ≤ self.old.room.rows }
        ensures { self.new ≡ written self.old (row.Status status.number status.name status.to) }
    {
        self.journal.write_row(FlatRow::Status {
            number: status.number,
            name: status.name,
            to: status.to,
        });
        self.ledger.status(status.number);
    }

    fn status_from(&self, number: StatusNo, name: StatusName) -> StatusAway
        ensures { result ≡ status_from self.now number name }
    {
        StatusAway {
            number,
            name,
            to: self.ledger.next_status(self.ledger.position(self.caller)),
        }
    }

    /// Writes that a module saw a status, which is no longer on its way.
    pub fn see(&mut self, number: StatusNo, by: ModuleId)
        requires { 1 ≤ self.old.room.rows }
        ensures { self.new ≡ seen_at self.old number by }
    {
        self.write(FlatRow::Seen { number, module: by });
        self.take_status(number);
    }

    /// Indicates a status up from the module that is called: to the next filter that has the handler, or to
    /// the bindings.
    pub fn indicate_status(&mut self, number: StatusNo, name: StatusName)
        requires low { self.old.net.next.status < 2 ^ 60 }
        requires room { 1 ≤ self.old.room.rows }
        requires slack { 1 ≤ self.old.slack }
        ensures { self.new ≡ indicated self.old number name }
    {
        let status = self.status_from(number, name);
        self.write_status(status);
        self.take_status(number);
        self.enqueue_status(status);
    }
}
