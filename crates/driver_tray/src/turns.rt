//! Where a turn begins and where it ends.
ghost use Rattle.std.specs.Prelude.{◌≡◌, ◌≤◌, [], None};
ghost use Rattle.flat_journal.specs.Shown.{event_of, reply_of};
ghost use Rattle.flat_journal.specs.Within.{EventWithin, ReplyWithin};
ghost use Rattle.stack_rules.specs.Net.{seen, told};
ghost use Rattle.driver_tray.specs.Tray.{begun_by, told_to, TellsOther, turn_of, ended};

use crate::telling::Telling;
use crate::tray::Tray;
use flat_journal::{FlatEvent, FlatJournal, FlatReply};
use ndis_base::Who;

impl Tray {
    /// Tells what the event and its reply tell beside the rows of the turn that begins.
    pub fn tell(&mut self, event: FlatEvent, reply: FlatReply)
        requires idle { self.old.rows ≡ [] }
        requires untold { self.old.told_by ≡ None }
        requires event { EventWithin self.old.payloads event }
        requires reply { ReplyWithin self.old.payloads reply }
        requires other { TellsOther self.old.net (event_of self.old.payloads event) (reply_of self.old.payloads reply) }
        ensures { self.new ≡ told_to self.old (event_of self.old.payloads event) (reply_of self.old.payloads reply) }
    {
        self.told = Some(Telling { event, reply });
    }

    /// The rows so far become a turn. What was told is what the event and its reply tell.
    pub fn end_turn(&mut self, who: Who, event: FlatEvent, reply: FlatReply)
        requires event { EventWithin self.old.payloads event }
        requires reply { ReplyWithin self.old.payloads reply }
        requires told { begun_by (seen self.old.head self.old.turns) self.old.told_by ≡ told (seen self.old.head self.old.turns) (event_of self.old.payloads event) (reply_of self.old.payloads reply) }
        requires room { 1 ≤ self.old.room.turns }
        ensures { self.new ≡ ended self.old (turn_of self.old who (event_of self.old.payloads event) (reply_of self.old.payloads reply)) }
    {
        self.journal.end_turn(who, event, reply);
        self.told = None;
    }

    /// Gives the journal away: the turns that the stack has had. What was on its way is gone.
    pub fn into_journal(self) -> FlatJournal
        ensures head { result.head ≡ self.head }
        ensures turns { result.turns ≡ self.turns }
    {
        self.journal
    }
}
