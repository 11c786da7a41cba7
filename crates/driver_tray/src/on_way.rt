//! What a tray is asked of the things on their way.
ghost use Rattle.std.specs.Prelude.{◌≡◌, count_by};
ghost use Rattle.driver_tray.specs.Tray.{first_way, is_status_away};

use crate::tray::Tray;
use agenda_items::Carried;
use journal_types::{PassWay, Target};

/// What is first on its way: a list, with which way it is passed and to where, a status, or an answer.
#[derive(Clone, Copy)]
pub enum First {
    List { way: PassWay, to: Target },
    Status,
    Answer,
}

fn is_status(carried: &Carried) -> bool
    ensures { result ≡ is_status_away carried.now }
{
    matches!(carried, Carried::Status(_))
}

impl Tray {
    /// What is first on its way; None where nothing is.
    pub fn first(&self) -> Option<First>
        ensures { result ≡ first_way self.now.queue }
    {
        match self.queue.front() {
            None => None,
            Some(Carried::List { way, to, .. }) => Some(First::List { way: *way, to: *to }),
            Some(Carried::Status(_)) => Some(First::Status),
            Some(Carried::Answer(_)) => Some(First::Answer),
        }
    }

    /// How many statuses are on their way.
    pub fn statuses_away(&self) -> usize
        ensures { result ≡ count_by is_status_away self.now.queue }
    {
        self.queue
            .iter()
            .filter(|carried| is_status(carried))
            .count()
    }
}
