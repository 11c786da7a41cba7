//! The set-up of each filter.
ghost use Rattle.std.specs.Prelude.{◌≡◌, option_copied};
ghost use Rattle.promise_rules.specs.Carried.{setup_told, setup_of};

use journal_types::{Event, Reply, Setup, Turn};

fn setup_told<'a>(f: u64, event: &'a Event, reply: &Reply) -> Option<&'a Setup>
    ensures { option_copied result ≡ setup_told f event.now reply.now }
{
    match event {
        Event::Insert { setup, .. } => match reply {
            Reply::Inserted { filter } => { if *filter == f { Some(setup) } else { None } }
            _ => None,
        },
        Event::Replace { setup, .. } => match reply {
            Reply::Replaced { filter } => { if *filter == f { Some(setup) } else { None } }
            _ => None,
        },
        _ => None,
    }
}

/// The set-up of a filter: that of the event whose reply names it.
pub fn setup_of(turns: &[Turn], f: u64) -> Option<&Setup>
    ensures { option_copied result ≡ setup_of turns.now f }
{
    match turns {
        [] => None,
        [turn, others @ ..] => match setup_told(f, &turn.event, &turn.reply) {
            Some(setup) => Some(setup),
            None => setup_of(others, f),
        },
    }
}
