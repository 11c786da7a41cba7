//! The state after one more turn.
ghost use Rattle.std.specs.Prelude.{◌≡◌, OnOk};
ghost use Rattle.stack_rules.specs.Net.{after_rows, after_turn};

use journal_types::{Row, Turn};
use ndis_base::OutOfMemory;
use plain_net::PlainNet;

fn note_rows(net: &mut PlainNet, rows: &[Row]) -> Result<(), OutOfMemory>
    ensures { OnOk result (net.new ≡ after_rows net.old rows.now) }
{
    match rows {
        [] => Ok(()),
        [row, others @ ..] => {
            net.note(row)?;
            note_rows(net, others)
        }
    }
}

/// Notes one more turn: what its event and reply tell, and its rows. After want of memory the state
/// is not to be used further.
pub fn note_turn(net: &mut PlainNet, turn: &Turn) -> Result<(), OutOfMemory>
    ensures { OnOk result (net.new ≡ after_turn net.old turn.now) }
{
    net.tell(&turn.event, &turn.reply)?;
    note_rows(net, turn.rows.items())
}
