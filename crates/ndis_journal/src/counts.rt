//! How many rows of a kind a journal has.
ghost use Rattle.std.specs.Prelude.{◌≡◌, ◌≤◌, length, count_by, if◌then◌else◌};
ghost use Rattle.journal_lines.specs.Counted.{rows_of};
ghost use Rattle.ndis_journal.specs.Counted.{test_of};

use journal_types::{Row, Turn};

/// The rows that the last line of a journal counts.
#[derive(Clone, Copy)]
pub enum Counted {
    Issue,
    Home,
    Wire,
    Deliver,
}

fn is_counted(counted: Counted, row: &Row) -> bool
    ensures { result ≡ test_of counted row.now }
{
    match counted {
        Counted::Issue => matches!(row, Row::Issue { .. }),
        Counted::Home => matches!(row, Row::Home { .. }),
        Counted::Wire => matches!(row, Row::Wire { .. }),
        Counted::Deliver => matches!(row, Row::Deliver { .. }),
    }
}

fn count_in(counted: Counted, rows: &[Row]) -> u64
    ensures { result ≡ count_by (test_of counted) rows.now }
{
    let mut count = 0;
    for row in rows {
        count += u64::from(is_counted(counted, row));
    }
    count
}

/// The rows of this kind in all turns. Past the last value of 64 bits the count stands still.
pub fn count_rows(counted: Counted, turns: &[Turn]) -> u64
    ensures { result ≡ rows_of (test_of counted) turns.now }
{
    let mut count: u64 = 0;
    for turn in turns {
        count = count.saturating_add(count_in(counted, turn.rows.items()));
    }
    count
}
