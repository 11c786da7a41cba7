//! How many rows of a kind a journal has.
ghost use Rattle.std.specs.Prelude.{◌≡◌, ◌≤◌, length, count_by, map};
ghost use Rattle.flat_journal.specs.Shown.{row_of};
ghost use Rattle.journal_lines.specs.Counted.{is_issue, is_home, is_wire, is_deliver, rows_of};
ghost use Rattle.flat_text.specs.Counted.{test_of};

use flat_journal::{FlatJournal, FlatRow};

/// The rows that the last line of a journal counts.
#[derive(Clone, Copy)]
pub enum Counted {
    Issue,
    Home,
    Wire,
    Deliver,
}

/// How many rows of each kind there are. Past the last value of 64 bits a count stands still.
#[derive(Clone, Copy)]
pub struct Counts {
    pub lists: u64,
    pub homes: u64,
    pub wires: u64,
    pub delivers: u64,
}

fn is_counted(_journal: &FlatJournal, counted: Counted, row: &FlatRow) -> bool
    ensures { result ≡ test_of counted (row_of _journal.now.payloads row.now) }
{
    match counted {
        Counted::Issue => matches!(row, FlatRow::Issue { .. }),
        Counted::Home => matches!(row, FlatRow::Home { .. }),
        Counted::Wire => matches!(row, FlatRow::Wire { .. }),
        Counted::Deliver => matches!(row, FlatRow::Deliver { .. }),
    }
}

fn count_in(journal: &FlatJournal, counted: Counted, rows: &[FlatRow]) -> u64
    ensures { result ≡ count_by (test_of counted) (map (row_of journal.now.payloads) rows.now) }
{
    let mut count = 0;
    for row in rows {
        count += u64::from(is_counted(journal, counted, row));
    }
    count
}

/// Counts the rows of all turns.
pub fn count_rows(journal: &FlatJournal) -> Counts
    ensures lists { result.lists ≡ rows_of is_issue journal.now.turns }
    ensures homes { result.homes ≡ rows_of is_home journal.now.turns }
    ensures wires { result.wires ≡ rows_of is_wire journal.now.turns }
    ensures delivers { result.delivers ≡ rows_of is_deliver journal.now.turns }
{
    let mut lists: u64 = 0;
    let mut homes: u64 = 0;
    let mut wires: u64 = 0;
    let mut delivers: u64 = 0;
    for at in 0..journal.turn_count() {
        let rows = journal.turn(at).rows;
        lists = lists.saturating_add(count_in(journal, Counted::Issue, rows));
        homes = homes.saturating_add(count_in(journal, Counted::Home, rows));
        wires = wires.saturating_add(count_in(journal, Counted::Wire, rows));
        delivers = delivers.saturating_add(count_in(journal, Counted::Deliver, rows));
    }
    Counts {
        lists,
        homes,
        wires,
        delivers,
    }
}
