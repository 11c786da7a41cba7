//! The list that a list descends from.
ghost use Rattle.std.specs.Prelude.{◌≡◌};
ghost use Rattle.promise_rules.specs.Families.{origin_at, root_in_rows, root_of};

use journal_types::{Row, Turn};
use ndis_base::Origin;

fn origin_at(row: &Row, n: u64) -> u64
    ensures { result ≡ origin_at row.now n }
{
    match row {
        Row::Issue { list, origin, .. } => match *origin {
            Origin::Root => n,
            Origin::Clone(o) => { if list.0 == n { o.0 } else { n } }
            Origin::Copy(o) => { if list.0 == n { o.0 } else { n } }
        },
        _ => n,
    }
}

fn root_in_rows(rows: &[Row], n: u64) -> u64
    ensures { result ≡ root_in_rows rows.now n }
{
    match rows {
        [] => n,
        [row, others @ ..] => origin_at(row, root_in_rows(others, n)),
    }
}

/// The list that a list descends from: itself where it is no clone and no copy.
pub fn root_of(turns: &[Turn], n: u64) -> u64
    ensures { result ≡ root_of turns.now n }
{
    match turns {
        [] => n,
        [turn, others @ ..] => root_in_rows(turn.rows.items(), root_of(others, n)),
    }
}
