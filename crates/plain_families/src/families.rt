//! Families: all lists that descend from one.
ghost use Rattle.std.specs.Prelude.{◌≡◌};
ghost use Rattle.std.specs.List.{list_all};
ghost use Rattle.promise_rules.specs.Rows.{all_rows};
ghost use Rattle.promise_rules.specs.Families.{is_over_for, is_over_at, is_over, last_of_two, member_at, last_in_rows, last_in_turns, last_of_family};

use crate::roots::root_of;
use crate::rows::is_home_again;
use journal_types::{Row, Turn};

fn is_over_for(turns: &[Turn], root: u64, n: u64) -> bool
    ensures { result ≡ is_over_for turns.now root n }
{
    root_of(turns, n) != root || is_home_again(turns, n)
}

fn is_over_at(turns: &[Turn], root: u64, row: &Row) -> bool
    ensures { result ≡ is_over_at turns.now root row.now }
{
    match row {
        Row::Issue { list, .. } => is_over_for(turns, root, list.0),
        _ => true,
    }
}

fn is_over_in_rows(turns: &[Turn], root: u64, rows: &[Row]) -> bool
    ensures { result ≡ list_all (is_over_at turns.now root) rows.now }
{
    match rows {
        [] => true,
        [row, others @ ..] => is_over_at(turns, root, row) && is_over_in_rows(turns, root, others),
    }
}

fn is_over_in(whole: &[Turn], root: u64, turns: &[Turn]) -> bool
    ensures { result ≡ all_rows (is_over_at whole.now root) turns.now }
{
    match turns {
        [] => true,
        [turn, others @ ..] => is_over_in_rows(whole, root, turn.rows.items())
            && is_over_in(whole, root, others),
    }
}

/// Whether no list of a root's family is live.
pub fn is_over(turns: &[Turn], root: u64) -> bool
    ensures { result ≡ is_over turns.now root }
{
    is_over_in(turns, root, turns)
}

fn last_of_two(earlier: Option<u64>, later: Option<u64>) -> Option<u64>
    ensures { result ≡ last_of_two earlier later }
{
    match later {
        None => earlier,
        Some(n) => Some(n),
    }
}

fn member_at(turns: &[Turn], root: u64, row: &Row) -> Option<u64>
    ensures { result ≡ member_at turns.now root row.now }
{
    match row {
        Row::Issue { list, .. } => {
            if root_of(turns, list.0) == root {
                Some(list.0)
            } else {
                None
            }
        }
        _ => None,
    }
}

fn last_in_rows(turns: &[Turn], root: u64, rows: &[Row]) -> Option<u64>
    ensures { result ≡ last_in_rows turns.now root rows.now }
{
    match rows {
        [] => None,
        [row, others @ ..] => last_of_two(
            member_at(turns, root, row),
            last_in_rows(turns, root, others),
        ),
    }
}

fn last_in_turns(whole: &[Turn], root: u64, turns: &[Turn]) -> Option<u64>
    ensures { result ≡ last_in_turns whole.now root turns.now }
{
    match turns {
        [] => None,
        [turn, others @ ..] => last_of_two(
            last_in_rows(whole, root, turn.rows.items()),
            last_in_turns(whole, root, others),
        ),
    }
}

/// The last list of a root's family, which has the greatest number.
pub fn last_of_family(turns: &[Turn], root: u64) -> Option<u64>
    ensures { result ≡ last_of_family turns.now root }
{
    last_in_turns(turns, root, turns)
}
