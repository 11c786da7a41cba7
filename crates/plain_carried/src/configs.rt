//! The configuration in which a list was issued.
ghost use Rattle.std.specs.Prelude.{◌≡◌, option_copied};
ghost use Rattle.std.specs.List.{list_any};
ghost use Rattle.promise_rules.specs.Rows.{is_issue};
ghost use Rattle.promise_rules.specs.Carried.{config_at, config_in_rows, config_from, config_of, number_in, filters_in};

use journal_types::{Row, Turn};
use plain_families::rows::is_issue;

fn config_at<'a>(before: Option<&'a Row>, row: &'a Row) -> Option<&'a Row>
    ensures { option_copied result ≡ config_at (option_copied before.entry) row.now }
{
    match row {
        Row::Config { .. } => Some(row),
        _ => before,
    }
}

fn config_in_rows<'a>(n: u64, before: Option<&'a Row>, rows: &'a [Row]) -> Option<&'a Row>
    ensures { option_copied result ≡ config_in_rows n (option_copied before.entry) rows.now }
{
    match rows {
        [] => before,
        [row, others @ ..] => {
            if is_issue(n, row) {
                before
            } else {
                config_in_rows(n, config_at(before, row), others)
            }
        }
    }
}

fn is_issued_in(n: u64, rows: &[Row]) -> bool
    ensures { result ≡ list_any (is_issue n) rows.now }
{
    match rows {
        [] => false,
        [row, others @ ..] => is_issue(n, row) || is_issued_in(n, others),
    }
}

fn config_from<'a>(n: u64, before: Option<&'a Row>, turns: &'a [Turn]) -> Option<&'a Row>
    ensures { option_copied result ≡ config_from n (option_copied before.entry) turns.now }
{
    match turns {
        [] => before,
        [turn, others @ ..] => {
            let rows = turn.rows.items();
            let config = config_in_rows(n, before, rows);
            if is_issued_in(n, rows) {
                config
            } else {
                config_from(n, config, others)
            }
        }
    }
}

/// The row that sets up the configuration in which a list was issued.
pub fn config_of(turns: &[Turn], n: u64) -> Option<&Row>
    ensures { option_copied result ≡ config_of turns.now n }
{
    config_from(n, None, turns)
}

/// The number of the configuration that a row sets up, and 0 for any other row.
pub fn number_in(config: Option<&Row>) -> u64
    ensures { result ≡ number_in (option_copied config.entry) }
{
    match config {
        None => 0,
        Some(row) => match row {
            Row::Config { config, .. } => config.0,
            _ => 0,
        },
    }
}

/// The filters of the configuration that a row sets up, from top to bottom, and none for any other row.
pub fn filters_in(config: Option<&Row>) -> &[u64]
    ensures { result.now ≡ filters_in (option_copied config.entry) }
{
    match config {
        None => &[],
        Some(row) => match row {
            Row::Config { filters, .. } => filters.items(),
            _ => &[],
        },
    }
}
