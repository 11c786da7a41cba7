//! Lists of rows, which are put together at either end, and sums of counts.
ghost use Rattle.std.specs.Prelude.{◌≡◌, ◌+◌, ◌++◌, ◌∷◌, [], IfOk};

use journal_types::Row;
use ndis_base::OutOfMemory;
use std::alloc::Global;

/// No rows.
pub fn no_rows(alloc: Global) -> Vec<Row>
    ensures { result.items ≡ [] }
{
    Vec::new(alloc)
}

/// One row alone.
pub fn one_row(alloc: Global, row: Row) -> Result<Vec<Row>, OutOfMemory>
    ensures { IfOk result (λ rows. rows.items ≡ row ∷ []) }
{
    let mut rows = Vec::new(alloc);
    rows.push(row)?;
    Ok(rows)
}

/// Two rows.
pub fn two_rows(alloc: Global, first: Row, second: Row) -> Result<Vec<Row>, OutOfMemory>
    ensures { IfOk result (λ rows. rows.items ≡ first ∷ second ∷ []) }
{
    let mut rows = Vec::new(alloc);
    rows.push(first)?;
    rows.push(second)?;
    Ok(rows)
}

/// A row before others.
pub fn row_before(row: Row, others: Vec<Row>) -> Result<Vec<Row>, OutOfMemory>
    ensures { IfOk result (λ rows. rows.items ≡ row ∷ others.items) }
{
    let mut rows = others;
    rows.insert(0, row)?;
    Ok(rows)
}

/// Rows, and the others after them.
pub fn rows_and(rows: Vec<Row>, others: Vec<Row>) -> Result<Vec<Row>, OutOfMemory>
    ensures { IfOk result (λ all. all.items ≡ rows.items ++ others.items) }
{
    let mut all = rows;
    for row in others {
        all.push(row)?;
    }
    Ok(all)
}

/// The number after this one. A number past the greatest counts as want of memory.
pub fn next_number(n: u64) -> Result<u64, OutOfMemory>
    ensures { IfOk result (λ next. next ≡ n + 1) }
{
    sum_of(n, 1)
}

/// The sum of two counts. A sum past the greatest number counts as want of memory.
pub fn sum_of(n: u64, many: u64) -> Result<u64, OutOfMemory>
    ensures { IfOk result (λ sum. sum ≡ n + many) }
{
    if many <= u64::MAX - n {
        Ok(n + many)
    } else {
        Err(OutOfMemory)
    }
}
