//! The text of journals.
ghost use Rattle.std.specs.Prelude.{◌≡◌, ◌++◌, [], length, take, OnErr, OnOk};
ghost use Rattle.std.specs.List.{concat};
ghost use Rattle.ndis_journal.specs.Text.{lines, text};

use crate::lines::Lines;
use journal_store::Journal;
use journal_words::page::Page;
use ndis_base::OutOfMemory;

/// Adds the lines that are left, each over a page that is empty at its beginning.
fn push_lines(page: &mut Page, lines: &mut Lines<'_>, out: &mut Vec<u8>) -> Result<(), OutOfMemory>
    requires { page.old ≡ [] }
    ensures whole { OnOk result (out.new.items ≡ out.old.items ++ concat lines.old) }
    ensures grows { take (length out.old.items) out.new.items ≡ out.old.items }
{
    while lines.push_next(page)? {
        out.extend_from_slice(page.bytes())?;
        page.clear();
    }
    Ok(())
}

/// Appends the journal's text to `out`, which stays as it was where memory runs out.
pub fn write_text(journal: &Journal, out: &mut Vec<u8>) -> Result<(), OutOfMemory>
    ensures whole { OnOk result (out.new.items ≡ out.old.items ++ text journal.now) }
    ensures unchanged { OnErr result (out.new.items ≡ out.old.items) }
{
    let alloc = *out.allocator();
    let start = out.len();
    let mut lines = Lines::of(journal);
    let mut page = Page::empty(alloc);
    match push_lines(&mut page, &mut lines, out) {
        Ok(()) => Ok(()),
        Err(OutOfMemory) => {
            out.truncate(start);
            Err(OutOfMemory)
        }
    }
}
