//! The report of a flat journal, of `flat_report`.
use crate::flat_copies::flat_copy;
use drain_examples::journals::hold_pause;
use flat_report::write_flat_report;
use ndis_journal::write_text;
use outside_io::MemorySink;
use std::test::Fail;

#[test]
fn a_flat_journal_has_the_same_text(rt: HostRuntime) -> Result<(), Fail> {
    let alloc = rt.alloc();
    let Ok(Some(stack)) = hold_pause(alloc) else {
        panic!(rt; "the journal is not there");
    };
    let mut journals = Vec::new(alloc);
    journals.push(flat_copy(alloc, stack.journal())?)?;
    let mut sink = MemorySink::make(alloc, 10_000, Vec::new(alloc))?;
    let written = write_flat_report(alloc, &mut sink, &journals, &[]);
    assert!(rt; written == Ok(()));
    let mut text = Vec::new(alloc);
    write_text(stack.journal(), &mut text)?;
    assert!(rt; text.len() > 1000);
    assert_eq!(rt; sink.bytes(), text.as_slice());
    Ok(())
}
