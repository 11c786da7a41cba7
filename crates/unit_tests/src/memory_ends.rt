//! Whole reads and writes in memory, of `outside_io`.
use outside_io::{MemorySink, MemorySource, ReadRefusal, read_all, write_whole};
use std::test::Fail;

#[test]
fn reads_to_the_end(rt: HostRuntime) -> Result<(), Fail> {
    let bytes = Vec::from_slice(rt.alloc(), b"abc")?;
    let mut source = MemorySource::make(bytes, Vec::new(rt.alloc()));
    let read = read_all(rt.alloc(), &mut source, 3)?;
    assert_eq!(rt; read.as_slice(), b"abc".as_slice());
    Ok(())
}

#[test]
fn reads_no_more_than_the_limit(rt: HostRuntime) -> Result<(), Fail> {
    let bytes = Vec::from_slice(rt.alloc(), b"abc")?;
    let mut source = MemorySource::make(bytes, Vec::new(rt.alloc()));
    let read = read_all(rt.alloc(), &mut source, 2);
    assert!(rt; matches!(read, Err(ReadRefusal::TooLong)));
    Ok(())
}

#[test]
fn writes_what_fits(rt: HostRuntime) -> Result<(), Fail> {
    let failing = Vec::from_slice(rt.alloc(), &[2])?;
    let mut sink = MemorySink::make(rt.alloc(), 5, failing)?;
    write_whole(&mut sink, b"abc")?;
    assert!(rt; write_whole(&mut sink, b"de").is_err());
    assert!(rt; write_whole(&mut sink, b"def").is_err());
    assert_eq!(rt; sink.bytes(), b"abcde".as_slice());
    Ok(())
}
