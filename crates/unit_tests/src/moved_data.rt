//! The data of a buffer, of `net_buffer`.
use net_buffer::NetBuffer;
use std::test::Fail;

#[test]
fn data_move_within_the_block(rt: HostRuntime) -> Result<(), Fail> {
    let mut buffer = NetBuffer::make(rt.alloc(), 6)?;
    assert_eq!(rt; buffer.room(), 6);
    buffer.place(2, &[7, 8, 9]);
    assert_eq!(rt; buffer.data(), [7, 8, 9].as_slice());
    assert_eq!(rt; buffer.retreat(1), Ok(()));
    assert_eq!(rt; buffer.data(), [0, 7, 8, 9].as_slice());
    assert_eq!(rt; buffer.advance(3), Ok(()));
    let mut out = [1; 3];
    let copied = buffer.copy_out(&mut out);
    assert_eq!(rt; copied, 1);
    assert_eq!(rt; out, [9, 1, 1]);
    Ok(())
}
