//! The journal of one frame that is sent, of `law_rows`.
use law_examples::one_frame;

#[test]
fn one_frame_is_walked_to_its_end(rt: HostRuntime) {
    let Ok(Some(stack)) = one_frame(rt.alloc()) else {
        panic!(rt; "the journal is not there");
    };
    assert_eq!(rt; stack.journal().turns().len(), 16);
}
