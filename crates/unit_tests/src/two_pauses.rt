//! The two pauses of `drain_rows`.
use drain_examples::journals::{HOLD_BEGUN, RING_BEGUN, hold_pause, ring_pause};
use drain_examples::states::work_at;
use journal_types::Reply;
use plain_walk::WalkedStack;

fn count_waits(stack: &WalkedStack) -> usize {
    let mut n: usize = 0;
    for turn in stack.journal().turns() {
        if matches!(turn.reply, Reply::Waiting { .. }) {
            n = n.saturating_add(1);
        }
    }
    n
}

fn ends_paused(stack: &WalkedStack) -> bool {
    match stack.journal().turns() {
        [.., turn] => matches!(turn.reply, Reply::Paused),
        _ => false,
    }
}

#[test]
fn a_ring_is_emptied_by_two_drains(rt: HostRuntime) {
    let Ok(Some(stack)) = ring_pause(rt.alloc()) else {
        panic!(rt; "the journal is not there");
    };
    assert_eq!(rt; stack.journal().turns().len(), 14);
    assert_eq!(rt; count_waits(&stack), 2);
    assert!(rt; ends_paused(&stack));
    assert!(rt; matches!(work_at(rt.alloc(), &stack, RING_BEGUN), Ok(2)));
    assert!(rt; matches!(work_at(rt.alloc(), &stack, 10), Ok(1)));
    assert!(rt; matches!(work_at(rt.alloc(), &stack, 14), Ok(0)));
}

#[test]
fn a_hold_filter_is_emptied_by_five_drains(rt: HostRuntime) {
    let Ok(Some(stack)) = hold_pause(rt.alloc()) else {
        panic!(rt; "the journal is not there");
    };
    assert_eq!(rt; stack.journal().turns().len(), 22);
    assert_eq!(rt; count_waits(&stack), 5);
    assert!(rt; ends_paused(&stack));
    assert!(rt; matches!(work_at(rt.alloc(), &stack, HOLD_BEGUN), Ok(5)));
    assert!(rt; matches!(work_at(rt.alloc(), &stack, 22), Ok(0)));
}
