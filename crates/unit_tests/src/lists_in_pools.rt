//! Lists of a pool, of `buffer_pools`.
use buffer_pools::{KeptList, Label, ListPool};
use ndis_base::{ConfigNo, Direction, Frame, ListNo, ModuleId, Origin, OutOfMemory};
use std::test::Fail;

fn label(number: u64) -> Label {
    Label {
        number: ListNo(number),
        owner: ModuleId::Binding(0),
        config: ConfigNo(1),
        direction: Direction::Down,
        cancel: None,
        origin: Origin::Root,
    }
}

fn may_go_to_another_thread<T: Send>(_value: &T) {}

#[test]
fn one_list_at_a_time(rt: HostRuntime) -> Result<(), Fail> {
    let mut pool = ListPool::make(rt.alloc(), 1, 4)?;
    may_go_to_another_thread(&pool);
    let frame = Frame::make(rt.alloc(), &[1, 2, 3])?;
    let frames = [frame];
    let list = pool.issue(label(1), &frames).map_err(|_| OutOfMemory)?;
    may_go_to_another_thread(&list);
    let kept = KeptList::of(list);
    may_go_to_another_thread(&kept);
    assert_eq!(rt; kept.list().buffers(), 1);
    pool.free(kept.into_list());
    assert_eq!(rt; pool.live(), 0);
    Ok(())
}
