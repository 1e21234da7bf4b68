// Frames that are taken and given back.
use frame_pool::FramePool;
use mck_word::Frame;

#[test]
fn lowest_first(rt: HostRuntime) {
    let made = FramePool::new(rt.alloc(), 3);
    assert!(rt; made.is_ok());
    if let Ok(mut pool) = made {
        assert_eq!(rt; pool.free(), 3);
        assert_eq!(rt; pool.take(), Some(Frame(0)));
        assert_eq!(rt; pool.take(), Some(Frame(1)));
        assert_eq!(rt; pool.take(), Some(Frame(2)));
        assert_eq!(rt; pool.take(), None);
        assert_eq!(rt; pool.free(), 0);
    }
}

#[test]
fn given_back(rt: HostRuntime) {
    let made = FramePool::new(rt.alloc(), 2);
    assert!(rt; made.is_ok());
    if let Ok(mut pool) = made {
        if let Some(first) = pool.take() {
            assert_eq!(rt; first, Frame(0));
            assert_eq!(rt; pool.take(), Some(Frame(1)));
            assert_eq!(rt; pool.take(), None);
            pool.give(first);
            assert_eq!(rt; pool.free(), 1);
            assert_eq!(rt; pool.take(), Some(Frame(0)));
        }
    }
}
