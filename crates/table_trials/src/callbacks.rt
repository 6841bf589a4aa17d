use reset_callbacks::{CountedHook, Pending, ResetHook, Shelf};

#[test]
fn runs_are_counted(rt: HostRuntime) {
    let mut hook = CountedHook::new(7);
    assert!(rt; (hook.word(), hook.runs()) == (7, 0));
    hook.run();
    assert!(rt; (hook.word(), hook.runs()) == (7, 1));
}

#[test]
fn pending_gives_the_newest(rt: HostRuntime) {
    let mut pending = Pending::new(rt.alloc());
    assert!(rt; pending.is_empty());
    for word in 1..4 {
        pending
            .push(CountedHook::new(word))
            .map_err(|_| "no memory")
            .expect(&rt, "it is served");
    }
    assert!(rt; !pending.is_empty());
    for word in [3, 2, 1] {
        assert!(rt;
            pending
                .pop()
                .ok_or("empty")
                .expect(&rt, "it is served")
                .word()
                == word
        );
    }
    assert!(rt; pending.pop().is_none());
}

#[test]
fn take_gives_the_least(rt: HostRuntime) {
    let alloc = rt.alloc();
    let mut fresh = Vec::new(alloc);
    fresh.push(CountedHook::new(3)).expect(&rt, "it is served");
    fresh.push(CountedHook::new(5)).expect(&rt, "it is served");
    let mut shelf = Shelf::new(alloc, fresh).expect(&rt, "it is served");
    assert!(rt; (shelf.fresh(), shelf.spent()) == (2, 0));
    let first = shelf.take().ok_or("no hook").expect(&rt, "it is served");
    assert!(rt; first.word() == 3);
    shelf.finish(first);
    assert!(rt; (shelf.fresh(), shelf.spent()) == (1, 1));
    let second = shelf.take().ok_or("no hook").expect(&rt, "it is served");
    assert!(rt; second.word() == 5);
    assert!(rt; shelf.take().is_none());
    shelf.put_back(second);
    assert!(rt; (shelf.fresh(), shelf.spent()) == (1, 1));
    shelf.renew();
    assert!(rt; (shelf.fresh(), shelf.spent()) == (2, 0));
    assert!(rt;
        shelf
            .take()
            .ok_or("no hook")
            .expect(&rt, "it is served")
            .word()
            == 3
    );
    assert!(rt;
        shelf
            .take()
            .ok_or("no hook")
            .expect(&rt, "it is served")
            .word()
            == 5
    );
}
