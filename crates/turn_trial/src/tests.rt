use super::*;
use std::test::Fail;
use std::thread::join_mut;
use turn_lock::{Role, TurnLock};

#[test]
fn two_threads_say_all(rt: HostRuntime) -> Result<(), Fail> {
    let Ok((lock, mut one)) = TurnLock::new(rt.alloc(), Notes::new(rt.alloc())) else {
        panic!(rt; "memory");
    };
    let mut two = lock.split(&mut one, Role::Hand);
    let (handle, shared) = (&rt, &lock);
    join_mut(
        &rt,
        &mut || say_often(handle, shared, &mut one, Role::Opener, 1000),
        &mut || say_often(handle, shared, &mut two, Role::Hand, 1000),
    );
    lock.join(&mut one, two);
    assert!(rt; see(&rt, &lock, &mut one) == 2000);
    Ok(())
}

#[test]
fn another_pass_sees_more(rt: HostRuntime) -> Result<(), Fail> {
    let Ok((lock, mut one)) = TurnLock::new(rt.alloc(), Notes::new(rt.alloc())) else {
        panic!(rt; "memory");
    };
    let mut two = lock.split(&mut one, Role::Hand);
    let (handle, shared) = (&rt, &lock);
    let (_, seen) = join_mut(
        &rt,
        &mut || say(handle, shared, &mut one, Role::Opener, 7),
        &mut || see_more(handle, shared, &mut two),
    );
    assert!(rt; seen == 1);
    Ok(())
}

#[test]
fn opener_and_two_hands_join(rt: HostRuntime) -> Result<(), Fail> {
    let Ok((lock, mut opener)) = TurnLock::new(rt.alloc(), Notes::new(rt.alloc())) else {
        panic!(rt; "memory");
    };
    let mut one = lock.split(&mut opener, Role::Hand);
    let mut two = lock.split(&mut one, Role::Hand);
    let (handle, shared) = (&rt, &lock);
    join_mut(
        &rt,
        &mut || serve_often(handle, shared, &mut one, 10),
        &mut || serve_often(handle, shared, &mut two, 10),
    );
    lock.join(&mut opener, one);
    lock.join(&mut opener, two);
    assert!(rt; see(&rt, &lock, &mut opener) == 40);
    Ok(())
}
