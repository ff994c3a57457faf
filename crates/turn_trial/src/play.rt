ghost use Rattle.std.specs.Prelude.{◌≡◌, ◌+◌, ◌<◌, ◌≤◌, length, IfSome, true};
ghost use Rattle.turn_lock.specs.declared.logged.Role.TheVariants.{Hand};
ghost use Rattle.turn_trial.specs.Trial.{IsOutside, GoesOn, HasOpened, HasServed};

use crate::notes::Notes;
use std::sync::Wait;
use turn_lock::{Logged, Pass, Role, TurnLock};

/// Says a number in one turn, where there is memory.
pub fn say<R: Wait>(rt: &R, lock: &TurnLock<Notes>, pass: &mut Pass<Notes>, role: Role, number: u32)
    requires outside { IsOutside lock.now pass.old }
    requires role { role ≡ pass.old.role }
    ensures goes_on { GoesOn lock.now pass.old pass.new }
    ensures looked { length pass.new.looks ≡ length pass.old.looks + 1 }
{
    let mut held = lock.take(rt, pass);
    let _ = held.value.say(role, number);
    lock.give(pass, held);
}

/// Says the numbers below `count`, each in a turn of its own.
pub fn say_often<R: Wait>(
    rt: &R,
    lock: &TurnLock<Notes>,
    pass: &mut Pass<Notes>,
    role: Role,
    count: u32,
)
    requires outside { IsOutside lock.now pass.old }
    requires role { role ≡ pass.old.role }
    ensures goes_on { GoesOn lock.now pass.old pass.new }
    ensures looked { length pass.new.looks ≡ length pass.old.looks + count }
{
    for i in 0..count {
        say(rt, lock, pass, role, i);
    }
}

/// Waits until there are more notes than the pass has seen, and answers how many there are.
pub fn see_more<R: Wait>(rt: &R, lock: &TurnLock<Notes>, pass: &mut Pass<Notes>) -> u64
    requires { IsOutside lock.now pass.old }
    ensures goes_on { GoesOn lock.now pass.old pass.new }
    ensures seen { result ≡ length pass.new.seen }
    ensures more { length pass.old.seen < result }
{
    lock.wait_for_more(rt, pass);
    see(rt, lock, pass)
}

/// Opens a session in one turn, and closes it in another. `None` is want of memory, or of a number.
pub fn serve<R: Wait>(rt: &R, lock: &TurnLock<Notes>, pass: &mut Pass<Notes>) -> Option<u32>
    requires outside { IsOutside lock.now pass.old }
    requires hand { pass.old.role ≡ Hand }
    ensures goes_on { GoesOn lock.now pass.old pass.new }
    ensures served { IfSome result (λ s. HasServed s pass.new) }
    ensures looked { length pass.old.looks < length pass.new.looks }
{
    let session = open(rt, lock, pass)?;
    if close(rt, lock, pass, session) {
        Some(session)
    } else {
        None
    }
}

/// Serves some sessions, one after another.
pub fn serve_often<R: Wait>(rt: &R, lock: &TurnLock<Notes>, pass: &mut Pass<Notes>, count: u32)
    requires outside { IsOutside lock.now pass.old }
    requires hand { pass.old.role ≡ Hand }
    ensures goes_on { GoesOn lock.now pass.old pass.new }
    ensures looked { length pass.old.looks + count ≤ length pass.new.looks }
{
    for _ in 0..count {
        let _ = serve(rt, lock, pass);
    }
}

/// How many notes there are.
pub fn see<R: Wait>(rt: &R, lock: &TurnLock<Notes>, pass: &mut Pass<Notes>) -> u64
    requires { IsOutside lock.now pass.old }
    ensures goes_on { GoesOn lock.now pass.old pass.new }
    ensures seen { result ≡ length pass.new.seen }
    ensures least { pass.old.least ≤ result }
{
    let held = lock.take(rt, pass);
    let count = held.value.entries();
    lock.give(pass, held);
    count
}

fn open<R: Wait>(rt: &R, lock: &TurnLock<Notes>, pass: &mut Pass<Notes>) -> Option<u32>
    requires outside { IsOutside lock.now pass.old }
    requires hand { pass.old.role ≡ Hand }
    ensures goes_on { GoesOn lock.now pass.old pass.new }
    ensures opened { IfSome result (λ s. HasOpened s pass.new) }
    ensures looked { length pass.new.looks ≡ length pass.old.looks + 1 }
{
    let mut held = lock.take(rt, pass);
    let session = held.value.open();
    lock.give(pass, held);
    session
}

fn close<R: Wait>(rt: &R, lock: &TurnLock<Notes>, pass: &mut Pass<Notes>, session: u32) -> bool
    requires outside { IsOutside lock.now pass.old }
    requires hand { pass.old.role ≡ Hand }
    requires opened { HasOpened session pass.old }
    ensures goes_on { GoesOn lock.now pass.old pass.new }
    ensures served { result ≡ true → HasServed session pass.new }
    ensures looked { length pass.new.looks ≡ length pass.old.looks + 1 }
{
    let mut held = lock.take(rt, pass);
    let closed = held.value.close(session);
    lock.give(pass, held);
    closed
}
