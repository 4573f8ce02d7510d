//! Eight threads that take turns on one value.
ghost use Rattle.std.specs.Prelude.{◌≡◌, ◌+◌, true, false};
ghost use Rattle.thread_tests.specs.Passes.{IsStill, MayTurn};

use crate::counter::{Counter, pause, raise};
use seated_lock::{Pass, SeatedLock};
use std::alloc::Global;
use std::process::Abort;
use std::sync::Wait;
use std::test::Fail;
use std::thread::{Threads, join};

const TURNS: u64 = 1000;

/// Turns that add nothing, and whether no number that was read lay below the one before.
fn pauses<R: Wait>(rt: &R, lock: &SeatedLock<Counter>, mut pass: Pass) -> (Pass, bool)
    requires { pass.lock ≡ lock.now.id }
    ensures { IsStill pass result.0 }
{
    let mut rises = true;
    let mut last = 0;
    for _ in 0..TURNS {
        pass = pause(rt, lock, pass);
        let number = lock.number(&mut pass);
        rises = rises && last <= number;
        last = number;
    }
    (pass, rises)
}

/// Turns that raise the number by one, and whether each number that was read lay above the one before.
fn raises<R: Wait>(rt: &R, lock: &SeatedLock<Counter>, mut pass: Pass) -> (Pass, bool)
    requires { MayTurn lock.now.id true pass }
    ensures { IsStill pass result.0 }
{
    let mut rises = true;
    let mut last = 0;
    for _ in 0..TURNS {
        pass = raise(rt, lock, pass);
        let number = lock.number(&mut pass);
        rises = rises && last < number;
        last = number;
    }
    (pass, rises)
}

/// The turns of two threads, the first of which may raise the number.
fn two<R: Threads + Wait + Sync>(
    rt: &R,
    lock: &SeatedLock<Counter>,
    raising: bool,
    a: Pass,
    b: Pass,
) -> (Pass, bool)
    requires { MayTurn lock.now.id raising a × (b.lock ≡ lock.now.id) }
    ensures { (result.0.lock ≡ a.lock) × (result.0.seats ≡ a.seats + b.seats) }
{
    let ((a, x), (b, y)) = join(
        rt,
        || -> (Pass, bool)
            requires { MayTurn lock.now.id raising a }
            ensures { IsStill a result.0 }
        {
            if raising {
                raises(rt, lock, a)
            } else {
                pauses(rt, lock, a)
            }
        },
        || -> (Pass, bool)
            requires { b.lock ≡ lock.now.id }
            ensures { IsStill b result.0 }
        { pauses(rt, lock, b) },
    );
    (lock.join(a, b), x && y)
}

/// The turns of four threads.
fn four<R: Threads + Wait + Sync>(
    rt: &R,
    lock: &SeatedLock<Counter>,
    raising: bool,
    a: Pass,
    b: Pass,
    c: Pass,
    d: Pass,
) -> (Pass, bool)
    requires { MayTurn lock.now.id raising a × (b.lock ≡ lock.now.id) × (c.lock ≡ lock.now.id) × (d.lock ≡ lock.now.id) }
    ensures { (result.0.lock ≡ a.lock) × (result.0.seats ≡ a.seats + b.seats + c.seats + d.seats) }
{
    let ((one, x), (other, y)) = join(
        rt,
        || -> (Pass, bool)
            requires { MayTurn lock.now.id raising a × (b.lock ≡ lock.now.id) }
            ensures { (result.0.lock ≡ a.lock) × (result.0.seats ≡ a.seats + b.seats) }
        { two(rt, lock, raising, a, b) },
        || -> (Pass, bool)
            requires { (c.lock ≡ lock.now.id) × (d.lock ≡ lock.now.id) }
            ensures { (result.0.lock ≡ c.lock) × (result.0.seats ≡ c.seats + d.seats) }
        { two(rt, lock, false, c, d) },
    );
    (lock.join(one, other), x && y)
}

fn count<R: Threads + Wait + Abort + Sync>(rt: &R, alloc: Global) -> Result<(), Fail> {
    let counter = Counter {
        entries: Vec::new(alloc),
        number: 0,
        turns: 0,
    };
    let (lock, mut pass) = match SeatedLock::make(alloc, counter, 8) {
        Ok(made) => made,
        Err(_) => return Err(Fail::new("no memory")),
    };
    let a = lock.split(&mut pass);
    let b = lock.split(&mut pass);
    let c = lock.split(&mut pass);
    let d = lock.split(&mut pass);
    let e = lock.split(&mut pass);
    let f = lock.split(&mut pass);
    let g = lock.split(&mut pass);
    assert_eq!(rt; lock.seats_left(&pass), 0);
    let ((one, x), (other, y)) = join(
        rt,
        || -> (Pass, bool)
            requires { MayTurn lock.id true pass × (a.lock ≡ lock.id) × (b.lock ≡ lock.id) × (c.lock ≡ lock.id) }
            ensures { (result.0.lock ≡ pass.lock) × (result.0.seats ≡ pass.seats + a.seats + b.seats + c.seats) }
        { four(rt, &lock, true, pass, a, b, c) },
        || -> (Pass, bool)
            requires { (d.lock ≡ lock.id) × (e.lock ≡ lock.id) × (f.lock ≡ lock.id) × (g.lock ≡ lock.id) }
            ensures { (result.0.lock ≡ d.lock) × (result.0.seats ≡ d.seats + e.seats + f.seats + g.seats) }
        { four(rt, &lock, false, d, e, f, g) },
    );
    assert!(rt; x && y);
    let mut pass = lock.join(one, other);
    assert_eq!(rt; lock.number(&mut pass), TURNS);
    let counter = lock.close(pass);
    assert_eq!(rt; counter.turns, 8 * TURNS);
    assert_eq!(rt; counter.number, TURNS);
    Ok(())
}

#[test]
fn eight_threads_take_turns(rt: HostRuntime) -> Result<(), Fail> {
    count(&rt, rt.alloc())
}
