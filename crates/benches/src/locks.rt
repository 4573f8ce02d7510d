//! Turns of several threads on one lock.
ghost use Rattle.std.specs.Prelude.{◌≡◌, ◌+◌, ◌^◌, ◌<◌, true, false};
ghost use Rattle.seated_lock.specs.Ids.{LockId-set};

use seated_lock::{Marked, Pass, Refused, SeatedLock, Told};
use std::alloc::Global;
use std::io;
use std::sync::Wait;
use std::thread::Threads;
use std::time::{Clock, Instant};
use updater_pool::{Worker, run_beside};

const TURNS: u64 = 1_000;

/// A number, which the writing pass raises.
#[derive(Drop)]
struct Count {
    number: u64,
}

impl Told for Count {
    ghost use Rattle.std.specs.Prelude.{◌≡◌, [], false};

    ghost stands = { λ first story count. (story.entries ≡ []) × (story.ended ≡ false) };

    ghost reach = { λ count. count.number };

    ghost mark = { ⟦<Count as Marked>⟧.mark };

    ghost exact = { ⟦<Count as Marked>⟧.exact };

    fn number(&self) -> u64 {
        self.number
    }
}

/// A turn that leaves the number.
fn pause<R: Wait>(rt: &R, lock: &SeatedLock<Count>, pass: Pass) -> Pass
    requires { pass.lock ≡ lock.now.id }
    ensures { result.lock ≡ pass.lock }
{
    lock.give(lock.take(rt, pass))
}

/// A turn that raises the number.
fn raise<R: Wait>(rt: &R, lock: &SeatedLock<Count>, pass: Pass) -> Pass
    requires lock { (pass.lock ≡ lock.now.id) × (pass.writes ≡ true) }
    requires room { pass.story.number + 1 < 2 ^ 64 }
    ensures same { (result.lock ≡ pass.lock) × (result.writes ≡ true) }
    ensures raised { result.story.number ≡ pass.story.number + 1 }
{
    let mut turn = lock.take(rt, pass);
    let value = turn.value();
    value.number += 1;
    lock.give(turn)
}

/// A thread that leaves the number.
#[derive(Drop)]
struct Pausing<'a, R: Wait> {
    rt: &'a R,
    lock: &'a SeatedLock<Count>,
    pass: Pass,
}

impl<'a, R: Wait> Worker for Pausing<'a, R> {
    type Out = ();

    ghost use Rattle.std.specs.Prelude.{◌≡◌};

    ghost ready = { λ w. w.pass.lock ≡ w.lock.now.id };

    ghost works = { λ w out. Unit {0} };

    fn work(self) {
        let Pausing { rt, lock, mut pass } = self;
        for _ in 0..TURNS {
            pass = pause(rt, lock, pass);
        }
    }
}

/// The thread that raises it.
#[derive(Drop)]
struct Raising<'a, R: Wait> {
    rt: &'a R,
    lock: &'a SeatedLock<Count>,
    pass: Pass,
}

impl<'a, R: Wait> Worker for Raising<'a, R> {
    type Out = ();

    ghost use Rattle.std.specs.Prelude.{◌≡◌, true};

    ghost ready = { λ w. (w.pass.lock ≡ w.lock.now.id) × (w.pass.writes ≡ true) × (w.pass.story.number ≡ 0) };

    ghost works = { λ w out. Unit {0} };

    fn work(self) {
        let Raising { rt, lock, mut pass } = self;
        for _ in 0..TURNS {
            pass = raise(rt, lock, pass);
        }
    }
}

/// The nanoseconds of a turn, where one thread raises the number and so many others leave it.
pub(crate) fn turns<R: Threads + Wait + Clock + Sync>(
    rt: &R,
    alloc: Global,
    others: u32,
) -> io::Result<u128>
    requires { others < 8 }
{
    let Ok((lock, mut pass)) = SeatedLock::make(alloc, Count { number: 0 }, others + 1) else {
        return Err(io::ErrorKind::OutOfMemory)?;
    };
    let mut pausing = Vec::new(alloc);
    for _ in 0..others {
        let pass = lock.split(&mut pass);
        let lock = &lock;
        pausing.push(Pausing { rt, lock, pass })?;
    }
    let lock = &lock;
    let start = Instant::now(rt)?;
    match run_beside(rt, alloc, pausing, Raising { rt, lock, pass }) {
        Ok(_) => {}
        Err(_) => return Err(io::ErrorKind::OutOfMemory)?,
    }
    let elapsed = start.elapsed(rt)?;
    Ok(elapsed.as_nanos() / u128::from((u64::from(others) + 1) * TURNS))
}
