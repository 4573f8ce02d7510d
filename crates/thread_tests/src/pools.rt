//! Workers that wait for one another, against the order in which they stand.
use std::alloc::Global;
use std::process::Abort;
use std::sync::Wait;
use std::sync::atomic::{AtomicU64, Ordering};
use std::test::Fail;
use std::thread::{Threads, yield_now};
use updater_pool::{Worker, run_beside};

/// Ends once the flag that it waits for is up, or where it gave up, and puts its own up.
#[derive(Drop)]
struct Chained<'a> {
    name: u64,
    waits_for: &'a AtomicU64,
    own: &'a AtomicU64,
}

/// Whether it gave up, beside its name.
type Ended = (u64, bool);

impl<'a> Worker for Chained<'a> {
    type Out = Ended;

    ghost ready = { λ w. Unit {0} };

    ghost works = { λ w out. Unit {0} };

    fn work(self) -> Ended {
        let Chained {
            name,
            waits_for,
            own,
        } = self;
        let gave_up = !is_up(waits_for);
        own.store(1, Ordering::SeqCst);
        (name, gave_up)
    }
}

/// Whether the flag comes up in time.
fn is_up(flag: &AtomicU64) -> bool {
    for _ in 0..10_000_000u64 {
        if flag.load(Ordering::SeqCst) == 1 {
            return true;
        }
        yield_now();
    }
    false
}

/// Three workers, each of which ends after the one behind it, and the caller's own work, which lets the last one end.
fn chain<R: Threads + Wait + Abort + Sync>(rt: &R, alloc: Global) -> Result<(), Fail> {
    let up = AtomicU64::new(1);
    let here = AtomicU64::new(0);
    let third = AtomicU64::new(0);
    let second = AtomicU64::new(0);
    let first = AtomicU64::new(0);
    let mut workers = Vec::new(alloc);
    workers.push(link(1, &second, &first))?;
    workers.push(link(2, &third, &second))?;
    workers.push(link(3, &here, &third))?;
    match run_beside(rt, alloc, workers, link(4, &up, &here)) {
        Ok((outs, own)) => {
            assert!(rt; outs.as_slice() == [(1, false), (2, false), (3, false)].as_slice());
            assert!(rt; own == (4, false));
            Ok(())
        }
        Err(_) => Err(Fail::new("no memory")),
    }
}

fn link<'a>(name: u64, waits_for: &'a AtomicU64, own: &'a AtomicU64) -> Chained<'a> {
    Chained {
        name,
        waits_for,
        own,
    }
}

#[test]
fn answers_in_the_order_of_the_workers(rt: HostRuntime) -> Result<(), Fail> {
    chain(&rt, rt.alloc())
}
