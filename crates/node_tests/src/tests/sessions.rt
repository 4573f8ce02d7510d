//! Sessions of a backup in which nothing is asked: its updaters apply what was received before, and a gate tells how.
use super::backups::{fresh, sent_images};
use fault_tables::Untold;
use rdf_backup::{Backup, Here, Session, SessionEnd};
use rdf_core::replies::Reply;
use rdf_disk::Disk;
use rdf_ports::Gate;
use rdf_types::records::{Phase, VolNo};
use std::alloc::Global;
use std::sync::Wait;
use std::sync::atomic::{AtomicU64, Ordering};
use std::test::Fail;
use std::thread::{Threads, yield_now};

/// Does nothing.
#[derive(Drop)]
struct Nothing {
    alloc: Global,
}

impl<D: Disk> Here<D> for Nothing {
    type Out = ();

    ghost Ready = { λ nothing. Unit {0} };

    ghost Drives = { λ nothing d opened out closed. Unit {0} };

    fn drive(self, session: &mut Session<'_, '_, D>) -> () {}
}

/// Whether a session of a backup that runs ends with that number.
fn ends_at<R: Threads + Wait + Sync, G: Gate + Sync>(
    rt: &R,
    alloc: Global,
    backup: &mut Backup<Untold>,
    gate: &G,
    want: u64,
) -> bool {
    let Phase::Running = backup.phase() else {
        return false;
    };
    match backup.session(rt, gate, Nothing { alloc }) {
        Ok(SessionEnd { out: _, end }) => match end {
            Ok(Reply::Number { n }) => n == want,
            _ => false,
        },
        Err(_) => false,
    }
}

/// Holds each of two volumes at its first apply until the other's call has come, for at most 100,000,000 looks.
#[derive(Drop)]
struct Meeting {
    first: AtomicU64,
    second: AtomicU64,
    late: AtomicU64,
}

impl Gate for Meeting {
    fn before_apply(&self, vol: VolNo) {
        let (own, other) = if vol == VolNo(0) {
            (&self.first, &self.second)
        } else {
            (&self.second, &self.first)
        };
        own.store(1, Ordering::SeqCst);
        for _ in 0..100_000_000u64 {
            if other.load(Ordering::SeqCst) == 1 {
                return;
            }
            yield_now();
        }
        self.late.store(1, Ordering::SeqCst);
    }
}

#[test]
fn updaters_meet_in_a_session(rt: HostRuntime) -> Result<(), Fail> {
    let alloc = rt.alloc();
    let mut backup = sent_images(alloc)?;
    let gate = Meeting {
        first: AtomicU64::new(0),
        second: AtomicU64::new(0),
        late: AtomicU64::new(0),
    };
    assert!(rt; ends_at(&rt, alloc, &mut backup, &gate, 4));
    assert!(rt; gate.first.load(Ordering::SeqCst) == 1);
    assert!(rt; gate.second.load(Ordering::SeqCst) == 1);
    assert!(rt; gate.late.load(Ordering::SeqCst) == 0);
    Ok(())
}

/// One turn of each volume, which takes all images that wait, and no turn where none is left.
#[test]
fn gate_before_each_turn(rt: HostRuntime) -> Result<(), Fail> {
    let alloc = rt.alloc();
    let mut backup = sent_images(alloc)?;
    let gate = fresh();
    for _ in 0..2 {
        assert!(rt; ends_at(&rt, alloc, &mut backup, &gate, 4));
        assert!(rt; gate.first.load(Ordering::SeqCst) == 1);
        assert!(rt; gate.second.load(Ordering::SeqCst) == 1);
    }
    Ok(())
}
