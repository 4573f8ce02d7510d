//! A gate at which two updaters wait for each other.
use rdf_ports::Gate;
use rdf_types::records::VolNo;
use std::sync::atomic::{AtomicU64, Ordering};
use std::thread::yield_now;

/// Holds each of two volumes at its first apply until the other's call has come.
#[derive(Drop)]
pub(crate) struct Meeting {
    first: AtomicU64,
    second: AtomicU64,
    late: AtomicU64,
}

impl Meeting {
    /// Nobody has come yet.
    pub(crate) fn new() -> Meeting {
        Meeting {
            first: AtomicU64::new(0),
            second: AtomicU64::new(0),
            late: AtomicU64::new(0),
        }
    }

    /// Whether both calls came, and neither waited in vain.
    pub(crate) fn was_held(&self) -> bool {
        self.first.load(Ordering::SeqCst) == 1
            && self.second.load(Ordering::SeqCst) == 1
            && self.late.load(Ordering::SeqCst) == 0
    }
}

impl Gate for Meeting {
    fn before_apply(&self, vol: VolNo) {
        let (own, other) = if vol == VolNo(0) {
            (&self.first, &self.second)
        } else {
            (&self.second, &self.first)
        };
        own.store(1, Ordering::SeqCst);
        for _ in 0..10_000_000u64 {
            if other.load(Ordering::SeqCst) == 1 {
                return;
            }
            yield_now();
        }
        self.late.fetch_add(1, Ordering::SeqCst);
    }
}
