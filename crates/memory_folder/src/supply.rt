//! The power of folders in memory.
use std::alloc::{AllocError, Global};
use std::sync::Arc;
use std::sync::atomic::{AtomicU64, Ordering};

/// More calls than are ever made.
const NO_END: u64 = u64::MAX;

/// The power of a folder, which goes at a chosen call of the system: that call and each later one are
/// refused. Where it goes for one folder of a node it goes for all of them.
#[derive(Drop)]
pub struct Supply {
    alloc: Global,
    left: Arc<AtomicU64, Global>,
    gone: Arc<AtomicU64, Global>,
}

impl Supply {
    /// The power of a node's first folder.
    pub fn new(alloc: Global) -> Result<Supply, AllocError> {
        let left = Arc::new(alloc, AtomicU64::new(NO_END))?;
        let gone = Arc::new(alloc, AtomicU64::new(0))?;
        Ok(Supply { alloc, left, gone })
    }

    /// The power of another folder of the same node.
    pub fn beside(&self) -> Result<Supply, AllocError> {
        let left = Arc::new(self.alloc, AtomicU64::new(NO_END))?;
        let gone = Arc::try_clone(&self.gone)?;
        Ok(Supply {
            alloc: self.alloc,
            left,
            gone,
        })
    }

    /// The power of the same folder.
    pub fn shared(&self) -> Result<Supply, AllocError> {
        let left = Arc::try_clone(&self.left)?;
        let gone = Arc::try_clone(&self.gone)?;
        Ok(Supply {
            alloc: self.alloc,
            left,
            gone,
        })
    }

    /// The power goes at the call behind so many more.
    pub fn end_after(&self, calls: u64) {
        self.left.store(calls, Ordering::SeqCst);
    }

    /// Whether the power is gone.
    pub fn is_gone(&self) -> bool {
        self.gone.load(Ordering::SeqCst) != 0
    }

    /// The power is there again, and stays. Answers how many calls were left before it was to go.
    pub fn turn_on(&self) -> u64 {
        self.gone.store(0, Ordering::SeqCst);
        self.left.swap(NO_END, Ordering::SeqCst)
    }

    /// Counts a call of the system. Whether there is power for it.
    pub(crate) fn takes_call(&self) -> bool {
        if self.is_gone() {
            return false;
        }
        let left = self.left.load(Ordering::SeqCst);
        if left == 0 {
            self.left.store(NO_END, Ordering::SeqCst);
            self.gone.store(1, Ordering::SeqCst);
            return false;
        }
        if left != NO_END {
            self.left.store(left - 1, Ordering::SeqCst);
        }
        true
    }
}
