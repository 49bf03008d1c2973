//! The start of all threads: no instance begins before all threads are known to have started or one
//! was refused.

use std::sync::atomic::{AtomicBool, Ordering};
use std::thread;

/// The greatest number of times that a thread checks whether all were started, before it begins
/// without knowing.
const LOOKS: u32 = u32::MAX;

/// Whether all threads were started, and whether one was refused.
#[derive(Drop)]
pub(crate) struct Start {
    complete: AtomicBool,
    refused: AtomicBool,
}

impl Start {
    /// Neither is noted.
    pub fn new() -> Start {
        Start {
            complete: AtomicBool::new(false),
            refused: AtomicBool::new(false),
        }
    }

    /// Notes that all threads were started.
    pub fn complete(&self) {
        self.complete.store(true, Ordering::SeqCst);
    }

    /// Notes that a thread was refused.
    pub fn refuse(&self) {
        self.refused.store(true, Ordering::SeqCst);
    }

    /// Waits until either is noted, and returns whether a thread was refused. Instances that begin
    /// earlier could wait for each other, and for one that never begins, until their patience ends.
    pub fn was_refused(&self) -> bool {
        for _ in 0..LOOKS {
            if self.refused.load(Ordering::SeqCst) {
                return true;
            }
            if self.complete.load(Ordering::SeqCst) {
                return false;
            }
            thread::yield_now();
        }
        false
    }
}
