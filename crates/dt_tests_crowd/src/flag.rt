//! What one thread raises and another waits for.
use std::process::Abort;
use std::sync::atomic::{AtomicBool, Ordering};
use std::thread;
use std::time::{Clock, Duration};

/// How many sleeps of a millisecond a thread waits before the test fails.
const SLEEPS: u32 = 10_000;

/// What one thread raises and another waits for.
#[derive(Drop)]
pub(crate) struct Flag {
    raised: AtomicBool,
}

impl Flag {
    pub(crate) fn new() -> Flag {
        Flag {
            raised: AtomicBool::new(false),
        }
    }

    pub(crate) fn raise(&self) {
        self.raised.store(true, Ordering::SeqCst);
    }

    pub(crate) fn is_raised(&self) -> bool {
        self.raised.load(Ordering::SeqCst)
    }

    /// Waits until it is raised. The test fails if nobody raises it.
    pub(crate) fn wait<R: Clock + Abort>(&self, rt: &R) {
        for _ in 0..SLEEPS {
            if self.is_raised() {
                return;
            }
            thread::sleep(rt, Duration::from_millis(1));
        }
        assert!(rt; false, "nobody came");
    }
}
