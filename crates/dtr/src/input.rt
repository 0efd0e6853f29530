//! The end of standard input.

use crate::fault::Trouble;
use std::alloc::Global;
use std::io::{Read, Stdin};
use std::sync::Arc;
use std::sync::atomic::{AtomicBool, Ordering};
use std::thread;
use std::thread::Threads;

/// Starts a thread that reads standard input, and gives what it sets once the input has ended. The end of the process ends the thread.
pub(crate) fn watch_input<R: Threads>(
    rt: &R,
    alloc: Global,
    input: Stdin,
) -> Result<Arc<AtomicBool>, Trouble> {
    let ended = Arc::new(alloc, AtomicBool::new(false))?;
    let theirs = Arc::try_clone(&ended)?;
    let spawned = thread::spawn(rt, move || {
        read_all(input);
        theirs.store(true, Ordering::SeqCst);
    });
    match spawned {
        Ok(handle) => drop(handle),
        Err(_) => return Err(Trouble::Memory),
    }
    Ok(ended)
}

/// Reads standard input to its end, or to its first fault.
fn read_all(mut input: Stdin) {
    let mut buffer = [0_u8; 512];
    for _ in 0..u64::MAX {
        match input.read(&mut buffer) {
            Ok(0) | Err(_) => return,
            Ok(_) => {}
        }
    }
}
