//! The standard streams are held, so that no socket or file takes the number of a closed one.

use crate::fault::Fault;
use std::fs::OpenOptions;
use std::os::fd::{AsFd, IntoRawFd};

/// Holds the numbers of those standard streams that are closed. What is read or written there fails as before.
pub(crate) fn hold_streams(rt: &HostRuntime) -> Result<(), Fault> {
    // nothing is read from what is open for writing alone, and the other way round
    hold(rt, &rt.stdin(), OpenOptions::new().write(true))?;
    hold(rt, &rt.stdout(), OpenOptions::new().read(true))?;
    hold(rt, &rt.stderr(), OpenOptions::new().read(true))
}

/// Opens `/dev/null` so where a stream is closed: it gets the least number that is free, and those before it are held.
fn hold<S: AsFd>(rt: &HostRuntime, stream: &S, options: &OpenOptions) -> Result<(), Fault> {
    if is_open(stream) {
        return Ok(());
    }
    match options.open(rt, "/dev/null") {
        Ok(file) => {
            let _number = file.into_raw_fd();
            Ok(())
        }
        Err(_) => Err(Fault::Device),
    }
}

/// Whether a stream is open: then it can be copied.
fn is_open<S: AsFd>(stream: &S) -> bool {
    stream.as_fd().try_clone_to_owned().is_ok()
}
