//! The standard streams are held, so that no socket or file takes the number of a closed one.

use crate::fault::Trouble;
use std::fs::File;
use std::os::fd::{AsFd, IntoRawFd};

/// Puts `/dev/null`, opened for reading, where standard input, output or error is closed. So what is read there has ended, and what is written there fails.
pub(crate) fn hold_streams(rt: &HostRuntime) -> Result<(), Trouble> {
    hold(rt, &rt.stdin())?;
    hold(rt, &rt.stdout())?;
    hold(rt, &rt.stderr())
}

/// Puts `/dev/null` where a stream is closed: it gets the least number that is free, and those before it are held.
fn hold<S: AsFd>(rt: &HostRuntime, stream: &S) -> Result<(), Trouble> {
    if is_open(stream) {
        return Ok(());
    }
    match File::open(rt, "/dev/null") {
        Ok(file) => {
            let _number = file.into_raw_fd();
            Ok(())
        }
        Err(_) => Err(Trouble::Output),
    }
}

/// Whether a stream is open: then it can be copied.
fn is_open<S: AsFd>(stream: &S) -> bool {
    stream.as_fd().try_clone_to_owned().is_ok()
}
