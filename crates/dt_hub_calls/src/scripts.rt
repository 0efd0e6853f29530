//! The text of a machine whose scripts are long.
use std::alloc::{AllocError, Global};

/// A machine's text: its head, and then for each processor a script that repeats the same firings.
pub fn with_scripts(
    alloc: Global,
    head: &str,
    cpus: u32,
    firings: &str,
    times: u32,
) -> Result<String, AllocError> {
    let mut text = String::new(alloc);
    text.push_str(head)?;
    for cpu in 0..cpus {
        text.push_str(if cpu == 0 { "[" } else { ",[" })?;
        for time in 0..times {
            text.push_str(if time == 0 { "" } else { "," })?;
            text.push_str(firings)?;
        }
        text.push_str("]")?;
    }
    text.push_str("]}")?;
    Ok(text)
}
