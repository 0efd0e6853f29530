//! The limits of a machine and of its file.

/// The most processors that a machine has. It has one at least.
pub const CPUS_MAX: u32 = 64;

/// The most accounts.
pub const ACCOUNTS_MAX: usize = 16;

/// The most processes.
pub const PROCESSES_MAX: usize = 1024;

/// The greatest number of a process: six digits.
pub const PID_MAX: u32 = 999_999;

/// The most probes of the file.
pub const PROBES_MAX: usize = 4096;

/// The identifier of the file's first probe: `BEGIN` and `END` have 1 and 2, and the file's probes follow.
pub const FIRST_PROBE_ID: u32 = 3;

/// The greatest identifier of a probe: that of the last of the file, where it has as many as it may.
pub const PROBE_ID_MAX: u32 = FIRST_PROBE_ID + PROBES_MAX as u32 - 1;

/// The most firings of a processor's script.
pub const SCRIPT_MAX: usize = 65_536;
