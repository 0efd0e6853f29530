//! The texts that both crates of tests ask and are answered.

/// A machine of two processors, each of which makes one system call: the first by a shell, the other by cron.
pub const MACHINE: &str = r#"{"cpus":2,
"accounts":[{"name":"root","uid":0,"privs":["dtrace_kernel"]},{"name":"ann","uid":501,"privs":["dtrace_user"]},
{"name":"joe","uid":501,"privs":["proc_owner"]}],
"processes":[{"pid":100,"uid":501,"execname":"sh"},{"pid":200,"uid":0,"execname":"cron"}],
"probes":["syscall::read:entry","profile:::tick-1sec","fbt:genunix:kmem_alloc:entry"],
"scripts":[[{"probe":3,"pid":100}],[{"probe":3,"pid":200}]]}"#;

/// A session enables its first probe.
pub const ENABLE: &str = r#"{"cmd":"enable","text":"syscall::read:entry{}"}"#;

/// It enables another one.
pub const ENABLE_WRITES: &str = r#"{"cmd":"enable","text":"syscall::write:entry{}"}"#;

/// What it is answered where this is its first clause.
pub const ENABLED: &str = "{\"count\":1,\"first\":1,\"ok\":true}\n";

/// A session begins to trace.
pub const GO: &str = r#"{"cmd":"go"}"#;

/// It asks how it stands.
pub const STATUS: &str = r#"{"cmd":"status"}"#;

/// It stops.
pub const STOP: &str = r#"{"cmd":"stop"}"#;

/// What a line is answered that has nothing to tell.
pub const DONE: &str = "{\"ok\":true}\n";
