//! What one line asks for.
/// What a consumer asks for by one line.
#[derive(Debug, Drop)]
pub enum Command {
    /// Set an option, before tracing begins: `bufsize`, `aggsize` and `histsize` to a number, `bufpolicy` to a policy's
    /// word.
    Option { name: String, value: OptionValue },
    /// Enable the probes that a program's clauses describe.
    Enable { text: String },
    /// Begin to trace.
    Go,
    /// End tracing.
    Stop,
    /// Read the principal buffer of a processor.
    Snap { cpu: u64 },
    /// Read the table of an aggregation, by its name without the `@`.
    Agg { name: String },
    /// Forget all that was given to an aggregation so far.
    Trunc { name: String },
    /// Tell the phase and the counts.
    Status,
    /// List the probes that a description asks for.
    List { probe: String },
    /// Tell of what the records of an ECB are made.
    Describe { epid: u64 },
    /// End the session: tracing ends without a cause, and END doesn't fire.
    Close,
}

/// A value that a line gives for an option.
#[derive(Debug, Drop)]
pub enum OptionValue {
    /// A whole number, from 0 on.
    Number(u64),
    /// A text.
    Text(String),
    /// Anything else, which no option takes.
    Other,
}
