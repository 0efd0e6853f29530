//! What a line is answered.
use crate::phase::Phase;
use crate::refusal::Refusal;
use dt_aggfn::AggFn;
use dt_aggstore::Row;
use dt_cred::Probe;
use dt_names::ShortText;
use dt_record::Layout;

/// What a consumer is answered to one line.
#[derive(Drop)]
pub enum Reply {
    /// It is done, and there is nothing to tell.
    Done,
    /// How many ECBs a program made, and the EPID of the first.
    Enabled {
        count: u32,
        first: u32,
    },
    /// What the principal buffer of a processor held, how many records it dropped, and whether it is filled.
    Snapped {
        cpu: u32,
        data: Vec<u8>,
        drops: u64,
        filled: bool,
    },
    /// The table of an aggregation: its name, its function, and a row for each key, in order of key.
    Aggregated {
        name: ShortText,
        function: AggFn,
        rows: Vec<Row>,
    },
    /// How far the consumer has come and why it ended, how many firings it saw; for each processor how many clauses a
    /// division by zero ended there, how many values its store of aggregations did not keep, how many assignments to
    /// thread-local variables found no room there, and how many records speculations dropped there; and how many draws of an
    /// identifier failed.
    Status {
        phase: Phase,
        seen: u64,
        errors: Vec<u64>,
        aggdrops: Vec<u64>,
        dyndrops: Vec<u64>,
        specdrops: Vec<u64>,
        specfails: u64,
    },
    /// The probes that a description asks for and the account may enable, by rising identifier.
    Listed {
        probes: Vec<Probe>,
    },
    /// An ECB's probe, and of what its records are made.
    Described {
        epid: u32,
        probe: Probe,
        layout: Layout,
    },
    /// The line was refused.
    Refused(Refusal),
}
