//! What is known of a session that traces, and how it is learnt: what the records of its enablings are made of.

use crate::enabling::{accepted, accepted_as};
use crate::fault::Trouble;
use crate::reading::Readings;
use crate::requests;
use crate::session::Session;
use dt_front::{RowProbe, after_byte, layout_in, number_field, text_field, unknown_epid};
use dt_record::Layout;
use serde_json::Value;
use std::alloc::Global;

/// How many enablings are described one by one at most: of more, all are learnt by one line.
pub(crate) const DESCRIBED_MOST: usize = 64;

/// Enablings, in order of EPID.
#[derive(Drop)]
pub(crate) struct Enablings {
    /// Their layouts; none where it isn't known.
    pub(crate) layouts: Vec<Layout>,
    /// Their probes, as rows have them.
    pub(crate) probes: Vec<RowProbe>,
    /// The four names of their probes.
    names: Vec<String>,
}

impl Enablings {
    /// No enablings.
    pub(crate) fn new(alloc: Global) -> Self {
        Enablings {
            layouts: Vec::new(alloc),
            probes: Vec::new(alloc),
            names: Vec::new(alloc),
        }
    }

    /// So many enablings, of which nothing is known.
    fn unknown(alloc: Global, count: u64) -> Result<Self, Trouble> {
        let mut enablings = Enablings::new(alloc);
        for _ in 0..count.min(1024) {
            enablings.push(alloc, Layout { fields: None }, 0, "")?;
        }
        Ok(enablings)
    }

    /// Adds an enabling.
    pub(crate) fn push(
        &mut self,
        alloc: Global,
        layout: Layout,
        id: u64,
        name: &str,
    ) -> Result<(), Trouble> {
        self.layouts.push(layout)?;
        self.probes.push(row_probe(alloc, id, name)?)?;
        self.names.push(String::from_str(alloc, name)?)?;
        Ok(())
    }

    /// The identifier and the names of the probe at a place.
    pub(crate) fn probe_at(&self, place: usize) -> Option<(u64, &str)> {
        match (self.probes.get(place), self.names.get(place)) {
            (Some(probe), Some(name)) => Some((probe.id, name.as_str())),
            _ => None,
        }
    }

    /// Keeps what an enabling is. There has to be one of this EPID.
    fn keep(
        &mut self,
        alloc: Global,
        epid: u32,
        layout: Layout,
        id: u64,
        name: &str,
    ) -> Result<(), Trouble> {
        let place = (epid as usize).saturating_sub(1);
        let (Some(kept), Some(probe), Some(kept_name)) = (
            self.layouts.get_mut(place),
            self.probes.get_mut(place),
            self.names.get_mut(place),
        ) else {
            return Err(Trouble::Strange);
        };
        replace_layout(kept, layout);
        replace_probe(alloc, probe, id, name)?;
        replace_name(alloc, kept_name, name)
    }
}

/// Puts a layout in the place of another. As with a probe and a name, what was there is let go of here alone.
fn replace_layout(kept: &mut Layout, layout: Layout) {
    *kept = layout;
}

/// Puts a probe in the place of another.
fn replace_probe(alloc: Global, kept: &mut RowProbe, id: u64, name: &str) -> Result<(), Trouble> {
    *kept = row_probe(alloc, id, name)?;
    Ok(())
}

/// Puts a name in the place of another.
fn replace_name(alloc: Global, kept: &mut String, name: &str) -> Result<(), Trouble> {
    *kept = String::from_str(alloc, name)?;
    Ok(())
}

/// A probe as rows have it: with its function and its name, which are the last two of the four.
fn row_probe(alloc: Global, id: u64, name: &str) -> Result<RowProbe, Trouble> {
    let name = Vec::from_slice(alloc, after_byte(b':', after_byte(b':', name.as_bytes())))?;
    Ok(RowProbe { id, name })
}

/// What is known of a session that traces.
#[derive(Drop)]
pub(crate) struct Learnt {
    /// What is known of its enablings.
    pub(crate) enablings: Enablings,
    /// What is read in the texts of its programs.
    pub(crate) readings: Readings,
    /// Whether all enablings were asked for by one line.
    listed: bool,
    /// The drops that were told, by processor.
    pub(crate) drops: Vec<u64>,
    /// The errors that were told, by processor.
    pub(crate) errors: Vec<u64>,
    /// The drops of aggregations that were told, by processor.
    pub(crate) aggdrops: Vec<u64>,
    /// The dynamic variable drops that were told, by processor.
    pub(crate) dyndrops: Vec<u64>,
    /// The speculative drops that were told, by processor.
    pub(crate) specdrops: Vec<u64>,
    /// The failed draws that were told.
    pub(crate) specfails: u64,
    /// How many bytes of a buffer that keeps what it has were written as rows, by processor.
    pub(crate) written: Vec<u64>,
    /// How many firings were seen at the last look; none before the first.
    pub(crate) seen: Option<u64>,
    /// Whether a buffer gives its records and tells its drops once (under switch), and not again.
    pub(crate) told_once: bool,
    /// Whether the head of the rows is written.
    pub(crate) headed: bool,
}

impl Learnt {
    /// Of a session with so many enablings nothing is known yet but the texts of its programs.
    pub(crate) fn new(
        alloc: Global,
        count: u64,
        told_once: bool,
        readings: Readings,
    ) -> Result<Self, Trouble> {
        Ok(Learnt {
            enablings: Enablings::unknown(alloc, count)?,
            readings,
            listed: false,
            drops: Vec::new(alloc),
            errors: Vec::new(alloc),
            aggdrops: Vec::new(alloc),
            dyndrops: Vec::new(alloc),
            specdrops: Vec::new(alloc),
            specfails: 0,
            written: Vec::new(alloc),
            seen: None,
            told_once,
            headed: false,
        })
    }

    /// How many lines may still have to be asked for layouts: one for each that isn't known, or one for all.
    pub(crate) fn unknown(&self) -> u64 {
        let mut count = 0_u64;
        for layout in &self.enablings.layouts {
            if layout.fields.is_none() && count < DESCRIBED_MOST as u64 {
                count += 1;
            }
        }
        if self.is_asked_singly() {
            count
        } else {
            count.min(1)
        }
    }

    /// Learns all enablings from the probes that the account may enable, where that gives as many as the service has made.
    fn learn_all(&mut self, alloc: Global, probes: &[Value]) -> Result<(), Trouble> {
        let enablings = self.readings.enablings(alloc, probes)?;
        if enablings.layouts.len() == self.enablings.layouts.len() {
            self.enablings = enablings;
        }
        Ok(())
    }

    /// Whether enablings are described one by one: there are few, or all were asked for.
    fn is_asked_singly(&self) -> bool {
        self.listed || self.enablings.layouts.len() <= DESCRIBED_MOST
    }
}

/// Asks for the layouts and probes of the records that aren't known yet. Gives whether all are known: else no line is left for that.
pub(crate) fn learn<R: Print + Eprint + AllocGlobal>(
    rt: &R,
    session: &mut Session<'_>,
    known: &mut Learnt,
    bytes: &[u8],
) -> Result<bool, Trouble> {
    for _ in 0..known.enablings.layouts.len().saturating_add(1) {
        let Some(epid) = unknown_epid(&known.enablings.layouts, bytes) else {
            return Ok(true);
        };
        if session.is_short() {
            return Ok(false);
        }
        if known.is_asked_singly() {
            describe(rt, session, known, epid)?;
        } else {
            known.listed = true;
            list_all(rt, session, known)?;
        }
    }
    Ok(true)
}

/// Asks for all probes, and learns all enablings by what is read in the programs: EPIDs count by clause, and in a clause by rising identifier of the probe.
/// Where these aren't as many as the service has made, nothing is learnt.
fn list_all<R: Print + Eprint + AllocGlobal>(
    rt: &R,
    session: &mut Session<'_>,
    known: &mut Learnt,
) -> Result<(), Trouble> {
    let alloc = rt.alloc();
    let reply = session.ask(alloc, "{\"cmd\":\"list\",\"probe\":\"\"}")?;
    accepted(rt, &reply, "the probes can't be listed", None)?;
    let Some(probes) = reply.get("probes").and_then(|probes| probes.as_array()) else {
        return Err(Trouble::Strange);
    };
    known.learn_all(alloc, probes)
}

/// Asks for the layout and the probe of an enabling.
fn describe<R: Print + Eprint + AllocGlobal>(
    rt: &R,
    session: &mut Session<'_>,
    known: &mut Learnt,
    epid: u32,
) -> Result<(), Trouble> {
    let alloc = rt.alloc();
    let line = requests::with_number(alloc, "describe", "epid", u64::from(epid));
    let reply = session.ask_made(alloc, line)?;
    accepted_as(
        rt,
        &reply,
        format!(in alloc; "enabling {epid} isn't described"),
    )?;
    keep_described(alloc, known, epid, &reply)
}

/// Keeps what a reply tells of an enabling.
fn keep_described(
    alloc: Global,
    known: &mut Learnt,
    epid: u32,
    reply: &Value,
) -> Result<(), Trouble> {
    let Some(words) = reply.get("layout").and_then(|layout| layout.as_array()) else {
        return Err(Trouble::Strange);
    };
    let (Some(layout), Some(id), Some(name)) = (
        layout_in(words),
        number_field(reply, "id"),
        text_field(reply, "probe"),
    ) else {
        return Err(Trouble::Strange);
    };
    known.enablings.keep(alloc, epid, layout, id, name)
}
