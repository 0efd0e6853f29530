//! The table of probes.

use crate::enabling::accepted;
use crate::fault::Trouble;
use crate::output::{create_output, write_out};
use crate::requests;
use crate::session::Session;
use crate::snapping::RowShape;
use dt_front::{number_field, push_probe, push_probes_head, text_field};
use serde_json::Value;
use std::alloc::Global;
use std::rt::Files;

/// Writes the table of the probes that the account may enable and a description asks for, to standard output or to a file, which is made once they are answered.
pub(crate) fn list_probes<R: Files + Print + Eprint + AllocGlobal>(
    rt: &R,
    session: &mut Session<'_>,
    description: &str,
    shape: RowShape,
    output: Option<&str>,
) -> Result<(), Trouble> {
    let alloc = rt.alloc();
    let line = requests::with_text(alloc, "list", "probe", description);
    let reply = session.ask_made(alloc, line)?;
    accepted(
        rt,
        &reply,
        "the description is refused",
        Some((description, shape.widths.messages)),
    )?;
    let mut out = Vec::new(alloc);
    push_listed(alloc, &mut out, shape, &reply)?;
    let mut file = create_output(rt, output)?;
    write_out(rt, &mut file, &mut out)
}

/// Adds the table of the probes that a reply lists.
fn push_listed(
    alloc: Global,
    out: &mut Vec<u8>,
    shape: RowShape,
    reply: &Value,
) -> Result<(), Trouble> {
    let Some(probes) = reply.get("probes").and_then(|probes| probes.as_array()) else {
        return Err(Trouble::Strange);
    };
    if !shape.quiet {
        push_probes_head(out, shape.widths.page)?;
    }
    for probe in probes {
        push_listed_probe(alloc, out, shape.widths.page, probe)?;
    }
    Ok(())
}

/// Adds a listed probe's line.
fn push_listed_probe(
    alloc: Global,
    out: &mut Vec<u8>,
    page: usize,
    probe: &Value,
) -> Result<(), Trouble> {
    let (Some(id), Some(name)) = (number_field(probe, "id"), text_field(probe, "name")) else {
        return Err(Trouble::Strange);
    };
    push_probe(alloc, out, page, id, name.as_bytes())?;
    Ok(())
}
