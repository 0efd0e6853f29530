//! Listed probes, written without a JSON value for each.
ghost use Rattle.std.specs.Prelude.{◌≡◌, ◌∷◌, ◌++◌, OnOk, map};
ghost use Rattle.std.specs.List.{flat_map, join_with_byte};
ghost use Rattle.dt_names.specs.Bytes.{comma};
ghost use Rattle.dt_proto.specs.Reply.{probe_text};

use crate::text::push_string;
use crate::written::push_number;
use dt_cred::Probe;
use std::alloc::{AllocError, Global};

/// Adds each probe as an object of its identifier and its name, with commas between them.
pub(crate) fn push_probes(
    alloc: Global,
    line: &mut Vec<u8>,
    probes: &[Probe],
) -> Result<(), AllocError>
    ensures { OnOk result (line.new.items ≡ line.old.items ++ join_with_byte comma (map probe_text probes.now)) }
{
    let Some((first, more)) = probes.split_first() else {
        return Ok(());
    };
    push_probe(alloc, line, first)?;
    push_more_probes(alloc, line, more)?;
    Ok(())
}

/// Adds probes, each after a comma.
fn push_more_probes(alloc: Global, line: &mut Vec<u8>, probes: &[Probe]) -> Result<(), AllocError>
    ensures { OnOk result (line.new.items ≡ line.old.items ++ flat_map (λ probe. comma ∷ probe_text probe) probes.now) }
{
    for probe in probes {
        line.push(b',')?;
        push_probe(alloc, line, probe)?;
    }
    Ok(())
}

fn push_probe(alloc: Global, line: &mut Vec<u8>, probe: &Probe) -> Result<(), AllocError>
    ensures { OnOk result (line.new.items ≡ line.old.items ++ probe_text probe.now) }
{
    line.extend_from_slice(b"{\"id\":")?;
    push_number(line, u64::from(probe.id))?;
    line.extend_from_slice(b",\"name\":")?;
    push_string(alloc, line, probe.tuple.to_string(alloc)?)?;
    line.push(b'}')?;
    Ok(())
}
