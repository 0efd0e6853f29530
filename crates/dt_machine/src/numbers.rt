//! The numbers of a firing: its arguments and its frames.
ghost use Rattle.std.specs.Prelude.{◌≡◌, map, MatchOption};
ghost use Rattle.serde_json.specs.View.{view};
ghost use Rattle.dt_machine.specs.Given.{signed, unsigned};
ghost use Rattle.dt_machine.specs.Rows.{arguments, frames, AreArguments, AreGivenFrames};

use dt_cred::{ARGS, FRAMES};
use serde_json::Value;

/// The arguments, if there are not too many, and zeros after them.
pub(crate) fn arguments_of(list: &[Value]) -> Option<[i64; ARGS]>
    ensures { MatchOption result (AreArguments (map signed (map view list.now)) → ⊥)
        (λ found. AreArguments (map signed (map view list.now))
        × (found ≡ arguments (map signed (map view list.now)))) }
{
    // a firing has ten arguments: a longer list is refused, and not cut
    if list.len() > ARGS {
        return None;
    }
    let mut found = [0; ARGS];
    for (i, value) in list.iter().enumerate() {
        found[i] = value.as_i64()?;
    }
    Some(found)
}

/// The frames, if there are not too many, and zeros after them.
pub(crate) fn frames_of(list: &[Value]) -> Option<[u64; FRAMES]>
    ensures { MatchOption result (AreGivenFrames (map unsigned (map view list.now)) → ⊥)
        (λ found. AreGivenFrames (map unsigned (map view list.now)) × (found ≡ frames (map unsigned (map view list.now)))) }
{
    // a stack has eight frames: a longer list is refused, and not cut
    if list.len() > FRAMES {
        return None;
    }
    let mut found = [0; FRAMES];
    for (i, value) in list.iter().enumerate() {
        found[i] = value.as_u64()?;
    }
    Some(found)
}
