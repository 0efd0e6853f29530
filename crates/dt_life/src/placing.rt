//! Where the clauses of a program's ECBs stand among all of a consumer's.
ghost use Rattle.std.specs.Prelude.{◌≡◌, ◌+◌, ◌<◌, ◌^◌, All, IfOk, map};
ghost use Rattle.dt_life.specs.Placed as spec;

use dt_ecb::Ecb;
use std::alloc::{AllocError, Global};

/// The ECBs of a program, each with the place of its clause after so many others.
pub fn placed_after(alloc: Global, before: usize, ecbs: &[Ecb]) -> Result<Vec<Ecb>, AllocError>
    requires { All (λ ecb. before + ecb.clause < 2 ^ 64) ecbs.now }
    ensures { IfOk result (λ placed. placed.items ≡ map (spec.placed_after before) ecbs.now) }
{
    let mut placed = Vec::new(alloc);
    for ecb in ecbs {
        placed.push(Ecb {
            epid: ecb.epid,
            probe: ecb.probe,
            clause: before + ecb.clause,
        })?;
    }
    Ok(placed)
}
