//! What an ECB is shown of a firing.
ghost use Rattle.std.specs.Prelude.{◌≡◌};
ghost use Rattle.dt_expr.specs.Scene.{scene_of};
ghost use Rattle.dt_life.specs.Takings as spec;
ghost use Rattle.dt_machine.specs.Context.{form_of_context};

use dt_expr::Scene;
use dt_machine::Context;

/// The scene in which the ECB of this number is taken in a context.
pub fn scene_at<'a>(context: &Context<'a>, epid: u32) -> Scene<'a>
    ensures { scene_of result ≡ spec.scene_at (form_of_context context.now) epid }
{
    Scene {
        epid,
        probe: context.probe,
        process: context.process,
        firing: context.firing,
    }
}
