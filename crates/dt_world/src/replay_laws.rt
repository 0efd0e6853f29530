//! What holds of the definition of a replay alone: it is a run of the world, and its output and its trails are one.
ghost use Rattle.std.specs.Prelude.{◌≡◌, ℕ, List};
ghost use Rattle.dt_machine.specs.Registry.{Contents};
ghost use Rattle.dt_world.specs.Replay.{IsReplay, IsTrailReplay, replayed, steps_from, beginning};
ghost use Rattle.dt_world.specs.StepLine.{StepLineForm};
ghost use Rattle.dt_steps.specs.Steps.{world_after};

use dt_life::one_reply;

/// Law: the world of a replay is the one after all steps of its lines. So what is proved of every list of steps holds of
/// every replay.
pub fn replays_are_runs()
    ensures { (contents : Contents) (forms : List StepLineForm) → (replayed contents forms).world
        ≡ world_after contents.registry (steps_from contents beginning forms) }
{}

/// Law: for an input on a machine one output is written at most.
pub fn one_output()
    ensures { (contents : Contents) (text a b : List ℕ) → IsReplay contents text a → IsReplay contents text b → a ≡ b }
{
    one_reply();
}

/// Law: for an input on a machine one trail of a seat is written at most.
pub fn one_trail()
    ensures { (contents : Contents) (text : List ℕ) (seat : ℕ) (a b : List ℕ) → IsTrailReplay contents text seat a
        → IsTrailReplay contents text seat b → a ≡ b }
{
    one_reply();
}
