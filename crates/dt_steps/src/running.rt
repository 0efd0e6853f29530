//! A run of steps.
ghost use Rattle.std.specs.Prelude.{ℕ, IfOk, map};
ghost use Rattle.dt_steps.specs.Ran.{AreReplies, AreMasks, told_to, IsAnsweredAlone};
ghost use Rattle.dt_steps.specs.Steps.{form_of_step, world_after};
ghost use Rattle.dt_steps.specs.World.{session_of};

use crate::engine::Engine;
use crate::outcome::StepAnswer;
use crate::step::Step;
use dt_chain::{Seat, SeatMask};
use dt_machine::Machine;
use std::alloc::{AllocError, Global};

/// What a run answers.
#[derive(Drop)]
pub struct Ran {
    /// The replies, in order: each with the seat of its session, as a line with its newline.
    pub replies: Vec<(Seat, Vec<u8>)>,
    /// What each enabled look named, in order.
    pub masks: Vec<SeatMask>,
}

/// Takes steps in order, in a world in which nothing happened yet. `Err`: memory ran out.
///
/// The world is that of the steps alone, and no consumer is in it. `replies`: each reply is the one to its question, at the
/// seat of the session that asked. `masks`: each mask is what the publications named at its look. `alone`: what was told to a
/// session is what its view is answered alone, none missing and none more, whatever other sessions did.
pub fn run(alloc: Global, machine: &Machine, steps: &[Step]) -> Result<Ran, AllocError>
    ensures replies { IfOk result (λ ran. AreReplies machine.now.registry
        (world_after machine.now.registry (map form_of_step steps.now)).questions
        (map (λ reply. (reply.0, reply.1.items)) ran.replies.items)) }
    ensures masks { IfOk result (λ ran. AreMasks
        (world_after machine.now.registry (map form_of_step steps.now)).looks ran.masks.items) }
    // a session was told what its view is answered alone; where there was none, nothing was told
    ensures alone { IfOk result (λ ran. (seat n : ℕ)
        → IsAnsweredAlone machine.now.registry
        (session_of (world_after machine.now.registry (map form_of_step steps.now)) seat n)
        (told_to seat n (world_after machine.now.registry (map form_of_step steps.now)).questions
        (map (λ reply. (reply.0, reply.1.items)) ran.replies.items))) }
{
    let mut engine = Engine::new(alloc, machine)?;
    let mut ran = Ran {
        replies: Vec::new(alloc),
        masks: Vec::new(alloc),
    };
    for step in steps {
        let outcome = engine.take(alloc, machine, step)?;
        ran.tell(outcome)?;
    }
    Ok(ran)
}

impl Ran {
    ghost use Rattle.std.specs.Prelude.{OnOk};
    ghost use Rattle.dt_machine.specs.Registry.{Registry};
    ghost use Rattle.dt_steps.specs.Ran.{HasTold};
    ghost use Rattle.dt_steps.specs.Telling.{IsTelling};
    ghost use Rattle.dt_steps.specs.World.{World};

    /// Tells what a step answered.
    fn tell(&mut self, outcome: StepAnswer) -> Result<(), AllocError>
        ensures { OnOk result ((registry : Registry) (before after : World)
            → IsTelling registry before after outcome
            → HasTold registry before (map (λ reply. (reply.0, reply.1.items)) self.old.replies.items) self.old.masks.items
            → HasTold registry after (map (λ reply. (reply.0, reply.1.items)) self.new.replies.items) self.new.masks.items) }
    {
        match outcome {
            StepAnswer::Quiet => {}
            StepAnswer::Replied(seat, text) => self.replies.push((seat, text))?,
            StepAnswer::Looked(mask) => self.masks.push(mask)?,
        }
        Ok(())
    }
}
