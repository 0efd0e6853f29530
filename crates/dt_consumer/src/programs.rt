//! What a consumer's accepted programs come to.
ghost use Rattle.std.specs.Prelude.{◌≡◌, ◌≢◌, ◌↔◌, ℕ, ◌+◌, ◌≤◌, ◌<◌, ◌++◌, [], length, ◌==◌, filter, All, IsTrue, IfOk, vec_len, vec_capacity};
ghost use Rattle.dt_machine.specs.Interest.{has_probe};
ghost use Rattle.dt_ecb.specs.Forms.{shapes_of};
ghost use Rattle.dt_consumer.specs.Placing.{HasRoomFor, IsPlaced};
ghost use Rattle.dt_consumer.specs.Recording.{outlines_of};
ghost use Rattle.dt_ecb.specs.declared.limits.TheConstants.{ECBS_MAX};

use crate::outline::Outline;
use crate::room::Room;
use dt_ecb::{ECBS_MAX, Ecb, Shapes};
use dt_lang::Clause;
use dt_machine::Interest;
use std::alloc::{AllocError, Global};

/// The clauses of the accepted programs, their ECBs, and the aggregations that they use. An ECB has the place of its clause among
/// all of them.
#[derive(Drop)]
pub(crate) struct Programs {
    pub(crate) ecbs: Vec<Ecb>,
    pub(crate) shapes: Shapes,
    /// Of each clause what is known before it is taken.
    outlines: Vec<Outline>,
    pub(crate) clauses: Vec<Clause>,
    ghost known: { outlines.items ≡ outlines_of clauses.items },
    ghost each: { vec_len outlines ≡ vec_len clauses },
    ghost few_clauses: { vec_len clauses ≤ vec_len ecbs },
    ghost few_ecbs: { vec_len ecbs ≤ ECBS_MAX },
    ghost placed: { All (IsPlaced (vec_len clauses)) ecbs.items },
}

impl Programs {
    /// None yet. It takes no memory.
    pub(crate) fn new(alloc: Global) -> Self
        ensures clauses { result.clauses.items ≡ [] }
        ensures ecbs { result.ecbs.items ≡ [] }
        ensures shapes { shapes_of result.shapes ≡ [] }
    {
        Programs {
            clauses: Vec::new(alloc),
            outlines: Vec::new(alloc),
            ecbs: Vec::new(alloc),
            shapes: Shapes::new(alloc),
        }
    }

    /// The clauses, in order of acceptance.
    pub(crate) fn clauses(&self) -> &[Clause]
        ensures value { result.now ≡ self.now.clauses.items }
        ensures few { length result.now ≤ ECBS_MAX }
    {
        &self.clauses
    }

    /// Of each clause, what is known before it is taken.
    pub(crate) fn outlines(&self) -> &[Outline]
        ensures { result.now ≡ outlines_of self.now.clauses.items }
    {
        &self.outlines
    }

    /// Their ECBs, in order of EPID.
    pub(crate) fn ecbs(&self) -> &[Ecb]
        ensures value { result.now ≡ self.now.ecbs.items }
        ensures few { length result.now ≤ ECBS_MAX }
        ensures placed { All (IsPlaced (vec_len self.now.clauses)) result.now }
    {
        &self.ecbs
    }

    /// The probes that the ECBs name.
    pub(crate) fn interest(&self) -> Interest
        ensures { (id : ℕ) → (IsTrue (has_probe result id) ↔ (filter (λ ecb. ecb.probe == id) self.now.ecbs.items ≢ [])) }
    {
        let mut interest = Interest::new();
        for ecb in &self.ecbs {
            interest.insert(ecb.probe);
        }
        interest
    }

    /// Room for these and so many more.
    pub(crate) fn room_for(
        &self,
        alloc: Global,
        clauses: usize,
        ecbs: usize,
    ) -> Result<Room, AllocError>
        requires few_clauses { vec_len self.now.clauses + clauses ≤ ECBS_MAX }
        requires few_ecbs { vec_len self.now.ecbs + ecbs ≤ ECBS_MAX }
        ensures { IfOk result (λ room. HasRoomFor room (vec_len self.now.clauses + clauses) (vec_len self.now.ecbs + ecbs)) }
    {
        Room::new(alloc, self.clauses.len() + clauses, self.ecbs.len() + ecbs)
    }

    /// Adds clauses, of which each has an ECB at least, and their ECBs, and replaces the aggregations. All of them lie in this room from then on, so that
    /// it takes no memory.
    pub(crate) fn extend(
        &mut self,
        room: Room,
        mut clauses: Vec<Clause>,
        mut ecbs: Vec<Ecb>,
        shapes: Shapes,
    )
        requires each { vec_len clauses ≤ vec_len ecbs }
        requires few { vec_len self.old.ecbs + vec_len ecbs ≤ ECBS_MAX }
        requires room { HasRoomFor room (vec_len self.old.clauses + vec_len clauses) (vec_len self.old.ecbs + vec_len ecbs) }
        requires placed { All (IsPlaced (vec_len self.old.clauses + vec_len clauses)) ecbs.items }
        ensures clauses { self.new.clauses.items ≡ self.old.clauses.items ++ clauses.items }
        ensures ecbs { self.new.ecbs.items ≡ self.old.ecbs.items ++ ecbs.items }
        ensures shapes { self.new.shapes ≡ shapes }
    {
        let mut all = room;
        move_into(&mut all.outlines, &mut self.outlines);
        add_outlines(&mut all.outlines, &clauses);
        move_into(&mut all.clauses, &mut self.clauses);
        move_into(&mut all.clauses, &mut clauses);
        move_into(&mut all.ecbs, &mut self.ecbs);
        move_into(&mut all.ecbs, &mut ecbs);
        let Room {
            clauses,
            outlines,
            ecbs,
        } = all;
        self.clauses = clauses;
        self.outlines = outlines;
        self.ecbs = ecbs;
        self.shapes = shapes;
    }
}

/// Moves all of these after what lies there. There is room for them, so it takes no memory.
fn move_into<T>(room: &mut Vec<T>, from: &mut Vec<T>)
    requires { vec_len room.old + vec_len from.old ≤ vec_capacity room.old }
    ensures items { room.new.items ≡ room.old.items ++ from.old.items }
    ensures rest { from.new.items ≡ [] }
    ensures capacity { vec_capacity room.old ≤ vec_capacity room.new }
{
    room.append(from).unwrap();
}

/// Adds of each of these clauses what is known before it is taken. There is room for them, so it takes no memory.
fn add_outlines(outlines: &mut Vec<Outline>, clauses: &[Clause])
    requires { vec_len outlines.old + length clauses.now ≤ vec_capacity outlines.old }
    ensures items { outlines.new.items ≡ outlines.old.items ++ outlines_of clauses.now }
    ensures len { vec_len outlines.new ≡ vec_len outlines.old + length clauses.now }
    ensures capacity { vec_capacity outlines.new ≡ vec_capacity outlines.old }
{
    for clause in clauses {
        outlines.push_reserved(Outline::of(clause));
    }
}
