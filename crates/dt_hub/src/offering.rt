//! How a firing is offered to the seats that are named.
ghost use Rattle.std.specs.Prelude.{◌≡◌, ◌==◌, ◌+◌, ◌++◌, ◌∷◌, ℕ, List, [], Some, false, true, length, vec_len, if◌then◌else◌};
ghost use mathlib.Core.List.{IsPrefix};
ghost use Rattle.dt_chain.specs.Chains.{IsMaskAfter};
ghost use Rattle.dt_chain.specs.Limits.{seat_count};
ghost use Rattle.dt_chain.specs.Seats.{has, life_at};
ghost use Rattle.dt_chain.specs.declared.seat_mask.SeatMask.{SeatMask};
ghost use Rattle.dt_facts.specs.declared.fact.Knew.{Knew};
ghost use Rattle.dt_hub.specs.Firings.{ComesToSeat, KnowsPublicationAt};
ghost use Rattle.dt_hub.specs.Offering.{IsOfferedBut, missed_in};
ghost use Rattle.dt_hub.specs.Processors.{AreAtSeats, AreTrackedBy, knew_at_seats};
ghost use Rattle.dt_legal.specs.Rows.{AreBelowPlace};
ghost use Rattle.dt_machine.specs.Context.{IsContext};
ghost use Rattle.dt_machine.specs.Registry.{firing_at};
ghost use Rattle.dt_seat.specs.Keeps.{Followed, known_by, noted_of};
ghost use Rattle.dt_seat.specs.Seats.{ComesOfFiring, KnowsPublication, kept_items};
ghost use Rattle.dt_seat.specs.Tracked.{AreTracked, counts_with};
ghost use Rattle.dt_trail.specs.Items.{own};

use crate::endless::wait_for_ever;
use crate::gate::{Gate, Moment};
use crate::hub::Hub;
use crate::missed_seats::MissedSeats;
use crossbeam_utils::Backoff;
use dt_chain::{ChainReader, Seat, SeatMask, SeatSet};
use dt_consumer::Scratch;
use dt_machine::Context;
use dt_seat::{Follower, Held, HubSite, LockedSeat};
use std::sync::{Mutex, MutexGuard, Wait};

/// How often a lock is asked for before a thread sleeps for it.
const TRIES: u32 = 64;

/// Takes a lock that another had. To offer a firing takes less time than to wake a thread that sleeps: so the lock is asked for some times before that, at once, then after ever
/// longer pauses, and then whenever other threads were let run.
#[cold]
fn wait_for<'l, R: Wait, T>(rt: &R, lock: &'l Mutex<T>) -> MutexGuard<'l, T> {
    let backoff = Backoff::new();
    'tries: for _ in 0..TRIES {
        if let Some(guard) = lock.try_lock() {
            return guard;
        }
        backoff.snooze();
    }
    lock.lock(rt)
}

impl<J: HubSite> Hub<J> {
    /// A processor that has the lock of a seat offers a firing to a life there, and lets the lock go.
    #[inline(always)]
    fn offer_at<R: Wait, G: Gate>(
        &self,
        rt: &R,
        locked: MutexGuard<'_, LockedSeat<J>>,
        seat: Seat,
        life: u64,
        context: &Context,
        scratch: &mut Scratch,
        follower: &mut Follower<J>,
        reader: &mut ChainReader<J>,
        gate: &G,
    ) -> Held
        requires context { IsContext J.contents.registry context.now }
        requires script { firing_at J.contents.scripts context.now.firing.now.cpu context.now.firing.now.place
            ≡ Some context.now.firing.now }
        requires follower { (follower.old.seat ≡ seat) × (follower.old.cpu ≡ context.now.firing.now.cpu) }
        requires below { AreBelowPlace context.now.firing.now.cpu context.now.firing.now.place (known_by follower.old.note) }
        requires named { (mask : SeatMask) × IsMaskAfter J.contents.registry reader.old.seen context.now.firing.now mask
            × (life_at mask seat ≡ Some life) }
        ensures held { ComesOfFiring J.contents life context.now.firing.now result follower.old follower.new }
        ensures own { own (context.now.firing.now.cpu + 1) (noted_of life follower.new)
            ≡ own (context.now.firing.now.cpu + 1) (noted_of life follower.old) ++ kept_items result context.now.firing.now }
        ensures tracked { (knew : ℕ → List ℕ) → ((l : ℕ) → length (knew l) ≡ context.now.firing.now.place)
            → AreTracked J.contents reader.old.seen knew follower.old
            → AreTracked J.contents reader.new.told (counts_with knew follower.old) follower.new }
        ensures reader { (reader.new.seen ≡ reader.old.seen) × IsPrefix reader.old.told reader.new.told }
        ensures published { KnowsPublication J.contents life follower.new reader.new.told }
    {
        let cpu = context.firing.cpu;
        let number = seat.number();
        let mut locked = locked;
        // that this lock's seat has this number is known of no `Vec` of locks: it is looked at, and never differs
        if locked.number().number() != number {
            MutexGuard::unlock(locked);
            wait_for_ever(rt);
            unreachable!()
        }
        gate.at(cpu, number, Moment::Locked);
        let held = locked.hold(
            rt,
            &self.machine,
            &self.facts,
            &self.chains,
            life,
            context,
            scratch,
            follower,
            reader,
        );
        MutexGuard::unlock(locked);
        gate.at(cpu, number, Moment::After);
        held
    }

    /// Offers a firing to each seat that is named and whose lock is had without waiting, in order of the seats, and notes which were missed.
    #[inline(always)]
    fn offer_where_free<R: Wait, G: Gate>(
        &self,
        rt: &R,
        context: &Context,
        mask: &SeatMask,
        scratch: &mut Scratch,
        followers: &mut Vec<Follower<J>>,
        held: &mut Vec<Held>,
        missed: &mut MissedSeats,
        reader: &mut ChainReader<J>,
        gate: &G,
    )
        requires context { IsContext J.contents.registry context.now }
        requires script { firing_at J.contents.scripts context.now.firing.now.cpu context.now.firing.now.place
            ≡ Some context.now.firing.now }
        requires seats { AreAtSeats context.now.firing.now.cpu context.now.firing.now.place followers.old.items }
        requires many { vec_len held.old ≡ seat_count }
        requires look { IsMaskAfter J.contents.registry reader.old.seen context.now.firing.now mask.now }
        requires reader { IsPrefix reader.old.seen reader.old.told }
        ensures offered { IsOfferedBut J.contents context.now.firing.now mask.now reader.old.seen followers.old.items (missed_in missed.new)
            held.new.items followers.new.items reader.new.told }
        ensures reader { (reader.new.seen ≡ reader.old.seen) × IsPrefix reader.old.told reader.new.told }
    {
        missed.clear();
        let mut left = mask.named();
        let mut next = 0;
        'seats: while let Some((seat, life)) = left.pop_first() {
            let at = seat.number() as usize;
            gate.at(context.firing.cpu, seat.number(), Moment::Before);
            if let Some(locked) = self.seats[at].try_lock() {
                held[at] = self.offer_at(
                    rt,
                    locked,
                    seat,
                    life,
                    context,
                    scratch,
                    &mut followers[at],
                    reader,
                    gate,
                );
            } else {
                missed.add(seat);
            }
            next = at + 1;
        }
    }

    /// Offers a firing to the seats that were missed, as they were locked. It waits for each.
    #[cold]
    fn offer_to_missed<R: Wait, G: Gate>(
        &self,
        rt: &R,
        context: &Context,
        mask: &SeatMask,
        missed: SeatSet,
        scratch: &mut Scratch,
        followers: &mut Vec<Follower<J>>,
        held: &mut Vec<Held>,
        reader: &mut ChainReader<J>,
        gate: &G,
    )
        requires context { IsContext J.contents.registry context.now }
        requires script { firing_at J.contents.scripts context.now.firing.now.cpu context.now.firing.now.place
            ≡ Some context.now.firing.now }
        requires look { IsMaskAfter J.contents.registry reader.old.seen context.now.firing.now mask.now }
        requires reader { IsPrefix reader.old.seen reader.old.told }
        requires offered { (first : List Followed) × IsOfferedBut J.contents context.now.firing.now mask.now reader.old.seen first (has missed)
            held.old.items followers.old.items reader.old.told }
        ensures offered { (first : List Followed) → IsOfferedBut J.contents context.now.firing.now mask.now reader.old.seen first (has missed)
            held.old.items followers.old.items reader.old.told
            → IsOfferedBut J.contents context.now.firing.now mask.now reader.old.seen first (λ _. false)
            held.new.items followers.new.items reader.new.told }
        ensures reader { (reader.new.seen ≡ reader.old.seen) × IsPrefix reader.old.told reader.new.told }
    {
        let mut missed = missed;
        let mut next = 0;
        'seats: while let Some(seat) = missed.first() {
            let Some(life) = mask.life_of(seat) else {
                unreachable!()
            };
            missed.remove(seat);
            let at = seat.number() as usize;
            let locked = wait_for(rt, &self.seats[at]);
            held[at] = self.offer_at(
                rt,
                locked,
                seat,
                life,
                context,
                scratch,
                &mut followers[at],
                reader,
                gate,
            );
            next = at + 1;
        }
    }

    /// Offers a firing to each seat that is named. Where another has the lock of one, it goes on to the next, and comes back at the end.
    pub(crate) fn offer_to_named<R: Wait, G: Gate>(
        &self,
        rt: &R,
        context: &Context,
        mask: &SeatMask,
        scratch: &mut Scratch,
        followers: &mut Vec<Follower<J>>,
        held: &mut Vec<Held>,
        missed: &mut MissedSeats,
        reader: &mut ChainReader<J>,
        gate: &G,
    )
        requires context { IsContext J.contents.registry context.now }
        requires script { firing_at J.contents.scripts context.now.firing.now.cpu context.now.firing.now.place
            ≡ Some context.now.firing.now }
        requires seats { AreAtSeats context.now.firing.now.cpu context.now.firing.now.place followers.old.items }
        requires many { vec_len held.old ≡ seat_count }
        requires look { IsMaskAfter J.contents.registry reader.old.seen context.now.firing.now mask.now }
        requires reader { IsPrefix reader.old.seen reader.old.told }
        ensures seats { AreAtSeats context.now.firing.now.cpu (context.now.firing.now.place + 1) followers.new.items }
        ensures many { vec_len held.new ≡ seat_count }
        ensures each { (seat : ℕ) → ComesToSeat J.contents context.now.firing.now mask.now held.new.items followers.old.items
            followers.new.items seat }
        ensures tracked { (log : List (List Knew)) → length log ≡ context.now.firing.now.place → AreTrackedBy J.contents reader.old.seen log followers.old.items
            → AreTrackedBy J.contents reader.new.told (log ++ knew_at_seats followers.old.items ∷ []) followers.new.items }
        ensures reader { (reader.new.seen ≡ reader.old.seen) × IsPrefix reader.old.told reader.new.told }
        ensures published { (seat : ℕ) → KnowsPublicationAt J.contents mask.now followers.new.items reader.new.told seat }
    {
        self.offer_where_free(
            rt, context, mask, scratch, followers, held, missed, reader, gate,
        );
        if let Some(missed) = missed.seats() {
            self.offer_to_missed(
                rt, context, mask, missed, scratch, followers, held, reader, gate,
            );
        }
    }
}
