//! What a seat keeps for one processor.
ghost use Rattle.std.specs.Prelude.{◌≡◌, [], None, Some, IfSome, IsSome};
ghost use Rattle.dt_facts.specs.Facts.{last_note};
ghost use Rattle.dt_facts.specs.Lives.{IsOpenAs};
ghost use Rattle.dt_seat.specs.Keeps.{Carries, IsKeptFor, SaysTaken, kept, known_by, known_of, noted_of, told_in, took_in, without_taken};
ghost use Rattle.dt_seat.specs.Knowledge.{SaysLives, steps_in};
ghost use Rattle.dt_trail.specs.Items.{own};
ghost use Rattle.dt_trail.specs.Known.{noted};

use crate::follower::Follower;
use crate::site::HubSite;
use crate::told_of::ToldOf;
use crate::trailed::{Note, Owner};
use dt_facts::{Book, Facts};
use dt_legal::Traced;
use std::marker::{Brand, Model};

/// What a seat keeps for one processor: its note of the present trail, as long as it wasn't taken, and the book of what it took here.
///
/// Contracts see it as a `KeptNote` of `specs/Keeps.antt`.
#[derive(Drop)]
pub(crate) struct Keep<J: HubSite> {
    pub(crate) note: Option<Note<J>>,
    pub(crate) book: Book,
}

impl<J: HubSite> Model for Keep<J> {
    ghost use Rattle.dt_seat.specs.Keeps.{KeptNote, kept};

    ghost Value = { KeptNote };

    ghost view = { λ k. kept k.note k.book };
}

/// A new note of a life learns what was told of it.
fn informed<J: Traced>(note: Note<J>, life: u64, told: Option<ToldOf>) -> Note<J>
    requires new { note.knows ≡ [] }
    requires row { IfSome told (λ t. t.life ≡ life → t.told.row ≡ note.row.id) }
    ensures knows { result ≡ noted note.row note.number (told_in life told) }
    ensures own_none { own note.number result.knows ≡ [] }
{
    let mut note = note;
    if let Some(ToldOf { life: of, told }) = told {
        if of == life {
            note.learn(told);
        }
    }
    note
}

impl<J: HubSite> Keep<J> {
    ghost use Rattle.std.specs.Prelude.{◌+◌};

    /// What is kept as long as no life was open.
    pub(crate) fn new(book: Book) -> Keep<J>
        ensures { result ≡ kept None book }
    {
        Keep { note: None, book }
    }

    /// The processor's note, if it wasn't taken, goes to the processor, and knows what that was told of the life. The processor then knows that
    /// all earlier lives are over. `owner` is for the contract: it says which trail the life's is.
    pub(crate) fn lend(
        &mut self,
        facts: &Facts,
        lives: &mut Book,
        life: u64,
        owner: &Owner<J>,
        follower: &mut Follower<J>,
    )
        requires facts { facts.now ≡ J.word }
        requires lives { SaysLives J.word J.contents.registry.cpus follower.old.seat lives.old }
        requires is_open { IsOpenAs life owner.now.row (steps_in lives.old.fact) }
        requires kept { IsKeptFor J.word J.contents.registry.cpus follower.old.seat follower.old.cpu life owner.now.row owner.now.knows self.old }
        ensures lives { lives.new ≡ lives.old }
        ensures kept { IsKeptFor J.word J.contents.registry.cpus follower.new.seat follower.new.cpu life owner.now.row owner.now.knows self.new }
        ensures lent { self.new.note ≡ None }
        ensures note { follower.new.note ≡ Some (noted owner.now.row (follower.old.cpu + 1) (known_by follower.new.note)) }
        ensures took { follower.new.took ≡ Some (last_note life owner.now.row) }
        ensures lives_known { follower.new.lives ≡ steps_in lives.old.fact }
        ensures known { known_of life follower.new ≡ known_of life follower.old }
        ensures own_known { own (follower.old.cpu + 1) (known_by follower.new.note)
            ≡ own (follower.old.cpu + 1) (noted_of life follower.old) }
        ensures carried { Carries follower.old follower.new life }
    {
        facts.agree(&mut self.book, &mut follower.share);
        if follower.note.is_none() || follower.life != life {
            self.hand_over(facts, lives, life, owner, follower);
            return;
        }
        facts.catch_up(lives, &mut follower.lives);
    }

    /// The same where the note lies here, as it does once in a life for each processor. It stands apart, so that what it moves is out of the way of all other
    /// firings.
    #[cold]
    fn hand_over(
        &mut self,
        facts: &Facts,
        lives: &mut Book,
        life: u64,
        owner: &Owner<J>,
        follower: &mut Follower<J>,
    )
        requires there { IsSome self.old.note }
        requires facts { facts.now ≡ J.word }
        requires lives { SaysLives J.word J.contents.registry.cpus follower.old.seat lives.old }
        requires is_open { IsOpenAs life owner.now.row (steps_in lives.old.fact) }
        requires kept { IsKeptFor J.word J.contents.registry.cpus follower.old.seat follower.old.cpu life owner.now.row owner.now.knows self.old }
        ensures lives { lives.new ≡ lives.old }
        ensures kept { IsKeptFor J.word J.contents.registry.cpus follower.new.seat follower.new.cpu life owner.now.row owner.now.knows self.new }
        ensures lent { self.new.note ≡ None }
        ensures note { follower.new.note ≡ Some (noted owner.now.row (follower.old.cpu + 1) (known_by follower.new.note)) }
        ensures took { follower.new.took ≡ Some (last_note life owner.now.row) }
        ensures lives_known { follower.new.lives ≡ steps_in lives.old.fact }
        ensures known { known_of life follower.new ≡ known_of life follower.old }
        ensures own_known { own (follower.old.cpu + 1) (known_by follower.new.note)
            ≡ own (follower.old.cpu + 1) (noted_of life follower.old) }
        ensures carried { Carries follower.old follower.new life }
    {
        facts.catch_up(lives, &mut follower.lives);
        let told = follower.told.take();
        let Some(fresh) = self.note.take() else {
            unreachable!()
        };
        facts.go_on_apart::<Brand, (u64, &Owner<J>)>(
            &mut self.book,
            &mut follower.share,
            &(life, owner),
        );
        follower.note = Some(informed(fresh, life, told));
        follower.life = life;
    }

    /// The processor lets go of the note that it took here, of a life that is over: it has none then, as before its first.
    pub(crate) fn forget(&mut self, facts: &Facts, follower: &mut Follower<J>)
        requires facts { facts.now ≡ J.word }
        requires book { SaysTaken J.word J.contents.registry.cpus follower.old.seat follower.old.cpu self.old.book }
        ensures agree { took_in self.old.book.fact ≡ follower.old.took }
        ensures note { self.new.note ≡ self.old.note }
        ensures book { SaysTaken J.word J.contents.registry.cpus follower.old.seat follower.old.cpu self.new.book }
        ensures took { took_in self.new.book.fact ≡ None }
        ensures follower { follower.new ≡ without_taken follower.old }
    {
        facts.go_on_apart::<Brand, ()>(&mut self.book, &mut follower.share, &());
        follower.note = None;
    }
}
