//! What a session hands on.
ghost use Rattle.std.specs.Prelude.{◌≡◌};
ghost use Rattle.dt_legal.specs.Rows.{IsLegalRow};
ghost use Rattle.dt_seat.specs.Publications.{IsPublished, writes_seen};

use crate::notebook::again;
use crate::session::Session;
use crate::site::HubSite;
use crate::trailed::Note;
use dt_chain::{Front, Seat};
use dt_cred::Account;
use dt_facts::{Beginning, Facts};
use dt_legal::Traced;
use dt_trail::Told;
use std::marker::Model;

/// What a session knew at some moment, for a processor that is to know it too. It can be handed to another thread.
///
/// Contracts see it as a `Received` of `specs/Receipts.antt`: whose it is, what that session knew, and which writes it knew to be published.
#[derive(Drop)]
pub struct Receipt<J: HubSite> {
    pub(crate) seat: Seat,
    pub(crate) life: u64,
    pub(crate) account: Account,
    pub(crate) told: Told<Account>,
    pub(crate) lives: Beginning,
    pub(crate) known: Beginning,
    pub(crate) front: Option<Front<J>>,
}

impl<J: HubSite> Model for Receipt<J> {
    ghost use Rattle.dt_legal.specs.Rows.{IsLegalRow};
    ghost use Rattle.dt_seat.specs.Publications.{IsPublished, writes_seen};
    ghost use Rattle.dt_seat.specs.Receipts.{Received, IsReceipt};

    ghost Value = { Received };

    ghost view = { λ r. record { seat = r.seat; life = r.life; account = r.account; knows = r.told.knows; published = writes_seen r.front } };

    ghost invariant = { λ r. IsReceipt J.word J.contents.registry.cpus r.seat r.life r.account r.told r.lives r.known
        × IsLegalRow r.account J.contents r.told.knows
        × IsPublished J.contents r.seat r.life r.account r.told.knows (writes_seen r.front) };
}

/// What a note knows, to be told, which is legal. The note is as it was.
fn told_by<J: Traced>(note: &mut Note<J>) -> Told<Account>
    ensures told { (result.row ≡ note.old.row.id) × (result.knows ≡ note.old.knows) }
    ensures legal { IsLegalRow note.old.row.account J.contents result.knows }
    ensures same { note.new ≡ note.old }
{
    // a note that learns says that what it knows is legal, and this one learns nothing that it doesn't know
    let own = note.told();
    note.learn(own);
    note.told()
}

impl<J: HubSite> Receipt<J> {
    /// The seat of the session whose it is.
    pub fn seat(&self) -> Seat
        ensures { result ≡ self.now.seat }
    {
        self.seat
    }

    /// The writes that the session knew to be published, once it published itself.
    pub fn front(&self) -> Option<Front<J>>
        ensures { writes_seen result ≡ self.now.published }
    {
        again(&self.front)
    }
}

impl<J: HubSite> Session<J> {
    /// What it knows now, to be told to processors. It takes no lock and no memory, and waits for nobody.
    pub fn receipt(&mut self, facts: &Facts) -> Receipt<J>
        requires { facts.now ≡ J.word }
        ensures whose { (result.seat ≡ self.old.seat) × (result.life ≡ self.old.life) × (result.account ≡ self.old.account) }
        ensures knows { result.knows ≡ self.old.knows }
        ensures published { result.published ≡ self.old.published }
        ensures own_go { IsPublished J.contents result.seat result.life result.account result.knows result.published }
        ensures same { self.new ≡ self.old }
    {
        let notebook = &mut self.notebook;
        Receipt {
            seat: self.seat,
            life: self.life,
            account: self.account,
            told: told_by(&mut notebook.note),
            lives: facts.again(&mut self.lives),
            known: self.known.begin(facts),
            front: again(&notebook.front),
        }
    }
}
