//! What a processor is told of a session.
ghost use Rattle.std.specs.Prelude.{◌≡◌, ℕ, List, IfSome};
ghost use mathlib.Core.List.{IsPrefix};
ghost use Rattle.dt_chain.specs.Writes.{Write};
ghost use Rattle.dt_legal.specs.Rows.{IsLegalRow};
ghost use Rattle.dt_seat.specs.Keeps.{IsOfAccount};
ghost use Rattle.dt_seat.specs.Publications.{IsPublished};
ghost use Rattle.dt_seat.specs.Receipts.{HasHeard, later_told};
ghost use Rattle.dt_seat.specs.Tracked.{AreTracked};

use crate::follower::Follower;
use crate::receipt::Receipt;
use crate::site::HubSite;
use crate::told_of::ToldOf;
use dt_facts::Facts;

/// Of what was told of two lives, that of the later one; of what was told twice of one life, the longer.
fn later_of(earlier: Option<ToldOf>, newer: ToldOf) -> ToldOf
    requires { IfSome earlier (λ t. t.life ≡ newer.life → t.told.row ≡ newer.told.row) }
    ensures { result ≡ later_told earlier newer }
{
    let Some(earlier) = earlier else {
        return newer;
    };
    if earlier.life == newer.life {
        let ToldOf { life, told } = newer;
        let ToldOf { told: first, .. } = earlier;
        return ToldOf {
            life,
            told: first.longer(told),
        };
    }
    if earlier.life < newer.life {
        newer
    } else {
        earlier
    }
}

impl<J: HubSite> Follower<J> {
    /// Takes in what a session of the seat knew. It takes no lock and no memory, and waits for nobody.
    pub fn tell(&mut self, facts: &Facts, receipt: Receipt<J>)
        requires facts { facts.now ≡ J.word }
        requires seat { receipt.seat ≡ self.old.seat }
        ensures heard { HasHeard receipt self.old self.new }
        ensures whose { IsOfAccount receipt.life receipt.account self.new.lives }
        ensures tracked { (writes : List Write) (knew : ℕ → List ℕ) → IsPrefix receipt.published writes
            → AreTracked J.contents writes knew self.old → AreTracked J.contents writes knew self.new }
    {
        self.take_in(facts, receipt);
        self.is_right();
    }

    /// The same, without what is kept track of.
    fn take_in(&mut self, facts: &Facts, receipt: Receipt<J>)
        requires facts { facts.now ≡ J.word }
        requires seat { receipt.seat ≡ self.old.seat }
        ensures heard { HasHeard receipt self.old self.new }
        ensures whose { IsOfAccount receipt.life receipt.account self.new.lives }
        ensures legal { IsLegalRow receipt.account J.contents receipt.knows }
        ensures go { IsPublished J.contents receipt.seat receipt.life receipt.account receipt.knows receipt.published }
    {
        let Receipt {
            seat: _,
            life,
            account: _,
            told,
            lives,
            known,
            front: _,
        } = receipt;
        facts.learn(&mut self.lives, lives);
        facts.learn(&mut self.known, known);
        if let Some(note) = &mut self.note {
            if self.life == life {
                note.learn(told);
                return;
            }
            if self.life > life {
                return;
            }
        }
        self.told = Some(later_of(self.told.take(), ToldOf { life, told }));
    }
}
