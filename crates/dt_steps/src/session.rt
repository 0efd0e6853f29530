//! A session that goes on, with its consumer.
ghost use Rattle.std.specs.Prelude.{◌≡◌};
ghost use Rattle.dt_steps.specs.Ready.{GoIsReady, ready_prop};

use dt_consumer::{Consumer, Draft};
use dt_cred::Account;
use dt_life::Phase;
use dt_machine::Machine;
use dt_proto::{Asked, WholeLine, read_line, reply_bytes};
use std::alloc::{AllocError, Global};

/// A session that goes on.
#[derive(Drop)]
pub(crate) struct Session {
    pub(crate) account: Account,
    pub(crate) consumer: Consumer,
    pub(crate) go: Option<Pending>,
    /// Whether a `close` of it was accepted.
    pub(crate) is_closed: bool,
    ghost ready: { GoIsReady consumer go } by { ready_prop consumer go },
}

/// A `go` that was accepted and has not taken effect yet.
#[derive(Drop)]
pub(crate) struct Pending {
    pub(crate) line: Asked,
    pub(crate) draft: Draft,
    /// The reply's bytes, with its newline: they are made with the draft, so that to finish takes no memory.
    pub(crate) text: Vec<u8>,
    /// Whether the session's interest was published for it.
    pub(crate) is_published: bool,
}

/// What a line is answered.
#[derive(Drop)]
pub struct Answered {
    /// The reply's bytes, with its newline.
    pub text: Vec<u8>,
    /// Whether the line was refused since it is over the quota.
    pub is_over: bool,
}

/// A `go` that took effect.
#[derive(Drop)]
pub struct Finished {
    pub line: Asked,
    /// The reply's bytes, with its newline.
    pub text: Vec<u8>,
}

impl Session {
    ghost use Rattle.std.specs.Prelude.{◌≡◌, [], Some, None, true, IfOk, IfSome, option_map};
    ghost use Rattle.dt_cred.specs.declared.account.Account.{Account};
    ghost use Rattle.dt_machine.specs.Registry.{Registry};
    ghost use Rattle.dt_life.specs.Life.{is_over};
    ghost use Rattle.dt_proto.specs.Asked.{form_lent, form_asked};
    ghost use Rattle.dt_steps.specs.Stands.{IsSessionOf, IsSession, IsAsked, IsFinishing, is_unpublished};
    ghost use Rattle.dt_steps.specs.World as world;

    /// A session of an account that has asked nothing.
    pub(crate) fn new(
        alloc: Global,
        account: Account,
        machine: &Machine,
    ) -> Result<Session, AllocError>
        ensures { IfOk result (IsSessionOf machine.now.registry account [] None) }
    {
        Ok(Session {
            account,
            consumer: Consumer::new(alloc, account, machine)?,
            go: None,
            is_closed: false,
        })
    }

    /// Whether it may ask a line: no `go` is pending, and no `close` was accepted.
    pub(crate) fn may_ask(&self) -> bool
        ensures may { (registry : Registry) (session : world.Session) → IsSession registry session self.now
            → result ≡ world.may_ask registry session }
        ensures idle { result ≡ true → self.now.go ≡ None }
    {
        self.go.is_none() && !self.is_closed
    }

    /// Asks a line of a session that may ask: a line may change the consumer, and the draft of a pending `go` is of the
    /// consumer as it is. A `go` that is accepted is pending then, without a reply.
    pub(crate) fn ask(
        &mut self,
        alloc: Global,
        machine: &Machine,
        line: WholeLine<'_>,
    ) -> Result<Option<Answered>, AllocError>
        requires { self.old.go ≡ None }
        ensures asked { IfOk result (λ reply. (session : world.Session) → IsSession machine.now.registry session self.old
            → world.may_ask machine.now.registry session ≡ true
            → IsAsked machine.now.registry session (form_lent line.entry) (option_map (λ answered. answered.text.items) reply) self.new) }
        ensures over { IfOk result (λ reply. IfSome reply (λ answered. (session : world.Session)
            → IsSession machine.now.registry session self.old
            → answered.is_over ≡ is_over (world.life_in machine.now.registry session))) }
    {
        let asked = read_line(alloc, line)?;
        let draft = self.consumer.draft(alloc, machine, &asked)?;
        let text = reply_bytes(alloc, draft.reply())?;
        // an accepted `go` waits for its publication, and is answered at its finish
        if draft.publishes() {
            let line = line.to_asked(alloc)?;
            self.go = Some(Pending {
                line,
                draft,
                text,
                is_published: false,
            });
            return Ok(None);
        }
        let is_over = draft.is_over_quota();
        self.is_closed = draft.closes();
        self.consumer.apply(machine, draft);
        Ok(Some(Answered { text, is_over }))
    }

    /// Whether a `go` is pending whose interest is still to be published.
    pub(crate) fn is_unpublished(&self) -> bool
        ensures { (registry : Registry) (session : world.Session) → IsSession registry session self.now
            → result ≡ is_unpublished session }
    {
        match &self.go {
            Some(pending) => !pending.is_published,
            None => false,
        }
    }

    /// The interest was published for the pending `go`.
    pub(crate) fn set_published(&mut self)
        ensures { (registry : Registry) (session : world.Session) (pending : world.Pending)
            → IsSession registry session self.old → session.go ≡ Some pending
            → IsSession registry (world.waiting session pending.line true) self.new }
    {
        if let Some(pending) = &mut self.go {
            pending.is_published = true;
        }
    }

    /// A pending `go` whose interest was published takes effect, and is answered. Where there is none, nothing happens: as
    /// long as the interest isn't published no look names the session, so the `go` waits on.
    pub(crate) fn finish(&mut self, machine: &Machine) -> Option<Finished>
        ensures finished { (session : world.Session) → IsSession machine.now.registry session self.old
            → IsFinishing machine.now.registry session (option_map (λ finished. finished.text.items) result) self.new }
        ensures line { IfSome result (λ finished. (session : world.Session) (pending : world.Pending)
            → IsSession machine.now.registry session self.old → session.go ≡ Some pending
            → form_asked finished.line ≡ pending.line) }
    {
        let pending = self.go.take()?;
        if !pending.is_published {
            self.go = Some(pending);
            return None;
        }
        self.consumer.apply(machine, pending.draft);
        Some(Finished {
            line: pending.line,
            text: pending.text,
        })
    }

    /// Whether its publication may be withdrawn: it is not active, and no `go` is pending.
    pub(crate) fn may_withdraw(&self) -> bool
        ensures { (registry : Registry) (session : world.Session) → IsSession registry session self.now
            → result ≡ world.may_withdraw registry session }
    {
        self.go.is_none() && !matches!(self.consumer.phase(), Phase::Active)
    }
}
