//! Which statements may not stand together in a clause.
ghost use Rattle.std.specs.Prelude.{◌≡◌};
ghost use Rattle.dt_lang.specs.machine.Cause.{kind_of_action, kind_begun};
ghost use Rattle.dt_lang.specs.machine.KindView.{kind_form};
ghost use Rattle.dt_program.specs.Clause.{form_of_statement};
ghost use Rattle.dt_program.specs.Kinds.{statement_kind, excludes};

use crate::token::Token;
use crate::word::{Action, Word};
use dt_program::Statement;

/// What a statement does with the record, or with speculations. (illumos Dynamic Tracing Guide, "Speculative Tracing".)
#[derive(Clone, Copy)]
pub(crate) enum Kind {
    /// It puts something into the record.
    Recording,
    /// It directs the record to a speculation.
    Speculating,
    /// It commits a speculation.
    Committing,
    /// It gives to an aggregation or ends tracing, which no discard undoes.
    Irrevocable,
    /// It does none of these.
    Unrestricted,
}

impl Kind {
    /// The kind of a statement.
    pub(crate) fn of(statement: &Statement) -> Kind
        ensures { kind_form result ≡ statement_kind (form_of_statement statement.now) }
    {
        match statement {
            Statement::Trace(_) | Statement::Stack(_) | Statement::Ustack(_) => Kind::Recording,
            Statement::Speculate(_) => Kind::Speculating,
            Statement::Commit(_) => Kind::Committing,
            Statement::Aggregate(_) | Statement::Exit(_) => Kind::Irrevocable,
            Statement::Assign(_, _) | Statement::Draw(_) | Statement::Discard(_) => {
                Kind::Unrestricted
            }
        }
    }

    /// The kind of the statement that a token begins.
    pub(crate) fn begun_by(token: &Token) -> Kind
        ensures { kind_form result ≡ kind_begun token.now }
    {
        match token {
            Token::Word(Word::Action(action)) => Kind::of_action(*action),
            Token::Aggregation(_) => Kind::Irrevocable,
            _ => Kind::Unrestricted,
        }
    }

    /// The kind of the statement that an action's name begins.
    fn of_action(action: Action) -> Kind
        ensures { kind_form result ≡ kind_of_action action }
    {
        match action {
            Action::Trace | Action::Stack | Action::Ustack => Kind::Recording,
            Action::Exit => Kind::Irrevocable,
            Action::Speculate => Kind::Speculating,
            Action::Commit => Kind::Committing,
            Action::Discard => Kind::Unrestricted,
        }
    }

    /// Whether a statement of this kind excludes a later one of the same clause.
    pub(crate) fn excludes(self, later: Kind) -> bool
        ensures { result ≡ excludes (kind_form self) (kind_form later) }
    {
        match (self, later) {
            (Kind::Speculating, Kind::Speculating | Kind::Committing | Kind::Irrevocable) => true,
            (Kind::Committing | Kind::Irrevocable | Kind::Recording, Kind::Speculating) => true,
            (Kind::Recording, Kind::Committing) | (Kind::Committing, Kind::Recording) => true,
            _ => false,
        }
    }
}
