//! What holds of the definitions alone: a program has one verdict, the ECBs and the uses of programs go on from one
//! another, and each aggregation that is used has a number.
ghost use Rattle.std.specs.Prelude.{◌≡◌, ◌≢◌, ◌↔◌, ◌+◌, ◌++◌, ℕ, List, [], length, Contains, IsSome};
ghost use Rattle.dt_cred.specs.declared.account.Account.{Account};
ghost use Rattle.dt_machine.specs.Registry.{Registry};
ghost use Rattle.dt_program.specs.Program.{ArgForm, CallForm, ClauseForm, aggregate};
ghost use Rattle.dt_machine.specs.Interest as interest;
ghost use Rattle.dt_ecb.specs.Ecbs.{EcbForm, added, ecbs_of, of_probe};
ghost use Rattle.dt_ecb.specs.Enable.{EnableVerdict, IsVerdict};
ghost use Rattle.dt_ecb.specs.Interest.{interest_of};
ghost use Rattle.dt_ecb.specs.Shapes.{ShapeForm, named, uses_of};

/// Law: two verdicts on one program are the same.
pub fn one_verdict()
    ensures { (account : Account) (registry : Registry) (accepted : List ShapeForm) (epid : ℕ)
        (clauses : List ClauseForm) (a b : EnableVerdict)
        → IsVerdict account registry accepted epid clauses a → IsVerdict account registry accepted epid clauses b
        → a ≡ b }
{}

/// Law: each program has a verdict.
pub fn some_verdict()
    ensures { (account : Account) (registry : Registry) (accepted : List ShapeForm) (epid : ℕ)
        (clauses : List ClauseForm) → (verdict : EnableVerdict) × IsVerdict account registry accepted epid clauses verdict }
{}

/// Law: the ECBs of accepted clauses and further ones are those of the accepted, and after them those that the
/// further ones add from the next EPID on.
pub fn ecbs_go_on()
    ensures { (account : Account) (registry : Registry) (before clauses : List ClauseForm)
        → ecbs_of account registry (before ++ clauses)
        ≡ ecbs_of account registry before
        ++ added account registry (length (ecbs_of account registry before) + 1) clauses }
{}

/// Law: the uses of clauses and further ones are those of the first, and after them those of the further ones.
pub fn uses_of_both()
    ensures { (a b : List ClauseForm) → uses_of (a ++ b) ≡ uses_of a ++ uses_of b }
{}

/// Law: the name of each statement that aggregates is found among all uses of the clauses.
pub fn uses_are_named()
    ensures { (clauses : List ClauseForm) (clause : ClauseForm) (name : List ℕ) (keys : List ArgForm)
        (call : CallForm) → Contains clauses clause → Contains clause.statements (aggregate name keys call)
        → IsSome (named (uses_of clauses) name) }
{}

/// Law: a name that is found has the same number and the same first use, whatever uses come after.
pub fn numbers_stay()
    ensures { (before after : List ShapeForm) (name : List ℕ) → IsSome (named before name)
        → named (before ++ after) name ≡ named before name }
{}

/// Law: the interest of ECBs has exactly the probes that they name.
pub fn tests_agree()
    ensures { (ecbs : List EcbForm) (id : ℕ) → interest.Names (interest_of ecbs) id ↔ (of_probe id ecbs ≢ []) }
{}
