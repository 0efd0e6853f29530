//! What holds of the definitions alone: a line has one reply; the phase of a life, in words; and records are of their layouts.
ghost use Rattle.std.specs.Prelude.{◌≡◌, ◌≢◌, ◌↔◌, ◌≤◌, ℕ, Bool, true, IsTrue, List, [], ◌∷◌, map, Option, None, Result, Ok, FitsSigned};
ghost use Rattle.std.specs.Int.{w64};
ghost use Rattle.std.specs.List.{AllByRecursion, flat_map};
ghost use Rattle.dt_buffer.specs.Shows.{Shows};
ghost use Rattle.dt_cred.specs.declared.account.Account.{Account};
ghost use Rattle.dt_cred.specs.declared.firing.Firing.{Firing};
ghost use Rattle.dt_ecb.specs.Ecbs.{EcbForm};
ghost use Rattle.dt_ecb.specs.Interest.{interest_of};
ghost use Rattle.dt_machine.specs.Context.{ContextForm};
ghost use Rattle.dt_machine.specs.Interest as interest;
ghost use Rattle.dt_machine.specs.Reading.{IsDescribed};
ghost use Rattle.dt_machine.specs.Registry.{Belongs, Contents, Registry};
ghost use Rattle.dt_machine.specs.Shown.{IsShown};
ghost use Rattle.dt_record.specs.Layout.{layout_of};
ghost use Rattle.dt_record.specs.Split.{IsSplit, RecordForm};
ghost use Rattle.dt_life.specs.Acceptance.{IsAcceptedGo};
ghost use Rattle.dt_life.specs.Answer.{Answer};
ghost use Rattle.dt_life.specs.Ask.{Ask, go, close};
ghost use Rattle.dt_life.specs.Buffers.{past};
ghost use Rattle.dt_life.specs.Ending.{phase_by_event, phase_by_item};
ghost use Rattle.dt_life.specs.Life.{Item, asked, ecbs, has_room, phase, seen_count, set_up, since_then, tracing_steps};
ghost use Rattle.dt_life.specs.Reply.{Replies};
ghost use Rattle.dt_life.specs.Scenes.{IsLifeInBounds, IsLifeOn, IsOfLayout};
ghost use Rattle.dt_life.specs.Sees.{Sees};
ghost use Rattle.dt_life.specs.Options.{OptionsForm};
ghost use Rattle.dt_life.specs.Takings.{Taking, began};
ghost use Rattle.dt_life.specs.TracingSteps.{AreTakenInTurn, TracingStep, taken_in_turn, taken_on};
ghost use Rattle.dt_life.specs.Tests.{is_accepted_go, is_seen};
ghost use Rattle.dt_life.specs.Variables.{locals};
ghost use Rattle.dt_life.specs.declared.phase.End.{End};
ghost use Rattle.dt_life.specs.declared.phase.Phase.TheVariants.{Inactive, Active, Stopped};
ghost use Rattle.dt_life.specs.declared.refusal.Refusal.{Refusal};

use dt_buffer::{one_shown, some_shown};
use dt_ecb::{ecbs_go_on, one_verdict, some_verdict};
use dt_lang::read_is_in_bounds;
use dt_machine::described_is_in_bounds;

/// Law: a line has at most one reply.
pub fn one_reply()
    ensures { (account : Account) (registry : Registry) (life : List Item) (line : Result Ask Refusal) (a b : Answer)
        → Replies account registry life line a → Replies account registry life line b → a ≡ b }
{
    one_verdict();
    one_shown();
}

/// Law: each line has a reply.
pub fn some_reply()
    ensures { (account : Account) (registry : Registry) (life : List Item) (line : Result Ask Refusal)
        → (answer : Answer) × Replies account registry life line answer }
{
    some_verdict();
    some_shown();
}

/// Law: the phase in words. Tracing begins by a `go` for which there is room, and by nothing else; it goes on until the
/// first that ends it: a `stop`, a `close`, an exit, the last firing of the history. Then its cause stays.
pub fn phases()
    // before tracing, nothing but such a `go`, and a `close`, changes the phase
    ensures waits { (account : Account) (registry : Registry) (life : List Item) (item : Item)
        → phase account registry life ≡ Inactive
        → (item ≡ asked (Ok go) → has_room account registry (set_up account registry life) ≡ true → ⊥)
        → item ≢ asked (Ok close) → phase account registry (item ∷ life) ≡ Inactive }
    ensures closes { (account : Account) (registry : Registry) (life : List Item)
        → phase account registry life ≡ Inactive → phase account registry (asked (Ok close) ∷ life) ≡ Stopped None }
    // the `go` begins tracing, which ends at once where a clause of BEGIN exits
    ensures begins { (account : Account) (registry : Registry) (life : List Item)
        → phase account registry life ≡ Inactive → has_room account registry (set_up account registry life) ≡ true
        → phase account registry (asked (Ok go) ∷ life)
        ≡ phase_by_event account registry (since_then (set_up account registry life) []) began }
    ensures goes_on { (account : Account) (registry : Registry) (life : List Item) (item : Item)
        → phase account registry life ≡ Active
        → phase account registry (item ∷ life) ≡ phase_by_item account registry (set_up account registry life) item }
    ensures stays { (account : Account) (registry : Registry) (life : List Item) (item : Item) (cause : Option End)
        → phase account registry life ≡ Stopped cause → phase account registry (item ∷ life) ≡ Stopped cause }
{}

/// Law: from its `go` on a life keeps its ECBs.
pub fn ecbs_stay()
    ensures { (account : Account) (registry : Registry) (life : List Item) (item : Item)
        → phase account registry life ≢ Inactive → ecbs account registry (item ∷ life) ≡ ecbs account registry life }
{}

/// Law: no more firings are seen than the history has, which is the option `histsize`.
pub fn seen_within_history()
    ensures { (account : Account) (registry : Registry) (life : List Item)
        → seen_count (set_up account registry life).since ≤ (set_up account registry life).options.histsize }
{}

/// Law: the tests by which it is computed what is seen, and which line begins tracing, are the relations that they stand
/// for.
pub fn tests_agree()
    ensures seen { (account : Account) (registry : Registry) (life : List Item) (firing : Firing)
        → IsTrue (is_seen account registry life firing) ↔ Sees account registry life firing }
    ensures go { (account : Account) (registry : Registry) (life : List Item) (line : Result Ask Refusal)
        → IsTrue (is_accepted_go account registry life line) ↔ IsAcceptedGo account registry life line }
{}

/// Law: a life sees a firing only by its own interest, which is that of its ECBs: the firing belongs to the
/// machine, the interest of the life's ECBs has its probe, and the account is shown it.
pub fn seen_by_interest()
    ensures belongs { (account : Account) (registry : Registry) (life : List Item) (firing : Firing)
        → Sees account registry life firing → Belongs registry firing }
    ensures interested { (account : Account) (registry : Registry) (life : List Item) (firing : Firing)
        → Sees account registry life firing
        → interest.Names (interest_of (ecbs account registry life)) firing.probe }
    ensures admitted { (account : Account) (registry : Registry) (life : List Item) (firing : Firing)
        → Sees account registry life firing → IsShown account registry firing }
{}

/// Law: the takings of ECBs, one after another, are one list.
pub fn one_row_of_takings()
    ensures some { (options : OptionsForm) (steps : List TracingStep) (in_end : Bool) (context : ContextForm) (ecbs : List EcbForm)
        → AreTakenInTurn options steps in_end context ecbs (taken_in_turn options steps in_end context ecbs) }
    ensures one { (options : OptionsForm) (steps : List TracingStep) (in_end : Bool) (context : ContextForm) (ecbs : List EcbForm)
        (a b : List Taking) → AreTakenInTurn options steps in_end context ecbs a
        → AreTakenInTurn options steps in_end context ecbs b → a ≡ b }
{}

/// Law: what is taken in a life on a machine that a text describes leaves records of the clauses' layouts.
pub fn records_are_of_layouts()
    // of lines and firings of the scripts: each program, each firing and what it names lie within their bounds
    ensures bounded { (text : List ℕ) (contents : Contents) (account : Account) (life : List Item)
        → IsDescribed text contents → IsLifeOn contents account life
        → IsLifeInBounds account contents.registry life }
    // what each taking on a processor leaves fits the layout of its clause, field by field
    ensures fit { (account : Account) (registry : Registry) (life : List Item) (cpu : ℕ)
        → IsLifeInBounds account registry life
        → AllByRecursion IsOfLayout
        (flat_map (taken_on cpu) (tracing_steps account registry (set_up account registry life))) }
    // what is assigned to thread-local variables has 64 bits with a sign
    ensures assigned { (account : Account) (registry : Registry) (life : List Item) → IsLifeInBounds account registry life
        → AllByRecursion (λ assignment. FitsSigned w64 assignment.value) (locals account registry life).assignments }
    // what the processor's buffer shows is split into such records, by their EPIDs
    ensures shown { (account : Account) (registry : Registry) (life : List Item) (cpu : ℕ) (bytes : List ℕ) (drops : ℕ)
        (filled : Bool) → IsLifeInBounds account registry life → Shows (past account registry life cpu) bytes drops filled
        → (records : List RecordForm)
        × IsSplit (map (λ (ecb : EcbForm). layout_of ecb.clause) (ecbs account registry life)) bytes records }
{
    described_is_in_bounds();
    read_is_in_bounds();
    ecbs_go_on();
}
