//! What holds of the definitions alone: a text has one verdict, and the text of the trail of a view that a machine can
//! bring is judged to agree.
ghost use Rattle.std.specs.Prelude.{◌≡◌, ℕ, List, Some};
ghost use Rattle.dt_cred.specs.declared.account.Account.{Account};
ghost use Rattle.dt_machine.specs.Registry.{Contents};
ghost use Rattle.dt_proto.specs.Alone.{Reached};
ghost use Rattle.dt_proto.specs.Session.{session_account};
ghost use Rattle.dt_proto.specs.Trail.{WrittenItem, IsTrailOf, SpellsTrail};
ghost use Rattle.dt_alone.specs.Verdicts.{IsVerdictOn, replies_in};
ghost use Rattle.dt_proto.specs.Brought.{IsBrought};
ghost use Rattle.dt_alone.specs.declared.verdict.Verdict.{Verdict};
ghost use Rattle.dt_alone.specs.declared.verdict.Verdict.TheVariants.{Agree};

use dt_proto::trails_agree;

/// Law: a text has one verdict at most.
pub fn one_verdict()
    ensures { (contents : Contents) (text : List ℕ) (a b : Verdict)
        → IsVerdictOn contents text a → IsVerdictOn contents text b → a ≡ b }
{}

/// Law: the text of the trail of a view that a machine can bring is judged to agree, where its account may have a session.
pub fn trail_agrees()
    ensures { (contents : Contents) (name : List ℕ) (account : Account) (view : List Reached) (items : List WrittenItem)
        (text : List ℕ) → session_account contents.registry name ≡ Some account → IsBrought contents view
        → IsTrailOf account contents.registry view items → SpellsTrail text name items
        → IsVerdictOn contents text (Agree (replies_in items)) }
{
    trails_agree();
}

/// Law: a text tells one trail at most: the account's name, each line, each reply and each number stand in it unambiguously.
pub fn one_trail_told()
    ensures { (text name other : List ℕ) (items others : List WrittenItem) → SpellsTrail text name items
        → SpellsTrail text other others → (name ≡ other) × (items ≡ others) }
{}
