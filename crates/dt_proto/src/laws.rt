//! What holds of the definitions alone: lines don't depend on how an input is cut into pieces, what a consumer is answered
//! alone doesn't depend on its account's name, a trail tells what was seen and answered, and which trails are legal and agree.
ghost use Rattle.std.specs.Prelude.{◌≡◌, ◌↔◌, ℕ, List, Some, ◌++◌, map, reverse, take};
ghost use Rattle.dt_cred.specs.declared.account.Account.{Account};
ghost use Rattle.dt_life.specs.Answer.{Answer};
ghost use Rattle.dt_life.specs.Life.{Item};
ghost use Rattle.dt_life.specs.Limits.{lines_max};
ghost use Rattle.dt_life.specs.Scenes.{IsLifeOn};
ghost use Rattle.dt_machine.specs.Registry.{Contents, Registry, account_of};
ghost use Rattle.dt_proto.specs.Alone.{Reached, IsLifeOf, Alone};
ghost use Rattle.dt_proto.specs.Brought.{IsBrought};
ghost use Rattle.dt_proto.specs.Legal.{Agrees, IsLegal, life_of_trail};
ghost use Rattle.dt_proto.specs.Lines.{all_but_last, parts_of, lines_of, rest_of};
ghost use Rattle.dt_proto.specs.Reply.{reply_text};
ghost use Rattle.dt_proto.specs.Session.{session_account};
ghost use Rattle.dt_proto.specs.Splits.{HasNoNewline, Splits, with_newline};
ghost use Rattle.dt_proto.specs.Told.{AreRepliesAlone, view_told};
ghost use Rattle.dt_proto.specs.Trail.{IsTrailOf, WrittenItem, replies_of};
ghost use Rattle.dt_proto.specs.Views.{life_of, seen_view};

use dt_life::one_reply;

/// The lines of two pieces, one after the other, are those of the first and then those of the second, with the first's
/// rest carried into its first line.
pub fn one_cutting()
    ensures lines { (a b : List ℕ) → lines_of (a ++ b) ≡ lines_of a ++ lines_of (rest_of a ++ b) }
    ensures rest { (a b : List ℕ) → rest_of (a ++ b) ≡ rest_of (rest_of a ++ b) }
{}

/// Each input is lines, each with its newline, and then a rest, in exactly one way.
pub fn one_splitting()
    ensures some { (input : List ℕ) → Splits input (all_but_last (parts_of input)) (rest_of input) }
    ensures one { (input : List ℕ) (lines : List (List ℕ)) (rest : List ℕ) → Splits input lines rest
        → (lines ≡ all_but_last (parts_of input)) × (rest ≡ rest_of input) }
{}

/// An account is its uid and its privileges: two that are equal in these see the same of a view, and are answered the same
/// alone, whatever their names are.
pub fn equal_rights()
    ensures seen { (a b : Account) (registry : Registry) (view : List Reached) → a.uid ≡ b.uid → a.privs ≡ b.privs
        → seen_view a registry view ≡ seen_view b registry view }
    ensures alone { (a b : Account) (registry : Registry) (view : List Reached) (answers : List Answer)
        → a.uid ≡ b.uid → a.privs ≡ b.privs → Alone a registry view answers ↔ Alone b registry view answers }
{}

/// The function by which the life of a view is computed is the relation that it stands for.
pub fn tests_agree()
    ensures { (account : Account) (registry : Registry) (view : List Reached) (life : List Item)
        → IsLifeOf account registry view life ↔ (life ≡ life_of account registry view) }
{}

/// The seen view has the life of the view, and what is answered to one alone is answered to the other.
pub fn seen_alike()
    ensures life { (account : Account) (registry : Registry) (view : List Reached)
        → life_of account registry (seen_view account registry view) ≡ life_of account registry view }
    ensures alone { (account : Account) (registry : Registry) (view : List Reached) (answers : List Answer)
        → Alone account registry view answers ↔ Alone account registry (seen_view account registry view) answers }
{}

/// The trail of a view is the trail of its seen view: what a session didn't see isn't told.
pub fn trails_are_seen()
    ensures { (account : Account) (registry : Registry) (view : List Reached) (items : List WrittenItem)
        → IsTrailOf account registry view items
        ↔ IsTrailOf account registry (seen_view account registry view) items }
{}

/// The replies that a trail tells are the first that its view is answered alone, as many as the quota of lines allows.
pub fn first_replies()
    ensures { (account : Account) (registry : Registry) (view : List Reached) (items : List WrittenItem)
        (answers : List Answer) → IsTrailOf account registry view items → Alone account registry view answers
        → replies_of items ≡ map reply_text (take lines_max answers) }
{
    one_reply();
}

/// A reply is one line: it ends with a newline, and no other is in it.
pub fn one_line()
    ensures { (answer : Answer) → (reply : List ℕ) × (reply_text answer ≡ with_newline reply) × HasNoNewline reply }
{}

/// The life that the items of a legal trail tell is the life of the view that they tell, and what stands before its newest
/// items is legal by itself.
pub fn legal_lives()
    ensures life { (account : Account) (contents : Contents) (past : List WrittenItem) → IsLegal account contents past
        → IsLifeOf account contents.registry (view_told contents past) (life_of_trail account contents past) }
    ensures function { (account : Account) (contents : Contents) (past : List WrittenItem)
        → IsLegal account contents past
        → life_of_trail account contents past ≡ life_of account contents.registry (view_told contents past) }
    ensures before { (account : Account) (contents : Contents) (later past : List WrittenItem)
        → IsLegal account contents (later ++ past) → IsLegal account contents past }
{}

/// Items agree exactly where they tell a legal trail, and their replies are those that a consumer is answered which
/// traces alone, with just what these items tell.
pub fn agreement()
    ensures { (account : Account) (contents : Contents) (items : List WrittenItem)
        → Agrees account contents (reverse items)
        ↔ (IsLegal account contents (reverse items) × AreRepliesAlone account contents items) }
{}

/// The trail of a view that a machine can bring agrees.
pub fn trails_agree()
    ensures { (account : Account) (contents : Contents) (view : List Reached) (items : List WrittenItem)
        → IsBrought contents view → IsTrailOf account contents.registry view items
        → Agrees account contents (reverse items) }
{}

/// The life of a view that a machine can bring to one of its accounts is a life on that machine, and whoever may have a
/// session is one of its accounts.
pub fn lives_on_machines()
    ensures life { (contents : Contents) (name : List ℕ) (account : Account) (view : List Reached) (life : List Item)
        → account_of contents.registry name ≡ Some account → IsBrought contents view
        → IsLifeOf account contents.registry view life → IsLifeOn contents account life }
    ensures known { (registry : Registry) (name : List ℕ) (account : Account)
        → session_account registry name ≡ Some account → account_of registry name ≡ Some account }
{}
