//! What holds of a replay's trail and a check together, of a service's sessions and the world of steps together, and what the program's words ask
//! for, written out.
ghost use Rattle.std.specs.Borrow.{Bor};
ghost use Rattle.std.specs.Prelude.{◌≡◌, ◌⊎◌, ℕ, Bool, List, [], ◌∷◌, Some, None, codes, length, map};
ghost use Rattle.dt_alone.specs.Verdicts.{IsVerdictOn};
ghost use Rattle.dt_alone.specs.declared.verdict.Verdict.TheVariants.{Agree};
ghost use Rattle.dt_cred.specs.Rights.{HasDtrace};
ghost use Rattle.dt_cred.specs.declared.account.Account.{Account};
ghost use Rattle.dt_legal.specs.Rows.{told_as};
ghost use Rattle.dt_machine.specs.Reading.{IsDescribed};
ghost use Rattle.dt_machine.specs.Registry.{Contents, account_of};
ghost use Rattle.dt_proto.specs.Lines.{LineForm};
ghost use Rattle.dt_proto.specs.Told.{view_by};
ghost use Rattle.dt_server.specs.Served.{HasServed, IsClosed, IsServed, lines_in, taken_lines, woven};
ghost use Rattle.dt_server.specs.declared.ended.Ended.{Ended};
ghost use Rattle.dt_steps.specs.Ran.{SeatReply, AreReplies, told_to};
ghost use Rattle.dt_steps.specs.Steps.{StepForm, world_after};
ghost use Rattle.dt_steps.specs.Trails.{HasSeen};
ghost use Rattle.dt_trail.specs.Items.{TrailItem};
ghost use Rattle.dt_world.specs.Replay.{IsTrailReplay};
ghost use Rattle.dtraced.specs.Words.{Asks};
ghost use Rattle.dtraced.specs.declared.words.Words.{Words};
ghost use Rattle.dtraced.specs.declared.words.Words.TheVariants.{Replay, Check, Serve, Send};

use dt_alone::trail_agrees;
use dt_life::one_reply;
use dt_machine::described_is_sound;
use dt_server::closed_is_woven;
use dt_steps::{trail_is_told, trail_is_view};

/// Law: a check answers `agree` of whatever a replay writes as the trail of a seat. Where no session was on the seat,
/// nothing is written.
pub fn written_trails_agree()
    ensures { (file input output : List ℕ) (contents : Contents) (seat : ℕ) → IsDescribed file contents
        → IsTrailReplay contents input seat output
        → (output ≡ []) ⊎ ((n : ℕ) × IsVerdictOn contents output (Agree n)) }
{
    trail_agrees();
    described_is_sound();
}

/// Law: what a service's session has served is what a session sees in some list of steps: the items of its receipt are the seen view of one there.
/// And where all that came was answered, or all up to an accepted `close`, what is written to its client are the replies that this session is told there, with the fixed
/// refusal at the places of the lines for which there was no memory: those that aren't among the trail's. Where there was no memory to begin with, nothing was served.
pub fn served_trails_are_views()
    ensures views { (contents : Contents) (name : List ℕ) (account : Account) (ended : Ended) (lines : List LineForm)
        (items : List TrailItem) (text : List ℕ)
        → account_of contents.registry name ≡ Some account → HasDtrace account.privs
        → HasServed account contents ended lines items text
        → (steps : List StepForm) × (seat : ℕ) × (n : ℕ)
        × HasSeen contents.registry steps seat n account (view_by contents (map told_as items)) }
    ensures told { (contents : Contents) (account : Account) (lines : List LineForm) (items : List TrailItem) (text : List ℕ)
        (steps : List StepForm) (seat n : ℕ) (told : List SeatReply)
        → IsServed account contents lines items text
        → HasSeen contents.registry steps seat n account (view_by contents (map told_as items))
        → AreReplies contents.registry (world_after contents.registry steps).questions told
        → (taken : List Bool) × (length taken ≡ length lines) × (lines_in items ≡ taken_lines taken lines)
        × (text ≡ woven taken (told_to seat n (world_after contents.registry steps).questions told)) }
    ensures told_closed { (contents : Contents) (account : Account) (lines : List LineForm) (items : List TrailItem) (text : List ℕ)
        (steps : List StepForm) (seat n : ℕ) (told : List SeatReply)
        → IsClosed account contents lines items text
        → HasSeen contents.registry steps seat n account (view_by contents (map told_as items))
        → AreReplies contents.registry (world_after contents.registry steps).questions told
        → (taken : List Bool) × (length taken ≡ length lines) × (lines_in items ≡ taken_lines taken lines)
        × (text ≡ woven taken (told_to seat n (world_after contents.registry steps).questions told)) }
{
    closed_is_woven();
    one_reply();
    trail_is_told();
    trail_is_view();
}

/// Law: what the words of a call ask for, by clap's definitions worked out: `dtraced replay m`, `dtraced replay m --trail 5`,
/// `dtraced check m t`, `dtraced serve m f` and `dtraced send p`. Without the trail's file, the folder or the path, or with a word
/// too many, they ask for nothing.
pub fn words_ask()
    ensures replay { (machine : Bor (List ℕ)) → machine.now ≡ codes "m"
        → Asks (codes "dtraced" ∷ codes "replay" ∷ codes "m" ∷ []) (Replay machine None) }
    ensures trail { (machine : Bor (List ℕ)) → machine.now ≡ codes "m"
        → Asks (codes "dtraced" ∷ codes "replay" ∷ codes "m" ∷ codes "--trail" ∷ codes "5" ∷ []) (Replay machine (Some 5)) }
    ensures check { (machine trail : Bor (List ℕ)) → machine.now ≡ codes "m" → trail.now ≡ codes "t"
        → Asks (codes "dtraced" ∷ codes "check" ∷ codes "m" ∷ codes "t" ∷ []) (Check machine trail) }
    ensures serve { (machine folder : Bor (List ℕ)) → machine.now ≡ codes "m" → folder.now ≡ codes "f"
        → Asks (codes "dtraced" ∷ codes "serve" ∷ codes "m" ∷ codes "f" ∷ []) (Serve machine folder) }
    ensures send { (path : Bor (List ℕ)) → path.now ≡ codes "p"
        → Asks (codes "dtraced" ∷ codes "send" ∷ codes "p" ∷ []) (Send path) }
    ensures no_trail { (asked : Words) → Asks (codes "dtraced" ∷ codes "check" ∷ codes "m" ∷ []) asked → ⊥ }
    ensures no_folder { (asked : Words) → Asks (codes "dtraced" ∷ codes "serve" ∷ codes "m" ∷ []) asked → ⊥ }
    ensures no_path { (asked : Words) → Asks (codes "dtraced" ∷ codes "send" ∷ []) asked → ⊥ }
    ensures replay_too_many { (asked : Words)
        → Asks (codes "dtraced" ∷ codes "replay" ∷ codes "m" ∷ codes "t" ∷ []) asked → ⊥ }
    ensures check_too_many { (asked : Words)
        → Asks (codes "dtraced" ∷ codes "check" ∷ codes "m" ∷ codes "t" ∷ codes "u" ∷ []) asked → ⊥ }
    ensures serve_too_many { (asked : Words)
        → Asks (codes "dtraced" ∷ codes "serve" ∷ codes "m" ∷ codes "f" ∷ codes "u" ∷ []) asked → ⊥ }
    ensures send_too_many { (asked : Words)
        → Asks (codes "dtraced" ∷ codes "send" ∷ codes "p" ∷ codes "u" ∷ []) asked → ⊥ }
{}
