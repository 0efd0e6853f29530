//! What holds of shared rows, and of what is kept track of until they are made.
ghost use Rattle.std.specs.Prelude.{◌≡◌, ◌≢◌, ◌≤◌, ◌+◌, ◌++◌, ◌∷◌, ◌↔◌, ℕ, Bool, true, false, List, [], Some, length, slice_get};
ghost use Rattle.std.specs.List.{AllByRecursion};
ghost use mathlib.Core.List.{IsPrefix};
ghost use Rattle.dt_chain.specs.Chains.{IsMaskAfter};
ghost use Rattle.dt_chain.specs.Seats.{life_at};
ghost use Rattle.dt_chain.specs.Writes.{Write, published, writes_of};
ghost use Rattle.dt_chain.specs.declared.seat_mask.SeatMask.{SeatMask};
ghost use Rattle.dt_cred.specs.declared.account.Account.{Account};
ghost use Rattle.dt_cred.specs.declared.firing.Firing.{Firing};
ghost use Rattle.dt_ecb.specs.Ecbs.{of_probe};
ghost use Rattle.dt_legal.specs.Rows.{AreOfEcbs, IsGoAfter, IsLegalRow, life_of_row, past_of};
ghost use Rattle.dt_life.specs.Answer.{Answer};
ghost use Rattle.dt_life.specs.Life.{ecbs, is_stopped, phase};
ghost use Rattle.dt_life.specs.declared.phase.Phase.TheVariants.{Active};
ghost use Rattle.dt_machine.specs.Registry.{Belongs, Contents, firing_at};
ghost use Rattle.dt_machine.specs.Shown.{IsShown};
ghost use Rattle.dt_meeting.specs.Keeping.{GoIsPublished, KeepsTrack};
ghost use Rattle.dt_meeting.specs.Order.{IsInOrder, IsOfOthers};
ghost use Rattle.dt_meeting.specs.Sharing.{IsShared, is_seen_after, seen_row};
ghost use Rattle.dt_meeting.specs.Stages.{never, past, stage};
ghost use Rattle.dt_meeting.specs.Tracking.{GoIsAnnounced, IsPassedBy, Tracks};
ghost use Rattle.dt_proto.specs.Alone.{Alone};
ghost use Rattle.dt_proto.specs.Told.{view_told};
ghost use Rattle.dt_proto.specs.Views.{seen_view};
ghost use Rattle.dt_trail.specs.Items.{StartsWith, TrailItem, fired, own, whose};

/// Law: a legal row is seen whole, and what is seen of a row begins what is seen of a longer one.
pub fn rows_are_seen()
    ensures legal { (account : Account) (contents : Contents) (row : List TrailItem) → IsLegalRow account contents row
        → seen_row account contents row ≡ row }
    ensures begins { (account : Account) (contents : Contents) (before after : List TrailItem)
        → StartsWith (seen_row account contents (before ++ after)) (seen_row account contents before) }
{}

/// Law: a row is shared where nothing has happened. It stays so as the trail gets items that aren't the processor's, as the processor fires and
/// isn't seen, as it fires and is seen, and as it has fired late, after the whole trail, where nothing is seen any more.
pub fn shared_rows_grow()
    ensures new { (account : Account) (contents : Contents) (cpu : ℕ) → IsShared account contents cpu [] [] [] }
    ensures trail { (account : Account) (contents : Contents) (cpu : ℕ) (trail more : List TrailItem) (knew : List ℕ) (row : List TrailItem)
        → IsShared account contents cpu trail knew row → IsLegalRow account contents (trail ++ more) → own (cpu + 1) more ≡ []
        → IsShared account contents cpu (trail ++ more) knew (row ++ more) }
    ensures unseen { (account : Account) (contents : Contents) (cpu : ℕ) (trail : List TrailItem) (knew : List ℕ) (row : List TrailItem) (count : ℕ)
        → IsShared account contents cpu trail knew row → is_seen_after account contents trail cpu (length knew) ≡ false
        → count ≤ length trail
        → IsShared account contents cpu trail (knew ++ count ∷ []) (row ++ fired cpu (length knew) ∷ []) }
    ensures kept { (account : Account) (contents : Contents) (cpu : ℕ) (trail : List TrailItem) (knew : List ℕ) (row : List TrailItem) (count : ℕ)
        → IsShared account contents cpu trail knew row → is_seen_after account contents trail cpu (length knew) ≡ true
        → count ≤ length trail
        → IsShared account contents cpu (trail ++ fired cpu (length knew) ∷ []) (knew ++ count ∷ []) (row ++ fired cpu (length knew) ∷ []) }
    ensures late { (account : Account) (contents : Contents) (cpu : ℕ) (trail : List TrailItem) (knew late : List ℕ) (row : List TrailItem)
        → IsShared account contents cpu trail knew row → ((place : ℕ) → is_seen_after account contents trail cpu place ≡ false)
        → AllByRecursion (λ count. count ≤ length trail) late
        → (shared : List TrailItem) × IsShared account contents cpu trail (knew ++ late) shared }
{}

/// Law: a processor that knows nothing keeps track of each life. It goes on to as it knows more writes and more items, as it fires and its writes pass the
/// life by, and as its firing is offered to the life, and is seen there or isn't. In the end its firings and the trail stand in one row.
pub fn tracking_goes_on()
    ensures new { (account : Account) (contents : Contents) (cpu life : ℕ) (writes : List Write)
        → Tracks account contents cpu life writes [] [] }
    ensures writes { (account : Account) (contents : Contents) (cpu life : ℕ) (writes more : List Write) (known : List TrailItem) (knew : List ℕ)
        → IsPrefix writes more → GoIsAnnounced account contents known (stage life more)
        → Tracks account contents cpu life writes known knew → Tracks account contents cpu life more known knew }
    ensures known { (account : Account) (contents : Contents) (cpu life : ℕ) (writes : List Write) (known trail : List TrailItem) (knew : List ℕ)
        → StartsWith trail known → own (cpu + 1) trail ≡ own (cpu + 1) known → IsLegalRow account contents trail
        → GoIsAnnounced account contents trail (stage life writes)
        → Tracks account contents cpu life writes known knew → Tracks account contents cpu life writes trail knew }
    ensures passed { (account : Account) (contents : Contents) (cpu life : ℕ) (writes : List Write) (known : List TrailItem) (knew : List ℕ)
        → IsPassedBy account contents cpu (length knew) (stage life writes) → Tracks account contents cpu life writes known knew
        → Tracks account contents cpu life writes known (knew ++ length known ∷ []) }
    ensures unseen { (account : Account) (contents : Contents) (cpu life : ℕ) (writes : List Write) (known trail : List TrailItem) (knew : List ℕ)
        → stage life writes ≢ past → StartsWith trail known → own (cpu + 1) trail ≡ own (cpu + 1) known → IsLegalRow account contents trail
        → is_seen_after account contents trail cpu (length knew) ≡ false → GoIsAnnounced account contents trail (stage life writes)
        → Tracks account contents cpu life writes known knew → Tracks account contents cpu life writes trail (knew ++ length known ∷ []) }
    ensures kept { (account : Account) (contents : Contents) (cpu life : ℕ) (writes : List Write) (known trail : List TrailItem) (knew : List ℕ)
        → stage life writes ≢ past → StartsWith trail known → own (cpu + 1) trail ≡ own (cpu + 1) known → IsLegalRow account contents trail
        → is_seen_after account contents trail cpu (length knew) ≡ true
        → IsLegalRow account contents (trail ++ fired cpu (length knew) ∷ [])
        → GoIsAnnounced account contents (trail ++ fired cpu (length knew) ∷ []) (stage life writes)
        → Tracks account contents cpu life writes known knew
        → Tracks account contents cpu life writes (trail ++ fired cpu (length knew) ∷ []) (knew ++ length known ∷ []) }
    ensures shared { (account : Account) (contents : Contents) (cpu life : ℕ) (writes : List Write) (trail : List TrailItem) (knew : List ℕ)
        → (stage life writes ≡ past → (place : ℕ) → is_seen_after account contents trail cpu place ≡ false)
        → Tracks account contents cpu life writes trail knew → (row : List TrailItem) × IsShared account contents cpu trail knew row }
{}

/// Law: the writes of a seat are in order for a life of it that they don't name yet. They stay so as the life, which hasn't stopped, is published with exactly the probes of its ECBs,
/// as another write comes once the life has stopped, and as the trail goes on, legally.
pub fn writes_stay_in_order()
    ensures new { (account : Account) (contents : Contents) (life : ℕ) (writes : List Write) (trail : List TrailItem)
        → stage life writes ≡ never → IsInOrder account contents life writes trail }
    ensures published { (account : Account) (contents : Contents) (life : ℕ) (writes : List Write) (trail : List TrailItem)
        (seat : ℕ) (probes : List Bool)
        → AreOfEcbs account contents trail probes → is_stopped (phase account contents.registry (life_of_row account contents trail)) ≡ false
        → IsInOrder account contents life writes trail
        → IsInOrder account contents life (writes ++ published seat life account probes ∷ []) trail }
    ensures ended { (account : Account) (contents : Contents) (life : ℕ) (writes : List Write) (trail : List TrailItem) (write : Write)
        → IsOfOthers life write → is_stopped (phase account contents.registry (life_of_row account contents trail)) ≡ true
        → IsInOrder account contents life writes trail → IsInOrder account contents life (writes ++ write ∷ []) trail }
    ensures trail { (account : Account) (contents : Contents) (life : ℕ) (writes : List Write) (trail more : List TrailItem)
        → StartsWith more trail → IsLegalRow account contents more
        → IsInOrder account contents life writes trail → IsInOrder account contents life writes more }
{}

/// Law: a `go` that is published among some writes is so among all that begin with them, and among its seat's own.
pub fn go_stays_published()
    ensures longer { (account : Account) (contents : Contents) (seat life : ℕ) (row : List TrailItem) (writes more : List Write)
        → IsPrefix writes more → GoIsPublished account contents seat life row writes → GoIsPublished account contents seat life row more }
    ensures own { (account : Account) (contents : Contents) (seat life : ℕ) (row : List TrailItem) (writes : List Write)
        → GoIsPublished account contents seat life row writes → GoIsPublished account contents seat life row (writes_of writes seat) }
{}

/// Law: a processor that knows nothing keeps track of each life, as far as the seat's writes are in order. It goes on to as it sees more writes; as it knows more items, whoever's firings they have, and has seen the publication of a
/// `go` among them; as it fires and its writes pass the life by, as they do where its look doesn't name the seat with the life; as the life is over and the processor sees all writes of the seat, which have come past it; and as its firing is offered to the life, and isn't
/// seen there. Where it is seen there, and its note then has it, it goes on to with all writes of the seat in order, or by a look that names the seat with the life.
/// Where all writes of the seat are in order for the trail, and the trail has just the firings of its note, all its firings and the trail stand in one row.
pub fn keeping_goes_on()
    ensures new { (account : Account) (contents : Contents) (cpu life : ℕ) (seen : List Write) (mine : List TrailItem)
        → KeepsTrack account contents cpu life seen [] mine [] }
    ensures writes { (account : Account) (contents : Contents) (cpu life : ℕ) (seen more : List Write) (known mine : List TrailItem) (knew : List ℕ)
        → IsPrefix seen more → KeepsTrack account contents cpu life seen known mine knew
        → KeepsTrack account contents cpu life more known mine knew }
    ensures known { (account : Account) (contents : Contents) (cpu seat life : ℕ) (seen : List Write) (known mine more : List TrailItem) (knew : List ℕ)
        → StartsWith more known → StartsWith (own (cpu + 1) known) mine → IsLegalRow account contents more
        → GoIsPublished account contents seat life more seen
        → KeepsTrack account contents cpu life seen known mine knew → KeepsTrack account contents cpu life seen more mine knew }
    ensures passed { (account : Account) (contents : Contents) (cpu life : ℕ) (seen : List Write) (known mine : List TrailItem) (knew : List ℕ)
        → IsPassedBy account contents cpu (length knew) (stage life seen) → KeepsTrack account contents cpu life seen known mine knew
        → KeepsTrack account contents cpu life seen known mine (knew ++ length known ∷ []) }
    ensures looked { (account : Account) (contents : Contents) (cpu seat life : ℕ) (writes : List Write) (known mine : List TrailItem) (knew : List ℕ)
        (firing : Firing) (mask : SeatMask)
        → firing_at contents.scripts cpu (length knew) ≡ Some firing → IsMaskAfter contents.registry writes firing mask
        → life_at mask seat ≢ Some life → KeepsTrack account contents cpu life (writes_of writes seat) known mine knew
        → KeepsTrack account contents cpu life (writes_of writes seat) known mine (knew ++ length known ∷ []) }
    ensures gone { (account : Account) (contents : Contents) (cpu life : ℕ) (seen whole : List Write) (known mine : List TrailItem) (knew : List ℕ)
        → IsPrefix seen whole → stage life whole ≡ past → KeepsTrack account contents cpu life seen known mine knew
        → KeepsTrack account contents cpu life whole known mine (knew ++ length known ∷ []) }
    ensures unseen { (account : Account) (contents : Contents) (cpu seat life : ℕ) (seen : List Write) (known mine more : List TrailItem) (knew : List ℕ)
        → StartsWith more known → StartsWith (own (cpu + 1) known) mine → own (cpu + 1) more ≡ mine → IsLegalRow account contents more
        → is_seen_after account contents more cpu (length knew) ≡ false → GoIsPublished account contents seat life more seen
        → KeepsTrack account contents cpu life seen known mine knew
        → KeepsTrack account contents cpu life seen more mine (knew ++ length known ∷ []) }
    ensures kept { (account : Account) (contents : Contents) (cpu seat life : ℕ) (seen all : List Write) (known mine more : List TrailItem) (knew : List ℕ)
        → IsPrefix seen all → IsInOrder account contents life all more
        → StartsWith more known → StartsWith (own (cpu + 1) known) mine → own (cpu + 1) more ≡ mine → IsLegalRow account contents more
        → is_seen_after account contents more cpu (length knew) ≡ true
        → IsLegalRow account contents (more ++ fired cpu (length knew) ∷ []) → GoIsPublished account contents seat life more seen
        → KeepsTrack account contents cpu life seen known mine knew
        → KeepsTrack account contents cpu life seen (more ++ fired cpu (length knew) ∷ []) (mine ++ fired cpu (length knew) ∷ [])
        (knew ++ length known ∷ []) }
    ensures offered { (account : Account) (contents : Contents) (cpu seat life : ℕ) (writes : List Write) (known mine more : List TrailItem) (knew : List ℕ)
        (firing : Firing) (mask : SeatMask)
        → IsMaskAfter contents.registry writes firing mask → life_at mask seat ≡ Some life
        → StartsWith more known → StartsWith (own (cpu + 1) known) mine → own (cpu + 1) more ≡ mine → IsLegalRow account contents more
        → phase account contents.registry (life_of_row account contents more) ≡ Active
        → is_seen_after account contents more cpu (length knew) ≡ true
        → IsLegalRow account contents (more ++ fired cpu (length knew) ∷ [])
        → GoIsPublished account contents seat life more (writes_of writes seat)
        → KeepsTrack account contents cpu life (writes_of writes seat) known mine knew
        → KeepsTrack account contents cpu life (writes_of writes seat) (more ++ fired cpu (length knew) ∷ [])
        (mine ++ fired cpu (length knew) ∷ []) (knew ++ length known ∷ []) }
    ensures shared { (account : Account) (contents : Contents) (cpu life : ℕ) (seen all : List Write) (known mine trail : List TrailItem) (knew : List ℕ)
        → IsPrefix seen all → IsInOrder account contents life all trail
        → StartsWith trail known → StartsWith (own (cpu + 1) known) mine → own (cpu + 1) trail ≡ mine → IsLegalRow account contents trail
        → KeepsTrack account contents cpu life seen known mine knew → (row : List TrailItem) × IsShared account contents cpu trail knew row }
{}

/// Law: a look names a seat only with a life that the seat has published. So where all writes of the seat begin with those of the look, they name the life, or are past it.
pub fn named_is_published()
    ensures begun { (contents : Contents) (seat life : ℕ) (writes all : List Write) (firing : Firing) (mask : SeatMask)
        → IsMaskAfter contents.registry writes firing mask → life_at mask seat ≡ Some life → IsPrefix (writes_of writes seat) all
        → stage life all ≢ never }
{}

/// Law: in a shared row each firing of the processor so far stands after all items of the trail that the processor knew, and where it is seen there, it is on the
/// trail just there. So a processor that knew of a session's `go` as it fired has skipped no firing that the session, which still traces, should see.
pub fn nothing_is_skipped()
    ensures stands { (account : Account) (contents : Contents) (cpu : ℕ) (trail : List TrailItem) (knew : List ℕ) (row : List TrailItem) (place count : ℕ)
        → IsShared account contents cpu trail knew row → slice_get knew place ≡ Some count
        → (before : List TrailItem) × (after : List TrailItem) × (row ≡ before ++ fired cpu place ∷ after)
        × StartsWith trail (seen_row account contents before) × (count ≤ length (seen_row account contents before))
        × (is_seen_after account contents (seen_row account contents before) cpu place ≡ true
        → StartsWith trail (seen_row account contents before ++ fired cpu place ∷ [])) }
    ensures told { (account : Account) (contents : Contents) (cpu : ℕ) (trail : List TrailItem) (knew : List ℕ) (row : List TrailItem) (place count : ℕ)
        (earlier : List TrailItem) (item : TrailItem) (firing : Firing)
        → IsShared account contents cpu trail knew row → IsLegalRow account contents trail
        → phase account contents.registry (life_of_row account contents trail) ≡ Active
        → StartsWith trail (earlier ++ item ∷ []) → whose item ≡ 0 → IsGoAfter account contents earlier item
        → slice_get knew place ≡ Some count → length earlier + 1 ≤ count
        → firing_at contents.scripts cpu place ≡ Some firing → Belongs contents.registry firing → IsShown account contents.registry firing
        → of_probe firing.probe (ecbs account contents.registry (life_of_row account contents trail)) ≢ []
        → (before : List TrailItem) × StartsWith trail (before ++ fired cpu place ∷ []) }
{}

/// Law: what is seen of the view that a row tells is what the part of the row tells that is seen, where that is legal. So what a consumer is answered alone to a row is what it is
/// answered to that part: after a shared row the replies that are due are those after the trail.
pub fn answered_alike()
    ensures seen { (account : Account) (contents : Contents) (row : List TrailItem)
        → IsLegalRow account contents (seen_row account contents row)
        → seen_view account contents.registry (view_told contents (past_of row)) ≡ view_told contents (past_of (seen_row account contents row)) }
    ensures alone { (account : Account) (contents : Contents) (row : List TrailItem) (answers : List Answer)
        → IsLegalRow account contents (seen_row account contents row)
        → Alone account contents.registry (view_told contents (past_of row)) answers
        ↔ Alone account contents.registry (view_told contents (past_of (seen_row account contents row))) answers }
{}
