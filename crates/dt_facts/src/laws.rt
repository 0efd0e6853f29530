//! What holds of the lists that only grow, by their definitions alone.
ghost use Rattle.std.specs.Prelude.{◌≡◌, ◌≢◌, ◌≤◌, ℕ, ◌+◌, List, [], ◌∷◌, ◌++◌};
ghost use mathlib.Core.List.{IsPrefix};
ghost use Rattle.dt_cred.specs.declared.account.Account.{Account};
ghost use Rattle.dt_facts.specs.Lives.{AreClosed, IsOpenAs, IsRowOfLife, closed, items_of_life, known_more, lives_over, opened};
ghost use Rattle.dt_facts.specs.declared.fact.LifeItem.{LifeItem};
ghost use Rattle.dt_facts.specs.declared.fact.LifeStep.{LifeStep};
ghost use Rattle.dt_trail.specs.Items.{TrailItem, longer};
ghost use Rattle.dt_trail.specs.declared.law.Named.{Named};

/// Law: a longer list of lives says of each life what a beginning of it said, and no fewer lives are over. A life has one trail. The next
/// life opens where none is open, and one that is open closes; those before it are over, and once it closed so is it.
pub fn lives_go_on()
    ensures row { (steps later : List LifeStep) (life : ℕ) (row : Named Account) → IsPrefix steps later
        → IsRowOfLife life row steps → IsRowOfLife life row later }
    ensures over { (steps later : List LifeStep) → IsPrefix steps later → lives_over steps ≤ lives_over later }
    ensures one_row { (steps : List LifeStep) (life : ℕ) (row other : Named Account)
        → IsRowOfLife life row steps → IsRowOfLife life other steps → row ≡ other }
    ensures opens { (steps : List LifeStep) (lives : ℕ) (row : Named Account) → AreClosed lives steps
        → IsOpenAs lives row (steps ++ opened row ∷ []) }
    ensures closes { (steps : List LifeStep) (life : ℕ) (row : Named Account) → IsOpenAs life row steps
        → AreClosed (life + 1) (steps ++ closed ∷ []) }
    ensures over_before { (steps : List LifeStep) (life : ℕ) (row : Named Account) → IsOpenAs life row steps
        → lives_over steps ≡ life }
    ensures all_over { (steps : List LifeStep) (lives : ℕ) → AreClosed lives steps → lives_over steps ≡ lives }
{}

/// Law: what a beginning has of a life begins what the whole has of it; so of two beginnings the one with more items of a life has all that
/// the other has of it. Once more items of a life are known, it has these, and each other life what it had.
pub fn items_go_on()
    ensures begins { (life : ℕ) (some all : List LifeItem) → IsPrefix some all
        → IsPrefix (items_of_life life some) (items_of_life life all) }
    ensures longer { (life : ℕ) (xs ys all : List LifeItem) → IsPrefix xs all → IsPrefix ys all
        → IsPrefix (items_of_life life xs) (longer (items_of_life life xs) (items_of_life life ys))
        × IsPrefix (items_of_life life ys) (longer (items_of_life life xs) (items_of_life life ys)) }
    ensures known { (life : ℕ) (list : List LifeItem) (knows : List TrailItem) → IsPrefix (items_of_life life list) knows
        → items_of_life life (known_more life knows list) ≡ knows }
    ensures others { (life other : ℕ) (list : List LifeItem) (knows : List TrailItem) → life ≢ other
        → items_of_life other (known_more life knows list) ≡ items_of_life other list }
{}
