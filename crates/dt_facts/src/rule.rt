//! The rule of the word. The types here are for the proofs.

use crate::fact::{Fact, GrowingLists};
use atomic_table::{Join, Play, Seat, Split, Table, TableRule};
use std::alloc::Global;
use std::marker::{Brand, PhantomData};

// What a seat has of a name: its share, its book, both at once, or a beginning of its lists. One that has just become both
// remembers what the share held, until the two are compared, and a beginning that was told another remembers that, until it has
// learnt it. The maker's has the next name. No value of it is made.
pub struct FactView {
    pub name: u64,
    pub share: bool,
    pub book: bool,
    pub met: bool,
    pub begins: bool,
    pub makes: bool,
    pub fact: Fact,
    pub had: Fact,
    pub knows: GrowingLists,
    pub told: GrowingLists,
}

/// A word that never changes.
pub struct Agreement;

impl TableRule<(), FactView, ()> for Agreement {
    ghost use Rattle.dt_facts.specs.Rule.{AllAgree, maker_view};

    ghost holds = { λ _. AllAgree };

    ghost first = { λ _. maker_view 0 };
}

pub type Cells = Table<(), FactView, (), Agreement, Global>;

// What a handle does its steps by.
pub type Place = Seat<(), FactView>;

// The maker makes a name.
pub struct MakesName;

impl Split<FactView> for MakesName {
    ghost use Rattle.dt_facts.specs.Rule.{next_maker, made_view};

    ghost left = { next_maker };

    ghost right = { made_view };
}

// A share goes into its book, and out again.
pub struct Shares;

impl Join<FactView> for Shares {
    ghost use Rattle.dt_facts.specs.Rule.{with_share, no_view};

    ghost both = { with_share };

    ghost spent = { no_view };
}

impl Split<FactView> for Shares {
    ghost use Rattle.dt_facts.specs.Rule.{without_share, share_alone};

    ghost left = { without_share };

    ghost right = { share_alone };
}

// A share that went into its book agrees with it.
pub struct AgreesWithBook;

impl Play<(), FactView> for AgreesWithBook {
    ghost use Rattle.dt_facts.specs.Rule.{HasAgreed};

    ghost then = { HasAgreed };
}

/// A fact that a call picks, which share and book go on to: a ghost of the call, made of its arguments.
pub trait Given {
    ghost use Rattle.dt_facts.specs.declared.fact.Fact.{Fact};

    ghost fact: { Fact };
}

impl Given for Brand {
    ghost use Rattle.dt_facts.specs.Facts.{nothing};

    ghost fact = { nothing };
}

// Share and book go on to the fact that was picked.
pub struct GoesOnTo<G> {
    of: PhantomData<G>,
}

impl<G: Given> Play<(), FactView> for GoesOnTo<G> {
    ghost use Rattle.dt_facts.specs.Rule.{HasGoneOn};

    ghost then = { HasGoneOn G.fact };
}

// A beginning is cut from a book, and is told to another, which learns it.
pub struct CutsBeginning;

impl Split<FactView> for CutsBeginning {
    ghost use Rattle.dt_facts.specs.Rule.{beginning_of};

    ghost left = { λ v. v };

    ghost right = { beginning_of };
}

impl Join<FactView> for CutsBeginning {
    ghost use Rattle.dt_facts.specs.Rule.{with_told, no_view};

    ghost both = { with_told };

    ghost spent = { no_view };
}

impl Play<(), FactView> for CutsBeginning {
    ghost use Rattle.dt_facts.specs.Rule.{HasLearntLists};

    ghost then = { HasLearntLists };
}

// A beginning is cut into two that are the same.
pub struct Repeats;

impl Split<FactView> for Repeats {
    ghost use Rattle.dt_facts.specs.Rule.{same_beginning};

    ghost left = { λ v. v };

    ghost right = { same_beginning };
}

// A beginning goes into its book, and is found to be one.
pub struct ComparesLists;

impl Join<FactView> for ComparesLists {
    ghost use Rattle.dt_facts.specs.Rule.{with_beginning, no_view};

    ghost both = { with_beginning };

    ghost spent = { no_view };
}

impl Play<(), FactView> for ComparesLists {
    ghost use Rattle.dt_facts.specs.Rule.{HasBegun};

    ghost then = { HasBegun };
}
