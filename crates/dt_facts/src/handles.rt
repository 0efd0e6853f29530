//! Who has what of a name. A handle has no bytes, can be handed to another thread, and may be let go at any time.

use crate::rule::Place;
use std::marker::Model;

/// Makes names, the next number each time.
///
/// Contracts see it as a `NextName` of `specs/Handles.antt`: which word it is of, and the next name.
#[derive(Drop)]
pub struct Maker {
    pub(crate) seat: Place,
}

impl Model for Maker {
    ghost use Rattle.dt_facts.specs.Handles.{NextName, maker_seen, IsMaker};

    ghost Value = { NextName };

    ghost view = { λ h. maker_seen h.seat };

    ghost invariant = { λ h. IsMaker h.seat };
}

/// The share of a name. A name has one at most.
///
/// Contracts see it as a `HeldFact` of `specs/Handles.antt`: which word it is of, its name, and the fact.
#[derive(Drop)]
pub struct Share {
    pub(crate) seat: Place,
}

impl Model for Share {
    ghost use Rattle.dt_facts.specs.Handles.{HeldFact, held_seen, IsShare};

    ghost Value = { HeldFact };

    ghost view = { λ h. held_seen h.seat };

    ghost invariant = { λ h. IsShare h.seat };
}

/// The book of a name. A name has one at most.
///
/// Contracts see it as a `HeldFact` of `specs/Handles.antt`.
#[derive(Drop)]
pub struct Book {
    pub(crate) seat: Place,
}

impl Model for Book {
    ghost use Rattle.dt_facts.specs.Handles.{HeldFact, held_seen, IsBook};

    ghost Value = { HeldFact };

    ghost view = { λ h. held_seen h.seat };

    ghost invariant = { λ h. IsBook h.seat };
}

/// The share and the book of a name, in one hand: a fact that only its owner knows.
///
/// Contracts see it as a `HeldFact` of `specs/Handles.antt`.
#[derive(Drop)]
pub struct Both {
    pub(crate) seat: Place,
}

impl Model for Both {
    ghost use Rattle.dt_facts.specs.Handles.{HeldFact, held_seen, IsBoth};

    ghost Value = { HeldFact };

    ghost view = { λ h. held_seen h.seat };

    ghost invariant = { λ h. IsBoth h.seat };
}

/// A beginning of the writes, the items or the lives that a name's fact has. A name may have many.
///
/// Contracts see it as a `BegunLists` of `specs/Handles.antt`: which word it is of, its name, and the lists, the oldest first.
#[derive(Drop)]
pub struct Beginning {
    pub(crate) seat: Place,
}

impl Model for Beginning {
    ghost use Rattle.dt_facts.specs.Handles.{BegunLists, begun_seen, IsBeginning};

    ghost Value = { BegunLists };

    ghost view = { λ h. begun_seen h.seat };

    ghost invariant = { λ h. IsBeginning h.seat };
}
