//! The rule of the chains: what is published has the writes of a beginning of the book, which begins with what each end has
//! seen.
use crate::book::Site;
use crate::chain_copy::{Addition, ChainCopy};
use crate::write::Write;
use crossbeam_utils::rule::{Outcome, Protocol};
use left_right::reader::Reader;
use left_right::writer::Writer;
use std::collections::LinkedList;
use std::marker::PhantomData;

/// The rule. What an end knows is the list of writes that it has seen published.
pub(crate) struct GrowsByWrites<J> {
    of: PhantomData<J>,
}

impl<J: Site> Protocol<ChainCopy, LinkedList<Write>> for GrowsByWrites<J> {
    ghost use Rattle.std.specs.Prelude.{[]};
    ghost use Rattle.dt_chain.specs.Chains.{IsChain};

    ghost holds = { IsChain J.book };

    ghost first = { [] };
}

/// A step that shows what is published.
pub(crate) struct SeesWrites<J> {
    of: PhantomData<J>,
}

impl<J: Site> Outcome<ChainCopy, LinkedList<Write>> for SeesWrites<J> {
    ghost use Rattle.dt_chain.specs.Chains.{EndShows};

    ghost then = { EndShows J.book };
}

pub(crate) type InnerReader<J> = Reader<ChainCopy, LinkedList<Write>, GrowsByWrites<J>>;

pub(crate) type InnerWriter<J> = Writer<ChainCopy, Addition, LinkedList<Write>, GrowsByWrites<J>>;
