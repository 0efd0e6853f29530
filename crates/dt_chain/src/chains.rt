//! Chains before they are used.
ghost use Rattle.std.specs.Prelude.{◌≡◌, ◌<◌, ◌^◌, [], IfOk};

use crate::book::{Ledger, Mark, Site, open};
use crate::chain_writer::ChainWriter;
use crate::front::Front;
use crate::press::Press;
use std::alloc::{AllocError, Global};
use std::marker::Model;

/// New chains, of no writes, which have no site yet: one call of the program picks it for them.
///
/// Contracts see the book of their list.
#[derive(Drop)]
pub struct Chains {
    ledger: Ledger,
    origin: Mark,
}

impl Model for Chains {
    ghost use Rattle.std.specs.Prelude.{◌≡◌, []};
    ghost use Rattle.logbook.specs.Pages.{Book};

    ghost Value = { Book };

    ghost view = { λ chains. chains.ledger };

    ghost invariant = { λ chains. (chains.origin.log ≡ []) × (chains.origin.book ≡ chains.ledger) };
}

impl Chains {
    /// New chains. They take no memory yet.
    pub fn new() -> Chains {
        let (ledger, origin) = open();
        Chains { ledger, origin }
    }

    /// Both copies of what is published, with all the room that these ever need (528 KB), and the places of so many readers.
    ///
    /// `Err`: there was no memory.
    pub fn writer<J: Site>(
        self,
        alloc: Global,
        readers: usize,
    ) -> Result<ChainWriter<J>, AllocError>
        requires site { self ≡ J.book }
        requires readers { (0 < readers) × (readers < 2 ^ 32) }
        ensures { IfOk result (λ writer. (writer.published ≡ []) × (writer.writes ≡ [])) }
    {
        let Chains { ledger, origin } = self;
        let press = Press::new(alloc, ledger, Front::of(origin), readers)?;
        Ok(ChainWriter::new(press))
    }
}
