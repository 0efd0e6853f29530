//! A number that lies under a lock, beside the book that says it.
ghost use Rattle.std.specs.Prelude.{◌≡◌, ℕ};
ghost use Rattle.dt_facts.specs.Facts.{lists_in, no_lists};
ghost use Rattle.dt_tests_facts.specs.Numbers.{number_fact};

use dt_facts::{Book, Facts, Share};
use std::marker::{Brand, PhantomData};

/// Which word a desk's book is of, and which name: the call that makes the desk picks them.
pub(crate) trait Which {
    ghost use Rattle.atomic_table.specs.Seated.{TableId};

    ghost word: { TableId };

    ghost name: { ℕ };
}

impl Which for Brand {
    ghost use Rattle.std.specs.Prelude.{[]};

    ghost word = { record { words = 0; slots = 0; views_name = 0; atom = 0; block = 0; offset = 0; slot_names = [] } };

    ghost name = { 0 };
}

/// The number, and the book that says it.
#[derive(Drop)]
pub(crate) struct Desk<W: Which> {
    number: u64,
    book: Book,
    of: PhantomData<W>,
    ghost word: { book.word ≡ W.word },
    ghost name: { book.name ≡ W.name },
    ghost says: { book.fact ≡ number_fact number },
}

impl<W: Which> Desk<W> {
    pub(crate) fn new(number: u64, book: Book) -> Desk<W>
        requires word { book.word ≡ W.word }
        requires name { book.name ≡ W.name }
        requires says { book.fact ≡ number_fact number }
    {
        Desk {
            number,
            book,
            of: PhantomData,
        }
    }

    /// Who brings the share knows which number it will find.
    pub(crate) fn find(&mut self, facts: &Facts, share: &mut Share) -> u64
        requires word { (facts.now ≡ W.word) × (share.old.word ≡ W.word) }
        requires name { share.old.name ≡ W.name }
        ensures found { share.old.fact ≡ number_fact result }
        ensures share { share.new ≡ share.old }
    {
        facts.agree(&mut self.book, share);
        self.number
    }

    /// The number changes, and with it what the share and the book say.
    pub(crate) fn change(&mut self, facts: &Facts, share: &mut Share, number: u64)
        requires word { (facts.now ≡ W.word) × (share.old.word ≡ W.word) }
        requires name { share.old.name ≡ W.name }
        requires empty { lists_in share.old.fact ≡ no_lists }
        ensures word { share.new.word ≡ W.word }
        ensures name { share.new.name ≡ W.name }
        ensures changed { share.new.fact ≡ number_fact number }
    {
        facts.go_on_apart::<Brand, _>(&mut self.book, share, &number);
        self.number = number;
    }
}
