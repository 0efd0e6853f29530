//! The list of all writes, which exists in proofs alone: one book for all that share the chains.
ghost use Rattle.std.specs.Prelude.{◌≡◌, ◌↔◌, ◌<◌, ◌≤◌, ◌^◌, ◌+◌, ◌++◌, ◌∷◌, [], length, IsTrue, IfSome, MatchBool};
ghost use mathlib.Core.List.{IsPrefix};
ghost use Rattle.logbook.specs.Pages.{may_write};

use crate::write::Write;
use logbook::{Gain, Offer, Pen, Plain, Play, Rule, Seen, Start, Word};
use std::marker::{Brand, Model};

/// The rule of the book: only who has the pen of the next write can add one, so the list has no writes that he doesn't know of.
pub(crate) struct BookRule;

impl Rule<Write, u64> for BookRule {
    ghost use Rattle.std.specs.Prelude.{[]};
    ghost use base.Fml.{ftrue};
    ghost use Rattle.dt_chain.specs.Books.{IsBookOf};

    ghost holds = { IsBookOf };

    ghost first = { [] };

    ghost hinted = { λ n log. Unit {0} };

    ghost shows = { λ log. [] };

    ghost keeps = { λ names log. ftrue };

    ghost moves = { λ ask before after answer. Unit {0} };
}

/// Who adds to the book trades nothing for it.
struct Nothing;

impl Gain<Write, u64> for Nothing {
    ghost use base.Fml.{ftrue};

    ghost after = { λ names about answer. ftrue };
}

/// A step that makes a word for a write to come, with its pen.
struct Reserve;

impl Play<Write, u64> for Reserve {
    ghost use Rattle.dt_chain.specs.Books.{Reserves};

    ghost then = { Reserves };
}

/// A step that shows how long the list is.
struct Measure;

impl Play<Write, u64> for Measure {
    ghost use Rattle.dt_chain.specs.Books.{Measures};

    ghost then = { Measures };
}

/// What a step asks that adds no write.
struct Nobody;

impl Plain<u64, Write, u64> for Nobody {
    ghost use Rattle.std.specs.Prelude.{None};
    ghost use Rattle.dt_chain.specs.Writes.{withdrawn};

    ghost ask = { λ seat. withdrawn seat };

    ghost state = { λ seat. None };
}

/// A step that adds a write.
struct Add;

impl Play<Write, u64> for Add {
    ghost use Rattle.dt_chain.specs.Books.{Adds};

    ghost then = { Adds };
}

impl Plain<Write, Write, u64> for Add {
    ghost use Rattle.std.specs.Prelude.{None};

    ghost ask = { λ write. write };

    ghost state = { λ write. None };
}

/// Which chains are meant: all that has a type of one site belongs to one list of writes. A program picks it in one call,
/// for the chains that it has just made ([`Chains`](crate::Chains)).
pub trait Site {
    ghost use Rattle.logbook.specs.Pages.{Book};

    ghost book: { Book };
}

impl Site for Brand {
    ghost book = { record { number = 0; log_name = 0; cells_name = 0 } };
}

/// A beginning of the list of some book. Contracts see both.
#[derive(Drop)]
pub(crate) struct Mark {
    count: u64,
    seen: Seen<Write, u64, BookRule>,
}

impl Model for Mark {
    ghost use Rattle.std.specs.Prelude.{◌≡◌, length};
    ghost use Rattle.dt_chain.specs.Books.{Marked};

    ghost Value = { Marked };

    ghost view = { λ mark. record { book = mark.seen.book; log = mark.seen.log } };

    ghost invariant = { λ mark. mark.count ≡ length mark.seen.log };
}

impl Mark {
    /// The same once more.
    pub(crate) fn again(&self) -> Mark
        ensures { result ≡ self.now }
    {
        Mark {
            count: self.count,
            seen: self.seen.again(),
        }
    }

    /// How many writes it has.
    pub(crate) fn len(&self) -> u64
        ensures { result ≡ length self.now.log }
    {
        self.count
    }

    /// Whether the other goes as far, and so begins with this one.
    pub(crate) fn begins(&self, other: &Mark) -> bool
        requires { self.now.book ≡ other.now.book }
        ensures order { MatchBool result (IsPrefix self.now.log other.now.log) (IsPrefix other.now.log self.now.log) }
        ensures when { IsTrue result ↔ (length self.now.log ≤ length other.now.log) }
    {
        // for the proof: both are beginnings of what the two have seen
        let mut both = self.seen.again();
        both.learn(&other.seen);
        self.count <= other.count
    }

    /// Adds a write, and says whether it did. If not, nothing has changed.
    fn add(&mut self, ledger: &Ledger, pen: &mut Pen, write: &Write) -> bool
        requires book { (self.old.book ≡ ledger.now) × (pen.old.book ≡ ledger.now) }
        requires pen { (pen.old.nib.right ≡ may_write) × (pen.old.nib.key ≡ length self.old.log + 2) }
        requires room { length self.old.log < 2 ^ 62 }
        ensures book { self.new.book ≡ self.old.book }
        ensures grows { MatchBool result (self.new.log ≡ self.old.log ++ write.now ∷ []) (self.new.log ≡ self.old.log) }
        ensures pen { MatchBool result (Unit {0}) ((pen.new.book ≡ pen.old.book) × (pen.new.nib ≡ pen.old.nib)) }
    {
        let mut offer: Offer<Write, u64, BookRule, Nothing> = self
            .seen
            .plain::<Nothing, Write, Add>(write);
        let count = self.count;
        let old = 3 * count + 2;
        let found = ledger
            .head
            .compare_exchange::<Add, Nothing>(old, old + 2, &mut self.seen, &mut offer, pen);
        self.count = if found == old { count + 1 } else { count };
        found == old
    }

    /// Shows that the list has no write but these, whoever knows of another mark of it.
    fn whole(&self, ledger: &Ledger, pen: &mut Pen, other: &Mark)
        requires book { (self.now.book ≡ ledger.now) × (other.now.book ≡ ledger.now) × (pen.old.book ≡ ledger.now) }
        requires pen { (pen.old.nib.right ≡ may_write) × (pen.old.nib.key ≡ length self.now.log + 2) }
        ensures pen { (pen.new.book ≡ pen.old.book) × (pen.new.nib ≡ pen.old.nib) }
        ensures whole { IsPrefix other.now.log self.now.log }
    {
        // for the proof: the step sees a list that begins with both
        let mut known = self.seen.again();
        known.learn(&other.seen);
        let mut offer: Offer<Write, u64, BookRule, Nothing> = known.plain::<Nothing, u64, Nobody>(
            &0,
        );
        let _head = ledger
            .head
            .compare_exchange::<Measure, Nothing>(0, 0, &mut known, &mut offer, pen);
    }
}

/// The head of the book: three times the number of writes, and how many words more there are than writes. Contracts see its book.
#[derive(Drop)]
pub(crate) struct Ledger {
    head: Word<Write, u64, BookRule>,
}

impl Model for Ledger {
    ghost use Rattle.std.specs.Prelude.{◌≡◌};
    ghost use Rattle.logbook.specs.Pages.{Book};
    ghost use Rattle.dt_chain.specs.Books.{head_of};

    ghost Value = { Book };

    ghost view = { λ ledger. ledger.head.book };

    ghost invariant = { λ ledger. ledger.head ≡ head_of ledger.head.book };
}

impl Ledger {
    /// Makes a word more, where there are no writes but these and so many words more, and gives its pen.
    ///
    /// `None`: there are other writes or words. That never comes, since one alone makes them.
    fn reserve(&self, end: &Mark, more: u64) -> Option<Pen>
        requires book { end.now.book ≡ self.now }
        requires more { more ≤ 1 }
        requires room { length end.now.log < 2 ^ 62 }
        ensures { IfSome result (λ pen. (pen.book ≡ self.now) × (pen.nib.right ≡ may_write)
            × (pen.nib.key ≡ length end.now.log + 2 + more)) }
    {
        let mut seen = end.seen.again();
        let mut offer: Offer<Write, u64, BookRule, Nothing> = seen.plain::<Nothing, u64, Nobody>(
            &0,
        );
        let mut pen = seen.no_pen();
        let old = 3 * end.count + more;
        let found = self
            .head
            .compare_exchange::<Reserve, Nothing>(old, old + 1, &mut seen, &mut offer, &mut pen);
        if found != old {
            return None;
        }
        // nobody reads this word: its pen is what counts
        let _word: Word<Write, u64, BookRule> = Word::tracked(0, &mut pen);
        Some(pen)
    }
}

/// Who alone adds to the list. Contracts see the book, and the whole list.
#[derive(Drop)]
pub(crate) struct Author {
    ledger: Ledger,
    end: Mark,
    pen: Pen,
}

impl Model for Author {
    ghost use Rattle.std.specs.Prelude.{◌≡◌, ◌+◌, length};
    ghost use Rattle.logbook.specs.Pages.{may_write};
    ghost use Rattle.dt_chain.specs.Books.{Marked};

    ghost Value = { Marked };

    ghost view = { λ author. author.end };

    ghost invariant = { λ author. (author.end.book ≡ author.ledger) × (author.pen.book ≡ author.ledger)
        × (author.pen.nib.right ≡ may_write) × (author.pen.nib.key ≡ length author.end.log + 2) };
}

impl Author {
    /// The author of a new book.
    ///
    /// `None`: the book is not new. That never comes, since a ledger is made with its book.
    pub(crate) fn new(ledger: Ledger, origin: Mark) -> Option<Author>
        requires book { origin.book ≡ ledger }
        requires list { origin.log ≡ [] }
        ensures { IfSome result (λ author. author ≡ origin) }
    {
        match ledger.reserve(&origin, 0) {
            Some(pen) => Some(Author {
                ledger,
                end: origin,
                pen,
            }),
            None => None,
        }
    }

    /// The whole list.
    pub(crate) fn mark(&self) -> Mark
        ensures { result ≡ self.now }
    {
        self.end.again()
    }

    /// How many writes there are.
    pub(crate) fn len(&self) -> u64
        ensures { result ≡ length self.now.log }
    {
        self.end.len()
    }

    /// Adds a write to the list, and says whether it did. If not, the list is as it was.
    pub(crate) fn add(&mut self, write: &Write) -> bool
        requires room { length self.old.log < 2 ^ 62 }
        ensures book { self.new.book ≡ self.old.book }
        ensures grows { MatchBool result (self.new.log ≡ self.old.log ++ write.now ∷ []) (self.new.log ≡ self.old.log) }
    {
        let Some(next) = self.ledger.reserve(&self.end, 1) else {
            return false;
        };
        if !self.end.add(&self.ledger, &mut self.pen, write) {
            return false;
        }
        self.pen = next;
        true
    }

    /// Shows that the list begins with what another knows of it: nobody else adds to it.
    pub(crate) fn whole(&mut self, other: &Mark)
        requires book { other.now.book ≡ self.old.book }
        ensures same { self.new ≡ self.old }
        ensures whole { IsPrefix other.now.log self.new.log }
    {
        self.end.whole(&self.ledger, &mut self.pen, other);
    }
}

/// A new book, with an empty list.
pub(crate) fn open() -> (Ledger, Mark)
    ensures { (result.1.log ≡ []) × (result.1.book ≡ result.0) }
{
    let (seen, mut first, _second) = Seen::open(Start::alone(), 0, 0);
    let ledger = Ledger {
        head: Word::tracked(0, &mut first),
    };
    (ledger, Mark { count: 0, seen })
}
