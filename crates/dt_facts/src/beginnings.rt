//! The calls on beginnings of growing lists.
ghost use Rattle.std.specs.Prelude.{◌≡◌};
ghost use Rattle.dt_facts.specs.Facts.{HaveGrown, lists_in, longer_lists};
ghost use Rattle.dt_facts.specs.Handles.{begun};

use crate::handles::{Beginning, Book};
use crate::word::Facts;
use std::mem;

impl Facts {
    /// The writes, the items or the lives so far, cut from a book. They stay a beginning of what the book says.
    pub fn begin(&self, book: &mut Book) -> Beginning
        requires { book.old.word ≡ self.now }
        ensures beginning { result ≡ begun self.now book.old.name (lists_in book.old.fact) }
        ensures same { book.new ≡ book.old }
    {
        let seat = self.copy_out(&mut book.seat);
        Beginning { seat }
    }

    /// The same beginning once more, for another who is to know of it.
    pub fn again(&self, beginning: &mut Beginning) -> Beginning
        requires { beginning.old.word ≡ self.now }
        ensures again { result ≡ beginning.old }
        ensures same { beginning.new ≡ beginning.old }
    {
        let seat = self.repeat(&mut beginning.seat);
        Beginning { seat }
    }

    /// Goes on to the longer of two beginnings of one name, which begins with both.
    pub fn learn(&self, one: &mut Beginning, other: Beginning)
        requires one { one.old.word ≡ self.now }
        requires other { (other.word ≡ self.now) × (other.name ≡ one.old.name) }
        ensures longer { one.new ≡ begun self.now one.old.name (longer_lists one.old.lists other.lists) }
        ensures begins { HaveGrown one.old.lists one.new.lists × HaveGrown other.lists one.new.lists }
    {
        let Beginning { seat } = other;
        self.take_in(&mut one.seat, seat);
    }

    /// What the book says begins with the beginning, which is spent. The book doesn't change.
    pub fn compare(&self, book: &mut Book, beginning: Beginning)
        requires book { book.old.word ≡ self.now }
        requires beginning { (beginning.word ≡ self.now) × (beginning.name ≡ book.old.name) }
        ensures begins { HaveGrown beginning.lists (lists_in book.old.fact) }
        ensures same { book.new ≡ book.old }
    {
        let Beginning { seat } = beginning;
        self.look_up(&mut book.seat, seat);
    }

    /// A beginning goes on to all that its book says, which begins with what it had. The book doesn't change.
    pub fn catch_up(&self, book: &mut Book, beginning: &mut Beginning)
        requires book { book.old.word ≡ self.now }
        requires beginning { (beginning.old.word ≡ self.now) × (beginning.old.name ≡ book.old.name) }
        ensures begins { HaveGrown beginning.old.lists (lists_in book.old.fact) }
        ensures book { book.new ≡ book.old }
        ensures beginning { beginning.new ≡ begun self.now book.old.name (lists_in book.old.fact) }
    {
        let whole = self.copy_out(&mut book.seat);
        let old = mem::replace(&mut beginning.seat, whole);
        self.look_up(&mut book.seat, old);
    }
}
