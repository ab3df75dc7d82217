//! Stamps, and the history of what was stamped. The history exists in proofs alone: at run time there is its length, and
//! each stamp's number.
//!
//! `logbook` gives the history. Its book has a log, which only grows, and tracks words that lie anywhere. Here the log is the
//! list of all that was stamped, and one word, `head`, holds its length (`rule`). A stamp is made by one exchange on that
//! word: it adds the value to the log, and what it finds is the length before, which is the stamp's number. A token `Seen`
//! tells that the book has reached a log, and what two tokens of one book tell are beginnings of one list. So two stamps with
//! one number were made for one value, and what was stamped with a number below the length stands in the history at that
//! place: `is_same` and `knows` look at numbers alone. The tokens have no size at run time.

ghost use Rattle.std.specs.Prelude.{◌≡◌, ◌<◌, ◌++◌, ◌∷◌, [], true, Some, length, slice_get, IfSome, IfNone, OnSome, IsTrue, ◌↔◌};
ghost use Rattle.stamped_desk.specs.Rules.{head_of};
ghost use Rattle.stamped_desk.specs.Marks.{mark};

use crate::rule::{Add, HoldsLength, NoGain};
use logbook::{Offer, Seen, Start, Word};
use std::marker::{Brand, Model, PhantomData};

/// Which history it is. Whoever begins one picks it.
pub trait StampNaming {
    ghost use Rattle.logbook.specs.Pages.{Book};

    ghost book: { Book };
}

impl StampNaming for Brand {
    ghost book = { record { number = 0; log_name = 0; cells_name = 0 } };
}

/// An empty history, which has no name yet.
#[derive(Drop)]
pub struct Unnamed<T> {
    head: Word<T, u64, HoldsLength>,
    seen: Seen<T, u64, HoldsLength>,
}

impl<T> Model for Unnamed<T> {
    ghost use Rattle.std.specs.Prelude.{◌≡◌, []};
    ghost use Rattle.logbook.specs.Pages.{Book, book_coded};
    ghost use Rattle.stamped_desk.specs.Rules.{head_of};

    ghost Value = { Book };

    ghost coded = { book_coded };

    ghost view = { λ u. u.seen.book };

    ghost invariant = { λ u. (u.seen.log ≡ []) × (u.head ≡ head_of u.seen.book) };
}

impl<T> Unnamed<T> {
    /// Nothing was stamped yet. No memory.
    pub fn new() -> Unnamed<T> {
        let (seen, mut first, _second) = Seen::open(Start::alone(), 0, 0);
        Unnamed {
            head: Word::tracked(0, &mut first),
            seen,
        }
    }

    /// The same under a name.
    pub fn named<J: StampNaming>(self) -> Stamps<J, T>
        requires { self ≡ J.book }
        ensures { result ≡ [] }
    {
        let Unnamed { head, seen } = self;
        Stamps {
            head,
            made: 0,
            seen,
            of: PhantomData,
        }
    }
}

/// How many stamps are made at most.
const MOST: u64 = 1 << 62;

/// Makes stamps. Contracts see the values that they were made for, in order.
#[derive(Drop)]
pub struct Stamps<J: StampNaming, T> {
    head: Word<T, u64, HoldsLength>,
    made: u64,
    seen: Seen<T, u64, HoldsLength>,
    of: PhantomData<J>,
}

impl<J: StampNaming, T> Model for Stamps<J, T> {
    ghost use Rattle.std.specs.Prelude.{◌≡◌, List, length};
    ghost use Rattle.std.specs.Coded.{coded_list};

    ghost Value = { List T };

    ghost coded = { coded_list T.code };

    ghost use Rattle.stamped_desk.specs.Rules.{head_of};

    ghost view = { λ s. s.seen.log };

    ghost invariant = { λ s. (s.made ≡ length s.seen.log) × (s.seen.book ≡ J.book)
        × (s.head ≡ head_of J.book) };
}

/// Tells what was stamped with it. It is a number and no more.
#[derive(Drop)]
pub struct Stamp<J: StampNaming, T> {
    number: u64,
    seen: Seen<T, u64, HoldsLength>,
    of: PhantomData<J>,
}

impl<J: StampNaming, T> Model for Stamp<J, T> {
    ghost use Rattle.std.specs.Prelude.{◌≡◌, ◌<◌, length, slice_get};
    ghost use Rattle.stamped_desk.specs.Marks.{Mark, mark, mark_code};

    ghost Value = { Mark T };

    ghost coded = { mark_code T.code };

    ghost view = { λ s. mark s.number (slice_get s.seen.log s.number) };

    ghost invariant = { λ s. (s.number < length s.seen.log) × (s.seen.book ≡ J.book) };
}

impl<J: StampNaming, T> Stamps<J, T> {
    /// A stamp of the value, in constant time and without memory. In practice None never comes: only these
    /// stamps have the word that counts them, and they are never so many. No clause says so.
    pub fn stamp(&mut self, value: &T) -> Option<Stamp<J, T>>
        ensures stamp { IfSome result (λ s. s ≡ mark (length self.old) (Some value.now)) }
        ensures made { OnSome result (self.new ≡ self.old ++ value.now ∷ []) }
        ensures none { IfNone result (self.new ≡ self.old) }
    {
        let number = self.made;
        if number >= MOST {
            return None;
        }
        let mut offer: Offer<T, u64, HoldsLength, NoGain> = self
            .seen
            .plain::<NoGain, T, Add>(value);
        let mut pen = self.seen.no_pen();
        let mut seen = self.seen.again();
        let found = self
            .head
            .compare_exchange::<Add, NoGain>(number, number + 1, &mut seen, &mut offer, &mut pen);
        if found != number {
            return None;
        }
        self.made = number + 1;
        self.seen = seen;
        Some(Stamp {
            number,
            seen: self.seen.again(),
            of: PhantomData,
        })
    }

    /// Whether the stamp is one of these. Then what was stamped with it stands among theirs.
    pub fn knows(&self, stamp: &Stamp<J, T>) -> bool
        ensures number { IsTrue result ↔ (stamp.now.number < length self.now) }
        ensures value { result ≡ true → slice_get self.now stamp.now.number ≡ stamp.now.value }
    {
        let mut both = self.seen.again();
        both.learn(&stamp.seen);
        stamp.number < self.made
    }
}

impl<J: StampNaming, T> Stamp<J, T> {
    /// A copy.
    pub fn again(&self) -> Stamp<J, T>
        ensures { result ≡ self.now }
    {
        Stamp {
            number: self.number,
            seen: self.seen.again(),
            of: PhantomData,
        }
    }

    /// Whether the two are one stamp. Then they were made for one value.
    pub fn is_same(&self, other: &Stamp<J, T>) -> bool
        ensures number { IsTrue result ↔ (self.now.number ≡ other.now.number) }
        ensures same { result ≡ true → self.now.value ≡ other.now.value }
    {
        let mut both = self.seen.again();
        both.learn(&other.seen);
        self.number == other.number
    }
}
