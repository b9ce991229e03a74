// The history of the published calls, and its prefixes.
ghost use Rattle.std.specs.Prelude.{◌≡◌, ◌≤◌, ◌↔◌, ◌++◌, ◌∷◌, ◌⊎◌, [], length, IsTrue, MatchBool, IfSome};
ghost use mathlib.Core.List.{IsPrefix};

use ft_posix::StampedCall;
use logbook::{Gain, Offer, Plain, Play, Rule, Seen, Start, Word};
use std::marker::{Brand, Model};

/// The rule of the book: its word is the length of the history.
pub struct LogRule;

impl Rule<StampedCall, u64> for LogRule {
    ghost use Rattle.std.specs.Prelude.{[]};
    ghost use base.Fml.{ftrue};
    ghost use Rattle.ft_view.specs.LogRules.{IsKept};

    ghost holds = { λ cells log. IsKept cells log };

    ghost first = { [] };

    ghost hinted = { λ n log. Unit {0} };

    ghost shows = { λ log. [] };

    ghost keeps = { λ names log. ftrue };

    ghost moves = { λ ask before after answer. Unit {0} };
}

/// The gain of a step, which is empty: callers trade nothing.
pub struct Nothing;

impl Gain<StampedCall, u64> for Nothing {
    ghost use base.Fml.{ftrue};

    ghost after = { λ names about answer. ftrue };
}

/// A step that adds a call.
pub struct Add;

impl Play<StampedCall, u64> for Add {
    ghost use Rattle.ft_view.specs.LogRules.{Adds};

    ghost then = { Adds };
}

/// The step is given the call that it adds.
impl Plain<StampedCall, StampedCall, u64> for Add {
    ghost use Rattle.std.specs.Prelude.{None};

    ghost ask = { λ call. call };

    ghost state = { λ call. None };
}

/// The views that a name refers to: their book, the tree from which its calls start, and the whole
/// lists of its calls. Only whole lists may be shown to readers. `Brand` is a type for which a call
/// can pick them.
pub trait ViewsBrand {
    ghost use Rattle.std.specs.Prelude.{List};
    ghost use Rattle.ft_posix.specs.declared.stamped.StampedCall.{StampedCall};
    ghost use Rattle.ft_view.specs.ViewNames.{Views};

    ghost opened: { Views };

    // The lists that may be shown.
    ghost shows: { List StampedCall → Type 0 };
}

impl ViewsBrand for Brand {
    ghost use Rattle.ft_view.specs.ViewNames.{no_views};

    ghost opened = { no_views };

    ghost shows = { λ calls. ⊥ };
}

/// The word that threads share: the length of the history. Clauses see the book that it belongs to.
#[derive(Drop)]
pub struct PublishLog {
    head: Word<StampedCall, u64, LogRule>,
}

impl Model for PublishLog {
    ghost use Rattle.std.specs.Prelude.{◌≡◌};
    ghost use Rattle.logbook.specs.Pages.{Book as BookId, book_coded};
    ghost use Rattle.ft_view.specs.LogRules.{head_of};

    ghost Value = { BookId };

    ghost coded = { book_coded };

    ghost view = { λ a. a.head.book };

    ghost invariant = { λ a. a.head ≡ head_of a.head.book };
}

/// A prefix of a book's history that was seen. Clauses see its book and its calls. The code has
/// only the number of its calls.
#[derive(Drop)]
pub struct Prefix {
    count: u64,
    seen: Seen<StampedCall, u64, LogRule>,
}

impl Model for Prefix {
    ghost use Rattle.std.specs.Prelude.{◌≡◌, length};
    ghost use Rattle.ft_view.specs.ViewNames.{SeenPrefix, coded_prefix};

    ghost Value = { SeenPrefix };

    ghost coded = { coded_prefix };

    ghost view = { λ f. record { book = f.seen.book; calls = f.seen.log } };

    ghost invariant = { λ f. f.count ≡ length f.seen.log };
}

impl PublishLog {
    /// Returns a new book, whose history is empty, and its empty prefix. Takes no memory.
    pub fn new() -> (PublishLog, Prefix)
        ensures book { result.1.book ≡ result.0 }
        ensures empty { result.1.calls ≡ [] }
    {
        let (seen, mut first, _second) = Seen::open(Start::alone(), 0, 0);
        let head = Word::tracked(0, &mut first);
        (PublishLog { head }, Prefix { count: 0, seen })
    }
}

impl Prefix {
    /// Returns the number of its calls.
    pub fn len(&self) -> u64
        ensures { result ≡ length self.now.calls }
    {
        self.count
    }

    /// Returns a copy of this prefix. Takes no memory.
    pub fn again(&self) -> Prefix
        ensures { result ≡ self.now }
    {
        Prefix {
            count: self.count,
            seen: self.seen.again(),
        }
    }

    /// Returns whether another prefix of the same book begins with this one. One of two prefixes of
    /// a book always begins with the other, so the result is true exactly if this one is not
    /// longer.
    pub fn is_prefix_of(&self, other: &Prefix) -> bool
        requires { other.now.book ≡ self.now.book }
        ensures shorter { IsTrue result ↔ (length self.now.calls ≤ length other.now.calls) }
        ensures begins { MatchBool result (IsPrefix self.now.calls other.now.calls)
            (IsPrefix other.now.calls self.now.calls) }
    {
        // The history that begins with both prefixes; it has no bytes.
        let mut both = self.seen.again();
        both.learn(&other.seen);
        self.count <= other.count
    }

    /// Returns the longer of two prefixes of a book, which begins with both.
    pub fn max(&self, other: &Prefix) -> Prefix
        requires { other.now.book ≡ self.now.book }
        ensures one { (result ≡ self.now) ⊎ (result ≡ other.now) }
        ensures this { IsPrefix self.now.calls result.calls }
        ensures that { IsPrefix other.now.calls result.calls }
    {
        if self.is_prefix_of(other) {
            return other.again();
        }
        self.again()
    }

    /// Adds a call to the history of the book, and returns this prefix with the call at its end.
    ///
    /// Returns `None`, and leaves the history as it is, if the history is already longer than this
    /// prefix or would have 2^64 calls.
    pub fn append(&self, book: &PublishLog, call: &StampedCall) -> Option<Prefix>
        requires { book.now ≡ self.now.book }
        ensures book { IfSome result (λ front. front.book ≡ self.now.book) }
        ensures more { IfSome result (λ front. front.calls ≡ self.now.calls ++ call.now ∷ []) }
    {
        let count = self.count;
        let longer = count.checked_add(1)?;
        let mut seen = self.seen.again();
        let mut offer: Offer<StampedCall, u64, LogRule, Nothing> = seen.plain::<
            Nothing,
            StampedCall,
            Add,
        >(call);
        let mut pen = seen.no_pen();
        let found = book
            .head
            .compare_exchange::<Add, Nothing>(count, longer, &mut seen, &mut offer, &mut pen);
        if found != count {
            return None;
        }
        Some(Prefix {
            count: longer,
            seen,
        })
    }
}
