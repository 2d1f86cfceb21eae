//! The history that threads have seen, and the shared word with its length.
ghost use Rattle.std.specs.Prelude.{◌≡◌, ◌==◌, ◌++◌, ◌∷◌, ◌⊎◌, [], length, IfSome};
ghost use mathlib.Core.List.{IsPrefix};
ghost use Rattle.raft_shared.specs.Words.{event_of};
ghost use Rattle.raft_shared.specs.Rules.{head_of};

use crate::call::Recorded;
use logbook::{Gain, Offer, Plain, Play, Rule, Seen, Start, Word};
use std::marker::{Brand, Model, PhantomData};

/// More calls than a history can have.
const MOST: u64 = 1 << 62;

/// The rule of a book: its word is the length of the history.
pub struct Law;

impl Rule<Recorded, u64> for Law {
    ghost use Rattle.std.specs.Prelude.{[]};
    ghost use base.Fml.{ftrue};
    ghost use Rattle.raft_shared.specs.Rules.{IsKept};

    ghost holds = { λ cells log. IsKept cells log };

    ghost first = { [] };

    ghost hinted = { λ n log. Unit {0} };

    ghost shows = { λ log. [] };

    ghost keeps = { λ names log. ftrue };

    ghost moves = { λ ask before after answer. Unit {0} };
}

/// The protocol of a step that exchanges nothing.
pub struct Nothing;

impl Gain<Recorded, u64> for Nothing {
    ghost use base.Fml.{ftrue};

    ghost after = { λ names about answer. ftrue };
}

/// A step that adds a call.
pub struct Add;

impl Play<Recorded, u64> for Add {
    ghost use Rattle.raft_shared.specs.Rules.{Adds};

    ghost then = { Adds };
}

/// The argument of a step: the call.
impl Plain<Recorded, Recorded, u64> for Add {
    ghost use Rattle.std.specs.Prelude.{None};

    ghost ask = { λ call. call };

    ghost state = { λ call. None };
}

/// The identity of a book, and the origin of the engine whose calls it has. Each program chooses a
/// type for it.
pub trait Naming {
    ghost use Rattle.std.specs.Prelude.{Option};
    ghost use Rattle.logbook.specs.Pages.{Book};
    ghost use Rattle.raft_shared.specs.Origin.{Origin};

    ghost book: { Book };

    ghost origin: { Option Origin };
}

impl Naming for Brand {
    ghost use Rattle.std.specs.Prelude.{None};

    ghost book = { record { number = 0; log_name = 0; cells_name = 0 } };

    ghost origin = { None };
}

/// A book with an empty history, before it has a name.
pub struct Opened {
    head: Word<Recorded, u64, Law>,
    seen: Seen<Recorded, u64, Law>,
    pub ghost empty: { seen.log ≡ [] },
    pub ghost head_is: { head ≡ head_of seen.book },
}

impl Opened {
    pub fn new() -> Opened {
        let (seen, mut first, _second) = Seen::open(Start::alone(), 0, 0);
        Opened {
            head: Word::tracked(0, &mut first),
            seen,
        }
    }

    /// Gives the book a name. Returns it with a front of no calls.
    pub(crate) fn named<J: Naming>(self) -> (Book<J>, Front<J>)
        requires { self.seen.book ≡ J.book }
        ensures { result.1 ≡ [] }
    {
        let Opened { head, seen } = self;
        (
            Book {
                head,
                of: PhantomData,
            },
            Front {
                calls: 0,
                seen,
                of: PhantomData,
            },
        )
    }
}

/// The word that all threads share: the number of calls in the history.
#[derive(Drop)]
pub(crate) struct Book<J: Naming> {
    head: Word<Recorded, u64, Law>,
    of: PhantomData<J>,
    ghost head_is: { head ≡ head_of J.book },
}

/// A beginning of the one history, as some thread saw it. Contracts see it as its calls; at run
/// time it is their number.
#[derive(Drop)]
pub struct Front<J: Naming> {
    calls: u64,
    seen: Seen<Recorded, u64, Law>,
    of: PhantomData<J>,
}

impl<J: Naming> Model for Front<J> {
    ghost use Rattle.std.specs.Prelude.{◌≡◌, List, length, map};
    ghost use Rattle.raft_shared.specs.History.{Event};
    ghost use Rattle.raft_shared.specs.Words.{event_of};

    ghost Value = { List Event };

    ghost view = { λ f. map event_of f.seen.log };

    ghost invariant = { λ f. (f.calls ≡ length (map event_of f.seen.log)) × (f.seen.book ≡ J.book) };
}

impl<J: Naming> Front<J> {
    /// The number of calls.
    pub fn len(&self) -> u64
        ensures value { result ≡ length self.now }
    {
        self.calls
    }

    /// Whether there are no calls.
    pub fn is_empty(&self) -> bool
        ensures value { result ≡ (length self.now == 0) }
    {
        self.calls == 0
    }

    /// A copy.
    pub fn again(&self) -> Front<J>
        ensures value { result ≡ self.now }
    {
        Front {
            calls: self.calls,
            seen: self.seen.again(),
            of: PhantomData,
        }
    }

    /// The longer one of two fronts. The other one is its beginning.
    pub fn longer(&self, other: &Front<J>) -> Front<J>
        ensures one { (result ≡ self.now) ⊎ (result ≡ other.now) }
        ensures this { IsPrefix self.now result }
        ensures that { IsPrefix other.now result }
    {
        let mut both = self.seen.again();
        both.learn(&other.seen);
        if self.calls < other.calls {
            other.again()
        } else {
            self.again()
        }
    }

    /// The front with one more call. `None` if the history is longer and has another call at this
    /// place.
    pub(crate) fn with(&self, book: &Book<J>, call: &Recorded) -> Option<Front<J>>
        ensures value { IfSome result (λ front. front ≡ self.now ++ event_of call.now ∷ []) }
    {
        if self.calls >= MOST {
            return None;
        }
        let mut seen = self.seen.again();
        let mut offer: Offer<Recorded, u64, Law, Nothing> = seen.plain::<Nothing, Recorded, Add>(
            call,
        );
        let mut pen = seen.no_pen();
        let calls = self.calls;
        let found = book
            .head
            .compare_exchange::<Add, Nothing>(calls, calls + 1, &mut seen, &mut offer, &mut pen);
        if found != calls {
            return None;
        }
        Some(Front {
            calls: calls + 1,
            seen,
            of: PhantomData,
        })
    }
}
