//! The traits of values that a lock can hold: they take one event at a time and reply to each, and
//! some also answer a question that no history records.
ghost use Rattle.std.specs.Prelude.{◌≡◌, ℕ, List, [], ◌∷◌, ◌++◌, IfOk, IfErr};
ghost use Rattle.turn_lock.specs.declared.turned.Entry.{Entry};
ghost use Rattle.turn_lock.specs.History.{entry};

use std::alloc::{AllocError, Global};
use std::collections::LinkedList;

/// One call in a history: the number of the port that made it, its event, and its reply.
///
/// Histories exist only in contracts; no value of this type is made.
pub struct Entry<E, R> {
    pub by: LinkedList<u64>,
    pub event: E,
    pub reply: R,
}

/// A value that results from a history of calls and takes one event at a time.
///
/// Contracts describe the value by its `origin`, the initial state; by the histories that are
/// `legal` from an origin; by the histories that the value `stands` for, which are legal; and by
/// the events that are `sure`, whose turn never runs out of memory.
pub trait Turned: Drop {
    /// What a call passes to the value.
    type Event: Drop;

    /// What the value returns to the call.
    type Reply: Drop;

    /// What contracts see of the value's initial state.
    type Origin;

    /// Ghost value: the initial state, which no turn changes.
    ghost origin: { Self → Self.Origin };

    /// Ghost predicate: the history is possible from this origin.
    ghost legal: { Self.Origin → List (Entry Self.Event Self.Reply) → Type 0 };

    /// Ghost predicate: the value is the one that the history results in.
    ghost stands: { Self → List (Entry Self.Event Self.Reply) → Type 0 };

    /// Ghost predicate: the turn of this event never runs out of memory.
    ghost sure: { Self.Event → Type 0 };

    /// Takes one event. After `Ok` the history is one entry longer, with that event and that reply,
    /// whichever port called. Returns `AllocError` if out of memory; the value then still results
    /// from the histories it resulted from before.
    fn turn(&mut self, alloc: Global, event: Self::Event) -> Result<Self::Reply, AllocError>
        ensures same { origin self.new ≡ origin self.old }
        ensures ok { IfOk result (λ r. (by : List ℕ) (h : List (Entry Self.Event Self.Reply))
            → stands self.old h → stands self.new (h ++ entry by event r ∷ [])) }
        ensures err { IfErr result (λ _. (h : List (Entry Self.Event Self.Reply))
            → stands self.old h → stands self.new h) }
        ensures unsure { IfErr result (λ _. ¬ sure event) };

    /// Ghost proof: a history that a value results from is legal.
    ghost is_legal: { (x : Self) (h : List (Entry Self.Event Self.Reply)) → stands x h
        → legal (origin x) h };
}

/// A value that also answers questions about its history. No history records a question.
pub trait Inspected: Turned {
    /// What a caller asks.
    type Question: Drop;

    /// The answer to a question.
    type Finding: Drop;

    /// Ghost relation: the finding is right for a value that results from this history, which began
    /// at this origin.
    ghost finds: { Self.Origin → List (Entry Self.Event Self.Reply) → Self.Question → Self.Finding
        → Type 0 };

    /// Answers a question. The value may change what it has besides its history: it then still
    /// results from the histories it resulted from before.
    fn inspect(&mut self, alloc: Global, question: Self::Question) -> Self::Finding
        ensures same { Self.origin self.new ≡ Self.origin self.old }
        ensures preserved { (h : List (Entry Self.Event Self.Reply)) → Self.stands self.old h
            → Self.stands self.new h }
        ensures finds { (h : List (Entry Self.Event Self.Reply)) → Self.stands self.old h
            → finds (Self.origin self.old) h question result };
}
