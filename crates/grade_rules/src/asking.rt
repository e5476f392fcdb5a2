//! What a call has to be given.
ghost use Rattle.std.specs.Prelude.{◌≡◌};
ghost use Rattle.grade_rules.specs.Choices.{asking_with};
ghost use Rattle.grade_rules.specs.Givens.{is_same, names, takes};

use crate::given::{Given, Thing};
use crate::numbers::Numbers;
use crate::pipes::{Choice, Pipes};

/// What a descriptor may name.
#[derive(Clone, Copy)]
pub enum Things {
    /// Anything, or nothing.
    Any,
    /// Such a thing.
    Only(Thing),
    /// Anything, or nothing, but not such a thing.
    Not(Thing),
}

/// What a call may be given.
#[derive(Clone, Copy)]
pub struct Asking {
    pub first: Numbers,
    pub second: Numbers,
    pub third: Numbers,
    /// The first byte of a write.
    pub byte: Numbers,
    /// What the descriptor in the first argument may name.
    pub on: Things,
    /// Which pipe that may be an end of.
    pub pipe: Pipes,
}

impl Thing {
    /// Whether the two are the same.
    pub fn is_same(self, other: Thing) -> bool
        ensures { result ≡ is_same self other }
    {
        match (self, other) {
            (Thing::Nothing, Thing::Nothing) => true,
            (Thing::Console, Thing::Console) => true,
            (Thing::File, Thing::File) => true,
            (Thing::ReadEnd, Thing::ReadEnd) => true,
            (Thing::WriteEnd, Thing::WriteEnd) => true,
            _ => false,
        }
    }
}

impl Things {
    /// Whether the thing is one of them.
    pub fn names(&self, thing: Thing) -> bool
        ensures { result ≡ names self.now thing }
    {
        match *self {
            Things::Any => true,
            Things::Only(one) => one.is_same(thing),
            Things::Not(other) => !other.is_same(thing),
        }
    }
}

impl Asking {
    /// Whatever it was given.
    pub const ANYTHING: Asking = Asking {
        first: Numbers::Any,
        second: Numbers::Any,
        third: Numbers::Any,
        byte: Numbers::Any,
        on: Things::Any,
        pipe: Pipes::Any,
    };

    /// Whether a call that was given this is meant.
    pub fn takes(&self, given: Given) -> bool
        ensures { result ≡ takes self.now given }
    {
        self.first.has(given.first)
            && self.second.has(given.second)
            && self.third.has(given.third)
            && self.byte.has(given.byte)
            && self.on.names(given.on)
            && self.pipe.is_pipe(given.pipe)
    }

    /// What is meant by a choice of pipes.
    pub fn with(&self, choice: &Choice) -> Asking
        ensures { result ≡ asking_with choice.now self.now }
    {
        Asking {
            pipe: self.pipe.with(choice),
            ..*self
        }
    }
}
