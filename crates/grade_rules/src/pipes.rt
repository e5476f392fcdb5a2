//! Which of a run's pipes is meant, by its number or by a letter.
ghost use Rattle.std.specs.Prelude.{◌≡◌};
ghost use Rattle.grade_rules.specs.Choices.{is_choice, is_first, stands_for, is_letter, pipes_with};
ghost use Rattle.grade_rules.specs.Givens.{is_pipe};

/// A letter stands for one of so many pipes, the first of the run.
pub const FIRST_PIPES: u64 = 4;

/// A letter that stands for a pipe.
#[derive(Clone, Copy)]
pub enum Letter {
    A,
    B,
    C,
}

/// Which pipe is meant. Pipes are numbered from 1 on, in the order in which they were made.
#[derive(Clone, Copy)]
pub enum Pipes {
    /// Any, and what is no pipe too.
    Any,
    /// The one of this number.
    Only(u64),
    /// The one that the letter stands for; any, as long as none is chosen for it.
    Called(Letter),
}

/// The number of the pipe that each letter stands for.
#[derive(Clone, Copy)]
pub struct Choice {
    pub a: u64,
    pub b: u64,
    pub c: u64,
}

// Whether the pipe of this number is one of the first.
fn is_first(pipe: u64) -> bool
    ensures { result ≡ is_first pipe }
{
    1 <= pipe && pipe <= FIRST_PIPES
}

impl Choice {
    /// The first three pipes, in their order.
    pub const FIRST: Choice = Choice { a: 1, b: 2, c: 3 };

    /// Whether it may be made: the letters stand for three of the first pipes.
    pub fn is_choice(&self) -> bool
        ensures { result ≡ is_choice self.now }
    {
        is_first(self.a)
            && is_first(self.b)
            && is_first(self.c)
            && self.a != self.b
            && self.a != self.c
            && self.b != self.c
    }

    /// The number of the pipe that a letter stands for.
    pub fn stands_for(&self, letter: Letter) -> u64
        ensures { result ≡ stands_for self.now letter }
    {
        match letter {
            Letter::A => self.a,
            Letter::B => self.b,
            Letter::C => self.c,
        }
    }
}

impl Pipes {
    /// Whether the pipe of this number is meant; 0 is no pipe.
    pub fn is_pipe(&self, pipe: u64) -> bool
        ensures { result ≡ is_pipe self.now pipe }
    {
        match *self {
            Pipes::Any | Pipes::Called(_) => true,
            Pipes::Only(number) => pipe == number,
        }
    }

    /// Whether a letter says which is meant.
    pub fn is_letter(&self) -> bool
        ensures { result ≡ is_letter self.now }
    {
        match *self {
            Pipes::Called(_) => true,
            _ => false,
        }
    }

    /// The pipes that are meant by a choice.
    pub fn with(&self, choice: &Choice) -> Pipes
        ensures { result ≡ pipes_with choice.now self.now }
    {
        match *self {
            Pipes::Called(letter) => Pipes::Only(choice.stands_for(letter)),
            pipes => pipes,
        }
    }
}
