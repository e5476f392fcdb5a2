//! Names in a line, and what they stand for.
use crate::vocabulary::MARKS_MOST;
use arrayvec::ArrayVec;
use xk_base::Pid;

/// The most places of a name that are told: one more than marks are kept, so that it shows if there is no room for all.
pub const SPOTS_MOST: usize = MARKS_MOST + 1;

/// An address of a program.
#[derive(Clone, Copy, Default)]
pub struct Spot {
    /// The place of the program among those of the machine.
    pub program: usize,
    pub address: u64,
}

/// The places of a name, in the order of programs and addresses.
pub type Spots = ArrayVec<Spot, SPOTS_MOST>;

/// Who knows names: of functions, labels, data, lines and registers.
pub trait Names {
    /// The number that a name stands for in the process of this pid; without a pid, in the one that words look at.
    fn number(&self, name: &str, pid: &Option<Pid>) -> Option<u64>;

    /// The address that a name stands for, and its program. A name that tells no program is looked up in the one which
    /// the process runs that words look at.
    fn spot(&self, name: &str) -> Option<Spot>;

    /// All places that a name stands for, each with its program; of a line there may be several. None if it isn't known.
    fn spots(&self, name: &str) -> Spots;

    /// The program that the process runs that words look at, by its place.
    fn program(&self) -> Option<usize>;
}
