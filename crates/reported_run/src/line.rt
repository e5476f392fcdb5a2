//! What a command line asks for.
use recorded_runs::ReplayWords;

/// What is told of events as they come.
#[derive(Clone, Copy, PartialEq, Eq)]
pub enum Telling {
    /// Faults alone.
    Faults,
    /// Each event in words.
    Words,
    /// Each event as a line of a trace, with the names of programs and what sleepers wait for.
    Notes,
}

/// What the words of a command line ask for.
#[derive(Drop)]
pub struct Settings {
    /// Frames of RAM: 16 to 32,768.
    pub frames: u32,
    /// The most rounds that are made: 0 to 1,000,000,000.
    pub rounds: u64,
    /// Runs in each round: 1 to 1,000,000.
    pub quantum: u32,
    /// The most notes that the trace keeps: 0 to 65,536.
    pub trace: u32,
    /// The most work, in millions of instructions: 0 to 1,000,000; 0: any.
    pub budget: u32,
    /// What is told of events as they come.
    pub telling: Telling,
    /// The path of a table of lines.
    pub lines: Option<String>,
    /// What is said of a record that is to be told, in place of a run in rounds.
    pub replay: ReplayWords,
    /// The path of each FILE, in the order of the words: at least one.
    pub files: Vec<String>,
}
