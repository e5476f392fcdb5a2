//! What a command line asks for.
use recorded_runs::ReplayWords;
use xk_base::Pid;

/// What the words of a command line ask for.
#[derive(Drop)]
pub struct Settings {
    /// Frames of RAM: 16 to 32,768.
    pub frames: u32,
    /// The most rounds that are made: 0 to 1,000,000,000.
    pub rounds: u64,
    /// Runs in each round: 1 to 1,000,000.
    pub quantum: u32,
    /// The most notes that the trace keeps: 0 to 65,536.
    pub trace: u32,
    /// The most work, in millions of instructions: 0 to 1,000,000; 0: any.
    pub budget: u32,
    /// The process whose lines alone are asked for, if there is one.
    pub pid: Option<Pid>,
    /// The name of the program whose lines alone are asked for, if there is one.
    pub program: Option<String>,
    /// The names of the calls whose lines alone are asked for, with commas between, if there are any.
    pub calls: Option<String>,
    /// Whether only calls that have failed are to be told, and faults and kills.
    pub failed: bool,
    /// Whether each line begins with the number of events before its own.
    pub numbers: bool,
    /// How many bytes of each text and buffer are shown at most.
    pub shown: u16,
    /// The path of the file that the lines are written into; they go to standard error if there is none.
    pub output: Option<String>,
    /// Whether a table of what each process has done is asked for, in place of the lines.
    pub count: bool,
    /// What is said of a record that is to be told, in place of a run in rounds.
    pub replay: ReplayWords,
    /// The path of each FILE, in the order of the words: at least one.
    pub files: Vec<String>,
}
