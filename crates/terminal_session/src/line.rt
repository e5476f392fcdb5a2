//! What a command line asks for.
use recorded_runs::ReplayWords;

/// What the words of a command line ask for.
#[derive(Drop)]
pub struct Settings {
    /// Frames of RAM: 16 to 32,768.
    pub frames: u32,
    /// The most notes that the trace keeps: 0 to 65,536.
    pub trace: u32,
    /// Milliseconds of a tick: 1 to 60,000.
    pub tick: u32,
    /// The path of the file that the record is written into.
    pub record: Option<String>,
    /// Whether that file may be written over, if it has bytes.
    pub overwrite: bool,
    /// What is said of a record that is to be played.
    pub replay: ReplayWords,
    /// The path of a table of lines.
    pub lines: Option<String>,
    /// Whether standard input is a terminal whose reads answer at once.
    pub terminal: bool,
    /// Whether a key that comes at the terminal ends a rest of the host.
    pub woken: bool,
    /// Whether standard error isn't the terminal.
    pub apart: bool,
    /// The path of each FILE, in the order of the words: at least one.
    pub files: Vec<String>,
}
