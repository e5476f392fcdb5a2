//! What lines tell of processes besides their events.
ghost use Rattle.std.specs.Prelude.{◌≡◌, option_map};
ghost use Rattle.trace_picture.specs.Remarks.{last_told};

/// What a line tells of a process, from its place among the events on.
#[derive(Drop)]
pub struct Remark {
    /// How many events the lines before it tell.
    pub place: usize,
    /// The process.
    pub pid: u32,
    pub text: String,
}

/// What lines tell of processes besides their events, each list in the order of the lines.
#[derive(Drop)]
pub struct Remarks {
    /// The program that a process runs from there on, by its name.
    pub names: Vec<Remark>,
    /// What a process waits for that has fallen asleep.
    pub waits: Vec<Remark>,
}

/// What remarks tell of a process behind the first events, so many: the last of those on it that stand there or before.
pub fn last_told(remarks: &[Remark], pid: u32, events: usize) -> Option<&Remark>
    ensures { option_map (λ r. r.now) result ≡ last_told pid events remarks.now }
{
    remarks
        .iter()
        .rev()
        .find(|remark| remark.pid == pid && remark.place <= events)
}
