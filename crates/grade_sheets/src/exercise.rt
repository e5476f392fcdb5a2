//! The file of an exercise, in TOML 1.1.
use crate::asked::{Asked, read_rule};
use crate::keys::Keys;
use crate::refusal::{SheetError, refused, told};
use crate::variant::place_of;
use std::alloc::Global;
use toml::{Table, Value};
use xk_base::limits::{FRAMES_MAX, FRAMES_MIN};

/// The most Runs of a run.
const RUNS_MAX: u64 = 1_000_000_000;

/// The most Runs of a round.
const QUANTUM_MAX: u64 = 1_000_000;

/// What is wrong with a name that can't be that of a file in a folder.
const NO_NAME: &str = "a name that is empty, begins with a dot, or has a slash or a line's end:";

/// The keys that a run may have, beside its name and its rules.
const RUN_KEYS: [&str; 8] = [
    "files",
    "frames",
    "quantum",
    "most_runs",
    "budget",
    "with",
    "texts",
    "keys",
];

/// The most Runs of a run that says nothing of them. A process that computes does some hundred million Runs a second: a
/// second, at most, for a submission that loops.
const RUNS: u64 = 1_000_000;

/// The largest budget of work.
const BUDGET_MAX: u64 = 1_000_000_000_000;

/// The work that a run which says nothing of it may do beside its Runs: that of clearing some 390,000 pages.
const WORK: u64 = 100_000_000;

/// Why variants are refused.
const NO_VARIANTS: &str = "the variants don't have the same keys, each a text or a number";

/// The frames of a run that says nothing of them.
const FRAMES: u64 = 4_096;

/// The Runs of a round of a run that says nothing of them.
const QUANTUM: u64 = 1_000;

/// A file that programs may read.
#[derive(Drop)]
pub struct Text {
    pub name: String,
    pub text: String,
}

/// An exercise.
#[derive(Drop)]
pub struct Exercise {
    /// What it is called.
    pub title: String,
    /// What the student's variant has, by its keys; empty if the exercise has no variants.
    pub variant: Vec<Text>,
    /// How what was handed in is run, each time on a machine of its own.
    pub runs: Vec<Run>,
}

/// A run of what was handed in.
#[derive(Drop)]
pub struct Run {
    /// What it is called.
    pub name: String,
    /// What is handed in for it: the first of these files that is there. There is one at least, and each name can be
    /// that of a file in a folder: it has no slash and no line's end, and begins with no dot.
    pub files: Vec<String>,
    /// Frames of RAM: 16 to 32,768.
    pub frames: u32,
    /// Runs in each round: 1 to 1,000,000.
    pub quantum: u32,
    /// The most Runs: 1 to 1,000,000,000. A round that has begun is played to its end.
    pub most_runs: u64,
    /// The most work: 1 to 1,000,000,000,000. A Run is 1, and a page that is cleared or copied is 256.
    pub budget: u64,
    /// Further programs, by their paths from the folder of the exercise's file.
    pub with: Vec<String>,
    /// Further files, whose bytes are these texts.
    pub texts: Vec<Text>,
    /// What is typed, a byte each round.
    pub keys: String,
    /// What is asked of the run.
    pub asked: Vec<Asked>,
}

// Whether a name can be that of a file in a folder, and of no other.
fn is_plain_name(name: &str) -> bool {
    !name.is_empty() && !name.starts_with(".") && !name.contains('/') && !name.contains('\n')
}

// The files of a table, of which each name can be that of a file in a folder.
fn plain_names(alloc: Global, table: &Keys<'_>) -> Result<Vec<String>, SheetError> {
    let names = table.texts(alloc, "files")?;
    for name in &names {
        if !is_plain_name(name.as_str()) {
            return Err(table.refused(alloc, NO_NAME, "files"));
        }
    }
    Ok(names)
}

// The names of the files that are handed in for a run: without any of its own, those of the exercise.
fn names_of(alloc: Global, run: &Keys<'_>, file: &Keys<'_>) -> Result<Vec<String>, SheetError> {
    let of_run = plain_names(alloc, run)?;
    if !of_run.is_empty() {
        return Ok(of_run);
    }
    let of_all = plain_names(alloc, file)?;
    if of_all.is_empty() {
        return Err(run.refused(alloc, "missing key", "files"));
    }
    Ok(of_all)
}

// The file of a text of a run.
fn file_of(alloc: Global, run: &Keys<'_>, item: &Value) -> Result<Text, SheetError> {
    let place = run.place;
    let place = format!(in alloc; "texts of {place}")?;
    let text = run.table(alloc, "texts", item, place.as_str())?;
    text.check(alloc, &["name", "text"], &[])?;
    Ok(Text {
        name: text.text(alloc, "name")?,
        text: text.text(alloc, "text")?,
    })
}

// The files of a run's texts.
fn files_of(alloc: Global, run: &Keys<'_>) -> Result<Vec<Text>, SheetError> {
    let mut files = Vec::new(alloc);
    for item in run.list(alloc, "texts")? {
        files.push(file_of(alloc, run, item)?)?;
    }
    Ok(files)
}

// What the rules of a run ask for.
fn all_asked(alloc: Global, run: &Keys<'_>) -> Result<Vec<Asked>, SheetError> {
    let mut all = Vec::new(alloc);
    for (index, item) in run.list(alloc, "rule")?.iter().enumerate() {
        all.push(read_rule(alloc, run, index + 1, item)?)?;
    }
    Ok(all)
}

/// The bounds of a run.
#[derive(Clone, Copy)]
struct Limits {
    frames: u32,
    quantum: u32,
    most_runs: u64,
    budget: u64,
}

// The frames of a run, its Runs in each round, its Runs at most, and its budget of work.
fn limits_of(alloc: Global, run: &Keys<'_>) -> Result<Limits, SheetError> {
    let (least, most) = (u64::from(FRAMES_MIN), u64::from(FRAMES_MAX));
    let most_runs = run.number(alloc, "most_runs", RUNS, 1, RUNS_MAX)?;
    let usual = most_runs.saturating_add(WORK);
    Ok(Limits {
        frames: run.number(alloc, "frames", FRAMES, least, most)? as u32,
        quantum: run.number(alloc, "quantum", QUANTUM, 1, QUANTUM_MAX)? as u32,
        most_runs,
        budget: run.number(alloc, "budget", usual, 1, BUDGET_MAX)?,
    })
}

// The run of a table of a file.
fn read_run(alloc: Global, run: &Keys<'_>, file: &Keys<'_>) -> Result<Run, SheetError> {
    run.check(alloc, &["name", "rule"], &RUN_KEYS)?;
    let limits = limits_of(alloc, run)?;
    let made = Run {
        name: run.text(alloc, "name")?,
        files: names_of(alloc, run, file)?,
        frames: limits.frames,
        quantum: limits.quantum,
        most_runs: limits.most_runs,
        budget: limits.budget,
        with: run.texts(alloc, "with")?,
        texts: files_of(alloc, run)?,
        keys: run.text(alloc, "keys")?,
        asked: all_asked(alloc, run)?,
    };
    check_files(alloc, run.place, &made)?;
    Ok(made)
}

// The run of an item of a file's list, whose items are counted from 1.
fn run_of(alloc: Global, file: &Keys<'_>, number: usize, item: &Value) -> Result<Run, SheetError> {
    let place = format!(in alloc; "run {number}")?;
    let run = file.table(alloc, "run", item, place.as_str())?;
    read_run(alloc, &run, file)
}

// The runs of a file.
fn all_runs(alloc: Global, file: &Keys<'_>) -> Result<Vec<Run>, SheetError> {
    let mut runs = Vec::new(alloc);
    for (index, item) in file.list(alloc, "run")?.iter().enumerate() {
        runs.push(run_of(alloc, file, index + 1, item)?)?;
    }
    Ok(runs)
}

// The part of a path behind its last slash, without the end `.s` of a source: so the machine calls the program.
fn program_name(path: &str) -> &str {
    let name = match path.rsplit_once('/') {
        Some((_, name)) => name,
        None => path,
    };
    name.strip_suffix(".s").unwrap_or(name)
}

// Whether one of the files of these paths is a program of this name.
fn has_program(paths: &[String], name: &str) -> bool {
    for path in paths {
        if program_name(path.as_str()) == name {
            return true;
        }
    }
    false
}

// The first of the files of these paths that has the name of another one there.
fn twice<'a>(paths: &'a [String]) -> Option<&'a str> {
    for (place, path) in paths.iter().enumerate() {
        let name = program_name(path.as_str());
        if has_program(paths.split_at(place).0, name) {
            return Some(name);
        }
    }
    None
}

// The first text of a run that has the name of one of its programs, or of what is handed in.
fn text_twice<'a>(run: &'a Run) -> Option<&'a str> {
    for text in &run.texts {
        let name = text.name.as_str();
        if has_program(run.with.as_slice(), name) || has_program(run.files.as_slice(), name) {
            return Some(name);
        }
    }
    None
}

// The first program of a run that has the name of what is handed in.
fn program_twice<'a>(run: &'a Run) -> Option<&'a str> {
    for path in &run.with {
        let name = program_name(path.as_str());
        if has_program(run.files.as_slice(), name) {
            return Some(name);
        }
    }
    None
}

// Whether a text of a run has this name.
fn has_text(run: &Run, name: &str) -> bool {
    for text in &run.texts {
        if text.name.as_str() == name {
            return true;
        }
    }
    false
}

// Refuses a run that no machine boots: one without a program `init`, or with two files of one name.
fn check_files(alloc: Global, place: &str, run: &Run) -> Result<(), SheetError> {
    if has_text(run, "init") {
        return Err(told(format!(in alloc;
            "a text is named `init` in {place}, and that is no program"
        )));
    }
    let own = run.files.as_slice();
    if !has_program(run.with.as_slice(), "init") && !has_program(own, "init") {
        return Err(told(format!(in alloc;
            "no file of {place} is the program `init`, so it never boots"
        )));
    }
    let name = twice(run.with.as_slice())
        .or(program_twice(run))
        .or(text_twice(run));
    match name {
        Some(name) => Err(told(format!(in alloc; "two files are named `{name}` in {place}"))),
        None => Ok(()),
    }
}

// The table of a file.
fn table_of(alloc: Global, text: &str) -> Result<Table, SheetError> {
    match toml::table_from_str(alloc, text) {
        Ok(table) => Ok(table),
        Err(error) => Err(told(format!(in alloc; "{error}"))),
    }
}

// What a variant has under a key, as text, if it is a text or a number.
fn fact_of(alloc: Global, key: &str, value: &Value) -> Result<Text, SheetError> {
    let text = match value {
        Value::String(text) => String::from_str(alloc, text.as_str())?,
        Value::Integer(number) => format!(in alloc; "{number}")?,
        _ => return Err(refused(alloc, NO_VARIANTS)),
    };
    Ok(Text {
        name: String::from_str(alloc, key)?,
        text,
    })
}

// What a variant has.
fn facts_of(alloc: Global, variant: &Table) -> Result<Vec<Text>, SheetError> {
    let mut facts = Vec::new(alloc);
    for (key, value) in variant.iter() {
        facts.push(fact_of(alloc, key.as_str(), value)?)?;
    }
    Ok(facts)
}

// Refuses a variant that hasn't the keys of another.
fn check_keys(alloc: Global, variant: &Table, other: &Table) -> Result<(), SheetError> {
    for key in variant.keys() {
        if other.get(key.as_str()).is_none() {
            return Err(refused(alloc, NO_VARIANTS));
        }
    }
    Ok(())
}

// The variant of a list's item, which has the keys of the first.
fn variant_of<'a>(alloc: Global, first: &Value, item: &'a Value) -> Result<&'a Table, SheetError> {
    let (Some(first), Some(table)) = (first.as_table(), item.as_table()) else {
        return Err(refused(alloc, NO_VARIANTS));
    };
    check_keys(alloc, first, table)?;
    check_keys(alloc, table, first)?;
    Ok(table)
}

// Refuses variants that don't have the same keys, or have what is neither a text nor a number.
fn check_variants(alloc: Global, first: &Value, variants: &[Value]) -> Result<(), SheetError> {
    for item in variants {
        facts_of(alloc, variant_of(alloc, first, item)?)?;
    }
    Ok(())
}

// The variant of a student of this name, if there are variants.
fn own_variant<'a>(
    alloc: Global,
    file: &Keys<'a>,
    name: &[u8],
) -> Result<Option<&'a Table>, SheetError> {
    let variants = file.list(alloc, "variant")?;
    let Some(first) = variants.first() else {
        return Ok(None);
    };
    check_variants(alloc, first, variants)?;
    let place = place_of(name, (variants.len() as u64).max(1)) as usize;
    let item = variants.get(place).unwrap_or(first);
    Ok(Some(variant_of(alloc, first, item)?))
}

// The exercise of a file's table, for a student who has this variant.
fn exercise_of(alloc: Global, file: &Keys<'_>) -> Result<Exercise, SheetError> {
    let variant = match file.variant {
        Some(variant) => facts_of(alloc, variant)?,
        None => Vec::new(alloc),
    };
    Ok(Exercise {
        title: file.text(alloc, "title")?,
        variant,
        runs: all_runs(alloc, file)?,
    })
}

impl Exercise {
    /// The exercise of a file's text, as a student of this name has it: with the student's variant in its texts and
    /// numbers, if there are variants.
    ///
    /// # Errors
    ///
    /// [`SheetError::Text`] if it is no TOML, lacks a key or has one that isn't known, or has a number, a name or a
    /// rule that isn't right, or if nobody or everybody would pass it: the text tells the line, or the run and the rule,
    /// counted from 1. And [`SheetError::Memory`].
    pub fn read(alloc: Global, text: &str, name: &[u8]) -> Result<Exercise, SheetError> {
        let table = table_of(alloc, text)?;
        let mut file = Keys {
            table: &table,
            place: "the file",
            variant: None,
        };
        file.check(alloc, &["title", "run"], &["files", "variant"])?;
        file.variant = own_variant(alloc, &file, name)?;
        exercise_of(alloc, &file)
    }
}
