//! What help tells.
use crate::topics::{TOPICS, Topic};
use std::alloc::AllocError;

/// Writes a line for each word.
fn show_all(answer: &mut String) -> Result<(), AllocError> {
    for topic in TOPICS {
        let usage = topic.usage();
        let brief = topic.brief();
        writeln!(answer, "{usage:<26} {brief}")?;
    }
    Ok(())
}

/// Writes what a word does, or a line for each. What its text says, no contract tells.
pub fn show_help(topic: Option<Topic>, answer: &mut String) -> Result<(), AllocError> {
    let Some(topic) = topic else {
        return show_all(answer);
    };
    let usage = topic.usage();
    let text = topic.text();
    writeln!(answer, "{usage}\n{text}")
}
