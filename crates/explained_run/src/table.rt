//! The table of what each process has done.
use crate::counts::Count;
use crate::explained::Explained;
use debug_words::texts::{Grouped, Plain};
use std::io::Write;

// The name of the program that a process ran last.
fn name_of<'a>(explained: &'a Explained, count: &Count) -> &'a [u8] {
    match count.program {
        Some(place) => match explained.running.machine.programs().get(place) {
            Some(program) => program.name.as_slice(),
            None => b"?".as_slice(),
        },
        None => b"?".as_slice(),
    }
}

/// Writes the table of what each process has done, if it is asked for in place of lines.
pub(crate) fn write_counts<E: Write>(explained: &Explained, errors: &mut E) {
    if !explained.choice.lines {
        write_table(explained, errors);
    }
}

// Writes the row of a process that ran the program of this name last. What can't be written is left out.
fn write_row<E: Write>(count: &Count, name: &[u8], errors: &mut E) {
    let pid = count.pid.number();
    let name = Plain(name);
    let calls = Grouped(count.calls);
    let failed = Grouped(count.failed);
    let instructions = Grouped(count.instructions);
    let _ = writeln!(
        errors,
        "{pid:>5}  {name:<14} {calls:>7} {failed:>7} {instructions:>15}"
    );
}

// Writes the table, a process in each row, of those that ran the program last that is asked for.
fn write_table<E: Write>(explained: &Explained, errors: &mut E) {
    let Some(counts) = explained.counts.all() else {
        let _ = writeln!(errors, "there was too little memory to count calls");
        return;
    };
    let _ = writeln!(
        errors,
        "  pid  program          calls  failed    instructions"
    );
    for count in counts {
        let name = name_of(explained, count);
        if explained.choice.is_program(Some(name)) {
            write_row(count, name, errors);
        }
    }
}
