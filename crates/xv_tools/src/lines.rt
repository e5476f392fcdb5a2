//! `xv_lines`: what a reader of a program's source needs of the tables of the ELF-64 file on standard input.
use line_tables::table_text;
use program_files::exit_statuses::{DEVICE_FAILED, DONE, REFUSED};
use std::io::{Read, Write};

// Writes a text to standard output, and gives the exit status.
fn put(rt: &HostRuntime, text: &[u8]) -> u8 {
    let mut output = rt.stdout();
    match output.write_all(text) {
        Ok(()) => DONE,
        Err(error) => {
            let _ = writeln!(rt.stderr(), "xv_lines: standard output: {error}");
            DEVICE_FAILED
        }
    }
}

/// Writes the text of the tables of the file on standard input, and gives the exit status.
pub(crate) fn tell_lines(rt: &HostRuntime) -> u8 {
    let mut file = Vec::new(rt.alloc());
    if let Err(error) = rt.stdin().read_to_end(&mut file) {
        let _ = writeln!(rt.stderr(), "xv_lines: standard input: {error}");
        return REFUSED;
    }
    match table_text(rt.alloc(), file.as_slice()) {
        Ok(text) => put(rt, text.as_slice()),
        Err(error) => {
            let _ = writeln!(rt.stderr(), "xv_lines: {error}");
            REFUSED
        }
    }
}
