//! What a session at a terminal shows first: the programs' names, and the keys that the machine doesn't get.
use std::fmt;
use xk_base::Program;
use xv_report::text::Name;

/// The most letters of the line of names: with what stands before and after them two rows of 80 columns.
const NAMES_LENGTH: usize = 146;

/// The keys that the machine doesn't get.
const KEYS: &str = "Ctrl-C stops the machine and asks, Ctrl-P tells the processes, Ctrl-\\ ends it";

/// The first lines of a session with these programs.
#[derive(Drop)]
pub struct FirstScreen<'a> {
    pub programs: &'a [Program],
}

impl FirstScreen<'_> {
    // The programs' names in one line; ` ..` stands for those that have no room.
    fn write_names<W: fmt::Write>(&self, f: &mut fmt::Formatter<W>) -> fmt::Result {
        f.write_str("programs:")?;
        let mut left = NAMES_LENGTH;
        for program in self.programs {
            let name = program.name.as_slice();
            if name.len() >= left {
                return f.write_str(" ..");
            }
            left -= name.len() + 1;
            write!(f, " {}", Name(name))?;
        }
        Ok(())
    }
}

impl fmt::Display for FirstScreen<'_> {
    fn fmt<W: fmt::Write>(&self, f: &mut fmt::Formatter<W>) -> fmt::Result {
        self.write_names(f)?;
        f.write_char('\n')?;
        f.write_str(KEYS)
    }
}
