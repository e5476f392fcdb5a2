//! What the names in a line stand for.
ghost use Rattle.std.specs.Prelude.{◌≡◌};

use crate::focus::place_of;
use arrayvec::ArrayString;
use debug_words::texts::Plain;
use debug_words::{Names, Spot, Spots};
use elf_symbols::function_start;
use rv64i_core::Regs;
use std::alloc::AllocError;
use uasm_text::register_name;
use xk_base::{Pid, Program, Reg};
use xv_report::text::Line;
use xv_report::{LineNamed, ProgramSource, Sources, source_of};
use xv_session::Session;

/// In so many places of a program, at most, instructions of a line are looked for.
const STRETCHES_MOST: u32 = 4096;

/// The longest name of a line that is looked for by its number alone, in bytes.
const LINE_BYTES: usize = 512;

/// The function in whose file a line is looked for, if the process stands in a file that has none of its number.
const MAIN: &[u8] = b"main";

/// What is known where a line is read: the session, the sources of its programs, and the process that words look at.
#[derive(Clone, Copy)]
pub(crate) struct Known<'a> {
    pub session: &'a Session,
    pub sources: Option<&'a Sources>,
    pub focus: Option<Pid>,
}

/// The register of this name.
fn register_named(name: &str) -> Option<Reg> {
    for number in 0..32_u8 {
        let register = Reg::new(number);
        if register_name(register) == name {
            return Some(register);
        }
    }
    None
}

/// What the pc or the register of this name holds.
fn held(regs: &Regs, name: &str) -> Option<u64> {
    match name {
        "pc" => Some(regs.pc()),
        "fp" => Some(regs.read(register_named("s0")?)),
        _ => Some(regs.read(register_named(name)?)),
    }
}

/// The place of the program of this name.
fn place_named(programs: &[Program], name: &str) -> Option<usize> {
    programs
        .iter()
        .position(|program| program.name.as_slice() == name.as_bytes())
}

/// The name of the line of a number in a file whose name is told in two parts: `init.c:24`. `None` if it is too long.
fn line_text(file: &str, rest: &str, number: &str) -> Option<ArrayString<LINE_BYTES>> {
    let mut text = ArrayString::new();
    text.try_push_str(file).ok()?;
    text.try_push_str(rest).ok()?;
    text.try_push_str(":").ok()?;
    text.try_push_str(number).ok()?;
    Some(text)
}

/// The name of the line of a number in the file of another line.
fn text_beside(line: &Line<'_>, number: &str) -> Option<ArrayString<LINE_BYTES>> {
    match *line {
        Line::Told(text) => {
            let (file, _) = text.rsplit_once(':')?;
            line_text(file, "", number)
        }
        Line::Assembled { program, .. } => line_text(str::from_utf8(program).ok()?, ".s", number),
    }
}

impl<'a> Known<'a> {
    /// The process of this pid, or the one that words look at.
    fn pid(&self, pid: &Option<Pid>) -> Option<Pid> {
        match pid {
            Some(pid) => Some(*pid),
            None => self.focus,
        }
    }

    /// The program that a process runs.
    fn program_of(&self, pid: &Option<Pid>) -> Option<usize> {
        place_of(self.session, self.pid(pid))
    }

    /// What is known of the source of the program at a place.
    fn source(&self, program: usize) -> ProgramSource<'a> {
        source_of(self.sources, self.session, Some(program))
    }

    /// Whether the program at a place has instructions of a line.
    fn has_line(&self, line: &LineNamed<'_>, program: usize) -> bool {
        self.source(program).line_start(line, None).is_some()
    }

    /// The program of a line: the one that words look at if it has the line, or else the first that has.
    fn program_with(&self, line: &LineNamed<'_>) -> Option<usize> {
        if let Some(own) = self.program_of(&None) {
            if self.has_line(line, own) {
                return Some(own);
            }
        }
        (0..self.session.machine().programs().len()).find(|program| self.has_line(line, *program))
    }

    /// The next line of the same file that has instructions, in the program that words look at, or else in the first that
    /// has one.
    fn line_after(&self, line: &LineNamed<'_>) -> Option<(usize, LineNamed<'a>)> {
        if let Some(own) = self.program_of(&None) {
            if let Some(found) = self.source(own).line_after(line) {
                return Some((own, found));
            }
        }
        for program in 0..self.session.machine().programs().len() {
            if let Some(found) = self.source(program).line_after(line) {
                return Some((program, found));
            }
        }
        None
    }

    /// Whether a program is known to have instructions of the file of a line.
    fn has_file(&self, line: &LineNamed<'_>) -> bool {
        let first = LineNamed { number: 0, ..*line };
        self.program_with(&first).is_some() || self.line_after(&first).is_some()
    }

    /// Writes why a text names no line that has instructions; nothing of a text that names no line.
    pub(crate) fn show_lineless(&self, text: &str, answer: &mut String) -> Result<(), AllocError> {
        let Some(line) = LineNamed::of(text) else {
            return Ok(());
        };
        let file = Plain(line.file.as_bytes());
        if self.has_file(&line) {
            let number = line.number;
            return writeln!(answer, "{file} has no instructions from line {number} on");
        }
        writeln!(
            answer,
            "no lines of {file} are known: of a program in C they come from NAME.debug beside it"
        )
    }

    /// The places of a line in the program at a place: in each function that has instructions of it the first.
    fn line_spots(&self, line: &LineNamed<'_>, program: usize) -> Spots {
        let source = self.source(program);
        let mut spots = Spots::new();
        let mut after = None;
        let mut last = None;
        for _ in 0..STRETCHES_MOST {
            let Some(address) = source.line_start(line, after) else {
                return spots;
            };
            let function = function_start(source.symbols, address);
            if function.is_none() || function != last {
                let _ = spots.try_push(Spot { program, address });
            }
            last = function;
            after = Some(address);
        }
        spots
    }

    /// The places of a line, or of the next one that has instructions.
    fn spots_of_line(&self, line: &LineNamed<'_>) -> Spots {
        if let Some(program) = self.program_with(line) {
            return self.line_spots(line, program);
        }
        match self.line_after(line) {
            Some((program, next)) => self.line_spots(&next, program),
            None => Spots::new(),
        }
    }

    /// The places of the line of a number in the file that has an address of the program at a place; of the next line of the
    /// file that has instructions, if it has none itself.
    fn line_beside(&self, number: &str, program: usize, address: u64) -> Option<Spots> {
        let source = self.source(program);
        let text = text_beside(&source.location(address).line?, number)?;
        let line = LineNamed::of(text.as_str())?;
        if self.has_line(&line, program) {
            return Some(self.line_spots(&line, program));
        }
        let next = source.line_after(&line)?;
        Some(self.line_spots(&next, program))
    }

    /// The places of the line of a number in the file of a program's `main`.
    fn line_in_main(&self, number: &str, program: usize) -> Option<Spots> {
        let main = self.source(program).address_named(MAIN)?;
        self.line_beside(number, program, main)
    }

    /// Whether an address of the program at a place stands in assembler, as where a program in C begins, and its calls.
    fn is_in_assembler(&self, program: usize, address: u64) -> bool {
        match self.source(program).location(address).line {
            Some(Line::Told(text)) => text.contains(".S:"),
            _ => false,
        }
    }

    /// The places of the line of a number: in the file in which the process stands that words look at, or else in the file
    /// of its program's `main`. That comes first if the process stands in a program in C's assembler.
    fn line_here(&self, number: &str) -> Option<Spots> {
        let program = self.program_of(&None)?;
        let regs = self.session.machine().registers(self.focus?)?;
        if self.is_in_assembler(program, regs.pc()) {
            if let Some(spots) = self.line_in_main(number, program) {
                return Some(spots);
            }
        }
        match self.line_beside(number, program, regs.pc()) {
            Some(spots) => Some(spots),
            None => self.line_in_main(number, program),
        }
    }

    /// The address of a name of the program at a place.
    fn named_in(&self, name: &str, program: Option<usize>) -> Option<Spot> {
        let program = program?;
        let source = source_of(self.sources, self.session, Some(program));
        let address = source.address_named(name.as_bytes())?;
        Some(Spot { program, address })
    }

    /// The places of a line, which may stand behind a program's name: `wc.c:12`, `wc:print.c:22`.
    fn line_named(&self, name: &str) -> Option<Spots> {
        let line = LineNamed::of(name)?;
        if let Some((program, rest)) = name.split_once(':') {
            if let Some(own) = LineNamed::of(rest) {
                let place = place_named(self.session.machine().programs(), program)?;
                return Some(self.line_spots(&own, place));
            }
        }
        Some(self.spots_of_line(&line))
    }

    /// The address of a line, of a program's name, or of a name of the program that a process runs.
    fn spot_of(&self, name: &str, pid: &Option<Pid>) -> Option<Spot> {
        if let Some(spots) = self.line_named(name) {
            return spots.as_slice().first().copied();
        }
        match name.split_once(':') {
            Some((program, name)) => {
                self.named_in(
                    name,
                    place_named(self.session.machine().programs(), program),
                )
            }
            None => self.named_in(name, self.program_of(pid)),
        }
    }

    /// What a register of a process holds.
    fn register(&self, name: &str, pid: &Option<Pid>) -> Option<u64> {
        let regs = self.session.machine().registers(self.pid(pid)?)?;
        held(&regs, name)
    }
}

impl<'a> Names for Known<'a> {
    fn number(&self, name: &str, pid: &Option<Pid>) -> Option<u64> {
        match name.strip_prefix('$') {
            Some(register) => self.register(register, pid),
            None => Some(self.spot_of(name, pid)?.address),
        }
    }

    fn spot(&self, name: &str) -> Option<Spot> {
        self.spot_of(name, &None)
    }

    fn spots(&self, name: &str) -> Spots {
        if let Some(b'0'..=b'9') = name.as_bytes().first() {
            if let Some(spots) = self.line_here(name) {
                return spots;
            }
        }
        if let Some(spots) = self.line_named(name) {
            return spots;
        }
        let mut spots = Spots::new();
        if let Some(spot) = self.spot_of(name, &None) {
            let _ = spots.try_push(spot);
        }
        spots
    }

    fn program(&self) -> Option<usize> {
        self.program_of(&None)
    }
}
