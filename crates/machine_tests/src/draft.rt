//! The machine that a story is about.
use super::story::{
    Place, Repeated, first_word, is_heading, is_silent, push, replaced, rest_behind,
};
use std::process::Abort;
use uasm_core::assemble;
use xk_base::Program;

/// A machine that hasn't booted: its frames, how many notes its trace keeps, and its programs.
#[derive(Drop)]
pub(super) struct Draft {
    pub(super) frames: u32,
    pub(super) trace: u32,
    pub(super) programs: Vec<Program>,
}

// Adds a line of assembler to a source, in which `; ` stands for its end.
fn push_line<R: Abort + AllocGlobal>(rt: &R, place: &Place<'_>, source: &mut String, line: &str) {
    let Repeated { first, last, text } = place.repetition(rt, line);
    let mut lines = replaced(rt, text, "; ", "\n");
    push(rt, &mut lines, "\n");
    for _ in first..=last {
        push(rt, source, lines.as_str());
    }
}

// Adds the lines that are defined under a name.
fn push_definition<R: Abort + AllocGlobal>(
    rt: &R,
    place: &Place<'_>,
    source: &mut String,
    group: &str,
    name: &str,
) {
    let mut is_here = false;
    for line in group.lines() {
        if is_heading(line) {
            is_here = first_word(line) == ("define", name);
        } else if is_here && !is_silent(line) {
            push_line(rt, place, source, line.trim());
        }
    }
}

// The assembler's source that stands below this place of the story.
fn source_below<R: Abort + AllocGlobal>(
    rt: &R,
    place: &Place<'_>,
    group: &str,
    story: &str,
) -> String {
    let mut source = String::new(rt.alloc());
    for line in story.lines().skip(place.line.saturating_add(1)) {
        if is_heading(line) {
            break;
        }
        match rest_behind(line.trim(), "do ") {
            Some(name) => push_definition(rt, place, &mut source, group, name),
            None if is_silent(line) => {}
            None => push_line(rt, place, &mut source, line.trim()),
        }
    }
    source
}

// Puts other bytes into a file, from a place on.
fn patch<R: Abort>(rt: &R, place: &Place<'_>, file: &mut Vec<u8>, rest: &str) {
    let (at, words) = first_word(rest);
    let mut at = place.short_number(rt, at) as usize;
    for word in words.split(' ') {
        let byte = place.byte(rt, word);
        if at < file.len() {
            file[at] = byte;
        } else {
            file.push(byte).expect(rt, "memory");
        }
        at = at.wrapping_add(1);
    }
}

impl Draft {
    // Adds a program of this name and this file.
    fn add<R: Abort + AllocGlobal>(&mut self, rt: &R, name: &str, bytes: Vec<u8>) {
        let name = Vec::from_slice(rt.alloc(), name.as_bytes()).expect(rt, "memory");
        self.programs
            .push(Program { name, bytes })
            .ok()
            .expect(rt, "memory");
    }

    // Adds a program of this name, whose source stands below this place.
    fn program<R: Abort + AllocGlobal>(
        &mut self,
        rt: &R,
        place: &Place<'_>,
        group: &str,
        story: &str,
        name: &str,
    ) {
        let source = source_below(rt, place, group, story);
        let bytes = assemble(rt.alloc(), source.as_str()).expect(rt, place.story);
        self.add(rt, name, bytes);
    }

    // Adds a program whose file is a text.
    fn file<R: Abort + AllocGlobal>(&mut self, rt: &R, rest: &str) {
        let (name, text) = first_word(rest);
        let bytes = Vec::from_slice(rt.alloc(), text.as_bytes()).expect(rt, "memory");
        self.add(rt, name, bytes);
    }

    // Does with the file of the last program what a heading says.
    fn change<R: Abort>(&mut self, rt: &R, place: &Place<'_>, word: &str, rest: &str) {
        let Some(program) = self.programs.last_mut() else {
            place.fail(rt, word)
        };
        match word {
            "patch" => patch(rt, place, &mut program.bytes, rest),
            "cut" => program
                .bytes
                .truncate(place.short_number(rt, rest) as usize),
            _ => {
                let length = program.bytes.len() as u64;
                if length != place.number(rt, rest) {
                    place.fail(rt, "the length");
                }
            }
        }
    }

    /// Does what a heading says that stands at this place of the story.
    pub(super) fn heading<R: Abort + AllocGlobal>(
        &mut self,
        rt: &R,
        place: &Place<'_>,
        group: &str,
        story: &str,
        heading: &str,
    ) {
        let (word, rest) = first_word(heading);
        match word {
            "frames" => self.frames = place.short_number(rt, rest),
            "trace" => self.trace = place.short_number(rt, rest),
            "program" => self.program(rt, place, group, story, rest),
            "file" => self.file(rt, rest),
            "patch" | "cut" | "length" => self.change(rt, place, word, rest),
            "each" | "refused" | "events" | "calls" => {}
            _ => place.fail(rt, heading),
        }
    }
}
