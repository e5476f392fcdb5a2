//! Names of types, as the C language writes them (DWARF 5, section 5).
use crate::attributes::Program;
use crate::names::BIT_SIZE;
use crate::tags::{
    ARRAY, ATOMIC, CONSTANT, ENUMERATION, ENUMERATOR, FUNCTION_TYPE, MEMBER, POINTER, RESTRICT,
    STRUCTURE, UNION, VOLATILE,
};
use crate::types::Kind;
use crate::variables::Variable;
use std::alloc::{AllocError, Global};

/// A type of more parts is cut off.
const MOST_PARTS: u32 = 32;

/// An array has no more ranges, or those after them aren't told.
const MOST_RANGES: usize = 8;

/// The members of a structure are sought among so many entries after its own.
const MOST_INSIDE: usize = 1024;

/// What stands around the name of a type.
#[derive(Drop)]
struct Around {
    /// Before it, as `const `.
    before: String,
    /// After it, as `*` or `[3]`.
    after: String,
    /// Whether a pointer is what stands after it first: in an array or a function it stands between brackets.
    is_pointer: bool,
}

/// The word before the name of a type.
fn word_of(tag: u64) -> &'static str {
    match tag {
        STRUCTURE => "struct ",
        UNION => "union ",
        ENUMERATION => "enum ",
        _ => "",
    }
}

/// The word of a qualifier; `None` if the type is none.
fn qualifier(tag: u64) -> Option<&'static str> {
    match tag {
        CONSTANT => Some("const"),
        VOLATILE => Some("volatile"),
        RESTRICT => Some("restrict"),
        ATOMIC => Some("_Atomic"),
        _ => None,
    }
}

impl Around {
    /// Puts brackets around what stands after the name, if it begins with a pointer.
    fn bracket(&mut self, alloc: Global) -> Result<(), AllocError> {
        if self.is_pointer {
            let after = self.after.as_str();
            self.after = format!(in alloc; "({after})")?;
        }
        self.is_pointer = false;
        Ok(())
    }

    /// Adds a qualifier: of a pointer it stands after it, of others before their name.
    fn qualify(&mut self, alloc: Global, word: &str, is_pointer: bool) -> Result<(), AllocError> {
        if is_pointer {
            let after = self.after.as_str();
            self.after = format!(in alloc; " {word}{after}")?;
            return Ok(());
        }
        self.before.push_str(word)?;
        self.before.push_str(" ")
    }

    /// Adds a pointer.
    fn point(&mut self, alloc: Global) -> Result<(), AllocError> {
        let after = self.after.as_str();
        self.after = format!(in alloc; "*{after}")?;
        self.is_pointer = true;
        Ok(())
    }

    /// The type of this name.
    fn named(&self, alloc: Global, word: &str, name: &str) -> Result<String, AllocError> {
        let before = self.before.as_str();
        let after = self.after.as_str();
        let blank = if after.is_empty() { "" } else { " " };
        format!(in alloc; "{before}{word}{name}{blank}{after}")
    }
}

impl<'a> Program<'a> {
    /// Whether a pointer leads to characters.
    pub(crate) fn leads_to_text(&self, number: usize) -> bool {
        let is_pointer = self.entry(number).is_some_and(|entry| entry.tag == POINTER);
        match self.kind(number) {
            Some(to) => is_pointer && self.is_character(Kind::of(to)),
            None => false,
        }
    }

    /// Adds the lengths of an array, from one of its ranges on.
    fn add_lengths(&self, kind: Kind, after: &mut String) -> Result<(), AllocError> {
        let number = kind.number;
        let from = kind.range.min(MOST_RANGES);
        for range in from..MOST_RANGES {
            if self.range_of(number, range).is_none() {
                return Ok(());
            }
            match self.count(Kind { number, range }) {
                Some(count) => write!(after, "[{count}]")?,
                None => after.push_str("[]")?,
            }
        }
        Ok(())
    }

    /// Whether this type qualifies a pointer. A qualifier of an array is one of its elements; `None` if the same one
    /// stands at them, too, as gcc writes it.
    fn is_of_pointer(&self, number: usize, tag: u64) -> Option<bool> {
        let mut at = number;
        for _ in 0..MOST_PARTS {
            let Some(next) = self.kind(at) else {
                return Some(false);
            };
            let Some(entry) = self.entry(next) else {
                return Some(false);
            };
            if entry.tag == tag {
                return None;
            }
            if entry.tag != ARRAY && qualifier(entry.tag).is_none() {
                return Some(entry.tag == POINTER);
            }
            at = next;
        }
        Some(false)
    }

    /// Adds a part of a type that has no name of its own; `false` if it has one.
    fn add_part(
        &self,
        alloc: Global,
        kind: Kind,
        tag: u64,
        around: &mut Around,
    ) -> Result<bool, AllocError> {
        let number = kind.number;
        if let Some(word) = qualifier(tag) {
            if let Some(is_pointer) = self.is_of_pointer(number, tag) {
                around.qualify(alloc, word, is_pointer)?;
            }
            return Ok(true);
        }
        match tag {
            POINTER => around.point(alloc)?,
            ARRAY => {
                around.bracket(alloc)?;
                self.add_lengths(kind, &mut around.after)?;
            }
            FUNCTION_TYPE => {
                around.bracket(alloc)?;
                around.after.push_str("()")?;
            }
            _ => return Ok(false),
        }
        Ok(true)
    }

    /// What is declared to have a type, as text: with an empty name the type alone.
    fn declared(
        &self,
        alloc: Global,
        kind: Option<Kind>,
        name: &str,
    ) -> Result<String, AllocError> {
        let around = Around {
            before: String::new(alloc),
            after: String::from_str(alloc, name)?,
            is_pointer: false,
        };
        self.within(alloc, kind, around)
    }

    /// A type, as text, with what stands around its name.
    fn within(
        &self,
        alloc: Global,
        kind: Option<Kind>,
        mut around: Around,
    ) -> Result<String, AllocError> {
        let mut at = kind;
        for _ in 0..MOST_PARTS {
            let Some(kind) = at else {
                return around.named(alloc, "", "void");
            };
            let number = kind.number;
            let Some(entry) = self.entry(number) else {
                return around.named(alloc, "", "?");
            };
            if !self.add_part(alloc, kind, entry.tag, &mut around)? {
                let name = self.name(number).unwrap_or("{...}");
                return around.named(alloc, word_of(entry.tag), name);
            }
            at = self.kind(number).map(Kind::of);
        }
        around.named(alloc, "", "?")
    }
}

/// The type of a variable, as the C language writes it: `int`, `char *`, `struct node *[3]`. Arguments of functions
/// aren't told.
///
/// # Errors
///
/// The host has too little memory.
pub(crate) fn type_text(
    alloc: Global,
    program: &Program,
    variable: &Variable,
) -> Result<String, AllocError> {
    match program.kind(variable.number) {
        Some(number) => kind_text(alloc, program, Kind::of(number)),
        None => String::from_str(alloc, "?"),
    }
}

/// A type, as the C language writes it.
///
/// # Errors
///
/// The host has too little memory.
pub fn kind_text(alloc: Global, program: &Program, kind: Kind) -> Result<String, AllocError> {
    program.declared(alloc, Some(kind), "")
}

/// The type of pointers to values of a type, as the C language writes it.
///
/// # Errors
///
/// The host has too little memory.
pub fn pointer_text(alloc: Global, program: &Program, kind: Kind) -> Result<String, AllocError> {
    let around = Around {
        before: String::new(alloc),
        after: String::from_str(alloc, "*")?,
        is_pointer: true,
    };
    program.within(alloc, Some(kind), around)
}

impl<'a> Program<'a> {
    /// Adds the line of a member.
    fn add_member(
        &self,
        alloc: Global,
        number: usize,
        text: &mut String,
    ) -> Result<(), AllocError> {
        let name = self.name(number).unwrap_or("");
        let declared = self.declared(alloc, self.kind(number).map(Kind::of), name)?;
        let declared = declared.as_str();
        write!(text, "    {declared}")?;
        if let Some(bits) = self.number(number, BIT_SIZE) {
            write!(text, " : {bits}")?;
        }
        text.push_str(";\n")
    }

    /// Adds what stands between the brackets of a structure, a union or an enumeration.
    fn add_inside(
        &self,
        alloc: Global,
        owner: usize,
        depth: usize,
        text: &mut String,
    ) -> Result<(), AllocError> {
        for distance in 1..=MOST_INSIDE {
            let number = owner.saturating_add(distance);
            let Some(entry) = self.entry(number) else {
                return Ok(());
            };
            if entry.depth <= depth {
                return Ok(());
            }
            if entry.depth > depth.saturating_add(1) {
                continue;
            }
            match entry.tag {
                MEMBER => self.add_member(alloc, number, text)?,
                ENUMERATOR => {
                    let name = self.name(number).unwrap_or("?");
                    write!(text, "    {name},\n")?;
                }
                _ => (),
            }
        }
        Ok(())
    }
}

/// A type with all that it has: of a structure, a union or an enumeration what stands between its brackets, of a name of
/// a type what it stands for.
///
/// # Errors
///
/// The host has too little memory.
pub fn layout_text(alloc: Global, program: &Program, kind: Kind) -> Result<String, AllocError> {
    let Some(number) = program.meant(kind.number) else {
        return kind_text(alloc, program, kind);
    };
    let meant = Kind {
        number,
        range: kind.range,
    };
    let Some(entry) = program.entry(number) else {
        return kind_text(alloc, program, meant);
    };
    if !matches!(entry.tag, STRUCTURE | UNION | ENUMERATION) {
        return kind_text(alloc, program, meant);
    }
    let mut text = String::from_str(alloc, word_of(entry.tag))?;
    if let Some(name) = program.name(number) {
        text.push_str(name)?;
        text.push_str(" ")?;
    }
    text.push_str("{\n")?;
    program.add_inside(alloc, number, entry.depth, &mut text)?;
    text.push_str("}")?;
    Ok(text)
}
