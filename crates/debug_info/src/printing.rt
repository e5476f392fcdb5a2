//! Values as text, in the style of GDB (Debugging with GDB, "Examining Data").
ghost use Rattle.std.specs.Prelude.{◌≡◌, IfOk, option_map, string_bytes};
ghost use Rattle.debug_info.specs.Texts as meant;

use crate::attributes::Program;
use crate::entry::Entry;
use crate::members::MemberPlace;
use crate::places::Place;
use crate::scalars::{Field, NOT_KNOWN, UNKNOWN};
use crate::sight::Sight;
use crate::spots::Spot;
use crate::tags::{ARRAY, BASE, ENUMERATION, FUNCTION_TYPE, MEMBER, POINTER, STRUCTURE, UNION};
use crate::texts::{MOST_SHOWN, add_text};
use crate::types::Kind;
use crate::variables::Variable;
use std::alloc::{AllocError, Global};

/// A value takes no more steps: one for each number, text, member or element.
const MOST_STEPS: u32 = 2048;

/// Values in values are shown no deeper than this.
const MOST_DEPTH: u32 = 8;

/// No more bytes of a text are made, but for the last number or text.
const MOST_BYTES: usize = 4096;

/// What is told of a value that the compiler keeps nowhere.
const OPTIMIZED_OUT: &str = "<optimized out>";

/// What is left to show.
#[derive(Clone, Copy)]
enum Task {
    /// A value.
    Value(Value),
    /// The members of a structure or a union.
    Members(Members),
    /// The elements of an array.
    Elements(Elements),
}

/// A value that begins at a place.
#[derive(Clone, Copy)]
struct Value {
    kind: Kind,
    spot: Spot,
    /// In how many values it stands.
    depth: u32,
}

/// The members of a structure or a union, from an entry on.
#[derive(Clone, Copy)]
struct Members {
    number: usize,
    /// In how many entries the structure stands.
    owner_depth: usize,
    spot: Spot,
    is_first: bool,
    depth: u32,
}

/// The elements of an array, from one on.
#[derive(Clone, Copy)]
struct Elements {
    element: Value,
    size: u64,
    left: u64,
    shown: u64,
}

/// A text that is made, and what is left to show of it.
#[derive(Drop)]
struct Printer<'a, 'p, S> {
    program: Program<'a>,
    sight: &'p S,
    text: String,
    tasks: Vec<Task>,
}

impl<'a, 'p, S: Sight> Printer<'a, 'p, S> {
    /// Shows a number of a type, and the text to which a pointer leads.
    fn number(&mut self, kind: usize, spot: Spot) -> Result<(), AllocError> {
        let Some(size) = self.program.size(Kind::of(kind)) else {
            return self.text.push_str(UNKNOWN);
        };
        self.program
            .add_value(&mut self.text, self.sight, kind, spot, size)?;
        if !self.program.leads_to_text(kind) {
            return Ok(());
        }
        match spot.number(self.sight, size) {
            None | Some(0) => Ok(()),
            Some(address) => {
                self.text.push_str(" ")?;
                add_text(&mut self.text, self.sight, Spot::Memory(address), u64::MAX)
            }
        }
    }

    /// Begins an array: a text, or its elements.
    fn array(&mut self, value: Value) -> Result<(), AllocError> {
        let program = self.program;
        let Some(count) = program.count(value.kind) else {
            return self.text.push_str("<unknown length>");
        };
        let Some(kind) = program.element(value.kind) else {
            return self.text.push_str(UNKNOWN);
        };
        if program.is_character(kind) {
            return add_text(&mut self.text, self.sight, value.spot, count);
        }
        let Some(size) = program.size(kind) else {
            return self.text.push_str(UNKNOWN);
        };
        let element = Value {
            kind,
            spot: value.spot,
            depth: value.depth.saturating_add(1),
        };
        self.text.push_str("{")?;
        self.tasks.push(Task::Elements(Elements {
            element,
            size,
            left: count,
            shown: 0,
        }))?;
        Ok(())
    }

    /// Begins the members of a structure or a union.
    fn members(&mut self, number: usize, entry: &Entry, value: Value) -> Result<(), AllocError> {
        self.text.push_str("{")?;
        self.tasks.push(Task::Members(Members {
            number: number.saturating_add(1),
            owner_depth: entry.depth,
            spot: value.spot,
            is_first: true,
            depth: value.depth.saturating_add(1),
        }))?;
        Ok(())
    }

    /// Shows a value, or begins it.
    fn value(&mut self, value: Value) -> Result<(), AllocError> {
        let Some(number) = self.program.meant(value.kind.number) else {
            return self.text.push_str(UNKNOWN);
        };
        let Some(entry) = self.program.entry(number) else {
            return self.text.push_str(UNKNOWN);
        };
        match entry.tag {
            BASE | POINTER | ENUMERATION => self.number(number, value.spot),
            ARRAY | STRUCTURE | UNION if value.depth >= MOST_DEPTH => self.text.push_str("{...}"),
            ARRAY => {
                let kind = Kind {
                    number,
                    range: value.kind.range,
                };
                self.array(Value { kind, ..value })
            }
            STRUCTURE | UNION => self.members(number, &entry, value),
            FUNCTION_TYPE => self.text.push_str("<function>"),
            _ => self.text.push_str(UNKNOWN),
        }
    }

    /// Shows the next element of an array, or ends it.
    fn next_element(&mut self, it: Elements) -> Result<(), AllocError> {
        if it.left == 0 {
            return self.text.push_str("}");
        }
        if it.shown >= MOST_SHOWN {
            return self.text.push_str("...}");
        }
        if it.shown > 0 {
            self.text.push_str(", ")?;
        }
        let next = Value {
            spot: it.element.spot.after(it.size),
            ..it.element
        };
        self.tasks.push(Task::Elements(Elements {
            element: next,
            left: it.left.saturating_sub(1),
            shown: it.shown.saturating_add(1),
            ..it
        }))?;
        self.tasks.push(Task::Value(it.element))?;
        Ok(())
    }

    /// Looks at the next entry of a structure: a member is shown, and others are passed over.
    fn next_member(&mut self, it: Members) -> Result<(), AllocError> {
        let Some(entry) = self.program.entry(it.number) else {
            return self.text.push_str("}");
        };
        if entry.depth <= it.owner_depth {
            return self.text.push_str("}");
        }
        let is_member = entry.tag == MEMBER && entry.depth == it.owner_depth.saturating_add(1);
        self.tasks.push(Task::Members(Members {
            number: it.number.saturating_add(1),
            is_first: it.is_first && !is_member,
            ..it
        }))?;
        if !is_member {
            return Ok(());
        }
        if !it.is_first {
            self.text.push_str(", ")?;
        }
        if let Some(name) = self.program.name(it.number) {
            self.text.push_str(name)?;
            self.text.push_str(" = ")?;
        }
        self.member(it)
    }

    /// Shows a member.
    fn member(&mut self, it: Members) -> Result<(), AllocError> {
        let Some(number) = self.program.kind(it.number) else {
            return self.text.push_str(UNKNOWN);
        };
        match self.program.member_place(it.number) {
            MemberPlace::Bytes(place) => self.tasks.push(Task::Value(Value {
                kind: Kind::of(number),
                spot: it.spot.after(place),
                depth: it.depth,
            }))?,
            MemberPlace::Bits(field) => self.bits(it.spot, number, field)?,
            MemberPlace::NotRead => self.text.push_str(NOT_KNOWN)?,
        }
        Ok(())
    }

    /// Shows a member of so many bits, in a structure that begins at a place.
    fn bits(&mut self, spot: Spot, kind: usize, field: Field) -> Result<(), AllocError> {
        let Some(kind) = self.program.meant(kind) else {
            return self.text.push_str(UNKNOWN);
        };
        self.program
            .add_bits(&mut self.text, self.sight, kind, spot, field)
    }

    /// Makes a step.
    fn step(&mut self, task: Task) -> Result<(), AllocError> {
        match task {
            Task::Value(value) => self.value(value),
            Task::Members(members) => self.next_member(members),
            Task::Elements(elements) => self.next_element(elements),
        }
    }

    /// Makes the steps that are left; what takes too many, or gives too long a text, ends in dots.
    fn run(&mut self) -> Result<(), AllocError> {
        for _ in 0..MOST_STEPS {
            if self.text.len() > MOST_BYTES {
                break;
            }
            let Some(task) = self.tasks.pop() else {
                return Ok(());
            };
            self.step(task)?;
        }
        self.text.push_str("...")
    }
}

/// What is told in place of a value that has no bytes: it is nowhere, or its place or its register isn't known.
fn placeless<S: Sight>(place: Place, sight: &S) -> Option<&'static str>
    ensures { option_map (λ said. said.now) result ≡ meant.placeless_text (S.registers sight.now) place }
{
    match place {
        Place::OptimizedOut => Some(OPTIMIZED_OUT),
        Place::Unknown => Some(NOT_KNOWN),
        Place::Register(number) => match sight.register(number) {
            Some(_) => None,
            None => Some(NOT_KNOWN),
        },
        Place::Memory(_) | Place::Value(_) => None,
    }
}

/// What is told in place of a value whose place gives no bytes.
pub fn placeless_text(place: Place) -> &'static str
    ensures { result.now ≡ meant.told_placeless place }
{
    match place {
        Place::OptimizedOut => OPTIMIZED_OUT,
        _ => NOT_KNOWN,
    }
}

/// The value of a variable that is at a place, as text in the style of GDB.
///
/// # Errors
///
/// The host has too little memory.
pub(crate) fn value_text<S: Sight>(
    alloc: Global,
    program: &Program,
    variable: &Variable,
    place: Place,
    sight: &S,
) -> Result<String, AllocError>
    ensures { IfOk result (λ text.
        meant.IsText (meant.placeless_text (S.registers sight.now) place) (string_bytes text)) }
{
    if let Some(said) = placeless(place, sight) {
        return String::from_str(alloc, said);
    }
    let Some(spot) = place.spot(sight) else {
        return String::from_str(alloc, NOT_KNOWN);
    };
    let Some(number) = program.kind(variable.number) else {
        return String::from_str(alloc, UNKNOWN);
    };
    spot_text(alloc, program, Kind::of(number), spot, sight)
}

/// The value of a type whose bytes begin at a place, as text in the style of GDB.
///
/// # Errors
///
/// The host has too little memory.
pub fn spot_text<S: Sight>(
    alloc: Global,
    program: &Program,
    kind: Kind,
    spot: Spot,
    sight: &S,
) -> Result<String, AllocError> {
    let mut printer = Printer {
        program: *program,
        sight,
        text: String::new(alloc),
        tasks: Vec::new(alloc),
    };
    printer.tasks.push(Task::Value(Value {
        kind,
        spot,
        depth: 0,
    }))?;
    printer.run()?;
    let Printer { text, .. } = printer;
    Ok(text)
}
