//! Where a variable is (DWARF 5, sections 2.6 and 4.1).
ghost use Rattle.std.specs.Prelude.{◌≡◌, true};
ghost use Rattle.debug_info.specs.Places as meant;

use crate::attributes::Program;
use crate::entry::{Entry, InfoUnit};
use crate::expressions::{Context, evaluated};
use crate::list_items::ListKind;
use crate::lists::Listed;
use crate::names::{CONSTANT_VALUE, LOCATION};
use crate::numbers::number_in;
use crate::sight::{Frame, Sight};
use crate::spots::Spot;
use crate::value::{Span, Value};
use crate::variables::Variable;
use std::alloc::{AllocError, Global};

/// Where a variable is.
#[derive(Clone, Copy, Debug, PartialEq, Eq)]
pub enum Place {
    /// In memory, from this address on.
    Memory(u64),
    /// In the register of this number.
    Register(u64),
    /// Nowhere: this is its value.
    Value(u64),
    /// Nowhere: the compiler keeps it for no instruction here, or the linker has left it out.
    OptimizedOut,
    /// The tables tell it in a way that isn't read, or by a register that isn't known.
    Unknown,
}

/// What tells where a variable is.
#[derive(Clone, Copy)]
enum Located<'a> {
    /// This expression.
    By(&'a [u8]),
    /// Nothing else: this is where it is.
    At(Place),
}

/// In which way an attribute tells of a place.
#[derive(Clone, Copy)]
pub(crate) enum Way {
    /// Its entry has none.
    Nowhere,
    /// By an expression, which these bytes are.
    Expression(Span),
    /// By a list.
    List,
    /// By something that isn't read.
    NotRead,
}

/// The way in which an entry tells of a place by an attribute. `is_told`: whether its attributes are read.
fn way_of(is_told: bool, value: Value) -> Way
    ensures { result ≡ meant.way_of is_told value }
{
    match value {
        Value::Absent if is_told => Way::Nowhere,
        Value::Block(span) => Way::Expression(span),
        Value::Place(_) | Value::ListNumber(_) => Way::List,
        _ => Way::NotRead,
    }
}

/// The place of a variable of which an entry tells a constant by these bytes, in its section.
fn constant_in(section: &[u8], span: Span) -> Place
    ensures { result ≡ meant.constant_in section.now span.from span.to }
{
    let Some(bytes) = section.get(span.from..span.to) else {
        return Place::Unknown;
    };
    match number_in(bytes) {
        Some(number) => Place::Value(number),
        None => Place::Unknown,
    }
}

/// The place of a variable whose value an attribute tells; `None` if its entry has none (section 4.1).
fn constant_of(section: &[u8], value: Value) -> Option<Place>
    ensures { result ≡ meant.constant_of section.now value }
{
    match value {
        Value::Absent => None,
        Value::Number(number) => Some(Place::Value(number)),
        Value::Block(span) => Some(constant_in(section, span)),
        _ => Some(Place::Unknown),
    }
}

/// The place that the list of a variable tells, if it tells no expression.
fn listed_place(listed: Listed) -> Place
    ensures { result ≡ meant.listed_place listed }
{
    match listed {
        Listed::Nowhere => Place::OptimizedOut,
        _ => Place::Unknown,
    }
}

impl<'a> Program<'a> {
    /// What the list that a value names tells of a place at an address.
    fn located_by_list(&self, unit: &InfoUnit, value: Value, address: u64) -> Located<'a> {
        let Some(at) = self.list_place(unit, ListKind::Locations, value) else {
            return Located::At(Place::Unknown);
        };
        match self.location_at(unit, at, address) {
            Listed::By(span) => self.by(unit, self.list_bytes(unit, ListKind::Locations), span),
            listed => Located::At(listed_place(listed)),
        }
    }

    /// What an entry tells of its place at an address.
    fn located(&self, unit: &InfoUnit, entry: &Entry, address: u64) -> Located<'a> {
        let value = self.own(entry, LOCATION);
        match way_of(entry.is_told(), value) {
            Way::Nowhere => Located::At(Place::OptimizedOut),
            Way::Expression(span) => self.by(unit, self.sections.info, span),
            Way::List => self.located_by_list(unit, value, address),
            Way::NotRead => Located::At(Place::Unknown),
        }
    }

    /// The expression in these bytes of a section. What the linker has left out is nowhere.
    fn by(&self, unit: &InfoUnit, section: &'a [u8], span: Span) -> Located<'a> {
        let Some(expression) = section.get(span.from..span.to) else {
            return Located::At(Place::Unknown);
        };
        if self.is_left_out(unit, expression) {
            return Located::At(Place::OptimizedOut);
        }
        Located::By(expression)
    }
}

/// Where a variable is in a call.
///
/// # Errors
///
/// The host has too little memory.
pub fn place_at<S: Sight>(
    alloc: Global,
    program: &Program,
    variable: &Variable,
    frame: &Frame,
    sight: &S,
) -> Result<Place, AllocError> {
    let constant = program.value(variable.number, CONSTANT_VALUE);
    if let Some(place) = constant_of(program.sections.info, constant) {
        return Ok(place);
    }
    let Some(entry) = program.entry(variable.number) else {
        return Ok(Place::Unknown);
    };
    let Some(unit) = program.unit(entry.unit) else {
        return Ok(Place::Unknown);
    };
    match program.located(&unit, &entry, frame.address) {
        Located::At(place) => Ok(place),
        Located::By(expression) => {
            let context = Context {
                program: *program,
                unit,
                frame: *frame,
                function: variable.function,
            };
            evaluated(alloc, &context, sight, expression)
        }
    }
}

impl Place {
    /// Where the bytes of a value there are read; `None` if it has none, or its register isn't known.
    pub fn spot<S: Sight>(self, sight: &S) -> Option<Spot>
        ensures { result ≡ meant.spot_of (S.registers sight.now) self }
    {
        match self {
            Place::Memory(address) => Some(Spot::Memory(address)),
            Place::Register(number) => Some(Spot::Number(sight.register(number)?, 0)),
            Place::Value(number) => Some(Spot::Number(number, 0)),
            _ => None,
        }
    }
}
