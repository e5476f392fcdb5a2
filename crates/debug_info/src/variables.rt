//! Variables: those that are in scope at an address, and those of all of the program (DWARF 5, sections 3.3 to 3.5 and
//! 4.1).
ghost use Rattle.std.specs.Prelude.{◌≤◌, IfOk, OnOk, vec_len};

use crate::attributes::Program;
use crate::entry::Entry;
use crate::functions::{Function, function_at};
use crate::names::{DECLARATION, LOCATION};
use crate::tags::{BLOCK, INLINED, PARAMETER, VARIABLE};
use crate::value::Value;
use std::alloc::{AllocError, Global};

/// No more variables are told at once.
const MOST_VARIABLES: usize = 512;

/// What a variable is.
#[derive(Clone, Copy, Debug, PartialEq, Eq)]
pub enum Role {
    /// An argument of a function.
    Argument,
    /// A variable of a function, or of a block of it.
    Local,
    /// A variable of the program.
    Global,
}

/// A variable of a program.
#[derive(Clone, Copy)]
pub struct Variable {
    pub(crate) number: usize,
    /// The function in which it is.
    pub(crate) function: Option<Function>,
    /// The inlined function in which it is.
    pub(crate) inlined: Option<usize>,
    /// What it is.
    pub role: Role,
}

/// What an entry of a function is for somebody who looks for its variables.
#[derive(Clone, Copy)]
enum Found {
    /// A variable.
    Variable(Role),
    /// A function that is inlined there, and has the address.
    Inlined,
    /// A block that has the address, or doesn't tell which it has.
    Block,
    /// Something else, or a block of other addresses: what stands in it is passed over.
    Other,
}

/// A function that is inlined where a search stands.
#[derive(Clone, Copy)]
struct Inlined {
    number: usize,
    /// In how many entries it stands.
    depth: usize,
}

/// Where a search for variables stands.
#[derive(Drop)]
struct Search {
    function: Function,
    /// In how many entries the function stands.
    depth: usize,
    address: u64,
    /// Entries that stand in more than so many are passed over.
    most_depth: usize,
    /// The inlined functions in which it stands, the outermost first.
    inlined: Vec<Inlined>,
}

impl<'a> Program<'a> {
    /// What an entry of a function is at an address.
    fn found_at(&self, entry: &Entry, address: u64) -> Found {
        match entry.tag {
            PARAMETER => Found::Variable(Role::Argument),
            VARIABLE if self.own(entry, DECLARATION).is_absent() => Found::Variable(Role::Local),
            BLOCK if self.may_have(entry, address) => Found::Block,
            INLINED if self.start_of(entry, address).is_some() => Found::Inlined,
            _ => Found::Other,
        }
    }

    /// Whether an entry has a place of its own, which the linker hasn't left out.
    fn has_place(&self, entry: &Entry) -> bool {
        let value = self.own(entry, LOCATION);
        let Value::Block(span) = value else {
            return !value.is_absent();
        };
        let Some(unit) = self.unit(entry.unit) else {
            return false;
        };
        match self.sections.info.get(span.from..span.to) {
            Some(expression) => !self.is_left_out(&unit, expression),
            None => false,
        }
    }

    /// Whether an entry is a variable of the program that has a place.
    fn is_global(&self, entry: &Entry) -> bool {
        entry.tag == VARIABLE
            && entry.depth == 1
            && self.own(entry, DECLARATION).is_absent()
            && self.has_place(entry)
    }
}

impl Search {
    /// Leaves the inlined functions in which an entry of this depth doesn't stand.
    fn leave(&mut self, depth: usize) {
        for _ in 0..self.inlined.len() {
            match self.inlined.last() {
                Some(inner) if depth <= inner.depth => self.inlined.pop(),
                _ => return,
            };
        }
    }

    /// The variable of an entry.
    fn variable(&self, number: usize, role: Role) -> Variable {
        let inlined = match self.inlined.last() {
            Some(inner) => Some(inner.number),
            None => None,
        };
        Variable {
            number,
            function: Some(self.function),
            inlined,
            role,
        }
    }

    /// Looks at an entry that stands in the function; gives the variable that it is.
    fn step(
        &mut self,
        program: &Program,
        number: usize,
        entry: &Entry,
    ) -> Result<Option<Variable>, AllocError> {
        if entry.depth > self.most_depth {
            return Ok(None);
        }
        self.most_depth = usize::MAX;
        self.leave(entry.depth);
        match program.found_at(entry, self.address) {
            Found::Variable(role) => {
                self.most_depth = entry.depth;
                return Ok(Some(self.variable(number, role)));
            }
            Found::Inlined => self.inlined.push(Inlined {
                number,
                depth: entry.depth,
            })?,
            Found::Block => (),
            Found::Other => self.most_depth = entry.depth,
        }
        Ok(None)
    }
}

/// Adds the variables of a function that are in scope at the address.
fn add_locals(
    program: &Program,
    mut search: Search,
    found: &mut Vec<Variable>,
) -> Result<(), AllocError>
    requires { vec_len found.old ≤ 512 }
    ensures { vec_len found.new ≤ 512 }
{
    let count = program.tables.entries.len();
    let from = search.function.number.saturating_add(1).min(count);
    for number in from..count {
        let Some(entry) = program.entry(number) else {
            return Ok(());
        };
        if entry.depth <= search.depth || found.len() >= MOST_VARIABLES {
            return Ok(());
        }
        if let Some(variable) = search.step(program, number, &entry)? {
            found.push(variable)?;
        }
    }
    Ok(())
}

/// The arguments and variables that are in scope at an address, in the order of the tables: those of inner blocks, and
/// of functions that are inlined there, after those of outer ones. There are none if no function has the address, and
/// never more than 512.
///
/// # Errors
///
/// The host has too little memory.
pub fn locals_at(
    alloc: Global,
    program: &Program,
    address: u64,
) -> Result<Vec<Variable>, AllocError>
    ensures { IfOk result (λ found. vec_len found ≤ 512) }
{
    let mut found = Vec::new(alloc);
    let Some(function) = function_at(program, address) else {
        return Ok(found);
    };
    let Some(entry) = program.entry(function.number) else {
        return Ok(found);
    };
    let search = Search {
        function,
        depth: entry.depth,
        address,
        most_depth: usize::MAX,
        inlined: Vec::new(alloc),
    };
    add_locals(program, search, &mut found)?;
    Ok(found)
}

/// The variables of the program that have a place, in the order of the tables: 512 at most.
///
/// # Errors
///
/// The host has too little memory.
pub fn globals(alloc: Global, program: &Program) -> Result<Vec<Variable>, AllocError>
    ensures { IfOk result (λ found. vec_len found ≤ 512) }
{
    let mut found = Vec::new(alloc);
    for number in 0..program.tables.entries.len() {
        let Some(entry) = program.entry(number) else {
            return Ok(found);
        };
        if program.is_global(&entry) && found.len() < MOST_VARIABLES {
            found.push(Variable {
                number,
                function: None,
                inlined: None,
                role: Role::Global,
            })?;
        }
    }
    Ok(found)
}

/// The name of a variable; `None` if it has none, or one that is no text.
pub fn name_of<'a>(program: &Program<'a>, variable: &Variable) -> Option<&'a str> {
    program.name(variable.number)
}

/// The name of the function, inlined where the address is, to which a variable belongs; `None` if it belongs to none.
pub(crate) fn inlined_name<'a>(program: &Program<'a>, variable: &Variable) -> Option<&'a str> {
    program.name(variable.inlined?)
}
