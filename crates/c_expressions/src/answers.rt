//! What is told of variables and types, in the style of GDB (Debugging with GDB, "Examining Data" and "Examining the
//! Symbol Table").
ghost use Rattle.std.specs.Prelude.{IfOk, option_map, string_bytes};
ghost use Rattle.c_expressions.specs.Answers.{AreRowsOf, IsAnswer, IsOfNothing, IsToldBy, IsValueLine, MayBeTold};

use crate::asked::Asked;
use crate::finding::{Found, found_in, variable_named};
use crate::rows::{Rows, VariableRow};
use crate::selection::{Subject, value_at};
use crate::tables::CallTables;
use crate::telling::{refused_line, value_line};
use debug_info::{
    Frame, InfoError, Kind, Place, Program, Role, Sight, Spot, Variable, frame_at, globals,
    has_function, kind_text, layout_text, layouts_of, locals_at, name_of, place_at, placeless_text,
    pointer_text, read_tables, spot_text,
};
use std::alloc::{AllocError, Global};

/// A call of a program, with what is known of the program.
#[derive(Clone, Copy)]
pub struct Scene<'a, S> {
    /// The file that has the compiler's tables.
    pub file: &'a [u8],
    /// Where the call stands.
    pub address: u64,
    /// The memory, and the registers of the call.
    pub sight: &'a S,
}

/// A call of a program whose tables are read.
#[derive(Clone, Copy)]
struct Call<'a, S> {
    /// The file that has the tables.
    file: &'a [u8],
    program: Program<'a>,
    frame: Frame,
    sight: &'a S,
}

/// What is told in place of variables, if no table tells of them.
const NO_TABLES: &str = "no function is here of which the compiler's tables tell variables\n";

/// What is told in place of a type that isn't there.
const NO_TYPE: &str = "<unknown type>";

impl<'a, S: Sight> Call<'a, S> {
    /// The rows of variables, in their order.
    fn variable_rows(
        &self,
        alloc: Global,
        variables: &[Variable],
    ) -> Result<Vec<VariableRow<'a>>, AllocError> {
        let mut rows = Vec::new(alloc);
        for variable in variables {
            rows.push(VariableRow {
                name: name_of(&self.program, variable).unwrap_or("").as_bytes(),
                kind: self.program.type_of(variable),
                place: place_at(alloc, &self.program, variable, &self.frame, self.sight)?,
                role: variable.role,
            })?;
        }
        Ok(rows)
    }

    /// The text of a type of a value, or of its address.
    fn type_text(
        &self,
        alloc: Global,
        subject: Subject,
        is_whole: bool,
    ) -> Result<String, AllocError> {
        if subject.is_address {
            return pointer_text(alloc, &self.program, subject.kind);
        }
        self.kind_text(alloc, subject.kind, is_whole)
    }

    /// The text of a type; of a whole one with all that it has.
    fn kind_text(&self, alloc: Global, kind: Kind, is_whole: bool) -> Result<String, AllocError> {
        if is_whole {
            return layout_text(alloc, &self.program, kind);
        }
        kind_text(alloc, &self.program, kind)
    }

    /// Adds the line of a variable.
    fn add_line(
        &self,
        alloc: Global,
        variable: &Variable,
        text: &mut String,
    ) -> Result<(), AllocError> {
        let name = name_of(&self.program, variable).unwrap_or("?");
        let place = place_at(alloc, &self.program, variable, &self.frame, self.sight)?;
        let value = self.placed_text(alloc, self.program.type_of(variable), place)?;
        let value = value.as_str();
        writeln!(text, "{name} = {value}")
    }

    /// The text of the value of a type that is at a place.
    fn placed_text(
        &self,
        alloc: Global,
        kind: Option<Kind>,
        place: Place,
    ) -> Result<String, AllocError> {
        let Some(spot) = place.spot(self.sight) else {
            return String::from_str(alloc, placeless_text(place));
        };
        match kind {
            Some(kind) => spot_text(alloc, &self.program, kind, spot, self.sight),
            None => String::from_str(alloc, NO_TYPE),
        }
    }

    /// The lines of the variables of a role; `None` if no function of the tables has the place.
    fn lines(&self, alloc: Global, role: Role, none: &str) -> Result<Option<String>, AllocError> {
        if !has_function(&self.program, self.frame.address) {
            return Ok(None);
        }
        let mut text = String::new(alloc);
        let variables = locals_at(alloc, &self.program, self.frame.address)?;
        for variable in variables.as_slice() {
            if variable.role == role {
                self.add_line(alloc, variable, &mut text)?;
            }
        }
        if text.is_empty() {
            text.push_str(none)?;
        }
        Ok(Some(text))
    }

    /// What the expression of a text is about, if its type is asked for: that of a variable alone is known wherever it is.
    fn type_of(&self, alloc: Global, text: &str) -> Result<Option<Found>, AllocError> {
        let rows = self.rows(alloc)?;
        let variable = variable_named(alloc, &rows, text.as_bytes())?;
        match variable.and_then(|row| row.kind) {
            Some(kind) => Ok(Some(Found::Subject(value_at(kind, Spot::Memory(0))))),
            None => found_in(alloc, &rows, self.sight, text),
        }
    }

    /// The line of the type of an expression, or of a type by its name.
    fn type_line(
        &self,
        alloc: Global,
        text: &str,
        is_whole: bool,
    ) -> Result<Option<String>, AllocError> {
        let (word, name) = text.split_once(' ').unwrap_or(("", text));
        let kind = match self.program.type_named(word, name.trim()) {
            Some(kind) => self.kind_text(alloc, kind, is_whole)?,
            None => match self.type_of(alloc, text)? {
                Some(Found::Subject(subject)) => self.type_text(alloc, subject, is_whole)?,
                Some(Found::Placeless(place)) => String::from_str(alloc, placeless_text(place))?,
                Some(Found::Refused(refusal)) => return refused_line(alloc, text, refusal),
                None => return Ok(None),
            },
        };
        let kind = kind.as_str();
        Ok(Some(format!(in alloc; "type = {kind}\n")?))
    }

    /// The line of the value of an expression; `None` if the tables tell nothing of it.
    fn value_line(
        &self,
        alloc: Global,
        text: &str,
        is_hexadecimal: bool,
    ) -> Result<Option<String>, AllocError>
        ensures { IfOk result (λ line. IsValueLine self.now.file.now self.now.frame.address (S.registers self.now.sight.now) (S.bytes self.now.sight.now)
            is_hexadecimal text.now (option_map string_bytes line)) }
    {
        let line = value_line(alloc, self, self.sight, text, is_hexadecimal)?;
        Ok(line)
    }

    /// What is told of what is asked; `None` if it is of nothing that the tables tell.
    fn answer(&self, alloc: Global, asked: Asked) -> Result<Option<String>, AllocError>
        ensures { IfOk result (λ line. IsToldBy self.now.file.now self.now.frame.address (S.registers self.now.sight.now) (S.bytes self.now.sight.now)
            asked.entry (option_map string_bytes line)) }
    {
        match asked {
            Asked::Value(text) => {
                let line = self.value_line(alloc, text, false)?;
                Ok(line)
            }
            Asked::Hexadecimal(text) => {
                let line = self.value_line(alloc, text, true)?;
                Ok(line)
            }
            Asked::Locals => self.lines(alloc, Role::Local, "no local variables\n"),
            Asked::Arguments => self.lines(alloc, Role::Argument, "no arguments\n"),
            Asked::Type(text) => self.type_line(alloc, text, false),
            Asked::Layout(text) => self.type_line(alloc, text, true),
        }
    }
}

impl<'a, S: Sight> CallTables for Call<'a, S> {
    ghost AreRows = { λ call rows. AreRowsOf call.file.now call.frame.address rows };

    ghost IsValue = { λ _ _ _ _. Unit {0} };

    ghost IsPointer = { λ _ _ _. Unit {0} };

    ghost IsNumberSize = { λ _ _ _. Unit {0} };

    fn rows(&self, alloc: Global) -> Result<Rows<'_>, AllocError> {
        let locals = locals_at(alloc, &self.program, self.frame.address)?;
        let others = globals(alloc, &self.program)?;
        Ok(Rows {
            file: self.file,
            address: self.frame.address,
            locals: self.variable_rows(alloc, locals.as_slice())?,
            globals: self.variable_rows(alloc, others.as_slice())?,
            layouts: layouts_of(alloc, &self.program)?,
        })
    }

    fn value_text(&self, alloc: Global, kind: Kind, spot: Spot) -> Result<String, AllocError> {
        spot_text(alloc, &self.program, kind, spot, self.sight)
    }

    fn pointer_text(&self, alloc: Global, kind: Kind) -> Result<String, AllocError> {
        pointer_text(alloc, &self.program, kind)
    }

    fn number_size(&self, kind: Kind) -> Option<u64> {
        self.program.number_size(kind)
    }
}

/// What is told of what is asked, if the tables tell nothing of it; `None` if something else than the tables may.
fn told_of_nothing(alloc: Global, asked: Asked) -> Result<Option<String>, AllocError>
    ensures { IfOk result (λ line. IsOfNothing asked.entry (option_map string_bytes line)) }
{
    match asked {
        Asked::Type(text) | Asked::Layout(text) => Ok(Some(format!(in alloc;
            "{text} is no variable and no type that is known here\n"
        )?)),
        Asked::Locals | Asked::Arguments => Ok(Some(String::from_str(alloc, NO_TABLES)?)),
        _ => Ok(None),
    }
}

/// What is told of what is asked of a program in C, by the compiler's tables in its file; `None` if that is a value of
/// nothing that they tell.
///
/// # Errors
///
/// The host has too little memory.
pub fn answer<S: Sight>(
    alloc: Global,
    scene: &Scene<S>,
    asked: Asked,
) -> Result<Option<String>, AllocError>
    ensures { IfOk result (λ line. IsAnswer scene.now.file.now scene.now.address (S.registers scene.now.sight.now) (S.bytes scene.now.sight.now)
        asked.entry (option_map string_bytes line)) }
{
    match answer_by_tables(alloc, scene, asked)? {
        Some(text) => Ok(Some(text)),
        None => {
            let told = told_of_nothing(alloc, asked)?;
            Ok(told)
        }
    }
}

/// What the tables tell of what is asked; `None` if that is nothing, if there are none, or if they aren't understood.
fn answer_by_tables<S: Sight>(
    alloc: Global,
    scene: &Scene<S>,
    asked: Asked,
) -> Result<Option<String>, AllocError>
    ensures { IfOk result (λ line. MayBeTold scene.now.file.now scene.now.address (S.registers scene.now.sight.now) (S.bytes scene.now.sight.now)
        asked.entry (option_map string_bytes line)) }
{
    let tables = match read_tables(alloc, scene.file) {
        Ok(tables) => tables,
        Err(InfoError::Memory) => return Err(AllocError),
        Err(_) => return Ok(None),
    };
    let frame = frame_at(alloc, scene.file, scene.address, scene.sight)?;
    let call = Call {
        file: scene.file,
        program: Program::of(&tables, scene.file),
        frame,
        sight: scene.sight,
    };
    let told = call.answer(alloc, asked)?;
    Ok(told)
}
