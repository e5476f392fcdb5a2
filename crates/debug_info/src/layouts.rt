//! What the values of types are made of, as plain rows (DWARF 5, sections 5.3, 5.5 and 5.7).
//!
//! The tables are read once. After that, which part of a value is where follows from the rows alone.
use crate::attributes::Program;
use crate::entry::Entry;
use crate::members::MemberPlace;
use crate::tags::{ARRAY, BASE, ENUMERATION, MEMBER, POINTER, STRUCTURE, TYPE_NAME, UNION};
use crate::types::{Kind, MOST_RANGES, is_name};
use crate::variables::Variable;
use std::alloc::{AllocError, Global};

/// The members of a structure are sought among so many entries after its own.
const MOST_MEMBERS: usize = 1024;

/// What the values of a type are, as far as one leads to others.
#[derive(Clone, Copy, Debug, PartialEq, Eq)]
pub enum Shape {
    /// Pointers to values of this type, which have so many bytes each.
    Pointer { to: Kind, size: u64 },
    /// Arrays of values of this type, which have so many bytes each.
    Array { of: Kind, size: u64 },
    /// Structures or unions, with the members of this owner.
    Record { owner: usize },
    /// Others.
    Plain,
}

/// What the values of a type are.
#[derive(Clone, Copy, Debug, PartialEq, Eq)]
pub struct TypeRow {
    /// The type.
    pub kind: Kind,
    /// What its values are.
    pub shape: Shape,
}

/// A member of a structure or a union.
#[derive(Clone, Copy, Debug, PartialEq, Eq)]
pub struct MemberRow<'a> {
    /// The structure or the union.
    pub owner: usize,
    /// Its name.
    pub name: &'a [u8],
    /// Its type.
    pub kind: Kind,
    /// How many bytes stand before it; 0 if that isn't known.
    pub offset: u64,
    /// Whether it has no bytes of its own whose place is known: it has some bits of a number, or the tables tell its place
    /// in a way that isn't read.
    pub is_placeless: bool,
}

/// What the tables tell of types.
#[derive(Drop)]
pub struct Layouts<'a> {
    /// Types whose values lead to others.
    pub types: Vec<TypeRow>,
    /// The members of structures and unions.
    pub members: Vec<MemberRow<'a>>,
}

/// Whether the values of a type of this tag may lead to others.
fn may_lead(tag: u64) -> bool {
    is_name(tag) || matches!(tag, ARRAY | POINTER | STRUCTURE | UNION)
}

impl<'a> Program<'a> {
    /// What the values are that a pointer leads to.
    fn pointed(&self, number: usize) -> Option<Shape> {
        let to = Kind::of(self.kind(number)?);
        let size = self.size(to)?;
        Some(Shape::Pointer { to, size })
    }

    /// What the elements of an array are.
    fn contained(&self, kind: Kind) -> Option<Shape> {
        let of = self.element(kind)?;
        let size = self.size(of)?;
        Some(Shape::Array { of, size })
    }

    /// What the values of a type are; plain, if the tables don't tell more.
    fn shape(&self, kind: Kind) -> Shape {
        let Some(number) = self.meant(kind.number) else {
            return Shape::Plain;
        };
        let Some(entry) = self.entry(number) else {
            return Shape::Plain;
        };
        let range = kind.range;
        match entry.tag {
            POINTER => self.pointed(number).unwrap_or(Shape::Plain),
            ARRAY => self
                .contained(Kind { number, range })
                .unwrap_or(Shape::Plain),
            STRUCTURE | UNION => Shape::Record { owner: number },
            _ => Shape::Plain,
        }
    }

    /// The member of an entry.
    fn member_row(&self, owner: usize, number: usize) -> Option<MemberRow<'a>> {
        let (offset, is_placeless) = match self.member_place(number) {
            MemberPlace::Bytes(offset) => (offset, false),
            MemberPlace::Bits(_) | MemberPlace::NotRead => (0, true),
        };
        Some(MemberRow {
            owner,
            name: self.name(number)?.as_bytes(),
            kind: Kind::of(self.kind(number)?),
            offset,
            is_placeless,
        })
    }

    /// The type of a variable.
    pub fn type_of(&self, variable: &Variable) -> Option<Kind> {
        Some(Kind::of(self.kind(variable.number)?))
    }

    /// How many bytes a number has, if the values of a type are numbers.
    pub fn number_size(&self, kind: Kind) -> Option<u64> {
        let number = self.meant(kind.number)?;
        let entry = self.entry(number)?;
        match entry.tag {
            BASE | POINTER | ENUMERATION => self.size(kind),
            _ => None,
        }
    }

    /// Whether an entry is the type of a name: a structure, a union or an enumeration after its word, or else a name of a
    /// type or a base type.
    fn is_type_named(&self, number: usize, entry: &Entry, word: &str, name: &str) -> bool {
        let is_kind = match word {
            "struct" => entry.tag == STRUCTURE,
            "union" => entry.tag == UNION,
            "enum" => entry.tag == ENUMERATION,
            _ => matches!(entry.tag, TYPE_NAME | BASE),
        };
        is_kind && self.name(number) == Some(name)
    }

    /// The first type of this name: after `struct`, `union` or `enum` one of these, and else a name of a type.
    pub fn type_named(&self, word: &str, name: &str) -> Option<Kind> {
        for number in 0..self.tables.entries.len() {
            let entry = self.entry(number)?;
            if self.is_type_named(number, &entry, word, name) {
                return Some(Kind::of(number));
            }
        }
        None
    }
}

impl<'a> Layouts<'a> {
    /// Adds what the values of a type are: of an array of several ranges what those of each range are.
    fn add_type(
        &mut self,
        program: &Program<'a>,
        number: usize,
        entry: &Entry,
    ) -> Result<(), AllocError> {
        let ranges = if entry.tag == ARRAY { MOST_RANGES } else { 1 };
        for range in 0..ranges {
            if range > 0 && program.range_of(number, range).is_none() {
                return Ok(());
            }
            let kind = Kind { number, range };
            self.types.push(TypeRow {
                kind,
                shape: program.shape(kind),
            })?;
        }
        Ok(())
    }

    /// Adds the members of a structure or a union.
    fn add_members(
        &mut self,
        program: &Program<'a>,
        owner: usize,
        depth: usize,
    ) -> Result<(), AllocError> {
        for distance in 1..=MOST_MEMBERS {
            let number = owner.saturating_add(distance);
            let Some(entry) = program.entry(number) else {
                return Ok(());
            };
            if entry.depth <= depth {
                return Ok(());
            }
            if entry.tag == MEMBER && entry.depth == depth.saturating_add(1) {
                if let Some(row) = program.member_row(owner, number) {
                    self.members.push(row)?;
                }
            }
        }
        Ok(())
    }

    /// Adds what an entry tells, if it is a type.
    fn add(
        &mut self,
        program: &Program<'a>,
        number: usize,
        entry: &Entry,
    ) -> Result<(), AllocError> {
        if may_lead(entry.tag) {
            self.add_type(program, number, entry)?;
        }
        if matches!(entry.tag, STRUCTURE | UNION) {
            return self.add_members(program, number, entry.depth);
        }
        Ok(())
    }
}

/// What the tables tell of types.
///
/// # Errors
///
/// The host has too little memory.
pub fn layouts_of<'a>(alloc: Global, program: &Program<'a>) -> Result<Layouts<'a>, AllocError> {
    let mut layouts = Layouts {
        types: Vec::new(alloc),
        members: Vec::new(alloc),
    };
    for number in 0..program.tables.entries.len() {
        let Some(entry) = program.entry(number) else {
            return Ok(layouts);
        };
        layouts.add(program, number, &entry)?;
    }
    Ok(layouts)
}
