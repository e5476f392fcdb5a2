//! Reads the tables by which a compiler tells of a program's functions, variables and types (DWARF Debugging
//! Information Format, versions 4 and 5), of any bytes.
//!
//! [`read_tables`] goes once through `.debug_info`. [`locals_at`] gives the arguments and locals that are in scope at
//! an address, [`globals`] the program's variables. [`rows_text`] tells of them what a person wants to read: names,
//! types and values. The bytes of a value come from the caller, by [`Sight`].
//!
//! A table may hold anything, so each place is tested before it is read. What isn't understood is told as such. Each
//! function takes time in proportion to the bytes of the tables, or to a number that it names.
#![tactic(auto)]

mod abbreviations;
mod attributes;
mod entries;
mod entry;
mod expressions;
mod fault;
mod form;
mod frames;
mod functions;
mod layouts;
mod list_items;
mod lists;
mod members;
mod names;
mod numbers;
mod operations;
mod places;
mod printing;
mod ranges;
mod rows;
mod scalars;
mod sections;
mod sight;
mod spots;
mod tables;
mod tags;
mod texts;
mod type_names;
mod types;
mod units;
mod value;
mod variables;

pub use attributes::Program;
pub use entry::Tables;
pub use fault::InfoError;
pub use frames::frame_at;
pub use functions::has_function;
pub use layouts::{Layouts, MemberRow, Shape, TypeRow, layouts_of};
pub use places::{Place, place_at};
pub use printing::{placeless_text, spot_text};
pub use rows::rows_text;
pub use sight::{Frame, Sight};
pub use spots::Spot;
pub use tables::read_tables;
pub use type_names::{kind_text, layout_text, pointer_text};
pub use types::{Kind, POINTER_SIZE};
pub use variables::{Role, Variable, globals, locals_at, name_of};
