//! The console: the line that is being typed, the lines that may be read, and the bytes that wait
//! to be sent (the xv6 book, "Code: Console input" and "Code: Console output").
//!
//! Contracts see a console as three lists of bytes, `Console` of `specs/Lists.antt`. What a key
//! does is the table of `specs/Keys.antt`, what a read takes is `specs/Reads.antt`.
#![tactic(auto)]

mod keys;
mod rings;

pub use keys::Echo;
pub use rings::{Console, ConsoleList, Pull};
