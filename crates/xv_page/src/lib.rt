//! A session for a host that isn't Rattle, as a web page: calls over numbers and bytes.
//!
//! The host keeps the place of a session, 8 bytes that are 0 before the first boot, and gives it with each call.
//! A call that needs a session, and finds none, says so and changes nothing; so does one that is given a number that
//! names nothing (`specs/Named.antt`). What a call tells is a plain struct: `specs/Told.antt` says what each of its
//! numbers stands for, and the call's contract of what it is told. What the calls leave that change a session is said
//! in `specs/Calls.antt`.
#![tactic(auto)]

mod answers;
mod booting;
mod call_names;
mod lines;
mod named;
mod outcomes;
mod reading;
mod reasons;
mod reports;
mod root;
mod sums;
mod texts;
mod variables;
mod views;
mod writing;

pub use root::xv_page_root;
