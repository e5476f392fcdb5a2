//! The debugger's words that look at one part of a machine: registers, memory, pages, frames, descriptors, the
//! console, and the events that there were.
//!
//! Each `show_` function writes one screen of text behind an answer. What it shows comes from calls of the machine,
//! which are proved to tell what it holds, and from functions here whose contracts say what they make of these
//! answers: the runs of pages that are alike (`specs/PageRuns.antt`), the uses of frames (`specs/FrameLists.antt`),
//! bytes (`specs/Bytes.antt`), processes and their programs (`specs/Focus.antt`). Which bytes are written stands in
//! `specs/*Text.antt`; only how a note of the trace is written is tested.
#![tactic(auto)]

mod console;
mod descriptors;
mod focus;
mod frame_uses;
mod frames;
mod history;
mod memory;
mod numbers;
mod page_runs;
mod pages;
mod registers;

pub use console::show_console;
pub use descriptors::show_descriptors;
pub use focus::{least_from, lives, program_name, program_of};
pub use frames::show_frames;
pub use history::{show_events, show_trace};
pub use memory::show_memory;
pub use numbers::{show_numbers, show_value};
pub use pages::show_pages;
pub use registers::show_registers;
