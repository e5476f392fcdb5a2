//! GDB's remote serial protocol, without any machine: its packets, what they ask for, and the forms of answers
//! (GDB manual, appendix "GDB Remote Serial Protocol").
//!
//! [`PacketReader`] makes packets of single bytes, so it is all the same where the input was cut; [`packet`] writes
//! one; [`parse`] says what a payload asks for. What a packet is stands in `specs/Packets.antt`, what is asked for
//! in `specs/Commands.antt`, and what is answered in `specs/Answers.antt`.
#![tactic(auto)]

mod answers;
mod command;
mod digits;
mod framing;
pub mod laws;
mod packet_text;
mod query;
mod reader;

pub use answers::{
    Stop, StopReason, console, current_thread, exited, hex_bytes, no_resumed, part, refusal,
    stepped_to, stop_reply, thread_list,
};
pub use command::{Command, Point, Resume, Thread, parse};
pub use framing::packet;
pub use query::{Document, View};
pub use reader::{PacketReader, Phase, Piece};
