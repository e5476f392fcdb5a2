//! The debugger's words that move a session: they send it events, or take it back.
//!
//! [`step`] sends so many Runs (`specs/motion/Ran.antt`), and none if nobody may run (`specs/motion/Resting.antt`).
//! [`search`] goes by a plan (`specs/motion/Plan.antt`, `specs/motion/Clock.antt`) up to a Run that is what is waited for,
//! types the plan's keys, and takes the bytes that wait in the console (`specs/motion/Reaching.antt`,
//! `specs/motion/Aims.antt`, `specs/motion/Marks.antt`). On a record the plan has its events. It ends if the record has none,
//! nobody may go on, no tick wakes one, and no key is left.
//! [`send_often`], [`type_keys`] and [`play_rounds`]
//! send the other events. [`go_back`] takes the last ones back, [`back_until`] those after the last Run that is the aim
//! (`specs/motion/Backwards.antt`). All but [`type_keys`] ask a `Patience` now and then (`pace.rt`), and end if it is over.
//! Each promises which events the session has got then (`specs/motion/Effects.antt`): no event is sent that isn't kept, and
//! the machine is what they lead to.

mod aiming;
mod backwards;
mod clock;
mod finishing;
mod journey;
mod lines;
mod marks;
mod output;
mod pace;
mod places;
mod plan;
mod resting;
mod rounds;
mod running;
mod searching;
mod sending;
mod stretches;

pub(crate) use aiming::{Aim, aim_in};
pub(crate) use backwards::back_until;
pub(crate) use finishing::finish_aim;
pub(crate) use journey::{Journey, Stop};
pub(crate) use lines::line_aim;
pub(crate) use marks::{is_at_mark, is_store_due};
pub(crate) use output::Output;
pub use plan::Plan;
pub(crate) use rounds::play_rounds;
pub(crate) use running::step;
pub(crate) use searching::search;
pub(crate) use sending::{go_back, send_often, type_keys};
