//! A machine that is attended to live, as a person at a terminal does: keys go in as they are typed, what the machine
//! sends comes out at once, and the clock ticks by a clock outside.
//!
//! [`attend`] does so with a session (`xv_session`), a [`Host`], which has the keyboard and the clock, and a [`Screen`].
//! [`play`] plays the events of a record (`xv_record`). What is promised of both is `Shown` of `specs/Shown.antt`: the
//! session keeps each event that the machine got, and what these events show, and nothing else, is on the screen, in
//! order. A [`Recorder`] keeps the record of a session in a file while it is attended to: behind each turn of the loop the
//! file is a whole record of what the session got (`specs/Keeps.antt`). That a rest comes only after that is tested.
//!
//! Nothing here touches a host: what is read and written goes by the traits that the caller gives.
#![tactic(auto)]

mod attending;
mod events;
mod host;
mod keeping;
mod keys;
mod pauses;
mod pending;
mod playing;
mod recorder;
mod recording;
mod resting;
mod screen;

pub use attending::attend;
pub use host::{Host, Look};
pub use keeping::Recording;
pub use keys::Key;
pub use pauses::Pause;
pub use pending::Pending;
pub use playing::play;
pub use recorder::Recorder;
pub use screen::{FaultNote, Screen, Teller};
