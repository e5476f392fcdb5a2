//! The debugger: words that look into a session and move it, each answered by one screen of text.
//!
//! A [`Debugger`] obeys lines of words (`debug_words` reads them). What a word does to the session is `Does` of
//! `specs/Effects.antt`: words that look leave it as it was, and the others send events up to what they wait for, or
//! go back. They do so by the functions of `motion.rt`, each of which promises by `specs/motion` which events it sends.
//! A debugger reads and writes nothing of the host: the lines come from its caller, and the answers go to it. A word that
//! runs long asks its caller now and then whether it is to be broken off ([`Patience`]). What a debugger shows comes from
//! calls that are proved to tell what the machine holds (`debug_views`, `xv_report`).
#![tactic(auto)]

mod callers;
mod calls;
mod choosing;
mod debugger;
mod displays;
mod focus;
mod frame_words;
mod happened;
mod instruction;
mod kept;
mod looks;
mod motion;
mod names;
mod pipes;
mod processes;
mod reasons;
mod shown_output;
mod stops;
mod stores;
mod variables;
mod waits;

pub use debugger::{Debugger, Next};
pub use motion::Plan;
pub use xv_session::{Endless, Patience};
