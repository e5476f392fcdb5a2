//! What is there for speed alone: its contracts are those of the plain ways.
mod kept_turns;
