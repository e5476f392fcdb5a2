//! What is there for speed alone: it sends the events that are sent otherwise too.
mod over_ticks;
