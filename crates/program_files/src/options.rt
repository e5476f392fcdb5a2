//! Options that programs here have in common.
use xk_base::limits::{FRAMES_MAX, FRAMES_MIN, TRACE_MAX};

/// The most rounds that may be asked for.
const ROUNDS_MAX: u32 = 1_000_000_000;

/// The most Run events in a round that may be asked for.
const QUANTUM_MAX: u32 = 1_000_000;

/// An option that takes a number.
pub struct NumberOption {
    /// Its word, without the two hyphens.
    pub name: &'static str,
    pub help: &'static str,
    /// The number, as text, if the option isn't given.
    pub default: &'static str,
    pub least: u32,
    pub most: u32,
}

/// `--frames`: frames of RAM.
pub const FRAMES: NumberOption = NumberOption {
    name: "frames",
    help: "Frames of RAM, 4096 bytes each: 16 to 32768",
    default: "4096",
    least: FRAMES_MIN,
    most: FRAMES_MAX,
};

/// `--rounds`: the most rounds that are made.
pub const ROUNDS: NumberOption = NumberOption {
    name: "rounds",
    help: "The most rounds that are made: 0 to 1000000000",
    default: "100000",
    least: 0,
    most: ROUNDS_MAX,
};

/// `--quantum`: the events Run in each round.
pub const QUANTUM: NumberOption = NumberOption {
    name: "quantum",
    help: "Run events in each round: 1 to 1000000",
    default: "1000",
    least: 1,
    most: QUANTUM_MAX,
};

/// `--trace`: the last events that are shown at the end.
pub const TRACE: NumberOption = NumberOption {
    name: "trace",
    help: "The last events to show at the end: 0 to 65536",
    default: "0",
    least: 0,
    most: TRACE_MAX,
};
