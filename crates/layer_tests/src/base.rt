//! The texts of errors that no story and no check of whole programs shows.
use std::fmt::Display;
use std::process::Abort;
use xk_base::{BadAddress, BootError, ExecError, NoFrames, NoSlot};

/// Compares an error's text with its name.
fn meet<R: Abort + AllocGlobal, E: Display>(rt: &R, error: &E, name: &str) {
    let told = format!(in rt.alloc(); "{error}").expect(rt, "memory");
    assert!(rt; told.as_str() == name, "{told} isn't {name}");
}

#[test]
fn errors_are_told_by_name(rt: HostRuntime) {
    meet(&rt, &ExecError::TooManyArgs, "TooManyArgs");
    meet(&rt, &ExecError::ArgsTooLong, "ArgsTooLong");
    meet(&rt, &BootError::Memory, "Memory");
    meet(&rt, &NoFrames, "NoFrames");
    meet(&rt, &BadAddress, "BadAddress");
    meet(&rt, &NoSlot, "NoSlot");
}
