//! What the settings ask for, and why they are refused.
ghost use Rattle.std.specs.Prelude.{◌≡◌, ◌⊎◌, IfErr, IfOk, map, option_map, string_bytes};
ghost use Rattle.program_files.specs.Failures.{failure_status};
ghost use Rattle.explained_run.specs.Asked as meant;
ghost use Rattle.explained_run.specs.declared.asking.Refusal.TheVariants as refusals;

use crate::NAME;
use crate::choice::Choice;
use crate::line::Settings;
use kernel_calls::{CALLS, KernelCall};
use program_files::Failure;
use program_files::exit_statuses::WORDS_REFUSED;
use std::alloc::{AllocError, AllocFailed, Global};
use std::io::Write;
use xk_base::Program;

/// Why the settings ask for no lines.
#[derive(Drop)]
pub(crate) enum Refusal<'a> {
    /// No call has this name.
    NoCall(&'a str),
    /// The host has too little memory.
    OutOfMemory,
}

impl From<AllocError> for Refusal<'_> {
    ghost from_gives = { λ _ refusal. refusal ≡ refusals.OutOfMemory };

    fn from(_error: AllocError) -> Self {
        Refusal::OutOfMemory
    }
}

impl<T: Drop> From<AllocFailed<T>> for Refusal<'_> {
    ghost from_gives = { λ _ refusal. refusal ≡ refusals.OutOfMemory };

    fn from(_error: AllocFailed<T>) -> Self {
        Refusal::OutOfMemory
    }
}

// Tells that no call has this name, and which names there are, and gives the status.
fn refuse_call<E: Write>(name: &str, errors: &mut E) -> u8
    ensures { result ≡ 1 }
{
    let _ = write!(errors, "{NAME}: no kernel call is called {name}: there are");
    for call in CALLS {
        let name = call.name();
        let _ = write!(errors, " {name}");
    }
    let _ = writeln!(errors);
    WORDS_REFUSED
}

impl Refusal<'_> {
    /// Tells it, and gives the status.
    pub(crate) fn close<E: Write>(&self, errors: &mut E) -> u8
        ensures is { result ≡ meant.refusal_status self.now }
        ensures either { (result ≡ 1) ⊎ (result ≡ 2) }
    {
        match self {
            Refusal::NoCall(name) => refuse_call(name, errors),
            Refusal::OutOfMemory => Failure::OutOfMemory.close(NAME, errors),
        }
    }
}

// A copy of a text, if there is one.
fn copy_of(alloc: Global, text: &Option<String>) -> Result<Option<String>, AllocError>
    ensures { IfOk result (λ copy. option_map (λ t. string_bytes t) copy ≡ option_map (λ t. string_bytes t) text.now) }
{
    match text {
        Some(text) => Ok(Some(String::from_str(alloc, text.as_str())?)),
        None => Ok(None),
    }
}

// The names of a list.
fn names_in(alloc: Global, list: &str) -> Result<Vec<&str>, AllocError>
    ensures { IfOk result (λ names. map (λ name. name.now) names.items ≡ meant.names_in list.now) }
{
    list.split(',').collect(alloc)
}

// The calls of these names, in their order.
fn calls_named<'a>(alloc: Global, names: &[&'a str]) -> Result<Vec<KernelCall>, Refusal<'a>>
    ensures calls { IfOk result (λ calls. meant.AreCallsOf (map (λ name. name.now) names.now) calls.items) }
    ensures refused { IfErr result (meant.AreRefused (map (λ name. name.now) names.now)) }
{
    let mut calls = Vec::new(alloc);
    for name in names {
        match KernelCall::of_name(name) {
            Some(call) => calls.push(call)?,
            None => return Err(Refusal::NoCall(name)),
        }
    }
    Ok(calls)
}

// The calls of a list of names, in their order.
fn calls_in(alloc: Global, list: &str) -> Result<Vec<KernelCall>, Refusal<'_>>
    ensures calls { IfOk result (λ calls. meant.AreCallsOf (meant.names_in list.now) calls.items) }
    ensures refused { IfErr result (meant.AreRefused (meant.names_in list.now)) }
{
    let names = names_in(alloc, list)?;
    calls_named(alloc, names.as_slice())
}

// The calls of the list that is given, if one is.
fn calls_of(alloc: Global, given: &Option<String>) -> Result<Option<Vec<KernelCall>>, Refusal<'_>>
    ensures calls { IfOk result (meant.AreCallsAsked given.now) }
    ensures refused { IfErr result (meant.IsRefused given.now) }
{
    let Some(list) = given else {
        return Ok(None);
    };
    let calls = calls_in(alloc, list.as_str())?;
    Ok(Some(calls))
}

/// Which lines the settings ask for.
///
/// # Errors
///
/// [`Refusal::NoCall`] if no call has one of the names that they have.
pub(crate) fn choice_of(alloc: Global, settings: &Settings) -> Result<Choice, Refusal<'_>>
    ensures choice { IfOk result (meant.IsChoiceOf settings.now) }
    ensures refused { IfErr result (meant.IsRefused settings.now.calls) }
{
    let calls = calls_of(alloc, &settings.calls)?;
    let program = copy_of(alloc, &settings.program)?;
    Ok(Choice {
        lines: !settings.count,
        pid: settings.pid,
        program,
        calls,
        failed: settings.failed,
        numbers: settings.numbers,
        shown: settings.shown,
    })
}

// Whether one of these programs has this name.
fn has_program(programs: &[Program], name: &str) -> bool
    ensures { result ≡ meant.has_program programs.now name.now }
{
    programs
        .iter()
        .any(|program| program.name.as_slice() == name.as_bytes())
}

/// Refuses programs of which none has the name that is asked for.
///
/// # Errors
///
/// [`Failure::Refused`] if none has it, or [`Failure::OutOfMemory`] if there is too little memory to tell so.
pub(crate) fn check_program(
    alloc: Global,
    choice: &Choice,
    programs: &[Program],
) -> Result<(), Failure<'static>>
    ensures there { IfOk result (λ _. meant.IsAmong choice.now.program programs.now) }
    ensures missing { IfErr result (λ _. ¬ meant.IsAmong choice.now.program programs.now) }
    ensures refused { IfErr result (λ e. failure_status e ≡ 2) }
{
    let Some(name) = &choice.program else {
        return Ok(());
    };
    if has_program(programs, name.as_str()) {
        return Ok(());
    }
    Err(Failure::in_words(format!(in alloc; "no FILE is a program called {name}")))
}
