//! What a word has sent, and why no more, in words.
ghost use Rattle.std.specs.Prelude.{◌≡◌, ◌++◌, OnOk, option_map, string_bytes};
ghost use Rattle.xv_machine.specs.Events.{outcome_of};
ghost use Rattle.xv_debug.specs.StopText.{asleep_text, broken_text, done_text, last_text, met_text, not_yet, off_text, refusal_text, stop_text, told_journey, unplayed_text};

use crate::happened::Happened;
use crate::motion::{Journey, Stop};
use debug_words::texts::Many;
use debug_words::{EVENTS_MOST, Word};
use std::alloc::AllocError;
use xv_machine::Outcome;
use xv_session::{PlayError, SessionError};

/// Writes that rounds have met what they stop at.
fn show_met(word: &Word, answer: &mut String) -> Result<(), AllocError>
    ensures { OnOk result (string_bytes answer.new ≡ string_bytes answer.old ++ met_text word.now) }
{
    match word {
        Word::Run { .. } => {
            answer.push_str("a process is gone by a fault: trace and back show more\n")
        }
        _ => Ok(()),
    }
}

/// Writes that what a word waits for hasn't come.
fn show_not_yet(answer: &mut String) -> Result<(), AllocError>
    ensures { OnOk result (string_bytes answer.new ≡ string_bytes answer.old ++ not_yet) }
{
    writeln!(
        answer,
        "it has not come yet; a word sends {EVENTS_MOST} events at most, and the same word goes on"
    )
}

/// Writes what is told of a word that has sent all that it may.
fn show_done(word: &Word, answer: &mut String) -> Result<(), AllocError>
    ensures { OnOk result (string_bytes answer.new ≡ string_bytes answer.old ++ done_text word.now) }
{
    match word {
        Word::Until(_) => show_not_yet(answer),
        Word::Next => show_not_yet(answer),
        Word::Finish => show_not_yet(answer),
        Word::ToMark(_) => show_not_yet(answer),
        _ => Ok(()),
    }
}

/// Writes that a word was broken off.
fn show_broken(answer: &mut String) -> Result<(), AllocError>
    ensures { OnOk result (string_bytes answer.new ≡ string_bytes answer.old ++ broken_text) }
{
    answer.push_str("it was broken off here: what was sent stays, and back goes back\n")
}

/// Writes that all processes sleep.
fn show_asleep(word: &Word, answer: &mut String) -> Result<(), AllocError>
    ensures { OnOk result (string_bytes answer.new ≡ string_bytes answer.old ++ asleep_text word.now) }
{
    match word {
        Word::Step { .. } => {
            answer.push_str("all processes sleep: tick moves the clock, key types\n")
        }
        _ => answer.push_str("all processes sleep, and no tick wakes one: key types\n"),
    }
}

/// Writes why a word sent no more events.
fn show_stop(word: &Word, stop: &Stop, answer: &mut String) -> Result<(), AllocError>
    ensures { OnOk result (string_bytes answer.new ≡ string_bytes answer.old ++ stop_text word.now stop.now) }
{
    match stop {
        Stop::Asleep => show_asleep(word, answer),
        Stop::Halted => answer.push_str(
            "the machine has halted: nothing runs any more, but back goes back\n",
        ),
        Stop::Broken => show_broken(answer),
        Stop::Refused(error) => show_refusal(error, answer),
        Stop::Met => show_met(word, answer),
        Stop::Done => show_done(word, answer),
    }
}

/// Writes what came of the last event, if one was sent.
fn show_last(last: &Option<Outcome>, answer: &mut String) -> Result<(), AllocError>
    ensures { OnOk result (string_bytes answer.new ≡ string_bytes answer.old ++ last_text (option_map outcome_of last.now)) }
{
    match last {
        Some(outcome) => {
            let happened = Happened(outcome);
            writeln!(answer, "; the last: {happened}")
        }
        None => writeln!(answer),
    }
}

/// Writes how many events were sent, what came of the last, and why no more were sent.
pub(crate) fn show_sent(
    word: &Word,
    journey: &Journey,
    answer: &mut String,
) -> Result<(), AllocError>
    ensures { OnOk result (string_bytes answer.new ≡ string_bytes answer.old ++ told_journey word.now journey.now) }
{
    let sent = Many(journey.sent, "event");
    write!(answer, "{sent}")?;
    show_last(&journey.last, answer)?;
    show_stop(word, &journey.stop, answer)
}

/// Writes that the record of so many events, on which a run was, has none for it any more: a word that goes by the plan has
/// come past its end, or another one has sent an event that isn't the record's.
pub(crate) fn show_off(by_plan: bool, recorded: u64, answer: &mut String) -> Result<(), AllocError>
    ensures { OnOk result (string_bytes answer.new ≡ string_bytes answer.old ++ off_text by_plan recorded) }
{
    if !by_plan {
        return answer.push_str("the run has left the record: back leads onto it again\n");
    }
    let events = Many(recorded, "event");
    writeln!(
        answer,
        "the record is over after {events}: from there on the run has gone by the clock"
    )
}

/// Writes why the session took no more events.
pub(crate) fn show_refusal(error: &SessionError, answer: &mut String) -> Result<(), AllocError>
    ensures { OnOk result (string_bytes answer.new ≡ string_bytes answer.old ++ refusal_text error.now) }
{
    match error {
        SessionError::Memory => {
            answer.push_str("the host has too little memory for more events\n")
        }
        SessionError::Full => answer.push_str("the session keeps 2^63 events, and no more\n"),
    }
}

/// Writes why a word didn't go back.
pub(crate) fn show_unplayed(why: &PlayError, answer: &mut String) -> Result<(), AllocError>
    ensures { OnOk result (string_bytes answer.new ≡ string_bytes answer.old ++ unplayed_text why.now) }
{
    match why {
        PlayError::Broken => answer.push_str("it was broken off, and nothing is changed\n"),
        PlayError::Memory => show_refusal(&SessionError::Memory, answer),
    }
}
