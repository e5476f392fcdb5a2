//! The events of a run, kept as spans: equal events, one behind another, take the room of one.
ghost use Rattle.std.specs.Prelude.{◌≡◌, ◌⊎◌, ◌+◌, ◌<◌, ◌≤◌, ◌^◌, [], ◌++◌, replicate, length, take, OnOk, OnErr, IfOk, IfErr};
ghost use Rattle.kernel_spec.specs.runs.Run as runs;
ghost use Rattle.xv_machine.specs.Events.{event_of};
ghost use Rattle.xv_session.specs.Answers.{IsReason};
ghost use Rattle.xv_session.specs.Spans.{Closes, Reopens, all_events, span_events};
ghost use Rattle.xv_session.specs.declared.history.TheConstants.{EVENTS_MAX};

use crate::SessionError;
use crate::followed::Followed;
use crate::pace::{Broken, Pace};
use crate::patience::Patience;
use crate::playing::{play, play_first};
use std::alloc::{AllocError, Global};
use std::marker::Model;
use xv_machine::Event;

/// The most events that a session keeps, 2^63: more than any machine gets.
pub const EVENTS_MAX: u64 = 9_223_372_036_854_775_808;

/// So many equal events, one behind another.
#[derive(Clone, Copy)]
pub(crate) struct Span {
    pub event: Event,
    pub count: u64,
}

/// The events of a run, from the first on.
#[derive(Drop)]
pub(crate) struct History {
    /// The spans that are over.
    over: Vec<Span>,
    /// The span that may go on.
    last: Span,
    /// How many events there are.
    count: u64,
}

/// The span that may go on: the last one; if that is empty, the one before it.
fn reopened(over: &mut Vec<Span>, last: Span) -> Span
    ensures { Reopens over.old.items last over.new.items result }
{
    if last.count > 0 {
        return last;
    }
    match over.pop() {
        Some(span) => span,
        None => last,
    }
}

/// The last span is over, unless it is empty.
fn close(over: &mut Vec<Span>, last: Span) -> Result<(), AllocError>
    requires { (0 < last.count) ⊎ (over.old.items ≡ []) }
    ensures closes { OnOk result (Closes over.old.items last over.new.items) }
    ensures refused { OnErr result (over.new.items ≡ over.old.items) }
{
    if last.count == 0 {
        return Ok(());
    }
    over.push(last)?;
    Ok(())
}

impl Model for History {
    ghost use Rattle.std.specs.Prelude.{◌≡◌, length};
    ghost use Rattle.xv_session.specs.Spans.{AreApart, Kept, kept};
    ghost use Rattle.xv_session.specs.Codes.{kept_code};

    ghost Value = { Kept };

    ghost coded = { kept_code };

    ghost view = { λ h. kept h.over.items h.last };

    ghost invariant = { λ h. (h.count ≡ length (kept h.over.items h.last).events) × AreApart h.over.items h.last };
}

impl History {
    /// No event.
    pub fn new(alloc: Global) -> History
        ensures { result.events ≡ [] }
    {
        History {
            over: Vec::new(alloc),
            last: Span {
                event: Event::Run,
                count: 0,
            },
            count: 0,
        }
    }

    /// How many events there are.
    pub fn len(&self) -> u64
        ensures { result ≡ length self.now.events }
    {
        self.count
    }

    /// Makes room for one event, and for more of its kind behind it.
    pub fn make_room(&mut self, event: Event) -> Result<(), SessionError>
        ensures events { self.new.events ≡ self.old.events }
        ensures next { OnOk result (self.new.next ≡ event_of event) }
        ensures few { OnOk result (length self.new.events < EVENTS_MAX) }
        ensures reason { IfErr result (λ e. IsReason e (length self.old.events)) }
    {
        if self.count >= EVENTS_MAX {
            return Err(SessionError::Full);
        }
        self.last = reopened(&mut self.over, self.last);
        if self.last.event == event {
            return Ok(());
        }
        let Ok(()) = close(&mut self.over, self.last) else {
            return Err(SessionError::Memory);
        };
        self.last = Span { event, count: 0 };
        Ok(())
    }

    /// Adds so many of the events that there is room for.
    pub fn add(&mut self, count: u32)
        requires { length self.old.events < EVENTS_MAX }
        ensures { self.new ≡ record self.old { events = self.old.events ++ replicate count self.old.next } }
    {
        self.last.count += u64::from(count);
        self.count += u64::from(count);
    }
}

impl History {
    ghost use Rattle.std.specs.Prelude.{◌≡◌, option_map};
    ghost use Rattle.xv_session.specs.Answers.{AreEqualFrom, EndThere};
    ghost use Rattle.xv_session.specs.Spans.{pair_of};

    /// The event at a place, and how many events from there on are equal to it; `None` if there are no more than `place`.
    /// It looks from the end, for who asks what was added.
    pub fn from_on(&self, place: u64) -> Option<(Event, u64)>
        ensures equal { AreEqualFrom self.now.events place (option_map pair_of result) }
        ensures all { EndThere self.now.events place (option_map pair_of result) }
    {
        if place >= self.count {
            return None;
        }
        let mut start = self.count - self.last.count;
        if start <= place {
            return Some((self.last.event, self.last.count - (place - start)));
        }
        let mut at = self.over.len();
        'spans: while at > 0 {
            at -= 1;
            let span = self.over[at];
            start -= span.count;
            if start <= place {
                return Some((span.event, span.count - (place - start)));
            }
        }
        unreachable!();
    }
}

impl History {
    ghost use Rattle.std.specs.Prelude.{◌≡◌, IfOk, IfErr, take, true};
    ghost use Rattle.xv_session.specs.Steps.{IsSound};
    ghost use Rattle.xv_session.specs.Follows.{Follows};

    /// Forgets the events from a place on.
    pub fn cut(&mut self, place: u64)
        ensures { self.new.events ≡ take place self.old.events }
    {
        'cuts: while self.count > place {
            let past = self.count - place;
            if self.last.count >= past {
                self.last.count -= past;
                self.count = place;
            } else {
                self.count -= self.last.count;
                let Some(span) = self.over.pop() else {
                    unreachable!();
                };
                self.last = span;
            }
        }
    }

    /// Sends the events before a place to a machine, from the first on.
    ///
    /// # Errors
    ///
    /// It was broken off.
    pub fn play<P: Patience>(
        &self,
        followed: &mut Followed,
        place: u64,
        patience: &mut P,
    ) -> Result<(), Broken>
        requires { IsSound followed.old.running }
        ensures goes { IfOk result (λ _. Follows (take place self.now.events) followed.old followed.new) }
        ensures sound { IfOk result (λ _. IsSound followed.new.running) }
        ensures broken { IfErr result (λ _. P.may_end ≡ true) }
    {
        let mut pace = Pace::new();
        let left = play_first(followed, self.over.as_slice(), place, &mut pace, patience)?;
        let rest = self.last.count.min(left);
        play(followed, self.last.event, rest, &mut pace, patience)?;
        Ok(())
    }
}
