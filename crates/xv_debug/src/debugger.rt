//! The debugger: a line goes in, its answer comes out.
ghost use Rattle.std.specs.Prelude.{◌≡◌, ◌++◌, OnOk, string_bytes};
ghost use Rattle.xv_debug.specs.Effects.{next_of};
ghost use Rattle.xv_debug.specs.Kept.{goes_on, marks_after};
ghost use Rattle.xv_debug.specs.StopText.{never, no_return};

use crate::callers::told_calls;
use crate::choosing::{Chosen, choose};
use crate::displays::{Displayed, KeptDisplays, show_kept};
use crate::focus::{focus, program_looked_at};
use crate::frame_words::{Display, FrameWord, frame_word_of, show_frame_topic, show_frame_topics};
use crate::instruction::listed_from;
use crate::kept::KeptMarks;
use crate::looks::{
    show_descriptors_of, show_nobody, show_numbers_of, show_pages_of, show_registers_of,
};
use crate::motion::{self, Aim, Journey, Output, Plan};
use crate::names::Known;
use crate::pipes::show_pipes;
use crate::processes::{show_process, show_processes, show_where};
use crate::reasons::show_reason;
use crate::shown_output::show_output;
use crate::stops::{show_off, show_sent, show_unplayed};
use crate::variables::{ToldInCall, is_of_c_alone, text_told, told_of_c};
use debug_views::{show_console, show_events, show_frames, show_memory, show_trace, show_value};
use debug_words::texts::Many;
use debug_words::{
    EVENTS_MOST, Goal, Keys, Mark, Marks, Topic, Word, WordError, WordErrorKind, show_help,
};
use std::alloc::{AllocError, Global};
use xk_base::Pid;
use xv_machine::Event;
use xv_report::{LineNamed, ProgramSource, Sources, source_of};
use xv_session::{Condition, Patience, Session};

/// The instructions that `where` lists.
const INSTRUCTIONS: u32 = 8;

/// The Runs in a round, if nothing else is said: as many as in one of `xv_run`.
const QUANTUM: u32 = 1000;

/// What comes after an answer.
#[derive(Clone, Copy, PartialEq, Eq)]
pub enum Next {
    /// The debugger waits for the next line.
    Stays,
    /// The machine goes on, without the debugger.
    Continues,
    /// The debugger ends, and so does the machine.
    Ends,
}

/// A debugger: what it remembers between its words. The session isn't part of it.
#[derive(Drop)]
pub struct Debugger {
    /// What the machine goes on by.
    plan: Plan,
    /// The address after the memory that was shown last.
    shown: u64,
    /// What is known of the sources of the session's programs, if anything is.
    sources: Option<Sources>,
    /// The marks at which `c` stops.
    marks: KeptMarks,
    /// Whether nobody lets the machine go on after it: then `c` goes on without a mark too, up to a fault.
    alone: bool,
    /// The call that was chosen.
    chosen: Chosen,
    /// What is shown after each word that moves the session.
    displays: KeptDisplays,
}

/// What comes after the answer to a word.
fn next_of(word: &Word) -> Next
    ensures { result ≡ next_of word.now }
{
    match word {
        Word::Continue => Next::Continues,
        Word::Quit => Next::Ends,
        _ => Next::Stays,
    }
}

/// Keeps a mark, forgets some, or lists them, as the word asks.
fn see_to_marks<'a>(
    marks: &mut KeptMarks,
    session: &'a Session,
    sources: Option<&'a Sources>,
    word: &Word,
    answer: &mut String,
) -> Result<(), AllocError>
    ensures { marks.new.kept.items ≡ marks_after word.now marks.old }
{
    let known = Known {
        session,
        sources,
        focus: None,
    };
    match word {
        Word::Mark { marks: asked, once } => marks.keep(&known, asked.as_slice(), *once, answer),
        Word::Delete { number } => marks.delete(&known, *number, answer),
        _ => marks.show(&known, answer),
    }
}

/// Whether it is the word that lets the machine go on.
fn goes_on(word: &Word) -> bool
    ensures { result ≡ goes_on word.now }
{
    match word {
        Word::Continue => true,
        _ => false,
    }
}

/// Whether it is a word that goes on by the plan.
fn goes_by_plan(word: &Word) -> bool {
    match word {
        Word::Next
        | Word::Until(_)
        | Word::Finish
        | Word::Continue
        | Word::ToMark(_)
        | Word::Goto { .. } => true,
        _ => false,
    }
}

/// Whether it is a word that sends the events that it names.
fn sends_by_hand(word: &Word) -> bool {
    match word {
        Word::Tick { .. } | Word::Send { .. } | Word::Key(_) => true,
        _ => false,
    }
}

/// Writes what a word does; of no word a line for each, and for each of those that ask of calls and variables.
fn show_all_help(topic: Option<Topic>, answer: &mut String) -> Result<(), AllocError> {
    show_help(topic, answer)?;
    match topic {
        Some(_) => Ok(()),
        None => show_frame_topics(answer),
    }
}

/// Writes a text.
fn put_text(text: &str, answer: &mut String) -> Result<(), AllocError>
    ensures { OnOk result (string_bytes answer.new ≡ string_bytes answer.old ++ text.now) }
{
    answer.push_str(text)
}

/// Writes that it isn't known where a function ends.
fn show_no_return(answer: &mut String) -> Result<(), AllocError>
    ensures { OnOk result (string_bytes answer.new ≡ string_bytes answer.old ++ no_return) }
{
    answer.push_str("no process runs whose function has a known return address: bt tells more\n")
}

/// Writes that a goal never came before.
fn show_never(answer: &mut String) -> Result<(), AllocError>
    ensures { OnOk result (string_bytes answer.new ≡ string_bytes answer.old ++ never) }
{
    answer.push_str("it never came before this place, and nothing is changed\n")
}

/// Whether a process lives that a word looks at: whose registers and names are known.
fn has_names(session: &Session) -> bool {
    match focus(session, None) {
        Some(pid) => session.machine().registers(pid).is_some(),
        None => false,
    }
}

/// Writes why a line isn't known, or a register or a name, if it is since nobody lives.
fn show_nameless(
    known: &Known<'_>,
    error: &WordError<'_>,
    answer: &mut String,
) -> Result<(), AllocError> {
    let WordErrorKind::NotANumber(text) = error.kind else {
        return Ok(());
    };
    if LineNamed::of(text).is_some() {
        return known.show_lineless(text, answer);
    }
    if has_names(known.session) {
        return Ok(());
    }
    answer.push_str(
        "no process lives that could have it: back goes back, or name it PROGRAM:NAME\n",
    )
}

impl Debugger {
    ghost use Rattle.std.specs.Prelude.{◌≡◌, ◌⊎◌, ℕ, [], true, false, IfOk, IfErr, IfSome, OnOk, Option, length, map, option_map, replicate, string_bytes, take, unwrap_or};
    ghost use Rattle.kernel_spec.specs.runs.Run as runs;
    ghost use Rattle.xv_machine.specs.Events.{event_of, outcome_of};
    ghost use Rattle.xv_session.specs.Recorded.{running_of};
    ghost use Rattle.xv_debug.specs.motion.Aims.{aim_in};
    ghost use Rattle.kcall_core.specs.Observers.{process_at};
    ghost use Rattle.debug_words.specs.Ranges.{IsInRange};
    ghost use Rattle.xv_session.specs.declared.until.Condition.TheVariants.{Fault};
    ghost use Rattle.xv_debug.specs.declared.debugger.TheConstants.{QUANTUM};
    ghost use Rattle.xv_debug.specs.motion.Plan.{keyless};
    ghost use Rattle.xv_debug.specs.declared.motion.aiming.Aim.TheVariants.{On};
    ghost use Rattle.xv_debug.specs.motion.Backwards.{GoesBackUntil};
    ghost use Rattle.xv_debug.specs.motion.Reaching.{met_from};
    ghost use Rattle.debug_views.specs.MemoryText.{memory_shown};
    ghost use Rattle.debug_views.specs.Written.{Writes};
    ghost use Rattle.xv_debug.specs.AnswerText.{Answers, BackTells, BackUntilTells, FinishTells, GoalTells, GoesOnTells, GotoTells, IsBackText};
    ghost use Rattle.xv_debug.specs.AnswerText.{IsSentText, PlaysOnTell, RoundsTell, SearchTells, SearchTellsWithin, SeekBackTells, SendsTell, StepTells, StepsOnTell};
    ghost use Rattle.xv_debug.specs.Effects.{Does, DoesOrStays, DoesSome, Finishes, GoesBack, GoesOn, GoesTo, IsAimOf, Obeys, Plays, PlaysOn, Searches, SearchesGoal, SearchesWithin, SeeksBack, SendsFirst, Steps, StepsOn, next_of};
    ghost use Rattle.xv_debug.specs.Kept.{IsToMarks, goes_to_none, left_after, marks_of};
    ghost use Rattle.xv_debug.specs.LookText.{IsOfFocus, Shows};
    ghost use Rattle.xv_debug.specs.CallWords.{LeavesChosen, TellsOfCalls};
    ghost use Rattle.xv_debug.specs.Chosen.{Chooses, left};
    ghost use Rattle.xv_debug.specs.Displays.{displays_after, displays_by};
    ghost use Rattle.xv_debug.specs.ToldOfC.{AreDisplaysTold, IsDisplayTold, IsLineRead, IsLineTold, IsToldOf, ShowsIfMoved, ShowsRead, TellsOfC};
    ghost use Rattle.xv_debug.specs.Focus.{IsSourceLookedAt};
    ghost use Rattle.xv_report.specs.Locations.{IsSourceOf};
    ghost use Rattle.xv_debug.specs.OutputText.{output_text};
    ghost use Rattle.xv_debug.specs.WhereText.{IsProcessText, IsWhereOf};

    /// A debugger that has seen nothing. The names of functions come from the programs' own symbols, and no line is
    /// known.
    pub fn new() -> Debugger
        ensures plan { result.plan ≡ keyless QUANTUM }
        ensures shown { result.shown ≡ 0 }
        ensures sources { result.sources ≡ None }
    {
        Debugger {
            plan: Plan::keyless(QUANTUM),
            shown: 0,
            sources: None,
            marks: KeptMarks::new(),
            alone: false,
            chosen: Chosen::none(),
            displays: KeptDisplays::new(),
        }
    }

    /// A debugger that has seen nothing, and knows this of the programs' sources.
    pub fn with_sources(sources: Sources) -> Debugger
        ensures plan { result.plan ≡ keyless QUANTUM }
        ensures shown { result.shown ≡ 0 }
        ensures sources { result.sources ≡ Some sources }
    {
        Debugger {
            plan: Plan::keyless(QUANTUM),
            shown: 0,
            sources: Some(sources),
            marks: KeptMarks::new(),
            alone: false,
            chosen: Chosen::none(),
            displays: KeptDisplays::new(),
        }
    }

    /// The same, of a machine that nobody lets go on after it: so `c` goes on up to a fault, if there is no mark. It goes on
    /// by this plan.
    pub fn alone(sources: Sources, plan: Plan) -> Debugger
        ensures plan { result.plan ≡ plan }
        ensures shown { result.shown ≡ 0 }
        ensures sources { result.sources ≡ Some sources }
        ensures alone { result.alone ≡ true }
    {
        Debugger {
            plan,
            shown: 0,
            sources: Some(sources),
            marks: KeptMarks::new(),
            alone: true,
            chosen: Chosen::none(),
            displays: KeptDisplays::new(),
        }
    }

    /// What is known of the source of the program at a place among those of a session: the names that may stand behind
    /// PROGRAM: in a line.
    pub fn source<'a>(&'a self, session: &'a Session, place: Option<usize>) -> ProgramSource<'a>
        ensures { IsSourceOf self.now.sources session.now.machine.world.state.programs place result }
    {
        source_of(self.sources.as_ref(), session, place)
    }

    /// What is known of the source of the program that the process runs which a word looks at: the names that may stand
    /// alone in a line.
    pub fn source_looked_at<'a>(&'a self, session: &'a Session) -> ProgramSource<'a>
        ensures { IsSourceLookedAt self.now.sources session.now result }
    {
        self.source(session, program_looked_at(session))
    }

    /// Writes where the run is, what the process does that a word looks at, and so many instructions from its pc on.
    fn show_focus(
        &self,
        alloc: Global,
        session: &Session,
        named: Option<Pid>,
        count: u32,
        answer: &mut String,
    ) -> Result<(), AllocError>
        ensures { OnOk result
            (Writes (string_bytes answer.old) (string_bytes answer.new)
            (IsWhereOf session.now named)) }
    {
        let pid = focus(session, named);
        show_where(alloc, session, self.sources.as_ref(), pid, count, answer)
    }

    /// Obeys a line, and writes its answer. The patience may end while a word runs: then it is broken off.
    ///
    /// # Errors
    ///
    /// The host has too little memory for the answer.
    pub fn obey<P: Patience>(
        &mut self,
        alloc: Global,
        session: &mut Session,
        line: &str,
        patience: &mut P,
        answer: &mut String,
    ) -> Result<Next, AllocError>
        ensures done { IfOk result (λ next. Obeys P.may_end self.old.plan session.old session.new next) }
        ensures chosen { IfOk result (λ _. LeavesChosen self.old.sources line.now session.old (length session.old.events) (length session.new.events) self.old.chosen self.new.chosen) }
        ensures failed { IfErr result (λ _. (session.new ≡ session.old) ⊎ DoesSome P.may_end self.old.plan session.old session.new) }
        ensures plan { self.new.plan ≡ self.old.plan }
    {
        if self.tells_of_calls(alloc, session, line, answer)? {
            return self.answer_marked(alloc, session, Word::Nothing, patience, answer);
        }
        if self.tells_of_c(alloc, session, line, answer)? {
            return self.answer_marked(alloc, session, Word::Nothing, patience, answer);
        }
        match self.read(session, line) {
            Ok(word) => self.answer_displayed(alloc, session, word, patience, answer),
            Err(error) => {
                writeln!(answer, "{error}")?;
                self.tell_nameless(session, &error, answer)?;
                Ok(Next::Stays)
            }
        }
    }

    /// Obeys a line that asks of calls, or of what is shown again and again; `false` if it asks of neither.
    fn tells_of_calls(
        &mut self,
        alloc: Global,
        session: &Session,
        line: &str,
        answer: &mut String,
    ) -> Result<bool, AllocError>
        ensures told { IfOk result (TellsOfCalls self.old.sources line.now session.now self.old.chosen self.new.chosen self.old.displays self.new.displays) }
        ensures sources { self.new.sources ≡ self.old.sources }
        ensures plan { self.new.plan ≡ self.old.plan }
    {
        match frame_word_of(line) {
            Ok(Some(word)) => {
                self.obey_frame_word(alloc, session, word, answer)?;
                Ok(true)
            }
            Ok(None) => Ok(false),
            Err(error) => {
                writeln!(answer, "{error}")?;
                Ok(true)
            }
        }
    }

    /// Obeys a word that asks of calls, or of what is shown again and again.
    fn obey_frame_word(
        &mut self,
        alloc: Global,
        session: &Session,
        word: FrameWord,
        answer: &mut String,
    ) -> Result<(), AllocError>
        ensures chosen { OnOk result (Chooses self.old.sources word session.now self.old.chosen self.new.chosen) }
        ensures displays { self.new.displays.kept.items ≡ displays_by word self.old.displays }
        ensures sources { self.new.sources ≡ self.old.sources }
        ensures plan { self.new.plan ≡ self.old.plan }
    {
        match word {
            FrameWord::Choose(choice) => choose(
                alloc,
                session,
                self.sources.as_ref(),
                choice,
                &mut self.chosen,
                answer,
            ),
            FrameWord::Display(display) => self.see_to_displays(alloc, session, display, answer),
            FrameWord::Help(topic) => show_frame_topic(topic, answer),
        }
    }

    /// What is told of what a line asks of variables or types of a program in C, in the call at which words look.
    fn told_in_call(
        &self,
        alloc: Global,
        session: &Session,
        line: &str,
    ) -> Result<Option<ToldInCall>, AllocError>
        ensures { IfOk result (IsToldOf self.now.sources self.now.chosen session.now line.now) }
    {
        told_of_c(alloc, session, self.sources.as_ref(), &self.chosen, line)
    }

    /// Writes what a line asks of variables or types of a program in C, or that no process lives of which it could be; `false`
    /// if it asks nothing of them that is known.
    fn tells_of_c(
        &self,
        alloc: Global,
        session: &Session,
        line: &str,
        answer: &mut String,
    ) -> Result<bool, AllocError>
        ensures { IfOk result (TellsOfC self.now.sources self.now.chosen session.now line.now (string_bytes answer.old) (string_bytes answer.new)) }
    {
        let told = self.told_in_call(alloc, session, line)?;
        if let Some(text) = text_told(&told) {
            put_text(text, answer)?;
            return Ok(true);
        }
        if is_of_c_alone(line) {
            self.show_focus(alloc, session, None, 0, answer)?;
            return Ok(true);
        }
        Ok(false)
    }

    /// Writes why what a line names isn't known.
    fn tell_nameless(
        &self,
        session: &Session,
        error: &WordError<'_>,
        answer: &mut String,
    ) -> Result<(), AllocError> {
        let known = Known {
            session,
            sources: self.sources.as_ref(),
            focus: focus(session, None),
        };
        show_nameless(&known, error, answer)
    }

    /// The word of a line.
    fn read<'a>(&self, session: &Session, line: &'a str) -> Result<Word, WordError<'a>>
        ensures { IfOk result IsInRange }
    {
        let sources: Option<&Sources> = self.sources.as_ref();
        let known = Known {
            session,
            sources,
            focus: focus(session, None),
        };
        Word::of(line, &known)
    }

    /// The word, with the marks to which `c` goes on, if there are some, or if nothing else lets the machine go on.
    fn with_marks(&self, word: Word) -> Word
        requires { IsInRange word }
        ensures range { IsInRange result }
        ensures same { goes_to_none self.now.alone self.now.marks.kept.items word ≡ true → result ≡ word }
        ensures marks { goes_to_none self.now.alone self.now.marks.kept.items word ≡ false → IsToMarks (marks_of self.now.marks.kept.items) result }
    {
        let leaves = self.marks.is_empty() && !self.alone;
        if leaves || !goes_on(&word) {
            return word;
        }
        Word::ToMark(self.marks.marks())
    }

    /// Does what a word of a line asks for, and writes its answer; if the run isn't on the record any more, that; and if it is
    /// at another place, what is shown after each word that moves it, too.
    fn answer_displayed<P: Patience>(
        &mut self,
        alloc: Global,
        session: &mut Session,
        word: Word,
        patience: &mut P,
        answer: &mut String,
    ) -> Result<Next, AllocError>
        requires { IsInRange word }
        ensures shown { OnOk result (ShowsIfMoved self.new.sources self.new.chosen (length session.old.events) session.new self.new.displays.kept.items (string_bytes answer.new)) }
        ensures done { IfOk result (λ next. Obeys P.may_end self.old.plan session.old session.new next) }
        ensures chosen { self.new.chosen ≡ left (length session.old.events) (length session.new.events) self.old.chosen }
        ensures failed { IfErr result (λ _. (session.new ≡ session.old) ⊎ DoesSome P.may_end self.old.plan session.old session.new) }
        ensures plan { self.new.plan ≡ self.old.plan }
    {
        let at = session.at();
        let by_plan = goes_by_plan(&word);
        let along = (by_plan || sends_by_hand(&word)) && self.plan.has_ahead(session);
        let next = self.answer_marked(alloc, session, word, patience, answer)?;
        if along && !self.plan.is_followed(session) {
            show_off(by_plan, self.plan.recorded(), answer)?;
        }
        if session.at() != at {
            self.show_displays(alloc, session, answer)?;
        }
        Ok(next)
    }

    /// Does what a word of a line asks for, and writes its answer. After it the marks for once that are met are
    /// forgotten, and which call was chosen, if the run is at another place.
    fn answer_marked<P: Patience>(
        &mut self,
        alloc: Global,
        session: &mut Session,
        word: Word,
        patience: &mut P,
        answer: &mut String,
    ) -> Result<Next, AllocError>
        requires { IsInRange word }
        ensures done { IfOk result (λ next. Obeys P.may_end self.old.plan session.old session.new next) }
        ensures chosen { self.new.chosen ≡ left (length session.old.events) (length session.new.events) self.old.chosen }
        ensures failed { IfErr result (λ _. (session.new ≡ session.old) ⊎ DoesSome P.may_end self.old.plan session.old session.new) }
        ensures plan { self.new.plan ≡ self.old.plan }
    {
        let word = self.with_marks(word);
        let at = session.at();
        let chosen = self.chosen;
        let next = self.obey_word(alloc, session, &word, patience, answer);
        let told = self.tell_met(alloc, session, &word, answer);
        self.forget_met(session, &word);
        self.chosen = chosen.left(at, session.at());
        let next = next?;
        told?;
        Ok(next)
    }

    /// Writes which marks are met where the session is, after the word that goes on to them.
    fn tell_met(
        &self,
        alloc: Global,
        session: &Session,
        word: &Word,
        answer: &mut String,
    ) -> Result<(), AllocError> {
        match word {
            Word::ToMark(_) => self.marks.show_met(alloc, session, answer),
            _ => Ok(()),
        }
    }

    /// Forgets the marks for once that are met where the session is, after the word that goes on to them.
    fn forget_met(&mut self, session: &Session, word: &Word)
        ensures marks { self.new.marks.kept.items ≡ left_after (running_of session.now) word.now self.old.marks.kept.items }
        ensures plan { self.new.plan ≡ self.old.plan }
    {
        if let Word::ToMark(_) = word {
            self.marks.forget_met(session);
        }
    }

    /// Obeys a word.
    fn obey_word<P: Patience>(
        &mut self,
        alloc: Global,
        session: &mut Session,
        word: &Word,
        patience: &mut P,
        answer: &mut String,
    ) -> Result<Next, AllocError>
        requires { IsInRange word.now }
        ensures done { IfOk result (λ next. Obeys P.may_end self.old.plan session.old session.new next) }
        ensures failed { IfErr result (λ _. (session.new ≡ session.old) ⊎ DoesSome P.may_end self.old.plan session.old session.new) }
        ensures plan { self.new.plan ≡ self.old.plan }
    {
        self.answer(alloc, session, word, patience, answer)
    }

    /// Does what a word asks for, and writes its answer.
    ///
    /// # Errors
    ///
    /// The host has too little memory for the answer. What the word asks for may be done then.
    pub fn answer<P: Patience>(
        &mut self,
        alloc: Global,
        session: &mut Session,
        word: &Word,
        patience: &mut P,
        answer: &mut String,
    ) -> Result<Next, AllocError>
        ensures done { IfOk result (λ _. Does P.may_end self.old.plan word.now session.old session.new) }
        ensures next { IfOk result (λ next. next ≡ next_of word.now) }
        ensures told { OnOk result
            (Answers self.old.sources P.may_end self.old.plan self.old.shown word.now session.old session.new
            (string_bytes answer.old) (string_bytes answer.new)) }
        ensures failed { IfErr result (λ _. DoesOrStays P.may_end self.old.plan word.now session.old session.new) }
        ensures plan { self.new.plan ≡ self.old.plan }
    {
        self.act(alloc, session, word, patience, answer)?;
        Ok(next_of(word))
    }

    /// Does what a word asks for, and writes its answer.
    fn act<P: Patience>(
        &mut self,
        alloc: Global,
        session: &mut Session,
        word: &Word,
        patience: &mut P,
        answer: &mut String,
    ) -> Result<(), AllocError>
        ensures done { IfOk result (λ _. Does P.may_end self.old.plan word.now session.old session.new) }
        ensures told { OnOk result
            (Answers self.old.sources P.may_end self.old.plan self.old.shown word.now session.old session.new
            (string_bytes answer.old) (string_bytes answer.new)) }
        ensures failed { IfErr result (λ _. DoesOrStays P.may_end self.old.plan word.now session.old session.new) }
        ensures plan { self.new.plan ≡ self.old.plan }
    {
        match word {
            Word::Back { count } => self.go_back(alloc, session, *count, patience, answer),
            Word::Goto { place } => self.go_to(alloc, session, word, *place, patience, answer),
            Word::BackUntil(goal) => self.seek_back(alloc, session, goal, patience, answer),
            Word::Step { count } => self.step_on(alloc, session, word, *count, patience, answer),
            Word::Next => self.next(alloc, session, word, patience, answer),
            Word::Until(goal) => self.seek(alloc, session, word, goal, patience, answer),
            Word::Run { rounds } => self.play_on(alloc, session, word, *rounds, patience, answer),
            Word::Tick { count } => self.send_often(
                alloc,
                session,
                word,
                Event::Tick,
                *count,
                patience,
                answer,
            ),
            Word::Send { count } => self.send_often(
                alloc,
                session,
                word,
                Event::Send,
                *count,
                patience,
                answer,
            ),
            Word::Key(keys) => self.type_in(alloc, session, word, keys, answer),
            Word::ToMark(marks) => self.go_on(alloc, session, word, marks, patience, answer),
            Word::Finish => self.finish(alloc, session, word, patience, answer),
            Word::Nothing
            | Word::Callers { .. }
            | Word::Listing { .. }
            | Word::Numbers { .. }
            | Word::Value(_)
            | Word::Marks
            | Word::Mark { .. }
            | Word::Delete { .. }
            | Word::Where { .. }
            | Word::Registers { .. }
            | Word::Memory { .. }
            | Word::Pages { .. }
            | Word::Frames { .. }
            | Word::Processes { .. }
            | Word::Descriptors { .. }
            | Word::Pipe
            | Word::Console
            | Word::At
            | Word::Events { .. }
            | Word::Trace { .. }
            | Word::Help { .. }
            | Word::Continue
            | Word::Quit => self.look(alloc, session, word, answer),
        }
    }

    /// Goes back by so many events, and tells where that is.
    fn go_back<P: Patience>(
        &self,
        alloc: Global,
        session: &mut Session,
        count: u64,
        patience: &mut P,
        answer: &mut String,
    ) -> Result<(), AllocError>
        ensures done { GoesBack count session.old session.new }
        ensures told { OnOk result
            (BackTells P.may_end count session.old session.new
            (string_bytes answer.old) (string_bytes answer.new)) }
    {
        match motion::go_back(alloc, session, count, patience) {
            Ok(taken) => self.tell_back(alloc, session, taken, answer),
            Err(error) => show_unplayed(&error, answer),
        }
    }

    /// Goes to the place after so many events, back or on by the plan, and tells where that is.
    fn go_to<P: Patience>(
        &self,
        alloc: Global,
        session: &mut Session,
        word: &Word,
        place: u64,
        patience: &mut P,
        answer: &mut String,
    ) -> Result<(), AllocError>
        ensures done { IfOk result (λ _. GoesTo P.may_end self.now.plan place session.old session.new) }
        ensures told { OnOk result
            (GotoTells P.may_end self.now.plan word.now place session.old session.new
            (string_bytes answer.old) (string_bytes answer.new)) }
        ensures failed { IfErr result (λ _. (session.new ≡ session.old) ⊎ GoesTo P.may_end self.now.plan place session.old session.new) }
    {
        let at = session.at();
        if at < place {
            let most = (place - at).min(u64::from(EVENTS_MOST)) as u32;
            return self.go_on_by(alloc, session, word, most, patience, answer);
        }
        self.go_back(alloc, session, at - place, patience, answer)
    }

    /// Tells that it went back by so many events, and where that is.
    fn tell_back(
        &self,
        alloc: Global,
        session: &Session,
        taken: u64,
        answer: &mut String,
    ) -> Result<(), AllocError>
        ensures { OnOk result
            (Writes (string_bytes answer.old) (string_bytes answer.new)
            (IsBackText session.now taken)) }
    {
        let many = Many(taken, "event");
        writeln!(answer, "{many} back")?;
        self.show_focus(alloc, session, None, 1, answer)
    }

    /// Goes on by the plan, by so many events at most, and tells what came of them.
    fn go_on_by<P: Patience>(
        &self,
        alloc: Global,
        session: &mut Session,
        word: &Word,
        most: u32,
        patience: &mut P,
        answer: &mut String,
    ) -> Result<(), AllocError>
        ensures done { IfOk result (λ _. GoesOn P.may_end self.now.plan most session.old session.new) }
        ensures told { OnOk result
            (GoesOnTells P.may_end self.now.plan word.now most session.old session.new
            (string_bytes answer.old) (string_bytes answer.new)) }
        ensures failed { IfErr result (λ _. (session.new ≡ session.old) ⊎ GoesOn P.may_end self.now.plan most session.old session.new) }
    {
        self.search_within(
            alloc,
            session,
            word,
            most,
            &Aim::Nothing,
            &[],
            patience,
            answer,
        )
    }

    /// Sends as many events of the record as `step` has to, if it has some for this place, and else so many Runs, and tells
    /// what came of them.
    fn step_on<P: Patience>(
        &self,
        alloc: Global,
        session: &mut Session,
        word: &Word,
        count: u32,
        patience: &mut P,
        answer: &mut String,
    ) -> Result<(), AllocError>
        ensures done { IfOk result (λ _. StepsOn P.may_end self.now.plan count session.old session.new) }
        ensures told { OnOk result
            (StepsOnTell P.may_end self.now.plan word.now count session.old session.new
            (string_bytes answer.old) (string_bytes answer.new)) }
        ensures failed { IfErr result (λ _. (session.new ≡ session.old) ⊎ StepsOn P.may_end self.now.plan count session.old session.new) }
    {
        if self.plan.has_ahead(session) {
            let ahead = self.plan.recorded().saturating_sub(session.at());
            let most = u64::from(count).min(ahead) as u32;
            return self.go_on_by(alloc, session, word, most, patience, answer);
        }
        self.step(alloc, session, word, count, patience, answer)
    }

    /// Sends the events of the record up to so many Ticks, if it has some for this place, and else plays so many rounds, and
    /// tells what came of them.
    fn play_on<P: Patience>(
        &self,
        alloc: Global,
        session: &mut Session,
        word: &Word,
        rounds: u32,
        patience: &mut P,
        answer: &mut String,
    ) -> Result<(), AllocError>
        ensures done { IfOk result (λ _. PlaysOn P.may_end self.now.plan rounds session.old session.new) }
        ensures told { OnOk result
            (PlaysOnTell P.may_end self.now.plan word.now rounds session.old session.new
            (string_bytes answer.old) (string_bytes answer.new)) }
        ensures failed { IfErr result (λ _. (session.new ≡ session.old) ⊎ PlaysOn P.may_end self.now.plan rounds session.old session.new) }
    {
        if self.plan.has_ahead(session) {
            let ahead = self.plan.up_to_ticks(session.at(), rounds);
            let most = ahead.min(u64::from(EVENTS_MOST)) as u32;
            return self.go_on_by(alloc, session, word, most, patience, answer);
        }
        self.play(alloc, session, word, rounds, patience, answer)
    }

    /// Sends so many Runs, and tells what came of them.
    fn step<P: Patience>(
        &self,
        alloc: Global,
        session: &mut Session,
        word: &Word,
        count: u32,
        patience: &mut P,
        answer: &mut String,
    ) -> Result<(), AllocError>
        ensures done { Steps P.may_end count session.old session.new }
        ensures told { OnOk result
            (StepTells P.may_end word.now count session.old session.new
            (string_bytes answer.old) (string_bytes answer.new)) }
    {
        let journey = motion::step(session, count, patience);
        self.tell(alloc, session, word, &journey, answer)
    }

    /// Sends events by the plan, so many at most, up to an aim or a mark, and tells what came of them.
    fn search_within<P: Patience>(
        &self,
        alloc: Global,
        session: &mut Session,
        word: &Word,
        most: u32,
        aim: &Aim,
        marks: &[Mark],
        patience: &mut P,
        answer: &mut String,
    ) -> Result<(), AllocError>
        ensures done { IfOk result (λ _. SearchesWithin P.may_end self.now.plan (met_from session.old aim.now marks.now) most session.old session.new) }
        ensures told { OnOk result
            (SearchTellsWithin P.may_end self.now.plan word.now (met_from session.old aim.now marks.now) most
            session.old session.new (string_bytes answer.old) (string_bytes answer.new)) }
        ensures failed { IfErr result (λ _. (session.new ≡ session.old) ⊎ SearchesWithin P.may_end self.now.plan (met_from session.old aim.now marks.now) most session.old session.new) }
    {
        let mut output = Output::new(alloc)?;
        let journey = motion::search(session, &self.plan, most, aim, marks, patience, &mut output);
        self.tell_shown(alloc, session, word, &journey, &output, answer)
    }

    /// Sends events by the plan, as many as a word may send, up to an aim or a mark, and tells what came of them.
    fn search<P: Patience>(
        &self,
        alloc: Global,
        session: &mut Session,
        word: &Word,
        aim: &Aim,
        marks: &[Mark],
        patience: &mut P,
        answer: &mut String,
    ) -> Result<(), AllocError>
        ensures done { IfOk result (λ _. Searches P.may_end self.now.plan (met_from session.old aim.now marks.now) session.old session.new) }
        ensures told { OnOk result
            (SearchTells P.may_end self.now.plan word.now (met_from session.old aim.now marks.now)
            session.old session.new (string_bytes answer.old) (string_bytes answer.new)) }
        ensures failed { IfErr result (λ _. (session.new ≡ session.old) ⊎ Searches P.may_end self.now.plan (met_from session.old aim.now marks.now) session.old session.new) }
    {
        self.search_within(
            alloc,
            session,
            word,
            EVENTS_MOST,
            aim,
            marks,
            patience,
            answer,
        )
    }

    /// Sends events by the plan up to the end of an instruction, and of the call that it makes.
    fn next<P: Patience>(
        &self,
        alloc: Global,
        session: &mut Session,
        word: &Word,
        patience: &mut P,
        answer: &mut String,
    ) -> Result<(), AllocError>
        ensures done { IfOk result (λ _. Searches P.may_end self.now.plan (met_from session.old (aim_in session.old.machine.world) []) session.old session.new) }
        ensures told { OnOk result
            (SearchTells P.may_end self.now.plan word.now (met_from session.old (aim_in session.old.machine.world) [])
            session.old session.new (string_bytes answer.old) (string_bytes answer.new)) }
        ensures failed { IfErr result (λ _. (session.new ≡ session.old) ⊎ Searches P.may_end self.now.plan (met_from session.old (aim_in session.old.machine.world) []) session.old session.new) }
    {
        let aim = motion::aim_in(session.machine());
        self.search(alloc, session, word, &aim, &[], patience, answer)
    }

    /// Sends events by the plan up to the first Run that meets one of these marks, or by which a process is gone by a fault.
    fn go_on<P: Patience>(
        &self,
        alloc: Global,
        session: &mut Session,
        word: &Word,
        marks: &Marks,
        patience: &mut P,
        answer: &mut String,
    ) -> Result<(), AllocError>
        ensures done { IfOk result (λ _. Searches P.may_end self.now.plan (met_from session.old (On Fault) marks.now.items) session.old session.new) }
        ensures told { OnOk result
            (SearchTells P.may_end self.now.plan word.now (met_from session.old (On Fault) marks.now.items)
            session.old session.new (string_bytes answer.old) (string_bytes answer.new)) }
        ensures failed { IfErr result (λ _. (session.new ≡ session.old) ⊎ Searches P.may_end self.now.plan (met_from session.old (On Fault) marks.now.items) session.old session.new) }
    {
        let aim = Aim::On(Condition::Fault);
        self.search(
            alloc,
            session,
            word,
            &aim,
            marks.as_slice(),
            patience,
            answer,
        )
    }

    /// Sends events by the plan up to the end of the function in which the process that runs is; none if it isn't known.
    fn finish<P: Patience>(
        &self,
        alloc: Global,
        session: &mut Session,
        word: &Word,
        patience: &mut P,
        answer: &mut String,
    ) -> Result<(), AllocError>
        ensures done { IfOk result (λ _. Finishes P.may_end self.now.plan session.old session.new) }
        ensures told { OnOk result
            (FinishTells self.now.sources P.may_end self.now.plan word.now session.old session.new
            (string_bytes answer.old) (string_bytes answer.new)) }
        ensures failed { IfErr result (λ _. (session.new ≡ session.old) ⊎ Finishes P.may_end self.now.plan session.old session.new) }
    {
        match motion::finish_aim(alloc, session, self.sources.as_ref())? {
            Some(aim) => self.search(alloc, session, word, &aim, &[], patience, answer),
            None => show_no_return(answer),
        }
    }

    /// Sends events by the plan up to a goal; none if it is asked of a process that isn't there.
    fn seek<P: Patience>(
        &self,
        alloc: Global,
        session: &mut Session,
        word: &Word,
        goal: &Goal,
        patience: &mut P,
        answer: &mut String,
    ) -> Result<(), AllocError>
        ensures done { IfOk result (λ _. SearchesGoal P.may_end self.now.plan goal.now session.old session.new) }
        ensures told { OnOk result
            (GoalTells P.may_end self.now.plan word.now goal.now session.old session.new
            (string_bytes answer.old) (string_bytes answer.new)) }
        ensures failed { IfErr result (λ _. (session.new ≡ session.old) ⊎ SearchesGoal P.may_end self.now.plan goal.now session.old session.new) }
    {
        match self.aim(session, goal) {
            Some(aim) => self.search(alloc, session, word, &aim, &[], patience, answer),
            None => show_nobody(answer),
        }
    }

    /// Goes back to the last Run that was a goal, and tells where that is.
    fn seek_back<P: Patience>(
        &self,
        alloc: Global,
        session: &mut Session,
        goal: &Goal,
        patience: &mut P,
        answer: &mut String,
    ) -> Result<(), AllocError>
        ensures done { SeeksBack goal.now session.old session.new }
        ensures told { OnOk result
            (SeekBackTells P.may_end goal.now session.old session.new
            (string_bytes answer.old) (string_bytes answer.new)) }
    {
        match self.aim(session, goal) {
            Some(aim) => self.go_back_until(alloc, session, &aim, patience, answer),
            None => show_nobody(answer),
        }
    }

    /// Goes back to the last Run that was an aim, and tells where that is.
    fn go_back_until<P: Patience>(
        &self,
        alloc: Global,
        session: &mut Session,
        aim: &Aim,
        patience: &mut P,
        answer: &mut String,
    ) -> Result<(), AllocError>
        ensures done { (session.new ≡ session.old) ⊎ ((taken : Option ℕ) × GoesBackUntil aim.now taken session.old session.new) }
        ensures told { OnOk result
            (BackUntilTells P.may_end aim.now session.old session.new
            (string_bytes answer.old) (string_bytes answer.new)) }
    {
        match motion::back_until(alloc, session, aim, patience) {
            Ok(Some(taken)) => self.tell_back(alloc, session, taken, answer),
            Ok(None) => show_never(answer),
            Err(why) => show_unplayed(&why, answer),
        }
    }

    /// Plays so many rounds, and tells what came of them.
    fn play<P: Patience>(
        &self,
        alloc: Global,
        session: &mut Session,
        word: &Word,
        rounds: u32,
        patience: &mut P,
        answer: &mut String,
    ) -> Result<(), AllocError>
        ensures done { IfOk result (λ _. Plays P.may_end self.now.plan rounds session.old session.new) }
        ensures told { OnOk result
            (RoundsTell P.may_end self.now.plan word.now rounds session.old session.new
            (string_bytes answer.old) (string_bytes answer.new)) }
        ensures failed { IfErr result (λ _. (session.new ≡ session.old) ⊎ Plays P.may_end self.now.plan rounds session.old session.new) }
    {
        let mut output = Output::new(alloc)?;
        let journey = motion::play_rounds(
            session,
            self.plan.quantum(),
            rounds,
            patience,
            &mut output,
        );
        self.tell_shown(alloc, session, word, &journey, &output, answer)
    }

    /// Sends an event so many times, and tells what came of it.
    fn send_often<P: Patience>(
        &self,
        alloc: Global,
        session: &mut Session,
        word: &Word,
        event: Event,
        count: u32,
        patience: &mut P,
        answer: &mut String,
    ) -> Result<(), AllocError>
        ensures done { IfOk result (λ _. SendsFirst P.may_end (λ n. replicate n (event_of event)) count session.old session.new) }
        ensures told { OnOk result
            (SendsTell P.may_end word.now (λ n. replicate n (event_of event)) count
            session.old session.new (string_bytes answer.old) (string_bytes answer.new)) }
        ensures failed { IfErr result (λ _. (session.new ≡ session.old) ⊎ SendsFirst P.may_end (λ n. replicate n (event_of event)) count session.old session.new) }
    {
        let mut output = Output::new(alloc)?;
        let journey = motion::send_often(session, event, count, patience, &mut output);
        self.tell_shown(alloc, session, word, &journey, &output, answer)
    }

    /// Types keys, and tells what came of them.
    fn type_in(
        &self,
        alloc: Global,
        session: &mut Session,
        word: &Word,
        keys: &Keys,
        answer: &mut String,
    ) -> Result<(), AllocError>
        ensures done { IfOk result (λ _. SendsFirst false (λ n. map runs.Key (take n keys.now.items)) (length keys.now.items) session.old session.new) }
        ensures told { OnOk result
            (SendsTell false word.now (λ n. map runs.Key (take n keys.now.items))
            (length keys.now.items) session.old session.new (string_bytes answer.old) (string_bytes answer.new)) }
        ensures failed { IfErr result (λ _. (session.new ≡ session.old) ⊎ SendsFirst false (λ n. map runs.Key (take n keys.now.items)) (length keys.now.items) session.old session.new) }
    {
        let mut output = Output::new(alloc)?;
        let journey = motion::type_keys(session, keys.as_slice(), &mut output);
        self.tell_shown(alloc, session, word, &journey, &output, answer)
    }

    /// What a goal waits for; `None` if it is asked of a process, and there is none.
    fn aim(&self, session: &Session, goal: &Goal) -> Option<Aim>
        ensures { IsAimOf goal.now session.now result }
    {
        match *goal {
            Goal::Call(number) => Some(Aim::On(Condition::Call(number))),
            Goal::Pc { address, pid } => {
                let pid = focus(session, pid)?;
                Some(Aim::On(Condition::At { pid, pc: address }))
            }
            Goal::Store(address) => Some(Aim::On(Condition::StoreTo(address))),
            Goal::Fault => Some(Aim::On(Condition::Fault)),
            Goal::Exit => Some(Aim::On(Condition::Exit)),
            Goal::Line => {
                let pid = focus(session, None)?;
                motion::line_aim(session, self.sources.as_ref(), pid)
            }
        }
    }

    /// Writes what was sent, and who runs now.
    fn tell(
        &self,
        alloc: Global,
        session: &Session,
        word: &Word,
        journey: &Journey,
        answer: &mut String,
    ) -> Result<(), AllocError>
        ensures { OnOk result
            (Writes (string_bytes answer.old) (string_bytes answer.new)
            (IsSentText word.now session.now journey.now.sent journey.now.stop
            (option_map outcome_of journey.now.last) [])) }
    {
        show_sent(word, journey, answer)?;
        show_reason(alloc, session, &journey.last, answer)?;
        self.show_focus(alloc, session, None, 1, answer)
    }

    /// Writes what was sent, what the console showed, and who runs now.
    fn tell_shown(
        &self,
        alloc: Global,
        session: &Session,
        word: &Word,
        journey: &Journey,
        output: &Output,
        answer: &mut String,
    ) -> Result<(), AllocError>
        ensures { OnOk result
            (Writes (string_bytes answer.old) (string_bytes answer.new)
            (IsSentText word.now session.now journey.now.sent journey.now.stop
            (option_map outcome_of journey.now.last) (output_text output.now))) }
    {
        show_sent(word, journey, answer)?;
        show_reason(alloc, session, &journey.last, answer)?;
        show_output(output, answer)?;
        self.show_focus(alloc, session, None, 1, answer)
    }

    /// Writes what a word that looks asks for; nothing for any other word.
    fn look(
        &mut self,
        alloc: Global,
        session: &Session,
        word: &Word,
        answer: &mut String,
    ) -> Result<(), AllocError>
        ensures shows { OnOk result
            (Shows self.old.shown session.now word.now
            (string_bytes answer.old) (string_bytes answer.new)) }
        ensures plan { self.new.plan ≡ self.old.plan }
    {
        match word {
            Word::Where { pid } => self.show_focus(alloc, session, *pid, INSTRUCTIONS, answer),
            Word::At => self.show_focus(alloc, session, None, 0, answer),
            Word::Processes { from } => show_processes(session, *from, answer),
            Word::Frames { frame } => show_frames(alloc, session, *frame, answer),
            Word::Pipe => show_pipes(session, answer),
            Word::Console => show_console(session, answer),
            Word::Value(value) => show_value(*value, answer),
            Word::Events { from } => show_events(session, *from, answer),
            Word::Trace { count } => show_trace(session, *count, answer),
            Word::Help { topic } => show_all_help(*topic, answer),
            Word::Registers { pid } => show_registers_of(session, *pid, answer),
            Word::Descriptors { pid } => show_descriptors_of(session, *pid, answer),
            Word::Pages { from, pid } => show_pages_of(alloc, session, *pid, *from, answer),
            Word::Memory {
                address,
                count,
                pid,
            } => self.show_memory_of(session, *pid, *address, *count, answer),
            Word::Numbers {
                from,
                count,
                size,
                pid,
            } => show_numbers_of(session, *pid, *from, *size, *count, answer),
            Word::Callers { pid } => self.show_calls_of(alloc, session, *pid, answer),
            Word::Listing { from, count, pid } => {
                self.show_listing_of(alloc, session, *pid, *from, *count, answer)
            }
            Word::Marks | Word::Mark { .. } | Word::Delete { .. } => {
                see_to_marks(
                    &mut self.marks,
                    session,
                    self.sources.as_ref(),
                    word,
                    answer,
                )
            }
            _ => Ok(()),
        }
    }

    /// Keeps a line that is shown after each word that moves the session, forgets some, or shows them, as the word asks.
    fn see_to_displays(
        &mut self,
        alloc: Global,
        session: &Session,
        display: Display,
        answer: &mut String,
    ) -> Result<(), AllocError>
        ensures kept { self.new.displays.kept.items ≡ displays_after display self.old.displays }
        ensures chosen { self.new.chosen ≡ self.old.chosen }
        ensures sources { self.new.sources ≡ self.old.sources }
        ensures plan { self.new.plan ≡ self.old.plan }
    {
        match display {
            Display::Show => self.show_displays(alloc, session, answer),
            Display::Add(line) => {
                let has_room = self.displays.add(line);
                self.show_last_display(alloc, session, has_room, answer)
            }
            Display::Forget { number } => self.displays.delete(number, answer),
            Display::List => show_kept(&self.displays, answer),
        }
    }

    /// Writes what the line tells that was given last to be shown again and again, or that there was no room for it.
    fn show_last_display(
        &self,
        alloc: Global,
        session: &Session,
        has_room: bool,
        answer: &mut String,
    ) -> Result<(), AllocError> {
        if !has_room {
            return answer.push_str("there are 20 displays, and no more: undisplay ends them\n");
        }
        match self.displays.as_slice().last() {
            Some(displayed) => self.show_displayed(alloc, session, displayed, answer),
            None => Ok(()),
        }
    }

    /// Writes what the lines tell that are shown again and again.
    fn show_displays(
        &self,
        alloc: Global,
        session: &Session,
        answer: &mut String,
    ) -> Result<(), AllocError>
        ensures { OnOk result (AreDisplaysTold self.now.sources self.now.chosen session.now self.now.displays.kept.items (string_bytes answer.old) (string_bytes answer.new)) }
    {
        for displayed in self.displays.as_slice() {
            self.show_displayed(alloc, session, displayed, answer)?;
        }
        Ok(())
    }

    /// Writes what a line tells that is shown again and again, or why it tells nothing.
    fn show_displayed(
        &self,
        alloc: Global,
        session: &Session,
        displayed: &Displayed,
        answer: &mut String,
    ) -> Result<(), AllocError>
        ensures { OnOk result (IsDisplayTold self.now.sources self.now.chosen session.now displayed.now (string_bytes answer.old) (string_bytes answer.new)) }
    {
        let number = displayed.number;
        let line = displayed.line.as_str();
        write!(answer, "{number}: ")?;
        if self.tells_of_c(alloc, session, line, answer)? {
            return Ok(());
        }
        self.show_line(alloc, session, line, answer)?;
        Ok(())
    }

    /// Writes a line, and what its word tells of numbers or instructions, or why it is none.
    fn show_line(
        &self,
        alloc: Global,
        session: &Session,
        line: &str,
        answer: &mut String,
    ) -> Result<(), AllocError>
        ensures { OnOk result (IsLineTold session.now line.now (string_bytes answer.old) (string_bytes answer.new)) }
    {
        match self.read(session, line) {
            Ok(word) => {
                self.show_read(alloc, session, line, &word, answer)?;
                Ok(())
            }
            Err(error) => {
                let kind = error.kind;
                let why = format!(in alloc; "{kind}")?;
                writeln!(answer, "{line}: {why}")
            }
        }
    }

    /// Writes a line, and what its word tells of numbers or instructions.
    fn show_read(
        &self,
        alloc: Global,
        session: &Session,
        line: &str,
        word: &Word,
        answer: &mut String,
    ) -> Result<(), AllocError>
        ensures { OnOk result (IsLineRead session.now line.now word.now (string_bytes answer.old) (string_bytes answer.new)) }
    {
        writeln!(answer, "{line}")?;
        self.show_word(alloc, session, word, answer)?;
        Ok(())
    }

    /// Writes what a word tells of numbers or instructions.
    fn show_word(
        &self,
        alloc: Global,
        session: &Session,
        word: &Word,
        answer: &mut String,
    ) -> Result<(), AllocError>
        ensures { OnOk result (ShowsRead session.now word.now (string_bytes answer.old) (string_bytes answer.new)) }
    {
        match word {
            Word::Value(value) => show_value(*value, answer),
            Word::Numbers {
                from,
                count,
                size,
                pid,
            } => show_numbers_of(session, *pid, *from, *size, *count, answer),
            Word::Listing { from, count, pid } => {
                self.show_listing_of(alloc, session, *pid, *from, *count, answer)
            }
            _ => Ok(()),
        }
    }

    /// Writes the calls that led the process that a word looks at to where it is.
    fn show_calls_of(
        &self,
        alloc: Global,
        session: &Session,
        named: Option<Pid>,
        answer: &mut String,
    ) -> Result<(), AllocError>
        ensures { OnOk result
            (Writes (string_bytes answer.old) (string_bytes answer.new)
            (IsOfFocus session.now named (λ p. IsProcessText session.now p (process_at session.now.machine.world p)))) }
    {
        let Some(pid) = focus(session, named) else {
            return show_nobody(answer);
        };
        let told = told_calls(alloc, session, self.sources.as_ref(), pid)?;
        show_process(session, pid, told.as_str(), answer)
    }

    /// Writes so many instructions of the process that a word looks at, from an address on.
    fn show_listing_of(
        &self,
        alloc: Global,
        session: &Session,
        named: Option<Pid>,
        from: u64,
        count: u32,
        answer: &mut String,
    ) -> Result<(), AllocError>
        ensures { OnOk result
            (Writes (string_bytes answer.old) (string_bytes answer.new)
            (IsOfFocus session.now named (λ p. IsProcessText session.now p (process_at session.now.machine.world p)))) }
    {
        let Some(pid) = focus(session, named) else {
            return show_nobody(answer);
        };
        let told = listed_from(alloc, session, self.sources.as_ref(), pid, from, count)?;
        show_process(session, pid, told.as_str(), answer)
    }

    /// Writes so many bytes of the process that a word looks at, from this address on, or after those that were shown
    /// last.
    fn show_memory_of(
        &mut self,
        session: &Session,
        named: Option<Pid>,
        address: Option<u64>,
        count: u32,
        answer: &mut String,
    ) -> Result<(), AllocError>
        ensures shows { OnOk result
            (Writes (string_bytes answer.old) (string_bytes answer.new)
            (IsOfFocus session.now named
            (λ p text. text ≡ memory_shown session.now p (unwrap_or address self.old.shown) count))) }
        ensures plan { self.new.plan ≡ self.old.plan }
    {
        let Some(pid) = focus(session, named) else {
            return show_nobody(answer);
        };
        let from = address.unwrap_or(self.shown);
        self.shown = from.wrapping_add(u64::from(count));
        show_memory(session, pid, from, count, answer)
    }
}
