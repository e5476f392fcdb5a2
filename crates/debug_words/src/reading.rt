//! Reading a line: what it asks for, or why it asks for nothing.
ghost use Rattle.std.specs.Prelude.{◌≡◌, IfOk};
ghost use Rattle.debug_words.specs.Counted.{most_of};
ghost use Rattle.debug_words.specs.Ranges.{UpTo, IsFormInRange, IsInRange};

use crate::fault::{WordError, WordErrorKind};
use crate::forms::{Form, form_of};
use crate::keys::keys_of;
use crate::names::{Names, Spot};
use crate::numbers::{number_in, number_of};
use crate::tokens::Tokens;
use crate::topics::Topic;
use crate::vocabulary::{
    AskedMarks, BYTES_MOST, EVENTS_MOST, Goal, LISTED_MOST, Mark, Marks, NOTES_MOST, OFTEN_MOST,
    ROUNDS_MOST, Size, Word,
};
use kernel_calls::KernelCall;
use xk_base::limits::{FRAMES_MAX, PID_MAX};
use xk_base::{Frame, Pid};

/// The greatest number of a call that is looked for: 2^31 - 1.
const CALLS_LAST: u64 = 2_147_483_647;

/// The first line of a file: if it, or one behind it, has a place, lines are known.
const FIRST_LINE: &str = "1";

/// How many bytes of memory are shown where no number is given.
const BYTES_USUAL: u32 = 64;

/// How many instructions are listed where no number is given.
const LISTED_USUAL: u32 = 16;

/// How many notes of the trace are shown where no number is given.
const NOTES_USUAL: u32 = 20;

/// The number at a place, in a range, which may be left out; nothing may stand behind it.
fn count<'a>(
    tokens: &Tokens<'a>,
    place: usize,
    usual: u32,
    most: u32,
) -> Result<u32, WordErrorKind<'a>>
    requires { UpTo most usual }
    ensures { IfOk result (λ n. UpTo most n) }
{
    let Some(text) = tokens.get(place) else {
        return Ok(usual);
    };
    let number = count_of(text, most)?;
    match tokens.end(place.saturating_add(1)) {
        Ok(()) => Ok(number),
        Err(kind) => Err(kind),
    }
}

/// The number that a text writes: 1 at least, and at most this.
fn count_of<'a>(text: &'a str, most: u32) -> Result<u32, WordErrorKind<'a>>
    ensures { IfOk result (λ n. UpTo most n) }
{
    let number = number_in(text, 1, u64::from(most))?;
    Ok(number as u32)
}

/// The pid that a text writes.
fn pid_of<'a>(text: &'a str) -> Result<Pid, WordErrorKind<'a>> {
    let number = number_in(text, 1, u64::from(PID_MAX))?;
    Ok(Pid::new(number as u32))
}

/// `of P` at a place, which may be left out; nothing may stand behind it.
fn owner<'a>(tokens: &Tokens<'a>, place: usize) -> Result<Option<Pid>, WordErrorKind<'a>> {
    let Some(word) = tokens.get(place) else {
        return Ok(None);
    };
    if word != "of" {
        return Err(WordErrorKind::TooMuch(word));
    }
    let Some(text) = tokens.get(place.saturating_add(1)) else {
        return Err(WordErrorKind::Missing("a pid"));
    };
    match pid_of(text) {
        Ok(pid) => owner_ended(tokens, place.saturating_add(2), pid),
        Err(kind) => Err(kind),
    }
}

/// This pid, if nothing stands at a place.
fn owner_ended<'a>(
    tokens: &Tokens<'a>,
    place: usize,
    pid: Pid,
) -> Result<Option<Pid>, WordErrorKind<'a>> {
    match tokens.end(place) {
        Ok(()) => Ok(Some(pid)),
        Err(kind) => Err(kind),
    }
}

/// A name, and the number that stands behind it and a `+`: 0 if none does.
fn with_offset(text: &str) -> (&str, u64) {
    let Some((name, digits)) = text.rsplit_once('+') else {
        return (text, 0);
    };
    match number_of(digits) {
        Ok(offset) => (name, offset),
        Err(_) => (text, 0),
    }
}

/// The number that a text writes, or the one that it is a name of, in the process of this pid, or in the one that words
/// look at.
fn named_number<'a, N: Names>(
    text: &'a str,
    names: &N,
    pid: &Option<Pid>,
) -> Result<u64, WordErrorKind<'a>> {
    if let Ok(number) = number_of(text) {
        return Ok(number);
    }
    let (name, offset) = with_offset(text);
    match names.number(name, pid) {
        Some(number) => Ok(number.wrapping_add(offset)),
        None => Err(WordErrorKind::NotANumber(text)),
    }
}

/// The address that a text writes, or the one that it is a name of, with its program.
fn named_spot<N: Names>(text: &str, names: &N) -> Option<Spot> {
    if let Ok(address) = number_of(text) {
        let program = names.program()?;
        return Some(Spot { program, address });
    }
    let (name, offset) = with_offset(text);
    let spot = names.spot(name)?;
    Some(Spot {
        program: spot.program,
        address: spot.address.wrapping_add(offset),
    })
}

/// The address at a place, which has to be there.
fn address<'a, N: Names>(
    tokens: &Tokens<'a>,
    place: usize,
    names: &N,
    pid: &Option<Pid>,
) -> Result<u64, WordErrorKind<'a>> {
    match tokens.get(place) {
        None => Err(WordErrorKind::Missing("an address or a name")),
        Some(text) => named_number(text, names, pid),
    }
}

/// The call that a text names, by its name or its number.
fn call_of<'a>(text: &'a str) -> Result<i32, WordErrorKind<'a>> {
    if let Some(call) = KernelCall::of_name(text) {
        return Ok(call.number());
    }
    match number_in(text, 0, CALLS_LAST) {
        Ok(number) => Ok(number as i32),
        Err(WordErrorKind::NotANumber(_)) => Err(WordErrorKind::NotThis {
            text,
            wanted: "a call's name or number",
        }),
        Err(error) => Err(error),
    }
}

/// `call CALL`, where the first of these stands at a place.
fn goal_call<'a>(tokens: &Tokens<'a>, place: usize) -> Result<Goal, WordErrorKind<'a>> {
    let Some(text) = tokens.get(place.saturating_add(1)) else {
        return Err(WordErrorKind::Missing("a call's name or number"));
    };
    let number = call_of(text)?;
    goal_ended(tokens, place.saturating_add(2), Goal::Call(number))
}

/// An address or a name, without the `*` that gdb writes before it.
fn without_star<'a>(text: &'a str) -> &'a str {
    text.strip_prefix('*').unwrap_or(text)
}

/// The address at a place, of this process, as a goal.
fn goal_at<'a, N: Names>(
    tokens: &Tokens<'a>,
    place: usize,
    names: &N,
    pid: Option<Pid>,
) -> Result<Goal, WordErrorKind<'a>> {
    let Some(text) = tokens.get(place) else {
        return Err(WordErrorKind::Missing("an address or a name"));
    };
    match named_number(without_star(text), names, &pid) {
        Ok(address) => Ok(Goal::Pc { address, pid }),
        Err(kind) => Err(kind),
    }
}

/// `PLACE [of P]`, where the first of these stands at a place.
fn goal_pc<'a, N: Names>(
    tokens: &Tokens<'a>,
    place: usize,
    names: &N,
) -> Result<Goal, WordErrorKind<'a>> {
    match owner(tokens, place.saturating_add(1)) {
        Ok(pid) => goal_at(tokens, place, names, pid),
        Err(kind) => Err(kind),
    }
}

/// A PLACE that begins at a place of the line, as a goal.
fn goal_place<'a, N: Names>(
    text: &'a str,
    tokens: &Tokens<'a>,
    place: usize,
    names: &N,
) -> Result<Goal, WordErrorKind<'a>> {
    match goal_pc(tokens, place, names) {
        Err(WordErrorKind::NotANumber(_)) => Err(WordErrorKind::NotThis {
            text,
            wanted: "a goal or a place",
        }),
        read => read,
    }
}

/// `store PLACE`, where the first of these stands at a place.
fn goal_store<'a, N: Names>(
    tokens: &Tokens<'a>,
    place: usize,
    names: &N,
) -> Result<Goal, WordErrorKind<'a>> {
    match address(tokens, place.saturating_add(1), names, &None) {
        Ok(address) => goal_ended(tokens, place.saturating_add(2), Goal::Store(address)),
        Err(kind) => Err(kind),
    }
}

/// This goal, if nothing stands at a place.
fn goal_ended<'a>(
    tokens: &Tokens<'a>,
    place: usize,
    goal: Goal,
) -> Result<Goal, WordErrorKind<'a>> {
    match tokens.end(place) {
        Ok(()) => Ok(goal),
        Err(kind) => Err(kind),
    }
}

/// The goal that begins at a place; another line, if nothing stands there.
fn goal<'a, N: Names>(
    tokens: &Tokens<'a>,
    place: usize,
    names: &N,
) -> Result<Goal, WordErrorKind<'a>> {
    let Some(text) = tokens.get(place) else {
        return Ok(Goal::Line);
    };
    let next = place.saturating_add(1);
    match text {
        "call" => goal_call(tokens, place),
        "fork" => goal_ended(tokens, next, Goal::Call(KernelCall::Fork.number())),
        "pc" => goal_pc(tokens, next, names),
        "store" => goal_store(tokens, place, names),
        "fault" => goal_ended(tokens, next, Goal::Fault),
        "exit" => goal_ended(tokens, next, Goal::Exit),
        "line" => goal_ended(tokens, next, Goal::Line),
        _ => goal_place(text, tokens, place, names),
    }
}

/// The text at a place, where it isn't `of`.
fn number_at<'a>(tokens: &Tokens<'a>, place: usize) -> Option<&'a str> {
    match tokens.get(place) {
        Some(text) if text != "of" => Some(text),
        _ => None,
    }
}

/// Where `of P` may stand, behind a place of so many things at most that may be left out.
fn owner_place(tokens: &Tokens<'_>, from: usize, most: usize) -> usize {
    let mut place = from;
    for _ in 0..most {
        if number_at(tokens, place).is_some() {
            place = place.saturating_add(1);
        }
    }
    place
}

/// The address at a place, of a process, which may be left out.
fn if_address<'a, N: Names>(
    tokens: &Tokens<'a>,
    place: usize,
    names: &N,
    pid: &Option<Pid>,
) -> Result<Option<u64>, WordErrorKind<'a>> {
    let Some(text) = number_at(tokens, place) else {
        return Ok(None);
    };
    match named_number(text, names, pid) {
        Ok(address) => Ok(Some(address)),
        Err(kind) => Err(kind),
    }
}

/// The number at a place, in a range, which may be left out.
fn if_count<'a>(
    tokens: &Tokens<'a>,
    place: usize,
    usual: u32,
    most: u32,
) -> Result<u32, WordErrorKind<'a>>
    requires { UpTo most usual }
    ensures { IfOk result (λ n. UpTo most n) }
{
    match number_at(tokens, place) {
        Some(text) => count_of(text, most),
        None => Ok(usual),
    }
}

/// So many bytes of memory, from an address on, as a word.
fn memory_from<'a>(
    address: Option<u64>,
    count: Result<u32, WordErrorKind<'a>>,
    pid: Option<Pid>,
) -> Result<Word, WordErrorKind<'a>>
    requires { IfOk count (λ n. UpTo BYTES_MOST n) }
    ensures { IfOk result IsInRange }
{
    match count {
        Ok(count) => Ok(Word::Memory {
            address,
            count,
            pid,
        }),
        Err(kind) => Err(kind),
    }
}

/// What is asked of memory of this process.
fn memory_of<'a, N: Names>(
    tokens: &Tokens<'a>,
    names: &N,
    pid: Option<Pid>,
) -> Result<Word, WordErrorKind<'a>>
    ensures { IfOk result IsInRange }
{
    match if_address(tokens, 1, names, &pid) {
        Ok(address) => memory_from(address, if_count(tokens, 2, BYTES_USUAL, BYTES_MOST), pid),
        Err(kind) => Err(kind),
    }
}

/// What is asked of memory.
fn memory<'a, N: Names>(tokens: &Tokens<'a>, names: &N) -> Result<Word, WordErrorKind<'a>>
    ensures { IfOk result IsInRange }
{
    match owner(tokens, owner_place(tokens, 1, 2)) {
        Ok(pid) => memory_of(tokens, names, pid),
        Err(kind) => Err(kind),
    }
}

/// What is asked of pages of this process.
fn pages_of<'a, N: Names>(
    tokens: &Tokens<'a>,
    names: &N,
    pid: Option<Pid>,
) -> Result<Word, WordErrorKind<'a>>
    ensures { IfOk result IsInRange }
{
    match if_address(tokens, 1, names, &pid) {
        Ok(address) => Ok(Word::Pages {
            from: address.unwrap_or(0),
            pid,
        }),
        Err(kind) => Err(kind),
    }
}

/// What is asked of pages.
fn pages<'a, N: Names>(tokens: &Tokens<'a>, names: &N) -> Result<Word, WordErrorKind<'a>>
    ensures { IfOk result IsInRange }
{
    match owner(tokens, owner_place(tokens, 1, 1)) {
        Ok(pid) => pages_of(tokens, names, pid),
        Err(kind) => Err(kind),
    }
}

/// So many instructions, from an address on, as a word.
fn listing_from<'a>(
    from: u64,
    count: Result<u32, WordErrorKind<'a>>,
    pid: Option<Pid>,
) -> Result<Word, WordErrorKind<'a>>
    requires { IfOk count (λ n. UpTo LISTED_MOST n) }
    ensures { IfOk result IsInRange }
{
    match count {
        Ok(count) => Ok(Word::Listing { from, count, pid }),
        Err(kind) => Err(kind),
    }
}

/// What is asked of instructions of this process: from the pc on, if no address is given.
fn listing_of<'a, N: Names>(
    tokens: &Tokens<'a>,
    names: &N,
    pid: Option<Pid>,
) -> Result<Word, WordErrorKind<'a>>
    ensures { IfOk result IsInRange }
{
    match named_number(number_at(tokens, 1).unwrap_or("$pc"), names, &pid) {
        Ok(from) => listing_from(from, if_count(tokens, 2, LISTED_USUAL, LISTED_MOST), pid),
        Err(kind) => Err(kind),
    }
}

/// What is asked of instructions.
fn listing<'a, N: Names>(tokens: &Tokens<'a>, names: &N) -> Result<Word, WordErrorKind<'a>>
    ensures { IfOk result IsInRange }
{
    match owner(tokens, owner_place(tokens, 1, 2)) {
        Ok(pid) => listing_of(tokens, names, pid),
        Err(kind) => Err(kind),
    }
}

/// What is asked of memory from an address on, in a form.
fn formed(form: Form, from: u64, pid: Option<Pid>) -> Word
    requires { IsFormInRange form }
    ensures { IsInRange result }
{
    match form {
        Form::Numbers { count, size } => Word::Numbers {
            from,
            count,
            size,
            pid,
        },
        Form::Instructions { count } => Word::Listing { from, count, pid },
    }
}

/// What is asked of memory of this process, in a form.
fn numbers_of<'a, N: Names>(
    form: Form,
    tokens: &Tokens<'a>,
    names: &N,
    pid: Option<Pid>,
) -> Result<Word, WordErrorKind<'a>>
    requires { IsFormInRange form }
    ensures { IfOk result IsInRange }
{
    match address(tokens, 1, names, &pid) {
        Ok(from) => Ok(formed(form, from, pid)),
        Err(kind) => Err(kind),
    }
}

/// What is asked of memory in a form.
fn numbers_in<'a, N: Names>(
    form: Form,
    tokens: &Tokens<'a>,
    names: &N,
) -> Result<Word, WordErrorKind<'a>>
    requires { IsFormInRange form }
    ensures { IfOk result IsInRange }
{
    match owner(tokens, 2) {
        Ok(pid) => numbers_of(form, tokens, names, pid),
        Err(kind) => Err(kind),
    }
}

/// What is asked of numbers in memory, or of instructions, in a form as `8gx` or `4i`.
fn numbers<'a, N: Names>(
    form: &'a str,
    tokens: &Tokens<'a>,
    names: &N,
) -> Result<Word, WordErrorKind<'a>>
    ensures { IfOk result IsInRange }
{
    match form_of(form) {
        Ok(form) => numbers_in(form, tokens, names),
        Err(kind) => Err(kind),
    }
}

/// The number of eight bytes at a name's address, or behind a `*`.
fn number_there<'a, N: Names>(text: &'a str, names: &N) -> Result<Word, WordErrorKind<'a>>
    ensures { IfOk result IsInRange }
{
    match named_number(without_star(text), names, &None) {
        Ok(from) => Ok(Word::Numbers {
            from,
            count: 1,
            size: Size::Giant,
            pid: None,
        }),
        Err(kind) => Err(kind),
    }
}

/// A number, a register or a name's address.
fn value<'a, N: Names>(text: &'a str, names: &N) -> Result<Word, WordErrorKind<'a>>
    ensures { IfOk result IsInRange }
{
    match named_number(text.strip_prefix('&').unwrap_or(text), names, &None) {
        Ok(number) => Ok(Word::Value(number)),
        Err(kind) => Err(kind),
    }
}

/// What `print` asks for.
fn print<'a, N: Names>(tokens: &Tokens<'a>, names: &N) -> Result<Word, WordErrorKind<'a>>
    ensures { IfOk result IsInRange }
{
    let Some(text) = tokens.get(1) else {
        return Err(WordErrorKind::Missing("a register, a name or a number"));
    };
    if let Err(kind) = tokens.end(2) {
        return Err(kind);
    }
    if text.starts_with('$') || text.starts_with('&') || number_of(text).is_ok() {
        value(text, names)
    } else {
        number_there(text, names)
    }
}

/// The mark of a process at an address of a program.
fn mark_at(spot: &Spot) -> Mark {
    Mark::At {
        program: spot.program,
        address: spot.address,
    }
}

/// This mark alone.
fn one_mark(mark: Mark) -> AskedMarks {
    let mut marks = AskedMarks::new();
    let _ = marks.try_push(mark);
    marks
}

/// Whether a text is the number of a line, where a line may stand: it has decimal digits alone.
fn is_line_number(text: &str) -> bool {
    !text.is_empty() && text.bytes().all(|byte| byte.is_ascii_digit())
}

/// The mark at an address, or at a name's: each instruction stands at a multiple of 4.
fn address_mark<'a, N: Names>(text: &'a str, names: &N) -> Result<AskedMarks, WordErrorKind<'a>> {
    match named_spot(text, names) {
        Some(spot) if spot.address % 4 == 0 => Ok(one_mark(mark_at(&spot))),
        Some(_) => Err(WordErrorKind::NotThis {
            text,
            wanted: "an address that is a multiple of 4",
        }),
        None => Err(WordErrorKind::NotANumber(text)),
    }
}

/// What a text asks for that names no place: the mark at an address, but for a line that isn't there, where lines are known.
fn other_mark<'a, N: Names>(text: &'a str, names: &N) -> Result<AskedMarks, WordErrorKind<'a>> {
    if is_line_number(text) && !names.spots(FIRST_LINE).is_empty() {
        return Err(WordErrorKind::NotThis {
            text,
            wanted: "a line that has instructions, or an address as *24 or 0x18",
        });
    }
    address_mark(text, names)
}

/// The marks at all places of a text: of a name or a line, or of an address.
fn place_marks<'a, N: Names>(text: &'a str, names: &N) -> Result<AskedMarks, WordErrorKind<'a>> {
    if let Some(address) = text.strip_prefix('*') {
        return address_mark(address, names);
    }
    let spots = names.spots(text);
    if spots.is_empty() {
        return other_mark(text, names);
    }
    let mut marks = AskedMarks::new();
    for spot in spots.as_slice() {
        let _ = marks.try_push(mark_at(spot));
    }
    Ok(marks)
}

/// What `break` and `tbreak` ask for.
fn marked<'a, N: Names>(
    once: bool,
    tokens: &Tokens<'a>,
    names: &N,
) -> Result<Word, WordErrorKind<'a>>
    ensures { IfOk result IsInRange }
{
    let Some(text) = tokens.get(1) else {
        return Ok(Word::Marks);
    };
    match place_marks(text, names) {
        Ok(marks) => ended(tokens, 2, Word::Mark { marks, once }),
        Err(kind) => Err(kind),
    }
}

/// What `watch` asks for.
fn watched<'a, N: Names>(tokens: &Tokens<'a>, names: &N) -> Result<Word, WordErrorKind<'a>>
    ensures { IfOk result IsInRange }
{
    match address(tokens, 1, names, &None) {
        Ok(address) => ended(
            tokens,
            2,
            Word::Mark {
                marks: one_mark(Mark::Store(address)),
                once: false,
            },
        ),
        Err(kind) => Err(kind),
    }
}

/// What `delete` asks for.
fn deleted<'a>(tokens: &Tokens<'a>) -> Result<Word, WordErrorKind<'a>>
    ensures { IfOk result IsInRange }
{
    let Some(text) = tokens.get(1) else {
        return Ok(Word::Delete { number: None });
    };
    match count_of(text, u32::MAX) {
        Ok(number) => ended(
            tokens,
            2,
            Word::Delete {
                number: Some(number),
            },
        ),
        Err(kind) => Err(kind),
    }
}

/// What is asked of frames.
fn frames<'a>(tokens: &Tokens<'a>) -> Result<Word, WordErrorKind<'a>>
    ensures { IfOk result IsInRange }
{
    let Some(text) = tokens.get(1) else {
        return Ok(Word::Frames { frame: None });
    };
    let number = number_in(text, 0, u64::from(FRAMES_MAX) - 1)?;
    let frame = Some(Frame::new(number as u32));
    ended(tokens, 2, Word::Frames { frame })
}

/// What is asked of the events.
fn events<'a>(tokens: &Tokens<'a>) -> Result<Word, WordErrorKind<'a>>
    ensures { IfOk result IsInRange }
{
    let Some(text) = tokens.get(1) else {
        return Ok(Word::Events { from: None });
    };
    let from = number_of(text)?;
    ended(tokens, 2, Word::Events { from: Some(from) })
}

/// What `goto` asks for.
fn goto<'a>(tokens: &Tokens<'a>) -> Result<Word, WordErrorKind<'a>>
    ensures { IfOk result IsInRange }
{
    let Some(text) = tokens.get(1) else {
        return Err(WordErrorKind::Missing("a number of events"));
    };
    let place = number_of(text)?;
    ended(tokens, 2, Word::Goto { place })
}

/// What gdb's `info` asks for.
fn info<'a>(tokens: &Tokens<'a>) -> Result<Word, WordErrorKind<'a>>
    ensures { IfOk result IsInRange }
{
    let Some(text) = tokens.get(1) else {
        return Err(WordErrorKind::Missing("registers, breakpoints or threads"));
    };
    match text {
        "registers" | "r" => info_registers(tokens),
        "breakpoints" | "watchpoints" | "b" => ended(tokens, 2, Word::Marks),
        "threads" => ended(tokens, 2, Word::Processes { from: 1 }),
        _ => Err(WordErrorKind::NotThis {
            text,
            wanted: "registers, breakpoints or threads",
        }),
    }
}

/// What `info registers` asks for.
fn info_registers<'a>(tokens: &Tokens<'a>) -> Result<Word, WordErrorKind<'a>>
    ensures { IfOk result IsInRange }
{
    match owner(tokens, 2) {
        Ok(pid) => Ok(Word::Registers { pid }),
        Err(kind) => Err(kind),
    }
}

/// What help is asked for.
fn help<'a>(tokens: &Tokens<'a>) -> Result<Word, WordErrorKind<'a>>
    ensures { IfOk result IsInRange }
{
    let Some(text) = tokens.get(1) else {
        return Ok(Word::Help { topic: None });
    };
    let Some(topic) = Topic::named(text) else {
        return Err(WordErrorKind::Unknown(text));
    };
    ended(tokens, 2, Word::Help { topic: Some(topic) })
}

/// A number of events to go back by.
fn back_by<'a>(text: &'a str, tokens: &Tokens<'a>) -> Result<Word, WordErrorKind<'a>>
    ensures { IfOk result IsInRange }
{
    let count = number_in(text, 1, u64::MAX)?;
    ended(tokens, 2, Word::Back { count })
}

/// What `back until` asks for.
fn back_until<'a, N: Names>(tokens: &Tokens<'a>, names: &N) -> Result<Word, WordErrorKind<'a>>
    ensures { IfOk result IsInRange }
{
    match goal(tokens, 2, names) {
        Ok(goal) => Ok(Word::BackUntil(goal)),
        Err(kind) => Err(kind),
    }
}

/// What `back` asks for: a number of events, or a goal; one event, if neither is given.
fn back<'a, N: Names>(tokens: &Tokens<'a>, names: &N) -> Result<Word, WordErrorKind<'a>>
    ensures { IfOk result IsInRange }
{
    match tokens.get(1) {
        None => Ok(Word::Back { count: 1 }),
        Some("until") => back_until(tokens, names),
        Some(text) => back_by(text, tokens),
    }
}

/// This word, if nothing stands at a place.
fn ended<'a>(tokens: &Tokens<'a>, place: usize, word: Word) -> Result<Word, WordErrorKind<'a>>
    requires { IsInRange word }
    ensures { IfOk result IsInRange }
{
    match tokens.end(place) {
        Ok(()) => Ok(word),
        Err(kind) => Err(kind),
    }
}

/// Whether these are places of another program than the one at this place, or several.
fn are_elsewhere(marks: &AskedMarks, own: Option<usize>) -> bool {
    if marks.len() != 1 {
        return true;
    }
    match marks.as_slice().first() {
        Some(Mark::At { program, .. }) => own != Some(*program),
        _ => false,
    }
}

/// The places of a PLACE that stands alone at a place of the line, if it is of another program than the one which words
/// look at, or has several.
fn elsewhere<'a, N: Names>(
    tokens: &Tokens<'a>,
    place: usize,
    names: &N,
) -> Result<Option<Marks>, WordErrorKind<'a>> {
    let Some(text) = tokens.get(place) else {
        return Ok(None);
    };
    let Ok(asked) = place_marks(without_star(text), names) else {
        return Ok(None);
    };
    if !are_elsewhere(&asked, names.program()) || tokens.end(place.saturating_add(1)).is_err() {
        return Ok(None);
    }
    let mut marks = Marks::new();
    for mark in asked.as_slice() {
        let Ok(()) = marks.try_push(*mark) else {
            return Err(WordErrorKind::TooMuch(text));
        };
    }
    Ok(Some(marks))
}

/// What `until` asks for. A PLACE of another program, or one of several places, is met by whichever process runs that.
fn until<'a, N: Names>(tokens: &Tokens<'a>, names: &N) -> Result<Word, WordErrorKind<'a>>
    ensures { IfOk result IsInRange }
{
    let place = match tokens.get(1) {
        Some("pc") => 2,
        _ => 1,
    };
    if let Some(marks) = elsewhere(tokens, place, names)? {
        return Ok(Word::ToMark(marks));
    }
    match goal(tokens, 1, names) {
        Ok(goal) => Ok(Word::Until(goal)),
        Err(kind) => Err(kind),
    }
}

/// A word behind which a number may stand.
#[derive(Clone, Copy)]
enum Counted {
    Step,
    Run,
    Tick,
    Send,
    Processes,
    Trace,
}

impl Counted {
    /// The greatest number that may stand there.
    fn most(self) -> u32
        ensures { result ≡ most_of self }
    {
        match self {
            Counted::Step => EVENTS_MOST,
            Counted::Run => ROUNDS_MOST,
            Counted::Tick | Counted::Send => OFTEN_MOST,
            Counted::Processes => PID_MAX,
            Counted::Trace => NOTES_MOST,
        }
    }

    /// What the word asks for with this number.
    fn word(self, number: u32) -> Word
        requires { UpTo (most_of self) number }
        ensures { IsInRange result }
    {
        match self {
            Counted::Step => Word::Step { count: number },
            Counted::Run => Word::Run { rounds: number },
            Counted::Tick => Word::Tick { count: number },
            Counted::Send => Word::Send { count: number },
            Counted::Processes => Word::Processes { from: number },
            Counted::Trace => Word::Trace { count: number },
        }
    }
}

/// What such a word asks for: if no number is given, with the usual one.
fn numbered<'a>(kind: Counted, usual: u32, tokens: &Tokens<'a>) -> Result<Word, WordErrorKind<'a>>
    requires { UpTo (most_of kind) usual }
    ensures { IfOk result IsInRange }
{
    match count(tokens, 1, usual, kind.most()) {
        Ok(number) => Ok(kind.word(number)),
        Err(kind) => Err(kind),
    }
}

/// What a word asks for that looks at a process, and at nothing else.
fn looking(topic: Topic, pid: Option<Pid>) -> Word
    ensures { IsInRange result }
{
    match topic {
        Topic::Where => Word::Where { pid },
        Topic::Registers => Word::Registers { pid },
        Topic::Callers => Word::Callers { pid },
        _ => Word::Descriptors { pid },
    }
}

/// What a word asks for that may name a process, and nothing else.
fn owned<'a>(topic: Topic, tokens: &Tokens<'a>) -> Result<Word, WordErrorKind<'a>>
    ensures { IfOk result IsInRange }
{
    match owner(tokens, 1) {
        Ok(pid) => Ok(looking(topic, pid)),
        Err(kind) => Err(kind),
    }
}

/// What a word asks for behind which names may stand.
fn named<'a, N: Names>(
    topic: Topic,
    form: &'a str,
    tokens: &Tokens<'a>,
    names: &N,
) -> Result<Word, WordErrorKind<'a>>
    ensures { IfOk result IsInRange }
{
    match topic {
        Topic::Until => until(tokens, names),
        Topic::Back => back(tokens, names),
        Topic::Memory => memory(tokens, names),
        Topic::Pages => pages(tokens, names),
        Topic::Listing => listing(tokens, names),
        Topic::Numbers => numbers(form, tokens, names),
        Topic::Print => print(tokens, names),
        Topic::Break => marked(false, tokens, names),
        Topic::BreakOnce => marked(true, tokens, names),
        Topic::Watch => watched(tokens, names),
        _ => asked(topic, tokens),
    }
}

/// What a word asks for, with what stands behind it.
fn asked<'a>(topic: Topic, tokens: &Tokens<'a>) -> Result<Word, WordErrorKind<'a>>
    ensures { IfOk result IsInRange }
{
    match topic {
        Topic::Step => numbered(Counted::Step, 1, tokens),
        Topic::Run => numbered(Counted::Run, 1, tokens),
        Topic::Tick => numbered(Counted::Tick, 1, tokens),
        Topic::Send => numbered(Counted::Send, 1, tokens),
        Topic::Processes => numbered(Counted::Processes, 1, tokens),
        Topic::Trace => numbered(Counted::Trace, NOTES_USUAL, tokens),
        Topic::Where | Topic::Registers | Topic::Descriptors | Topic::Callers => {
            owned(topic, tokens)
        }
        Topic::Delete => deleted(tokens),
        Topic::Frames => frames(tokens),
        Topic::Events => events(tokens),
        Topic::Goto => goto(tokens),
        Topic::Info => info(tokens),
        Topic::Next => ended(tokens, 1, Word::Next),
        Topic::Finish => ended(tokens, 1, Word::Finish),
        Topic::Continue => ended(tokens, 1, Word::Continue),
        Topic::Quit => ended(tokens, 1, Word::Quit),
        Topic::Pipe => ended(tokens, 1, Word::Pipe),
        Topic::Console => ended(tokens, 1, Word::Console),
        Topic::At => ended(tokens, 1, Word::At),
        _ => help(tokens),
    }
}

/// What stands behind the first word of a line, and one blank.
fn behind_first(line: &str) -> &str {
    let line = line.trim_start();
    match line.split_once(|c: char| c.is_whitespace()) {
        Some((_first, rest)) => rest,
        None => "",
    }
}

/// What a line asks for that begins with this word, behind which a form may stand.
fn read<'a, N: Names>(
    topic: Topic,
    form: &'a str,
    line: &'a str,
    tokens: &Tokens<'a>,
    names: &N,
) -> Result<Word, WordErrorKind<'a>>
    ensures { IfOk result IsInRange }
{
    match topic {
        Topic::Key => keyed(behind_first(line)),
        _ => named(topic, form, tokens, names),
    }
}

/// The keys of a text, as a word.
fn keyed<'a>(text: &'a str) -> Result<Word, WordErrorKind<'a>>
    ensures { IfOk result IsInRange }
{
    match keys_of(text) {
        Ok(keys) => Ok(Word::Key(keys)),
        Err(kind) => Err(kind),
    }
}

impl Word {
    ghost use Rattle.std.specs.Prelude.{IfOk};
    ghost use Rattle.debug_words.specs.Ranges.{IsInRange};

    /// What a line asks for. Blanks at its ends don't count, but for those of the text of `key`.
    ///
    /// # Errors
    ///
    /// What is wrong with the line, if it is none of the forms that `help` lists.
    pub fn of<'a, N: Names>(line: &'a str, names: &N) -> Result<Word, WordError<'a>>
        ensures { IfOk result IsInRange }
    {
        let tokens = Tokens::of(line);
        let Some(first) = tokens.get(0) else {
            return Ok(Word::Nothing);
        };
        if first.starts_with('#') {
            return Ok(Word::Nothing);
        }
        let (name, form) = first.split_once('/').unwrap_or((first, ""));
        let Some(topic) = Topic::with_form(name, form) else {
            return Err(WordError {
                kind: WordErrorKind::Unknown(first),
                topic: None,
            });
        };
        match read(topic, form, line, &tokens, names) {
            Ok(word) => Ok(word),
            Err(kind) => Err(WordError {
                kind,
                topic: Some(topic),
            }),
        }
    }
}
