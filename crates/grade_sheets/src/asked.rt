//! What is asked of a run: the rules of an exercise, read.
ghost use Rattle.std.specs.Prelude.{◌≡◌, IfOk, Some};
ghost use Rattle.grade_sheets.specs.Notation as meant;

use crate::keys::{Keys, natural};
use crate::notation::pattern;
use crate::refusal::{SheetError, refused, told};
use crate::variant::named_by;
use grade_rules::{Edge, Pattern, Rule, has_letters, judge};
use std::alloc::Global;
use toml::Value;

/// The largest number of points, and of notes.
const COUNT_MAX: u64 = u32::MAX as u64;

/// The most by which numbers can be asked to rise: the largest number of a file.
const RISE_MAX: u64 = i64::MAX as u64;

/// The keys that a rule may have.
const RULE_KEYS: [&str; 21] = [
    "name", "points", "status", "shown", "shows", "rise", "numbers", "line", "numbered",
    "predicts", "lines", "note", "at_least", "at_most", "none_of", "first", "then", "steps",
    "order", "of", "notes",
];

/// A kind of what a rule asks.
struct Kind {
    /// What such a rule is called where it is refused.
    place: &'static str,
    /// Its keys: a rule that has one of them has all.
    needed: &'static [&'static str],
    /// Keys that go with them alone.
    others: &'static [&'static str],
    /// What it asks.
    read: Asks,
}

/// What the keys of a kind ask.
#[derive(Clone, Copy)]
enum Asks {
    Status,
    Shown,
    Shows,
    Rise,
    Numbers,
    Line,
    Numbered,
    Predicts,
    Count,
    NoneOf,
    Before,
    InOrder,
    Exactly,
}

/// The kinds.
const KINDS: [Kind; 13] = [
    Kind {
        place: "a rule with `status`",
        needed: &["status"],
        others: &[],
        read: Asks::Status,
    },
    Kind {
        place: "a rule with `shown`",
        needed: &["shown"],
        others: &[],
        read: Asks::Shown,
    },
    Kind {
        place: "a rule with `shows`",
        needed: &["shows"],
        others: &[],
        read: Asks::Shows,
    },
    Kind {
        place: "a rule with `rise`",
        needed: &["rise"],
        others: &[],
        read: Asks::Rise,
    },
    Kind {
        place: "a rule with `numbers`",
        needed: &["numbers"],
        others: &[],
        read: Asks::Numbers,
    },
    Kind {
        place: "a rule with `line`",
        needed: &["line"],
        others: &[],
        read: Asks::Line,
    },
    Kind {
        place: "a rule with `numbered`",
        needed: &["numbered"],
        others: &[],
        read: Asks::Numbered,
    },
    Kind {
        place: "a rule with `predicts`",
        needed: &["predicts"],
        others: &["lines"],
        read: Asks::Predicts,
    },
    Kind {
        place: "a rule with `note`",
        needed: &["note"],
        others: &["at_least", "at_most"],
        read: Asks::Count,
    },
    Kind {
        place: "a rule with `none_of`",
        needed: &["none_of"],
        others: &[],
        read: Asks::NoneOf,
    },
    Kind {
        place: "a rule with `first` and `then`",
        needed: &["first", "then"],
        others: &[],
        read: Asks::Before,
    },
    Kind {
        place: "a rule with `steps`",
        needed: &["steps"],
        others: &["order"],
        read: Asks::InOrder,
    },
    Kind {
        place: "a rule with `of` and `notes`",
        needed: &["of", "notes"],
        others: &[],
        read: Asks::Exactly,
    },
];

/// Why an order is refused.
const ORDER: &str =
    "order takes pairs of steps, counted from 1, of which the first is the lower one";

/// Why a line is refused.
const NO_LINE: &str = "line takes a question, a colon and an answer";

/// Why a rule is refused that gives its points for nothing.
const NOT_EARNED: &str =
    "a program that does nothing has it: let it ask for more, or give it no points";

/// What a run has to have.
#[derive(Drop)]
pub enum Check {
    /// `init` exits with this status.
    Status(i32),
    /// The console shows exactly this.
    Shown(String),
    /// The console shows this somewhere.
    Shows(String),
    /// Of the numbers that stand alone in a line of the console there are two at least, and each is so much above the
    /// one before.
    Rise(u64),
    /// The numbers that stand alone in a line of the console are these.
    Numbers(Vec<u64>),
    /// Of the lines that were handed in exactly one asks this question, before its colon, and it has this answer.
    Line { question: String, answer: Answer },
    /// Of the lines that were handed in so many at most have a number as their question: a list for all variants has more.
    Numbered(usize),
    /// What was handed in has the lines of the trace that begin with one of these words, up to the end of `init`; of them
    /// the first so many.
    Predicts { words: Vec<String>, most: usize },
    /// The notes are as this rule says. The texts are those of its patterns, as the exercise has them: of the one
    /// that is counted, of `first`, of the steps, or of `notes`.
    Notes { rule: Rule, texts: Vec<String> },
}

/// The answer to a question in a text.
#[derive(Drop)]
pub enum Answer {
    /// It is this text.
    Text(String),
    /// It is the status with which `init` exits.
    Status,
}

/// What is asked of a run, and what it gives.
#[derive(Drop)]
pub struct Asked {
    /// What it is called, in a student's words.
    pub name: String,
    /// What it gives if the run has it.
    pub points: u32,
    /// What the run has to have: each of these.
    pub checks: Vec<Check>,
}

// The pattern of a text.
fn pattern_of(alloc: Global, text: &str) -> Result<Pattern, SheetError>
    ensures { IfOk result (λ found. meant.pattern_of text.now ≡ Some found) }
{
    match pattern(alloc, text)? {
        Some(pattern) => Ok(pattern),
        None => Err(told(format!(in alloc; "\"{text}\" is no pattern of a note"))),
    }
}

// The patterns of texts.
fn patterns_of(alloc: Global, texts: &[String]) -> Result<Vec<Pattern>, SheetError> {
    let mut patterns = Vec::new(alloc);
    for text in texts {
        patterns.push(pattern_of(alloc, text.as_str())?)?;
    }
    Ok(patterns)
}

// The edges of a chain of so many steps.
fn chain(alloc: Global, steps: usize) -> Result<Vec<Edge>, SheetError> {
    let mut edges = Vec::new(alloc);
    for behind in 1..steps {
        edges.push(Edge {
            before: behind - 1,
            behind,
        })?;
    }
    Ok(edges)
}

// The place of a step that is counted from 1, of so many.
fn place_of(step: &Value, steps: usize) -> Option<usize> {
    let place = usize::try_from(natural(step)?).ok()?.checked_sub(1)?;
    if place < steps { Some(place) } else { None }
}

// The edge of two steps that are counted from 1, of so many.
fn edge_of(pair: &Value, steps: usize) -> Option<Edge> {
    let [before, behind] = pair.as_array()?.as_slice() else {
        return None;
    };
    let before = place_of(before, steps)?;
    let behind = place_of(behind, steps)?;
    if before < behind {
        Some(Edge { before, behind })
    } else {
        None
    }
}

// The edges of the order of a rule of so many steps, or of a chain of them if it has none.
fn edges_of(alloc: Global, rule: &Keys<'_>, steps: usize) -> Result<Vec<Edge>, SheetError> {
    if !rule.has("order") {
        return chain(alloc, steps);
    }
    let mut edges = Vec::new(alloc);
    for pair in rule.list(alloc, "order")? {
        let Some(edge) = edge_of(pair, steps) else {
            return Err(refused(alloc, ORDER));
        };
        edges.push(edge)?;
    }
    Ok(edges)
}

// The pattern of a key's text.
fn pattern_at(alloc: Global, rule: &Keys<'_>, key: &str) -> Result<Pattern, SheetError> {
    let text = rule.text(alloc, key)?;
    pattern_of(alloc, text.as_str())
}

// A key's text alone, as a list.
fn text_at(alloc: Global, rule: &Keys<'_>, key: &str) -> Result<Vec<String>, SheetError> {
    let mut texts = Vec::new(alloc);
    texts.push(rule.text(alloc, key)?)?;
    Ok(texts)
}

// That a key names no pipe by a letter: a pipe that isn't there may be chosen for it, and then no note is meant.
fn without_letters(alloc: Global, key: &str, names_one: bool) -> Result<(), SheetError> {
    if names_one {
        return Err(told(format!(in alloc; "`{key}` names no pipe by a letter")));
    }
    Ok(())
}

// The rule that counts notes: one at least if nothing is said.
fn counted(alloc: Global, rule: &Keys<'_>) -> Result<Check, SheetError> {
    let usual = if rule.has("at_most") { 0 } else { 1 };
    let least = rule.number(alloc, "at_least", usual, 0, COUNT_MAX)? as usize;
    let most = rule.number(alloc, "at_most", COUNT_MAX, 0, COUNT_MAX)? as usize;
    if least > most {
        return Err(refused(alloc, "no number is `at_least` and `at_most` that"));
    }
    let pattern = pattern_at(alloc, rule, "note")?;
    if least == 0 {
        without_letters(alloc, "note", pattern.has_letter())?;
    }
    let texts = text_at(alloc, rule, "note")?;
    let rule = Rule::Count {
        pattern,
        least,
        most,
    };
    Ok(Check::Notes { rule, texts })
}

// The rule that no note is one of these.
fn none_of(alloc: Global, rule: &Keys<'_>) -> Result<Check, SheetError> {
    let texts = rule.texts(alloc, "none_of")?;
    let patterns = patterns_of(alloc, texts.as_slice())?;
    without_letters(alloc, "none_of", has_letters(patterns.as_slice()))?;
    let rule = Rule::NoneOf { patterns };
    Ok(Check::Notes { rule, texts })
}

// The rule of a note before others.
fn before(alloc: Global, rule: &Keys<'_>) -> Result<Check, SheetError> {
    let first = pattern_at(alloc, rule, "first")?;
    let next = pattern_at(alloc, rule, "then")?;
    without_letters(alloc, "then", next.has_letter())?;
    let texts = text_at(alloc, rule, "first")?;
    let rule = Rule::Before { first, next };
    Ok(Check::Notes { rule, texts })
}

// The rule of steps in an order.
fn in_order(alloc: Global, rule: &Keys<'_>) -> Result<Check, SheetError> {
    let texts = rule.texts(alloc, "steps")?;
    let steps = patterns_of(alloc, texts.as_slice())?;
    let edges = edges_of(alloc, rule, steps.len())?;
    let rule = Rule::InOrder { steps, edges };
    Ok(Check::Notes { rule, texts })
}

// The rule that of these notes there are those.
fn exactly(alloc: Global, rule: &Keys<'_>) -> Result<Check, SheetError> {
    let of = patterns_of(alloc, rule.texts(alloc, "of")?.as_slice())?;
    without_letters(alloc, "of", has_letters(of.as_slice()))?;
    let texts = rule.texts(alloc, "notes")?;
    let wanted = patterns_of(alloc, texts.as_slice())?;
    let rule = Rule::Exactly { of, wanted };
    Ok(Check::Notes { rule, texts })
}

// The line of a text that is asked for: its question, and its answer.
fn line(alloc: Global, rule: &Keys<'_>) -> Result<Check, SheetError> {
    let text = rule.text(alloc, "line")?;
    let Some((question, answer)) = text.as_str().split_once(':') else {
        return Err(refused(alloc, NO_LINE));
    };
    if question.trim().is_empty() || answer.trim().is_empty() {
        return Err(refused(alloc, NO_LINE));
    }
    let question = String::from_str(alloc, question.trim())?;
    let answer = match answer.trim() {
        "{status}" => Answer::Status,
        answer => Answer::Text(String::from_str(alloc, answer)?),
    };
    Ok(Check::Line { question, answer })
}

// The numbers that stand alone in lines.
fn numbers(alloc: Global, rule: &Keys<'_>) -> Result<Check, SheetError> {
    let mut numbers = Vec::new(alloc);
    for value in rule.list(alloc, "numbers")? {
        let Some(number) = natural(named_by(value, rule.variant)) else {
            return Err(refused(alloc, "numbers takes a list of numbers"));
        };
        numbers.push(number)?;
    }
    Ok(Check::Numbers(numbers))
}

// How many lines may have a number as their question.
fn numbered(alloc: Global, rule: &Keys<'_>) -> Result<Check, SheetError> {
    let most = rule.number(alloc, "numbered", 0, 0, COUNT_MAX)? as usize;
    Ok(Check::Numbered(most))
}

// Whether a word begins lines of a trace.
fn is_kind_of_line(word: &str) -> bool {
    matches!(
        word,
        "turn" | "step" | "call" | "block" | "exit" | "fault" | "idle" | "tick" | "key" | "sent"
    )
}

// The lines of the trace that are to be predicted.
fn predicts(alloc: Global, rule: &Keys<'_>) -> Result<Check, SheetError> {
    let words = rule.texts(alloc, "predicts")?;
    for word in &words {
        if !is_kind_of_line(word.as_str()) {
            return Err(told(format!(in alloc; "no line of a trace begins with `{word}`")));
        }
    }
    if words.is_empty() {
        return Err(refused(alloc, "it predicts nothing"));
    }
    let most = rule.number(alloc, "lines", COUNT_MAX, 1, COUNT_MAX)? as usize;
    Ok(Check::Predicts { words, most })
}

// What the keys of a kind ask.
fn check_of(alloc: Global, rule: &Keys<'_>, read: Asks) -> Result<Check, SheetError> {
    match read {
        Asks::Status => rule.status(alloc, "status").map(Check::Status),
        Asks::Shown => rule.text(alloc, "shown").map(Check::Shown),
        Asks::Shows => rule.text(alloc, "shows").map(Check::Shows),
        Asks::Rise => rule.number(alloc, "rise", 0, 0, RISE_MAX).map(Check::Rise),
        Asks::Numbers => numbers(alloc, rule),
        Asks::Line => line(alloc, rule),
        Asks::Numbered => numbered(alloc, rule),
        Asks::Predicts => predicts(alloc, rule),
        Asks::Count => counted(alloc, rule),
        Asks::NoneOf => none_of(alloc, rule),
        Asks::Before => before(alloc, rule),
        Asks::InOrder => in_order(alloc, rule),
        Asks::Exactly => exactly(alloc, rule),
    }
}

// What the keys of a kind ask, of which a rule has one at least: it has to have all that are needed.
fn check_of_kind(alloc: Global, rule: &Keys<'_>, kind: &Kind) -> Result<Check, SheetError> {
    let keys = Keys {
        table: rule.table,
        place: kind.place,
        variant: rule.variant,
    };
    keys.check(alloc, kind.needed, &RULE_KEYS)?;
    check_of(alloc, rule, kind.read)
}

// Refuses keys that go with a kind alone that the rule isn't of.
fn check_others(alloc: Global, rule: &Keys<'_>, kind: &Kind) -> Result<(), SheetError> {
    for key in kind.others {
        if rule.has(key) {
            let place = kind.place;
            return Err(told(format!(in alloc; "`{key}` belongs to {place}")));
        }
    }
    Ok(())
}

// All that a rule asks for.
fn checks_of(alloc: Global, rule: &Keys<'_>) -> Result<Vec<Check>, SheetError> {
    let mut checks = Vec::new(alloc);
    for kind in &KINDS {
        if rule.has_one_of(kind.needed) {
            checks.push(check_of_kind(alloc, rule, kind)?)?;
        } else {
            check_others(alloc, rule, kind)?;
        }
    }
    if checks.is_empty() {
        return Err(refused(alloc, "it asks for nothing"));
    }
    Ok(checks)
}

// Whether a run in which nothing happens has this.
fn holds_of_nothing(alloc: Global, check: &Check) -> Result<bool, SheetError> {
    match check {
        Check::Shown(text) => Ok(text.as_str().is_empty()),
        Check::Shows(text) => Ok(text.as_str().is_empty()),
        Check::Numbers(wanted) => Ok(wanted.is_empty()),
        Check::Numbered(_) => Ok(true),
        Check::Notes { rule, .. } => Ok(judge(alloc, rule, &[])?.holds()),
        _ => Ok(false),
    }
}

// Refuses a rule with points that a run has in which nothing happens.
fn check_earned(alloc: Global, points: u32, checks: &[Check]) -> Result<(), SheetError> {
    if points == 0 {
        return Ok(());
    }
    for check in checks {
        if !holds_of_nothing(alloc, check)? {
            return Ok(());
        }
    }
    Err(refused(alloc, NOT_EARNED))
}

// What a rule of these points asks for.
fn earned_checks(alloc: Global, rule: &Keys<'_>, points: u32) -> Result<Vec<Check>, SheetError> {
    let checks = checks_of(alloc, rule)?;
    check_earned(alloc, points, checks.as_slice())?;
    Ok(checks)
}

// A refusal with the place and the name of its rule.
fn named(alloc: Global, place: &str, name: &str, why: &str) -> SheetError {
    told(format!(in alloc; "{place}, \"{name}\": {why}"))
}

// What a rule of a run asks for, whose rules are counted from 1: one at least of `status`, `shown`, `shows`, `rise`, `numbers`,
// `line`, `numbered`, `predicts` (with `lines`), `note` (with `at_least` and `at_most`), `none_of`, `first` and `then`, `steps` (with `order`), `of` and
// `notes`; and all of them that it has.
pub(crate) fn read_rule(
    alloc: Global,
    run: &Keys<'_>,
    number: usize,
    item: &Value,
) -> Result<Asked, SheetError> {
    let of = run.place;
    let place = format!(in alloc; "rule {number} of {of}")?;
    let rule = run.table(alloc, "rule", item, place.as_str())?;
    rule.check(alloc, &["name"], &RULE_KEYS)?;
    let name = rule.text(alloc, "name")?;
    let points = rule.number(alloc, "points", 1, 0, COUNT_MAX)? as u32;
    match earned_checks(alloc, &rule, points) {
        Ok(checks) => Ok(Asked {
            name,
            points,
            checks,
        }),
        Err(SheetError::Text(why)) => Err(named(alloc, rule.place, name.as_str(), why.as_str())),
        Err(SheetError::Memory) => Err(SheetError::Memory),
    }
}
