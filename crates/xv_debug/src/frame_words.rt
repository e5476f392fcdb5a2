//! Words that ask of calls, of variables of C, and of what is shown again and again: what a line asks, and what help
//! tells of each (Debugging with GDB, "Selecting a Frame" and "Automatic Display").
ghost use Rattle.std.specs.Prelude.{◌≡◌, ◌≢◌, ◌∷◌, ◌++◌, [], ℕ, None, IfErr, IfOk, IfSome, option_map};
ghost use Rattle.std.specs.List.{concat};
ghost use Rattle.xv_debug.specs.FrameWords as meant;
ghost use Rattle.xv_debug.specs.declared.frame_words.FrameTopic.TheVariants as topics;
ghost use Rattle.xv_debug.specs.declared.frame_words.FrameWord.TheVariants as words;

use arrayvec::ArrayString;
use c_expressions::parted;
use debug_words::WordErrorKind;
use std::alloc::AllocError;
use std::fmt;

/// The most bytes of a line that is obeyed again and again.
const DISPLAY_BYTES_MOST: usize = 128;

/// A line that is obeyed again and again, as `print count`.
pub(crate) type DisplayLine = ArrayString<DISPLAY_BYTES_MOST>;

/// Which of the calls that led a process to where it is words look at from now on, by its number in `bt`.
#[derive(Clone, Copy)]
pub(crate) enum Choice {
    /// The one so many calls up, towards the first call; 1 without a number.
    Up { count: Option<u32> },
    /// The one so many calls down, towards the last call; 1 without a number.
    Down { count: Option<u32> },
    /// The one of this number; without a number the one at which they look.
    Frame { number: Option<u32> },
}

/// What is asked of the lines that are obeyed after each word that moves the session.
#[derive(Clone, Copy)]
pub(crate) enum Display {
    /// They are obeyed now.
    Show,
    /// This one is obeyed, too.
    Add(DisplayLine),
    /// The one of this number isn't any more, or none is.
    Forget { number: Option<u32> },
    /// Which there are.
    List,
}

/// What a line asks.
#[derive(Clone, Copy)]
pub(crate) enum FrameWord {
    Choose(Choice),
    Display(Display),
    /// What help tells of one of these words.
    Help(FrameTopic),
}

/// What such a line begins with.
#[derive(Clone, Copy)]
pub(crate) enum FrameTopic {
    Up,
    Down,
    Frame,
    Locals,
    Arguments,
    Whatis,
    Ptype,
    Display,
    Undisplay,
    Displays,
}

/// All of them, in the order in which help shows them.
const FRAME_TOPICS: [FrameTopic; 10] = [
    FrameTopic::Up,
    FrameTopic::Down,
    FrameTopic::Frame,
    FrameTopic::Locals,
    FrameTopic::Arguments,
    FrameTopic::Whatis,
    FrameTopic::Ptype,
    FrameTopic::Display,
    FrameTopic::Undisplay,
    FrameTopic::Displays,
];

/// What help tells of a word.
#[derive(Clone, Copy)]
struct TopicPage {
    /// Its name.
    name: &'static str,
    /// How it is written.
    usage: &'static str,
    /// What it does, in 52 characters at most.
    brief: &'static str,
    /// What it does, its shorter name, and what else there is to know; lines.
    text: &'static str,
}

/// Why a line isn't obeyed that begins with such a word. It changes nothing.
#[derive(Clone, Copy)]
pub(crate) struct FrameWordError<'a> {
    kind: WordErrorKind<'a>,
    topic: FrameTopic,
}

impl FrameTopic {
    /// What help tells of it.
    fn page(self) -> TopicPage {
        match self {
            FrameTopic::Up => TopicPage {
                name: "up",
                usage: "up [N]",
                brief: "look at the caller, or N calls up",
                text: "\
let print and what else tells of C look at the call N calls up in bt, towards
the first call; 1 if N is left out.
help frame tells more.",
            },
            FrameTopic::Down => TopicPage {
                name: "down",
                usage: "down [N]",
                brief: "look at the call that it made, or N calls down",
                text: "\
let print and what else tells of C look at the call N calls down in bt, towards
the last call; 1 if N is left out.
help frame tells more.",
            },
            FrameTopic::Frame => TopicPage {
                name: "frame",
                usage: "frame [N]",
                brief: "look at call N of bt; without N tell which it is",
                text: "\
let print, info locals, info args, whatis, ptype and display look at call N of
those that bt shows; without N tell at which they look.
Also: f; info frame.
It is call 0, the last one, up to such a word, and again after the next event,
or as soon as the words look at another process. Of a caller the stack pointer
is known, and s0 if it was kept. A variable in another register is told as
<not known here>: the functions that were called may have used the register.
$a0 and regs tell the registers of the last call.",
            },
            FrameTopic::Locals => TopicPage {
                name: "info locals",
                usage: "info locals",
                brief: "the variables of the function",
                text: "\
the variables of the function, and of its blocks, in the call that frame
chooses. The compiler's tables tell them, in the program's file or NAME.debug.",
            },
            FrameTopic::Arguments => TopicPage {
                name: "info args",
                usage: "info args",
                brief: "the arguments of the function",
                text: "\
the arguments of the function, in the call that frame chooses. The compiler's
tables tell them, in the program's file or NAME.debug.",
            },
            FrameTopic::Whatis => TopicPage {
                name: "whatis",
                usage: "whatis EXPR",
                brief: "the type of an expression of C",
                text: "\
the type of an expression of C, or of a type by its name.
EXPR is a variable's name, with parts of its value: e.name, e->name, e[N], *e,
&e. print EXPR tells the value, and print/x EXPR a number in hexadecimal.",
            },
            FrameTopic::Ptype => TopicPage {
                name: "ptype",
                usage: "ptype EXPR",
                brief: "the same, with the members of a structure",
                text: "\
the type of an expression of C, or of a type by its name, with all that a
structure, a union or an enumeration has.",
            },
            FrameTopic::Display => TopicPage {
                name: "display",
                usage: "display [EXPR]",
                brief: "print EXPR now and after each word that moves",
                text: "\
print EXPR now, and after each word that moves the run; without EXPR print all
of them now.
display/x is as print/x, and display/FORM with any other FORM as x/FORM, with a
PLACE: display/i $pc. What can't be told is told so. At most 20 are kept, of 128
bytes each with the word that tells it.",
            },
            FrameTopic::Undisplay => TopicPage {
                name: "undisplay",
                usage: "undisplay [N]",
                brief: "end display N, or all displays",
                text: "end display N of those that info display lists; without N all of them.",
            },
            FrameTopic::Displays => TopicPage {
                name: "info display",
                usage: "info display",
                brief: "what is printed after each word that moves",
                text: "what is printed after each word that moves the run, by the numbers of undisplay.",
            },
        }
    }

    /// The topic of this name.
    fn named(name: &str) -> Option<FrameTopic>
        ensures { result ≡ meant.topic_named name.now }
    {
        match name {
            "up" => Some(FrameTopic::Up),
            "down" => Some(FrameTopic::Down),
            "frame" => Some(FrameTopic::Frame),
            "info locals" => Some(FrameTopic::Locals),
            "info args" => Some(FrameTopic::Arguments),
            "whatis" => Some(FrameTopic::Whatis),
            "ptype" => Some(FrameTopic::Ptype),
            "display" => Some(FrameTopic::Display),
            "undisplay" => Some(FrameTopic::Undisplay),
            "info display" => Some(FrameTopic::Displays),
            _ => None,
        }
    }
}

/// Writes a line for each of these words.
pub(crate) fn show_frame_topics(answer: &mut String) -> Result<(), AllocError> {
    for topic in FRAME_TOPICS {
        let page = topic.page();
        let usage = page.usage;
        let brief = page.brief;
        writeln!(answer, "{usage:<26} {brief}")?;
    }
    Ok(())
}

/// Writes what one of these words does.
pub(crate) fn show_frame_topic(topic: FrameTopic, answer: &mut String) -> Result<(), AllocError> {
    let page = topic.page();
    let usage = page.usage;
    let text = page.text;
    writeln!(answer, "{usage}\n{text}")
}

/// What is wrong, and what is allowed.
impl<'a> fmt::Display for FrameWordError<'a> {
    fn fmt<W: fmt::Write>(&self, f: &mut fmt::Formatter<W>) -> fmt::Result {
        let page = self.topic.page();
        let kind = self.kind;
        let usage = page.usage;
        let name = page.name;
        write!(f, "{kind}\nit is: {usage}; help {name} tells more")
    }
}

/// The number that a text writes, at least this.
fn number_of(text: &str, least: u32) -> Result<u32, WordErrorKind<'_>>
    ensures is { IfOk result (meant.IsNumberFrom least text.now) }
    ensures refused { IfErr result (λ _. (number : ℕ) → ¬ (meant.IsNumberFrom least text.now number)) }
{
    match text.parse::<u32>() {
        Ok(number) if number >= least => Ok(number),
        Ok(_) => Err(WordErrorKind::OutOfRange {
            text,
            least: u64::from(least),
            most: u64::from(u32::MAX),
        }),
        Err(_) => Err(WordErrorKind::NotThis {
            text,
            wanted: "a number",
        }),
    }
}

/// The number behind a word, at least this, which may be left out.
fn number_if(text: &str, least: u32) -> Result<Option<u32>, WordErrorKind<'_>>
    ensures is { IfOk result (meant.IsNumberIf least text.now) }
    ensures refused { IfErr result (λ _. meant.HasNoNumber least text.now) }
{
    if text.is_empty() {
        return Ok(None);
    }
    match number_of(text, least) {
        Ok(number) => Ok(Some(number)),
        Err(kind) => Err(kind),
    }
}

/// Adds a text to a line that is shown again and again, if there is room.
fn add_text(line: &mut DisplayLine, text: &str) -> Option<()>
    ensures { IfSome result (λ _. line.new.bytes ≡ line.old.bytes ++ text.now) }
{
    match line.try_push_str(text) {
        Ok(()) => Some(()),
        Err(_) => None,
    }
}

/// The texts one behind another, if they are short enough for a line that is shown again and again.
fn joined(one: &str, two: &str, three: &str, four: &str) -> Option<DisplayLine>
    ensures { IfSome result (λ line. line.bytes ≡ concat (one.now ∷ two.now ∷ three.now ∷ four.now ∷ [])) }
{
    let mut line = DisplayLine::new();
    add_text(&mut line, one)?;
    add_text(&mut line, two)?;
    add_text(&mut line, three)?;
    add_text(&mut line, four)?;
    Some(line)
}

/// The line that tells what a text is about, in a form: `print` tells an expression, also as a hexadecimal number, and
/// `x` what stands in memory at a place.
fn line_of(form: &str, text: &str) -> Option<DisplayLine>
    ensures { IfSome result (λ line. line.bytes ≡ meant.line_of form.now text.now) }
{
    match form {
        "" => joined("print ", text, "", ""),
        "x" => joined("print/x ", text, "", ""),
        _ => joined("x/", form, " ", text),
    }
}

/// What `up` asks for, with the text behind it.
fn up_by(text: &str) -> Result<Option<FrameWord>, WordErrorKind<'_>>
    ensures asked { IfOk result (meant.IsAskedBy topics.Up [] text.now) }
    ensures refused { IfErr result (λ _. meant.IsRefusedBy topics.Up [] text.now) }
{
    let count = number_if(text, 1)?;
    Ok(Some(FrameWord::Choose(Choice::Up { count })))
}

/// What `down` asks for, with the text behind it.
fn down_by(text: &str) -> Result<Option<FrameWord>, WordErrorKind<'_>>
    ensures asked { IfOk result (meant.IsAskedBy topics.Down [] text.now) }
    ensures refused { IfErr result (λ _. meant.IsRefusedBy topics.Down [] text.now) }
{
    let count = number_if(text, 1)?;
    Ok(Some(FrameWord::Choose(Choice::Down { count })))
}

/// What `frame` asks for, with the text behind it.
fn frame_of(text: &str) -> Result<Option<FrameWord>, WordErrorKind<'_>>
    ensures asked { IfOk result (meant.IsAskedBy topics.Frame [] text.now) }
    ensures refused { IfErr result (λ _. meant.IsRefusedBy topics.Frame [] text.now) }
{
    let number = number_if(text, 0)?;
    Ok(Some(FrameWord::Choose(Choice::Frame { number })))
}

/// What `undisplay` asks for, with the text behind it.
fn undisplay_of(text: &str) -> Result<Option<FrameWord>, WordErrorKind<'_>>
    ensures asked { IfOk result (meant.IsAskedBy topics.Undisplay [] text.now) }
    ensures refused { IfErr result (λ _. meant.IsRefusedBy topics.Undisplay [] text.now) }
{
    let number = number_if(text, 1)?;
    Ok(Some(FrameWord::Display(Display::Forget { number })))
}

/// What `display` asks for, with a form and the text behind it.
fn display_of<'a>(form: &str, text: &'a str) -> Result<Option<FrameWord>, WordErrorKind<'a>>
    ensures asked { IfOk result (meant.IsAskedBy topics.Display form.now text.now) }
    ensures refused { IfErr result (λ _. meant.IsRefusedBy topics.Display form.now text.now) }
{
    if text.is_empty() {
        return Ok(Some(FrameWord::Display(Display::Show)));
    }
    match line_of(form, text) {
        Some(line) => Ok(Some(FrameWord::Display(Display::Add(line)))),
        None => Err(WordErrorKind::NotThis {
            text,
            wanted: "an expression that has 128 bytes at most, with the word that tells it,",
        }),
    }
}

/// That something has to stand behind `whatis` and `ptype`: what they ask then is another word's.
fn type_of(text: &str) -> Result<Option<FrameWord>, WordErrorKind<'_>>
    ensures asked { IfOk result (λ word. (text.now ≢ []) × (word ≡ None)) }
    ensures refused { IfErr result (λ _. text.now ≡ []) }
{
    if text.is_empty() {
        return Err(WordErrorKind::Missing("an expression or a type"));
    }
    Ok(None)
}

/// What a word of this topic asks for, with its form and the text behind it; `None` if it is read elsewhere.
fn word_of<'a>(
    topic: FrameTopic,
    form: &str,
    text: &'a str,
) -> Result<Option<FrameWord>, WordErrorKind<'a>>
    ensures asked { IfOk result (meant.IsAskedBy topic form.now text.now) }
    ensures refused { IfErr result (λ _. meant.IsRefusedBy topic form.now text.now) }
{
    match topic {
        FrameTopic::Up => up_by(text),
        FrameTopic::Down => down_by(text),
        FrameTopic::Frame => frame_of(text),
        FrameTopic::Display => display_of(form, text),
        FrameTopic::Undisplay => undisplay_of(text),
        FrameTopic::Whatis | FrameTopic::Ptype => type_of(text),
        FrameTopic::Locals | FrameTopic::Arguments | FrameTopic::Displays => Ok(None),
    }
}

/// What `info` and a text behind it ask for, if it is of these.
fn info_of(text: &str) -> Option<FrameWord>
    ensures { result ≡ meant.info_word text.now }
{
    match text {
        "display" => Some(FrameWord::Display(Display::List)),
        "frame" | "f" => Some(FrameWord::Choose(Choice::Frame { number: None })),
        _ => None,
    }
}

/// What `help` and a text behind it ask for, if it is of these.
fn help_of(text: &str) -> Option<FrameWord>
    ensures { result ≡ option_map words.Help (meant.topic_named text.now) }
{
    match FrameTopic::named(text) {
        Some(topic) => Some(FrameWord::Help(topic)),
        None => None,
    }
}

/// The topic that a word is the name of.
fn topic_of(name: &str) -> Option<FrameTopic>
    ensures { result ≡ meant.topic_of name.now }
{
    match name {
        "f" => Some(FrameTopic::Frame),
        _ => FrameTopic::named(name),
    }
}

/// What a line asks for that begins with this word, behind which a form may stand.
fn read_word<'a>(
    word: &str,
    form: &str,
    text: &'a str,
) -> Result<Option<FrameWord>, FrameWordError<'a>>
    ensures asked { IfOk result (meant.IsAskedIf (meant.topic_of word.now) form.now text.now) }
    ensures refused { IfErr result (λ _. meant.IsRefusedIf (meant.topic_of word.now) form.now text.now) }
{
    let Some(topic) = topic_of(word) else {
        return Ok(None);
    };
    match word_of(topic, form, text) {
        Ok(word) => Ok(word),
        Err(kind) => Err(FrameWordError { kind, topic }),
    }
}

/// A word, and the form behind its slash.
fn form_of(first: &str) -> (&str, &str)
    ensures word { result.0.now ≡ meant.before 47 first.now }
    ensures form { result.1.now ≡ meant.behind 47 first.now }
{
    match first.split_once('/') {
        Some(parts) => parts,
        None => (first, ""),
    }
}

/// Whether a word is `info`.
fn is_info(word: &str) -> bool
    ensures { result ≡ meant.is_info word.now }
{
    match word {
        "info" | "i" => true,
        _ => false,
    }
}

/// Whether a word is `help`.
fn is_help(word: &str) -> bool
    ensures { result ≡ meant.is_help word.now }
{
    match word {
        "help" | "h" => true,
        _ => false,
    }
}

/// What a line asks for; `None` if it begins with none of these words.
///
/// # Errors
///
/// What is wrong with the line, if it begins with one, and is none of the forms that `help` lists.
pub(crate) fn frame_word_of(line: &str) -> Result<Option<FrameWord>, FrameWordError<'_>>
    ensures asked { IfOk result (meant.IsAsked line.now) }
    ensures refused { IfErr result (λ _. meant.IsRefused line.now) }
{
    let (first, text) = parted(line.trim());
    let text = text.trim();
    if is_info(first) {
        return Ok(info_of(text));
    }
    if is_help(first) {
        return Ok(help_of(text));
    }
    let (word, form) = form_of(first);
    match read_word(word, form, text) {
        Ok(word) => Ok(word),
        Err(error) => Err(error),
    }
}
