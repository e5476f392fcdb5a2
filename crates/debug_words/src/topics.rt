//! The words that a line may begin with, and what help tells of them.

/// What a line begins with.
#[derive(Clone, Copy)]
pub enum Topic {
    Step,
    Next,
    Back,
    Goto,
    Until,
    Finish,
    Break,
    BreakOnce,
    Watch,
    Delete,
    Run,
    Tick,
    Key,
    Send,
    Where,
    Callers,
    Listing,
    Print,
    Numbers,
    Registers,
    Memory,
    Pages,
    Frames,
    Processes,
    Descriptors,
    Pipe,
    Console,
    At,
    Events,
    Trace,
    Info,
    Help,
    Continue,
    Quit,
}

/// All topics, in the order in which help shows them.
pub(crate) const TOPICS: [Topic; 34] = [
    Topic::Step,
    Topic::Next,
    Topic::Back,
    Topic::Goto,
    Topic::Until,
    Topic::Finish,
    Topic::Break,
    Topic::BreakOnce,
    Topic::Watch,
    Topic::Delete,
    Topic::Continue,
    Topic::Run,
    Topic::Tick,
    Topic::Key,
    Topic::Send,
    Topic::Where,
    Topic::Callers,
    Topic::Listing,
    Topic::Print,
    Topic::Numbers,
    Topic::Registers,
    Topic::Memory,
    Topic::Pages,
    Topic::Frames,
    Topic::Processes,
    Topic::Descriptors,
    Topic::Pipe,
    Topic::Console,
    Topic::At,
    Topic::Events,
    Topic::Trace,
    Topic::Info,
    Topic::Help,
    Topic::Quit,
];

/// What stands before a character of a text, and what stands behind it: all and nothing, if it isn't there.
fn parted(text: &'static str, by: char) -> (&'static str, &'static str) {
    match text.split_once(by) {
        Some(parts) => parts,
        None => (text, ""),
    }
}

impl Topic {
    /// The topic of this name, long or short.
    pub(crate) fn named(name: &str) -> Option<Topic> {
        for topic in TOPICS {
            if topic.is_named(name) {
                return Some(topic);
            }
        }
        None
    }

    /// The topic of this name, behind which a form stands, if it may.
    pub(crate) fn with_form(name: &str, form: &str) -> Option<Topic> {
        let topic = Topic::named(name)?;
        match topic {
            Topic::Numbers | Topic::Print => Some(topic),
            _ if form.is_empty() => Some(topic),
            _ => None,
        }
    }

    /// Whether this is one of its names.
    fn is_named(self, name: &str) -> bool {
        if self.name() == name {
            return true;
        }
        for other in self.other_names().split_whitespace() {
            if other == name {
                return true;
            }
        }
        false
    }

    /// Its name.
    pub(crate) fn name(self) -> &'static str {
        parted(self.usage(), ' ').0
    }

    /// Its other names, if it has some: shorter ones, and gdb's.
    fn other_names(self) -> &'static str {
        match self {
            Topic::Step => "s si stepi",
            Topic::Next => "n ni nexti",
            Topic::Back => "rsi reverse-stepi",
            Topic::Until => "u advance",
            Topic::Finish => "fin",
            Topic::Break => "b",
            Topic::BreakOnce => "tb",
            Topic::Delete => "d",
            Topic::Run => "r",
            Topic::Key => "k",
            Topic::Where => "w",
            Topic::Callers => "backtrace",
            Topic::Listing => "disassemble",
            Topic::Print => "p",
            Topic::Numbers => "x",
            Topic::Memory => "m",
            Topic::Info => "i",
            Topic::Help => "h",
            Topic::Continue => "continue",
            Topic::Quit => "q",
            _ => "",
        }
    }

    /// How it is written.
    pub(crate) fn usage(self) -> &'static str {
        parted(self.page(), '\n').0
    }

    /// What it does, in 52 characters at most.
    pub(crate) fn brief(self) -> &'static str {
        let (_usage, told) = parted(self.page(), '\n');
        parted(told, '\n').0
    }

    /// What it does, its shorter name, and what else there is to know; lines.
    pub(crate) fn text(self) -> &'static str {
        let (_usage, told) = parted(self.page(), '\n');
        parted(told, '\n').1
    }

    /// All that help tells of it: how it is written, what it does in a few words, and behind these two lines the text.
    fn page(self) -> &'static str {
        match self {
            Topic::Step => "\
step [N]
send N Runs: N steps of whoever runs
send N events Run: N steps, 1 if N is left out.
Also: s, si, stepi.
A Run is an instruction or a step of a call of the process that runs. If nobody
runs, the next process has its turn. It stops early if all processes sleep. N
is 1 to 100000000.",
            Topic::Next => "\
next
an instruction, over the call that it makes
one instruction, over the whole function or kernel call that it calls.
Also: n, ni, nexti.
A jump that keeps its return address in ra is a call of a function: it is over
when the process is back after the jump, with the stack pointer not below. An
ecall is over when the kernel has answered. Other processes may run meanwhile,
and ticks come (help until). At most 100000000 events are sent.",
            Topic::Back => "\
back [N], back until GOAL
go back by N events, or to a goal
go back by N events, of whatever kind; 1 if N is left out.
Also: rsi, reverse-stepi.
back until GOAL goes back to the last Run before this place that was the goal
(help until). The session is then as it was, exactly. The events after that
place are forgotten. If there were fewer events, it goes back to the boot.",
            Topic::Goto => "\
goto N
go to the place after N events, back or on
go to the place after N events since the boot: 0 is the boot.
at and events tell such places. Back, the events after it are forgotten, as by
back; on, they come as for until, past marks and faults, 100000000 at most.",
            Topic::Until => "\
until [GOAL]
go on up to a goal: help until lists them
go on up to the first Run that is the goal.
Also: u, advance.
until call CALL          a step of this kernel call, by its name or number:
                         until call write
until fork               a step of fork
until [pc] PLACE [of P]  process P runs, and its next instruction stands at
                         PLACE
until store PLACE        an instruction has stored to this address, of whatever
                         process: what the kernel stores isn't met, as by read
until fault              a process is gone by a fault
until exit               a process is gone, by a call, a kill or a fault
until [line]             the process stands in another line of its source, also
                         of a function that it calls
help print tells what a PLACE may be. One of another program is met by
whichever process runs that. The clock goes on: a Tick comes after each round
of Runs, 1,000 or as many as --quantum says, and while all processes sleep, if
one of them sleeps up to a tick. The bytes that wait in the console are taken
before each Run, and told. A turn of the process that runs at first isn't the
goal. 100000000 events are sent at most. It stops early if no tick wakes one.",
            Topic::Finish => "\
finish
go on up to the end of the function that runs
go on up to the end of the function in which the process that runs is.
Also: fin.
It is over when the process is back at the return address, with the stack
pointer not below: the address in ra, if that lies in another function, or else
the one that the frame of s0 has. A program without frame pointers (most are)
has no such frame. Ticks come (help until). At most 100000000 events are sent.",
            Topic::Break => "\
break [PLACE]
stop c at PLACE; the marks that c stops at
let c stop before the instruction at PLACE; without PLACE, list the marks that
c stops at.
Also: b.
PLACE is a function, a label, a line as wc.c:12, PROGRAM:NAME, or an address;
help print tells more. 24 is a line of the file in which the process stands, *24
and 0x18 are an address. It is a place of its program, whichever process runs
that. There are 16 marks at most.",
            Topic::BreakOnce => "\
tbreak PLACE
the same, once
let c stop before the instruction at PLACE, for once.
Also: tb.",
            Topic::Watch => "\
watch PLACE
stop c after a store to PLACE
let c stop after an instruction that stores to this address, of whatever
process.
What the kernel stores isn't met, as by read, wait and pipe: until call read
stops there.",
            Topic::Delete => "\
delete [N]
forget mark N, or all marks
forget mark N of those that break lists; without N all of them.
Also: d.",
            Topic::Run => "\
run [N]
play N rounds of 1,000 Runs, a Tick, 32 Sends
play N rounds of 1,000 Runs, a Tick and 32 Sends; 1 if N is left out.
Also: r.
These are the rounds of xv_run, without its keys; with --quantum a round has as
many Runs as that says. What the console shows is told. It stops early if a
process faults or the machine halts. N is 1 to 90000.",
            Topic::Tick => "\
tick [N]
send N Ticks: the clock counts N more
send N events Tick: the clock counts N more; 1 if N is left out.
A tick ends the turn of the process that runs, and wakes those whose time has
come. N is 1 to 1000000.",
            Topic::Key => "\
key TEXT
type the bytes of TEXT; \\n is Enter
type the bytes of TEXT, each by an event Key.
Also: k.
TEXT is the rest of the line. \\n is Enter, \\b Backspace, \\t Tab, \\s a
blank, \\\\ a backslash, \\xHH the byte of these two hexadecimal digits: \\x04
is Ctrl-D. It has 1 to 128 bytes.",
            Topic::Send => "\
send [N]
send N Sends: the terminal takes N bytes
send N events Send: the terminal takes N bytes; 1 if N is left out.
Bytes that programs write to the console wait for it: 32 at most, then the
writers sleep. N is 1 to 1000000.",
            Topic::Where => "\
where [of P]
who runs, and the instructions from its pc on
who runs, and the instructions from its pc on.
Also: w.
=> marks the instruction that is next. An instruction is told with its function
and its line, if they are known: of a C program by NAME.debug beside its file,
of an assembler source by its labels and lines. Of any other file its function
is told, if it has a symbol table.",
            Topic::Callers => "\
bt [of P]
the calls that led to where the process is
the calls that led to where the process is, from the last one on.
Also: backtrace.
By the compiler's table of call frames, if the program's file or NAME.debug has
one. Else it is a guess, and said to be one: by the frame pointers in s0, or by
ra alone, which an earlier call may have left. Each call is told by its own
address, four bytes before the one to which it returns.",
            Topic::Listing => "\
disas [PLACE [N]] [of P]
N instructions from PLACE on
N instructions from PLACE on; 16 without N, from the pc on without PLACE.
Also: disassemble.
=> marks the instruction that is next. N is 1 to 100.",
            Topic::Print => "\
print WHAT
a number, a register or the word at a name
a number, a register, or the eight bytes at a name.
Also: p.
A PLACE may be a number; a register, as $a0 or $pc; a function, a label or data
by its name; a line, as wc.c:12; PROGRAM:NAME; and each of these with +N behind
it. Names are of the program which the process runs. print &NAME tells the
address, print *PLACE the eight bytes there.",
            Topic::Numbers => "\
x/FORM PLACE [of P]
memory as numbers, as gdb's x: x/8gx $sp
memory from PLACE on, as numbers or instructions.
FORM is how many, then a letter: b, h, w, g for 1, 2, 4, 8 bytes, or i for
instructions. The numbers are hexadecimal. -- is one of which a byte isn't
there. 256 bytes or 100 instructions at most.",
            Topic::Registers => "\
regs [of P]
the registers
the registers, in hexadecimal.
The pc, and x1 to x31 by their names in programs.",
            Topic::Memory => "\
mem [PLACE [N]] [of P]
N bytes of memory from PLACE on
N bytes of a process's memory from PLACE on.
Also: m.
-- is a byte that isn't there. N is 1 to 256, and 64 if it is left out. Without
PLACE it goes on after the bytes that were shown last.",
            Topic::Pages => "\
pages [PLACE] [of P]
the tables and pages, as a tree
the tables and pages of a process's memory from PLACE on, as a tree.
Sv39 has three levels: a root table, upper tables for 1 GiB each, lower tables
for 2 MiB each, and in them pages of 4 KiB. r, w, x: the page may be read,
written, executed; u: by the program itself. Pages that follow one another and
are alike take a line.",
            Topic::Frames => "\
frames [N]
who owns how many frames of RAM; or frame N
who owns how many frames of RAM; or who owns frame N.
A frame has 4,096 bytes. N is 0 to 32767.",
            Topic::Processes => "\
ps [P]
the processes, from pid P on
the processes, from pid P on: parents, states, what they wait for.
At most 20 are shown at once.",
            Topic::Descriptors => "\
fds [of P]
the descriptors, and what they are on
a process's descriptors, and what they are on.
Descriptors that share an open file share its offset.",
            Topic::Pipe => "\
pipe
the pipes: their bytes, and who holds their ends
the pipes: their bytes, and who holds their ends.
A pipe has room for 2,048 bytes, and lies in a frame.",
            Topic::Console => "\
console
the bytes that the console holds
the console's lists: typed, committed, to be sent.
Bytes of the line that is typed can still be taken back; a read takes committed
ones.",
            Topic::At => "\
at
how many events there were, the clock, who runs
how many events there were, the clock, and who runs.
back N goes back by N of these events.",
            Topic::Events => "\
events [PLACE]
the events from PLACE on, equal ones in one line
the events from PLACE on, equal ones in one line.
PLACE counts from 0: the first event since the boot. Without it the last 1,033
are shown, as many as a round has. At most 20 lines are shown at once.",
            Topic::Trace => "\
trace [N]
the last N notes of the machine's trace
the last N notes of the machine's trace; 20 if N is left out.
The machine keeps as many notes as --trace says; none without it. N is 1 to
100.",
            Topic::Info => "\
info WHAT
as gdb's: registers, breakpoints or threads
what gdb's info tells: registers as regs, breakpoints as break alone, threads
as ps.
Also: i.
info registers may end in of P.",
            Topic::Help => "\
help [WORD]
all words; or what one of them does
all words; or what one of them does.
Also: h.
Numbers are decimal, or hexadecimal with 0x before them. of P names a process
by its pid. Without it the words look at the process that runs; if nobody runs,
at the one that made the last step.",
            Topic::Continue => "\
c
go on to the next mark or fault
go on up to the first Run that meets a mark, or by which a process is gone by a
fault.
Also: continue.
Ticks come (help until). 100000000 events are sent at most. It stops early if
no tick wakes a process. At the prompt that Ctrl-C opened it leaves the
debugger, if there is no mark: the machine goes on.",
            Topic::Quit => "\
quit
end the debugger and the machine
end the debugger and the machine.
Also: q.
The end of the input ends it too.",
        }
    }
}
