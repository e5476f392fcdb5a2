//! A process, as the table keeps it.
ghost use Rattle.std.specs.Prelude.{◌≡◌, false};
ghost use Rattle.proc_table.specs.Channels.{is_on};
ghost use Rattle.proc_table.specs.Processes.{is_runnable, is_child_of, is_zombie, is_marked, is_asleep};
ghost use Rattle.proc_table.specs.Processes.{status_of, call_of, has_pid, woken, killed};
ghost use Rattle.proc_table.specs.Processes.{given, asleep, ended, in_call};

use crate::channel::Channel;
use xk_base::Pid;

/// A kernel call that isn't over.
#[derive(Clone, Copy)]
pub struct Call {
    /// Its number.
    pub number: i32,
    /// Its arguments, as the registers a0, a1 and a2 held them.
    pub a0: u64,
    pub a1: u64,
    pub a2: u64,
    /// How many bytes it has moved.
    pub moved: u32,
    /// The clock when it began.
    pub clock: u32,
}

/// What a live process does.
#[derive(Clone, Copy)]
pub struct Life {
    /// Its kill mark.
    pub marked: bool,
    /// The call that it is in, if any.
    pub call: Option<Call>,
    /// What it sleeps on, if it sleeps.
    pub channel: Option<Channel>,
}

/// Whether a process lives.
#[derive(Clone, Copy)]
pub enum State {
    /// It lives, and does this.
    Live(Life),
    /// It has ended with this status, for which nobody has waited yet.
    Zombie { status: i32 },
}

/// A process in a slot.
#[derive(Clone, Copy)]
pub struct Process {
    /// Its number, which no other process of the table has.
    pub pid: Pid,
    /// The process that may wait for it; the first process has none.
    pub parent: Option<Pid>,
    /// Whether it lives, and what it does.
    pub state: State,
}

impl Life {
    /// Whether it sleeps on the channel.
    fn sleeps_on(&self, on: &Channel) -> bool
        ensures { result ≡ is_on on.now self.now.channel }
    {
        match &self.channel {
            None => false,
            Some(channel) => channel == on,
        }
    }
}

impl Process {
    pub(crate) fn has_pid(&self, pid: Pid) -> bool
        ensures { result ≡ has_pid pid self.now }
    {
        self.pid.number() == pid.number()
    }

    pub(crate) fn is_child_of(&self, parent: Pid) -> bool
        ensures { result ≡ is_child_of parent self.now }
    {
        self.parent
            .is_some_and(|own| own.number() == parent.number())
    }

    pub(crate) fn is_zombie(&self) -> bool
        ensures { result ≡ is_zombie self.now }
    {
        match self.state {
            State::Live(_) => false,
            State::Zombie { .. } => true,
        }
    }

    /// Live, and not asleep.
    pub(crate) fn is_runnable(&self) -> bool
        ensures { result ≡ is_runnable self.now }
    {
        match self.state {
            State::Live(life) => life.channel.is_none(),
            State::Zombie { .. } => false,
        }
    }

    pub(crate) fn is_marked(&self) -> bool
        ensures { result ≡ is_marked self.now }
    {
        match self.state {
            State::Live(life) => life.marked,
            State::Zombie { .. } => false,
        }
    }

    pub(crate) fn is_asleep(&self) -> bool
        ensures { result ≡ is_asleep self.now }
    {
        match self.state {
            State::Live(life) => life.channel.is_some(),
            State::Zombie { .. } => false,
        }
    }

    pub(crate) fn status(&self) -> Option<i32>
        ensures { result ≡ status_of self.now }
    {
        match self.state {
            State::Live(_) => None,
            State::Zombie { status } => Some(status),
        }
    }

    pub(crate) fn call(&self) -> Option<Call>
        ensures { result ≡ call_of self.now }
    {
        match self.state {
            State::Live(life) => life.call,
            State::Zombie { .. } => None,
        }
    }

    /// It wakes if it sleeps on the channel.
    pub(crate) fn wake(&mut self, on: &Channel)
        ensures { self.new ≡ woken on.now self.old }
    {
        if let State::Live(life) = &mut self.state {
            if life.sleeps_on(on) {
                life.channel = None;
            }
        }
    }

    /// It is marked and awake if it lives.
    pub(crate) fn kill(&mut self)
        ensures { self.new ≡ killed self.old }
    {
        if let State::Live(life) = &mut self.state {
            life.marked = true;
            life.channel = None;
        }
    }

    /// It sleeps on the channel if it lives.
    pub(crate) fn sleep(&mut self, on: Channel)
        ensures { self.new ≡ asleep on self.old }
    {
        if let State::Live(life) = &mut self.state {
            life.channel = Some(on);
        }
    }

    /// It is in this call, or in none, if it lives.
    pub(crate) fn note(&mut self, call: Option<Call>)
        ensures { self.new ≡ in_call call self.old }
    {
        if let State::Live(life) = &mut self.state {
            life.call = call;
        }
    }

    /// It has ended with this status.
    pub(crate) fn end(&mut self, status: i32)
        ensures { self.new ≡ ended status self.old }
    {
        self.state = State::Zombie { status };
    }

    /// It is a child of `to` if it was one of `from`.
    pub(crate) fn give(&mut self, from: Pid, to: Pid)
        ensures { self.new ≡ given from to self.old }
    {
        if self.is_child_of(from) {
            self.parent = Some(to);
        }
    }
}
