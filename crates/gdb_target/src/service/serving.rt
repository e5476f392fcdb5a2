//! What is answered to each packet.
ghost use Rattle.std.specs.Prelude.{◌≡◌, [], IfOk, OnOk, true, not};
ghost use Rattle.std.specs.Io.KnownBytes.{Appends};
ghost use Rattle.std.specs.String.{string_bytes};
ghost use Rattle.gdb_packets.specs.Answers as packets;
ghost use Rattle.gdb_target.specs.Forth.{end_of, shows};
ghost use Rattle.gdb_target.specs.Sent.{IsAnswered, Sends, stop_told};
ghost use Rattle.gdb_target.specs.Served.{ButTold, GoesAndTells, IsContinuedBack, IsGoneTold, IsOver, IsPauseTold, IsRestarted};
ghost use Rattle.gdb_target.specs.Served.{IsReversed, IsStepBack};
ghost use Rattle.gdb_target.specs.Served.{Pauses, Performs, Resumes, Takes, damaged_told, low_byte, over_note, shown_told};
ghost use Rattle.gdb_target.specs.Kept.{IsSentLast};
ghost use Rattle.gdb_target.specs.Serving.{IsKept, IsKeptBy, IsKeptIf, IsServed, ServesUntil, acks_after, acks_by, more_after, more_by};
ghost use Rattle.gdb_packets.specs.Commands.{asked};
ghost use Rattle.gdb_packets.specs.Packets.{fed_all};
ghost use Rattle.gdb_packets.specs.Reading.{reading};

use crate::answers::{malformed, no_such_process};
use crate::gone::gone_told;
use crate::let_run::LetRun;
use crate::reverse::Back;
use crate::service::link::Link;
use crate::target::{Going, Pause, Stopped, Target, Way};
use gdb_packets::{
    Command, PacketReader, Piece, Resume, StopReason, Thread, console, exited, parse, stop_reply,
};
use program_files::Failure;
use std::alloc::{AllocError, Global};
use std::io::{ErrorKind, Read, Write};
use xk_base::Pid;

/// How many bytes are read at once.
const READ_BYTES: usize = 512;

/// Whether there is more to serve.
#[derive(Clone, Copy)]
enum After {
    GoesOn,
    Ends,
}

/// Whether the console shows bytes, and then it goes on.
fn shows(pause: &Option<Pause>) -> bool
    ensures { result ≡ shows pause.now }
{
    match pause {
        None => false,
        Some(pause) => match pause {
            Pause::Shows => true,
            Pause::Stopped(_) => false,
            Pause::Gone => false,
            Pause::Ended(_) => false,
        },
    }
}

/// The low byte of a status.
fn low_byte(status: i32) -> u8
    ensures { result ≡ low_byte status }
{
    status.to_le_bytes()[0]
}

/// Whether there is more to serve after a command.
fn more_after(command: Command) -> After
    ensures { result ≡ more_after command }
{
    match command {
        Command::Detach | Command::Kill => After::Ends,
        _ => After::GoesOn,
    }
}

/// The note that so many events are over, which one command may send.
fn over_note(alloc: Global, most: u32) -> Result<String, AllocError>
    ensures { IfOk result (λ text. string_bytes text ≡ over_note most) }
{
    format!(in alloc; "xv_gdb: {most} events are over; it can go on\n")
}

/// GDB, which is served: a machine, and the way to GDB.
#[derive(Drop)]
pub(crate) struct Service {
    alloc: Global,
    target: Target,
    link: Link,
}

impl Service {
    /// The service of a machine that was just booted.
    pub fn new(alloc: Global, target: Target) -> Service
        ensures target { result.target ≡ target }
        ensures acks { result.link.acks ≡ true }
        ensures last { result.link.last.items ≡ [] }
    {
        Service {
            alloc,
            target,
            link: Link::new(alloc),
        }
    }

    /// Writes what the console shows and wasn't told yet.
    fn show<W: Write>(&mut self, output: &mut W) -> Result<(), Failure<'static>>
        ensures sent { OnOk result (Appends (W.contents output.old) (W.contents output.new) (shown_told self.old.target.shown.items)) }
        ensures told { ButTold self.old.target self.new.target }
        ensures acks { self.new.link.acks ≡ self.old.link.acks }
    {
        let shown = self.target.take_shown(self.alloc);
        if shown.is_empty() {
            return Ok(());
        }
        let payload = console(self.alloc, shown.as_slice())?;
        self.link.send(output, payload.as_slice())
    }

    /// Goes on until something stops the program, and writes what the console shows meanwhile; `None` if as many events
    /// were sent as may be.
    fn go_on<W: Write>(
        &mut self,
        output: &mut W,
        going: &Going,
    ) -> Result<Option<Pause>, Failure<'static>>
        requires { going.now.end ≡ end_of self.old.target }
        ensures goes { IfOk result
            (λ p. Resumes going.now.way self.old.target p self.new.target (W.contents output.old) (W.contents output.new)) }
        ensures acks { self.new.link.acks ≡ self.old.link.acks }
    {
        'pauses: for often in 0..u64::from(self.target.most) {
            let pause = self.target.go(self.alloc, going)?;
            if !shows(&pause) {
                return Ok(pause);
            }
            self.show(output)?;
        }
        Ok(None)
    }

    /// Goes on, as [`Service::go_on`], unless an interrupt came: then it stops at once.
    fn go_until<W: Write>(
        &mut self,
        output: &mut W,
        way: Way,
    ) -> Result<Option<Pause>, Failure<'static>>
        ensures pauses { IfOk result
            (λ p. Pauses way self.old.target p self.new.target (W.contents output.old) (W.contents output.new)) }
        ensures acks { self.new.link.acks ≡ self.old.link.acks }
    {
        if self.target.take_interrupt() {
            let stopped = self.target.stop_of_run(way.let_run, StopReason::Interrupt);
            return Ok(Some(Pause::Stopped(stopped)));
        }
        let going = self.target.going(way);
        self.go_on(output, &going)
    }

    /// Tells that as many events were sent as may be.
    fn tell_over<W: Write>(
        &mut self,
        output: &mut W,
        let_run: LetRun,
    ) -> Result<(), Failure<'static>>
        ensures over { OnOk result (IsOver let_run self.old.target self.new.target (W.contents output.old) (W.contents output.new)) }
        ensures kept { OnOk result (IsSentLast self.new.link.last.items (W.contents output.old) (W.contents output.new)) }
        ensures acks { self.new.link.acks ≡ self.old.link.acks }
    {
        let note = over_note(self.alloc, self.target.most)?;
        let payload = console(self.alloc, note.as_bytes())?;
        self.link.send(output, payload.as_slice())?;
        let stopped = self.target.stop_of_run(let_run, StopReason::Interrupt);
        self.target.stop_at(&stopped);
        self.tell_stop(output)
    }

    /// Tells that the process is gone that was let run alone, or, if GDB waits for it behind its last instruction, that it
    /// came there. The last stop is from now on one of a process that lives, if any does.
    fn tell_gone<W: Write>(
        &mut self,
        output: &mut W,
        let_run: LetRun,
    ) -> Result<(), Failure<'static>>
        ensures gone { OnOk result (IsGoneTold let_run self.old.target self.new.target (W.contents output.old) (W.contents output.new)) }
        ensures kept { OnOk result (IsSentLast self.new.link.last.items (W.contents output.old) (W.contents output.new)) }
        ensures acks { self.new.link.acks ≡ self.old.link.acks }
    {
        let address = self.target.step_over(self.alloc, &let_run)?;
        let stopped = self.target.stop_here(StopReason::Trap);
        self.target.stop_at(&stopped);
        let payload = gone_told(self.alloc, let_run, address)?;
        self.link.send(output, payload.as_slice())
    }

    /// Tells the end, with the low byte of the status.
    fn tell_end<W: Write>(&mut self, output: &mut W, status: i32) -> Result<(), Failure<'static>>
        ensures sent { OnOk result
            (Sends (W.contents output.old) (W.contents output.new) (packets.exited (low_byte status))) }
        ensures target { self.new.target ≡ self.old.target }
        ensures kept { OnOk result (IsSentLast self.new.link.last.items (W.contents output.old) (W.contents output.new)) }
        ensures acks { self.new.link.acks ≡ self.old.link.acks }
    {
        let payload = exited(self.alloc, low_byte(status))?;
        self.link.send(output, payload.as_slice())
    }

    /// Tells of a pause.
    fn tell<W: Write>(
        &mut self,
        output: &mut W,
        let_run: LetRun,
        pause: Option<Pause>,
    ) -> Result<(), Failure<'static>>
        ensures told { OnOk result
            (IsPauseTold let_run pause self.old.target self.new.target (W.contents output.old) (W.contents output.new)) }
        ensures kept { OnOk result (IsSentLast self.new.link.last.items (W.contents output.old) (W.contents output.new)) }
        ensures acks { self.new.link.acks ≡ self.old.link.acks }
    {
        match pause {
            Some(Pause::Ended(status)) => self.tell_end(output, status),
            Some(Pause::Stopped(stopped)) => {
                self.target.stop_at(&stopped);
                self.tell_stop(output)
            }
            Some(Pause::Gone) => self.tell_gone(output, let_run),
            Some(Pause::Shows) => self.tell_over(output, let_run),
            None => self.tell_over(output, let_run),
        }
    }

    /// Tells of the last stop.
    fn tell_stop<W: Write>(&mut self, output: &mut W) -> Result<(), Failure<'static>>
        ensures sent { OnOk result
            (Sends (W.contents output.old) (W.contents output.new) (stop_told self.old.target)) }
        ensures target { self.new.target ≡ self.old.target }
        ensures kept { OnOk result (IsSentLast self.new.link.last.items (W.contents output.old) (W.contents output.new)) }
        ensures acks { self.new.link.acks ≡ self.old.link.acks }
    {
        let payload = stop_reply(self.alloc, self.target.stopped.stop())?;
        self.link.send(output, payload.as_slice())
    }

    /// Goes on, and tells of the pause.
    fn go_and_tell<W: Write>(&mut self, output: &mut W, way: &Way) -> Result<(), Failure<'static>>
        ensures goes { OnOk result
            (GoesAndTells way.now self.old.target self.new.target (W.contents output.old) (W.contents output.new)) }
        ensures kept { OnOk result (IsSentLast self.new.link.last.items (W.contents output.old) (W.contents output.new)) }
        ensures acks { self.new.link.acks ≡ self.old.link.acks }
    {
        let pause = self.go_until(output, *way)?;
        self.show(output)?;
        self.tell(output, way.let_run, pause)
    }

    /// Goes on as the command says, and tells of the pause.
    fn resume<W: Write>(
        &mut self,
        output: &mut W,
        how: Resume,
        runs: Thread,
    ) -> Result<(), Failure<'static>>
        ensures performs { OnOk result
            (Performs (Command.Resume how runs) self.old.target self.new.target (W.contents output.old) (W.contents output.new)) }
        ensures kept { OnOk result (IsSentLast self.new.link.last.items (W.contents output.old) (W.contents output.new)) }
        ensures acks { self.new.link.acks ≡ self.old.link.acks }
    {
        match self.target.way(how, runs) {
            Some(way) => self.go_and_tell(output, &way),
            None => self.refuse_process(output),
        }
    }

    /// Refuses a command that names a process that doesn't live.
    fn refuse_process<W: Write>(&mut self, output: &mut W) -> Result<(), Failure<'static>>
        ensures sent { OnOk result
            (Sends (W.contents output.old) (W.contents output.new) (packets.refusal 3)) }
        ensures target { self.new.target ≡ self.old.target }
        ensures kept { OnOk result (IsSentLast self.new.link.last.items (W.contents output.old) (W.contents output.new)) }
        ensures acks { self.new.link.acks ≡ self.old.link.acks }
    {
        let payload = no_such_process(self.alloc)?;
        self.link.send(output, payload.as_slice())
    }

    /// Goes back, and tells of the stop.
    fn reverse<W: Write>(&mut self, output: &mut W, back: &Back) -> Result<(), Failure<'static>>
        ensures reversed { OnOk result
            (IsReversed back.now self.old.target self.new.target (W.contents output.old) (W.contents output.new)) }
        ensures kept { OnOk result (IsSentLast self.new.link.last.items (W.contents output.old) (W.contents output.new)) }
        ensures acks { self.new.link.acks ≡ self.old.link.acks }
    {
        let stopped = self.target.go_back(self.alloc, back)?;
        self.target.stop_at(&stopped);
        self.tell_stop(output)
    }

    /// Goes back by a step of the process that steps, and tells of the stop.
    fn reverse_step<W: Write>(&mut self, output: &mut W) -> Result<(), Failure<'static>>
        ensures stepped { OnOk result
            (IsStepBack self.old.target self.new.target (W.contents output.old) (W.contents output.new)) }
        ensures kept { OnOk result (IsSentLast self.new.link.last.items (W.contents output.old) (W.contents output.new)) }
        ensures acks { self.new.link.acks ≡ self.old.link.acks }
    {
        match self.target.steps(Thread::Any) {
            Some(pid) => self.reverse(output, &Back::StepOf(pid)),
            None => self.refuse_process(output),
        }
    }

    /// Goes back to the last point of whom GDB lets run, and tells of the stop.
    fn reverse_continue<W: Write>(&mut self, output: &mut W) -> Result<(), Failure<'static>>
        ensures continued { OnOk result
            (IsContinuedBack self.old.target self.new.target (W.contents output.old) (W.contents output.new)) }
        ensures kept { OnOk result (IsSentLast self.new.link.last.items (W.contents output.old) (W.contents output.new)) }
        ensures acks { self.new.link.acks ≡ self.old.link.acks }
    {
        match self.target.chosen_to_run() {
            Some(let_run) => self.reverse(output, &Back::Point(let_run)),
            None => self.refuse_process(output),
        }
    }

    /// Begins the run anew, and tells that it stands at its boot.
    fn restart<W: Write>(&mut self, output: &mut W) -> Result<(), Failure<'static>>
        ensures restarts { OnOk result
            (IsRestarted self.old.target self.new.target (W.contents output.old) (W.contents output.new)) }
        ensures kept { OnOk result (IsSentLast self.new.link.last.items (W.contents output.old) (W.contents output.new)) }
        ensures acks { self.new.link.acks ≡ self.old.link.acks }
    {
        self.target.reboot(self.alloc)?;
        self.target.stop_at(&Stopped {
            reason: StopReason::Trap,
            pid: Pid::new(1),
        });
        self.tell_stop(output)
    }

    /// From now on packets aren't acknowledged, if this command asks for it.
    fn note_acks(&mut self, command: Command)
        ensures target { self.new.target ≡ self.old.target }
        ensures last { self.new.link.last ≡ self.old.link.last }
        ensures acks { self.new.link.acks ≡ acks_after command self.old.link.acks }
    {
        match command {
            Command::NoAcks => self.link.acks = false,
            _ => {}
        }
    }

    /// Answers a command after which the machine is where it was.
    fn answer<W: Write>(
        &mut self,
        output: &mut W,
        command: Command,
    ) -> Result<After, Failure<'static>>
        ensures answered { OnOk result
            (IsAnswered command self.old.target self.new.target (W.contents output.old) (W.contents output.new)) }
        ensures kept { OnOk result (IsSentLast self.new.link.last.items (W.contents output.old) (W.contents output.new)) }
        ensures acks { OnOk result (self.new.link.acks ≡ acks_after command self.old.link.acks) }
        ensures next { IfOk result (λ next. next ≡ more_after command) }
    {
        let payload = self.target.answer(self.alloc, command)?;
        self.link.send(output, payload.as_slice())?;
        self.note_acks(command);
        Ok(more_after(command))
    }

    /// Does what a packet asks for.
    fn perform<W: Write>(
        &mut self,
        output: &mut W,
        command: Command,
    ) -> Result<After, Failure<'static>>
        ensures performs { OnOk result
            (Performs command self.old.target self.new.target (W.contents output.old) (W.contents output.new)) }
        ensures kept { OnOk result (IsKept command self.old.link.last.items self.new.link.last.items (W.contents output.old) (W.contents output.new)) }
        ensures acks { OnOk result (self.new.link.acks ≡ acks_after command self.old.link.acks) }
        ensures next { IfOk result (λ next. next ≡ more_after command) }
    {
        match command {
            Command::Resume { how, runs } => {
                self.resume(output, how, runs)?;
                Ok(After::GoesOn)
            }
            Command::ReverseContinue => {
                self.reverse_continue(output)?;
                Ok(After::GoesOn)
            }
            Command::ReverseStep => {
                self.reverse_step(output)?;
                Ok(After::GoesOn)
            }
            Command::Restart => {
                self.restart(output)?;
                Ok(After::GoesOn)
            }
            Command::Kill => Ok(After::Ends),
            _ => self.answer(output, command),
        }
    }

    /// Tells that a packet is damaged: it is to be sent again, or is refused if packets aren't acknowledged.
    fn refuse_damaged<W: Write>(&mut self, output: &mut W) -> Result<(), Failure<'static>>
        ensures sent { OnOk result
            (Appends (W.contents output.old) (W.contents output.new) (damaged_told self.old.link.acks)) }
        ensures target { self.new.target ≡ self.old.target }
        ensures kept { OnOk result (IsKeptIf (not self.old.link.acks) self.old.link.last.items self.new.link.last.items (W.contents output.old) (W.contents output.new)) }
        ensures acks { self.new.link.acks ≡ self.old.link.acks }
    {
        if self.link.acks {
            return self.link.acknowledge(output, false);
        }
        let payload = malformed(self.alloc)?;
        self.link.send(output, payload.as_slice())
    }

    /// Acknowledges a packet, if packets are, and does what it asks for.
    fn take_packet<W: Write>(
        &mut self,
        output: &mut W,
        payload: &[u8],
    ) -> Result<After, Failure<'static>>
        ensures takes { OnOk result
            (Takes Piece.Packet self.old.link.acks self.old.link.last.items payload.now self.old.target
            self.new.target (W.contents output.old) (W.contents output.new)) }
        ensures kept { OnOk result (IsKept (asked payload.now) self.old.link.last.items self.new.link.last.items (W.contents output.old) (W.contents output.new)) }
        ensures acks { OnOk result (self.new.link.acks ≡ acks_after (asked payload.now) self.old.link.acks) }
        ensures next { IfOk result (λ next. next ≡ more_after (asked payload.now)) }
    {
        self.link.acknowledge(output, true)?;
        self.perform(output, parse(payload))
    }

    /// Does what came to its end.
    fn take<W: Write>(
        &mut self,
        output: &mut W,
        piece: Piece,
        payload: &[u8],
    ) -> Result<After, Failure<'static>>
        ensures takes { OnOk result
            (Takes piece self.old.link.acks self.old.link.last.items payload.now self.old.target
            self.new.target (W.contents output.old) (W.contents output.new)) }
        ensures kept { OnOk result (IsKeptBy piece payload.now self.old.link.acks self.old.link.last.items self.new.link.last.items (W.contents output.old) (W.contents output.new)) }
        ensures acks { OnOk result (self.new.link.acks ≡ acks_by piece payload.now self.old.link.acks) }
        ensures next { IfOk result (λ next. next ≡ more_by piece payload.now) }
    {
        match piece {
            Piece::Ack => Ok(After::GoesOn),
            Piece::Nak => {
                self.link.send_again(output)?;
                Ok(After::GoesOn)
            }
            Piece::Interrupt => {
                self.target.interrupted = true;
                Ok(After::GoesOn)
            }
            Piece::Damaged => {
                self.refuse_damaged(output)?;
                Ok(After::GoesOn)
            }
            Piece::Packet => self.take_packet(output, payload),
        }
    }

    /// Does what bytes ask for.
    fn serve_bytes<W: Write>(
        &mut self,
        reader: &mut PacketReader,
        bytes: &[u8],
        output: &mut W,
    ) -> Result<After, Failure<'static>>
        ensures serves { IfOk result
            (λ next. ServesUntil next bytes.now (reading reader.old) self.old self.new (W.contents output.old) (W.contents output.new)) }
        ensures read { IfOk result (λ next. next ≡ After.GoesOn → reading reader.new ≡ fed_all bytes.now (reading reader.old)) }
    {
        for byte in bytes {
            let Some(piece) = reader.feed(*byte)? else {
                continue;
            };
            match self.take(output, piece, reader.payload())? {
                After::Ends => return Ok(After::Ends),
                After::GoesOn => {}
            }
        }
        Ok(After::GoesOn)
    }

    /// Serves GDB, until it goes or the input is at its end; by 2^64 - 1 reads at most.
    pub fn serve<R: Read, W: Write>(
        &mut self,
        input: &mut R,
        output: &mut W,
    ) -> Result<(), Failure<'static>>
        ensures { OnOk result
            (IsServed self.old self.new (R.remaining input.old) (R.remaining input.new) (W.contents output.old) (W.contents output.new)) }
    {
        let mut reader = PacketReader::new(self.alloc);
        let mut buffer = [0u8; READ_BYTES];
        for _ in 0..u64::MAX {
            let count = match input.read(&mut buffer) {
                Ok(count) => count,
                Err(error) if error.kind() == ErrorKind::Interrupted => continue,
                Err(_) => return Err(Failure::Read),
            };
            if count == 0 {
                return Ok(());
            }
            let bytes = &buffer[..count];
            match self.serve_bytes(&mut reader, bytes, output)? {
                After::Ends => return Ok(()),
                After::GoesOn => {}
            }
        }
        Err(Failure::Read)
    }
}
