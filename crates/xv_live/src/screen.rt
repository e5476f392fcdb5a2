//! The screen, and who is told what isn't the machine's own.
ghost use Rattle.std.specs.Prelude.{◌≡◌, IfErr, OnOk};
ghost use Rattle.program_files.specs.declared.failure.Failure.TheVariants as failures;
ghost use Rattle.std.specs.Io.KnownBytes.{Appends};

use program_files::Failure;
use xk_base::{Cause, Pid};
use xv_machine::ByteSink;
use xv_record::GrowError;
use xv_session::Session;

/// A process that ended by a fault.
#[derive(Clone, Copy)]
pub struct FaultNote {
    pub pid: Pid,
    pub cause: Cause,
    /// The place, among the machine's programs, of the one that it ran, if that is known.
    pub program: Option<usize>,
}

/// Who is told what isn't the machine's own. No contract says what is made of it: how it is told is tested.
pub trait Teller {
    /// The screen shows these bytes of the machine.
    fn follow(&mut self, bytes: &[u8]);

    /// A fault came of the session's last event.
    fn tell_fault(&mut self, session: &Session, fault: FaultNote);

    /// The processes are asked for.
    fn tell_processes(&mut self, session: &Session);

    /// The record can't be written any more.
    fn tell_unrecorded(&mut self, why: GrowError);
}

/// The screen, which shows what the machine sends, and who is told all else.
#[derive(Drop)]
pub struct Screen<W, T> {
    /// What takes the machine's bytes.
    pub sink: W,
    pub teller: T,
}

impl<W: ByteSink, T: Teller> Screen<W, T> {
    /// Shows bytes of the machine.
    ///
    /// # Errors
    ///
    /// [`Failure::Write`] if they can't be written.
    pub fn show(&mut self, bytes: &[u8]) -> Result<(), Failure<'static>>
        ensures shown { OnOk result (Appends (W.sink self.old.sink).held (W.sink self.new.sink).held bytes.now) }
        ensures refused { IfErr result (λ why. why ≡ failures.Write) }
    {
        if bytes.is_empty() {
            return Ok(());
        }
        let Ok(()) = self.sink.write_out(bytes) else {
            return Err(Failure::Write);
        };
        self.teller.follow(bytes);
        Ok(())
    }
}
