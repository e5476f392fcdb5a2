//! Who keeps the record of a session while it goes on.
use crate::keeping::Recording;
use std::alloc::Global;
use xv_record::{GrowError, RecordFile};
use xv_session::Session;

/// Who keeps the record of a session while it goes on, if one is to be kept.
#[derive(Drop)]
pub struct Recorder<F> {
    /// The record. `None` if none is to be kept, or if it can't be written any more.
    pub recording: Option<Recording<F>>,
    /// Why it can't be written any more.
    pub failure: Option<GrowError>,
    /// What lines are made with.
    pub alloc: Global,
}

impl<F: RecordFile> Recorder<F> {
    ghost use Rattle.std.specs.Prelude.{◌≡◌, ◌++◌, List, None, Some, Err, IfErr, IsSome, OnErr, OnOk};
    ghost use Rattle.std.specs.String.{string_bytes};
    ghost use Rattle.kernel_spec.specs.runs.Run.{Event};
    ghost use Rattle.xv_live.specs.Keeps.{GoesOn, HasHead, IsKept};

    /// Nobody keeps a record.
    pub fn none(alloc: Global) -> Recorder<F>
        ensures none { result.recording ≡ None }
        ensures well { result.failure ≡ None }
    {
        Recorder {
            recording: None,
            failure: None,
            alloc,
        }
    }

    // No record is kept any more, for this reason.
    fn fail(&mut self, why: GrowError) -> Result<(), GrowError>
        ensures told { result ≡ Err why }
        ensures failure { self.new.failure ≡ Some why }
        ensures recording { self.new.recording ≡ None }
    {
        self.recording = None;
        self.failure = Some(why);
        Err(why)
    }

    /// Begins to keep the record of a session in a file, in the place of all that the file has.
    ///
    /// # Errors
    ///
    /// [`GrowError::Unwritten`] if the file can't be written, and [`GrowError::Memory`] if the host has too little
    /// memory. No record is kept then.
    pub fn begin(&mut self, file: F, head: String, session: &Session) -> Result<(), GrowError>
        ensures kept { IsKept F.held self.new session.now.events }
        ensures head { HasHead self.new (string_bytes head) }
        ensures still { self.new.failure ≡ None → IsSome self.new.recording }
        ensures well { OnOk result ((self.new.failure ≡ self.old.failure) × IsSome self.new.recording) }
        ensures off { OnErr result (self.new.recording ≡ None) }
        ensures told { IfErr result (λ why. self.new.failure ≡ Some why) }
    {
        let mut recording = Recording::new(file, head);
        match recording.write_anew(self.alloc, session) {
            Ok(()) => {
                self.recording = Some(recording);
                Ok(())
            }
            Err(why) => self.fail(why),
        }
    }

    /// Writes what the session got since the last call. It has got nothing else, and has not gone back.
    ///
    /// # Errors
    ///
    /// [`GrowError::Unwritten`] if the file can't be written, and [`GrowError::Memory`] if the host has too little
    /// memory. The record isn't kept any more then.
    #[tactic(auto, using(crate::proofs::Kept::on_off, crate::proofs::Kept::on_kept, crate::proofs::Kept::on_failed))]
    pub fn keep(&mut self, session: &Session) -> Result<(), GrowError>
        ensures kept { (before more : List Event) → session.now.events ≡ before ++ more → IsKept F.held self.old before → IsKept F.held self.new session.now.events }
        ensures goes_on { GoesOn self.old self.new }
        ensures well { OnOk result (self.new.failure ≡ self.old.failure) }
        ensures off { OnErr result (self.new.recording ≡ None) }
        ensures told { IfErr result (λ why. self.new.failure ≡ Some why) }
    {
        let Some(mut kept) = self.recording.take() else {
            return Ok(());
        };
        match kept.go_on(self.alloc, session) {
            Ok(()) => {
                self.recording = Some(kept);
                Ok(())
            }
            Err(why) => self.fail(why),
        }
    }

    /// Writes all of the record anew: the session may have gone back.
    ///
    /// # Errors
    ///
    /// Those of [`keep`](Recorder::keep).
    #[tactic(auto, using(crate::proofs::Kept::on_off, crate::proofs::Kept::on_kept, crate::proofs::Kept::on_failed))]
    pub fn keep_anew(&mut self, session: &Session) -> Result<(), GrowError>
        ensures kept { IsKept F.held self.new session.now.events }
        ensures goes_on { GoesOn self.old self.new }
        ensures well { OnOk result (self.new.failure ≡ self.old.failure) }
        ensures off { OnErr result (self.new.recording ≡ None) }
        ensures told { IfErr result (λ why. self.new.failure ≡ Some why) }
    {
        let Some(mut whole) = self.recording.take() else {
            return Ok(());
        };
        match whole.write_anew(self.alloc, session) {
            Ok(()) => {
                self.recording = Some(whole);
                Ok(())
            }
            Err(why) => self.fail(why),
        }
    }
}
