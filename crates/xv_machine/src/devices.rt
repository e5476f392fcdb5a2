//! Where keys come from, and where the terminal's bytes go.
ghost use Rattle.std.specs.Prelude.{◌≡◌, ℕ, List, [], ◌∷◌, OnOk, OnErr, IfOk, Option, None};
ghost use Rattle.std.specs.Io.KnownBytes.{Appends};
ghost use Rattle.xv_machine.specs.Devices.{one_more, GivesKey, Source, Asked, Sink, Calls, took, failed};

use std::io::{self, ErrorKind, Read, Write};
use thiserror::Error;

/// A device has failed.
#[derive(Clone, Copy, Debug, Error)]
#[error("the device failed")]
pub struct DeviceFault;

/// A source of keys. It counts its calls that fail.
pub trait KeySource {
    // What it tells of itself, where it is known: the bytes that are left, and how many calls were made.
    ghost source: { Self → Source };

    // How many calls have failed. The count stays at 2^64 - 1.
    ghost failures: { Self → ℕ };

    /// The next byte, or `None` where no byte is left.
    ///
    /// # Errors
    ///
    /// Where the device fails. It then counts one failure more, and what else it did isn't told.
    fn next_key(&mut self) -> Result<Option<u8>, DeviceFault>
        ensures key { IfOk result (λ key. GivesKey (source self.old).left key (source self.new).left) }
        ensures call { Asked (source self.old).asked (source self.new).asked 1 }
        ensures ok { OnOk result (failures self.new ≡ failures self.old) }
        ensures err { OnErr result (failures self.new ≡ one_more (failures self.old)) };
}

/// A sink of bytes. It counts its calls that fail.
pub trait ByteSink {
    // What it tells of itself, where it is known: the bytes that it holds, and its calls.
    ghost sink: { Self → Sink };

    // How many calls have failed. The count stays at 2^64 - 1.
    ghost failures: { Self → ℕ };

    /// Writes all the bytes, behind those that it holds.
    ///
    /// # Errors
    ///
    /// Where the device fails. It then counts one failure more, and how many of the bytes it took isn't
    /// told.
    fn write_out(&mut self, bytes: &[u8]) -> Result<(), DeviceFault>
        ensures bytes { OnOk result (Appends (sink self.old).held (sink self.new).held bytes.now) }
        ensures call { OnOk result (Calls (sink self.old).calls (sink self.new).calls (took bytes.now ∷ [])) }
        ensures failed_call { OnErr result (Calls (sink self.old).calls (sink self.new).calls (failed bytes.now ∷ [])) }
        ensures ok { OnOk result (failures self.new ≡ failures self.old) }
        ensures err { OnErr result (failures self.new ≡ one_more (failures self.old)) };
}

/// A reader as a source of keys, or a writer as a sink of bytes.
#[derive(Drop)]
pub struct Counted<X> {
    /// The reader or the writer.
    pub inner: X,
    /// How many of its calls have failed, at most 2^64 - 1.
    pub failures: u64,
}

impl<X> Counted<X> {
    /// The reader or the writer, none of whose calls has failed yet.
    pub fn new(inner: X) -> Self
        ensures inner { result.inner ≡ inner }
        ensures failures { result.failures ≡ 0 }
    {
        Counted { inner, failures: 0 }
    }
}

/// A read that was interrupted is made again.
impl<X: Read> KeySource for Counted<X> {
    ghost source = { λ s. record { left = X.remaining s.inner; asked = None } };

    ghost failures = { λ s. s.failures };

    fn next_key(&mut self) -> Result<Option<u8>, DeviceFault> {
        let Ok(key) = read_byte(&mut self.inner) else {
            self.failures = self.failures.saturating_add(1);
            return Err(DeviceFault);
        };
        Ok(key)
    }
}

/// The bytes are flushed, too. No contract of a writer says what a flush does, so that this is done, and that a
/// flush that fails counts as a failure, is shown by tests alone.
impl<X: Write> ByteSink for Counted<X> {
    ghost sink = { λ s. record { held = X.contents s.inner; calls = None } };

    ghost failures = { λ s. s.failures };

    fn write_out(&mut self, bytes: &[u8]) -> Result<(), DeviceFault> {
        if write_and_flush(&mut self.inner, bytes).is_ok() {
            return Ok(());
        }
        self.failures = self.failures.saturating_add(1);
        Err(DeviceFault)
    }
}

// Writes all the bytes, and flushes.
fn write_and_flush<W: Write>(writer: &mut W, bytes: &[u8]) -> io::Result<()>
    ensures { OnOk result (Appends (W.contents writer.old) (W.contents writer.new) bytes.now) }
{
    writer.write_all(bytes)?;
    writer.flush()
}

// The next byte, if there is one.
fn read_byte<R: Read>(reader: &mut R) -> io::Result<Option<u8>>
    ensures { IfOk result (λ key. GivesKey (R.remaining reader.old) key (R.remaining reader.new)) }
{
    let mut byte = [0];
    for again in 0..u64::MAX {
        match reader.read(&mut byte) {
            Ok(0) => return Ok(None),
            Ok(_) => return Ok(Some(byte[0])),
            Err(e) if e.kind() == ErrorKind::Interrupted => {}
            Err(e) => return Err(e),
        }
    }
    Err(io::Error::from(ErrorKind::TimedOut))
}
