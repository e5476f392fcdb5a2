//! What is written to GDB.
ghost use Rattle.std.specs.Prelude.{◌≡◌, [], OnOk, true};
ghost use Rattle.std.specs.Io.KnownBytes.{Appends};
ghost use Rattle.gdb_packets.specs.Packets as packets;
ghost use Rattle.gdb_target.specs.Kept.{IsSentLast};
ghost use Rattle.gdb_target.specs.Sent.{Sends, acknowledgement};

use gdb_packets::packet;
use program_files::{Failure, put};
use std::alloc::Global;
use std::io::Write;

/// What tells GDB whether its packet came whole: nothing where packets aren't acknowledged.
fn acknowledgement(acks: bool, whole: bool) -> &'static [u8]
    ensures { result.now ≡ acknowledgement acks whole }
{
    match (acks, whole) {
        (false, _) => b"".as_slice(),
        (true, true) => b"+".as_slice(),
        (true, false) => b"-".as_slice(),
    }
}

/// The way to GDB.
#[derive(Drop)]
pub(crate) struct Link {
    alloc: Global,
    /// Whether packets are acknowledged.
    pub acks: bool,
    /// The last packet, which is written again if GDB asks for it.
    last: Vec<u8>,
}

impl Link {
    /// A way on which packets are acknowledged.
    pub fn new(alloc: Global) -> Link
        ensures acks { result.acks ≡ true }
        ensures last { result.last.items ≡ [] }
    {
        Link {
            alloc,
            acks: true,
            last: Vec::new(alloc),
        }
    }

    /// Writes the packet of a payload.
    #[tactic(auto, using(crate::proofs::Serving::sent_last))]
    pub fn send<W: Write>(&mut self, output: &mut W, payload: &[u8]) -> Result<(), Failure<'static>>
        ensures sent { OnOk result (Sends (W.contents output.old) (W.contents output.new) payload.now) }
        ensures kept { OnOk result (self.new.last.items ≡ packets.packet payload.now) }
        ensures last { OnOk result (IsSentLast self.new.last.items (W.contents output.old) (W.contents output.new)) }
        ensures acks { self.new.acks ≡ self.old.acks }
    {
        self.last = packet(self.alloc, payload)?;
        put(output, self.last.as_slice())
    }

    /// Writes the last packet again.
    pub fn send_again<W: Write>(&self, output: &mut W) -> Result<(), Failure<'static>>
        ensures { OnOk result (Appends (W.contents output.old) (W.contents output.new) self.now.last.items) }
    {
        put(output, self.last.as_slice())
    }

    /// Tells GDB whether its packet came whole, where packets are acknowledged.
    pub fn acknowledge<W: Write>(&self, output: &mut W, whole: bool) -> Result<(), Failure<'static>>
        ensures { OnOk result
            (Appends (W.contents output.old) (W.contents output.new) (acknowledgement self.now.acks whole)) }
    {
        put(output, acknowledgement(self.acks, whole))
    }
}
