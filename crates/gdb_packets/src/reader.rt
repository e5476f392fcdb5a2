//! How packets are read, byte by byte.
ghost use Rattle.std.specs.Prelude.{◌≡◌, [], IfOk, OnErr};
ghost use Rattle.gdb_packets.specs.Digits.{digit_value};
ghost use Rattle.gdb_packets.specs.Packets as meant;
ghost use Rattle.gdb_packets.specs.Reading.{reading};

use crate::digits::digit_value;
use std::alloc::{AllocError, Global};

/// What the next byte is.
#[derive(Clone, Copy)]
pub enum Phase {
    /// It stands between packets.
    Between,
    /// It belongs to a packet's body, or ends it.
    Body,
    /// It stands behind `}`, and means itself with bit 5 turned.
    Escape,
    /// It is the higher digit of the checksum.
    FirstDigit,
    /// It is the lower digit of the checksum, whose higher one is this.
    SecondDigit(u8),
}

/// What came to its end.
#[derive(Clone, Copy)]
pub enum Piece {
    /// The other side got a packet whole.
    Ack,
    /// The other side got a damaged packet, and wants it again.
    Nak,
    /// The program is to stop (Ctrl-C).
    Interrupt,
    /// A packet, whose payload the reader has.
    Packet,
    /// A packet whose checksum is wrong, or that ends behind `}`.
    Damaged,
}

/// Reads packets from single bytes.
#[derive(Drop)]
pub struct PacketReader {
    phase: Phase,
    payload: Vec<u8>,
    // The sum of the bytes of the body, modulo 256.
    sum: u8,
}

impl PacketReader {
    /// A reader that has read nothing.
    pub fn new(alloc: Global) -> PacketReader
        ensures phase { (reading result).phase ≡ Phase.Between }
        ensures payload { (reading result).payload ≡ [] }
    {
        PacketReader {
            phase: Phase::Between,
            payload: Vec::new(alloc),
            sum: 0,
        }
    }

    /// Reads one byte more, and tells what it brought to its end.
    ///
    /// # Errors
    ///
    /// [`AllocError`] if the host has too little memory: the byte isn't read.
    pub fn feed(&mut self, byte: u8) -> Result<Option<Piece>, AllocError>
        ensures goes { IfOk result (λ _. reading self.new ≡ meant.fed byte (reading self.old)) }
        ensures tells { IfOk result (λ p. p ≡ meant.piece byte (reading self.old)) }
        ensures refused { OnErr result (reading self.new ≡ reading self.old) }
    {
        if byte == b'$' {
            self.payload.clear();
            self.sum = 0;
            self.phase = Phase::Body;
            return Ok(None);
        }
        match self.phase {
            Phase::Between => Ok(between(byte)),
            Phase::Body => self.in_body(byte),
            Phase::Escape => self.behind_escape(byte),
            Phase::FirstDigit => Ok(self.first_digit(byte)),
            Phase::SecondDigit(first) => Ok(Some(self.second_digit(first, byte))),
        }
    }

    /// The payload of the packet that came last, or that is being read.
    pub fn payload(&self) -> &[u8]
        ensures { result.now ≡ (reading self.now).payload }
    {
        self.payload.as_slice()
    }
}

/// What a byte means that stands between packets.
fn between(byte: u8) -> Option<Piece>
    ensures { result ≡ meant.between byte }
{
    match byte {
        b'+' => Some(Piece::Ack),
        b'-' => Some(Piece::Nak),
        0x03 => Some(Piece::Interrupt),
        _ => None,
    }
}

impl PacketReader {
    // Takes a byte of the body, which stands for a byte of the payload.
    fn take(&mut self, came: u8, byte: u8) -> Result<Option<Piece>, AllocError>
        ensures goes { IfOk result (λ _. reading self.new ≡ meant.taken came byte (reading self.old)) }
        ensures tells { IfOk result (λ p. p ≡ None) }
        ensures refused { OnErr result (reading self.new ≡ reading self.old) }
    {
        self.payload.push(byte)?;
        self.sum = self.sum.wrapping_add(came);
        self.phase = Phase::Body;
        Ok(None)
    }

    // Reads a byte of the body.
    fn in_body(&mut self, byte: u8) -> Result<Option<Piece>, AllocError>
        ensures goes { IfOk result (λ _. reading self.new ≡ meant.in_body byte (reading self.old)) }
        ensures tells { IfOk result (λ p. p ≡ None) }
        ensures refused { OnErr result (reading self.new ≡ reading self.old) }
    {
        match byte {
            b'#' => {
                self.phase = Phase::FirstDigit;
                Ok(None)
            }
            b'}' => {
                self.sum = self.sum.wrapping_add(byte);
                self.phase = Phase::Escape;
                Ok(None)
            }
            _ => self.take(byte, byte),
        }
    }

    // Reads a byte behind `}`.
    fn behind_escape(&mut self, byte: u8) -> Result<Option<Piece>, AllocError>
        ensures goes { IfOk result (λ _. reading self.new ≡ meant.behind_escape byte (reading self.old)) }
        ensures tells { IfOk result (λ p. p ≡ meant.ended Phase.Escape byte (reading self.old)) }
        ensures refused { OnErr result (reading self.new ≡ reading self.old) }
    {
        if byte == b'#' {
            self.phase = Phase::Between;
            return Ok(Some(Piece::Damaged));
        }
        self.take(byte, byte ^ 0x20)
    }

    // Reads the higher digit of the checksum.
    fn first_digit(&mut self, byte: u8) -> Option<Piece>
        ensures goes { reading self.new ≡ meant.within Phase.FirstDigit byte (reading self.old) }
        ensures tells { result ≡ meant.ended Phase.FirstDigit byte (reading self.old) }
    {
        match digit_value(byte) {
            Some(first) => {
                self.phase = Phase::SecondDigit(first);
                None
            }
            None => {
                self.phase = Phase::Between;
                Some(Piece::Damaged)
            }
        }
    }

    // Reads the lower digit of the checksum.
    fn second_digit(&mut self, first: u8, byte: u8) -> Piece
        ensures goes { reading self.new ≡ meant.at Phase.Between (reading self.old) }
        ensures tells { result ≡ meant.summed (reading self.old).sum first (digit_value byte) }
    {
        self.phase = Phase::Between;
        match digit_value(byte) {
            Some(second) if u32::from(first) * 16 + u32::from(second) == u32::from(self.sum) => {
                Piece::Packet
            }
            _ => Piece::Damaged,
        }
    }
}
