//! How a packet is written.
ghost use Rattle.std.specs.Prelude.{◌≡◌, ◌++◌, ◌∷◌, [], IfOk, OnOk, ◌%◌, ◌+◌};
ghost use Rattle.gdb_packets.specs.Packets as meant;

use crate::digits::push_byte;
use std::alloc::{AllocError, Global};

/// Whether a byte can't stand for itself in a packet: it begins or ends one, announces another byte, or says how
/// often one is repeated (GDB manual, "Overview" of the remote serial protocol).
fn is_escaped(byte: u8) -> bool
    ensures { result ≡ meant.is_escaped byte }
{
    (byte == b'#') | (byte == b'$') | (byte == b'}') | (byte == b'*')
}

/// Adds a byte of the payload to a packet.
fn push_escaped(text: &mut Vec<u8>, byte: u8) -> Result<(), AllocError>
    ensures { OnOk result (text.new.items ≡ text.old.items ++ meant.escape byte) }
{
    if is_escaped(byte) {
        return text.extend_from_slice(&[b'}', byte ^ 0x20]);
    }
    text.extend_from_slice(&[byte])
}

/// The payload, as it stands in a packet.
fn escaped(alloc: Global, payload: &[u8]) -> Result<Vec<u8>, AllocError>
    ensures { IfOk result (λ text. text.items ≡ meant.escaped payload.now) }
{
    let mut text = Vec::new(alloc);
    for byte in payload {
        push_escaped(&mut text, *byte)?;
    }
    Ok(text)
}

/// The sum of bytes, modulo 256.
fn checksum(bytes: &[u8]) -> u8
    ensures { result ≡ meant.checksum bytes.now }
{
    let mut sum = 0u8;
    for byte in bytes {
        sum = sum.wrapping_add(*byte);
    }
    sum
}

/// The packet of a payload: `$`, the payload, `#`, and the checksum of what stands between them in two digits.
///
/// # Errors
///
/// [`AllocError`] if the host has too little memory.
pub fn packet(alloc: Global, payload: &[u8]) -> Result<Vec<u8>, AllocError>
    ensures { IfOk result (λ bytes. bytes.items ≡ meant.packet payload.now) }
{
    let body = escaped(alloc, payload)?;
    let sum = checksum(body.as_slice());
    let mut bytes = Vec::new(alloc);
    bytes.push(b'$')?;
    bytes.extend_from_slice(body.as_slice())?;
    bytes.push(b'#')?;
    push_byte(&mut bytes, sum)?;
    Ok(bytes)
}
