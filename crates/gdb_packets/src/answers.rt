//! The payloads of answers (GDB manual, "Stop Reply Packets", "General Query Packets" and "Standard Replies").
ghost use Rattle.std.specs.Prelude.{◌≡◌, ◌∷◌, ◌++◌, IfOk, OnOk};
ghost use Rattle.hex.specs.Hex.{encode_lower};
ghost use Rattle.gdb_packets.specs.Answers as meant;
ghost use Rattle.gdb_packets.specs.Digits.{byte_digits};

use crate::digits::{push_byte, push_number};
use std::alloc::{AllocError, Global};

/// Why the program stopped.
#[derive(Clone, Copy)]
pub enum StopReason {
    /// A step is done, or a breakpoint is reached.
    Trap,
    /// Bytes that are watched became others; the first of them has this address.
    Watch(u64),
    /// One of the bytes was read that are watched for reads, from this address on.
    ReadWatch(u64),
    /// One of the bytes was read or written that are watched for both, from this address on.
    AccessWatch(u64),
    /// It was interrupted, or went on for long enough.
    Interrupt,
    /// Its next instruction is none.
    Illegal,
    /// Its next instruction uses an address that it may not.
    Segmentation,
    /// Its next instruction uses an address that is no multiple of its size.
    Misaligned,
    /// It can go back no further.
    Begin,
    /// It is at its end.
    End,
}

/// A stop: why, and of which thread.
#[derive(Clone, Copy)]
pub struct Stop {
    pub reason: StopReason,
    pub thread: u64,
}

/// Bytes in hexadecimal digits, two each.
///
/// # Errors
///
/// [`AllocError`] if the host has too little memory.
pub fn hex_bytes(alloc: Global, bytes: &[u8]) -> Result<Vec<u8>, AllocError>
    ensures { IfOk result (λ text. text.items ≡ encode_lower bytes.now) }
{
    let text = hex::encode(alloc, bytes)?;
    Ok(text.into_bytes())
}

/// A letter, and bytes behind it.
fn marked(alloc: Global, mark: u8, bytes: &[u8]) -> Result<Vec<u8>, AllocError>
    ensures { IfOk result (λ text. text.items ≡ mark ∷ bytes.now) }
{
    let mut text = Vec::new(alloc);
    text.push(mark)?;
    text.extend_from_slice(bytes)?;
    Ok(text)
}

/// A letter, and the two digits of a byte.
fn marked_byte(alloc: Global, mark: u8, byte: u8) -> Result<Vec<u8>, AllocError>
    ensures { IfOk result (λ text. text.items ≡ mark ∷ byte_digits byte) }
{
    let mut text = Vec::new(alloc);
    text.push(mark)?;
    push_byte(&mut text, byte)?;
    Ok(text)
}

/// Bytes that the program's console shows: `O`, and the bytes in digits.
///
/// # Errors
///
/// [`AllocError`] if the host has too little memory.
pub fn console(alloc: Global, bytes: &[u8]) -> Result<Vec<u8>, AllocError>
    ensures { IfOk result (λ text. text.items ≡ 79 ∷ encode_lower bytes.now) }
{
    let digits = hex_bytes(alloc, bytes)?;
    marked(alloc, b'O', digits.as_slice())
}

/// A part of a document, so many bytes from an offset on at most: `m` before a part that more follow, `l` before the
/// last.
///
/// # Errors
///
/// [`AllocError`] if the host has too little memory.
pub fn part(alloc: Global, document: &[u8], offset: u64, length: u64) -> Result<Vec<u8>, AllocError>
    ensures { IfOk result (λ text. text.items ≡ meant.part_of document.now offset length) }
{
    let begin = offset.min(document.len() as u64) as usize;
    let rest = &document[begin..];
    if length < rest.len() as u64 {
        marked(alloc, b'm', &rest[..length as usize])
    } else {
        marked(alloc, b'l', rest)
    }
}

/// The refusal of this number: `E` and two digits.
///
/// # Errors
///
/// [`AllocError`] if the host has too little memory.
pub fn refusal(alloc: Global, number: u8) -> Result<Vec<u8>, AllocError>
    ensures { IfOk result (λ text. text.items ≡ meant.refusal number) }
{
    marked_byte(alloc, b'E', number)
}

/// The current thread.
///
/// # Errors
///
/// [`AllocError`] if the host has too little memory.
pub fn current_thread(alloc: Global, thread: u64) -> Result<Vec<u8>, AllocError>
    ensures { IfOk result (λ text. text.items ≡ meant.current_thread thread) }
{
    let mut text = Vec::new(alloc);
    text.extend_from_slice(b"QC")?;
    push_number(&mut text, thread)?;
    Ok(text)
}

/// Adds one thread more to a list.
fn push_thread(text: &mut Vec<u8>, thread: u64) -> Result<(), AllocError>
    ensures { OnOk result (text.new.items ≡ text.old.items ++ meant.one_more thread) }
{
    text.push(b',')?;
    push_number(text, thread)
}

/// Threads, with `m` before them; `l`, which ends a list, if there is none.
///
/// # Errors
///
/// [`AllocError`] if the host has too little memory.
pub fn thread_list(alloc: Global, threads: &[u64]) -> Result<Vec<u8>, AllocError>
    ensures { IfOk result (λ text. text.items ≡ meant.thread_list threads.now) }
{
    let mut text = Vec::new(alloc);
    let Some((first, others)) = threads.split_first() else {
        text.push(b'l')?;
        return Ok(text);
    };
    text.push(b'm')?;
    push_number(&mut text, *first)?;
    for thread in others {
        push_thread(&mut text, *thread)?;
    }
    Ok(text)
}

/// The number of the signal that tells a reason (GDB's own numbers, `include/gdb/signals.def`).
fn signal_number(reason: StopReason) -> u8
    ensures { result ≡ meant.signal_number reason }
{
    match reason {
        StopReason::Interrupt => 2,
        StopReason::Illegal => 4,
        StopReason::Misaligned => 10,
        StopReason::Segmentation => 11,
        StopReason::Trap
        | StopReason::Watch(_)
        | StopReason::ReadWatch(_)
        | StopReason::AccessWatch(_)
        | StopReason::Begin
        | StopReason::End => 5,
    }
}

/// Adds the word that tells of watched bytes, with the address from which on they are watched.
fn push_watch(text: &mut Vec<u8>, word: &[u8], address: u64) -> Result<(), AllocError>
    ensures { OnOk result (text.new.items ≡ text.old.items ++ meant.watch_note word.now address) }
{
    text.extend_from_slice(word)?;
    push_number(text, address)?;
    text.extend_from_slice(b";")
}

/// Adds what tells of a stop beside its signal and its thread.
fn push_note(text: &mut Vec<u8>, reason: StopReason) -> Result<(), AllocError>
    ensures { OnOk result (text.new.items ≡ text.old.items ++ meant.stop_note reason) }
{
    match reason {
        StopReason::Watch(address) => push_watch(text, b"watch:", address),
        StopReason::ReadWatch(address) => push_watch(text, b"rwatch:", address),
        StopReason::AccessWatch(address) => push_watch(text, b"awatch:", address),
        StopReason::Begin => text.extend_from_slice(b"replaylog:begin;"),
        StopReason::End => text.extend_from_slice(b"replaylog:end;"),
        StopReason::Trap
        | StopReason::Interrupt
        | StopReason::Illegal
        | StopReason::Segmentation
        | StopReason::Misaligned => Ok(()),
    }
}

/// A stop: its signal, what else is told of it, and its thread.
///
/// # Errors
///
/// [`AllocError`] if the host has too little memory.
pub fn stop_reply(alloc: Global, stop: Stop) -> Result<Vec<u8>, AllocError>
    ensures { IfOk result (λ text. text.items ≡ meant.stop_reply stop) }
{
    let mut text = marked_byte(alloc, b'T', signal_number(stop.reason))?;
    push_note(&mut text, stop.reason)?;
    text.extend_from_slice(b"thread:")?;
    push_number(&mut text, stop.thread)?;
    text.extend_from_slice(b";")?;
    Ok(text)
}

/// The end of the program, with the low byte of its status: `W` and two digits.
///
/// # Errors
///
/// [`AllocError`] if the host has too little memory.
pub fn exited(alloc: Global, status: u8) -> Result<Vec<u8>, AllocError>
    ensures { IfOk result (λ text. text.items ≡ meant.exited status) }
{
    marked_byte(alloc, b'W', status)
}

/// Nobody is let run any more, since the thread that was let run alone is gone: `N`.
///
/// # Errors
///
/// [`AllocError`] if the host has too little memory.
pub fn no_resumed(alloc: Global) -> Result<Vec<u8>, AllocError>
    ensures { IfOk result (λ text. text.items ≡ meant.no_resumed) }
{
    Vec::from_slice(alloc, b"N")
}

/// A step of a thread has led to an address, and none of its registers but the pc is told: `T05`, the pc, and the thread.
/// GDB knows the pc by the number 32, `20` in hexadecimal digits.
///
/// # Errors
///
/// [`AllocError`] if the host has too little memory.
pub fn stepped_to(alloc: Global, thread: u64, address: u64) -> Result<Vec<u8>, AllocError>
    ensures { IfOk result (λ text. text.items ≡ meant.stepped_to thread address) }
{
    let mut text = Vec::from_slice(alloc, b"T0520:")?;
    let digits = hex_bytes(alloc, address.to_le_bytes().as_slice())?;
    text.extend_from_slice(digits.as_slice())?;
    text.extend_from_slice(b";thread:")?;
    push_number(&mut text, thread)?;
    text.extend_from_slice(b";")?;
    Ok(text)
}
