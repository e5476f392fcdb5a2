//! A kernel call as a line of text.
ghost use Rattle.std.specs.Prelude.{◌≡◌, ◌+◌, ◌++◌, OnOk, Some, codes};
ghost use Rattle.debug_views.specs.Written.{Appends};
ghost use Rattle.kernel_calls.specs.Arguments.{kind_of};
ghost use Rattle.kernel_calls.specs.Table.{entry_of, call_at};
ghost use Rattle.debug_words.specs.Texts.{hexadecimal};
ghost use Rattle.call_lines.specs.Line as meant;
ghost use Rattle.call_lines.specs.Memory.{text_from};
ghost use Rattle.call_lines.specs.Strings.{c_string};

use crate::memory::{address_at, bytes_from, int_at, read_at, text_from};
use crate::strings::CString;
use call_reasons::{Asked, Reason, c_int, reason_of};
use debug_words::texts::Hexadecimal;
use kernel_calls::{Argument, ArgumentKind, KernelCall};
use std::alloc::{AllocError, Global};
use xk_base::Pid;
use xv_machine::Machine;

/// The most texts of an array that are shown: exec takes no more.
pub const TEXTS_MOST: u32 = 31;

/// The memory of a process, where the line is written from.
#[derive(Clone, Copy)]
struct Lines<'a> {
    alloc: Global,
    machine: &'a Machine,
    pid: Pid,
    /// How many bytes of a text or a buffer are shown at most.
    shown: u16,
}

// What stands before an argument, and before a text among texts, unless it is the first.
fn comma_unless(is_first: bool) -> &'static str
    ensures { result.now ≡ meant.comma_unless is_first }
{
    if is_first { "" } else { ", " }
}

// A number that isn't below zero.
fn natural(number: i64) -> Option<u64>
    ensures { result ≡ meant.natural number }
{
    if number < 0 {
        return None;
    }
    Some(number as u64)
}

// How many bytes of its buffer a call has: what is written before it, and what is read once it is done.
fn buffer_length(call: KernelCall, asked: &Asked, answered: Option<i64>) -> Option<u64>
    ensures { result ≡ meant.buffer_length call asked.now answered }
{
    match call {
        KernelCall::Write => natural(i64::from(c_int(asked.a2))),
        KernelCall::Read => natural(answered?),
        _ => None,
    }
}

// Whether a call has answered 0.
fn is_zero(answered: Option<i64>) -> bool
    ensures { result ≡ meant.is_zero answered }
{
    match answered {
        Some(value) => value == 0,
        None => false,
    }
}

// Writes an address.
fn show_address(address: u64, answer: &mut String) -> Result<(), AllocError>
    ensures { OnOk result (Appends answer.old answer.new (hexadecimal address)) }
{
    let address = Hexadecimal(address);
    write!(answer, "{address}")
}

// Writes a C int in memory, and a sign if it isn't there.
fn show_int(int: Option<i32>, answer: &mut String) -> Result<(), AllocError>
    ensures { OnOk result (Appends answer.old answer.new (meant.int_shown int)) }
{
    match int {
        Some(number) => write!(answer, "{number}"),
        None => answer.push_str("?"),
    }
}

// Writes two C ints.
fn show_ints(one: Option<i32>, other: Option<i32>, answer: &mut String) -> Result<(), AllocError>
    ensures { OnOk result (Appends answer.old answer.new (meant.ints_shown one other)) }
{
    show_int(one, answer)?;
    answer.push_str(", ")?;
    show_int(other, answer)
}

// Writes bytes as a string of C, so many at most.
fn show_string(bytes: &[u8], shown: u16, answer: &mut String) -> Result<(), AllocError>
    ensures { OnOk result (Appends answer.old answer.new (c_string shown bytes.now)) }
{
    let text = CString {
        bytes,
        most: usize::from(shown),
    };
    write!(answer, "{text}")
}

// Writes that no address of a text is there.
fn show_missing(is_first: bool, answer: &mut String) -> Result<(), AllocError>
    ensures { OnOk result (Appends answer.old answer.new (meant.comma_unless is_first ++ codes "?")) }
{
    let comma = comma_unless(is_first);
    write!(answer, "{comma}?")
}

// Writes where a status is stored, if anywhere.
fn show_status_place(address: u64, answer: &mut String) -> Result<(), AllocError>
    ensures { OnOk result (Appends answer.old answer.new (meant.status_shown address)) }
{
    if address == 0 {
        return answer.push_str("0");
    }
    let address = Hexadecimal(address);
    write!(answer, "&{address}")
}

// The call that is asked for.
fn call_of(asked: &Asked) -> Option<KernelCall>
    ensures { result ≡ call_at asked.now.number }
{
    KernelCall::of_number(asked.number)
}

// The register of an argument.
fn value_at(asked: &Asked, place: usize) -> u64
    ensures { result ≡ meant.value_at asked.now place }
{
    match place {
        0 => asked.a0,
        1 => asked.a1,
        _ => asked.a2,
    }
}

impl<'a> Lines<'a> {
    // One byte more than is shown.
    fn looked_at(&self) -> u32
        ensures { result ≡ self.now.shown + 1 }
    {
        u32::from(self.shown) + 1
    }

    // Writes a text whose first byte is there.
    fn show_known_text(&self, address: u64, answer: &mut String) -> Result<(), AllocError>
        ensures { OnOk result
            (Appends answer.old answer.new
            (c_string self.now.shown (text_from self.now.machine.now.world.state self.now.pid address (self.now.shown + 1)))) }
    {
        let most = self.looked_at();
        let bytes = text_from(self.alloc, self.machine, self.pid, address, most)?;
        show_string(bytes.as_slice(), self.shown, answer)
    }

    // Writes a text in memory; its address if the kernel may not read its first byte.
    fn show_text(&self, address: u64, answer: &mut String) -> Result<(), AllocError>
        ensures { OnOk result
            (Appends answer.old answer.new (meant.text_shown self.now.shown self.now.machine.now.world.state self.now.pid address)) }
    {
        match read_at(self.machine, self.pid, address) {
            None => show_address(address, answer),
            Some(_) => self.show_known_text(address, answer),
        }
    }

    // Writes a buffer that has so many bytes; its address if nobody knows them yet, or the kernel may not read them.
    fn show_buffer(
        &self,
        address: u64,
        count: Option<u64>,
        answer: &mut String,
    ) -> Result<(), AllocError>
        ensures { OnOk result
            (Appends answer.old answer.new
            (meant.buffer_shown self.now.shown self.now.machine.now.world.state self.now.pid address count)) }
    {
        let Some(count) = count else {
            return show_address(address, answer);
        };
        let most = count.min(u64::from(self.looked_at())) as u32;
        let bytes = bytes_from(self.alloc, self.machine, self.pid, address, most)?;
        if bytes.len() == most as usize {
            show_string(bytes.as_slice(), self.shown, answer)
        } else {
            show_address(address, answer)
        }
    }

    // Writes a text among texts.
    fn show_among(&self, text: u64, is_first: bool, answer: &mut String) -> Result<(), AllocError>
        ensures { OnOk result
            (Appends answer.old answer.new
            (meant.comma_unless is_first ++ meant.text_shown self.now.shown self.now.machine.now.world.state self.now.pid text)) }
    {
        answer.push_str(comma_unless(is_first))?;
        self.show_text(text, answer)
    }

    // Writes the texts whose addresses stand from an address on, up to the address 0, so many at most.
    fn show_texts(
        &self,
        address: u64,
        is_first: bool,
        most: u32,
        answer: &mut String,
    ) -> Result<(), AllocError>
        ensures { OnOk result
            (Appends answer.old answer.new
            (meant.texts_shown self.now.shown self.now.machine.now.world.state self.now.pid address is_first most)) }
    {
        if most == 0 {
            return Ok(());
        }
        let Some(text) = address_at(self.alloc, self.machine, self.pid, address)? else {
            return show_missing(is_first, answer);
        };
        if text == 0 {
            return Ok(());
        }
        self.show_among(text, is_first, answer)?;
        match address.checked_add(8) {
            Some(next) => self.show_texts(next, false, most - 1, answer),
            None => Ok(()),
        }
    }

    // Writes the texts of an array.
    fn show_list(&self, address: u64, answer: &mut String) -> Result<(), AllocError>
        ensures { OnOk result
            (Appends answer.old answer.new (meant.list_shown self.now.shown self.now.machine.now.world.state self.now.pid address)) }
    {
        answer.push_str("{")?;
        self.show_texts(address, true, TEXTS_MOST, answer)?;
        answer.push_str("}")
    }

    // Writes two C ints in memory.
    fn show_stored_ints(&self, address: u64, answer: &mut String) -> Result<(), AllocError>
        ensures { OnOk result
            (Appends answer.old answer.new (meant.ints_stored self.now.machine.now.world.state self.now.pid address)) }
    {
        let one = int_at(self.alloc, self.machine, self.pid, address)?;
        let other = int_at(self.alloc, self.machine, self.pid, address.wrapping_add(4))?;
        answer.push_str("{")?;
        show_ints(one, other, answer)?;
        answer.push_str("}")
    }

    // Writes two descriptors, once they are stored; else where they are to be stored.
    fn show_pair(
        &self,
        address: u64,
        answered: Option<i64>,
        answer: &mut String,
    ) -> Result<(), AllocError>
        ensures { OnOk result
            (Appends answer.old answer.new
            (meant.pair_shown self.now.machine.now.world.state self.now.pid address answered)) }
    {
        if is_zero(answered) {
            self.show_stored_ints(address, answer)
        } else {
            show_address(address, answer)
        }
    }

    // Writes an argument, by what it is.
    fn show_argument(
        &self,
        kind: ArgumentKind,
        value: u64,
        bytes: Option<u64>,
        answered: Option<i64>,
        answer: &mut String,
    ) -> Result<(), AllocError>
        ensures { OnOk result
            (Appends answer.old answer.new
            (meant.argument_shown self.now.shown self.now.machine.now.world.state self.now.pid kind value bytes answered)) }
    {
        match kind {
            ArgumentKind::Int | ArgumentKind::Descriptor => {
                let number = c_int(value);
                write!(answer, "{number}")
            }
            ArgumentKind::Buffer => self.show_buffer(value, bytes, answer),
            ArgumentKind::Text => self.show_text(value, answer),
            ArgumentKind::Texts => self.show_list(value, answer),
            ArgumentKind::TwoDescriptors => self.show_pair(value, answered, answer),
            ArgumentKind::Status => show_status_place(value, answer),
        }
    }

    // Writes the argument that stands at a place of a call.
    fn show_here(
        &self,
        call: KernelCall,
        asked: &Asked,
        answered: Option<i64>,
        place: usize,
        argument: Argument,
        answer: &mut String,
    ) -> Result<(), AllocError>
        ensures { OnOk result
            (Appends answer.old answer.new
            (meant.argument_here self.now.shown self.now.machine.now.world.state self.now.pid
            call asked.now answered place (Some argument))) }
    {
        answer.push_str(comma_unless(place == 0))?;
        self.show_argument(
            argument.kind(),
            value_at(asked, place),
            buffer_length(call, asked, answered),
            answered,
            answer,
        )
    }

    // Writes the argument at a place of a call, if there is one.
    fn show_at(
        &self,
        call: KernelCall,
        asked: &Asked,
        answered: Option<i64>,
        place: usize,
        answer: &mut String,
    ) -> Result<(), AllocError>
        ensures { OnOk result
            (Appends answer.old answer.new
            (meant.argument_at self.now.shown self.now.machine.now.world.state self.now.pid call asked.now answered place)) }
    {
        match call.arguments().get(place) {
            Some(argument) => self.show_here(call, asked, answered, place, *argument, answer),
            None => Ok(()),
        }
    }

    // Writes the arguments of a call.
    fn show_arguments(
        &self,
        call: KernelCall,
        asked: &Asked,
        answered: Option<i64>,
        answer: &mut String,
    ) -> Result<(), AllocError>
        ensures { OnOk result
            (Appends answer.old answer.new
            (meant.arguments_shown self.now.shown self.now.machine.now.world.state self.now.pid call asked.now answered)) }
    {
        for place in 0..call.arguments().len() {
            self.show_at(call, asked, answered, place, answer)?;
        }
        Ok(())
    }

    // Writes a call that the kernel has.
    fn show_known(
        &self,
        call: KernelCall,
        asked: &Asked,
        answered: Option<i64>,
        answer: &mut String,
    ) -> Result<(), AllocError>
        ensures { OnOk result
            (Appends answer.old answer.new
            (meant.known_call self.now.shown self.now.machine.now.world.state self.now.pid asked.now answered call)) }
    {
        answer.push_str(call.name())?;
        answer.push_str("(")?;
        self.show_arguments(call, asked, answered, answer)?;
        answer.push_str(")")
    }
}

// Writes what a number that no call has was asked with.
fn show_unknown(asked: &Asked, answer: &mut String) -> Result<(), AllocError>
    ensures { OnOk result (Appends answer.old answer.new (meant.unknown_call asked.now)) }
{
    let number = asked.number;
    let first = Hexadecimal(asked.a0);
    let second = Hexadecimal(asked.a1);
    let third = Hexadecimal(asked.a2);
    write!(answer, "call {number}({first}, {second}, {third})")
}

/// Writes what a process asks for, with the memory that a machine has: before the call, or with its answer once it is
/// done. Of each text and buffer so many bytes are shown at most.
///
/// # Errors
///
/// The host has too little memory.
pub fn show_call(
    alloc: Global,
    machine: &Machine,
    pid: Pid,
    asked: &Asked,
    answered: Option<i64>,
    shown: u16,
    answer: &mut String,
) -> Result<(), AllocError>
    ensures { OnOk result
        (Appends answer.old answer.new (meant.call_shown shown machine.now.world.state pid asked.now answered)) }
{
    let lines = Lines {
        alloc,
        machine,
        pid,
        shown,
    };
    match call_of(asked) {
        Some(call) => lines.show_known(call, asked, answered, answer),
        None => show_unknown(asked, answer),
    }
}

// Writes a place in memory, or -1.
fn show_place(value: i64, answer: &mut String) -> Result<(), AllocError>
    ensures { OnOk result (Appends answer.old answer.new (meant.place_or_refusal value)) }
{
    match natural(value) {
        Some(place) => show_address(place, answer),
        None => write!(answer, "{value}"),
    }
}

// Writes the value that a call answers.
fn show_value(call: Option<KernelCall>, value: i64, answer: &mut String) -> Result<(), AllocError>
    ensures { OnOk result (Appends answer.old answer.new (meant.value_shown call value)) }
{
    match call {
        Some(KernelCall::Sbrk | KernelCall::Sbrklazy) => show_place(value, answer),
        _ => write!(answer, "{value}"),
    }
}

// Whether a call that answers this has stored a child's status.
fn stores_status(call: Option<KernelCall>, asked: &Asked, value: i64) -> bool
    ensures { result ≡ meant.stores_status asked.now call value }
{
    match call {
        Some(KernelCall::Wait) => value >= 0 && asked.a0 != 0,
        _ => false,
    }
}

// Writes the status that a wait has stored.
fn show_stored(
    alloc: Global,
    machine: &Machine,
    pid: Pid,
    asked: &Asked,
    call: Option<KernelCall>,
    value: i64,
    answer: &mut String,
) -> Result<(), AllocError>
    ensures { OnOk result
        (Appends answer.old answer.new (meant.stored_shown machine.now.world.state pid asked.now call value)) }
{
    if stores_status(call, asked, value) {
        let status = int_at(alloc, machine, pid, asked.a0)?;
        answer.push_str(", its status ")?;
        show_int(status, answer)
    } else {
        Ok(())
    }
}

// Writes a reason, if there is one.
fn show_reason_text(reason: Option<Reason>, answer: &mut String) -> Result<(), AllocError>
    ensures { OnOk result (Appends answer.old answer.new (meant.reason_text reason)) }
{
    match reason {
        Some(reason) => write!(answer, " ({reason})"),
        None => Ok(()),
    }
}

// Writes why a call was refused, if it was.
fn show_reason(
    machine: &Machine,
    pid: Pid,
    asked: &Asked,
    value: i64,
    answer: &mut String,
) -> Result<(), AllocError>
    ensures { OnOk result
        (Appends answer.old answer.new (meant.reason_shown machine.now.world.state pid asked.now value)) }
{
    show_reason_text(reason_of(machine, pid, asked, value), answer)
}

/// Writes what a call has answered, with the memory that a machine has after it, and why it was refused if it was
/// (`specs/Reasons.antt` of `call_reasons`).
///
/// # Errors
///
/// The host has too little memory.
pub fn show_answer(
    alloc: Global,
    machine: &Machine,
    pid: Pid,
    asked: &Asked,
    value: i64,
    answer: &mut String,
) -> Result<(), AllocError>
    ensures { OnOk result
        (Appends answer.old answer.new (meant.answer_shown machine.now.world.state pid asked.now value)) }
{
    let call = call_of(asked);
    answer.push_str(" = ")?;
    show_value(call, value, answer)?;
    show_stored(alloc, machine, pid, asked, call, value, answer)?;
    show_reason(machine, pid, asked, value, answer)
}
