//! The one export of the library, from which each call is reached.
use crate::booting::{BootTold, xv_page_add, xv_page_boot, xv_page_drop};
use crate::call_names::{CallTold, xv_page_call};
use crate::lines::{LabelTold, LineTold, xv_page_forget, xv_page_label, xv_page_line};
use crate::outcomes::{RunsTold, Told};
use crate::reading::{
    xv_page_address, xv_page_byte, xv_page_console, xv_page_descriptor, xv_page_facts,
    xv_page_frame, xv_page_note, xv_page_pipe, xv_page_pipe_byte, xv_page_process, xv_page_program,
    xv_page_register, xv_page_rights, xv_page_size, xv_page_slot, xv_page_use,
};
use crate::reasons::xv_page_reason;
use crate::reports::{
    xv_page_fault, xv_page_kill, xv_page_know, xv_page_refused, xv_page_source, xv_page_wait,
};
use crate::sums::xv_page_sum;
use crate::texts::{Assembled, xv_page_assemble, xv_page_instruction};
use crate::variables::{CallAsked, RegisterKnown, xv_page_variables};
use crate::views::{Facts, descriptor_told, pipe_told, process_told, use_told, word_told};
use crate::writing::{
    xv_page_back, xv_page_event, xv_page_run, xv_page_run_to_stop, xv_page_until,
};
use std::alloc::Global;
use uasm_core::SourceLines;
use xk_base::Program;
use xv_report::Sources;
use xv_session::Session;

/// Makes each call that changes a session.
fn change(alloc: Global, session: &mut Option<Box<Session>>, number: u32, bytes: &mut [u8]) {
    let mut programs: Option<Box<Vec<Program>>> = None;
    let mut boot = BootTold {
        kind: 0,
        cause: 0,
        place: 0,
    };
    let mut told = Told::new();
    let mut runs = RunsTold {
        sent: 0,
        met: 0,
        has_last: 0,
        last: told,
    };
    xv_page_add(alloc, &mut programs, b"init", b"");
    xv_page_boot(alloc, session, &mut programs, number, number, &mut boot);
    xv_page_event(session, number, number, &mut told, bytes);
    xv_page_run(session, number, &mut runs);
    xv_page_until(session, number, number, number, 7, &mut runs);
    let places = [7, 8];
    xv_page_run_to_stop(session, number, &places, &places, &mut runs);
    xv_page_back(alloc, session, 7);
}

/// Makes each call that tells of a process.
fn look_at_process(session: &Option<Box<Session>>, number: u32) {
    let mut process = process_told(None);
    let mut word = word_told(None);
    let mut descriptor = descriptor_told(None);
    let mut rights = 0;
    xv_page_slot(session, number, &mut word);
    xv_page_process(session, number, &mut process);
    xv_page_size(session, number, &mut word);
    xv_page_register(session, number, number, &mut word);
    xv_page_byte(session, number, 7, &mut word);
    xv_page_rights(session, number, number, &mut rights);
    xv_page_frame(session, number, number, &mut word);
    xv_page_descriptor(session, number, number, &mut descriptor);
    xv_page_address(session, number, &mut word);
    xv_page_program(session, number, &mut word);
}

/// Makes each call that tells of the machine.
fn look(session: &Option<Box<Session>>, number: u32) {
    let mut facts = Facts {
        at: 0,
        free: 0,
        current: 0,
        halted: 0,
        status: 0,
        clock: 0,
        notes: 0,
    };
    let mut word = word_told(None);
    let mut pipe = pipe_told(None);
    let mut note = Told::new();
    let mut frame_use = use_told(None);
    xv_page_facts(session, &mut facts);
    xv_page_pipe(session, number, &mut pipe);
    xv_page_pipe_byte(session, number, 7, &mut word);
    xv_page_console(session, number, 7, &mut word);
    xv_page_note(session, 7, &mut note);
    xv_page_use(session, number, &mut frame_use);
}

/// Makes each call that is about texts.
fn read(alloc: Global, source: &[u8], number: u32, bytes: &mut [u8]) {
    let mut table: Option<Box<SourceLines>> = None;
    let mut answer = Assembled { kind: 0, count: 0 };
    let mut line = LineTold {
        line: 0,
        start: 0,
        end: 0,
    };
    let mut label = LabelTold {
        address: 0,
        length: 0,
    };
    let mut call = CallTold {
        number: 0,
        length: 0,
    };
    let mut sum = [0; 32];
    xv_page_sum(source, &mut sum);
    xv_page_assemble(alloc, source, bytes, &mut table, &mut answer);
    xv_page_line(&table, 7, &mut line);
    xv_page_label(&table, 7, &mut label, bytes);
    xv_page_forget(&mut table);
    xv_page_instruction(number, answer.count, bytes);
    xv_page_call(7, &mut call, bytes);
}

/// Makes each call that tells in words why a process ended or waits, or what its variables are.
fn explain(
    alloc: Global,
    session: &Option<Box<Session>>,
    block: &[u8],
    number: u32,
    bytes: &mut [u8],
) {
    let mut sources: Option<Box<Sources>> = None;
    let mut told = 0;
    xv_page_know(alloc, &mut sources, block);
    xv_page_source(alloc, &mut sources, block, block);
    xv_page_wait(alloc, session, &sources, number, &mut told, bytes);
    xv_page_fault(alloc, session, &sources, number, &mut told, bytes);
    xv_page_reason(alloc, session, number, 7, 7, 7, 7, &mut told, bytes);
    xv_page_kill(
        alloc, session, &sources, number, number, 7, &mut told, bytes,
    );
    xv_page_refused(
        alloc, session, &sources, number, number, 7, &mut told, bytes,
    );
    let asked = CallAsked {
        address: 7,
        base: 8,
        has_base: number,
    };
    let registers = [RegisterKnown {
        number: 2,
        value: 7,
    }];
    xv_page_variables(
        alloc, session, number, number, &asked, &registers, block, &mut told, bytes,
    );
}

/// Makes each call once: so the library has them all. The host calls them by themselves, and never this one.
#[unsafe(no_mangle)]
pub extern "C" fn xv_page_root(alloc: Global, block: &[u8], bytes: &mut [u8]) {
    let mut session: Option<Box<Session>> = None;
    let number = if block.is_empty() { 1 } else { 16 };
    change(alloc, &mut session, number, bytes);
    look_at_process(&session, number);
    look(&session, number);
    explain(alloc, &session, block, number, bytes);
    xv_page_drop(&mut session);
    read(alloc, block, number, bytes);
}
