//! What a process is told of its calls, and how a run ends.

pub(crate) const STORIES: &str = r##"
story three instructions exit
program init
    li a7, 2; li a0, 0; ecall
events
    status none, current none
    turn 1, current 1
    step 1, step 1, exit 1 0
    halted, halted, tick -> halted
    status 0, current none, register 1 pc none, bytes 1 0 none

story exit tells its status
program init
    li a7, 2; li a0, 7; ecall
events
    turn 1, step 1, step 1, exit 1 7, status 7

story exit tells a status below 0
program init
    li a7, 2; li a0, -1; ecall
events
    turn 1, step 1, step 1, exit 1 -1, status -1

story a tick stops the process that runs
program init
    li a7, 2; li a0, 0; ecall
events
    tick, turn 1, step 1, current 1
    tick, current none, register 1 pc 4
    turn 1, step 1, exit 1 0

story a process asks for its pid
# The word behind the ECALL is no instruction.
program init
    li a7, 11; ecall
events
    turn 1, step 1, call 1 11 1
    fault 1 2, halted, status -1, free 16

story a call of an unknown number is refused
program init
    li a7, 99; ecall
events
    turn 1, step 1, call 1 99 -1, register 1 pc 8, register 1 a0 -1

story a call of a number below 0 is refused
program init
    li a7, -2; ecall
events
    turn 1, step 1, call 1 -2 -1, register 1 pc 8, register 1 a0 -1
"##;
