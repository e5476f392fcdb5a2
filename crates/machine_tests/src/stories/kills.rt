//! Processes that kill others, or themselves.

pub(crate) const STORIES: &str = r##"
story a child kills process 1
# The parent loops. The child kills 0, -1, 99 and 1, and loops.
frames 32
program init
    li a7, 1; ecall
    parent: bne a0, x0, parent
    li a7, 6; li a0, 0; ecall
    li a0, -1; ecall
    li a0, 99; ecall
    li a0, 1; ecall
    child: j child
events
    turn 1, step 1, call 1 1 2, step 1, tick, free 18
    turn 2, step 2, step 2, step 2, call 2 6 -1, free 18
    2 times: step 2, call 2 6 -1, free 18
    step 2, call 2 6 0, step 2, tick, free 18
    turn 1, exit 1 -1, halted, free 25
    tick -> halted, key 61 -> halted, halted
    status -1, child 1 2 none

story a process kills itself
# The parent waits with the status at 0x2000.
frames 32
program init
    li a7, 1; ecall; bne a0, x0, parent
    li a7, 6; li a0, 2; ecall
    child: j child
    parent: li a7, 3; lui a0, 2; ecall
events
    turn 1, step 1, call 1 1 2, step 1, step 1, step 1, block 1 3, free 18
    turn 2, step 2, step 2, step 2, call 2 6 0, free 18
    exit 2 -1, free 25
    turn 1, call 1 3 2, free 25
    bytes 1 0x2000 FF FF FF FF 00

story a kill wakes a sleeper
# The child sleeps for 4096 ticks. The parent kills it and waits, so that no tick wakes the child.
frames 32
program init
    li a7, 1; ecall; bne a0, x0, parent
    li a7, 13; lui a0, 1; ecall
    parent: li a7, 6; li a0, 2; ecall
    li a7, 3; li a0, 0; ecall
events
    turn 1, step 1, call 1 1 2, tick, free 18
    turn 2, step 2, step 2, step 2, block 2 13, free 18
    turn 1, step 1, step 1, step 1, call 1 6 0, free 18
    step 1, step 1, block 1 3, free 18
    turn 2, exit 2 -1, free 25
    turn 1, call 1 3 2, free 25

story a process can be killed until it is waited for
# The child sleeps. The parent kills it twenty times, once more after it has ended, and once more after it
# has waited for it.
frames 32
program init
    li a7, 1; ecall; bne a0, x0, parent
    li a7, 13; lui a0, 1; ecall
    parent: li t0, 20; li a7, 6
    again: li a0, 2; ecall; addi t0, t0, -1; bne t0, x0, again
    li a0, 2; ecall
    li a7, 3; li a0, 0; ecall
    li a7, 6; li a0, 2; ecall
events
    turn 1, step 1, call 1 1 2, tick, free 18
    turn 2, step 2, step 2, step 2, block 2 13, free 18
    turn 1, step 1, step 1, step 1, free 18
    20 times: step 1, call 1 6 0, step 1, step 1
    free 18
    tick, turn 2, exit 2 -1, free 25
    turn 1, step 1, call 1 6 0, free 25
    child 1 2 -1
    step 1, step 1, call 1 3 2, free 25
    step 1, step 1, call 1 6 -1, free 25
"##;
