//! Processes that are copies of one another: their pids, slots, turns, frames and bytes.

pub(crate) const STORIES: &str = r##"
define fork until refused
    # The children go on at `child`; a0 is -1 when the parent comes behind these lines.
    li a7, 1
    again: ecall; beq a0, x0, child; bge a0, x0, again

story a refused fork uses no pid
# Forks, and again; waits, and forks once more. The children exit with the 0 that fork answered.
frames 20
program init
    li a7, 1; ecall; beq a0, x0, child; ecall
    li a7, 3; li a0, 0; ecall
    li a7, 1; ecall
    child: li a7, 2; ecall
events
    turn 1, step 1, free 13
    call 1 1 2, free 6
    register 1 a0 2, register 2 a0 0
    step 1, call 1 1 -1, free 6
    step 1, step 1, block 1 3, free 6
    turn 2, step 2, step 2, exit 2 0, free 13
    turn 1, call 1 3 2, free 13
    step 1, call 1 1 3, free 6
    step 1, exit 1 3, halted, free 13

story memory is zero again, whoever had it
# The child grows by a page and fills it with 0xAA. The parent waits, grows by a page, loads its first
# byte, shrinks by the page, and loads from it.
frames 32
program init
    li a7, 1; ecall; bne a0, x0, parent
    li a7, 12; lui a0, 1; ecall
    li t0, 0xAA; lui t1, 4
    fill: sb t0, 0(a0); addi a0, a0, 1; bne a0, t1, fill
    li a7, 2; ecall
    parent: li a7, 3; li a0, 0; ecall
    li a7, 12; lui a0, 1; ecall; lbu t1, 0(a0)
    lui a0, 0xFFFFF; ecall; lui a0, 3; lbu t1, 0(a0)
events
    turn 1, step 1, free 25
    call 1 1 2, free 18
    step 1, step 1, step 1, block 1 3, free 18
    turn 2, step 2, step 2, step 2, call 2 12 12288, free 17
    step 2, step 2, free 17
    4096 times: step 2, step 2, step 2, free 17
    bytes 2 0x3000 AA, bytes 2 0x3FFF AA
    step 2, exit 2 16384, free 25
    turn 1, call 1 3 2, free 25
    step 1, step 1, call 1 12 12288, free 24
    step 1, free 24
    register 1 t1 0, zeros 1 0x3000 4096
    step 1, call 1 12 16384, free 25
    step 1, fault 1 13, halted, free 32

story sixty-four processes are the most
# Forks until it is refused, and once more; waits, and forks. The children exit at once.
frames 512
program init
    do fork until refused
    ecall
    li a7, 3; li a0, 0; ecall
    li a7, 1; ecall
    child: li a7, 2; ecall
events
    turn 1, step 1, free 505
    N from 2 to 64: call 1 1 N, step 1, step 1
    call 1 1 -1, step 1, step 1, free 64
    tick, turn 2, step 2, step 2, exit 2 0, free 71
    N from 3 to 64: turn N, tick
    turn 1, call 1 1 -1, free 71
    step 1, step 1, call 1 3 2, free 71
    step 1, call 1 1 65, free 64

story a child stores into its own memory
# The parent stores 17 before it forks, the child stores 34 at the same address. The parent waits, and
# exits with what it loads from there.
frames 32
program init
    lui s0, 2; li t0, 17; sb t0, 0(s0)
    li a7, 1; ecall; bne a0, x0, parent
    li t0, 34; sb t0, 0(s0); li a7, 2; ecall
    parent: li a7, 3; li a0, 0; ecall
    lbu a0, 0(s0); li a7, 2; ecall
events
    turn 1, step 1, step 1, step 1, step 1, free 25
    call 1 1 2, free 18
    step 1, step 1, step 1, block 1 3, free 18
    turn 2, step 2, step 2, step 2, free 18
    bytes 1 0x2000 11, bytes 2 0x2000 22
    step 2, exit 2 0, free 25
    turn 1, call 1 3 2, free 25
    step 1, step 1, exit 1 17, halted, free 32

story calls that need a frame are refused where none is free
# Forks twice, and then asks for fork, pipe, sbrk(1), exec of `init`, and sbrk(0).
frames 21
program init
    li a7, 1; ecall; beq a0, x0, child; ecall; beq a0, x0, child; ecall
    li a7, 4; lui a0, 2; ecall
    li a7, 12; li a0, 1; ecall
    ld a0, 0(sp); mv a1, sp; li a7, 7; ecall
    li a7, 12; li a0, 0; ecall
    child: j child
events
    turn 1, step 1, free 14
    call 1 1 2, free 7
    step 1, call 1 1 3, free 0
    step 1, call 1 1 -1, free 0
    step 1, step 1, call 1 4 -1, free 0
    step 1, step 1, call 1 12 -1, free 0
    step 1, step 1, step 1, call 1 7 -1, free 0
    step 1, step 1, call 1 12 12288, free 0

story turns go round by slots
# 64 processes that loop.
frames 512
program init
    do fork until refused
    child: j child
events
    turn 1, step 1, free 505
    N from 2 to 64: call 1 1 N, step 1, step 1
    call 1 1 -1, step 1, step 1, tick, free 64
    N from 2 to 64: turn N, step N, tick
    turn 1, step 1, tick, turn 2, step 2, tick, free 64

story each process loads its own byte
# The parent has the byte 1 and the child the byte 2 at the same address. Each loads it again and again,
# and forgets it in between.
frames 32
program init
    lui s0, 2; li t0, 1; sb t0, 0(s0)
    li a7, 1; ecall; bne a0, x0, again
    li t0, 2; sb t0, 0(s0)
    again: li t1, 0; lbu t1, 0(s0); j again
events
    turn 1, step 1, step 1, step 1, step 1, call 1 1 2, free 18
    step 1, step 1, step 1, step 1, tick, free 18
    turn 2, step 2, step 2, step 2, step 2, step 2, step 2, tick, free 18
    N from 1 to 2: turn N, step N, step N, step N, tick, register N t1 N
    N from 1 to 2: turn N, step N, step N, step N, tick, register N t1 N
    N from 1 to 2: turn N, step N, step N, step N, tick, register N t1 N
"##;
