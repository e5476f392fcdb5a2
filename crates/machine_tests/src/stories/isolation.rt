//! Pairs of machines: what a process meets is the same, whatever another process does beside it.

/// What process 3 does in the second machine of each pair, it does in the first one later.
pub(crate) const STORIES: &str = r##"
define three processes
    # Process 1 makes the processes 2 and 3, and loops. The name `b` stands at sp - 16.
    li t0, 98; sd t0, -16(sp)
    li a7, 1; ecall; beq a0, x0, second; ecall; beq a0, x0, third
    first: j first

define open
    addi a0, sp, -16; li a1, 0; li a7, 15; ecall

define ask for the pid
    # Reads the file to 0x2000. Then asks for its pid again and again, stores the sum of the answers from
    # 0x2010 on, and loads it.
    lui a1, 2; li a2, 9; li a7, 5; ecall; addi s0, a1, 16; li a7, 11
    again: ecall; add s1, s1, a0; sd s1, 0(s0); ld t0, 0(s0); addi s0, s0, 8; j again

define pages and a pipe
    # Grows by two pages, fills them, makes a pipe and loops.
    li a7, 12; lui a0, 2; ecall; lui t1, 5
    fill: sd t1, 0(a0); addi a0, a0, 8; bne a0, t1, fill
    addi a0, sp, -16; li a7, 4; ecall
    loop: j loop

story process 3 has no pages and no pipe yet
frames 64
program init
    do three processes
    second:
    do open
    do ask for the pid
    third:
    do pages and a pipe
file b hello
events
    turn 1, step 1, step 1, step 1, call 1 1 2, step 1, call 1 1 3, tick, turn 2, tick, turn 3, free 43
    tick, turn 1, tick, turn 2, free 43

story process 3 has pages and a pipe
# They are three frames more, which this machine has. Process 3 has 4000 Runs.
frames 67
program init
    do three processes
    second:
    do open
    do ask for the pid
    third:
    do pages and a pipe
file b hello
events
    turn 1, step 1, step 1, step 1, call 1 1 2, step 1, call 1 1 3, tick, turn 2, tick, turn 3, free 46
    step 3, step 3, step 3, call 3 12 12288, step 3, free 44
    1024 times: step 3, step 3, step 3
    free 44
    step 3, step 3, call 3 4 0, free 43
    920 times: step 3
    free 43
    tick, turn 1, tick, turn 2, free 43
    bytes 3 0x4FF9 50

story process 3 has no open files yet
frames 64
program init
    do three processes
    second:
    do open
    do ask for the pid
    third:
    3 times: addi a0, sp, -16; li a1, 0; li a7, 15; ecall
    li a0, 0; li a7, 10; ecall
    li a0, 1; li a7, 21; ecall
    loop: j loop
file b hello
events
    turn 1, step 1, step 1, step 1, call 1 1 2, step 1, call 1 1 3, tick, turn 2, tick, turn 3, free 43
    tick, turn 1, tick, turn 2, free 43

story process 3 has open files
# It opens the file three times, has a second name for the first one, closes the second one, and loops. It has
# 4000 Runs.
frames 64
program init
    do three processes
    second:
    do open
    do ask for the pid
    third:
    3 times: addi a0, sp, -16; li a1, 0; li a7, 15; ecall
    li a0, 0; li a7, 10; ecall
    li a0, 1; li a7, 21; ecall
    loop: j loop
file b hello
events
    turn 1, step 1, step 1, step 1, call 1 1 2, step 1, call 1 1 3, tick, turn 2, tick, turn 3, free 43
    step 3, step 3, step 3, step 3, call 3 15 0, free 43
    step 3, step 3, step 3, call 3 15 1, free 43
    step 3, step 3, step 3, call 3 15 2, free 43
    step 3, step 3, call 3 10 3, free 43
    step 3, step 3, call 3 21 0, free 43
    3981 times: step 3
    free 43
    tick, turn 1, tick, turn 2, free 43
"##;

/// Process 2 has read its file, and has added its pid 165 times.
pub(crate) const GONE_ON: &str = "process 2 has gone on
events
    register 2 s1 330
    bytes 2 0x2000 68, bytes 2 0x2004 6F, bytes 2 0x2530 4A 01, bytes 2 0x3000 none
";
