//! Processes that wait: for a child that ends, or for the clock.

pub(crate) const STORIES: &str = r##"
define exit with ten times the pid
    li a7, 11; ecall
    slli t0, a0, 3; slli a0, a0, 1; add a0, a0, t0
    li a7, 2; ecall

story the ended child of least pid is waited for first
# Forks twice, waits and forks; waits three times with the status at 0x2000.
frames 32
program init
    lui s0, 2; li t0, -1; sd t0, 0(s0)
    li a7, 1; ecall; beq a0, x0, child; ecall; beq a0, x0, child
    li a7, 3; li a0, 0; ecall
    li a7, 1; ecall; beq a0, x0, child
    li a7, 3; mv a0, s0; ecall; mv a0, s0; ecall; mv a0, s0; ecall
    child:
    do exit with ten times the pid
events
    turn 1, step 1, step 1, step 1, step 1, call 1 1 2, free 18
    step 1, call 1 1 3, step 1, tick, free 11
    turn 2, step 2, step 2, call 2 11 2, free 11
    step 2, step 2, step 2, step 2, exit 2 20, free 18
    turn 3, tick, turn 1, step 1, step 1, call 1 3 2, free 18
    # The new child takes the slot of the gone one, and so its turn comes before 3's.
    step 1, call 1 1 4, step 1, tick, free 11
    turn 4, step 4, step 4, call 4 11 4, free 11
    step 4, step 4, step 4, step 4, exit 4 40, free 18
    turn 3, step 3, step 3, call 3 11 3, free 18
    step 3, step 3, step 3, step 3, exit 3 30, free 25
    turn 1, step 1, step 1, call 1 3 3, free 25
    bytes 1 0x2000 1E 00 00 00 FF
    step 1, call 1 3 4, free 25
    bytes 1 0x2000 28 00 00 00 FF
    step 1, call 1 3 -1, free 25
    bytes 1 0x2000 28 00 00 00 FF

story a grandchild becomes a child of process 1
# 1 forks 2, which forks 3 and exits with 0; 3 exits with 7; 1 waits twice.
frames 32
program init
    li a7, 1; ecall; bne a0, x0, first
    ecall; bne a0, x0, second
    li a0, 7; li a7, 2; ecall
    second: li a0, 0; li a7, 2; ecall
    first: li a7, 3; li a0, 0; ecall; li a0, 0; ecall
events
    turn 1, step 1, call 1 1 2, tick, free 18
    turn 2, step 2, call 2 1 3, free 11
    child 1 3 none, child 2 3 running
    step 2, step 2, step 2, exit 2 0, free 18
    child 1 3 running
    turn 3, tick, turn 1, step 1, step 1, step 1, call 1 3 2, free 18
    step 1, block 1 3, free 18
    turn 3, step 3, step 3, step 3, exit 3 7, free 25
    child 1 3 7
    turn 1, call 1 3 3, free 25
    child 1 3 none

story orphans are adopted, whether they live or not
# 1 forks 2 and waits again and again; 2 forks 3 and 4. They exit in the order 3, 2, 4.
frames 40
program init
    li a7, 1; ecall; bne a0, x0, first
    ecall; beq a0, x0, leave; ecall
    leave:
    do exit with ten times the pid
    first: li a7, 3
    again: li a0, 0; ecall; j again
events
    turn 1, step 1, call 1 1 2, step 1, step 1, step 1, block 1 3, free 26
    turn 2, step 2, call 2 1 3, step 2, call 2 1 4, tick, free 12
    turn 3, step 3, step 3, call 3 11 3, free 12
    step 3, step 3, step 3, step 3, exit 3 30, free 19
    child 1 3 none, child 2 3 30
    # The end of 3 has woken 1 too, which is the one that adopts.
    turn 4, tick, turn 1, block 1 3, free 19
    turn 2, step 2, call 2 11 2, free 19
    step 2, step 2, step 2, step 2, exit 2 20, free 26
    child 1 2 20, child 1 3 30, child 1 4 running
    turn 4, tick, turn 1, call 1 3 2, free 26
    step 1, step 1, call 1 3 3, free 26
    step 1, step 1, block 1 3, free 26
    turn 4, step 4, call 4 11 4, free 26
    step 4, step 4, step 4, step 4, exit 4 40, free 33
    turn 1, call 1 3 4, step 1, step 1, call 1 3 -1, free 33

story a wait that cannot store takes no child
# Waits without a child; forks, and waits with an address in the text, which can't be written, then with
# 0, and again.
frames 32
program init
    li a7, 3; li a0, 0; ecall
    li a7, 1; ecall; beq a0, x0, child
    li a7, 3; li a0, 1; ecall; li a0, 0; ecall; li a0, 0; ecall
    child: li a7, 2; ecall
events
    turn 1, step 1, step 1, call 1 3 -1, free 25
    step 1, call 1 1 2, step 1, tick, free 18
    turn 2, step 2, step 2, exit 2 0, free 25
    turn 1, step 1, step 1, call 1 3 -1, free 25
    child 1 2 0
    step 1, call 1 3 2, free 25
    step 1, call 1 3 -1, free 25

story sleep goes by the clock
# sleep(2), uptime, sleep(-5), sleep(0).
program init
    li a7, 13; li a0, 2; ecall
    li a7, 14; ecall
    li a7, 13; li a0, -5; ecall; li a0, 0; ecall
events
    turn 1, step 1, step 1, block 1 13, idle, free 9
    tick, turn 1, block 1 13, idle, free 9
    tick, turn 1, call 1 13 0, free 9
    step 1, call 1 14 2, free 9
    step 1, step 1, call 1 13 0, free 9
    step 1, call 1 13 0, free 9

story sleepers have no turn before a tick
# The parent waits, and the child sleeps for five ticks.
frames 32
program init
    li a7, 1; ecall; bne a0, x0, parent
    li a7, 13; li a0, 5; ecall
    li a7, 2; ecall
    parent: li a7, 3; li a0, 0; ecall
events
    turn 1, step 1, call 1 1 2, step 1, step 1, step 1, block 1 3, free 18
    turn 2, step 2, step 2, step 2, block 2 13, free 18
    3 times: idle, free 18
    4 times: tick, turn 2, block 2 13, idle, idle
    free 18
    tick, turn 2, call 2 13 0, step 2, exit 2 0, free 25
    turn 1, call 1 3 2, free 25
"##;
