//! Runs that are asked for together.

pub(crate) const STORIES: &str = r##"
story instructions stop before a call
# The process grows by a page, and makes a pipe, whose descriptors go to the stack.
program init
    li a7, 12; lui a0, 1; ecall; li a7, 4; lui a0, 2; ecall; loop: j loop
events
    # Nobody runs.
    instructions 10 0, turn 1
    instructions 0 0, instructions 1 1, instructions 10 1
    # A call is next.
    instructions 10 0, call 1 12 12288
    step 1, instructions 10 1, call 1 4 0
    instructions 1000 1000

story a trace keeps rows of equal notes
# The ten notes that are kept are a turn, a key and steps; the oldest go first.
trace 10
program init
    loop: j loop
events
    runs 1 1, key 61 echoes 61
    note 0 turn 1, note 1 key 97 1, note 2 none
    runs 4 4, key 61 echoes 61
    note 0 turn 1, note 1 key 97 1, note 6 key 97 1, note 7 none
    N from 2 to 5: note N step 1
    runs 3 3, key 61 echoes 61
    note 0 key 97 1, note 5 key 97 1, note 9 key 97 1, note 10 none
    N from 1 to 4: note N step 1
    N from 6 to 8: note N step 1
    runs 2 2, key 61 echoes 61
    note 2 key 97 1, note 6 key 97 1, note 9 key 97 1, note 10 none
    N from 0 to 1: note N step 1
    N from 3 to 5: note N step 1
    N from 7 to 8: note N step 1
    runs 1000 1000, key 61 echoes 61
    note 9 key 97 1, note 10 none
    N from 0 to 8: note N step 1

story a loop counts down
program init
    li a0, 500; again: addi t1, t1, 3; addi a0, a0, -1; bne a0, x0, again; ecall
events
    # One instruction, and 333 times the loop; then the other 167 times.
    turn 1, instructions 1000 1000, register 1 a0 167, register 1 t1 999, register 1 pc 4
    instructions 1000 501, register 1 a0 0, register 1 t1 1500, register 1 pc 16

story a loop that changes a word of its own does the new word
# Its page may be written. The first store makes it one that the hart keeps for stores.
program init
    lw t0, 0x30(x0); sw t0, 0x38(x0); li a2, 200; li a3, 100; nop
    again: addi t1, t1, 1; addi a2, a2, -1; bne a2, a3, again
    sw t0, 20(x0); li a3, 0; bne a2, a3, again
    ecall; addi t1, t1, 16
patch 68 07 00 00 00
events
    # 100 times 1, and then 100 times 16.
    turn 1, instructions 1000 611, register 1 t1 1700, register 1 a2 0, register 1 pc 0x2c

story a loop loads from a page that takes the place of its own
# Of the translations that the hart keeps, those of pages 0 and 64 have the same place.
frames 128
program init
    li a7, 12; lui a0, 0x40; ecall
    lui a0, 0x40; li a2, 100
    again: sd a2, 0(a0); ld t0, 0(a0); add t1, t1, t0; addi a2, a2, -1; bne a2, x0, again
    ecall
calls
    turn 1, call 1 12 12288
events
    # The sum of the numbers from 1 to 100.
    instructions 1000 502, register 1 t1 5050, register 1 pc 0x28

story a loop goes through another page
# Two instructions stand in the data, which may be executed: `addi t1, t1, 3` and `ret`.
program init
    la a0, there; li a2, 100
    again: jalr ra, 0(a0); addi a2, a2, -1; bne a2, x0, again
    ecall
    .data; there: .word 0x00330313, 0x00008067
patch 124 07 00 00 00
events
    turn 1, instructions 1000 503, register 1 t1 300, register 1 pc 0x18
"##;
