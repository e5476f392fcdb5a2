//! Instructions that fault.

pub(crate) const STORIES: &str = r##"
story a load from the upper half of the addresses faults
program init
    li a0, 1; slli a0, a0, 38; ld a1, 0(a0)
events
    turn 1, step 1, step 1, fault 1 13, status -1, halted

story a store into the text faults
program init
    sb x0, 0(x0)
events
    turn 1, fault 1 15, status -1, halted

story a store into the guard page faults
program init
    lui a0, 1; sb x0, 0(a0)
events
    turn 1, step 1, fault 1 15, status -1, halted

story a store where there is no page faults
program init
    lui a0, 3; sb x0, 0(a0)
events
    turn 1, step 1, fault 1 15, status -1, halted

story a load from the guard page faults
program init
    lui a0, 1; lb a0, 0(a0)
events
    turn 1, step 1, fault 1 13, status -1, halted

story a load where there is no page faults
program init
    lui a0, 3; lb a0, 0(a0)
events
    turn 1, step 1, fault 1 13, status -1, halted

story a jump between two instructions faults
program init
    jalr x0, 2(x0)
events
    turn 1, fault 1 0, status -1, halted

story a jump to an odd place clears bit 0 alone
# 0x200 has the second jump.
program init
    li ra, 0x201; jalr ra, 0(ra)
    126 times: nop
    li ra, 0x203; jalr ra, 0(ra)
events
    turn 1, step 1, step 1, register 1 ra 8, register 1 pc 0x200
    step 1, fault 1 0, status -1, halted

story a load from a misaligned address faults
program init
    li a0, 0x2FE1; ld a0, 0(a0)
events
    turn 1, step 1, step 1, fault 1 4, status -1, halted

story a store to a misaligned address faults
program init
    li a0, 0x2FE2; sw a0, 0(a0)
events
    turn 1, step 1, step 1, fault 1 6, status -1, halted

story a breakpoint faults
program init
    ebreak
events
    turn 1, fault 1 3, status -1, halted

story a fetch from the stack faults
program init
    lui a0, 2; jalr x0, 0(a0)
events
    turn 1, step 1, step 1, fault 1 12, status -1, halted

story reading a counter faults
# `csrr a0, cycle` is no instruction here.
program init
    nop
patch 120 73 25 00 C0
events
    turn 1, fault 1 2
"##;
