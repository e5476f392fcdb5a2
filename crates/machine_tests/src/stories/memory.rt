//! The memory of a process: what it costs, and how it grows and shrinks.

pub(crate) const STORIES: &str = r##"
define two segments
    # The text at 0, and `data` in the second segment.
    lui a0, 1; sb a0, 0(a0); lbu a1, 0(a0); jalr x0, 0(a0)
    .data; .byte 0x64; .byte 0x61; .byte 0x74; .byte 0x61

story a program of one page costs seven frames
# The root, two tables, text, guard page, stack and trapframe.
program init
    li a7, 2; li a0, 0; ecall
events
    free 9
    turn 1, step 1, step 1, free 9
    exit 1 0, free 16

story a process after its first instruction
program init
    li a7, 2; li a0, 0; ecall
events
    turn 1, step 1
    register 1 pc 4, register 1 a7 2, register 1 a0 1, register 2 pc none
    bytes 1 0 93, bytes 1 8 73, bytes 1 12 00, bytes 1 0xFFF 00 00, bytes 1 0x2FFF 00 none
    bytes 1 0x4000000000 none, bytes 1 0xFFFFFFFFFFFFFFFF none, bytes 2 0 none

story the page between two segments is read and written, and not executed
# The second segment begins at 8192, and has 5000 bytes in memory. The page between them belongs to it.
program init
    do two segments
patch 136 00 20 00 00 00 00 00 00
patch 160 88 13 00 00 00 00 00 00
events
    # The root, two tables, four pages, guard page, stack and trapframe.
    free 6
    bytes 1 0 37, bytes 1 16 00, bytes 1 0x1000 00, bytes 1 0x1FFF 00 64 61 74 61 00
    bytes 1 0x3FFF 00 00, bytes 1 0x5FFF 00 none
    turn 1, step 1, step 1, step 1, step 1, fault 1 12, free 16

story a process that is gone leaves all frames free
# The first word is no instruction.
program init
    do two segments
patch 136 00 20 00 00 00 00 00 00
patch 160 88 13 00 00 00 00 00 00
patch 176 00 00 00 00
events
    free 6
    turn 1, fault 1 2, free 16, bytes 1 0 none

story a page comes and goes
# The process grows by a page, stores into it, shrinks by it, and stores there again.
program init
    li a7, 12; lui a0, 1; ecall; sd x0, 0(a0)
    lui a0, 0xFFFFF; ecall; sd x0, -8(a0)
events
    turn 1, step 1, step 1, call 1 12 12288, free 8
    step 1, step 1, call 1 12 16384, free 9
    fault 1 15

story memory grows and shrinks by its price
# 512 pages fill one table of the lowest level; the next page asks for another.
frames 1024
program init
    li a7, 12; li a0, 2084864; ecall
    li a0, 4096; ecall
    li a0, -4096; ecall
    ebreak
calls
    free 1017
    turn 1, call 1 12 12288, free 508
    call 1 12 2097152, free 506
    call 1 12 2101248, free 508
    fault 1 3, free 1024

story a refused growth changes nothing
# Nine pages are free: ten are one too many. The last of nine can be written, and the next not.
program init
    li a7, 12; li a0, 40960; ecall
    li a0, 36864; ecall; sb a0, 0(a0)
    li a1, 49152; sb a1, -1(a1); sb a1, 0(a1)
calls
    turn 1, call 1 12 -1, free 9, bytes 1 0x3000 none
    call 1 12 12288, free 0
    fault 1 15, free 16

story memory can be given up whole
# The root and the trapframe are left.
program init
    li a7, 12; li a0, 0; ecall
    li a0, -12289; ecall
    li a0, -12288; ecall
calls
    turn 1, call 1 12 12288, call 1 12 -1
    call 1 12 12288, free 14
events
    fault 1 12

story a page that went is not there for a load either
program init
    li a7, 12; lui a0, 1; ecall; lui s0, 3; lb a1, 0(s0)
    lui a0, 0xFFFFF; ecall; lb a1, 0(s0)
events
    turn 1, step 1, step 1, call 1 12 12288, free 8
    step 1, step 1, register 1 a1 0
    step 1, call 1 12 16384, free 9
    fault 1 13

story two pages that are 64 apart are told apart
# The hart has one place for what it keeps of them.
frames 512
program init
    li a7, 12; li a0, 266240; ecall
    lui s0, 3; lui s1, 67; li t0, 1; li t1, 2; sb t0, 0(s0); sb t1, 0(s1)
    5 times: lb a1, 0(s0); lb a1, 0(s1)
events
    free 505, turn 1, step 1, step 1, call 1 12 12288, free 440
    6 times: step 1
    5 times: step 1, register 1 a1 1, step 1, register 1 a1 2
"##;
