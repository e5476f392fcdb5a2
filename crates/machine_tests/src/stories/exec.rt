//! Processes that go on with another program.

pub(crate) const STORIES: &str = r##"
define name b
    # The name `b` stands at sp - 16, and a0 points to it.
    li t0, 98; sd t0, -16(sp); addi a0, sp, -16

define no text
    # a1 points to the pointer 0 behind that to the text `init`.
    addi a1, sp, 8

define exec
    # Where it is refused, the process breaks off.
    li a7, 7; ecall; ebreak

define exit
    li a7, 2; li a0, 0; ecall

define texts
    # The path and the pointers stand in the data.
    la a0, name; la a1, texts

define nop and ebreak
    nop; j end; end: ebreak

story exec goes on with another program
# The path `two` stands behind the ECALL, and the texts are those of `init`. `two` exits with their number.
frames 17
program init
    li a7, 7; li a0, 12; ecall; nop
patch 132 74 77 6F 00
program two
    li a7, 2; ecall
events
    turn 1, step 1, step 1, call 1 7 1, free 10, bytes 1 12 00
    step 1, exit 1 1, halted, free 17

story exec asks for the new price beside the old image
# The segment of `b` has 16384 bytes in memory, and its first word is no instruction.
program init
    do name b
    do no text
    do exec
program b
    nop
patch 120 00 00 00 00
patch 104 00 40 00 00 00 00 00 00
calls
    free 9
    turn 1, call 1 7 0, free 6
    fault 1 2, free 16

story exec is refused where the new price is too high
# As before, with 20480 bytes.
program init
    do name b
    do no text
    do exec
program b
    nop
patch 120 00 00 00 00
patch 104 00 50 00 00 00 00 00 00
calls
    free 9
    turn 1, call 1 7 -1, free 9
    fault 1 3, free 16

story exec passes 31 texts
frames 64
program init
    do texts
    do exec
    .data
    name: .asciz "/b"
    text: .asciz "x"
    texts:
    31 times: .dword text
    .dword 0
program b
    do nop and ebreak
calls
    turn 1, call 1 7 31
    register 1 pc 0, register 1 sp 0x2D10
    register 1 a0 31, register 1 a1 0x2D10
    # The first pointer and its text.
    bytes 1 0x2D10 F0 2F 00 00 00 00 00 00, bytes 1 0x2FF0 78 00
    # The last pointer, the pointer 0 behind it, and the last text.
    bytes 1 0x2E00 10 2E 00 00 00 00 00 00 00 00 00 00 00 00 00 00, bytes 1 0x2E10 78 00

story exec passes a text of 4070 bytes
# The stack has room for a text of 4079 bytes and two pointers.
frames 64
program init
    do texts
    do exec
    .data
    name: .asciz "/b"
    text:
    4070 times: .byte 0x78
    .byte 0
    texts: .dword text; .dword 0
program b
    do nop and ebreak
calls
    turn 1, call 1 7 1
    register 1 pc 0, register 1 sp 0x2000
    register 1 a0 1, register 1 a1 0x2000

story exec passes no text
frames 64
program init
    do texts
    do exec
    .data
    name: .asciz "/b"
    texts: .dword 0
program b
    do nop and ebreak
calls
    turn 1, call 1 7 0
    register 1 pc 0, register 1 sp 0x2FF0
    register 1 a0 0, register 1 a1 0x2FF0

story exec of 32 texts changes nothing
# Text, data of one page, guard page and stack.
frames 64
program init
    do texts
    do exec
    .data
    name: .asciz "/b"
    text: .asciz "x"
    texts:
    32 times: .dword text
    .dword 0
program b
    do nop and ebreak
calls
    free 56, register 1 sp 0x3FE0
    turn 1, call 1 7 -1
    free 56, register 1 sp 0x3FE0
events
    # The next instruction is the one behind the ECALL.
    fault 1 3

story exec of a text of 4095 bytes changes nothing
# Text, data of two pages, guard page and stack.
frames 64
program init
    do texts
    do exec
    .data
    name: .asciz "/b"
    text:
    4095 times: .byte 0x78
    .byte 0
    texts: .dword text; .dword 0
program b
    do nop and ebreak
calls
    free 55, register 1 sp 0x4FE0
    turn 1, call 1 7 -1
    free 55, register 1 sp 0x4FE0
events
    fault 1 3

story exec of an unknown name is refused
frames 64
program init
    li t0, 99; sd t0, -16(sp); addi a0, sp, -16
    do no text
    do exec
program b
    do exit
calls
    turn 1, call 1 7 -1, free 57
events
    fault 1 3

story exec of a path in the guard page is refused
frames 64
program init
    li a0, 4096
    do no text
    do exec
program b
    do exit
calls
    turn 1, call 1 7 -1, free 57
events
    fault 1 3

story exec of a path that ends behind the last page is refused
frames 64
program init
    li t0, 12288; li t1, 98; sb t1, -1(t0); addi a0, t0, -1
    do no text
    do exec
program b
    do exit
calls
    turn 1, call 1 7 -1, free 57
events
    fault 1 3

story exec of a path at the highest address is refused
frames 64
program init
    li a0, -1
    do no text
    do exec
program b
    do exit
calls
    turn 1, call 1 7 -1, free 57
events
    fault 1 3

story exec with pointers in the guard page is refused
frames 64
program init
    do name b
    li a1, 8184
    do exec
program b
    do exit
calls
    turn 1, call 1 7 -1, free 57
events
    fault 1 3

story exec with pointers behind the last page is refused
frames 64
program init
    do name b
    li a1, 12288
    do exec
program b
    do exit
calls
    turn 1, call 1 7 -1, free 57
events
    fault 1 3

story exec with a pointer across the end of the last page is refused
frames 64
program init
    do name b
    li a1, 12284
    do exec
program b
    do exit
calls
    turn 1, call 1 7 -1, free 57
events
    fault 1 3

story exec with a text in the guard page is refused
frames 64
program init
    do name b
    li t1, 4096; sd t1, -32(sp); sd x0, -24(sp); addi a1, sp, -32
    do exec
program b
    do exit
calls
    turn 1, call 1 7 -1, free 57
events
    fault 1 3

story exec of a path that runs into the guard page is refused
# The text fills its page, and its last byte is the letter `b`, where the path begins.
frames 64
program init
    li a0, 4095
    do no text
    do exec
    1017 times: nop
    lui x0, 0x62000
program b
    do exit
calls
    bytes 1 0xFFF 62 00
    turn 1, call 1 7 -1, free 57
events
    fault 1 3
"##;
