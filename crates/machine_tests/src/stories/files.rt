//! Program files and descriptors.

pub(crate) const STORIES: &str = r##"
define name b
    # The name `b` stands at sp - 16.
    li t0, 98; sd t0, -16(sp)

define open
    # The file whose name stands at sp - 16 is opened to be read.
    addi a0, sp, -16; li a1, 0; li a7, 15; ecall

define pipe
    addi a0, sp, -16; li a7, 4; ecall

define exit
    li a0, 0; li a7, 2; ecall

story a file is read on from where another process stopped
program init
    do name b
    do open
    li a7, 1; ecall; beq a0, x0, child
    li a0, 0; li a7, 3; ecall
    li a0, 0; addi a1, sp, -32; li a2, 9; li a7, 5; ecall
    li a0, 0; ecall
    do exit
    child: li a0, 0; addi a1, sp, -32; li a2, 2; li a7, 5; ecall
    do exit
file b hello
calls
    turn 1, call 1 15 0, call 1 1 2, block 1 3
    turn 2, call 2 5 2, exit 2 0
    turn 1, call 1 3 2, call 1 5 3
    bytes 1 0x2FC0 6C 6C 6F 00
    call 1 5 0, exit 1 0

story a dup shares the offset
# The file is opened again as `//b`; `b` can't be opened to be written, nor the first file be written.
program init
    do name b
    do open
    li a0, 0; li a7, 10; ecall
    addi a1, sp, -32; li a7, 5
    li a0, 0; li a2, 2; ecall
    li a0, 1; li a2, 9; ecall
    li a0, 0; ecall
    li t0, 0x622F2F; sd t0, -16(sp)
    do open
    do name b
    addi a0, sp, -16; li a1, 1; ecall
    li a0, 0; addi a1, sp, -32; li a2, 1; li a7, 16; ecall
    do exit
file b hello
calls
    turn 1, call 1 15 0, call 1 10 1, call 1 5 2
    bytes 1 0x2FC0 68 65 00 00
    call 1 5 3
    bytes 1 0x2FC0 6C 6C 6F 00
    call 1 5 0, call 1 15 2, call 1 15 -1, call 1 16 -1, exit 1 0

story paths that are opened
# `b` with mode 1 is refused, and so is a path in the guard page. `console` is found behind two slashes, and
# `b` behind one.
program init
    do name b
    addi a0, sp, -16; li a1, 1; li a7, 15; ecall
    lui a0, 2; li a1, 0; ecall
    la a0, console; ecall
    la a0, file; ecall
    do exit
    .data
    console: .asciz "//console"
    file: .asciz "/b"
file b hello
calls
    turn 1, call 1 15 -1, call 1 15 -1, call 1 15 0, call 1 15 1, exit 1 0

story descriptors run out
# 31 opens; a pipe needs two descriptors; then the 32nd open, and one too many.
program init
    do name b
    li s0, 31
    more: addi a0, sp, -16; li a1, 0; li a7, 15; ecall
    addi s0, s0, -1; bne s0, x0, more
    do pipe
    do name b
    do open
    do open
    do exit
file b hello
calls
    turn 1
    N from 0 to 30: call 1 15 N
    call 1 4 -1, free 9
    call 1 15 31, call 1 15 -1, exit 1 0

story copies of a descriptor run out
# 31 copies and one too many; then no descriptor is left for a file or a pipe. One that is closed is given
# again.
program init
    do name b
    do open
    li a7, 10
    more: li a0, 0; ecall; bge a0, x0, more
    do open
    do pipe
    li a0, 9; li a7, 21; ecall
    do name b
    do open
    do exit
file b hello
calls
    turn 1, call 1 15 0
    N from 1 to 31: call 1 10 N
    call 1 10 -1, call 1 15 -1, call 1 4 -1, free 9
    call 1 21 0, call 1 15 9, exit 1 0

story reads and closes that are refused
# Reads at the highest address: of 2 bytes, of none, and of -1; then of -1 at a good address, from a
# descriptor that no process can have, and from one that isn't in use. All bytes of the file are left.
# Descriptor 0 is closed twice. No calls have the numbers 8 and 99.
program init
    do name b
    do open
    li a0, 0; li a1, -1; li a2, 2; li a7, 5; ecall
    li a0, 0; li a2, 0; ecall
    li a0, 0; li a2, -1; ecall
    li a0, 0; addi a1, sp, -32; ecall
    li a0, 32; li a2, 1; ecall
    li a0, 16; ecall
    li a0, 0; li a2, 9; ecall
    li a0, 0; li a7, 21; ecall; li a0, 0; ecall
    li a7, 8; ecall
    li a7, 99; ecall
    do exit
file b hello
calls
    turn 1, call 1 15 0, call 1 5 -1, call 1 5 0, call 1 5 -1
    call 1 5 -1, call 1 5 -1, call 1 5 -1, call 1 5 5
    bytes 1 0x2FC0 68 65 6C 6C 6F 00
    call 1 21 0, call 1 21 -1, call 1 8 -1, call 1 99 -1, exit 1 0

story descriptors stay over an exec
# `init` makes a pipe and goes on as `b`, which closes descriptors 0 and 1, and 1 once more.
program init
    do pipe
    do name b
    addi a0, sp, -16; addi a1, sp, 8; li a7, 7; ecall
program b
    li a7, 21; li a0, 0; ecall; li a0, 1; ecall; li a0, 1; ecall
    do exit
calls
    turn 1, call 1 4 0, call 1 7 0, call 1 21 0, call 1 21 0, free 9
    call 1 21 -1, exit 1 0
"##;
