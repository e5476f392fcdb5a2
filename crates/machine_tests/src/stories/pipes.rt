//! Pipes, which processes make, share, read and write.

pub(crate) const STORIES: &str = r##"
define pipe
    # The numbers of its ends stand at sp - 16: 0 reads and 1 writes.
    addi a0, sp, -16; li a7, 4; ecall

define fork
    # The child goes on at `child`.
    li a7, 1; ecall; beq a0, x0, child

define close end 0
    li a0, 0; li a7, 21; ecall

define close end 1
    li a0, 1; li a7, 21; ecall

define wait
    li a0, 0; li a7, 3; ecall

define exit
    li a0, 0; li a7, 2; ecall

story a child writes and its parent reads
# The parent closes its write end, waits in a read of 10 bytes, and reads again at the end of the file.
program init
    do pipe
    do fork
    do close end 1
    addi a1, sp, -32; li a2, 10; li a7, 5; li a0, 0; ecall
    li a0, 0; ecall
    do exit
    child: li t0, 120; sb t0, -32(sp); li t0, 121; sb t0, -31(sp)
    li a0, 1; addi a1, sp, -32; li a2, 2; li a7, 16; ecall
    do exit
calls
    free 9
    turn 1, call 1 4 0, free 8
    bytes 1 0x2FD0 00 00 00 00 01 00 00 00
    call 1 1 2, call 1 21 0, block 1 5
    turn 2, call 2 16 2, exit 2 0
    bytes 1 0x2FC0 00 00 00 00
    turn 1, call 1 5 2
    bytes 1 0x2FC0 78 79 00 00
    # Nobody can write any more.
    call 1 5 0, free 8
    exit 1 0, halted, free 16

story a reader is told that the last writer is gone
# The parent closes its write end and waits in a read of 10 bytes. The child only exits.
program init
    do pipe
    do fork
    do close end 1
    li a0, 0; addi a1, sp, -32; li a2, 10; li a7, 5; ecall
    do exit
    child:
    do exit
calls
    turn 1, call 1 4 0, call 1 1 2, call 1 21 0, block 1 5, turn 2, exit 2 0
events
    turn 1, call 1 5 0, free 8

story bytes stay in a pipe when their writer ends
# The child writes 2 bytes and exits, before its parent closes its write end and reads 10, twice.
program init
    do pipe
    do fork
    do close end 1
    addi a1, sp, -32; li a2, 10; li a7, 5
    li a0, 0; ecall; li a0, 0; ecall
    do exit
    child: li t0, 0x7978; sd t0, -32(sp)
    li a0, 1; addi a1, sp, -32; li a2, 2; li a7, 16; ecall
    do exit
calls
    turn 1, call 1 4 0, call 1 1 2, tick
    turn 2, call 2 16 2, exit 2 0, turn 1, call 1 21 0, call 1 5 2
    bytes 1 0x2FC0 78 79 00 00
    call 1 5 0, exit 1 0

story a full pipe holds its writer back
# The parent writes a byte more than a pipe holds, all of which stand in its stack page.
program init
    do pipe
    do fork
    li a0, 1; lui a1, 2; li a2, 2049; li a7, 16; ecall
    do exit
    child: li a0, 0; addi a1, sp, -32; li a2, 1; li a7, 5; ecall
    do exit
calls
    turn 1, call 1 4 0, call 1 1 2, block 1 16
    turn 2, call 2 5 1, exit 2 0
    turn 1, call 1 16 2049, exit 1 0

story 2,048 bytes are in a full pipe
# The child reads 4,096 bytes while the parent waits to write the last of 2,049, and once more.
program init
    do pipe
    do fork
    li a0, 1; lui a1, 2; li a2, 2049; li a7, 16; ecall
    do wait
    do exit
    child: li a0, 0; lui a1, 2; lui a2, 1; li a7, 5; ecall
    li a0, 0; ecall
    do exit
calls
    turn 1, call 1 4 0, call 1 1 2, block 1 16
    turn 2, call 2 5 2048, block 2 5
    turn 1, call 1 16 2049, block 1 3
    turn 2, call 2 5 1, exit 2 0
    turn 1, call 1 3 2, exit 1 0

story a pipe takes and gives 2,048 bytes at once
# Each of the first 256 double words of a new page holds its own address. All of them go into the pipe by one
# write, and come out to the stack's page by one read; the program compares them.
program init
    do pipe
    li a0, 4096; li a7, 12; ecall
    lui s0, 3; lui s1, 2; li s2, 256
    mv t0, s0; mv t1, s2
    fill: sd t0, 0(t0); addi t0, t0, 8; addi t1, t1, -1; bne t1, x0, fill
    li a0, 1; mv a1, s0; li a2, 2048; li a7, 16; ecall
    li a0, 0; mv a1, s1; li a7, 5; ecall
    same: ld t0, 0(s0); ld t1, 0(s1); bne t0, t1, other
    addi s0, s0, 8; addi s1, s1, 8; addi s2, s2, -1; bne s2, x0, same
    do exit
    other: li a0, 1; li a7, 2; ecall
calls
    free 9
    turn 1, call 1 4 0, free 8, call 1 12 12288, free 7
    call 1 16 2048, free 7, zeros 1 0x2000 2048
    call 1 5 2048, free 7
    bytes 1 0x2000 00 30 00 00 00 00 00 00 08 30 00 00 00 00 00 00
    bytes 1 0x27F8 F8 37 00 00 00 00 00 00 00
    exit 1 0, halted, free 16

story a writer whose last reader goes is refused
program init
    do pipe
    do fork
    do close end 0
    li a0, 1; lui a1, 2; li a2, 2049; li a7, 16; ecall
    do exit
    child:
    do close end 0
    do exit
calls
    turn 1, call 1 4 0, call 1 1 2, call 1 21 0, block 1 16
    turn 2, call 2 21 0, exit 2 0
    turn 1, call 1 16 -1, exit 1 0

story a write that nobody can read is refused
program init
    do pipe
    do close end 0
    li a0, 1; lui a1, 2; li a2, 1; li a7, 16; ecall
    do exit
calls
    turn 1, call 1 4 0, call 1 21 0, call 1 16 -1, exit 1 0

story two readers of a pipe share its bytes
# 3 bytes are written; the child takes 2 of them, and the parent is left with 1.
program init
    do pipe
    do fork
    li a0, 1; lui a1, 2; li a2, 3; li a7, 16; ecall
    do wait
    li a0, 0; addi a1, sp, -32; li a2, 9; li a7, 5; ecall
    do exit
    child: li a0, 0; addi a1, sp, -32; li a2, 2; li a7, 5; ecall
    do exit
calls
    turn 1, call 1 4 0, call 1 1 2, call 1 16 3, block 1 3
    turn 2, call 2 5 2, exit 2 0
    turn 1, call 1 3 2, call 1 5 1, exit 1 0

story both of two writers wake when there is room
# The pipe is full before two children write a byte each; then the parent takes all 2,048.
frames 32
program init
    do pipe
    li a0, 1; lui a1, 2; li a2, 2048; li a7, 16; ecall
    do fork
    do fork
    li a0, 0; li a7, 5; ecall
    do wait
    do wait
    do exit
    child: li a0, 1; lui a1, 2; li a2, 1; li a7, 16; ecall
    do exit
calls
    turn 1, call 1 4 0, call 1 16 2048, call 1 1 2, call 1 1 3
events
    tick, turn 2, step 2, step 2, step 2, step 2, step 2, block 2 16
calls
    turn 3, block 3 16, turn 1, call 1 5 2048, block 1 3
    turn 2, call 2 16 1, exit 2 0
    turn 3, call 3 16 1, exit 3 0
    turn 1, call 1 3 2, call 1 3 3, exit 1 0, free 32

story two writers share the room of two bytes
# Process 2 writes 2,049 bytes, of which a and b are the first and y is the last; process 3 writes z. Process 1
# reads 2 bytes, and later 2,200. 2,048 bytes are the most that a pipe holds.
frames 32
program init
    do pipe
    li a7, 1; ecall; beq a0, x0, long; ecall; beq a0, x0, short
    lui a1, 2; li a2, 2; li a7, 5; li a0, 0; ecall
    li a2, 2200; li a0, 0; ecall
    do exit
    long: lui a1, 2; li t0, 0x6261; sd t0, 0(a1); li t0, 121
    li a2, 2048; add t1, a1, a2; sb t0, 0(t1)
    li a0, 1; li a2, 2049; li a7, 16; ecall
    do exit
    short: lui a1, 2; li t0, 122; sb t0, 0(a1)
    li a0, 1; li a2, 1; li a7, 16; ecall
    do exit
calls
    turn 1, call 1 4 0, call 1 1 2, call 1 1 3, tick
    turn 2, block 2 16, turn 3, block 3 16, turn 1, call 1 5 2
    bytes 1 0x2000 61 62 00
events
    tick, turn 2, call 2 16 2049, tick, turn 3, call 3 16 1, tick
calls
    turn 1, call 1 5 2048
    bytes 1 0x27FD 00 79 7A 00

story another name of an end wakes nobody
# The child waits in a read. Its parent makes a copy of the write end, closes it, and waits.
program init
    do pipe
    do fork
    li a0, 1; li a7, 10; ecall
    li a7, 21; ecall
    do wait
    do exit
    child: lui a1, 2; li a2, 1; li a7, 5; ecall
    do exit
calls
    turn 1, call 1 4 0, call 1 1 2, tick
    turn 2, block 2 5, turn 1, call 1 10 2, call 1 21 0, block 1 3, idle, idle

story a reader that is killed leaves the pipe
# The child waits in a read. Its parent kills it, closes the read end and writes.
program init
    do pipe
    do fork
    mv s0, a0; mv a0, s0; li a7, 6; ecall
    do wait
    do close end 0
    li a0, 1; lui a1, 2; li a2, 1; li a7, 16; ecall
    do exit
    child: lui a1, 2; li a2, 1; li a7, 5; ecall
calls
    turn 1, call 1 4 0, call 1 1 2, tick
    turn 2, block 2 5, turn 1, call 1 6 0, block 1 3, turn 2, exit 2 -1
    turn 1, call 1 3 2, call 1 21 0, call 1 16 -1, exit 1 0

story a refused pipe leaves nothing
# Its numbers would stand in the text; then its 8 bytes don't fit into the stack page; the third pipe's
# numbers fill the page's last 8 bytes.
program init
    li a0, 0; li a7, 4; ecall
    lui a0, 3; addi a0, a0, -4; ecall
    lui a0, 3; addi a0, a0, -8; ecall
    do exit
calls
    turn 1, call 1 4 -1, call 1 4 -1, free 9
    bytes 1 0x2FFC 00 00 00 00
    call 1 4 0, free 8
    bytes 1 0x2FF8 00 00 00 00 01 00 00 00
    exit 1 0, free 16

story a pipe needs a frame
# Nine pages more take all free frames; one page less gives one back.
program init
    li a7, 12; li a0, 36864; ecall
    do pipe
    li a7, 12; li a0, -4096; ecall
    do pipe
    do exit
calls
    turn 1, call 1 12 12288, call 1 4 -1, call 1 12 49152, call 1 4 0, exit 1 0, free 16

story a pipe takes the last frame
# Two forks leave one frame.
frames 22
program init
    do fork
    do fork
    do pipe
    do pipe
    child:
    do exit
calls
    turn 1, free 15
    call 1 1 2, free 8
    call 1 1 3, free 1
    call 1 4 0, free 0
    call 1 4 -1, free 0
    exit 1 0, free 8

story sixteen pipes take all descriptors
# Pipes are made until one is refused.
frames 32
program init
    again:
    do pipe
    beq a0, x0, again
    do exit
calls
    turn 1
    call 1 4 0, free 24, bytes 1 0x2FD0 00 00 00 00 01 00 00 00
    call 1 4 0, free 23, bytes 1 0x2FD0 02 00 00 00 03 00 00 00
    call 1 4 0, free 22, bytes 1 0x2FD0 04 00 00 00 05 00 00 00
    call 1 4 0, free 21, bytes 1 0x2FD0 06 00 00 00 07 00 00 00
    call 1 4 0, free 20, bytes 1 0x2FD0 08 00 00 00 09 00 00 00
    call 1 4 0, free 19, bytes 1 0x2FD0 0A 00 00 00 0B 00 00 00
    call 1 4 0, free 18, bytes 1 0x2FD0 0C 00 00 00 0D 00 00 00
    call 1 4 0, free 17, bytes 1 0x2FD0 0E 00 00 00 0F 00 00 00
    call 1 4 0, free 16, bytes 1 0x2FD0 10 00 00 00 11 00 00 00
    call 1 4 0, free 15, bytes 1 0x2FD0 12 00 00 00 13 00 00 00
    call 1 4 0, free 14, bytes 1 0x2FD0 14 00 00 00 15 00 00 00
    call 1 4 0, free 13, bytes 1 0x2FD0 16 00 00 00 17 00 00 00
    call 1 4 0, free 12, bytes 1 0x2FD0 18 00 00 00 19 00 00 00
    call 1 4 0, free 11, bytes 1 0x2FD0 1A 00 00 00 1B 00 00 00
    call 1 4 0, free 10, bytes 1 0x2FD0 1C 00 00 00 1D 00 00 00
    call 1 4 0, free 9, bytes 1 0x2FD0 1E 00 00 00 1F 00 00 00
    call 1 4 -1, free 9, bytes 1 0x2FD0 1E 00 00 00 1F 00 00 00
    exit 1 0, free 32
"##;
