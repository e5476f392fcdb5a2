//! The console: typed keys and their echoes, lines that are read, and bytes that are sent.

pub(crate) const STORIES: &str = r##"
define name console
    # The name `console` stands at sp - 16, and a0 points to it.
    li t0, 0x736E6F63; sw t0, -16(sp); li t0, 0x656C6F; sw t0, -12(sp); addi a0, sp, -16

define open console
    # It is opened to be read and written, by descriptor 0.
    li t0, 0x736E6F63; sw t0, -16(sp); li t0, 0x656C6F; sw t0, -12(sp); addi a0, sp, -16
    li a1, 2; li a7, 15; ecall

define exit
    li a0, 0; li a7, 2; ecall

define read lines
    # 10 bytes at most are read to sp - 32, again and again.
    read: li a0, 0; addi a1, sp, -32; li a2, 10; li a7, 5; ecall; j read

define 40 bytes
    # The bytes 0 to 39 stand at 0x2000.
    lui a1, 2; li t0, 0; li t1, 40
    fill: add t2, a1, t0; sb t0, 0(t2); addi t0, t0, 1; bne t0, t1, fill

story keys are echoed at once
# A backspace takes back one byte, and Ctrl-U the whole line; where there is none left, nothing is shown.
program init
    do exit
events
    sent none
    key 61 echoes 61, key 7F echoes 08 20 08, key 7F echoes none
    key 61 echoes 61, key 62 echoes 62, key 15 echoes 08 20 08 08 20 08, key 15 echoes none
    key 0D echoes 0A, key 04 echoes 04, key 00 echoes none, key 10 echoes none
    # What is told of a key is how many bytes the console shows for it.
    key 61 -> typed 1, key 7F -> typed 3, key 7F -> typed 0
    sent none

story a halted machine takes no keys
program init
    do exit
events
    turn 1, key 61 echoes 61, step 1, step 1, exit 1 0
    key 61 -> halted, tick -> halted, halted, sent none

story each open of the console is a descriptor
# There are no modes 3 and -1. Mode 0 is to read, 1 to write, 2 both.
program init
    do name console
    li a7, 15
    li a1, 3; ecall
    do name console
    li a1, -1; ecall
    do name console
    li a1, 0; ecall
    do name console
    li a1, 1; ecall
    do name console
    li a1, 2; ecall
    do exit
calls
    turn 1, call 1 15 -1, call 1 15 -1, call 1 15 0, call 1 15 1, call 1 15 2, exit 1 0

story the mode of a descriptor on the console is kept
# Descriptor 0 may only be read, and 1 only be written. No bytes are read from 0 and written to 1 at once.
program init
    do name console
    li a7, 15
    li a1, 0; ecall
    do name console
    li a1, 1; ecall
    li a0, 0; lui a1, 2; li a2, 3; li a7, 16; ecall
    li a0, 1; li a7, 5; ecall
    li a0, 0; li a2, 0; ecall
    li a0, 1; li a7, 16; ecall
    do exit
calls
    turn 1, call 1 15 0, call 1 15 1
    call 1 16 -1, call 1 5 -1, call 1 5 0, call 1 16 0, exit 1 0

story a backspace takes a key back, and a return ends the line
program init
    do open console
    do read lines
calls
    turn 1, call 1 15 0
    key 61 echoes 61, key 7F echoes 08 20 08, key 62 echoes 62, key 0D echoes 0A
    call 1 5 2, bytes 1 0x2FC0 62 0A 00

story the end of a line that has bytes is told by the next read
# The keys are a and Ctrl-D.
program init
    do open console
    do read lines
calls
    turn 1, call 1 15 0
    key 61 echoes 61, key 04 echoes 04
    call 1 5 1, bytes 1 0x2FC0 61 00
    call 1 5 0, bytes 1 0x2FC0 61 00
    block 1 5, idle

story a key wakes a reader only where it ends a line
# The reader gets one line a call, and no byte of the line that isn't ended.
program init
    do open console
    do read lines
calls
    turn 1, call 1 15 0, block 1 5, idle
    key 61 echoes 61, idle, key 62 echoes 62, idle
    key 0A echoes 0A, turn 1, call 1 5 3, bytes 1 0x2FC0 61 62 0A 00
    block 1 5, key 15 echoes none, idle
    key 63 echoes 63, key 0A echoes 0A, key 64 echoes 64
    turn 1, call 1 5 2, bytes 1 0x2FC0 63 0A 0A 00
    block 1 5, idle

story a read of a long line goes on where it stopped
# 10 bytes a read: a line of 12 bytes is read in two.
program init
    do open console
    do read lines
calls
    turn 1, call 1 15 0
    11 times: key 61 echoes 61
    key 0A echoes 0A
    call 1 5 10, call 1 5 2, block 1 5

story a console holds 128 typed bytes
# Where it is full, a key is dropped. A read of 200 bytes takes all 128 once they are a full line, and goes
# on; the return ends it.
program init
    do open console
    li a0, 0; lui a1, 2; li a2, 200; li a7, 5; ecall
    do exit
calls
    turn 1, call 1 15 0
    128 times: key 61 echoes 61
    key 61 echoes none
    block 1 5, idle
    bytes 1 0x207E 61 61 00
    key 0A echoes 0A
    turn 1, call 1 5 129, bytes 1 0x207E 61 61 0A 00
    exit 1 0

story a write waits while 32 bytes are to be sent
# It goes on from the byte that it has come to.
program init
    do open console
    do 40 bytes
    li a0, 0; lui a1, 2; li a2, 40; li a7, 16; ecall
    do exit
calls
    turn 1, call 1 15 0, block 1 16, idle
    N from 0 to 31: sent N
    sent none
    turn 1, call 1 16 40
    N from 32 to 39: sent N
    sent none, exit 1 0

story one sent byte makes room for one byte
program init
    do open console
    do 40 bytes
    li a0, 0; lui a1, 2; li a2, 40; li a7, 16; ecall
    do exit
calls
    turn 1, call 1 15 0, block 1 16, idle
    N from 0 to 6: sent N, turn 1, block 1 16, idle
    sent 7, turn 1, call 1 16 40
    N from 8 to 39: sent N
    sent none, exit 1 0

story bytes are sent on a halted machine too
program init
    do open console
    do 40 bytes
    li a0, 0; lui a1, 2; li a2, 3; li a7, 16; ecall
    do exit
calls
    turn 1, call 1 15 0, call 1 16 3, exit 1 0, halted
    sent 0, sent 1, halted, sent 2, sent none

story a write that fits is done at once, and the next one waits
# 3 bytes, and then 40, of which 29 fit.
program init
    do open console
    do 40 bytes
    li a0, 0; lui a1, 2; li a2, 3; li a7, 16; ecall
    li a0, 0; li a2, 40; ecall
    do exit
calls
    turn 1, call 1 15 0, call 1 16 3, block 1 16, idle
    N from 0 to 2: sent N
    turn 1, block 1 16
    N from 0 to 31: sent N
    turn 1, call 1 16 40
    N from 32 to 39: sent N
    sent none, exit 1 0

story two writers take turns
# The child writes three bytes and the parent two, each with room for all of it.
frames 20
program init
    do open console
    do 40 bytes
    li a7, 1; ecall; beq a0, x0, child
    li a0, 0; li a2, 2; li a7, 16; ecall
    li a0, 0; li a7, 3; ecall
    do exit
    child: li a0, 0; addi a1, a1, 10; li a2, 3; li a7, 16; ecall
    do exit
calls
    turn 1, call 1 15 0, call 1 1 2, call 1 16 2, block 1 3
    turn 2, call 2 16 3, exit 2 0, turn 1, call 1 3 2, exit 1 0
    sent 0, sent 1, sent 10, sent 11, sent 12, sent none

story two readers share one line
# Parent and child read 2 bytes each, again and again. A line wakes both; who has the first turn takes as much as
# it asked for, and the other the rest.
frames 20
program init
    do open console
    li a7, 1; ecall
    read: li a0, 0; addi a1, sp, -32; li a2, 2; li a7, 5; ecall; j read
calls
    turn 1, call 1 15 0, call 1 1 2, block 1 5, turn 2, block 2 5, idle
    key 61 echoes 61, key 62 echoes 62, key 0A echoes 0A
    turn 1, call 1 5 2, bytes 1 0x2FC0 61 62, tick
    turn 2, call 2 5 1, bytes 2 0x2FC0 0A 00
    block 2 5, turn 1, block 1 5, idle

story a reader that is killed takes no line
# The child waits for a line. Its parent kills it, and reads the line itself.
frames 20
program init
    do open console
    li a7, 1; ecall; beq a0, x0, read
    li a7, 6; ecall
    li a7, 3; li a0, 0; ecall
    do read lines
calls
    turn 1, call 1 15 0, call 1 1 2, tick
    turn 2, block 2 5, key 61 echoes 61, turn 1, call 1 6 0, block 1 3
    turn 2, exit 2 -1, key 0A echoes 0A
    turn 1, call 1 3 2, call 1 5 2, bytes 1 0x2FC0 61 0A

story buffers of the console that are refused
# The text's last byte is 0xFFF: one byte from there can be written to the console, and two run into the guard
# page. Nothing can be read into the text, or beyond the stack's last byte. At 0x2FFC there is no room for the
# numbers of a pipe's ends.
program init
    do open console
    li a7, 16; li a0, 0; li a1, 0xFFF; li a2, 1; ecall
    li a0, 0; li a2, 2; ecall
    li a7, 5; li a0, 0; li a2, 1; ecall
    li a0, 0; li a1, 0x2FFF; li a2, 2; ecall
    li a7, 16; li a0, 0; ecall
    li a7, 4; li a0, 0x2FFC; ecall
    li a7, 10; li a0, 0; ecall
    do exit
calls
    turn 1, call 1 15 0, free 9
    call 1 16 1, sent 0, sent none
    call 1 16 -1, sent none
    call 1 5 -1, call 1 5 -1, call 1 16 -1
    call 1 4 -1, free 9
    # The lowest free descriptor is the one above the console's.
    call 1 10 1, exit 1 0
"##;
