//! Memory that a process is promised, and that comes when it is touched.

pub(crate) const STORIES: &str = r##"
define a gigabyte more
    li a7, 22; lui a0, 0x40000; ecall

define a page more
    li a7, 22; lui a0, 1; ecall

define all but one frame
    # Eight of nine free frames become pages, up to 0xB000.
    li a7, 12; lui a0, 8; ecall

define fork
    # The child goes on at `child`.
    li a7, 1; ecall; beq a0, x0, child

define open b
    # The program file `b` is opened to be read.
    li t0, 98; sd t0, -16(sp); addi a0, sp, -16; li a1, 0; li a7, 15; ecall

define open console
    # The console is opened to be written.
    li t0, 0x736E6F63; sw t0, -16(sp); li t0, 0x656C6F; sw t0, -12(sp); addi a0, sp, -16
    li a1, 1; li a7, 15; ecall

define exec
    # Where it is refused, the process breaks off.
    li a7, 7; ecall; ebreak

define exit
    li a0, 0; li a7, 2; ecall

story a gigabyte costs the pages that are touched and their tables
# A store at 0x3000, and loads at 0x40000000, 0x20000000, 0x10000000 and 0x18000000.
program init
    do a gigabyte more
    li t0, 7; lui s0, 3; sb t0, 0(s0)
    li a1, -1; lui s1, 0x40000; lb a1, 0(s1)
    lui s2, 0x20000; lb a2, 0(s2)
    lui s3, 0x10000; lb a3, 0(s3)
    lui s4, 0x18000; lb a4, 0(s4)
events
    free 9
    turn 1, step 1, step 1, call 1 22 12288, free 9
    bytes 1 0x2FFF 00 none, bytes 1 0x40000000 none
    step 1, step 1, free 9, step 1, free 8
    bytes 1 0x3000 07, zeros 1 0x3001 4095, bytes 1 0x4000 none
    step 1, step 1, free 8, step 1, free 5, register 1 a1 0
    zeros 1 0x40000000 4096, bytes 1 0x3FFFFFFF none, bytes 1 0x40001000 none
    step 1, step 1, free 3, step 1, step 1, free 1
    # Here a table and a page are wanted.
    step 1, fault 1 13, free 16, status -1

story a store is refused as a load is where frames are wanting
program init
    do all but one frame
    do a gigabyte more
    lui s0, 0x20000; sb s0, 0(s0)
calls
    turn 1, call 1 12 12288, free 1, call 1 22 45056, free 1
    fault 1 15, free 16

story lazy growth below 0 is refused
# sbrklazy(-1), sbrklazy(-2147483648) and sbrklazy(0).
program init
    li a7, 22; li a0, -1; ecall
    lui a0, 0x80000; ecall
    li a0, 0; ecall
    lui s0, 3; lb a0, 0(s0)
calls
    turn 1, call 1 22 -1, call 1 22 -1, call 1 22 12288, free 9
    fault 1 13

story absent pages are written as zeros and come to be read into
# Three bytes of page 3 are written to the console. Two bytes are read to 0x3FFF. Then a jump to page 5.
program init
    do open console
    do open b
    li a7, 22; lui a0, 3; ecall
    li a0, 0; lui a1, 3; li a2, 3; li a7, 16; ecall
    li a0, 1; lui a1, 4; addi a1, a1, -1; li a2, 2; li a7, 5; ecall
    lui a0, 5; jalr x0, 0(a0)
file b hello
calls
    turn 1, call 1 15 0, call 1 15 1, call 1 22 12288, free 9
    call 1 16 3, free 9, bytes 1 0x3000 none
    sent 0, sent 0, sent 0, sent none
    call 1 5 2, free 7, bytes 1 0x3FFE 00 68 65 00, bytes 1 0x5000 none
events
    step 1, step 1, fault 1 12, free 16

story growth by sbrk begins behind an absent page
# sbrklazy(1), sbrk(4096), sbrklazy(-1), sbrk(0). The whole page in which the first growth ends may be touched.
program init
    li a7, 22; li a0, 1; ecall
    li a7, 12; lui a0, 1; ecall
    li a7, 22; li a0, -1; ecall
    li a7, 12; li a0, 0; ecall
    li t0, 7; lui s0, 4; sb t0, -1(s0)
    lui s0, 5; lb a0, 0(s0)
calls
    turn 1, call 1 22 12288, free 9, call 1 12 12289, free 8
    bytes 1 0x3000 none, zeros 1 0x4000 4096, bytes 1 0x5000 none
    call 1 22 -1, free 8, call 1 12 16385, free 8
events
    step 1, step 1, step 1, free 7, bytes 1 0x3FFE 00 07 00
    step 1, fault 1 13

story a shrink takes back what was promised and what has come
# A gigabyte more, two pages of which are touched, and a gigabyte less.
program init
    do a gigabyte more
    lui s0, 3; sb x0, 0(s0); lui s1, 0x40000; sb x0, 0(s1)
    li a7, 12; lui a0, 0xC0000; ecall
    lb a0, 0(s0)
events
    turn 1, step 1, step 1, call 1 22 12288, free 9
    step 1, step 1, free 8, step 1, step 1, free 5
    step 1, step 1, call 1 12 1073754112, free 9
    fault 1 13

story a misaligned load of an absent page faults as ever
program init
    do a page more
    ld a0, 1(a0)
calls
    turn 1, call 1 22 12288, fault 1 4, free 16

story a wait whose address does not fit takes no child
# All frames are pages when the child has ended. The page at 0xC000 is absent.
program init
    do fork
    li a7, 12; lui a0, 9; ecall
    do a page more
    li a7, 3; ecall
    li a0, 0; ecall
    do exit
    child: li a0, 5; li a7, 2; ecall
calls
    turn 1, call 1 1 2, free 2, tick, turn 2, exit 2 5, free 9
    turn 1, call 1 12 12288, free 0, call 1 22 49152, free 0
    call 1 3 -1, free 0, child 1 2 5, bytes 1 0xC000 none
    call 1 3 2, free 0, child 1 2 none, exit 1 0, halted, free 16

story a wait that sleeps has its page
# At 0x3000. There is no child at the first wait, so nothing comes.
program init
    do a page more
    mv s0, a0; li a7, 3; ecall
    do fork
    mv a0, s0; li a7, 3; ecall
    lw a0, 0(s0); li a7, 2; ecall
    child: li a0, 5; li a7, 2; ecall
calls
    turn 1, call 1 22 12288, call 1 3 -1, free 9, bytes 1 0x3000 none
    call 1 1 2, free 2, block 1 3, free 1
    zeros 1 0x3000 4096, bytes 2 0x3000 none
    turn 2, exit 2 5, free 8
    turn 1, call 1 3 2, free 8, bytes 1 0x3000 05 00 00 00
    exit 1 5, halted, free 16

story fork copies the pages that are there and the size
# The parent has touched page 3. The child stores there too, touches another page, and asks for the size.
frames 32
program init
    do a gigabyte more
    li t0, 7; lui s0, 3; sb t0, 0(s0)
    do fork
    li a0, 0; li a7, 3; ecall
    lb a0, 0(s0); li a7, 2; ecall
    child: li t0, 9; sb t0, 0(s0); lui s1, 0x20000; sb t0, 0(s1)
    li a0, 0; li a7, 12; ecall
    do exit
calls
    free 25
    turn 1, call 1 22 12288, free 25, call 1 1 2, free 16
    bytes 2 0x3000 07 00, bytes 2 0x4000 none
    block 1 3, turn 2, call 2 12 1073754112, free 14
    bytes 1 0x3000 07, bytes 2 0x3000 09, bytes 1 0x20000000 none, bytes 2 0x20000000 09
    exit 2 0, free 24, turn 1, call 1 3 2, exit 1 7, halted, free 32

story a child that touches more than there is ends alone
frames 32
program init
    do a gigabyte more
    do fork
    addi a0, sp, -16; li a7, 3; ecall
    lw a0, -16(sp); li a7, 2; ecall
    child: lui s0, 3; lui s1, 1
    again: sb s1, 0(s0); add s0, s0, s1; j again
calls
    turn 1, call 1 22 12288, call 1 1 2, free 18
    block 1 3, turn 2, fault 2 15, free 25
    turn 1, call 1 3 2, exit 1 -1, halted, free 32

story a buffer of which a part does not fit is refused
# One frame is free. 2 bytes are read to 0x10000000, where a table is wanted too; to 0xBFFF, which takes two pages;
# none to 0x10000000; and 2 to 0xB000. The bytes are the first of the file.
program init
    do open b
    do all but one frame
    do a gigabyte more
    li a7, 5; li a2, 2
    li a0, 0; lui a1, 0x10000; ecall
    li a0, 0; lui a1, 0xC; addi a1, a1, -1; ecall
    li a0, 0; lui a1, 0x10000; li a2, 0; ecall
    li a0, 0; lui a1, 0xB; li a2, 2; ecall
    do exit
file b hello
calls
    turn 1, call 1 15 0, call 1 12 12288, free 1, call 1 22 45056
    call 1 5 -1, free 1, bytes 1 0x10000000 none
    call 1 5 -1, free 1, bytes 1 0xBFFF none none
    call 1 5 0, free 1
    call 1 5 2, free 0, bytes 1 0xB000 68 65 00
    exit 1 0, halted, free 16

story a read that is refused brings nothing
# To page 3: from a descriptor that isn't in use, -1 bytes, and 8192 bytes, which pass the size. Then 4096 bytes,
# of which the file has 5.
program init
    do a page more
    do open b
    lui a1, 3; li a7, 5
    li a0, 1; li a2, 1; ecall
    li a0, 0; li a2, -1; ecall
    li a0, 0; lui a2, 2; ecall
    li a0, 0; lui a2, 1; ecall
    do exit
file b hello
calls
    turn 1, call 1 22 12288, call 1 15 0
    call 1 5 -1, call 1 5 -1, call 1 5 -1, free 9, bytes 1 0x3000 none
    call 1 5 5, free 8, bytes 1 0x3000 68 65 6C 6C 6F 00
    exit 1 0

story a read that waits has all its pages
# The parent reads 4097 bytes of a pipe, to 0x3000. The child writes two bytes of its own page 3, which is absent.
frames 32
program init
    li a7, 22; lui a0, 2; ecall
    addi a0, sp, -16; li a7, 4; ecall
    do fork
    li a0, 0; lui a1, 3; lui a2, 1; addi a2, a2, 1; li a7, 5; ecall
    do exit
    child: li a0, 1; lui a1, 3; li a2, 2; li a7, 16; ecall
    do exit
calls
    turn 1, call 1 22 12288, call 1 4 0, free 24, call 1 1 2, free 17
    block 1 5, free 15, zeros 1 0x3000 8192, bytes 2 0x3000 none
    turn 2, call 2 16 2, free 15, bytes 2 0x3000 none, exit 2 0, free 22
    turn 1, call 1 5 2, zeros 1 0x3000 8192, free 22
    exit 1 0, halted, free 32

story a pipe whose numbers lie in an absent page costs two frames
# With one free frame, at 0xB000; with two, at 0xA000.
program init
    do all but one frame
    do a page more
    li a7, 4; ecall
    li a7, 12; lui a0, 0xFFFFE; ecall
    do a page more
    li a7, 4; ecall
    do exit
calls
    turn 1, call 1 12 12288, free 1, call 1 22 45056
    call 1 4 -1, free 1, bytes 1 0xB000 none
    call 1 12 49152, free 2, call 1 22 40960, free 2
    call 1 4 0, free 0, bytes 1 0xA000 00 00 00 00 01 00 00 00
    exit 1 0, halted, free 16

story a path in an absent page is empty
program init
    do a page more
    li a1, 0; li a7, 15; ecall
    lui a0, 3; addi a1, sp, 8
    do exec
calls
    turn 1, call 1 22 12288, call 1 15 -1
    call 1 7 -1, free 9, bytes 1 0x3000 none
events
    fault 1 3

story a path that runs into an absent page ends there
# The letter `b` is the last byte of page 2.
program init
    do a page more
    li t0, 98; sb t0, -1(a0); addi a0, a0, -1; li a1, 0; li a7, 15; ecall
    do exit
file b hello
calls
    turn 1, call 1 22 12288, call 1 15 0, free 9, bytes 1 0x2FFF 62 none
    exit 1 0

story exec reads pointers and texts in absent pages as zeros
# The list of the first exec has a pointer to an absent page. That of the second lies in one: it has no text.
program init
    do a page more
    li t0, 98; sd t0, -16(sp); lui t1, 3; sd t1, -48(sp); sd x0, -40(sp)
    addi a0, sp, -16; addi a1, sp, -48
    do exec
program b
    do a page more
    li t0, 99; sd t0, -16(sp); lui a1, 3; addi a0, sp, -16
    do exec
program c
    nop; ebreak
calls
    turn 1, call 1 22 12288, call 1 7 1, free 9
    register 1 a0 1, bytes 1 0x2FF0 00, bytes 1 0x3000 none
    call 1 22 12288, call 1 7 0, free 9
events
    step 1, fault 1 3, free 16
"##;
