//! Program files that a machine takes, and those that it refuses.

pub(crate) const STORIES: &str = r##"
define exit
    li a7, 2; li a0, 0; ecall

story fifteen frames are too few
frames 15
refused BadConfig

story two programs of one name are refused
file init
file init
refused BadPrograms 1

story no program is called init
file sh
file b
refused NoInit

story a short file is no program
file init ELF
refused Init NotElf

story a program needs more frames than there are
# The segment has 65536 bytes in memory.
program init
    do exit
patch 104 00 00 01 00 00 00 00 00
refused Init NoFrames

story a file that is cut in its header is refused
each N from 0 to 63
program init
    do exit
length 132
cut N
refused Init NotElf

story a file that is cut behind its header is refused
each N from 64 to 131
program init
    do exit
length 132
cut N
refused Init BadSegment 0

story a file that isn't cut boots
program init
    do exit
length 132
cut 132
events
    turn 1

story a file of 65535 program headers is refused
program init
    do exit
patch 56 FF FF
refused Init BadSegment 1

story a table of program headers at the highest offset is refused
program init
    do exit
patch 32 FF FF FF FF FF FF FF FF
refused Init BadSegment 0

story a segment behind the end of its file is refused
# 13 bytes in the file, which has 12.
program init
    do exit
patch 96 0D 00 00 00 00 00 00 00
refused Init BadSegment 0

story a segment that begins at no page is refused
program init
    do exit
patch 80 01 00 00 00 00 00 00 00
refused Init BadSegment 0

story a segment of more bytes in the file than in memory is refused
# 12 bytes in the file, and 11 in memory.
program init
    do exit
patch 104 0B 00 00 00 00 00 00 00
refused Init BadSegment 0

story a segment that ends behind all memory is refused
# A page whose end is 2^64.
program init
    do exit
patch 80 00 F0 FF FF FF FF FF FF
patch 104 00 10 00 00 00 00 00 00
refused Init BadSegment 0

story a program without pages
# The guard page and the stack alone, the root, two tables and the trapframe. The first fetch is from the
# guard page.
program init
    do exit
patch 96 00 00 00 00 00 00 00 00 00 00 00 00 00 00 00 00
events
    free 10, register 1 pc 0, register 1 sp 0x1FE0
    bytes 1 0x1FF0 69 6E 69 74 00, bytes 1 0x1FFF 00 none
    turn 1, fault 1 12, halted, free 16

story an entry of 3 is rounded down to 0
program init
    do exit
patch 24 03
events
    register 1 pc 0

story an entry of 6 is rounded down to 4
program init
    do exit
patch 24 06
events
    register 1 pc 4

story the highest entry is rounded down
program init
    do exit
patch 24 FF FF FF FF FF FF FF FF
events
    register 1 pc -4

story init finds its name on the stack
# The text stands at the highest multiple of 16, and two pointers below it: to the text, and 0. All other
# registers are 0.
program init
    do exit
events
    bytes 1 0x2FF0 69 6E 69 74 00
    bytes 1 0x2FE0 F0 2F 00 00 00 00 00 00 00 00 00 00 00 00 00 00
    register 1 pc 0, register 1 sp 0x2FE0
    register 1 a0 1, register 1 a1 0x2FE0
    register 1 zero 0, register 1 ra 0, register 1 a7 0

story process 1 is nobody's child
program init
    do exit
events
    child 1 1 none, child 1 2 none, child 2 1 none
"##;
