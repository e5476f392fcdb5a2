//! Configurations and lists of programs that a machine refuses, and first programs at the edge of what it takes.

pub(crate) const STORIES: &str = r##"
define exit
    li a7, 2; li a0, 0; ecall

story fifteen frames are refused before all else
frames 15
refused BadConfig

story 32769 frames are too many
frames 32769
refused BadConfig

story 65537 notes are refused before all else
trace 65537
refused BadConfig

story there is no program
refused NoInit

story one program is called sh
file sh
refused NoInit

story a name may have fourteen bytes
file fourteen_bytes
refused NoInit

story a name of fifteen bytes is refused
# The first of two programs of one name is told.
file sh
file fifteen_letters
file fifteen_letters
refused BadPrograms 1

story an empty name is refused
file sh
file
file
refused BadPrograms 1

story a name with a slash is refused
file sh
file a/b
file a/b
refused BadPrograms 1

story console is the name of no program
file sh
file console
file console
refused BadPrograms 1

story a file of 1048576 bytes is not too long
# Its pages don't fit into the frames.
program init
    .data
    15 times: .space 65536
    .space 65416
length 1048576
refused Init NoFrames

story a file of 1048577 bytes is too long
program init
    .data
    15 times: .space 65536
    .space 65416
patch 1048576 00
length 1048577
refused BadPrograms 0

story ten pages just fit
# With guard page and stack they are twelve, whose price is 15: the trapframe is the 16th frame.
program init
    do exit
patch 104 00 A0 00 00 00 00 00 00
events
    free 0

story a tenth page far above the first just fits
program init
    do exit
patch 80 00 90 00 00 00 00 00 00
patch 104 00 10 00 00 00 00 00 00
events
    free 0

story a byte in an eleventh page needs more frames than there are
program init
    do exit
patch 104 01 A0 00 00 00 00 00 00
refused Init NoFrames

story a byte in an eleventh page far above the first needs more frames than there are
program init
    do exit
patch 80 00 90 00 00 00 00 00 00
patch 104 01 10 00 00 00 00 00 00
refused Init NoFrames

story a page that begins at no page is refused
program init
    do exit
patch 80 01 00 00 00 00 00 00 00
patch 104 00 10 00 00 00 00 00 00
refused Init BadSegment 0

story a file without a program header boots
program init
    do exit
patch 56 00 00
events
    free 10

story a second program header behind the end of the file is refused
program init
    do exit
patch 56 02 00
refused Init BadSegment 1
"##;

/// A story apart, since its name is spelled with a backslash.
pub(crate) const A_NAME_WITH_A_ZERO_BYTE: &str = "
story a name with a zero byte is refused
file sh
file a\0b
file a\0b
refused BadPrograms 1
";
