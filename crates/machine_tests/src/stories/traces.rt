//! The trace: notes of the last events.

pub(crate) const STORIES: &str = r##"
define exit
    li a7, 2; li a0, 0; ecall

story a trace of two notes keeps the last two
trace 2
program init
    do exit
events
    note 0 none
    turn 1, note 0 turn 1, note 1 none
    step 1, step 1, exit 1 0
    note 0 step 1, note 1 exit 1 0, note 2 none
    halted, note 0 exit 1 0, note 1 halted

story a key on a halted machine is told in the trace
trace 2
program init
    do exit
events
    turn 1, step 1, step 1, exit 1 0
    note 0 step 1, note 1 exit 1 0, note 2 none
    key 61 -> halted
    note 0 exit 1 0, note 1 halted, note 2 none

story a trace tells keys and sent bytes
trace 3
program init
    do exit
events
    key 61 echoes 61, key 15 echoes 08 20 08, sent none
    note 0 key 97 1, note 1 key 21 3, note 2 sent none

story a trace of no notes keeps none
program init
    do exit
events
    turn 1, step 1, note 0 none, step 1, exit 1 0, note 0 none

story a trace may keep 65536 notes
trace 65536
program init
    do exit
events
    turn 1, step 1, note 0 turn 1, note 1 step 1

story a trace can't keep 65537 notes
trace 65537
program init
    do exit
refused BadConfig
"##;
