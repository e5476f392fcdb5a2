//! What holds of packets, however they are cut, and of numbers in them.
ghost use Rattle.gdb_packets.specs.Laws.{ReadsBack, WrongSumsShow, CutsShowNothing};
ghost use Rattle.gdb_packets.specs.Numbers.{NumbersReadBack};

/// A packet that is written, read again, gives the same payload.
pub fn packets_read_back()
    ensures { ReadsBack }
{}

/// A packet with a wrong checksum is told as damaged.
pub fn wrong_sums_show()
    ensures { WrongSumsShow }
{}

/// It is all the same where the input was cut.
pub fn cuts_show_nothing()
    ensures { CutsShowNothing }
{}

/// A number that is written, read again, is the same.
pub fn numbers_read_back()
    ensures { NumbersReadBack }
{}
