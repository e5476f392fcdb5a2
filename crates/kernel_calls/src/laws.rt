//! What holds of the table.
ghost use Rattle.kernel_calls.specs.Laws.{FoundByNumber, HasNumber, FoundByName, HasName, AtMostThree, SameNumbers, RowsOfCalls, CallsOfRows, DoneByRow, OthersRefused};

/// Number and name determine the call.
pub fn numbers_and_names()
    // A call is found by its number.
    ensures found_by_number { FoundByNumber }

    // And by no other.
    ensures has_number { HasNumber }

    // It is found by its name.
    ensures found_by_name { FoundByName }

    // And by no other.
    ensures has_name { HasName }
{}

/// What is passed to a call.
pub fn arguments_passed()
    // Three arguments at most: they stand in a0, a1 and a2.
    ensures at_most_three { AtMostThree }
{}

/// These are the calls that the kernel does.
pub fn calls_are_rows()
    // At each number the kernel's table has the row of the call that has this number, and no row where no call has it.
    ensures same_numbers { SameNumbers }

    // Each call has a row of its own.
    ensures rows_of_calls { RowsOfCalls }

    // And each row is a call's.
    ensures calls_of_rows { CallsOfRows }

    // A call of a number in the table is done by its row.
    ensures done_by_row { DoneByRow }

    // A call of any other number answers -1, and changes nothing else.
    ensures others_refused { OthersRefused }
{}
