//! What holds of the names of a program, and of its calls.
//!
//! The functions here take and give nothing: each stands for a claim about the definitions that the contracts cite.
ghost use Rattle.xv_report.specs.CallLaws.{IsGuess, IsListed};
ghost use Rattle.xv_report.specs.NameLaws.{HasAddress, IsCounted};

/// The names of a program are those that have an address: what is told as a name can be read as one.
pub fn names_have_addresses()
    // A name that [`ProgramSource::nth_name`](crate::ProgramSource::nth_name) tells has an address.
    ensures has_address { HasAddress }

    // Each name that has an address is told of a place below [`ProgramSource::name_count`](crate::ProgramSource::name_count).
    ensures is_counted { IsCounted }
{}

/// Of a program without a table of call frames the calls are those of [`callers_of`](crate::callers_of).
pub fn calls_without_a_table()
    // They are said to be a guess, by frame pointers and ra alone.
    ensures is_guess { IsGuess }
{}

/// The call of a number is the one that stands at its place among those that [`calls_of`](crate::calls_of) tells.
pub fn calls_by_numbers()
    // Call N goes on at the address to which the call at place N - 1 returns.
    ensures is_listed { IsListed }
{}
