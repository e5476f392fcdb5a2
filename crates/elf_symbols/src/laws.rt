//! What holds of the names that are told.
//!
//! The function here takes and gives nothing: it stands for a claim about the definitions that the contracts cite.
ghost use Rattle.elf_symbols.specs.Named.{HasAddress, IsCounted};

/// The names of symbols are those that have an address.
pub fn names_have_addresses()
    // A name that [`symbol_name`](crate::symbol_name) tells has an address.
    ensures has_address { HasAddress }

    // Each name that has an address is told of a number below [`symbol_count`](crate::symbol_count).
    ensures is_counted { IsCounted }
{}
