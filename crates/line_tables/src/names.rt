//! The functions and labels of a program (ELF-64 Object File Format, "Symbol Table").
ghost use Rattle.std.specs.Prelude.{◌≡◌, ◌/◌, length, IfOk, OnOk};
ghost use Rattle.line_tables.specs.Names as meant;
ghost use Rattle.line_tables.specs.Passes as passes;

use elf_symbols::{SYMBOL_BYTES, Symbol, symbol_at};
use std::alloc::{AllocError, Global};
use std::collections::BTreeMap;

/// The section of a program's instructions.
const TEXT_SECTION: u16 = 1;

/// A function or a label.
#[derive(Clone, Copy)]
pub(crate) struct Named {
    /// It is a function, else a label.
    pub is_function: bool,
    /// How many bytes it has; 0 of a label, of which that isn't told.
    pub size: u64,
    /// Where its name begins in the table of names.
    pub name: u32,
}

/// The function or the label that a symbol stands for: a function that has bytes, or a name of no type among the
/// program's instructions that other files may say.
fn named_by(symbol: &Symbol) -> Option<Named>
    ensures { result ≡ meant.named_by symbol.now }
{
    if symbol.is_function() {
        if symbol.size == 0 {
            return None;
        }
        return Some(Named {
            is_function: true,
            size: symbol.size,
            name: symbol.name,
        });
    }
    if !symbol.is_untyped() || symbol.is_local() || symbol.section != TEXT_SECTION {
        return None;
    }
    Some(Named {
        is_function: false,
        size: 0,
        name: symbol.name,
    })
}

/// Puts a symbol into a map by addresses, in place of what stands at its address, if it is of the kind that is wanted.
fn put_symbol(
    map: &mut BTreeMap<u64, Named>,
    symbol: &Symbol,
    are_functions: bool,
) -> Result<(), AllocError>
    ensures { OnOk result (map.new.entries ≡ passes.put_symbol are_functions symbol.now map.old.entries) }
{
    let Some(named) = named_by(symbol) else {
        return Ok(());
    };
    if named.is_function == are_functions {
        map.insert(symbol.value, named)?;
    }
    Ok(())
}

/// Puts symbols into a map by addresses, from the last one to the first: the functions, or the labels.
fn put_symbols(
    map: &mut BTreeMap<u64, Named>,
    symbols: &[u8],
    are_functions: bool,
) -> Result<(), AllocError>
    ensures { OnOk result (map.new.entries
        ≡ passes.put_symbols are_functions symbols.now (length symbols.now / 24) map.old.entries) }
{
    let mut left = symbols.len() / SYMBOL_BYTES;
    'symbols: while left > 0 {
        left -= 1;
        let symbol = symbol_at(symbols, SYMBOL_BYTES * left);
        put_symbol(map, &symbol, are_functions)?;
    }
    Ok(())
}

/// The functions and labels of a symbol table, in the order of addresses: of several at an address the first function,
/// or else the first label.
pub(crate) fn names_of(alloc: Global, symbols: &[u8]) -> Result<Vec<(u64, Named)>, AllocError>
    ensures { IfOk result (λ v. v.items ≡ meant.names_of symbols.now) }
{
    let mut map = BTreeMap::new(alloc);
    put_symbols(&mut map, symbols, false)?;
    put_symbols(&mut map, symbols, true)?;
    map.into_iter().collect(alloc)
}

/// How many bytes a function or a label has, before those that are behind it in the order of addresses: a label goes up
/// to the next one.
pub(crate) fn size_at(address: u64, named: Named, after: &[(u64, Named)]) -> u64
    ensures { result ≡ meant.size_at address named after.now }
{
    if named.is_function {
        return named.size;
    }
    match after.first() {
        Some(next) => next.0.saturating_sub(address),
        None => 0,
    }
}
