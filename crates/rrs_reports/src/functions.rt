//! The functions of an executable, by the units of code that belong to each.

use crate::names::SHOWN_BYTES;
use rrs_elf::{CodeUnit, Symbol, Symbols};
use std::alloc::AllocError;

/// A function, or a label of assembly with what follows it.
#[derive(Clone, Copy)]
pub struct Function<'a> {
    /// Its name, of which no more bytes are kept than tell that it is not shown to its end.
    pub name: &'a [u8],
    /// The address of its first instruction.
    pub start: u32,
    /// The address after its last one.
    pub end: u32,
    /// Whether its size is known. If not, it goes on up to the next function.
    pub is_sized: bool,
}

/// The bytes of the name of a symbol that are shown, and one more, if there are more.
pub fn shown_part<'a>(symbols: &Symbols<'a>, index: u32) -> Option<&'a [u8]> {
    symbols.name_up_to(index, SHOWN_BYTES + 1)
}

/// How well a symbol names an address, whose name begins so: the highest is taken, and of equal
/// ones the first. 0 is for symbols that name none.
fn rank(symbol: &Symbol, name: &[u8], unit: CodeUnit) -> u8 {
    let has_section = symbol.section > 0 && symbol.section < 0xff00;
    let is_mapping = matches!(name, [b'$', ..] | []);
    if !has_section || is_mapping || !unit.begins_at(symbol.value) {
        return 0;
    }
    let is_local = symbol.binding() == 0;
    match symbol.kind() {
        2 if !is_local => 4,
        2 => 3,
        0 if !is_local => 2,
        0 => 1,
        _ => 0,
    }
}

/// The rank of the symbol of a number less 1, 0 where there is none.
fn rank_of(symbols: &Symbols<'_>, number: u32, unit: CodeUnit) -> u8 {
    let index = number.wrapping_sub(1);
    match (symbols.symbol(index), symbols.name_up_to(index, 1)) {
        (Some(symbol), Some(name)) => rank(&symbol, name, unit),
        _ => 0,
    }
}

/// Gives each unit from `base` on, whose names are 0, 1 and the number of the symbol that names its
/// address, if there is one.
pub fn name_units(names: &mut [u32], symbols: &Symbols<'_>, base: u32, unit: CodeUnit) {
    for index in 0..symbols.count() {
        if let Some(symbol) = symbols.symbol(index) {
            let number = index.wrapping_add(1);
            let place = unit.count(symbol.value.wrapping_sub(base)) as usize;
            if let Some(best) = names.get_mut(place) {
                if rank_of(symbols, *best, unit) < rank_of(symbols, number, unit) {
                    *best = number;
                }
            }
        }
    }
}

/// Adds the functions, in the order of their addresses, and of each unit 1 and the number of the
/// function that it belongs to, or 0. A label within the range of a function begins none.
pub fn add_functions<'a>(
    functions: &mut Vec<Function<'a>>,
    owners: &mut Vec<u32>,
    symbols: Option<Symbols<'a>>,
    base: u32,
    unit: CodeUnit,
    names: &[u32],
) -> Result<(), AllocError> {
    let mut inside_until = base;
    let mut address = base;
    for name in names {
        if let Some(function) = named(symbols, *name) {
            if inside_until <= address || function.is_sized {
                functions.push(function)?;
                inside_until = function.end;
            }
        }
        owners.push(owner_of(functions, address, unit))?;
        address = address.wrapping_add(unit.bytes());
    }
    Ok(())
}

/// The function that the symbol of a number less 1 names. Where its size is not known, its end is
/// its start.
fn named(symbols: Option<Symbols<'_>>, number: u32) -> Option<Function<'_>> {
    let index = number.wrapping_sub(1);
    let symbols = symbols?;
    let symbol = symbols.symbol(index)?;
    let is_sized = symbol.kind() == 2 && symbol.size > 0;
    let size = if is_sized { symbol.size } else { 0 };
    Some(Function {
        name: shown_part(&symbols, index)?,
        start: symbol.value,
        end: symbol.value.saturating_add(size),
        is_sized,
    })
}

/// 1 and the number of the latest function, if the unit at an address belongs to it: it is within
/// its range, or the function has none and so goes on.
fn owner_of(functions: &mut Vec<Function<'_>>, address: u32, unit: CodeUnit) -> u32 {
    let count = functions.len().min(u32::MAX as usize) as u32;
    match functions.last_mut() {
        Some(function) if address < function.end => count,
        Some(function) if !function.is_sized => {
            function.end = address.saturating_add(unit.bytes());
            count
        }
        _ => 0,
    }
}
