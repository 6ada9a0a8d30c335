//! Which function or label an address lies in.

ghost use Rattle.std.specs.Prelude.{◌≡◌, ◌+◌, ◌≤◌, ◌<◌, ◌&&◌, ◌||◌, ◌==◌, nat_lt, ℕ, true, Some, MatchOption};
ghost use Rattle.rrs_elf.specs.Headers.{e_phnum};
ghost use Rattle.rrs_elf.specs.SymbolTables.{symbol_count, st_value};
ghost use Rattle.rrs_elf.specs.Symbols.{is_function, is_label, covers, segment_below, is_before, NoneCovers, IsNearestBelow, Finds};

use crate::numbers::read_byte;
use crate::program_headers::{read_header_count, read_program_header};
use crate::segments::segment_has;
use crate::symbol_table::{Symbol, Symbols, read_symbol, read_symbol_count, start_of_name};

/// Where an address lies: in a function, or behind a function or label.
#[derive(Debug, PartialEq, Clone, Copy)]
pub struct Location {
    /// The number of the symbol.
    pub symbol: u32,
    /// How far the address is behind the symbol's.
    pub distance: u32,
    /// Whether the symbol is a function that has the address. If not, the symbol is the nearest
    /// function or label before it.
    pub is_inside: bool,
}

/// The first segment that has an address.
fn segment_at(file: &[u8], address: u32) -> Option<u16>
    ensures { result ≡ segment_below file.now address (e_phnum file.now) }
{
    for index in 0..read_header_count(file) {
        if segment_has(file, index, address) {
            return Some(index);
        }
    }
    None
}

/// Whether a symbol is defined in a section.
fn has_section(symbol: &Symbol) -> bool
    ensures { result ≡ (nat_lt 0 symbol.now.section && nat_lt symbol.now.section 0xff00) }
{
    symbol.section > 0 && symbol.section < 0xff00
}

/// Whether a symbol is a function.
fn names_function(file: &[u8], table: u16, index: u32) -> bool
    ensures { result ≡ is_function file.now table index }
{
    let symbol = read_symbol(file, table, index);
    symbol.kind() == 2 && has_section(&symbol)
}

/// Whether a symbol is a label.
fn names_label(file: &[u8], table: u16, index: u32) -> bool
    ensures { result ≡ is_label file.now table index }
{
    let symbol = read_symbol(file, table, index);
    let first = read_byte(file, start_of_name(file, table, index));
    symbol.kind() == 0 && has_section(&symbol) && first != b'$'
}

/// Whether a symbol is a function that has an address.
fn has_inside(file: &[u8], table: u16, index: u32, address: u32) -> bool
    ensures { result ≡ covers file.now table index address }
{
    let symbol = read_symbol(file, table, index);
    let end = u64::from(symbol.value) + u64::from(symbol.size);
    names_function(file, table, index) && symbol.value <= address && u64::from(address) < end
}

/// The first function that has an address.
fn find_function(file: &[u8], table: u16, address: u32) -> Option<u32>
    ensures { MatchOption result (NoneCovers file.now table address) (λ index.
        (index < symbol_count file.now table) × (covers file.now table index address ≡ true)) }
{
    for index in 0..read_symbol_count(file, table) {
        if has_inside(file, table, index, address) {
            return Some(index);
        }
    }
    None
}

/// Whether a symbol is a function or a label in a segment, at an address in it or before.
fn is_behind(file: &[u8], table: u16, segment: u16, index: u32, address: u32) -> bool
    requires { segment_below file.now address (e_phnum file.now) ≡ Some segment }
    ensures { result ≡ is_before file.now table address index }
{
    let value = read_symbol(file, table, index).value;
    (names_function(file, table, index) || names_label(file, table, index))
        && read_program_header(file, segment).address <= value
        && value <= address
}

/// Whether a symbol is nearer to an address behind both than another one, or is as near and has
/// more bytes.
fn is_nearer(symbol: &Symbol, best: &Symbol) -> bool
    ensures { result ≡ (nat_lt best.now.value symbol.now.value
        || ((symbol.now.value == best.now.value) && nat_lt best.now.size symbol.now.size)) }
{
    best.value < symbol.value || (symbol.value == best.value && best.size < symbol.size)
}

/// The nearer of two symbols, one of them if the other is not before the address. Of two at one
/// address it is the one with more bytes, or the first.
fn nearer(
    file: &[u8],
    table: u16,
    segment: u16,
    address: u32,
    best: Option<u32>,
    index: u32,
) -> Option<u32>
    requires segment { segment_below file.now address (e_phnum file.now) ≡ Some segment }
    requires before { IsNearestBelow file.now table address index best }
    ensures { IsNearestBelow file.now table address (index + 1) result }
{
    if !is_behind(file, table, segment, index, address) {
        return best;
    }
    let Some(other) = best else {
        return Some(index);
    };
    let symbol = read_symbol(file, table, index);
    let before = read_symbol(file, table, other);
    if is_nearer(&symbol, &before) {
        return Some(index);
    }
    best
}

/// The nearest function or label before an address of a segment.
fn find_nearest(file: &[u8], table: u16, segment: u16, address: u32) -> Option<u32>
    requires { segment_below file.now address (e_phnum file.now) ≡ Some segment }
    ensures { IsNearestBelow file.now table address (symbol_count file.now table) result }
{
    let mut best = None;
    for index in 0..read_symbol_count(file, table) {
        best = nearer(file, table, segment, address, best, index);
    }
    best
}

impl Symbols<'_> {
    /// The function that an address lies in, or, where no symbol says so, as with those of
    /// assembly, the nearest function or label before it in its segment.
    ///
    /// The function is one whose `st_size` bytes from its `st_value` on have the address. Of
    /// several symbols at the nearest address before it the one with the most bytes is taken, and
    /// of those that have as many the first of the table, as `addr2line` of binutils 2.40 takes it;
    /// `nm` lists all. Symbols without a section count for nothing, and neither do mapping symbols.
    pub fn function_at(&self, address: u32) -> Option<Location>
        ensures { Finds self.now.file.now self.now.table address result }
    {
        if let Some(symbol) = find_function(self.file, self.table, address) {
            let value = read_symbol(self.file, self.table, symbol).value;
            return Some(Location {
                symbol,
                distance: address - value,
                is_inside: true,
            });
        }
        let segment = segment_at(self.file, address)?;
        let symbol = find_nearest(self.file, self.table, segment, address)?;
        let value = read_symbol(self.file, self.table, symbol).value;
        Some(Location {
            symbol,
            distance: address - value,
            is_inside: false,
        })
    }
}
