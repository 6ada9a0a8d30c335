//! The symbol table.

ghost use Rattle.std.specs.Prelude.{◌≡◌, ◌↔◌, ◌+◌, ◌≤◌, ◌<◌, ◌/◌, ◌%◌, ◌^◌, ℕ, length, min, IfOk, OnOk, IfErr, IsSome, IfSome, IsTrue, Ok, Err};
ghost use Rattle.std.specs.Option.{option_map};
ghost use Rattle.rrs_elf.specs.Headers.{e_shnum};
ghost use Rattle.rrs_elf.specs.Refusals.{first_refusal, checks_below};
ghost use Rattle.rrs_elf.specs.SymbolTables.{section_checks, string_checks, name_check, table_checks_of, symbol_checks, symbol_table, symbol_start, symbol_count, has_symbols, is_string_table, name_start, strings_end, IsText, IsName};
ghost use Rattle.rrs_elf.specs.Symbols.{IsSymbol};

use crate::accepting::Executable;
use crate::errors::ElfError;
use crate::numbers::{read_byte, read_half, read_word};
use crate::sections::{Section, find_symbol_table, read_section, read_section_count};

/// A symbol. The names of its fields in the ELF specification are in brackets.
#[derive(Debug, Clone, Copy)]
pub struct Symbol {
    /// Its value (`st_value`): in an executable an address.
    pub value: u32,
    /// How many bytes it has (`st_size`), 0 if that is not known.
    pub size: u32,
    /// Its type in the low four bits, and its binding in the others (`st_info`).
    pub info: u8,
    /// Its visibility in the low two bits (`st_other`).
    pub other: u8,
    /// The number of its section (`st_shndx`): 0 where it is not defined, and from 0xff00 on a
    /// special one, as 0xfff1 for an absolute value.
    pub section: u16,
}

impl Symbol {
    /// Its type: 0 for a label of assembly, 1 for data, 2 for a function, 3 for a section, 4 for
    /// the name of a source file.
    pub fn kind(&self) -> u8
        ensures { result ≡ self.now.info % 16 }
    {
        self.info % 16
    }

    /// Its binding: 0 local, 1 global, 2 weak.
    pub fn binding(&self) -> u8
        ensures { result ≡ self.now.info / 16 }
    {
        self.info / 16
    }
}

/// Refuses a file for its section headers, if it has some.
#[tactic(auto, unfolding(crate::specs::SymbolTables::section_checks))]
fn check_sections(file: &[u8]) -> Result<(), ElfError>
    ensures { result ≡ first_refusal (section_checks file.now) }
{
    let count = read_section_count(file);
    if count == 0 {
        return Ok(());
    }
    let size = read_half(file, 46);
    if size != 40 {
        return Err(ElfError::SectionHeaderSize(size));
    }
    if file.len() < (read_word(file, 32) as usize).saturating_add(40 * usize::from(count)) {
        return Err(ElfError::SectionHeadersCutShort);
    }
    Ok(())
}

/// Whether a section is one of the file's and has strings.
fn has_strings(file: &[u8], index: u32) -> bool
    ensures { result ≡ is_string_table file.now index }
{
    index < u32::from(read_section_count(file)) && read_section(file, index).kind == 3
}

/// The offset behind the last byte of a section.
fn end_of(section: &Section) -> usize
    ensures { result ≡ section.now.offset + section.now.size }
{
    (section.offset as usize).saturating_add(section.size as usize)
}

/// Refuses a symbol table for its place and its size, or for its string table.
#[tactic(auto, unfolding(crate::specs::SymbolTables::string_checks))]
fn check_strings(file: &[u8], table: u16) -> Result<(), ElfError>
    ensures { result ≡ first_refusal (string_checks file.now table) }
{
    let symbols = read_section(file, u32::from(table));
    if symbols.entry_size != 16 {
        return Err(ElfError::SymbolSize(symbols.entry_size));
    }
    if file.len() < end_of(&symbols) {
        return Err(ElfError::SymbolTableCutShort);
    }
    if !has_strings(file, symbols.link) {
        return Err(ElfError::NoStringTable(symbols.link));
    }
    let strings = read_section(file, symbols.link);
    let end = end_of(&strings);
    if file.len() < end {
        return Err(ElfError::StringTableCutShort);
    }
    if strings.size > 0 && read_byte(file, end - 1) != 0 {
        return Err(ElfError::StringTableNotEnded);
    }
    Ok(())
}

/// How many symbols a symbol table has.
pub fn read_symbol_count(file: &[u8], table: u16) -> u32
    ensures value { result ≡ symbol_count file.now table }
    ensures small { result < 2 ^ 28 }
{
    read_section(file, u32::from(table)).size / 16
}

/// Where a symbol begins.
fn start_of_symbol(file: &[u8], table: u16, index: u32) -> usize
    ensures value { result ≡ symbol_start file.now table index }
    ensures small { result < 2 ^ 39 }
{
    read_section(file, u32::from(table)).offset as usize + 16 * index as usize
}

/// The symbol of this number.
pub fn read_symbol(file: &[u8], table: u16, index: u32) -> Symbol
    ensures { IsSymbol file.now table index result }
{
    let start = start_of_symbol(file, table, index);
    Symbol {
        value: read_word(file, start + 4),
        size: read_word(file, start + 8),
        info: read_byte(file, start + 12),
        other: read_byte(file, start + 13),
        section: read_half(file, start + 14),
    }
}

/// Where the name of a symbol begins.
pub fn start_of_name(file: &[u8], table: u16, index: u32) -> usize
    ensures { result ≡ name_start file.now table index }
{
    let symbols = read_section(file, u32::from(table));
    let strings = read_section(file, symbols.link);
    (strings.offset as usize).saturating_add(
        read_word(file, start_of_symbol(file, table, index)) as usize,
    )
}

/// Refuses a symbol whose name lies outside the string table.
#[tactic(auto, unfolding(crate::specs::SymbolTables::name_check))]
fn check_name(file: &[u8], table: u16, index: u32) -> Result<(), ElfError>
    ensures { result ≡ first_refusal (name_check file.now table index) }
{
    let symbols = read_section(file, u32::from(table));
    let strings = read_section(file, symbols.link);
    if strings.size <= read_word(file, start_of_symbol(file, table, index)) {
        return Err(ElfError::NameOutside(index));
    }
    Ok(())
}

/// Refuses the first symbol whose name lies outside the string table.
fn check_names(file: &[u8], table: u16) -> Result<(), ElfError>
    ensures { result ≡ first_refusal (checks_below (name_check file.now table)
        (symbol_count file.now table)) }
{
    for index in 0..read_symbol_count(file, table) {
        check_name(file, table, index)?;
    }
    Ok(())
}

/// Refuses a symbol table.
#[tactic(auto, using(crate::proofs::CheckLists::joined))]
fn check_symbols(file: &[u8], table: u16) -> Result<(), ElfError>
    ensures { result ≡ first_refusal (table_checks_of file.now table) }
{
    check_strings(file, table)?;
    check_names(file, table)
}

/// The symbol table of an executable, which was accepted.
#[derive(Clone, Copy)]
pub struct Symbols<'a> {
    /// The bytes of the file.
    pub file: &'a [u8],
    /// The section that is the symbol table.
    pub table: u16,
    ghost accepted: { IsTrue (has_symbols file.now table) },
}

impl<'a> Executable<'a> {
    /// The symbol table, or `None` if the file has none, as after `strip`.
    ///
    /// A symbol table that can't be read is refused: see [ElfError] for the order. The executable
    /// itself is as good as before.
    #[tactic(auto, using(crate::proofs::CheckLists::joined))]
    pub fn symbols(&self) -> Result<Option<Symbols<'a>>, ElfError>
        ensures table { IfOk result (λ found.
            option_map (λ symbols. symbols.table) found ≡ symbol_table self.now.file.now) }
        ensures same { IfOk result (λ found. IfSome found (λ symbols. symbols.file.now ≡ self.now.file.now)) }
        ensures accepted { OnOk result (first_refusal (symbol_checks self.now.file.now) ≡ Ok tt) }
        ensures refused { IfErr result (λ error.
            first_refusal (symbol_checks self.now.file.now) ≡ Err error) }
    {
        check_sections(self.file)?;
        match find_symbol_table(self.file) {
            None => Ok(None),
            Some(table) => {
                check_symbols(self.file, table)?;
                Ok(Some(Symbols {
                    file: self.file,
                    table,
                }))
            }
        }
    }
}

/// The bytes of a file from a place on, up to the first 0 and not past the end that is given.
fn text_at(file: &[u8], from: usize, end: usize) -> &[u8]
    requires ordered { from ≤ end }
    requires within { end ≤ length file.now }
    ensures { IsText file.now from end result.now }
{
    for index in from..end {
        if file[index] == 0 {
            return &file[from..index];
        }
    }
    &file[from..end]
}

impl<'a> Symbols<'a> {
    /// How many symbols there are. The first is never the name of anything.
    pub fn count(&self) -> u32
        ensures { result ≡ symbol_count self.now.file.now self.now.table }
    {
        read_symbol_count(self.file, self.table)
    }

    /// The symbol of this number, or `None` from their count on.
    pub fn symbol(&self, index: u32) -> Option<Symbol>
        ensures there { IsSome result ↔ (index < symbol_count self.now.file.now self.now.table) }
        ensures value { IfSome result (IsSymbol self.now.file.now self.now.table index) }
    {
        if self.count() <= index {
            return None;
        }
        Some(read_symbol(self.file, self.table, index))
    }

    /// The name of the symbol of this number, without the 0 that ends it, or `None` from their
    /// count on. It may be empty, and need not be text.
    pub fn name(&self, index: u32) -> Option<&'a [u8]>
        ensures there { IsSome result ↔ (index < symbol_count self.now.file.now self.now.table) }
        ensures value { IfSome result (λ name. IsName self.now.file.now
            (name_start self.now.file.now self.now.table index)
            (strings_end self.now.file.now self.now.table) name.now) }
    {
        if self.count() <= index {
            return None;
        }
        let (from, end) = self.place_of_name(index);
        Some(text_at(self.file, from, end))
    }

    /// The first bytes of that name, at most so many. No others are looked at.
    pub fn name_up_to(&self, index: u32, most: usize) -> Option<&'a [u8]>
        ensures there { IsSome result ↔ (index < symbol_count self.now.file.now self.now.table) }
        ensures value { IfSome result (λ name. IsText self.now.file.now
            (name_start self.now.file.now self.now.table index)
            (min (name_start self.now.file.now self.now.table index + most)
            (strings_end self.now.file.now self.now.table)) name.now) }
    {
        if self.count() <= index {
            return None;
        }
        let (from, end) = self.place_of_name(index);
        let stop = from.saturating_add(most).min(end);
        Some(text_at(self.file, from, stop))
    }

    /// Where the name of a symbol begins in the file, and where the strings end.
    fn place_of_name(&self, index: u32) -> (usize, usize)
        requires { index < symbol_count self.now.file.now self.now.table }
        ensures start { result.0 ≡ name_start self.now.file.now self.now.table index }
        ensures end { result.1 ≡ strings_end self.now.file.now self.now.table }
        ensures ordered { result.0 < result.1 }
        ensures within { result.1 ≤ length self.now.file.now }
    {
        let symbols = read_section(self.file, u32::from(self.table));
        let strings = read_section(self.file, symbols.link);
        let start = start_of_symbol(self.file, self.table, index);
        let from = strings.offset as usize + read_word(self.file, start) as usize;
        (from, end_of(&strings))
    }
}
