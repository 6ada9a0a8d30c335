//! Sections: their kinds, what was made of each, and where they lie.

ghost use Rattle.std.specs.Prelude.{◌≡◌, max, ◌<◌, ◌≤◌, ◌+◌, ◌%◌, ◌^◌, ℕ, List, [], ◌∷◌, true, false, OnOk, IfOk, IfSome, All, length};
ghost use Rattle.rrs_asm.specs.Source.{Item, is_laid_out};
ghost use Rattle.rrs_asm.specs.Names.{IsNamed};
ghost use Rattle.rrs_asm.specs.Sections.{flat, is_data, data_address, filled_end, start_behind, is_name_of, ends_name, kind_of_name, HasItsKind, IsBehind, AreBehind, ArePlaced};
ghost use Rattle.rrs_asm.specs.Forms.{Grows, IsNew};

use crate::output::{Assembled, Label};
use crate::statements::Statement;
use rrs_asm_lines::{Halt, Known, LineError, SourceErrorKind};
use std::alloc::{AllocError, Allocator, Global};

/// What a section holds, and so where it lies: the sections of a kind lie one after the other, and
/// the kinds in this order.
#[derive(Clone, Copy)]
pub enum SectionKind {
    /// Instructions.
    Code,
    /// Data that is not written.
    ReadOnly,
    /// Data.
    Data,
    /// Data that is zero at first.
    Zero,
}

/// Where sections lie.
#[derive(Clone, Copy)]
pub struct Layout {
    /// The address of the first section, which holds instructions.
    pub text_start: u32,
    /// The address of the first section with data that can be written. Where there is none, it is a
    /// multiple of `page` after the sections before.
    pub data_start: Option<u32>,
    /// The distance from one page to the next, a power of 2.
    pub page: u32,
}

impl Layout {
    /// All sections one after the other from an address on.
    pub fn flat(text: u32) -> Self
        ensures { result ≡ flat text }
    {
        Layout {
            text_start: text,
            data_start: None,
            page: 1,
        }
    }
}

/// A section, and what is made of the items in it.
#[derive(Drop)]
pub struct Section<'a, A: Allocator = Global> {
    /// Its name.
    pub name: &'a [u8],
    /// What it holds.
    pub kind: SectionKind,
    /// The address of its first byte.
    pub address: u32,
    /// The greatest alignment in it, a power of 2.
    pub alignment: u32,
    /// Whether compressed instructions can stand in it: one does, or `.option rvc`.
    pub takes_compressed: bool,
    /// What is made of the items in it.
    pub made: Assembled<'a, A>,
    /// How many bytes it had in the reading before.
    before: usize,
}

impl<'a, A: Allocator + Copy> Section<'a, A> {
    /// An empty section at an address.
    pub fn new(alloc: A, name: &'a [u8], kind: SectionKind, alignment: u32, address: u32) -> Self {
        Section {
            name,
            kind,
            address,
            alignment,
            takes_compressed: false,
            made: Assembled::new(alloc),
            before: 0,
        }
    }
}

impl<'a, A: Allocator> Section<'a, A> {
    /// The address of what comes next in it.
    pub fn here(&self) -> u32
        ensures { result ≡ (self.now.address + length self.now.made.bytes.items) % 2 ^ 32 }
    {
        self.address
            .wrapping_add((self.made.bytes.len() % 0x1_0000_0000) as u32)
    }

    /// Asks for an alignment.
    pub fn align(&mut self, alignment: u32)
        ensures items { Grows [] self.old self.new }
        ensures alignment { self.new.alignment ≡ max self.old.alignment alignment }
        ensures kind { self.new.kind ≡ self.old.kind }
        ensures address { self.new.address ≡ self.old.address }
    {
        if alignment > self.alignment {
            self.alignment = alignment;
        }
    }

    /// Takes compressed instructions.
    pub fn take_compressed(&mut self)
        ensures items { Grows [] self.old self.new }
    {
        self.takes_compressed = true;
    }

    /// Goes on at the next multiple of 4.
    pub fn realign(&mut self) {
        let length = self.made.bytes.len().saturating_add(3) / 4 * 4;
        let _ = self.made.bytes.resize(length, 0);
    }

    /// Takes what was made out again, before the source is read once more.
    pub fn clear(&mut self)
        ensures items { IsNew self.new }
        ensures name { self.new.name ≡ self.old.name }
        ensures kind { self.new.kind ≡ self.old.kind }
        ensures address { self.new.address ≡ self.old.address }
        ensures alignment { self.new.alignment ≡ self.old.alignment }
    {
        self.before = self.made.bytes.len();
        self.made.labels.clear();
        self.made.placed.clear();
        self.made.bytes.clear();
    }

    /// Puts a label of a line after what is there, if its name stands for this address.
    pub fn put_label(
        &mut self,
        line: usize,
        name: &'a [u8],
        known: Known,
        start: LineError,
    ) -> Result<(), Halt>
        ensures { OnOk result (Grows (Item.Label line name.now ∷ []) self.old self.new) }
    {
        let address = self.here();
        match known {
            Known::Now(value) if value == u64::from(address) => (),
            _ => return Err(Halt::Error(start.with_kind(SourceErrorKind::Moved))),
        }
        let label = Label {
            line,
            name,
            address,
        };
        Ok(self.made.labels.push(label)?)
    }

    /// Puts a statement after what is there. Its data are given, if it has some.
    pub fn put(
        &mut self,
        line: usize,
        statement: Statement,
        data: &[u8],
        start: LineError,
    ) -> Result<(), Halt>
        ensures { OnOk result ((name : List ℕ) → IsNamed name statement
            → Grows (Item.Laid line name ∷ []) self.old self.new) }
    {
        if matches!(self.kind, SectionKind::Zero) && !statement.is_zero(data) {
            return Err(Halt::Error(start.with_kind(SourceErrorKind::Zeros)));
        }
        self.takes_compressed = self.takes_compressed || statement.is_short();
        if self.here() % statement.alignment(self.unit()) != 0 {
            return Err(Halt::Error(start.with_kind(SourceErrorKind::Misplaced)));
        }
        let size = self.made.bytes.len().saturating_add(statement.size());
        if u64::from(self.address).saturating_add(size as u64) > 1 << 32 {
            return Err(Halt::Error(start.with_kind(SourceErrorKind::TooLong)));
        }
        self.made.place(self.address, line, statement, data)
    }

    /// What the addresses of instructions are multiples of.
    fn unit(&self) -> u32
        ensures { 0 < result }
    {
        if self.takes_compressed { 2 } else { 4 }
    }

    /// How many bytes the next multiple of an alignment is away.
    pub fn padding(&self, alignment: u32) -> u32 {
        0u32.wrapping_sub(self.here())
            .checked_rem(alignment)
            .unwrap_or(0)
    }

    /// Gives it its address after another one. None: it does not end within the addresses.
    fn place_behind(&mut self, before: Option<Extent>, layout: Layout) -> Option<Extent> {
        let (kind, alignment) = (self.kind, self.alignment);
        let start = match before {
            None => u64::from(layout.text_start),
            Some(extent) => extent.start_behind(kind, alignment, layout)?,
        };
        let end = start.checked_add(self.made.bytes.len() as u64)?;
        if end > 1 << 32 {
            return None;
        }
        self.address = (start % 0x1_0000_0000) as u32;
        Some(Extent {
            kind,
            alignment,
            start,
            end,
        })
    }
}

/// Whether a section of this name is laid out: it holds neither debugging data nor notes.
pub fn is_laid_out(name: &[u8]) -> bool
    ensures { result ≡ is_laid_out name.now }
{
    !name.starts_with(b".debug")
        && !name.starts_with(b".note")
        && !name.starts_with(b".comment")
        && !name.starts_with(b".eh_frame")
        && !name.starts_with(b".gnu")
        && !name.starts_with(b".riscv")
        && !name.starts_with(b".stab")
}

/// The kind of a section by its name, if that says it.
pub fn kind_of_name(name: &[u8]) -> Option<SectionKind>
    ensures { result ≡ kind_of_name name.now }
{
    if is_name_of(b".text", name) {
        Some(SectionKind::Code)
    } else if is_name_of(b".rodata", name) || is_name_of(b".srodata", name) {
        Some(SectionKind::ReadOnly)
    } else if is_name_of(b".data", name) || is_name_of(b".sdata", name) {
        Some(SectionKind::Data)
    } else if is_name_of(b".bss", name) || is_name_of(b".sbss", name) {
        Some(SectionKind::Zero)
    } else {
        None
    }
}

/// Whether a name is this one, or goes on after it with a dot.
fn is_name_of(first: &[u8], name: &[u8]) -> bool
    ensures { result ≡ is_name_of first.now name.now }
{
    name.starts_with(first) && ends_name(&name[first.len()..])
}

/// Whether a text is nothing, or begins with a dot.
fn ends_name(text: &[u8]) -> bool
    ensures { result ≡ ends_name text.now }
{
    match text {
        [] => true,
        [byte, ..] => *byte == b'.',
    }
}

/// Whether a section is of another kind than its name says.
pub fn has_wrong_kind<A: Allocator>(sections: &[Section<A>]) -> bool
    ensures { result ≡ false → All HasItsKind sections.now }
{
    for section in sections {
        if !has_its_kind(section) {
            return true;
        }
    }
    false
}

/// Whether a section is of the kind that its name says, if it says one.
fn has_its_kind<A: Allocator>(section: &Section<A>) -> bool
    ensures { result ≡ true → HasItsKind section.now }
{
    is_of_kind(section.kind, kind_of_name(section.name))
}

/// Whether a kind is the one that a name says, if it says one.
fn is_of_kind(kind: SectionKind, said: Option<SectionKind>) -> bool
    ensures { result ≡ true → IfSome said (λ own. kind ≡ own) }
{
    match (kind, said) {
        (SectionKind::Code, Some(SectionKind::Code))
        | (SectionKind::ReadOnly, Some(SectionKind::ReadOnly))
        | (SectionKind::Data, Some(SectionKind::Data))
        | (SectionKind::Zero, Some(SectionKind::Zero)) => true,
        (_, said) => said.is_none(),
    }
}

/// What a section takes.
#[derive(Clone, Copy)]
struct Extent {
    /// Its kind.
    kind: SectionKind,
    /// Its alignment.
    alignment: u32,
    /// Where it begins.
    start: u64,
    /// Where it ends.
    end: u64,
}

impl Extent {
    /// Where the first section with data lies after it. None: its own address is too low, or
    /// there is none.
    fn data_address(self, end: u64, layout: Layout) -> Option<u64>
        ensures { IfSome result (λ start. start ≡ data_address layout end) }
    {
        match layout.data_start {
            None => end.checked_next_multiple_of(u64::from(layout.page)),
            Some(data) if u64::from(data) >= end => Some(u64::from(data)),
            Some(_) => None,
        }
    }

    /// Where what follows can lie. GNU `as` fills instructions up to the alignment of their
    /// section.
    fn filled_end(self) -> Option<u64>
        ensures { IfSome result (λ end. end ≡ filled_end self.kind self.alignment self.end) }
    {
        match self.kind {
            SectionKind::Code => self.end.checked_next_multiple_of(u64::from(self.alignment)),
            _ => Some(self.end),
        }
    }

    /// Where a section of a kind and an alignment begins after it. None: there is no such address.
    fn start_behind(self, kind: SectionKind, alignment: u32, layout: Layout) -> Option<u64>
        ensures { IfSome result (λ start. start
            ≡ start_behind layout self.kind self.alignment self.end kind alignment) }
    {
        let end = self.filled_end()?;
        let start = if is_data(kind) && !is_data(self.kind) {
            self.data_address(end, layout)?
        } else {
            end
        };
        start.checked_next_multiple_of(u64::from(alignment))
    }
}

/// Whether a section holds data that can be written.
fn is_data(kind: SectionKind) -> bool
    ensures { result ≡ is_data kind }
{
    matches!(kind, SectionKind::Data | SectionKind::Zero)
}

/// Whether sections lie as a layout says.
pub fn are_placed<'a, 'b, A: Allocator>(sections: &'b [Section<'a, A>], layout: Layout) -> bool
    ensures { result ≡ true → ArePlaced layout sections.now }
{
    match sections {
        [first, others @ ..] => {
            first.address == layout.text_start && are_behind(first, others, layout)
        }
        [] => false,
    }
}

/// Whether each section lies after the one before it as a layout says, the first after another.
fn are_behind<'a, 'b, A: Allocator>(
    first: &'b Section<'a, A>,
    others: &'b [Section<'a, A>],
    layout: Layout,
) -> bool
    ensures { result ≡ true → AreBehind layout first.now others.now }
{
    match others {
        [section, others @ ..] => {
            is_behind(first, section, layout) && are_behind(section, others, layout)
        }
        [] => true,
    }
}

/// Whether a section lies after another as a layout says.
fn is_behind<A: Allocator>(before: &Section<A>, section: &Section<A>, layout: Layout) -> bool
    ensures { result ≡ true → IsBehind layout before.now section.now }
{
    let start = u64::from(before.address);
    let end = start.saturating_add(before.made.bytes.len() as u64);
    let extent = Extent {
        kind: before.kind,
        alignment: before.alignment,
        start,
        end,
    };
    match extent.start_behind(section.kind, section.alignment, layout) {
        Some(start) => u64::from(section.address) == start && end <= start,
        None => false,
    }
}

/// Gives each section its address, by the bytes that it has. Those that are left empty after the
/// last address are taken out. Whether all others end within the addresses.
pub fn place<'a, A: Allocator>(sections: &mut Vec<Section<'a, A>, A>, layout: Layout) -> bool {
    let mut before = None;
    let mut count = 0;
    for (index, section) in sections.iter_mut().enumerate() {
        match section.place_behind(before, layout) {
            Some(extent) if extent.start < 1 << 32 => {
                before = Some(extent);
                count = index + 1;
            }
            Some(_) => (),
            None => return false,
        }
    }
    sections.truncate(count);
    true
}

/// Whether each section has as many bytes as in the reading before.
pub fn are_steady<A: Allocator>(sections: &[Section<A>]) -> bool {
    for section in sections {
        if section.made.bytes.len() != section.before {
            return false;
        }
    }
    true
}

/// Takes out what was made of each section.
pub fn clear_all<A: Allocator>(sections: &mut Vec<Section<A>, A>)
    ensures { All IsNew sections.new.items }
{
    for index in 0..sections.len() {
        if let Some(section) = sections.get_mut(index) {
            section.clear();
        }
    }
}

/// Puts an empty section at an address after those of its kind and of the kinds before. Which one
/// of them it is then.
pub fn insert<'a, A: Allocator + Copy>(
    alloc: A,
    name: &'a [u8],
    kind: SectionKind,
    address: u32,
    sections: &mut Vec<Section<'a, A>, A>,
) -> Result<usize, AllocError> {
    let index = index_behind(kind, sections);
    let alignment = match kind {
        SectionKind::Code => 4,
        _ => 1,
    };
    let section = Section::new(alloc, name, kind, alignment, address);
    sections.insert(index, section)?;
    Ok(index)
}

/// Which section is the first one of a kind after a kind: as many as there are where none is.
fn index_behind<A: Allocator>(kind: SectionKind, sections: &[Section<A>]) -> usize
    ensures { result ≤ length sections.now }
{
    for (index, section) in sections.iter().enumerate() {
        if section.kind as u8 > kind as u8 {
            return index;
        }
    }
    sections.len()
}

/// The name and the kind of each section that every source has.
const FIRST_SECTIONS: [(&[u8], SectionKind); 4] = [
    (b".text", SectionKind::Code),
    (b".data", SectionKind::Data),
    (b".bss", SectionKind::Zero),
    (b"COMMON", SectionKind::Zero),
];

/// Puts the sections that every source has, at the addresses that are said.
pub fn insert_first<'a, A: Allocator + Copy>(
    alloc: A,
    layout: Layout,
    sections: &mut Vec<Section<'a, A>, A>,
) -> Result<(), AllocError> {
    for (name, kind) in &FIRST_SECTIONS {
        let address = match kind {
            SectionKind::Code => layout.text_start,
            SectionKind::Data => layout.data_start.unwrap_or(0),
            SectionKind::ReadOnly | SectionKind::Zero => 0,
        };
        let _ = insert(alloc, *name, *kind, address, sections)?;
    }
    Ok(())
}
