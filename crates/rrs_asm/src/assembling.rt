//! The readings of a source.

ghost use Rattle.std.specs.Prelude.{◌≡◌, ◌<◌, ℕ, List, [], ◌∷◌, All, IfOk, Ok, true, false, length, codes};
ghost use Rattle.rrs_asm_lines.specs.Lines.{Part, shown, word, parts};
ghost use Rattle.rrs_asm.specs.Names.{is_one_of, fill_names, IsNamed};
ghost use Rattle.rrs_asm.specs.Source.{Item, is_laid_out, items_of, items_in, items_named, items_behind, items_in_statement, items_of_parts};
ghost use Rattle.rrs_asm.specs.Sections.{names_of, index_of, first_open, in_common, AreMade, AreLaidOut, AllFound, ArePlaced, HasItsKind};
ghost use Rattle.rrs_asm.specs.Forms.{items_of_read, HasItsName, IsNoSection, IsNew, IsGood, IsRead, ReadsOn, AreAssembled};

use crate::directives::{Common, Read, read_directive};
use crate::errors::{SourceError, SourceFault};
use crate::instructions::read_instruction;
use crate::output::MOST_BYTES;
use crate::program::Program;
use crate::sections::{
    Layout, Section, SectionKind, are_placed, are_steady, clear_all, has_wrong_kind, insert,
    insert_first, is_laid_out, place,
};
use crate::statements::Statement;
use rrs_asm_lines::{
    Halt, Known, Line, LineError, Notes, Part, Pass, Scope, Site, SourceErrorKind, Symbols,
    begins_with, behind_blanks, first_line, first_part, is_name, split_word,
};
use std::alloc::{Allocator, Global};

/// What the readings for what symbols stand for may cost while branches grow and shrink, and as
/// much again while they only grow: the bytes that are read and laid out.
const MOST_READ: usize = 1 << 26;

/// What each of them costs at least, where the length of a branch changes.
const LEAST_COST: usize = MOST_READ / 1000;

/// What each of them costs at most, and where no such length changes.
const MOST_COST: usize = MOST_READ / 25;

/// The most sections of a source.
const MOST_SECTIONS: usize = 256;

/// Assembles a source, whose sections lie as the layout says.
///
/// A source is a list of items: directives that open a section, labels, and statements that lay
/// bytes out (`items_of`). What is made of each section is made of the items in it, in their order:
/// of each label and of each statement, with its line, its name and its address, from the address
/// of the section on (`items`). The statements stand one after the other (`laid_out`). Each
/// section that is opened is there, but for those with debugging data and notes (`all_found`). Each
/// holds what its name says, where that says it (`kinds`): instructions, data that is not written,
/// data, or zeros. Each begins where the layout says: the first at its address, and each other
/// after the one before (`placed`).
///
/// # Errors
///
/// `SourceFault::Errors`, each with its line and column, and `SourceFault::OutOfMemory`.
pub fn assemble_source<A: Allocator + Copy>(
    alloc: A,
    source: &[u8],
    layout: Layout,
) -> Result<Program<'_, A>, SourceFault<A>>
    ensures items { IfOk result (λ program. AreMade (items_of source.now) program.sections.items) }
    ensures laid_out { IfOk result (λ program. AreLaidOut program.sections.items) }
    ensures all_found { IfOk result (λ program. AllFound (names_of program.sections.items)
        (Item.Section (codes ".text") ∷ items_of source.now)) }
    ensures kinds { IfOk result (λ program. All HasItsKind program.sections.items) }
    ensures placed { IfOk result (λ program. ArePlaced layout program.sections.items) }
{
    let mut symbols = Symbols::new(alloc);
    let mut reading = Reading::new(alloc);
    read_all(source, layout, &mut symbols, &mut reading);
    reading.outcome()
}

/// Reads a source three times: for the sizes of the sections, for what symbols stand for, and for
/// the statements; more often while the lengths of branches change. One with `%pcrel_hi` is read
/// once more before the last time, for how far each of them reaches: a `%pcrel_lo` may stand before
/// it.
fn read_all<'a, A: Allocator + Copy>(
    source: &'a [u8],
    layout: Layout,
    symbols: &mut Symbols<'a, A>,
    reading: &mut Reading<'a, A>,
)
    ensures { IsGood reading.new
        → AreAssembled layout (items_of source.now) reading.new.sections.items }
{
    reading.begin_first(layout);
    read_source(source, symbols, reading);
    if !place(&mut reading.sections, layout) {
        reading.errors.clear();
        return reading.tell(TOO_LONG);
    }
    if !settle(source, layout, symbols, reading) {
        reading.errors.clear();
        return reading.tell(TOO_LONG);
    }
    if symbols.has_distances() {
        read_again(source, Pass::Third, symbols, reading);
    }
    read_again(source, Pass::Last, symbols, reading);
    if reading.errors.is_empty() && !is_right(&reading.sections, layout, symbols.is_moved()) {
        reading.tell(MOVED_END);
    }
}

/// Reads the source for what symbols stand for, until each label stays where it is in its section:
/// a branch whose target is out of reach is longer, which may put others out of reach. Where that
/// does not end, since an alignment gives back what a branch takes, branches only grow from then
/// on. The sections are placed anew each time. Whether all end within the addresses.
fn settle<'a, A: Allocator + Copy>(
    source: &'a [u8],
    layout: Layout,
    symbols: &mut Symbols<'a, A>,
    reading: &mut Reading<'a, A>,
) -> bool {
    let mut left = 2 * MOST_READ;
    for _ in 0..u64::MAX {
        symbols.only_grows = left <= MOST_READ;
        read_again(source, Pass::Second, symbols, reading);
        left = left.saturating_sub(cost(source, reading.total, symbols.has_changed()));
        if left == 0 || !symbols.is_moved() && are_steady(&reading.sections) {
            break;
        }
        if !place(&mut reading.sections, layout) {
            return false;
        }
    }
    true
}

/// What a reading costs.
fn cost(source: &[u8], total: usize, has_changed: bool) -> usize {
    if has_changed {
        source
            .len()
            .saturating_add(total)
            .clamp(LEAST_COST, MOST_COST)
    } else {
        MOST_COST
    }
}

/// Whether no label is moved, each section has as many bytes as in the reading before, holds what
/// its name says and lies where the layout says, and `.text` is one of them.
fn is_right<A: Allocator>(sections: &[Section<A>], layout: Layout, is_moved: bool) -> bool
    ensures found { result ≡ true → first_open (names_of sections.now) < length sections.now }
    ensures kinds { result ≡ true → All HasItsKind sections.now }
    ensures placed { result ≡ true → ArePlaced layout sections.now }
{
    !is_moved
        && !has_wrong_kind(sections)
        && section_named(sections, b".text") < sections.len()
        && are_steady(sections)
        && are_placed(sections, layout)
}

/// Reads all lines once more.
fn read_again<'a, A: Allocator + Copy>(
    source: &'a [u8],
    pass: Pass,
    symbols: &mut Symbols<'a, A>,
    reading: &mut Reading<'a, A>,
)
    ensures { IsGood reading.new
        → (names : List (List ℕ)) × IsRead names (items_of source.now) reading.new }
{
    symbols.begin(pass);
    reading.begin();
    read_source(source, symbols, reading);
}

/// The mistake where the last reading ends at another address than the one before.
const MOVED_END: SourceError = SourceError {
    line: 1,
    column: 1,
    kind: SourceErrorKind::Moved,
};

/// The mistake where the sections don't end within the addresses.
const TOO_LONG: SourceError = SourceError {
    line: 1,
    column: 1,
    kind: SourceErrorKind::TooLong,
};

/// How far a reading of the source has come, and what is wrong with the source.
#[derive(Drop)]
pub struct Reading<'a, A: Allocator = Global> {
    /// Where its memory is from.
    alloc: A,
    /// The sections, in the order of their kinds, as far as they were read.
    sections: Vec<Section<'a, A>, A>,
    /// Which of them is open. None of them: what follows is not laid out.
    current: usize,
    /// How many bytes all statements so far take.
    total: usize,
    /// Whether it is the first one, in which sections are opened that were not there.
    is_first: bool,
    /// The first mistake of the line that is read, or that memory is missing.
    halt: Option<Halt>,
    /// The mistakes of the lines before, the first one of each.
    errors: Vec<SourceError, A>,
}

impl<'a, A: Allocator + Copy> Reading<'a, A> {
    /// Nothing.
    fn new(alloc: A) -> Self {
        Reading {
            alloc,
            sections: Vec::new(alloc),
            current: 0,
            total: 0,
            is_first: true,
            halt: None,
            errors: Vec::new(alloc),
        }
    }

    /// Begins the first reading.
    fn begin_first(&mut self, layout: Layout) {
        if insert_first(self.alloc, layout, &mut self.sections).is_err() {
            self.halt = Some(Halt::OutOfMemory);
        }
    }

    /// Opens a section that is not there, after those of its kind. In the first reading that is a
    /// new one, and later one that was left after the last address.
    fn open_new(&mut self, name: &'a [u8], kind: Option<SectionKind>, start: LineError)
        ensures { IsGood self.new → ⊥ }
    {
        if !self.is_first {
            return self.fail(start.with_kind(SourceErrorKind::TooLong));
        }
        match kind {
            Some(kind) if self.sections.len() < MOST_SECTIONS => {
                match insert(self.alloc, name, kind, 0, &mut self.sections) {
                    Ok(index) => self.current = index,
                    Err(_) => self.halt = Some(Halt::OutOfMemory),
                }
            }
            _ => self.fail(start.with_kind(SourceErrorKind::Sections)),
        }
    }
}

impl<'a, A: Allocator> Reading<'a, A> {
    /// Begins another reading: nothing is made of the sections, and `.text` is open.
    fn begin(&mut self)
        ensures sections { All IsNew self.new.sections.items }
        ensures current { self.new.current ≡ first_open (names_of self.new.sections.items) }
    {
        clear_all(&mut self.sections);
        self.current = section_named(&self.sections, b".text");
        self.total = 0;
        self.is_first = false;
        self.errors.clear();
    }

    /// What the readings come to: the sections, or what is wrong with the source.
    fn outcome(self) -> Result<Program<'a, A>, SourceFault<A>>
        ensures { IfOk result (λ program. IsGood self.entry
            × (program.sections.items ≡ self.entry.sections.items)) }
    {
        if self.halt.is_some() {
            return Err(SourceFault::OutOfMemory);
        }
        if self.is_first || !self.errors.is_empty() {
            return Err(SourceFault::Errors(self.errors));
        }
        Ok(Program {
            sections: self.sections,
        })
    }

    /// Where the next statement stands.
    fn site(&self) -> Site<'a> {
        match self.sections.get(self.current) {
            Some(section) => Site {
                here: section.here(),
                section: section.name,
                start: section.address,
                is_code: matches!(section.kind, SectionKind::Code),
                is_skipped: false,
            },
            None => Site {
                here: 0,
                section: &[],
                start: 0,
                is_code: false,
                is_skipped: true,
            },
        }
    }

    /// Keeps a mistake of the line, if it is the first one.
    fn fail(&mut self, error: LineError)
        ensures { IsGood self.new → ⊥ }
    {
        self.keep(Err(Halt::Error(error)));
    }

    /// Keeps what went wrong, if nothing did before.
    fn keep(&mut self, done: Result<(), Halt>)
        ensures { IsGood self.new → (done ≡ Ok tt) × (self.new ≡ self.old) }
    {
        if let (Err(halt), None) = (done, self.halt) {
            self.halt = Some(halt);
        }
    }

    /// Keeps a mistake with its place in the source.
    fn tell(&mut self, error: SourceError)
        ensures { IsGood self.new → ⊥ }
    {
        if self.errors.push(error).is_err() {
            self.halt = Some(Halt::OutOfMemory);
        }
    }

    /// Ends a line, and keeps its mistake. Behind an instruction at a wrong address it goes on at a
    /// right one, so that not every instruction from there on is a mistake.
    fn end_line(&mut self, line: &[u8], number: usize)
        ensures { IsGood self.new → self.new ≡ self.old }
    {
        let Some(Halt::Error(error)) = self.halt else {
            return;
        };
        self.halt = None;
        if error.kind == SourceErrorKind::Misplaced {
            if let Some(section) = self.sections.get_mut(self.current) {
                section.realign();
            }
        }
        let told = SourceError {
            line: number,
            column: line.len().saturating_sub(error.left).saturating_add(1),
            kind: error.kind,
        };
        self.tell(told);
    }

    /// Asks for an alignment of a section, if there is one with this number.
    fn align(&mut self, index: usize, alignment: u32)
        ensures { ReadsOn [] self.old self.new }
    {
        if let Some(section) = self.sections.get_mut(index) {
            section.align(alignment);
        }
    }

    /// Takes compressed instructions in the section that is open, if one is.
    fn take_compressed(&mut self)
        ensures { ReadsOn [] self.old self.new }
    {
        if let Some(section) = self.sections.get_mut(self.current) {
            section.take_compressed();
        }
    }
}

/// Which of the sections has a name: as many as there are where none has it.
fn section_named<A: Allocator>(sections: &[Section<A>], name: &[u8]) -> usize
    ensures { result ≡ index_of name.now (names_of sections.now) }
{
    for (index, section) in sections.iter().enumerate() {
        if section.name == name {
            return index;
        }
    }
    sections.len()
}

/// Reads all lines.
fn read_source<'a, A: Allocator + Copy>(
    source: &'a [u8],
    symbols: &mut Symbols<'a, A>,
    reading: &mut Reading<'a, A>,
)
    ensures { ReadsOn (items_of source.now) reading.old reading.new }
{
    let mut data = Vec::new(reading.alloc);
    let mut number = 0usize;
    let mut rest = Some(source);
    while let Some(text) = rest {
        let (line, others) = first_line(text);
        rest = others;
        number += 1;
        read_line(line, number, symbols, reading, &mut data);
        reading.end_line(line, number);
    }
    if symbols.is_full() {
        reading.halt = Some(Halt::OutOfMemory);
    }
}

/// Reads the labels and the statements of a line. The data of a statement are put in the place of
/// those that were there.
fn read_line<'a, A: Allocator + Copy>(
    line: &'a [u8],
    number: usize,
    symbols: &mut Symbols<'a, A>,
    reading: &mut Reading<'a, A>,
    data: &mut Vec<u8, A>,
)
    ensures { ReadsOn (items_of_parts number (parts line.now)) reading.old reading.new }
{
    let mut rest = Some(line);
    while let Some(text) = rest {
        let (part, others) = first_part(text);
        let behind = text.len().saturating_sub(part.text().len());
        let start = error_before(part.text(), behind);
        symbols.begin_part();
        match read_part(part, behind, &symbols.scope(), reading.site(), data) {
            Ok(read) => perform(read, data, number, start, symbols, reading),
            Err(halt) => reading.keep(Err(halt)),
        }
        rest = others;
    }
}

/// A mistake where a text begins, after blanks, with so many bytes of the line after it.
fn error_before(text: &[u8], behind: usize) -> LineError {
    LineError {
        kind: SourceErrorKind::Unknown,
        left: behind_blanks(text).len().saturating_add(behind),
    }
}

/// Reads a part of a line, with so many bytes of the line after it.
fn read_part<'a, A: Allocator>(
    part: Part<'a>,
    behind: usize,
    symbols: &Scope<'a, '_>,
    site: Site<'a>,
    data: &mut Vec<u8, A>,
) -> Result<Read<'a>, Halt>
    ensures items { (number : ℕ) → IfOk result (λ read.
        items_of_read number read ≡ items_in number (shown part.entry)) }
    ensures name { IfOk result HasItsName }
{
    match part {
        Part::Label(text) => {
            let name = label_name(text, behind)?;
            Ok(if site.is_skipped {
                Read::Skipped(name, true)
            } else {
                Read::Label(name)
            })
        }
        Part::Statement(text) => read_statement(text, behind, symbols, site, data),
    }
}

/// The name of a label, which is the whole of its text.
fn label_name(text: &[u8], behind: usize) -> Result<&[u8], LineError>
    ensures { IfOk result (λ name. name.now ≡ word text.now) }
{
    let error = error_before(text, behind);
    let (name, rest) = split_word(text);
    if !behind_blanks(rest).is_empty() {
        return Err(error_before(rest, behind).with_kind(SourceErrorKind::Character));
    }
    match name {
        [b'0'..=b'9'] => Ok(name),
        _ if is_name(name) => Ok(name),
        _ => Err(error.with_kind(SourceErrorKind::Character)),
    }
}

/// Reads a statement.
fn read_statement<'a, A: Allocator>(
    text: &'a [u8],
    behind: usize,
    symbols: &Scope<'a, '_>,
    site: Site<'a>,
    data: &mut Vec<u8, A>,
) -> Result<Read<'a>, Halt>
    ensures items { (number : ℕ) → IfOk result (λ read.
        items_of_read number read ≡ items_in_statement number text.now) }
    ensures name { IfOk result HasItsName }
{
    if behind_blanks(text).is_empty() {
        return Ok(Read::Nothing);
    }
    let error = error_before(text, behind);
    let (name, rest) = split_word(text);
    let mut line = Line::new(behind_blanks(rest), behind, symbols, site);
    let read = read_behind(&mut line, name, rest, error, data)?;
    let is_over = line.is_over();
    line.want(is_over, SourceErrorKind::More);
    match line.mistake {
        None => Ok(read),
        Some(halt) => Err(halt),
    }
}

/// Reads what stands after the first word of a statement: the value of a constant of this name, or
/// the operands of a statement.
fn read_behind<'a, A: Allocator>(
    line: &mut Line<'a, '_>,
    name: &'a [u8],
    rest: &'a [u8],
    error: LineError,
    data: &mut Vec<u8, A>,
) -> Result<Read<'a>, Halt>
    ensures items { (number : ℕ) → IfOk result (λ read.
        items_of_read number read ≡ items_behind number name.now rest.now) }
    ensures name { IfOk result HasItsName }
{
    let operands = behind_blanks(rest);
    if begins_with(operands, b'=') {
        return Ok(read_value(name, error, line));
    }
    if !operands.is_empty() && operands.len() == rest.len() {
        let kind = if name.is_empty() {
            SourceErrorKind::Character
        } else {
            error.kind
        };
        return Err(Halt::Error(error.with_kind(kind)));
    }
    read_named(line, name, rest, error, data)
}

/// Reads the equals sign and the value of a constant of this name.
fn read_value<'a>(name: &'a [u8], error: LineError, line: &mut Line) -> Read<'a>
    ensures items { (number : ℕ) → items_of_read number result ≡ [] }
    ensures name { HasItsName result }
{
    if !is_name(name) {
        line.fail(error.with_kind(SourceErrorKind::Character));
    }
    let _equals = line.next_byte();
    Read::Constant(name, line.constant())
}

/// Reads the operands of a statement of this name.
fn read_named<'a, A: Allocator>(
    line: &mut Line<'a, '_>,
    name: &'a [u8],
    operands: &'a [u8],
    error: LineError,
    data: &mut Vec<u8, A>,
) -> Result<Read<'a>, Halt>
    ensures items { (number : ℕ) → IfOk result (λ read.
        items_of_read number read ≡ items_named number name.now operands.now) }
    ensures name { IfOk result HasItsName }
{
    if name.first() == Some(&b'.') {
        return read_directive(line, name, operands, error, data);
    }
    if line.site.is_skipped {
        line.skip_all();
        return Ok(Read::Skipped(name, false));
    }
    let statement = read_instruction(line, name, error)?;
    Ok(Read::Laid(name, statement, line.notes))
}

/// Does what a part says.
fn perform<'a, A: Allocator + Copy>(
    read: Read<'a>,
    data: &[u8],
    number: usize,
    start: LineError,
    symbols: &mut Symbols<'a, A>,
    reading: &mut Reading<'a, A>,
)
    requires { HasItsName read }
    ensures { ReadsOn (items_of_read number read.entry) reading.old reading.new }
{
    match read {
        Read::Nothing => (),
        Read::Compressed => reading.take_compressed(),
        Read::Constant(name, value) => define_constant(name, value, start, symbols, reading),
        Read::Label(name) => put_label(name, number, start, symbols, reading),
        Read::Skipped(_, _) => check_skipped(start, reading),
        Read::Section(name, kind) => open(name, kind, start, reading),
        Read::Common(_, name, common) => put_common(name, common, number, start, symbols, reading),
        Read::Laid(_, statement, notes) => {
            keep_notes(notes, symbols, reading);
            put(statement, data, number, start, reading);
        }
    }
}

/// Sees that no section is open where something is left out.
fn check_skipped<A: Allocator>(start: LineError, reading: &mut Reading<A>)
    ensures { (item : Item) → IsNoSection item → ReadsOn (item ∷ []) reading.old reading.new }
{
    if reading.current < reading.sections.len() {
        reading.fail(start.with_kind(SourceErrorKind::Moved));
    }
}

/// Opens a section. One that is laid out has to be there in the last reading.
fn open<'a, A: Allocator + Copy>(
    name: &'a [u8],
    kind: Option<SectionKind>,
    start: LineError,
    reading: &mut Reading<'a, A>,
)
    ensures { ReadsOn (Item.Section name.now ∷ []) reading.old reading.new }
{
    let index = section_named(&reading.sections, name);
    reading.current = index;
    if is_missing(&reading.sections, name, index) {
        reading.open_new(name, kind, start);
    }
}

/// Whether a section is laid out, and is none of these.
fn is_missing<A: Allocator>(sections: &[Section<A>], name: &[u8], index: usize) -> bool
    ensures { result ≡ false → is_laid_out name.now ≡ true → index < length sections.now }
{
    index >= sections.len() && is_laid_out(name)
}

/// Keeps what a statement asks beside its bytes.
fn keep_notes<A: Allocator>(notes: Notes, symbols: &mut Symbols<A>, reading: &mut Reading<A>)
    ensures { ReadsOn [] reading.old reading.new }
{
    if let Some(distance) = notes.distance {
        symbols.keep_distance(reading.site().here, distance);
    }
    if let Some(branch) = notes.branch {
        symbols.keep_branch(branch);
    }
    reading.align(reading.current, notes.alignment);
}

/// Defines a constant.
fn define_constant<'a, A: Allocator>(
    name: &'a [u8],
    value: u64,
    start: LineError,
    symbols: &mut Symbols<'a, A>,
    reading: &mut Reading<'a, A>,
)
    ensures { ReadsOn [] reading.old reading.new }
{
    if let Some(kind) = symbols.define_constant(name, value) {
        reading.fail(start.with_kind(kind));
    }
}

/// Defines a label. Tells what is wrong with it, and what is known of it then.
fn define_label<'a, A: Allocator>(
    name: &'a [u8],
    site: Site<'a>,
    symbols: &mut Symbols<'a, A>,
) -> (Option<SourceErrorKind>, Known) {
    match name {
        [digit @ b'0'..=b'9'] => {
            let digit = *digit - b'0';
            symbols.define_local(digit, site);
            let found = symbols.scope().local_value(digit, true, site);
            (None, found.known)
        }
        _ => {
            let wrong = symbols.define_label(name, site);
            (wrong, symbols.scope().value_of(name, site).known)
        }
    }
}

/// Puts a label after what is in the open section, if its address is what its name stands for.
fn put_label<'a, A: Allocator>(
    name: &'a [u8],
    number: usize,
    start: LineError,
    symbols: &mut Symbols<'a, A>,
    reading: &mut Reading<'a, A>,
)
    ensures { ReadsOn (Item.Label number name.now ∷ []) reading.old reading.new }
{
    let (wrong, known) = define_label(name, reading.site(), symbols);
    if let Some(kind) = wrong {
        return reading.fail(start.with_kind(kind));
    }
    match reading.sections.get_mut(reading.current) {
        Some(section) => {
            let put = section.put_label(number, name, known, start);
            reading.keep(put);
        }
        None => reading.fail(start.with_kind(SourceErrorKind::Moved)),
    }
}

/// Puts a symbol, with bytes that are zero, after what is in `COMMON`. The section that is open
/// stays open.
fn put_common<'a, A: Allocator>(
    name: &'a [u8],
    common: Common,
    number: usize,
    start: LineError,
    symbols: &mut Symbols<'a, A>,
    reading: &mut Reading<'a, A>,
)
    ensures { (directive : List ℕ) → is_one_of fill_names directive ≡ true
        → ReadsOn (Item.Common number directive name.now ∷ []) reading.old reading.new }
{
    let current = reading.current;
    reading.current = section_named(&reading.sections, b"COMMON");
    put_symbol(name, common, number, start, symbols, reading);
    reading.current = current;
}

/// Puts a symbol, after zeros up to its alignment and before those that are its bytes, after what
/// is in the open section.
fn put_symbol<'a, A: Allocator>(
    name: &'a [u8],
    common: Common,
    number: usize,
    start: LineError,
    symbols: &mut Symbols<'a, A>,
    reading: &mut Reading<'a, A>,
)
    ensures open { IsGood reading.new → reading.old.current < length reading.old.sections.items }
    ensures items { (directive : List ℕ) → is_one_of fill_names directive ≡ true
        → ReadsOn (in_common number directive name.now) reading.old reading.new }
{
    if reading.current >= reading.sections.len() {
        return reading.fail(start.with_kind(SourceErrorKind::Sections));
    }
    let padding = align_common(common.alignment, reading);
    put(Statement::Fill(padding, 0), &[], number, start, reading);
    put_label(name, number, start, symbols, reading);
    put(Statement::Fill(common.size, 0), &[], number, start, reading);
}

/// How many bytes the open section takes up to an alignment. The section is aligned, and `.bss`
/// too, of which `COMMON` is a part in GNU `as`.
fn align_common<A: Allocator>(alignment: u32, reading: &mut Reading<A>) -> u32
    ensures { ReadsOn [] reading.old reading.new }
{
    let bss = section_named(&reading.sections, b".bss");
    reading.align(bss, alignment);
    reading.align(reading.current, alignment);
    match reading.sections.get(reading.current) {
        Some(section) => section.padding(alignment),
        None => 0,
    }
}

/// Puts a statement with its data after what is in the open section.
fn put<A: Allocator>(
    statement: Statement,
    data: &[u8],
    number: usize,
    start: LineError,
    reading: &mut Reading<A>,
)
    ensures { (name : List ℕ) → IsNamed name statement
        → ReadsOn (Item.Laid number name ∷ []) reading.old reading.new }
{
    reading.total = reading.total.saturating_add(statement.size());
    if reading.total > MOST_BYTES {
        return reading.fail(start.with_kind(SourceErrorKind::TooLong));
    }
    match reading.sections.get_mut(reading.current) {
        Some(section) => {
            let put = section.put(number, statement, data, start);
            reading.keep(put);
        }
        None => reading.fail(start.with_kind(SourceErrorKind::Moved)),
    }
}
