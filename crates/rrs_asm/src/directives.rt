//! Directives.

ghost use Rattle.std.specs.Prelude.{◌≡◌, ◌<◌, ◌≤◌, ℕ, true, IfOk, [], ◌∷◌};
ghost use Rattle.rrs_asm_lines.specs.Lines.{word};
ghost use Rattle.rrs_asm.specs.Names.{is_one_of, fill_names, IsNamed};
ghost use Rattle.rrs_asm.specs.Source.{Item, items_named, section_opened};
ghost use Rattle.rrs_asm.specs.Forms.{fits_placed, items_of_read, HasItsName, IsForm};

use crate::names::{DataForm, DirectiveForm, PlacedForm, directive_named, is_unsupported};
use crate::output::MOST_BYTES;
use crate::sections::{SectionKind, is_laid_out, kind_of_name};
use crate::statements::Statement;
use rrs_asm_lines::{Halt, Line, LineError, Notes, SourceErrorKind, escaped, is_name, split_word};
use std::alloc::Allocator;

/// The greatest alignment, as a power of 2.
const MOST_ALIGNED: u32 = 16;

/// What a symbol in `COMMON` takes.
#[derive(Clone, Copy)]
pub struct Common {
    /// How many bytes.
    pub size: u32,
    /// Its alignment, a power of 2.
    pub alignment: u32,
}

/// What a part of a line says.
#[derive(Clone, Copy)]
pub enum Read<'a> {
    /// A label of this name stands here.
    Label(&'a [u8]),
    /// A statement of this name is laid out here.
    Laid(&'a [u8], Statement, Notes),
    /// A constant has this value.
    Constant(&'a [u8], u64),
    /// By a directive of this name a symbol of the other has bytes in `COMMON`.
    Common(&'a [u8], &'a [u8], Common),
    /// A section of this name follows. No kind: it is not laid out.
    Section(&'a [u8], Option<SectionKind>),
    /// A label or a statement of this name stands in a section that is not laid out.
    Skipped(&'a [u8], bool),
    /// Compressed instructions can stand in this section.
    Compressed,
    /// Nothing.
    Nothing,
}

/// Reads the operands of a directive of this name, which begins with a dot. Its name stands at
/// `error`. Its data, if it has some, are put in the place of those that were there.
pub fn read_directive<'a, A: Allocator>(
    line: &mut Line<'a, '_>,
    name: &'a [u8],
    operands: &'a [u8],
    error: LineError,
    data: &mut Vec<u8, A>,
) -> Result<Read<'a>, Halt>
    ensures items { (number : ℕ) → IfOk result (λ read.
        items_of_read number read ≡ items_named number name.now operands.now) }
    ensures name { IfOk result HasItsName }
{
    let Some(form) = directive_named(name) else {
        let kind = if is_unsupported(name) {
            SourceErrorKind::Unsupported
        } else {
            error.kind
        };
        return Err(Halt::Error(error.with_kind(kind)));
    };
    match form {
        DirectiveForm::Place(_) | DirectiveForm::Refused if line.site.is_skipped => {
            line.skip_all();
            Ok(Read::Skipped(name, false))
        }
        DirectiveForm::Place(form) => {
            let statement = read_placed(line, name, form, data);
            Ok(Read::Laid(name, statement, line.notes))
        }
        _ => Ok(read_said(line, form, name, operands, error)),
    }
}

/// Reads the operands of a directive of this name and form, which puts nothing at its address.
fn read_said<'a>(
    line: &mut Line<'a, '_>,
    form: DirectiveForm,
    name: &'a [u8],
    operands: &'a [u8],
    error: LineError,
) -> Read<'a>
    requires { IsForm name.now form }
    ensures items { (number : ℕ) →
        items_of_read number result ≡ items_named number name.now operands.now }
    ensures name { HasItsName result }
{
    match form {
        DirectiveForm::Common => read_common(line, name, operands),
        DirectiveForm::Constant => read_constant(line),
        DirectiveForm::Option => read_option(line),
        DirectiveForm::Section => read_section(line, name, operands, error),
        DirectiveForm::Silent => {
            line.skip_all();
            Read::Nothing
        }
        DirectiveForm::Place(_) | DirectiveForm::Refused => {
            line.fail(error.with_kind(SourceErrorKind::Unsupported));
            Read::Skipped(name, false)
        }
    }
}

/// Reads which section follows, by the name of the directive and its operands.
fn read_section<'a>(
    line: &mut Line<'a, '_>,
    name: &'a [u8],
    operands: &'a [u8],
    error: LineError,
) -> Read<'a>
    ensures items { (number : ℕ) →
        items_of_read number result ≡ Item.Section (section_opened name.now operands.now) ∷ [] }
    ensures name { HasItsName result }
{
    if name != b".section".as_slice() {
        return Read::Section(name, kind_of_name(name));
    }
    let (section, rest) = split_word(operands);
    line.want(!section.is_empty(), SourceErrorKind::Section);
    if !is_laid_out(section) {
        line.skip_all();
        return Read::Section(section, None);
    }
    let kind = kind_of_name(section).or(kind_of_flags(rest));
    if kind.is_none() {
        line.fail(error.with_kind(SourceErrorKind::Section));
    }
    let _name = line.word();
    for _ in 0..u64::MAX {
        if !line.take(b',') {
            break;
        }
        skip_flag(line);
    }
    Read::Section(section, kind)
}

/// Takes the flags, the type, or what else stands between two commas after the name of a section.
fn skip_flag(line: &mut Line) {
    if line.take(b'"') {
        for _ in 0..u64::MAX {
            if matches!(line.next_byte(), None | Some(b'"')) {
                break;
            }
        }
    } else {
        let _type = line.take(b'@') || line.take(b'%');
        let _word = line.word();
    }
}

/// Reads a symbol in `COMMON`, with its size and its alignment. Where there is no alignment, it is
/// that of GNU `as`.
fn read_common<'a>(line: &mut Line<'a, '_>, name: &'a [u8], operands: &'a [u8]) -> Read<'a>
    ensures items { (number : ℕ) →
        items_of_read number result ≡ Item.Common number name.now (word operands.now) ∷ [] }
    ensures name { is_one_of fill_names name.now ≡ true → HasItsName result }
{
    let (symbol, rest) = split_word(operands);
    line.want(is_name(symbol), SourceErrorKind::Character);
    if line.mistake.is_none() {
        line.rest = rest;
    }
    line.comma();
    let size = read_count(line);
    let alignment = if line.take(b',') {
        alignment(line, false)
    } else {
        implied_alignment(size, name == b".lcomm".as_slice())
    };
    Read::Common(name, symbol, Common { size, alignment })
}

/// The alignment of a symbol of a size: the greatest power of 2 up to the size and 8 where it is
/// local, and else the least from the size on, or 16.
fn implied_alignment(size: u32, is_local: bool) -> u32 {
    match size {
        0 | 1 => 1,
        2 => 2,
        3 if is_local => 2,
        3 | 4 => 4,
        5..=7 if is_local => 4,
        5..=8 => 8,
        _ if is_local => 8,
        _ => 16,
    }
}

/// The kind of a section by what stands after its name, as `, "aw", @nobits`: the letters `x`, `a`
/// and `w` between quotation marks, and `@nobits`.
fn kind_of_flags(text: &[u8]) -> Option<SectionKind> {
    let (mut is_code, mut is_laid_out, mut is_written) = (false, false, false);
    let mut is_zero = false;
    let mut is_quoted = false;
    for (index, byte) in text.iter().enumerate() {
        match *byte {
            b'"' => is_quoted = !is_quoted,
            b'@' | b'%' if !is_quoted => {
                is_zero = split_word(&text[index + 1..]).0 == b"nobits".as_slice();
            }
            b'x' if is_quoted => is_code = true,
            b'a' if is_quoted => is_laid_out = true,
            b'w' if is_quoted => is_written = true,
            _ => (),
        }
    }
    match (is_code, is_laid_out) {
        (true, _) => Some(SectionKind::Code),
        (false, false) => None,
        _ if is_zero => Some(SectionKind::Zero),
        _ if is_written => Some(SectionKind::Data),
        _ => Some(SectionKind::ReadOnly),
    }
}

/// The options that mean nothing here.
const OPTIONS: [&[u8]; 6] = [b"norvc", b"relax", b"norelax", b"push", b"pop", b"nopic"];

/// Reads an option: `rvc`, or one that means nothing here. Those that would allow other
/// instructions are refused.
fn read_option<'a>(line: &mut Line<'a, '_>) -> Read<'a>
    ensures items { (number : ℕ) → items_of_read number result ≡ [] }
    ensures name { HasItsName result }
{
    line.skip_blanks();
    let error = line.error(SourceErrorKind::Unsupported);
    let option = line.word();
    if option == b"rvc".as_slice() {
        line.skip_all();
        return Read::Compressed;
    }
    if !OPTIONS.contains(&option) {
        line.fail(error);
    }
    line.skip_all();
    Read::Nothing
}

/// Reads the operands of a directive of this name that puts something at its address.
fn read_placed<A: Allocator>(
    line: &mut Line,
    name: &[u8],
    form: PlacedForm,
    data: &mut Vec<u8, A>,
) -> Statement
    requires { fits_placed name.now form ≡ true }
    ensures { IsNamed name.now result }
{
    match form {
        PlacedForm::Data(form) => {
            data.clear();
            read_bytes(line, form, data);
            Statement::Data(data.len())
        }
        PlacedForm::Space => {
            let (count, byte) = read_space(line);
            Statement::Fill(count, byte)
        }
        PlacedForm::Origin => Statement::Fill(read_origin(line), 0),
    }
}

/// Reads the operands of a directive that puts bytes at its address, and appends these.
fn read_bytes<A: Allocator>(line: &mut Line, form: DataForm, bytes: &mut Vec<u8, A>) {
    match form {
        DataForm::Numbers(bits) => read_data(line, bits, bytes),
        DataForm::Strings(is_ended) => read_strings(line, is_ended, bytes),
        DataForm::Pattern => read_pattern(line, bytes),
        DataForm::Alignment(is_power) => {
            let alignment = alignment(line, is_power);
            read_padding(line, alignment, bytes)
        }
    }
}

/// Reads the name and the value of a constant.
fn read_constant<'a>(line: &mut Line<'a, '_>) -> Read<'a>
    ensures items { (number : ℕ) → items_of_read number result ≡ [] }
    ensures name { HasItsName result }
{
    line.skip_blanks();
    let error = line.error(SourceErrorKind::Character);
    let name = line.word();
    if !is_name(name) {
        line.fail(error);
    }
    line.comma();
    Read::Constant(name, line.constant())
}

/// Reads numbers of so many bits each, with commas between them.
fn read_data<A: Allocator>(line: &mut Line, bits: u32, bytes: &mut Vec<u8, A>) {
    for _ in 0..u64::MAX {
        let value = if bits == 64 {
            line.wide_value()
        } else {
            u64::from(line.datum(bits))
        };
        let own = value.to_le_bytes();
        line.keep(bytes.extend_from_slice(&own[..(bits as usize / 8).min(8)]));
        if !line.take(b',') {
            break;
        }
    }
}

/// Reads how often a number stands, how many bytes it has, at most 8 and 1 where none is said, and
/// the number, which is 0 where none is said.
fn read_pattern<A: Allocator>(line: &mut Line, bytes: &mut Vec<u8, A>) {
    let count = read_count(line);
    let (mut size, mut value) = (1, 0);
    if line.take(b',') {
        size = known_up_to(line, 8, SourceErrorKind::Range);
        if line.take(b',') {
            value = line.value();
        }
    }
    if count as usize * size as usize > MOST_BYTES {
        line.want(false, SourceErrorKind::TooLong);
        return;
    }
    let own = u64::from(value).to_le_bytes();
    for _ in 0..count {
        line.keep(bytes.extend_from_slice(&own[..size as usize]));
    }
}

/// Reads strings with commas between them, and puts a zero byte after each if that is asked.
fn read_strings<A: Allocator>(line: &mut Line, is_ended: bool, bytes: &mut Vec<u8, A>) {
    for _ in 0..u64::MAX {
        read_string(line, bytes);
        if is_ended {
            line.keep(bytes.extend_from_slice(&[0]));
        }
        if !line.take(b',') {
            break;
        }
    }
}

/// Reads a string, and appends its bytes.
fn read_string<A: Allocator>(line: &mut Line, bytes: &mut Vec<u8, A>) {
    line.expect(b'"', SourceErrorKind::Quote);
    for _ in 0..u64::MAX {
        let plain = line.plain_text();
        line.keep(bytes.extend_from_slice(plain));
        let byte = match line.next_byte() {
            Some(b'"') => return,
            Some(b'\\') => next_escaped(line),
            byte => byte,
        };
        match byte {
            Some(byte) => line.keep(bytes.extend_from_slice(&[byte])),
            None => return line.want(false, SourceErrorKind::Quote),
        }
    }
}

/// Takes what follows a backslash: the byte that it stands for. It may be written by up to three
/// octal digits, as `\101`, or by hexadecimal ones, of which the last two count, as `\x41`.
fn next_escaped(line: &mut Line) -> Option<u8> {
    let error = line.error(SourceErrorKind::Escape);
    let value = match line.next_byte() {
        Some(digit @ b'0'..=b'7') => Some(digits_behind(line, digit - b'0', 8, 2)),
        Some(b'x' | b'X') => match line.next_digit(16) {
            Some(first) => Some(digits_behind(line, first, 16, u64::MAX)),
            None => None,
        },
        Some(byte) => escaped(byte),
        None => None,
    };
    if value.is_none() {
        line.fail(error);
    }
    value
}

/// Takes so many further digits of an escape at most, as far as they stand there. The value is
/// taken modulo 256.
fn digits_behind(line: &mut Line, first: u8, base: u8, most: u64) -> u8 {
    let mut value = first;
    for _ in 0..most {
        match line.next_digit(u64::from(base)) {
            Some(digit) => value = value.wrapping_mul(base).wrapping_add(digit),
            None => break,
        }
    }
    value
}

/// Reads how many bytes, and which byte where another than zero is meant.
fn read_space(line: &mut Line) -> (u32, u8) {
    let count = read_count(line);
    let byte = if line.take(b',') { line.datum(8) } else { 0 };
    (count, (byte % 256) as u8)
}

/// Reads a number of bytes that is known here.
fn read_count(line: &mut Line) -> u32 {
    known_up_to(line, MOST_BYTES as u32, SourceErrorKind::TooLong)
}

/// Reads a number that is known here, and is at most another one. One that is greater is a mistake
/// of this kind.
fn known_up_to(line: &mut Line, most: u32, kind: SourceErrorKind) -> u32
    ensures { result ≤ most }
{
    line.skip_blanks();
    let error = line.error(kind);
    let value = line.known_value();
    if value <= most {
        return value;
    }
    line.fail(error);
    0
}

/// Reads the address of what follows, which is no lower than that of the directive: how many bytes
/// it is after.
fn read_origin(line: &mut Line) -> u32 {
    line.skip_blanks();
    let error = line.error(SourceErrorKind::Backward);
    match line.known_value().checked_sub(line.site.here) {
        Some(count) if count as usize <= MOST_BYTES => return count,
        Some(_) => line.fail(error.with_kind(SourceErrorKind::TooLong)),
        None => line.fail(error),
    }
    0
}

/// Reads how many bytes an alignment has: a power of 2, which may be said by its exponent.
fn alignment(line: &mut Line, is_power: bool) -> u32
    ensures { 0 < result }
{
    line.skip_blanks();
    let error = line.error(SourceErrorKind::Range);
    let value = line.known_value();
    let bytes = if is_power {
        1u32.checked_shl(value).unwrap_or(0)
    } else {
        value
    };
    if bytes.is_power_of_two() && bytes <= 1 << MOST_ALIGNED {
        return bytes;
    }
    line.fail(error);
    1
}

/// Reads which byte fills up to an alignment, and how many at most: otherwise nothing is filled.
/// Between instructions there are, if no byte is said, a zero up to an even address, `c.nop` up to
/// a multiple of 4, and `nop`s.
fn read_padding<A: Allocator>(line: &mut Line, alignment: u32, bytes: &mut Vec<u8, A>)
    requires { 0 < alignment }
{
    line.notes.alignment = alignment;
    let count = 0u32.wrapping_sub(line.site.here) % alignment;
    let (fill, most) = read_fill(line);
    if most < count {
        return;
    }
    let has_nops = fill.is_none() && line.site.is_code;
    let filled = if has_nops { count % 2 } else { count };
    line.keep(bytes.resize(filled as usize, fill.unwrap_or(0)));
    if has_nops {
        append_nops(line, count, bytes);
    }
}

/// Appends `c.nop` for two bytes beside a multiple of 4, and `nop` for each four of the others.
fn append_nops<A: Allocator>(line: &mut Line, count: u32, bytes: &mut Vec<u8, A>) {
    if count % 4 >= 2 {
        line.keep(bytes.extend_from_slice(&[1, 0]));
    }
    for _ in 0..count / 4 {
        line.keep(bytes.extend_from_slice(&[0x13, 0, 0, 0]));
    }
}

/// Reads which byte fills, if one is said, and how many at most.
fn read_fill(line: &mut Line) -> (Option<u8>, u32) {
    if !line.take(b',') {
        return (None, u32::MAX);
    }
    let mut fill = None;
    let mut has_limit = line.take(b',');
    if !has_limit {
        fill = Some((line.datum(8) % 256) as u8);
        has_limit = line.take(b',');
    }
    let most = if has_limit {
        line.known_value()
    } else {
        u32::MAX
    };
    (fill, most)
}
