//! The listing of a program.

ghost use Rattle.std.specs.Prelude.{◌<◌};

use crate::mistakes::number_of;
use rrs_asm::{Placed, Program, Section};
use std::alloc::{AllocError, Global};

/// The most rows of a statement.
const MOST_ROWS: usize = 4;

/// What each digit of a line's number stands for.
const UNITS: [usize; 6] = [100_000, 10_000, 1_000, 100, 10, 1];

/// Some bytes of a statement, at most 4, and where they stand.
#[derive(Clone, Copy)]
struct Row {
    /// The line of the statement.
    line: usize,
    /// The address of the first byte.
    address: u32,
    /// The bytes as a number, the lowest first.
    word: u32,
    /// How many bytes.
    size: usize,
}

/// The source with the addresses and the words of what stands in each line. A row is an address, 4
/// bytes from there on as a word, the number of the line, and its text. A line without bytes is a
/// row without the first two, and a line with more than 4 bytes has further rows without a text: of
/// each statement 4 rows at most. Of a source whose lines were made of others, `numbers` has the
/// number of each.
pub fn listing_of(
    alloc: Global,
    source: &[u8],
    numbers: &[usize],
    program: &Program,
) -> Result<Vec<u8>, AllocError> {
    let mut rows = Vec::new(alloc);
    for section in &program.sections {
        for placed in &section.made.placed {
            add_rows(&mut rows, section, placed)?;
        }
    }
    rows.sort_by_key(|row| row.line)?;
    let mut listing = Vec::new(alloc);
    let mut number = 0usize;
    let lines = source.strip_suffix(b"\n").unwrap_or(source);
    for line in lines.split(|byte| *byte == b'\n') {
        number = number.saturating_add(1);
        let rows = rows_of(&rows, number);
        push_line(&mut listing, line, number_of(numbers, number), rows)?;
    }
    Ok(listing)
}

/// Adds the rows of a statement.
fn add_rows(rows: &mut Vec<Row>, section: &Section, placed: &Placed) -> Result<(), AllocError> {
    let start = placed.address.saturating_sub(section.address) as usize;
    let end = start.saturating_add(placed.statement.size());
    let Some(bytes) = section.made.bytes.get(start..end) else {
        return Ok(());
    };
    let mut address = placed.address;
    for chunk in bytes.chunks(4).take(MOST_ROWS) {
        rows.push(Row {
            line: placed.line,
            address,
            word: word_of(chunk),
            size: chunk.len(),
        })?;
        address = address.wrapping_add(4);
    }
    Ok(())
}

/// Bytes as a number, the lowest first.
fn word_of(bytes: &[u8]) -> u32 {
    let mut word = 0u32;
    for byte in bytes.iter().rev() {
        word = word.wrapping_mul(256).wrapping_add(u32::from(*byte));
    }
    word
}

/// The rows of a line.
fn rows_of(rows: &[Row], number: usize) -> &[Row] {
    let (start, end) = (
        first_from(rows, number),
        first_from(rows, number.saturating_add(1)),
    );
    rows.get(start..end).unwrap_or(&[])
}

/// Where the rows of a line and of those after it begin.
fn first_from(rows: &[Row], number: usize) -> usize {
    rows.partition_point(|row| row.line < number)
}

/// Appends the rows of a line.
fn push_line(
    listing: &mut Vec<u8>,
    line: &[u8],
    number: usize,
    rows: &[Row],
) -> Result<(), AllocError> {
    let Some((first, others)) = rows.split_first() else {
        push_blanks(listing, 18)?;
        return push_text(listing, line, number);
    };
    push_row(listing, first)?;
    push_text(listing, line, number)?;
    for row in others {
        push_row(listing, row)?;
        listing.push(b'\n')?;
    }
    Ok(())
}

/// Appends the number of a line, its text and its end.
fn push_text(listing: &mut Vec<u8>, line: &[u8], number: usize) -> Result<(), AllocError> {
    listing.push(b' ')?;
    let mut is_begun = false;
    for unit in UNITS {
        let digit = (number / unit % 10) as u8;
        is_begun = is_begun || digit > 0;
        listing.push(if is_begun { b'0' + digit } else { b' ' })?;
    }
    push_blanks(listing, 2)?;
    listing.extend_from_slice(line)?;
    Ok(listing.push(b'\n')?)
}

/// Appends an address and the bytes there, in 18 columns.
fn push_row(listing: &mut Vec<u8>, row: &Row) -> Result<(), AllocError> {
    push_hexadecimal(listing, row.address, 4)?;
    push_blanks(listing, 2)?;
    push_hexadecimal(listing, row.word, row.size)?;
    for _ in row.size..4 {
        push_blanks(listing, 2)?;
    }
    Ok(())
}

/// Appends the lower bytes of a number, so many of 4, in hexadecimal.
fn push_hexadecimal(listing: &mut Vec<u8>, value: u32, size: usize) -> Result<(), AllocError> {
    let bytes = value.to_be_bytes();
    for index in 4usize.saturating_sub(size)..4 {
        listing.push(hexadecimal(bytes[index] / 16))?;
        listing.push(hexadecimal(bytes[index] % 16))?;
    }
    Ok(())
}

/// The hexadecimal digit of a number below 16.
fn hexadecimal(digit: u8) -> u8
    requires { digit < 16 }
{
    if digit < 10 {
        b'0' + digit
    } else {
        b'a' + (digit - 10)
    }
}

/// Appends so many blanks.
fn push_blanks(listing: &mut Vec<u8>, count: usize) -> Result<(), AllocError> {
    for _ in 0..count {
        listing.push(b' ')?;
    }
    Ok(())
}
