//! Whether a text is what the lines of a source become.

ghost use Rattle.std.specs.Prelude.{◌≡◌, ◌≤◌, true, IfOk, IfSome, length, take};
ghost use Rattle.rrs_asm_macros.specs.Expansion.{ExpandsFirst, IsExpansion};
ghost use Rattle.rrs_asm_macros.specs.Forms.{AreCopies, Reaches, texts};
ghost use Rattle.rrs_asm_lines.specs.Lines.{lines};

use crate::repeating::{LineKind, kind_of};
use rrs_asm_lines::first_line;
use std::alloc::{AllocError, Allocator};

/// How far lines become others.
#[derive(Clone, Copy)]
enum Reach {
    /// All become so many of them.
    All(usize),
    /// Those before the end of a repetition, which has this index, become so many of them.
    Up(usize, usize),
    /// A directive stands there of which nothing is said.
    Unsaid,
    /// They become others.
    Different,
}

/// Whether a text is what the lines of a source become.
pub fn is_expansion<A: Allocator + Copy>(
    alloc: A,
    source: &[u8],
    text: &[u8],
) -> Result<bool, AllocError>
    ensures { IfOk result (λ yes. yes ≡ true → IsExpansion source.now text.now) }
{
    let rows = rows_of(alloc, source)?;
    let made = rows_of(alloc, text)?;
    Ok(is_followed(&rows, &made) || text.is_empty() && is_followed(&rows, &[]))
}

/// The lines of a text.
fn rows_of<A: Allocator + Copy>(alloc: A, text: &[u8]) -> Result<Vec<&[u8], A>, AllocError>
    ensures { IfOk result (λ rows. texts rows.items ≡ lines text.now) }
{
    let mut rows = Vec::new(alloc);
    let mut rest = Some(text);
    while let Some(left) = rest {
        let (line, others) = first_line(left);
        rows.push(line)?;
        rest = others;
    }
    Ok(rows)
}

/// Whether lines become these.
fn is_followed(rows: &[&[u8]], made: &[&[u8]]) -> bool
    ensures { result ≡ true → ExpandsFirst (texts rows.now) (texts made.now) }
{
    match follow(rows, made) {
        Reach::All(at) => at == made.len(),
        Reach::Unsaid => true,
        _ => false,
    }
}

/// How far lines become others.
fn follow(rows: &[&[u8]], made: &[&[u8]]) -> Reach
    ensures { Reaches rows.now made.now result }
{
    let mut row = 0usize;
    let mut at = 0usize;
    'line: while row < rows.len() {
        match kind_of(rows[row]) {
            LineKind::Plain => {
                if at >= made.len() || made[at] != rows[row] {
                    return Reach::Different;
                }
                row += 1;
                at += 1;
            }
            LineKind::Repeat(copies) => match follow(&rows[row + 1..], &made[at..]) {
                Reach::Up(inside, size) => match length_of(&made[at..], size, copies) {
                    Some(total) => {
                        row += inside + 2;
                        at += total;
                    }
                    None => return Reach::Different,
                },
                Reach::Unsaid => return Reach::Unsaid,
                _ => return Reach::Different,
            },
            LineKind::End => return Reach::Up(row, at),
            LineKind::Other => return Reach::Unsaid,
        }
    }
    Reach::All(at)
}

/// How many lines so many copies of the first of them are, if they stand there.
fn length_of(made: &[&[u8]], size: usize, copies: u64) -> Option<usize>
    requires { size ≤ length made.now }
    ensures { IfSome result (AreCopies made.now size copies) }
{
    if size == 0 {
        return Some(0);
    }
    let mut total = 0usize;
    for copy in 0..copies {
        if !begins_with(&made[total..], &made[..size]) {
            return None;
        }
        total += size;
    }
    Some(total)
}

/// Whether lines begin with these.
fn begins_with(rows: &[&[u8]], first: &[&[u8]]) -> bool
    ensures { result ≡ true → (length first.now ≤ length rows.now)
        × (texts (take (length first.now) rows.now) ≡ texts first.now) }
{
    if rows.len() < first.len() {
        return false;
    }
    for index in 0..first.len() {
        if rows[index] != first[index] {
            return false;
        }
    }
    true
}
