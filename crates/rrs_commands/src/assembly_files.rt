//! The files that a source names by `.incbin`.
//!
//! A statement `.incbin "NAME", SKIP, COUNT` becomes an `.ascii` with the bytes of the file, in the
//! same line. The file is looked for beside the source, or in a folder there. Another path, a link
//! that leads out of the folder, and what is no file, is refused, unless the caller allows any.

ghost use Rattle.std.specs.Prelude.{◌≡◌, true, IfOk};
ghost use Rattle.rrs_commands.specs.Files.{Includes, NamesFile};

use rrs_asm_lines::{Part, begins_with, behind_blanks, first_line, first_part, split_word};
use rrs_asm_macros::{Expanded, MOST_MADE};
use rrs_asm_output::{MOST_MISTAKES, number_of};
use rrs_reports::ShownName;
use rrs_run_commands::files::read_file;
use rrs_run_commands::places::{is_named, told_written};
use rrs_run_commands::refusal::{FileFault, Refusal, out_of_memory};
use std::alloc::{AllocError, Global};
use std::fs;
use std::io::{self, ErrorKind};
use std::rt::Files;

/// The name of the directive.
const NAME: &[u8] = b".incbin";

/// How many bytes a file counts beside its own.
const OF_FILE: usize = 1024;

/// A text with the bytes of files.
#[derive(Drop)]
struct Made {
    text: Vec<u8>,
    /// How many bytes the source has, with those of the files so far.
    size: usize,
}

/// What a statement asks for.
#[derive(Clone, Copy)]
struct Request<'a> {
    /// The name of the file.
    name: &'a [u8],
    /// How many of its bytes are left out.
    skip: usize,
    /// How many of the others are taken, if not all.
    count: Option<usize>,
}

/// Where a line of a source is told.
#[derive(Clone, Copy)]
struct Place<'a> {
    /// The path of the source.
    path: &'a str,
    /// Whether it may name files by any path.
    has_any_file: bool,
    /// The path of the file that is written, if one is. The source may not name it.
    output: Option<&'a str>,
    /// The number of the line.
    line: usize,
    /// The column of the statement.
    column: usize,
}

/// A text with the bytes of the files that it names, which lie beside the source, or where any path
/// is allowed anywhere. One that names none is as it was. Mistakes are printed.
///
/// # Errors
///
/// `Refusal::SourceErrors` where a file can't be read, is not named as it has to be, or is the one
/// that is written; out of memory as a failure.
pub fn with_files<'a, 'p, H: Files + Eprint + AllocGlobal>(
    rt: &H,
    path: &'p str,
    expanded: Expanded,
    has_any_file: bool,
    output: Option<&'p str>,
) -> Result<Expanded, Refusal<'a>>
    ensures { IfOk result (λ made. Includes expanded.text.items made.text.items) }
{
    if !names_file(&expanded.text) {
        return Ok(expanded);
    }
    let text = text_with_files(rt, path, &expanded, has_any_file, output)?;
    let lines = expanded.lines;
    Ok(Expanded { text, lines })
}

/// The text with the bytes of its files. The first 20 lines with mistakes are told, up to the one
/// whose file is too much.
fn text_with_files<'a, 'p, H: Files + Eprint + AllocGlobal>(
    rt: &H,
    path: &'p str,
    expanded: &Expanded,
    has_any_file: bool,
    output: Option<&'p str>,
) -> Result<Vec<u8>, Refusal<'a>> {
    let mut made = Made {
        text: Vec::new(rt.alloc()),
        size: expanded.text.len(),
    };
    let mut rest = Some(expanded.text.as_slice());
    let mut wrong = 0usize;
    for number in 1..=expanded.lines.len() {
        let Some(left) = rest else {
            break;
        };
        let (line, others) = first_line(left);
        let place = Place {
            path,
            has_any_file,
            output,
            line: number_of(&expanded.lines, number),
            column: 1,
        };
        match put_line(rt, place, line, &mut made) {
            Ok(()) => (),
            Err(Refusal::SourceErrors) => wrong = wrong.saturating_add(1),
            Err(refusal) => return Err(refusal),
        }
        if wrong >= MOST_MISTAKES || made.size > MOST_MADE {
            break;
        }
        if others.is_some() {
            push(&mut made.text, b"\n")?;
        }
        rest = others;
    }
    if wrong > 0 {
        Err(Refusal::SourceErrors)
    } else {
        Ok(made.text)
    }
}

/// Whether a text has the name of the directive somewhere.
fn names_file(text: &[u8]) -> bool
    ensures { result ≡ true → NamesFile text.now }
{
    for index in 0..text.len() {
        if text[index] == b'.' && text[index..].starts_with(NAME) {
            return true;
        }
    }
    false
}

/// Appends bytes.
fn push<'a>(text: &mut Vec<u8>, bytes: &[u8]) -> Result<(), Refusal<'a>> {
    match text.extend_from_slice(bytes) {
        Ok(()) => Ok(()),
        Err(_) => Err(out_of_memory()),
    }
}

/// Appends a line, with the bytes of the files that its statements name.
fn put_line<'a, H: Files + Eprint + AllocGlobal>(
    rt: &H,
    place: Place<'_>,
    line: &[u8],
    made: &mut Made,
) -> Result<(), Refusal<'a>> {
    let mut rest = Some(line);
    for _ in 0..=line.len() {
        let Some(left) = rest else {
            break;
        };
        let (part, others) = first_part(left);
        let own = part.text().len();
        let taken = left
            .len()
            .saturating_sub(others.map_or(0, |others| others.len()));
        let place = Place {
            column: column_of(line, left),
            ..place
        };
        put_part(rt, place, part, made)?;
        push(&mut made.text, left.get(own..taken).unwrap_or(&[]))?;
        rest = others;
    }
    Ok(())
}

/// The column of what stands after the blanks of the rest of a line.
fn column_of(line: &[u8], left: &[u8]) -> usize {
    line.len()
        .saturating_sub(behind_blanks(left).len())
        .saturating_add(1)
}

/// Appends a label or a statement, or the bytes of the file that it names.
fn put_part<'a, H: Files + Eprint + AllocGlobal>(
    rt: &H,
    place: Place<'_>,
    part: Part<'_>,
    made: &mut Made,
) -> Result<(), Refusal<'a>> {
    let Part::Statement(own) = part else {
        return push(&mut made.text, part.text());
    };
    let (name, operands) = split_word(own);
    if name != NAME {
        return push(&mut made.text, own);
    }
    let Some(request) = request_of(operands) else {
        return refuse(
            rt,
            place,
            "a file is named here, as .incbin \"NAME\", SKIP, COUNT",
        );
    };
    put_file(rt, place, request, made)
}

/// Prints what is wrong at a place.
fn refuse<'a, H: Eprint>(rt: &H, place: Place<'_>, what: &str) -> Result<(), Refusal<'a>> {
    let Place {
        path,
        line,
        column,
        ..
    } = place;
    let path = ShownName::of(path);
    let _ = eprintln!(rt; "{path}:{line}:{column}: {what}");
    Err(Refusal::SourceErrors)
}

/// Prints what is wrong with a file that is named at a place.
fn refuse_file<'a, H: Eprint>(
    rt: &H,
    place: Place<'_>,
    what: &str,
    name: &str,
) -> Result<(), Refusal<'a>> {
    let Place {
        path,
        line,
        column,
        ..
    } = place;
    let (path, name) = (ShownName::of(path), ShownName::of(name));
    let _ = eprintln!(rt; "{path}:{line}:{column}: {what}: {name}");
    Err(Refusal::SourceErrors)
}

/// Appends the bytes of a file as the string of an `.ascii`.
fn put_file<'a, H: Files + Eprint + AllocGlobal>(
    rt: &H,
    place: Place<'_>,
    request: Request<'_>,
    made: &mut Made,
) -> Result<(), Refusal<'a>> {
    let Ok(path) = beside(rt.alloc(), place.path, request.name) else {
        return Err(out_of_memory());
    };
    if let Some(what) = refused(rt, place, request.name, &path)? {
        return refuse_file(rt, place, what, &path);
    }
    let bytes = match read_file(rt, &path) {
        Ok(bytes) => bytes,
        Err(Refusal::File(_, FileFault::LargeSource)) => {
            return refuse_file(rt, place, "the file is too large", &path);
        }
        Err(_) => return refuse_file(rt, place, "the file can't be read", &path),
    };
    let end = match request.count {
        Some(count) => request.skip.saturating_add(count),
        None => bytes.len(),
    };
    let Some(bytes) = bytes.get(request.skip..end) else {
        return refuse_file(rt, place, "the file has fewer bytes", &path);
    };
    made.size = made
        .size
        .saturating_add(bytes.len())
        .saturating_add(OF_FILE);
    if made.size > MOST_MADE {
        return refuse_file(
            rt,
            place,
            "the source and its files have more than 64 MiB",
            &path,
        );
    }
    match push_string(&mut made.text, bytes) {
        Ok(()) => Ok(()),
        Err(_) => Err(out_of_memory()),
    }
}

/// Why a file that is named so and has this path is not read, if it is not.
fn refused<'a, H: Files + AllocGlobal>(
    rt: &H,
    place: Place<'_>,
    name: &[u8],
    path: &str,
) -> Result<Option<&'static str>, Refusal<'a>> {
    if !place.has_any_file {
        let is_allowed = is_inside(name) && is_file(rt, path) && stays(rt, place.path, path)?;
        if !is_allowed {
            let what = "this is no file beside the source, which --incbin-anywhere allows";
            return Ok(Some(what));
        }
    }
    let is_written = is_written(rt, place, path)?;
    Ok(is_written.then_some("the executable would be written over this file"))
}

/// Whether a path leads, along its links, to a file in the folder of the source or below it. What
/// is not there is left to who reads it.
fn stays<'a, H: Files + AllocGlobal>(
    rt: &H,
    source: &str,
    path: &str,
) -> Result<bool, Refusal<'a>> {
    let folder = match source.rfind('/') {
        Some(at) => &source[..=at],
        None => ".",
    };
    match is_below(rt, folder, path) {
        Ok(is_below) => Ok(is_below),
        Err(error) if error.kind() == ErrorKind::OutOfMemory => Err(out_of_memory()),
        Err(error) => Ok(error.kind() == ErrorKind::NotFound),
    }
}

/// Whether a path leads to what is in a folder or below it.
fn is_below<H: Files + AllocGlobal>(rt: &H, folder: &str, path: &str) -> io::Result<bool> {
    let folder = fs::canonicalize(rt, folder)?;
    let file = fs::canonicalize(rt, path)?;
    Ok(file.starts_with(folder.as_path()))
}

/// Whether a path is that of the file that is written.
fn is_written<'a, H: Files + AllocGlobal>(
    rt: &H,
    place: Place<'_>,
    path: &str,
) -> Result<bool, Refusal<'a>> {
    match (told_written(rt, place.output), told_written(rt, Some(path))) {
        (Ok(output), Ok(Some(file))) => Ok(is_named(&output, &file)),
        (Ok(_), Ok(None)) => Ok(false),
        _ => Err(out_of_memory()),
    }
}

/// Whether a path is one from a folder into it: it does not begin at the root, and no part of it
/// goes back.
fn is_inside(name: &[u8]) -> bool {
    for part in name.split(|byte| *byte == b'/') {
        if part == b"..".as_slice() {
            return false;
        }
    }
    name.first() != Some(&b'/')
}

/// Whether nothing but a file has a path: a device or a folder is none. What is not there is left
/// to who reads it.
fn is_file<H: Files>(rt: &H, path: &str) -> bool {
    match fs::metadata(rt, path) {
        Ok(found) => found.is_file(),
        Err(_) => true,
    }
}

/// The path of a file beside another.
fn beside(alloc: Global, path: &str, name: &[u8]) -> Result<String, AllocError> {
    let mut beside = String::new(alloc);
    if !name.starts_with(b"/") {
        if let Some(at) = path.rfind('/') {
            beside.push_str(&path[..=at])?;
        }
    }
    beside.push_str(std::str::from_utf8(name).unwrap_or(""))?;
    Ok(beside)
}

/// Appends bytes as the string of an `.ascii`, or no byte.
fn push_string(text: &mut Vec<u8>, bytes: &[u8]) -> Result<(), AllocError> {
    if bytes.is_empty() {
        return Ok(());
    }
    text.extend_from_slice(b".ascii \"")?;
    let mut start = 0;
    for (index, byte) in bytes.iter().enumerate() {
        if let Some(escape) = escape_of(*byte) {
            text.extend_from_slice(bytes.get(start..index).unwrap_or(&[]))?;
            text.extend_from_slice(escape)?;
            start = index + 1;
        }
    }
    text.extend_from_slice(bytes.get(start..).unwrap_or(&[]))?;
    Ok(text.push(b'"')?)
}

/// How a byte is written in a string that can't stand there as it is.
fn escape_of(byte: u8) -> Option<&'static [u8]> {
    match byte {
        b'"' => Some(b"\\\""),
        b'\\' => Some(b"\\\\"),
        b'\n' => Some(b"\\n"),
        _ => None,
    }
}

/// What the operands of a statement ask for.
fn request_of(operands: &[u8]) -> Option<Request<'_>> {
    let text = behind_blanks(operands).strip_prefix(b"\"")?;
    let end = text.iter().position(|byte| *byte == b'"')?;
    let (name, rest) = (&text[..end], &text[end + 1..]);
    let (skip, rest) = number_behind(rest)?;
    let (count, rest) = number_behind(rest)?;
    behind_blanks(rest).is_empty().then_some(Request {
        name,
        skip: skip.unwrap_or(0),
        count,
    })
}

/// The number after a comma, if there is a comma, and what is after it.
fn number_behind(text: &[u8]) -> Option<(Option<usize>, &[u8])> {
    let text = behind_blanks(text);
    if !begins_with(text, b',') {
        return Some((None, text));
    }
    let (word, rest) = split_word(&text[1..]);
    Some((Some(number(word)?), rest))
}

/// A number in decimal digits, or in hexadecimal ones after `0x`.
fn number(word: &[u8]) -> Option<usize> {
    let (digits, base) = match word {
        [b'0', b'x' | b'X', digits @ ..] => (digits, 16),
        _ => (word, 10),
    };
    usize::from_str_radix(std::str::from_utf8(digits).ok()?, base).ok()
}
