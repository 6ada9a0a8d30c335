//! What is made of a source of RISC-V.

ghost use Rattle.std.specs.Prelude.{◌≡◌, [], None, IsSome, MatchOption, IfOk, OnOk};
ghost use Rattle.rrs_asm.specs.declared.sections.Layout.{Layout};
ghost use Rattle.rrs_asm.specs.Source.{items_of};
ghost use Rattle.rrs_asm.specs.Sections.{AreSectionsOf, ArePlaced, IsImage};
ghost use Rattle.rrs_asm_output.specs.Executables.{IsExecutableOf};
ghost use Rattle.rrs_asm_macros.specs.Comments.{without_comments};
ghost use Rattle.rrs_asm_macros.specs.Expansion.{Becomes};
ghost use Rattle.rrs_run_commands.specs.Requests.{wanted_of};
ghost use Rattle.rrs_commands.specs.Assembly.{IsExecutableFrom, IsImageFrom, IsToldApart, layout_of};

use crate::assembly_files::with_files;
use rrs_asm::{Layout, MOST_BYTES, Program, SourceError, SourceFault, assemble_source, image};
use rrs_asm_macros::{Expanded, MacroFault, expand, without_block_comments};
use rrs_asm_output::{
    ExecutableError, MOST_MISTAKES, Mistake, executable_of, gnu_text, listing_of, mistakes_of,
    number_of,
};
use rrs_cli::report::{flush, write_text};
use rrs_reports::ShownName;
use rrs_run_commands::files::read_source;
use rrs_run_commands::outputs::created;
use rrs_run_commands::places::{is_named, told_read, told_written};
use rrs_run_commands::refusal::{FileFault, Refusal, failed, out_of_memory};
use rrs_run_commands::requests::{Form, Request};
use std::alloc::Global;
use std::fs::Permissions;
use std::io::Write;
use std::os::unix::fs::PermissionsExt;
use std::rt::Files;
use std::{fs, str};

/// Where an executable has its first section.
const EXECUTABLE_TEXT: u32 = 0x1_0000;

/// The distance of pages in an executable.
const PAGE: u32 = 0x1000;

/// What is made of a source.
#[derive(Drop)]
pub struct Products {
    /// What is printed.
    pub text: Vec<u8>,
    /// The executable, where one is asked for.
    pub executable: Option<Vec<u8>>,
}

/// What is asked for of a source, all of it made of the same sections: those of the text that the
/// source becomes without its block comments, macros, conditions and repetitions and with its
/// files, each where the request's layout says. An executable has these sections as its segments.
/// Where none is asked for, and neither a listing nor a source for GNU `as`, the text is the bytes
/// of all sections, from the address of the first on. Mistakes are printed on standard error,
/// after the path.
///
/// # Errors
///
/// `Refusal::SourceErrors` where the source has mistakes, which were printed; `Refusal::File` where
/// an executable is asked for and the program has none, and where its bytes are more than 64 MiB;
/// out of memory as a failure.
pub fn products_of<'a, H: Files + Eprint + AllocGlobal>(
    rt: &H,
    path: &'a str,
    source: &[u8],
    request: Request<'a>,
) -> Result<Products, Refusal<'a>>
    ensures bytes { request.entry.form ≡ Form.Bytes → request.entry.output ≡ None
        → IfOk result (λ products.
        IsImageFrom (layout_of (wanted_of request.entry)) source.now products.text.items) }
    ensures executable { IfOk result (λ products.
        MatchOption products.executable (request.entry.output ≡ None) (λ file.
        IsSome request.entry.output
        × IsExecutableFrom (layout_of (wanted_of request.entry)) source.now file.items)) }
    ensures nothing { request.entry.form ≡ Form.Bytes → IsSome request.entry.output
        → IfOk result (λ products. products.text.items ≡ []) }
{
    let layout = layout_of(request);
    let expanded = expanded_of(rt, path, source)?;
    let shown = shown_text(rt.alloc(), request, &expanded)?;
    let whole = with_files(rt, path, expanded, request.has_any_file, request.output)?;
    let program = program_of(rt, path, request, &whole, layout)?;
    let executable = executable_for(rt.alloc(), path, request, &program)?;
    let text = text_of(
        rt.alloc(),
        path,
        request,
        &shown,
        &whole.lines,
        &program,
        layout.text_start,
    )?;
    Ok(Products { text, executable })
}

/// Where the sections lie: where the words say, and else those of an executable from 0x10000 on,
/// with data that can be written on a page of its own, and all others one after the other from
/// address 0 on.
fn layout_of(request: Request<'_>) -> Layout
    ensures { result ≡ layout_of (wanted_of request.entry) }
{
    let (text, page) = match request.output {
        Some(_) => (EXECUTABLE_TEXT, PAGE),
        None => (0, 1),
    };
    Layout {
        text_start: request.text_start.unwrap_or(text),
        data_start: request.data_start,
        page,
    }
}

/// The text that a source becomes without its block comments, macros, conditions and repetitions.
/// Mistakes in these are printed.
///
/// # Errors
///
/// `Refusal::SourceErrors` where there are mistakes, and out of memory as a failure.
fn expanded_of<'a, H: Eprint + AllocGlobal>(
    rt: &H,
    path: &'a str,
    source: &[u8],
) -> Result<Expanded, Refusal<'a>>
    ensures { IfOk result (λ expanded.
        Becomes (without_comments source.now) expanded.text.items) }
{
    let Ok(plain) = without_block_comments(rt.alloc(), source) else {
        return Err(out_of_memory());
    };
    match expand(rt.alloc(), &plain) {
        Ok(expanded) => Ok(expanded),
        Err(MacroFault::OutOfMemory) => Err(out_of_memory()),
        Err(MacroFault::Mistakes(mistakes)) => {
            let path = ShownName::of(path);
            for mistake in &mistakes {
                let word = mistake.word(&plain).unwrap_or(&[]);
                let _ = match str::from_utf8(word) {
                    Ok(word) if !word.is_empty() => eprintln!(rt; "{path}:{mistake}: {word}"),
                    _ => eprintln!(rt; "{path}:{mistake}"),
                };
            }
            Err(Refusal::SourceErrors)
        }
    }
}

/// The program of a text, whose sections lie as the layout says. Mistakes are printed.
///
/// # Errors
///
/// `Refusal::SourceErrors` where the text has mistakes, and out of memory as a failure.
fn program_of<'a, 'e, H: Eprint + AllocGlobal>(
    rt: &H,
    path: &'a str,
    request: Request<'a>,
    expanded: &'e Expanded,
    layout: Layout,
) -> Result<Program<'e>, Refusal<'a>>
    ensures { IfOk result (λ program.
        AreSectionsOf layout (items_of expanded.now.text.items) program.sections.items) }
{
    match assemble_source(rt.alloc(), &expanded.text, layout) {
        Ok(program) => Ok(program),
        Err(SourceFault::OutOfMemory) => Err(out_of_memory()),
        Err(SourceFault::Errors(errors)) => {
            match request.form {
                Form::Source => print_all(rt, path, expanded, &errors),
                _ => print_mistakes(rt, path, expanded, &errors)?,
            }
            Err(Refusal::SourceErrors)
        }
    }
}

/// The executable of a program, where one is asked for.
///
/// # Errors
///
/// What `refused` says of why there is none.
fn executable_for<'a>(
    alloc: Global,
    path: &'a str,
    request: Request<'a>,
    program: &Program,
) -> Result<Option<Vec<u8>>, Refusal<'a>>
    ensures { IfOk result (λ executable.
        MatchOption executable (request.entry.output ≡ None) (λ file.
        IsSome request.entry.output × IsExecutableOf program.now.sections.items file.items)) }
{
    if request.output.is_none() {
        return Ok(None);
    }
    match executable_of(alloc, program) {
        Ok(file) => Ok(Some(file)),
        Err(error) => Err(refused(path, error)),
    }
}

/// Why a program has no executable, as the refusal of the subcommand.
fn refused(path: &str, error: ExecutableError) -> Refusal<'_> {
    let fault = match error {
        ExecutableError::Empty => FileFault::EmptyProgram,
        ExecutableError::Entry(address) => FileFault::WrongEntry(address),
        ExecutableError::Unlike => FileFault::NoExecutable,
        ExecutableError::OutOfMemory => return out_of_memory(),
    };
    Refusal::File(path, fault)
}

/// The text that a listing shows: that of the source before its files are put into it.
///
/// # Errors
///
/// Out of memory as a failure.
fn shown_text<'a>(
    alloc: Global,
    request: Request<'_>,
    expanded: &Expanded,
) -> Result<Vec<u8>, Refusal<'a>> {
    let mut shown = Vec::new(alloc);
    if request.form == Form::Listing && shown.extend_from_slice(&expanded.text).is_err() {
        return Err(out_of_memory());
    }
    Ok(shown)
}

/// What is printed of a program whose first section lies at an address, where a listing shows this
/// text, with the numbers of its lines.
///
/// # Errors
///
/// `Refusal::File` where its bytes are asked for and are more than 64 MiB, and out of memory
/// as a failure.
fn text_of<'a>(
    alloc: Global,
    path: &'a str,
    request: Request<'a>,
    shown: &[u8],
    lines: &[usize],
    program: &Program,
    text_start: u32,
) -> Result<Vec<u8>, Refusal<'a>>
    ensures bytes { request.entry.form ≡ Form.Bytes → request.entry.output ≡ None
        → (layout : Layout) → layout.text_start ≡ text_start
        → ArePlaced layout program.now.sections.items
        → IfOk result (λ text. IsImage text_start program.now.sections.items text.items) }
    ensures nothing { request.entry.form ≡ Form.Bytes → IsSome request.entry.output
        → IfOk result (λ text. text.items ≡ []) }
{
    match request.form {
        Form::Bytes if request.output.is_some() => Ok(Vec::new(alloc)),
        Form::Bytes => bytes_of(alloc, path, program, text_start),
        Form::Source => {
            let bytes = bytes_of(alloc, path, program, text_start)?;
            match gnu_text(alloc, &bytes) {
                Ok(text) => Ok(text.into_bytes()),
                Err(_) => Err(out_of_memory()),
            }
        }
        Form::Listing => match listing_of(alloc, shown, lines, program) {
            Ok(listing) => Ok(listing),
            Err(_) => Err(out_of_memory()),
        },
    }
}

/// The bytes of all sections from an address on, with zeros between them.
///
/// # Errors
///
/// `Refusal::File` where they are more than 64 MiB, and out of memory as a failure.
fn bytes_of<'a>(
    alloc: Global,
    path: &'a str,
    program: &Program,
    text_start: u32,
) -> Result<Vec<u8>, Refusal<'a>>
    ensures { (layout : Layout) → layout.text_start ≡ text_start
        → ArePlaced layout program.now.sections.items
        → IfOk result (λ bytes. IsImage text_start program.now.sections.items bytes.items) }
{
    if size_from(program, text_start) > MOST_BYTES as u64 {
        return Err(Refusal::File(path, FileFault::LargeImage));
    }
    match image(alloc, program, text_start) {
        Ok(bytes) => Ok(bytes),
        Err(_) => Err(out_of_memory()),
    }
}

/// How many bytes there are from an address up to the end of the last section that has any.
fn size_from(program: &Program, start: u32) -> u64 {
    let mut size = 0u64;
    for section in &program.sections {
        let length = section.made.bytes.len() as u64;
        if length > 0 {
            let address = u64::from(section.address.saturating_sub(start));
            size = size.max(address.saturating_add(length));
        }
    }
    size
}

/// Prints the first mistakes, with what was wanted and what was probably meant, each as a line, and
/// after 20 how many other lines have some. Where one can't be printed the others are tried too.
///
/// # Errors
///
/// Out of memory as a failure.
fn print_mistakes<'a, H: Eprint + AllocGlobal>(
    rt: &H,
    path: &'a str,
    expanded: &Expanded,
    errors: &[SourceError],
) -> Result<(), Refusal<'a>> {
    match mistakes_of(rt.alloc(), &expanded.text, &expanded.lines, errors) {
        Ok(mistakes) => {
            let shown = ShownName::of(path);
            for mistake in &mistakes {
                let (line, column, text) = (mistake.line, mistake.column, mistake.text.as_str());
                let _ = eprintln!(rt; "{shown}:{line}:{column}: {text}");
            }
            print_count(rt, path, expanded, errors, &mistakes);
            Ok(())
        }
        Err(_) => Err(out_of_memory()),
    }
}

/// Prints how many lines after the last of the most mistakes have others.
fn print_count<H: Eprint>(
    rt: &H,
    path: &str,
    expanded: &Expanded,
    errors: &[SourceError],
    mistakes: &[Mistake],
) {
    let Some(last) = mistakes.last() else {
        return;
    };
    if mistakes.len() < MOST_MISTAKES {
        return;
    }
    let mut is_after = false;
    let mut count = 0usize;
    for error in errors {
        if is_after {
            count = count.saturating_add(1);
        }
        let line = number_of(&expanded.lines, error.line);
        is_after = is_after || line == last.line && error.column == last.column;
    }
    if count > 0 {
        let path = ShownName::of(path);
        let _ = eprintln!(rt; "{path}: lines with further mistakes: {count}");
    }
}

/// Prints each mistake as a line, and no more than what is wrong there.
fn print_all<H: Eprint>(rt: &H, path: &str, expanded: &Expanded, errors: &[SourceError]) {
    let path = ShownName::of(path);
    for error in errors {
        let line = number_of(&expanded.lines, error.line);
        let (column, kind) = (error.column, error.kind);
        let _ = eprintln!(rt; "{path}:{line}:{column}: {kind}");
    }
}

/// Assembles a file, writes the executable that is asked for, and prints what else is to `out`,
/// which may be a terminal.
///
/// # Errors
///
/// `Refusal::File` where the executable's file is the source, or can't be created. Those of
/// `read_source` and of `products_of`: nothing is written then. `Refusal::Terminal` where the bytes
/// of the program would go to a terminal. `Refusal::File` and `Refusal::Output` for a write that
/// fails.
pub fn assemble_file<'a, H: Files + Eprint + AllocGlobal, O: Write>(
    rt: &H,
    request: Request<'a>,
    out: &mut O,
    is_terminal: bool,
) -> Result<(), Refusal<'a>>
    ensures { OnOk result (IsToldApart (wanted_of request.entry)) }
{
    let path = request.path();
    let source = read_source(rt, path)?;
    check_source(rt, request)?;
    let products = products_of(rt, path, &source, request)?;
    if let (Some(executable), Some(output)) = (&products.executable, request.output) {
        write_executable(rt, executable, output)?;
    }
    if is_terminal && request.form == Form::Bytes && !products.text.is_empty() {
        return Err(Refusal::Terminal);
    }
    write_all(out, &products.text)
}

/// Sees that the executable's file, if there is one, is not the source.
///
/// # Errors
///
/// `Refusal::File` where it is; out of memory as a failure.
fn check_source<'a, H: Files + AllocGlobal>(rt: &H, request: Request<'a>) -> Result<(), Refusal<'a>>
    ensures { OnOk result (IsToldApart (wanted_of request.entry)) }
{
    let source = told_read(rt, request.file)?;
    match told_written(rt, request.output)? {
        Some(output) if is_named(&source, &output) => {
            Err(Refusal::File(output.path, FileFault::IsSource))
        }
        _ => Ok(()),
    }
}

/// Writes an executable into a file, which has what it had until all is written.
///
/// # Errors
///
/// `Refusal::File` where the file can't be created, and where a write fails.
fn write_executable<'a, H: Files + AllocGlobal>(
    rt: &H,
    executable: &[u8],
    output: &'a str,
) -> Result<(), Refusal<'a>> {
    let mut file = created(rt, output)?;
    let written = write_all(&mut file.file, executable);
    file.close(rt, written)?;
    let_run(rt, output);
    Ok(())
}

/// Writes bytes, and flushes the writer.
fn write_all<'a, O: Write>(out: &mut O, bytes: &[u8]) -> Result<(), Refusal<'a>> {
    if let Err(fault) = write_text(out, bytes) {
        return Err(failed(fault));
    }
    match flush(out) {
        Ok(()) => Ok(()),
        Err(fault) => Err(failed(fault)),
    }
}

/// Lets a file be run by those who may read it. Where that can't be, it stays as it is.
fn let_run<H: Files>(rt: &H, path: &str) {
    if let Ok(found) = fs::metadata(rt, path) {
        if found.is_file() {
            let mode = found.permissions().mode();
            let runs = Permissions::from_mode(mode | (mode & 0o444) >> 2);
            let _ = fs::set_permissions(rt, path, runs);
        }
    }
}
