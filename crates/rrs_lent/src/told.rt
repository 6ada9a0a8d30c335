//! What is told of a source, before it is put into the caller's buffers.

ghost use Rattle.std.specs.Prelude.{◌≡◌, ◌≤◌, All, IfOk, length};
ghost use Rattle.rrs_asm.specs.Source.{items_of};
ghost use Rattle.rrs_asm.specs.Sections.{flat, AreSectionsOf, AreLaidOut};
ghost use Rattle.rrs_asm_macros.specs.Comments.{without_comments};
ghost use Rattle.rrs_lent.specs.Telling.{IsTextOf};
ghost use Rattle.rrs_lent.specs.Steps.{IsShort, IsTold};

use crate::mistakes::{of_macros, told_of_mistakes};
use crate::outcome::{ASSEMBLED, MISTAKES, RrsMistake, RrsStatement, RrsSymbol};
use crate::statements::{has_long, statements_of};
use crate::symbols::symbols_of;
use rrs_asm::{Layout, Program, SourceError, SourceErrorKind, SourceFault, assemble_source, image};
use rrs_asm_macros::{Expanded, MacroFault, expand, without_block_comments};
use rrs_asm_output::{Mistake, entry_of, mistakes_of};
use std::alloc::{AllocError, Allocator};

/// What is told of a source.
#[derive(Drop)]
pub struct Told<A: Allocator> {
    /// `ASSEMBLED` or `MISTAKES`.
    pub(crate) end: u32,
    /// Where the program begins.
    pub(crate) entry: u32,
    /// The bytes from the address of the first section on.
    pub(crate) bytes: Vec<u8, A>,
    /// The statements.
    pub(crate) statements: Vec<RrsStatement, A>,
    /// The labels.
    pub(crate) symbols: Vec<RrsSymbol, A>,
    /// The mistakes.
    pub(crate) mistakes: Vec<RrsMistake, A>,
    /// The names of the labels, or what is told of the mistakes.
    pub(crate) texts: Vec<u8, A>,
}

/// The mistake of a program that is too long. An assembler tells it before.
const TOO_LONG: SourceError = SourceError {
    line: 1,
    column: 1,
    kind: SourceErrorKind::TooLong,
};

/// What is told of a source that takes more memory than is lent.
const TOO_LARGE: &str = "what the source makes needs more than 256 MiB of memory";

/// What is told of a source whose first section lies at an address, and at the last time that
/// memory is lent also where that is too little.
pub(crate) fn told_at_last<A: Allocator + Copy>(
    alloc: A,
    source: &[u8],
    start: u32,
    is_last: bool,
) -> Result<Told<A>, AllocError>
    ensures { IfOk result (IsTold source.now start) }
{
    let mut text = String::new(alloc);
    text.push_str(TOO_LARGE)?;
    let mut mistakes = Vec::new(alloc);
    mistakes.push(Mistake {
        line: 1,
        column: 1,
        text,
    })?;
    let large = told_refused(alloc, mistakes.as_slice())?;
    match told_of(alloc, source, start) {
        Err(_) if is_last => Ok(large),
        told => told,
    }
}

/// What is told of a source whose first section lies at an address.
fn told_of<A: Allocator + Copy>(alloc: A, source: &[u8], start: u32) -> Result<Told<A>, AllocError>
    ensures { IfOk result (IsTold source.now start) }
{
    let plain = without_block_comments(alloc, source)?;
    match expand(alloc, &plain) {
        Ok(expanded) => told_of_text(alloc, &expanded, start),
        Err(MacroFault::OutOfMemory) => Err(AllocError),
        Err(MacroFault::Mistakes(errors)) => told_refused(
            alloc,
            &of_macros(alloc, &plain, &errors)?,
        ),
    }
}

/// What is told of a source that became a text without block comments, macros, conditions and
/// repetitions.
fn told_of_text<A: Allocator + Copy>(
    alloc: A,
    expanded: &Expanded<A>,
    start: u32,
) -> Result<Told<A>, AllocError>
    ensures { (source : _) → IsTextOf (without_comments source) expanded.now
        → IfOk result (IsTold source start) }
{
    match assemble_source(alloc, &expanded.text, Layout::flat(start)) {
        Ok(program) if has_long(&program.sections) => refused(alloc, expanded, &[TOO_LONG]),
        Ok(program) => made(alloc, expanded, &program, start),
        Err(SourceFault::OutOfMemory) => Err(AllocError),
        Err(SourceFault::Errors(errors)) => match errors.as_slice() {
            [] => refused(alloc, expanded, &[TOO_LONG]),
            errors => refused(alloc, expanded, errors),
        },
    }
}

/// What is told of a program.
fn made<A: Allocator + Copy>(
    alloc: A,
    expanded: &Expanded<A>,
    program: &Program<A>,
    start: u32,
) -> Result<Told<A>, AllocError>
    requires short { All IsShort program.now.sections.items }
    requires laid_out { AreLaidOut program.now.sections.items }
    ensures { (source : _) → IsTextOf (without_comments source) expanded.now
        → AreSectionsOf (flat start) (items_of expanded.now.text.items) program.now.sections.items
        → IfOk result (IsTold source start) }
{
    let sections = &program.sections;
    let (symbols, texts) = symbols_of(alloc, sections, &expanded.lines)?;
    Ok(Told {
        end: ASSEMBLED,
        entry: entry_of(sections).unwrap_or(start),
        bytes: image(alloc, program, start)?,
        statements: statements_of(alloc, sections, &expanded.lines)?,
        symbols,
        mistakes: Vec::new(alloc),
        texts,
    })
}

/// What is told of mistakes in a text.
fn refused<A: Allocator + Copy>(
    alloc: A,
    expanded: &Expanded<A>,
    errors: &[SourceError],
) -> Result<Told<A>, AllocError>
    requires { 1 ≤ length errors.now }
    ensures { (source : _) (start : _) → IfOk result (IsTold source start) }
{
    told_refused(
        alloc,
        &mistakes_of(alloc, &expanded.text, &expanded.lines, errors)?,
    )
}

/// What is told of mistakes.
fn told_refused<A: Allocator + Copy>(alloc: A, own: &[Mistake<A>]) -> Result<Told<A>, AllocError>
    requires some { 1 ≤ length own.now }
    requires most { length own.now ≤ 20 }
    ensures { (source : _) (start : _) → IfOk result (IsTold source start) }
{
    let (mistakes, texts) = told_of_mistakes(alloc, own)?;
    Ok(Told {
        end: MISTAKES,
        entry: 0,
        bytes: Vec::new(alloc),
        statements: Vec::new(alloc),
        symbols: Vec::new(alloc),
        mistakes,
        texts,
    })
}
