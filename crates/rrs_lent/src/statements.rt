//! The statements of a program, as they are told.

ghost use Rattle.std.specs.Prelude.{◌≡◌, ◌++◌, List, All, IfOk, OnOk, false};
ghost use Rattle.rrs_lent.specs.declared.outcome.RrsStatement.{RrsStatement};
ghost use Rattle.rrs_lent.specs.Steps.{IsAsLong, AreAsLong, AreAllAsLong, IsShort};

use crate::outcome::RrsStatement;
use rrs_asm::{MOST_BYTES, Placed, Section};
use rrs_asm_output::number_of;
use std::alloc::{AllocError, Allocator};

/// Whether a section has more bytes than an assembler makes.
pub(crate) fn has_long<A: Allocator + Copy>(sections: &[Section<A>]) -> bool
    ensures { result ≡ false → All IsShort sections.now }
{
    for section in sections {
        if section.made.bytes.len() > MOST_BYTES {
            return true;
        }
    }
    false
}

/// The statements of sections, in order, where the lines have these numbers in the source.
pub(crate) fn statements_of<A: Allocator + Copy>(
    alloc: A,
    sections: &[Section<A>],
    numbers: &[usize],
) -> Result<Vec<RrsStatement, A>, AllocError>
    ensures { IfOk result (λ told. AreAllAsLong numbers.now sections.now told.items) }
{
    let mut told = Vec::new(alloc);
    for section in sections {
        push_statements(&mut told, &section.made.placed, numbers)?;
    }
    Ok(told)
}

/// Appends statements.
fn push_statements<A: Allocator + Copy>(
    told: &mut Vec<RrsStatement, A>,
    placed: &[Placed],
    numbers: &[usize],
) -> Result<(), AllocError>
    ensures { OnOk result ((own : List RrsStatement) × AreAsLong numbers.now placed.now own
        × (told.new.items ≡ told.old.items ++ own)) }
{
    for statement in placed {
        told.push(statement_of(statement, numbers))?;
    }
    Ok(())
}

/// A statement as it is told.
fn statement_of(placed: &Placed, numbers: &[usize]) -> RrsStatement
    ensures { IsAsLong numbers.now placed.now result }
{
    RrsStatement {
        line: number_of(numbers, placed.line),
        address: placed.address,
        size: placed.statement.size().min(u32::MAX as usize) as u32,
    }
}
