//! The labels of a program, as they are told.

ghost use Rattle.std.specs.Prelude.{◌≡◌, ◌++◌, IfOk, OnOk, length};
ghost use Rattle.rrs_lent.specs.Telling.{symbols_from, names_of, all_symbols_from, all_names_of};

use crate::outcome::RrsSymbol;
use rrs_asm::{Label, Section};
use rrs_asm_output::number_of;
use std::alloc::{AllocError, Allocator};

/// The labels of sections in order, where the lines have these numbers in the source, and their
/// names one after the other.
pub(crate) fn symbols_of<A: Allocator + Copy>(
    alloc: A,
    sections: &[Section<A>],
    numbers: &[usize],
) -> Result<(Vec<RrsSymbol, A>, Vec<u8, A>), AllocError>
    ensures symbols { IfOk result (λ told.
        told.0.items ≡ all_symbols_from numbers.now 0 sections.now) }
    ensures names { IfOk result (λ told. told.1.items ≡ all_names_of sections.now) }
{
    let mut told = Vec::new(alloc);
    let mut names = Vec::new(alloc);
    for section in sections {
        push_symbols(&mut told, &mut names, &section.made.labels, numbers)?;
    }
    Ok((told, names))
}

/// Appends labels, and their names.
fn push_symbols<A: Allocator + Copy>(
    told: &mut Vec<RrsSymbol, A>,
    names: &mut Vec<u8, A>,
    labels: &[Label],
    numbers: &[usize],
) -> Result<(), AllocError>
    ensures symbols { OnOk result (told.new.items
        ≡ told.old.items ++ symbols_from numbers.now (length names.old.items) labels.now) }
    ensures names { OnOk result (names.new.items ≡ names.old.items ++ names_of labels.now) }
{
    for label in labels {
        told.push(RrsSymbol {
            line: number_of(numbers, label.line),
            name: names.len(),
            length: label.name.len(),
            address: label.address,
        })?;
        names.extend_from_slice(label.name)?;
    }
    Ok(())
}
