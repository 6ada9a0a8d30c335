//! A source that was assembled: its sections, and the bytes of all.

ghost use Rattle.std.specs.Prelude.{◌≡◌, IfOk, OnOk};
ghost use Rattle.rrs_asm.specs.declared.sections.Layout.{Layout};
ghost use Rattle.rrs_asm.specs.Sections.{laid_flat, with_section, ArePlaced, IsImage};

use crate::sections::Section;
use std::alloc::{AllocError, Allocator, Global};

/// A source that was assembled.
#[derive(Drop)]
pub struct Program<'a, A: Allocator = Global> {
    /// Its sections in the order of their addresses: those with instructions, with data that is
    /// not written, with data, and with zeros.
    pub sections: Vec<Section<'a, A>, A>,
}

/// The bytes of all sections from an address on, with zeros between them (`laid_flat`). An empty
/// section has no bytes. Where the sections lie as a layout says, from this address on, these are
/// the bytes of each section at its address, and zeros (`at_addresses`).
pub fn image<A: Allocator + Copy>(
    alloc: A,
    program: &Program<A>,
    base: u32,
) -> Result<Vec<u8, A>, AllocError>
    ensures laid_flat { IfOk result (λ bytes. bytes.items
        ≡ laid_flat base program.now.sections.items) }
    ensures at_addresses { (layout : Layout) → layout.text_start ≡ base
        → ArePlaced layout program.now.sections.items
        → IfOk result (λ bytes. IsImage base program.now.sections.items bytes.items) }
{
    let mut bytes = Vec::new(alloc);
    for section in &program.sections {
        append_section(&mut bytes, section, base)?;
    }
    Ok(bytes)
}

/// Appends the bytes of a section after zeros up to its address, if it has any.
fn append_section<A: Allocator>(
    bytes: &mut Vec<u8, A>,
    section: &Section<A>,
    base: u32,
) -> Result<(), AllocError>
    ensures { OnOk result (bytes.new.items ≡ with_section base bytes.old.items section.now) }
{
    if section.made.bytes.is_empty() {
        return Ok(());
    }
    let start = section.address.saturating_sub(base) as usize;
    let count = start.saturating_sub(bytes.len());
    let length = bytes.len().saturating_add(count);
    bytes.resize(length, 0)?;
    bytes.extend_from_slice(&section.made.bytes)
}
