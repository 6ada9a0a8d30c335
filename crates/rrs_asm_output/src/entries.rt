//! Where a program begins.

ghost use Rattle.std.specs.Prelude.{◌≡◌};
ghost use Rattle.rrs_asm_output.specs.Executables.{address_in, address_of, first_address, entry_of};

use rrs_asm::{Label, Section};
use std::alloc::Allocator;

/// The address of the first label of a name.
fn address_in(labels: &[Label], name: &[u8]) -> Option<u32>
    ensures { result ≡ address_in name.now labels.now }
{
    for label in labels {
        if label.name == name {
            return Some(label.address);
        }
    }
    None
}

/// The address of the first label of a name in the sections.
fn address_of<A: Allocator + Copy>(sections: &[Section<A>], name: &[u8]) -> Option<u32>
    ensures { result ≡ address_of name.now sections.now }
{
    for section in sections {
        if let Some(address) = address_in(&section.made.labels, name) {
            return Some(address);
        }
    }
    None
}

/// The address of the first byte of the sections.
fn first_address<A: Allocator + Copy>(sections: &[Section<A>]) -> Option<u32>
    ensures { result ≡ first_address sections.now }
{
    for section in sections {
        if !section.made.bytes.is_empty() {
            return Some(section.address);
        }
    }
    None
}

/// Where a program begins: at `_start`, else at `main`, else at its first byte.
pub fn entry_of<A: Allocator + Copy>(sections: &[Section<A>]) -> Option<u32>
    ensures { result ≡ entry_of sections.now }
{
    if let Some(address) = address_of(sections, b"_start") {
        return Some(address);
    }
    if let Some(address) = address_of(sections, b"main") {
        return Some(address);
    }
    first_address(sections)
}
