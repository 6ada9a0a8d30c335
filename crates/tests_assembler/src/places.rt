//! The labels and the statements of a source, each with its line and its address.

use crate::assembled::made;
use rrs_asm::Assembled;
use std::alloc::Global;

/// A source, and what stands where in it.
struct Case {
    source: &'static [u8],
    /// Its address.
    base: u32,
    /// The line, the name and the address of each label.
    labels: &'static [(usize, &'static [u8], u32)],
    /// The line and the address of each statement.
    places: &'static [(usize, u32)],
}

/// A source with labels, local labels, comments, strings and character constants with what would
/// separate statements elsewhere, constants, and lines with nothing in them.
const SOURCE: &[u8] = b"a: nop
1: b : .word 1, 2 # c: nop

  .globl a ; x = 1
    ;; c: .ascii \"d:;#\\\"//\" ; 1:.byte ':' , '\\'' // e: nop
.equ y, 2
e:.byte ';', '#';.space 3;
end:";

/// That source, and one whose label is after the last address, which is 0.
static CASES: [Case; 2] = [
    Case {
        source: SOURCE,
        base: 0x100,
        labels: &[
            (1, b"a", 0x100),
            (2, b"1", 0x104),
            (2, b"b", 0x104),
            (5, b"c", 0x10c),
            (5, b"1", 0x113),
            (7, b"e", 0x115),
            (8, b"end", 0x11a),
        ],
        places: &[
            (1, 0x100),
            (2, 0x104),
            (5, 0x10c),
            (5, 0x113),
            (7, 0x115),
            (7, 0x117),
        ],
    },
    Case {
        source: b".word end\nend:",
        base: 0xffff_fffc,
        labels: &[(2, b"end", 0)],
        places: &[(1, 0xffff_fffc)],
    },
];

/// Whether a section has these labels, and statements at these places.
fn has_places(made: &Assembled, case: &Case) -> bool {
    let mut is_same = made.labels.len() == case.labels.len();
    is_same &= made.placed.len() == case.places.len();
    for (own, &(line, name, address)) in made.labels.iter().zip(case.labels) {
        is_same &= own.line == line;
        is_same &= own.name == name;
        is_same &= own.address == address;
    }
    for (own, &(line, address)) in made.placed.iter().zip(case.places) {
        is_same &= own.line == line;
        is_same &= own.address == address;
    }
    is_same
}

/// Whether the first section of a source does.
fn is_placed(alloc: Global, case: &Case) -> bool {
    let Ok(program) = made(alloc, case.source, case.base) else {
        return false;
    };
    match program.sections.first() {
        Some(section) => has_places(&section.made, case),
        None => false,
    }
}

#[test]
fn labels_and_statements_are_listed(rt: HostRuntime) {
    for (index, case) in CASES.iter().enumerate() {
        assert!(rt; is_placed(rt.alloc(), case), "at {index}");
    }
}
