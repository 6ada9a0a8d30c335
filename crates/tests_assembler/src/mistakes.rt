//! Sources with mistakes, and the places that are told.

use crate::assembled::{Wrong, bytes_of, same_mistakes};
use rrs_asm::{SourceErrorKind, SourceFault};
use std::alloc::Global;

/// Sources, each with the line and the column of its mistake. Of several the first of each line is
/// told, in the order of the lines.
static MISTAKES: [(&str, &[Wrong]); 61] = [
    ("nop\n  addx a0, a1", &[(2, 3, SourceErrorKind::Unknown)]),
    (".wrod 1", &[(1, 1, SourceErrorKind::Unknown)]),
    ("addi-1", &[(1, 1, SourceErrorKind::Unknown)]),
    ("nop\n\n)", &[(3, 1, SourceErrorKind::Character)]),
    ("2a: nop", &[(1, 1, SourceErrorKind::Character)]),
    ("add a0, x32, a1", &[(1, 9, SourceErrorKind::Register)]),
    ("li a0,", &[(1, 7, SourceErrorKind::Value)]),
    ("addi a0, a0, %top(4)", &[(1, 15, SourceErrorKind::Value)]),
    ("li a0, 0x", &[(1, 8, SourceErrorKind::Number)]),
    ("li a0, 4294967296", &[(1, 8, SourceErrorKind::Number)]),
    ("li a0, 018", &[(1, 8, SourceErrorKind::Number)]),
    ("addi a0, a0, 2048", &[(1, 14, SourceErrorKind::Range)]),
    ("li a0, -2147483649", &[(1, 9, SourceErrorKind::Range)]),
    ("slli a0, a0, 32", &[(1, 14, SourceErrorKind::Range)]),
    ("lui a0, 0x100000", &[(1, 9, SourceErrorKind::Range)]),
    (".byte 256", &[(1, 7, SourceErrorKind::Range)]),
    (".balign 3", &[(1, 9, SourceErrorKind::Range)]),
    (
        "beq a0, a1, . + 0x100004",
        &[(1, 13, SourceErrorKind::Range)],
    ),
    ("j . - 0x100002", &[(1, 3, SourceErrorKind::Range)]),
    ("j . + 1", &[(1, 3, SourceErrorKind::Unaligned)]),
    ("add a0 a1, a2", &[(1, 8, SourceErrorKind::Comma)]),
    ("lw a0, 4", &[(1, 9, SourceErrorKind::Parenthesis)]),
    ("lw a0, 4(a1", &[(1, 12, SourceErrorKind::Parenthesis)]),
    (".ascii \"ab", &[(1, 11, SourceErrorKind::Quote)]),
    ("li a0, 'ab'", &[(1, 10, SourceErrorKind::Quote)]),
    (".ascii \"a\\q\"", &[(1, 11, SourceErrorKind::Escape)]),
    ("nop nop", &[(1, 5, SourceErrorKind::More)]),
    ("j there", &[(1, 3, SourceErrorKind::Undefined)]),
    ("j 1b\n1:", &[(1, 3, SourceErrorKind::Undefined)]),
    ("li a0, a\na:", &[(1, 8, SourceErrorKind::Later)]),
    ("a:\nnop; a: nop", &[(2, 6, SourceErrorKind::Duplicate)]),
    ("a0: addi a1, a1, a0", &[(1, 18, SourceErrorKind::Value)]),
    ("a0: lw a1, a0(a2)", &[(1, 12, SourceErrorKind::Value)]),
    (
        "addi a0, a0, (1 << 32) + 5",
        &[(1, 14, SourceErrorKind::Range)],
    ),
    (
        ".equ a, 0xffffffff\n.equ b, a + 6\nli a0, b",
        &[(3, 8, SourceErrorKind::Range)],
    ),
    (
        ".section .x, \"aw\" junk",
        &[(1, 19, SourceErrorKind::More)],
    ),
    (".section", &[(1, 9, SourceErrorKind::Section)]),
    (
        ".section .debug\n.popsection",
        &[(2, 1, SourceErrorKind::Unsupported)],
    ),
    (". = . + 4", &[(1, 1, SourceErrorKind::Unsupported)]),
    (
        "1: auipc a0, %pcrel_hi(x)\nx: addi a0, a0, %pcrel_lo(1b + 0)",
        &[(2, 18, SourceErrorKind::Distance)],
    ),
    (
        "nop\n1: nop\naddi a0, a0, %pcrel_lo(1b)\n.section .text.x\nnop\nauipc a0, %pcrel_hi(.)",
        &[(3, 15, SourceErrorKind::Distance)],
    ),
    ("nop\n.org 2", &[(2, 6, SourceErrorKind::Backward)]),
    (".byte 1\nnop\nnop", &[(2, 1, SourceErrorKind::Misplaced)]),
    (".half 1\nnop", &[(2, 1, SourceErrorKind::Misplaced)]),
    (
        "c.nop\n.byte 1\nc.nop",
        &[(3, 1, SourceErrorKind::Misplaced)],
    ),
    ("c.mul a0, a1", &[(1, 1, SourceErrorKind::Unknown)]),
    ("c.lw t0, 4(a1)", &[(1, 6, SourceErrorKind::Register)]),
    ("c.lwsp a0, 4(a1)", &[(1, 14, SourceErrorKind::Register)]),
    ("c.lui x2, 1", &[(1, 7, SourceErrorKind::Register)]),
    ("c.add a0, zero", &[(1, 11, SourceErrorKind::Register)]),
    ("c.lw a0, 2(a1)", &[(1, 10, SourceErrorKind::Range)]),
    ("c.addi16sp sp, 0", &[(1, 16, SourceErrorKind::Range)]),
    ("c.lui a0, -1", &[(1, 11, SourceErrorKind::Range)]),
    ("c.slli a0, 0", &[(1, 12, SourceErrorKind::Range)]),
    ("c.beqz a0, . + 256", &[(1, 12, SourceErrorKind::Range)]),
    ("c.j . + 3", &[(1, 5, SourceErrorKind::Unaligned)]),
    ("c.li a0, a\na:", &[(1, 10, SourceErrorKind::Later)]),
    ("a1: c.addi a0, a1", &[(1, 16, SourceErrorKind::Value)]),
    (".space 0x4000001", &[(1, 8, SourceErrorKind::TooLong)]),
    (".comm b, 2, 3", &[(1, 13, SourceErrorKind::Range)]),
    (
        "li\nnop\nj a; j b\n.word 1,\n",
        &[
            (1, 3, SourceErrorKind::Register),
            (3, 3, SourceErrorKind::Undefined),
            (4, 9, SourceErrorKind::Value),
        ],
    ),
];

/// No statement and no section follows the end of addresses.
static BEHIND_ALL: [(&str, &[Wrong]); 2] = [
    ("nop\nnop", &[(2, 1, SourceErrorKind::TooLong)]),
    ("nop\n.data", &[(2, 1, SourceErrorKind::TooLong)]),
];

#[test]
fn mistakes_are_told_with_their_places(rt: HostRuntime) {
    same_mistakes(&rt, rt.alloc(), 0, &MISTAKES);
    same_mistakes(&rt, rt.alloc(), 0xffff_fffc, &BEHIND_ALL);
}

/// A source with labels, a constant, and data.
const SOURCE: &[u8] = b"a: .word 1f, a\n.ascii \"xyz\"\nb = 1\n1:\n.byte b";

/// Whether it is assembled to the bytes that are wanted, or None where memory ran out.
fn is_assembled(alloc: Global) -> Option<bool> {
    match bytes_of(alloc, SOURCE, 0) {
        Ok(bytes) => Some(bytes.as_slice() == b"\x0b\0\0\0\0\0\0\0xyz\x01".as_slice()),
        Err(SourceFault::OutOfMemory) => None,
        Err(SourceFault::Errors(_)) => Some(false),
    }
}

/// Where memory runs out just this is told, and the next time all is made. It holds whichever
/// allocation is refused.
#[test]
fn a_refused_source_may_be_assembled_again(rt: HostRuntime) {
    let answers = (is_assembled(rt.alloc()), is_assembled(rt.alloc()));
    let right = [
        (Some(true), Some(true)),
        (None, Some(true)),
        (Some(true), None),
    ];
    assert!(rt; right.contains(&answers));
}
