//! Sources with mistakes, and the places that are told. GNU `as` refuses each at the same line, or
//! warns.

use crate::expansions::made;
use rrs_asm_macros::{MacroError, MacroErrorKind, MacroFault};
use std::alloc::Global;

/// Sources, each with the line and the column of its mistake.
static MISTAKES: [(&str, usize, usize, MacroErrorKind); 34] = [
    (".macro a\nnop", 1, 1, MacroErrorKind::Unended),
    (".rept 2\nnop\n.endm", 1, 1, MacroErrorKind::Unended),
    (
        "nop\n.macro a\n .if 1\n.endm\na",
        3,
        2,
        MacroErrorKind::UnendedCondition,
    ),
    (".if 1\nnop", 1, 1, MacroErrorKind::UnendedCondition),
    (" .endm", 1, 2, MacroErrorKind::EndAlone),
    ("nop; .endr", 1, 6, MacroErrorKind::EndAlone),
    (".else", 1, 1, MacroErrorKind::NoCondition),
    (".elseif 1", 1, 1, MacroErrorKind::NoCondition),
    ("nop\n.endif", 2, 1, MacroErrorKind::NoCondition),
    (
        ".if 1\n.else\n.else\n.endif",
        3,
        1,
        MacroErrorKind::SecondElse,
    ),
    (".exitm", 1, 1, MacroErrorKind::NothingToLeave),
    (".macro 1a\n.endm", 1, 8, MacroErrorKind::Name),
    (
        ".macro a\n.endm\n.macro A\n.endm",
        3,
        8,
        MacroErrorKind::Duplicate,
    ),
    (
        ".macro a b, b\n.endm",
        1,
        13,
        MacroErrorKind::DuplicateParameter,
    ),
    (".macro a b:any\n.endm", 1, 12, MacroErrorKind::Qualifier),
    (
        ".macro a b:vararg, c\n.endm",
        1,
        20,
        MacroErrorKind::BehindRest,
    ),
    (".purgem a", 1, 9, MacroErrorKind::NoMacro),
    (
        ".macro a b\n.endm\na c=1",
        3,
        3,
        MacroErrorKind::NoParameter,
    ),
    (".macro a b\n.endm\na 1, 2", 3, 6, MacroErrorKind::Arguments),
    (
        ".macro a b, c\n.endm\na b=1, 2",
        3,
        8,
        MacroErrorKind::Mixed,
    ),
    (".macro a b:req\n.endm\na", 3, 2, MacroErrorKind::Missing),
    (".if\n.endif", 1, 4, MacroErrorKind::Value),
    (".if 018\n.endif", 1, 5, MacroErrorKind::Number),
    (".if (1\n.endif", 1, 7, MacroErrorKind::Parenthesis),
    (".if 1 / 0\n.endif", 1, 10, MacroErrorKind::Division),
    ("x: .if x\n.endif", 1, 8, MacroErrorKind::NotConstant),
    (".rept -1\n.endr", 1, 7, MacroErrorKind::Negative),
    (".ifc a\n.endif", 1, 6, MacroErrorKind::Strings),
    (".if 1 2\n.endif", 1, 7, MacroErrorKind::More),
    (".if 0\n.else junk\n.endif", 2, 7, MacroErrorKind::More),
    (
        ".if 0\n.if 1\n.else junk\n.endif\n.endif",
        3,
        7,
        MacroErrorKind::More,
    ),
    (".macro a\na\n.endm\na", 2, 1, MacroErrorKind::Deep),
    (".rept 0x4000000\nnop\n.endr", 1, 7, MacroErrorKind::Much),
    (
        ".rept 0x40000000\n.if 0\nnop\n.endif\n.endr",
        1,
        7,
        MacroErrorKind::Much,
    ),
];

/// Whether the first mistake of a source is this one.
fn is_first(alloc: Global, source: &str, wanted: MacroError) -> bool {
    match made(alloc, source) {
        Err(MacroFault::Mistakes(mistakes)) => mistakes.first() == Some(&wanted),
        _ => false,
    }
}

/// Each mistake, with the line and the column where it is.
#[test]
fn mistakes_are_told_with_their_places(rt: HostRuntime) {
    for &(source, line, column, kind) in &MISTAKES {
        let wanted = MacroError { line, column, kind };
        assert!(rt; is_first(rt.alloc(), source, wanted), "{source}");
    }
}
