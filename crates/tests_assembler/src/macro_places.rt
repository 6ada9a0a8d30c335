//! Which line of the source each line of a result is of.

use crate::expansions::made;
use rrs_asm_macros::Expanded;
use std::alloc::Global;

/// A source with statements that no assembler knows, in macros, repetitions and conditions.
static SOURCE: &str = "\
    .macro one a\n \
      nop\n \
      bad \\a\n \
    .endm\n \
    bad 0\n \
    one 1\n \
    .rept 2\n \
    nop\n \
    bad 2\n \
    .endr\n \
    .irp r, a0, a1\n \
     bad \\r\n \
    .macro two_\\r\n \
    bad 3\n \
    one 4\n \
    .endm\n \
    two_\\r\n \
    .endr\n \
    .if 1\n \
    bad 5; .rept 2; bad 6\n \
    bad 7; .endr; bad 8\n \
    .endif\n \
    bad 9\n";

/// The line that GNU `as` tells for each of them, in its order.
static TOLD: [usize; 17] = [5, 3, 9, 9, 12, 14, 3, 12, 14, 3, 20, 20, 21, 20, 21, 21, 23];

/// Whether the lines of the result in which such a statement stands are of these lines.
fn are_of(expanded: &Expanded, wanted: &[usize]) -> bool {
    let mut others = wanted.iter();
    let mut is_same = true;
    let lines = expanded.text.split(|byte| *byte == b'\n');
    for (line, number) in lines.zip(&expanded.lines) {
        for word in line.windows(3) {
            if word == b"bad".as_slice() {
                is_same = is_same && others.next() == Some(number);
            }
        }
    }
    is_same && others.next().is_none()
}

/// They are of the lines that GNU `as` tells.
#[test]
fn lines_are_those_that_gnu_tells(rt: HostRuntime) {
    let is_same = match made(rt.alloc(), SOURCE) {
        Ok(expanded) => are_of(&expanded, &TOLD),
        Err(_) => false,
    };
    assert!(rt; is_same);
}

/// Sources without directives, with and without a line feed at the end.
static PLAIN: [&str; 4] = [
    "",
    "nop",
    "nop\n",
    "a: nop; nop # no\n\n.macros\n .equ x, 1\r\n",
];

/// Whether a source is as it was.
fn stays(alloc: Global, source: &str) -> bool {
    match made(alloc, source) {
        Ok(expanded) => expanded.text.as_slice() == source.as_bytes(),
        Err(_) => false,
    }
}

#[test]
fn a_source_without_directives_stays(rt: HostRuntime) {
    for &source in &PLAIN {
        assert!(rt; stays(rt.alloc(), source), "{source}");
    }
}
