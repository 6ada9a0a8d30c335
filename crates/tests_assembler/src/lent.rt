//! Sources that are assembled in memory that is lent.

use crate::expansions::assembled;
use rrs_asm::{Program, Section, image};
use rrs_lent::{Room, RrsAssembled, RrsMistake, RrsStatement, RrsSymbol, assemble_lent};
use std::alloc::{AllocError, Global};

/// The address of the first section.
const START: u32 = 0x8000_0000;

/// Instructions, data, zeros, a constant, local labels, and two labels at one address.
const SECTIONS: &str = "size = 3
main: la a0, table
1:  lw a1, (a0)
    bnez a1, 1b
    .data
table: .word main, 2f
    .ascii \"xyz\"
    .bss
room: .space size
    .text
2:
end: ret
";

/// A statement that is made twice, and one that is made of an argument, with block comments.
const MACROS: &str = ".macro one byte /* a byte */
    .byte \\byte
.endm
.rept /*/ twice \" **/ 2
    nop /* \" ' # */
.endr
x:  one 3 # /*
";

/// Buffers with room for what these sources are.
const AMPLE: [usize; 5] = [4096, 256, 64, 20, 2048];

/// What is told of a source, and the buffers.
#[derive(Drop)]
struct Told {
    told: RrsAssembled,
    bytes: Vec<u8>,
    statements: Vec<RrsStatement>,
    symbols: Vec<RrsSymbol>,
    mistakes: Vec<RrsMistake>,
    texts: Vec<u8>,
}

/// No statement.
const NO_STATEMENT: RrsStatement = RrsStatement {
    line: 0,
    address: 0,
    size: 0,
};

/// No label.
const NO_SYMBOL: RrsSymbol = RrsSymbol {
    line: 0,
    name: 0,
    length: 0,
    address: 0,
};

/// No mistake.
const NO_MISTAKE: RrsMistake = RrsMistake {
    line: 0,
    column: 0,
    text: 0,
    length: 0,
};

/// Nothing is told.
const NOTHING: RrsAssembled = RrsAssembled {
    end: 0,
    entry: 0,
    bytes: 0,
    statements: 0,
    symbols: 0,
    mistakes: 0,
    texts: 0,
    room: 0,
};

/// Assembles a source in a room of a size, with buffers of these lengths.
fn lent(alloc: Global, source: &str, size: usize, lengths: [usize; 5]) -> Result<Told, AllocError> {
    let mut room = Room::of_allocator(&alloc, size)?;
    lent_in(alloc, source, &mut room, lengths)
}

/// What is counted then.
fn counts_of(
    alloc: Global,
    source: &str,
    size: usize,
    lengths: [usize; 5],
) -> Result<RrsAssembled, AllocError> {
    Ok(lent(alloc, source, size, lengths)?.told)
}

/// Buffers of these lengths, in which nothing is told.
fn buffers_of(alloc: Global, lengths: [usize; 5]) -> Result<Told, AllocError> {
    let [bytes, statements, symbols, mistakes, texts] = lengths;
    Ok(Told {
        told: NOTHING,
        bytes: vec![in alloc; 0xa5; bytes]?,
        statements: vec![in alloc; NO_STATEMENT; statements]?,
        symbols: vec![in alloc; NO_SYMBOL; symbols]?,
        mistakes: vec![in alloc; NO_MISTAKE; mistakes]?,
        texts: vec![in alloc; b'-'; texts]?,
    })
}

/// Assembles a source in a room, with buffers of these lengths. The contract of `assemble_lent` is
/// paid in this function alone.
fn lent_in(
    alloc: Global,
    source: &str,
    room: &mut Room,
    lengths: [usize; 5],
) -> Result<Told, AllocError> {
    let mut told = buffers_of(alloc, lengths)?;
    told.told = assemble_lent(
        source.as_bytes(),
        START,
        room,
        &mut told.bytes,
        &mut told.statements,
        &mut told.symbols,
        &mut told.mistakes,
        &mut told.texts,
    );
    Ok(told)
}

/// Cuts the buffers to what is told.
fn cut(told: &mut Told) {
    let counts = told.told;
    told.bytes.truncate(counts.bytes);
    told.statements.truncate(counts.statements);
    told.symbols.truncate(counts.symbols);
    told.mistakes.truncate(counts.mistakes);
    told.texts.truncate(counts.texts);
}

/// Appends the statements and the labels of a section to what has to be told.
fn append(wanted: &mut Told, section: &Section) -> Result<(), AllocError> {
    for placed in &section.made.placed {
        wanted.statements.push(RrsStatement {
            line: placed.line,
            address: placed.address,
            size: u32::try_from(placed.statement.size()).unwrap_or(0),
        })?;
    }
    for label in &section.made.labels {
        wanted.symbols.push(RrsSymbol {
            line: label.line,
            name: wanted.texts.len(),
            length: label.name.len(),
            address: label.address,
        })?;
        wanted.texts.extend_from_slice(label.name)?;
    }
    Ok(())
}

/// What has to be told of a program.
fn wanted_of(alloc: Global, program: &Program) -> Result<Told, AllocError> {
    let mut wanted = buffers_of(alloc, [0; 5])?;
    for section in &program.sections {
        append(&mut wanted, section)?;
    }
    wanted.bytes = image(alloc, program, START)?;
    wanted.told = RrsAssembled {
        entry: START,
        bytes: wanted.bytes.len(),
        statements: wanted.statements.len(),
        symbols: wanted.symbols.len(),
        texts: wanted.texts.len(),
        ..NOTHING
    };
    Ok(wanted)
}

/// Whether the same is told twice.
fn same(one: &Told, other: &Told) -> bool {
    one.told == other.told
        && one.bytes == other.bytes
        && one.statements == other.statements
        && one.symbols == other.symbols
        && one.mistakes == other.mistakes
        && one.texts == other.texts
}

/// Whether a source is told as the program that it is.
fn is_told(alloc: Global, source: &str) -> Result<bool, AllocError> {
    let mut told = lent(alloc, source, 0x4_0000, AMPLE)?;
    cut(&mut told);
    match assembled(alloc, source.as_bytes(), START) {
        Ok(program) => Ok(same(&told, &wanted_of(alloc, &program)?)),
        Err(_) => Ok(false),
    }
}

/// Sources that are assembled.
static SOURCES: [&str; 4] = ["", "nop", "ends: .byte 1, 2\n.balign 8\n", SECTIONS];

/// What is told is what `assemble_source` makes.
#[test]
fn sources_are_told_as_they_are_made(rt: HostRuntime) {
    for &source in &SOURCES {
        assert!(rt; is_told(rt.alloc(), source) == Ok(true), "{source}");
    }
}

/// The line, the address and the size of each statement of the macros.
static MADE: [(usize, u32, u32); 3] = [
    (5, 0x8000_0000, 4),
    (5, 0x8000_0004, 4),
    (2, 0x8000_0008, 1),
];

/// Whether the macros are told so, and their label at its line and its address.
fn are_macros(told: &Told) -> bool {
    let mut is_same = told.told.statements == MADE.len() && told.told.symbols == 1;
    for (own, &(line, address, size)) in told.statements.iter().zip(&MADE) {
        is_same = is_same
            && *own
                == RrsStatement {
                    line,
                    address,
                    size,
                };
    }
    let is_label = match told.symbols.first() {
        Some(label) => label.line == 7 && label.address == 0x8000_0008,
        None => false,
    };
    is_same && is_label && told.bytes.starts_with(b"\x13\0\0\0\x13\0\0\0\x03")
}

/// Of a macro and a repetition each statement is told at the line of its body.
#[test]
fn macros_are_told_at_the_lines_of_their_bodies(rt: HostRuntime) -> Result<(), AllocError> {
    let told = lent(rt.alloc(), MACROS, 0x4_0000, AMPLE)?;
    assert!(rt; are_macros(&told));
    Ok(())
}

/// What is told of the mistakes of a source, a line for each.
fn mistakes_in(alloc: Global, source: &str) -> Result<String, AllocError> {
    let told = lent(alloc, source, 0x4_0000, AMPLE)?;
    let mut text = String::new(alloc);
    for mistake in told.mistakes.iter().take(told.told.mistakes) {
        let (line, column) = (mistake.line, mistake.column);
        let end = mistake.text.saturating_add(mistake.length);
        let own = told.texts.get(mistake.text..end).unwrap_or(&[]);
        let own = std::str::from_utf8(own).unwrap_or("");
        write!(&mut text, "{line}:{column}: {own};")?;
    }
    Ok(text)
}

/// Sources, each with what is told of its mistakes.
static MISTAKES: [(&str, &str); 5] = [
    (
        "addi a0, a1, a2\nj there\nsub a0, a0, 1",
        "1:14: a number is wanted here: add takes three registers;\
         2:3: symbol is not defined: there;\
         3:13: a register is wanted here: addi takes a number, here the negative one;",
    ),
    ("nop\n.endr", "2:1: this ends no macro and no repetition;"),
    (
        "li a0, '/' /* \n nop",
        "2:5: a comment that begins with /* does not end;",
    ),
    (
        ".macro m\nx: nop\n.endm\nm\nm",
        "2:1: symbol is defined already: x; in a macro, \\@ makes it another one in each call;",
    ),
    (
        ".if there\n.endif\n.macro m a\n.if \\a\n.endif\n.endm\nm b",
        "1:5: the value has to be known here, and is not: there;\
         4:5: the value has to be known here, and is not;",
    ),
];

/// Mistakes are told as `rrs as` tells them.
#[test]
fn mistakes_are_told_in_texts(rt: HostRuntime) -> Result<(), AllocError> {
    for &(source, wanted) in &MISTAKES {
        let text = mistakes_in(rt.alloc(), source)?;
        assert!(rt; text.as_str() == wanted, "{source}");
    }
    Ok(())
}

/// How large a room is asked for until no more is asked for. It is 0 where none is asked for at
/// first.
fn size_at_last(alloc: Global, source: &str) -> Result<usize, AllocError> {
    let mut size = 0;
    let mut counts = counts_of(alloc, source, 496, AMPLE)?;
    for _ in 0..8 {
        if counts.end == 2 {
            size = counts.room;
            counts = counts_of(alloc, source, size, AMPLE)?;
        }
    }
    Ok(size)
}

/// Whether the same is told in a room of a size as in an ample one.
fn is_told_in(alloc: Global, source: &str, size: usize) -> Result<bool, AllocError> {
    let mut wanted = lent(alloc, source, 0x4_0000, AMPLE)?;
    let mut told = lent(alloc, source, size, AMPLE)?;
    cut(&mut wanted);
    cut(&mut told);
    Ok(same(&told, &wanted))
}

/// Whether no room is told, and how much is asked for, and no byte is written.
fn is_small(alloc: Global) -> Result<bool, AllocError> {
    let none = lent(alloc, "nop", 0, AMPLE)?;
    let is_kept = none.bytes.iter().all(|byte| *byte == 0xa5);
    Ok(is_kept && none.told.end == 2 && none.told.room == 0x1_0000)
}

/// A room that is too small is told, and one of the size that is asked for is no longer.
#[test]
fn a_small_room_is_told(rt: HostRuntime) -> Result<(), AllocError> {
    assert!(rt; is_small(rt.alloc()) == Ok(true));
    let size = size_at_last(rt.alloc(), SECTIONS)?;
    assert!(rt; size != 0 && is_told_in(rt.alloc(), SECTIONS, size) == Ok(true));
    Ok(())
}

/// How a source ends three times in one room, and how large that is then.
fn ends_in_one(alloc: Global, source: &str) -> Result<([u32; 3], usize), AllocError> {
    let mut room = Room::of_allocator(&alloc, 0x1_0000)?;
    let mut ends = [9; 3];
    for end in &mut ends {
        *end = lent_in(alloc, source, &mut room, AMPLE)?.told.end;
    }
    Ok((ends, room.with_size().0))
}

/// A room is given back, and may be lent again.
#[test]
fn a_room_is_lent_again(rt: HostRuntime) {
    assert!(rt; ends_in_one(rt.alloc(), SECTIONS) == Ok(([0; 3], 0x1_0000)));
    assert!(rt; ends_in_one(rt.alloc(), "li") == Ok(([1; 3], 0x1_0000)));
}

/// How it ends with each of the buffers too small by one, and with all as long as they have to be.
fn ends(alloc: Global, source: &str) -> Result<[u32; 6], AllocError> {
    let counts = counts_of(alloc, source, 0x4_0000, [0; 5])?;
    let lengths = [
        counts.bytes,
        counts.statements,
        counts.symbols,
        counts.mistakes,
        counts.texts,
    ];
    let mut ends = [9; 6];
    for (small, end) in ends.iter_mut().enumerate() {
        let mut lengths = lengths;
        if let Some(length) = lengths.get_mut(small) {
            *length = length.saturating_sub(1);
        }
        *end = counts_of(alloc, source, 0x4_0000, lengths)?.end;
    }
    Ok(ends)
}

/// Each buffer that is too small by one is too small, and none where none is. There is no mistake
/// of a program, and of mistakes no more than these and their texts.
#[test]
fn small_buffers_are_told(rt: HostRuntime) {
    assert!(rt; ends(rt.alloc(), SECTIONS) == Ok([3, 3, 3, 0, 3, 0]));
    assert!(rt; ends(rt.alloc(), "li\nli") == Ok([1, 1, 1, 3, 3, 1]));
}
