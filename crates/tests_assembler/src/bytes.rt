//! Sources, and the bytes that GNU `as -march=rv32im -mno-relax` makes of them.

use crate::expansions::{assembled, made};
use rrs_asm::image;
use std::alloc::Global;

/// Sources with macros, conditions and repetitions, and their bytes.
static ROWS: [(&str, &[u8]); 43] = [
    (".rept 3\n.byte 1\n.endr\n.byte 2", &[1, 1, 1, 2]),
    (
        ".if 5!!3 - 6\n.byte 1\n.else\n.byte 5!!3, 5!3\n.endif",
        &[6, 253],
    ),
    (".REPT 2; .byte 1; .ENDR; .byte 2", &[1, 1, 2]),
    (
        ".rep 2\n.byte 1\n.rept 2\n.byte 2\n.endr\n.endr",
        &[1, 2, 2, 1, 2, 2],
    ),
    (".rept 0\n.byte 1\n.endr\n.byte 2", &[2]),
    (
        ".equ count, 2 + 1\n.rept count * 2\n.byte count\n.endr",
        &[3, 3, 3, 3, 3, 3],
    ),
    (".irp value, 1, 2 + 3 4\n.byte \\value\n.endr", &[1, 5, 4]),
    (
        ".irp register a0 a1\nmv \\register, zero\n.endr",
        &[19, 5, 0, 0, 147, 5, 0, 0],
    ),
    (".irp value\n.byte 7\\value\n.endr", &[7]),
    (
        ".irp text, \"1, 2\", \"3\"\n.byte \\text\n.endr",
        &[1, 2, 3],
    ),
    (".irpc digit, 123\n.byte 4\\digit\n.endr", &[41, 42, 43]),
    (".irpc digit, \"12\"\n.byte \\digit\\()0\n.endr", &[10, 20]),
    (
        ".irp one, 1, 2\n.irp two, 3, 4\n.byte \\one\\two\n.endr\n.endr",
        &[13, 14, 23, 24],
    ),
    (
        ".macro twice value\n.byte \\value\n.byte \\value\n.endm\ntwice 3\nTWICE 4",
        &[3, 3, 4, 4],
    ),
    (
        ".macro sum a, b=5, c\n.byte \\a + \\b, \\c + 0\n.endm\nsum 1 + 2\nsum 1, 2 3\nsum c=3, a=1\nsum 1,,2\nsum 'a', ','",
        &[8, 0, 3, 3, 6, 3, 6, 2, 141, 0],
    ),
    (
        ".macro put first=1 second:req\n.byte \\first, \\second\n.endm\nput ,9\nput second=2",
        &[1, 9, 1, 2],
    ),
    (
        ".macro all first, others:vararg\n.byte \\first\n.ifnb \\others\nall \\others\n.endif\n.endm\nall 1, 2, 3",
        &[1, 2, 3],
    ),
    (
        ".macro named\n.byte \\@\nnamed_\\@: .byte named_\\@ - named_0\n.endm\nnamed\nnamed",
        &[0, 0, 1, 2],
    ),
    (
        ".macro text value\n.ascii \"\\value\"\n.ascii \"x\\value\\()y\"\n.endm\ntext abc\ntext \"a b\"\ntext a;#b",
        &[
            97, 98, 99, 120, 97, 98, 99, 121, 97, 32, 98, 120, 97, 32, 98, 121, 97, 120, 97, 121,
        ],
    ),
    (
        ".macro down count\n.if \\count\n.byte \\count\ndown \\count-1\n.endif\n.endm\ndown 4",
        &[4, 3, 2, 1],
    ),
    (
        ".macro leave value\n.byte 1\n.if \\value\n.exitm\n.endif\n.byte 2\n.endm\nleave 0\nleave 1\n.byte 3",
        &[1, 2, 1, 3],
    ),
    (
        ".macro make name, value\n.macro \\name\n.byte \\value\n.endm\n.endm\nmake one, 1\nmake two, 2\ntwo\none",
        &[2, 1],
    ),
    (
        ".macro old\n.byte 1\n.endm\nold\n.purgem old\n.macro old\n.byte 2\n.endm\nold",
        &[1, 2],
    ),
    (
        ".macro nop\n.word 9\n.endm\nnop\n.purgem nop\nnop",
        &[9, 0, 0, 0, 19, 0, 0, 0],
    ),
    (
        ".macro put n\n.byte '\\n', \\n\n.ascii \"\\n'\\n\"\n.endm\nput 5",
        b"\n\x055'5",
    ),
    (".macro .short_name\n.byte 9\n.endm\n.short_name", &[9]),
    (
        ".macro quiet\n.endm\nstart: quiet\n.byte 1\nend: .byte end - start",
        &[1, 1],
    ),
    (
        ".macro word value=(1 + 2)\n.byte \\value * 2 # \\value\n.endm\nword\nword (3 + 4) # )",
        &[6, 14],
    ),
    (
        "label: .rept 2; .byte . - label; .endr; .byte 5",
        &[0, 1, 5],
    ),
    (
        ".macro each values:vararg\n.irp value, \\values\n.byte \\value + \\@\n.endr\n.endm\neach 1, 2\neach 3",
        &[1, 2, 4],
    ),
    (
        ".macro load rd, rs\naddi \\rd, \\rs, 3\n.endm\nload a0 a1\nload rs=a2 rd=a3",
        &[19, 133, 53, 0, 147, 6, 54, 0],
    ),
    (
        ".if 1 == 1\n.byte 1\n.elseif 1\n.byte 2\n.else\n.byte 3\n.endif",
        &[1],
    ),
    (
        ".if 0\n.byte 1\n.elseif 2 > 1\n.byte 2\n.else\n.byte 3\n.endif",
        &[2],
    ),
    (
        ".if 0\n.byte 1\n.elseif 0\n.byte 2\n.else\n.byte 3\n.endif",
        &[3],
    ),
    (
        ".if 0\n.if 1\n.byte 1\n.else\n.byte 2\n.endif\n.macro no\n.rept 3\n.else\n.byte 3\n.endif",
        &[3],
    ),
    (
        ".set a, 1\n.set a, a + 1\nb = a * 3\n.if b == 6 && !(a - 2)\n.byte b\n.endif",
        &[6],
    ),
    (
        ".ifdef never\n.byte 1\n.endif\n.ifndef never\n.byte 2\n.endif\nlabel: .ifdef label\n.byte 3\n.endif",
        &[2, 3],
    ),
    (
        ".ifeq 0\n.byte 1\n.endif\n.ifne 0\n.byte 2\n.endif\n.iflt -1\n.byte 3\n.endif\n.ifge 0\n.byte 4\n.endif\n.ifgt 0\n.byte 5\n.endif\n.ifle 1\n.byte 6\n.endif",
        &[1, 3, 4],
    ),
    (
        ".ifb\n.byte 1\n.endif\n.ifnb x\n.byte 2\n.endif\n.ifc a b,a  b\n.byte 3\n.endif\n.ifnc a,b\n.byte 4\n.endif",
        &[1, 2, 3, 4],
    ),
    (
        ".ifeqs \"a,b\", \"a,b\"\n.byte 1\n.endif\n.ifnes \"a\", \"b\"\n.byte 2\n.endif",
        &[1, 2],
    ),
    (
        ".if 1 ; .byte 1 ; .else ; .byte 2 ; .endif ; .byte 3",
        &[1, 3],
    ),
    (
        ".if (1 << 4 | 3) == 19 && -8 / 3 == -2 && 7 % 4 == 3 && ~0 == -1 && 'a' < 98 && 0x10 == 020\n.byte 1\n.endif",
        &[1],
    ),
    (
        ".byte 1 # .if 0\n.byte 2 # .endm\n.ascii \".rept 3\"\n.ascii \"#;\"; .rept 2; .byte 3 ; .endr",
        &[1, 2, 46, 114, 101, 112, 116, 32, 51, 35, 59, 3, 3],
    ),
];

/// Whether a source is expanded, and assembled to these bytes.
fn has_bytes(alloc: Global, source: &str, wanted: &[u8]) -> Option<bool> {
    let expanded = made(alloc, source).ok()?;
    let program = assembled(alloc, &expanded.text, 0).ok()?;
    let bytes = image(alloc, &program, 0).ok()?;
    Some(bytes.as_slice() == wanted)
}

/// Each source has the bytes that GNU `as` makes of it.
#[test]
fn sources_have_the_bytes_of_gnu(rt: HostRuntime) {
    for &(source, wanted) in &ROWS {
        assert!(rt;
            has_bytes(rt.alloc(), source, wanted) == Some(true),
            "{source}"
        );
    }
}
