//! Sections, operators, directives and pseudo-instructions with symbols. The words are those that
//! GNU `as` and `ld` make.

use crate::assembled::same_words;

/// Statements at 0x100, each with its words.
static STATEMENTS: [(&str, &[u32]); 15] = [
    ("sgt a0, a1, a2", &[0x00b62533]),
    ("sgtu a0, a1, a2", &[0x00b63533]),
    ("zext.b a0, a1", &[0x0ff5f513]),
    ("unimp", &[0xc0001073]),
    ("lla a0, . + 0x1800", &[0x00002517, 0x80050513]),
    ("lw a0, x\nx:", &[0x00000517, 0x00852503]),
    ("lbu a1, x - 8\nx:", &[0x00000597, 0x0005c583]),
    ("sw a0, x, t0\nx:", &[0x00000297, 0x00a2a423]),
    ("jump x, t1\nx:", &[0x00000317, 0x00830067]),
    (
        "1: auipc a0, %pcrel_hi(x)\naddi a0, a0, %pcrel_lo(1b)\nx:",
        &[0x00000517, 0x00850513],
    ),
    (
        "j 2f\n1: addi a0, a0, %pcrel_lo(2f)\n2: auipc a0, %pcrel_hi(x)\nj 1b\n.section .rodata\n\
        .zero 4\nx: .word 1",
        &[0x0080006f, 0x00c50513, 0x00000517, 0xff9ff06f, 0, 1],
    ),
    (
        ".equ f, -32\n.word f / 4, f % 12, f < 0, f >> 60\n.dword f\n.set g, 1 << 33\n.word g >> 30",
        &[
            0xfffffff8, 0xfffffff8, 0xffffffff, 15, 0xffffffe0, 0xffffffff, 8,
        ],
    ),
    (
        ".section .x, \"aw\", @nobits # zeros\nv: .zero 4\n.bss\nw: .zero 8\n.data\n.word v, w",
        &[0x110, 0x108, 0, 0, 0],
    ),
    (
        ".word 2+3*4, (2+3)*4, 1<<4|3, ~5, 7-10/3, 017, 6&3^1, 5==5, 4<3, 1&&2, 0||0, 10%4, 3!=4, !0",
        &[
            14, 20, 0x13, 0xfffffffa, 4, 15, 3, 0xffffffff, 0, 1, 0, 2, 0xffffffff, 1,
        ],
    ),
    (
        ".8byte 0x1122334455667788\n.ascii \"\\101\\x42\\b\\f\\0\\\\\\\"1\"",
        &[0x55667788, 0x11223344, 0x0c084241, 0x31225c00],
    ),
];

/// A source with sections, their order mixed, and what is read over.
const SECTIONS: &str = "    .file \"a.c\"
    .option nopic
    .attribute arch, \"rv32i2p1_m2p0\"
    .data
x:  .word y
    .section .rodata.str1.4,\"aMS\",@progbits,1
y:  .string \"ab\"
    .text
    .globl main
    .type main, @function
main:
    .cfi_startproc
    lui a0, %hi(x)
    lw a0, %lo(x)(a0)
    .size main, .-main
    .bss
    .align 3
z:  .zero 4
    .section .note.GNU-stack,\"\",@progbits
w:  .word nothing
    .section .debug_info,\"\",@progbits
    .uleb128 0x1
    .text
    .word z
    .ident \"GCC\"
";

/// What `.comm` and `.lcomm` say lies after `.bss`, whichever section is open.
const COMMON: &str = "    .local b
    .comm b, 2, 4
    .lcomm c, 3
    .bss
a:  .zero 1
    .text
    .word a, b, c
";

/// The sections lie one after the other, and symbols reach across them.
static LAID_OUT: [(&str, &[u32]); 2] = [
    (
        SECTIONS,
        &[
            0x00000537, 0x10f52503, 0x00000118, 0x0c006261, 0x00000001, 0, 0,
        ],
    ),
    (COMMON, &[0x0000010c, 0x00000110, 0x00000112, 0, 0, 0]),
];

#[test]
fn statements_and_sections_are_those_of_gnu(rt: HostRuntime) {
    same_words(&rt, rt.alloc(), 0x100, &STATEMENTS);
    same_words(&rt, rt.alloc(), 0x100, &LAID_OUT);
}
