//! Lines, and the words that they are.

use crate::assembled::{bytes_of, same_words};
use rrs_asm::{Branch, Pseudo, SwappedBranch, Unary, ZeroBranch};
use rrs_asm_output::gnu_text;
use rrs_lib::disassembly::Disassembled;
use rrs_lib::instruction::Instruction;
use std::alloc::Global;

/// The text of each row at 0x100, and its word. `lui` and `auipc` take the upper 20 bits alone.
static ROWS: [(&str, &[u32]); 48] = [
    ("add x3, x1, x2", &[0x002081b3]),
    ("sub x3, x1, x2", &[0x402081b3]),
    ("sll x3, x1, x2", &[0x002091b3]),
    ("slt x3, x1, x2", &[0x0020a1b3]),
    ("sltu x3, x1, x2", &[0x0020b1b3]),
    ("xor x3, x1, x2", &[0x0020c1b3]),
    ("srl x3, x1, x2", &[0x0020d1b3]),
    ("sra x3, x1, x2", &[0x4020d1b3]),
    ("or x3, x1, x2", &[0x0020e1b3]),
    ("and x3, x1, x2", &[0x0020f1b3]),
    ("addi x3, x1, -5", &[0xffb08193]),
    ("slli x3, x1, 7", &[0x00709193]),
    ("slti x3, x1, -5", &[0xffb0a193]),
    ("sltiu x3, x1, -5", &[0xffb0b193]),
    ("xori x3, x1, -5", &[0xffb0c193]),
    ("srli x3, x1, 7", &[0x0070d193]),
    ("srai x3, x1, 7", &[0x4070d193]),
    ("ori x3, x1, -5", &[0xffb0e193]),
    ("andi x3, x1, -5", &[0xffb0f193]),
    ("lui x3, 0x12345", &[0x123451b7]),
    ("auipc x3, 0x12345", &[0x12345197]),
    ("beq x1, x2, 0x00000108", &[0x00208463]),
    ("bne x1, x2, 0x00000108", &[0x00209463]),
    ("blt x1, x2, 0x00000108", &[0x0020c463]),
    ("bltu x1, x2, 0x00000108", &[0x0020e463]),
    ("bge x1, x2, 0x00000108", &[0x0020d463]),
    ("bgeu x1, x2, 0x00000108", &[0x0020f463]),
    ("lb x3, -4(x1)", &[0xffc08183]),
    ("lbu x3, -4(x1)", &[0xffc0c183]),
    ("lh x3, -4(x1)", &[0xffc09183]),
    ("lhu x3, -4(x1)", &[0xffc0d183]),
    ("lw x3, -4(x1)", &[0xffc0a183]),
    ("sb x2, 8(x1)", &[0x00208423]),
    ("sh x2, 8(x1)", &[0x00209423]),
    ("sw x2, 8(x1)", &[0x0020a423]),
    ("jal x3, 0x00000110", &[0x010001ef]),
    ("jalr x3, 0x014(x1)", &[0x014081e7]),
    ("mul x3, x1, x2", &[0x022081b3]),
    ("mulh x3, x1, x2", &[0x022091b3]),
    ("mulhu x3, x1, x2", &[0x0220b1b3]),
    ("mulhsu x3, x1, x2", &[0x0220a1b3]),
    ("div x3, x1, x2", &[0x0220c1b3]),
    ("divu x3, x1, x2", &[0x0220d1b3]),
    ("rem x3, x1, x2", &[0x0220e1b3]),
    ("remu x3, x1, x2", &[0x0220f1b3]),
    ("fence", &[0x0ff0000f]),
    ("ecall", &[0x00000073]),
    ("ebreak", &[0x00100073]),
];

/// A line of each instruction of a layer, and its word.
static LAYERS: [(&str, &[u32]); 59] = [
    ("csrrw a0, mstatus, a1", &[0x30059573]),
    ("csrrs a0, mepc, a1", &[0x3415a573]),
    ("csrrc ra, 4095, sp", &[0xfff130f3]),
    ("csrrwi a0, mtvec, 5", &[0x3052d573]),
    ("csrrsi a0, mstatus, 8", &[0x30046573]),
    ("csrrci ra, mhpmcounter3h, 0", &[0xb83070f3]),
    ("mret", &[0x30200073]),
    ("wfi", &[0x10500073]),
    ("fence.i", &[0x0000100f]),
    ("lr.w a0, (a1)", &[0x1005a52f]),
    ("sc.w a0, a2, (a1)", &[0x18c5a52f]),
    ("amoswap.w a0, a2, (a1)", &[0x08c5a52f]),
    ("amoadd.w a0, a2, (a1)", &[0x00c5a52f]),
    ("amoxor.w a0, a2, (a1)", &[0x20c5a52f]),
    ("amoand.w a0, a2, (a1)", &[0x60c5a52f]),
    ("amoor.w a0, a2, (a1)", &[0x40c5a52f]),
    ("amomin.w a0, a2, (a1)", &[0x80c5a52f]),
    ("amomax.w a0, a2, (a1)", &[0xa0c5a52f]),
    ("amominu.w a0, a2, (a1)", &[0xc0c5a52f]),
    ("amomaxu.w a0, a2, (a1)", &[0xe0c5a52f]),
    ("sh1add a0, a1, a2", &[0x20c5a533]),
    ("sh2add a0, a1, a2", &[0x20c5c533]),
    ("sh3add a0, a1, a2", &[0x20c5e533]),
    ("andn a0, a1, a2", &[0x40c5f533]),
    ("orn a0, a1, a2", &[0x40c5e533]),
    ("xnor a0, a1, a2", &[0x40c5c533]),
    ("clz a0, a1", &[0x60059513]),
    ("ctz a0, a1", &[0x60159513]),
    ("cpop a0, a1", &[0x60259513]),
    ("max a0, a1, a2", &[0x0ac5e533]),
    ("maxu a0, a1, a2", &[0x0ac5f533]),
    ("min a0, a1, a2", &[0x0ac5c533]),
    ("minu a0, a1, a2", &[0x0ac5d533]),
    ("sext.b a0, a1", &[0x60459513]),
    ("sext.h a0, a1", &[0x60559513]),
    ("zext.h a0, a1", &[0x0805c533]),
    ("rol a0, a1, a2", &[0x60c59533]),
    ("ror a0, a1, a2", &[0x60c5d533]),
    ("rori a0, a1, 31", &[0x61f5d513]),
    ("orc.b a0, a1", &[0x2875d513]),
    ("rev8 a0, a1", &[0x6985d513]),
    ("bclr a0, a1, a2", &[0x48c59533]),
    ("bclri a0, a1, 5", &[0x48559513]),
    ("bext a0, a1, a2", &[0x48c5d533]),
    ("bexti a0, a1, 5", &[0x4855d513]),
    ("binv a0, a1, a2", &[0x68c59533]),
    ("binvi a0, a1, 5", &[0x68559513]),
    ("bset a0, a1, a2", &[0x28c59533]),
    ("bseti a0, a1, 5", &[0x28559513]),
    ("clmul a0, a1, a2", &[0x0ac59533]),
    ("clmulh a0, a1, a2", &[0x0ac5b533]),
    ("clmulr a0, a1, a2", &[0x0ac5a533]),
    ("pack a0, a1, a2", &[0x08c5c533]),
    ("packh a0, a1, a2", &[0x08c5f533]),
    ("brev8 a0, a1", &[0x6875d513]),
    ("zip a0, a1", &[0x08f59513]),
    ("unzip a0, a1", &[0x08f5d513]),
    ("czero.eqz a0, a1, a2", &[0x0ec5d533]),
    ("czero.nez a0, a1, a2", &[0x0ec5f533]),
];

/// Pseudo-instructions, and how operands can be written.
static PSEUDO_INSTRUCTIONS: [(&str, &[u32]); 73] = [
    ("csrrw a0, mstatus, a1", &[0x30059573]),
    ("csrr a0, mepc", &[0x34102573]),
    ("csrw mtvec, a0", &[0x30551073]),
    ("csrw mtvec, 5", &[0x3052d073]),
    ("csrrs t0, 0x340, 31", &[0x340fe2f3]),
    ("csrs mie, a0", &[0x30452073]),
    ("csrsi mstatus, 8", &[0x30046073]),
    ("csrrci x1, mhpmcounter3h, 0", &[0xb83070f3]),
    ("mret", &[0x30200073]),
    ("wfi", &[0x10500073]),
    ("fence.i", &[0x0000100f]),
    ("rdcycle a0", &[0xc0002573]),
    ("rdinstreth t1", &[0xc8202373]),
    ("csrc mip, t6", &[0x344fb073]),
    ("lr.w.aq a0, (a1)", &[0x1405a52f]),
    ("sc.w x0, a2, 0(a1)", &[0x18c5a02f]),
    ("amomaxu.w.aqrl a0, a2, (1 - 1)(a1)", &[0xe6c5a52f]),
    ("csrrc ra, 4095, sp", &[0xfff130f3]),
    ("rdtime s0", &[0xc0102473]),
    ("nop", &[0x00000013]),
    ("ret", &[0x00008067]),
    ("fence", &[0x0ff0000f]),
    ("li a0, 0", &[0x00000513]),
    ("li a0, -2048", &[0x80000513]),
    ("li a0, 2047", &[0x7ff00513]),
    ("li a0, 2048", &[0x00001537, 0x80050513]),
    ("li a0, 0x7ffff800", &[0x80000537, 0x80050513]),
    ("li a0, 0xfffff7ff", &[0xfffff537, 0x7ff50513]),
    ("li a0, 0x80000000", &[0x80000537]),
    ("li a0, 0x7ffff7ff", &[0x7ffff537, 0x7ff50513]),
    ("li s11, 'A'", &[0x04100d93]),
    ("li a0, 0x12345000", &[0x12345537]),
    ("mv a0, a1", &[0x00058513]),
    ("not a0, a1", &[0xfff5c513]),
    ("neg a0, a1", &[0x40b00533]),
    ("seqz a0, a1", &[0x0015b513]),
    ("snez a0, a1", &[0x00b03533]),
    ("sltz a0, a1", &[0x0005a533]),
    ("sgtz a0, a1", &[0x00b02533]),
    ("beqz a0, . + 8", &[0x00050463]),
    ("bnez a0, . + 8", &[0x00051463]),
    ("blez a0, . + 8", &[0x00a05463]),
    ("bgez a0, . + 8", &[0x00055463]),
    ("bltz a0, . + 8", &[0x00054463]),
    ("bgtz a0, . - 8", &[0xfea04ce3]),
    ("bgt a0, a1, . + 8", &[0x00a5c463]),
    ("ble a0, a1, . + 8", &[0x00a5d463]),
    ("bgtu a0, a1, . + 8", &[0x00a5e463]),
    ("bleu a0, a1, . - 4096", &[0x80a5f063]),
    ("beq a0, a1, . + 4096", &[0x00b51463, 0x7fd0006f]),
    ("bgtu a0, a1, . + 4100", &[0x00a5f463, 0x0000106f]),
    ("bltz a0, . + 0x1000", &[0x00055463, 0x7fd0006f]),
    ("bne a0, a1, . - 4096", &[0x80b51063]),
    ("j . + 8", &[0x0080006f]),
    ("jal . - 8", &[0xff9ff0ef]),
    ("jr a0", &[0x00050067]),
    ("jalr a0", &[0x000500e7]),
    ("jalr t0, a0", &[0x000502e7]),
    ("jalr t0, a0, -4", &[0xffc502e7]),
    ("jalr t0, -4(a0)", &[0xffc502e7]),
    ("la a0, . + 0x1800", &[0x00002517, 0x80050513]),
    ("la a0, . - 4", &[0x00000517, 0xffc50513]),
    ("call . + 0x800", &[0x00001097, 0x800080e7]),
    ("call . - 0x801", &[0xfffff097, 0x7ff080e7]),
    ("tail . + 0x12345678", &[0x12345317, 0x67830067]),
    ("lui a0, %hi(0x12345fff)", &[0x12346537]),
    ("addi a0, a0, %lo(0x12345fff)", &[0xfff50513]),
    ("lw a0, %lo(0x12345fff)(a1)", &[0xfff5a503]),
    ("sw zero, (sp)", &[0x00012023]),
    ("fence rw, w", &[0x0310000f]),
    ("addi fp, gp, 0xffffffff", &[0xfff18413]),
    ("lui t6, 0xfffff", &[0xffffffb7]),
    ("xori tp, ra, '\\n'", &[0x00a0c213]),
];

/// Compressed instructions.
static COMPRESSED: [(&str, &[u32]); 39] = [
    ("c.addi4spn s0, sp, 4", &[0x0040]),
    ("c.addi4spn a5, x2, 1020", &[0x1ffc]),
    ("c.lw a0, (a1)", &[0x4188]),
    ("c.lw x15, 124(x8)", &[0x5c7c]),
    ("c.sw s1, 4(fp)", &[0xc044]),
    ("c.nop", &[0x0001]),
    ("c.addi sp, -32", &[0x1101]),
    ("c.addi zero, 0", &[0x0001]),
    ("c.jal . - 2048", &[0x3001]),
    ("c.li t6, 31", &[0x4ffd]),
    ("c.li x0, 'a' - 'b'", &[0x507d]),
    ("c.addi16sp sp, -512", &[0x7101]),
    ("c.addi16sp x2, 496", &[0x617d]),
    ("c.lui a0, 1", &[0x6505]),
    ("c.lui t6, 0xfffe0", &[0x7f81]),
    ("c.lui zero, 0xfffff", &[0x707d]),
    ("c.srli a0, 31", &[0x817d]),
    ("c.srai s1, 1", &[0x8485]),
    ("c.andi a5, -32", &[0x9b81]),
    ("c.sub a0, a1", &[0x8d0d]),
    ("c.xor s0, a5", &[0x8c3d]),
    ("c.or a2, a2", &[0x8e51]),
    ("c.and a3, s1", &[0x8ee5]),
    ("c.j . + 2046", &[0xaffd]),
    ("c.beqz a0, . - 256", &[0xd101]),
    ("c.bnez s1, . + 254", &[0xecfd]),
    ("c.slli zero, 1", &[0x0006]),
    ("c.slli a0, 31", &[0x057e]),
    ("c.lwsp ra, (sp)", &[0x4082]),
    ("c.lwsp t6, 252(sp)", &[0x5ffe]),
    ("c.jr t6", &[0x8f82]),
    ("c.mv zero, a0", &[0x802a]),
    ("c.mv t6, ra", &[0x8f86]),
    ("c.ebreak", &[0x9002]),
    ("c.jalr ra", &[0x9082]),
    ("c.add zero, t6", &[0x907e]),
    ("c.add a0, a0", &[0x952a]),
    ("c.swsp zero, 252(sp)", &[0xdf82]),
    ("c.swsp ra, 4 (x2)", &[0xc206]),
];

/// Compressed instructions and others, with targets at even addresses.
static MIXED: [(&str, &[u32]); 4] = [
    (
        "c.nop\nnop\na: j a\nc.beqz a0, a\nbeqz a0, a\nc.j b\nc.nop\nb: la a0, b",
        &[
            0x00130001, 0x006f0000, 0xdd750000, 0xfe050de3, 0x0001a011, 0x00000517, 0x00050513,
        ],
    ),
    (
        "a: c.nop\n.p2align 3\nc.bnez s0, a\nc.jal b\nlw a0, 4(a1)\nb:",
        &[0x00010001, 0x00000013, 0x2019fc65, 0x0045a503],
    ),
    (
        ".equ four, 4\nc.lw a0, four * 2 - 4(a1)\nc.addi a0, four\ncall c\nc: c.ebreak",
        &[0x051141c8, 0x00000097, 0x008080e7, 0x00009002],
    ),
    (
        ".option rvc\n.half 1\nj . - 2\n.half 1",
        &[0xf06f0001, 0x0001ffff],
    ),
];

/// Labels before and after, local labels, constants, comments, and several statements on a line.
static SYMBOLS: [(&str, &[u32]); 9] = [
    ("a: nop\nj a", &[0x00000013, 0xffdff06f]),
    ("nop\nj a\nnop\na:", &[0x00000013, 0x0080006f, 0x00000013]),
    ("1: nop\n1: j 1b\n1:", &[0x00000013, 0x0000006f]),
    ("1: nop\n1: j 1f\n1:", &[0x00000013, 0x0040006f]),
    ("1: nop ; .word 2f - 1b, 7 # ;\n1: 2:", &[0x00000013, 12, 7]),
    (
        "nop\n.equ n, 5\n.set n, n + 1\nm = n - -1 // m\naddi x1, x0, m",
        &[0x00000013, 0x00700093],
    ),
    (
        "sp: nop\nla a0, sp\n.word sp, 5!!3",
        &[0x00000013, 0x00000517, 0xffc50513, 0, 6],
    ),
    (
        "s1 = 5\nslli a0, a0, s1\naddi a0, a0, (s1)\nli a0, s1",
        &[0x00551513, 0x00550513, 0x00500513],
    ),
    (
        ".text\n.globl a, b\nnop\n\ta:b: li a0, 'a' + 1\r\n",
        &[0x00000013, 0x06200513],
    ),
];

/// Directives at 0x100, each with the word that its bytes make.
static DATA: [(&str, &[u32]); 12] = [
    (".word 0xfedcba98", &[0xfedcba98]),
    (".half 0x1234, -1", &[0xffff1234]),
    (".byte 1, 2, 'c', -128", &[0x80630201]),
    (".byte 0b101", &[5]),
    (".ascii \"a\\n\\\"#\"", &[0x23220a61]),
    (".asciz \"ab\"", &[0x00006261]),
    (".string \"a\", \"b\"", &[0x00620061]),
    (".byte 1\n.balign 4", &[0x00010001]),
    (".space 2, 7\n.half 1", &[0x00010707]),
    (".byte 9\n.org 0x103\n.byte 8", &[0x08000009]),
    (".word a + 4 - 2\na:", &[0x00000106]),
    (".half 1\n.p2align 3\na = .\n", &[0x00010001, 0x00000013]),
];

/// The last statement ends at the end of addresses.
static LAST: [(&str, &[u32]); 1] = [(".word .", &[0xffff_fffc])];

#[test]
fn lines_are_their_words(rt: HostRuntime) {
    same_words(&rt, rt.alloc(), 0x100, &ROWS);
    same_words(&rt, rt.alloc(), 0, &LAYERS);
    same_words(&rt, rt.alloc(), 0, &PSEUDO_INSTRUCTIONS);
    same_words(&rt, rt.alloc(), 0, &COMPRESSED);
    same_words(&rt, rt.alloc(), 0, &MIXED);
    same_words(&rt, rt.alloc(), 0, &SYMBOLS);
    same_words(&rt, rt.alloc(), 0x100, &DATA);
    same_words(&rt, rt.alloc(), 0xffff_fffc, &LAST);
}

/// Pseudo-instructions, each with the texts at 0 of its instructions, the second of them empty
/// where there is one alone.
static EXPANDED: [(Pseudo, &str, &str); 20] = [
    (Pseudo::Nop, "addi x0, x0, 0", ""),
    (Pseudo::Ret, "jalr x0, 0x000(x1)", ""),
    (Pseudo::Fence, "fence", ""),
    (Pseudo::Li(10, 0xffff_ffff), "addi x10, x0, -1", ""),
    (Pseudo::Li(10, 0x1234_5000), "lui x10, 0x12345000", ""),
    (
        Pseudo::Li(10, 0x1234_5fff),
        "lui x10, 0x12346000",
        "addi x10, x10, -1",
    ),
    (
        Pseudo::La(11, 0x7ff),
        "auipc x11, 0x00000000",
        "addi x11, x11, 2047",
    ),
    (Pseudo::OfOne(Unary::Neg, 3, 4), "sub x3, x0, x4", ""),
    (Pseudo::OfOne(Unary::Sltz, 3, 4), "slt x3, x4, x0", ""),
    (
        Pseudo::AgainstZero(ZeroBranch::Blez, 5, 16),
        "bge x0, x5, 0x00000010",
        "",
    ),
    (
        Pseudo::Swapped(SwappedBranch::Bgtu, 5, 6, -8),
        "bltu x6, x5, 0xfffffff8",
        "",
    ),
    (
        Pseudo::Far(Branch::Bltu, 5, 6, 0x1000),
        "bgeu x5, x6, 0x00000008",
        "jal x0, 0x00001000",
    ),
    (
        Pseudo::FarFromZero(ZeroBranch::Blez, 5, -8),
        "blt x0, x5, 0x00000008",
        "jal x0, 0xfffffff8",
    ),
    (
        Pseudo::FarSwapped(SwappedBranch::Bgtu, 5, 6, 16),
        "bgeu x6, x5, 0x00000008",
        "jal x0, 0x00000010",
    ),
    (Pseudo::J(-4), "jal x0, 0xfffffffc", ""),
    (Pseudo::Jal(8), "jal x1, 0x00000008", ""),
    (Pseudo::Jr(7), "jalr x0, 0x000(x7)", ""),
    (Pseudo::Jalr(7), "jalr x1, 0x000(x7)", ""),
    (
        Pseudo::Call(0x1008),
        "auipc x1, 0x00001000",
        "jalr x1, 0x008(x1)",
    ),
    (
        Pseudo::Tail(0xffff_fff8),
        "auipc x6, 0x00000000",
        "jalr x0, 0xfffffff8(x6)",
    ),
];

/// Whether the text of an instruction at 0 is this.
fn has_text(instruction: Instruction, wanted: &str) -> bool {
    Disassembled { instruction, pc: 0 }.text().as_str() == wanted
}

/// Whether a pseudo-instruction is expanded to instructions with these texts.
fn is_expanded(pseudo: Pseudo, first: &str, second: &str) -> bool {
    let expansion = pseudo.expand();
    let is_second = match expansion.second {
        Some(instruction) => has_text(instruction, second),
        None => second.is_empty(),
    };
    is_second && has_text(expansion.first, first)
}

/// Each is expanded.
#[test]
fn a_pseudo_instruction_is_expanded(rt: HostRuntime) {
    for &(pseudo, first, second) in &EXPANDED {
        assert!(rt; is_expanded(pseudo, first, second), "{first}");
    }
}

/// 4,001 bytes of every kind.
fn bytes_of_every_kind() -> [u8; 4001] {
    let mut bytes = [1; 4001];
    let mut state = 1u32;
    for (count, byte) in bytes.iter_mut().take(4000).enumerate() {
        state = state.wrapping_mul(1664525).wrapping_add(1013904223);
        let [low, _, _, high] = state.to_le_bytes();
        *byte = if count % 4 == 0 { low | 3 } else { high };
    }
    bytes
}

/// Whether bytes as a source for GNU `as` are assembled to the same bytes.
fn are_assembled_again(alloc: Global, bytes: &[u8]) -> bool {
    let Ok(text) = gnu_text(alloc, bytes) else {
        return false;
    };
    match bytes_of(alloc, text.as_bytes(), 0) {
        Ok(again) => again.as_slice() == bytes,
        Err(_) => false,
    }
}

#[test]
fn gnu_text_is_assembled_again(rt: HostRuntime) {
    assert!(rt; are_assembled_again(rt.alloc(), &bytes_of_every_kind()));
}
