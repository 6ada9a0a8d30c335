//! What is told of mistakes: what is wanted, and what was probably meant.

use crate::assembled::errors_of;
use rrs_asm_output::{MOST_MISTAKES, Mistake, mistakes_of};
use std::alloc::{AllocError, Global};

/// Sources, each with what is told of it.
static TOLD: [(&str, &str); 43] = [
    (
        "addi a0, a1, a2",
        "1:14: a number is wanted here: add takes three registers\n",
    ),
    (
        "li a0, a1",
        "1:8: a number is wanted here: mv copies a register\n",
    ),
    (
        "mv a0, 5",
        "1:8: a register is wanted here: li takes a number\n",
    ),
    (
        "sub a0, a0, 1",
        "1:13: a register is wanted here: addi takes a number, here the negative one\n",
    ),
    (
        "add a0, a8, a1",
        "1:9: a register is wanted here: there is no a8, but a0 to a7\n",
    ),
    (
        "lw a0, (a9)\nsw a0, ( s12 ) # s12\njalr a0, (b)\nlw a0, (ff)(sp)",
        "1:9: a register is wanted here: there is no a9, but a0 to a7\n\
         2:10: a register is wanted here: there is no s12, but s0 to s11\n\
         3:11: a register is wanted here, and b is none: it is written jalr rd, offset(rs1)\n\
         4:9: symbol is not defined: ff; is 0xff meant?\n",
    ),
    (
        "beq a0, a1, a2",
        "1:13: a label is wanted here, and a2 is a register\n",
    ),
    (
        "la a0, a1",
        "1:8: a symbol is wanted here, and a1 is a register\n",
    ),
    (
        "j a0",
        "1:3: a label is wanted here: jr jumps to a register\n",
    ),
    (
        "lw a0, a1",
        "1:8: an address is wanted here, as 0(a1) or a symbol\n",
    ),
    (
        "addi a0, a0, 5000",
        "1:14: value out of range: addi takes -2048 to 2047; li puts any number into a register\n",
    ),
    (
        "slli a0, a0, 32",
        "1:14: value out of range: slli takes 0 to 31\n",
    ),
    (
        ".byte 256",
        "1:7: value out of range: .byte takes -128 to 255\n",
    ),
    (
        "loop: nop\nj lop",
        "2:3: symbol is not defined: lop; is loop meant?\n",
    ),
    ("j there\nj there", "1:3: symbol is not defined: there\n"),
    (".equ a, a", "1:9: symbol is not defined: a\n"),
    (".equ a, b\n.equ b, a", "1:9: symbol is not defined: b\n"),
    (
        "addd a0, a1, a2",
        "1:1: no such instruction or directive: addd; is add meant?\n",
    ),
    (
        "add a0, a1",
        "1:11: a comma is wanted here: it is written add rd, rs1, rs2\n",
    ),
    (
        "mv a0, a1, a2",
        "1:10: more than the statement takes: it is written mv rd, rs\n",
    ),
    (".uleb128 3", "1:1: not implemented: .uleb128\n"),
    ("size = 1 +\nli a0, size", "1:11: a value is wanted here\n"),
    (
        "nop\nli a0,",
        "2:7: a value is wanted here: it is written li rd, number\n",
    ),
    (
        "add $t0, A0, a1\nadd t0, A0, a1\nadd %t0, a0, a1",
        "1:5: a register is wanted here, and $t0 is none; is t0 meant?\n\
         2:9: a register is wanted here, and A0 is none; is a0 meant?\n\
         3:5: a register is wanted here, and %t0 is none; is t0 meant?\n",
    ),
    (
        "mul a0, a1, 3\nbeq a0, 0, .\nmv 5, a0\nmv a0, x\njr x",
        "1:13: a register is wanted here: it is written mul rd, rs1, rs2; \
         li puts a number into a register\n\
         2:9: a register is wanted here: it is written beq rs1, rs2, label; \
         the register zero is 0\n\
         3:4: a register is wanted here: it is written mv rd, rs\n\
         4:8: a register is wanted here, and x is none: li takes a number, and la a symbol\n\
         5:4: a register is wanted here, and x is none: j jumps to a label\n",
    ),
    (
        "call a0\njal a0\nfence rw\nfence a0\nsw a0, x\nx: sw a0, x, 5",
        "1:6: a label is wanted here: jalr jumps to a register\n\
         2:5: a label is wanted here, and a0 is a register: jalr jumps to one\n\
         3:9: a comma is wanted here: it is written fence rw, rw\n\
         4:7: some of the letters iorw are wanted here: it is written fence rw, rw\n\
         5:9: a comma is wanted here: it is written sw rs2, symbol, rt\n\
         6:14: a register is wanted here: it is written sw rs2, symbol, rt\n",
    ),
    (
        "li a0, 5000000000\n.word 0x1ffffffff\n.space -1\nli a0, 1.5\nli a0, 09",
        "1:8: value out of range: li takes -2147483648 to 4294967295\n\
         2:7: value out of range: .word takes -2147483648 to 4294967295\n\
         3:8: value out of range: .space takes 0 to 67108864 bytes\n\
         4:8: not a number: 1.5\n\
         5:8: not a number: 09; one that begins with 0 is octal\n",
    ),
    (
        "li a0, #5\nli a0, \"a\"\nli a0, 'ab'\naddi a0, a0, %top(4)\nli a0, \\b",
        "1:8: a value is wanted here: # begins a comment\n\
         2:8: a value is wanted here: a character is written 'a'\n\
         3:10: an apostrophe is wanted here: a character is written 'a'\n\
         4:15: a value is wanted here: there are %hi, %lo, %pcrel_hi and %pcrel_lo\n\
         5:8: a value is wanted here: a parameter of this name has no macro here\n",
    ),
    (
        "ADDI a0, a0, 1\nNop\nLI a0, 1\nmove a0, a1\nsubi a0, a0, 1\nsret\nli, a0\nprint",
        "1:1: no such instruction or directive: ADDI; is addi meant?\n\
         2:1: no such instruction or directive: Nop; is nop meant?\n\
         3:1: no such instruction or directive: LI; is li meant?\n\
         4:1: no such instruction or directive: move; is mv meant?\n\
         5:1: no such instruction or directive: subi; addi takes a number, here the negative one\n\
         6:1: no such instruction or directive: sret; it is not of RV32IM\n\
         7:1: no comma stands after li\n\
         8:1: no such instruction or directive: print; a label is written print:\n",
    ),
    (
        ".wrd 1\n.asciiz \"a\"\n.eqv a, 1\n.sectoin .data\n.word 1 2\n.string a: b",
        "1:1: no such instruction or directive: .wrd; is .word meant?\n\
         2:1: no such instruction or directive: .asciiz; is .asciz meant?\n\
         3:1: no such instruction or directive: .eqv; is .equ meant?\n\
         4:1: no such instruction or directive: .sectoin; is .section meant?\n\
         5:9: more than the statement takes: it is written .word number, number\n\
         6:9: unexpected character: a label begins a line, or stands after a semicolon\n",
    ),
    (
        ".ascii \"a: b\n.ascii \"a; b\" \"c\"\nli a0, ':' 5",
        "1:13: a quotation mark is wanted here: it is written .ascii \"text\"\n\
         2:15: more than the statement takes: it is written .ascii \"text\"\n\
         3:12: more than the statement takes: it is written li rd, number\n",
    ),
    (
        "done li a0, 1\nj done\nj my\nmy-label: nop\nj label\nnop ; again\nj x:",
        "1:1: no such instruction or directive: done; a label is written done:\n\
         4:3: unexpected character: a label is one word of letters, digits, _, . and $\n\
         6:7: no such instruction or directive: again; a comment begins with #\n\
         7:3: unexpected character: a target is written without a colon\n",
    ),
    (
        "12: nop\n: nop\n?\n.equ 5, 1\na\u{e4}: nop",
        "1:1: unexpected character: a name begins with no digit\n\
         2:1: unexpected character: a name is wanted before the colon\n\
         3:1: unexpected character: a label, an instruction or a directive is wanted here\n\
         4:6: a name is wanted here: it is written .equ name, number\n\
         5:2: unexpected character: it is not ASCII\n",
    ),
    (
        "a1b: nop\na: a1c2: nop\n.comm buffer, 4\nj a1c\nla a0, bufer\nj A\nj 1b\nj 1\n1:",
        "4:3: symbol is not defined: a1c; is a1b meant?\n\
         5:8: symbol is not defined: bufer; is buffer meant?\n\
         6:3: symbol is not defined: A; is a meant?\n\
         7:3: symbol is not defined: 1b; no 1: stands above; is 1f meant?\n\
         8:3: a label or an even address is wanted here; is 1b or 1f meant?\n",
    ),
    (
        "loop_a1: nop\nloop_b1: nop\nj loop_b",
        "3:3: symbol is not defined: loop_b; is loop_b1 meant?\n",
    ),
    (
        "nop\na: nop\nb: a: nop\n.equ b, 1\na0: nop\n.equ c, d\n.equ d, a0",
        "3:4: symbol is defined already: a, in line 2\n\
         4:1: symbol is defined already: b, in line 3\n\
         6:9: symbol is defined later, and its value is wanted here: d\n",
    ),
    (
        "addi\u{a0}a0, a0, 1\nadd a0, X5, a1\nmv a0, 4(sp)\n\
         .section \".text\"\n.section .txt\n.org -4",
        "1:1: a blank is wanted after addi\n\
         2:9: a register is wanted here, and X5 is none; registers are written in small letters\n\
         3:8: a register is wanted here: an address in memory stands in loads and stores\n\
         4:10: a section needs a name, and flags where its name says nothing: \
         it stands in no quotation marks\n\
         5:1: a section needs a name, and flags where its name says nothing; is .text meant?\n\
         6:6: the program is too long\n",
    ),
    (
        "inc a0\ndec a0\nli a0, ff\nli a0, 0ff\n.string \u{201c}a\u{201d}\nli a0, \u{2018}a\u{2019}",
        "1:1: no such instruction or directive: inc; addi rd, rd, 1 adds 1\n\
         2:1: no such instruction or directive: dec; addi rd, rd, -1 takes 1 away\n\
         3:8: symbol is not defined: ff; is 0xff meant?\n\
         4:8: not a number: 0ff; is 0x0ff meant?\n\
         5:9: a quotation mark of printed text: \" and ' are written here\n\
         6:8: a quotation mark of printed text: \" and ' are written here\n",
    ),
    (
        "s1: addi a0, a0, s1\nbeqz a0, . + 0x200000\nli a0, 1 << 32",
        "1:18: a number is wanted here: add takes three registers\n\
         2:10: value out of range: beqz reaches 1048572 bytes back and 1048578 forward\n\
         3:8: value out of range: li takes -2147483648 to 4294967295\n",
    ),
    (
        ".section .text.a\n.space 0x4000000\nnop",
        "3:1: the program is too long, or sections lie in one another\n",
    ),
    (
        ".dat\n.byte 1\n.text\nnop\nadd a0, a1",
        "1:1: no such instruction or directive: .dat; is .data meant?\n\
         5:11: a comma is wanted here: it is written add rd, rs1, rs2\n",
    ),
    (
        "c.lw t0, 4(a1)\nc.mv a0, x0\nc.lwsp a0, 256(sp)\nc.lw a0, a1\nc.bnez a0\nc.fld a0, (a1)",
        "1:6: another register is wanted here: \
         c.lw takes x8 to x15, which are s0, s1 and a0 to a5\n\
         2:10: another register is wanted here: c.mv takes no x0 there\n\
         3:12: value out of range: c.lwsp takes multiples of 4 from 0 to 252\n\
         4:10: an address is wanted here, as 0(a1)\n\
         5:10: a comma is wanted here: it is written c.bnez rs, label\n\
         6:1: no such instruction or directive: c.fld; it is not of RV32IM\n",
    ),
    (
        "add a0, a1\n.byte 1\nnop\n.ascii \"\\q\"\n.bss\n.word 1",
        "1:11: a comma is wanted here: it is written add rd, rs1, rs2\n\
         3:1: the address of an instruction is misaligned; .align 2 stands before it, \
         or .data before what is data\n\
         4:10: no such escape: there are \\n, \\t, \\r, \\b, \\f, \\0, \\\\, \\\" and \\'\n\
         6:1: this section holds zeros only; .space is written here, and .data before numbers\n",
    ),
];

/// What is told of a source. None where it has no mistakes, or where memory ran out.
fn mistakes_in(alloc: Global, source: &str) -> Option<Vec<Mistake>> {
    let errors = errors_of(alloc, source, 0)?;
    mistakes_of(alloc, source.as_bytes(), &[], &errors).ok()
}

/// Whether this is told of a source, a line for each mistake.
fn is_told(alloc: Global, source: &str, wanted: &str) -> Result<bool, AllocError> {
    let mut text = String::new(alloc);
    if let Some(mistakes) = mistakes_in(alloc, source) {
        for mistake in &mistakes {
            let (line, column, own) = (mistake.line, mistake.column, mistake.text.as_str());
            writeln!(&mut text, "{line}:{column}: {own}")?;
        }
    }
    Ok(text.as_str() == wanted)
}

/// Each mistake is told with what is wanted there, and what was probably meant.
#[test]
fn mistakes_are_told_with_what_was_meant(rt: HostRuntime) {
    for &(source, wanted) in &TOLD {
        assert!(rt; is_told(rt.alloc(), source, wanted) == Ok(true), "{source}");
    }
}

/// Twenty-five lines with a mistake in each.
const MANY: &str = "li\nli\nli\nli\nli\nli\nli\nli\nli\nli\nli\nli\nli\n\
                    li\nli\nli\nli\nli\nli\nli\nli\nli\nli\nli\nli\n";

/// Of many mistakes the first twenty are told.
#[test]
fn twenty_mistakes_are_told(rt: HostRuntime) {
    let count = match mistakes_in(rt.alloc(), MANY) {
        Some(mistakes) => mistakes.len(),
        None => 0,
    };
    assert!(rt; count == MOST_MISTAKES);
}
