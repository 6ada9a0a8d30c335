//! The opcodes, and the fields that each format reads from a word.

use crate::surface::is_shown_and_compared;
use rrs_lib::instruction_formats::{
    BType, IType, ITypeShamt, JType, OPCODE_AUIPC, OPCODE_BRANCH, OPCODE_JAL, OPCODE_JALR,
    OPCODE_LOAD, OPCODE_LUI, OPCODE_MISC_MEM, OPCODE_OP, OPCODE_OP_IMM, OPCODE_STORE,
    OPCODE_SYSTEM, RType, SType, UType,
};

#[test]
fn opcodes(rt: HostRuntime) {
    let opcodes: [u32; 11] = [
        OPCODE_LOAD,
        OPCODE_MISC_MEM,
        OPCODE_OP_IMM,
        OPCODE_AUIPC,
        OPCODE_STORE,
        OPCODE_OP,
        OPCODE_LUI,
        OPCODE_BRANCH,
        OPCODE_JALR,
        OPCODE_JAL,
        OPCODE_SYSTEM,
    ];
    assert!(rt;
        opcodes
            == [
                0x03, 0x0f, 0x13, 0x17, 0x23, 0x33, 0x37, 0x63, 0x67, 0x6f, 0x73
            ]
    );
}

#[test]
fn formats_are_shown_and_compared() {
    is_shown_and_compared::<RType>();
    is_shown_and_compared::<IType>();
    is_shown_and_compared::<ITypeShamt>();
    is_shown_and_compared::<SType>();
    is_shown_and_compared::<BType>();
    is_shown_and_compared::<UType>();
    is_shown_and_compared::<JType>();
}

// sub x3, x1, x2; srai x3, x1, 7
#[test]
fn fields_of_formats_with_funct7(rt: HostRuntime) {
    let RType {
        funct7,
        rs2,
        rs1,
        funct3,
        rd,
    }: RType = RType::new(0x402081b3);
    let sub: ([u32; 2], [usize; 3]) = ([funct7, funct3], [rs2, rs1, rd]);
    let ITypeShamt {
        funct7,
        shamt,
        rs1,
        funct3,
        rd,
    }: ITypeShamt = ITypeShamt::new(0x4070d193);
    let srai: ([u32; 3], [usize; 2]) = ([funct7, shamt, funct3], [rs1, rd]);
    assert!(rt; sub == ([0x20, 0], [2, 1, 3]) && srai == ([0x20, 7, 5], [1, 3]));
}

// lb x3, -4(x1); sw x2, 8(x1); bge x1, x2, 8
#[test]
fn fields_of_formats_with_funct3(rt: HostRuntime) {
    let IType {
        imm,
        rs1,
        funct3,
        rd,
    }: IType = IType::new(0xffc08183);
    let lb: (i32, [usize; 2], u32) = (imm, [rs1, rd], funct3);
    let SType {
        imm,
        rs2,
        rs1,
        funct3,
    }: SType = SType::new(0x0020a423);
    let sw: (i32, [usize; 2], u32) = (imm, [rs2, rs1], funct3);
    let BType {
        imm,
        rs2,
        rs1,
        funct3,
    }: BType = BType::new(0x0020d463);
    let bge: (i32, [usize; 2], u32) = (imm, [rs2, rs1], funct3);
    assert!(rt; lb == (-4, [1, 3], 0) && sw == (8, [2, 1], 2) && bge == (8, [2, 1], 5));
}

// The least and the greatest immediates of four formats, and one whose bit 7 is set.
#[test]
fn immediates_at_the_ends_of_their_ranges(rt: HostRuntime) {
    let seen: [i32; 7] = [
        BType::new(0x000000e3).imm,
        BType::new(0x80000063).imm,
        JType::new(0x7ffff06f).imm,
        JType::new(0x800000ef).imm,
        IType::new(0x80000013).imm,
        IType::new(0x7ff00013).imm,
        UType::new(0x80000037).imm,
    ];
    assert!(rt; seen == [2048, -4096, 1048574, -1048576, -2048, 2047, -2147483648]);
}

// lui x2, 0x1234b000; jal x3, 16
#[test]
fn fields_of_formats_with_a_long_immediate(rt: HostRuntime) {
    let UType { imm, rd }: UType = UType::new(0x1234b137);
    let lui: (i32, usize) = (imm, rd);
    let JType { imm, rd }: JType = JType::new(0x010001ef);
    let jal: (i32, usize) = (imm, rd);
    assert!(rt; lui == (0x1234b000, 2) && jal == (16, 3));
}
