//! The names of rows, kinds of exceptions, registers and fields, as C has them.

ghost use Rattle.std.specs.Prelude.{◌≡◌};
ghost use Rattle.rrs_c.specs.Names.{NamesRow, PutsName, bytes_of, named, fault_names, register_names, field_names};

use crate::text::put_text;

/// The names of the rows and of the instructions of the layers, in the order of their numbers.
const ROWS: [&str; 107] = [
    "add",
    "sub",
    "sll",
    "slt",
    "sltu",
    "xor",
    "srl",
    "sra",
    "or",
    "and",
    "addi",
    "slli",
    "slti",
    "sltiu",
    "xori",
    "srli",
    "srai",
    "ori",
    "andi",
    "lui",
    "auipc",
    "beq",
    "bne",
    "blt",
    "bltu",
    "bge",
    "bgeu",
    "lb",
    "lbu",
    "lh",
    "lhu",
    "lw",
    "sb",
    "sh",
    "sw",
    "jal",
    "jalr",
    "mul",
    "mulh",
    "mulhu",
    "mulhsu",
    "div",
    "divu",
    "rem",
    "remu",
    "fence",
    "ecall",
    "ebreak",
    "csrrw",
    "csrrs",
    "csrrc",
    "csrrwi",
    "csrrsi",
    "csrrci",
    "mret",
    "wfi",
    "fence.i",
    "lr.w",
    "sc.w",
    "amoswap.w",
    "amoadd.w",
    "amoxor.w",
    "amoand.w",
    "amoor.w",
    "amomin.w",
    "amomax.w",
    "amominu.w",
    "amomaxu.w",
    "sh1add",
    "sh2add",
    "sh3add",
    "andn",
    "orn",
    "xnor",
    "clz",
    "ctz",
    "cpop",
    "max",
    "maxu",
    "min",
    "minu",
    "sext.b",
    "sext.h",
    "zext.h",
    "rol",
    "ror",
    "rori",
    "orc.b",
    "rev8",
    "bclr",
    "bclri",
    "bext",
    "bexti",
    "binv",
    "binvi",
    "bset",
    "bseti",
    "clmul",
    "clmulh",
    "clmulr",
    "pack",
    "packh",
    "brev8",
    "zip",
    "unzip",
    "czero.eqz",
    "czero.nez",
];

/// The names of the kinds of exceptions, from 0 on.
const FAULTS: [&str; 8] = [
    "no exception",
    "illegal instruction",
    "fetch access fault",
    "load access fault",
    "store access fault",
    "misaligned address",
    "environment call",
    "breakpoint",
];

/// The names of the fields of a record, from 1 on.
const FIELDS: [&str; 17] = [
    "same",
    "order",
    "insn",
    "trap",
    "pc_rdata",
    "pc_wdata",
    "rs1_addr",
    "rs1_rdata",
    "rs2_addr",
    "rs2_rdata",
    "rd_addr",
    "rd_wdata",
    "mem_addr",
    "mem_rmask",
    "mem_wmask",
    "mem_rdata",
    "mem_wdata",
];

/// The name of the row, or of the instruction of a layer, of this number.
pub(crate) fn row_name(row: u32) -> Option<&'static str>
    ensures { NamesRow row (bytes_of result) }
{
    if row == 0 || 107 < row {
        return None;
    }
    Some(ROWS[row as usize - 1])
}

/// The name of this kind of exception.
pub(crate) fn fault_name(kind: u32) -> Option<&'static str>
    ensures { bytes_of result ≡ named fault_names kind }
{
    if 7 < kind {
        return None;
    }
    Some(FAULTS[kind as usize])
}

/// The name of this register in the ABI.
pub(crate) fn register_name(register: u32) -> Option<&'static str>
    ensures { bytes_of result ≡ named register_names register }
{
    if 31 < register {
        return None;
    }
    Some(match register {
        0 => "zero",
        1 => "ra",
        2 => "sp",
        3 => "gp",
        4 => "tp",
        5 => "t0",
        6 => "t1",
        7 => "t2",
        8 => "s0",
        9 => "s1",
        10 => "a0",
        11 => "a1",
        12 => "a2",
        13 => "a3",
        14 => "a4",
        15 => "a5",
        16 => "a6",
        17 => "a7",
        18 => "s2",
        19 => "s3",
        20 => "s4",
        21 => "s5",
        22 => "s6",
        23 => "s7",
        24 => "s8",
        25 => "s9",
        26 => "s10",
        27 => "s11",
        28 => "t3",
        29 => "t4",
        30 => "t5",
        _ => "t6",
    })
}

/// The name of this field of a record.
pub(crate) fn field_name(field: u32) -> Option<&'static str>
    ensures { bytes_of result ≡ named field_names field }
{
    if 16 < field {
        return None;
    }
    Some(FIELDS[field as usize])
}

/// Puts a name at the front of a buffer, where there is one.
pub(crate) fn put_name(name: Option<&'static str>, buffer: &mut [u8]) -> usize
    ensures { PutsName (bytes_of name.entry) buffer.old buffer.new result }
{
    match name {
        Some(text) => {
            put_text(text.as_bytes(), buffer);
            text.len()
        }
        None => 0,
    }
}
