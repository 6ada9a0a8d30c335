//! How instructions are written, for those who wrote one otherwise.

use rrs_asm_lines::place_among;

/// The operands of an instruction.
#[derive(Clone, Copy, PartialEq)]
pub enum Form {
    /// Three registers.
    Registers,
    /// Two registers and a number of 12 bits.
    Immediate,
    /// Two registers and a number of 5 bits.
    Shift,
    /// A register and an address in memory, which is read.
    Load,
    /// A register and an address in memory, which is written.
    Store,
    /// Two registers and a label.
    Branch,
    /// A register and a label.
    ZeroBranch,
    /// A register and a number of 20 bits.
    Upper,
    /// Two registers.
    Copy,
    /// A register and a number.
    Number,
    /// A register and a symbol.
    Address,
    /// A label.
    Jump,
    /// A register, which may be left out, and a label.
    Link,
    /// A register.
    Register,
    /// A register and an address that is jumped to.
    LinkRegister,
    /// A label, and a register that is overwritten.
    FarJump,
    /// Two sets of accesses.
    Fence,
    /// A register, a CSR, and a register or a number of 5 bits.
    Csr,
    /// A register, a CSR and a number of 5 bits.
    CsrImmediate,
    /// A CSR, and a register or a number of 5 bits.
    CsrWrite,
    /// A CSR and a number of 5 bits.
    CsrWriteImmediate,
    /// A register and a CSR.
    CsrRead,
    /// A register, into which a counter is read.
    Counter,
    /// A register and an address in a register.
    Reserved,
    /// Two registers and an address in a register.
    Atomic,
    /// Two registers and a number.
    RegistersAndNumber,
    /// A register, and an address that is a number after a register.
    Place,
    /// None.
    Alone,
}

/// The instructions and pseudo-instructions, by their forms.
pub static NAMES: [(&[u8], Form); 39] = [
    (
        b"add sub sll slt sltu xor srl sra or and mul mulh mulhsu mulhu div divu rem remu sgt \
            sgtu",
        Form::Registers,
    ),
    (b"addi slti sltiu xori ori andi", Form::Immediate),
    (b"slli srli srai", Form::Shift),
    (b"lb lbu lh lhu lw", Form::Load),
    (b"sb sh sw", Form::Store),
    (b"beq bne blt bge bltu bgeu bgt ble bgtu bleu", Form::Branch),
    (b"beqz bnez blez bgez bltz bgtz", Form::ZeroBranch),
    (b"lui auipc", Form::Upper),
    (b"mv not neg seqz snez sltz sgtz zext.b", Form::Copy),
    (b"li", Form::Number),
    (b"la lla", Form::Address),
    (b"j call tail", Form::Jump),
    (b"jump", Form::FarJump),
    (b"jal", Form::Link),
    (b"jr", Form::Register),
    (b"jalr", Form::LinkRegister),
    (b"ecall ebreak", Form::Alone),
    (b"fence", Form::Fence),
    (b"nop ret unimp", Form::Alone),
    (b"csrw csrs csrc", Form::CsrWrite),
    (b"csrwi csrsi csrci", Form::CsrWriteImmediate),
    (b"csrr", Form::CsrRead),
    (
        b"rdcycle rdtime rdinstret rdcycleh rdtimeh rdinstreth",
        Form::Counter,
    ),
    // The layers, as docs/check --write writes them.
    (b"csrrw csrrs csrrc", Form::Csr),
    (b"csrrwi csrrsi csrrci", Form::CsrImmediate),
    (b"mret wfi fence.i", Form::Alone),
    (b"lr.w lr.w.aq lr.w.rl lr.w.aqrl", Form::Reserved),
    (
        b"sc.w amoswap.w amoadd.w amoxor.w amoand.w amoor.w amomin.w amomax.w amominu.w amomaxu.w \
            sc.w.aq amoswap.w.aq amoadd.w.aq amoxor.w.aq amoand.w.aq amoor.w.aq amomin.w.aq \
            amomax.w.aq amominu.w.aq amomaxu.w.aq sc.w.rl amoswap.w.rl amoadd.w.rl amoxor.w.rl \
            amoand.w.rl amoor.w.rl amomin.w.rl amomax.w.rl amominu.w.rl amomaxu.w.rl sc.w.aqrl \
            amoswap.w.aqrl amoadd.w.aqrl amoxor.w.aqrl amoand.w.aqrl amoor.w.aqrl amomin.w.aqrl \
            amomax.w.aqrl amominu.w.aqrl amomaxu.w.aqrl",
        Form::Atomic,
    ),
    (
        b"sh1add sh2add sh3add andn orn xnor max maxu min minu rol ror bclr bext binv bset clmul \
            clmulh clmulr pack packh czero.eqz czero.nez",
        Form::Registers,
    ),
    (
        b"clz ctz cpop sext.b sext.h zext.h orc.b rev8 brev8 zip unzip",
        Form::Copy,
    ),
    (b"rori bclri bexti binvi bseti", Form::Shift),
    // The compressed ones.
    (b"c.sub c.xor c.or c.and c.mv c.add", Form::Copy),
    (
        b"c.addi c.li c.andi c.lui c.slli c.srli c.srai c.addi16sp",
        Form::Number,
    ),
    (b"c.addi4spn", Form::RegistersAndNumber),
    (b"c.lw c.sw c.lwsp c.swsp", Form::Place),
    (b"c.beqz c.bnez", Form::ZeroBranch),
    (b"c.j c.jal", Form::Jump),
    (b"c.jr c.jalr", Form::Register),
    (b"c.nop c.ebreak", Form::Alone),
];

/// The numbers that compressed instructions take.
static SHORT_RANGES: [(&[u8], &str); 9] = [
    (b"c.addi c.li c.andi", " takes -32 to 31"),
    (b"c.slli c.srli c.srai", " takes 1 to 31"),
    (b"c.lui", " takes 1 to 31 and 0xfffe0 to 0xfffff"),
    (
        b"c.addi16sp",
        " takes multiples of 16 from -512 to 496, and not 0",
    ),
    (b"c.addi4spn", " takes multiples of 4 from 4 to 1020"),
    (b"c.lw c.sw", " takes multiples of 4 from 0 to 124"),
    (b"c.lwsp c.swsp", " takes multiples of 4 from 0 to 252"),
    (b"c.j c.jal", " reaches 2048 bytes back and 2046 forward"),
    (b"c.beqz c.bnez", " reaches 256 bytes back and 254 forward"),
];

/// The registers that compressed instructions take, where that is not each.
static SHORT_REGISTERS: [(&[u8], &str); 7] = [
    (
        b"c.lw c.sw c.srli c.srai c.andi c.sub c.xor c.or c.and c.beqz c.bnez",
        " takes x8 to x15, which are s0, s1 and a0 to a5",
    ),
    (b"c.addi4spn", " takes x8 to x15, and then sp"),
    (b"c.addi16sp", " takes sp"),
    (b"c.lwsp", " takes no x0, and then sp"),
    (b"c.swsp", " takes a register, and then sp"),
    (b"c.jr c.jalr c.mv c.add", " takes no x0 there"),
    (b"c.lui", " takes no sp"),
];

/// An instruction that takes a number, and the one that takes a register in its place.
pub static PAIRS: [(&[u8], &str); 15] = [
    (b"addi", "add"),
    (b"slti", "slt"),
    (b"sltiu", "sltu"),
    (b"xori", "xor"),
    (b"ori", "or"),
    (b"andi", "and"),
    (b"slli", "sll"),
    (b"srli", "srl"),
    (b"srai", "sra"),
    (b"rori", "ror"),
    (b"bclri", "bclr"),
    (b"bexti", "bext"),
    (b"binvi", "binv"),
    (b"bseti", "bset"),
    (b"li", "mv"),
];

/// The directives, and how what follows them is written.
pub static DIRECTIVES: [(&[u8], &str); 21] = [
    (b".text .data .bss .rodata", ""),
    (b".section", " name"),
    (
        b".word .half .byte .dword .long .int .short .hword .quad .2byte .4byte .8byte",
        " number, number",
    ),
    (b".string .asciz .ascii", " \"text\""),
    (b".space .zero .skip", " bytes"),
    (b".fill", " count, size, number"),
    (b".align .p2align", " power"),
    (b".balign", " bytes"),
    (b".org", " address"),
    (b".equ .set", " name, number"),
    (b".comm", " name, bytes, alignment"),
    (b".lcomm", " name, bytes"),
    (b".globl .global .extern", " name"),
    (b".macro", " name a, b"),
    (b".endm", ""),
    (b".rept", " count"),
    (b".irp", " a, 1, 2"),
    (b".endr", ""),
    (b".if", " number"),
    (b".ifdef", " name"),
    (b".else .endif", ""),
];

/// Names that other assemblers have, and what is written here.
static ELSEWHERE: [(&[u8], &str); 15] = [
    (b"move mov", "mv"),
    (b"addiu subi", "addi"),
    (b"addu", "add"),
    (b"subu", "sub"),
    (b"mult", "mul"),
    (b"b jmp goto", "j"),
    (b"bal", "jal"),
    (b"return", "ret"),
    (b"syscall int", "ecall"),
    (b"ld ldr lwu", "lw"),
    (b"sd str", "sw"),
    (b".asciiz", ".asciz"),
    (b".eqv .equiv .define", ".equ"),
    (b".db db", ".byte"),
    (b".dw dw", ".word"),
];

/// The directives whose numbers have a range.
static RANGES: [(&[u8], &str); 9] = [
    (b".byte", " takes -128 to 255"),
    (b".half .short .2byte .hword", " takes -32768 to 65535"),
    (
        b".word .long .int .4byte .equ .set",
        " takes -2147483648 to 4294967295",
    ),
    (b".dword .quad .8byte", " takes 64 bits"),
    (b".align .p2align", " takes 0 to 16, the power of 2"),
    (b".balign", " takes a power of 2, 65536 at most"),
    (b".fill", " takes numbers of 0 to 8 bytes"),
    (b".org", " takes 0 to 4294967295"),
    (
        b".space .zero .skip .comm .lcomm",
        " takes 0 to 67108864 bytes",
    ),
];

/// The form of an instruction.
pub fn form_of(name: &[u8]) -> Option<Form> {
    for (names, form) in &NAMES {
        if place_among(names, name).is_some() {
            return Some(*form);
        }
    }
    None
}

/// How what follows an instruction or a directive is written.
pub fn usage_of(name: &[u8]) -> Option<&'static str> {
    match form_of(name) {
        Some(form) => Some(operands_of(form)),
        None => beside(&DIRECTIVES, name),
    }
}

/// What is written here for a name that other assemblers have.
pub fn own_name_of(name: &[u8]) -> Option<&'static str> {
    beside(&ELSEWHERE, name)
}

/// What stands beside names in a table, one of which is this one.
fn beside(table: &[(&'static [u8], &'static str)], name: &[u8]) -> Option<&'static str> {
    for (names, other) in table {
        if place_among(names, name).is_some() {
            return Some(*other);
        }
    }
    None
}

/// The operands as one writes them.
fn operands_of(form: Form) -> &'static str {
    match form {
        Form::Registers => " rd, rs1, rs2",
        Form::Immediate | Form::Shift => " rd, rs1, number",
        Form::Load => " rd, offset(rs1)",
        Form::Store => " rs2, offset(rs1)",
        Form::Branch => " rs1, rs2, label",
        Form::ZeroBranch => " rs, label",
        Form::Upper | Form::Number => " rd, number",
        Form::Copy => " rd, rs",
        Form::Address => " rd, symbol",
        Form::Jump => " label",
        Form::Link => " rd, label",
        Form::Register => " rs",
        Form::LinkRegister => " rd, offset(rs1)",
        Form::FarJump => " label, rt",
        Form::Fence => " rw, rw",
        Form::Csr => " rd, csr, rs1",
        Form::CsrImmediate => " rd, csr, number",
        Form::CsrWrite => " csr, rs1",
        Form::CsrWriteImmediate => " csr, number",
        Form::CsrRead => " rd, csr",
        Form::Counter => " rd",
        Form::Reserved => " rd, (rs1)",
        Form::Atomic => " rd, rs2, (rs1)",
        Form::RegistersAndNumber => " rd, sp, number",
        Form::Place => " rd, offset(rs1)",
        Form::Alone => "",
    }
}

/// The range of the number that an instruction or a directive takes.
pub fn range_of(name: &[u8]) -> &'static str {
    if let Some(range) = beside(&SHORT_RANGES, name) {
        return range;
    }
    match form_of(name) {
        Some(Form::Immediate) => " takes -2048 to 2047; li puts any number into a register",
        Some(Form::Shift) => " takes 0 to 31",
        Some(Form::Csr | Form::CsrImmediate | Form::CsrWrite | Form::CsrWriteImmediate) => {
            " takes a CSR below 4096, and a number of 0 to 31"
        }
        Some(Form::CsrRead) => " takes a CSR below 4096",
        Some(Form::Reserved | Form::Atomic) => " takes no offset but 0",
        Some(Form::Load | Form::Store | Form::LinkRegister) => " takes an offset of -2048 to 2047",
        Some(Form::Upper) => " takes 0 to 1048575, the upper 20 bits",
        Some(Form::Branch | Form::ZeroBranch) => " reaches 1048572 bytes back and 1048578 forward",
        Some(Form::Jump | Form::Link) => " reaches 1048576 bytes back and 1048574 forward",
        Some(Form::Number) => " takes -2147483648 to 4294967295",
        _ => beside(&RANGES, name).unwrap_or(""),
    }
}

/// The registers that a compressed instruction takes.
pub fn registers_of(name: &[u8]) -> &'static str {
    beside(&SHORT_REGISTERS, name).unwrap_or("")
}

/// The instruction that takes a register where one takes a number.
pub fn with_register(name: &[u8]) -> Option<&'static str> {
    beside(&PAIRS, name)
}

/// The instruction that takes a number where one takes a register.
pub fn with_number(name: &[u8]) -> Option<&'static [u8]> {
    for (number, register) in &PAIRS {
        if register.as_bytes() == name {
            return Some(*number);
        }
    }
    None
}
