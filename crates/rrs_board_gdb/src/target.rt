//! What gdb is told of the board's registers.

ghost use Rattle.std.specs.Prelude.{◌≡◌, ◌++◌, ℕ, List, OnOk};
ghost use Rattle.rrs_board_gdb.specs.Shown.{csr_in, csr_line, csr_lines, mode_line_and_end};

use crate::registers::FIRST_CSR;
use rrs_gdb::{TARGET, cut_or_all, push_text};
use rrs_lib::instruction_formats::IType;
use rrs_machine::{Csr, Profile};
use rrs_words::{SystemInstruction, SystemRow, system_text};
use std::alloc::{AllocError, Global};

/// What begins the description of a target.
const HEAD: &[u8] = b"<?xml version=\"1.0\"?>
<!DOCTYPE target SYSTEM \"gdb-target.dtd\">
<target version=\"1.0\">
<architecture>riscv:rv32</architecture>
";
/// That there is no system: on Linux gdb steps by breakpoints of its own, and an interrupt would
/// not stop at them.
const NO_SYSTEM: &[u8] = b"<osabi>none</osabi>\n";
/// The privilege mode, and what ends the description of a target.
const MODE_AND_END: &[u8] = b"</feature>
<feature name=\"org.gnu.gdb.riscv.virtual\">
<reg name=\"priv\" bitsize=\"32\" regnum=\"4161\"/>
</feature>
</target>
";

/// The name of a CSR in the text of an instruction on it, as `csrrs x0, mstatus, x0`.
fn name_in(text: &[u8]) -> &[u8]
    ensures { result.now ≡ csr_in text.now }
{
    match cut_or_all(text, b',').1 {
        [_blank, operands @ ..] => cut_or_all(operands, b',').0,
        [] => &[],
    }
}

/// Appends the line of a CSR, by the number that gdb has for it.
fn push_csr(alloc: Global, text: &mut Vec<u8>, number: u16) -> Result<(), AllocError>
    ensures { OnOk result (text.new.items ≡ text.old.items ++ csr_line number) }
{
    let instruction = SystemInstruction {
        row: SystemRow::Csrrs,
        fields: IType {
            imm: i32::from(number),
            rs1: 0,
            funct3: 2,
            rd: 0,
        },
    };
    push_text(text, b"<reg name=\"")?;
    push_text(text, name_in(system_text(&instruction).as_str().as_bytes()))?;
    push_text(text, b"\" bitsize=\"32\" type=\"uint32\" regnum=\"")?;
    let place = format!(in alloc; "{}", u32::from(number) + FIRST_CSR)?;
    push_text(text, place.as_bytes())?;
    push_text(text, b"\"/>\n")
}

/// Appends the lines of all CSRs of a hart with a profile, by their numbers.
fn push_csrs(profile: Profile, alloc: Global, text: &mut Vec<u8>) -> Result<(), AllocError>
    ensures { OnOk result (text.new.items ≡ text.old.items ++ csr_lines profile 4096) }
{
    for number in 0..0x1000_u16 {
        if Csr::at(profile, u32::from(number)).is_some() {
            push_csr(alloc, text, number)?;
        }
    }
    Ok(())
}

/// Appends the description of the target: that it has no system, the registers that `rrs_gdb` has,
/// the CSRs of a hart with a profile, and the privilege mode.
///
/// # Errors
///
/// Out of memory.
pub fn push_target(profile: Profile, alloc: Global, text: &mut Vec<u8>) -> Result<(), AllocError>
    ensures { OnOk result ((first : List ℕ) × (text.new.items
        ≡ text.old.items ++ (first ++ csr_lines profile 4096 ++ mode_line_and_end))) }
{
    push_text(text, HEAD)?;
    push_text(text, NO_SYSTEM)?;
    let registers = TARGET.strip_prefix(HEAD).unwrap_or(TARGET);
    push_text(
        text,
        registers.strip_suffix(b"</target>\n").unwrap_or(registers),
    )?;
    push_text(text, b"<feature name=\"org.gnu.gdb.riscv.csr\">\n")?;
    push_csrs(profile, alloc, text)?;
    push_text(text, MODE_AND_END)
}
