//! The registers as gdb has them: x0 to x31, the pc, from 65 on the CSRs by their numbers, and behind
//! these the privilege mode.

ghost use Rattle.std.specs.Prelude.{◌≡◌, ◌<◌, false, true, MatchOption};
ghost use Rattle.rrs_words.specs.CsrNumbers.{csr_at};
ghost use Rattle.rrs_board_gdb.specs.Shown.{csr_shown, shown_register, csr_changed, mode_changed, hart_changed, with_register};

use rrs_board::Board;
use rrs_gdb::{REGISTERS, register_value};
use rrs_lib::HartState;
use rrs_machine::{Csr, Mode};
use rrs_words::csrs::is_read_only;

/// The number that gdb has for the CSR of number 0.
pub const FIRST_CSR: u32 = 65;

/// The number that gdb has for the privilege mode.
pub const PRIV: u32 = 4161;

/// The value of a CSR, as an instruction reads it.
fn csr_of(board: &Board, csr: Option<Csr>) -> Option<u32>
    ensures { result ≡ csr_shown board.now csr }
{
    match csr {
        Some(csr) => Some(board.csrs.read(csr, &board.memory.devices.inputs())),
        None => None,
    }
}

/// The value of a register by its number, if there is one.
pub fn value_of(board: &Board, number: u32) -> Option<u32>
    ensures { result ≡ shown_register board.now number }
{
    if number < REGISTERS {
        return Some(register_value(&board.hart, number));
    }
    if number < FIRST_CSR {
        return None;
    }
    if number == PRIV {
        return Some(board.csrs.mode().number());
    }
    csr_of(board, Csr::at(board.csrs.profile, number - FIRST_CSR))
}

/// Changes a CSR, if it can be written, as an instruction does.
fn change_csr(board: &mut Board, number: u32, csr: Option<Csr>, value: u32) -> bool
    ensures { MatchOption (csr_changed number csr value board.old)
        ((result ≡ false) × (board.new ≡ board.old))
        (λ changed. (result ≡ true) × (board.new ≡ changed)) }
{
    match csr {
        Some(csr) if !is_read_only(number) => {
            board.csrs.write(csr, value);
            true
        }
        _ => false,
    }
}

/// Changes a CSR by its number, if the hart has it and it can be written.
fn change_numbered(board: &mut Board, number: u32, value: u32) -> bool
    ensures { MatchOption
        (csr_changed number (csr_at board.old.csrs.profile number) value board.old)
        ((result ≡ false) × (board.new ≡ board.old))
        (λ changed. (result ≡ true) × (board.new ≡ changed)) }
{
    let csr = Csr::at(board.csrs.profile, number);
    change_csr(board, number, csr, value)
}

/// Changes the privilege mode to the one of a number, if the hart has it.
fn change_mode(board: &mut Board, value: u32) -> bool
    ensures { MatchOption (mode_changed value board.old)
        ((result ≡ false) × (board.new ≡ board.old))
        (λ changed. (result ≡ true) × (board.new ≡ changed)) }
{
    match value {
        0 if board.csrs.profile.user_mode => board.csrs.mode = Mode::User,
        3 => board.csrs.mode = Mode::Machine,
        _ => return false,
    }
    true
}

/// Changes one of x0 to x31, or, by 32, the pc.
fn change_hart(hart: &mut HartState, number: u32, value: u32)
    requires { number < 33 }
    ensures { hart.new ≡ hart_changed hart.old number value }
{
    if number == 32 {
        hart.pc = value;
    } else {
        hart.registers[number as usize] = value;
    }
}

/// Changes a register by its number, and returns whether there is one that can be changed so: x1 to
/// x31, the pc, the privilege mode to one that the hart has, or a CSR that is not read only, of which
/// the bits that an instruction writes are changed. Nothing else changes.
pub fn change_register(board: &mut Board, number: u32, value: u32) -> bool
    ensures { MatchOption (with_register board.old number value)
        ((result ≡ false) × (board.new ≡ board.old))
        (λ changed. (result ≡ true) × (board.new ≡ changed)) }
{
    if number == 0 {
        return false;
    }
    if number < REGISTERS {
        change_hart(&mut board.hart, number, value);
        return true;
    }
    if number < FIRST_CSR {
        return false;
    }
    if number == PRIV {
        return change_mode(board, value);
    }
    change_numbered(board, number - FIRST_CSR, value)
}
