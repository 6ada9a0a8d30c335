//! Machine mode, as C has it: the CSRs, how a step ended, and what it retired.

ghost use Rattle.std.specs.Prelude.{◌≡◌, ℕ, Some, None, ◌==◌, if◌then◌else◌, Option};
ghost use Rattle.rrs_trace.specs.Retired.{HasRegisterNumbers};
ghost use Rattle.rrs_words.specs.CsrNumbers.{csr_at};
ghost use Rattle.rrs_c.specs.Machines.{profile_in, mode_in, reservation_in, csrs_in, inputs_in, machine_answer, IsOutcome, machine_retired_in, IsMachineRecord, csr_told, csr_to_write, file_after, was_written};

use crate::retired::{RrsRetired, flag, word_and_flag, written_out};
use rrs_machine::{
    Csr, CsrFile, Exception, Inputs, Interrupt, MachineAnswer, MachineRetired, Mode, Profile,
};
use rrs_words::HartProfile;
use rrs_words::csrs::is_read_only;

/// The CSRs of a hart, owned by the caller. All 0 is a hart with machine mode alone, at reset.
#[repr(C)]
#[derive(Drop)]
pub struct RrsCsrs {
    /// `mstatus`: MIE is bit 3 and MPIE bit 7. With user mode MPP is bits 12 and 11, MPRV bit 17 and
    /// TW bit 21; without it MPP always reads 3.
    pub mstatus: u32,
    /// `mie`.
    pub mie: u32,
    /// `mtvec`.
    pub mtvec: u32,
    /// `mscratch`.
    pub mscratch: u32,
    /// `mepc`.
    pub mepc: u32,
    /// `mcause`.
    pub mcause: u32,
    /// `mtval`.
    pub mtval: u32,
    /// `mcountinhibit`.
    pub mcountinhibit: u32,
    /// `mcycle` and `mcycleh`.
    pub mcycle: u64,
    /// `minstret` and `minstreth`.
    pub minstret: u64,
    /// 1 where the latest step took a trap: the next instruction is the first of a handler.
    pub trapped: u32,
    /// What the hart has: bit 0 is extension A, bit 1 user mode, bit 2 the compressed instructions,
    /// bit 3 misaligned loads and stores, and bit 4 says that it has no `fence.i`. No call changes it.
    pub profile: u32,
    /// 1 where the hart is in user mode, any other in machine mode. Without user mode it is machine
    /// mode, whatever stands here.
    pub user: u32,
    /// `mcounteren`.
    pub mcounteren: u32,
    /// 1 where an address is reserved.
    pub reserved: u32,
    /// The address that is reserved.
    pub reservation: u32,
}

/// How a step of a hart with machine mode ended.
#[repr(C)]
#[derive(Clone, Copy)]
pub struct RrsOutcome {
    /// 0: an instruction retired, 1: a `wfi` retired and the hart waits, 2: an exception, 3: an
    /// interrupt.
    pub kind: u32,
    /// What `mcause` has after an exception or an interrupt, else 0.
    pub cause: u32,
    /// What `mtval` has after an exception, else 0.
    pub value: u32,
}

/// A CSR by its number.
#[repr(C)]
#[derive(Clone, Copy)]
pub struct RrsCsr {
    /// 1 where there is one with this number, else 0.
    pub found: u32,
    /// Its value, or 0.
    pub value: u32,
}

/// What a step of a hart with machine mode retired, under the names of RVFI.
#[repr(C)]
#[derive(Drop)]
pub struct RrsMachineRetired {
    /// What a step of a hart without machine mode tells too.
    pub retired: RrsRetired,
    /// 1 where an instruction was executed, 0 where an interrupt was taken.
    pub valid: u32,
    /// 1 where it is the first instruction of a handler, else 0.
    pub intr: u32,
    /// The privilege mode before the step: 3 is machine mode, and 0 user mode.
    pub mode: u32,
    /// 1 where the step took a trap, an exception or an interrupt, else 0.
    pub trapped: u32,
    /// What `mcause` has after the trap, or 0.
    pub cause: u32,
    /// The number of the CSR that was read or written, or 0.
    pub csr_addr: u32,
    /// The bits that were read: all, or none.
    pub csr_rmask: u32,
    /// The bits that were written.
    pub csr_wmask: u32,
    /// The value that was read.
    pub csr_rdata: u32,
    /// The value of the bits that were written.
    pub csr_wdata: u32,
}

/// The profile that eleven bits are.
#[inline]
pub(crate) fn profile_of(bits: u32) -> Profile
    ensures { result ≡ profile_in bits }
{
    Profile {
        hart: HartProfile {
            atomics: bits % 2 == 1,
            fence_i: bits / 16 % 2 == 0,
            misaligned: bits / 8 % 2 == 1,
            compressed: bits / 4 % 2 == 1,
            zba: bits / 32 % 2 == 1,
            zbb: bits / 64 % 2 == 1,
            zbs: bits / 128 % 2 == 1,
            zbc: bits / 256 % 2 == 1,
            zbkb: bits / 512 % 2 == 1,
            zicond: bits / 1024 % 2 == 1,
        },
        user_mode: bits / 2 % 2 == 1,
    }
}

/// The bits of a profile.
#[inline]
fn profile_bits(profile: Profile) -> u32
    ensures { profile_in result ≡ profile }
{
    flag(profile.hart.atomics)
        + 2 * flag(profile.user_mode)
        + 4 * flag(profile.hart.compressed)
        + 8 * flag(profile.hart.misaligned)
        + 16 * flag(!profile.hart.fence_i)
        + 32 * flag(profile.hart.zba)
        + 64 * flag(profile.hart.zbb)
        + 128 * flag(profile.hart.zbs)
        + 256 * flag(profile.hart.zbc)
        + 512 * flag(profile.hart.zbkb)
        + 1024 * flag(profile.hart.zicond)
}

/// The mode, by whether it is user mode.
#[inline]
fn mode_of(user: u32) -> Mode
    ensures { result ≡ mode_in user }
{
    if user == 1 { Mode::User } else { Mode::Machine }
}

/// 1 where it is user mode, else 0.
#[inline]
fn user_of(mode: Mode) -> u32
    ensures { mode_in result ≡ mode }
{
    match mode {
        Mode::User => 1,
        Mode::Machine => 0,
    }
}

/// The address that is reserved, if one is.
#[inline]
pub(crate) fn reservation_of(reserved: u32, address: u32) -> Option<u32>
    ensures { result ≡ reservation_in reserved address }
{
    if reserved == 1 { Some(address) } else { None }
}

/// The kit's CSRs that those of C are.
#[inline]
pub(crate) fn file_of(csrs: &RrsCsrs) -> CsrFile
    ensures { result ≡ csrs_in csrs.now }
{
    CsrFile {
        profile: profile_of(csrs.profile),
        mode: mode_of(csrs.user),
        mstatus: csrs.mstatus,
        mie: csrs.mie,
        mtvec: csrs.mtvec,
        mcounteren: csrs.mcounteren,
        mscratch: csrs.mscratch,
        mepc: csrs.mepc,
        mcause: csrs.mcause,
        mtval: csrs.mtval,
        mcountinhibit: csrs.mcountinhibit,
        mcycle: csrs.mcycle,
        minstret: csrs.minstret,
        reservation: reservation_of(csrs.reserved, csrs.reservation),
    }
}

/// The CSRs of C that those of the kit are.
#[inline]
pub(crate) fn csrs_of(file: &CsrFile, trapped: u32) -> RrsCsrs
    ensures same { csrs_in result ≡ file.now }
    ensures trapped { result.trapped ≡ trapped }
{
    let (reservation, reserved) = word_and_flag(file.reservation);
    RrsCsrs {
        mstatus: file.mstatus,
        mie: file.mie,
        mtvec: file.mtvec,
        mscratch: file.mscratch,
        mepc: file.mepc,
        mcause: file.mcause,
        mtval: file.mtval,
        mcountinhibit: file.mcountinhibit,
        mcycle: file.mcycle,
        minstret: file.minstret,
        trapped,
        profile: profile_bits(file.profile),
        user: user_of(file.mode),
        mcounteren: file.mcounteren,
        reserved,
        reservation,
    }
}

/// What a hart is told from outside: the interrupts that are pending, as `mip` has them, and the
/// time.
#[inline]
pub(crate) fn inputs_of(mip: u32, time: u64) -> Inputs
    ensures { result ≡ inputs_in mip time }
{
    Inputs {
        external: mip / 0x800 % 2 == 1,
        software: mip / 0x8 % 2 == 1,
        timer: mip / 0x80 % 2 == 1,
        time,
    }
}

/// An exception, as C has it.
#[inline]
fn raised(exception: Exception) -> RrsOutcome
    ensures same { machine_answer result ≡ MachineAnswer.Raised exception }
    ensures told { IsOutcome result }
{
    RrsOutcome {
        kind: 2,
        cause: exception.code(),
        value: exception.value(),
    }
}

/// An interrupt, as C has it.
#[inline]
fn interrupted(interrupt: Interrupt) -> RrsOutcome
    ensures same { machine_answer result ≡ MachineAnswer.Interrupted interrupt }
    ensures told { IsOutcome result }
{
    RrsOutcome {
        kind: 3,
        cause: 0x8000_0000 + interrupt.code(),
        value: 0,
    }
}

/// How a step ended, as C has it.
#[inline]
pub(crate) fn outcome_of(answer: MachineAnswer) -> RrsOutcome
    ensures same { machine_answer result ≡ answer }
    ensures told { IsOutcome result }
{
    match answer {
        MachineAnswer::Retired => RrsOutcome {
            kind: 0,
            cause: 0,
            value: 0,
        },
        MachineAnswer::Waiting => RrsOutcome {
            kind: 1,
            cause: 0,
            value: 0,
        },
        MachineAnswer::Raised(exception) => raised(exception),
        MachineAnswer::Interrupted(interrupt) => interrupted(interrupt),
    }
}

/// The record of C that a record of the kit is.
#[inline]
pub(crate) fn machine_written_out(record: &MachineRetired) -> RrsMachineRetired
    requires { HasRegisterNumbers record.now.retired }
    ensures same { machine_retired_in result ≡ record.now }
    ensures told { IsMachineRecord result }
{
    let (cause, trapped) = word_and_flag(record.cause);
    RrsMachineRetired {
        retired: written_out(&record.retired),
        valid: flag(record.valid),
        intr: flag(record.intr),
        mode: u32::from(record.mode),
        trapped,
        cause,
        csr_addr: record.csr.addr,
        csr_rmask: record.csr.rmask,
        csr_wmask: record.csr.wmask,
        csr_rdata: record.csr.rdata,
        csr_wdata: record.csr.wdata,
    }
}

/// The CSR with this number, and its value.
pub(crate) fn csr_read(csrs: &RrsCsrs, number: u32, inputs: &Inputs) -> RrsCsr
    ensures { result
        ≡ csr_told (csr_at (profile_in csrs.now.profile) number) (csrs_in csrs.now) inputs.now }
{
    match Csr::at(profile_of(csrs.profile), number) {
        Some(csr) => RrsCsr {
            found: 1,
            value: file_of(csrs).read(csr, inputs),
        },
        None => RrsCsr { found: 0, value: 0 },
    }
}

/// The CSR that can be written by this number.
fn csr_to_write(profile: Profile, number: u32) -> Option<Csr>
    ensures { result ≡ csr_to_write profile number }
{
    if is_read_only(number) {
        None
    } else {
        Csr::at(profile, number)
    }
}

/// Writes the CSR with this number, if it can be written. Returns 1 where it can, else 0.
pub(crate) fn csr_write(csrs: &mut RrsCsrs, number: u32, value: u32) -> u32
    ensures written { csrs_in csrs.new
        ≡ file_after (csr_to_write (profile_in csrs.old.profile) number) value (csrs_in csrs.old) }
    ensures told { result ≡ was_written (csr_to_write (profile_in csrs.old.profile) number) }
    ensures trapped_kept { csrs.new.trapped ≡ csrs.old.trapped }
{
    let Some(csr) = csr_to_write(profile_of(csrs.profile), number) else {
        return 0;
    };
    let mut file = file_of(csrs);
    file.write(csr, value);
    *csrs = csrs_of(&file, csrs.trapped);
    1
}
