//! Exceptions and interrupts, and what they leave in the CSRs.

ghost use Rattle.std.specs.Prelude.{◌≡◌, ◌↔◌, ◌+◌, ◌*◌, ◌/◌, ◌%◌, ◌^◌, ◌<◌, Err, IsTrue};
ghost use Rattle.std.specs.Bool.{OnTrue, OnFalse};
ghost use Rattle.rrs_instruction.specs.Instructions.{row_of};
ghost use Rattle.rrs_instruction.specs.Table.{table};
ghost use Rattle.rrs_machine.specs.MachineSteps.{MachineState, fetched_at};
ghost use Rattle.rrs_machine.specs.Runs.{TakesNone, LeadsBack, StandsStill, IsDead};
ghost use Rattle.rrs_machine.specs.Traps.{exception_code, exception_value, interrupt_code, is_ready, ready_interrupt, is_enabled, interrupt_due, mode_bits, trap_file, previous_mode, returned_mprv, return_file, base_of, vector_of, stores, layer_stores, IsStore, IsKind, misaligned, call_from, exception_of};

use crate::csrs::{CsrFile, Inputs, Mode};
use rrs_hart::{Encoding, layer_in, row_in};
use rrs_instruction::arithmetic;
use rrs_lib::instruction::Instruction;
use rrs_lib::instruction_executor::InstructionException;
use rrs_words::csrs::previous;
use rrs_words::{AtomicRow, Csr, HartProfile, LayerInstruction, Profile};

/// Why an instruction traps. Its address or its word is what `mtval` gets.
#[derive(Debug, PartialEq, Clone, Copy)]
pub enum Exception {
    /// Code 0: the pc, or the target of a jump or a taken branch, is misaligned: that address.
    InstructionMisaligned(u32),
    /// Code 1: the four bytes at the pc are not all mapped: the pc.
    InstructionFault(u32),
    /// Code 2: the word at the pc is an illegal instruction: the word.
    IllegalInstruction(u32),
    /// Code 3: the instruction is `ebreak`: the pc.
    Breakpoint(u32),
    /// Code 4: the address of a load is misaligned: that address.
    LoadMisaligned(u32),
    /// Code 5: a load's bytes are not all mapped: the address.
    LoadFault(u32),
    /// Code 6: the address of a store is misaligned: that address.
    StoreMisaligned(u32),
    /// Code 7: a store's bytes are not all writable: the address.
    StoreFault(u32),
    /// Code 8: the instruction is `ecall`, in user mode. `mtval` is 0.
    UserEnvironmentCall,
    /// Code 11: the instruction is `ecall`, in machine mode. `mtval` is 0.
    EnvironmentCall,
}

/// An interrupt of machine mode.
#[derive(Debug, PartialEq, Clone, Copy)]
pub enum Interrupt {
    /// Code 11: from outside.
    External,
    /// Code 3: from another hart, or from the hart itself.
    Software,
    /// Code 7: from the timer.
    Timer,
}

impl Exception {
    /// The code, as `mcause` has it.
    pub fn code(self) -> u32
        ensures { result ≡ exception_code self }
    {
        match self {
            Exception::InstructionMisaligned(_) => 0,
            Exception::InstructionFault(_) => 1,
            Exception::IllegalInstruction(_) => 2,
            Exception::Breakpoint(_) => 3,
            Exception::LoadMisaligned(_) => 4,
            Exception::LoadFault(_) => 5,
            Exception::StoreMisaligned(_) => 6,
            Exception::StoreFault(_) => 7,
            Exception::UserEnvironmentCall => 8,
            Exception::EnvironmentCall => 11,
        }
    }

    /// The address or the word, as `mtval` has it.
    pub fn value(self) -> u32
        ensures { result ≡ exception_value self }
    {
        match self {
            Exception::InstructionMisaligned(value)
            | Exception::InstructionFault(value)
            | Exception::IllegalInstruction(value)
            | Exception::Breakpoint(value)
            | Exception::LoadMisaligned(value)
            | Exception::LoadFault(value)
            | Exception::StoreMisaligned(value)
            | Exception::StoreFault(value) => value,
            Exception::UserEnvironmentCall | Exception::EnvironmentCall => 0,
        }
    }
}

impl Interrupt {
    /// The code, as `mcause` has it beside bit 31.
    pub fn code(self) -> u32
        ensures code { result ≡ interrupt_code self }
        ensures low { result < 12 }
    {
        match self {
            Interrupt::Software => 3,
            Interrupt::Timer => 7,
            Interrupt::External => 11,
        }
    }
}

/// The exception of an `ecall`, by the mode.
fn call_from(mode: Mode) -> Exception
    ensures { result ≡ call_from mode }
{
    match mode {
        Mode::User => Exception::UserEnvironmentCall,
        Mode::Machine => Exception::EnvironmentCall,
    }
}

/// What accesses memory where an exception is raised. It names the exception of a misaligned
/// address.
#[derive(Debug, PartialEq, Clone, Copy)]
pub enum AccessKind {
    /// The fetch of an instruction.
    Fetch,
    /// An instruction that loads, an `lr.w` among them.
    Load,
    /// An instruction that stores, or another one of extension A.
    Store,
}

/// Whether an instruction of the 48 rows is a store.
fn stores(instruction: &Instruction) -> bool
    ensures { result ≡ stores (table (row_of instruction.now)).action }
{
    matches!(
        instruction,
        Instruction::Sb(_) | Instruction::Sh(_) | Instruction::Sw(_)
    )
}

/// Whether an instruction of a layer stores.
fn layer_stores(instruction: &LayerInstruction) -> bool
    ensures { result ≡ layer_stores instruction.now }
{
    match instruction {
        LayerInstruction::System(_) | LayerInstruction::Bits(_) => false,
        LayerInstruction::Atomic(atomic) => !matches!(atomic.row, AtomicRow::LrW),
    }
}

/// Whether an encoding is a store or an AMO.
fn is_store(profile: HartProfile, encoding: Encoding) -> bool
    ensures { IsTrue result ↔ IsStore profile encoding }
{
    if let Some(instruction) = row_in(encoding) {
        return stores(&instruction);
    }
    match layer_in(profile, encoding) {
        Some(instruction) => layer_stores(&instruction),
        None => false,
    }
}

/// What accesses memory, by what was fetched.
pub(crate) fn kind_of(
    profile: HartProfile,
    fetched: Result<Encoding, InstructionException>,
) -> AccessKind
    ensures { IsKind profile fetched result }
{
    match fetched {
        Err(_) => AccessKind::Fetch,
        Ok(encoding) => {
            if is_store(profile, encoding) {
                AccessKind::Store
            } else {
                AccessKind::Load
            }
        }
    }
}

/// The exception of a misaligned address.
fn misaligned(kind: AccessKind, address: u32) -> Exception
    ensures { result ≡ misaligned kind address }
{
    match kind {
        AccessKind::Fetch => Exception::InstructionMisaligned(address),
        AccessKind::Load => Exception::LoadMisaligned(address),
        AccessKind::Store => Exception::StoreMisaligned(address),
    }
}

/// The exception that a step of the hart ended with, in a mode.
pub(crate) fn exception_of(mode: Mode, kind: AccessKind, fault: InstructionException) -> Exception
    ensures { result ≡ exception_of mode kind fault }
{
    match fault {
        InstructionException::AlignmentFault(address) => misaligned(kind, address),
        InstructionException::LoadAccessFault(address) => Exception::LoadFault(address),
        InstructionException::StoreAccessFault(address) => Exception::StoreFault(address),
        InstructionException::FetchError(address) => Exception::InstructionFault(address),
        InstructionException::IllegalInstruction(_, word) => Exception::IllegalInstruction(word),
        InstructionException::EnvironmentCall(_) => call_from(mode),
        InstructionException::Breakpoint(address) => Exception::Breakpoint(address),
    }
}

/// MPP, MPRV and TW, in their places in `mstatus`.
fn mode_bits(profile: Profile, mpp: u32, mprv: u32, tw: u32) -> u32
    requires { (mpp < 4) × (mprv < 2) × (tw < 2) }
    ensures bits { result ≡ mode_bits profile mpp mprv tw }
    ensures low { result < 2 ^ 22 }
{
    if profile.user_mode {
        mpp * 0x800 + mprv * 0x2_0000 + tw * 0x20_0000
    } else {
        0
    }
}

/// Whether an instruction leads back to itself.
fn leads_back(encoding: Encoding) -> bool
    ensures { IsTrue result ↔ LeadsBack encoding }
{
    match encoding {
        Encoding::Long(word) => word == 0x6f || word == 0x63,
        Encoding::Short(half) => half == 0xa001,
    }
}

impl CsrFile {
    /// Whether an interrupt is ready, by whether it is pending.
    fn is_ready(&self, pending: bool, interrupt: Interrupt) -> bool
        ensures { result ≡ is_ready self.now pending interrupt }
    {
        pending && (self.mie >> interrupt.code()) % 2 == 1
    }

    /// The first interrupt that is pending and enabled by `mie`: external, software, timer.
    pub fn ready_interrupt(&self, inputs: &Inputs) -> Option<Interrupt>
        ensures { result ≡ ready_interrupt self.now inputs.now }
    {
        if self.is_ready(inputs.external, Interrupt::External) {
            Some(Interrupt::External)
        } else if self.is_ready(inputs.software, Interrupt::Software) {
            Some(Interrupt::Software)
        } else if self.is_ready(inputs.timer, Interrupt::Timer) {
            Some(Interrupt::Timer)
        } else {
            None
        }
    }

    /// Whether a mode takes interrupts: machine mode where MIE of `mstatus` is 1, user mode always.
    fn is_enabled(&self, mode: Mode) -> bool
        ensures { result ≡ is_enabled mode self.now.mstatus }
    {
        match mode {
            Mode::User => true,
            Mode::Machine => self.mstatus / 8 % 2 == 1,
        }
    }

    /// The interrupt that the next step takes: none in machine mode where MIE of `mstatus` is 0.
    pub fn interrupt_due(&self, inputs: &Inputs) -> Option<Interrupt>
        ensures { result ≡ interrupt_due self.now inputs.now }
    {
        if self.is_enabled(self.mode()) {
            self.ready_interrupt(inputs)
        } else {
            None
        }
    }

    /// Enters a trap from a pc.
    pub(crate) fn enter(&mut self, cause: u32, value: u32, pc: u32)
        ensures { self.new ≡ trap_file cause value pc self.old }
    {
        let bits = mode_bits(
            self.profile,
            self.mode.number(),
            self.mstatus / 0x2_0000 % 2,
            self.mstatus / 0x20_0000 % 2,
        );
        self.mode = Mode::Machine;
        self.mstatus = self.mstatus / 8 % 2 * 0x80 + bits;
        self.mepc = arithmetic::and(pc, Csr::Mepc.written_bits(self.profile));
        self.mcause = cause;
        self.mtval = value;
    }

    /// The mode that a return from a trap goes to.
    fn previous_mode(&self) -> Mode
        ensures { result ≡ previous_mode self.now }
    {
        if !self.profile.user_mode {
            return Mode::Machine;
        }
        match previous(self.mstatus) {
            3 => Mode::Machine,
            _ => Mode::User,
        }
    }

    /// MPRV after a return from a trap to a mode.
    fn returned_mprv(&self, mode: Mode) -> u32
        ensures field { result ≡ returned_mprv mode self.now }
        ensures low { result < 2 }
    {
        match mode {
            Mode::User => 0,
            Mode::Machine => self.mstatus / 0x2_0000 % 2,
        }
    }

    /// Leaves a trap.
    pub(crate) fn leave(&mut self)
        ensures { self.new ≡ return_file self.old }
    {
        let mode = self.previous_mode();
        let bits = mode_bits(
            self.profile,
            Mode::User.number(),
            self.returned_mprv(mode),
            self.mstatus / 0x20_0000 % 2,
        );
        self.mode = mode;
        self.mstatus = 0x80 + self.mstatus / 0x80 % 2 * 8 + bits;
    }

    /// The base of the handlers, where an exception goes.
    pub fn base(&self) -> u32
        ensures { result ≡ base_of self.now }
    {
        self.mtvec / 4 * 4
    }

    /// Whether no interrupt can be taken, whatever comes from outside.
    fn takes_none(&self) -> bool
        ensures masked { OnTrue result (TakesNone self.now) }
        ensures open { OnFalse result (¬ TakesNone self.now) }
    {
        let all_pending = Inputs {
            external: true,
            software: true,
            timer: true,
            time: 0,
        };
        self.interrupt_due(&all_pending).is_none()
    }

    /// Whether the trap of a fetch at a pc, which found nothing at an address, leaves these CSRs as
    /// they are.
    fn is_after_fault(&self, pc: u32, address: u32) -> bool
        ensures { IsTrue result ↔ (trap_file 1 address pc self.now ≡ self.now) }
    {
        let mut after = *self;
        after.enter(1, address, pc);
        after.mode == self.mode
            && after.mstatus == self.mstatus
            && after.mepc == self.mepc
            && after.mcause == self.mcause
            && after.mtval == self.mtval
    }

    /// Whether nothing leads away from a pc where the fetch raises an exception: nothing is mapped
    /// there, and it is the base of the handlers, after the trap of that.
    fn traps_again(&self, pc: u32, fault: InstructionException) -> bool
        ensures { IsTrue result ↔ StandsStill pc (Err fault) self.now }
    {
        match fault {
            InstructionException::FetchError(address) => {
                pc == self.base() && self.is_after_fault(pc, address)
            }
            _ => false,
        }
    }

    /// Whether a hart with these CSRs stands still at a pc where this is fetched, or raised by the
    /// fetch: no interrupt can be taken, and the instruction leads back to it.
    ///
    /// The instructions that do are `j .`, `beq x0, x0, .` and `c.j .`. The clauses: it is so
    /// exactly then (`stands`, `moves`), and such a hart is dead (`dead`).
    pub fn stands_still(&self, pc: u32, fetched: Result<Encoding, InstructionException>) -> bool
        ensures stands { OnTrue result (TakesNone self.now × StandsStill pc fetched self.now) }
        ensures moves { OnFalse result (TakesNone self.now → ¬ StandsStill pc fetched self.now) }
        ensures dead { OnTrue result ((s : MachineState) → s.csrs ≡ self.now → s.hart.pc ≡ pc
            → fetched_at s ≡ fetched → IsDead s) }
    {
        if !self.takes_none() {
            return false;
        }
        match fetched {
            Ok(encoding) => leads_back(encoding),
            Err(fault) => self.traps_again(pc, fault),
        }
    }

    /// Where an interrupt goes, by its code.
    pub(crate) fn vector(&self, code: u32) -> u32
        requires { code < 12 }
        ensures { result ≡ vector_of code self.now }
    {
        if self.mtvec % 2 == 1 {
            self.base().wrapping_add(4 * code)
        } else {
            self.base()
        }
    }
}
