//! The control and status registers of a hart that has machine mode, alone or with user mode.
//!
//! A [CsrFile] keeps what is kept. [CsrFile::read] and [CsrFile::write] read and write a register
//! as the instructions do, and [CsrFile::found] is what an instruction may access. What is read, and
//! what each is at reset, is `specs/Csrs.antt`.

ghost use Rattle.std.specs.Prelude.{◌≡◌, ◌+◌, ◌-◌, ◌*◌, ◌/◌, ◌%◌, ◌^◌, ◌<◌, ◌≤◌, ◌==◌, ◌↔◌, ◌&&◌, IsTrue};
ghost use Rattle.rrs_words.specs.CsrNumbers.{both, either, csr_at, misa_value, written_bits, fixed_bits, legal, machine_alone};
ghost use Rattle.rrs_machine.specs.Csrs.{mode_number, mode_of, is_open, found_csr, pending_bits, kept, csr_value, keeping, csr_written, reset_file, cycle_counted, instruction_counted, retired_file, counter_after, retired_times, counted_beside};

use rrs_instruction::arithmetic;
use rrs_words::{Csr, Profile};

/// A privilege mode.
#[derive(Debug, PartialEq, Clone, Copy)]
pub enum Mode {
    /// User mode, the lower one.
    User,
    /// Machine mode.
    Machine,
}

impl Mode {
    /// The mode as MPP has it: 0 for user mode, and 3 for machine mode.
    pub fn number(self) -> u32
        ensures number { result ≡ mode_number self }
        ensures low { result < 4 }
    {
        match self {
            Mode::User => 0,
            Mode::Machine => 3,
        }
    }
}

/// What a hart keeps of its CSRs.
///
/// A bit that is not written keeps no meaning: [CsrFile::read] gives it as it always is, whatever
/// stands here. So every value of this struct is a state of the hart.
#[derive(Debug, PartialEq, Clone, Copy)]
pub struct CsrFile {
    /// What the hart has. No step changes it.
    pub profile: Profile,
    /// The mode that the hart is in. Without user mode it is machine mode, whatever stands here.
    pub mode: Mode,
    /// `mstatus`: MIE is bit 3 and MPIE bit 7. With user mode MPP, 0 or 3, is bits 12 and 11, MPRV
    /// bit 17 and TW bit 21; without it MPP always reads 3.
    pub mstatus: u32,
    /// `mie`: MSIE is bit 3, MTIE bit 7 and MEIE bit 11.
    pub mie: u32,
    /// `mtvec`: the base of the handlers, a multiple of 4, and in bit 0 whether interrupts are
    /// vectored.
    pub mtvec: u32,
    /// `mcounteren`: CY, TM and IR, bits 0, 1 and 2, show `cycle`, `time` and `instret` to user
    /// mode.
    pub mcounteren: u32,
    /// `mscratch`: a word for the handler.
    pub mscratch: u32,
    /// `mepc`: the pc of the instruction that was interrupted or raised the exception. Its lowest
    /// bit reads 0, and so does bit 1 of a hart without compressed instructions.
    pub mepc: u32,
    /// `mcause`: bit 31 says that it was an interrupt, the others are its code or that of the
    /// exception.
    pub mcause: u32,
    /// `mtval`: an address, a word, or 0.
    pub mtval: u32,
    /// `mcountinhibit`: CY, bit 0, stops `mcycle`, and IR, bit 2, stops `minstret`.
    pub mcountinhibit: u32,
    /// `mcycle` and `mcycleh`: the steps, traps among them.
    pub mcycle: u64,
    /// `minstret` and `minstreth`: the instructions that retired.
    pub minstret: u64,
    /// The address that an `lr.w` reserved, if one did.
    pub reservation: Option<u32>,
}

/// What a hart is told from outside, for a step: which interrupts are pending, and the time.
#[derive(Debug, PartialEq, Clone, Copy)]
pub struct Inputs {
    /// Whether an external interrupt is pending: MEIP, bit 11 of `mip`.
    pub external: bool,
    /// Whether a software interrupt is pending: MSIP, bit 3 of `mip`.
    pub software: bool,
    /// Whether a timer interrupt is pending: MTIP, bit 7 of `mip`.
    pub timer: bool,
    /// The time, as `time` and `timeh` have it.
    pub time: u64,
}

/// The low half of a counter of 64 bits.
pub fn low_half(counter: u64) -> u32
    ensures { result ≡ counter % 2 ^ 32 }
{
    (counter % 0x1_0000_0000) as u32
}

/// The high half of a counter of 64 bits.
pub fn high_half(counter: u64) -> u32
    ensures { result ≡ counter / 2 ^ 32 }
{
    (counter / 0x1_0000_0000) as u32
}

/// The counter of 64 bits that two halves are.
pub fn of_halves(high: u32, low: u32) -> u64
    ensures { result ≡ high * 2 ^ 32 + low }
{
    u64::from(high) * 0x1_0000_0000 + u64::from(low)
}

/// A counter after so many more, unless it is stopped.
fn counter_after(is_stopped: bool, count: u64, more: u64) -> u64
    ensures after { result ≡ counter_after is_stopped count more }
    ensures fits { count < 2 ^ 64 }
{
    if is_stopped {
        count
    } else {
        count.wrapping_add(more)
    }
}

impl Inputs {
    /// The pending interrupts, as `mip` has them.
    fn pending(&self) -> u32
        ensures { result ≡ pending_bits self.now }
    {
        u32::from(self.software) * 0x8
            + u32::from(self.timer) * 0x80
            + u32::from(self.external) * 0x800
    }
}

impl CsrFile {
    /// The CSRs of a hart that has machine mode alone, at reset.
    pub fn new() -> Self
        ensures { result ≡ reset_file machine_alone }
    {
        CsrFile::with_profile(Profile::machine_alone())
    }

    /// The CSRs of a hart with a profile, at reset: in machine mode, with all registers 0 and no
    /// reservation.
    pub fn with_profile(profile: Profile) -> Self
        ensures { result ≡ reset_file profile }
    {
        CsrFile {
            profile,
            mode: Mode::Machine,
            mstatus: 0,
            mie: 0,
            mtvec: 0,
            mcounteren: 0,
            mscratch: 0,
            mepc: 0,
            mcause: 0,
            mtval: 0,
            mcountinhibit: 0,
            mcycle: 0,
            minstret: 0,
            reservation: None,
        }
    }

    /// The mode that the hart is in.
    pub fn mode(&self) -> Mode
        ensures { result ≡ mode_of self.now }
    {
        if self.profile.user_mode {
            self.mode
        } else {
            Mode::Machine
        }
    }

    /// Whether an instruction in this mode may access the CSR with this number, if there is one.
    fn is_open(&self, mode: Mode, number: u32) -> bool
        ensures { result ≡ is_open mode self.now number }
    {
        match mode {
            Mode::Machine => true,
            Mode::User => { number / 0x100 % 4 == 0 && (self.mcounteren >> (number % 32)) % 2 == 1 }
        }
    }

    /// The register that an instruction finds by its number, or `None` where there is none or the
    /// mode of the hart may not access it.
    pub fn found(&self, number: u32) -> Option<Csr>
        ensures { result ≡ found_csr self.now number }
    {
        if self.is_open(self.mode(), number) {
            Csr::at(self.profile, number)
        } else {
            None
        }
    }

    /// What is kept of a register, 0 where nothing is.
    fn kept(&self, csr: Csr) -> u32
        ensures { result ≡ kept csr self.now }
    {
        match csr {
            Csr::Mstatus => Csr::Mstatus.legal(0, self.mstatus),
            Csr::Mie => self.mie,
            Csr::Mtvec => self.mtvec,
            Csr::Mcounteren => self.mcounteren,
            Csr::Mscratch => self.mscratch,
            Csr::Mepc => self.mepc,
            Csr::Mcause => self.mcause,
            Csr::Mtval => self.mtval,
            Csr::Mcountinhibit => self.mcountinhibit,
            Csr::Mcycle => low_half(self.mcycle),
            Csr::Mcycleh => high_half(self.mcycle),
            Csr::Minstret => low_half(self.minstret),
            Csr::Minstreth => high_half(self.minstret),
            Csr::Misa | Csr::Mip | Csr::Time | Csr::Timeh | Csr::Constant(_) => 0,
        }
    }

    /// The value of a register, as an instruction reads it.
    pub fn read(&self, csr: Csr, inputs: &Inputs) -> u32
        ensures { result ≡ csr_value csr self.now inputs.now }
    {
        match csr {
            Csr::Misa => self.profile.misa(),
            Csr::Mip => inputs.pending(),
            Csr::Time => low_half(inputs.time),
            Csr::Timeh => high_half(inputs.time),
            Csr::Constant(value) => value,
            _ => arithmetic::or(
                csr.fixed_bits(self.profile),
                arithmetic::and(self.kept(csr), csr.written_bits(self.profile)),
            ),
        }
    }

    /// Lets a register keep this word.
    fn keep(&mut self, csr: Csr, value: u32)
        ensures { self.new ≡ keeping csr value self.old }
    {
        match csr {
            Csr::Mstatus => self.mstatus = value,
            Csr::Mie => self.mie = value,
            Csr::Mtvec => self.mtvec = value,
            Csr::Mcounteren => self.mcounteren = value,
            Csr::Mscratch => self.mscratch = value,
            Csr::Mepc => self.mepc = value,
            Csr::Mcause => self.mcause = value,
            Csr::Mtval => self.mtval = value,
            Csr::Mcountinhibit => self.mcountinhibit = value,
            Csr::Mcycle => self.mcycle = of_halves(high_half(self.mcycle), value),
            Csr::Mcycleh => self.mcycle = of_halves(value, low_half(self.mcycle)),
            Csr::Minstret => self.minstret = of_halves(high_half(self.minstret), value),
            Csr::Minstreth => self.minstret = of_halves(value, low_half(self.minstret)),
            Csr::Misa | Csr::Mip | Csr::Time | Csr::Timeh | Csr::Constant(_) => {}
        }
    }

    /// Writes a register, as an instruction does: bits that are not written stay as they always
    /// are, and MPP stays as it was where the value has 1 or 2 there.
    pub fn write(&mut self, csr: Csr, value: u32)
        ensures { self.new ≡ csr_written csr value self.old }
    {
        let value = csr.legal(self.kept(csr), value);
        self.keep(csr, arithmetic::and(value, csr.written_bits(self.profile)));
    }

    /// Counts a step in `mcycle`.
    pub(crate) fn count_cycle(&mut self)
        ensures { self.new ≡ cycle_counted self.old }
    {
        if self.mcountinhibit % 2 != 1 {
            self.mcycle = self.mcycle.wrapping_add(1);
        }
    }

    /// Counts an instruction in `minstret`.
    fn count_instruction(&mut self)
        ensures { self.new ≡ instruction_counted self.old }
    {
        if self.mcountinhibit / 4 % 2 != 1 {
            self.minstret = self.minstret.wrapping_add(1);
        }
    }

    /// Counts an instruction that retires.
    pub(crate) fn count_retired(&mut self)
        ensures { self.new ≡ retired_file self.old }
    {
        self.count_cycle();
        self.count_instruction();
    }

    /// Counts so many instructions that retire.
    pub fn count_retired_times(&mut self, times: u64)
        ensures { self.new ≡ retired_times times self.old }
    {
        let (no_cycles, no_instructions) = (
            self.mcountinhibit % 2 == 1,
            self.mcountinhibit / 4 % 2 == 1,
        );
        self.mcycle = counter_after(no_cycles, self.mcycle, times);
        self.minstret = counter_after(no_instructions, self.minstret, times);
    }

    /// Counts an instruction that retires and writes a register.
    pub(crate) fn count_beside(&mut self, csr: Csr)
        ensures { self.new ≡ counted_beside csr self.old }
    {
        match csr {
            Csr::Mcycle | Csr::Mcycleh => self.count_instruction(),
            Csr::Minstret | Csr::Minstreth => self.count_cycle(),
            _ => self.count_retired(),
        }
    }
}
