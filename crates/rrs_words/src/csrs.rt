//! The control and status registers of a hart that has machine mode, by their numbers.
//!
//! A [Profile] says what a hart has beside RV32IM and machine mode. [Csr::at] finds the register
//! with a number. The table of numbers, and of the bits that are written, is
//! `specs/CsrNumbers.antt`.

ghost use Rattle.std.specs.Prelude.{◌≡◌, ◌<◌};
ghost use Rattle.rrs_words.specs.CsrNumbers.{no_layers, machine_alone, with_atomics_and_user_mode, csr_among, setup_csrs, user_mode_csrs, user_mode_csr, handling_csrs, counter_csrs, reading_csrs, information_csrs, monitor_csr, csr_at, is_read_only, misa_value, status_bits, return_bits, written_bits, fixed_bits, previous, with_previous, legal_previous, legal};

/// Which layers a hart has beside the 48 rows.
#[derive(Debug, PartialEq, Clone, Copy)]
pub struct HartProfile {
    /// Extension A, on words.
    pub atomics: bool,
    /// Zifencei: `fence.i`, which does nothing, since each fetch reads what was stored.
    pub fence_i: bool,
    /// Whether loads and stores at misaligned addresses are carried out.
    pub misaligned: bool,
    /// Extension C for RV32 without floating point: instructions of 16 bits, at even addresses.
    pub compressed: bool,
    /// Zba: sums of shifted numbers, which are addresses.
    pub zba: bool,
    /// Zbb: operations on bits and bytes.
    pub zbb: bool,
    /// Zbs: operations on one bit.
    pub zbs: bool,
    /// Zbc: products without carries.
    pub zbc: bool,
    /// Zbkb: bit manipulation for cryptography.
    pub zbkb: bool,
    /// Zicond: conditional zeros.
    pub zicond: bool,
}

impl HartProfile {
    /// The 48 rows alone.
    pub fn no_layers() -> HartProfile
        ensures { result ≡ no_layers }
    {
        HartProfile {
            atomics: false,
            fence_i: false,
            misaligned: false,
            compressed: false,
            zba: false,
            zbb: false,
            zbs: false,
            zbc: false,
            zbkb: false,
            zicond: false,
        }
    }
}

/// What a hart has beside RV32IM, Zicsr, Zicntr and machine mode.
#[derive(Debug, PartialEq, Clone, Copy)]
pub struct Profile {
    /// The layers of its instructions.
    pub hart: HartProfile,
    /// Whether it has user mode.
    pub user_mode: bool,
}

impl Profile {
    /// Machine mode alone, with `fence.i`.
    pub fn machine_alone() -> Profile
        ensures { result ≡ machine_alone }
    {
        Profile {
            hart: HartProfile {
                fence_i: true,
                ..HartProfile::no_layers()
            },
            user_mode: false,
        }
    }

    /// Atomic instructions and `fence.i`, and user mode beside machine mode.
    pub fn with_atomics_and_user_mode() -> Profile
        ensures { result ≡ with_atomics_and_user_mode }
    {
        Profile {
            hart: HartProfile {
                atomics: true,
                fence_i: true,
                ..HartProfile::no_layers()
            },
            user_mode: true,
        }
    }

    /// What `misa` reads as.
    pub fn misa(self) -> u32
        ensures { result ≡ misa_value self }
    {
        let atomics = if self.hart.atomics { 1 } else { 0 };
        let compressed = if self.hart.compressed { 4 } else { 0 };
        let user_mode = if self.user_mode { 0x10_0000 } else { 0 };
        0x4000_1100 + atomics + compressed + user_mode
    }

    /// The bits of `mepc` that a write changes.
    fn return_bits(self) -> u32
        ensures { result ≡ return_bits self }
    {
        if self.hart.compressed {
            0xffff_fffe
        } else {
            0xffff_fffc
        }
    }

    /// The bits of `mstatus` that a write changes.
    fn status_bits(self) -> u32
        ensures { result ≡ status_bits self }
    {
        if self.user_mode { 0x22_1888 } else { 0x88 }
    }
}

/// A register that the number of a CSR names. `mcycle` and `cycle` are one register.
#[derive(Debug, PartialEq, Clone, Copy)]
pub enum Csr {
    /// `mstatus`
    Mstatus,
    /// `misa`, which always reads as the profile says
    Misa,
    /// `mie`
    Mie,
    /// `mtvec`
    Mtvec,
    /// `mcounteren`, where user mode is
    Mcounteren,
    /// `mscratch`
    Mscratch,
    /// `mepc`
    Mepc,
    /// `mcause`
    Mcause,
    /// `mtval`
    Mtval,
    /// `mcountinhibit`
    Mcountinhibit,
    /// `mcycle`, which is `cycle`
    Mcycle,
    /// `mcycleh`, which is `cycleh`
    Mcycleh,
    /// `minstret`, which is `instret`
    Minstret,
    /// `minstreth`, which is `instreth`
    Minstreth,
    /// `mip`, which comes from outside
    Mip,
    /// `time`, which comes from outside
    Time,
    /// `timeh`, which comes from outside
    Timeh,
    /// One that always reads as this value.
    Constant(u32),
}

/// The CSRs that set traps up.
fn setup_csr(number: u32) -> Option<Csr>
    ensures { result ≡ csr_among setup_csrs number }
{
    match number {
        0x300 => Some(Csr::Mstatus),
        0x301 => Some(Csr::Misa),
        0x304 => Some(Csr::Mie),
        0x305 => Some(Csr::Mtvec),
        0x310 => Some(Csr::Constant(0)),
        0x320 => Some(Csr::Mcountinhibit),
        _ => None,
    }
}

/// The CSRs that are there where user mode is.
fn user_mode_csr(profile: Profile, number: u32) -> Option<Csr>
    ensures { result ≡ user_mode_csr profile number }
{
    if !profile.user_mode {
        return None;
    }
    match number {
        0x306 => Some(Csr::Mcounteren),
        0x30a => Some(Csr::Constant(0)),
        0x31a => Some(Csr::Constant(0)),
        _ => None,
    }
}

/// The CSRs that a handler of traps uses.
fn handling_csr(number: u32) -> Option<Csr>
    ensures { result ≡ csr_among handling_csrs number }
{
    match number {
        0x340 => Some(Csr::Mscratch),
        0x341 => Some(Csr::Mepc),
        0x342 => Some(Csr::Mcause),
        0x343 => Some(Csr::Mtval),
        0x344 => Some(Csr::Mip),
        _ => None,
    }
}

/// The counters.
fn counter_csr(number: u32) -> Option<Csr>
    ensures { result ≡ csr_among counter_csrs number }
{
    match number {
        0xb00 => Some(Csr::Mcycle),
        0xb02 => Some(Csr::Minstret),
        0xb80 => Some(Csr::Mcycleh),
        0xb82 => Some(Csr::Minstreth),
        _ => None,
    }
}

/// The counters and the time, as a program reads them.
fn reading_csr(number: u32) -> Option<Csr>
    ensures { result ≡ csr_among reading_csrs number }
{
    match number {
        0xc00 => Some(Csr::Mcycle),
        0xc01 => Some(Csr::Time),
        0xc02 => Some(Csr::Minstret),
        0xc80 => Some(Csr::Mcycleh),
        0xc81 => Some(Csr::Timeh),
        0xc82 => Some(Csr::Minstreth),
        _ => None,
    }
}

/// The CSRs that tell which hart it is.
fn information_csr(number: u32) -> Option<Csr>
    ensures { result ≡ csr_among information_csrs number }
{
    match number {
        0xf11 => Some(Csr::Constant(0)),
        0xf12 => Some(Csr::Constant(0)),
        0xf13 => Some(Csr::Constant(0)),
        0xf14 => Some(Csr::Constant(0)),
        0xf15 => Some(Csr::Constant(0)),
        _ => None,
    }
}

/// The counters of performance and their events, which count nothing.
fn monitor(number: u32) -> Option<Csr>
    ensures { result ≡ monitor_csr number }
{
    match number {
        0x323..=0x33f => Some(Csr::Constant(0)),
        0xb03..=0xb1f => Some(Csr::Constant(0)),
        0xb83..=0xb9f => Some(Csr::Constant(0)),
        _ => None,
    }
}

impl Csr {
    /// The register with this number, or `None` where a hart with this profile has none.
    pub fn at(profile: Profile, number: u32) -> Option<Csr>
        ensures { result ≡ csr_at profile number }
    {
        if let Some(csr) = setup_csr(number) {
            return Some(csr);
        }
        if let Some(csr) = user_mode_csr(profile, number) {
            return Some(csr);
        }
        if let Some(csr) = handling_csr(number) {
            return Some(csr);
        }
        if let Some(csr) = counter_csr(number) {
            return Some(csr);
        }
        if let Some(csr) = reading_csr(number) {
            return Some(csr);
        }
        if let Some(csr) = information_csr(number) {
            return Some(csr);
        }
        monitor(number)
    }

    /// The bits that a write changes.
    pub fn written_bits(self, profile: Profile) -> u32
        ensures { result ≡ written_bits profile self }
    {
        match self {
            Csr::Mstatus => profile.status_bits(),
            Csr::Mie => 0x888,
            Csr::Mtvec => 0xffff_fffd,
            Csr::Mcounteren => 0x7,
            Csr::Mepc => profile.return_bits(),
            Csr::Mcountinhibit => 0x5,
            Csr::Misa | Csr::Mip | Csr::Time | Csr::Timeh | Csr::Constant(_) => 0,
            _ => 0xffff_ffff,
        }
    }

    /// The bits that always read 1.
    pub fn fixed_bits(self, profile: Profile) -> u32
        ensures { result ≡ fixed_bits profile self }
    {
        match self {
            Csr::Mstatus if !profile.user_mode => 0x1800,
            _ => 0,
        }
    }

    /// The value that a register holds after a write of another, in the bits that are written: MPP
    /// of `mstatus` stays as it was where the new one is neither 0 nor 3.
    pub fn legal(self, old: u32, new: u32) -> u32
        ensures { result ≡ legal self old new }
    {
        match self {
            Csr::Mstatus => with_previous(legal_previous(previous(old), previous(new)), new),
            _ => new,
        }
    }
}

/// MPP of `mstatus`.
pub fn previous(status: u32) -> u32
    ensures field { result ≡ previous status }
    ensures low { result < 4 }
{
    status / 0x800 % 4
}

/// What MPP becomes by a write.
fn legal_previous(old: u32, new: u32) -> u32
    requires { old < 4 }
    ensures field { result ≡ legal_previous old new }
    ensures low { result < 4 }
{
    match new {
        0 => 0,
        3 => 3,
        _ => old,
    }
}

/// `mstatus` with another MPP.
fn with_previous(mpp: u32, status: u32) -> u32
    requires { mpp < 4 }
    ensures { result ≡ with_previous mpp status }
{
    status / 0x2000 * 0x2000 + mpp * 0x800 + status % 0x800
}

/// Whether a CSR with this number is read only.
pub fn is_read_only(number: u32) -> bool
    ensures { result ≡ is_read_only number }
{
    number >> 10 == 3
}
