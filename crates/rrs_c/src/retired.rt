//! What a step retired, as C has it.

ghost use Rattle.std.specs.Prelude.{◌≡◌, ◌<◌, ◌==◌, Some, None, if◌then◌else◌};
ghost use Rattle.rrs_trace.specs.Retired.{HasRegisterNumbers};
ghost use Rattle.rrs_c.specs.Records.{retired_in, refused, IsRecord};

use rrs_trace::Retired;

/// What a step retired, under the names of RVFI.
#[repr(C)]
#[derive(Drop)]
pub struct RrsRetired {
    /// The number of the step, which the caller gave.
    pub order: u64,
    /// The word at the pc, or 0 where none was fetched.
    pub insn: u32,
    /// 1 where a word was fetched, else 0.
    pub fetched: u32,
    /// 1 where the step raised an exception, else 0.
    pub trap: u32,
    /// The pc before.
    pub pc_rdata: u32,
    /// The pc after.
    pub pc_wdata: u32,
    /// The first source register, or 0.
    pub rs1_addr: u32,
    /// Its value before.
    pub rs1_rdata: u32,
    /// The second source register, or 0.
    pub rs2_addr: u32,
    /// Its value before.
    pub rs2_rdata: u32,
    /// The register that was written, or 0.
    pub rd_addr: u32,
    /// Its value after.
    pub rd_wdata: u32,
    /// The address of the first byte of the load or store that was granted, or 0.
    pub mem_addr: u32,
    /// A bit for each byte that was loaded.
    pub mem_rmask: u32,
    /// A bit for each byte that was stored.
    pub mem_wmask: u32,
    /// The value that was loaded, not extended.
    pub mem_rdata: u32,
    /// The value that was stored.
    pub mem_wdata: u32,
}

/// A word and 1, or 0 and 0 where there is none.
#[inline]
pub(crate) fn word_and_flag(word: Option<u32>) -> (u32, u32)
    ensures same { (if result.1 == 1 then Some result.0 else None) ≡ word }
    ensures flag { result.1 < 2 }
    ensures none { result.1 ≡ 0 → result.0 ≡ 0 }
{
    match word {
        Some(word) => (word, 1),
        None => (0, 0),
    }
}

/// 1 where it is true, else 0.
#[inline]
pub(crate) fn flag(value: bool) -> u32
    ensures same { (result == 1) ≡ value }
    ensures flag { result < 2 }
{
    if value { 1 } else { 0 }
}

/// The record of a jump that is refused in place of being retired.
#[inline]
pub(crate) fn refused(seen: &Retired) -> Retired
    ensures { result ≡ refused seen.now }
{
    Retired {
        trap: true,
        pc_wdata: seen.pc_rdata,
        rd_addr: 0,
        rd_wdata: 0,
        ..*seen
    }
}

/// The record of C that a record of the kit is.
#[inline]
pub(crate) fn written_out(retired: &Retired) -> RrsRetired
    requires { HasRegisterNumbers retired.now }
    ensures same { retired_in result ≡ retired.now }
    ensures told { IsRecord result }
{
    let (insn, fetched) = word_and_flag(retired.insn);
    RrsRetired {
        order: retired.order,
        insn,
        fetched,
        trap: flag(retired.trap),
        pc_rdata: retired.pc_rdata,
        pc_wdata: retired.pc_wdata,
        rs1_addr: retired.rs1_addr as u32,
        rs1_rdata: retired.rs1_rdata,
        rs2_addr: retired.rs2_addr as u32,
        rs2_rdata: retired.rs2_rdata,
        rd_addr: retired.rd_addr as u32,
        rd_wdata: retired.rd_wdata,
        mem_addr: retired.mem.addr,
        mem_rmask: u32::from(retired.mem.rmask),
        mem_wmask: u32::from(retired.mem.wmask),
        mem_rdata: retired.mem.rdata,
        mem_wdata: retired.mem.wdata,
    }
}
