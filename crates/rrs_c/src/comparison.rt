//! The first field in which the record of a core differs from that of the kit.

ghost use Rattle.std.specs.Prelude.{◌≡◌, ◌*◌, ◌/◌, ◌%◌, ◌^◌, ◌<◌, ◌≤◌, ℕ, true, Bool, ◌==◌, ◌&&◌, ◌||◌, not, if◌then◌else◌, List, [], ◌∷◌, ◌++◌};
ghost use Rattle.rrs_c.specs.Comparing.{Field, field, first_different, or_behind, place_in_word, bytes_told, tells_source, accesses, step_fields, source_fields, written_fields, memory_fields, record_fields};

use crate::retired::RrsRetired;

/// A field in which two records differ, with what each has.
#[repr(C)]
#[derive(Clone, Copy)]
pub struct RrsDifference {
    /// What the kit's record has, as the core would tell it.
    pub model: u64,
    /// What the core's record has.
    pub core: u64,
    /// The number of the field, 1 to 16, or 0 where no field differs.
    pub field: u32,
}

/// No field differs.
#[inline]
fn no_difference() -> RrsDifference
    ensures { result ≡ first_different [] }
{
    RrsDifference {
        model: 0,
        core: 0,
        field: 0,
    }
}

/// A field where it is compared and differs, and else what the fields after it give.
#[inline]
fn this_or(
    number: u32,
    is_compared: bool,
    model: u64,
    core: u64,
    behind: RrsDifference,
) -> RrsDifference
    ensures { result ≡ or_behind (field number is_compared model core) behind }
{
    if is_compared && model != core {
        RrsDifference {
            model,
            core,
            field: number,
        }
    } else {
        behind
    }
}

/// Whether a source register is compared.
#[inline]
fn is_source_told(model: &RrsRetired, own: u32, other: u32) -> bool
    ensures { result ≡ tells_source model.now own other }
{
    !((model.trap == 1 || model.insn % 128 == 0x0f) && (own == 0 || other == 0))
}

/// How many bytes a core's masks and data are shifted by.
#[inline]
fn place_of(by_words: bool, model: &RrsRetired) -> u32
    ensures place { result ≡ place_in_word by_words model.now }
    ensures low { result < 4 }
    ensures within { result ≤ model.now.mem_addr }
{
    if by_words { model.mem_addr % 4 } else { 0 }
}

/// A mask that is shifted by so many bytes.
#[inline]
fn mask_at(place: u32, mask: u32) -> u64
    requires { place < 4 }
    ensures { result ≡ mask * 2 ^ place }
{
    match place {
        0 => mask as u64,
        1 => mask as u64 * 2,
        2 => mask as u64 * 4,
        _ => mask as u64 * 8,
    }
}

/// Data from the byte of this number on.
#[inline]
fn data_from(place: u32, value: u32) -> u32
    requires { place < 4 }
    ensures { result ≡ value / 256 ^ place }
{
    match place {
        0 => value,
        1 => value / 256,
        2 => value / 65536,
        _ => value / 16777216,
    }
}

/// The bytes of a mask of data that a core shifts.
#[inline]
fn bytes_of_mask(mask: u32, place: u32, value: u32) -> u64
    requires { place < 4 }
    ensures { result ≡ bytes_told mask place value }
{
    let behind = data_from(place, value);
    let told = match mask {
        1 => behind % 256,
        3 => behind % 65536,
        _ => behind,
    };
    told as u64
}

/// Whether a record has a load or a store.
#[inline]
fn is_accessing(model: &RrsRetired) -> bool
    ensures { result ≡ accesses model.now }
{
    model.mem_rmask != 0 || model.mem_wmask != 0
}

/// What differs of the load or the store.
#[inline]
fn memory_difference(by_words: bool, model: &RrsRetired, core: &RrsRetired) -> RrsDifference
    ensures { result ≡ first_different (memory_fields by_words model.now core.now) }
{
    let place = place_of(by_words, model);
    let is_accessing = is_accessing(model);
    let address = (model.mem_addr - place) as u64;
    let rmask = mask_at(place, model.mem_rmask);
    let wmask = mask_at(place, model.mem_wmask);
    let loaded = bytes_of_mask(model.mem_rmask, place, core.mem_rdata);
    let stored = bytes_of_mask(model.mem_wmask, place, core.mem_wdata);
    let none = no_difference();
    let wdata = this_or(
        16,
        model.mem_wmask != 0,
        model.mem_wdata as u64,
        stored,
        none,
    );
    let rdata = this_or(
        15,
        model.mem_rmask != 0,
        model.mem_rdata as u64,
        loaded,
        wdata,
    );
    let stores = this_or(14, true, wmask, core.mem_wmask as u64, rdata);
    let loads = this_or(13, true, rmask, core.mem_rmask as u64, stores);
    this_or(12, is_accessing, address, core.mem_addr as u64, loads)
}

/// What differs of the register that is written, and else what differs after it.
#[inline]
fn written_difference(model: &RrsRetired, core: &RrsRetired, behind: RrsDifference) -> RrsDifference
    ensures { (fields : List Field) → behind ≡ first_different fields
        → result ≡ first_different (written_fields model.now core.now ++ fields) }
{
    let data = this_or(
        11,
        true,
        model.rd_wdata as u64,
        core.rd_wdata as u64,
        behind,
    );
    this_or(10, true, model.rd_addr as u64, core.rd_addr as u64, data)
}

/// What differs of the registers that are read, and else what differs after them.
#[inline]
fn source_difference(model: &RrsRetired, core: &RrsRetired, behind: RrsDifference) -> RrsDifference
    ensures { (fields : List Field) → behind ≡ first_different fields
        → result ≡ first_different (source_fields model.now core.now ++ fields) }
{
    let first = is_source_told(model, model.rs1_addr, core.rs1_addr);
    let second = is_source_told(model, model.rs2_addr, core.rs2_addr);
    let data = this_or(
        9,
        second,
        model.rs2_rdata as u64,
        core.rs2_rdata as u64,
        behind,
    );
    let rs2 = this_or(8, second, model.rs2_addr as u64, core.rs2_addr as u64, data);
    let data = this_or(7, first, model.rs1_rdata as u64, core.rs1_rdata as u64, rs2);
    this_or(6, first, model.rs1_addr as u64, core.rs1_addr as u64, data)
}

/// What differs of the step, and else what differs after it.
#[inline]
fn step_difference(model: &RrsRetired, core: &RrsRetired, behind: RrsDifference) -> RrsDifference
    ensures { (fields : List Field) → behind ≡ first_different fields
        → result ≡ first_different (step_fields model.now core.now ++ fields) }
{
    let is_fetched = model.fetched == 1;
    let after = this_or(5, true, model.pc_wdata as u64, core.pc_wdata as u64, behind);
    let before = this_or(4, true, model.pc_rdata as u64, core.pc_rdata as u64, after);
    let trap = this_or(3, true, model.trap as u64, core.trap as u64, before);
    let word = this_or(2, is_fetched, model.insn as u64, core.insn as u64, trap);
    this_or(1, true, model.order, core.order, word)
}

/// The first field in which two records differ.
pub(crate) fn first_difference(
    by_words: bool,
    model: &RrsRetired,
    core: &RrsRetired,
) -> RrsDifference
    ensures { result ≡ first_different (record_fields by_words model.now core.now) }
{
    let memory = memory_difference(by_words, model, core);
    let written = written_difference(model, core, memory);
    let sources = source_difference(model, core, written);
    step_difference(model, core, sources)
}
