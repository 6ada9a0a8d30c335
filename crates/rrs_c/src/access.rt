//! The load or the store that an instruction asks for, as C has it.

ghost use Rattle.std.specs.Prelude.{◌≡◌, Ok};
ghost use Rattle.rrs_lib.specs.Bytes.{width};
ghost use Rattle.rrs_c.specs.Asking.{request_answer, IsAccess, given};

use crate::hart::{RrsFault, fault_of};
use rrs_lib::MemAccessSize;
use rrs_lib::instruction_executor::InstructionException;
use rrs_trace::DataRequest;

/// What an instruction asks of memory, or the exception before it asks.
#[repr(C)]
#[derive(Clone, Copy)]
pub struct RrsAccess {
    /// The exception, kind 0 where there is none.
    pub fault: RrsFault,
    /// 0: nothing, 1: a load, 2: a store.
    pub kind: u32,
    /// The address of the first byte, a multiple of the size.
    pub address: u32,
    /// How many bytes: 1, 2 or 4.
    pub size: u32,
    /// The value of the register whose low bytes are stored.
    pub value: u32,
}

/// How many bytes an access has.
#[inline]
fn bytes_of(size: MemAccessSize) -> u32
    ensures { result ≡ width size }
{
    match size {
        MemAccessSize::Byte => 1,
        MemAccessSize::HalfWord => 2,
        MemAccessSize::Word => 4,
    }
}

/// A load, a store, or nothing.
#[inline]
fn access_of(request: Option<DataRequest>) -> RrsAccess
    ensures same { request_answer result ≡ Ok request }
    ensures told { IsAccess result }
{
    let (kind, address, size, value) = match request {
        None => (0, 0, 0, 0),
        Some(DataRequest::Load(address, size)) => (1, address, bytes_of(size), 0),
        Some(DataRequest::Store(address, size, value)) => (2, address, bytes_of(size), value),
    };
    RrsAccess {
        fault: fault_of(None),
        kind,
        address,
        size,
        value,
    }
}

/// What an instruction asks, or the exception before it asks.
#[inline]
pub(crate) fn access_or_fault(
    answer: Result<Option<DataRequest>, InstructionException>,
) -> RrsAccess
    ensures same { request_answer result ≡ answer }
    ensures told { IsAccess result }
{
    match answer {
        Ok(request) => access_of(request),
        Err(exception) => RrsAccess {
            fault: fault_of(Some(exception)),
            kind: 0,
            address: 0,
            size: 0,
            value: 0,
        },
    }
}

/// What C gives to an access: nothing where it refuses.
#[inline]
pub(crate) fn given_by(granted: u32, value: u32) -> Option<u32>
    ensures { result ≡ given granted value }
{
    if granted == 0 { None } else { Some(value) }
}
