//! The hart, and how a step or a run ended, as C has them.

ghost use Rattle.std.specs.Prelude.{◌≡◌, ◌<◌, Some, slice_index};
ghost use Rattle.rrs_lib.specs.Steps.{LastIsRegister};
ghost use Rattle.rrs_c.specs.Harts.{register_in, hart_in, exception_of, IsFault, IsEnd, answer_of, reason_of};

use rrs_lib::HartState;
use rrs_lib::instruction_executor::{InstructionException, RunEnd};
use rrs_trace::{StopEnd, StopReason};

/// A hart, owned by the caller.
#[repr(C)]
#[derive(Drop)]
pub struct RrsHart {
    /// The registers x1 to x31. Entry 0 is never read or changed.
    pub x: [u32; 32],
    /// The program counter.
    pub pc: u32,
    /// The register that the latest step wrote, 1 to 31. Any other number says that it wrote none.
    pub last: u32,
}

/// Why a step or a run ended.
#[repr(C)]
#[derive(Clone, Copy)]
pub struct RrsFault {
    /// 0: no exception, 1: illegal instruction, 2: fetch, 3: load access, 4: store access, 5:
    /// alignment, 6: environment call, 7: breakpoint.
    pub kind: u32,
    /// The pc, or of a load or a store the data address.
    pub address: u32,
    /// The word of an illegal instruction, else 0.
    pub word: u32,
}

/// How a run ended.
#[repr(C)]
#[derive(Clone, Copy)]
pub struct RrsEnd {
    /// How many steps were made. The one that raised an exception is not counted.
    pub steps: u64,
    /// The exception that ended the run, kind 0 where none did.
    pub fault: RrsFault,
    /// 1 where it ended at a stop, else 0.
    pub at_stop: u32,
}

/// The register that a C hart has as the one written last.
#[inline]
pub(crate) fn last_of(hart: &RrsHart) -> Option<usize>
    ensures same { result ≡ register_in hart.now.last }
    ensures last { LastIsRegister result }
{
    if 0 < hart.last && hart.last < 32 {
        Some(hart.last as usize)
    } else {
        None
    }
}

/// The kit's hart that a C hart is.
#[inline]
pub(crate) fn opened(hart: &RrsHart) -> HartState
    ensures same { result ≡ hart_in hart.now }
    ensures last { LastIsRegister result.last_register_write }
{
    HartState {
        registers: hart.x,
        pc: hart.pc,
        last_register_write: last_of(hart),
    }
}

/// The number of the register that was written last, or 0.
#[inline]
pub(crate) fn number_of(last: Option<usize>) -> u32
    ensures register { LastIsRegister last → register_in result ≡ last }
    ensures low { result < 32 }
{
    match last {
        Some(register) if register < 32 => register as u32,
        _ => 0,
    }
}

/// Makes a C hart the one that a hart of the kit is, whose last written register is one, or none.
#[inline]
pub(crate) fn close(state: &HartState, hart: &mut RrsHart)
    ensures same { LastIsRegister state.now.last_register_write → hart_in hart.new ≡ state.now }
    ensures registers { hart.new.x ≡ state.now.registers }
    ensures last { hart.new.last < 32 }
{
    hart.x = state.registers;
    hart.pc = state.pc;
    hart.last = number_of(state.last_register_write);
}

/// How C sees an exception, or none.
#[inline]
pub(crate) fn fault_of(exception: Option<InstructionException>) -> RrsFault
    ensures same { exception_of result ≡ exception }
    ensures told { IsFault result }
{
    let (kind, address, word) = match exception {
        None => (0, 0, 0),
        Some(InstructionException::IllegalInstruction(pc, word)) => (1, pc, word),
        Some(InstructionException::FetchError(pc)) => (2, pc, 0),
        Some(InstructionException::LoadAccessFault(address)) => (3, address, 0),
        Some(InstructionException::StoreAccessFault(address)) => (4, address, 0),
        Some(InstructionException::AlignmentFault(address)) => (5, address, 0),
        Some(InstructionException::EnvironmentCall(pc)) => (6, pc, 0),
        Some(InstructionException::Breakpoint(pc)) => (7, pc, 0),
    };
    RrsFault {
        kind,
        address,
        word,
    }
}

/// How C sees an exception, out of the way of the steps that go on.
#[cold]
#[inline(never)]
fn fault_of_exception(exception: InstructionException) -> RrsFault
    ensures same { exception_of result ≡ Some exception }
    ensures told { IsFault result }
{
    fault_of(Some(exception))
}

/// The exception that the answer of a step is, or none.
#[inline]
pub(crate) fn fault_of_answer(answer: Result<(), InstructionException>) -> RrsFault
    ensures same { answer_of result ≡ answer }
    ensures told { IsFault result }
{
    match answer {
        Ok(()) => fault_of(None),
        Err(exception) => fault_of_exception(exception),
    }
}

/// How a run ended.
#[inline]
pub(crate) fn end_of_run(end: RunEnd) -> RrsEnd
    ensures steps { result.steps ≡ end.steps }
    ensures fault { exception_of result.fault ≡ end.exception }
    ensures told { IsEnd result }
    ensures no_stop { result.at_stop ≡ 0 }
{
    let RunEnd { steps, exception } = end;
    RrsEnd {
        steps,
        fault: fault_of(exception),
        at_stop: 0,
    }
}

/// How a run with stops ended.
#[inline]
pub(crate) fn end_of_stop(end: StopEnd) -> RrsEnd
    ensures steps { result.steps ≡ end.steps }
    ensures reason { reason_of result ≡ end.reason }
    ensures told { IsEnd result }
{
    let StopEnd { steps, reason } = end;
    let (exception, at_stop) = match reason {
        StopReason::AtStop => (None, 1),
        StopReason::Limit => (None, 0),
        StopReason::Fault(exception) => (Some(exception), 0),
    };
    RrsEnd {
        steps,
        fault: fault_of(exception),
        at_stop,
    }
}
