//! Accesses that are made outside of the machine.
//!
//! A clock, an input port, or a memory that the caller keeps elsewhere is no [Memory]: its reads
//! change, or it isn't there to lend. [request] tells which load or store an instruction makes, and
//! [complete] executes it with what was answered; both work on a hart alone. [complete_load] and
//! [complete_store] do the same for the load or the store at which a run ended.

ghost use Rattle.std.specs.Prelude.{◌≡◌, ◌<◌, ℕ, List, [], Bool, true, false, Option, None, Some, Ok, Err, IfSome, slice_index, ℤ};
ghost use Rattle.std.specs.Bool.{OnTrue, OnFalse};
ghost use Rattle.rrs_lib.specs.Bytes.{ByteMap};
ghost use Rattle.rrs_lib.specs.Encodings.{HasRegisters};
ghost use Rattle.rrs_lib.specs.Table.{table};
ghost use Rattle.rrs_lib.specs.Instructions.{row_of, fields_of};
ghost use Rattle.rrs_lib.specs.Machine.{State, state_of, hart_of, reg, plus_immediate, put};
ghost use Rattle.rrs_lib.specs.Words.{word};
ghost use Rattle.rrs_lib.specs.Steps.{LastIsRegister};
ghost use Rattle.rrs_lib.specs.Executor.{state_in, KeepsTheRest};
ghost use Rattle.rrs_lib.specs.Accesses.{read_if_aligned, Makes, size_of};
ghost use Rattle.rrs_trace.specs.Outside.{requested, AccessesAfterFetch, Foretells, WithEachMemory, Completes, LoadsGiven, StoresElsewhere, request_by, call_fault, refusal, answer_to, address_of, size_asked, FindsAccess, GoesBehind, Asks, Loads, Advances, Grants, StepsAlone, Performs, PerformsOn};

use rrs_instruction::arithmetic;
use rrs_lib::instruction::{Instruction, decode};
use rrs_lib::instruction_executor::engine::{Engine, step_answer};
use rrs_lib::instruction_executor::{InstructionException, InstructionExecutor, StepEnd};
use rrs_lib::instruction_formats::{IType, SType};
use rrs_lib::{HartState, InstructionHandler, MemAccessSize, Memory, process_instruction};

/// The load or the store that an instruction makes. The address is a multiple of the size.
#[derive(Debug, PartialEq, Clone, Copy)]
pub enum DataRequest {
    /// A load: the address and the size.
    Load(u32, MemAccessSize),
    /// A store: the address, the size, and the value of the register whose low bytes are stored.
    Store(u32, MemAccessSize, u32),
}

impl DataRequest {
    /// The address of the first byte.
    #[inline(always)]
    fn address(self) -> u32
        ensures { result ≡ address_of self }
    {
        match self {
            DataRequest::Load(address, _) => address,
            DataRequest::Store(address, _, _) => address,
        }
    }

    /// The exception where the access is refused.
    #[inline(always)]
    fn refusal(self) -> InstructionException
        ensures { result ≡ refusal self }
    {
        match self {
            DataRequest::Load(address, _) => InstructionException::LoadAccessFault(address),
            DataRequest::Store(address, _, _) => InstructionException::StoreAccessFault(address),
        }
    }

    /// The size of the access.
    #[inline(always)]
    fn size(self) -> MemAccessSize
        ensures { result ≡ size_asked self }
    {
        match self {
            DataRequest::Load(_, size) => size,
            DataRequest::Store(_, size, _) => size,
        }
    }
}

/// The access that the instruction `word` makes on a hart, beside the fetch of the word; `None`
/// where it makes none.
///
/// No memory is looked at, and nothing changes. The word is the one at the pc, as the caller's
/// memory has it; at a pc that is misaligned it may be any. A word that the caller can't read
/// is no word: then the step is `FetchError(pc)`, and no call here tells that.
///
/// The clauses, for the hart with each memory that has this word at the pc: the accesses of the
/// step are the fetch and then this one (`access`); at `Ok(None)` the step is `Ok`, and at an error
/// it is that exception (`foretold`).
///
/// # Errors
///
/// The exception that comes before any access of the instruction: `AlignmentFault(pc)` where the pc
/// is misaligned; `IllegalInstruction(pc, word)`; `AlignmentFault(address)` where the address of a
/// load or a store is misaligned; `EnvironmentCall(pc)` and `Breakpoint(pc)`.
pub fn request(hart: &HartState, word: u32) -> Result<Option<DataRequest>, InstructionException>
    ensures access { WithEachMemory hart.now word (λ s.
        AccessesAfterFetch s (requested s result)) }
    ensures foretold { WithEachMemory hart.now word (λ s. Foretells s result) }
{
    request_parts(&hart.registers, hart.pc, word)
}

/// The access that the instruction `word` makes on a hart whose registers and pc are handed in
/// apart: [request] for a hart that is kept in another layout.
///
/// The clauses are those of [request], whatever register was written last.
///
/// # Errors
///
/// Those of [request].
#[inline]
pub fn request_parts(
    registers: &[u32; 32],
    pc: u32,
    word: u32,
) -> Result<Option<DataRequest>, InstructionException>
    ensures access { (last : Option ℕ) → WithEachMemory (hart_of registers.now pc last) word (λ s.
        AccessesAfterFetch s (requested s result)) }
    ensures foretold { (last : Option ℕ) → WithEachMemory (hart_of registers.now pc last) word
        (λ s. Foretells s result) }
{
    if !MemAccessSize::Word.is_aligned(pc) {
        return Err(InstructionException::AlignmentFault(pc));
    }
    match process_instruction(&mut Asked { registers, pc }, word) {
        Some(answer) => answer,
        None => Err(InstructionException::IllegalInstruction(pc, word)),
    }
}

/// A hart of which an instruction's access is asked.
#[derive(Drop)]
struct Asked<'a> {
    /// Its registers.
    registers: &'a [u32; 32],
    /// Its pc.
    pc: u32,
}

impl<'a> InstructionHandler for Asked<'a> {
    type Answer = Result<Option<DataRequest>, InstructionException>;

    ghost did = { λ row f old new answer.
        (last : Option ℕ) → Asks row f (hart_of old.registers.now old.pc last) answer };

    #[inline(always)]
    fn handle(&mut self, instruction: &Instruction) -> Self::Answer {
        data_request_of(self.registers, self.pc, instruction)
    }
}

/// Executes the instruction `word` on a hart, with what the caller's memory or device answered to
/// its access.
///
/// `given` is that answer. Of a load it is the value that was read, little-endian, of which the low
/// bytes count, and which is extended here; or `None` where the load is refused. Of a store that
/// was carried out it is any value, or `None` where the store is refused. Of an instruction that
/// accesses nothing, and of one with an exception before its access, it is not looked at. The word
/// is as in [request].
///
/// The clauses: with each memory that has this word at the pc, and that answers the access so, this
/// is the step: its answer, and the hart that it leaves (`step`). The bytes are as before, but that
/// those of a store that was granted are stored. The caller stores them, before the call or after
/// it. The last written register is one of 1 to 31, or none, whatever is given (`last`).
///
/// # Errors
///
/// Those of [request], and `LoadAccessFault(address)` or `StoreAccessFault(address)` where nothing
/// is given to a load or a store. After each the registers and the pc are as before, and no
/// register is the one written last.
pub fn complete(
    hart: &mut HartState,
    word: u32,
    given: Option<u32>,
) -> Result<(), InstructionException>
    ensures step { Completes hart.old hart.new word given result }
    ensures last { LastIsRegister hart.new.last_register_write }
    ensures entry_zero { slice_index hart.new.registers 0 ≡ slice_index hart.old.registers 0 }
{
    let end = complete_parts(&mut hart.registers, hart.pc, word, given);
    hart.pc = end.pc;
    hart.last_register_write = end.last_register_write;
    end.answer
}

/// Executes the instruction `word` on a hart whose registers and pc are handed in apart, with what
/// was answered to its access: [complete] for a hart that is kept in another layout.
///
/// The clauses are those of [complete], whatever register was written last before.
///
/// # Errors
///
/// The answer is that of [complete], with its exceptions; what each leaves is as there.
#[inline]
pub fn complete_parts(registers: &mut [u32; 32], pc: u32, word: u32, given: Option<u32>) -> StepEnd
    ensures step { (last : Option ℕ) → Completes (hart_of registers.old pc last)
        (hart_of registers.new result.pc result.last_register_write) word given result.answer }
    ensures last { LastIsRegister result.last_register_write }
    ensures entry_zero { slice_index registers.new 0 ≡ slice_index registers.old 0 }
{
    if !MemAccessSize::Word.is_aligned(pc) {
        return refused(InstructionException::AlignmentFault(pc), pc);
    }
    let mut hart = Answered {
        registers,
        pc,
        given,
    };
    match process_instruction(&mut hart, word) {
        Some(end) => end,
        None => refused(InstructionException::IllegalInstruction(pc, word), pc),
    }
}

/// A hart that executes an instruction, with the answer to its access.
#[derive(Drop)]
struct Answered<'a> {
    /// Its registers.
    registers: &'a mut [u32; 32],
    /// Its pc.
    pc: u32,
    /// The answer.
    given: Option<u32>,
}

impl<'a> InstructionHandler for Answered<'a> {
    type Answer = StepEnd;

    ghost did = { PerformsOn };

    #[inline(always)]
    fn handle(&mut self, instruction: &Instruction) -> StepEnd {
        perform(self.registers, self.pc, instruction, self.given)
    }
}

/// How a step ends that has an exception.
#[inline(always)]
fn refused(exception: InstructionException, pc: u32) -> StepEnd
    ensures answer { result.answer ≡ Err exception }
    ensures pc { result.pc ≡ pc }
    ensures last { result.last_register_write ≡ None }
{
    StepEnd {
        answer: Err(exception),
        pc,
        last_register_write: None,
    }
}

/// The load or the store at the pc, with its instruction; `None` where there is none, or its
/// address is not aligned. The word is read as a fetch is.
fn access_at_pc<M: Memory>(
    executor: &mut InstructionExecutor<M>,
) -> Option<(Instruction, DataRequest)>
    ensures finds { FindsAccess (state_in M.bytes M.writable executor.old) result }
    ensures within { IfSome result (λ found. HasRegisters (fields_of found.0)) }
    ensures kept { state_in M.bytes M.writable executor.new
        ≡ state_in M.bytes M.writable executor.old }
    ensures rest { KeepsTheRest M.layout executor.old executor.new }
    ensures makes { Makes M.reads M.writes
        (read_if_aligned (state_in M.bytes M.writable executor.old)
        executor.old.hart_state.now.pc MemAccessSize.Word)
        executor.old.mem.now executor.new.mem.now }
{
    let word = executor.word_at_pc()?;
    let instruction = decode(word)?;
    match data_request_at(executor.hart_state, &instruction) {
        Ok(Some(request)) => Some((instruction, request)),
        _ => None,
    }
}

/// Goes on after the load or the store at the pc, with the value that a load was given, and
/// returns whether there is one.
fn go_behind<M: Memory>(executor: &mut InstructionExecutor<M>, is_load: bool, value: u32) -> bool
    ensures behind { OnTrue result (GoesBehind is_load value
        (state_in M.bytes M.writable executor.old) (state_in M.bytes M.writable executor.new)) }
    ensures none { OnFalse result ((t : State)
        → ¬ GoesBehind is_load value (state_in M.bytes M.writable executor.old) t) }
    ensures kept { OnFalse result (state_in M.bytes M.writable executor.new
        ≡ state_in M.bytes M.writable executor.old) }
    ensures rest { KeepsTheRest M.layout executor.old executor.new }
    ensures makes { Makes M.reads M.writes
        (read_if_aligned (state_in M.bytes M.writable executor.old)
        executor.old.hart_state.now.pc MemAccessSize.Word)
        executor.old.mem.now executor.new.mem.now }
{
    let Some((instruction, request)) = access_at_pc(executor) else {
        return false;
    };
    if matches!(request, DataRequest::Load(..)) != is_load {
        return false;
    }
    let hart = &mut *executor.hart_state;
    let end = grant(&mut hart.registers, hart.pc, &instruction, value);
    hart.pc = end.pc;
    hart.last_register_write = end.last_register_write;
    true
}

/// Executes the load at the pc with a value that the caller's device gave, as if the memory had
/// given it, and returns whether there is one.
///
/// The low bytes of the value are extended as the load says and go to its register, and the pc goes
/// on by 4. So a run that ended with `LoadAccessFault(address)` goes on after the load. The word
/// at the pc is read from the memory, as a fetch is, and nothing else is accessed. The answer is
/// `false`, and the hart is as before, where there is no word at the pc, it is no load, or the
/// address of the load is misaligned.
pub fn complete_load<M: Memory>(executor: &mut InstructionExecutor<M>, value: u32) -> bool
    ensures loaded { OnTrue result (LoadsGiven value
        (state_in M.bytes M.writable executor.old) (state_in M.bytes M.writable executor.new)) }
    ensures none { OnFalse result ((t : State)
        → ¬ LoadsGiven value (state_in M.bytes M.writable executor.old) t) }
    ensures kept { OnFalse result (state_in M.bytes M.writable executor.new
        ≡ state_in M.bytes M.writable executor.old) }
    ensures rest { KeepsTheRest M.layout executor.old executor.new }
    ensures makes { Makes M.reads M.writes
        (read_if_aligned (state_in M.bytes M.writable executor.old)
        executor.old.hart_state.now.pc MemAccessSize.Word)
        executor.old.mem.now executor.new.mem.now }
{
    go_behind(executor, true, value)
}

/// Goes on after the store at the pc, which the caller carried out, and returns whether there is
/// one.
///
/// Where and what it stores is told by [request], for the word at the pc. Nothing is stored in the
/// memory; the word at the pc is read from it, as a fetch is. The answer is `false`, and the hart
/// is as before, where there is no word at the pc, it is no store, or the address of the store is
/// misaligned.
pub fn complete_store<M: Memory>(executor: &mut InstructionExecutor<M>) -> bool
    ensures stored { OnTrue result (StoresElsewhere
        (state_in M.bytes M.writable executor.old) (state_in M.bytes M.writable executor.new)) }
    ensures none { OnFalse result ((t : State)
        → ¬ StoresElsewhere (state_in M.bytes M.writable executor.old) t) }
    ensures kept { OnFalse result (state_in M.bytes M.writable executor.new
        ≡ state_in M.bytes M.writable executor.old) }
    ensures rest { KeepsTheRest M.layout executor.old executor.new }
    ensures makes { Makes M.reads M.writes
        (read_if_aligned (state_in M.bytes M.writable executor.old)
        executor.old.hart_state.now.pc MemAccessSize.Word)
        executor.old.mem.now executor.new.mem.now }
{
    go_behind(executor, false, 0)
}

/// The value of a register.
#[inline(always)]
fn read(registers: &[u32; 32], register: usize) -> u32
    requires { register < 32 }
    ensures { (pc : ℕ) (last : Option ℕ) (bytes : ByteMap) (writable : ℕ → Bool) → result
        ≡ reg (state_of (hart_of registers.now pc last) bytes writable) register }
{
    if register == 0 {
        0
    } else {
        registers[register]
    }
}

/// A load from the address that a register and an immediate give.
#[inline(always)]
fn load_at(registers: &[u32; 32], fields: IType, size: MemAccessSize) -> DataRequest
    requires { fields.rs1 < 32 }
    ensures { (pc : ℕ) (last : Option ℕ) (bytes : ByteMap) (writable : ℕ → Bool) → result
        ≡ DataRequest.Load (plus_immediate
        (reg (state_of (hart_of registers.now pc last) bytes writable) fields.rs1) fields.imm) size }
{
    let base = read(registers, fields.rs1);
    DataRequest::Load(arithmetic::plus_immediate(base, fields.imm), size)
}

/// A store of a register to the address that a register and an immediate give.
#[inline(always)]
fn store_at(registers: &[u32; 32], fields: SType, size: MemAccessSize) -> DataRequest
    requires { (fields.rs1 < 32) × (fields.rs2 < 32) }
    ensures { (pc : ℕ) (last : Option ℕ) (bytes : ByteMap) (writable : ℕ → Bool) → result
        ≡ DataRequest.Store (plus_immediate
        (reg (state_of (hart_of registers.now pc last) bytes writable) fields.rs1) fields.imm) size
        (reg (state_of (hart_of registers.now pc last) bytes writable) fields.rs2) }
{
    let base = read(registers, fields.rs1);
    let address = arithmetic::plus_immediate(base, fields.imm);
    DataRequest::Store(address, size, read(registers, fields.rs2))
}

/// What an instruction asks of the memory, whether or not the address is aligned.
#[inline(always)]
fn access_of(registers: &[u32; 32], instruction: &Instruction) -> Option<DataRequest>
    requires { HasRegisters (fields_of instruction.now) }
    ensures { (pc : ℕ) (last : Option ℕ) (bytes : ByteMap) (writable : ℕ → Bool) → result
        ≡ request_by (table (row_of instruction.now)).action (fields_of instruction.now)
        (state_of (hart_of registers.now pc last) bytes writable) }
{
    match *instruction {
        Instruction::Lb(fields) => Some(load_at(registers, fields, MemAccessSize::Byte)),
        Instruction::Lbu(fields) => Some(load_at(registers, fields, MemAccessSize::Byte)),
        Instruction::Lh(fields) => Some(load_at(registers, fields, MemAccessSize::HalfWord)),
        Instruction::Lhu(fields) => Some(load_at(registers, fields, MemAccessSize::HalfWord)),
        Instruction::Lw(fields) => Some(load_at(registers, fields, MemAccessSize::Word)),
        Instruction::Sb(fields) => Some(store_at(registers, fields, MemAccessSize::Byte)),
        Instruction::Sh(fields) => Some(store_at(registers, fields, MemAccessSize::HalfWord)),
        Instruction::Sw(fields) => Some(store_at(registers, fields, MemAccessSize::Word)),
        _ => None,
    }
}

/// The answer for an instruction that accesses nothing: the exception of `ecall` and `ebreak`.
#[inline(always)]
fn answer_of_call(
    pc: u32,
    instruction: &Instruction,
) -> Result<Option<DataRequest>, InstructionException>
    ensures { result ≡ answer_to None (call_fault (table (row_of instruction.now)).action pc) }
{
    match instruction {
        Instruction::Ecall(_) => Err(InstructionException::EnvironmentCall(pc)),
        Instruction::Ebreak(_) => Err(InstructionException::Breakpoint(pc)),
        _ => Ok(None),
    }
}

/// The access that an instruction makes, or the exception before any.
#[inline(always)]
fn data_request_of(
    registers: &[u32; 32],
    pc: u32,
    instruction: &Instruction,
) -> Result<Option<DataRequest>, InstructionException>
    requires { HasRegisters (fields_of instruction.now) }
    ensures { (last : Option ℕ) → Asks (row_of instruction.now) (fields_of instruction.now)
        (hart_of registers.now pc last) result }
{
    let Some(request) = access_of(registers, instruction) else {
        return answer_of_call(pc, instruction);
    };
    let address = request.address();
    if request.size().is_aligned(address) {
        Ok(Some(request))
    } else {
        Err(InstructionException::AlignmentFault(address))
    }
}

/// The access that an instruction makes on a hart, or the exception before any.
#[inline]
fn data_request_at(
    hart: &HartState,
    instruction: &Instruction,
) -> Result<Option<DataRequest>, InstructionException>
    requires { HasRegisters (fields_of instruction.now) }
    ensures { Asks (row_of instruction.now) (fields_of instruction.now) hart.now result }
{
    data_request_of(&hart.registers, hart.pc, instruction)
}

/// A memory where nothing is mapped, for an instruction that accesses nothing.
#[derive(Drop)]
struct Unmapped;

impl Memory for Unmapped {
    ghost bytes = { λ m a. None };

    ghost writable = { λ m a. false };

    ghost layout = { λ m. [] };

    ghost reads = { λ old address size new answer. Unit {0} };

    ghost writes = { λ old address size value new answer. Unit {0} };

    fn read_mem(&mut self, _addr: u32, _size: MemAccessSize) -> Option<u32> {
        None
    }

    fn write_mem(&mut self, _addr: u32, _size: MemAccessSize, _store_data: u32) -> bool {
        false
    }
}

/// The address of the next instruction.
#[inline(always)]
fn next_pc(pc: u32) -> u32
    ensures advances { (registers : List ℕ) (last : Option ℕ) → Advances
        (hart_of registers pc last) (hart_of registers result last) }
{
    pc.wrapping_add(4)
}

/// Executes an instruction that accesses nothing, and goes on to the next one, on a hart that has
/// written no register.
#[inline(always)]
fn step_alone(registers: &mut [u32; 32], pc: u32, instruction: &Instruction) -> StepEnd
    requires { HasRegisters (fields_of instruction.now) }
    ensures steps { StepsAlone (row_of instruction.now) (fields_of instruction.now)
        (state_of (hart_of registers.old pc None) (λ a. None) (λ a. false))
        (state_of (hart_of registers.new result.pc result.last_register_write)
        (λ a. None) (λ a. false)) result.answer }
    ensures entry_zero { slice_index registers.new 0 ≡ slice_index registers.old 0 }
{
    let mut nothing = Unmapped;
    let mut engine = Engine::new(&mut nothing, registers, pc, None);
    let answer = step_answer(engine.process(instruction));
    let (pc, last_register_write) = engine.put_together();
    StepEnd {
        answer,
        pc,
        last_register_write,
    }
}

/// Writes a register with a whole number modulo 2^32, and returns which register was written.
#[inline(always)]
fn write(registers: &mut [u32; 32], rd: usize, value: u32) -> Option<usize>
    requires { rd < 32 }
    ensures written { (pc : ℕ) (bytes : ByteMap) (writable : ℕ → Bool) (z : ℤ) → value ≡ word z
        → state_of (hart_of registers.new pc result) bytes writable
        ≡ put (state_of (hart_of registers.old pc None) bytes writable) rd z }
    ensures entry_zero { slice_index registers.new 0 ≡ slice_index registers.old 0 }
{
    if rd == 0 {
        return None;
    }
    registers[rd] = value;
    Some(rd)
}

/// Gives the register of a load a value that was read, extended as the load says, and returns which
/// register was written.
#[inline(always)]
fn load_given(registers: &mut [u32; 32], instruction: &Instruction, value: u32) -> Option<usize>
    requires { HasRegisters (fields_of instruction.now) }
    ensures loads { (pc : ℕ) → Loads (row_of instruction.now) (fields_of instruction.now) value
        (hart_of registers.old pc None) (hart_of registers.new pc result) }
    ensures entry_zero { slice_index registers.new 0 ≡ slice_index registers.old 0 }
{
    let byte = value & 0xff;
    let half_word = value & 0xffff;
    match *instruction {
        Instruction::Lb(fields) => {
            write(registers, fields.rd, arithmetic::sign_extended_byte(byte))
        }
        Instruction::Lbu(fields) => write(registers, fields.rd, byte),
        Instruction::Lh(fields) => {
            let extended = arithmetic::sign_extended_half_word(half_word);
            write(registers, fields.rd, extended)
        }
        Instruction::Lhu(fields) => write(registers, fields.rd, half_word),
        Instruction::Lw(fields) => write(registers, fields.rd, value),
        _ => None,
    }
}

/// Executes a load with a value that was read, or a store that was carried out, and goes on to the
/// next instruction, on a hart that has written no register.
#[inline(always)]
fn grant(registers: &mut [u32; 32], pc: u32, instruction: &Instruction, value: u32) -> StepEnd
    requires { HasRegisters (fields_of instruction.now) }
    ensures grants { Grants (row_of instruction.now) (fields_of instruction.now) value
        (hart_of registers.old pc None)
        (hart_of registers.new result.pc result.last_register_write) }
    ensures entry_zero { slice_index registers.new 0 ≡ slice_index registers.old 0 }
    ensures fine { result.answer ≡ Ok tt }
{
    let last_register_write = load_given(registers, instruction, value);
    StepEnd {
        answer: Ok(()),
        pc: next_pc(pc),
        last_register_write,
    }
}

/// Executes an instruction with the answer to its access, on a hart that has written no register.
#[inline(always)]
fn perform(
    registers: &mut [u32; 32],
    pc: u32,
    instruction: &Instruction,
    given: Option<u32>,
) -> StepEnd
    requires { HasRegisters (fields_of instruction.now) }
    ensures performs { Performs (row_of instruction.now) (fields_of instruction.now) given
        (hart_of registers.old pc None)
        (hart_of registers.new result.pc result.last_register_write) result.answer }
    ensures entry_zero { slice_index registers.new 0 ≡ slice_index registers.old 0 }
{
    match data_request_of(registers, pc, instruction) {
        Err(exception) => refused(exception, pc),
        Ok(None) => step_alone(registers, pc, instruction),
        Ok(Some(request)) => match given {
            Some(value) => grant(registers, pc, instruction, value),
            None => refused(request.refusal(), pc),
        },
    }
}
