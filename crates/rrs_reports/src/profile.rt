//! What a run of an executable covered: how often each instruction and each function was executed.

ghost use Rattle.std.specs.Prelude.{◌≡◌, ◌≢◌, ℕ, true, false, Some, map, replicate, string_bytes, IfOk, OnErr};
ghost use Rattle.std.specs.Bool.{OnTrue, OnFalse};
ghost use Rattle.rrs_words.specs.declared.csrs.HartProfile.{HartProfile as TheProfile};
ghost use Rattle.rrs_hart.specs.Harts.{Hart, HartStep};
ghost use Rattle.rrs_trace.specs.HartRecords.{HartRetires};
ghost use Rattle.rrs_exec.specs.Protection.{protected_bytes};
ghost use Rattle.rrs_trace.specs.declared.retired.Retired.{Retired};
ghost use Rattle.rrs_reports.specs.CommitLogs.{ecall};
ghost use Rattle.rrs_reports.specs.Coverages.{Counts, CoversProcess, is_step, word_of};

use crate::calls::Calls;
use crate::code::Code;
use crate::commit_log::{ECALL, committed_word};
use crate::coverage::Coverage;
use rrs_exec::{ImageError, KeptMemory, ProcessEnd, Progress, Watcher, watch_process};
use rrs_fast::step_layers_cached;
use rrs_hart::HartProfile;
use rrs_lib::instruction_executor::{InstructionException, InstructionExecutor};
use rrs_lib::{MemAccessSize, Memory};
use rrs_linux::Linux;
use rrs_trace::{Retired, step_hart_retired};
use std::alloc::{AllocError, Global};
use std::io::{Read, Write};

/// A watcher that counts the steps at each unit of code, and the calls of its functions.
#[derive(Drop)]
pub struct Profile<'a, 'b> {
    /// The code.
    pub code: &'b Code<'a>,
    /// How often each unit was executed.
    pub coverage: Coverage,
    /// The calls.
    pub calls: Calls,
}

impl<'a, 'b> Profile<'a, 'b> {
    /// No steps, of this code.
    ///
    /// # Errors
    ///
    /// Out of memory.
    pub fn new(alloc: Global, code: &'b Code<'a>) -> Result<Profile<'a, 'b>, AllocError>
        ensures { IfOk result (λ profile. (units : ℕ)
            × (profile.coverage.counts.items ≡ replicate units 0)
            × (profile.coverage.elsewhere ≡ 0)) }
    {
        Ok(Profile {
            code,
            coverage: Coverage::new(alloc, code.base(), code.unit(), code.units())?,
            calls: Calls::new(alloc, code)?,
        })
    }
}

/// The word at an address of a process, if it is aligned and mapped.
fn word_at(memory: &mut KeptMemory, address: u32) -> Option<u32>
    ensures word { result ≡ word_of (protected_bytes memory.old) address }
    ensures kept { memory.new ≡ memory.old }
{
    if address % 4 != 0 {
        return None;
    }
    memory.read_mem(address, MemAccessSize::Word)
}

/// Whether the word at an address of a process is an `ecall`.
fn is_ecall_at(memory: &mut KeptMemory, address: u32) -> bool
    ensures yes { OnTrue result (word_of (protected_bytes memory.old) address ≡ Some ecall) }
    ensures no { OnFalse result (word_of (protected_bytes memory.old) address ≢ Some ecall) }
    ensures kept { memory.new ≡ memory.old }
{
    match word_at(memory, address) {
        Some(word) => word == ECALL,
        None => false,
    }
}

/// The word of a step that was made at an address, where the program went on elsewhere than behind
/// it, and else 0.
#[inline(always)]
fn word_left(memory: &mut KeptMemory, pc: u32, next: u32) -> u32
    ensures { memory.new ≡ memory.old }
{
    if next == pc.wrapping_add(4) {
        return 0;
    }
    match word_at(memory, pc) {
        Some(word) => word,
        None => 0,
    }
}

/// The bits of an instruction that was committed, where the program went on elsewhere than behind
/// it, and else 0.
fn bits_left(retired: &Retired, bits: u32) -> u32 {
    let size = if bits % 4 == 3 { 4 } else { 2 };
    if retired.pc_wdata == retired.pc_rdata.wrapping_add(size) {
        0
    } else {
        bits
    }
}

impl Profile<'_, '_> {
    /// Counts the step of this number, which was made at an address where these bits are.
    #[inline(always)]
    fn count(&mut self, number: u64, pc: u32, bits: u32)
        ensures { (r : Retired) → r.pc_rdata ≡ pc → is_step r ≡ true
            → Counts self.old.coverage r self.new.coverage }
    {
        let owner = match self.coverage.add(pc) {
            Some(place) => self.code.owner_at(place),
            None => 0,
        };
        self.calls.add(self.code, number, pc, owner, bits);
    }

    /// Counts the step of a record, if it is of one.
    pub(crate) fn count_record(&mut self, retired: &Retired)
        ensures { Counts self.old.coverage retired.now self.new.coverage }
    {
        match committed_word(retired) {
            Some(bits) => {
                let bits = bits_left(retired, bits);
                self.count(retired.order, retired.pc_rdata, bits);
            }
            None => {}
        }
    }

    /// Counts the step of this number from one pc to another, if it is no fault.
    #[inline(always)]
    fn see(
        &mut self,
        memory: &mut KeptMemory,
        number: u64,
        pc: u32,
        next: u32,
        answer: Result<(), InstructionException>,
    )
        ensures counts { (p : TheProfile) (n : ℕ) (s t : Hart) (r : Retired)
            → p.compressed ≡ false → s.state.pc ≡ pc
            → t.state.bytes ≡ protected_bytes memory.old → HartStep p s t answer
            → HartRetires p n s t answer r → Counts self.old.coverage r self.new.coverage }
        ensures kept { memory.new ≡ memory.old }
    {
        match answer {
            Ok(()) => {
                let word = word_left(memory, pc, next);
                self.count(number, pc, word);
            }
            Err(_) => {
                if is_ecall_at(memory, pc) {
                    self.count(number, pc, ECALL);
                }
            }
        }
    }
}

impl Watcher for Profile<'_, '_> {
    ghost use Rattle.std.specs.Prelude.{true};

    ghost sees = { λ old retired new. Counts old.coverage retired new.coverage };

    ghost wants = { λ profile. true };

    /// No record is made of a hart that fetches words. The word of a step is read where it jumps,
    /// and after an exception.
    #[inline(always)]
    fn watch_step(
        &mut self,
        executor: &mut InstructionExecutor<KeptMemory>,
        reservation: &mut Option<u32>,
        profile: HartProfile,
        number: u64,
    ) -> Result<(), InstructionException> {
        if profile.compressed {
            let (answer, retired) = step_hart_retired(executor, reservation, profile, number);
            self.count_record(&retired);
            return answer;
        }
        let pc = executor.hart_state.pc;
        let answer = step_layers_cached(executor, reservation, profile);
        self.see(executor.mem, number, pc, executor.hart_state.pc, answer);
        answer
    }

    fn wants_more(&self) -> bool {
        true
    }
}

/// Runs a file's bytes as [execute_process](rrs_exec::execute_process) does, and gives what the run
/// covered of its code. A count is the number of steps of the run whose pc a unit has.
///
/// # Errors
///
/// Those of `execute_process`, and out of memory for the counts.
pub fn cover_process<'a, 'b, R: Read, W: Write, E: Write, P: Progress>(
    alloc: Global,
    file: &[u8],
    code: &'b Code<'a>,
    arguments: &[String],
    variables: &[String],
    wanted: u64,
    limit: u64,
    profile: HartProfile,
    environment: &mut Linux<R, W, E>,
    progress: &mut P,
) -> Result<(ProcessEnd, Profile<'a, 'b>), ImageError>
    ensures covered { IfOk result (λ run. CoversProcess profile R.remaining W.contents E.contents
        file.now (map string_bytes arguments.now) (map string_bytes variables.now) wanted limit
        environment.old environment.new run.0.steps run.0.pc run.0.ending run.1.coverage) }
    ensures kept { OnErr result (environment.new ≡ environment.old) }
{
    let Ok(mut covered) = Profile::new(alloc, code) else {
        return Err(ImageError::OutOfMemory);
    };
    let end = watch_process(
        alloc,
        file,
        arguments,
        variables,
        wanted,
        limit,
        profile,
        environment,
        &mut covered,
        progress,
    )?;
    covered.calls.finish(end.steps);
    Ok((end, covered))
}
