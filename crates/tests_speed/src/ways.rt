//! What makes the steps.

use rrs_fast::{CachedMemory, DecodeCache, run_aligned, run_before, run_cached};
use rrs_history::{History, step_recorded};
use rrs_lib::instruction_executor::InstructionExecutor;
use rrs_lib::{HartState, Memory};
use rrs_trace::{run_until_cached, step_retired};

/// What makes the steps of a call, over memories of one type.
pub trait Way<M: Memory> {
    /// Makes steps up to a limit, and gives how many.
    fn make(&mut self, executor: &mut InstructionExecutor<M>, limit: u64) -> u64;
}

/// Makes steps by calls of so many steps each, up to a limit or a fault.
pub fn in_pieces<M: Memory, W: Way<M>>(
    way: &mut W,
    mem: &mut M,
    hart_state: &mut HartState,
    limit: u64,
    piece: u64,
) -> u64 {
    let mut executor = InstructionExecutor { mem, hart_state };
    let mut made: u64 = 0;
    for _ in 0..limit {
        let wanted = piece.min(limit.saturating_sub(made));
        let steps = way.make(&mut executor, wanted);
        made = made.saturating_add(steps);
        if steps < wanted || made >= limit {
            break;
        }
    }
    made
}

/// The kit's `step`.
#[derive(Drop)]
pub struct Plain;

impl<M: Memory> Way<M> for Plain {
    fn make(&mut self, executor: &mut InstructionExecutor<M>, limit: u64) -> u64 {
        for steps in 0..limit {
            if executor.step().is_err() {
                return steps;
            }
        }
        limit
    }
}

/// `step_retired`, all of whose fields are used.
#[derive(Drop)]
pub struct Retiring {
    /// A sum of them.
    pub sum: u32,
}

impl<M: Memory> Way<M> for Retiring {
    fn make(&mut self, executor: &mut InstructionExecutor<M>, limit: u64) -> u64 {
        for steps in 0..limit {
            let (answer, retired) = step_retired(executor, steps);
            if answer.is_err() {
                return steps;
            }
            self.sum = self
                .sum
                .wrapping_add(u32::from(retired.order == 0))
                .wrapping_add(retired.insn.unwrap_or(0))
                .wrapping_add(u32::from(retired.trap))
                .wrapping_add(retired.pc_rdata)
                .wrapping_add(retired.pc_wdata)
                .wrapping_add(u32::from(retired.rs1_addr == 0))
                .wrapping_add(retired.rs1_rdata)
                .wrapping_add(u32::from(retired.rs2_addr == 0))
                .wrapping_add(retired.rs2_rdata)
                .wrapping_add(u32::from(retired.rd_addr == 0))
                .wrapping_add(retired.rd_wdata)
                .wrapping_add(retired.mem.addr)
                .wrapping_add(u32::from(retired.mem.rmask))
                .wrapping_add(u32::from(retired.mem.wmask))
                .wrapping_add(retired.mem.rdata)
                .wrapping_add(retired.mem.wdata);
        }
        limit
    }
}

/// `step_recorded`.
#[derive(Drop)]
pub struct Recording {
    /// The steps that can be taken back.
    pub history: History,
}

impl<M: Memory> Way<M> for Recording {
    fn make(&mut self, executor: &mut InstructionExecutor<M>, limit: u64) -> u64 {
        for steps in 0..limit {
            if step_recorded(executor, &mut self.history).is_err() {
                return steps;
            }
        }
        limit
    }
}

/// `DecodeCache::run`.
#[derive(Drop)]
pub struct Decoding {
    cache: DecodeCache,
}

impl Decoding {
    /// An empty cache.
    pub fn new() -> Decoding {
        Decoding {
            cache: DecodeCache::new(),
        }
    }
}

impl<M: Memory> Way<M> for Decoding {
    fn make(&mut self, executor: &mut InstructionExecutor<M>, limit: u64) -> u64 {
        self.cache.run(executor, limit).steps
    }
}

/// `run_cached`.
#[derive(Drop)]
pub struct Kept;

impl<M: Memory, const N: usize> Way<CachedMemory<M, N>> for Kept {
    fn make(&mut self, executor: &mut InstructionExecutor<CachedMemory<M, N>>, limit: u64) -> u64 {
        run_cached(executor, limit).steps
    }
}

/// `run_aligned`.
#[derive(Drop)]
pub struct Aligned;

impl<M: Memory, const N: usize> Way<CachedMemory<M, N>> for Aligned {
    fn make(&mut self, executor: &mut InstructionExecutor<CachedMemory<M, N>>, limit: u64) -> u64 {
        run_aligned(executor, limit).end.steps
    }
}

/// `run_until_cached`, or `run_before` at aligned targets.
#[derive(Drop)]
pub struct Stopping<'a> {
    /// The stops.
    pub stops: &'a [u32],
    /// Whether the run is to end before the first step, too.
    pub is_before: bool,
}

impl<'a, M: Memory, const N: usize> Way<CachedMemory<M, N>> for Stopping<'a> {
    fn make(&mut self, executor: &mut InstructionExecutor<CachedMemory<M, N>>, limit: u64) -> u64 {
        if self.is_before {
            run_before::<M, N, true>(executor, limit, self.stops).steps
        } else {
            run_until_cached(executor, limit, self.stops).steps
        }
    }
}
