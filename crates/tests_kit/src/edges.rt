//! How often steps touch the memory, and how a caller serves an environment call.

ghost use Rattle.std.specs.Prelude.{◌≡◌, ◌+◌, ◌%◌, ◌^◌};
ghost use Rattle.rrs_lib.specs.VecBytes.{vec_bytes, vec_writable, vec_layout, vec_reads, VecWrites};

use crate::machines::{hart_of, memory_of, step_over};
use rrs_lib::instruction_executor::{InstructionException, InstructionExecutor};
use rrs_lib::memories::VecMemory;
use rrs_lib::{HartState, MemAccessSize, Memory};
use std::alloc::{AllocError, Global};
use std::test::Fail;

/// Words, with a count of the reads and writes so far, modulo 2^64.
#[derive(Drop)]
struct CountedWords {
    words: VecMemory,
    calls: u64,
}

impl Memory for CountedWords {
    ghost bytes = { λ counted. vec_bytes counted.words };

    ghost writable = { λ counted. vec_writable counted.words };

    ghost layout = { λ counted. vec_layout counted.words };

    ghost reads = { λ old address size new answer. vec_reads old.words address size new.words answer
        × (new.calls ≡ (old.calls + 1) % 2 ^ 64) };

    ghost writes = { λ old address size value new answer.
        VecWrites old.words address size value new.words answer
        × (new.calls ≡ (old.calls + 1) % 2 ^ 64) };

    fn read_mem(&mut self, addr: u32, size: MemAccessSize) -> Option<u32> {
        self.calls = self.calls.wrapping_add(1);
        self.words.read_mem(addr, size)
    }

    fn write_mem(&mut self, addr: u32, size: MemAccessSize, store_data: u32) -> bool {
        self.calls = self.calls.wrapping_add(1);
        self.words.write_mem(addr, size, store_data)
    }
}

/// How often a step from a pc touches a memory of this word and a zero.
fn calls_of(alloc: Global, word: u32, pc: u32) -> Result<u64, AllocError> {
    let mut memory = CountedWords {
        words: memory_of(alloc, &[word, 0])?,
        calls: 0,
    };
    let _seen = step_over(&mut memory, hart_of(pc, &[]));
    Ok(memory.calls)
}

/// Words, each with the pc before it, and how often its step touches the memory.
static ACCESSES: [(u32, u32, u64); 13] = [
    (0x0000_0013, 1, 0),
    (0x0000_0013, 2, 0),
    (0x0000_0013, 3, 0),
    (0x0000_0013, 0xffff_fffd, 0),
    (0x0020_2083, 0, 1), // lw x1, 2(x0)
    (0x0010_1083, 0, 1), // lh x1, 1(x0)
    (0x0010_2123, 0, 1), // sw x1, 2(x0)
    (0x0010_10a3, 0, 1), // sh x1, 1(x0)
    (0x0000_2083, 0, 2), // lw x1, 0(x0)
    (0x0010_2023, 0, 2), // sw x1, 0(x0)
    (0x0000_0013, 0, 1), // addi x0, x0, 0
    (0x0000_0073, 0, 1), // ecall
    (0x0000_1073, 0, 1), // no row
];

/// There is no read where the pc is not aligned. A load or a store whose address is not aligned
/// makes none but the fetch.
#[test]
fn no_access_where_the_address_is_not_aligned(rt: HostRuntime) -> Result<(), Fail> {
    for &(word, pc, calls) in &ACCESSES {
        let made = calls_of(rt.alloc(), word, pc)?;
        assert!(rt; made == calls, "{word:#010x}");
    }
    Ok(())
}

/// What a caller does for the program: service 1 doubles its argument, and any other returns 0.
fn serve(service: u32, argument: u32) -> u32 {
    match service {
        1 => argument.wrapping_mul(2),
        _ => 0,
    }
}

/// addi a7, x0, 1 / addi a0, x0, 20 / ecall / addi a0, a0, 1 / ebreak
#[test]
fn an_environment_call_is_served(rt: HostRuntime) -> Result<(), Fail> {
    let words = [
        0x0010_0893,
        0x0140_0513,
        0x0000_0073,
        0x0015_0513,
        0x0010_0073,
    ];
    let mut memory = memory_of(rt.alloc(), &words)?;
    let mut hart = HartState::new();
    let mut executor = InstructionExecutor {
        mem: &mut memory,
        hart_state: &mut hart,
    };
    if let Some(InstructionException::EnvironmentCall(pc)) = executor.run(100).exception {
        let service = executor.hart_state.read_register(17);
        let argument = executor.hart_state.read_register(10);
        executor
            .hart_state
            .write_register(10, serve(service, argument));
        executor.hart_state.pc = pc.wrapping_add(4);
    }
    let end = executor.run(100);
    let breakpoint = Some(InstructionException::Breakpoint(16));
    assert!(rt; end.exception == breakpoint && hart.registers[10] == 41);
    Ok(())
}
