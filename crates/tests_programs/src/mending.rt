//! Misaligned loads and stores, and extension A, on the hart of a process. The words are those of
//! GNU `as`, and what they leave is what `qemu-riscv32` shows.

use rrs_exec::process_profile;
use rrs_fast::{CachedMemory, Ending, OwnHart, ServedEnd, run_served};
use rrs_lib::HartState;
use rrs_lib::instruction_executor::{InstructionException, InstructionExecutor};
use rrs_lib::memories::VecMemory;
use rrs_linux::{Heap, OutputRecorder};
use std::alloc::{AllocError, Global};

/// sw x6, 1(x5) / lw x7, 1(x5) / lh x8, 3(x5) / lhu x9, 3(x5) / sh x6, 3(x5) / lw x0, 1(x5)
/// / ebreak.
const ACCESSES: [u32; 7] = [
    0x0062_a0a3,
    0x0012_a383,
    0x0032_9403,
    0x0032_d483,
    0x0062_91a3,
    0x0012_a003,
    0x0010_0073,
];

/// lr.w x7, (x5) / sc.w x8, x6, (x5) / sc.w x9, x6, (x5) / amoadd.w x7, x6, (x5) / ebreak.
const ATOMICS: [u32; 5] = [
    0x1002_a3af,
    0x1862_a42f,
    0x1862_a4af,
    0x0062_a3af,
    0x0010_0073,
];

/// What is left of a run: how it ended, the two words of data, and the hart.
#[derive(Drop)]
struct Left {
    end: ServedEnd,
    words: [u32; 2],
    hart: HartState,
}

/// Runs words from address 0, with two words of data at 28, behind which nothing is mapped. x5 is
/// an address, x6 a value, and x7 is 7.
fn run(
    alloc: Global,
    code: &[u32],
    address: u32,
    strict: bool,
    limit: u64,
) -> Result<Left, AllocError> {
    let mut words = code.to_vec(alloc)?;
    words.resize(7, 0)?;
    words.extend_from_slice(&[0x4433_2211, 0x8877_6655])?;
    let mut memory: CachedMemory<_, 16> = CachedMemory::new(VecMemory::new(words));
    let mut hart = HartState::new();
    hart.registers[5] = address;
    hart.registers[6] = 0xa1b2_c3d4;
    hart.registers[7] = 7;
    let mut environment = OutputRecorder::new(alloc, b"", 0, Heap::new(0, 0))?;
    let mut executor = InstructionExecutor {
        mem: &mut memory,
        hart_state: &mut hart,
    };
    let mut runner = OwnHart {
        profile: process_profile(strict),
        reservation: None,
    };
    let end = run_served(&mut runner, &mut executor, &mut environment, limit);
    let words = match memory.into_memory().mem.as_slice() {
        [.., first, second] => [*first, *second],
        _ => [0; 2],
    };
    Ok(Left { end, words, hart })
}

/// So many steps, and then a fault.
fn fault_at(steps: u64, fault: InstructionException) -> ServedEnd {
    ServedEnd {
        steps,
        ending: Ending::Fault(fault),
    }
}

#[test]
fn misaligned_accesses_are_carried_out(rt: HostRuntime) -> Result<(), AllocError> {
    let left = run(rt.alloc(), &ACCESSES, 28, false, 100)?;
    assert!(rt; left.end == fault_at(6, InstructionException::Breakpoint(24)));
    assert_eq!(rt; left.words, [0xd4c3_d411, 0x8877_66c3]);
    assert_eq!(rt; left.hart.read_register(7), 0xa1b2_c3d4);
    assert_eq!(rt; left.hart.read_register(8), 0xffff_a1b2);
    assert_eq!(rt; left.hart.read_register(9), 0xa1b2);
    assert_eq!(rt; left.hart.read_register(0), 0);
    Ok(())
}

#[test]
fn each_of_them_is_a_step(rt: HostRuntime) -> Result<(), AllocError> {
    let left = run(rt.alloc(), &ACCESSES, 28, false, 2)?;
    assert!(rt;
        left.end
            == ServedEnd {
                steps: 2,
                ending: Ending::Limit
            }
    );
    assert_eq!(rt; left.words, [0xb2c3_d411, 0x8877_66a1]);
    assert_eq!(rt; left.hart.pc, 8);
    assert_eq!(rt; left.hart.read_register(8), 0);
    Ok(())
}

#[test]
fn a_byte_that_is_refused_changes_nothing(rt: HostRuntime) -> Result<(), AllocError> {
    let store = run(rt.alloc(), &ACCESSES, 32, false, 100)?;
    assert!(rt; store.end == fault_at(0, InstructionException::StoreAccessFault(33)));
    assert_eq!(rt; store.words, [0x4433_2211, 0x8877_6655]);
    assert_eq!(rt; store.hart.pc, 0);
    let load = run(rt.alloc(), &ACCESSES[1..], 32, false, 100)?;
    assert!(rt; load.end == fault_at(0, InstructionException::LoadAccessFault(33)));
    assert_eq!(rt; load.hart.read_register(7), 7);
    // the last address of all has none behind it
    let last = run(rt.alloc(), &ACCESSES[1..], 0xffff_fffc, false, 100)?;
    assert!(rt; last.end == fault_at(0, InstructionException::LoadAccessFault(0xffff_fffd)));
    Ok(())
}

#[test]
fn strict_addresses_are_faults(rt: HostRuntime) -> Result<(), AllocError> {
    let left = run(rt.alloc(), &ACCESSES, 28, true, 100)?;
    assert!(rt; left.end == fault_at(0, InstructionException::AlignmentFault(29)));
    assert_eq!(rt; left.words, [0x4433_2211, 0x8877_6655]);
    Ok(())
}

#[test]
fn extension_a_is_carried_out(rt: HostRuntime) -> Result<(), AllocError> {
    for strict in [false, true] {
        let left = run(rt.alloc(), &ATOMICS, 28, strict, 100)?;
        assert!(rt; left.end == fault_at(4, InstructionException::Breakpoint(16)));
        assert_eq!(rt; left.words, [0x4365_87a8, 0x8877_6655]);
        assert_eq!(rt; left.hart.read_register(7), 0xa1b2_c3d4);
        assert_eq!(rt; left.hart.read_register(8), 0);
        assert_eq!(rt; left.hart.read_register(9), 1);
    }
    // with no reservation sc.w stores nothing
    let alone = run(rt.alloc(), &ATOMICS[1..2], 28, false, 1)?;
    assert_eq!(rt; alone.words, [0x4433_2211, 0x8877_6655]);
    assert_eq!(rt; alone.hart.read_register(8), 1);
    // a misaligned one is a fault
    let misaligned = run(rt.alloc(), &ATOMICS, 30, false, 100)?;
    assert!(rt; misaligned.end == fault_at(0, InstructionException::AlignmentFault(30)));
    Ok(())
}
