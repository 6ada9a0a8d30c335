//! The programs that compute, called on chosen words with their premises proved.

ghost use Rattle.std.specs.Prelude.{◌≡◌, ◌≤◌, IfOk};
ghost use Rattle.rrs_extra.specs.Programs.{HoldsWords, HoldsIllegal, IsMapped, IsWritable};
ghost use Rattle.rrs_programs.specs.Computing.{gcd_program, copy_words_program};
ghost use Rattle.tests_host.specs.ProgramExamples.{words_of_gcd, words_to_copy};

use rrs_lib::instruction_executor::{InstructionExecutor, RunEnd};
use rrs_lib::memories::VecMemory;
use rrs_lib::{HartState, Memory};
use rrs_programs::{copy_words, gcd};
use std::alloc::{AllocError, Global};
use std::test::Fail;
use tests_shared::end_at;

/// The program of the greatest common divisor, and an illegal instruction.
fn words_of_gcd(alloc: Global) -> Result<VecMemory, AllocError>
    ensures { IfOk result (λ memory. memory.mem.items ≡ words_of_gcd) }
{
    let words = [
        0x00059463, 0x00008067, 0x02b577b3, 0x00058513, 0x00078593, 0xfedff06f, 0,
    ];
    Ok(VecMemory::new(words.to_vec(alloc)?))
}

/// Calls the program at 0 with two arguments; it returns to 24.
fn divide<M: Memory>(mem: &mut M, hart_state: &mut HartState, a: u32, b: u32) -> RunEnd
    requires program { HoldsWords (M.bytes mem.old) 0 gcd_program }
    requires behind { HoldsIllegal (M.bytes mem.old) 24 }
{
    hart_state.pc = 0;
    hart_state.registers[1] = 24;
    hart_state.registers[10] = a;
    hart_state.registers[11] = b;
    let mut executor = InstructionExecutor { mem, hart_state };
    gcd(&mut executor)
}

/// Two numbers, and their greatest common divisor.
static DIVISORS: [(u32, u32, u32); 5] = [
    (1071, 462, 21),
    (0, 5, 5),
    (5, 0, 5),
    (0, 0, 0),
    (0xffffffff, 1, 1),
];

#[test]
fn divides(rt: HostRuntime) -> Result<(), Fail> {
    for (row, &(a, b, divisor)) in DIVISORS.iter().enumerate() {
        let mut memory = words_of_gcd(rt.alloc())?;
        let mut hart = HartState::new();
        let end = divide(&mut memory, &mut hart, a, b);
        let expected = end_at(end.steps, 24);
        assert!(rt;
            end == expected && hart.registers[10] == divisor,
            "row {row}"
        );
    }
    Ok(())
}

/// The program that copies words, an illegal instruction, three words, and room for three.
fn words_to_copy(alloc: Global) -> Result<VecMemory, AllocError>
    ensures { IfOk result (λ memory. memory.mem.items ≡ words_to_copy) }
{
    let words = [
        0x02060063, 0x00261613, 0x00c58733, 0x0005a783, 0x00458593, 0x00450513, 0xfef52e23,
        0xfee598e3, 0x00008067, 0, 5, 7, 0xffffffff, 9, 9, 9,
    ];
    Ok(VecMemory::new(words.to_vec(alloc)?))
}

/// Calls the program at 0 to copy as many of the three words; it returns to 36.
fn copy<M: Memory>(mem: &mut M, hart_state: &mut HartState, count: u32) -> RunEnd
    requires program { HoldsWords (M.bytes mem.old) 0 copy_words_program }
    requires behind { HoldsIllegal (M.bytes mem.old) 36 }
    requires source { IsMapped (M.bytes mem.old) 40 12 }
    requires room { IsWritable (M.writable mem.old) 52 12 }
    requires count { count ≤ 3 }
{
    hart_state.pc = 0;
    hart_state.registers[1] = 36;
    hart_state.registers[10] = 52;
    hart_state.registers[11] = 40;
    hart_state.registers[12] = count;
    let mut executor = InstructionExecutor { mem, hart_state };
    copy_words(&mut executor)
}

#[test]
fn copies_words(rt: HostRuntime) -> Result<(), Fail> {
    let mut memory = words_to_copy(rt.alloc())?;
    let mut hart = HartState::new();
    let end = copy(&mut memory, &mut hart, 2);
    let expected = [0, 5, 7, 0xffffffff, 5, 7, 9];
    assert!(rt; end == end_at(14, 36) && memory.mem.get(9..) == Some(expected.as_slice()));
    Ok(())
}
