//! Runs over memories of different kinds.

ghost use Rattle.std.specs.Prelude.{◌≡◌};

use rrs_lib::instruction_executor::{InstructionException, InstructionExecutor, RunEnd};
use rrs_lib::memories::{BoxedMemory, VecMemory};
use rrs_lib::{HartState, Memory};
use rrs_programs::same_run;
use std::test::Fail;

/// A program that loads the word at 8, stores it at 12, and loads that again twice.
const PROGRAM: [u32; 4] = [0x0080_2083, 0x0010_2623, 0x00c0_2103, 0];

/// Runs the program to a limit over each of two memories with the same bytes and writable
/// addresses.
fn both_runs<A: Memory, B: Memory>(first: &mut A, second: &mut B, limit: u64) -> (RunEnd, RunEnd)
    requires bytes { A.bytes first.old ≡ B.bytes second.old }
    requires writable { A.writable first.old ≡ B.writable second.old }
    ensures { result.0 ≡ result.1 }
{
    let mut first_hart = HartState::new();
    let mut second_hart = HartState::new();
    let mut first_machine = InstructionExecutor {
        mem: first,
        hart_state: &mut first_hart,
    };
    let mut second_machine = InstructionExecutor {
        mem: second,
        hart_state: &mut second_hart,
    };
    same_run(&mut first_machine, &mut second_machine, limit)
}

/// Limits, each with how a run to it ends.
static ENDS: [(u64, RunEnd); 3] = [
    (
        0,
        RunEnd {
            steps: 0,
            exception: None,
        },
    ),
    (
        3,
        RunEnd {
            steps: 3,
            exception: None,
        },
    ),
    (
        10,
        RunEnd {
            steps: 4,
            exception: Some(InstructionException::FetchError(16)),
        },
    ),
];

#[test]
fn runs_to_one_limit_end_alike(rt: HostRuntime) -> Result<(), Fail> {
    let alloc = rt.alloc();
    for (limit, expected) in &ENDS {
        let mut memory = VecMemory::new(PROGRAM.to_vec(alloc)?);
        let held = VecMemory::new(PROGRAM.to_vec(alloc)?);
        let mut boxed = BoxedMemory {
            memory: Box::new(alloc, held)?,
        };
        let (end, other) = both_runs(&mut memory, &mut boxed, *limit);
        assert!(rt; end == *expected && other == *expected, "limit {limit}");
    }
    Ok(())
}
