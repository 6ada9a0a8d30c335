//! Steps of one word, and runs of a program.

use rrs_lib::HartState;
use rrs_lib::instruction_executor::InstructionExecutor;
use rrs_lib::memories::VecMemory;
use rrs_machine::{CsrFile, Inputs, MachineAnswer, Surroundings, run_machine, step_machine};
use rrs_words::HartProfile;
use std::alloc::{AllocError, Global};
use std::process::Abort;
use std::test::Fail;

/// Nothing is pending, at time 0.
pub const QUIET: Inputs = Inputs {
    external: false,
    software: false,
    timer: false,
    time: 0,
};

/// The layers of a hart that has `fence.i` alone.
pub const PLAIN: HartProfile = HartProfile {
    atomics: false,
    fence_i: true,
    misaligned: false,
    compressed: false,
    zba: false,
    zbb: false,
    zbs: false,
    zbc: false,
    zbkb: false,
    zicond: false,
};

/// Where the word of a step stands.
pub const START: u32 = 0x100;

/// Asserts what has to hold of a case.
pub fn holds_at(rt: &impl Abort, case: u32, holds: bool) {
    assert!(rt; holds, "at {case:#x}");
}

/// Makes a step over a memory.
pub fn step_over(
    memory: &mut VecMemory,
    hart: &mut HartState,
    csrs: &mut CsrFile,
    inputs: &Inputs,
) -> MachineAnswer {
    let mut executor = InstructionExecutor {
        mem: memory,
        hart_state: hart,
    };
    step_machine(&mut executor, csrs, inputs)
}

/// Makes a step over a memory of 512 bytes that has one word, at [START].
pub fn step_word(
    alloc: Global,
    word: u32,
    hart: &mut HartState,
    csrs: &mut CsrFile,
    inputs: &Inputs,
) -> Result<MachineAnswer, AllocError> {
    let mut words = vec![in alloc; 0; 128]?;
    if let Some(place) = words.get_mut(64) {
        *place = word;
    }
    let mut memory = VecMemory::new(words);
    Ok(step_over(&mut memory, hart, csrs, inputs))
}

/// A timer that is pending from a time on. A step takes one unit of time.
#[derive(Drop)]
struct Alarm {
    time: u64,
    at: u64,
}

impl Surroundings for Alarm {
    ghost use Rattle.std.specs.Prelude.{◌≡◌};

    ghost tells = { λ old new inputs. inputs.time ≡ old.time };

    fn inputs(&mut self) -> Inputs {
        let time = self.time;
        self.time = time.wrapping_add(1);
        Inputs {
            external: false,
            software: false,
            timer: self.at <= time,
            time,
        }
    }
}

/// Waits for the timer at 4, and goes on in its handler at 16.
const WAITS: [u32; 9] = [
    0x3053_1073, // csrrw x0, mtvec, x6
    0x3043_9073, // csrrw x0, mie, x7
    0x3004_6073, // csrrsi x0, mstatus, 8
    0x1050_0073, // wfi
    0x3420_22f3, // csrrs x5, mcause, x0
    0xb000_2473, // csrrs x8, mcycle, x0
    0xb020_24f3, // csrrs x9, minstret, x0
    0x3040_1073, // csrrw x0, mie, x0
    0x1050_0073, // wfi
];

#[test]
fn runs_to_a_wfi(rt: HostRuntime) -> Result<(), Fail> {
    let mut memory = VecMemory::new(WAITS.to_vec(rt.alloc())?);
    let mut hart = HartState::new();
    hart.registers[6] = 16;
    hart.registers[7] = 0x80;
    let mut executor = InstructionExecutor {
        mem: &mut memory,
        hart_state: &mut hart,
    };
    let mut csrs = CsrFile::new();
    let mut alarm = Alarm { time: 0, at: 3 };
    let end = run_machine(&mut executor, &mut csrs, &mut alarm, 100);
    let seen = (hart.registers[5], hart.registers[8], hart.registers[9]);
    let left = (hart.pc, csrs.mepc, csrs.mstatus);
    assert!(rt;
        (end.steps, end.waiting) == (8, true)
            && seen == (0x8000_0007, 5, 5)
            && left == (36, 12, 0x80)
    );
    Ok(())
}
