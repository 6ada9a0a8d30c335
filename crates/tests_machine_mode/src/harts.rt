//! A step of a hart with a profile, and a run.

use rrs_hart::{HartProfile, run_hart, step_hart};
use rrs_lib::HartState;
use rrs_lib::instruction_executor::{InstructionException, InstructionExecutor, RunEnd};
use rrs_lib::memories::VecMemory;
use std::alloc::{AllocError, Global};
use std::test::Fail;

/// A hart with all layers, whose misaligned accesses are carried out.
const ALL: HartProfile = HartProfile {
    atomics: true,
    fence_i: true,
    misaligned: true,
    compressed: false,
    zba: true,
    zbb: true,
    zbs: true,
    zbc: true,
    zbkb: true,
    zicond: true,
};

/// The hart of the kit.
const NONE: HartProfile = HartProfile {
    atomics: false,
    fence_i: false,
    misaligned: false,
    compressed: false,
    zba: false,
    zbb: false,
    zbs: false,
    zbc: false,
    zbkb: false,
    zicond: false,
};

/// A hart that has all layers and the compressed instructions.
const SHORT: HartProfile = HartProfile {
    compressed: true,
    ..ALL
};

/// What a step leaves: how it ended, the pc, x5, the words at 4 and 8, and the reservation.
type Left = (
    Result<(), InstructionException>,
    u32,
    u32,
    (u32, u32),
    Option<u32>,
);

/// What a word at 0 leaves, where the bytes from 4 on are 0x11, 0x22 .. 0x88, x6 has an address, and
/// x7 has 5.
fn left_by(
    alloc: Global,
    profile: HartProfile,
    word: u32,
    address: u32,
) -> Result<Left, AllocError> {
    let mut memory = VecMemory::new(vec![in alloc; word, 0x4433_2211, 0x8877_6655]?);
    let mut hart = HartState::new();
    hart.registers[6] = address;
    hart.registers[7] = 5;
    let mut reservation = None;
    let mut executor = InstructionExecutor {
        mem: &mut memory,
        hart_state: &mut hart,
    };
    let answer = step_hart(&mut executor, &mut reservation, profile);
    let first = memory.mem.get(1).copied().unwrap_or(0);
    let second = memory.mem.get(2).copied().unwrap_or(0);
    Ok((
        answer,
        hart.pc,
        hart.registers[5],
        (first, second),
        reservation,
    ))
}

const LW: u32 = 0x0003_2283; // lw x5, 0(x6)

const SW: u32 = 0x0073_2023; // sw x7, 0(x6)

const LR: u32 = 0x1003_22af; // lr.w x5, (x6)

const ADD: u32 = 0x0073_22af; // amoadd.w x5, x7, (x6)

const FENCE_I: u32 = 0x0000_100f; // fence.i

const MRET: u32 = 0x3020_0073; // mret

const SAME: (u32, u32) = (0x4433_2211, 0x8877_6655);

/// A word that retires on a hart with all layers, the address in x6, and what it leaves of x5, the
/// words and the reservation.
const DONE: [(u32, u32, (u32, (u32, u32), Option<u32>)); 6] = [
    (LW, 4, (0x4433_2211, SAME, None)),
    (LW, 6, (0x6655_4433, SAME, None)),
    (SW, 6, (0, (0x0005_2211, 0x8877_0000), None)),
    (LR, 4, (0x4433_2211, SAME, Some(4))),
    (ADD, 4, (0x4433_2211, (0x4433_2216, 0x8877_6655), None)),
    (FENCE_I, 4, (0, SAME, None)),
];

/// A profile, a word, the address in x6, and the exception that is raised.
const RAISED: [(HartProfile, u32, u32, InstructionException); 6] = [
    (ALL, ADD, 6, InstructionException::AlignmentFault(6)),
    (ALL, LW, 10, InstructionException::LoadAccessFault(10)),
    (
        ALL,
        MRET,
        4,
        InstructionException::IllegalInstruction(0, MRET),
    ),
    (NONE, LW, 6, InstructionException::AlignmentFault(6)),
    (
        NONE,
        ADD,
        4,
        InstructionException::IllegalInstruction(0, ADD),
    ),
    (
        NONE,
        FENCE_I,
        4,
        InstructionException::IllegalInstruction(0, FENCE_I),
    ),
];

#[test]
fn a_step_goes_by_the_profile(rt: HostRuntime) -> Result<(), Fail> {
    let alloc = rt.alloc();
    let (mut done, mut raised) = (true, true);
    for (word, address, (value, words, reserved)) in DONE {
        let left = left_by(alloc, ALL, word, address)?;
        done = done && left == (Ok(()), 4, value, words, reserved);
    }
    for (profile, word, address, exception) in RAISED {
        let left = left_by(alloc, profile, word, address)?;
        raised = raised && left == (Err(exception), 0, 0, SAME, None);
    }
    assert_eq!(rt; (done, raised), (true, true));
    Ok(())
}

/// A counter to which 3 is added four times, a load and a store at misaligned addresses behind it,
/// a reservation of it, and a call: as GNU `as` has it. The counter is at 0x40.
fn layers(alloc: Global) -> Result<VecMemory, AllocError> {
    let words = vec![in alloc;
        0x0400_0313, //    addi x6, x0, 0x40
        0x0030_0393, //    addi x7, x0, 3
        0x0040_0413, //    addi x8, x0, 4
        0x0073_24af, // 1: amoadd.w x9, x7, (x6)
        0xfff4_0413, //    addi x8, x8, -1
        0xfe04_1ce3, //    bne x8, x0, 1b
        0x0063_2503, //    lw x10, 6(x6)
        0x00a3_24a3, //    sw x10, 9(x6)
        0x1003_25af, //    lr.w x11, (x6)
        0x1873_262f, //    sc.w x12, x7, (x6)
        0x0000_0073, //    ecall
        0, 0, 0, 0, 0,
        7, 0x4433_2211, 0x8877_6655, 0xccbb_aa99
    ]?;
    Ok(VecMemory::new(words))
}

/// What a run in two legs, the first of so many steps, ends with each time, and the pc between.
type Legs = (RunEnd, u32, RunEnd);

/// What is left of the program: the pc, x9 to x12, and the words from the counter on.
type After = (u32, (u32, u32, u32, u32), [u32; 4]);

/// What `qemu-riscv32` leaves, as `layers.c` in `examples/exec/trials` prints it, at the call.
const AFTER: After = (
    40,
    (16, 0x6655_4433, 19, 0),
    [3, 0x4433_2211, 0x5544_3355, 0xccbb_aa66],
);

/// What is left in a hart and a memory.
fn after(memory: &VecMemory, hart: &HartState) -> After {
    let mut words = [0; 4];
    for at in 0..4usize {
        words[at] = memory.mem.get(16 + at).copied().unwrap_or(0);
    }
    let x = &hart.registers;
    (hart.pc, (x[9], x[10], x[11], x[12]), words)
}

/// Has the program run in two legs, of which the second has a limit that it does not reach.
fn run_in_legs(
    alloc: Global,
    profile: HartProfile,
    first: u64,
) -> Result<(Legs, After), AllocError> {
    let mut memory = layers(alloc)?;
    let mut hart = HartState::new();
    let mut reservation = None;
    let mut executor = InstructionExecutor {
        mem: &mut memory,
        hart_state: &mut hart,
    };
    let before = run_hart(&mut executor, &mut reservation, profile, first);
    let pc = executor.hart_state.pc;
    let end = run_hart(&mut executor, &mut reservation, profile, 100);
    Ok(((before, pc, end), after(&memory, &hart)))
}

#[test]
fn a_run_goes_on_in_legs_with_its_reservation(rt: HostRuntime) -> Result<(), Fail> {
    let (ends, left) = run_in_legs(rt.alloc(), ALL, 18)?;
    let first = RunEnd {
        steps: 18,
        exception: None,
    };
    let last = RunEnd {
        steps: 1,
        exception: Some(InstructionException::EnvironmentCall(40)),
    };
    assert_eq!(rt; (ends, left), ((first, 36, last), AFTER));
    Ok(())
}

#[test]
fn a_run_ends_where_the_profile_has_no_layer(rt: HostRuntime) -> Result<(), Fail> {
    let (ends, _) = run_in_legs(rt.alloc(), NONE, 18)?;
    let exception = Some(InstructionException::IllegalInstruction(12, 0x0073_24af));
    let (first, again) = (
        RunEnd {
            steps: 3,
            exception,
        },
        RunEnd {
            steps: 0,
            exception,
        },
    );
    assert_eq!(rt; ends, (first, 12, again));
    Ok(())
}

#[test]
fn single_steps_leave_what_the_run_does(rt: HostRuntime) -> Result<(), Fail> {
    let mut memory = layers(rt.alloc())?;
    let mut hart = HartState::new();
    let mut reservation = None;
    let mut executor = InstructionExecutor {
        mem: &mut memory,
        hart_state: &mut hart,
    };
    let mut done = true;
    for _ in 0..19u64 {
        done = done && step_hart(&mut executor, &mut reservation, ALL).is_ok();
    }
    let end = step_hart(&mut executor, &mut reservation, ALL);
    let left = after(&memory, &hart);
    let call = Err(InstructionException::EnvironmentCall(40));
    assert_eq!(rt; (done, end, left), (true, call, AFTER));
    Ok(())
}

/// What a step of a hart with the compressed instructions leaves: how it ended, the pc, x1 and x9.
type ShortLeft = (Result<(), InstructionException>, u32, u32, u32);

/// What the instruction at a pc leaves, where x6 and x8 are 6, and sp is 4.
fn left_at(alloc: Global, words: [u32; 3], pc: u32) -> Result<ShortLeft, AllocError> {
    let [first, second, third] = words;
    let mut memory = VecMemory::new(vec![in alloc; first, second, third]?);
    let mut hart = HartState::new();
    hart.registers[2] = 4;
    hart.registers[6] = 6;
    hart.registers[8] = 6;
    hart.pc = pc;
    let mut reservation = None;
    let mut executor = InstructionExecutor {
        mem: &mut memory,
        hart_state: &mut hart,
    };
    let answer = step_hart(&mut executor, &mut reservation, SHORT);
    Ok((answer, hart.pc, hart.registers[1], hart.registers[9]))
}

/// The three words, the pc, and what is left where the step is `Ok`: the pc, x1 and x9. The
/// instructions are as GNU `as` has them.
const SHORT_DONE: [([u32; 3], u32, (u32, u32, u32)); 10] = [
    ([0x0000_44a9, 0, 0], 0, (2, 0, 10)), // c.li x9, 10
    ([0x44a9_0000, 0, 0], 2, (4, 0, 10)), // the same
    ([0x2031_0000, 0, 0], 2, (14, 4, 0)), // c.jal 14
    ([0x0000_9302, 0, 0], 0, (6, 2, 0)), // c.jalr x6
    ([0x8302_0000, 0, 0], 2, (6, 0, 0)), // c.jr x6
    ([0x0000_4092, 0, 0x0000_0007], 0, (2, 7, 0)), // c.lwsp x1, 4(x2)
    ([0x4004_0000, 0x2211_0000, 0x4433], 2, (4, 0, 0x4433_2211)), // c.lw x9, 0(x8)
    ([0x00ef_0000, 0x0000_0080, 0], 2, (10, 6, 0)), // jal x1, 8 behind
    ([0x2483_0000, 0x2211_0003, 0x4433], 2, (6, 0, 0x4433_2211)), // lw x9, 0(x6)
    ([0x100f_0000, 0, 0], 2, (6, 0, 0)), // fence.i
];

/// The three words, the pc, and the exception that is raised.
const SHORT_RAISED: [([u32; 3], u32, InstructionException); 6] = [
    ([0, 0, 0], 1, InstructionException::AlignmentFault(1)),
    ([0, 0, 0], 12, InstructionException::FetchError(12)),
    (
        [0, 0, 0x0003_0000],
        10,
        InstructionException::FetchError(12),
    ),
    ([0, 0, 0], 2, InstructionException::IllegalInstruction(2, 0)),
    (
        [0x0073_0000, 0x3020, 0],
        2,
        InstructionException::IllegalInstruction(2, MRET),
    ),
    ([0x9002_0000, 0, 0], 2, InstructionException::Breakpoint(2)),
];

#[test]
fn a_compressed_step_goes_on_behind_its_bytes(rt: HostRuntime) -> Result<(), Fail> {
    let alloc = rt.alloc();
    let (mut done, mut raised) = (true, true);
    for (words, pc, (next, x1, x9)) in SHORT_DONE {
        done = done && left_at(alloc, words, pc)? == (Ok(()), next, x1, x9);
    }
    for (words, pc, exception) in SHORT_RAISED {
        raised = raised && left_at(alloc, words, pc)? == (Err(exception), pc, 0, 0);
    }
    assert_eq!(rt; (done, raised), (true, true));
    Ok(())
}
