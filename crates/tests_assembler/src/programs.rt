//! The programs of `examples/assembly`: each is assembled, compared with its words, and run.

use crate::assembled::has_words;
use rrs_lib::HartState;
use rrs_lib::instruction_executor::InstructionExecutor;
use rrs_lib::memories::VecMemory;
use std::alloc::{AllocError, Global};

const THREE_WORDS: &str = "# Two constants in the upper 20 bits, and their sum.
    lui  sp, 0x1234b
    lui  gp, 0xf387e
    add  ra, sp, gp
";

const SUM_LOOP: &str = "# The sum of the a1 words from address a0 on, in a2.
sum_loop:
    li   a2, 0
next:
    beqz a1, done
    lw   a3, (a0)
    add  a2, a2, a3
    addi a0, a0, 4
    addi a1, a1, -1
    j    next
done:
";

const GCD: &str = "# The greatest common divisor of a0 and a1, in a0.
gcd:
    bnez a1, divide
    ret
divide:
    remu a5, a0, a1
    mv   a0, a1
    mv   a1, a5
    j    gcd
";

const COPY_WORDS: &str = "# Copies the a2 words from address a1 on to those from a0 on.
copy_words:
    beqz a2, copied
    slli a2, a2, 2
    add  a4, a1, a2
copy:
    lw   a5, (a1)
    addi a1, a1, 4
    addi a0, a0, 4
    sw   a5, -4(a0)
    bne  a1, a4, copy
copied:
    ret
";

const PUT_STRING: &str =
    "# Writes each byte of the string at a1, up to the 0 after it, to the port at a0.
put_string:
    lbu  a5, (a1)
    bnez a5, 1f
    ret
1:  addi a1, a1, 1
    sb   a5, (a0)
    j    put_string
";

/// A program, and what is seen of it.
struct Case {
    source: &'static str,
    /// The words that are wanted.
    words: &'static [u32],
    /// The words at 0x80.
    others: &'static [u32],
    /// x10, x11 and x12 before.
    registers: [u32; 3],
    /// How many steps it makes.
    steps: u64,
    /// A register after them, and its value.
    left: (usize, u32),
    /// The word at 0x80 after them.
    at_80: Option<u32>,
}

static CASES: [Case; 5] = [
    Case {
        source: THREE_WORDS,
        words: &[0x1234b137, 0xf387e1b7, 0x003100b3],
        others: &[],
        registers: [0, 0, 0],
        steps: 3,
        left: (1, 0x05bc_9000),
        at_80: None,
    },
    Case {
        source: SUM_LOOP,
        words: &[
            0x00000613, 0x00058c63, 0x00052683, 0x00d60633, 0x00450513, 0xfff58593, 0xfedff06f,
        ],
        others: &[5, 7, 0xffff_ffff],
        registers: [0x80, 3, 0],
        steps: 20,
        left: (12, 11),
        at_80: Some(5),
    },
    Case {
        source: GCD,
        words: &[
            0x00059463, 0x00008067, 0x02b577b3, 0x00058513, 0x00078593, 0xfedff06f,
        ],
        others: &[],
        registers: [48, 36, 0],
        steps: 12,
        left: (10, 12),
        at_80: None,
    },
    Case {
        source: COPY_WORDS,
        words: &[
            0x02060063, 0x00261613, 0x00c58733, 0x0005a783, 0x00458593, 0x00450513, 0xfef52e23,
            0xfee598e3, 0x00008067,
        ],
        others: &[0, 0, 21, 22],
        registers: [0x80, 0x88, 2],
        steps: 14,
        left: (10, 0x88),
        at_80: Some(21),
    },
    Case {
        source: PUT_STRING,
        words: &[
            0x0005c783, 0x00079463, 0x00008067, 0x00158593, 0x00f50023, 0xfedff06f,
        ],
        others: &[0, 0x0063_6261],
        registers: [0x80, 0x84, 0],
        steps: 18,
        left: (15, 0),
        at_80: Some(0x63),
    },
];

/// A memory of the words of a program at 0, and of other words at 0x80.
fn memory_of(alloc: Global, words: &[u32], others: &[u32]) -> Result<VecMemory, AllocError> {
    let mut words = words.to_vec(alloc)?;
    words.resize(0x20, 0)?;
    words.extend_from_slice(others)?;
    Ok(VecMemory::new(words))
}

/// Runs a program to an exception of a fetch or of a word: how many steps it made, and its
/// registers. x1 is 0x7c, where a zero is.
fn run_over(memory: &mut VecMemory, registers: [u32; 3]) -> (u64, [u32; 32]) {
    let mut hart = HartState::new();
    hart.registers[1] = 0x7c;
    hart.registers[10..13].copy_from_slice(&registers);
    let mut executor = InstructionExecutor {
        mem: memory,
        hart_state: &mut hart,
    };
    let end = executor.run(1000);
    (end.steps, hart.registers)
}

/// Whether a program has its words, and its run leaves what it has to: the steps, the register, and
/// the word at 0x80.
fn is_right(alloc: Global, case: &Case) -> bool {
    let mut is_right = has_words(alloc, case.source, 0, case.words);
    let Ok(mut memory) = memory_of(alloc, case.words, case.others) else {
        return false;
    };
    let (steps, registers) = run_over(&mut memory, case.registers);
    let (shown, value) = case.left;
    is_right &= steps == case.steps;
    is_right &= registers.get(shown) == Some(&value);
    is_right &= memory.mem.get(0x20).copied() == case.at_80;
    is_right
}

#[test]
fn programs_are_assembled_and_run(rt: HostRuntime) {
    for (index, case) in CASES.iter().enumerate() {
        assert!(rt; is_right(rt.alloc(), case), "at {index}");
    }
}
