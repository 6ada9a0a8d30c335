//! An environment as a user might write it: a console that takes a byte a call.

ghost use Rattle.std.specs.Prelude.{◌≡◌};
ghost use Rattle.tests_host.specs.Consoles.{Serves};

use rrs_fast::{DecodeCache, Ending, Environment, ServedEnd, run_served};
use rrs_lib::instruction_executor::InstructionExecutor;
use rrs_lib::memories::VecMemory;
use rrs_lib::{HartState, MemAccessSize, Memory};
use std::test::Fail;

/// What a call answers whose address is not mapped: -14.
const BAD_ADDRESS: u32 = 0xffff_fff2;
/// What a call answers that there is not: -38.
const NO_SUCH_CALL: u32 = 0xffff_ffda;

/// A console that shows the byte that was written last.
#[derive(Drop)]
struct Console {
    /// The byte that was written last, 0 to 255.
    last: u32,
}

impl Environment for Console {
    ghost serves = { λ old s new t accesses answer. Serves old.last s new.last t accesses answer };

    /// Serves `exit` (93) with the status in a0, and `write` (64) of one byte, the one at the
    /// address in a1. Each other call is answered as one that there is not.
    fn serve<M: Memory>(&mut self, executor: &mut InstructionExecutor<M>) -> Option<u32> {
        let call = executor.hart_state.read_register(17);
        if call == 93 {
            return Some(executor.hart_state.read_register(10));
        }
        if call == 64 {
            let address = executor.hart_state.read_register(11);
            match executor.mem.read_mem(address, MemAccessSize::Byte) {
                Some(byte) => {
                    self.last = byte;
                    executor.hart_state.write_register(10, 1);
                }
                None => executor.hart_state.write_register(10, BAD_ADDRESS),
            }
            return None;
        }
        executor.hart_state.write_register(10, NO_SUCH_CALL);
        None
    }
}

/// A program that writes the byte at 52, then one at an address that is not mapped, makes call 214,
/// and exits with 7. It puts the three answers into x8, x9 and x18.
static WORDS: [u32; 14] = [
    0x03400593, 0x04000893, 0x00000073, 0x00050413, 0xfff00593, 0x00000073, 0x00050493, 0x0d600893,
    0x00000073, 0x00050913, 0x00700513, 0x05d00893, 0x00000073, 0x48,
];

#[test]
fn a_console_serves_a_program(rt: HostRuntime) -> Result<(), Fail> {
    let mut memory = VecMemory::new(WORDS.to_vec(rt.alloc())?);
    let mut hart = HartState::new();
    let mut console = Console { last: 0 };
    let mut executor = InstructionExecutor {
        mem: &mut memory,
        hart_state: &mut hart,
    };
    let end = run_served(&mut DecodeCache::new(), &mut executor, &mut console, 100);
    let exit = ServedEnd {
        steps: 13,
        ending: Ending::Exit(7),
    };
    let answers = [hart.registers[8], hart.registers[9], hart.registers[18]];
    let is_answered = answers == [1, 0xffff_fff2, 0xffff_ffda];
    assert!(rt; end == exit && is_answered && console.last == 0x48);
    Ok(())
}
