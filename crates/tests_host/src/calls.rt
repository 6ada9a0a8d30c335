//! A loop around `run` that serves the calls of a program: `write` of a buffer, and `exit`.
//! `docs/HOSTS.md` shows it.

use rrs_lib::instruction_executor::{InstructionException, InstructionExecutor};
use rrs_lib::memories::VecMemory;
use rrs_lib::{HartState, MemAccessSize, Memory};
use std::test::Fail;

/// What a call returns in x10 where it did nothing: less than 0, as Linux has it.
const BAD_ADDRESS: u32 = 0xffff_fff2;

const NO_SUCH_CALL: u32 = 0xffff_ffda;

/// Appends the bytes of the buffer that the program writes, and returns the answer of the call: the
/// length if all of them are mapped.
fn read_buffer<M: Memory>(
    executor: &mut InstructionExecutor<M>,
    bytes: &mut Vec<u8>,
) -> Result<u32, Fail> {
    let address = executor.hart_state.read_register(11);
    let length = executor.hart_state.read_register(12);
    for offset in 0..length {
        let next = address.wrapping_add(offset);
        match executor.mem.read_mem(next, MemAccessSize::Byte) {
            Some(byte) => bytes.push((byte & 0xff) as u8)?,
            None => return Ok(BAD_ADDRESS),
        }
    }
    Ok(length)
}

/// Serves the call that the program makes, and returns the status of an `exit`.
fn serve_call<M: Memory>(
    executor: &mut InstructionExecutor<M>,
    written: &mut Vec<u8>,
) -> Result<Option<u32>, Fail> {
    let answer = match executor.hart_state.read_register(17) {
        93 => return Ok(Some(executor.hart_state.read_register(10))),
        64 => read_buffer(executor, written)?,
        _ => NO_SUCH_CALL,
    };
    executor.hart_state.write_register(10, answer);
    Ok(None)
}

/// Runs a program up to its `exit`, and returns the status, or `None` where an exception or the
/// limit ended it. What it writes is appended.
fn run_calls<M: Memory>(
    executor: &mut InstructionExecutor<M>,
    limit: u64,
    written: &mut Vec<u8>,
) -> Result<Option<u32>, Fail> {
    for _ in 0..limit {
        let Some(InstructionException::EnvironmentCall(pc)) = executor.run(limit).exception else {
            return Ok(None);
        };
        let status = serve_call(executor, written)?;
        if status.is_some() {
            return Ok(status);
        }
        executor.hart_state.pc = pc.wrapping_add(4);
    }
    Ok(None)
}

/// A program that writes a text of three bytes, and exits with 7.
static WORDS: [u32; 9] = [
    0x0400_0893, // addi x17, x0, 64
    0x0200_0593, // addi x11, x0, 32
    0x0030_0613, // addi x12, x0, 3
    0x0000_0073, // ecall
    0x05d0_0893, // addi x17, x0, 93
    0x0070_0513, // addi x10, x0, 7
    0x0000_0073, // ecall
    0,
    0x000a_6b6f, // "ok\n"
];

#[test]
fn a_buffer_is_read(rt: HostRuntime) -> Result<(), Fail> {
    let mut memory = VecMemory::new(WORDS.to_vec(rt.alloc())?);
    let mut executor = InstructionExecutor {
        mem: &mut memory,
        hart_state: &mut HartState::new(),
    };
    let mut written = Vec::new(rt.alloc());
    let status = run_calls(&mut executor, 100, &mut written)?;
    assert!(rt; status == Some(7) && written.as_slice() == b"ok\n".as_slice());
    Ok(())
}
