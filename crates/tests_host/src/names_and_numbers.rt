//! `getrandom` and `uname` on chosen buffers.

use crate::machines::streams_of;
use crate::system_calls::{Answered, EFAULT, EINVAL, numbered, serve};
use rrs_lib::memories::VecMemory;
use rrs_lib::{MemAccessSize, Memory};
use rrs_linux::{Linux, LinuxClocks, StoppedClocks};
use std::alloc::Global;
use std::test::Fail;

/// The numbers of `uname` and `getrandom`.
const UNAME: u32 = 160;

const GETRANDOM: u32 = 278;

/// The seed whose first five numbers are published.
const SEED: u64 = 1_234_567;

/// The first five numbers of SplitMix64 from the seed, as they are published: 6457827717110365317,
/// 3203168211198807973, 9817491932198370423, 4593380528125082431 and 16408922859458223821. The low
/// half of each stands before the high one.
const NUMBERS: [u32; 10] = [
    0xfb08_fc85,
    0x599e_d017,
    0x5854_0fa5,
    0x2c73_f084,
    0xa3f2_7c77,
    0x883e_bce5,
    0xe917_7b3f,
    0x3fbe_f740,
    0x08cb_5ecd,
    0xe3b8_3467,
];

/// What the state grows by with each call that takes numbers, modulo 2^64: 32 steps of the generator.
const CALL: u64 = 0xc6ef_372f_e94f_82a0;

/// Streams, with no heap.
type Streams<'a> = Linux<&'a [u8], Vec<u8>, Vec<u8>>;

/// Streams that read nothing, of which the pseudo-random numbers have this state.
fn environment<'a>(alloc: Global, random: u64) -> Streams<'a> {
    let clocks = LinuxClocks::Stopped(StoppedClocks::ZERO);
    let mut linux = streams_of(alloc, &[], clocks);
    linux.random = random;
    linux
}

/// Serves a call with its number and three arguments.
fn call(linux: &mut Streams<'_>, memory: &mut VecMemory, request: [u32; 4]) -> Answered {
    let [number, first, second, third] = request;
    serve(linux, memory, [number, first, second, third, 0, 0])
}

// The first numbers are those that are published, and what is behind their bytes stays.
#[test]
fn numbers_are_those_published(rt: HostRuntime) -> Result<(), Fail> {
    let mut linux = environment(rt.alloc(), SEED);
    let mut memory = numbered(rt.alloc())?;
    let behind = memory.mem.get(10).copied();
    let seen = call(&mut linux, &mut memory, [GETRANDOM, 0, 40, 0]);
    let is_given = memory.mem.get(..10) == Some(NUMBERS.as_slice());
    assert!(rt; seen == (None, 40) && is_given && memory.mem.get(10).copied() == behind);
    Ok(())
}

/// Calls one after the other, each with its answer, with how many so far took numbers, and with two
/// words of the memory after it: the one at an index, and the next.
///
/// The memory has 300 bytes. The first byte of the second call is that of number 33, and the last
/// word of the third that of number 96.
static GIVEN: [([u32; 3], u32, u64, usize, [u32; 2]); 16] = [
    ([0, 5, 0], 5, 1, 0, [0xfb08_fc85, 0x0706_0517]),
    ([0, 5, 1], 5, 2, 0, [0x0250_72df, 0x0706_051b]),
    ([4, 300, 0], 256, 3, 64, [0xdffd_9bc0, 0x0706_0504]),
    ([20, 256, 0], 256, 4, 68, [0x202d_321e, 0x1716_1514]),
    ([0, 0x7fff_ffff, 2], 256, 5, 63, [0xdc05_1cc9, 0xf16d_2efd]),
    ([0, 0, 4], 0, 6, 0, [0xeb33_978c, 0x5b54_0fc0]),
    ([296, 10, 0], 4, 7, 73, [0x2726_2524, 0x007a_c427]),
    ([300, 1, 0], EFAULT, 8, 73, [0x2726_2524, 0x007a_c427]),
    (
        [0xffff_fff0, 17, 0],
        EFAULT,
        9,
        73,
        [0x2726_2524, 0x007a_c427],
    ),
    ([0, 1, 6], EINVAL, 9, 0, [0xeb33_978c, 0x5b54_0fc0]),
    ([0, 1, 7], EINVAL, 9, 0, [0xeb33_978c, 0x5b54_0fc0]),
    ([0, 1, 8], EINVAL, 9, 0, [0xeb33_978c, 0x5b54_0fc0]),
    ([300, 1, 9], EINVAL, 9, 0, [0xeb33_978c, 0x5b54_0fc0]),
    ([0, 1, u32::MAX], EINVAL, 9, 0, [0xeb33_978c, 0x5b54_0fc0]),
    ([0, 1, 3], 1, 10, 0, [0xeb33_976d, 0x5b54_0fc0]),
    ([0, 1, 5], 1, 11, 0, [0xeb33_971d, 0x5b54_0fc0]),
];

// Each call goes on with the next numbers, and gives as many bytes as were asked for, 256 at most.
#[test]
fn bytes_are_given(rt: HostRuntime) -> Result<(), Fail> {
    let mut linux = environment(rt.alloc(), SEED);
    let mut memory = numbered(rt.alloc())?;
    for (row, &([address, count, flags], answer, calls, index, expected)) in GIVEN
        .iter()
        .enumerate()
    {
        let seen = call(&mut linux, &mut memory, [GETRANDOM, address, count, flags]);
        let words = memory.mem.get(index..index.saturating_add(2));
        let is_given = seen == (None, answer) && words == Some(expected.as_slice());
        let state = SEED.wrapping_add(CALL.wrapping_mul(calls));
        assert!(rt; is_given && linux.random == state, "call {row}");
    }
    Ok(())
}

/// The names of the system, each in a field of 65 bytes.
const NAMES: [&[u8]; 6] = [b"Linux", b"rrs", b"6.1.0", b"#1", b"riscv32", b"(none)"];

/// Whether the bytes from an address on are the names, and what is beside them is as it was.
fn has_names(memory: &mut VecMemory, address: u32) -> bool {
    let mut at = address;
    for name in NAMES {
        for index in 0..65 {
            let byte = name.get(index).copied().unwrap_or(0);
            if memory.read_mem(at, MemAccessSize::Byte) != Some(u32::from(byte)) {
                return false;
            }
            at = at.wrapping_add(1);
        }
    }
    let before = memory.read_mem(address.wrapping_sub(1), MemAccessSize::Byte);
    before == Some(0xff) && memory.read_mem(at, MemAccessSize::Byte) == Some(0xff)
}

// The names are put whole, or up to a byte that is not writable.
#[test]
fn names_are_put(rt: HostRuntime) -> Result<(), Fail> {
    let mut linux = environment(rt.alloc(), 0);
    let mut memory = VecMemory::new(vec![in rt.alloc(); 0xffff_ffff; 100]?);
    let seen = call(&mut linux, &mut memory, [UNAME, 9, 0, 0]);
    assert!(rt; seen == (None, 0) && has_names(&mut memory, 9));
    for address in [11, 400, 0xffff_fff0] {
        let seen = call(&mut linux, &mut memory, [UNAME, address, 0, 0]);
        assert!(rt; seen == (None, EFAULT), "at {address}");
    }
    assert!(rt; linux.random == 0 && linux.unserved.is_empty());
    Ok(())
}
