//! Pseudo-random numbers: those of SplitMix64.

ghost use Rattle.std.specs.Prelude.{◌≡◌, ℕ, List};
ghost use Rattle.rrs_fast.specs.Serving.{MakesSome};
ghost use Rattle.rrs_linux.specs.Giving.{GivesText};
ghost use Rattle.rrs_linux.specs.Random.{next_state, number_of, random_bytes, state_after};

use crate::buffers::give_bytes;
use rrs_lib::Memory;

/// What the state grows by from one number to the next, modulo 2^64.
const STEP: u64 = 0x9e37_79b9_7f4a_7c15;

/// How many numbers a call takes.
const NUMBERS: usize = 32;

/// Gives the bytes of the next 32 pseudo-random numbers to a buffer in memory, as many as were
/// asked for, and the answer of the call. `state` becomes that after these numbers.
pub fn give_random<M: Memory>(state: &mut u64, memory: &mut M, address: u32, count: u32) -> u32
    ensures given { (dropped : List ℕ) × MakesSome M.reads M.writes
        (GivesText (M.writable memory.old) (M.bytes memory.old) (M.bytes memory.new) address count
        (random_bytes state.old 32) dropped result)
        memory.old memory.new }
    ensures moved_on { state.new ≡ state_after state.old 32 }
    ensures writable_kept { M.writable memory.new ≡ M.writable memory.old }
    ensures layout_kept { M.layout memory.new ≡ M.layout memory.old }
{
    let bytes = next_bytes(state);
    let (_given, answer) = give_bytes(&bytes, memory, address, count);
    answer
}

/// The bytes of the next 32 pseudo-random numbers. `state` becomes that after these.
fn next_bytes(state: &mut u64) -> [u8; 8 * NUMBERS]
    ensures bytes { result ≡ random_bytes state.old 32 }
    ensures moved_on { state.new ≡ state_after state.old 32 }
{
    let mut bytes = [0; 8 * NUMBERS];
    for index in 0..NUMBERS {
        let number = next_number(state);
        bytes[8 * index..8 * index + 8].copy_from_slice(&number.to_le_bytes());
    }
    bytes
}

/// The next pseudo-random number. `state` becomes that after it.
fn next_number(state: &mut u64) -> u64
    ensures number { result ≡ number_of state.new }
    ensures moved_on { state.new ≡ next_state state.old }
{
    *state = state.wrapping_add(STEP);
    let mut number = *state;
    number = (number ^ (number >> 30)).wrapping_mul(0xbf58_476d_1ce4_e5b9);
    number = (number ^ (number >> 27)).wrapping_mul(0x94d0_49bb_1331_11eb);
    number ^ (number >> 31)
}
