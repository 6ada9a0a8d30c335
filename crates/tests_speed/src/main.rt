//! Ways to run a program, of which `docs/development/speed/measure.py` counts what a step takes.
//!
//! usage: tests_speed WAY FILE LIMIT PIECE
//!
//! It puts the bytes of FILE at address 0 of 64 KiB, and makes steps from there to a fault or the
//! limit, by calls of PIECE steps each. It prints the steps and x10. With no words it makes 1,000
//! steps of a program of its own each way, which has to end alike.

#![tactic(auto)]

mod ways;

use crate::ways::{Aligned, Decoding, Kept, Plain, Recording, Retiring, Stopping, Way, in_pieces};
use rrs_fast::CachedMemory;
use rrs_history::History;
use rrs_lib::HartState;
use rrs_lib::memories::{MemorySpace, VecMemory, read_to_memory};
use std::alloc::Global;
use std::fs;
use std::io::Read;
use std::process::ExitCode;
use std::rt::{Env, Files};

/// The number of words of the memory.
const WORDS: usize = 16_384;

/// How many decoded words there is room for.
const DECODED_WORDS: usize = 16_384;

/// The names of the ways.
const NAMES: [&str; 10] = [
    "step", "retired", "recorded", "cached", "decoding", "until", "until64", "aligned", "before",
    "space",
];

/// A program of its own: it adds up, stores and loads, and changes its first word in each turn.
const OWN: [u8; 24] = [
    0x13, 0x05, 0x15, 0x00, // addi x10, x10, 1
    0x83, 0x22, 0x00, 0x00, // lw x5, 0(x0)
    0x93, 0xc2, 0x02, 0x40, // xori x5, x5, 0x400
    0x93, 0x92, 0x02, 0x00, // slli x5, x5, 0
    0x23, 0x20, 0x50, 0x00, // sw x5, 0(x0)
    0x6f, 0xf0, 0xdf, 0xfe, // jal x0, -20
];

fn main(rt: HostRuntime) -> ExitCode {
    match perform(&rt) {
        Some(()) => ExitCode::SUCCESS,
        None => ExitCode::from(1),
    }
}

/// Does what the words ask for.
fn perform<H: Env + Files + Print + AllocGlobal>(rt: &H) -> Option<()> {
    let mut words = std::env::args(rt).ok()?;
    let _own = words.next()?;
    let Some(way) = words.next() else {
        return perform_own(rt);
    };
    let (path, limit, piece) = (words.next()?, words.next()?, words.next()?);
    let limit = limit.as_str().parse::<u64>().ok()?;
    let piece = piece.as_str().parse::<u64>().ok()?;
    let mut file = fs::open(rt, path.as_str()).ok()?;
    report(rt, way.as_str(), &mut file, limit, piece)
}

/// Makes steps of the program of its own each way.
fn perform_own<H: Print + AllocGlobal>(rt: &H) -> Option<()> {
    for name in NAMES.iter() {
        report(rt, name, &mut OWN.as_slice(), 1000, 300)?;
    }
    Some(())
}

/// Runs a program one way, and prints how it ended.
fn report<H: Print + AllocGlobal, R: Read>(
    rt: &H,
    way: &str,
    program: &mut R,
    limit: u64,
    piece: u64,
) -> Option<()> {
    let mut hart = HartState::new();
    let steps = run(rt.alloc(), way, program, &mut hart, limit, piece)?;
    let sum = hart.registers[10];
    rt.println(format_args!("{way}: steps {steps} x10 0x{sum:08x}"))
        .ok()
}

/// A memory with a program.
fn memory_with<R: Read>(alloc: Global, program: &mut R) -> Option<VecMemory> {
    let zeros = vec![in alloc; 0; WORDS].ok()?;
    let mut memory = VecMemory::new(zeros);
    read_to_memory(program, &mut memory, 0).ok()?;
    Some(memory)
}

/// So many stops that no program comes to.
fn stops(alloc: Global, count: u32) -> Option<Vec<u32>> {
    let mut stops = Vec::new(alloc);
    for place in 0..count {
        stops.push(0xfffc_u32.wrapping_sub(place)).ok()?;
    }
    Some(stops)
}

/// Makes steps of a program one way, and gives how many.
fn run<R: Read>(
    alloc: Global,
    way: &str,
    program: &mut R,
    hart: &mut HartState,
    limit: u64,
    piece: u64,
) -> Option<u64> {
    let mut memory = memory_with(alloc, program)?;
    match way {
        "step" => Some(in_pieces(&mut Plain, &mut memory, hart, limit, piece)),
        "retired" => {
            let mut retiring = Retiring { sum: 0 };
            let made = in_pieces(&mut retiring, &mut memory, hart, limit, piece);
            hart.registers[9] = retiring.sum;
            Some(made)
        }
        "recorded" => {
            let history = History::new(alloc, 4096).ok()?;
            let mut recording = Recording { history };
            Some(in_pieces(&mut recording, &mut memory, hart, limit, piece))
        }
        "decoding" => {
            let mut decoding = Decoding::new();
            Some(in_pieces(&mut decoding, &mut memory, hart, limit, piece))
        }
        "space" => {
            let mut space = MemorySpace::new(alloc);
            space.add_memory(0, 0x1_0000, memory).ok()?;
            let mut cached: CachedMemory<_, DECODED_WORDS> = CachedMemory::new(space);
            Some(in_pieces(&mut Kept, &mut cached, hart, limit, piece))
        }
        "cached" => kept(&mut Kept, memory, hart, limit, piece),
        "aligned" => kept(&mut Aligned, memory, hart, limit, piece),
        _ => run_to_stops(alloc, way, memory, hart, limit, piece),
    }
}

/// Makes steps of a program to stops one way, and gives how many.
fn run_to_stops(
    alloc: Global,
    way: &str,
    memory: VecMemory,
    hart: &mut HartState,
    limit: u64,
    piece: u64,
) -> Option<u64> {
    let (count, is_before) = match way {
        "until" => (4, false),
        "until64" => (64, false),
        "before" => (4, true),
        _ => return None,
    };
    let stops = stops(alloc, count)?;
    let mut stopping = Stopping {
        stops: &stops,
        is_before,
    };
    kept(&mut stopping, memory, hart, limit, piece)
}

/// Makes steps over a memory that keeps its decoded words.
fn kept<W: Way<CachedMemory<VecMemory, DECODED_WORDS>>>(
    way: &mut W,
    memory: VecMemory,
    hart: &mut HartState,
    limit: u64,
    piece: u64,
) -> Option<u64> {
    let mut cached: CachedMemory<VecMemory, DECODED_WORDS> = CachedMemory::new(memory);
    Some(in_pieces(way, &mut cached, hart, limit, piece))
}
