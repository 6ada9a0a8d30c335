//! The stack of a process that starts, with words and bytes that were counted by hand from the
//! System V ABI, "Process Initialization".

use rrs_exec::{
    Image, ImageError, LoadedProcess, ProgramHeaders, ProtectedMemory, initial_stack, load_process,
    process_profile, stack_pointer, started,
};
use rrs_fast::{DecodeCache, Ending, ServedEnd, run_served};
use rrs_lib::instruction_executor::InstructionExecutor;
use rrs_lib::{MemAccessSize, Memory};
use rrs_linux::{Heap, Linux, LinuxClocks, StoppedClocks};
use std::alloc::{AllocError, Global};
use std::test::Fail;

/// What the processes here are told of their files.
const HEADERS: ProgramHeaders = ProgramHeaders {
    address: 0x1_0034,
    count: 2,
    entry: 0x1_0074,
};

/// Texts as a program has them.
fn texts_of(alloc: Global, texts: &[&str]) -> Result<Vec<String>, AllocError> {
    let mut copies = Vec::new(alloc);
    for text in texts {
        let mut copy = String::new(alloc);
        copy.push_str(text)?;
        copies.push(copy)?;
    }
    Ok(copies)
}

/// Words as bytes, and more bytes behind them.
fn block_of(alloc: Global, words: &[u32], behind: &[u8]) -> Result<Vec<u8>, AllocError> {
    let mut block = Vec::new(alloc);
    for word in words {
        block.extend_from_slice(&u32::to_le_bytes(*word))?;
    }
    block.extend_from_slice(behind)?;
    Ok(block)
}

#[test]
fn arguments_and_variables_lie_on_the_stack(rt: HostRuntime) -> Result<(), Fail> {
    let alloc = rt.alloc();
    let arguments = texts_of(alloc, &["prog", "x"])?;
    let variables = texts_of(alloc, &["A=1", "", "HOME=/r"])?;
    // 22 words, 16 bytes, and strings of 7 and of 13 bytes
    assert!(rt; stack_pointer(0x1_0000, &arguments, &variables) == Some(0xff80));
    let block = initial_stack(alloc, &arguments, &variables, HEADERS, 0xff80)?;
    let words = [
        2, 0xffe8, 0xffed, 0, 0xffef, 0xfff3, 0xfff4, 0, 3, 0x1_0034, 4, 32, 5, 2, 6, 4096, 9,
        0x1_0074, 25, 0xffd8, 0, 0,
    ];
    let behind = b"\0\0\0\0\0\0\0\0\0\0\0\0\0\0\0\0prog\0x\0A=1\0\0HOME=/r\0";
    let wanted = block_of(alloc, &words, behind)?;
    assert_eq!(rt; block.as_slice(), wanted.as_slice());
    Ok(())
}

#[test]
fn either_may_be_missing(rt: HostRuntime) -> Result<(), Fail> {
    let alloc = rt.alloc();
    let none = texts_of(alloc, &[])?;
    let one = texts_of(alloc, &["p"])?;
    for (arguments, variables, first, strings) in [
        (
            none.as_slice(),
            none.as_slice(),
            [0, 0, 0, 3],
            b"".as_slice(),
        ),
        (
            one.as_slice(),
            none.as_slice(),
            [1, 0xff8, 0, 0],
            b"p\0".as_slice(),
        ),
        (
            none.as_slice(),
            one.as_slice(),
            [0, 0, 0xff8, 0],
            b"p\0".as_slice(),
        ),
    ] {
        assert!(rt; stack_pointer(0x1000, arguments, variables) == Some(0xfa0));
        let block = initial_stack(alloc, arguments, variables, HEADERS, 0xfa0)?;
        let wanted = block_of(alloc, &first, b"")?;
        assert!(rt; block.starts_with(&wanted));
        assert!(rt; block.ends_with(strings));
    }
    Ok(())
}

#[test]
fn what_does_not_fit_has_no_place(rt: HostRuntime) -> Result<(), Fail> {
    let alloc = rt.alloc();
    let arguments = texts_of(alloc, &["prog", "x"])?;
    let variables = texts_of(alloc, &["A=1", "", "HOME=/r"])?;
    // 124 bytes
    assert!(rt; stack_pointer(124, &arguments, &variables) == Some(0));
    assert!(rt; stack_pointer(123, &arguments, &variables).is_none());
    assert!(rt; stack_pointer(0, &[], &[]).is_none());
    Ok(())
}

/// An executable of one page at 0x10000. Where it has one argument, it writes seven bytes of its
/// second variable, and its status is the number of its arguments.
fn executable(alloc: Global) -> Result<Vec<u8>, AllocError> {
    let mut file = b"\x7fELF\x01\x01\x01\0\0\0\0\0\0\0\0\0\x02\0\xf3\0".to_vec(alloc)?;
    for word in [
        1, // e_version
        0x1_0000, // e_entry
        52, // e_phoff
        0, // e_shoff
        0, // e_flags
        0x0020_0034, // e_ehsize, e_phentsize
        0x0028_0001, // e_phnum, e_shentsize
        0, // e_shnum, e_shstrndx
        1, // p_type
        84, // p_offset
        0x1_0000, // p_vaddr
        0x1_0000, // p_paddr
        32, // p_filesz
        32, // p_memsz
        5, // p_flags
        4, // p_align
        0x0101_2583, // lw x11, 16(x2)
        0x0010_0513, // addi x10, x0, 1
        0x0070_0613, // addi x12, x0, 7
        0x0400_0893, // addi x17, x0, 64
        0x0000_0073, // ecall
        0x0001_2503, // lw x10, 0(x2)
        0x05d0_0893, // addi x17, x0, 93
        0x0000_0073, // ecall
    ] {
        file.extend_from_slice(&u32::to_le_bytes(word))?;
    }
    Ok(file)
}

/// Loads it with the argument `p` and a variable of so many bytes, in the least memory that it
/// takes: its page, and 1 MiB behind it, of which half is the stack, from 0x91000 to 0x111000.
fn load_with(alloc: Global, bytes: u32) -> Result<Result<LoadedProcess, ImageError>, AllocError> {
    let file = executable(alloc)?;
    let arguments = texts_of(alloc, &["p"])?;
    let mut variables = texts_of(alloc, &[])?;
    let mut variable = String::new(alloc);
    for _ in 0..bytes {
        variable.push_str("v")?;
    }
    variables.push(variable)?;
    let profile = process_profile(false);
    Ok(load_process(alloc, &file, &arguments, &variables, 0x10_1000, profile))
}

#[test]
fn variables_fill_the_stack_and_no_more(rt: HostRuntime) -> Result<(), Fail> {
    // 19 words, 16 bytes, `p` and its 0, and the variable and its 0 are 524,288 bytes
    let mut process = match load_with(rt.alloc(), 524_193)? {
        Ok(process) => process,
        Err(_) => return Err(Fail::from(AllocError)),
    };
    assert!(rt; process.image.stack_pointer == 0x9_1000);
    for (address, word) in [
        (0x9_1000, 1),
        (0x9_1004, 0x9_105c),
        (0x9_1008, 0),
        (0x9_100c, 0x9_105e),
        (0x9_1010, 0),
        (0x9_1014, 3),
        (0x11_0ffc, 0x0076_7676),
    ] {
        assert!(rt; process.memory.read_mem(address, MemAccessSize::Word) == Some(word));
    }
    for bytes in [524_194, 600_000] {
        let refused = load_with(rt.alloc(), bytes)?.err();
        assert!(rt; refused == Some(ImageError::LongArguments));
    }
    Ok(())
}

/// Runs a process that is loaded to its end, as `execute_process` does, with a smaller cache.
fn run_loaded(process: LoadedProcess, linux: &mut Linux<&[u8], Vec<u8>, Vec<u8>>) -> ServedEnd {
    let LoadedProcess { image, memory } = process;
    let Image {
        layout: _,
        entry,
        stack_pointer: sp,
        stack: _,
        marks,
    } = image;
    let mut hart = started(entry, sp);
    let mut protected = ProtectedMemory { memory, marks };
    let mut executor = InstructionExecutor {
        mem: &mut protected,
        hart_state: &mut hart,
    };
    run_served(&mut DecodeCache::new(), &mut executor, linux, 100)
}

#[test]
fn a_program_reads_its_variables(rt: HostRuntime) -> Result<(), Fail> {
    let alloc = rt.alloc();
    let file = executable(alloc)?;
    let arguments = texts_of(alloc, &["p"])?;
    let variables = texts_of(alloc, &["A=1", "HOME=/r", "Z="])?;
    let profile = process_profile(false);
    let process = match load_process(alloc, &file, &arguments, &variables, 0x10_1000, profile) {
        Ok(process) => process,
        Err(_) => return Err(Fail::from(AllocError)),
    };
    let mut linux = Linux::new(
        b"".as_slice(),
        Vec::new(alloc),
        Vec::new(alloc),
        Heap::new(0, 0),
        LinuxClocks::Stopped(StoppedClocks::ZERO),
        0,
    );
    let end = run_loaded(process, &mut linux);
    assert!(rt; end.ending == Ending::Exit(1) && end.steps == 8);
    let output: &[u8] = &linux.output.stream;
    assert!(rt; output == b"HOME=/r".as_slice());
    Ok(())
}
