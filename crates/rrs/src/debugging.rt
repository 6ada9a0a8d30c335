//! `rrs gdb`: a program under gdb, which speaks by standard input and standard output.

use crate::board_debugging::debug_board;
use rrs_cli::loading::load;
use rrs_exec::{
    DECODED_WORDS, Image, LoadedProcess, ProcessMemory, ProtectedMemory, load_process, started,
};
use rrs_fast::{CachedMemory, Ending, OwnCache};
use rrs_gdb::{Link, LinkError, SessionEnd, SessionState, Settings, serve};
use rrs_lib::instruction_executor::InstructionExecutor;
use rrs_lib::{HartState, Memory};
use rrs_linux::{Heap, OutputRecorder};
use rrs_run_commands::debugger::Debugger;
use rrs_run_commands::executables::{hart_for, memory_for};
use rrs_run_commands::execution::{HEAP_END, HEAP_START};
use rrs_run_commands::files::{Noting, STANDARD_OUTPUT, read_program};
use rrs_run_commands::options::Task;
use rrs_run_commands::refusal::{Refusal, named, no_image, out_of_memory, unloaded};
use rrs_run_commands::requests::Request;
use rrs_run_commands::variables::variables_of;
use std::alloc::Global;
use std::env;
use std::io::{BufReader, Read, Write};
use std::rt::{Env, Files};

/// The most bytes of output that a call makes.
const OUTPUT_BYTES: usize = 1 << 16;
/// The number of words of the memory of a raw program.
const WORDS: usize = 262_144;
/// The address after that memory, where sp starts.
const MEMORY_END: u32 = 0x0010_0000;

/// The refusal that an error of the streams is.
pub(crate) fn refused<'a>(error: LinkError) -> Refusal<'a> {
    match error {
        LinkError::OutOfMemory => out_of_memory(),
        LinkError::Output => Refusal::Output,
    }
}

/// A program that is debugged: its file, how it is asked for, and its input.
#[derive(Drop)]
struct Program<'f, 'a> {
    /// The bytes of the file.
    file: &'f [u8],
    /// How it is asked for.
    request: Request<'a>,
    /// Its input.
    input: &'f [u8],
}

/// Serves gdb's packets for a program that starts, with a hart and a memory.
fn debug_from<'f, 'a, M: Memory, R: Read, W: Write, const N: usize>(
    alloc: Global,
    state: &mut SessionState<'f>,
    link: &mut Link<R, W>,
    memory: &mut CachedMemory<M, N>,
    hart: &mut HartState,
    heap: Heap,
    input: &'f [u8],
) -> Result<SessionEnd, Refusal<'a>> {
    let Ok(mut environment) = OutputRecorder::new(alloc, input, OUTPUT_BYTES, heap) else {
        return Err(out_of_memory());
    };
    let mut executor = InstructionExecutor {
        mem: memory,
        hart_state: hart,
    };
    match serve(&mut OwnCache, state, &mut executor, &mut environment, link) {
        Ok(end) => Ok(end),
        Err(error) => Err(refused(error)),
    }
}

/// Starts a raw program, and serves gdb's packets for it.
fn debug_raw<'f, 'a, R: Read, W: Write>(
    alloc: Global,
    program: &Program<'f, 'a>,
    state: &mut SessionState<'f>,
    link: &mut Link<R, W>,
) -> Result<SessionEnd, Refusal<'a>> {
    let mut reader = program.file;
    let memory = match load(alloc, WORDS, &mut reader) {
        Ok(memory) => memory,
        Err(fault) => return Err(unloaded(program.request.path(), fault)),
    };
    let mut cached: CachedMemory<_, DECODED_WORDS> = CachedMemory::new(memory);
    let mut hart = HartState::new();
    hart.registers[2] = MEMORY_END;
    let heap = Heap::new(HEAP_START, HEAP_END);
    debug_from(
        alloc,
        state,
        link,
        &mut cached,
        &mut hart,
        heap,
        program.input,
    )
}

/// The words of a program: its path, and its arguments.
fn words_of<'a>(
    alloc: Global,
    request: &Request<'a>,
    state: &SessionState<'_>,
) -> Result<Vec<String>, Refusal<'a>> {
    let mut words = Vec::new(alloc);
    let given = if state.has_arguments {
        state.arguments.as_slice()
    } else {
        match request.words {
            [_, arguments @ ..] => arguments,
            [] => &[],
        }
    };
    for word in request.words.iter().take(1).chain(given.iter()) {
        let Ok(copy) = word.clone() else {
            return Err(out_of_memory());
        };
        if words.push(copy).is_err() {
            return Err(out_of_memory());
        }
    }
    Ok(words)
}

/// Starts an executable, and serves gdb's packets for it.
fn debug_executable<'f, 'a, R: Read, W: Write>(
    alloc: Global,
    program: &Program<'f, 'a>,
    state: &mut SessionState<'f>,
    link: &mut Link<R, W>,
) -> Result<SessionEnd, Refusal<'a>> {
    let path = program.request.path();
    let arguments = words_of(alloc, &program.request, state)?;
    let Ok(variables) = variables_of(alloc, program.request) else {
        return Err(out_of_memory());
    };
    let memory = memory_for(program.file, program.request.memory);
    state.profile = hart_for(program.file, program.request);
    let loaded = load_process(
        alloc,
        program.file,
        &arguments,
        &variables,
        memory,
        state.profile,
    );
    let LoadedProcess { image, memory } = match loaded {
        Ok(process) => process,
        Err(error) => return Err(no_image(path, program.file, error)),
    };
    debug_image(alloc, image, memory, program.input, state, link)
}

/// Serves gdb's packets for a process whose memory is filled.
fn debug_image<'f, 'a, R: Read, W: Write>(
    alloc: Global,
    image: Image,
    memory: ProcessMemory,
    input: &'f [u8],
    state: &mut SessionState<'f>,
    link: &mut Link<R, W>,
) -> Result<SessionEnd, Refusal<'a>> {
    let Image {
        layout,
        entry,
        stack_pointer,
        stack: _,
        marks,
    } = image;
    let mut hart = started(entry, stack_pointer);
    let heap = Heap::new(layout.heap_start, layout.heap_end);
    let protected = ProtectedMemory { memory, marks };
    let mut cached: CachedMemory<_, DECODED_WORDS> = CachedMemory::new(protected);
    debug_from(alloc, state, link, &mut cached, &mut hart, heap, input)
}

/// Serves gdb's packets for a program, which begins again where gdb asks for that.
fn debug_program<'f, 'a, R: Read, W: Write>(
    alloc: Global,
    program: &Program<'f, 'a>,
    state: &mut SessionState<'f>,
    link: &mut Link<R, W>,
) -> Result<(), Refusal<'a>> {
    for _ in 0..u64::MAX {
        let end = if program.request.is_raw {
            debug_raw(alloc, program, state, link)?
        } else {
            debug_executable(alloc, program, state, link)?
        };
        if end == SessionEnd::Ended {
            return Ok(());
        }
        state.begin_again();
    }
    Ok(())
}

/// The bytes of a file, or none where there is no path.
pub(crate) fn input_of<'a, H: Files + AllocGlobal>(
    rt: &H,
    path: Option<&'a str>,
) -> Result<Vec<u8>, Refusal<'a>> {
    match path {
        Some(path) => read_program(rt, path),
        None => Ok(Vec::new(rt.alloc())),
    }
}

/// The absolute path of a file, as gdb wants it.
fn absolute<'a, H: Env + AllocGlobal>(rt: &H, path: &'a str) -> Result<String, Refusal<'a>> {
    let directory = if path.as_bytes().first().copied() == Some(b'/') {
        String::new(rt.alloc())
    } else {
        directory_of(rt)?
    };
    let joined = format!(in rt.alloc(); "{directory}{path}");
    match joined {
        Ok(path) => Ok(path),
        Err(_) => Err(out_of_memory()),
    }
}

/// The present directory, with a slash after it; nothing where it can't be told.
fn directory_of<'a, H: Env + AllocGlobal>(rt: &H) -> Result<String, Refusal<'a>> {
    let Ok(directory) = env::current_dir(rt) else {
        return Ok(String::new(rt.alloc()));
    };
    let joined = format!(in rt.alloc(); "{}/", directory.display());
    match joined {
        Ok(path) => Ok(path),
        Err(_) => Err(out_of_memory()),
    }
}

/// Debugs a program whose file and whose input were read: gdb's packets come from `packets`, and go
/// to `output`.
fn debug_file<'a, R: Read, W: Write>(
    alloc: Global,
    request: Request<'a>,
    file: &[u8],
    input: &[u8],
    path: &[u8],
    packets: &mut R,
    output: &mut W,
) -> Result<Ending, Refusal<'a>> {
    let program = Program {
        file,
        request,
        input,
    };
    let Ok(mut state) = SessionState::new(alloc, Settings::new(), path, input) else {
        return Err(out_of_memory());
    };
    let Ok(mut buffered) = BufReader::new(alloc, &mut *packets) else {
        return Err(out_of_memory());
    };
    let mut link = Link::new(alloc, &mut buffered, &mut *output);
    debug_program(alloc, &program, &mut state, &mut link)?;
    Ok(Ending::Exit(0))
}

/// `rrs gdb`: a program by `debug_process`, and firmware by `debug_board`.
#[derive(Clone, Copy, Debug)]
pub struct Gdb;

impl Debugger for Gdb {
    fn debug<'a, H: Env + Files + AllocGlobal, R: Read, W: Write>(
        &self,
        rt: &H,
        task: Task,
        request: Request<'a>,
        input: &mut R,
        output: &mut W,
    ) -> Result<Ending, Refusal<'a>> {
        let mut output = Noting::new(output);
        let ended = match task {
            Task::DebugBoard => debug_board(rt, request, input, &mut output),
            _ => debug_process(rt, request, input, &mut output),
        };
        named(ended, STANDARD_OUTPUT, output.fault)
    }
}

/// Debugs a program as a request says: gdb's packets come from `input`, and go to `output`.
///
/// # Errors
///
/// Those of `read_program`; `Refusal::File` where it is no executable that can be run;
/// `Refusal::Output` where a write fails; out of memory as a failure.
pub fn debug_process<'a, H: Env + Files + AllocGlobal, R: Read, W: Write>(
    rt: &H,
    request: Request<'a>,
    input: &mut R,
    output: &mut W,
) -> Result<Ending, Refusal<'a>> {
    let file = read_program(rt, request.path())?;
    let given = input_of(rt, request.input)?;
    let path = absolute(rt, request.path())?;
    debug_file(
        rt.alloc(),
        request,
        &file,
        &given,
        path.as_bytes(),
        input,
        output,
    )
}
