//! Runs of executables as processes of Linux.
//!
//! What a program finds where it starts: a memory whose pages are mapped, read-only or writable,
//! and a stack with its arguments and environment variables. [ProcessMemory] is 0 until it is
//! written, and takes no memory of the host until then. [ProtectedMemory] is one under marks, one a
//! page. [initial_stack] makes the block of bytes that lies at the stack pointer, and
//! [stack_pointer] says where that is. [image_of] puts these together for an executable. What they
//! are is written in `specs/Protection.antt`, `specs/InitialStack.antt`, `specs/Layouts.antt` and
//! `specs/Images.antt`.
//!
//! [load_process] makes a process of the bytes of an ELF file: its image, and its memory.
//! [execute_process] runs it and serves its system calls. What that is, is written in
//! `specs/Processes.antt`: a run of a hart with a profile, of which [process_profile] is the usual
//! one. [watch_process] runs a process so too, and shows each step to a [Watcher], as
//! `specs/Watching.antt` says. Both tell a [Progress] of the steps, of which their contracts say
//! nothing, and that of [InPieces] all.

#![tactic(auto)]

mod image;
mod layout;
mod marks;
mod process;
mod process_memory;
mod progress;
mod protected;
mod stack;
mod watching;

pub use image::{Image, ImageError, image_of, needed_memory};
pub use layout::{Layout, layout_of};
pub use marks::{PAGE_BYTES, PageRange, Protection, marks_of};
pub use process::{
    DECODED_WORDS, KeptMemory, LoadedProcess, ProcessEnd, WATCHED_WORDS, execute_process,
    load_process, process_profile, profile_for, serve_image, started,
};
pub use process_memory::ProcessMemory;
pub use progress::{InPieces, NoProgress, Progress};
pub use protected::ProtectedMemory;
pub use stack::{ProgramHeaders, initial_stack, stack_pointer};
pub use watching::{Watcher, watch_process};
