//! What a process starts from: an executable's entry, its stack, and the marks of its pages.

ghost use Rattle.std.specs.Prelude.{◌≡◌, ◌≤◌, ◌<◌, ◌+◌, ◌%◌, ◌++◌, ◌∷◌, [], ℕ, List, map, string_bytes, IsOk, IfOk, IfErr, OnOk, MatchOption, Some, None, Err, length, true};
ghost use Rattle.rrs_elf.specs.Headers.{e_phnum, segment_start};
ghost use Rattle.rrs_elf.specs.Loading.{loaded_size, lies_between};
ghost use Rattle.rrs_elf.specs.ProgramHeaders.{IsProgramHeader};
ghost use Rattle.rrs_exec.specs.InitialStack.{stack_bytes, stack_pointer};
ghost use Rattle.rrs_exec.specs.Layouts.{IsLayout};
ghost use Rattle.rrs_exec.specs.Images.{AreLong, first_with, end_with, first_address, end_address, memory_refusal, refusal_between, IsOtherReason, IsImage, IsFillable, IsRefusal, Filled, headers_in, headers_of, protection_by, range_of, segment_range, segment_ranges, writable_range, ranges_of, needed_of};

use crate::layout::{Layout, has_room, layout_of, needed_bytes};
use crate::marks::{PAGE_BYTES, PageRange, Protection, marks_of};
use crate::stack::{ProgramHeaders, initial_stack, stack_pointer};
use rrs_elf::{ElfError, Executable, ProgramHeader};
use rrs_memory::Memory;
use rrs_memory::memories::{LoadFault, read_to_memory};
use std::alloc::{AllocError, Global};

/// Why an executable can't be made a process.
#[derive(Debug, PartialEq, Clone, Copy)]
pub enum ImageError {
    /// The file is no executable for this machine.
    Elf(ElfError),
    /// The program leaves less than 1 MiB of addresses after it for its heap and its stack.
    NoRoom,
    /// The program needs so many bytes of memory, and fewer are wanted: those of the pages from its
    /// first address to its last, and 1 MiB for its heap and its stack.
    NeedsMemory(u64),
    /// The arguments and the environment don't fit in the stack.
    LongArguments,
    /// The memory refused the byte for this address.
    Refused(u32),
    /// Out of memory.
    OutOfMemory,
}

/// What a process starts from.
#[derive(Drop)]
pub struct Image {
    /// Where its memory is.
    pub layout: Layout,
    /// The address of its first instruction.
    pub entry: u32,
    /// Where sp points to.
    pub stack_pointer: u32,
    /// The bytes from there on.
    pub stack: Vec<u8>,
    /// The marks of the pages from address 0 on.
    pub marks: Vec<Protection>,
}

/// The addresses of some segments and of another one, if that is loaded and has some: the first,
/// and the one after the last.
fn widened(segment: &ProgramHeader, bounds: (u32, u64)) -> (u32, u64)
    ensures first { (file : List ℕ) (i : ℕ) → IsProgramHeader file i segment.now
        → result.0 ≡ first_with file i bounds.0 }
    ensures end { (file : List ℕ) (i : ℕ) → IsProgramHeader file i segment.now
        → result.1 ≡ end_with file i bounds.1 }
{
    if segment.is_loaded() && segment.memory_size > 0 {
        (bounds.0.min(segment.address), bounds.1.max(segment.end()))
    } else {
        bounds
    }
}

/// The same of the segment of this number.
fn bounds_with(executable: &Executable<'_>, index: u16, bounds: (u32, u64)) -> (u32, u64)
    requires { index < e_phnum executable.now.file.now }
    ensures first { result.0 ≡ first_with executable.now.file.now index bounds.0 }
    ensures end { result.1 ≡ end_with executable.now.file.now index bounds.1 }
{
    match executable.program_header(index) {
        Some(segment) => widened(&segment, bounds),
        None => bounds,
    }
}

/// The first address of a program, and the one after its last.
fn bounds_of(executable: &Executable<'_>) -> (u32, u64)
    ensures first { result.0 ≡ first_address executable.now.file.now }
    ensures end { result.1 ≡ end_address executable.now.file.now }
{
    let mut bounds = (u32::MAX, 0);
    for index in 0..executable.program_header_count() {
        bounds = bounds_with(executable, index, bounds);
    }
    bounds
}

/// How many bytes of memory a process of an executable needs at least: those of the pages from its
/// first address to its last, and 1 MiB. It is 0 where the addresses leave no room for these.
pub fn needed_memory(executable: &Executable<'_>) -> u64
    ensures { result ≡ needed_of executable.now.file.now }
{
    let (start, end) = bounds_of(executable);
    if end <= 0x1_0000_0000 && has_room(end) {
        needed_bytes(start, end)
    } else {
        0
    }
}

/// What may be done in a segment.
fn protection_of(segment: &ProgramHeader) -> Protection
    ensures { result ≡ protection_by segment.now.flags }
{
    if segment.is_writable() {
        Protection::Writable
    } else if segment.is_readable() || segment.is_executable() {
        Protection::ReadOnly
    } else {
        Protection::Unmapped
    }
}

/// The addresses of a segment, and what may be done there.
fn range_of(segment: &ProgramHeader) -> PageRange
    ensures { (file : List ℕ) (i : ℕ) → IsProgramHeader file i segment.now
        → result ≡ range_of file i }
{
    PageRange {
        start: u64::from(segment.address),
        end: segment.end(),
        protection: protection_of(segment),
    }
}

/// Appends the addresses of the segment of this number, if it is loaded.
fn push_segment(
    ranges: &mut Vec<PageRange>,
    executable: &Executable<'_>,
    index: u16,
) -> Result<(), AllocError>
    requires { index < e_phnum executable.now.file.now }
    ensures { OnOk result (ranges.new.items ≡ ranges.old.items
        ++ segment_range executable.now.file.now index) }
{
    match executable.program_header(index) {
        Some(segment) if segment.is_loaded() => match ranges.push(range_of(&segment)) {
            Ok(()) => Ok(()),
            Err(_) => Err(AllocError),
        },
        _ => Ok(()),
    }
}

/// Appends the addresses of each segment that is loaded.
fn push_segments(ranges: &mut Vec<PageRange>, executable: &Executable<'_>) -> Result<(), AllocError>
    ensures { OnOk result (ranges.new.items ≡ ranges.old.items
        ++ segment_ranges executable.now.file.now (e_phnum executable.now.file.now)) }
{
    for index in 0..executable.program_header_count() {
        push_segment(ranges, executable, index)?;
    }
    Ok(())
}

/// Appends addresses that are writable.
fn push_writable(ranges: &mut Vec<PageRange>, start: u32, end: u32) -> Result<(), AllocError>
    ensures { OnOk result (ranges.new.items
        ≡ ranges.old.items ++ writable_range start end ∷ []) }
{
    let range = PageRange {
        start: u64::from(start),
        end: u64::from(end),
        protection: Protection::Writable,
    };
    match ranges.push(range) {
        Ok(()) => Ok(()),
        Err(_) => Err(AllocError),
    }
}

/// The addresses of a process: those of its segments, its heap and its stack.
fn ranges_of(
    alloc: Global,
    executable: &Executable<'_>,
    layout: &Layout,
) -> Result<Vec<PageRange>, AllocError>
    ensures { IfOk result (λ ranges.
        ranges.items ≡ ranges_of executable.now.file.now layout.now) }
{
    let mut ranges = Vec::new(alloc);
    push_segments(&mut ranges, executable)?;
    push_writable(&mut ranges, layout.heap_start, layout.heap_end)?;
    push_writable(&mut ranges, layout.stack_start, layout.end)?;
    Ok(ranges)
}

/// The address of the program headers, if the segment of this number has them, and else another
/// address.
fn headers_in(executable: &Executable<'_>, index: u16, other: u32) -> u32
    requires { index < e_phnum executable.now.file.now }
    ensures { result ≡ headers_in executable.now.file.now index other }
{
    match executable.program_header(index) {
        Some(segment) => headers_within(executable, &segment, other),
        None => other,
    }
}

/// The same of a segment.
fn headers_within(executable: &Executable<'_>, segment: &ProgramHeader, other: u32) -> u32
    ensures { (i : ℕ) → IsProgramHeader executable.now.file.now i segment.now
        → result ≡ headers_in executable.now.file.now i other }
{
    let offset = executable.program_header_offset();
    let end = u64::from(segment.offset) + u64::from(segment.file_size);
    if segment.is_loaded() && segment.offset <= offset && u64::from(offset) < end {
        segment.address.wrapping_add(offset - segment.offset)
    } else {
        other
    }
}

/// What a process is told of the executable.
fn headers_of(executable: &Executable<'_>) -> ProgramHeaders
    ensures { result ≡ headers_of executable.now.file.now }
{
    let mut address = 0;
    for index in 0..executable.program_header_count() {
        address = headers_in(executable, index, address);
    }
    ProgramHeaders {
        address,
        count: u32::from(executable.program_header_count()),
        entry: executable.entry(),
    }
}

/// Where a process has its memory whose program has these addresses.
///
/// # Errors
///
/// `ImageError::NoRoom` and `ImageError::NeedsMemory`.
fn laid_out(bounds: (u32, u64), wanted: u64) -> Result<Layout, ImageError>
    ensures refused { MatchOption (refusal_between bounds.0 bounds.1 wanted)
        (IsOk result) (λ error. result ≡ Err error) }
    ensures layout { IfOk result (IsLayout bounds.0 bounds.1 wanted) }
{
    let (start, end) = bounds;
    if end > 0x1_0000_0000 || !has_room(end) {
        return Err(ImageError::NoRoom);
    }
    match layout_of(start, end, wanted) {
        Some(layout) => Ok(layout),
        None => Err(ImageError::NeedsMemory(needed_bytes(start, end))),
    }
}

/// Where sp points to.
///
/// # Errors
///
/// `ImageError::LongArguments`.
fn pointer_of(
    layout: &Layout,
    arguments: &[String],
    variables: &[String],
) -> Result<u32, ImageError>
    ensures pointer { IfOk result (λ sp.
        sp ≡ stack_pointer layout.now.end (map string_bytes arguments.now)
        (map string_bytes variables.now)) }
    ensures fits { IfOk result (λ sp.
        sp + stack_bytes (map string_bytes arguments.now) (map string_bytes variables.now)
        ≤ layout.now.end) }
    ensures on_stack { IfOk result (λ sp. layout.now.stack_start ≤ sp) }
    ensures aligned { IfOk result (λ sp. sp % 16 ≡ 0) }
    ensures refused { IfErr result (λ error. error ≡ ImageError.LongArguments) }
    ensures long { 0 < layout.now.stack_start → IfErr result (λ error.
        stack_pointer layout.now.end (map string_bytes arguments.now)
        (map string_bytes variables.now) < layout.now.stack_start) }
{
    match stack_pointer(layout.end, arguments, variables) {
        Some(sp) if sp >= layout.stack_start => Ok(sp),
        _ => Err(ImageError::LongArguments),
    }
}

/// What a process starts from that runs an executable with these arguments, of which the first is
/// the program's name, and these environment variables, as `NAME=VALUE`, with so many bytes of
/// memory.
///
/// # Errors
///
/// `ImageError::NoRoom` and `ImageError::NeedsMemory`, of the addresses of its segments alone;
/// `ImageError::LongArguments`, and out of memory.
pub fn image_of(
    alloc: Global,
    executable: &Executable<'_>,
    arguments: &[String],
    variables: &[String],
    wanted: u64,
) -> Result<Image, ImageError>
    ensures image { IfOk result
        (IsImage executable.now.file.now (map string_bytes arguments.now)
        (map string_bytes variables.now) wanted) }
    ensures refused { MatchOption (memory_refusal executable.now.file.now wanted)
        (IfErr result IsOtherReason) (λ error. result ≡ Err error) }
    ensures long { memory_refusal executable.now.file.now wanted ≡ None
        → AreLong executable.now.file.now (map string_bytes arguments.now)
        (map string_bytes variables.now) wanted
        → result ≡ Err ImageError.LongArguments }
    ensures short { result ≡ Err ImageError.LongArguments
        → AreLong executable.now.file.now (map string_bytes arguments.now)
        (map string_bytes variables.now) wanted }
{
    let layout = laid_out(bounds_of(executable), wanted)?;
    let sp = pointer_of(&layout, arguments, variables)?;
    let headers = headers_of(executable);
    let Ok(stack) = initial_stack(alloc, arguments, variables, headers, sp) else {
        return Err(ImageError::OutOfMemory);
    };
    let Ok(ranges) = ranges_of(alloc, executable, &layout) else {
        return Err(ImageError::OutOfMemory);
    };
    let Ok(marks) = marks_of(alloc, &ranges, layout.end / PAGE_BYTES) else {
        return Err(ImageError::OutOfMemory);
    };
    Ok(Image {
        layout,
        entry: executable.entry(),
        stack_pointer: sp,
        stack,
        marks,
    })
}

/// Writes an executable's segments and a process's stack into a memory that lies where the layout
/// says, and that is 0. The segments lie below the stack.
///
/// # Errors
///
/// `ImageError::Refused` with the first address that the memory refuses, or with `sp` where the
/// stack passes the last address (`refused`). A memory that is writable there is not refused
/// (`fillable`).
pub fn fill<M: Memory>(
    executable: &Executable<'_>,
    layout: &Layout,
    sp: u32,
    stack: &[u8],
    memory: &mut M,
) -> Result<(), ImageError>
    requires below { (i j : ℕ) → i < e_phnum executable.now.file.now
        → j < loaded_size executable.now.file.now i
        → segment_start executable.now.addresses executable.now.file.now i + j < sp }
    requires writable { (a : ℕ)
        → M.writable memory.old a ≡ lies_between layout.now.base layout.now.end a }
    requires zeros { (a : ℕ) → M.writable memory.old a ≡ true → M.bytes memory.old a ≡ Some 0 }
    ensures filled { OnOk result (Filled executable.now.addresses executable.now.file.now
        sp stack.now (M.bytes memory.old) (M.bytes memory.new)) }
    ensures writable_kept { M.writable memory.new ≡ M.writable memory.old }
    ensures fillable { IsFillable executable.now.addresses executable.now.file.now
        sp (length stack.now) (M.writable memory.old)
        → IfErr result (λ error. error ≡ ImageError.OutOfMemory) }
    ensures refused { IfErr result (IsRefusal executable.now.addresses executable.now.file.now
        sp (length stack.now) (M.writable memory.old)) }
{
    if let Err(refused) = executable.load_over_zeros(memory, layout.base, u64::from(layout.end)) {
        return Err(ImageError::Refused(refused.address));
    }
    let mut reader = stack;
    match read_to_memory(&mut reader, memory, sp) {
        Ok(()) => Ok(()),
        Err(LoadFault::Refused(address)) => Err(ImageError::Refused(address)),
        Err(LoadFault::EndOfAddresses) => Err(ImageError::Refused(sp)),
        Err(LoadFault::Reader(_)) => Err(ImageError::OutOfMemory),
    }
}
