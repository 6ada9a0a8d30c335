//! Where a process has its heap and its stack.

ghost use Rattle.std.specs.Prelude.{◌≡◌, ◌≤◌, ◌^◌, ◌↔◌, true, IsSome, IfSome};
ghost use Rattle.rrs_exec.specs.Layouts.{has_room, needed, page_from, IsLayout};

use crate::marks::PAGE_BYTES;

/// The number of bytes of a page.
const PAGE: u64 = PAGE_BYTES as u64;
/// How many bytes of memory a process has at least after its program: 1 MiB.
const LEAST_BYTES: u64 = 1 << 20;
/// How many bytes its stack has at most: 8 MiB, as on Linux.
const MOST_STACK_BYTES: u64 = 1 << 23;
/// How many bytes lie unmapped between its heap and its stack: 64 KiB.
const GAP_BYTES: u64 = 1 << 16;

/// Where a process has its memory: the program, the heap, a gap, and the stack.
///
/// Each address is a multiple of 4,096.
#[derive(Clone, Copy, Debug, PartialEq)]
pub struct Layout {
    /// The first address of the memory.
    pub base: u32,
    /// The lowest break: after the program.
    pub heap_start: u32,
    /// The highest break.
    pub heap_end: u32,
    /// The first address of the stack.
    pub stack_start: u32,
    /// The address after the stack, and after the memory.
    pub end: u32,
}

/// The first page that lies after an address, or begins there.
fn page_from(address: u64) -> u64
    requires { address ≤ 2 ^ 32 }
    ensures { result ≡ page_from address }
{
    (address + PAGE - 1) / PAGE * PAGE
}

/// Whether a program that ends there leaves 1 MiB of addresses after it, below the last page.
pub fn has_room(end: u64) -> bool
    requires { end ≤ 2 ^ 32 }
    ensures { result ≡ has_room end }
{
    page_from(end) + LEAST_BYTES <= (1 << 32) - PAGE
}

/// How many bytes of memory a process needs whose program has addresses from `start` to before
/// `end`: those of the pages from its first to its last, and 1 MiB.
pub fn needed_bytes(start: u32, end: u64) -> u64
    requires { end ≤ 2 ^ 32 }
    ensures { result ≡ needed start end }
{
    let base = start - start % PAGE_BYTES;
    (page_from(end) + LEAST_BYTES).saturating_sub(u64::from(base))
}

/// Where a process has its memory whose program has addresses from `start` to before `end`: as much
/// as is wanted, and less where it would pass the last addresses. `None` where the program needs
/// more than that.
pub fn layout_of(start: u32, end: u64, wanted: u64) -> Option<Layout>
    requires { end ≤ 2 ^ 32 }
    ensures there { IsSome result ↔ ((has_room end ≡ true) × (needed start end ≤ wanted)) }
    ensures layout { IfSome result (IsLayout start end wanted) }
{
    let base = start - start % PAGE_BYTES;
    let heap_start = page_from(end);
    let most = (1 << 32) - PAGE;
    let room = u64::from(base) + wanted.min(most);
    let memory_end = room.min(most) / PAGE * PAGE;
    if memory_end < heap_start + LEAST_BYTES {
        return None;
    }
    let stack = ((memory_end - heap_start) / 2).min(MOST_STACK_BYTES) / PAGE * PAGE;
    let stack_start = memory_end - stack;
    Some(Layout {
        base,
        heap_start: heap_start as u32,
        heap_end: (stack_start - GAP_BYTES) as u32,
        stack_start: stack_start as u32,
        end: memory_end as u32,
    })
}
