//! An assembler for callers that lend all its memory: C, and a page with WebAssembly, where there
//! is no `malloc`.
//!
//! [assemble_lent] assembles a source in a room of the caller, and puts what is told of it into
//! the caller's buffers: the bytes, the statements and the labels of its sections, or its
//! mistakes. What stands in the buffers is written in `specs/Telling.antt`. [assemble_into] does so
//! with any allocator.
//!
//! A [Room] is memory that C, a page or another program lends. A [LentHeap] gives it away as one
//! block, which an arena takes: `bumpalo`'s `Bump`, a `&` to which is an allocator that is `Copy`.
//! So what is generic over its allocator runs where there is no `malloc`. [LentHeap::arena] makes
//! an arena that fills the room, and [LentHeap::into_room] gives the room back.

#![tactic(auto)]

mod assembling;
mod buffers;
mod heap;
mod lent;
mod lent_heap;
mod mistakes;
mod outcome;
mod room;
mod sizes;
mod slot;
mod statements;
mod symbols;
mod told;

pub use assembling::assemble_into;
pub use lent::assemble_lent;
pub use lent_heap::LentHeap;
pub use outcome::{
    ASSEMBLED, MISTAKES, RrsAssembled, RrsMistake, RrsStatement, RrsSymbol, SMALL_BUFFER,
    SMALL_ROOM,
};
pub use room::Room;
pub use sizes::capacity_of;
