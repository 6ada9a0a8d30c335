//! The stub of gdb's remote protocol, for `rrs_lib`'s machine.
//!
//! A [Session] answers the packets that gdb sends, over any memory that keeps its laws, and over
//! the calls of a process of Linux. Packets are framed by [encode] and [decode]. Registers and
//! memory are shown and changed by the functions of `registers` and `contents`; the machine goes
//! forward by [go_forward] and back by [go_back].
//!
//! What a packet is, is written in `specs/Packets.antt`, which texts show the machine in
//! `specs/Shown.antt`, and where a run stops in `specs/Breaks.antt`.

#![tactic(auto)]

mod back;
mod breaks;
mod contents;
mod forward;
mod framing;
mod harts;
mod link;
mod numbers;
mod queries;
mod registers;
mod resume;
mod runner;
mod session;
mod state;
mod target;

pub use back::{BackEnd, WentBack, go_back};
pub use breaks::{Break, Breaks, Watch, WatchKind, break_of};
pub use contents::{read_memory, write_memory};
pub use forward::{ForwardEnd, ForwardReason, go_forward};
pub use framing::{PacketError, decode, encode, push_bytes, push_hex};
pub use link::{Link, LinkError, Received};
pub use numbers::{address_and_length, behind, cut, cut_or_all, number_of, place_and_bytes};
pub use queries::{BAD_ADDRESS, INVALID, NO_MEMORY, answer_of, push_part};
pub use registers::{
    REGISTERS, push_register, push_registers, push_word, register_value, write_register,
    write_registers,
};
pub use runner::{PlainRunner, StopRunner};
pub use session::{Next, SessionEnd, answer_to, push_done, register_and_value, serve};
pub use state::{SessionState, Settings, push_text};
pub use target::TARGET;
