//! The stub of gdb's remote protocol, for firmware on a board.
//!
//! A [BoardSession] answers the packets that gdb sends. The board goes on by [DebuggedBoard::go]
//! and [DebuggedBoard::proceed]: by its own steps, so traps and interrupts are taken as ever, up to
//! a breakpoint. What its UART transmits is sent to gdb, and what it wants comes from the bytes
//! that are lent. Registers and CSRs are shown and changed by [value_of] and
//! [change_register], and RAM by [show_ram] and [change_ram]. Nothing goes back.
//!
//! How a board goes on is written in `specs/Going.antt`, what is shown and changed in
//! `specs/Shown.antt`.

#![tactic(auto)]

mod going;
mod ram;
mod registers;
mod session;
mod target;

pub use going::{DebuggedBoard, GoEnd, GoReason};
pub use ram::{change_ram, show_ram};
pub use registers::{FIRST_CSR, PRIV, change_register, value_of};
pub use session::{BoardSession, BoardStop, answer_to, serve};
pub use target::push_target;
