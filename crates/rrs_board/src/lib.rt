//! A board with a hart of machine mode, at the addresses of QEMU's `virt`: RAM, a UART, a CLINT and
//! a finisher.
//!
//! [Board::step] makes a step of the hart, and then the devices answer to what it did. [Board::run]
//! makes steps until a device has an event for the caller: a byte that is transmitted, a look that
//! finds none received, the end of the program, or a `wfi` that waits. The caller has the terminal:
//! nothing here reads or writes a file. A byte may arrive at the UART after any step.
//! [WatchedRuns] shows each step to a watcher, with the record of what the hart retired.
//!
//! During a step the registers of the devices are a lawful memory (`specs/Registers.antt`): a byte
//! that is written reads back. What they do of their own they do between two steps
//! (`specs/Effects.antt`), by their data sheets (`specs/Uart.antt` and the two beside it).

#![tactic(auto)]

pub mod asking;
pub mod board;
pub mod devices;
pub mod effects;
pub mod images;
pub mod input;
pub mod loading;
pub mod memory;
pub mod runs;
pub mod terminal;
pub mod tree;
pub mod uart;

pub use asking::Asking;
pub use board::{Board, BoardEnd, BoardStep};
pub use devices::{DeviceAccess, Devices};
pub use effects::BoardEvent;
pub use input::{BoardInput, ByteSource, InputAnswer, Patience, Typed};
pub use loading::BoardError;
pub use memory::BoardMemory;
pub use rrs_machine::Profile;
pub use runs::{BoardRunner, BoardWatcher, PlainRuns, RecordedStep, WatchedRuns};
pub use terminal::{TerminalError, run_at_terminal};
pub use tree::{TIMEBASE, device_tree};
pub use uart::Uart;
