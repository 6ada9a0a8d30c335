//! Steps that can be taken back, for debuggers of `rrs_lib`'s machine.
//!
//! [step_noted] makes a step and tells the [Change] that takes it back, and [undo] does that. A
//! [History] keeps the latest changes, to a bound that its owner sets: [step_recorded] is a step
//! that it keeps, and [step_back] takes the latest one back. Registers, pc, last written register
//! and bytes are then as they were before it, over every memory that keeps its laws. What a device
//! keeps beside its bytes is not taken back. [step_served] is for a program that calls its
//! environment: it keeps a call with what the call wrote. [serve_recorded] keeps a call that is
//! served where the hart stands, and [step_hart_recorded] a step of a hart with a profile.
//! [look_ahead] makes steps and takes them back.
//!
//! What a change takes back is written in `specs/Changes.antt`, which states a history leads back
//! to in `specs/Histories.antt`, and what a call adds in `specs/Calls.antt`.

#![tactic(auto)]

mod ahead;
mod calls;
mod change;
mod harts;
mod history;
mod noting;
mod recorder;

pub use ahead::look_ahead;
pub use calls::{RecordedMemory, serve_recorded, step_served};
pub use change::{Change, step_noted, step_noted_parts, undo, undo_parts};
pub use harts::step_hart_recorded;
pub use history::{History, newest, step_back, step_recorded};
