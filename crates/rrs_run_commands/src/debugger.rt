//! What runs a program under gdb, as the program `rrs` calls it. The debugger takes the gate
//! longest, so the rest of `rrs` is proved beside it.

use crate::options::Task;
use crate::refusal::Refusal;
use crate::requests::Request;
use rrs_fast::Ending;
use std::io::{Read, Write};
use std::rt::{Env, Files};

/// What runs a program, or firmware, under gdb.
pub trait Debugger {
    /// Debugs what a request asks for, firmware where the task is `Task::DebugBoard`: gdb's packets
    /// come from `input`, and go to `output`.
    ///
    /// # Errors
    ///
    /// Why it does not do what is asked for.
    fn debug<'a, H: Env + Files + AllocGlobal, R: Read, W: Write>(
        &self,
        rt: &H,
        task: Task,
        request: Request<'a>,
        input: &mut R,
        output: &mut W,
    ) -> Result<Ending, Refusal<'a>>;
}
