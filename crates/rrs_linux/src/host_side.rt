//! What is kept of the host between two calls.

ghost use Rattle.std.specs.Prelude.{◌≡◌};
ghost use Rattle.rrs_linux.specs.Clocks.{TellsTime};

use crate::clocks::{Clocks, LinuxClocks};
use crate::input_buffer::InputBuffer;
use std::time::Duration;

/// What is kept of the host between two calls of a program.
#[derive(Drop)]
pub struct HostSide {
    /// What was read of the input and not given to the program yet.
    pub buffer: InputBuffer,
    /// The program's clocks.
    pub clocks: LinuxClocks,
}

impl Clocks for HostSide {
    ghost tells = { TellsTime };

    fn tell(&self, clock: u32) -> Option<Duration> {
        self.clocks.tell(clock)
    }
}
