//! What the clocks of a program tell, and how a time is put into memory.

ghost use Rattle.std.specs.Prelude.{◌≡◌, ◌++◌, ℕ, Option};
ghost use Rattle.std.specs.Duration.{as_nanos};
ghost use Rattle.std.specs.Int.{to_le_bytes, w64};
ghost use Rattle.rrs_fast.specs.Serving.{MakesSome};
ghost use Rattle.rrs_linux.specs.Clocks.{Tells, TellsStopped, TellsOf, PutsTime, form_of};

use crate::buffers::put_bytes;
use crate::host::HOST_FAILED;
use rrs_lib::Memory;
use std::time::{Clock, CpuClock, Duration};

/// `CLOCK_REALTIME`.
pub const REALTIME: u32 = 0;
/// `CLOCK_MONOTONIC`.
const MONOTONIC: u32 = 1;

/// The clocks of a program, of which each has a number: 0 tells the time since 1970
/// (`CLOCK_REALTIME`), 1 the time since a start (`CLOCK_MONOTONIC`), and the others the processor
/// time that the program used.
pub trait Clocks {
    /// What the clock of a number tells, or `None` where it can't be read.
    ghost tells: { Tells Self };

    /// Reads the clock of a number.
    fn tell(&self, clock: u32) -> Option<Duration>
        ensures told { tells self.now clock result };
}

/// Clocks that stand still.
#[derive(Clone, Copy, Drop)]
pub struct StoppedClocks {
    /// The time since 1970.
    pub since_1970: Duration,
    /// The time since a start.
    pub monotonic: Duration,
    /// The processor time that the program used.
    pub used: Duration,
}

impl StoppedClocks {
    /// Clocks that tell no time: all stand at 0.
    pub const ZERO: StoppedClocks = StoppedClocks {
        since_1970: Duration::ZERO,
        monotonic: Duration::ZERO,
        used: Duration::ZERO,
    };
}

impl Clocks for StoppedClocks {
    ghost tells = { TellsStopped };

    fn tell(&self, clock: u32) -> Option<Duration> {
        Some(match clock {
            REALTIME => self.since_1970,
            MONOTONIC => self.monotonic,
            _ => self.used,
        })
    }
}

/// The clocks of the host, or clocks that stand still.
#[derive(Clone, Copy, Drop)]
pub enum LinuxClocks {
    /// Those of the host.
    Host(HostRuntime),
    /// Clocks that stand still.
    Stopped(StoppedClocks),
}

impl Clocks for LinuxClocks {
    ghost tells = { TellsOf };

    fn tell(&self, clock: u32) -> Option<Duration> {
        match self {
            LinuxClocks::Host(host) => match clock {
                REALTIME => host.since_1970(),
                MONOTONIC => host.monotonic(),
                _ => host.process_cpu_time(),
            }
            .ok(),
            LinuxClocks::Stopped(clocks) => clocks.tell(clock),
        }
    }
}

/// How a time is put into memory, in 16 bytes.
#[derive(Clone, Copy, Debug, PartialEq)]
pub enum TimeForm {
    /// `struct __kernel_timespec`: seconds and nanoseconds.
    Timespec,
    /// `struct timeval`: seconds and microseconds.
    Timeval,
}

/// Puts a time that a clock told into memory, and gives the answer of the call.
pub fn put_time<M: Memory>(
    told: Option<Duration>,
    form: TimeForm,
    memory: &mut M,
    address: u32,
) -> u32
    ensures put { MakesSome M.reads M.writes
        (λ accesses. PutsTime (form_of form) (M.writable memory.old) (M.bytes memory.old)
        (M.bytes memory.new) told address accesses result)
        memory.old memory.new }
    ensures writable_kept { M.writable memory.new ≡ M.writable memory.old }
    ensures layout_kept { M.layout memory.new ≡ M.layout memory.old }
{
    match told {
        None => HOST_FAILED,
        Some(time) => put_bytes(&bytes_of(time, form), memory, address),
    }
}

/// The bytes of a time in a form.
fn bytes_of(time: Duration, form: TimeForm) -> [u8; 16]
    ensures { result ≡ form_of form (as_nanos time) }
{
    let part = match form {
        TimeForm::Timespec => time.subsec_nanos(),
        TimeForm::Timeval => time.subsec_nanos() / 1000,
    };
    two_words(time.as_secs(), u64::from(part))
}

/// The bytes of two words of 64 bits, the lowest first.
fn two_words(first: u64, second: u64) -> [u8; 16]
    ensures { result ≡ to_le_bytes w64 first ++ to_le_bytes w64 second }
{
    let mut bytes = [0; 16];
    bytes[..8].copy_from_slice(&first.to_le_bytes());
    bytes[8..].copy_from_slice(&second.to_le_bytes());
    bytes
}
