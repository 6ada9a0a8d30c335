//! System calls on chosen buffers, over streams that are short, fail, or are interrupted, and then
//! go on.

use crate::machines::streams_of;
use rrs_fast::Environment;
use rrs_lib::HartState;
use rrs_lib::instruction_executor::InstructionExecutor;
use rrs_lib::memories::VecMemory;
use rrs_linux::{Heap, Linux, LinuxClocks, OutputRecorder, StoppedClocks, records_determined};
use std::alloc::{AllocError, Global};
use std::io;
use std::io::{ErrorKind, Read, Write};
use std::test::Fail;
use std::time::Duration;

/// The numbers of `read`, `write` and `brk`.
const READ: u32 = 63;

const WRITE: u32 = 64;

const BRK: u32 = 214;

/// The numbers of `ioctl`, `lseek`, `fstat` and `getpid`.
const IOCTL: u32 = 29;

const LSEEK: u32 = 62;

const FSTAT: u32 = 80;

const GETPID: u32 = 172;

/// The numbers of `writev`, `newfstatat` and `statx`.
const WRITEV: u32 = 66;

const NEWFSTATAT: u32 = 79;

const STATX: u32 = 291;

/// The numbers of `gettimeofday` and `clock_gettime64`.
const GETTIMEOFDAY: u32 = 169;

const CLOCK_GETTIME64: u32 = 403;

/// The answers -2, -20 and -22.
const ENOENT: u32 = 0xffff_fffe;

const ENOTDIR: u32 = 0xffff_ffec;

pub(crate) const EINVAL: u32 = 0xffff_ffea;

/// The answers -25 and -29.
const ENOTTY: u32 = 0xffff_ffe7;

const ESPIPE: u32 = 0xffff_ffe3;

/// The answers -5, -32, -9, -14, -28 and -38.
const EIO: u32 = 0xffff_fffb;

const EPIPE: u32 = 0xffff_ffe0;

const EBADF: u32 = 0xffff_fff7;

pub(crate) const EFAULT: u32 = 0xffff_fff2;

const ENOSPC: u32 = 0xffff_ffe4;

const ENOSYS: u32 = 0xffff_ffda;

/// What a read or a write of a stream comes to: so many bytes at most, or an error.
#[derive(Clone, Copy, Drop)]
enum Turn {
    Takes(usize),
    Fails(ErrorKind),
}

/// A stream that does what its turns say, one call after the other, and then takes all. As a reader
/// it gives 0, 1, 2 and so on, up to 99.
#[derive(Drop)]
struct Stream<'a> {
    turns: &'a [Turn],
    written: Vec<u8>,
    next: u8,
}

impl<'a> Stream<'a> {
    fn new(alloc: Global, turns: &'a [Turn]) -> Self {
        Stream {
            turns,
            written: Vec::new(alloc),
            next: 0,
        }
    }

    /// How many of so many bytes this call may take.
    fn turn(&mut self, most: usize) -> io::Result<usize> {
        let Some((turn, later)) = self.turns.split_first() else {
            return Ok(most);
        };
        self.turns = later;
        match turn {
            Turn::Takes(count) => Ok(most.min(*count)),
            Turn::Fails(kind) => Err(io::Error::from(*kind)),
        }
    }
}

impl Write for Stream<'_> {
    fn write(&mut self, buf: &[u8]) -> io::Result<usize> {
        let count = self.turn(buf.len())?.min(buf.len());
        self.written.write(&buf[..count])
    }

    fn flush(&mut self) -> io::Result<()> {
        Ok(())
    }
}

impl Read for Stream<'_> {
    fn read(&mut self, buf: &mut [u8]) -> io::Result<usize> {
        let most = self.turn(buf.len())?;
        for (index, byte) in buf.iter_mut().enumerate() {
            if index >= most || self.next >= 100 {
                return Ok(index);
            }
            *byte = self.next;
            self.next += 1;
        }
        Ok(buf.len())
    }
}

/// 75 words: the bytes at 0 to 299, of which the byte at `a` is `a` modulo 256.
pub(crate) fn numbered(alloc: Global) -> Result<VecMemory, AllocError> {
    let mut words = Vec::new(alloc);
    for index in 0..75u32 {
        let low = index * 4 % 256;
        words.push(low * 0x0101_0101 + 0x0302_0100)?;
    }
    Ok(VecMemory::new(words))
}

/// How a call ended, and what it answered.
pub(crate) type Answered = (Option<u32>, u32);

/// Serves a call with its number and five arguments.
pub(crate) fn serve<E: Environment>(
    environment: &mut E,
    mem: &mut VecMemory,
    request: [u32; 6],
) -> Answered {
    let [number, first, second, third, fourth, fifth] = request;
    let mut hart = HartState::new();
    hart.registers[17] = number;
    hart.registers[10] = first;
    hart.registers[11] = second;
    hart.registers[12] = third;
    hart.registers[13] = fourth;
    hart.registers[14] = fifth;
    let mut executor = InstructionExecutor {
        mem,
        hart_state: &mut hart,
    };
    let end = environment.serve(&mut executor);
    (end, hart.registers[10])
}

/// Streams on all sides.
type Streams<'a> = Linux<Stream<'a>, Stream<'a>, Stream<'a>>;

/// Serves a call over streams.
fn call(linux: &mut Streams<'_>, mem: &mut VecMemory, request: [u32; 6]) -> Answered {
    serve(linux, mem, request)
}

/// Streams with these turns of the input and of the output, a heap, and clocks that stand still.
fn environment<'a>(alloc: Global, reads: &'a [Turn], writes: &'a [Turn]) -> Streams<'a> {
    let clocks = StoppedClocks {
        since_1970: Duration::new(0x1_0000_0002, 999_999_999),
        monotonic: Duration::new(7, 1),
        used: Duration::new(0, 123_456_789),
    };
    Linux::new(
        Stream::new(alloc, reads),
        Stream::new(alloc, writes),
        Stream::new(alloc, &[]),
        Heap::new(64, 96),
        LinuxClocks::Stopped(clocks),
        0,
    )
}

/// Calls that put the status of a stream at 4, each with the word that is everywhere before, and
/// the words after it; what is after the status stays.
///
/// The first has 104 bytes: st_mode at 16 is a pipe with 0600, st_nlink at 20 is 1, st_blksize at
/// 56 is 4096, and all other bytes are 0. The other has 256, as `statx` has it: stx_mask is 0x7ff,
/// stx_blksize at 4 is 4096, stx_nlink at 16 is 1, stx_mode at 28 is a pipe with 0600, and all
/// other bytes are 0.
static STATUSES: [([u32; 6], u32, &[u32]); 2] = [
    (
        [FSTAT, 1, 4, 0, 0, 0],
        0xffffffff,
        &[
            0xffffffff, 0, 0, 0, 0, 0o010600, 1, 0, 0, 0, 0, 0, 0, 0, 0, 4096, 0, 0, 0, 0, 0, 0, 0,
            0, 0, 0, 0, 0xffffffff, 0xffffffff, 0xffffffff,
        ],
    ),
    (
        [STATX, 1, 0, 0x1000, 0x7ff, 4],
        0xffffff00,
        &[
            0xffffff00, 0x7ff, 4096, 0, 0, 1, 0, 0, 0o010600, 0, 0, 0, 0, 0, 0, 0, 0, 0, 0, 0, 0,
            0, 0, 0, 0, 0, 0, 0, 0, 0, 0, 0, 0, 0, 0, 0, 0, 0, 0, 0, 0, 0, 0, 0, 0, 0, 0, 0, 0, 0,
            0, 0, 0, 0, 0, 0, 0, 0, 0, 0, 0, 0, 0, 0, 0, 0xffffff00, 0xffffff00,
        ],
    ),
];

/// The words at 100 to 115 where nothing is put.
const NO_TIME: [u32; 4] = [0x6766_6564, 0x6b6a_6968, 0x6f6e_6d6c, 0x7372_7170];

/// Calls that put a status or a time into memory, each with its answer, and with the words at 100
/// to 115 after it: the first words of a status are 0. The byte at 0 is 0, that at 47 is `/`, and
/// that at 1 is another.
static PUT: [([u32; 6], u32, [u32; 4]); 34] = [
    ([NEWFSTATAT, 1, 0, 100, 0x1000, 0], 0, [0, 0, 0, 0]),
    ([NEWFSTATAT, 2, 0, 100, 0x7900, 0], 0, [0, 0, 0, 0]),
    ([NEWFSTATAT, 3, 0, 100, 0x1000, 0], EBADF, NO_TIME),
    ([NEWFSTATAT, 0xffff_ff9c, 0, 100, 0x1000, 0], EBADF, NO_TIME),
    ([NEWFSTATAT, 1, 0, 100, 0x6900, 0], ENOENT, NO_TIME),
    ([NEWFSTATAT, 1, 300, 100, 0x1000, 0], EFAULT, NO_TIME),
    ([NEWFSTATAT, 1, 47, 100, 0, 0], ENOENT, NO_TIME),
    ([NEWFSTATAT, 3, 47, 100, 0x1000, 0], ENOENT, NO_TIME),
    ([NEWFSTATAT, 0xffff_ff9c, 1, 100, 0, 0], ENOENT, NO_TIME),
    ([NEWFSTATAT, 2, 1, 100, 0, 0], ENOTDIR, NO_TIME),
    ([NEWFSTATAT, 3, 1, 100, 0, 0], EBADF, NO_TIME),
    ([NEWFSTATAT, 1, 0, 100, 0x1200, 0], EINVAL, NO_TIME),
    ([NEWFSTATAT, 1, 0, 100, 0x9000, 0], EINVAL, NO_TIME),
    ([NEWFSTATAT, 1, 300, 100, 1, 0], EINVAL, NO_TIME),
    ([NEWFSTATAT, 1, 0, 197, 0x1000, 0], EFAULT, NO_TIME),
    ([NEWFSTATAT, 1, 0, 196, 0x1000, 0], 0, NO_TIME),
    ([STATX, 0, 0, 0x1000, 0, 44], 0, [0, 0, 0, 0]),
    ([STATX, 0, 0, 0x3000, 0x7fff_ffff, 44], 0, [0, 0, 0, 0]),
    ([STATX, 0, 0, 0x5000, 0, 44], 0, [0, 0, 0, 0]),
    ([STATX, 0, 0, 0x7000, 0, 44], EINVAL, NO_TIME),
    ([STATX, 0, 0, 0x1000, 0x8000_0000, 44], EINVAL, NO_TIME),
    ([STATX, 0, 0, 0x1400, 0, 44], EINVAL, NO_TIME),
    ([STATX, 3, 0, 0x1000, 0, 44], EBADF, NO_TIME),
    ([STATX, 0, 0, 0x1000, 0, 45], EFAULT, [0, 0, 0, 0]),
    (
        [CLOCK_GETTIME64, 0, 100, 0, 0, 0],
        0,
        [2, 1, 999_999_999, 0],
    ),
    ([CLOCK_GETTIME64, 1, 100, 0, 0, 0], 0, [7, 0, 1, 0]),
    (
        [CLOCK_GETTIME64, 2, 100, 0, 0, 0],
        0,
        [0, 0, 123_456_789, 0],
    ),
    (
        [CLOCK_GETTIME64, 3, 100, 0, 0, 0],
        0,
        [0, 0, 123_456_789, 0],
    ),
    ([CLOCK_GETTIME64, 4, 100, 0, 0, 0], EINVAL, NO_TIME),
    (
        [CLOCK_GETTIME64, 0xffff_ffff, 100, 0, 0, 0],
        EINVAL,
        NO_TIME,
    ),
    ([CLOCK_GETTIME64, 0, 300, 0, 0, 0], EFAULT, NO_TIME),
    ([CLOCK_GETTIME64, 0, 285, 0, 0, 0], EFAULT, NO_TIME),
    ([GETTIMEOFDAY, 100, 1, 0, 0, 0], 0, [2, 1, 999_999, 0]),
    ([GETTIMEOFDAY, 300, 0, 0, 0, 0], EFAULT, NO_TIME),
];

// What a path names, what there is not, and what clocks tell that stand still.
#[test]
fn statuses_and_times_are_put(rt: HostRuntime) -> Result<(), Fail> {
    let mut linux = environment(rt.alloc(), &[], &[]);
    for (row, &(request, word, expected)) in STATUSES.iter().enumerate() {
        let mut memory = VecMemory::new(vec![in rt.alloc(); word; expected.len()]?);
        let seen = call(&mut linux, &mut memory, request);
        assert!(rt;
            seen == (None, 0) && memory.mem.as_slice() == expected,
            "status {row}"
        );
    }
    for (row, &(request, answer, expected)) in PUT.iter().enumerate() {
        let mut memory = numbered(rt.alloc())?;
        let seen = call(&mut linux, &mut memory, request);
        let is_put = memory.mem.get(25..29) == Some(expected.as_slice());
        assert!(rt; seen == (None, answer) && is_put, "call {row}");
    }
    Ok(())
}

/// Whether a memory has some time at 100: past 2020 where the clock is the first, and with less
/// than a second of nanoseconds.
fn has_time(memory: &VecMemory, is_first: bool) -> bool {
    match memory.mem.get(25..28) {
        Some([seconds, _, nanos]) => {
            (!is_first || *seconds > 1_577_836_800) && *nanos < 1_000_000_000
        }
        _ => false,
    }
}

// The clocks of the host tell some time.
#[test]
fn clocks_of_the_host_tell_times(rt: HostRuntime) -> Result<(), Fail> {
    let alloc = rt.alloc();
    let mut linux = streams_of(alloc, &[], LinuxClocks::Host(rt));
    for clock in 0..4 {
        let mut memory = numbered(alloc)?;
        let seen = serve(
            &mut linux,
            &mut memory,
            [CLOCK_GETTIME64, clock, 100, 0, 0, 0],
        );
        let is_told = seen == (None, 0) && has_time(&memory, clock == 0);
        assert!(rt; is_told, "clock {clock}");
    }
    Ok(())
}

/// Puts words at 200 and after it.
fn put_words(memory: &mut VecMemory, words: &[u32; 6]) {
    for (index, word) in words.iter().enumerate() {
        if let Some(place) = memory.mem.get_mut(index.saturating_add(50)) {
            *place = *word;
        }
    }
}

/// Whether bytes are runs of this length, each of numbers that follow one another from this one on,
/// modulo 256.
fn counts(bytes: &[u8], runs: &[(u8, usize)]) -> bool {
    let mut rest = bytes;
    for (first, length) in runs {
        let mut expected = *first;
        for _ in 0..*length {
            let Some((byte, later)) = rest.split_first() else {
                return false;
            };
            if *byte != expected {
                return false;
            }
            expected = expected.wrapping_add(1);
            rest = later;
        }
    }
    rest.is_empty()
}

/// A call of the scene of this number, with the words that are put at 200 before it: how it ends,
/// its answer, and after it how much standard output and standard error hold, and how many writes
/// of the output were short.
type Call = (
    usize,
    [u32; 4],
    Option<[u32; 6]>,
    Option<u32>,
    u32,
    (usize, usize, u64),
);

/// Calls one after the other, over streams that are short, fail, or are interrupted.
struct Scene {
    name: &'static str,
    reads: &'static [Turn],
    writes: &'static [Turn],
    /// What standard error holds after them, in runs of numbers.
    errors: [(u8, usize); 2],
    /// Whether the latest short write of the output found that nobody reads it.
    is_broken: bool,
    unserved: &'static [u32],
}

const FAILS: Turn = Turn::Fails(ErrorKind::StorageFull);

const WAITS: Turn = Turn::Fails(ErrorKind::Interrupted);

const BREAKS: Turn = Turn::Fails(ErrorKind::BrokenPipe);

/// The scenes. Where a write is short or fails, the program writes the bytes at 0 to 299, and then
/// each time those that are not written yet: the stream is handed all of them at once. Each vector
/// is written in order: each piece begins where the one before ended.
static SCENES: [Scene; 13] = [
    Scene {
        name: "calls",
        reads: &[],
        writes: &[],
        errors: [(34, 13), (0, 0)],
        is_broken: false,
        unserved: &[BRK, 81],
    },
    Scene {
        name: "calls that are not served",
        reads: &[],
        writes: &[],
        errors: [(0, 0), (0, 0)],
        is_broken: false,
        unserved: &[
            404,
            u32::MAX,
            0,
            1,
            1000,
            1001,
            1002,
            1003,
            1004,
            1005,
            1006,
            1007,
            1008,
            1009,
            1010,
            1011,
        ],
    },
    Scene {
        name: "pieces",
        reads: &[],
        writes: &[],
        errors: [(30, 7), (43, 1)],
        is_broken: false,
        unserved: &[],
    },
    Scene {
        name: "writes",
        reads: &[],
        writes: &[],
        errors: [(0, 0), (0, 0)],
        is_broken: false,
        unserved: &[],
    },
    Scene {
        name: "writes of which one fails",
        reads: &[],
        writes: &[FAILS],
        errors: [(0, 0), (0, 0)],
        is_broken: false,
        unserved: &[],
    },
    Scene {
        name: "writes that fail",
        reads: &[],
        writes: &[FAILS, FAILS, FAILS],
        errors: [(0, 0), (0, 0)],
        is_broken: false,
        unserved: &[],
    },
    Scene {
        name: "short writes that fail",
        reads: &[],
        writes: &[Turn::Takes(0), Turn::Takes(7), FAILS],
        errors: [(0, 0), (0, 0)],
        is_broken: false,
        unserved: &[],
    },
    Scene {
        name: "a short write, and one that fails",
        reads: &[],
        writes: &[Turn::Takes(256), FAILS],
        errors: [(0, 0), (0, 0)],
        is_broken: false,
        unserved: &[],
    },
    Scene {
        name: "two short writes",
        reads: &[],
        writes: &[Turn::Takes(256), Turn::Takes(1)],
        errors: [(0, 0), (0, 0)],
        is_broken: false,
        unserved: &[],
    },
    Scene {
        name: "interrupted writes",
        reads: &[],
        writes: &[WAITS, Turn::Takes(256), WAITS],
        errors: [(0, 0), (0, 0)],
        is_broken: false,
        unserved: &[],
    },
    Scene {
        name: "writes that nobody reads",
        reads: &[],
        writes: &[Turn::Takes(256), BREAKS],
        errors: [(0, 0), (0, 0)],
        is_broken: true,
        unserved: &[],
    },
    Scene {
        name: "pieces that nobody reads",
        reads: &[],
        writes: &[Turn::Takes(9), FAILS, BREAKS, Turn::Takes(9), BREAKS],
        errors: [(0, 0), (0, 0)],
        is_broken: true,
        unserved: &[],
    },
    Scene {
        name: "reads",
        reads: &[Turn::Takes(5), WAITS, Turn::Takes(20), FAILS, FAILS],
        writes: &[],
        errors: [(21, 79), (0, 0)],
        is_broken: false,
        unserved: &[],
    },
];

/// The calls of the scenes.
static CALLS: [Call; 122] = [
    (0, [WRITE, 1, 0, 300], None, None, 300, (300, 0, 0)),
    (0, [WRITE, 2, 290, 20], None, None, 10, (300, 10, 0)),
    (0, [WRITE, 2, 44, 3], None, None, 3, (300, 13, 0)),
    (0, [WRITE, 1, 300, 1], None, None, EFAULT, (300, 13, 0)),
    (
        0,
        [WRITE, 1, 0xffff_fff0, 17],
        None,
        None,
        EFAULT,
        (300, 13, 0),
    ),
    (0, [WRITE, 1, 0, 0], None, None, 0, (300, 13, 0)),
    (0, [WRITE, 0, 0, 4], None, None, EBADF, (300, 13, 0)),
    (0, [READ, 1, 0, 4], None, None, EBADF, (300, 13, 0)),
    (
        0,
        [READ, 0, 0xffff_fff0, 17],
        None,
        None,
        EFAULT,
        (300, 13, 0),
    ),
    (0, [BRK, 0, 0, 0], None, None, 64, (300, 13, 0)),
    (0, [BRK, 96, 0, 0], None, None, 96, (300, 13, 0)),
    (0, [BRK, 97, 0, 0], None, None, 96, (300, 13, 0)),
    (0, [BRK, 63, 0, 0], None, None, 96, (300, 13, 0)),
    (0, [57, 2, 0, 0], None, None, 0, (300, 13, 0)),
    (0, [57, 3, 0, 0], None, None, EBADF, (300, 13, 0)),
    (0, [LSEEK, 0, 0, 2], None, None, ESPIPE, (300, 13, 0)),
    (0, [LSEEK, 3, 0, 2], None, None, EBADF, (300, 13, 0)),
    (0, [IOCTL, 1, 0x5401, 0], None, None, ENOTTY, (300, 13, 0)),
    (0, [IOCTL, 3, 0x5401, 0], None, None, EBADF, (300, 13, 0)),
    (0, [GETPID, 0, 0, 0], None, None, 1, (300, 13, 0)),
    (0, [174, 0, 0, 0], None, None, 1000, (300, 13, 0)),
    (0, [175, 0, 0, 0], None, None, 1000, (300, 13, 0)),
    (0, [176, 0, 0, 0], None, None, 1000, (300, 13, 0)),
    (0, [177, 0, 0, 0], None, None, 1000, (300, 13, 0)),
    (0, [FSTAT, 3, 0, 0], None, None, EBADF, (300, 13, 0)),
    (0, [FSTAT, 1, 300, 0], None, None, EFAULT, (300, 13, 0)),
    (
        0,
        [FSTAT, 1, 0xffff_ff99, 0],
        None,
        None,
        EFAULT,
        (300, 13, 0),
    ),
    (0, [NEWFSTATAT, 1, 0, 4], None, None, ENOENT, (300, 13, 0)),
    (
        0,
        [GETTIMEOFDAY, 300, 0, 0],
        None,
        None,
        EFAULT,
        (300, 13, 0),
    ),
    (
        0,
        [CLOCK_GETTIME64, 4, 0, 0],
        None,
        None,
        EINVAL,
        (300, 13, 0),
    ),
    (0, [81, 0, 0, 0], None, None, ENOSYS, (300, 13, 0)),
    (0, [93, 0x107, 0, 0], None, Some(7), 0x107, (300, 13, 0)),
    (0, [94, 255, 0, 0], None, Some(255), 255, (300, 13, 0)),
    (1, [404, 0, 0, 0], None, None, ENOSYS, (0, 0, 0)),
    (1, [BRK, 0, 0, 0], None, None, 64, (0, 0, 0)),
    (1, [404, 0, 0, 0], None, None, ENOSYS, (0, 0, 0)),
    (1, [u32::MAX, 0, 0, 0], None, None, ENOSYS, (0, 0, 0)),
    (1, [0, 0, 0, 0], None, None, ENOSYS, (0, 0, 0)),
    (1, [404, 0, 0, 0], None, None, ENOSYS, (0, 0, 0)),
    (1, [GETPID, 0, 0, 0], None, None, 1, (0, 0, 0)),
    (1, [0, 0, 0, 0], None, None, ENOSYS, (0, 0, 0)),
    (1, [1, 0, 0, 0], None, None, ENOSYS, (0, 0, 0)),
    (1, [1000, 0, 0, 0], None, None, ENOSYS, (0, 0, 0)),
    (1, [1001, 0, 0, 0], None, None, ENOSYS, (0, 0, 0)),
    (1, [1002, 0, 0, 0], None, None, ENOSYS, (0, 0, 0)),
    (1, [1003, 0, 0, 0], None, None, ENOSYS, (0, 0, 0)),
    (1, [1004, 0, 0, 0], None, None, ENOSYS, (0, 0, 0)),
    (1, [1005, 0, 0, 0], None, None, ENOSYS, (0, 0, 0)),
    (1, [1006, 0, 0, 0], None, None, ENOSYS, (0, 0, 0)),
    (1, [1007, 0, 0, 0], None, None, ENOSYS, (0, 0, 0)),
    (1, [1008, 0, 0, 0], None, None, ENOSYS, (0, 0, 0)),
    (1, [1009, 0, 0, 0], None, None, ENOSYS, (0, 0, 0)),
    (1, [1010, 0, 0, 0], None, None, ENOSYS, (0, 0, 0)),
    (1, [1011, 0, 0, 0], None, None, ENOSYS, (0, 0, 0)),
    (1, [1012, 0, 0, 0], None, None, ENOSYS, (0, 0, 0)),
    (1, [1013, 0, 0, 0], None, None, ENOSYS, (0, 0, 0)),
    (1, [1014, 0, 0, 0], None, None, ENOSYS, (0, 0, 0)),
    (1, [1015, 0, 0, 0], None, None, ENOSYS, (0, 0, 0)),
    (1, [1016, 0, 0, 0], None, None, ENOSYS, (0, 0, 0)),
    (1, [1017, 0, 0, 0], None, None, ENOSYS, (0, 0, 0)),
    (1, [1018, 0, 0, 0], None, None, ENOSYS, (0, 0, 0)),
    (1, [1019, 0, 0, 0], None, None, ENOSYS, (0, 0, 0)),
    (
        2,
        [WRITEV, 1, 200, 3],
        Some([0, 4, 4, 0, 4, 6]),
        None,
        10,
        (10, 0, 0),
    ),
    (
        2,
        [WRITEV, 1, 200, 2],
        Some([10, 5, 15, 2, 17, 9]),
        None,
        7,
        (17, 0, 0),
    ),
    (
        2,
        [WRITEV, 2, 200, 1],
        Some([30, 3, 0, 0, 0, 0]),
        None,
        3,
        (17, 3, 0),
    ),
    (
        2,
        [WRITEV, 2, 208, 2],
        Some([0, 9, 33, 1, 34, 1]),
        None,
        2,
        (17, 5, 0),
    ),
    (
        2,
        [WRITEV, 1, 200, 0],
        Some([17, 1, 18, 1, 19, 1]),
        None,
        0,
        (17, 5, 0),
    ),
    (
        2,
        [WRITEV, 1, 200, 3],
        Some([17, 3, 300, 1, 20, 1]),
        None,
        3,
        (20, 5, 0),
    ),
    (
        2,
        [WRITEV, 1, 200, 3],
        Some([300, 1, 20, 3, 23, 1]),
        None,
        EFAULT,
        (20, 5, 0),
    ),
    (
        2,
        [WRITEV, 2, 200, 2],
        Some([35, 2, 299, 2, 0, 0]),
        None,
        3,
        (20, 8, 0),
    ),
    (
        2,
        [WRITEV, 1, 200, 2],
        Some([20, 2, 22, 0xffff_fff0, 0, 0]),
        None,
        EINVAL,
        (20, 8, 0),
    ),
    (
        2,
        [WRITEV, 1, 200, 2],
        Some([20, 2, 22, 0x8000_0000, 0, 0]),
        None,
        EINVAL,
        (20, 8, 0),
    ),
    (
        2,
        [WRITEV, 1, 200, 2],
        Some([20, 2, 0xffff_fff0, 17, 0, 0]),
        None,
        2,
        (22, 8, 0),
    ),
    (
        2,
        [WRITEV, 1, 200, 1025],
        Some([22, 2, 24, 2, 0, 0]),
        None,
        EINVAL,
        (22, 8, 0),
    ),
    (
        2,
        [WRITEV, 1, 200, 13],
        Some([22, 2, 24, 2, 0, 0]),
        None,
        EFAULT,
        (22, 8, 0),
    ),
    (
        2,
        [WRITEV, 1, 0xffff_fff8, 2],
        Some([22, 2, 24, 2, 0, 0]),
        None,
        EFAULT,
        (22, 8, 0),
    ),
    (
        2,
        [WRITEV, 0, 200, 1],
        Some([22, 2, 24, 2, 0, 0]),
        None,
        EBADF,
        (22, 8, 0),
    ),
    (
        2,
        [WRITEV, 3, 200, 1],
        Some([22, 2, 24, 2, 0, 0]),
        None,
        EBADF,
        (22, 8, 0),
    ),
    (
        2,
        [WRITEV, 1, 202, 1],
        Some([0x0016_0000, 0x0002_0000, 0, 0, 0, 0]),
        None,
        2,
        (24, 8, 0),
    ),
    (3, [WRITE, 1, 0, 300], None, None, 300, (300, 0, 0)),
    (3, [WRITE, 1, 300, 0], None, None, 0, (300, 0, 0)),
    (3, [WRITE, 1, 300, 0], None, None, 0, (300, 0, 0)),
    (4, [WRITE, 1, 0, 300], None, None, EIO, (0, 0, 1)),
    (4, [WRITE, 1, 0, 300], None, None, 300, (300, 0, 1)),
    (4, [WRITE, 1, 300, 0], None, None, 0, (300, 0, 1)),
    (5, [WRITE, 1, 0, 300], None, None, EIO, (0, 0, 1)),
    (5, [WRITE, 1, 0, 300], None, None, EIO, (0, 0, 2)),
    (5, [WRITE, 1, 0, 300], None, None, EIO, (0, 0, 3)),
    (6, [WRITE, 1, 0, 300], None, None, EIO, (0, 0, 1)),
    (6, [WRITE, 1, 0, 300], None, None, 7, (7, 0, 2)),
    (6, [WRITE, 1, 7, 293], None, None, EIO, (7, 0, 3)),
    (7, [WRITE, 1, 0, 300], None, None, 256, (256, 0, 1)),
    (7, [WRITE, 1, 256, 44], None, None, EIO, (256, 0, 2)),
    (7, [WRITE, 1, 256, 44], None, None, 44, (300, 0, 2)),
    (8, [WRITE, 1, 0, 300], None, None, 256, (256, 0, 1)),
    (8, [WRITE, 1, 256, 44], None, None, 1, (257, 0, 2)),
    (8, [WRITE, 1, 257, 43], None, None, 43, (300, 0, 2)),
    (9, [WRITE, 1, 0, 300], None, None, 256, (256, 0, 1)),
    (9, [WRITE, 1, 256, 44], None, None, 44, (300, 0, 1)),
    (9, [WRITE, 1, 300, 0], None, None, 0, (300, 0, 1)),
    (10, [WRITE, 1, 0, 300], None, None, 256, (256, 0, 1)),
    (10, [WRITE, 1, 0, 4], None, Some(141), EPIPE, (256, 0, 2)),
    (10, [WRITE, 1, 0, 4], None, None, 4, (260, 0, 2)),
    (10, [WRITE, 1, 0, 0], None, None, 0, (260, 0, 2)),
    (
        11,
        [WRITEV, 1, 200, 2],
        Some([0, 2, 2, 4, 0, 0]),
        None,
        2,
        (2, 0, 1),
    ),
    (
        11,
        [WRITEV, 1, 200, 2],
        Some([2, 2, 4, 4, 0, 0]),
        Some(141),
        EPIPE,
        (2, 0, 2),
    ),
    (
        11,
        [WRITEV, 1, 200, 2],
        Some([2, 2, 4, 4, 0, 0]),
        None,
        2,
        (4, 0, 3),
    ),
    (
        11,
        [WRITEV, 1, 200, 2],
        Some([4, 2, 6, 4, 0, 0]),
        None,
        6,
        (10, 0, 3),
    ),
    (12, [READ, 0, 0, 0], None, None, 0, (0, 0, 0)),
    (12, [READ, 0, 0, 10], None, None, 5, (0, 0, 0)),
    (12, [READ, 0, 292, 40], None, None, 8, (0, 0, 0)),
    (12, [READ, 0, 292, 40], None, None, 8, (0, 0, 0)),
    (12, [READ, 0, 5, 1], None, None, 1, (0, 0, 0)),
    (12, [READ, 0, 6, 40], None, None, 3, (0, 0, 0)),
    (12, [READ, 0, 9, 40], None, None, EIO, (0, 0, 0)),
    (12, [READ, 0, 9, 40], None, None, EIO, (0, 0, 0)),
    (12, [READ, 0, 9, 40], None, None, 40, (0, 0, 0)),
    (12, [READ, 0, 49, 300], None, None, 35, (0, 0, 0)),
    (12, [READ, 0, 84, 300], None, None, 0, (0, 0, 0)),
    (12, [READ, 0, 300, 1], None, None, 0, (0, 0, 0)),
    (12, [WRITE, 1, 0, 5], None, None, 5, (5, 0, 0)),
    (12, [WRITE, 2, 5, 79], None, None, 79, (5, 79, 0)),
];

/// The call of a scene that is not answered as it has to be.
fn wrong_call(linux: &mut Streams<'_>, memory: &mut VecMemory, scene: usize) -> Option<usize> {
    for (row, &(place, request, words, end, answer, held)) in CALLS.iter().enumerate() {
        if place == scene {
            if let Some(words) = words {
                put_words(memory, &words);
            }
            let [number, first, second, third] = request;
            let seen = call(linux, memory, [number, first, second, third, 0, 0]);
            let output = linux.output.stream.written.len();
            let errors = linux.errors.stream.written.len();
            if seen != (end, answer) || (output, errors, linux.output.short_writes()) != held {
                return Some(row);
            }
        }
    }
    None
}

/// Whether what is left of a scene is right. Standard output has numbers from 0 on: no byte is
/// lost, and none is written twice.
fn is_left(linux: &Streams<'_>, scene: &Scene) -> bool {
    let output = linux.output.stream.written.as_slice();
    counts(output, &[(0, output.len())])
        && counts(&linux.errors.stream.written, &scene.errors)
        && linux.output.is_broken() == scene.is_broken
        && linux.unserved.as_slice() == scene.unserved
}

#[test]
fn calls_answer(rt: HostRuntime) -> Result<(), Fail> {
    for (number, scene) in SCENES.iter().enumerate() {
        let mut memory = numbered(rt.alloc())?;
        let mut linux = environment(rt.alloc(), scene.reads, scene.writes);
        let wrong = wrong_call(&mut linux, &mut memory, number);
        let is_right = wrong.is_none() && is_left(&linux, scene);
        assert!(rt; is_right, "{}: {wrong:?}", scene.name);
    }
    Ok(())
}

/// Calls of a recorder, each with how it ends and its answer, and with what is left of the input
/// and held of the output and of the errors after it.
static RECORDED: [([u32; 4], Answered, (usize, usize, usize)); 29] = [
    ([WRITE, 1, 0, 4], (None, 4), (3, 4, 0)),
    ([WRITE, 1, 4, 10], (None, 6), (3, 10, 0)),
    ([WRITE, 1, 10, 1], (None, ENOSPC), (3, 10, 0)),
    ([WRITE, 1, 10, 0], (None, 0), (3, 10, 0)),
    ([WRITE, 2, 298, 5], (None, 2), (3, 10, 2)),
    ([WRITE, 2, 300, 1], (None, EFAULT), (3, 10, 2)),
    ([WRITE, 2, 0xffff_fff0, 17], (None, EFAULT), (3, 10, 2)),
    ([WRITE, 0, 0, 1], (None, EBADF), (3, 10, 2)),
    ([READ, 0, 100, 2], (None, 2), (1, 10, 2)),
    ([READ, 0, 300, 1], (None, EFAULT), (1, 10, 2)),
    ([READ, 0, 0xffff_fff0, 17], (None, EFAULT), (1, 10, 2)),
    ([READ, 0, 102, 9], (None, 1), (0, 10, 2)),
    ([READ, 0, 300, 9], (None, 0), (0, 10, 2)),
    ([WRITE, 2, 100, 3], (None, 3), (0, 10, 5)),
    ([WRITEV, 2, 0, 0], (None, 0), (0, 10, 5)),
    ([WRITEV, 1, 296, 1], (None, EFAULT), (0, 10, 5)),
    ([NEWFSTATAT, 1, 48, 200], (None, ENOTDIR), (0, 10, 5)),
    ([STATX, 1, 300, 0], (None, EFAULT), (0, 10, 5)),
    ([CLOCK_GETTIME64, 1, 200, 0], (None, 0), (0, 10, 5)),
    ([GETTIMEOFDAY, 290, 0, 0], (None, EFAULT), (0, 10, 5)),
    ([BRK, 96, 0, 0], (None, 96), (0, 10, 5)),
    ([57, 3, 0, 0], (None, EBADF), (0, 10, 5)),
    ([LSEEK, 2, 0, 0], (None, ESPIPE), (0, 10, 5)),
    ([FSTAT, 1, 200, 0], (None, EFAULT), (0, 10, 5)),
    ([278, 0, 5, 0], (None, 5), (0, 10, 5)),
    ([278, 296, 5, 0], (None, 4), (0, 10, 5)),
    ([278, 0, 5, 8], (None, EINVAL), (0, 10, 5)),
    ([160, 0, 0, 0], (None, EFAULT), (0, 10, 5)),
    ([93, 0x107, 0, 0], (Some(7), 0x107), (0, 10, 5)),
];

/// A recorder of three bytes of input and with room for ten bytes, and a memory.
#[derive(Drop)]
struct Recording<'a> {
    recorder: OutputRecorder<'a>,
    memory: VecMemory,
}

impl<'a> Recording<'a> {
    fn new(alloc: Global) -> Result<Self, AllocError> {
        let memory = numbered(alloc)?;
        let recorder = OutputRecorder::new(alloc, &[0, 1, 2], 10, Heap::new(64, 96))?;
        Ok(Recording { recorder, memory })
    }

    /// Serves a call.
    fn call(&mut self, request: [u32; 4]) -> Answered {
        let [number, first, second, third] = request;
        let request = [number, first, second, third, 0, 0];
        serve(&mut self.recorder, &mut self.memory, request)
    }

    /// What is left of the input, and held of the output and of the errors.
    fn held(&self) -> (usize, usize, usize) {
        let recorder = &self.recorder;
        (
            recorder.input.len(),
            recorder.output.len(),
            recorder.errors.len(),
        )
    }
}

/// Whether two recorders hold the same, and are as far in their inputs.
fn are_alike(first: &OutputRecorder<'_>, second: &OutputRecorder<'_>) -> bool {
    let outputs = first.output.as_slice() == second.output.as_slice();
    let errors = first.errors.as_slice() == second.errors.as_slice();
    let machine = first.heap == second.heap && first.random == second.random;
    outputs && errors && machine && first.input == second.input
}

/// The call of the table that two recorders do not answer as they have to. They are alike after
/// each.
fn wrong_record(first: &mut Recording<'_>, second: &mut Recording<'_>) -> Option<usize> {
    for (row, &(request, answered, held)) in RECORDED.iter().enumerate() {
        let is_answered = first.call(request) == answered && second.call(request) == answered;
        let is_held = first.held() == held && are_alike(&first.recorder, &second.recorder);
        if !(is_answered && is_held) {
            return Some(row);
        }
    }
    None
}

// Two recorders that are alike answer each call alike, and hold the same afterwards.
#[test]
fn alike_recorders_answer_alike(rt: HostRuntime) -> Result<(), Fail> {
    records_determined();
    let mut first = Recording::new(rt.alloc())?;
    let mut second = Recording::new(rt.alloc())?;
    let wrong = wrong_record(&mut first, &mut second);
    let (output, errors) = (&first.recorder.output, &first.recorder.errors);
    let is_left = counts(output, &[(0, 10)]) && counts(errors, &[(42, 2), (0, 3)]);
    assert!(rt; wrong.is_none() && is_left, "call {wrong:?}");
    Ok(())
}
