//! What a program starts with that options give it: variables of its environment, and random bytes.

use crate::machine::Contents;
use crate::programs::{Program, run};
use std::process::ExitCode;

/// An executable that ends with the first byte of the first variable of its environment, where it
/// has one argument, its path: lw x10, 12(x2) / lbu x10, 0(x10) / addi x17, x0, 93 / ecall.
const FIRST_VARIABLE: &[u8] = b"\x7f\x45\x4c\x46\x01\x01\x01\x00\x00\x00\x00\x00\x00\x00\x00\x00\
    \x02\x00\xf3\x00\x01\x00\x00\x00\x54\x00\x01\x00\x34\x00\x00\x00\
    \x00\x00\x00\x00\x00\x00\x00\x00\x34\x00\x20\x00\x01\x00\x28\x00\x00\x00\x00\x00\
    \x01\x00\x00\x00\x00\x00\x00\x00\x00\x00\x01\x00\x00\x00\x01\x00\
    \x64\x00\x00\x00\x64\x00\x00\x00\x07\x00\x00\x00\x00\x10\x00\x00\
    \x03\x25\xc1\x00\x03\x45\x05\x00\x93\x08\xd0\x05\x73\x00\x00\x00";

/// An executable that ends with a byte of `getrandom`: addi x17, x0, 278 / lui x10, 0x10 / addi x11,
/// x0, 1 / ecall / lui x10, 0x10 / lbu x10, 0(x10) / addi x17, x0, 93 / ecall.
const RANDOM_BYTE: &[u8] = b"\x7f\x45\x4c\x46\x01\x01\x01\x00\x00\x00\x00\x00\x00\x00\x00\x00\
    \x02\x00\xf3\x00\x01\x00\x00\x00\x54\x00\x01\x00\x34\x00\x00\x00\
    \x00\x00\x00\x00\x00\x00\x00\x00\x34\x00\x20\x00\x01\x00\x28\x00\x00\x00\x00\x00\
    \x01\x00\x00\x00\x00\x00\x00\x00\x00\x00\x01\x00\x00\x00\x01\x00\
    \x74\x00\x00\x00\x74\x00\x00\x00\x07\x00\x00\x00\x00\x10\x00\x00\
    \x93\x08\x60\x11\x37\x05\x01\x00\x93\x05\x10\x00\x73\x00\x00\x00\
    \x37\x05\x01\x00\x03\x45\x05\x00\x93\x08\xd0\x05\x73\x00\x00\x00";

/// The executables, and the host's random bytes: as many as a seed has.
const FILES: [Contents<'static>; 3] = [
    Contents {
        name: "variable",
        bytes: FIRST_VARIABLE,
        fails: false,
    },
    Contents {
        name: "random",
        bytes: RANDOM_BYTE,
        fails: false,
    },
    Contents {
        name: "/dev/urandom",
        bytes: b"\x01\x02\x03\x04\x05\x06\x07\x08",
        fails: true,
    },
];

/// Words of a command line, and the status with which `rrs` ends.
type Started = (&'static [&'static [u8]], u8);

/// The random bytes are the lowest of the first number of SplitMix64, 0xe220a8397b1dcdaf from the
/// seed 0 and 0x02b9b24bd81caf32 from 0x0807060504030201.
static STARTED: [Started; 8] = [
    (&[b"rrs", b"exec", b"variable"], 139),
    (&[b"rrs", b"exec", b"--env=A=1", b"variable"], 65),
    (
        &[
            b"rrs",
            b"exec",
            b"--env",
            b"A=1",
            b"--env",
            b"B=2",
            b"variable",
        ],
        66,
    ),
    (
        &[
            b"rrs",
            b"trace",
            b"--env",
            b"C=3",
            b"--env",
            b"D=4",
            b"variable",
        ],
        68,
    ),
    (&[b"rrs", b"cover", b"--env", b"E=5", b"variable"], 69),
    (&[b"rrs", b"exec", b"random"], 0xaf),
    (&[b"rrs", b"trace", b"random"], 0xaf),
    (&[b"rrs", b"exec", b"--random=host", b"random"], 0x32),
];

#[test]
fn starts_with_what_options_give(rt: HostRuntime) {
    for (index, &(words, status)) in STARTED.iter().enumerate() {
        let left = run(rt.alloc(), Program::Rrs, words, &FILES, 10_000);
        assert!(rt; left.status == ExitCode::from(status), "at {index}");
    }
}

/// The host's random bytes, or none, and what is said where they can't be read.
static UNREAD: [(Option<Contents<'static>>, &str); 3] = [
    (None, "rrs exec: /dev/urandom: No such file or directory\n"),
    (
        Some(Contents {
            name: "/dev/urandom",
            bytes: b"\x01\x02\x03\x04\x05\x06\x07",
            fails: false,
        }),
        "rrs exec: /dev/urandom: Input/output error\n",
    ),
    (
        Some(Contents {
            name: "/dev/urandom",
            bytes: b"\x01",
            fails: true,
        }),
        "rrs exec: /dev/urandom: Is a directory\n",
    ),
];

#[test]
fn runs_nothing_without_random_bytes_of_the_host(rt: HostRuntime) {
    let words: [&[u8]; 5] = [b"rrs", b"exec", b"--random", b"host", b"random"];
    for (index, &(host, line)) in UNREAD.iter().enumerate() {
        let [_, program, _] = FILES;
        let files = [program, host.unwrap_or(program)];
        let left = run(rt.alloc(), Program::Rrs, &words, &files, 10_000);
        let is_refused = left.status == ExitCode::from(125)
            && left.said.as_slice() == line.as_bytes();
        assert!(rt; is_refused, "at {index}");
    }
}
