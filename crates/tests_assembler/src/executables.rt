//! What the executable of a program has where the ELF specification has it.

use crate::assembled::made;
use rrs_asm_output::{ExecutableError, executable_of};
use std::alloc::Global;

/// An executable of 32 bits, lowest byte first, for RISC-V, which begins at 0x10004.
const AT_SECOND: &[u8] = b"\x7fELF\x01\x01\x01\0\0\0\0\0\0\0\0\0\
                           \x02\0\xf3\0\x01\0\0\0\x04\0\x01\0";

/// The same, which begins at 0x10002.
const BETWEEN: &[u8] = b"\x7fELF\x01\x01\x01\0\0\0\0\0\0\0\0\0\
                         \x02\0\xf3\0\x01\0\0\0\x02\0\x01\0";

/// Sources at 0x10000, each with how its executable begins, and the lowest byte of `e_flags`. The
/// entry is `_start`. A program that would begin among its data, or at an odd address, has no
/// executable, and nothing stands here.
static CASES: [(&[u8], &[u8], u8); 7] = [
    (b"nop\n_start: nop", AT_SECOND, 0),
    (b"nop\n.data\n_start: nop", b"", 0),
    (b".data\n.word 19", b"", 0),
    (b"c.nop\n_start: nop", BETWEEN, 1),
    (b".option rvc\nnop\n_start: nop", AT_SECOND, 1),
    (b".half 1\n_start: .half 1", b"", 0),
    (b"c.nop\n.byte 1\n_start: .byte 0", b"", 1),
];

/// Whether the executable of a source begins so. Where nothing is wanted its entry is refused.
fn has_executable(alloc: Global, source: &[u8], head: &[u8], flags: u8) -> bool {
    let Ok(program) = made(alloc, source, 0x10000) else {
        return false;
    };
    match executable_of(alloc, &program) {
        Ok(file) => { !head.is_empty() && file.starts_with(head) && file.get(36) == Some(&flags) }
        Err(ExecutableError::Entry(_)) => head.is_empty(),
        Err(_) => false,
    }
}

#[test]
fn executables_begin_at_their_start(rt: HostRuntime) {
    for (index, &(source, head, flags)) in CASES.iter().enumerate() {
        assert!(rt;
            has_executable(rt.alloc(), source, head, flags),
            "at {index}"
        );
    }
}
