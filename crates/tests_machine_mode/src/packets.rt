//! Sessions of packets, and what they are answered.

use rrs_gdb::{Link, LinkError, PlainRunner, SessionEnd, SessionState, Settings, encode, serve};
use rrs_lib::HartState;
use rrs_lib::instruction_executor::InstructionExecutor;
use rrs_lib::memories::VecMemory;
use rrs_linux::{Heap, OutputRecorder};
use std::alloc::{AllocError, Global};
use std::test::Fail;

/// A store, a load, a `write` of four bytes, a `read` of two, and an exit with status 5.
const PROGRAM: [u32; 20] = [
    0x0640_0093, // 0x00: addi x1, x0, 100
    0x0410_2023, // 0x04: sw x1, 64(x0)
    0x0400_2103, // 0x08: lw x2, 64(x0)
    0x0010_0513, // 0x0c: addi a0, x0, 1
    0x0400_0593, // 0x10: addi a1, x0, 64
    0x0040_0613, // 0x14: addi a2, x0, 4
    0x0400_0893, // 0x18: addi a7, x0, 64
    0x0000_0073, // 0x1c: ecall
    0x0000_0513, // 0x20: addi a0, x0, 0
    0x0020_0613, // 0x24: addi a2, x0, 2
    0x03f0_0893, // 0x28: addi a7, x0, 63
    0x0000_0073, // 0x2c: ecall
    0x0050_0513, // 0x30: addi a0, x0, 5
    0x05d0_0893, // 0x34: addi a7, x0, 93
    0x0000_0073, // 0x38: ecall
    0,
    0x4443_4241, // 0x40
    0,
    0,
    0,
];

/// What the stub sends for packets, whose payloads stand with a bar between, and how it ends.
fn answers_to(
    alloc: Global,
    payloads: &str,
) -> Result<(Vec<u8>, Result<SessionEnd, LinkError>), AllocError> {
    let mut input = Vec::new(alloc);
    for payload in payloads.split('|') {
        let frame = encode(alloc, payload.as_bytes())?;
        input.extend_from_slice(&frame)?;
    }
    session(alloc, &input)
}

/// What the stub sends for bytes, and how it ends.
fn session(
    alloc: Global,
    packets: &[u8],
) -> Result<(Vec<u8>, Result<SessionEnd, LinkError>), AllocError> {
    let mut output = Vec::new(alloc);
    let end = session_of(alloc, b"/a", b"xyz", packets, &mut output)?;
    Ok((output, end))
}

/// The same for a program at a path and with an input. What is sent goes to `output`.
fn session_of<'a>(
    alloc: Global,
    path: &'a [u8],
    input: &'a [u8],
    packets: &[u8],
    output: &mut Vec<u8>,
) -> Result<Result<SessionEnd, LinkError>, AllocError> {
    let settings = Settings {
        limit: 100,
        history: 100,
        stops_at_exit: true,
    };
    let mut state = SessionState::new(alloc, settings, path, input)?;
    let mut environment = OutputRecorder::new(alloc, input, 64, Heap::new(0x48, 0x50))?;
    let mut memory = VecMemory::new(PROGRAM.to_vec(alloc)?);
    let mut hart = HartState::new();
    Ok(served(
        alloc,
        &mut state,
        &mut environment,
        &mut memory,
        &mut hart,
        packets,
        output,
    ))
}

/// Serves packets.
fn served<'a>(
    alloc: Global,
    state: &mut SessionState<'a>,
    environment: &mut OutputRecorder<'a>,
    mem: &mut VecMemory,
    hart_state: &mut HartState,
    packets: &[u8],
    output: &mut Vec<u8>,
) -> Result<SessionEnd, LinkError> {
    let mut executor = InstructionExecutor { mem, hart_state };
    let mut reader = packets;
    let mut link = Link::new(alloc, &mut reader, output);
    serve(
        &mut PlainRunner,
        state,
        &mut executor,
        environment,
        &mut link,
    )
}

/// What is wanted: an acknowledgement, or more, and the packet of a payload, for each of the texts
/// between bars. A payload that begins with `O` follows the one before without an acknowledgement.
pub(crate) fn wanted(alloc: Global, payloads: &str) -> Result<Vec<u8>, AllocError> {
    let mut output = Vec::new(alloc);
    output.push(b'+')?;
    for payload in payloads.split('|') {
        match payload {
            "+" => output.push(b'+')?,
            payload => {
                let frame = encode(alloc, payload.as_bytes())?;
                output.extend_from_slice(&frame)?;
            }
        }
    }
    Ok(output)
}

/// Sessions, and what they are answered. Each packet is in one of them, in a stream below, or in a
/// session of gdb. In one of them `getrandom` is called, taken back, and called again; in another a
/// misaligned store and an AMO are watched and taken back, and a misaligned `lr.w` is a fault.
const SESSIONS: [(&str, &str); 16] = [
    ("?|!|qC", "S05|+|OK|+|QC1"),
    (
        "qAttached|!|qAttached|qfThreadInfo|qsThreadInfo|Hg0|T1|vMustReplyEmpty|q|Q",
        "1|+|OK|+|0|+|m1|+|l|+|OK|+|OK|+||+||+|",
    ),
    (
        "P1=04030201|p1|p0|p20|p21|P0=01000000|P21=00000000|P20=08000000|p20|P1=0102",
        "OK|+|04030201|+|00000000|+|00000000|+|E16|+|E16|+|E16|+|OK|+|08000000|+|E16",
    ),
    (
        "m40,4|M40,4:00010203|m40,4|M4e,4:00010203|m4e,4|m50,1|M40,2:00|M40,1:zz|m40|mfffffffff,1",
        "41424344|+|OK|+|00010203|+|E0e|+|0000|+|E0e|+|E16|+|E16|+|E16|+|E16",
    ),
    (
        "X40,0:|X40,2:ab|m40,4|X4f,2:ab|X40,3:ab|m4c,4",
        "OK|+|OK|+|61624344|+|E0e|+|E16|+|00000000",
    ),
    (
        "s|p20|s|m40,4|bs|m40,4|p20|bs|p1|bs",
        "S05|+|04000000|+|S05|+|64000000|+|S05|+|41424344|+|04000000|+|S05|+|00000000|+|T05replaylog:begin;",
    ),
    (
        "Z0,c,4|Z0,c,4|c|p20|z0,c,4|z0,c,4|Z1,10,4|vCont;c|p20|bc|c|z1,10,4|Z5,0,0|Z0,zz,4",
        "OK|+|OK|+|S05|+|0c000000|+|OK|+|OK|+|OK|+|S05|+|10000000|+|T05replaylog:begin;|+|S05|+|OK|+|E16|+|E16",
    ),
    (
        "Z2,41,1|c|p20|z2,41,1|s|Z3,40,4|c|p20|z3,40,4|s|Z4,40,4|bc|p20|z4,40,4|bs|p20|vCont?",
        "OK|+|T05watch:41;|+|04000000|+|OK|+|S05|+|OK|+|T05rwatch:40;|+|08000000|+|OK|+|S05|+|OK|+|T05awatch:40;|+|0c000000|+|OK|+|S05|+|08000000|+|vCont;c;C;s;S",
    ),
    ("c|pa|c|?|g0", "O64000000|S05|+|05000000|+|W05|+|W05|+|"),
    (
        "QCatchSyscalls:1;3f|c|c|m40,4|bc|c|c|c|QCatchSyscalls:0|QCatchSyscalls:x|C00",
        "OK|+|O64000000|T05syscall_entry:3f;|+|T05syscall_return:3f;|+|78790000|+|T05replaylog:begin;|+|T05syscall_entry:3f;|+|T05syscall_return:3f;|+|S05|+|OK|+|E16|+|W05",
    ),
    (
        "qRcmd,7374657073|qRcmd,6c696d69742032|c|qRcmd,686973746f72792030|bs|qRcmd,78|qRcmd,z|S05|c",
        "73746570733a20302c206f6620776869636820302063616e2062652074616b656e206261636b0a|+|6c696d69743a20320a|+|S02|+|686973746f72793a20300a|+|T05replaylog:begin;|+|6d6f6e69746f722073746570733a20686f77206d616e792073746570732077657265206d6164652c20616e642063616e2062652074616b656e206261636b0a6d6f6e69746f72206c696d6974205b4e5d3a20746865206d6f7374207374657073206f66206120636f6e74696e75650a6d6f6e69746f7220686973746f7279205b4e5d3a20746865206d6f7374207374657073207468617420617265206b6570742c206f6620776869636820746865206c617465737420737461790a6d6f6e69746f722073746f702d61742d65786974205b6f6e7c6f66665d3a2077686574686572207468652070726f6772616d2073746f7073206f6e636520776865726520697420697320746f20657869740a63617463682073797363616c6c3a2077686572652067646220646f6573206e6f7420686176652069742c20627265616b20617420616e206563616c6c2c2061732027627265616b202a3078313032303420696620246137203d3d203634270a|+|E16|+|X05|+|X05",
    ),
    (
        "s|s|qRcmd,7374657073|bs|qRcmd,7374657073|c|qRcmd,7374657073|Z4,40,4|bc|qRcmd,7374657073|z4,40,4|bc|qRcmd,7374657073",
        "S05|+|S05|+|73746570733a20322c206f6620776869636820322063616e2062652074616b656e206261636b0a|+|S05|+|73746570733a20312c206f6620776869636820312063616e2062652074616b656e206261636b0a|+|O64000000|S05|+|73746570733a2031342c206f662077686963682031342063616e2062652074616b656e206261636b0a|+|OK|+|T05awatch:40;|+|73746570733a20332c206f6620776869636820332063616e2062652074616b656e206261636b0a|+|OK|+|T05replaylog:begin;|+|73746570733a20302c206f6620776869636820302063616e2062652074616b656e206261636b0a",
    ),
    (
        "P20=1c000000|P11=16010000|Pa=40000000|Pb=04000000|Pc=00000000|s|m40,4|pa|bs|m40,4|s|m40,4|P20=1c000000|Pa=40000000|s|m40,4",
        "OK|+|OK|+|OK|+|OK|+|OK|+|S05|+|afcd1d7b|+|04000000|+|S05|+|41424344|+|S05|+|afcd1d7b|+|OK|+|OK|+|S05|+|b0ba6349",
    ),
    (
        "M0,14:9300100423a0100013014004af2111002fa20010|s|s|m40,8|bs|m40,8|p20|Z2,43,1|c|p20|z2,43,1|Z3,44,4|c|p20|z3,44,4|s|m44,4|p3|Z4,41,1|bc|p20|m40,8|z4,41,1|c|p20|qRcmd,7374657073|bs|p20|m44,4|bc|Z0,8,4|c|p20",
        "OK|+|S05|+|S05|+|4141000000000000|+|S05|+|4142434400000000|+|04000000|+|OK|+|T05watch:43;|+|04000000|+|OK|+|OK|+|T05rwatch:44;|+|0c000000|+|OK|+|S05|+|41000000|+|00000000|+|OK|+|T05awatch:41;|+|08000000|+|4141000000000000|+|OK|+|S0a|+|10000000|+|73746570733a20342c206f6620776869636820342063616e2062652074616b656e206261636b0a|+|S05|+|0c000000|+|00000000|+|T05replaylog:begin;|+|OK|+|S05|+|08000000",
    ),
    (
        "qXfer:exec-file:read:1:0,1|qXfer:exec-file:read:1:1,9|qXfer:features:read:a:0,9|qXfer:exec-file:read:1:9|vKill;1",
        "m/|+|la|+|E00|+|E16|+|OK",
    ),
    (
        "G000000000100000000000000000000000000000000000000000000000000000000000000\
000000000000000000000000000000000000000000000000000000000000000000000000\
000000000000000000000000000000000000000000000000000000000000000000000000\
000000000000000000000000000000000000000030000000|p1|p20|G00|vCont;s:1|pa|S00|p11|vCont;C05:1|vRun;61;62",
        "OK|+|01000000|+|30000000|+|E16|+|S05|+|05000000|+|S05|+|5d000000|+|X05|+",
    ),
];

#[test]
fn each_session_is_answered(rt: HostRuntime) -> Result<(), Fail> {
    let alloc = rt.alloc();
    let mut wrong = Vec::new(alloc);
    for (index, (payloads, answers)) in SESSIONS.iter().enumerate() {
        let (sent, _end) = answers_to(alloc, payloads)?;
        if sent.as_slice() != wanted(alloc, answers)?.as_slice() {
            wrong.push(index)?;
        }
    }
    assert_eq!(rt; wrong.as_slice(), [].as_slice());
    Ok(())
}

/// Each packet that the stub knows, in a session of its own, and three that it does not know; then
/// the signal of each fault, and a program that does not stop before it exits. `G` stands in the
/// sessions above, and `k`, `R` and `vRun`, which are not answered, in the streams below.
const PACKETS: [(&str, &str); 57] = [
    ("?", "S05"),
    ("!", "OK"),
    (
        "g",
        "000000000000000000000000000000000000000000000000000000000000000000000000000000000000000000000000000000000000000000000000000000000000000000000000000000000000000000000000000000000000000000000000000000000000000000000000000000000000000000000000000000000000000000000000",
    ),
    ("p20", "00000000"),
    ("P1=01000000", "OK"),
    ("m40,4", "41424344"),
    ("M40,1:00", "OK"),
    ("X40,1:a", "OK"),
    ("c", "O64000000|S05"),
    ("C00", "O64000000|S05"),
    ("C0b", "X0b"),
    ("s", "S05"),
    ("S00", "S05"),
    ("S04", "X04"),
    ("vCont?", "vCont;c;C;s;S"),
    ("vCont;c", "O64000000|S05"),
    ("vCont;C00:1", "O64000000|S05"),
    ("vCont;s:1", "S05"),
    ("vCont;S00", "S05"),
    ("bs", "T05replaylog:begin;"),
    ("bc", "T05replaylog:begin;"),
    ("Z0,4,4", "OK"),
    ("Z1,4,4", "OK"),
    ("Z2,40,4", "OK"),
    ("Z3,40,4", "OK"),
    ("Z4,40,4", "OK"),
    ("z0,4,4", "OK"),
    ("z1,4,4", "OK"),
    ("z2,40,4", "OK"),
    ("z3,40,4", "OK"),
    ("z4,40,4", "OK"),
    ("Hc-1", "OK"),
    ("T1", "OK"),
    ("D;1", "OK"),
    ("vKill;1", "OK"),
    (
        "qSupported:swbreak+",
        "PacketSize=4000;QStartNoAckMode+;qXfer:features:read+;qXfer:exec-file:read+;ReverseStep+;ReverseContinue+;QCatchSyscalls+;vContSupported+",
    ),
    (
        "qXfer:features:read:target.xml:0,15",
        "m<?xml version=\"1.0\"?>",
    ),
    ("qXfer:exec-file:read:1:0,9", "l/a"),
    ("qAttached", "1"),
    ("qC", "QC1"),
    ("qfThreadInfo", "m1"),
    ("qsThreadInfo", "l"),
    ("QStartNoAckMode", "OK"),
    ("QCatchSyscalls:1", "OK"),
    (
        "qRcmd,7374657073",
        "73746570733a20302c206f6620776869636820302063616e2062652074616b656e206261636b0a",
    ),
    ("qRcmd,6c696d69742035", "6c696d69743a20350a"),
    ("qRcmd,686973746f72792039", "686973746f72793a20390a"),
    (
        "qRcmd,73746f702d61742d65786974206f6666",
        "73746f702d61742d657869743a206f66660a",
    ),
    (
        "qRcmd,73746f702d61742d65786974206f6e",
        "73746f702d61742d657869743a206f6e0a",
    ),
    ("vMustReplyEmpty", ""),
    ("qTStatus", ""),
    ("x40,4", ""),
    ("P20=3c000000|s", "OK|+|S04"),
    ("M3c,4:73001000|P20=3c000000|c", "OK|+|OK|+|S05"),
    ("P20=02000000|s", "OK|+|S0a"),
    ("P20=00100000|s", "OK|+|S0b"),
    (
        "qRcmd,73746f702d61742d65786974206f6666|c",
        "73746f702d61742d657869743a206f66660a|+|O64000000|W05",
    ),
];

#[test]
fn each_packet_is_answered(rt: HostRuntime) -> Result<(), Fail> {
    let alloc = rt.alloc();
    let mut wrong = Vec::new(alloc);
    for (index, (payloads, answers)) in PACKETS.iter().enumerate() {
        let (sent, _end) = answers_to(alloc, payloads)?;
        if sent.as_slice() != wanted(alloc, answers)?.as_slice() {
            wrong.push(index)?;
        }
    }
    assert_eq!(rt; wrong.as_slice(), [].as_slice());
    Ok(())
}

/// Bytes that are no packets alone, what is sent for them, and how the session ends.
const STREAMS: [(&[u8], &[u8], SessionEnd); 9] = [
    (b"", b"", SessionEnd::Ended),
    (b"+-$?#3f$k#6b$?#3f", b"+$S05#b8+", SessionEnd::Ended),
    (b"$?#00$?#3f-", b"-+$S05#b8$S05#b8", SessionEnd::Ended),
    (b"$?$qC#b4$D#44$?#3f", b"+$QC1#c5+$OK#9a", SessionEnd::Ended),
    (b"$}#7d$a}\x03#e1$?#3", b"+$E16#ac+$#00", SessionEnd::Ended),
    (
        b"$QStartNoAckMode#b0$?#00$?#3f",
        b"+$OK#9a$E16#ac$S05#b8",
        SessionEnd::Ended,
    ),
    (b"$k#6b$?#3f", b"+", SessionEnd::Ended),
    (b"$vRun;61#4d", b"+", SessionEnd::Restart),
    (b"$R00#b2", b"+", SessionEnd::Restart),
];

#[test]
fn each_stream_is_answered(rt: HostRuntime) -> Result<(), Fail> {
    let alloc = rt.alloc();
    let mut wrong = Vec::new(alloc);
    for (index, (input, output, wanted_end)) in STREAMS.iter().enumerate() {
        let (sent, end) = session(alloc, input)?;
        if sent.as_slice() != *output || end != Ok(*wanted_end) {
            wrong.push(index)?;
        }
    }
    assert_eq!(rt; wrong.as_slice(), [].as_slice());
    Ok(())
}
