//! `rrs gdb --board`: firmware under gdb, which speaks by standard input and standard output.

use crate::debugging::{input_of, refused};
use rrs_board_gdb::{BoardSession, serve};
use rrs_fast::Ending;
use rrs_gdb::Link;
use rrs_run_commands::boards::board_of;
use rrs_run_commands::refusal::{Refusal, out_of_memory};
use rrs_run_commands::requests::Request;
use std::alloc::Global;
use std::io::{BufReader, Read, Write};
use std::rt::Files;

/// Answers gdb's packets for a session, until gdb ends it.
fn answer<'a, R: Read, W: Write>(
    alloc: Global,
    mut session: BoardSession<'_>,
    packets: &mut R,
    output: &mut W,
) -> Result<Ending, Refusal<'a>> {
    let Ok(mut buffered) = BufReader::new(alloc, &mut *packets) else {
        return Err(out_of_memory());
    };
    let mut link = Link::new(alloc, &mut buffered, &mut *output);
    match serve(&mut session, &mut link) {
        Ok(()) => Ok(Ending::Exit(0)),
        Err(error) => Err(refused(error)),
    }
}

/// Debugs firmware as a request says: gdb's packets come from `packets`, and go to `output`.
///
/// # Errors
///
/// Those of `board_of`, and of `read_program` for the input; `Refusal::Output` where a write fails;
/// out of memory as a failure.
pub fn debug_board<'a, H: Files + AllocGlobal, R: Read, W: Write>(
    rt: &H,
    request: Request<'a>,
    packets: &mut R,
    output: &mut W,
) -> Result<Ending, Refusal<'a>> {
    let board = board_of(rt, request)?;
    let input = input_of(rt, request.input)?;
    let session = BoardSession::new(rt.alloc(), board, &input, request.limit);
    answer(rt.alloc(), session, packets, output)
}
