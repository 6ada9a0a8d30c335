//! The paths of a program: read from its memory, refused where they leave the folder, and walked
//! part by part, so that no part is a link.

ghost use Rattle.std.specs.Prelude.{◌≡◌, ◌<◌, ◌↔◌, IsTrue, IfOk, IfErr, MatchOption, Ok, Err, length, take};
ghost use Rattle.rrs_fast.specs.Serving.{MakesSome};
ghost use Rattle.rrs_files.specs.Paths.{Climbs, ClimbsAt, Enters, IsAllowed, IsForbidden, IsText, Walks, kind, named_of, stop_at};

use crate::descriptors::Descriptors;
use crate::errors::{
    ACCESS_DENIED, BAD_ADDRESS, BAD_DESCRIPTOR, IS_LINK, LONG_NAME, NO_DIRECTORY, NO_FILE,
};
use crate::folder::{Folder, Status};
use rrs_lib::{MemAccessSize, Memory};

/// The most bytes of a path, with the 0 that ends it: `PATH_MAX`.
pub const PATH_BYTES: usize = 4096;

/// The directory that the program is in, `AT_FDCWD`: -100.
pub const WORKING_DIRECTORY: u32 = 0xffff_ff9c;

/// The byte between the parts of a path.
const SLASH: u8 = 0x2f;

/// The byte that is a directory itself, and twice the one above.
const DOT: u8 = 0x2e;

/// The kinds of files, of the bits of a mode.
pub const KIND: u32 = 0xf000;

pub const IS_DIRECTORY: u32 = 0x4000;

pub const IS_FILE: u32 = 0x8000;

pub const IS_SYMBOLIC: u32 = 0xa000;

/// What a path names.
#[derive(Clone, Copy, Debug, PartialEq)]
pub enum Named {
    /// A file of any kind, with this status.
    There(Status),
    /// Nothing, in a directory that is there.
    Missing,
    /// Nothing, for this error.
    Stopped(u32),
}

/// Reads a path from memory, up to the 0 that ends it, and gives how many bytes it has.
pub fn read_path<M: Memory>(
    memory: &mut M,
    address: u32,
    text: &mut [u8; PATH_BYTES],
) -> Result<usize, u32>
    ensures length { IfOk result (λ size. size < 4096) }
    ensures read { IfOk result (λ size. MakesSome M.reads M.writes
        (IsText (M.bytes memory.old) address (Ok (take size text.new))) memory.old memory.new) }
    ensures refused { IfErr result (λ error. MakesSome M.reads M.writes
        (IsText (M.bytes memory.old) address (Err error)) memory.old memory.new) }
    ensures bytes_kept { M.bytes memory.new ≡ M.bytes memory.old }
    ensures writable_kept { M.writable memory.new ≡ M.writable memory.old }
    ensures layout_kept { M.layout memory.new ≡ M.layout memory.old }
{
    for size in 0..PATH_BYTES {
        if u64::from(address) + size as u64 >= 1 << 32 {
            return Err(BAD_ADDRESS);
        }
        let Some(byte) = memory.read_mem(address + size as u32, MemAccessSize::Byte) else {
            return Err(BAD_ADDRESS);
        };
        if byte == 0 {
            return Ok(size);
        }
        text[size] = byte as u8;
    }
    Err(LONG_NAME)
}

/// Why a path leaves the folder or names nothing, if it does: it is empty, it is below a
/// descriptor, or it has a part `..`.
pub fn refusal_of(path: &[u8], beside: u32, descriptors: &Descriptors) -> Option<u32>
    ensures { MatchOption result (IsAllowed path.now beside)
        (IsForbidden path.now beside descriptors.now) }
{
    let Some(first) = path.first() else {
        return Some(NO_FILE);
    };
    if *first != SLASH && beside != WORKING_DIRECTORY {
        match descriptors.target_of(beside) {
            Some(_) => return Some(NO_DIRECTORY),
            None => return Some(BAD_DESCRIPTOR),
        }
    }
    if climbs(path) {
        return Some(ACCESS_DENIED);
    }
    None
}

/// Whether a path has a part `..`.
fn climbs(path: &[u8]) -> bool
    ensures { IsTrue result ↔ Climbs path.now }
{
    for at in 0..path.len() {
        if climbs_at(path, at) {
            return true;
        }
    }
    false
}

/// Whether a part `..` begins here.
fn climbs_at(path: &[u8], at: usize) -> bool
    requires { at < length path.now }
    ensures { IsTrue result ↔ ClimbsAt path.now at }
{
    let begins = at == 0 || path[at - 1] == SLASH;
    let next = at + 1;
    let is_two = path[at] == DOT && next < path.len() && path[next] == DOT;
    let after = at + 2;
    begins && is_two && (after == path.len() || (after < path.len() && path[after] == SLASH))
}

/// Looks at each part of a path in turn: at what stands before each slash, which has to be a
/// directory, and then at the whole.
pub fn walk<F: Folder>(folder: &mut F, path: &[u8]) -> Named
    ensures { Walks F.did path.now folder.old folder.new result }
{
    for at in 0..path.len() {
        match enter(folder, path, at) {
            Some(error) => return Named::Stopped(error),
            None => {}
        }
    }
    let seen = folder.look(path);
    named_of(&seen)
}

/// Looks at what stands before a slash, and gives why the path ends there, if it does.
fn enter<F: Folder>(folder: &mut F, path: &[u8], at: usize) -> Option<u32>
    requires { at < length path.now }
    ensures { Enters F.did path.now at folder.old folder.new result }
{
    if path[at] == SLASH {
        let seen = folder.look(&path[..at]);
        return stop_at(&seen);
    }
    None
}

/// What a look at a path tells.
fn named_of(seen: &Result<Status, u32>) -> Named
    ensures { result ≡ named_of seen.now }
{
    match seen {
        Ok(status) => Named::There(*status),
        Err(error) => {
            if *error == NO_FILE {
                Named::Missing
            } else {
                Named::Stopped(*error)
            }
        }
    }
}

/// Why a path ends at a part that is not its last, if it does: it is no directory.
fn stop_at(seen: &Result<Status, u32>) -> Option<u32>
    ensures { result ≡ stop_at seen.now }
{
    match seen {
        Err(error) => Some(*error),
        Ok(status) => match kind_of(status) {
            IS_DIRECTORY => None,
            IS_SYMBOLIC => Some(IS_LINK),
            _ => Some(NO_DIRECTORY),
        },
    }
}

/// The kind of a file.
pub fn kind_of(status: &Status) -> u32
    ensures { result ≡ kind status.now }
{
    status.mode & KIND
}
