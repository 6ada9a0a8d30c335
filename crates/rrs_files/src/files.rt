//! The files of a program, and what the calls do to them whose path is read.

ghost use Rattle.std.specs.Prelude.{◌≡◌, ◌<◌, ◌&&◌};
ghost use Rattle.rrs_files.specs.Acts.{Changes, ChangesName, Closes, Controls, ControlsDevice, Copies, CopiesTo, Leaves, Opens, Owns, Renames, Tests, control_answer, copies, denying, keeping, keeps, moving, opening, owning, replacing, timing, withholding};
ghost use Rattle.rrs_files.specs.Requests.{changes, not_served};

use crate::descriptors::{Descriptors, MOST_OPEN, Target};
use crate::errors::{
    A_DIRECTORY, ACCESS_DENIED, BAD_ARGUMENT, BAD_DESCRIPTOR, IS_LINK, IS_THERE, MANY_OPEN,
    NO_DIRECTORY, NO_FILE, NO_TERMINAL, NOT_PERMITTED, READ_ONLY,
};
use crate::folder::{Change, Folder, How, NameChange, Status};
use crate::paths::{IS_DIRECTORY, IS_FILE, IS_SYMBOLIC, Named, kind_of, walk};
use crate::requests::how_of;

/// The flags of `openat` that are not served: `O_PATH`, and of `O_TMPFILE` what no other flag has.
const NOT_SERVED: u32 = 0x60_0000;

/// Those that are not served together: `O_CREAT` and `O_DIRECTORY`.
const NOT_TOGETHER: u32 = 0x1_0040;

/// The flag of `dup3`, which changes nothing here: `O_CLOEXEC`.
const CLOSES_ON_EXEC: u32 = 0x8_0000;

/// The commands of `fcntl` for the flags of a descriptor: `F_GETFD`, `F_SETFD`.
const GET_FLAGS: u32 = 1;

const SET_FLAGS: u32 = 2;

/// Its commands that copy a descriptor: `F_DUPFD`, `F_DUPFD_CLOEXEC`.
const COPY: u32 = 0;

const COPY_AND_CLOSE: u32 = 1030;

/// Its commands for those of an open file: `F_GETFL`, `F_SETFL`.
const GET_STATUS: u32 = 3;

const SET_STATUS: u32 = 4;

/// Of these flags: each write is at the end, `O_APPEND`.
const APPENDS: u32 = 0x400;

/// To write, of what is asked of `faccessat`: `W_OK`.
const TO_WRITE: u32 = 2;

/// What its owner may do with a file stands so far up in its mode: 2^6.
const OF_OWNER: u32 = 64;

/// The files of a program: those below a folder, and which of them are open.
#[derive(Drop)]
pub struct Files<F> {
    /// The folder.
    pub folder: F,
    /// The descriptors that are open.
    pub descriptors: Descriptors,
    /// Whether files may only be read. Then no call of the folder is made that changes anything.
    pub is_read_only: bool,
}

impl<F: Folder> Files<F> {
    /// Opens what a path names, at the first descriptor that is free, and gives the answer of the
    /// call.
    pub fn open(&mut self, path: &[u8], flags: u32, mode: u32) -> u32
        ensures { Opens F.did path.now flags mode self.old self.new result }
    {
        let how = how_of(flags, mode);
        if not_served(flags) {
            return BAD_ARGUMENT;
        }
        if is_kept_out(self.is_read_only, how) {
            return READ_ONLY;
        }
        let place = match self.descriptors.free_place(0) {
            Some(place) => place,
            None => return MANY_OPEN,
        };
        let at = match self.descriptors.free_file() {
            Some(at) => at,
            None => return MANY_OPEN,
        };
        match opening(walk(&mut self.folder, path), how) {
            Some(refused) => return refused,
            None => {}
        }
        match self.folder.open(at, path, how) {
            Some(failed) => failed,
            None => {
                self.descriptors.take(place, Target::File(at), flags);
                place as u32
            }
        }
    }

    /// Closes a descriptor, and gives the answer of the call. Its file stays open where another one
    /// has it too.
    pub fn close(&mut self, descriptor: u32) -> u32
        ensures { Closes F.did descriptor self.old self.new result }
    {
        let Some(target) = self.descriptors.target_of(descriptor) else {
            return BAD_DESCRIPTOR;
        };
        self.descriptors.free(descriptor);
        match target {
            Target::File(at) => self.leave(at),
            Target::Stream(_) => {}
        }
        0
    }

    /// Closes the file of a number that a descriptor had, unless another one has it.
    fn leave(&mut self, at: usize)
        requires { at < 64 }
        ensures { Leaves F.did at self.old self.new }
    {
        if self.descriptors.has(Target::File(at)) {
            return;
        }
        self.folder.close(at);
    }

    /// Gives what a descriptor has another one, the first from a least one on that is free, and
    /// gives the answer of the call.
    pub fn copy(&mut self, descriptor: u32, least: u32) -> u32
        ensures { Copies F.did descriptor least self.old self.new result }
    {
        let Some(target) = self.descriptors.target_of(descriptor) else {
            return BAD_DESCRIPTOR;
        };
        if least as usize >= MOST_OPEN {
            return BAD_ARGUMENT;
        }
        let place = match self.descriptors.free_place(least as usize) {
            Some(place) => place,
            None => return MANY_OPEN,
        };
        let kept = self.descriptors.flags_of(descriptor);
        self.descriptors.take(place, target, kept);
        place as u32
    }

    /// Gives what a descriptor has this other one, which is closed first, and gives the answer of
    /// the call.
    pub fn copy_to(&mut self, descriptor: u32, to: u32, flags: u32) -> u32
        ensures { CopiesTo F.did descriptor to flags self.old self.new result }
    {
        if descriptor == to || flags & !CLOSES_ON_EXEC != 0 {
            return BAD_ARGUMENT;
        }
        if to as usize >= MOST_OPEN {
            return BAD_DESCRIPTOR;
        }
        let Some(target) = self.descriptors.target_of(descriptor) else {
            return BAD_DESCRIPTOR;
        };
        let kept = self.descriptors.flags_of(descriptor);
        self.close(to);
        self.descriptors.take(to as usize, target, kept);
        to
    }

    /// Changes the file of a descriptor, and gives the answer of the call.
    pub fn change(&mut self, descriptor: u32, change: Change) -> u32
        ensures { Changes F.did descriptor change self.old self.new result }
    {
        let Some(place) = self.descriptors.file_of(descriptor) else {
            return BAD_DESCRIPTOR;
        };
        match withholding(self.is_read_only, change) {
            Some(error) => error,
            None => self.folder.change(place, change).unwrap_or(0),
        }
    }

    /// Whether the file of a descriptor has an owner and a group already: the answer of the call
    /// that gives it them.
    pub fn own(&mut self, descriptor: u32, owner: u32, group: u32) -> u32
        ensures { Owns F.did descriptor owner group self.old self.new result }
    {
        let Some(place) = self.descriptors.file_of(descriptor) else {
            return BAD_DESCRIPTOR;
        };
        match self.folder.status(place) {
            Err(error) => error,
            Ok(status) => owning(&status, owner, group),
        }
    }

    /// Changes the name that a path is, and gives the answer of the call.
    pub fn change_name(&mut self, path: &[u8], change: NameChange) -> u32
        ensures { ChangesName F.did path.now change self.old self.new result }
    {
        if self.is_read_only {
            return READ_ONLY;
        }
        match keeping(walk(&mut self.folder, path), change) {
            Some(error) => error,
            None => self.folder.change_name(path, change).unwrap_or(0),
        }
    }

    /// Gives what a path names another name, and gives the answer of the call.
    pub fn rename(&mut self, from: &[u8], to: &[u8]) -> u32
        ensures { Renames F.did from.now to.now self.old self.new result }
    {
        if self.is_read_only {
            return READ_ONLY;
        }
        let named = walk(&mut self.folder, from);
        match moving(named) {
            Some(error) => return error,
            None => {}
        }
        let there = walk(&mut self.folder, to);
        match replacing(there) {
            Some(error) => error,
            None => self.folder.rename(from, to).unwrap_or(0),
        }
    }

    /// Whether what a path names may be reached so: the answer of the call.
    pub fn test(&mut self, path: &[u8], asked: u32) -> u32
        ensures { Tests F.did path.now asked self.old self.new result }
    {
        let named = walk(&mut self.folder, path);
        denying(named, asked, self.is_read_only).unwrap_or(0)
    }

    /// Does a command of `fcntl` on a descriptor, and gives the answer of the call.
    pub fn control(&mut self, descriptor: u32, command: u32, argument: u32) -> u32
        ensures { Controls F.did descriptor command argument self.old self.new result }
    {
        if copies(command) {
            return self.copy(descriptor, argument);
        }
        match self.descriptors.target_of(descriptor) {
            Some(_) => answer_to(self.descriptors.flags_of(descriptor), command, argument),
            None => BAD_DESCRIPTOR,
        }
    }

    /// The answer of `ioctl` on a descriptor: what is open is no terminal.
    pub fn control_device(&self, descriptor: u32) -> u32
        ensures { ControlsDevice F.did descriptor self.now self.now result }
    {
        match self.descriptors.file_of(descriptor) {
            Some(_) => NO_TERMINAL,
            None => BAD_DESCRIPTOR,
        }
    }
}

/// Whether flags of `openat` are not served.
fn not_served(flags: u32) -> bool
    ensures { result ≡ not_served flags }
{
    flags & 3 == 3 || flags & NOT_SERVED != 0 || flags & NOT_TOGETHER == NOT_TOGETHER
}

/// Whether files may only be read, and are opened otherwise.
fn is_kept_out(is_read_only: bool, how: How) -> bool
    ensures { result ≡ (is_read_only && changes how) }
{
    is_read_only && changes(how)
}

/// Whether what is opened so may be changed.
fn changes(how: How) -> bool
    ensures { result ≡ changes how }
{
    how.writes || how.appends || how.creates || how.truncates
}

/// Why what a path names isn't opened, if it isn't.
pub fn opening(named: Named, how: How) -> Option<u32>
    ensures { result ≡ opening named how }
{
    let status = match named {
        Named::Stopped(error) => return Some(error),
        Named::Missing => return if how.creates { None } else { Some(NO_FILE) },
        Named::There(status) => status,
    };
    if how.creates && how.is_new {
        return Some(IS_THERE);
    }
    match kind_of(&status) {
        IS_SYMBOLIC => Some(IS_LINK),
        IS_DIRECTORY => if changes(how) {
            Some(A_DIRECTORY)
        } else {
            None
        },
        _ if how.is_directory => Some(NO_DIRECTORY),
        IS_FILE => None,
        _ => Some(ACCESS_DENIED),
    }
}

/// Why a file is not changed where files may only be read, if it isn't.
fn withholding(is_read_only: bool, change: Change) -> Option<u32>
    ensures { result ≡ withholding is_read_only change }
{
    match change {
        Change::Mode(_) if is_read_only => Some(READ_ONLY),
        Change::Length(_) if is_read_only => Some(BAD_ARGUMENT),
        _ => None,
    }
}

/// The answer of a call that gives what has this status an owner and a group: it has them, or it
/// doesn't get them.
fn owning(status: &Status, owner: u32, group: u32) -> u32
    ensures { result ≡ owning status.now owner group }
{
    if keeps(owner, status.owner) && keeps(group, status.group) {
        0
    } else {
        NOT_PERMITTED
    }
}

/// Whether an owner or a group stays the one it is.
fn keeps(wanted: u32, present: u32) -> bool
    ensures { result ≡ keeps wanted present }
{
    wanted == u32::MAX || wanted == present
}

/// Whether a command of `fcntl` copies a descriptor.
fn copies(command: u32) -> bool
    ensures { result ≡ copies command }
{
    command == COPY || command == COPY_AND_CLOSE
}

/// The answer to a command of `fcntl` on a descriptor that is open, with these flags.
fn answer_to(flags: u32, command: u32, argument: u32) -> u32
    ensures { result ≡ control_answer flags command argument }
{
    match command {
        GET_FLAGS | SET_FLAGS => 0,
        GET_STATUS => flags,
        SET_STATUS if argument & APPENDS == flags & APPENDS => 0,
        _ => BAD_ARGUMENT,
    }
}

/// Why a name isn't changed, if it isn't.
fn keeping(named: Named, change: NameChange) -> Option<u32>
    ensures { result ≡ keeping named change }
{
    let status = match named {
        Named::Stopped(error) => return Some(error),
        Named::Missing => {
            return match change {
                NameChange::MakeDirectory(_) => None,
                _ => Some(NO_FILE),
            };
        }
        Named::There(status) => status,
    };
    let is_directory = kind_of(&status) == IS_DIRECTORY;
    match change {
        NameChange::MakeDirectory(_) => Some(IS_THERE),
        NameChange::Remove => if is_directory {
            Some(A_DIRECTORY)
        } else {
            None
        },
        NameChange::RemoveDirectory => if is_directory {
            None
        } else {
            Some(NO_DIRECTORY)
        },
        NameChange::SetTimes(_, _) => timing(&status),
    }
}

/// Why the times of what has this status aren't set, if they aren't.
fn timing(status: &Status) -> Option<u32>
    ensures { result ≡ timing status.now }
{
    match kind_of(status) {
        IS_FILE | IS_DIRECTORY => None,
        IS_SYMBOLIC => Some(IS_LINK),
        _ => Some(ACCESS_DENIED),
    }
}

/// Why what a path names isn't renamed, if it isn't.
fn moving(named: Named) -> Option<u32>
    ensures { result ≡ moving named }
{
    match named {
        Named::Stopped(error) => Some(error),
        Named::Missing => Some(NO_FILE),
        Named::There(status) if kind_of(&status) == IS_SYMBOLIC => Some(IS_LINK),
        Named::There(_) => None,
    }
}

/// Why no name is put in the place of what a path names, if none is.
fn replacing(named: Named) -> Option<u32>
    ensures { result ≡ replacing named }
{
    match named {
        Named::Stopped(error) => Some(error),
        Named::Missing => None,
        Named::There(status) if kind_of(&status) == IS_SYMBOLIC => Some(IS_LINK),
        Named::There(_) => None,
    }
}

/// Why what a path names may not be reached so, if it may not.
fn denying(named: Named, asked: u32, is_read_only: bool) -> Option<u32>
    ensures { result ≡ denying named asked is_read_only }
{
    let status = match named {
        Named::Stopped(error) => return Some(error),
        Named::Missing => return Some(NO_FILE),
        Named::There(status) => status,
    };
    if kind_of(&status) == IS_SYMBOLIC {
        return Some(IS_LINK);
    }
    if is_read_only && asked & TO_WRITE != 0 {
        return Some(READ_ONLY);
    }
    let of_owner = (asked & 7) * OF_OWNER;
    if status.mode & of_owner == of_owner {
        None
    } else {
        Some(ACCESS_DENIED)
    }
}
