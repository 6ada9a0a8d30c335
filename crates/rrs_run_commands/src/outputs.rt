//! The files that a subcommand writes.
//!
//! A file has what it had until the new one is whole: that is written beside it, and then takes its
//! name. What is no file, as a pipe, a terminal or a device, is written as it is. A file to which a
//! descriptor of `rrs` leads is refused, since who holds that writes it, or reads it, at a place of
//! its own.

ghost use Rattle.std.specs.Prelude.{◌≡◌, bit_and, true, IfOk, Ok};

use crate::files::{Noting, refused_by_host};
use crate::places::{node_of, parts_of, target_of};
use crate::refusal::{FileFault, Refusal, named, out_of_memory};
use crate::requests::Request;
use std::fs::{self, Metadata, OpenFile, OpenOptions, Permissions};
use std::io::{self, ErrorKind};
use std::os::unix::fs::{MetadataExt, OpenOptionsExt, PermissionsExt};
use std::rt::Files;

/// How many names are tried for a new file.
const MOST_NAMES: u32 = 10_000;

/// What a new file may be used for where there was none, before the host takes some of it away.
const NEW_MODE: u32 = 0o666;

/// The bits of a mode that say who may read, write and run a file.
const RIGHTS: u32 = 0o777;

/// Those of its owner, and of all who are neither the owner nor of the group.
const OF_OTHERS_AND_OWNER: u32 = 0o707;

/// The paths of the standard streams.
const STREAMS: [&str; 3] = ["/dev/stdin", "/dev/stdout", "/dev/stderr"];

/// The folders in which each name is that of a descriptor.
const DESCRIPTORS: [&str; 2] = ["/dev/fd/", "/proc/self/fd/"];

/// The error of a file that another process replaces meanwhile: `EBUSY`.
const BUSY: i32 = 16;

/// A file that is open to be written.
#[derive(Drop)]
pub struct Output<'a, H: Files> {
    /// What is written to.
    pub file: Noting<H::File>,
    /// The path that was asked for.
    path: &'a str,
    /// Where the file lies, and which one it takes the place of, if it takes one.
    replacement: Option<Replacement>,
}

/// A new file beside the one whose place it takes.
#[derive(Drop)]
struct Replacement {
    /// The path of the new file.
    new: String,
    /// The path that it gets.
    taken: String,
}

/// The file of a path, open to be written. Where a file is there it has what it had until `close`;
/// where none is there none comes to be before.
///
/// # Errors
///
/// `Refusal::File` where the file can't be written or created, where there is one and none can be
/// created beside it, and where it is open already as a standard stream or a descriptor; out of
/// memory as a failure. All files are as they were then.
pub fn created<'a, H: Files + AllocGlobal>(
    rt: &H,
    path: &'a str,
) -> Result<Output<'a, H>, Refusal<'a>> {
    if is_open(rt, path) {
        return Err(Refusal::File(path, FileFault::IsOpen));
    }
    let opened = match OpenOptions::new().write(true).open(rt, path) {
        Ok(file) => over(rt, path, file),
        Err(error) if error.kind() == ErrorKind::NotFound && !path.is_empty() => fresh(rt, path),
        Err(error) => Err(error),
    };
    match opened {
        Ok((file, replacement)) => Ok(Output {
            file: Noting::new(file),
            path,
            replacement,
        }),
        Err(error) if error.kind() == ErrorKind::OutOfMemory => Err(out_of_memory()),
        Err(error) => Err(refused_by_host(path, &error)),
    }
}

/// What is written in the place of what a path leads to, which is open.
fn over<H: Files + AllocGlobal>(
    rt: &H,
    path: &str,
    file: H::File,
) -> io::Result<(H::File, Option<Replacement>)> {
    let found = file.metadata()?;
    if !found.is_file() {
        return Ok((file, None));
    }
    let target = target_of(rt, path)?;
    if !is_at(rt, &target, &found) {
        return Err(io::Error::from_raw_os_error(BUSY));
    }
    let (file, new) = beside(rt, &target, found.permissions().mode() & RIGHTS)?;
    let replacement = Replacement { new, taken: target };
    match keep_rights(&file, &found) {
        Ok(()) => Ok((file, Some(replacement))),
        Err(error) => {
            replacement.remove(rt);
            Err(error)
        }
    }
}

/// What is written where a path leads to no file: a new one in the folder to which it leads.
fn fresh<H: Files + AllocGlobal>(rt: &H, path: &str) -> io::Result<(H::File, Option<Replacement>)> {
    let taken = target_of(rt, path)?;
    let (file, new) = beside(rt, &taken, NEW_MODE)?;
    Ok((file, Some(Replacement { new, taken })))
}

/// A new file in the folder of a path, and its path.
fn beside<H: Files + AllocGlobal>(rt: &H, path: &str, mode: u32) -> io::Result<(H::File, String)> {
    let (folder, _name) = parts_of(path);
    let mut options = OpenOptions::new();
    options.write(true).create_new(true).mode(mode);
    for number in 0..MOST_NAMES {
        let new = format!(in rt.alloc(); "{folder}.rrs-new-{number}")?;
        match options.open(rt, new.as_str()) {
            Ok(file) => return Ok((file, new)),
            Err(error) if error.kind() == ErrorKind::AlreadyExists => (),
            Err(error) => return Err(error),
        }
    }
    Err(io::Error::from(ErrorKind::AlreadyExists))
}

/// Whether a path leads to a file that is open already: as a standard stream, or by a descriptor of
/// which it is the name.
fn is_open<H: Files>(rt: &H, path: &str) -> bool {
    let Ok(found) = fs::metadata(rt, path) else {
        return false;
    };
    if !found.is_file() {
        return false;
    }
    for folder in DESCRIPTORS {
        if path.starts_with(folder) {
            return true;
        }
    }
    for stream in STREAMS {
        if is_at(rt, stream, &found) {
            return true;
        }
    }
    false
}

/// Whether a path leads to this file.
fn is_at<H: Files>(rt: &H, path: &str, found: &Metadata) -> bool {
    match fs::metadata(rt, path) {
        Ok(other) => node_of(&other) == node_of(found),
        Err(_) => false,
    }
}

/// Gives a new file the rights of the old one. Where its group is another, the group has no right
/// that not all have.
fn keep_rights<F: OpenFile>(file: &F, old: &Metadata) -> io::Result<()> {
    let new = file.metadata()?;
    let rights = rights_of(old.permissions().mode(), new.gid() == old.gid());
    if new.permissions().mode() & RIGHTS == rights {
        return Ok(());
    }
    file.set_permissions(Permissions::from_mode(rights))
}

/// The rights of a file in the place of one with this mode: of its own group, or of another.
fn rights_of(mode: u32, has_group: bool) -> u32
    ensures { has_group ≡ true → result ≡ bit_and mode 0o777 }
{
    let rights = mode & RIGHTS;
    if has_group {
        return rights;
    }
    rights & (OF_OTHERS_AND_OWNER | (rights & 7) << 3)
}

impl Replacement {
    /// Has the new file, which is open, take the place of the old one, once the device has all of
    /// it.
    ///
    /// # Errors
    ///
    /// That of the host. The new file is removed then.
    fn take<H: Files>(&self, rt: &H, file: &H::File) -> io::Result<()> {
        let taken = match file.sync_all() {
            Ok(()) => fs::rename(rt, self.new.as_str(), self.taken.as_str()),
            Err(error) => Err(error),
        };
        if taken.is_err() {
            self.remove(rt);
        }
        taken
    }

    /// Removes the new file. Where that can't be it stays.
    fn remove<H: Files>(&self, rt: &H) {
        let _ = fs::remove_file(rt, self.new.as_str());
    }
}

impl<'a, H: Files> Output<'a, H> {
    /// Ends what is written, by the outcome of that. Where it is good the new file takes the place
    /// of the old one; else it is removed, and the old one is as it was.
    ///
    /// # Errors
    ///
    /// Those of the outcome, with the name of this file where a write failed; `Refusal::File` where
    /// the new file can't take the place. It is removed then too.
    pub fn close<T: Drop>(self, rt: &H, outcome: Result<T, Refusal<'a>>) -> Result<T, Refusal<'a>>
        ensures { IfOk result (λ value. outcome.entry ≡ Ok value) }
    {
        let Output {
            file,
            path,
            replacement,
        } = self;
        let outcome = named(outcome, path, file.fault);
        let Some(replacement) = replacement else {
            return outcome;
        };
        match outcome {
            Ok(value) => match replacement.take(rt, &file.stream) {
                Ok(()) => Ok(value),
                Err(error) => Err(refused_by_host(path, &error)),
            },
            Err(refusal) => {
                replacement.remove(rt);
                Err(refusal)
            }
        }
    }
}

/// The files of a request that are open to be written.
#[derive(Drop)]
pub struct Outputs<'a, H: Files> {
    /// That of `--output`.
    pub output: Option<Output<'a, H>>,
    /// That of `--callgrind`.
    pub callgrind: Option<Output<'a, H>>,
}

impl<'a, H: Files + AllocGlobal> Outputs<'a, H> {
    /// The files of a request, open to be written.
    ///
    /// # Errors
    ///
    /// Those of `created`. All files are as they were then.
    pub fn created(rt: &H, request: Request<'a>) -> Result<Outputs<'a, H>, Refusal<'a>> {
        let output = created_if(rt, request.output)?;
        match created_if(rt, request.callgrind) {
            Ok(callgrind) => Ok(Outputs { output, callgrind }),
            Err(refusal) => closed(rt, output, Err(refusal)),
        }
    }

    /// Ends what is written to each, by the outcome of all: see `Output::close`.
    ///
    /// # Errors
    ///
    /// Those of `Output::close`. Where the second file can't take its place the first one has it.
    pub fn close<T: Drop>(self, rt: &H, outcome: Result<T, Refusal<'a>>) -> Result<T, Refusal<'a>>
        ensures { IfOk result (λ value. outcome.entry ≡ Ok value) }
    {
        let Outputs { output, callgrind } = self;
        let outcome = closed(rt, output, outcome);
        closed(rt, callgrind, outcome)
    }
}

/// The file of a path, if there is one, open to be written.
fn created_if<'a, H: Files + AllocGlobal>(
    rt: &H,
    path: Option<&'a str>,
) -> Result<Option<Output<'a, H>>, Refusal<'a>> {
    match path {
        Some(path) => Ok(Some(created(rt, path)?)),
        None => Ok(None),
    }
}

/// Ends what is written to a file, if there is one.
fn closed<'a, H: Files, T: Drop>(
    rt: &H,
    output: Option<Output<'a, H>>,
    outcome: Result<T, Refusal<'a>>,
) -> Result<T, Refusal<'a>>
    ensures { IfOk result (λ value. outcome.entry ≡ Ok value) }
{
    match output {
        Some(output) => output.close(rt, outcome),
        None => outcome,
    }
}
