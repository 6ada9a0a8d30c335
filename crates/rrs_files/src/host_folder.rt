//! A folder of the host, over the files of a runtime.
//!
//! The library's contracts of files say nothing of what a call does. So what this module does is
//! believed: that each function makes the calls of the host that it names, with the path below the
//! folder, and no other.

use crate::folder::{
    Change, Entry, Folder, How, LINK_BYTES, Moment, NAME_BYTES, NameChange, Status,
};
use crate::host_directory::{BAD_ARGUMENT, HostDirectory, left_by};
use crate::host_opening::{TO_READ, open_at};
use std::alloc::Global;
use std::fs::{DirBuilder, FileTimes, Metadata, OpenFile, Permissions};
use std::io::{self, ErrorKind, Read, Seek, SeekFrom, Write};
use std::os::unix::fs::{DirBuilderExt, MetadataExt, PermissionsExt};
use std::rt::Files;
use std::time::{Duration, SystemTime};

/// How many files may be open.
const MOST_OPEN: usize = 64;

/// The errors that the host gives without a number, or that come before it is called: `EIO` (5),
/// `ENOENT` (2), `ENOMEM` (12), `EBADF` (9), `ENOTDIR` (20) and `EISDIR` (21).
const HOST_FAILED: u32 = 0xffff_fffb;

const NO_FILE: u32 = 0xffff_fffe;

const NO_MEMORY: u32 = 0xffff_fff4;

const BAD_DESCRIPTOR: u32 = 0xffff_fff7;

const NO_DIRECTORY: u32 = 0xffff_ffec;

const A_DIRECTORY: u32 = 0xffff_ffeb;

/// A folder of the host, and the files below it that are open.
#[derive(Drop)]
pub struct HostFolder<'h, 'p, H: Files> {
    host: &'h H,
    alloc: Global,
    path: &'p str,
    files: Vec<Option<H::File>>,
    /// Of these, the entries of those that are directories.
    directories: Vec<Option<HostDirectory>>,
    /// How many bytes all these entries may take.
    room: u64,
}

impl<'h, 'p, H: Files + AllocGlobal> HostFolder<'h, 'p, H> {
    /// The folder that a path of the host names, of which no file is open. What open directories
    /// list may take so many bytes, 128 for an entry beside those of its name.
    ///
    /// # Errors
    ///
    /// The host can't find it, or has no memory.
    pub fn new(host: &'h H, path: &'p str, room: u64) -> io::Result<HostFolder<'h, 'p, H>> {
        if !std::fs::metadata(host, path)?.is_dir() {
            return Err(io::Error::from(ErrorKind::NotADirectory));
        }
        let alloc = host.alloc();
        let mut files = Vec::with_capacity(alloc, MOST_OPEN)?;
        let mut directories = Vec::with_capacity(alloc, MOST_OPEN)?;
        for _ in 0..MOST_OPEN {
            files.push(None)?;
            directories.push(None)?;
        }
        Ok(HostFolder {
            host,
            alloc,
            path,
            files,
            directories,
            room,
        })
    }

    /// Whether what is open at a number is a directory.
    fn is_directory(&self, at: usize) -> bool {
        matches!(self.directories.get(at), Some(Some(_)))
    }

    /// The path of the host of a path below the folder. By the part `.` the host does not take a
    /// path of slashes alone for the folder's own name, which it would remove by.
    fn below(&self, path: &[u8]) -> Result<String, u32> {
        let Ok(path) = str::from_utf8(path) else {
            return Err(NO_FILE);
        };
        let folder = self.path;
        match format!(in self.alloc; "{folder}/./{path}") {
            Ok(whole) => Ok(whole),
            Err(_) => Err(NO_MEMORY),
        }
    }
}

/// The word that answers an error of the host.
pub fn error_of(error: &io::Error) -> u32 {
    match error.raw_os_error() {
        Some(number) => number.cast_unsigned().wrapping_neg(),
        None => match error.kind() {
            ErrorKind::InvalidInput => BAD_ARGUMENT,
            ErrorKind::OutOfMemory => NO_MEMORY,
            _ => HOST_FAILED,
        },
    }
}

/// The word that answers what the host did, if it failed.
fn failed(done: io::Result<()>) -> Option<u32> {
    match done {
        Ok(()) => None,
        Err(error) => Some(error_of(&error)),
    }
}

/// Puts the position of a file at an offset, if there is one, and gives the position before.
fn placed<S: Seek>(file: &mut S, offset: Option<u64>) -> Result<Option<u64>, u32> {
    let Some(offset) = offset else {
        return Ok(None);
    };
    let before = match file.seek(SeekFrom::Current(0)) {
        Ok(before) => before,
        Err(error) => return Err(error_of(&error)),
    };
    match file.seek(SeekFrom::Start(offset)) {
        Ok(_) => Ok(Some(before)),
        Err(error) => Err(error_of(&error)),
    }
}

/// The status of what the host tells.
pub fn status_of(told: &Metadata) -> Status {
    Status {
        device: told.dev(),
        number: told.ino(),
        mode: told.mode(),
        links: narrowed(told.nlink()),
        owner: told.uid(),
        group: told.gid(),
        size: told.len(),
        block_size: narrowed(told.blksize()),
        blocks: told.blocks(),
        accessed: moment(told.atime(), told.atime_nsec()),
        modified: moment(told.mtime(), told.mtime_nsec()),
        changed: moment(told.ctime(), told.ctime_nsec()),
    }
}

/// A number in 32 bits, or the largest one that they have.
fn narrowed(number: u64) -> u32 {
    u32::try_from(number).unwrap_or(u32::MAX)
}

/// Sets the times of what a path of the host names, which is opened to be read. Gives the error, if
/// there is one.
fn set_times<H: Files>(host: &H, path: &str, accessed: Moment, modified: Moment) -> Option<u32> {
    let times = match times_of(accessed, modified) {
        Ok(times) => times,
        Err(error) => return Some(error_of(&error)),
    };
    match open_at(host, path, TO_READ) {
        Ok((file, _)) => failed(file.set_times(times)),
        Err(error) => Some(error),
    }
}

/// Two moments as the host sets them.
fn times_of(accessed: Moment, modified: Moment) -> io::Result<FileTimes> {
    let times = FileTimes::new();
    Ok(
        times
            .set_accessed(time_of(accessed)?)
            .set_modified(time_of(modified)?),
    )
}

/// A moment as the host has it. One before 1970 is refused.
fn time_of(moment: Moment) -> io::Result<SystemTime> {
    let whole = SystemTime::UNIX_EPOCH.checked_add(Duration::from_secs(moment.seconds));
    let nanos = Duration::from_nanos(u64::from(moment.nanos));
    match whole.and_then(|time| time.checked_add(nanos)) {
        Some(time) => Ok(time),
        None => Err(io::Error::from(ErrorKind::InvalidInput)),
    }
}

/// A moment of the host.
fn moment(seconds: i64, nanos: i64) -> Moment {
    Moment {
        seconds: seconds.cast_unsigned(),
        nanos: narrowed(nanos.cast_unsigned()),
    }
}

/// What the library's contracts say of a call of the host: nothing.
impl<'h, 'p, H: Files + AllocGlobal> Folder for HostFolder<'h, 'p, H> {
    ghost did = { λ _ _ _. Unit {0} };

    fn look(&mut self, path: &[u8]) -> Result<Status, u32> {
        let path = self.below(path)?;
        match std::fs::symlink_metadata(self.host, &path) {
            Ok(told) => Ok(status_of(&told)),
            Err(error) => Err(error_of(&error)),
        }
    }

    fn link(&mut self, path: &[u8], room: &mut [u8; LINK_BYTES]) -> Result<usize, u32> {
        let path = self.below(path)?;
        let target = match self.host.read_link(self.alloc, &path) {
            Ok(target) => target,
            Err(error) => return Err(error_of(&error)),
        };
        let text = target.to_str().unwrap_or("").as_bytes();
        let size = text.len().min(LINK_BYTES);
        if size == 0 {
            return Err(NO_FILE);
        }
        room[..size].copy_from_slice(&text[..size]);
        Ok(size)
    }

    fn open(&mut self, at: usize, path: &[u8], how: How) -> Option<u32> {
        let path = match self.below(path) {
            Ok(path) => path,
            Err(error) => return Some(error),
        };
        let (file, told) = match open_at(self.host, &path, how) {
            Ok(open) => open,
            Err(error) => return Some(error),
        };
        let directory = HostDirectory::of(self.alloc, path, &told);
        if let Some(place) = self.files.get_mut(at) {
            *place = Some(file);
        }
        if let Some(place) = self.directories.get_mut(at) {
            *place = directory;
        }
        None
    }

    fn close(&mut self, at: usize) {
        if let Some(place) = self.files.get_mut(at) {
            *place = None;
        }
        if let Some(place) = self.directories.get_mut(at) {
            *place = None;
        }
    }

    fn read(
        &mut self,
        at: usize,
        from: Option<u64>,
        most: usize,
        room: &mut [u8],
    ) -> Result<usize, u32> {
        if self.is_directory(at) {
            return Err(A_DIRECTORY);
        }
        let Some(Some(file)) = self.files.get_mut(at) else {
            return Err(BAD_DESCRIPTOR);
        };
        let before = placed(file, from)?;
        let done = match file.read(&mut room[..most]) {
            Ok(count) => Ok(count),
            Err(error) => Err(error_of(&error)),
        };
        placed(file, before)?;
        done
    }

    fn write(&mut self, at: usize, from: Option<u64>, bytes: &[u8]) -> Result<usize, u32> {
        if self.is_directory(at) {
            return Err(BAD_DESCRIPTOR);
        }
        let Some(Some(file)) = self.files.get_mut(at) else {
            return Err(BAD_DESCRIPTOR);
        };
        let before = placed(file, from)?;
        let done = match file.write(bytes) {
            Ok(count) => Ok(count),
            Err(error) => Err(error_of(&error)),
        };
        placed(file, before)?;
        done
    }

    fn seek(&mut self, at: usize, from: u32, offset: u64) -> Result<u64, u32> {
        if let Some(Some(directory)) = self.directories.get_mut(at) {
            return directory.move_to(from, offset);
        }
        let Some(Some(file)) = self.files.get_mut(at) else {
            return Err(BAD_DESCRIPTOR);
        };
        let to = match from {
            0 => SeekFrom::Start(offset),
            1 => SeekFrom::Current(offset.cast_signed()),
            _ => SeekFrom::End(offset.cast_signed()),
        };
        match file.seek(to) {
            Ok(position) => Ok(position),
            Err(error) => Err(error_of(&error)),
        }
    }

    fn entry(
        &mut self,
        at: usize,
        position: u64,
        room: &mut [u8; NAME_BYTES],
    ) -> Result<Option<Entry>, u32> {
        let left = left_by(&self.directories, self.room);
        let Some(Some(directory)) = self.directories.get_mut(at) else {
            return Err(NO_DIRECTORY);
        };
        if position == 0 || directory.is_unread() {
            let most = left.saturating_add(directory.taken());
            if let Err(error) = directory.read_anew(self.host, self.alloc, self.path, most) {
                return Err(error_of(&error));
            }
        }
        Ok(directory.entry(position, room))
    }

    fn status(&mut self, at: usize) -> Result<Status, u32> {
        let Some(Some(file)) = self.files.get(at) else {
            return Err(BAD_DESCRIPTOR);
        };
        match file.metadata() {
            Ok(told) => Ok(status_of(&told)),
            Err(error) => Err(error_of(&error)),
        }
    }

    fn change(&mut self, at: usize, change: Change) -> Option<u32> {
        let Some(Some(file)) = self.files.get(at) else {
            return Some(BAD_DESCRIPTOR);
        };
        failed(match change {
            Change::Length(length) => file.set_len(length),
            Change::Flush => file.sync_all(),
            Change::FlushBytes => file.sync_data(),
            Change::Mode(mode) => file.set_permissions(Permissions::from_mode(mode)),
        })
    }

    fn change_name(&mut self, path: &[u8], change: NameChange) -> Option<u32> {
        let path = match self.below(path) {
            Ok(path) => path,
            Err(error) => return Some(error),
        };
        match change {
            NameChange::Remove => failed(std::fs::remove_file(self.host, &path)),
            NameChange::RemoveDirectory => failed(std::fs::remove_dir(self.host, &path)),
            NameChange::MakeDirectory(mode) => {
                failed(DirBuilder::new().mode(mode).create(self.host, &path))
            }
            NameChange::SetTimes(accessed, modified) => {
                set_times(self.host, &path, accessed, modified)
            }
        }
    }

    fn rename(&mut self, from: &[u8], to: &[u8]) -> Option<u32> {
        let from = match self.below(from) {
            Ok(from) => from,
            Err(error) => return Some(error),
        };
        let to = match self.below(to) {
            Ok(to) => to,
            Err(error) => return Some(error),
        };
        failed(std::fs::rename(self.host, &from, &to))
    }
}
