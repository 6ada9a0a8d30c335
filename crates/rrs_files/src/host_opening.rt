//! Opening what a path of the host names: a file or a directory, and the one that was looked at.
//!
//! As of a folder of the host, which calls are made is believed. What is asked of the host in them,
//! which kinds are opened, and that what is open is compared, is said by clauses.

ghost use Rattle.std.specs.Prelude.{◌≡◌, ◌↔◌, ◌&&◌, ◌||◌, not, false, IsTrue};
ghost use Rattle.std.specs.Fs.{asks_append, asks_create, asks_create_new, asks_read, asks_truncate, asks_write};
ghost use Rattle.rrs_files.specs.HostOpens.{IsReading, IsSame};

use crate::errors::{ACCESS_DENIED, BAD_ARGUMENT, IS_THERE, NO_FILE};
use crate::files::opening;
use crate::folder::{How, Status};
use crate::host_folder::{error_of, status_of};
use crate::paths::{Named, kind_of};
use std::fs::{Metadata, OpenFile, OpenOptions};
use std::os::unix::fs::OpenOptionsExt;
use std::rt::Files;

/// How often a name is looked at that another process gives to something else meanwhile.
const LOOKS: usize = 8;

/// How a path is opened to be read alone.
pub const TO_READ: How = How {
    reads: true,
    writes: false,
    appends: false,
    creates: false,
    is_new: false,
    truncates: false,
    is_directory: false,
    mode: 0,
};

/// Opens what a path of the host names, and gives what the host tells of it. What is not there is
/// made where that is asked for. Where the name is another's each time that it is opened, `EACCES`.
pub fn open_at<H: Files>(host: &H, path: &str, how: How) -> Result<(H::File, Metadata), u32> {
    if !is_taken(how) {
        return Err(BAD_ARGUMENT);
    }
    if how.creates && how.is_new {
        return make(host, path, how);
    }
    for _ in 0..LOOKS {
        match open_seen(host, path, how) {
            Ok(Some(open)) => return Ok(open),
            Ok(None) => {}
            Err(NO_FILE) if how.creates => match make(host, path, how) {
                Err(IS_THERE) => {}
                made => return made,
            },
            Err(error) => return Err(error),
        }
    }
    Err(ACCESS_DENIED)
}

/// Makes a file, which must not be there. No link is followed.
fn make<H: Files>(host: &H, path: &str, how: How) -> Result<(H::File, Metadata), u32> {
    match options_of(how, true).open(host, path) {
        Ok(file) => told_of(file),
        Err(error) => Err(error_of(&error)),
    }
}

/// Opens what is there, if it is a file or a directory. Where that is another by then than was
/// looked at, it is closed as it is, and there is none.
fn open_seen<H: Files>(host: &H, path: &str, how: How) -> Result<Option<(H::File, Metadata)>, u32> {
    let seen = match std::fs::symlink_metadata(host, path) {
        Ok(told) => status_of(&told),
        Err(error) => return Err(error_of(&error)),
    };
    match opening(Named::There(seen), how) {
        Some(refused) => return Err(refused),
        None => {}
    }
    let file = match options_of(how, false).open(host, path) {
        Ok(file) => file,
        Err(error) => return Err(error_of(&error)),
    };
    let (file, told) = told_of(file)?;
    if !is_same(&seen, &status_of(&told)) {
        return Ok(None);
    }
    if how.truncates {
        match file.set_len(0) {
            Ok(()) => {}
            Err(error) => return Err(error_of(&error)),
        }
    }
    Ok(Some((file, told)))
}

/// A file that is open, with what the host tells of it.
fn told_of<F: OpenFile + Drop>(file: F) -> Result<(F, Metadata), u32> {
    match file.metadata() {
        Ok(told) => Ok((file, told)),
        Err(error) => Err(error_of(&error)),
    }
}

/// Whether the host is asked to open a file so: it is made or cut only where it may be written, and
/// cut where each write is at its end only if it is new.
fn is_taken(how: How) -> bool
    ensures { result ≡ ((how.writes || not (how.creates || how.truncates))
        && not (how.appends && how.truncates && not (how.creates && how.is_new))) }
{
    let changes = how.creates || how.truncates;
    let is_made = how.creates && how.is_new;
    (how.writes || !changes) && !(how.appends && how.truncates && !is_made)
}

/// What is asked of the host to open what is there, as it is, or else to make what is not. The call
/// never cuts, and makes nothing where a link is.
fn options_of(how: How, is_made: bool) -> OpenOptions
    ensures reads { asks_read result ≡ how.reads }
    ensures writes { asks_write result ≡ how.writes }
    ensures appends { asks_append result ≡ (how.writes && how.appends) }
    ensures makes { asks_create_new result ≡ (how.writes && is_made) }
    ensures never_cuts { asks_truncate result ≡ false }
    ensures never_follows { asks_create result ≡ false }
    ensures only_reads { how.writes ≡ false → IsReading result }
{
    let mut options = OpenOptions::new();
    options.mode(how.mode);
    options
        .read(how.reads)
        .write(how.writes)
        .append(how.writes && how.appends)
        .truncate(false)
        .create(false)
        .create_new(how.writes && is_made);
    options
}

/// Whether what is open is what was looked at: it has the same number on the same device, and is of
/// the same kind.
fn is_same(seen: &Status, opened: &Status) -> bool
    ensures { IsTrue result ↔ IsSame seen.now opened.now }
{
    seen.device == opened.device && seen.number == opened.number && kind_of(seen) == kind_of(opened)
}
