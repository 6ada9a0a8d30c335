//! The entries of a directory of the host, over the files of a runtime.
//!
//! As of a folder of the host, what is read, and with which paths, is believed.

ghost use Rattle.std.specs.Prelude.{◌≡◌, ◌↔◌, ◌+◌, ◌-◌, ◌≤◌, ◌<◌, IfOk, IfSome, IsErr, IsOk, sum_by};
ghost use Rattle.rrs_files.specs.HostOpens.{entry_room, taken_of};

use crate::folder::{Entry, NAME_BYTES};
use std::alloc::Global;
use std::fs::Metadata;
use std::io::{self, ErrorKind, Read};
use std::os::unix::fs::MetadataExt;
use std::rt::Files;

/// The error of a call with an argument that it does not take, `EINVAL` (22).
pub const BAD_ARGUMENT: u32 = 0xffff_ffea;

/// How many bytes of names are read at once, each ended by a 0.
const NAMES: usize = 4096;

/// What an entry takes, beside the bytes of its name. A vector that grows has up to twice as many
/// places, and a name has its own.
const ENTRY: u64 = 128;

/// The number of what a name can't be looked at, as Linux has it where a file system tells none.
const UNKNOWN: u64 = 0xffff_ffff;

/// The error of a name that is gone, `ENOENT` (2).
const GONE: i32 = 2;

/// A directory that is open, and its entries.
#[derive(Drop)]
pub struct HostDirectory {
    /// Its path, of the host.
    path: String,
    /// Its device and its number, as it was opened.
    device: u64,
    number: u64,
    /// Which entry is next.
    position: u64,
    /// Its entries, as they were when they were read last.
    entries: Vec<Listed>,
    /// How many bytes they take.
    taken: u64,
}

/// An entry of a directory.
#[derive(Drop)]
struct Listed {
    number: u64,
    kind: u8,
    name: String,
}

impl Listed {
    /// A name of a directory.
    fn directory(name: String, number: u64) -> Listed {
        Listed {
            number,
            kind: 4,
            name,
        }
    }

    /// A name of what the host tells of: its kind stands in its mode, from the 13th bit on.
    fn new(name: String, told: &Metadata) -> Listed {
        Listed {
            number: told.ino(),
            kind: (told.mode() >> 12 & 15) as u8,
            name,
        }
    }

    /// A name of what the host does not tell of, as in a directory that may be read alone: neither
    /// its kind nor its number is known.
    fn untold(name: String) -> Listed {
        Listed {
            number: UNKNOWN,
            kind: 0,
            name,
        }
    }
}

impl HostDirectory {
    /// What is opened by a path of the host, if it is a directory. None of its entries is read.
    pub fn of(alloc: Global, path: String, told: &Metadata) -> Option<HostDirectory> {
        if !told.is_dir() {
            return None;
        }
        Some(HostDirectory {
            path,
            device: told.dev(),
            number: told.ino(),
            position: 0,
            entries: Vec::new(alloc),
            taken: 0,
        })
    }

    /// How many bytes its entries take.
    pub fn taken(&self) -> u64
        ensures { result ≡ self.now.taken }
    {
        self.taken
    }

    /// Whether none of its entries was read as yet.
    pub fn is_unread(&self) -> bool {
        self.entries.is_empty()
    }

    /// Reads its entries, below this folder, where there is room for them: else its entries stay as
    /// they are. Its path has to name it before and after, so that what is there in its place, such
    /// as a link, is not told.
    pub fn read_anew<H: Files>(
        &mut self,
        host: &H,
        alloc: Global,
        top: &str,
        room: u64,
    ) -> io::Result<()>
        ensures within { IsOk result → self.new.taken ≤ room }
        ensures kept { IsErr result → self.new ≡ self.old }
    {
        let path = self.path.as_str();
        if !self.is_at(host, path)? {
            return Err(io::Error::from_raw_os_error(2));
        }
        let above = if self.is_at(host, top)? {
            self.number
        } else {
            std::fs::symlink_metadata(host, parent_of(path))?.ino()
        };
        let left = room_after(room, 1)?;
        let mut left = room_after(left, 2)?;
        let mut entries = Vec::new(alloc);
        entries.push(Listed::directory(String::from_str(alloc, ".")?, self.number))?;
        entries.push(Listed::directory(String::from_str(alloc, "..")?, above))?;
        for name in names_in(host, alloc, path, &mut left)? {
            let whole = format!(in alloc; "{path}/{name}")?;
            match std::fs::symlink_metadata(host, &whole) {
                Ok(told) => entries.push(Listed::new(name, &told))?,
                // what is gone since is left out
                Err(error) if error.raw_os_error() == Some(GONE) => {}
                Err(_) => entries.push(Listed::untold(name))?,
            }
        }
        // what was listed in between was another's
        if !self.is_at(host, path)? {
            return Err(io::Error::from_raw_os_error(2));
        }
        self.entries = entries;
        self.taken = room - left;
        Ok(())
    }

    /// Whether a path of the host names it.
    fn is_at<H: Files>(&self, host: &H, path: &str) -> io::Result<bool> {
        let told = std::fs::metadata(host, path)?;
        Ok(told.dev() == self.device && told.ino() == self.number)
    }

    /// Moves the position, and gives it: from the beginning (0), or from where it is (1). A
    /// directory has no end to count from.
    pub fn move_to(&mut self, from: u32, offset: u64) -> Result<u64, u32> {
        let position = match from {
            0 => offset,
            1 => self.position.wrapping_add(offset),
            _ => return Err(BAD_ARGUMENT),
        };
        if position >= 1 << 63 {
            return Err(BAD_ARGUMENT);
        }
        self.position = position;
        Ok(position)
    }

    /// The entry at a position, if there is one, whose name is put at the beginning of this room.
    pub fn entry(&self, position: u64, room: &mut [u8; NAME_BYTES]) -> Option<Entry>
        ensures { IfSome result (λ entry. entry.size ≤ 255) }
    {
        let Ok(position) = usize::try_from(position) else {
            return None;
        };
        let listed = self.entries.get(position)?;
        let name = listed.name.as_bytes();
        let size = name.len().min(NAME_BYTES);
        room[..size].copy_from_slice(&name[..size]);
        Some(Entry {
            number: listed.number,
            kind: listed.kind,
            size,
        })
    }
}

/// The path above one that has no part `..`.
fn parent_of(path: &str) -> &str {
    let mut rest = path;
    for _ in 0..path.len() {
        let Some((before, name)) = rest.rsplit_once('/') else {
            break;
        };
        if !name.is_empty() && name != "." {
            return before;
        }
        rest = before;
    }
    rest
}

/// How much of some room the entries of open directories leave.
pub fn left_by(directories: &[Option<HostDirectory>], room: u64) -> u64
    ensures { result ≡ room - sum_by taken_of directories.now }
{
    let mut left = room;
    for place in directories {
        if let Some(directory) = place {
            left = left.saturating_sub(directory.taken());
        }
    }
    left
}

/// How much room is left where an entry is listed whose name has so many bytes. Without so much it
/// is an error: there is no memory.
fn room_after(left: u64, size: usize) -> io::Result<u64>
    ensures listed { IfOk result (λ after. after + entry_room size ≡ left) }
    ensures refused { IsErr result ↔ left < entry_room size }
{
    match ENTRY.checked_add(size as u64) {
        Some(entry) if entry <= left => Ok(left - entry),
        _ => Err(io::Error::from(ErrorKind::OutOfMemory)),
    }
}

/// The names in a directory but for `.` and `..`, in their order, where there is room to list them.
/// One that is not UTF-8 is left out.
fn names_in<H: Files>(
    host: &H,
    alloc: Global,
    path: &str,
    left: &mut u64,
) -> io::Result<Vec<String>>
    ensures { left.new ≤ left.old }
{
    let path = format!(in alloc; "{path}/")?;
    let mut directory = host.open_dir(&path)?;
    let mut names = Vec::new(alloc);
    let mut room = [0; NAMES];
    for _ in 0..u64::MAX {
        let size = directory.read(&mut room)?;
        if size == 0 {
            break;
        }
        take_names(alloc, &room[..size], &mut names, left)?;
    }
    names.sort_unstable();
    Ok(names)
}

/// Takes names of which each is ended by a 0, where there is room to list them.
fn take_names(
    alloc: Global,
    bytes: &[u8],
    names: &mut Vec<String>,
    left: &mut u64,
) -> io::Result<()>
    ensures { left.new ≤ left.old }
{
    let mut name = Vec::new(alloc);
    for byte in bytes {
        if *byte != 0 {
            name.push(*byte)?;
            continue;
        }
        if let Ok(text) = str::from_utf8(&name) {
            if text != "." && text != ".." {
                *left = room_after(*left, text.len())?;
                names.push(String::from_str(alloc, text)?)?;
            }
        }
        name.clear();
    }
    Ok(())
}
