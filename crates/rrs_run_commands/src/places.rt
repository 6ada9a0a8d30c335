//! Which of the files that a request names are one file, as the host tells it.

ghost use Rattle.std.specs.Prelude.{◌≡◌, ◌↔◌, ◌⊎◌, IfErr, IfOk, OnErr, OnOk, IsTrue, option_map};
ghost use Rattle.rrs_run_commands.specs.Requests.{WritesApart, wanted_of};
ghost use Rattle.rrs_run_commands.specs.WrittenFiles.{AreApart, AreNamedBy, AreToldApart, AreToldTogether, IsApart, IsNamed, IsSameFile, IsSamePlace, IsWantOfMemory, path_in};

use crate::files::place_of;
use crate::refusal::{FileFault, Refusal, out_of_memory};
use crate::requests::Request;
use std::fs::{self, Metadata};
use std::io::{self, ErrorKind};
use std::os::unix::fs::MetadataExt;
use std::rt::Files;

/// The most links that a path leads along, as of Linux.
const MOST_LINKS: usize = 40;

/// A file or a folder of the host: its device, and its number there.
#[derive(Clone, Copy, PartialEq)]
pub struct Node {
    pub device: u64,
    pub number: u64,
}

/// Where a path leads, along its links.
#[derive(Drop)]
pub enum Place {
    /// To this file.
    File(Node),
    /// To no file yet, which would have this name in this folder.
    Free(Node, String),
    /// To what is no file, as a device or a folder, or where the host does not tell.
    Other,
}

/// What the host tells of a path.
#[derive(Drop)]
pub struct Told<'a> {
    pub path: &'a str,
    pub place: Place,
}

/// The files that a request names: four that are read, and two that are written.
#[derive(Drop)]
pub struct NamedFiles<'a> {
    pub program: Option<Told<'a>>,
    pub symbols: Option<Told<'a>>,
    pub tree: Option<Told<'a>>,
    pub input: Option<Told<'a>>,
    pub output: Option<Told<'a>>,
    pub callgrind: Option<Told<'a>>,
}

/// What tells a file from others.
pub(crate) fn node_of(found: &Metadata) -> Node {
    Node {
        device: found.dev(),
        number: found.ino(),
    }
}

/// The folder of a path, with the slash behind it, or nothing where it is that where the program
/// runs; and the name in it.
pub(crate) fn parts_of(path: &str) -> (&str, &str) {
    match path.rfind('/') {
        Some(at) => (&path[..=at], &path[at + 1..]),
        None => ("", path),
    }
}

/// The path without a link at its end to which a path leads.
///
/// # Errors
///
/// A link that can't be read, or is not UTF-8; out of memory.
pub(crate) fn target_of<H: Files + AllocGlobal>(rt: &H, path: &str) -> io::Result<String> {
    let mut target = String::from_str(rt.alloc(), path)?;
    for _ in 0..MOST_LINKS {
        match fs::symlink_metadata(rt, target.as_str()) {
            Ok(found) if found.is_symlink() => target = linked(rt, &target)?,
            _ => break,
        }
    }
    Ok(target)
}

/// The path to which a link leads.
fn linked<H: Files + AllocGlobal>(rt: &H, path: &str) -> io::Result<String> {
    let link = rt.read_link(rt.alloc(), path)?;
    let Some(text) = link.to_str() else {
        return Err(io::Error::from(ErrorKind::InvalidData));
    };
    let (folder, _name) = parts_of(path);
    let folder = if text.starts_with('/') { "" } else { folder };
    Ok(format!(in rt.alloc(); "{folder}{text}")?)
}

/// Where a path leads.
///
/// # Errors
///
/// Out of memory. What the host does not tell is no error.
fn place_at<H: Files + AllocGlobal>(rt: &H, path: &str) -> io::Result<Place> {
    match fs::metadata(rt, path) {
        Ok(found) if found.is_file() => Ok(Place::File(node_of(&found))),
        Err(error) if error.kind() == ErrorKind::NotFound => free_place(rt, path),
        _ => Ok(Place::Other),
    }
}

/// Where a path leads at which no file is.
fn free_place<H: Files + AllocGlobal>(rt: &H, path: &str) -> io::Result<Place> {
    let target = match target_of(rt, path) {
        Ok(target) => target,
        Err(error) if error.kind() == ErrorKind::OutOfMemory => return Err(error),
        Err(_) => return Ok(Place::Other),
    };
    let (folder, name) = parts_of(&target);
    let folder = if folder.is_empty() { "." } else { folder };
    match fs::metadata(rt, folder) {
        Ok(found) => {
            let name = String::from_str(rt.alloc(), name)?;
            Ok(Place::Free(node_of(&found), name))
        }
        Err(_) => Ok(Place::Other),
    }
}

/// What the host tells of a path, by which this place is opened.
///
/// # Errors
///
/// Out of memory as a failure.
fn told_at<'a, H: Files + AllocGlobal>(
    rt: &H,
    path: &'a str,
    place: &str,
) -> Result<Told<'a>, Refusal<'a>>
    ensures told { IfOk result (λ told. told.path.now ≡ path.entry.now) }
    ensures refused { IfErr result (λ refusal. IsWantOfMemory refusal) }
{
    match place_at(rt, place) {
        Ok(place) => Ok(Told { path, place }),
        Err(_) => Err(out_of_memory()),
    }
}

/// What the host tells of a file that is read; `-` is standard input.
///
/// # Errors
///
/// Out of memory as a failure.
pub fn told_read<'a, H: Files + AllocGlobal>(
    rt: &H,
    path: Option<&'a str>,
) -> Result<Option<Told<'a>>, Refusal<'a>>
    ensures told { IfOk result (λ told. path_in told ≡ option_map (λ word. word.now) path.entry) }
    ensures refused { IfErr result (λ refusal. IsWantOfMemory refusal) }
{
    match path {
        Some(path) => Ok(Some(told_at(rt, path, place_of(path))?)),
        None => Ok(None),
    }
}

/// What the host tells of a file that is written.
///
/// # Errors
///
/// Out of memory as a failure.
pub fn told_written<'a, H: Files + AllocGlobal>(
    rt: &H,
    path: Option<&'a str>,
) -> Result<Option<Told<'a>>, Refusal<'a>>
    ensures told { IfOk result (λ told. path_in told ≡ option_map (λ word. word.now) path.entry) }
    ensures refused { IfErr result (λ refusal. IsWantOfMemory refusal) }
{
    match path {
        Some(path) => Ok(Some(told_at(rt, path, path)?)),
        None => Ok(None),
    }
}

/// What the host tells of the files that a request names.
///
/// # Errors
///
/// Out of memory as a failure.
fn named_files<'a, H: Files + AllocGlobal>(
    rt: &H,
    request: Request<'a>,
) -> Result<NamedFiles<'a>, Refusal<'a>>
    ensures named { IfOk result (λ files. AreNamedBy (wanted_of request.entry) files) }
    ensures refused { IfErr result (λ refusal. IsWantOfMemory refusal) }
{
    Ok(NamedFiles {
        program: told_read(rt, request.file)?,
        symbols: told_read(rt, request.symbols)?,
        tree: told_read(rt, request.tree)?,
        input: told_read(rt, request.input)?,
        output: told_written(rt, request.output)?,
        callgrind: told_written(rt, request.callgrind)?,
    })
}

/// Whether two paths lead to one place.
fn is_same_place(place: &Place, other: &Place) -> bool
    ensures { IsTrue result ↔ IsSamePlace place.now other.now }
{
    match (place, other) {
        (Place::File(node), Place::File(other)) => node == other,
        (Place::Free(folder, name), Place::Free(other, word)) => {
            folder == other && name.as_str() == word.as_str()
        }
        _ => false,
    }
}

/// Whether two files are one, by their paths or by what the host tells of them.
pub fn is_same_file(file: &Told<'_>, other: &Told<'_>) -> bool
    ensures { IsTrue result ↔ IsSameFile file.now other.now }
{
    file.path == other.path || is_same_place(&file.place, &other.place)
}

/// Whether a file is one that a request may name.
pub fn is_named(named: &Option<Told<'_>>, file: &Told<'_>) -> bool
    ensures { IsTrue result ↔ IsNamed named.now file.now }
{
    match named {
        Some(other) => is_same_file(other, file),
        None => false,
    }
}

/// Sees that a file that is written, if one is, is none that is read.
///
/// # Errors
///
/// `Refusal::File` where it is.
fn check_unread<'a>(files: &NamedFiles<'a>, written: &Option<Told<'a>>) -> Result<(), Refusal<'a>>
    ensures apart { OnOk result (IsApart files.now written.now) }
    ensures refused { OnErr result (IsApart files.now written.now → ⊥) }
{
    let Some(file) = written else {
        return Ok(());
    };
    let is_read = is_named(&files.program, file)
        || is_named(&files.symbols, file)
        || is_named(&files.tree, file)
        || is_named(&files.input, file);
    if is_read {
        Err(Refusal::File(file.path, FileFault::IsRead))
    } else {
        Ok(())
    }
}

/// Sees that no file is written that is read, and none for two options.
///
/// # Errors
///
/// `Refusal::File` for such a file.
fn check_apart<'a>(files: &NamedFiles<'a>) -> Result<(), Refusal<'a>>
    ensures apart { OnOk result (AreApart files.now) }
    ensures refused { OnErr result (AreApart files.now → ⊥) }
{
    check_unread(files, &files.output)?;
    check_unread(files, &files.callgrind)?;
    match &files.output {
        Some(output) if is_named(&files.callgrind, output) => {
            Err(Refusal::File(output.path, FileFault::IsWrittenTwice))
        }
        _ => Ok(()),
    }
}

/// Sees that no file of a request is written for two options, and that none is written that is
/// read: the program, the executable with its symbols, the device tree, and the input. Files are
/// told by their paths, and by what the host tells of these: along links, the device and the number
/// of a file, and of one that is not there yet the folder and the name.
///
/// # Errors
///
/// `Refusal::File` for such a file; out of memory as a failure. Nothing was written then.
pub fn check_written<'a, H: Files + AllocGlobal>(
    rt: &H,
    request: Request<'a>,
) -> Result<(), Refusal<'a>>
    ensures apart { OnOk result (WritesApart (wanted_of request.entry)) }
    ensures told { OnOk result (AreToldApart (wanted_of request.entry)) }
    ensures refused { IfErr result (λ refusal.
        IsWantOfMemory refusal ⊎ AreToldTogether (wanted_of request.entry)) }
{
    check_apart(&named_files(rt, request)?)
}
