//! An environment that serves the calls for files.

ghost use Rattle.std.specs.Prelude.{◌≡◌, ◌<◌, ◌≤◌, ◌+◌, ◌&&◌, ℕ, Bool, Option, Some, None, length, IfOk, IfErr, Ok, Err, take, slice_index, true, false};
ghost use Rattle.rrs_lib.specs.Bytes.{little_endian};
ghost use Rattle.rrs_lib.specs.Machine.{state_of};
ghost use Rattle.rrs_linux.specs.SystemCalls.{answered};
ghost use Rattle.rrs_linux.specs.Transfers.{Stands};
ghost use Rattle.rrs_fast.specs.Serving.{MakesSome};
ghost use Rattle.rrs_files.specs.Acts.{ChangesName, Opens, Renames, Tests};
ghost use Rattle.rrs_files.specs.Calls.{ByPath, ByPaths, DoesFile, FindsLink, IsMoment, ListsFile, MovesBack, ReadsFile, ReadsLink, SeeksFile, ServesFiles, SetsTimes, TakesPath, TakesTimes, TellsBeside, TellsFile, TellsFolder, TellsNamed, folder_answer, is_of_descriptor, link_answer, linking, listed_of, naming, times_of};

use crate::entries::read_directory;
use crate::errors::{BAD_ADDRESS, BAD_ARGUMENT, BAD_DESCRIPTOR, IS_LINK, NO_FILE, NO_ROOM};
use crate::files::Files;
use crate::folder::{Folder, LINK_BYTES, Moment, NameChange, Status};
use crate::paths::{
    IS_SYMBOLIC, Named, PATH_BYTES, WORKING_DIRECTORY, kind_of, read_path, refusal_of, walk,
};
use crate::requests::{FileRequest, file_request_of, stream_asked};
use crate::statuses::{Form, put_stream, put_told};
use arrayvec::ArrayVec;
use rrs_fast::Environment;
use rrs_lib::instruction_executor::InstructionExecutor;
use rrs_lib::{HartState, Memory};
use rrs_linux::{copy_chunk, give_bytes, most_of, put_bytes};

/// The most bytes that one call reads or writes of a file.
pub const CHUNK: usize = 65_536;

/// From where a position is moved: from where it is, `SEEK_CUR`.
const FROM_POSITION: u32 = 1;

/// The register of the first argument, `a0`, which takes the answer too.
const FIRST_ARGUMENT: usize = 10;

/// How many bytes two times have.
const TIMES: u32 = 32;

/// How many nanoseconds a second has.
const SECOND: u32 = 1_000_000_000;

/// The flag of a path whose last part may be a link, `AT_SYMLINK_NOFOLLOW`.
const NO_FOLLOW: u32 = 0x100;

/// The flag of a path that may be empty, `AT_EMPTY_PATH`.
const MAY_BE_EMPTY: u32 = 0x1000;

impl<F: Folder> Files<F> {
    /// Does what a call asks for, and gives its answer.
    fn perform<M: Memory>(&mut self, memory: &mut M, request: FileRequest) -> u32
        ensures does { MakesSome M.reads M.writes
            (DoesFile F.did (M.writable memory.old) (M.bytes memory.old) (M.bytes memory.new)
            request self.old self.new result)
            memory.old memory.new }
        ensures writable_kept { M.writable memory.new ≡ M.writable memory.old }
        ensures layout_kept { M.layout memory.new ≡ M.layout memory.old }
    {
        match request {
            FileRequest::Open(beside, path, flags, mode) => {
                self.open_at(memory, beside, path, flags, mode)
            }
            FileRequest::Close(descriptor) => self.close(descriptor),
            FileRequest::Copy(descriptor) => self.copy(descriptor, 0),
            FileRequest::CopyTo(descriptor, to, flags) => self.copy_to(descriptor, to, flags),
            FileRequest::Seek(descriptor, offset, from, address) => {
                self.seek_to(memory, descriptor, offset, from, address)
            }
            FileRequest::List(descriptor, address, count) => {
                self.list_to(memory, descriptor, address, count)
            }
            FileRequest::Read(descriptor, address, count) => {
                self.read_to(memory, descriptor, None, address, count)
            }
            FileRequest::ReadAt(descriptor, offset, address, count) => {
                self.read_to(memory, descriptor, Some(offset), address, count)
            }
            FileRequest::Write(descriptor, address, count) => {
                self.write_from(memory, descriptor, None, address, count)
            }
            FileRequest::WriteAt(descriptor, offset, address, count) => {
                self.write_from(memory, descriptor, Some(offset), address, count)
            }
            FileRequest::WritePieces(descriptor, address, count) => {
                self.write_pieces_from(memory, descriptor, address, count)
            }
            FileRequest::Status(descriptor, address) => {
                self.put_status(memory, descriptor, address, Form::Stat64)
            }
            FileRequest::NamedStatus(beside, path, flags, address) => {
                self.put_named(memory, beside, path, flags, address, Form::Stat64)
            }
            FileRequest::ExtendedStatus(beside, path, flags, address) => {
                self.put_named(memory, beside, path, flags, address, Form::Statx)
            }
            FileRequest::Link(beside, path, address, size) => {
                self.put_link(memory, beside, path, address, size)
            }
            FileRequest::ChangeFile(descriptor, change) => self.change(descriptor, change),
            FileRequest::Own(descriptor, owner, group) => self.own(descriptor, owner, group),
            FileRequest::ChangeName(beside, path, change) => {
                self.change_name_at(memory, beside, path, change)
            }
            FileRequest::Rename(beside, path, new_beside, new_path) => {
                self.rename_at(memory, beside, path, new_beside, new_path)
            }
            FileRequest::Test(beside, path, asked) => self.test_at(memory, beside, path, asked),
            FileRequest::Control(descriptor, command, argument) => {
                self.control(descriptor, command, argument)
            }
            FileRequest::ControlDevice(descriptor) => self.control_device(descriptor),
            FileRequest::SetTimes(beside, path, times) => {
                self.set_times(memory, beside, path, times)
            }
            FileRequest::Folder(address, size) => put_folder(memory, address, size),
            FileRequest::Refused(answer) => answer,
        }
    }

    /// Reads the path at an address into this room: how many bytes it has, or why it is refused.
    fn path_at<M: Memory>(
        &self,
        memory: &mut M,
        beside: u32,
        address: u32,
        text: &mut [u8; PATH_BYTES],
    ) -> Result<usize, u32>
        ensures taken { IfOk result (λ size. MakesSome M.reads M.writes
            (TakesPath (M.bytes memory.old) self.now.descriptors beside address
            (Ok (take size text.new))) memory.old memory.new) }
        ensures within { IfOk result (λ size. size < 4096) }
        ensures refused { IfErr result (λ error. MakesSome M.reads M.writes
            (TakesPath (M.bytes memory.old) self.now.descriptors beside address
            (Err error)) memory.old memory.new) }
        ensures bytes_kept { M.bytes memory.new ≡ M.bytes memory.old }
        ensures writable_kept { M.writable memory.new ≡ M.writable memory.old }
        ensures layout_kept { M.layout memory.new ≡ M.layout memory.old }
    {
        let size = match read_path(memory, address, text) {
            Ok(size) => size,
            Err(error) => return Err(error),
        };
        match refusal_of(&text[..size], beside, &self.descriptors) {
            Some(error) => Err(error),
            None => Ok(size),
        }
    }

    /// Opens the file that the path at an address names, and gives the answer of the call.
    fn open_at<M: Memory>(
        &mut self,
        memory: &mut M,
        beside: u32,
        path: u32,
        flags: u32,
        mode: u32,
    ) -> u32
        ensures does { MakesSome M.reads M.writes
            (ByPath F.did (M.writable memory.old) (M.bytes memory.old) (M.bytes memory.new)
            (λ text. Opens F.did text flags mode) beside path self.old self.new result)
            memory.old memory.new }
        ensures writable_kept { M.writable memory.new ≡ M.writable memory.old }
        ensures layout_kept { M.layout memory.new ≡ M.layout memory.old }
    {
        let mut text = [0; PATH_BYTES];
        match self.path_at(memory, beside, path, &mut text) {
            Err(error) => error,
            Ok(size) => self.open(&text[..size], flags, mode),
        }
    }

    /// Changes the name that the path at an address is, and gives the answer of the call.
    fn change_name_at<M: Memory>(
        &mut self,
        memory: &mut M,
        beside: u32,
        path: u32,
        change: NameChange,
    ) -> u32
        ensures does { MakesSome M.reads M.writes
            (ByPath F.did (M.writable memory.old) (M.bytes memory.old) (M.bytes memory.new)
            (λ text. ChangesName F.did text change) beside path self.old self.new result)
            memory.old memory.new }
        ensures writable_kept { M.writable memory.new ≡ M.writable memory.old }
        ensures layout_kept { M.layout memory.new ≡ M.layout memory.old }
    {
        let mut text = [0; PATH_BYTES];
        match self.path_at(memory, beside, path, &mut text) {
            Err(error) => error,
            Ok(size) => self.change_name(&text[..size], change),
        }
    }

    /// Gives the file that the path at an address names the name that another path is, and gives
    /// the answer of the call.
    fn rename_at<M: Memory>(
        &mut self,
        memory: &mut M,
        beside: u32,
        path: u32,
        new_beside: u32,
        new_path: u32,
    ) -> u32
        ensures does { MakesSome M.reads M.writes
            (ByPaths F.did (M.writable memory.old) (M.bytes memory.old) (M.bytes memory.new)
            (Renames F.did) beside path new_beside new_path self.old self.new result)
            memory.old memory.new }
        ensures writable_kept { M.writable memory.new ≡ M.writable memory.old }
        ensures layout_kept { M.layout memory.new ≡ M.layout memory.old }
    {
        let mut text = [0; PATH_BYTES];
        let mut new_text = [0; PATH_BYTES];
        let size = match self.path_at(memory, beside, path, &mut text) {
            Err(error) => return error,
            Ok(size) => size,
        };
        match self.path_at(memory, new_beside, new_path, &mut new_text) {
            Err(error) => error,
            Ok(new_size) => self.rename(&text[..size], &new_text[..new_size]),
        }
    }

    /// Whether what the path at an address names may be reached so: the answer of the call.
    fn test_at<M: Memory>(&mut self, memory: &mut M, beside: u32, path: u32, asked: u32) -> u32
        ensures does { MakesSome M.reads M.writes
            (ByPath F.did (M.writable memory.old) (M.bytes memory.old) (M.bytes memory.new)
            (λ text. Tests F.did text asked) beside path self.old self.new result)
            memory.old memory.new }
        ensures writable_kept { M.writable memory.new ≡ M.writable memory.old }
        ensures layout_kept { M.layout memory.new ≡ M.layout memory.old }
    {
        let mut text = [0; PATH_BYTES];
        match self.path_at(memory, beside, path, &mut text) {
            Err(error) => error,
            Ok(size) => self.test(&text[..size], asked),
        }
    }

    /// Sets the times of what the path at an address names to those at an address, and gives the
    /// answer of the call.
    fn set_times<M: Memory>(&mut self, memory: &mut M, beside: u32, path: u32, times: u32) -> u32
        ensures does { MakesSome M.reads M.writes
            (SetsTimes F.did (M.writable memory.old) (M.bytes memory.old) (M.bytes memory.new)
            beside path times self.old self.new result)
            memory.old memory.new }
        ensures writable_kept { M.writable memory.new ≡ M.writable memory.old }
        ensures layout_kept { M.layout memory.new ≡ M.layout memory.old }
    {
        match times_at(memory, times) {
            Err(error) => error,
            Ok(change) => self.change_name_at(memory, beside, path, change),
        }
    }

    /// Reads from a descriptor into memory, and gives the answer of the call.
    fn read_to<M: Memory>(
        &mut self,
        memory: &mut M,
        descriptor: u32,
        from: Option<u64>,
        address: u32,
        count: u32,
    ) -> u32
        ensures does { MakesSome M.reads M.writes
            (ReadsFile F.did (M.writable memory.old) (M.bytes memory.old) (M.bytes memory.new)
            descriptor from address count self.old self.new result)
            memory.old memory.new }
        ensures writable_kept { M.writable memory.new ≡ M.writable memory.old }
        ensures layout_kept { M.layout memory.new ≡ M.layout memory.old }
    {
        let Some(place) = self.descriptors.file_of(descriptor) else {
            return BAD_DESCRIPTOR;
        };
        let Some(most) = most_of(address, count) else {
            return BAD_ADDRESS;
        };
        let most = most.min(CHUNK as u32);
        let mut chunk = [0; CHUNK];
        match self.folder.read(place, from, most as usize, &mut chunk) {
            Err(error) => error,
            Ok(size) => {
                let (given, answer) = give_bytes(&chunk[..size], memory, address, most);
                move_back(&mut self.folder, place, from, size - given);
                answer
            }
        }
    }

    /// Puts the next entries of the directory of a descriptor into memory, and gives the answer of
    /// the call.
    fn list_to<M: Memory>(
        &mut self,
        memory: &mut M,
        descriptor: u32,
        address: u32,
        count: u32,
    ) -> u32
        ensures does { MakesSome M.reads M.writes
            (ListsFile F.did (M.writable memory.old) (M.bytes memory.old) (M.bytes memory.new)
            descriptor address count self.old self.new result)
            memory.old memory.new }
        ensures writable_kept { M.writable memory.new ≡ M.writable memory.old }
        ensures layout_kept { M.layout memory.new ≡ M.layout memory.old }
    {
        let Some(place) = self.descriptors.file_of(descriptor) else {
            return BAD_DESCRIPTOR;
        };
        let mut text = ArrayVec::new();
        let next = match read_directory(&mut self.folder, place, count, &mut text) {
            Err(error) => return error,
            Ok(next) => next,
        };
        let entries = text.as_slice();
        if entries.is_empty() {
            return 0;
        }
        let put = put_bytes(entries, memory, address);
        if put != 0 {
            return put;
        }
        listed_of(self.folder.seek(place, 0, next), entries.len() as u32)
    }

    /// Moves the position of a descriptor, puts it into memory, and gives the answer of the call.
    fn seek_to<M: Memory>(
        &mut self,
        memory: &mut M,
        descriptor: u32,
        offset: u64,
        from: u32,
        address: u32,
    ) -> u32
        ensures does { MakesSome M.reads M.writes
            (SeeksFile F.did (M.writable memory.old) (M.bytes memory.old) (M.bytes memory.new)
            descriptor offset from address self.old self.new result)
            memory.old memory.new }
        ensures writable_kept { M.writable memory.new ≡ M.writable memory.old }
        ensures layout_kept { M.layout memory.new ≡ M.layout memory.old }
    {
        let Some(place) = self.descriptors.file_of(descriptor) else {
            return BAD_DESCRIPTOR;
        };
        if from > 2 {
            return BAD_ARGUMENT;
        }
        match self.folder.seek(place, from, offset) {
            Err(error) => error,
            Ok(position) => put_bytes(&position.to_le_bytes(), memory, address),
        }
    }

    /// Puts the status of a descriptor into memory, and gives the answer of the call.
    fn put_status<M: Memory>(
        &mut self,
        memory: &mut M,
        descriptor: u32,
        address: u32,
        form: Form,
    ) -> u32
        ensures does { MakesSome M.reads M.writes
            (TellsFile F.did (M.writable memory.old) (M.bytes memory.old) (M.bytes memory.new)
            descriptor address form self.old self.new result)
            memory.old memory.new }
        ensures writable_kept { M.writable memory.new ≡ M.writable memory.old }
        ensures layout_kept { M.layout memory.new ≡ M.layout memory.old }
    {
        let Some(place) = self.descriptors.file_of(descriptor) else {
            return BAD_DESCRIPTOR;
        };
        match self.folder.status(place) {
            Err(error) => error,
            Ok(status) => put_told(memory, address, form, &status),
        }
    }

    /// Puts the text of the link that a path names into memory, and gives the answer of the call.
    fn put_link<M: Memory>(
        &mut self,
        memory: &mut M,
        beside: u32,
        path: u32,
        address: u32,
        size: u32,
    ) -> u32
        ensures does { MakesSome M.reads M.writes
            (ReadsLink F.did (M.writable memory.old) (M.bytes memory.old) (M.bytes memory.new)
            beside path address size self.old self.new result)
            memory.old memory.new }
        ensures writable_kept { M.writable memory.new ≡ M.writable memory.old }
        ensures layout_kept { M.layout memory.new ≡ M.layout memory.old }
    {
        if size == 0 || size > i32::MAX as u32 {
            return BAD_ARGUMENT;
        }
        let mut text = [0; PATH_BYTES];
        let mut target = [0; LINK_BYTES];
        let length = match self.path_at(memory, beside, path, &mut text) {
            Err(error) => return error,
            Ok(length) => length,
        };
        match find_link(&mut self.folder, &text[..length], &mut target) {
            Err(error) => error,
            Ok(found) => {
                let most = (size as usize).min(found);
                link_answer(put_bytes(&target[..most], memory, address), most as u32)
            }
        }
    }

    /// Puts the status of what an empty path is beside into memory, a file, a standard stream or
    /// the working directory, and gives the answer of the call.
    fn put_beside<M: Memory>(
        &mut self,
        memory: &mut M,
        beside: u32,
        address: u32,
        form: Form,
    ) -> u32
        ensures does { MakesSome M.reads M.writes
            (TellsBeside F.did (M.writable memory.old) (M.bytes memory.old) (M.bytes memory.new)
            beside address form self.old self.new result)
            memory.old memory.new }
        ensures writable_kept { M.writable memory.new ≡ M.writable memory.old }
        ensures layout_kept { M.layout memory.new ≡ M.layout memory.old }
    {
        match self.descriptors.stream_of(beside) {
            Some(_) => return put_stream(memory, address, form),
            None => {}
        }
        if beside != WORKING_DIRECTORY {
            return self.put_status(memory, beside, address, form);
        }
        match self.folder.look(&[]) {
            Err(error) => error,
            Ok(status) => put_told(memory, address, form, &status),
        }
    }

    /// Puts the status of what a path names into memory, and gives the answer of the call.
    fn put_named<M: Memory>(
        &mut self,
        memory: &mut M,
        beside: u32,
        path: u32,
        flags: u32,
        address: u32,
        form: Form,
    ) -> u32
        ensures does { MakesSome M.reads M.writes
            (TellsNamed F.did (M.writable memory.old) (M.bytes memory.old) (M.bytes memory.new)
            beside path flags address form self.old self.new result)
            memory.old memory.new }
        ensures writable_kept { M.writable memory.new ≡ M.writable memory.old }
        ensures layout_kept { M.layout memory.new ≡ M.layout memory.old }
    {
        let mut text = [0; PATH_BYTES];
        match self.path_at(memory, beside, path, &mut text) {
            Err(error) => {
                if is_of_descriptor(error, flags) {
                    self.put_beside(memory, beside, address, form)
                } else {
                    error
                }
            }
            Ok(size) => match naming(walk(&mut self.folder, &text[..size]), flags) {
                Err(error) => error,
                Ok(status) => put_told(memory, address, form, &status),
            },
        }
    }
}

/// Moves the position of a file back by the bytes that were read and found no room: so many. A read
/// from an offset has moved none.
fn move_back<F: Folder>(folder: &mut F, place: usize, from: Option<u64>, left: usize)
    requires { place ≤ 63 }
    ensures { MovesBack F.did place from left folder.old folder.new }
{
    if left == 0 {
        return;
    }
    match from {
        Some(_) => {}
        None => {
            let back = u64::MAX - (left as u64 - 1);
            let _moved = folder.seek(place, FROM_POSITION, back);
        }
    }
}

/// Reads the link that a path names, which is its last part, into this room, and gives how many
/// bytes it has, or the error.
fn find_link<F: Folder>(
    folder: &mut F,
    path: &[u8],
    room: &mut [u8; LINK_BYTES],
) -> Result<usize, u32>
    ensures some { IfOk result (λ size. 0 < size) }
    ensures within { IfOk result (λ size. size ≤ 4096) }
    ensures found { IfOk result (λ size.
        FindsLink F.did path.now folder.old folder.new (Ok (take size room.new))) }
    ensures refused { IfErr result (λ error.
        FindsLink F.did path.now folder.old folder.new (Err error)) }
{
    let named = walk(folder, path);
    match linking(named) {
        Some(error) => Err(error),
        None => match folder.link(path, room) {
            Ok(size) => Ok(size),
            Err(error) => Err(error),
        },
    }
}

/// Why what a path names has no text of a link, if it has none.
fn linking(named: Named) -> Option<u32>
    ensures { result ≡ linking named }
{
    match named {
        Named::Stopped(error) => Some(error),
        Named::Missing => Some(NO_FILE),
        Named::There(status) => if kind_of(&status) == IS_SYMBOLIC {
            None
        } else {
            Some(BAD_ARGUMENT)
        },
    }
}

/// The answer of `readlinkat` where so many bytes were put with this answer.
fn link_answer(put: u32, size: u32) -> u32
    ensures { result ≡ link_answer put size }
{
    if put == 0 { size } else { put }
}

/// Reads the two times at an address, and gives the change to them, or the error.
fn times_at<M: Memory>(memory: &mut M, address: u32) -> Result<NameChange, u32>
    ensures taken { MakesSome M.reads M.writes
        (TakesTimes (M.bytes memory.old) address result) memory.old memory.new }
    ensures bytes_kept { M.bytes memory.new ≡ M.bytes memory.old }
    ensures writable_kept { M.writable memory.new ≡ M.writable memory.old }
    ensures layout_kept { M.layout memory.new ≡ M.layout memory.old }
{
    if u64::from(address) + u64::from(TIMES) > 1 << 32 {
        return Err(BAD_ADDRESS);
    }
    let mut bytes = [0; TIMES as usize];
    if copy_chunk(memory, address, TIMES, &mut bytes) < TIMES {
        return Err(BAD_ADDRESS);
    }
    times_of(moment_in(&bytes, 0), moment_in(&bytes, 16))
}

/// The change to two times, or the error.
fn times_of(accessed: Moment, modified: Moment) -> Result<NameChange, u32>
    ensures { result ≡ times_of accessed modified }
{
    if accessed.nanos >= SECOND || modified.nanos >= SECOND {
        Err(BAD_ARGUMENT)
    } else {
        Ok(NameChange::SetTimes(accessed, modified))
    }
}

/// The moment at a place of two times.
fn moment_in(bytes: &[u8], at: usize) -> Moment
    requires { at + 12 ≤ length bytes.now }
    ensures { (memory : ℕ → Option ℕ) (a : ℕ) → Stands memory a bytes.now
        → IsMoment memory (a + at) result }
{
    let low = word_in(bytes, at);
    let high = word_in(bytes, at + 4);
    Moment {
        seconds: u64::from(high) * (1 << 32) + u64::from(low),
        nanos: word_in(bytes, at + 8),
    }
}

/// The word at a place of some bytes, the lowest first.
fn word_in(bytes: &[u8], at: usize) -> u32
    requires { at + 4 ≤ length bytes.now }
    ensures { (memory : ℕ → Option ℕ) (a : ℕ) → Stands memory a bytes.now
        → little_endian memory (a + at) 4 ≡ Some result }
{
    let low = u32::from(bytes[at]) + 0x100 * u32::from(bytes[at + 1]);
    let high = u32::from(bytes[at + 2]) + 0x100 * u32::from(bytes[at + 3]);
    low + 0x1_0000 * high
}

/// Puts the path of the working directory into memory, and gives the answer of the call.
fn put_folder<M: Memory>(memory: &mut M, address: u32, size: u32) -> u32
    ensures does { MakesSome M.reads M.writes
        (TellsFolder (M.writable memory.old) (M.bytes memory.old) (M.bytes memory.new)
        address size result)
        memory.old memory.new }
    ensures writable_kept { M.writable memory.new ≡ M.writable memory.old }
    ensures layout_kept { M.layout memory.new ≡ M.layout memory.old }
{
    if size < 2 {
        return NO_ROOM;
    }
    folder_answer(put_bytes(&[b'/', 0], memory, address))
}

/// The answer of `getcwd` where the bytes of the path were put with this answer: how many they are,
/// or the error.
fn folder_answer(put: u32) -> u32
    ensures { result ≡ folder_answer put }
{
    if put == 0 { 2 } else { put }
}

/// How many bytes of entries were put, where the position was moved after them, or the error.
fn listed_of(moved: Result<u64, u32>, size: u32) -> u32
    ensures { result ≡ listed_of moved size }
{
    match moved {
        Ok(_) => size,
        Err(error) => error,
    }
}

/// Whether a status is that of what a path is beside, where the path has this error.
fn is_of_descriptor(error: u32, flags: u32) -> bool
    ensures { result ≡ is_of_descriptor error flags }
{
    error == NO_FILE && flags & MAY_BE_EMPTY != 0
}

/// The status of what a path names, or the error.
fn naming(named: Named, flags: u32) -> Result<Status, u32>
    ensures { result ≡ naming named flags }
{
    match named {
        Named::Stopped(error) => Err(error),
        Named::Missing => Err(NO_FILE),
        Named::There(status) => {
            if kind_of(&status) == IS_SYMBOLIC && flags & NO_FOLLOW == 0 {
                Err(IS_LINK)
            } else {
                Ok(status)
            }
        }
    }
}

/// An environment around another one, which serves the calls for files itself.
#[derive(Drop)]
pub struct WithFiles<'a, P, F> {
    /// The environment that serves all other calls.
    pub process: &'a mut P,
    /// The files.
    pub files: Files<F>,
}

impl<'a, P: Environment, F: Folder> Environment for WithFiles<'a, P, F> {
    ghost serves = { ServesFiles P.serves F.did };

    fn serve<M: Memory>(&mut self, executor: &mut InstructionExecutor<M>) -> Option<u32> {
        let Some(request) = file_request_of(executor.hart_state) else {
            return self.process.serve(executor);
        };
        match stream_asked(&request, &self.files.descriptors) {
            Some(stream) => {
                executor.hart_state.write_register(FIRST_ARGUMENT, stream);
                self.process.serve(executor)
            }
            None => {
                let answer = self.files.perform(executor.mem, request);
                go_on(executor.hart_state, answer)
            }
        }
    }
}

/// Puts the answer of a call into a0. The program goes on.
fn go_on(hart: &mut HartState, answer: u32) -> Option<u32>
    ensures goes_on { result ≡ None }
    ensures answered { (bytes : ℕ → Option ℕ) (writable : ℕ → Bool)
        → state_of hart.new bytes writable ≡ answered (state_of hart.old bytes writable) answer }
    ensures zero_kept { slice_index hart.new.registers 0 ≡ slice_index hart.old.registers 0 }
{
    hart.write_register(FIRST_ARGUMENT, answer);
    None
}
