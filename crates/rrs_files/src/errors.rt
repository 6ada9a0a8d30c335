//! The answers of calls that fail: for the error n of Linux the word -n.

/// The program may not do so, `EPERM` (1).
pub const NOT_PERMITTED: u32 = 0xffff_ffff;
/// There is no such file, `ENOENT` (2).
pub const NO_FILE: u32 = 0xffff_fffe;
/// The descriptor is not open, `EBADF` (9).
pub const BAD_DESCRIPTOR: u32 = 0xffff_fff7;
/// The file may not be reached, `EACCES` (13).
pub const ACCESS_DENIED: u32 = 0xffff_fff3;
/// A buffer or a path is not in memory, `EFAULT` (14).
pub const BAD_ADDRESS: u32 = 0xffff_fff2;
/// The file is there, `EEXIST` (17).
pub const IS_THERE: u32 = 0xffff_ffef;
/// It is no directory, `ENOTDIR` (20).
pub const NO_DIRECTORY: u32 = 0xffff_ffec;
/// It is a directory, `EISDIR` (21).
pub const A_DIRECTORY: u32 = 0xffff_ffeb;
/// The call takes no such argument, `EINVAL` (22).
pub const BAD_ARGUMENT: u32 = 0xffff_ffea;
/// Too many files are open, `EMFILE` (24).
pub const MANY_OPEN: u32 = 0xffff_ffe8;
/// It is no terminal, `ENOTTY` (25).
pub const NO_TERMINAL: u32 = 0xffff_ffe7;
/// Files may only be read, `EROFS` (30).
pub const READ_ONLY: u32 = 0xffff_ffe2;
/// There is no room for the answer, `ERANGE` (34).
pub const NO_ROOM: u32 = 0xffff_ffde;
/// The path is too long, `ENAMETOOLONG` (36).
pub const LONG_NAME: u32 = 0xffff_ffdc;
/// A part of the path is a link, `ELOOP` (40).
pub const IS_LINK: u32 = 0xffff_ffd8;
