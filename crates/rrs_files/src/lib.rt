//! Files of a program: Linux's calls for files, served by the files below one folder of the host.
//!
//! [WithFiles] is an environment around another one, as `Linux` of `rrs_linux`: the calls for files
//! are served here, and all others by the other. What each does is written in `specs/Calls.antt`, by
//! the calls of the host that it makes ([Folder]), which are listed in `specs/Events.antt`.

#![tactic(auto)]

mod descriptors;
mod entries;
mod errors;
mod files;
mod folder;
mod host_directory;
mod host_folder;
mod host_opening;
mod paths;
mod pieces;
mod requests;
mod running;
mod serving;
mod statuses;

pub use descriptors::{Descriptors, MOST_OPEN, Target};
pub use files::Files;
pub use folder::{Change, Entry, Folder, How, LINK_BYTES, Moment, NAME_BYTES, NameChange, Status};
pub use host_folder::HostFolder;
pub use requests::FileRequest;
pub use running::{execute_below, execute_with_files};
pub use serving::WithFiles;
