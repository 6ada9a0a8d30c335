//! The programs over this library, as they are called. What they say on standard error has their
//! names from here.

use crate::command::Command;

/// `rrs-run`, which prints each instruction before its step.
pub const RRS_RUN: Command = Command {
    name: "rrs-run",
    usage: "rrs-run FILE LIMIT",
};

/// `rrs-replay`, which answers the questions of standard input.
pub const RRS_REPLAY: Command = Command {
    name: "rrs-replay",
    usage: "rrs-replay",
};
