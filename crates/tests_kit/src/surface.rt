//! The public names of the port, each called with exactly the arguments and types that it promises.
//!
//! A name that is gone, a parameter more, another type, another field or another variant does not
//! compile here. What the calls do is seen on a few worked numbers; the tests beside these have
//! the others.

mod executor;
mod extras;
mod formats;
mod memories;
mod processors;
mod spaces;

use std::fmt::Debug;

/// Compiles for a type that has both traits.
fn is_shown_and_compared<T: Debug + PartialEq>() {}

/// Compiles for a type whose values can be copied.
fn is_cloned_and_copied<T: Clone + Copy>() {}
