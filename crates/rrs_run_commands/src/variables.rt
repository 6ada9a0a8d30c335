//! The variables of a program's environment, as the words of a command line give them.

ghost use Rattle.std.specs.Prelude.{◌≡◌, ◌<◌, ◌≤◌, ◌∷◌, ◌++◌, [], IfOk, MatchOption, length, map, reverse, string_bytes};
ghost use Rattle.rrs_run_commands.specs.Options.{most_variables};
ghost use Rattle.rrs_run_commands.specs.Requests.{variables_in, wanted_of};

use crate::requests::Request;
use std::alloc::{AllocError, Global};

/// The most variables that a program is given.
pub const MOST_VARIABLES: usize = 16;

/// Variables that a program is given, each of them `NAME=VALUE`, in the order of the words.
#[derive(Clone, Copy)]
pub struct Variables<'a> {
    /// The variables, and words that are none after them.
    given: [&'a str; MOST_VARIABLES],
    /// How many variables there are.
    count: usize,
}

impl<'a> Variables<'a> {
    /// No variables.
    pub fn none() -> Variables<'a>
        ensures { variables_in result ≡ [] }
    {
        Variables {
            given: [""; MOST_VARIABLES],
            count: 0,
        }
    }

    /// These variables and one more after them. `None` where there are 16.
    pub fn and(self, variable: &'a str) -> Option<Variables<'a>>
        ensures { MatchOption result
            (most_variables ≤ length (variables_in self.entry))
            (λ more. (length (variables_in self.entry) < most_variables)
            × (variables_in more ≡ variables_in self.entry ++ variable.now ∷ [])) }
    {
        let Variables { mut given, count } = self;
        if count >= MOST_VARIABLES {
            return None;
        }
        given[count] = variable;
        Some(Variables {
            given,
            count: count + 1,
        })
    }
}

/// The variables that a program is given, the last one first: of those with one name a program
/// finds the first in its environment, so the last word for a name counts.
///
/// # Errors
///
/// Out of memory.
pub fn variables_of(alloc: Global, request: Request<'_>) -> Result<Vec<String>, AllocError>
    ensures { IfOk result (λ variables.
        map string_bytes variables.items ≡ reverse (wanted_of request.entry).variables) }
{
    let Variables { given, count } = request.variables;
    let mut variables = Vec::new(alloc);
    let mut left = count.min(MOST_VARIABLES);
    while left > 0 {
        left -= 1;
        let variable = String::from_str(alloc, given[left])?;
        variables.push(variable)?;
    }
    Ok(variables)
}
