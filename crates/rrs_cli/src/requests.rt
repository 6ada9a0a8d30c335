//! What the words of a command line ask for.

ghost use Rattle.std.specs.Prelude.{◌≡◌, None, Some, MatchOption, map, string_bytes};
ghost use Rattle.rrs_cli.specs.Requests.{request_in};

use crate::limits::limit_of;

/// The path and the limit that the words of a command line are: the program's own name, and then
/// these two. `None` where there are fewer words or more, or where the last one is no limit.
pub fn file_and_limit(words: &[String]) -> Option<(&str, u64)>
    ensures { MatchOption result (request_in (map string_bytes words.now) ≡ None)
        (λ request. request_in (map string_bytes words.now) ≡ Some (request.0.now, request.1)) }
{
    let [_, path, limit] = words else {
        return None;
    };
    let limit = limit_of(limit.as_str())?;
    Some((path.as_str(), limit))
}
