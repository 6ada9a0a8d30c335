//! What words ask for: variables of a program's environment, and random bytes of the host.

use rrs_run_commands::options::{Setting, Task};
use rrs_run_commands::refusal::Mistake;
use rrs_run_commands::requests::request_of;
use rrs_run_commands::variables::{MOST_VARIABLES, variables_of};
use std::alloc::{AllocError, Global};
use std::test::Fail;

/// Words of a command line.
fn words_of(alloc: Global, words: &[&str]) -> Result<Vec<String>, AllocError> {
    let mut copies = Vec::new(alloc);
    for word in words {
        copies.push(String::from_str(alloc, word)?)?;
    }
    Ok(copies)
}

/// Whether words ask for a program with these variables, in the order in which it finds them.
fn gives(alloc: Global, task: Task, words: &[&str], want: &[&str]) -> Result<bool, AllocError> {
    let words = words_of(alloc, words)?;
    let Ok(request) = request_of(task, &words) else {
        return Ok(false);
    };
    let variables = variables_of(alloc, request)?;
    let are_same = variables
        .iter()
        .map(String::as_str)
        .eq(want.iter().copied());
    Ok(are_same && request.path() == "program")
}

/// Words of a command line, and the variables that they give a program.
type Given = (Task, &'static [&'static str], &'static [&'static str]);

static GIVEN: [Given; 6] = [
    (Task::Execute, &["program", "--env", "A=1"], &[]),
    (Task::Execute, &["--env", "A=1", "program"], &["A=1"]),
    (Task::Trace, &["--env=A=B", "program"], &["A=B"]),
    (
        Task::Cover,
        &["--env", "A=", "--env=B==1 2", "program", "--env", "C=3"],
        &["B==1 2", "A="],
    ),
    (
        Task::Debug,
        &["--env", "A=1", "--env", "B=2", "--env", "A=3", "program"],
        &["A=3", "B=2", "A=1"],
    ),
    (
        Task::Execute,
        &["--raw", "--env", "A=1", "program", "--env", "B=2"],
        &["B=2", "A=1"],
    ),
];

#[test]
fn gives_a_program_its_variables_the_last_one_first(rt: HostRuntime) -> Result<(), Fail> {
    for (index, &(task, words, want)) in GIVEN.iter().enumerate() {
        assert!(rt; gives(rt.alloc(), task, words, want)?, "at {index}");
    }
    Ok(())
}

/// Words that give a program so many variables, the last of which is this one.
fn many(alloc: Global, count: usize, last: &str) -> Result<Vec<String>, AllocError> {
    let mut words = Vec::new(alloc);
    for _ in 1..count {
        words.push(String::from_str(alloc, "--env=A=1")?)?;
    }
    words.push(String::from_str(alloc, "--env")?)?;
    words.push(String::from_str(alloc, last)?)?;
    words.push(String::from_str(alloc, "program")?)?;
    Ok(words)
}

#[test]
fn takes_sixteen_variables(rt: HostRuntime) -> Result<(), Fail> {
    let alloc = rt.alloc();
    let words = many(alloc, MOST_VARIABLES, "B=2")?;
    let variables = match request_of(Task::Execute, &words) {
        Ok(request) => variables_of(alloc, request)?,
        Err(_) => Vec::new(alloc),
    };
    assert!(rt; variables.len() == 16);
    assert!(rt;
        variables
            .first()
            .is_some_and(|variable| variable.as_str() == "B=2")
    );
    assert!(rt;
        variables
            .last()
            .is_some_and(|variable| variable.as_str() == "A=1")
    );
    Ok(())
}

#[test]
fn refuses_a_seventeenth_variable(rt: HostRuntime) -> Result<(), Fail> {
    let words = many(rt.alloc(), 17, "B=2")?;
    let refused = request_of(Task::Execute, &words);
    assert!(rt; matches!(refused, Err(Mistake::ManyVariables("B=2"))));
    let words = many(rt.alloc(), 17, "B")?;
    let refused = request_of(Task::Execute, &words);
    assert!(rt; matches!(refused, Err(Mistake::Wrong(Setting::Variable, "B"))));
    Ok(())
}

#[test]
fn takes_random_bytes_of_the_host_alone(rt: HostRuntime) -> Result<(), Fail> {
    let alloc = rt.alloc();
    let words = words_of(alloc, &["--random", "host", "--raw", "program"])?;
    assert!(rt; request_of(Task::Execute, &words).is_ok_and(|request| request.has_host_random));
    let words = words_of(alloc, &["program", "--random", "host"])?;
    assert!(rt; request_of(Task::Execute, &words).is_ok_and(|request| !request.has_host_random));
    let words = words_of(alloc, &["--random", "other", "program"])?;
    let refused = request_of(Task::Execute, &words);
    assert!(rt; matches!(refused, Err(Mistake::Wrong(Setting::Random, "other"))));
    let words = words_of(alloc, &["--random=host", "program"])?;
    let refused = request_of(Task::Trace, &words);
    assert!(rt; matches!(refused, Err(Mistake::Unknown("--random=host"))));
    Ok(())
}
