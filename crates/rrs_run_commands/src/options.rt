//! The options of the subcommands of `rrs`.

ghost use Rattle.std.specs.Prelude.{◌≡◌, true, MatchOption};
ghost use Rattle.rrs_run_commands.specs.Options.{has_setting, has_switch, is_on_board, is_watched, most_memory, setting_word, switch_word, usual_limit, usual_memory};

/// What a subcommand does.
#[derive(Clone, Copy, PartialEq)]
pub enum Task {
    /// It runs a file, and prints what it does.
    Run,
    /// It runs a program that makes system calls.
    Execute,
    /// It runs such a program, and writes the log of the run.
    Trace,
    /// It runs such a program, and writes what the run covered.
    Cover,
    /// It assembles a source.
    Assemble,
    /// It lists what an executable has.
    List,
    /// It disassembles an executable.
    Disassemble,
    /// It runs firmware on a board.
    Board,
    /// It runs a program under gdb.
    Debug,
    /// It runs firmware on a board under gdb.
    DebugBoard,
    /// It runs firmware on a board, and writes the log of the run.
    TraceBoard,
    /// It runs firmware on a board, and writes what the run covered.
    CoverBoard,
    /// It says what the others do.
    Help,
}

/// An option without a value.
#[derive(Clone, Copy)]
pub enum Switch {
    /// `--quiet`.
    Quiet,
    /// `--raw`.
    Raw,
    /// `--strict-alignment`.
    Strict,
    /// `--annotate`.
    Annotate,
    /// `--gnu`.
    Gnu,
    /// `--list`.
    Listed,
    /// `--rars`.
    Rars,
    /// `--incbin-anywhere`.
    Anywhere,
}

/// An option with a value.
#[derive(Clone, Copy)]
pub enum Setting {
    /// `--limit`, with a number of steps.
    Limit,
    /// `--memory`, with a number of bytes.
    Memory,
    /// `--from`, with an address or a symbol.
    From,
    /// `--to`, with an address or a symbol.
    To,
    /// `--only`, with a function.
    Only,
    /// `--steps`, with numbers of steps: `N-M`.
    Steps,
    /// `--output`, with a path.
    Output,
    /// `--callgrind`, with a path.
    Callgrind,
    /// `--input`, with a path; on a board that is not debugged `polled` or `wait`.
    Input,
    /// `--clock`, with `fixed`.
    Clock,
    /// `--random`, with `host`.
    Random,
    /// `--march`, with the name of an architecture.
    March,
    /// `--env`, with a variable: `NAME=VALUE`.
    Variable,
    /// `--files`, with a path.
    Files,
    /// `--files-read-only`, with a path.
    ReadFiles,
    /// `--dtb`, with a path.
    Tree,
    /// `--append`, with a text.
    Append,
    /// `--symbols`, with a path.
    Symbols,
    /// `-Ttext`, with an address.
    Text,
    /// `-Tdata`, with an address.
    Data,
    /// `-o`, with a path.
    Executable,
}

/// The words of all options.
pub static WORDS: [&str; 29] = [
    "--quiet",
    "--raw",
    "--strict-alignment",
    "--annotate",
    "--gnu",
    "--list",
    "--rars",
    "--incbin-anywhere",
    "--limit",
    "--memory",
    "--from",
    "--to",
    "--only",
    "--steps",
    "--output",
    "--callgrind",
    "--input",
    "--clock",
    "--random",
    "--march",
    "--env",
    "--files",
    "--files-read-only",
    "--dtb",
    "--append",
    "--symbols",
    "-Ttext",
    "-Tdata",
    "-o",
];

/// The option without a value that a word is, if it is one.
fn switch_named(name: &str) -> Option<Switch>
    ensures { MatchOption result ((switch : Switch) → name.now ≡ switch_word switch → ⊥)
        (λ switch. name.now ≡ switch_word switch) }
{
    match name {
        "--quiet" => Some(Switch::Quiet),
        "--raw" => Some(Switch::Raw),
        "--strict-alignment" => Some(Switch::Strict),
        "--annotate" => Some(Switch::Annotate),
        "--gnu" => Some(Switch::Gnu),
        "--list" => Some(Switch::Listed),
        "--rars" => Some(Switch::Rars),
        "--incbin-anywhere" => Some(Switch::Anywhere),
        _ => None,
    }
}

/// The option with a value that a word is, if it is one.
fn setting_named(name: &str) -> Option<Setting>
    ensures { MatchOption result ((setting : Setting) → name.now ≡ setting_word setting → ⊥)
        (λ setting. name.now ≡ setting_word setting) }
{
    match name {
        "--limit" => Some(Setting::Limit),
        "--memory" => Some(Setting::Memory),
        "--from" => Some(Setting::From),
        "--to" => Some(Setting::To),
        "--only" => Some(Setting::Only),
        "--steps" => Some(Setting::Steps),
        "--output" => Some(Setting::Output),
        "--callgrind" => Some(Setting::Callgrind),
        "--input" => Some(Setting::Input),
        "--clock" => Some(Setting::Clock),
        "--random" => Some(Setting::Random),
        "--march" => Some(Setting::March),
        "--env" => Some(Setting::Variable),
        "--files" => Some(Setting::Files),
        "--files-read-only" => Some(Setting::ReadFiles),
        "--dtb" => Some(Setting::Tree),
        "--append" => Some(Setting::Append),
        "--symbols" => Some(Setting::Symbols),
        "-Ttext" => Some(Setting::Text),
        "-Tdata" => Some(Setting::Data),
        "-o" => Some(Setting::Executable),
        _ => None,
    }
}

/// Whether a subcommand has an option without a value.
fn has_switch(task: Task, switch: Switch) -> bool
    ensures { result ≡ has_switch task switch }
{
    match switch {
        Switch::Quiet => matches!(task, Task::Run),
        Switch::Raw => matches!(
            task,
            Task::Execute
                | Task::Debug
                | Task::Board
                | Task::DebugBoard
                | Task::TraceBoard
                | Task::CoverBoard
        ),
        Switch::Strict => matches!(task, Task::Execute),
        Switch::Annotate => matches!(task, Task::Cover | Task::CoverBoard),
        Switch::Gnu | Switch::Listed | Switch::Rars | Switch::Anywhere => {
            matches!(task, Task::Assemble)
        }
    }
}

/// Whether a subcommand runs firmware on a board.
pub fn is_on_board(task: Task) -> bool
    ensures { result ≡ is_on_board task }
{
    matches!(
        task,
        Task::Board | Task::DebugBoard | Task::TraceBoard | Task::CoverBoard
    )
}

/// Whether a subcommand reports on each step of a run.
fn is_watched(task: Task) -> bool
    ensures { result ≡ is_watched task }
{
    matches!(
        task,
        Task::Trace | Task::Cover | Task::TraceBoard | Task::CoverBoard
    )
}

/// Whether a subcommand has an option with a value.
fn has_setting(task: Task, setting: Setting) -> bool
    ensures { result ≡ has_setting task setting }
{
    match setting {
        Setting::Limit => matches!(task, Task::Execute) || is_on_board(task) || is_watched(task),
        Setting::Memory => {
            matches!(task, Task::Execute | Task::Debug) || is_on_board(task) || is_watched(task)
        }
        Setting::Clock => matches!(task, Task::Execute | Task::Trace | Task::Cover),
        Setting::March => {
            matches!(
                task,
                Task::Execute | Task::Trace | Task::Cover | Task::Debug
            ) || is_on_board(task)
        }
        Setting::Random => matches!(task, Task::Execute),
        Setting::Variable => matches!(
            task,
            Task::Execute | Task::Trace | Task::Cover | Task::Debug
        ),
        Setting::From | Setting::To | Setting::Only | Setting::Steps => {
            matches!(task, Task::Trace | Task::TraceBoard)
        }
        Setting::Output => is_watched(task),
        Setting::Callgrind => matches!(task, Task::Cover | Task::CoverBoard),
        Setting::Input => matches!(task, Task::Debug) || is_on_board(task),
        Setting::Files | Setting::ReadFiles => matches!(task, Task::Execute),
        Setting::Tree | Setting::Append => is_on_board(task),
        Setting::Symbols => matches!(task, Task::TraceBoard | Task::CoverBoard),
        Setting::Text | Setting::Data | Setting::Executable => matches!(task, Task::Assemble),
    }
}

/// The option without a value of a subcommand that a word is, if it is one.
pub fn switch_of(task: Task, name: &str) -> Option<Switch>
    ensures { MatchOption result
        ((switch : Switch) → has_switch task switch ≡ true → name.now ≡ switch_word switch → ⊥)
        (λ switch. (has_switch task switch ≡ true) × (name.now ≡ switch_word switch)) }
{
    match switch_named(name) {
        Some(switch) if has_switch(task, switch) => Some(switch),
        _ => None,
    }
}

/// The option with a value of a subcommand that a word is, if it is one.
pub fn setting_of(task: Task, name: &str) -> Option<Setting>
    ensures { MatchOption result
        ((setting : Setting) → has_setting task setting ≡ true
        → name.now ≡ setting_word setting → ⊥)
        (λ setting. (has_setting task setting ≡ true) × (name.now ≡ setting_word setting)) }
{
    match setting_named(name) {
        Some(setting) if has_setting(task, setting) => Some(setting),
        _ => None,
    }
}

/// How many bytes of memory there are where no word says it: 128 MiB of a board, and 256 MiB of a
/// process, or more where its program needs more, up to [MOST_UNASKED].
pub fn usual_memory(task: Task) -> u64
    ensures { result ≡ usual_memory task }
{
    if is_on_board(task) { 1 << 27 } else { 1 << 28 }
}

/// The most bytes of memory that a process has without a word for it: 1 GiB.
pub const MOST_UNASKED: u64 = 1 << 30;

/// The most bytes of memory: 2 GiB of a board, and 4 GiB of a process.
pub fn most_memory(task: Task) -> u64
    ensures { result ≡ most_memory task }
{
    if is_on_board(task) { 1 << 31 } else { 1 << 32 }
}

/// The most steps that are made where no word says it: 10^9 at a `continue` on a board, and any
/// number.
pub fn usual_limit(task: Task) -> u64
    ensures { result ≡ usual_limit task }
{
    match task {
        Task::DebugBoard => 1_000_000_000,
        _ => u64::MAX,
    }
}
