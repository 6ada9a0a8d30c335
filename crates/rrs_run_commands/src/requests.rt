//! What the words after a subcommand ask for.

ghost use Rattle.std.specs.Prelude.{◌≡◌, ◌≤◌, [], ◌<◌, ◌∷◌, ◌++◌, MatchOption, IfSome, Ok, Err, IsTrue, ◌↔◌, IfOk, IfErr, length, map, string_bytes};
ghost use Rattle.rrs_run_commands.specs.Options.{most_memory, most_variables};
ghost use Rattle.rrs_run_commands.specs.Words.{HasValue, IsSize, IsVariable};
ghost use Rattle.rrs_run_commands.specs.Requests.{AsksFor, Gives, IsProgram, IsWhole, Refuses, RefusesMemory, RefusesOption, RefusesValue, RefusesVariable, RefusesWord, Sets, Takes, TakesOption, TakesWord, fault_of, has_arguments, reading_of, switched, unasked, unread, variables_in, wanted_of};

use crate::architectures::march_of;
use crate::options::{Setting, Switch, Task, most_memory, setting_of, switch_of, usual_limit};
use crate::refusal::Mistake;
use crate::variables::Variables;
use crate::words::{
    address_of, is_dashed, is_variable, name_and_value, number_of, size_of, steps_of,
};
use rrs_cli::limits::limit_of;
use rrs_hart::HartProfile;
use rrs_reports::StepRange;

/// What is printed of a source that is assembled.
#[derive(Clone, Copy, PartialEq)]
pub enum Form {
    /// Its bytes, where no executable is written.
    Bytes,
    /// A source of its bytes for GNU `as`: `--gnu`.
    Source,
    /// Its source with addresses and words: `--list`.
    Listing,
}

/// Where RARS has the first section, and the first one with data that can be written.
const RARS_TEXT: u32 = 0x40_0000;

const RARS_DATA: u32 = 0x1001_0000;

/// What a subcommand is asked for: its options, a file, and what else its words say.
#[derive(Clone, Copy)]
pub struct Request<'a> {
    /// Whether only the end of a run and the registers are wanted: `--quiet`.
    pub is_quiet: bool,
    /// Whether the file's bytes are the program, or the image for a board, and not an ELF file:
    /// `--raw`.
    pub is_raw: bool,
    /// Whether a load or a store at a misaligned address is a fault: `--strict-alignment`.
    pub is_strict: bool,
    /// Whether the report is the disassembly with counts: `--annotate`.
    pub is_annotated: bool,
    /// Whether a source may name files by any path: `--incbin-anywhere`.
    pub has_any_file: bool,
    /// Whether the input of a board is polled: `--input polled`.
    pub is_polled: bool,
    /// Whether each look of a board at its input waits for it: `--input wait`.
    pub waits: bool,
    /// Whether the clocks of a program stand at 0: `--clock fixed`.
    pub has_fixed_clock: bool,
    /// Whether the random bytes of a program are those of the host: `--random host`.
    pub has_host_random: bool,
    /// The hart of the architecture that a word names, if one does: `--march`.
    pub march: Option<HartProfile>,
    /// What is printed of a source.
    pub form: Form,
    /// The most steps that are made: `--limit`.
    pub limit: u64,
    /// How many bytes of memory there are, if a word says it: `--memory`.
    pub memory: Option<u64>,
    /// Where the first section lies, if a word says it.
    pub text_start: Option<u32>,
    /// Where the first section with data that can be written lies, if a word says it.
    pub data_start: Option<u32>,
    /// The word for the address from which on lines are written: `--from`.
    pub from: Option<&'a str>,
    /// The word for the address up to which lines are written: `--to`.
    pub to: Option<&'a str>,
    /// The function whose steps alone have lines: `--only`.
    pub only: Option<&'a str>,
    /// The steps that alone have lines: `--steps`.
    pub logged: Option<StepRange>,
    /// The path of the file that is written: `--output`, and `-o` of an executable.
    pub output: Option<&'a str>,
    /// The path of the file that a profile is written to: `--callgrind`.
    pub callgrind: Option<&'a str>,
    /// The path of the file that is the input of what is debugged: `--input`.
    pub input: Option<&'a str>,
    /// The path of the folder whose files a program has: `--files`, and `--files-read-only`.
    pub folder: Option<&'a str>,
    /// Whether the program may only read them: `--files-read-only`.
    pub is_read_only: bool,
    /// The variables of a program's environment: `--env`.
    pub variables: Variables<'a>,
    /// The path of the device tree that a board hands over: `--dtb`.
    pub tree: Option<&'a str>,
    /// The arguments for the kernel in the board's own device tree: `--append`.
    pub append: Option<&'a str>,
    /// The path of the executable whose symbols name the functions of firmware: `--symbols`.
    pub symbols: Option<&'a str>,
    /// The path of the file, or of the program.
    pub file: Option<&'a str>,
    /// The most steps that `rrs run` makes.
    pub steps: Option<u64>,
    /// The path of a program that has arguments, and then these.
    pub words: &'a [String],
}

impl<'a> Request<'a> {
    /// The path of the file.
    pub fn path(&self) -> &'a str {
        self.file.unwrap_or("")
    }
}

/// What a subcommand is asked for where no word says it.
fn unasked<'a>(task: Task) -> Request<'a>
    ensures { wanted_of result ≡ unasked task }
{
    Request {
        is_quiet: false,
        is_raw: false,
        is_strict: false,
        is_annotated: false,
        has_any_file: false,
        is_polled: false,
        waits: false,
        has_fixed_clock: false,
        has_host_random: false,
        march: None,
        form: Form::Bytes,
        limit: usual_limit(task),
        memory: None,
        text_start: None,
        data_start: None,
        from: None,
        to: None,
        only: None,
        logged: None,
        output: None,
        callgrind: None,
        input: None,
        folder: None,
        is_read_only: false,
        variables: Variables::none(),
        tree: None,
        append: None,
        symbols: None,
        file: None,
        steps: None,
        words: &[],
    }
}

/// What the words so far ask for, and whether one of them has ended the options.
#[derive(Clone, Copy)]
struct Reading<'a> {
    request: Request<'a>,
    has_ended: bool,
}

/// What the words after a subcommand ask it for: options, in any order, before its file and after
/// it. A program that has arguments ends them, and so does `--`.
///
/// # Errors
///
/// Why the words ask for nothing that the subcommand does.
pub fn request_of(task: Task, words: &[String]) -> Result<Request<'_>, Mistake<'_>>
    ensures request { IfOk result (λ request.
        AsksFor task (unread task) (map string_bytes words.now) (Ok (wanted_of request))) }
    ensures refused { IfErr result (λ mistake.
        AsksFor task (unread task) (map string_bytes words.now) (Err (fault_of mistake))) }
{
    let mut reading = Reading {
        request: unasked(task),
        has_ended: false,
    };
    let mut rest = words;
    while let Some((word, others)) = rest.split_first() {
        let word = word.as_str();
        if is_program(task, reading, word) {
            return Ok(Request {
                file: Some(word),
                words: rest,
                ..reading.request
            });
        }
        let (read, left) = take_next(task, reading, word, others)?;
        reading = read;
        rest = left;
    }
    if is_whole(task, reading.request) {
        Ok(reading.request)
    } else {
        Err(Mistake::Missing)
    }
}

/// Whether a word is the program, so that the words after it are its arguments.
fn is_program(task: Task, reading: Reading<'_>, word: &str) -> bool
    ensures { IsTrue result
        ↔ IsProgram task (reading_of reading.entry.has_ended reading.entry.request) word.now }
{
    has_arguments(task, reading.request) && (reading.has_ended || !is_dashed(word))
}

/// What a word and the words after it make of what is read, and the words that are left.
///
/// # Errors
///
/// Why the word, or those after it, are refused.
fn take_next<'a>(
    task: Task,
    reading: Reading<'a>,
    word: &'a str,
    words: &'a [String],
) -> Result<(Reading<'a>, &'a [String]), Mistake<'a>>
    ensures taken { IfOk result (λ taken.
        Takes task word.now (reading_of reading.entry.has_ended reading.entry.request)
        (map string_bytes words.now) (reading_of taken.0.has_ended taken.0.request)
        (map string_bytes taken.1.now)) }
    ensures fewer { IfOk result (λ taken. length taken.1.now ≤ length words.now) }
    ensures refused { IfErr result (λ mistake.
        Refuses task word.now (reading_of reading.entry.has_ended reading.entry.request)
        (map string_bytes words.now) (fault_of mistake)) }
{
    let Reading { request, has_ended } = reading;
    if has_ended || !is_dashed(word) {
        let request = take_word(task, request, word)?;
        return Ok((Reading { request, has_ended }, words));
    }
    if word == "--" {
        let has_ended = true;
        return Ok((Reading { request, has_ended }, words));
    }
    match take_option(task, request, word, words) {
        Ok((request, left)) => Ok((Reading { request, has_ended }, left)),
        Err(mistake) => Err(mistake),
    }
}

/// What an option and the words after it make of a request, and the words that are left.
///
/// # Errors
///
/// Why the option is refused.
fn take_option<'a>(
    task: Task,
    request: Request<'a>,
    word: &'a str,
    words: &'a [String],
) -> Result<(Request<'a>, &'a [String]), Mistake<'a>>
    ensures taken { IfOk result (λ taken.
        TakesOption task word.now (wanted_of request.entry) (map string_bytes words.now)
        (wanted_of taken.0) (map string_bytes taken.1.now)) }
    ensures fewer { IfOk result (λ taken. length taken.1.now ≤ length words.now) }
    ensures refused { IfErr result (λ mistake.
        RefusesOption task word.now (wanted_of request.entry) (map string_bytes words.now)
        (fault_of mistake)) }
{
    let (name, value) = name_and_value(word);
    if let Some(switch) = switch_of(task, name) {
        return match value {
            Some(_) => Err(Mistake::TakesNone(word)),
            None => Ok((switched(request, switch), words)),
        };
    }
    let Some(setting) = setting_of(task, name) else {
        return Err(Mistake::Unknown(word));
    };
    let Some((value, left)) = value_of(word, words) else {
        return Err(Mistake::HasNone(word));
    };
    match set(task, request, setting, value) {
        Ok(new) => Ok((new, left)),
        Err(mistake) => Err(mistake),
    }
}

/// The value of an option, and the words that are left: it stands in the option's own word, or else
/// it is the next one, if there is one.
fn value_of<'a>(word: &'a str, words: &'a [String]) -> Option<(&'a str, &'a [String])>
    ensures given { MatchOption result
        ((HasValue word.now → ⊥) × (map string_bytes words.now ≡ []))
        (λ given. Gives word.now (map string_bytes words.now) given.0.now
        (map string_bytes given.1.now)) }
    ensures fewer { IfSome result (λ given. length given.1.now ≤ length words.now) }
{
    let (_, value) = name_and_value(word);
    match (value, words) {
        (Some(value), _) => Some((value, words)),
        (None, [value, left @ ..]) => Some((value.as_str(), left)),
        (None, []) => None,
    }
}

/// What an option without a value makes of a request.
fn switched(request: Request<'_>, switch: Switch) -> Request<'_>
    ensures { wanted_of result ≡ switched switch (wanted_of request.entry) }
{
    let mut request = request;
    match switch {
        Switch::Quiet => request.is_quiet = true,
        Switch::Raw => request.is_raw = true,
        Switch::Strict => request.is_strict = true,
        Switch::Annotate => request.is_annotated = true,
        Switch::Gnu => request.form = Form::Source,
        Switch::Listed => request.form = Form::Listing,
        Switch::Rars => {
            request.text_start = Some(RARS_TEXT);
            request.data_start = Some(RARS_DATA);
        }
        Switch::Anywhere => request.has_any_file = true,
    }
    request
}

/// What an option with this value makes of a request.
///
/// # Errors
///
/// Why the value is refused.
fn set<'a>(
    task: Task,
    request: Request<'a>,
    setting: Setting,
    value: &'a str,
) -> Result<Request<'a>, Mistake<'a>>
    ensures set { IfOk result (λ new.
        Sets task setting value.now (wanted_of request.entry) (wanted_of new)) }
    ensures refused { IfErr result (λ mistake.
        RefusesValue task setting value.now (wanted_of request.entry) (fault_of mistake)) }
{
    let mut request = request;
    match setting {
        Setting::Limit => match number_of(value) {
            Some(limit) => request.limit = limit,
            None => return Err(Mistake::Wrong(setting, value)),
        },
        Setting::Memory => request.memory = Some(memory_of(task, value)?),
        Setting::From => request.from = Some(value),
        Setting::To => request.to = Some(value),
        Setting::Only => request.only = Some(value),
        Setting::Steps => match steps_of(value) {
            Some(range) => request.logged = Some(range),
            None => return Err(Mistake::Wrong(setting, value)),
        },
        Setting::Output | Setting::Executable => request.output = Some(value),
        Setting::Callgrind => request.callgrind = Some(value),
        Setting::Input => match task {
            Task::Debug | Task::DebugBoard => request.input = Some(value),
            _ if value == "polled" => {
                request.is_polled = true;
                request.waits = false;
            }
            _ if value == "wait" => {
                request.is_polled = false;
                request.waits = true;
            }
            _ => return Err(Mistake::Wrong(setting, value)),
        },
        Setting::Clock if value == "fixed" => request.has_fixed_clock = true,
        Setting::Clock => return Err(Mistake::Wrong(setting, value)),
        Setting::Random if value == "host" => request.has_host_random = true,
        Setting::Random => return Err(Mistake::Wrong(setting, value)),
        Setting::March => match march_of(value) {
            Some(profile) => request.march = Some(profile),
            None => return Err(Mistake::Wrong(setting, value)),
        },
        Setting::Variable => request.variables = with_variable(request.variables, value)?,
        Setting::Files => {
            request.folder = Some(value);
            request.is_read_only = false;
        }
        Setting::ReadFiles => {
            request.folder = Some(value);
            request.is_read_only = true;
        }
        Setting::Tree => request.tree = Some(value),
        Setting::Append => request.append = Some(value),
        Setting::Symbols => request.symbols = Some(value),
        Setting::Text => match address_of(value) {
            Some(address) => request.text_start = Some(address),
            None => return Err(Mistake::Wrong(setting, value)),
        },
        Setting::Data => match address_of(value) {
            Some(address) => request.data_start = Some(address),
            None => return Err(Mistake::Wrong(setting, value)),
        },
    }
    Ok(request)
}

/// The bytes of memory that a value asks for.
///
/// # Errors
///
/// `Mistake::Wrong` where it is no size, and `Mistake::Large` where it is more than there can be.
fn memory_of(task: Task, value: &str) -> Result<u64, Mistake<'_>>
    ensures size { IfOk result (λ bytes. IsSize value.now bytes × (bytes ≤ most_memory task)) }
    ensures refused { IfErr result (λ mistake.
        RefusesMemory task value.now (fault_of mistake)) }
{
    let most = most_memory(task);
    match size_of(value) {
        Some(bytes) if bytes <= most => Ok(bytes),
        Some(_) => Err(Mistake::Large(value, most)),
        None => Err(Mistake::Wrong(Setting::Memory, value)),
    }
}

/// Variables and one more.
///
/// # Errors
///
/// `Mistake::Wrong` where the value is no variable, and `Mistake::ManyVariables` where there are as
/// many as there can be.
fn with_variable<'a>(variables: Variables<'a>, value: &'a str) -> Result<Variables<'a>, Mistake<'a>>
    ensures more { IfOk result (λ more. IsVariable value.now
        × (length (variables_in variables.entry) < most_variables)
        × (variables_in more ≡ variables_in variables.entry ++ value.now ∷ [])) }
    ensures refused { IfErr result (λ mistake.
        RefusesVariable (variables_in variables.entry) value.now (fault_of mistake)) }
{
    if !is_variable(value) {
        return Err(Mistake::Wrong(Setting::Variable, value));
    }
    match variables.and(value) {
        Some(more) => Ok(more),
        None => Err(Mistake::ManyVariables(value)),
    }
}

/// Whether the words after the program are its own.
fn has_arguments(task: Task, request: Request<'_>) -> bool
    ensures { result ≡ has_arguments task (wanted_of request.entry) }
{
    match task {
        Task::Execute | Task::Debug => !request.is_raw,
        Task::Trace | Task::Cover => true,
        _ => false,
    }
}

/// What a word that is no option makes of a request.
///
/// # Errors
///
/// `Mistake::WrongSteps` where the second word of `rrs run` is no limit, and `Mistake::Surplus` for
/// a word after all that there are.
fn take_word<'a>(
    task: Task,
    request: Request<'a>,
    word: &'a str,
) -> Result<Request<'a>, Mistake<'a>>
    ensures taken { IfOk result (λ new.
        TakesWord task word.now (wanted_of request.entry) (wanted_of new)) }
    ensures refused { IfErr result (λ mistake.
        RefusesWord task word.now (wanted_of request.entry) (fault_of mistake)) }
{
    let mut request = request;
    if request.file.is_none() {
        request.file = Some(word);
        return Ok(request);
    }
    if task == Task::Run && request.steps.is_none() {
        let Some(steps) = limit_of(word) else {
            return Err(Mistake::WrongSteps(word));
        };
        request.steps = Some(steps);
        return Ok(request);
    }
    Err(Mistake::Surplus(word))
}

/// Whether a request has all that has to be there.
fn is_whole(task: Task, request: Request<'_>) -> bool
    ensures { IsTrue result ↔ IsWhole task (wanted_of request.entry) }
{
    request.file.is_some() && (task != Task::Run || request.steps.is_some())
}
