//! How words are taken, one after the other.

ghost use Rattle.std.specs.Prelude.{◌≡◌, ◌≢◌, true, false, None, map, option_map, string_bytes, IfOk, IfErr};
ghost use Rattle.file_runs.specs.Words.{question_of, question_in, flag_of, valued_of, given_of, is_option, names_input_again, with_value, with_file, with_given, with_flag, with_option, with_word, at_end, nothing_asked, asked, Answers};

use crate::request::{Flag, Misuse, Question, Request, Valued};
use prepare::is_in;
use selecting::Selection;
use std::alloc::{AllocError, Global};
use std::mem;
use texts::{List, Text};

/// How far words are taken.
#[derive(Drop)]
pub struct State {
    /// What they ask for so far.
    pub request: Request,
    /// The option whose value is the next word.
    pub pending: Option<Valued>,
    /// Whether `--` has ended the options.
    pub ended: bool,
}

/// Why words are taken no further.
#[derive(Drop)]
pub enum Stop {
    Memory,
    Misused(Misuse),
}

impl From<AllocError> for Stop {
    ghost use Rattle.std.specs.Prelude.{◌≡◌};
    ghost use Rattle.file_runs.specs.declared.arguments.Stop.TheVariants.{Memory};

    ghost from_gives = { λ _ stop. stop ≡ Memory };

    fn from(_error: AllocError) -> Stop {
        Stop::Memory
    }
}

/// What the word asks, whatever else the words say.
fn question_of(word: &str) -> Option<Question>
    ensures { result ≡ question_of word.now }
{
    match word {
        "-h" | "--help" => Some(Question::Help),
        "--version" => Some(Question::Version),
        _ => None,
    }
}

/// The option of the name that has no value.
fn flag_of(word: &str) -> Option<Flag>
    ensures { result ≡ flag_of word.now }
{
    match word {
        "--serde" => Some(Flag::Serde),
        "--strict" => Some(Flag::Strict),
        "--any-of" => Some(Flag::AnyOf),
        "--pretty" => Some(Flag::Pretty),
        "--skip-refused" => Some(Flag::SkipRefused),
        "--not-plain" => Some(Flag::NotPlain),
        _ => None,
    }
}

/// The option of the name that has a value.
fn valued_of(word: &str) -> Option<Valued>
    ensures { result ≡ valued_of word.now }
{
    match word {
        "--config" => Some(Valued::Config),
        "--only" => Some(Valued::Only),
        "--exclude" => Some(Valued::Exclude),
        "--stand-in" => Some(Valued::StandIn),
        "--openapi" => Some(Valued::OpenApi),
        "--check" => Some(Valued::Check),
        _ => None,
    }
}

/// The first question before a `--` that ends the options. The value of an option may be a question, but ends no options.
pub fn question_in(words: &[String]) -> Option<Question>
    ensures { result ≡ question_in (map string_bytes words.now) }
{
    let mut rest = words;
    let mut is_value = false;
    'words: while let [first, after @ ..] = rest {
        let word = first.as_str();
        if !is_value && word == "--" {
            return None;
        }
        if let Some(question) = question_of(word) {
            return Some(question);
        }
        is_value = !is_value && valued_of(word).is_some();
        rest = after;
    }
    None
}

/// The option that has its value behind `=`.
fn given_of(word: &str) -> Option<(Valued, &str)>
    ensures { option_map (λ given. (given.0, given.1.now)) result ≡ given_of word.now }
{
    if let Some(path) = word.strip_prefix("--config=") {
        return Some((Valued::Config, path));
    }
    if let Some(name) = word.strip_prefix("--only=") {
        return Some((Valued::Only, name));
    }
    if let Some(name) = word.strip_prefix("--exclude=") {
        return Some((Valued::Exclude, name));
    }
    if let Some(path) = word.strip_prefix("--stand-in=") {
        return Some((Valued::StandIn, path));
    }
    if let Some(path) = word.strip_prefix("--openapi=") {
        return Some((Valued::OpenApi, path));
    }
    match word.strip_prefix("--check=") {
        Some(path) => Some((Valued::Check, path)),
        None => None,
    }
}

fn is_option(word: &str) -> bool
    ensures { result ≡ is_option word.now }
{
    word.starts_with("-") && word != "-"
}

/// Refuses an option that may be given once, and was given before.
fn once(valued: Valued, before: &Option<Text>) -> Result<(), Stop>
    ensures once { IfOk result (λ _. before.now ≡ None) }
    ensures twice { IfErr result (λ stop. (stop ≡ Stop.Misused (Misuse.GivenTwice valued))
        × (before.now ≢ None)) }
{
    match before {
        Some(_) => Err(Stop::Misused(Misuse::GivenTwice(valued))),
        None => Ok(()),
    }
}

/// Refuses the input where it is named before.
fn input_once(request: &Request, path: &str) -> Result<(), Stop>
    ensures once { IfOk result (λ _. names_input_again path.now request.now ≡ false) }
    ensures twice { IfErr result (λ stop. (stop ≡ Stop.Misused Misuse.InputTwice)
        × (names_input_again path.now request.now ≡ true)) }
{
    let (files, stand_ins) = (request.files.as_slice(), request.stand_ins.as_slice());
    if path == "-" && (is_in(path, files) || is_in(path, stand_ins)) {
        return Err(Stop::Misused(Misuse::InputTwice));
    }
    Ok(())
}

/// What is asked for with the value of the option, too.
fn with_value(alloc: Global, request: Request, valued: Valued, value: &str) -> Result<Request, Stop>
    ensures { Answers (with_value valued value.now request) result }
{
    let mut request = request;
    let value = Text::new(alloc, value)?;
    match valued {
        Valued::Config => {
            once(valued, &request.config)?;
            request.config = Some(value);
        }
        Valued::Only => request.selection.only.push(value)?,
        Valued::Exclude => request.selection.exclude.push(value)?,
        Valued::StandIn => {
            input_once(&request, value.as_str())?;
            request.stand_ins.push(value)?;
        }
        Valued::OpenApi => {
            once(valued, &request.openapi)?;
            request.openapi = Some(value);
        }
        Valued::Check => {
            once(valued, &request.check)?;
            request.check = Some(value);
        }
    }
    Ok(request)
}

/// What is asked for with the file at the path, too.
fn with_file(alloc: Global, request: Request, path: &str) -> Result<Request, Stop>
    ensures { Answers (with_file path.now request) result }
{
    let mut request = request;
    input_once(&request, path)?;
    request.files.push(Text::new(alloc, path)?)?;
    Ok(request)
}

/// One word further, which is an option with its value, a file, or no option that there is.
fn with_given(alloc: Global, state: State, word: &str) -> Result<State, Stop>
    ensures { Answers (with_given (given_of word.now) word.now state) result }
{
    let State { request, ended, .. } = state;
    let request = match given_of(word) {
        Some((valued, value)) => with_value(alloc, request, valued, value)?,
        None => {
            if is_option(word) {
                return Err(Stop::Misused(Misuse::UnknownOption(Text::new(alloc, word)?)));
            }
            with_file(alloc, request, word)?
        }
    };
    Ok(State {
        request,
        pending: None,
        ended,
    })
}

/// Asks for what the option says.
fn set_flag(request: &mut Request, flag: Flag)
    ensures { request.new ≡ with_flag flag request.old }
{
    match flag {
        Flag::Serde => request.selection.serde = true,
        Flag::Strict => request.strict = true,
        Flag::AnyOf => request.any_of = true,
        Flag::Pretty => request.pretty = true,
        Flag::SkipRefused => request.selection.skip_refused = true,
        Flag::NotPlain => request.selection.not_plain = true,
    }
}

/// One word further, where options may stand.
fn with_option(alloc: Global, state: State, word: &str) -> Result<State, Stop>
    ensures { Answers (with_option word.now state) result }
{
    let mut state = state;
    if word == "--" {
        state.ended = true;
        return Ok(state);
    }
    if let Some(flag) = flag_of(word) {
        set_flag(&mut state.request, flag);
        return Ok(state);
    }
    match valued_of(word) {
        Some(valued) => {
            state.pending = Some(valued);
            Ok(state)
        }
        None => with_given(alloc, state, word),
    }
}

/// One word further.
fn with_word(alloc: Global, state: State, word: &str) -> Result<State, Stop>
    ensures { Answers (with_word state.pending word.now state) result }
{
    let pending = state.pending;
    let ended = state.ended;
    if pending.is_none() && !ended {
        return with_option(alloc, state, word);
    }
    let State { request, .. } = state;
    let request = match pending {
        Some(valued) => with_value(alloc, request, valued, word)?,
        None => with_file(alloc, request, word)?,
    };
    Ok(State {
        request,
        pending: None,
        ended,
    })
}

/// What is asked for where no word is left.
fn at_end(alloc: Global, state: State) -> Result<Request, Stop>
    ensures { Answers (at_end state.pending state.request) result }
{
    let State {
        mut request,
        pending,
        ..
    } = state;
    if let Some(valued) = pending {
        return Err(Stop::Misused(Misuse::NoValue(valued)));
    }
    if request.files.is_empty() {
        return Err(Stop::Misused(Misuse::NoFile));
    }
    request.selection.own = request.files.len();
    let stand_ins = mem::replace(&mut request.stand_ins, List::new(alloc));
    request.files.append(stand_ins)?;
    Ok(request)
}

/// Where nothing is asked for yet.
fn nothing_asked(alloc: Global) -> State
    ensures { result ≡ nothing_asked }
{
    State {
        request: Request {
            selection: Selection {
                serde: false,
                only: List::new(alloc),
                exclude: List::new(alloc),
                skip_refused: false,
                not_plain: false,
                own: 0,
            },
            strict: false,
            any_of: false,
            pretty: false,
            config: None,
            openapi: None,
            check: None,
            files: List::new(alloc),
            stand_ins: List::new(alloc),
        },
        pending: None,
        ended: false,
    }
}

/// What the words ask for: the document of files. Options stand before, between and behind files, `--` ends them, and a
/// value is the next word, whatever that is, or stands behind `=`.
pub fn request_of(alloc: Global, words: &[String]) -> Result<Request, Stop>
    ensures { Answers (asked (map string_bytes words.now)) result }
{
    let mut state = nothing_asked(alloc);
    let mut rest = words;
    'words: while let [first, after @ ..] = rest {
        state = with_word(alloc, state, first.as_str())?;
        rest = after;
    }
    at_end(alloc, state)
}
