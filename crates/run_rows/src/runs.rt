//! Runs of the programs.

use crate::outcome::{Outcome, file_status_text, status_named, status_text};
use crate::parts::{bytes_at, bytes_of, counts_at};
use anyhow::bail;
use files::{Files, HonestFiles, MemoryFiles, StdFiles};
use rows::Row;
use rows::given::{count_at, count_of, items_at, pair_of, text_of};
use schema_gen::{MOST_DECLARATIONS, Text, Words, sample_source};
use serde_json::Value;
use std::alloc::{AllocError, Global};
use std::rt::Files as FileSystem;
use streams::{
    HonestSink, HonestSource, MemorySink, MemorySource, Sink, Source, StdSink, StdSource,
};

/// Room for all that a run of a row writes.
const ROOM: usize = 1_000_000;

/// The path of the file that a row gives.
const CONFIG: &str = "config";

/// What the call of the row answers.
pub(crate) fn told<R: AllocGlobal + FileSystem>(rt: &R, row: &Row) -> anyhow::Result<String> {
    let (alloc, given) = (rt.alloc(), &row.given);
    match row.call.as_str() {
        "derive" => derived(alloc, given),
        "refusal" => refusal(alloc, given),
        "run" => Ok(honest(alloc, given)?.text(alloc)?),
        "run with faults" => Ok(with_faults(alloc, given)?.text(alloc)?),
        "run over std" => Ok(over_std(rt, given)?.text(alloc)?),
        "sample" => Ok(String::from_str(alloc, sample_of(alloc, given)?.as_str())?),
        "derive sample" => derived_sample(alloc, given),
        "number" => {
            let number = status_named(text_of(given)?)?.number();
            Ok(number.to_string(alloc)?)
        }
        other => bail!("no call {other}"),
    }
}

/// Adds the word that is given.
fn push_word(alloc: Global, words: &mut Vec<String>, given: &Value) -> anyhow::Result<()> {
    let word = text_of(given)?;
    words.push(String::from_str(alloc, word)?)?;
    Ok(())
}

/// The words of the row.
fn words_of(alloc: Global, given: &Value) -> anyhow::Result<Words> {
    let given = items_at(given, "words")?;
    let mut words = Vec::new(alloc);
    for word in given {
        push_word(alloc, &mut words, word)?;
    }
    Ok(Words::new(words))
}

/// The file `config` with these bytes.
fn configuration_file(alloc: Global, bytes: Vec<u8>) -> Result<Vec<(String, Vec<u8>)>, AllocError> {
    let path = String::from_str(alloc, CONFIG)?;
    Ok(vec![in alloc; (path, bytes)]?)
}

/// The file that is given as a list of its path and what it holds.
fn file_of(alloc: Global, given: &Value) -> anyhow::Result<(String, Vec<u8>)> {
    let (path, held) = pair_of(given)?;
    let path = String::from_str(alloc, text_of(path)?)?;
    Ok((path, bytes_of(alloc, held)?))
}

/// The file `config`, where the row gives its bytes, else the files that it lists.
fn files_of(alloc: Global, given: &Value) -> anyhow::Result<Vec<(String, Vec<u8>)>> {
    if let Some(given) = given.get(CONFIG) {
        let bytes = bytes_of(alloc, given)?;
        return Ok(configuration_file(alloc, bytes)?);
    }
    let mut files = Vec::new(alloc);
    for file in items_at(given, "held")? {
        files.push(file_of(alloc, file)?)?;
    }
    Ok(files)
}

/// The status of a run of `schema_gen`, a refusal with its kind in brackets; or where the row has the member `program`, of one of
/// `schema_gen_file`.
fn run<S: Source, F: Files, O: Sink, E: Sink>(
    alloc: Global,
    given: &Value,
    words: &Words,
    input: &mut S,
    files: &mut F,
    out: &mut O,
    err: &mut E,
) -> anyhow::Result<String> {
    let Some(program) = given.get("program") else {
        let status = schema_gen::run(alloc, words, input, files, out, err);
        return Ok(status_text(alloc, status)?);
    };
    match text_of(program)? {
        "schema_gen_file" => {
            let status = file_runs::run(alloc, words, input, files, out, err);
            Ok(file_status_text(alloc, status)?)
        }
        other => bail!("no program {other}"),
    }
}

/// A run over this input and these files, whose outputs do not fail.
fn run_on<S: Source, F: Files>(
    alloc: Global,
    given: &Value,
    words: &Words,
    input: &mut S,
    files: &mut F,
) -> anyhow::Result<Outcome> {
    let mut out = HonestSink::new(alloc, ROOM)?;
    let mut err = HonestSink::new(alloc, ROOM)?;
    let status = run(alloc, given, words, input, files, &mut out, &mut err)?;
    Outcome::new(alloc, status, out.as_slice(), err.as_slice())
}

/// A run with the row's words, source and file.
fn honest(alloc: Global, given: &Value) -> anyhow::Result<Outcome> {
    let words = words_of(alloc, given)?;
    let source = bytes_at(alloc, given, "source")?;
    let mut files = HonestFiles::new(files_of(alloc, given)?);
    let mut input = HonestSource::new(source);
    run_on(alloc, given, &words, &mut input, &mut files)
}

/// The words to derive, with the file `config` where one is told.
fn derive_words(alloc: Global, is_configured: bool) -> anyhow::Result<Words> {
    let mut words = Vec::new(alloc);
    words.push(String::from_str(alloc, "derive")?)?;
    if is_configured {
        words.push(String::from_str(alloc, "--config")?)?;
        words.push(String::from_str(alloc, CONFIG)?)?;
    }
    Ok(Words::new(words))
}

/// The file `config` with this configuration, where there is one.
fn configured(
    alloc: Global,
    configuration: Option<&Value>,
) -> Result<Vec<(String, Vec<u8>)>, AllocError> {
    let Some(value) = configuration else {
        return Ok(Vec::new(alloc));
    };
    let bytes = value.to_string(alloc)?.into_bytes();
    configuration_file(alloc, bytes)
}

/// A run of `derive` on a source, with the configuration where the row has one beside its source.
fn derive(alloc: Global, given: &Value) -> anyhow::Result<Outcome> {
    let configuration = given.get("configuration");
    let words = derive_words(alloc, configuration.is_some())?;
    let source = bytes_of(alloc, given.get("source").unwrap_or(given))?;
    let mut files = HonestFiles::new(configured(alloc, configuration)?);
    let mut input = HonestSource::new(source);
    run_on(alloc, given, &words, &mut input, &mut files)
}

/// The sample of so many declarations.
fn sample_of(alloc: Global, given: &Value) -> anyhow::Result<Text> {
    let many = count_of(given)?;
    if many == 0 || many > MOST_DECLARATIONS {
        bail!("no sample has {many} declarations");
    }
    Ok(sample_source(alloc, many)?)
}

/// How a run of `derive` on the sample ends, and how many bytes it writes.
fn derived_sample(alloc: Global, given: &Value) -> anyhow::Result<String> {
    let source = sample_of(alloc, given)?;
    let words = derive_words(alloc, false)?;
    let mut files = HonestFiles::new(Vec::new(alloc));
    let mut input = HonestSource::new(source.as_str().as_bytes().to_vec(alloc)?);
    let outcome = run_on(alloc, given, &words, &mut input, &mut files)?;
    Ok(outcome.size(alloc)?)
}

/// The document of the source, or why it is refused.
fn derived(alloc: Global, given: &Value) -> anyhow::Result<String> {
    let outcome = derive(alloc, given)?;
    Ok(String::from_str(alloc, outcome.line())?)
}

/// Why the source is refused, or that it is not.
fn refusal(alloc: Global, given: &Value) -> anyhow::Result<String> {
    let outcome = derive(alloc, given)?;
    let line = if outcome.is_done() {
        "no refusal"
    } else {
        outcome.line()
    };
    Ok(String::from_str(alloc, line)?)
}

/// The row's input, which gives 16 bytes at a time, and of which chosen reads fail.
fn failing_source(alloc: Global, given: &Value) -> anyhow::Result<MemorySource> {
    let failing = counts_at(alloc, given, "reads")?;
    Ok(MemorySource::new(bytes_at(alloc, given, "source")?, 16, failing))
}

/// The row's file, of which chosen reads fail.
fn failing_files(alloc: Global, given: &Value) -> anyhow::Result<MemoryFiles> {
    let failing = counts_at(alloc, given, "files")?;
    Ok(MemoryFiles::new(files_of(alloc, given)?, failing))
}

/// A run over this input, with the row's words and file, whose chosen calls fail: reads of files, writes and flushes of the
/// output, which takes 100 bytes at a time and has room for so many, and those of the output for reports.
fn over_failing<S: Source>(alloc: Global, given: &Value, input: &mut S) -> anyhow::Result<Outcome> {
    let room = count_at(given, "room")?;
    let words = words_of(alloc, given)?;
    let mut files = failing_files(alloc, given)?;
    let mut out = MemorySink::new(alloc, room, 100, counts_at(alloc, given, "writes")?)?;
    let mut err = MemorySink::new(alloc, ROOM, 1000, counts_at(alloc, given, "reports")?)?;
    let status = run(alloc, given, &words, input, &mut files, &mut out, &mut err)?;
    Outcome::new(alloc, status, out.as_slice(), err.as_slice())
}

/// A run of which chosen calls fail.
fn with_faults(alloc: Global, given: &Value) -> anyhow::Result<Outcome> {
    let mut input = failing_source(alloc, given)?;
    over_failing(alloc, given, &mut input)
}

/// A run on these bytes over a reader and writers of std, with room for so many bytes, and the files of the system.
fn over_bytes<R: AllocGlobal + FileSystem>(
    rt: &R,
    given: &Value,
    source: &[u8],
) -> anyhow::Result<Outcome> {
    let alloc = rt.alloc();
    let words = words_of(alloc, given)?;
    let mut out = dots(alloc, given, "room")?;
    let mut err = dots(alloc, given, "report room")?;
    let mut room = out.as_mut_slice();
    let mut report_room = err.as_mut_slice();
    let status = run(
        alloc,
        given,
        &words,
        &mut StdSource::new(source),
        &mut StdFiles::new(rt),
        &mut StdSink::new(&mut room),
        &mut StdSink::new(&mut report_room),
    )?;
    Outcome::new(alloc, status, &out, &err)
}

/// A run on the row's source, as `over_bytes`.
fn over_std<R: AllocGlobal + FileSystem>(rt: &R, given: &Value) -> anyhow::Result<Outcome> {
    let source = bytes_at(rt.alloc(), given, "source")?;
    over_bytes(rt, given, source.as_slice())
}

/// So many dots as the member says, or none where there is no member.
fn dots(alloc: Global, given: &Value, name: &'static str) -> anyhow::Result<Vec<u8>> {
    match given.get(name) {
        Some(_) => Ok(vec![in alloc; b'.'; count_at(given, name)?]?),
        None => Ok(Vec::new(alloc)),
    }
}
