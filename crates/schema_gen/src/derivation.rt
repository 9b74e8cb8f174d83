//! What words ask for, and how that is done.

ghost use Rattle.std.specs.Prelude.{◌≡◌, ◌≤◌, length, codes, IfErr, IfOk, MatchOption};
ghost use Rattle.diag.specs.Refusal.{Refuses};
ghost use Rattle.reporting.specs.Bytes.{most_bytes};
ghost use Rattle.schema_gen.specs.Derived.{IsDocumentOf};
ghost use Rattle.schema_gen.specs.Refusals.{IsRefusedSource};
ghost use Rattle.schema_gen.specs.Sampled.{IsSampleLine};
ghost use Rattle.schema_gen.specs.Words.{AskFor, HaveForm, asked_of};

use crate::command::{config_path, is_derive, sample_size};
use crate::law::sound_is_not_refused;
use crate::size::SampleSize;
use compose::composition_of_source;
use configuration::Config;
use configuration_json::{FromJson, bad_config};
use diag::DeriveError;
use reporting::{Command, Rest, Words, source_text};
use samples::{sample_source, samples_are_sound};
use schema_core::{Alternatives, texts_are_one};
use std::alloc::Global;
use texts::Text;

/// What words ask for: the document of a source, or a sample.
#[derive(Clone, Copy, Drop)]
pub(crate) enum Derivation<'w> {
    /// By the configuration that nothing is said of.
    Plain,
    /// By the configuration of the file at the path.
    Configured(&'w str),
    /// The counts of a sample of this size.
    Sample(SampleSize),
}

/// The text of the document of a source, and how many components it has.
fn counted_document(
    alloc: Global,
    config: &Config,
    bytes: &[u8],
) -> Result<(Text, usize), DeriveError>
    requires { length bytes.now ≤ most_bytes }
    ensures made { IfOk result (λ p. (document : IsDocumentOf config.now bytes.now p.0)
        × (p.1 ≡ length document.components)) }
    ensures refused { Refuses result (IsRefusedSource config.now bytes.now) }
{
    texts_are_one();
    let source = source_text(alloc, bytes)?;
    let composition = composition_of_source(alloc, source, config)?;
    let text = composition.to_text(alloc, Alternatives::OneOf)?;
    Ok((text, composition.len()))
}

/// The text of the document of a source.
fn document_text(alloc: Global, config: &Config, bytes: &[u8]) -> Result<Text, DeriveError>
    requires { length bytes.now ≤ most_bytes }
    ensures made { IfOk result (λ text. IsDocumentOf config.now bytes.now text) }
    ensures refused { Refuses result (IsRefusedSource config.now bytes.now) }
{
    let (text, _) = counted_document(alloc, config, bytes)?;
    Ok(text)
}

/// The line of a sample: how many declarations it has, and how many components and bytes its document. It can only want memory.
fn sample_line(alloc: Global, size: SampleSize) -> Result<Text, DeriveError>
    ensures made { IfOk result (λ line. IsSampleLine size.many line) }
    ensures memory { IfErr result (λ e. e ≡ DeriveError.Memory) }
{
    samples_are_sound();
    sound_is_not_refused();
    let many = size.many;
    let source = sample_source(alloc, many)?;
    let config = Config::new(alloc);
    let (document, components) = counted_document(alloc, &config, source.as_str().as_bytes())?;
    let bytes = document.as_str().len();
    let line = format!(in alloc;
        "declarations {} components {} bytes {}\n",
        many, components, bytes
    )?;
    Ok(Text::from(line))
}

/// What the words ask for, if they have a form that is known.
pub(crate) fn derivation_of(words: &Words) -> Option<Derivation<'_>>
    ensures { MatchOption result (¬ (HaveForm words.now))
        (λ derivation. AskFor words.now (asked_of derivation)) }
{
    if is_derive(words) {
        return Some(Derivation::Plain);
    }
    if let Some(path) = config_path(words) {
        return Some(Derivation::Configured(path));
    }
    Some(Derivation::Sample(sample_size(words)?))
}

impl Command for Derivation<'_> {
    ghost use Rattle.std.proofs.Common.{inl};
    ghost use Rattle.schema_gen.specs.Given.{IsConfigured, of_source};
    ghost use Rattle.schema_gen.specs.Owed.{schema_gen};
    ghost use Rattle.schema_gen.specs.Words.{asked_of};

    type Work = Config;

    ghost program = { schema_gen };

    ghost request = { asked_of };

    ghost is_work = { λ config begun. IsConfigured begun config };

    ghost given = { λ config bytes. of_source (record { config = config; text = bytes }) };

    fn usage() -> &'static str
        ensures { result.now
            ≡ codes "usage: schema_gen derive [--config PATH]\n   or: schema_gen sample N\n" }
    {
        "usage: schema_gen derive [--config PATH]\n   or: schema_gen sample N\n"
    }

    fn path(&self) -> Option<&str> {
        match self {
            Derivation::Plain => None,
            Derivation::Configured(path) => Some(path),
            Derivation::Sample(_) => None,
        }
    }

    fn without_file(&self, alloc: Global) -> Result<Rest<Config>, DeriveError> {
        match self {
            Derivation::Sample(size) => Ok(Rest::Answer(sample_line(alloc, *size)?)),
            _ => Ok(Rest::Work(Config::new(alloc))),
        }
    }

    fn with_file(&self, alloc: Global, bytes: &[u8]) -> Result<Rest<Config>, DeriveError> {
        Ok(Rest::Work(Config::from_slice(alloc, bytes)?))
    }

    fn longer_file(&self, alloc: Global) -> DeriveError {
        bad_config(alloc)
    }

    fn answer(alloc: Global, config: &Config, bytes: &[u8]) -> Result<Text, DeriveError>
        requires { length bytes.now ≤ most_bytes }
        ensures made { IfOk result (λ text. IsDocumentOf config.now bytes.now text) }
        ensures refused { Refuses result (IsRefusedSource config.now bytes.now) }
    {
        document_text(alloc, config, bytes)
    }

    ghost asked = { λ config begun is. (config, is) };

    ghost gives = { λ config begun bytes is all. record { config = is; text = all } };

    ghost refuses_longer = { λ config bytes e long. inl long };
}
