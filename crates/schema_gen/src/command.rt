//! What the words ask for.

ghost use Rattle.std.specs.Prelude.{◌↔◌, ℕ, List, IsTrue, MatchOption};
ghost use Rattle.schema_gen.specs.Words.{IsDerive, IsSample};

use crate::size::{SampleSize, size_of};
use reporting::Words;

/// Whether the words are `derive` alone.
pub(crate) fn is_derive(words: &Words) -> bool
    ensures { IsTrue result ↔ IsDerive words.now None }
{
    let words = words.as_slice();
    if words.len() != 1 {
        return false;
    }
    words[0].as_str() == "derive"
}

/// The path of the configuration's file, where the words are `derive --config PATH`.
pub(crate) fn config_path(words: &Words) -> Option<&str>
    ensures { MatchOption result ((path : List ℕ) → ¬ (IsDerive words.now (Some path)))
        (λ path. IsDerive words.now (Some path.now)) }
{
    let words = words.as_slice();
    if words.len() != 3 {
        return None;
    }
    if words[0].as_str() != "derive" || words[1].as_str() != "--config" {
        return None;
    }
    Some(words[2].as_str())
}

/// The size of the sample, where the words are `sample N`.
pub(crate) fn sample_size(words: &Words) -> Option<SampleSize>
    ensures { MatchOption result ((n : ℕ) → ¬ (IsSample words.now n))
        (λ size. IsSample words.now size.many) }
{
    let words = words.as_slice();
    if words.len() != 2 {
        return None;
    }
    if words[0].as_str() != "sample" {
        return None;
    }
    size_of(words[1].as_str())
}
