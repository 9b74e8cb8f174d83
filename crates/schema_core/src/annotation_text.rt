//! Annotations as text.

ghost use Rattle.std.specs.Prelude.{◌≡◌, ◌∷◌, [], codes, IfOk, option_map, string_bytes};
ghost use Rattle.acceptance.specs.Json.{boolean, text as json_text};
ghost use Rattle.schema_core.specs.Writes.{Writes, annotations_in_order, first_annotations, example_annotations};

use crate::pushes::{push_json, push_jsons, push_text, push_truth};
use schema_trees::{AnnotationKeywords, Annotations};
use std::alloc::{AllocError, Global};

/// Adds the keywords whose names stand first.
fn push_first_keywords(
    alloc: Global,
    text: &mut String,
    later: bool,
    said: &AnnotationKeywords,
) -> Result<bool, AllocError>
    ensures { IfOk result (λ went. Writes (first_annotations said.now) later
        (string_bytes text.old) went (string_bytes text.new)) }
{
    let later = push_text(
        alloc,
        text,
        later,
        "\"contentEncoding\":",
        &said.content_encoding,
    )?;
    let later = push_text(
        alloc,
        text,
        later,
        "\"contentMediaType\":",
        &said.content_media_type,
    )?;
    let later = push_json(alloc, text, later, "\"default\":", &said.default)?;
    let later = push_truth(text, later, "\"deprecated\":", said.deprecated)?;
    push_text(alloc, text, later, "\"description\":", &said.description)
}

/// Adds the annotations whose names stand first.
pub(crate) fn push_first_annotations(
    alloc: Global,
    text: &mut String,
    later: bool,
    annotations: &Annotations,
) -> Result<bool, AllocError>
    ensures { IfOk result (λ went. Writes (first_annotations annotations.now) later
        (string_bytes text.old) went (string_bytes text.new)) }
{
    match annotations.said() {
        None => Ok(later),
        Some(said) => push_first_keywords(alloc, text, later, said),
    }
}

/// Adds the examples.
pub(crate) fn push_examples(
    alloc: Global,
    text: &mut String,
    later: bool,
    annotations: &Annotations,
) -> Result<bool, AllocError>
    ensures { IfOk result (λ went. Writes (example_annotations annotations.now) later
        (string_bytes text.old) went (string_bytes text.new)) }
{
    match annotations.said() {
        None => Ok(later),
        Some(said) => {
            let later = push_json(alloc, text, later, "\"example\":", &said.example)?;
            push_jsons(alloc, text, later, "\"examples\":", &said.examples)
        }
    }
}

/// Adds whether the value is only read, where that is said.
pub(crate) fn push_read_only(
    text: &mut String,
    later: bool,
    annotations: &Annotations,
) -> Result<bool, AllocError>
    ensures { IfOk result (λ went. Writes
        ((codes "readOnly", option_map boolean annotations.now.read_only) ∷ []) later
        (string_bytes text.old) went (string_bytes text.new)) }
{
    match annotations.said() {
        None => Ok(later),
        Some(said) => push_truth(text, later, "\"readOnly\":", said.read_only),
    }
}

/// Adds the title, where there is one.
pub(crate) fn push_title(
    alloc: Global,
    text: &mut String,
    later: bool,
    annotations: &Annotations,
) -> Result<bool, AllocError>
    ensures { IfOk result (λ went. Writes
        ((codes "title", option_map json_text annotations.now.title) ∷ []) later
        (string_bytes text.old) went (string_bytes text.new)) }
{
    match annotations.said() {
        None => Ok(later),
        Some(said) => push_text(alloc, text, later, "\"title\":", &said.title),
    }
}

/// Adds whether the value is only written, where that is said.
pub(crate) fn push_write_only(
    text: &mut String,
    later: bool,
    annotations: &Annotations,
) -> Result<bool, AllocError>
    ensures { IfOk result (λ went. Writes
        ((codes "writeOnly", option_map boolean annotations.now.write_only) ∷ []) later
        (string_bytes text.old) went (string_bytes text.new)) }
{
    match annotations.said() {
        None => Ok(later),
        Some(said) => push_truth(text, later, "\"writeOnly\":", said.write_only),
    }
}

/// Adds the annotations, where no other member stands among them.
pub(crate) fn push_annotations(
    alloc: Global,
    text: &mut String,
    later: bool,
    annotations: &Annotations,
) -> Result<bool, AllocError>
    ensures { IfOk result (λ went. Writes (annotations_in_order annotations.now) later
        (string_bytes text.old) went (string_bytes text.new)) }
{
    let later = push_first_annotations(alloc, text, later, annotations)?;
    let later = push_examples(alloc, text, later, annotations)?;
    let later = push_read_only(text, later, annotations)?;
    let later = push_title(alloc, text, later, annotations)?;
    push_write_only(text, later, annotations)
}
