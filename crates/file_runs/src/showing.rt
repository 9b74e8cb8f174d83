//! What is written of the components.

ghost use Rattle.std.specs.Prelude.{◌≡◌, ◌∷◌, ◌++◌, ℕ, [], List, false, option_map, string_bytes, IfOk, IfErr};
ghost use Rattle.serde_json.specs.Data.{Data};
ghost use Rattle.acceptance.specs.Data.{data_of};
ghost use Rattle.schema_core.specs.Document.{document_by};
ghost use Rattle.documents.specs.Components.{schemas_in};
ghost use Rattle.documents.specs.Text.{IsTextOf};
ghost use Rattle.documents.specs.Written.{AreTextsOf, AreNamedInOrder, IsWrittenOf};
ghost use Rattle.file_runs.specs.Given.{named_view};
ghost use Rattle.file_runs.specs.Reports.{openapi_line, taken_line, difference_text, difference_line};
ghost use Rattle.file_runs.specs.Shown.{alternatives, is_direct, IsMade, IsShown, IsUnmade, IsUnshown, IfLine};

use crate::named::NamedDocument;
use crate::request::Request;
use compose::Composition;
use documents::{Difference, Merged, Written, compare, merge, pretty_text};
use schema_core::Alternatives;
use std::alloc::{AllocError, Global};
use telling::printable;
use texts::{List, Text};

/// Why nothing is written.
#[derive(Drop)]
pub enum Unshown {
    Memory,
    /// The line that tells.
    Line(Text),
}

impl From<AllocError> for Unshown {
    ghost use Rattle.std.specs.Prelude.{◌≡◌};
    ghost use Rattle.file_runs.specs.declared.showing.Unshown.TheVariants.{Memory};

    ghost from_gives = { λ _ unshown. unshown ≡ Memory };

    fn from(_error: AllocError) -> Unshown {
        Unshown::Memory
    }
}

/// The line that the file at the path is no OpenAPI document.
fn openapi_line(alloc: Global, path: &str) -> Result<Text, AllocError>
    ensures { IfOk result (λ line. line ≡ openapi_line path.now) }
{
    let line = format!(in alloc;
        "{path}: BadConfig: this is no OpenAPI document: a JSON object, whose components and their schemas are objects\n"
    )?;
    printable(alloc, line.as_str())
}

/// The line that the OpenAPI document at the path has a schema of the name.
fn taken_line(alloc: Global, path: &str, name: &str) -> Result<Text, AllocError>
    ensures { IfOk result (λ line. line ≡ taken_line path.now name.now) }
{
    let line = format!(in alloc;
        "{path}: DuplicateName: the document has a schema {name} of its own\n"
    )?;
    printable(alloc, line.as_str())
}

/// How a document differs.
fn difference_text(alloc: Global, found: &Difference) -> Result<String, AllocError>
    ensures { IfOk result (λ text. string_bytes text ≡ difference_text found.now) }
{
    match found {
        Difference::Missing(name) => format!(in alloc; "{} is missing", name.as_str()),
        Difference::Surplus(name) => format!(in alloc; "{} is described no more", name.as_str()),
        Difference::Another(name) => format!(in alloc; "{} is another", name.as_str()),
        Difference::Elsewhere => {
            String::from_str(alloc, "what stands beside the schemas is another")
        }
    }
}

/// The line that tells how the document at the path differs.
fn difference_line(alloc: Global, path: &str, found: &Difference) -> Result<Text, AllocError>
    ensures { IfOk result (λ line. line ≡ difference_line path.now found.now) }
{
    let text = difference_text(alloc, found)?;
    let line = format!(in alloc; "{path}: {}\n", text.as_str())?;
    printable(alloc, line.as_str())
}

/// The texts of the schemas of the document of the components, by their names.
fn schemas_of(
    alloc: Global,
    composition: &Composition,
    by: Alternatives,
) -> Result<List<(Text, Text)>, AllocError>
    ensures texts { IfOk result
        (AreTextsOf (schemas_in (data_of (document_by by composition.now)))) }
    ensures order { IfOk result AreNamedInOrder }
{
    schema_core::documents_are_in_order();
    schema_core::texts_are_compact();
    composition.schema_texts(alloc, by)
}

/// The text without the new line at its end.
fn without_line(text: &str) -> &str
    ensures { (json : List ℕ) → text.now ≡ json ++ 10 ∷ [] → result.now ≡ json }
{
    match text.strip_suffix("\n") {
        Some(rest) => rest,
        None => text,
    }
}

/// The document of the components, with its schemas.
fn written_of(
    alloc: Global,
    composition: &Composition,
    by: Alternatives,
) -> Result<Written, AllocError>
    ensures { IfOk result (IsWrittenOf (data_of (document_by by composition.now))) }
{
    schema_core::texts_are_compact();
    let text = composition.to_text(alloc, by)?;
    let json = Text::new(alloc, without_line(text.as_str()))?;
    drop(text);
    let schemas = schemas_of(alloc, composition, by)?;
    Ok(Written { json, schemas })
}

/// The document, or the OpenAPI document with its schemas.
fn made(
    alloc: Global,
    openapi: Option<NamedDocument>,
    composition: &Composition,
    by: Alternatives,
) -> Result<Written, Unshown>
    ensures made { IfOk result (λ written. (value : Data) × IsMade (option_map named_view openapi)
        (data_of (document_by by composition.now)) value × IsWrittenOf value written) }
    ensures line { IfErr result (IfLine (IsUnmade (option_map named_view openapi)
        (data_of (document_by by composition.now)))) }
{
    let Some(NamedDocument { path, value: api }) = openapi else {
        return Ok(written_of(alloc, composition, by)?);
    };
    let schemas = schemas_of(alloc, composition, by)?;
    match merge(alloc, api, schemas)? {
        Merged::Document(written) => Ok(written),
        Merged::NoOpenApi => Err(Unshown::Line(openapi_line(alloc, path.as_str())?)),
        Merged::Taken(name) => {
            let line = taken_line(alloc, path.as_str(), name.as_str())?;
            Err(Unshown::Line(line))
        }
    }
}

/// The keyword of alternatives that the request asks for.
fn alternatives(request: &Request) -> Alternatives
    ensures { result ≡ alternatives request.now }
{
    if request.any_of {
        Alternatives::AnyOf
    } else {
        Alternatives::OneOf
    }
}

/// Whether the document is written straight from the components: it goes into no other, and is compared with none.
fn is_direct(openapi: &Option<NamedDocument>, check: &Option<NamedDocument>) -> bool
    ensures { result ≡ is_direct (option_map named_view openapi.now)
        (option_map named_view check.now) }
{
    matches!((openapi, check), (None, None))
}

/// The text as it is, or the pretty text of its value.
fn laid_out(alloc: Global, text: Text, is_pretty: bool) -> Result<Text, AllocError>
    ensures layout { IfOk result (λ shown. (value : Data)
        → IsTextOf false value text → IsTextOf is_pretty value shown) }
    ensures compact { is_pretty ≡ false → IfOk result (λ shown. shown ≡ text) }
{
    if is_pretty {
        return pretty_text(alloc, text.as_str());
    }
    Ok(text)
}

/// What is written of the components: the text of their document, or of the OpenAPI document that they go into; nothing where
/// it is compared, and the same. No tree of a schema is made, so the stack is enough for schemas of any depth.
pub(crate) fn shown(
    alloc: Global,
    request: &Request,
    openapi: Option<NamedDocument>,
    check: &Option<NamedDocument>,
    composition: &Composition,
) -> Result<Text, Unshown>
    ensures shown { IfOk result (IsShown request.now (option_map named_view openapi)
        (option_map named_view check.now) composition.now) }
    ensures line { IfErr result (IfLine (IsUnshown request.now composition.now
        (option_map named_view openapi) (option_map named_view check.now))) }
{
    schema_core::texts_are_compact();
    let by = alternatives(request);
    if is_direct(&openapi, check) {
        let text = composition.to_text(alloc, by)?;
        return Ok(laid_out(alloc, text, request.pretty)?);
    }
    let written = made(alloc, openapi, composition, by)?;
    let Some(old) = check else {
        let mut text = written.json;
        text.push("\n")?;
        return Ok(laid_out(alloc, text, request.pretty)?);
    };
    match compare(alloc, &old.value, &written)? {
        None => Ok(Text::new(alloc, "")?),
        Some(found) => {
            let line = difference_line(alloc, old.path.as_str(), &found)?;
            Err(Unshown::Line(line))
        }
    }
}
