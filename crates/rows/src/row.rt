ghost use Rattle.std.specs.Prelude.{◌≡◌, false, true, IfOk, IfErr, MatchOption};
ghost use Rattle.std.specs.String.{string_bytes};
ghost use Rattle.serde_json.specs.View.{view, items_view};
ghost use Rattle.serde_json.specs.Written.{has_float};
ghost use Rattle.rows.specs.Rows.{is_remark, answer_text, AreOf, AreOfNone, IsLineOf, IsLineOfNone, IsRefused};

use crate::error::RowError;
use serde_json::Value;
use std::alloc::{AllocError, Global};

/// How many parts a row has: a call, what it is given and its answer.
const PARTS: usize = 3;

/// What one call must answer.
#[derive(Drop)]
pub struct Row {
    /// The name of the call.
    pub call: String,
    /// What it is given.
    pub given: Value,
    /// The text that it must answer.
    pub answer: String,
}

/// The text of an answer: a text stands for itself, any other JSON for its compact text.
fn answer_text(alloc: Global, answer: &Value) -> Result<String, AllocError>
    ensures { IfOk result (λ text. has_float (view answer.now) ≡ false
        → string_bytes text ≡ answer_text (view answer.now)) }
{
    match answer {
        Value::String(text) => text.clone(),
        other => other.to_string(alloc),
    }
}

/// The row of a list's parts, where they are those of one.
fn row_of(alloc: Global, parts: &[Value]) -> Result<Option<Row>, AllocError>
    ensures { IfOk result
        (λ found. MatchOption found (AreOfNone (items_view parts.now))
        (AreOf (items_view parts.now))) }
{
    if parts.len() != PARTS {
        return Ok(None);
    }
    let (call, given, answer) = (&parts[0], &parts[1], &parts[2]);
    let Some(call) = call.as_str() else {
        return Ok(None);
    };
    Ok(Some(Row {
        call: call.to_string(alloc)?,
        given: given.clone()?,
        answer: answer_text(alloc, answer)?,
    }))
}

/// The row that a text is in JSON, where it is one.
fn row_of_text(alloc: Global, text: &str) -> Result<Option<Row>, AllocError>
    ensures { IfOk result (λ found. MatchOption found (IsLineOfNone text.now) (IsLineOf text.now)) }
{
    let value = match Value::from_str(alloc, text) {
        Ok(value) => value,
        Err(error) if error.is_memory() => return Err(AllocError),
        Err(_) => return Ok(None),
    };
    match value.as_array() {
        Some(parts) => row_of(alloc, parts.as_slice()),
        None => Ok(None),
    }
}

/// Whether a line has no row: it is empty, or begins with `#`.
fn is_remark(line: &str) -> bool
    ensures { result ≡ is_remark line.now }
{
    match line.as_bytes() {
        [] => true,
        [first, ..] => *first == b'#',
    }
}

impl Row {
    /// The row of a line, in JSON the list of the call's name, what it is given and its answer. An empty line, and one
    /// that begins with `#`, has none. Any other line that is no such list is refused.
    pub fn from_line(alloc: Global, line: &str) -> Result<Option<Row>, RowError>
        ensures row { IfOk result
            (λ found. MatchOption found (is_remark line.now ≡ true) (IsLineOf line.now)) }
        ensures refused { IfErr result (IsRefused line.now) }
    {
        if is_remark(line) {
            return Ok(None);
        }
        match row_of_text(alloc, line)? {
            Some(row) => Ok(Some(row)),
            None => Err(RowError::Form(line.to_string(alloc)?)),
        }
    }
}
