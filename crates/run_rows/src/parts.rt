//! Bytes that a row gives in parts, so that a long source is a short row.
//!
//! A part is a text, the number of a byte, `{"repeat": [text, times]}`, or `{"numbered": [parts, from, to]}`: the parts for each
//! number from the one up to, and without, the other, which stands in place of each `#`, and the next one in place of each `@`.

use anyhow::bail;
use rows::given::{count_of, items_at, list_of, member, pair_of, text_of};
use serde_json::Value;
use std::alloc::{AllocError, Global};

/// Adds the text so many times.
fn push_repeated(bytes: &mut Vec<u8>, text: &str, times: usize) -> Result<(), AllocError> {
    for _ in 0..times {
        bytes.extend_from_slice(text.as_bytes())?;
    }
    Ok(())
}

/// Adds a part that is not numbered.
fn push_part(bytes: &mut Vec<u8>, part: &Value) -> anyhow::Result<()> {
    match part {
        Value::String(text) => push_repeated(bytes, text.as_str(), 1)?,
        Value::Number(_) => bytes.push(u8::try_from(count_of(part)?)?)?,
        other => {
            let (text, times) = pair_of(member(other, "repeat")?)?;
            push_repeated(bytes, text_of(text)?, count_of(times)?)?;
        }
    }
    Ok(())
}

/// Adds the piece with the number and the next one in it.
fn push_number(
    bytes: &mut Vec<u8>,
    piece: &[u8],
    this: &str,
    next: &str,
) -> Result<(), AllocError> {
    for byte in piece {
        match *byte {
            b'#' => bytes.extend_from_slice(this.as_bytes())?,
            b'@' => bytes.extend_from_slice(next.as_bytes())?,
            other => bytes.push(other)?,
        }
    }
    Ok(())
}

/// Adds the parts for each number.
fn push_numbered(alloc: Global, bytes: &mut Vec<u8>, given: &Value) -> anyhow::Result<()> {
    let [parts, from, to] = list_of(given)? else {
        bail!("parts and two numbers");
    };
    let mut piece = Vec::new(alloc);
    for part in list_of(parts)? {
        push_part(&mut piece, part)?;
    }
    for number in count_of(from)?..count_of(to)? {
        let this = number.to_string(alloc)?;
        let next = number.saturating_add(1).to_string(alloc)?;
        push_number(bytes, piece.as_slice(), this.as_str(), next.as_str())?;
    }
    Ok(())
}

/// The bytes of a text, or of a list of parts.
pub(crate) fn bytes_of(alloc: Global, given: &Value) -> anyhow::Result<Vec<u8>> {
    let mut bytes = Vec::new(alloc);
    let Some(parts) = given.as_array() else {
        push_part(&mut bytes, given)?;
        return Ok(bytes);
    };
    for part in parts.as_slice() {
        match part.get("numbered") {
            Some(numbered) => push_numbered(alloc, &mut bytes, numbered)?,
            None => push_part(&mut bytes, part)?,
        }
    }
    Ok(bytes)
}

/// The bytes of the member, or none where there is no member.
pub(crate) fn bytes_at(alloc: Global, given: &Value, name: &str) -> anyhow::Result<Vec<u8>> {
    match given.get(name) {
        Some(member) => bytes_of(alloc, member),
        None => Ok(Vec::new(alloc)),
    }
}

/// The numbers of the member, or none where there is no member.
pub(crate) fn counts_at(
    alloc: Global,
    given: &Value,
    name: &'static str,
) -> anyhow::Result<Vec<usize>> {
    let mut counts = Vec::new(alloc);
    for item in items_at(given, name)? {
        counts.push(count_of(item)?)?;
    }
    Ok(counts)
}
