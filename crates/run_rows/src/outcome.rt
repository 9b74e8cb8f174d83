//! How a run ended, and what it wrote.

use anyhow::bail;
use diag::Kind;
use schema_gen::Status;
use serde_json::Value;
use std::alloc::{AllocError, Global};

/// How a run ended, by the name of its status, and what both outputs have.
#[derive(Drop)]
pub(crate) struct Outcome {
    status: String,
    out: String,
    err: String,
}

/// The bytes as a text.
fn shown(alloc: Global, bytes: &[u8]) -> anyhow::Result<String> {
    let Ok(text) = str::from_utf8(bytes) else {
        bail!("no text in UTF-8");
    };
    Ok(String::from_str(alloc, text)?)
}

/// The status of the name.
pub(crate) fn status_named(name: &str) -> anyhow::Result<Status> {
    match name {
        "Done" => Ok(Status::Done),
        "Refused" => Ok(Status::Refused(Kind::Syntax)),
        "Usage" => Ok(Status::Usage),
        "ReadFault" => Ok(Status::ReadFault),
        "WriteFault" => Ok(Status::WriteFault),
        "Memory" => Ok(Status::Memory),
        "FileFault" => Ok(Status::FileFault),
        other => bail!("no status {other}"),
    }
}

/// The name of the status, of a refusal with its kind in brackets.
pub(crate) fn status_text(alloc: Global, status: Status) -> Result<String, AllocError> {
    format!(in alloc; "{status:?}")
}

/// The name of the status of a run over files.
pub(crate) fn file_status_text(
    alloc: Global,
    status: file_runs::Status,
) -> Result<String, AllocError> {
    format!(in alloc; "{status:?}")
}

/// The text as a JSON text.
fn quoted(alloc: Global, text: &str) -> Result<String, AllocError> {
    let value = Value::String(String::from_str(alloc, text)?);
    value.to_string(alloc)
}

/// What an output has: a document of one line for itself, without the new line that ends it, and any other text as a JSON text.
fn output_text(alloc: Global, output: &str) -> Result<String, AllocError> {
    match output.strip_suffix('\n') {
        Some(document) if document.starts_with('{') && !document.contains('\n') => {
            String::from_str(alloc, document)
        }
        _ => quoted(alloc, output),
    }
}

impl Outcome {
    /// The outcome of these bytes.
    pub(crate) fn new(
        alloc: Global,
        status: String,
        out: &[u8],
        err: &[u8],
    ) -> anyhow::Result<Outcome> {
        Ok(Outcome {
            status,
            out: shown(alloc, out)?,
            err: shown(alloc, err)?,
        })
    }

    /// The JSON list of the status and of what both outputs have.
    pub(crate) fn text(&self, alloc: Global) -> Result<String, AllocError> {
        let out = output_text(alloc, self.out.as_str())?;
        let err = output_text(alloc, self.err.as_str())?;
        format!(in alloc;
            "[\"{}\",{},{}]",
            self.status.as_str(),
            out.as_str(),
            err.as_str()
        )
    }

    /// The document, or the report of a refusal without `refused: `; each without the new line that ends it.
    pub(crate) fn line(&self) -> &str {
        let text = if self.is_done() {
            self.out.as_str()
        } else {
            self.err.as_str()
        };
        let line = text.strip_suffix('\n').unwrap_or(text);
        line.strip_prefix("refused: ").unwrap_or(line)
    }

    /// The status, and how many bytes the output has.
    pub(crate) fn size(&self, alloc: Global) -> Result<String, AllocError> {
        format!(in alloc; "{} {}", self.status.as_str(), self.out.len())
    }

    /// Whether there is a document.
    pub(crate) fn is_done(&self) -> bool {
        self.status.as_str() == "Done"
    }
}
