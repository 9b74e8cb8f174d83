//! What is written where there is no document, and what answers a question.

ghost use Rattle.std.specs.Prelude.{◌≡◌, string_bytes, IfOk};
ghost use Rattle.file_runs.specs.Contents.{TellsFile};
ghost use Rattle.file_runs.specs.Owed.{status_of, report_of};
ghost use Rattle.file_runs.specs.Reports.{option_name, misuse_line, misuse_text, cause_text, fault_line, answer_text};

use crate::ending::Ending;
use crate::request::{Misuse, Question, Valued};
use crate::status::Status;
use files::Cause;
use std::alloc::{AllocError, Global};
use telling::printable;
use texts::Text;

/// How to use the program.
pub const HELP: &str = "\
usage: schema_gen_file [OPTION].. [--] FILE..

Writes one JSON document with the OpenAPI 3.1 schemas of the structs and enums in files of Rust. A FILE is read as it
stands; `-` is standard input. Declarations are found in modules too, but not in functions and macros, and not what is
for tests alone. All files together declare what is described, and no two of them may declare one name.

  --serde          only declarations that derive Serialize, Deserialize or ToSchema, and those that they name
  --only NAME      only declarations of this name, and those that they name, also without --serde's traits; again for
                   one name more
  --exclude NAME   no declaration or alias of this name, and none for its sake; NAME may be PATH:LINE, the line where
                   one has its name, or an alias begins; again for one more
  --stand-in PATH  the file at PATH says the JSON of another crate's types: what it declares is described where it is
                   named, unless a FILE declares the name; again for one file more
  --stand-ins      of the script schema_gen_file: --stand-in with files of the folder stand_ins/, of the standard library
                   and of each crate that begins a path in a FILE
  --config PATH    by the configuration in the JSON file at PATH
  --openapi PATH   puts the components into the OpenAPI document in the JSON file at PATH, and writes all of that
  --check PATH     writes nothing, and refuses a document that is another than the one in the JSON file at PATH
  --any-of         `anyOf` where the document has `oneOf`
  --pretty         a document with two spaces of indent
  --not-plain      a warning for each type that is not plain: its component is not proved to accept exactly its shape
  --skip-refused   leaves out what is refused, and what needs it, with a warning for each
  --strict         warnings are refusals
  --               what follows are files
  -h, --help       this text
  --version        the version of the program, and the logic of the toolchain that proves it

An option stands before or behind files, and its value behind a space or `=`. Standard output gets the document and
nothing else; standard error gets the warnings: where the JSON is another than the schemas say. Status:
0 written; 1 refused, each fault with its place where it has one, and no document; 2 other words; 3 standard input
cannot be read; 4 the output cannot be written; 5 out of memory; 6 a file cannot be read.
";

/// The version of the program, and the logic of the toolchain that proves it, as `rt version` names it.
pub const VERSION: &str = "schema_gen_file 0.1.0 (logic dac8208d650f15bf)\n";

fn option_name(valued: Valued) -> &'static str
    ensures { result.now ≡ option_name valued }
{
    match valued {
        Valued::Config => "--config",
        Valued::Only => "--only",
        Valued::Exclude => "--exclude",
        Valued::StandIn => "--stand-in",
        Valued::OpenApi => "--openapi",
        Valued::Check => "--check",
    }
}

fn misuse_line(alloc: Global, misuse: &Misuse) -> Result<String, AllocError>
    ensures { IfOk result (λ line. string_bytes line ≡ misuse_line misuse.now) }
{
    match misuse {
        Misuse::UnknownOption(word) => format!(in alloc; "unknown option {}", word.as_str()),
        Misuse::NoValue(valued) => {
            format!(in alloc; "option {} lacks its value", option_name(*valued))
        }
        Misuse::GivenTwice(valued) => {
            format!(in alloc; "option {} is given twice", option_name(*valued))
        }
        Misuse::InputTwice => String::from_str(alloc, "- is named twice"),
        Misuse::NoFile => String::from_str(alloc, "no file is named"),
    }
}

/// How the words are misused, and how to use the program.
pub fn misuse_text(alloc: Global, misuse: &Misuse) -> Result<Text, AllocError>
    ensures { IfOk result (λ text. text ≡ misuse_text misuse.now) }
{
    let line = misuse_line(alloc, misuse)?;
    let text = format!(in alloc;
        "{}\nusage: schema_gen_file [OPTION].. [--] FILE..\n",
        line.as_str()
    )?;
    printable(alloc, text.as_str())
}

fn cause_text(cause: Cause) -> &'static str
    ensures { result.now ≡ cause_text cause }
{
    match cause {
        Cause::Missing => "there is no such file",
        Cause::Denied => "permission denied",
        Cause::IsFolder => "it is a directory",
        Cause::Unknown => "reading it failed",
    }
}

fn fault_line(alloc: Global, path: &str, cause: Cause) -> Result<Text, AllocError>
    ensures { IfOk result (λ line. line ≡ fault_line path.now cause) }
{
    let line = format!(in alloc; "{path}: cannot be read: {}\n", cause_text(cause))?;
    printable(alloc, line.as_str())
}

/// The ending of a run that cannot read the file at the path.
pub(crate) fn file_fault(alloc: Global, path: &str, cause: Cause) -> Ending
    ensures ending { TellsFile path.now result }
    ensures told { status_of result ≡ Status.FileFault
        → report_of result ≡ fault_line path.now cause }
{
    match fault_line(alloc, path, cause) {
        Ok(line) => Ending::FileFault(line),
        Err(AllocError) => Ending::Memory,
    }
}

/// What answers the question.
pub fn answer_text(question: Question) -> &'static str
    ensures { result.now ≡ answer_text question }
{
    match question {
        Question::Help => HELP,
        Question::Version => VERSION,
    }
}
