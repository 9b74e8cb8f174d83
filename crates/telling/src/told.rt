//! What is told of a fault, and its text.

ghost use Rattle.std.specs.Prelude.{◌≡◌, ◌++◌, Some, IfOk, OnOk};
ghost use Rattle.std.specs.Fmt.{DisplaysOnOk};
ghost use Rattle.telling.specs.Told.{heading, location, shown_lines, help_line, told_text, more_line, first_told, all_told};

use crate::printing::printable;
use std::alloc::{AllocError, Global};
use std::fmt;
use texts::Text;

/// How many faults are told, at most.
const MOST_TOLD: usize = 100;

/// Where a fault stands, the line there, and marks under it.
#[derive(Debug, Drop)]
pub struct Shown {
    pub line: usize,
    pub column: usize,
    /// The line without its end, as a report shows it: at most 200 of its characters, and escapes for those that command a
    /// terminal.
    pub text: Text,
    /// What stands under the line.
    pub marks: Text,
}

/// A fault of a file. It has no place where it is one of the file as a whole, and no path where it is one of none. It displays
/// as lines, in which the path, the message and the help stand as they are; `told_text` is what a report shows of these.
#[derive(Debug, Drop)]
pub struct Told {
    /// The file's path, or nothing.
    pub path: Text,
    pub shown: Option<Shown>,
    /// What kind of fault it is, or nothing.
    pub label: Text,
    pub message: Text,
    /// What the reader may do.
    pub help: Option<Text>,
}

impl fmt::Display for Told {
    ghost use Rattle.std.specs.Prelude.{Some};
    ghost use Rattle.telling.specs.Told.{told_lines};

    ghost output = { λ told. Some (told_lines told) };

    fn fmt<W: fmt::Write>(&self, f: &mut fmt::Formatter<W>) -> fmt::Result {
        write_location(self, f)?;
        write_heading(self.label.as_str(), f)?;
        f.write_str(self.message.as_str())?;
        f.write_str("\n")?;
        write_shown(&self.shown, f)?;
        write_help(&self.help, f)
    }
}

/// The heading, where there is one.
fn write_heading<W: fmt::Write>(text: &str, f: &mut fmt::Formatter<W>) -> fmt::Result
    ensures { DisplaysOnOk W.write_str_gives f.old result (Some (heading text.now)) f.new }
{
    if text.is_empty() {
        return Ok(());
    }
    write!(f, "{text}: ")
}

/// The path and the place.
fn write_location<W: fmt::Write>(told: &Told, f: &mut fmt::Formatter<W>) -> fmt::Result
    ensures { DisplaysOnOk W.write_str_gives f.old result
        (Some (location told.now.path told.now.shown)) f.new }
{
    let path = told.path.as_str();
    match &told.shown {
        Some(shown) => write!(f, "{path}:{}:{}: ", shown.line, shown.column),
        None => write_heading(path, f),
    }
}

/// The line and its marks.
fn write_shown<W: fmt::Write>(shown: &Option<Shown>, f: &mut fmt::Formatter<W>) -> fmt::Result
    ensures { DisplaysOnOk W.write_str_gives f.old result (Some (shown_lines shown.now)) f.new }
{
    match shown {
        Some(shown) => write!(f, "{}\n{}\n", shown.text.as_str(), shown.marks.as_str()),
        None => Ok(()),
    }
}

/// The help, where there is one.
fn write_help<W: fmt::Write>(help: &Option<Text>, f: &mut fmt::Formatter<W>) -> fmt::Result
    ensures { DisplaysOnOk W.write_str_gives f.old result (Some (help_line help.now)) f.new }
{
    match help {
        Some(help) => write!(f, "help: {}\n", help.as_str()),
        None => Ok(()),
    }
}

/// What a report shows of it: its lines, `printable`.
pub fn told_text(alloc: Global, told: &Told) -> Result<Text, AllocError>
    ensures { IfOk result (λ text. text ≡ told_text told.now) }
{
    let lines = format!(in alloc; "{told}")?;
    printable(alloc, lines.as_str())
}

/// What a report shows of the first hundred, one behind the other, and how many more there are, of so many in all.
pub fn first_told(alloc: Global, told: &[Told], count: usize) -> Result<Text, AllocError>
    ensures { IfOk result (λ text. text ≡ first_told told.now count) }
{
    let mut text = Text::new(alloc, "")?;
    for one in &told[..MOST_TOLD.min(told.len())] {
        let lines = format!(in alloc; "{one}")?;
        text.push(lines.as_str())?;
    }
    push_more(alloc, &mut text, count)?;
    printable(alloc, text.as_str())
}

/// What a report shows of the first hundred, one behind the other, and how many more there are.
pub fn all_told(alloc: Global, told: &[Told]) -> Result<Text, AllocError>
    ensures { IfOk result (λ text. text ≡ all_told told.now) }
{
    first_told(alloc, told, told.len())
}

/// Adds how many of so many are beyond the first hundred.
fn push_more(alloc: Global, text: &mut Text, count: usize) -> Result<(), AllocError>
    ensures { OnOk result (text.new ≡ text.old ++ more_line count) }
{
    if count <= MOST_TOLD {
        return Ok(());
    }
    let more = format!(in alloc; "and {} more\n", count - MOST_TOLD)?;
    text.push(more.as_str())
}
