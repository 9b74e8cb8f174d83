//! The line in which a fault stands, with marks under it.

ghost use Rattle.std.specs.Prelude.{◌≡◌, ◌≤◌, ◌*◌, length, chars, sum_by, IfOk, OnOk, ◌++◌};
ghost use Rattle.telling.specs.Positions.{without_return};
ghost use Rattle.telling.specs.Places.{line_in, column_in};
ghost use Rattle.telling.specs.Told.{columns, under, marks, begun, in_front, from_on, held, shown_at, told_at, place_text, place_in};

use crate::part::{Place, column_behind, line_back, line_behind, line_front};
use crate::position::begins_char;
use crate::printing::{escaped, is_command};
use crate::told::{Shown, Told};
use std::alloc::{AllocError, Global};
use texts::{Span, Text};
use unicode_width::UnicodeWidthChar;

/// How many characters of a line are shown, at most, and how many of these in front of the fault.
const MOST_SHOWN: usize = 200;

const MOST_IN_FRONT: usize = 100;

/// The columns that the character takes in a terminal, as it is shown.
fn columns(c: char) -> usize
    ensures value { result ≡ columns c }
    ensures bound { result ≤ 10 }
{
    if is_command(c) {
        return c.escape_unicode().count();
    }
    c.width().unwrap_or(0)
}

/// The columns that all of the characters take.
fn all_columns(characters: &[char]) -> usize
    requires { length characters.now ≤ MOST_SHOWN }
    ensures { result ≡ sum_by columns characters.now }
{
    let mut all: usize = 0;
    for c in characters {
        all += columns(*c);
    }
    all
}

/// Adds what stands under the character.
fn push_under(alloc: Global, line: &mut Text, c: char) -> Result<(), AllocError>
    ensures { OnOk result (line.new ≡ line.old ++ under c) }
{
    if c == '\t' {
        return line.push("\t");
    }
    let blanks = " ".repeat(alloc, columns(c))?;
    line.push(blanks.as_str())
}

/// What stands under the line.
fn marks(alloc: Global, front: &[char], marked: &[char]) -> Result<Text, AllocError>
    requires { length marked.now ≤ MOST_SHOWN }
    ensures { IfOk result (λ line. line ≡ marks front.now marked.now) }
{
    let mut line = Text::new(alloc, "")?;
    for c in front {
        push_under(alloc, &mut line, *c)?;
    }
    let carets = "^".repeat(alloc, all_columns(marked).max(1))?;
    line.push(carets.as_str())?;
    Ok(line)
}

/// How many characters of the text begin before the offset.
fn begun(text: &str, offset: usize) -> usize
    ensures { result ≡ begun text.now offset }
{
    let bytes = text.as_bytes();
    let before = &bytes[..offset.min(bytes.len())];
    before.iter().filter(|byte| begins_char(**byte)).count()
}

/// The characters in front of the offset in its line.
fn in_front(
    alloc: Global,
    place: &Place,
    text: &str,
    offset: usize,
) -> Result<Vec<char>, AllocError>
    ensures { IfOk result (λ front. front.items ≡ in_front place.now text.now offset) }
{
    let mut line = Text::new(alloc, place.before.as_str())?;
    line.push(&text[..text.ceil_char_boundary(offset)])?;
    line_back(alloc, line.as_str(), MOST_IN_FRONT)
}

/// The characters from the offset on, behind so many in front of it.
fn from_on(
    alloc: Global,
    place: &Place,
    text: &str,
    offset: usize,
    front: usize,
) -> Result<Vec<char>, AllocError>
    requires { front ≡ length (in_front place.now text.now offset) }
    ensures { IfOk result (λ back. back.items ≡ from_on place.now text.now offset) }
{
    let mut line = Text::new(alloc, &text[text.ceil_char_boundary(offset)..])?;
    line.push(place.behind.as_str())?;
    line_front(alloc, line.as_str(), MOST_SHOWN.saturating_sub(front))
}

/// The line of the offset in the file of a text that stands at the place, or the last that a number can name.
fn line_in(place: &Place, text: &str, offset: usize) -> usize
    ensures { result ≡ held (line_in place.now text.now offset) }
{
    let bytes = text.as_bytes();
    line_behind(place.line, &bytes[..offset.min(bytes.len())])
}

/// The column of the offset in the file of a text that stands at the place, or the last that a number can name.
fn column_in(place: &Place, text: &str, offset: usize) -> usize
    ensures { result ≡ held (column_in place.now text.now offset) }
{
    let bytes = text.as_bytes();
    column_behind(place.column, &bytes[..offset.min(bytes.len())])
}

/// A place as editors read it: the path, the line and the column.
pub fn place_text(alloc: Global, path: &str, line: usize, column: usize) -> Result<Text, AllocError>
    ensures { IfOk result (λ shown. shown ≡ place_text path.now line column) }
{
    let shown = format!(in alloc; "{path}:{line}:{column}")?;
    Ok(Text::from(shown))
}

/// The place of an offset of the text that stands at the place in the file of the path.
pub fn place_in(
    alloc: Global,
    path: &str,
    place: &Place,
    text: &str,
    offset: usize,
) -> Result<Text, AllocError>
    ensures { IfOk result (λ shown. shown ≡ place_in path.now place.now text.now offset) }
{
    let line = line_in(place, text, offset);
    place_text(alloc, path, line, column_in(place, text, offset))
}

/// The characters around the offset in its line, and how many of them stand in front of it.
fn around(
    alloc: Global,
    place: &Place,
    text: &str,
    offset: usize,
) -> Result<(Vec<char>, usize), AllocError>
    ensures line { IfOk result (λ p. p.0.items
        ≡ in_front place.now text.now offset ++ from_on place.now text.now offset) }
    ensures front { IfOk result (λ p. p.1 ≡ length (in_front place.now text.now offset)) }
{
    let mut line = in_front(alloc, place, text, offset)?;
    let front = line.len();
    let mut back = from_on(alloc, place, text, offset, front)?;
    line.append(&mut back)?;
    Ok((line, front))
}

/// The characters without a carriage return at their end.
fn without_return(line: &[char]) -> &[char]
    ensures { result.now ≡ without_return line.now }
{
    match line.strip_suffix(&['\r']) {
        Some(rest) => rest,
        None => line,
    }
}

/// The line in which the span starts, with marks under the span.
fn shown_at(alloc: Global, place: &Place, text: &str, span: Span) -> Result<Shown, AllocError>
    ensures { IfOk result (λ shown. shown ≡ shown_at place.now text.now span) }
{
    let (around, front) = around(alloc, place, text, span.start)?;
    let line = without_return(around.as_slice());
    let (front, back) = line.split_at(front.min(line.len()));
    let marked = begun(text, span.end).saturating_sub(begun(text, span.start));
    Ok(Shown {
        line: line_in(place, text, span.start),
        column: column_in(place, text, span.start),
        marks: marks(alloc, front, &back[..marked.min(back.len())])?,
        text: escaped(alloc, line)?,
    })
}

/// What is told of a span of the text that stands at the place in the file of the path. An offset that lies behind the
/// text counts as its end, and one inside of a character as the end of that.
pub fn told_in(
    alloc: Global,
    path: &str,
    place: &Place,
    text: &str,
    span: Span,
    label: &str,
    message: &str,
) -> Result<Told, AllocError>
    ensures { IfOk result
        (λ told. told ≡ told_at path.now place.now text.now span label.now message.now) }
{
    Ok(Told {
        path: Text::new(alloc, path)?,
        shown: Some(shown_at(alloc, place, text, span)?),
        label: Text::new(alloc, label)?,
        message: Text::new(alloc, message)?,
        help: None,
    })
}
