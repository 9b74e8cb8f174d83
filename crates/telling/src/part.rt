//! Where parts of a text stand in it.

ghost use Rattle.std.specs.Prelude.{◌≡◌, ◌≤◌, ◌+◌, ◌-◌, ◌^◌, [], ◌∷◌, ◌++◌, length, min, cond, chars, encode_utf8_all, reverse, count_by, IfOk, MatchOption};
ghost use Rattle.std.specs.Str.{IsCharBoundary, IsUtf8};
ghost use Rattle.telling.specs.Positions.{is_feed, begins_char, line_of};
ghost use Rattle.telling.specs.Marking.{IsMark};
ghost use Rattle.telling.specs.Places.{line_behind, column_behind, line_front, line_back, place_between};

use crate::position::begins_char;
use std::alloc::{AllocError, Global};
use std::marker::Model;
use texts::Text;

/// How many characters of its lines are kept on each side of a part.
const MOST_BESIDE: usize = 200;

/// Where a part of a text stands in it.
#[derive(Debug, Drop)]
pub struct Place {
    /// The line of its first character, from 1.
    pub line: usize,
    /// How many characters begin before it in this line, and one more.
    pub column: usize,
    /// The last characters in front of it in its first line, at most 200.
    pub before: Text,
    /// The first characters behind it in its last line, at most 200.
    pub behind: Text,
}

/// An offset in a text, with its line and its column.
#[derive(Clone, Copy)]
struct Mark {
    offset: usize,
    line: usize,
    column: usize,
}

/// A text of which parts are placed. Parts in their order cost one pass over it in all.
#[derive(Drop)]
pub struct Places<'t> {
    text: &'t str,
    last: Mark,
}

impl<'t> Model for Places<'t> {
    ghost use Rattle.std.specs.Prelude.{List, ℕ};
    ghost use Rattle.telling.specs.Marking.{IsMark};

    ghost Value = { List ℕ };

    ghost view = { λ places. places.text.now };

    ghost invariant = { λ places. IsMark places.text.now places.last };
}

impl<'t> Places<'t> {
    /// The text, of which nothing is placed yet.
    pub fn new(text: &'t str) -> Places<'t>
        ensures { result ≡ text.now }
    {
        Places {
            text,
            last: Mark {
                offset: 0,
                line: 1,
                column: 1,
            },
        }
    }

    /// Where the part from `start` to `end` stands.
    pub fn place(&mut self, alloc: Global, start: usize, end: usize) -> Result<Place, AllocError>
        requires start { IsCharBoundary self.old start }
        requires end { IsCharBoundary self.old end }
        ensures place { IfOk result (λ place. place ≡ place_between self.old start end) }
        ensures same { self.new ≡ self.old }
    {
        self.last = mark_at(self.text, self.last, start);
        let before = line_back(alloc, &self.text[..start], MOST_BESIDE)?;
        let behind = line_front(alloc, &self.text[end..], MOST_BESIDE)?;
        Ok(Place {
            line: self.last.line,
            column: self.last.column,
            before: text_of(alloc, before.as_slice())?,
            behind: text_of(alloc, behind.as_slice())?,
        })
    }

    /// The line of the offset, from 1; of an offset past the end, the line of the end.
    pub fn line(&mut self, at: usize) -> usize
        ensures line { result ≡ line_of self.old at }
        ensures same { self.new ≡ self.old }
    {
        self.last = mark_at(self.text, self.last, at.min(self.text.len()));
        self.last.line
    }
}

/// The mark, or the first one where the offset stands before it.
fn mark_before(text: &str, mark: Mark, offset: usize) -> Mark
    requires { IsMark text.now mark }
    ensures mark { IsMark text.now result }
    ensures before { result.offset ≤ offset }
{
    if offset < mark.offset {
        return Mark {
            offset: 0,
            line: 1,
            column: 1,
        };
    }
    mark
}

/// The offset with its line and its column, counted on from the other where it stands behind that.
fn mark_at(text: &str, last: Mark, offset: usize) -> Mark
    requires within { offset ≤ length text.now }
    requires last { IsMark text.now last }
    ensures mark { IsMark text.now result }
    ensures offset { result.offset ≡ offset }
{
    let from = mark_before(text, last, offset);
    let between = &text.as_bytes()[from.offset..offset];
    Mark {
        offset,
        line: line_behind(from.line, between),
        column: column_behind(from.column, between),
    }
}

/// The line behind a text that begins in this one, or the last that a number can name.
pub(crate) fn line_behind(line: usize, bytes: &[u8]) -> usize
    ensures { result ≡ min (line_behind line bytes.now) (2 ^ 64 - 1) }
{
    line.saturating_add(feeds(bytes))
}

/// How many line feeds there are.
fn feeds(bytes: &[u8]) -> usize
    ensures { result ≡ count_by is_feed bytes.now }
{
    bytes.iter().filter(|byte| **byte == b'\n').count()
}

/// The column behind a text that begins at this one, or the last that a number can name.
pub(crate) fn column_behind(column: usize, bytes: &[u8]) -> usize
    ensures { result ≡ min (column_behind column bytes.now) (2 ^ 64 - 1) }
{
    let mut column = column;
    let mut rest = bytes;
    'bytes: while let [first, after @ ..] = rest {
        column = next_column(column, *first);
        rest = after;
    }
    column
}

/// The column behind the byte.
fn next_column(column: usize, byte: u8) -> usize
    ensures { result ≡ cond (is_feed byte) 1
        (min (column + cond (begins_char byte) 1 0) (2 ^ 64 - 1)) }
{
    if byte == b'\n' {
        return 1;
    }
    if begins_char(byte) {
        return column.saturating_add(1);
    }
    column
}

/// The first characters of the line that begins with the text, at most so many.
#[tactic(auto, using(std::proofs::lemmas::Str::chars_from_encodes))]
pub(crate) fn line_front(alloc: Global, text: &str, most: usize) -> Result<Vec<char>, AllocError>
    ensures { IfOk result (λ front. front.items ≡ line_front most (chars text.now)) }
{
    let line = text.chars().take_while(|c| *c != '\n');
    line.take(most).collect(alloc)
}

/// The last characters of the line that ends with the text, at most so many.
pub(crate) fn line_back(alloc: Global, text: &str, most: usize) -> Result<Vec<char>, AllocError>
    ensures { IfOk result (λ back. back.items ≡ line_back most (chars text.now)) }
{
    let mut back = from_end(alloc, text, most)?;
    back.reverse();
    Ok(back)
}

/// The same, the last of them first.
fn from_end(alloc: Global, text: &str, most: usize) -> Result<Vec<char>, AllocError>
    ensures { IfOk result (λ back. back.items ≡ line_front most (reverse (chars text.now))) }
{
    let mut back = Vec::new(alloc);
    let mut rest = text;
    'characters: while back.len() < most {
        match split_last_char(rest) {
            Some((c, before)) if c != '\n' => {
                back.push(c)?;
                rest = before;
            }
            _ => return Ok(back),
        }
    }
    Ok(back)
}

/// The last character, and what stands before it; `None` where the text is empty.
fn split_last_char(text: &str) -> Option<(char, &str)>
    ensures { MatchOption result (chars text.now ≡ [])
        (λ p. (chars text.now ≡ chars p.1.now ++ p.0 ∷ []) × IsUtf8 p.1.now) }
{
    let mut chars = text.chars();
    match chars.next_back() {
        Some(c) => Some((c, chars.as_str())),
        None => None,
    }
}

/// The text of the characters.
pub(crate) fn text_of(alloc: Global, characters: &[char]) -> Result<Text, AllocError>
    ensures { IfOk result (λ text. text ≡ encode_utf8_all characters.now) }
{
    let text: String = characters.iter().copied().collect(alloc)?;
    Ok(Text::from(text))
}
