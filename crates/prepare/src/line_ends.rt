//! The text of a file, as rustc takes it from its bytes.

ghost use Rattle.std.specs.Prelude.{◌≡◌, ◌++◌, ◌==◌, ℕ, chars, encode_utf8_all, string_bytes, IfOk, OnOk};
ghost use Rattle.std.specs.List.{list_any};
ghost use Rattle.prepare.specs.FileTexts.{without_mark, is_blank, begins_comment, opens, is_script, from_feed, without_script, with_feeds, text_of_file};
ghost use Rattle.prepare.specs.Returns.{written_at};

use literals::split_first_char;
use std::alloc::{AllocError, Global};
use texts::Text;

/// The source without the byte order mark that it begins with, if it does.
fn without_mark(source: &str) -> &str
    ensures { chars result.now ≡ without_mark (chars source.now) }
{
    match split_first_char(source) {
        Some(('\u{feff}', rest)) => rest,
        _ => source,
    }
}

fn is_blank(c: char) -> bool
    ensures { result ≡ is_blank c }
{
    c == ' ' || ('\t' <= c && c <= '\r')
}

/// Whether with the character, in front of the text, a comment begins.
fn begins_comment(c: char, rest: &str) -> bool
    ensures { result ≡ begins_comment c (chars rest.now) }
{
    match split_first_char(rest) {
        Some((d, _)) => c == '/' && (d == '/' || d == '*'),
        None => false,
    }
}

/// Whether a `[` stands behind blanks, or a comment.
fn opens(text: &str) -> bool
    ensures { result ≡ opens (chars text.now) }
{
    let mut rest = text;
    'blanks: while let Some((c, after)) = split_first_char(rest) {
        if !is_blank(c) {
            return c == '[' || begins_comment(c, after);
        }
        rest = after;
    }
    false
}

/// Whether the first line is for a shell: it begins with `#!`, which begins no attribute.
fn is_script(source: &str) -> bool
    ensures { result ≡ is_script (chars source.now) }
{
    match split_first_char(source) {
        Some(('#', rest)) => match split_first_char(rest) {
            Some(('!', rest)) => !opens(rest),
            _ => false,
        },
        _ => false,
    }
}

/// From the first line feed on.
fn from_feed(source: &str) -> &str
    ensures { chars result.now ≡ from_feed (chars source.now) }
{
    let mut rest = source;
    'chars: while let Some((c, after)) = split_first_char(rest) {
        if c == '\n' {
            return rest;
        }
        rest = after;
    }
    rest
}

/// The source without what stands in its first line, where that is for a shell.
fn without_script(source: &str) -> &str
    ensures { chars result.now ≡ without_script (chars source.now) }
{
    if is_script(source) {
        from_feed(source)
    } else {
        source
    }
}

/// Writes a carriage return that waited, unless a line feed follows, and the character, unless it is one that waits.
fn push_read(text: &mut String, waits: bool, c: char) -> Result<(), AllocError>
    ensures { OnOk result (string_bytes text.new
        ≡ string_bytes text.old ++ encode_utf8_all (written_at waits c)) }
{
    if waits && c != '\n' {
        text.push('\r')?;
    }
    if c != '\r' {
        text.push(c)?;
    }
    Ok(())
}

/// The source with a line feed for each carriage return and line feed.
fn with_feeds(alloc: Global, source: &str) -> Result<Text, AllocError>
    ensures { IfOk result (λ text. text ≡ encode_utf8_all (with_feeds (chars source.now))) }
{
    let mut text = String::new(alloc);
    let mut waits = false;
    for c in source.chars() {
        push_read(&mut text, waits, c)?;
        waits = c == '\r';
    }
    if waits {
        text.push('\r')?;
    }
    Ok(Text::from(text))
}

/// Whether a carriage return is among the bytes.
fn has_return(bytes: &[u8]) -> bool
    ensures { result ≡ list_any (λ b. b == 13) bytes.now }
{
    let mut rest = bytes;
    'bytes: while let [first, after @ ..] = rest {
        if *first == b'\r' {
            return true;
        }
        rest = after;
    }
    false
}

/// The text that rustc reads in a file of this source: without a byte order mark at the front, with an empty first line where
/// that is `#!..` for a shell, and with LF for each CR LF. Each line has the number that it has in the file, and each
/// character the column.
#[tactic(auto, unfolding(crate::specs::FileTexts::text_of_file), using(crate::proofs::Feeds::none_left_out))]
pub fn file_text(alloc: Global, source: &str) -> Result<Text, AllocError>
    ensures { IfOk result (λ text. text ≡ text_of_file source.now) }
{
    let text = without_script(without_mark(source));
    if has_return(text.as_bytes()) {
        with_feeds(alloc, text)
    } else {
        // Most files have none, and are copied as they are.
        Text::new(alloc, text)
    }
}
