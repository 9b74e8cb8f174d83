//! What a report shows of a text.

ghost use Rattle.std.specs.Prelude.{◌≡◌, ◌≤◌, ◌++◌, ◌∷◌, List as AnyList, ℕ, length, chars, encode_utf8_all, string_bytes, IfOk, OnOk};
ghost use Rattle.std.specs.Char.Escape.{escape_unicode};
ghost use Rattle.telling.specs.Printable.{is_command, shown, escaped, is_of_name, shown_name, shown_behind, printable};

use crate::part::text_of;
use std::alloc::{AllocError, Global};
use texts::Text;

/// How many characters of a name are shown of each of its ends, where it has more than twice as many.
const MOST_OF_AN_END: usize = 100;

/// Whether a terminal may take the character as a command: a control character but a tab and a line feed, or one that turns
/// the direction of text.
pub(crate) fn is_command(c: char) -> bool
    ensures { result ≡ is_command c }
{
    matches!(
        c,
        '\u{0}'..='\u{8}'
            | '\u{b}'..='\u{1f}'
            | '\u{7f}'..='\u{9f}'
            | '\u{202a}'..='\u{202e}'
            | '\u{2066}'..='\u{2069}'
    )
}

/// Whether the character may be one of a name.
fn is_of_name(c: char) -> bool
    ensures { result ≡ is_of_name c }
{
    c.is_ascii_alphanumeric() || c == '_' || (c >= '\u{80}' && !is_command(c))
}

/// Adds the character as it is shown.
fn push_shown(text: &mut String, c: char) -> Result<(), AllocError>
    ensures { OnOk result
        (string_bytes text.new ≡ string_bytes text.old ++ encode_utf8_all (shown c)) }
{
    if !is_command(c) {
        return text.push(c);
    }
    let mut escape = c.escape_unicode();
    'escape: while let Some(part) = escape.next() {
        text.push(part)?;
    }
    Ok(())
}

/// The text of the characters as they are shown.
pub(crate) fn escaped(alloc: Global, characters: &[char]) -> Result<Text, AllocError>
    ensures { IfOk result (λ text. text ≡ escaped characters.now) }
{
    let mut text = String::new(alloc);
    for c in characters {
        push_shown(&mut text, *c)?;
    }
    Ok(Text::from(text))
}

/// Adds the characters.
fn push_all(alloc: Global, text: &mut String, characters: &[char]) -> Result<(), AllocError>
    ensures { OnOk result
        (string_bytes text.new ≡ string_bytes text.old ++ encode_utf8_all characters.now) }
{
    let all = text_of(alloc, characters)?;
    text.push_str(all.as_str())
}

/// Adds the name as it is shown.
fn push_name(alloc: Global, text: &mut String, name: &[char]) -> Result<(), AllocError>
    ensures { OnOk result
        (string_bytes text.new ≡ string_bytes text.old ++ encode_utf8_all (shown_name name.now)) }
{
    if name.len() <= 2 * MOST_OF_AN_END {
        return push_all(alloc, text, name);
    }
    let (_, end) = name.split_at(name.len() - MOST_OF_AN_END);
    push_all(alloc, text, &name[..MOST_OF_AN_END])?;
    text.push('…')?;
    push_all(alloc, text, end)?;
    Ok(())
}

/// What is shown of the characters so far, and behind that those of a name that may go on.
#[derive(Drop)]
struct Printing {
    text: String,
    name: Vec<char>,
}

impl Printing {
    /// Adds the character.
    fn push(&mut self, alloc: Global, c: char) -> Result<(), AllocError>
        ensures { OnOk result ((rest : AnyList ℕ)
            → string_bytes self.new.text ++ encode_utf8_all (shown_behind self.new.name.items rest)
            ≡ string_bytes self.old.text
            ++ encode_utf8_all (shown_behind self.old.name.items (c ∷ rest))) }
    {
        if is_of_name(c) {
            self.name.push(c)?;
            return Ok(());
        }
        push_name(alloc, &mut self.text, self.name.as_slice())?;
        push_shown(&mut self.text, c)?;
        self.name.clear();
        Ok(())
    }
}

/// The text as a report shows it: control characters but a tab and a line feed, and those that turn the direction of text, as
/// Rust escapes them, and of a name of more than 200 characters the first hundred, `…` and the last hundred.
pub fn printable(alloc: Global, text: &str) -> Result<Text, AllocError>
    ensures { IfOk result (λ shown. shown ≡ printable text.now) }
{
    let mut printing = Printing {
        text: String::new(alloc),
        name: Vec::new(alloc),
    };
    for c in text.chars() {
        printing.push(alloc, c)?;
    }
    push_name(alloc, &mut printing.text, printing.name.as_slice())?;
    Ok(Text::from(printing.text))
}
