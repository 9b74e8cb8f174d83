//! What the reader may do about a text that is no file of Rust.

ghost use Rattle.std.specs.Prelude.{◌≡◌, ℕ, List as AnyList, None, IfOk};
ghost use Rattle.lexing.specs.Open.{IsOpenBracket};
ghost use Rattle.gathering.specs.Stops.{bracket_text, open_help, unclosed_help, IsSyntaxHelp, IsKindHelp, IsHelpOfStop};

use diag::{DeriveError, Diagnostics, Kind};
use lexing::{OpenBracket, lex, open_bracket};
use std::alloc::{AllocError, Global};
use telling::{place, place_text};
use texts::Text;
use tokens::Bracket;

/// How the bracket opens.
fn bracket_text(bracket: Bracket) -> &'static str
    ensures { result.now ≡ bracket_text bracket }
{
    match bracket {
        Bracket::Round => "(",
        Bracket::Square => "[",
        Bracket::Curly => "{",
    }
}

/// That the bracket of the text is open, which is that of the file of the name.
fn open_help(
    alloc: Global,
    name: &str,
    text: &str,
    bracket: OpenBracket,
) -> Result<Text, AllocError>
    ensures { IfOk result (λ help. help ≡ open_help name.now text.now bracket) }
{
    let position = place(text, bracket.span.start);
    let here = place_text(alloc, name, position.line, position.column)?;
    let help = format!(in alloc;
        "`{}` is open here: {}",
        bracket_text(bracket.bracket),
        here.as_str()
    )?;
    Ok(Text::from(help))
}

/// What opens where a text goes on with these bytes, which begin no piece.
fn unclosed_help(alloc: Global, rest: &[u8]) -> Result<Option<Text>, AllocError>
    ensures { IfOk result (λ help. help ≡ unclosed_help rest.now) }
{
    let help = if rest.strip_prefix(b"/*").is_some() {
        "a comment opens here, and is not closed"
    } else if rest.strip_prefix(b"\"").is_some() {
        "a string opens here, and is not closed or has an escape that Rust has not"
    } else {
        return Ok(None);
    };
    Ok(Some(Text::new(alloc, help)?))
}

/// What the reader may do about the text, where no bracket of it is open where it stops.
fn item_help(alloc: Global, text: &str) -> Result<Option<Text>, AllocError>
    ensures { IsOpenBracket text.now None → (name : AnyList ℕ)
        → IfOk result (IsSyntaxHelp name text.now) }
{
    match lex(alloc, text) {
        Ok(_) => Ok(Some(Text::new(alloc, "no item of Rust begins so")?)),
        Err(DeriveError::Refused(refusal)) => {
            let at = refusal.span().start.min(text.len());
            let (_, rest) = text.as_bytes().split_at(at);
            unclosed_help(alloc, rest)
        }
        Err(DeriveError::Memory) => Err(AllocError),
    }
}

/// What the reader may do about the text of the file of the name, which cannot be read.
fn syntax_help(alloc: Global, name: &str, text: &str) -> Result<Option<Text>, AllocError>
    ensures { IfOk result (IsSyntaxHelp name.now text.now) }
{
    match open_bracket(alloc, text)? {
        Some(bracket) => Ok(Some(open_help(alloc, name, text, bracket)?)),
        None => item_help(alloc, text),
    }
}

/// What the reader may do about it where it is refused with the kind.
fn kind_help(alloc: Global, name: &str, text: &str, kind: Kind) -> Result<Option<Text>, AllocError>
    ensures { IfOk result (IsKindHelp name.now text.now kind) }
{
    match kind {
        Kind::Syntax => syntax_help(alloc, name, text),
        _ => Ok(None),
    }
}

/// What the reader may do about the text of the file of the name, which is refused.
pub(crate) fn stop_help(
    alloc: Global,
    name: &str,
    text: &str,
    refusal: &Diagnostics,
) -> Result<Option<Text>, AllocError>
    ensures { IfOk result (IsHelpOfStop name.now text.now refusal.now) }
{
    kind_help(alloc, name, text, refusal.kind())
}
