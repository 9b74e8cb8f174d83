//! The texts that are keywords.

ghost use Rattle.std.specs.Prelude.{◌≡◌, ◌∷◌, [], true, Some};
ghost use Rattle.words.specs.Words.{begins_small, is_among, is_reserved, keyword_of, sign_of, reserved_of_2, reserved_of_3, reserved_of_4, reserved_of_5, reserved_of_6, reserved_of_7, reserved_of_8};

use crate::vocabulary::{Keyword, Sign};

fn is_reserved_of_2(text: &str) -> bool
    ensures { result ≡ is_among text.now reserved_of_2 }
{
    matches!(text, "as" | "do" | "fn" | "if" | "in")
}

fn is_reserved_of_3(text: &str) -> bool
    ensures { result ≡ is_among text.now reserved_of_3 }
{
    matches!(
        text,
        "box" | "dyn" | "for" | "let" | "mod" | "mut" | "pub" | "ref" | "try" | "use"
    )
}

fn is_reserved_of_4(text: &str) -> bool
    ensures { result ≡ is_among text.now reserved_of_4 }
{
    matches!(
        text,
        "else" | "enum" | "impl" | "loop" | "move" | "priv" | "self" | "Self" | "true" | "type"
    )
}

fn is_reserved_of_5(text: &str) -> bool
    ensures { result ≡ is_among text.now reserved_of_5 }
{
    matches!(
        text,
        "async"
            | "await"
            | "break"
            | "const"
            | "crate"
            | "false"
            | "final"
            | "macro"
            | "match"
            | "super"
            | "trait"
            | "where"
            | "while"
            | "yield"
    )
}

fn is_reserved_of_6(text: &str) -> bool
    ensures { result ≡ is_among text.now reserved_of_6 }
{
    matches!(
        text,
        "become" | "extern" | "return" | "static" | "struct" | "typeof" | "unsafe"
    )
}

fn is_reserved_of_7(text: &str) -> bool
    ensures { result ≡ is_among text.now reserved_of_7 }
{
    matches!(text, "unsized" | "virtual")
}

fn is_reserved_of_8(text: &str) -> bool
    ensures { result ≡ is_among text.now reserved_of_8 }
{
    matches!(text, "abstract" | "continue" | "override")
}

/// Whether the text is one of the keywords of its length.
fn is_reserved_of_length(text: &str) -> bool
    ensures { result ≡ is_reserved text.now }
{
    match text.len() {
        2 => is_reserved_of_2(text),
        3 => is_reserved_of_3(text),
        4 => is_reserved_of_4(text),
        5 => is_reserved_of_5(text),
        6 => is_reserved_of_6(text),
        7 => is_reserved_of_7(text),
        8 => is_reserved_of_8(text),
        _ => false,
    }
}

/// Whether the text begins with a small letter, as each keyword but `Self` does.
fn begins_small(text: &str) -> bool
    ensures { result ≡ begins_small text.now }
{
    match text.as_bytes() {
        [first, ..] => first.is_ascii_lowercase(),
        [] => false,
    }
}

/// Whether the text is a keyword.
fn is_reserved(text: &str) -> bool
    ensures { result ≡ is_reserved text.now }
{
    if begins_small(text) {
        is_reserved_of_length(text)
    } else {
        text == "Self"
    }
}

/// The keyword that the text is, which is one.
#[tactic(auto, unfolding(crate::specs::Words::keyword_of))]
fn reserved_keyword(text: &str) -> Keyword
    requires { is_reserved text.now ≡ true }
    ensures { keyword_of text.now ≡ Some result }
{
    match text {
        "pub" => Keyword::Pub,
        "struct" => Keyword::Struct,
        "enum" => Keyword::Enum,
        "use" => Keyword::Use,
        "mut" => Keyword::Mut,
        "dyn" => Keyword::Dyn,
        "in" => Keyword::In,
        "crate" => Keyword::Crate,
        "self" => Keyword::SelfValue,
        "super" => Keyword::Super,
        "Self" => Keyword::SelfType,
        "true" => Keyword::True,
        "false" => Keyword::False,
        "const" => Keyword::Const,
        "where" => Keyword::Where,
        _ => Keyword::Other,
    }
}

/// The keyword that the text is, if it is one.
pub(crate) fn keyword_of(text: &str) -> Option<Keyword>
    ensures { result ≡ keyword_of text.now }
{
    if is_reserved(text) {
        Some(reserved_keyword(text))
    } else {
        None
    }
}

/// The sign of one character that the byte is.
#[tactic(auto, unfolding(crate::specs::Words::sign_of))]
fn sign_of_byte(byte: u8) -> Sign
    ensures { result ≡ sign_of (byte ∷ []) }
{
    match byte {
        b'!' => Sign::Exclamation,
        b'#' => Sign::Hash,
        b'$' => Sign::Dollar,
        b'%' => Sign::Percent,
        b'&' => Sign::Ampersand,
        b'*' => Sign::Star,
        b'+' => Sign::Plus,
        b',' => Sign::Comma,
        b'-' => Sign::Minus,
        b'.' => Sign::Dot,
        b'/' => Sign::Slash,
        b':' => Sign::Colon,
        b';' => Sign::Semicolon,
        b'<' => Sign::Less,
        b'=' => Sign::Equals,
        b'>' => Sign::Greater,
        b'?' => Sign::Question,
        b'@' => Sign::At,
        b'^' => Sign::Caret,
        b'|' => Sign::Bar,
        b'~' => Sign::Tilde,
        _ => Sign::Other,
    }
}

/// The sign that the text is.
#[tactic(auto, unfolding(crate::specs::Words::sign_of))]
pub(crate) fn sign_of(text: &str) -> Sign
    ensures { result ≡ sign_of text.now }
{
    match text.as_bytes() {
        [byte] => sign_of_byte(*byte),
        _ => {
            if text == "::" {
                Sign::Colons
            } else {
                Sign::Other
            }
        }
    }
}
