//! Characters and runs of them at the front of a text.

ghost use Rattle.std.specs.Prelude.{◌≡◌, ◌<◌, ◌≤◌, ◌∷◌, [], ℕ, Bool, length, chars, MatchOption};
ghost use Rattle.std.specs.Str.{IsUtf8};
ghost use Rattle.literals.specs.Literals.{is_digit, is_hex_digit, starts_name};
ghost use Rattle.literals.specs.Scanning.{begins_with, skip};

/// What goes on with a run of characters.
pub trait Run {
    ghost passes: { Self → ℕ → Bool };

    fn continues(&self, c: char) -> bool
        ensures { result ≡ passes self.now c };
}

/// What a run of characters in a literal is part of.
#[derive(Clone, Copy)]
pub enum LiteralRun {
    Word,
    Digits,
}

impl Run for LiteralRun {
    ghost use Rattle.literals.specs.Scanning.{continues as continues_run};

    ghost passes = { continues_run };

    fn continues(&self, c: char) -> bool {
        match self {
            LiteralRun::Word => unicode_ident::is_xid_continue(c),
            LiteralRun::Digits => is_digit(c),
        }
    }
}

/// The first character, and what follows it; `None` where the text is empty.
pub fn split_first_char(text: &str) -> Option<(char, &str)>
    ensures { MatchOption result (chars text.now ≡ [])
        (λ p. (chars text.now ≡ p.0 ∷ chars p.1.now)
        × (length p.1.now < length text.now) × IsUtf8 p.1.now) }
{
    let mut chars = text.chars();
    match chars.next() {
        Some(c) => Some((c, chars.as_str())),
        None => None,
    }
}

pub fn is_digit(c: char) -> bool
    ensures { result ≡ is_digit c }
{
    c.is_ascii_digit()
}

pub fn is_hex_digit(c: char) -> bool
    ensures { result ≡ is_hex_digit c }
{
    c.is_digit(16)
}

pub fn starts_name(c: char) -> bool
    ensures { result ≡ starts_name c }
{
    (c == '_') | unicode_ident::is_xid_start(c)
}

pub fn begins_with_digit(text: &str) -> bool
    ensures { result ≡ begins_with is_digit (chars text.now) }
{
    match split_first_char(text) {
        Some((c, _)) => is_digit(c),
        None => false,
    }
}

pub fn begins_with_hex_digit(text: &str) -> bool
    ensures { result ≡ begins_with is_hex_digit (chars text.now) }
{
    match split_first_char(text) {
        Some((c, _)) => is_hex_digit(c),
        None => false,
    }
}

/// What follows the characters at the front that continue the run.
pub fn after_run<'t, R: Run>(run: &R, text: &'t str) -> &'t str
    ensures value { chars result.now ≡ skip (R.passes run.now) (chars text.now) }
    ensures shorter { length result.now ≤ length text.now }
    ensures utf8 { IsUtf8 result.now }
{
    let mut rest = text;
    'run: loop {
        match split_first_char(rest) {
            Some((c, after)) if run.continues(c) => rest = after,
            _ => return rest,
        }
    }
}
