ghost use Rattle.std.specs.Prelude.{◌≡◌, IfOk, option_map, chars};
ghost use Rattle.literal_values.specs.Values.{string_value, truth_value, text_value, value_of};

use crate::numbers::whole_value;
use crate::strings::string_value;
use std::alloc::{AllocError, Global};
use texts::Text;
use tokens::{Token, TokenKind};

/// What a literal stands for. `true` and `false` are literals here.
#[derive(Debug, Drop, PartialEq, Eq)]
pub enum LiteralValue {
    Text(Text),
    Number(u64),
    Bool(bool),
}

/// The value of a token: the text of a string with its escapes decoded, a whole number below 2^64, or a truth value.
/// `None` for any other token: strings with the prefix `b` or `c` or with a suffix, other numbers, and `r#true`.
pub fn literal_value(alloc: Global, token: &Token) -> Result<Option<LiteralValue>, AllocError>
    ensures { IfOk result (λ value. value ≡ value_of token.now) }
{
    let text = token.text.as_str();
    match token.kind {
        TokenKind::Ident => Ok(truth_value(text).map(LiteralValue::Bool)),
        TokenKind::Literal => match string_value(alloc, text)? {
            Some(value) => Ok(Some(LiteralValue::Text(value))),
            None => Ok(whole_value(text).map(LiteralValue::Number)),
        },
        _ => Ok(None),
    }
}

/// The value of a string, with its escapes decoded. `None` for any other token.
pub fn text_value(alloc: Global, token: &Token) -> Result<Option<Text>, AllocError>
    ensures { IfOk result (λ value. value ≡ text_value token.now) }
{
    match token.kind {
        TokenKind::Literal => string_value(alloc, token.text.as_str()),
        _ => Ok(None),
    }
}

fn truth_value(text: &str) -> Option<bool>
    ensures { result ≡ truth_value text.now }
{
    match text {
        "true" => Some(true),
        "false" => Some(false),
        _ => None,
    }
}
