//! Formats that stand in attributes.

ghost use Rattle.std.specs.Prelude.{◌≡◌, ◌⊎◌, Some, None, option_map, IfOk};
ghost use Rattle.diag.specs.Refusal.{Refuses};
ghost use Rattle.tokens.specs.Trees.{tree_view, trees_view};
ghost use Rattle.type_tree.specs.Formats.{format_named, token_format, format_value, only_token, tree_span, trees_span, format_message, token_message, unexpected_value, IsRefusedFormat};

use crate::known_format::KnownFormat;
use diag::{DeriveError, Kind};
use literal_values::{LiteralValue, literal_value};
use std::alloc::{AllocError, Global};
use texts::{Span, Text};
use tokens::{Token, TokenKind, TokenTree};
use words::{covering, ident_of};
use written_types::Ident;

impl KnownFormat {
    /// The format of the trees after `format =`: one identifier, perhaps raw, that is the name of a format from `Int32`
    /// to `Regex`, or one string, whose text is the format.
    ///
    /// Anything else is refused as `BadValue`: another identifier at its bytes with the names, and other trees from the
    /// first to the last, or at the attribute where there is none.
    pub fn parse(
        alloc: Global,
        trees: &[TokenTree],
        attribute: &Ident,
    ) -> Result<KnownFormat, DeriveError>
        ensures found { IfOk result (λ format. format_value (trees_view trees.now) ≡ Some format) }
        ensures refused { Refuses result
            (λ e. ((format_value (trees_view trees.now) ≡ None)
            × IsRefusedFormat (trees_view trees.now) attribute.now e)) }
    {
        match format_of_trees(alloc, trees)? {
            Some(format) => Ok(format),
            None => Err(bad_value(alloc, trees, attribute)),
        }
    }

    /// The format of the name; `None` where no format from `Int32` to `Regex` has it.
    fn named(name: &str) -> Option<KnownFormat>
        ensures { result ≡ format_named name.now }
    {
        match name {
            "Int32" => Some(KnownFormat::Int32),
            "Int64" => Some(KnownFormat::Int64),
            "Float" => Some(KnownFormat::Float),
            "Double" => Some(KnownFormat::Double),
            "Byte" => Some(KnownFormat::Byte),
            "Binary" => Some(KnownFormat::Binary),
            "Date" => Some(KnownFormat::Date),
            "DateTime" => Some(KnownFormat::DateTime),
            "Duration" => Some(KnownFormat::Duration),
            "Password" => Some(KnownFormat::Password),
            "Email" => Some(KnownFormat::Email),
            "IdnEmail" => Some(KnownFormat::IdnEmail),
            "Hostname" => Some(KnownFormat::Hostname),
            "IdnHostname" => Some(KnownFormat::IdnHostname),
            "Ipv4" => Some(KnownFormat::Ipv4),
            "Ipv6" => Some(KnownFormat::Ipv6),
            "UriTemplate" => Some(KnownFormat::UriTemplate),
            "JsonPointer" => Some(KnownFormat::JsonPointer),
            "RelativeJsonPointer" => Some(KnownFormat::RelativeJsonPointer),
            "Regex" => Some(KnownFormat::Regex),
            _ => None,
        }
    }
}

/// The token where there is one tree, and it is a token.
#[tactic(auto, using(crate::proofs::AttributeTrees::many_are_no_token))]
fn only_token(trees: &[TokenTree]) -> Option<&Token>
    ensures { option_map (λ token. token.now) result ≡ only_token (trees_view trees.now) }
{
    match trees {
        [TokenTree::Token(token)] => Some(token),
        [TokenTree::Group(_)] => None,
        [] => None,
        [_, _, ..] => None,
    }
}

/// The format that the trees stand for.
fn format_of_trees(alloc: Global, trees: &[TokenTree]) -> Result<Option<KnownFormat>, AllocError>
    ensures { IfOk result (λ format. format ≡ format_value (trees_view trees.now)) }
{
    match only_token(trees) {
        Some(token) => format_of_token(alloc, token),
        None => Ok(None),
    }
}

/// The format that the token stands for.
fn format_of_token(alloc: Global, token: &Token) -> Result<Option<KnownFormat>, AllocError>
    ensures { IfOk result (λ format. format ≡ token_format token.now.kind token.now) }
{
    match token.kind {
        TokenKind::Ident => {
            let name = ident_of(alloc, token)?;
            Ok(KnownFormat::named(name.text.as_str()))
        }
        TokenKind::Literal => match literal_value(alloc, token)? {
            Some(LiteralValue::Text(text)) => Ok(Some(KnownFormat::Custom(text))),
            _ => Ok(None),
        },
        _ => Ok(None),
    }
}

/// The refusal of the trees, or want of memory.
fn bad_value(alloc: Global, trees: &[TokenTree], attribute: &Ident) -> DeriveError
    ensures { (result ≡ DeriveError.Memory)
        ⊎ IsRefusedFormat (trees_view trees.now) attribute.now result }
{
    let span = span_of_trees(trees, attribute.span);
    match message_of(alloc, trees, attribute) {
        Ok(message) => DeriveError::refusal(alloc, Kind::BadValue, span, message.as_str()),
        Err(error) => DeriveError::from(error),
    }
}

/// What the refusal of the trees tells.
fn message_of(alloc: Global, trees: &[TokenTree], attribute: &Ident) -> Result<Text, AllocError>
    ensures { IfOk result
        (λ message. message ≡ format_message (only_token (trees_view trees.now))
        attribute.now.text) }
{
    match only_token(trees) {
        Some(token) => message_of_token(alloc, token, attribute),
        None => unexpected_value(alloc, attribute),
    }
}

/// What the refusal of the token tells.
fn message_of_token(alloc: Global, token: &Token, attribute: &Ident) -> Result<Text, AllocError>
    ensures { IfOk result
        (λ message. message ≡ token_message token.now.kind token.now attribute.now.text) }
{
    match token.kind {
        TokenKind::Ident => {
            let name = ident_of(alloc, token)?;
            let mut message = Text::new(alloc, "unexpected format: ")?;
            message.push(name.text.as_str())?;
            message.push(
                ", expected one of: Int32, Int64, Float, Double, Byte, Binary, Date, DateTime, Duration, Password, Email, IdnEmail, Hostname, IdnHostname, Ipv4, Ipv6, UriTemplate, JsonPointer, RelativeJsonPointer, Regex",
            )?;
            Ok(message)
        }
        _ => unexpected_value(alloc, attribute),
    }
}

/// What the refusal of anything but an identifier tells.
fn unexpected_value(alloc: Global, attribute: &Ident) -> Result<Text, AllocError>
    ensures { IfOk result (λ message. message ≡ unexpected_value attribute.now.text) }
{
    let message = format!(in alloc; "unexpected value of {}", attribute.text.as_str())?;
    Ok(Text::from(message))
}

/// The bytes of the tree, a group's with its brackets.
fn span_of(tree: &TokenTree) -> Span
    ensures { result ≡ tree_span (tree_view tree.now) }
{
    match tree {
        TokenTree::Token(token) => token.span,
        TokenTree::Group(group) => group.span,
    }
}

/// The bytes from the first tree to the last, or the other span where there is no tree.
#[tactic(auto, using(crate::proofs::AttributeTrees::span_from_first_to_last))]
fn span_of_trees(trees: &[TokenTree], none: Span) -> Span
    ensures { result ≡ trees_span (trees_view trees.now) none }
{
    match trees {
        [] => none,
        [tree] => span_of(tree),
        [first, .., last] => covering(span_of(first), span_of(last)),
    }
}
