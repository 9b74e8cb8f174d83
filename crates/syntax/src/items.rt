//! Items: structs, enums and `use` lines.

ghost use Rattle.std.specs.Prelude.{◌<◌, ◌≤◌, length, map, IfOk};
ghost use Rattle.std.specs.Option.{option_map};
ghost use Rattle.words.specs.Words.{words_view};
ghost use Rattle.words.specs.Reading.{Gives};
ghost use Rattle.syntax.specs.Items.{head_view, declaration_view};
ghost use Rattle.syntax.specs.ItemDepth.{within_levels};
ghost use Rattle.syntax.specs.ItemReading.{struct_at, enum_at, declaration_at, item_at, items_at};

use crate::generics::generics_at;
use crate::item::{Body, Declaration, Head};
use crate::scope::{after_visibility, spanning};
use crate::struct_body::struct_body_at;
use crate::variants::enum_body_at;
use attributes::attributes_at;
use std::alloc::Global;
use texts::List;
use tokens::TokenTree;
use words::{Keyword, Stop, after_semicolon, ident_of, keyword_at, name_at, optional_keyword};

/// The name, the generics and the fields of a struct.
#[tactic(auto, unfolding(crate::specs::ItemReading::struct_at))]
fn struct_at(alloc: Global, trees: &[TokenTree]) -> Result<(Head, &[TokenTree]), Stop>
    ensures value { Gives (λ p. (head_view p.0, words_view p.1.now)) result
        (struct_at within_levels (words_view trees.now)) }
    ensures shorter { IfOk result (λ p. length p.1.now < length trees.now) }
{
    let (_, rest) = keyword_at(trees, Keyword::Struct)?;
    let (name, rest) = name_at(rest)?;
    let (generics, rest) = generics_at(alloc, rest)?;
    let (fields, rest) = struct_body_at(alloc, rest)?;
    let ident = ident_of(alloc, name)?;
    Ok((
        Head {
            ident,
            generics,
            body: Body::Struct(fields),
        },
        rest,
    ))
}

/// The name, the generics and the variants of an enum.
#[tactic(auto, unfolding(crate::specs::ItemReading::enum_at))]
fn enum_at(alloc: Global, trees: &[TokenTree]) -> Result<(Head, &[TokenTree]), Stop>
    ensures value { Gives (λ p. (head_view p.0, words_view p.1.now)) result
        (enum_at within_levels (words_view trees.now)) }
    ensures shorter { IfOk result (λ p. length p.1.now < length trees.now) }
{
    let (_, rest) = keyword_at(trees, Keyword::Enum)?;
    let (name, rest) = name_at(rest)?;
    let (generics, rest) = generics_at(alloc, rest)?;
    let (variants, rest) = enum_body_at(alloc, rest)?;
    let ident = ident_of(alloc, name)?;
    Ok((
        Head {
            ident,
            generics,
            body: Body::Enum(variants),
        },
        rest,
    ))
}

/// The name, the generics and the body of a struct or, where no `struct` stands, of an enum.
#[tactic(auto, unfolding(crate::specs::ItemReading::declaration_at))]
fn declaration_at(alloc: Global, trees: &[TokenTree]) -> Result<(Head, &[TokenTree]), Stop>
    ensures value { Gives (λ p. (head_view p.0, words_view p.1.now)) result
        (declaration_at within_levels (words_view trees.now)) }
    ensures shorter { IfOk result (λ p. length p.1.now < length trees.now) }
{
    match optional_keyword(trees, Keyword::Struct) {
        Some(_) => struct_at(alloc, trees),
        None => enum_at(alloc, trees),
    }
}

/// A `use` line, of which nothing is kept, or a declaration.
#[tactic(auto, unfolding(crate::specs::ItemReading::item_at))]
fn item_at(alloc: Global, trees: &[TokenTree]) -> Result<(Option<Declaration>, &[TokenTree]), Stop>
    ensures value { Gives (λ p. (option_map declaration_view p.0, words_view p.1.now)) result
        (item_at within_levels (words_view trees.now)) }
    ensures shorter { IfOk result (λ p. length p.1.now < length trees.now) }
{
    let (attrs, start) = attributes_at(alloc, trees)?;
    let rest = after_visibility(start, false);
    match optional_keyword(rest, Keyword::Use) {
        Some((_, line)) => match after_semicolon(line) {
            Some(rest) => Ok((None, rest)),
            None => Err(Stop::Ended),
        },
        None => {
            let (head, rest) = declaration_at(alloc, rest)?;
            let Head {
                ident,
                generics,
                body,
            } = head;
            let span = spanning(start, rest);
            Ok((
                Some(Declaration {
                    attrs,
                    ident,
                    generics,
                    body,
                    span,
                }),
                rest,
            ))
        }
    }
}

/// All of the trees, as items.
pub(crate) fn items_of(alloc: Global, trees: &[TokenTree]) -> Result<List<Declaration>, Stop>
    ensures { Gives (λ items. map declaration_view items) result
        (items_at within_levels (words_view trees.now)) }
{
    let mut items = List::new(alloc);
    let mut rest = trees;
    'items: while !rest.is_empty() {
        let (item, after) = item_at(alloc, rest)?;
        if let Some(declaration) = item {
            items.push(declaration)?;
        }
        rest = after;
    }
    Ok(items)
}
