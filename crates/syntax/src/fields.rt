//! Fields of structs and of variants.

ghost use Rattle.std.specs.Prelude.{◌<◌, ◌≤◌, length, map, IfOk};
ghost use Rattle.tokens.specs.Trees.{trees_view};
ghost use Rattle.words.specs.Words.{words_of, words_view};
ghost use Rattle.words.specs.Reading.{Gives};
ghost use Rattle.type_grammar.specs.Opening.{most_levels};
ghost use Rattle.type_grammar.specs.Reading.{type_at};
ghost use Rattle.words.specs.Lists.{list_of};
ghost use Rattle.syntax.specs.Items.{field_view, fields_view};
ghost use Rattle.syntax.specs.ItemReading.{named_field_at, unnamed_field_at, fields_at};

use crate::item::{Field, Fields};
use crate::scope::{after_visibility, spanning};
use attributes::attributes_at;
use std::alloc::Global;
use texts::List;
use tokens::{Bracket, Group, TokenTree};
use type_grammar::{MAX_LEVELS, type_at};
use words::{ReadItem, Sign, Stop, ident_of, list_inside, name_at, sign_at, stop_at};

/// How fields with names are read.
struct NamedField;

impl ReadItem for NamedField {
    ghost use Rattle.type_grammar.specs.Opening.{most_levels};
    ghost use Rattle.type_grammar.specs.Reading.{type_at};
    ghost use Rattle.syntax.specs.Items.{FieldItem, field_view};
    ghost use Rattle.syntax.specs.ItemReading.{named_field_at};

    type Item = Field;

    ghost Form = { FieldItem };

    ghost form_of = { field_view };

    ghost reader = { named_field_at (type_at most_levels) };

    #[tactic(auto, unfolding(crate::specs::ItemReading::named_field_at))]
    fn item_at(alloc: Global, trees: &[TokenTree]) -> Result<(Field, &[TokenTree]), Stop> {
        let (attrs, start) = attributes_at(alloc, trees)?;
        let (name, rest) = name_at(after_visibility(start, false))?;
        let (_, rest) = sign_at(rest, Sign::Colon)?;
        let (ty, rest) = type_at(alloc, rest, MAX_LEVELS)?;
        let span = spanning(start, rest);
        let ident = Some(ident_of(alloc, name)?);
        Ok((
            Field {
                attrs,
                ident,
                ty,
                span,
            },
            rest,
        ))
    }
}

/// How fields without names are read.
struct UnnamedField;

impl ReadItem for UnnamedField {
    ghost use Rattle.type_grammar.specs.Opening.{most_levels};
    ghost use Rattle.type_grammar.specs.Reading.{type_at};
    ghost use Rattle.syntax.specs.Items.{FieldItem, field_view};
    ghost use Rattle.syntax.specs.ItemReading.{unnamed_field_at};

    type Item = Field;

    ghost Form = { FieldItem };

    ghost form_of = { field_view };

    ghost reader = { unnamed_field_at (type_at most_levels) };

    #[tactic(auto, unfolding(crate::specs::ItemReading::unnamed_field_at))]
    fn item_at(alloc: Global, trees: &[TokenTree]) -> Result<(Field, &[TokenTree]), Stop> {
        let (attrs, start) = attributes_at(alloc, trees)?;
        let (ty, rest) = type_at(alloc, after_visibility(start, true), MAX_LEVELS)?;
        let span = spanning(start, rest);
        Ok((
            Field {
                attrs,
                ident: None,
                ty,
                span,
            },
            rest,
        ))
    }
}

/// The fields inside of the group.
fn named_inside(alloc: Global, group: &Group) -> Result<List<Field>, Stop>
    ensures { Gives (λ fields. map field_view fields) result
        (list_of (named_field_at (type_at most_levels)) (words_of (trees_view group.now.trees))) }
{
    list_inside::<NamedField>(alloc, group)
}

/// The fields inside of the group.
fn unnamed_inside(alloc: Global, group: &Group) -> Result<List<Field>, Stop>
    ensures { Gives (λ fields. map field_view fields) result
        (list_of (unnamed_field_at (type_at most_levels)) (words_of (trees_view group.now.trees))) }
{
    list_inside::<UnnamedField>(alloc, group)
}

/// What follows the name of a struct or of a variant.
#[tactic(auto, unfolding(crate::specs::ItemReading::fields_at))]
pub(crate) fn fields_at(alloc: Global, trees: &[TokenTree]) -> Result<(Fields, &[TokenTree]), Stop>
    ensures value { Gives (λ p. (fields_view p.0, words_view p.1.now)) result
        (fields_at (type_at most_levels) (words_view trees.now)) }
    ensures shorter { IfOk result (λ p. length p.1.now ≤ length trees.now) }
{
    match trees {
        [TokenTree::Group(group), rest @ ..] => match group.bracket {
            Bracket::Curly => Ok((Fields::Named(named_inside(alloc, group)?), rest)),
            Bracket::Round => Ok((Fields::Unnamed(unnamed_inside(alloc, group)?), rest)),
            Bracket::Square => Err(stop_at(trees)),
        },
        _ => Ok((Fields::Unit, trees)),
    }
}
