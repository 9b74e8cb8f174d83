//! Variants of enums.

ghost use Rattle.std.specs.Prelude.{◌≡◌, ◌<◌, ◌≤◌, length, map, IfOk};
ghost use Rattle.std.specs.Option.{option_map};
ghost use Rattle.tokens.specs.Trees.{trees_view};
ghost use Rattle.words.specs.Words.{words_of, words_view};
ghost use Rattle.words.specs.Reading.{Gives};
ghost use Rattle.type_grammar.specs.Opening.{most_levels};
ghost use Rattle.type_grammar.specs.Reading.{type_at};
ghost use Rattle.words.specs.Lists.{list_of};
ghost use Rattle.syntax.specs.Items.{variant_view};
ghost use Rattle.syntax.specs.ItemWords.{before_comma, from_comma};
ghost use Rattle.syntax.specs.ItemDepth.{within_levels};
ghost use Rattle.syntax.specs.ItemReading.{discriminant_at, variant_at, enum_body_at};

use crate::fields::fields_at;
use crate::item::Variant;
use crate::scope::{is_comma, spanning};
use crate::where_clause::after_where;
use attributes::attributes_at;
use std::alloc::Global;
use texts::List;
use tokens::{Bracket, Group, TokenTree, copy_trees};
use words::{
    ReadItem, Sign, Stop, group_at, ident_of, is_end, list_inside, name_at, optional_sign, stop_at,
};

/// The first comma, and what follows it.
fn from_comma(trees: &[TokenTree]) -> &[TokenTree]
    ensures value { words_view result.now ≡ from_comma (words_view trees.now) }
    ensures shorter { length result.now ≤ length trees.now }
{
    let mut rest = trees;
    'trees: while let [first, after @ ..] = rest {
        if is_comma(first) {
            return rest;
        }
        rest = after;
    }
    rest
}

/// What stands before the first comma, and from it on.
fn split_at_comma(trees: &[TokenTree]) -> (&[TokenTree], &[TokenTree])
    ensures before { words_view result.0.now ≡ before_comma (words_view trees.now) }
    ensures from { words_view result.1.now ≡ from_comma (words_view trees.now) }
    ensures shorter { length result.1.now ≤ length trees.now }
{
    let rest = from_comma(trees);
    (&trees[..trees.len() - rest.len()], rest)
}

/// What stands behind `=` up to the next comma, if the trees begin with `=`.
#[tactic(auto, unfolding(crate::specs::ItemReading::discriminant_at))]
fn discriminant_at(
    alloc: Global,
    trees: &[TokenTree],
) -> Result<(Option<List<TokenTree>>, &[TokenTree]), Stop>
    ensures value { Gives (λ p. (option_map words_view p.0, words_view p.1.now)) result
        (discriminant_at (words_view trees.now)) }
    ensures shorter { IfOk result (λ p. length p.1.now ≤ length trees.now) }
{
    match optional_sign(trees, Sign::Equals) {
        Some((_, behind)) => {
            let (value, rest) = split_at_comma(behind);
            if is_end(value) {
                return Err(stop_at(rest));
            }
            Ok((Some(copy_trees(alloc, value)?), rest))
        }
        None => Ok((None, trees)),
    }
}

/// How variants are read.
struct EnumVariant;

impl ReadItem for EnumVariant {
    ghost use Rattle.type_grammar.specs.Opening.{most_levels};
    ghost use Rattle.type_grammar.specs.Reading.{type_at};
    ghost use Rattle.syntax.specs.Items.{VariantItem, variant_view};
    ghost use Rattle.syntax.specs.ItemReading.{variant_at};

    type Item = Variant;

    ghost Form = { VariantItem };

    ghost form_of = { variant_view };

    ghost reader = { variant_at (type_at most_levels) };

    #[tactic(auto, unfolding(crate::specs::ItemReading::variant_at))]
    fn item_at(alloc: Global, trees: &[TokenTree]) -> Result<(Variant, &[TokenTree]), Stop> {
        let (attrs, start) = attributes_at(alloc, trees)?;
        let (name, rest) = name_at(start)?;
        let (fields, rest) = fields_at(alloc, rest)?;
        let (discriminant, rest) = discriminant_at(alloc, rest)?;
        let span = spanning(start, rest);
        let ident = ident_of(alloc, name)?;
        Ok((
            Variant {
                attrs,
                ident,
                fields,
                discriminant,
                span,
            },
            rest,
        ))
    }
}

/// The variants inside of the group.
fn variants_inside(alloc: Global, group: &Group) -> Result<List<Variant>, Stop>
    ensures { Gives (λ variants. map variant_view variants) result
        (list_of (variant_at (type_at most_levels)) (words_of (trees_view group.now.trees))) }
{
    list_inside::<EnumVariant>(alloc, group)
}

/// What follows the name and the generics of an enum: the where clause, and the variants in braces.
#[tactic(auto, unfolding(crate::specs::ItemReading::enum_body_at))]
pub(crate) fn enum_body_at(
    alloc: Global,
    trees: &[TokenTree],
) -> Result<(List<Variant>, &[TokenTree]), Stop>
    ensures value { Gives (λ p. (map variant_view p.0, words_view p.1.now)) result
        (enum_body_at within_levels (words_view trees.now)) }
    ensures shorter { IfOk result (λ p. length p.1.now < length trees.now) }
{
    let rest = after_where(alloc, trees)?;
    let (group, rest) = group_at(rest, Bracket::Curly)?;
    let variants = variants_inside(alloc, group)?;
    Ok((variants, rest))
}
