//! The names in the types of a declaration's fields.

ghost use Rattle.std.specs.Prelude.{◌≡◌, ◌^◌, ◌<◌, ◌-◌, ◌++◌, map, true, IfOk, OnOk};
ghost use Rattle.std.specs.List.{flat_map, list_any};
ghost use Rattle.tokens.specs.Trees.{tree_view};
ghost use Rattle.prepare.specs.declared.previous.Behind.TheVariants.{Other};
ghost use Rattle.prepare.specs.Fields.{is_comma, opened_after, from_comma, parts, is_skip, are_serde_skip, is_serde_skip, are_skipping, named_names, unnamed_names, field_names, content_names, variant_names, variants_names, declared_names};

use crate::attributes::{after_attributes, after_visibility};
use crate::ends::angles;
use crate::names::push_all_names;
use crate::previous::Behind;
use crate::trees::{before, inside, is_curly, is_round, is_sign, is_square, is_word};
use std::alloc::{AllocError, Global};
use texts::{List, Text};
use tokens::TokenTree;

/// Whether a part ends with the tree, inside of so many `<`.
pub(crate) fn is_comma(tree: &TokenTree, opened: usize) -> bool
    ensures { result ≡ is_comma opened (tree_view tree.now) }
{
    opened == 0 && is_sign(tree, ",")
}

/// How many `<` are open after the tree, which stands behind that, among types; else none.
fn opened_after(in_types: bool, tree: &TokenTree, was: Behind, opened: usize) -> usize
    requires { opened < 2 ^ 64 - 1 }
    ensures { result ≡ opened_after in_types was opened (tree_view tree.now) }
{
    if in_types {
        angles(tree, was, opened)
    } else {
        0
    }
}

/// The trees from the first `,` on, in types from the first outside of `<` and `>`.
fn from_comma(in_types: bool, trees: &[TokenTree]) -> &[TokenTree]
    ensures { map tree_view result.now ≡ from_comma in_types Other 0 (map tree_view trees.now) }
{
    let mut opened: usize = 0;
    let mut was = Behind::Other;
    let mut rest = trees;
    'trees: while let [first, after @ ..] = rest {
        if is_comma(first, opened) {
            return rest;
        }
        opened = opened_after(in_types, first, was, opened);
        was = was.past(first);
        rest = after;
    }
    rest
}

/// What stands between the commas, in types those outside of `<` and `>`, and behind the last of them only where something
/// does.
#[tactic(auto, unfolding(crate::specs::Fields::parts))]
fn parts(
    alloc: Global,
    in_types: bool,
    trees: &[TokenTree],
) -> Result<Vec<&[TokenTree]>, AllocError>
    ensures { IfOk result (λ found. map (λ part. map tree_view part.now) found.items
        ≡ parts in_types (map tree_view trees.now)) }
{
    let mut found = Vec::new(alloc);
    let mut rest = trees;
    'parts: while !rest.is_empty() {
        let comma = from_comma(in_types, rest);
        found.push(before(rest, comma))?;
        rest = match comma {
            [_, behind @ ..] => behind,
            [] => comma,
        };
    }
    Ok(found)
}

/// Whether a schema has no member and no variant for what has the word, or wholly: whether serde has none for it, too.
fn is_skip(tree: &TokenTree, wholly: bool) -> bool
    ensures { result ≡ is_skip wholly (tree_view tree.now) }
{
    is_word(tree, "skip")
        || (!wholly && (is_word(tree, "skip_serializing") || is_word(tree, "skip_deserializing")))
}

/// Whether such a word is among the trees.
fn has_skip(trees: &[TokenTree], wholly: bool) -> bool
    ensures { result ≡ list_any (is_skip wholly) (map tree_view trees.now) }
{
    let mut rest = trees;
    'trees: while let [first, after @ ..] = rest {
        if is_skip(first, wholly) {
            return true;
        }
        rest = after;
    }
    false
}

/// Whether the trees are `serde(..)` with such a word.
fn are_serde_skip(trees: &[TokenTree], wholly: bool) -> bool
    ensures { result ≡ are_serde_skip wholly (map tree_view trees.now) }
{
    match trees {
        [first, second] => {
            is_word(first, "serde") && is_round(second) && has_skip(inside(second), wholly)
        }
        _ => false,
    }
}

/// Whether the tree is that in square brackets.
fn is_serde_skip(tree: &TokenTree, wholly: bool) -> bool
    ensures { result ≡ is_serde_skip wholly (tree_view tree.now) }
{
    is_square(tree) && are_serde_skip(inside(tree), wholly)
}

/// Whether it is among the attributes.
pub(crate) fn are_skipping(attributes: &[TokenTree], wholly: bool) -> bool
    ensures { result ≡ are_skipping wholly (map tree_view attributes.now) }
{
    let mut rest = attributes;
    'trees: while let [first, after @ ..] = rest {
        if is_serde_skip(first, wholly) {
            return true;
        }
        rest = after;
    }
    false
}

/// Adds the names in the type of the field that has a name, unless it is skipped.
fn push_named(alloc: Global, names: &mut List<Text>, part: &[TokenTree]) -> Result<(), AllocError>
    ensures { OnOk result (names.new ≡ names.old ++ named_names (map tree_view part.now)) }
{
    let start = after_attributes(part);
    if are_skipping(before(part, start), false) {
        return Ok(());
    }
    let field = after_visibility(start);
    push_all_names(alloc, names, &field[field.len().min(2)..])
}

/// Adds the names in the type of the field that has no name.
fn push_unnamed(alloc: Global, names: &mut List<Text>, part: &[TokenTree]) -> Result<(), AllocError>
    ensures { OnOk result (names.new ≡ names.old ++ unnamed_names (map tree_view part.now)) }
{
    push_all_names(alloc, names, after_visibility(after_attributes(part)))
}

/// Adds those in the types of fields that have names.
fn push_all_named(
    alloc: Global,
    names: &mut List<Text>,
    trees: &[TokenTree],
) -> Result<(), AllocError>
    ensures { OnOk result (names.new
        ≡ names.old ++ flat_map named_names (parts true (map tree_view trees.now))) }
{
    for part in parts(alloc, true, trees)?.as_slice() {
        push_named(alloc, names, part)?;
    }
    Ok(())
}

/// Adds those in the types of fields that have no names.
fn push_all_unnamed(
    alloc: Global,
    names: &mut List<Text>,
    trees: &[TokenTree],
) -> Result<(), AllocError>
    ensures { OnOk result (names.new
        ≡ names.old ++ flat_map unnamed_names (parts true (map tree_view trees.now))) }
{
    for part in parts(alloc, true, trees)?.as_slice() {
        push_unnamed(alloc, names, part)?;
    }
    Ok(())
}

/// Adds those in the types of the fields, if the tree is a group of them.
fn push_fields(alloc: Global, names: &mut List<Text>, tree: &TokenTree) -> Result<(), AllocError>
    ensures { OnOk result (names.new ≡ names.old ++ field_names (tree_view tree.now)) }
{
    if is_curly(tree) {
        push_all_named(alloc, names, inside(tree))
    } else if is_round(tree) {
        push_all_unnamed(alloc, names, inside(tree))
    } else {
        Ok(())
    }
}

/// Adds those in the fields of the variant, unless it is skipped.
fn push_variant(alloc: Global, names: &mut List<Text>, part: &[TokenTree]) -> Result<(), AllocError>
    ensures { OnOk result (names.new ≡ names.old ++ variant_names (map tree_view part.now)) }
{
    let start = after_attributes(part);
    if are_skipping(before(part, start), false) {
        return Ok(());
    }
    match start {
        [_, content, ..] => push_fields(alloc, names, content),
        _ => Ok(()),
    }
}

/// Adds those in the fields of the variants, if the tree is a group of them.
fn push_variants(alloc: Global, names: &mut List<Text>, tree: &TokenTree) -> Result<(), AllocError>
    ensures { OnOk result (names.new ≡ names.old ++ variants_names (tree_view tree.now)) }
{
    if is_curly(tree) {
        for part in parts(alloc, false, inside(tree))?.as_slice() {
            push_variant(alloc, names, part)?;
        }
    }
    Ok(())
}

/// Adds the names in the types of the fields of a declaration, from its keyword on, by what stands behind its name.
pub(crate) fn push_declared(
    alloc: Global,
    names: &mut List<Text>,
    keyword: &[TokenTree],
    behind: &[TokenTree],
) -> Result<(), AllocError>
    ensures { OnOk result (names.new
        ≡ names.old ++ declared_names (map tree_view keyword.now) (map tree_view behind.now)) }
{
    match keyword {
        [first, ..] if is_word(first, "enum") => {
            for tree in behind {
                push_variants(alloc, names, tree)?;
            }
        }
        [_, ..] => {
            for tree in behind {
                push_fields(alloc, names, tree)?;
            }
        }
        [] => {}
    }
    Ok(())
}
