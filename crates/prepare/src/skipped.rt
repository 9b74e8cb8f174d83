//! The fields with names that serde skips.

ghost use Rattle.std.specs.Prelude.{◌≡◌, ◌^◌, ◌<◌, ◌-◌, ◌++◌, map, true, false, OnOk};
ghost use Rattle.std.specs.List.{flat_map};
ghost use Rattle.tokens.specs.Trees.{tree_view};
ghost use Rattle.prepare.specs.declared.previous.Behind.TheVariants.{Other};
ghost use Rattle.prepare.specs.Skipped.{span_if, begins_skipped, is_skipped, skipped_from, field_skips, variant_skips, declared_skips};

use crate::attributes::after_attributes;
use crate::ends::angles;
use crate::fields::{are_skipping, is_comma};
use crate::previous::Behind;
use crate::trees::{before, inside, is_curly, is_word, span_of};
use std::alloc::AllocError;
use texts::{List, Span};
use tokens::TokenTree;

/// Adds the tree, if it is so.
pub(crate) fn push_if(
    spans: &mut List<Span>,
    is_so: bool,
    tree: &TokenTree,
) -> Result<(), AllocError>
    ensures { OnOk result (spans.new ≡ spans.old ++ span_if is_so (tree_view tree.now)) }
{
    if is_so {
        spans.push(span_of(tree))?;
    }
    Ok(())
}

/// Whether serde skips the field that begins with the trees wholly.
fn begins_skipped(trees: &[TokenTree]) -> bool
    ensures { result ≡ begins_skipped (map tree_view trees.now) }
{
    are_skipping(before(trees, after_attributes(trees)), true)
}

/// Whether serde skips the field of the first of the trees: one begins there, or else one goes on.
fn is_skipped(trees: &[TokenTree], begins: bool, goes_on: bool) -> bool
    ensures { result ≡ is_skipped begins goes_on (map tree_view trees.now) }
{
    if begins {
        begins_skipped(trees)
    } else {
        goes_on
    }
}

/// Adds the fields among these that serde skips, each with the comma behind it.
fn push_skipped(spans: &mut List<Span>, trees: &[TokenTree]) -> Result<(), AllocError>
    ensures { OnOk result (spans.new ≡ spans.old
        ++ skipped_from true false Other 0 (map tree_view trees.now)) }
{
    let mut begins = true;
    let mut skips = false;
    let mut opened: usize = 0;
    let mut was = Behind::Other;
    let mut rest = trees;
    'trees: while let [first, after @ ..] = rest {
        skips = is_skipped(rest, begins, skips);
        push_if(spans, skips, first)?;
        begins = is_comma(first, opened);
        opened = angles(first, was, opened);
        was = was.past(first);
        rest = after;
    }
    Ok(())
}

/// Adds the fields that serde skips, if the tree is a group of fields that have names.
fn push_field_skips(spans: &mut List<Span>, tree: &TokenTree) -> Result<(), AllocError>
    ensures { OnOk result (spans.new ≡ spans.old ++ field_skips (tree_view tree.now)) }
{
    if is_curly(tree) {
        push_skipped(spans, inside(tree))?;
    }
    Ok(())
}

/// Adds the fields of variants that serde skips, if the tree is a group of variants.
fn push_variant_skips(spans: &mut List<Span>, tree: &TokenTree) -> Result<(), AllocError>
    ensures { OnOk result (spans.new ≡ spans.old ++ variant_skips (tree_view tree.now)) }
{
    if is_curly(tree) {
        for part in inside(tree) {
            push_field_skips(spans, part)?;
        }
    }
    Ok(())
}

/// Adds the fields of a declaration that serde skips, from its keyword on, by what stands behind its name.
pub(crate) fn push_skips(
    spans: &mut List<Span>,
    keyword: &[TokenTree],
    behind: &[TokenTree],
) -> Result<(), AllocError>
    ensures { OnOk result (spans.new ≡ spans.old
        ++ declared_skips (map tree_view keyword.now) (map tree_view behind.now)) }
{
    match keyword {
        [first, ..] if is_word(first, "enum") => {
            for tree in behind {
                push_variant_skips(spans, tree)?;
            }
        }
        [_, ..] => {
            for tree in behind {
                push_field_skips(spans, tree)?;
            }
        }
        [] => {}
    }
    Ok(())
}
