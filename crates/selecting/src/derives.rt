//! Declarations of one name, of which one derives serde's traits.

ghost use Rattle.std.specs.Prelude.{◌≡◌, ◌++◌, map, IfOk};
ghost use Rattle.std.specs.BTreeMap.{get_by_text};
ghost use Rattle.selecting.specs.Deriving.{deriving_names, stays, items_staying};

use crate::selection::Selection;
use prepare::FileItem;
use std::alloc::{AllocError, Global};
use std::collections::BTreeMap;
use texts::{List, Text};

/// The names of the declarations that derive one of the traits.
pub(crate) fn deriving_names(alloc: Global, items: &[&FileItem]) -> Result<List<Text>, AllocError>
    ensures { IfOk result (λ names. names ≡ deriving_names (map (λ i. i.now) items.now)) }
{
    let mut names = List::new(alloc);
    let mut rest = items;
    'items: while let [first, after @ ..] = rest {
        if first.declared.is_first {
            names.push(first.declared.name.copy(alloc)?)?;
        }
        rest = after;
    }
    Ok(names)
}

/// Whether the declaration stays, where the map has the names of those that derive one of the traits.
fn stays(selection: &Selection, with_traits: &BTreeMap<String, usize>, item: &FileItem) -> bool
    ensures { result ≡ stays (get_by_text with_traits.now) selection.now item.now }
{
    let node = &item.declared;
    !selection.serde || node.is_first || !with_traits.contains_key(node.name.as_str())
}

/// The declarations that stay, where the map has the names of those that derive one of the traits.
pub(crate) fn items_staying<'i>(
    alloc: Global,
    selection: &Selection,
    with_traits: &BTreeMap<String, usize>,
    items: &[&'i FileItem],
) -> Result<List<&'i FileItem>, AllocError>
    ensures { IfOk result (λ left. map (λ i. i.now) left
        ≡ items_staying (get_by_text with_traits.now) selection.now (map (λ i. i.now) items.now)) }
{
    let mut left = List::new(alloc);
    let mut rest = items;
    'items: while let [first, after @ ..] = rest {
        if stays(selection, with_traits, first) {
            left.push(*first)?;
        }
        rest = after;
    }
    Ok(left)
}
