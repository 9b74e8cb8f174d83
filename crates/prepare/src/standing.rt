//! What stands of items, and in modules.

ghost use Rattle.std.specs.Prelude.{◌≡◌, map};
ghost use Rattle.tokens.specs.Trees.{tree_view};
ghost use Rattle.prepare.specs.Items.{item_view};
ghost use Rattle.prepare.specs.Standing.{AreItems, StandIn, StandInside, StopAt, StopIn, StopInside, Finds, PassesItems};

use crate::attributes::{after_inner, is_for_tests};
use crate::item::{Item, Standing, Stop};
use crate::single::{item_at, stop_of};
use crate::trees::before;
use std::alloc::Global;
use texts::List;
use tokens::TokenTree;

/// What stands of the item.
#[cycle(standing)]
fn stand_in(alloc: Global, item: Item<'_>) -> Result<List<Standing>, Stop>
    ensures { Finds (StandIn (item_view item.entry)) (StopIn (item_view item.entry)) result }
{
    match item {
        Item::Stands(standing) => {
            let mut one = List::new(alloc);
            one.push(standing)?;
            Ok(one)
        }
        Item::All(standing) => Ok(standing),
        Item::Holds(trees) => stand_inside(alloc, trees),
        Item::Passed => Ok(List::new(alloc)),
    }
}

/// What stands of the items that the trees begin with, and what follows them, which begins with no item.
#[cycle(standing)]
pub(crate) fn pass_items(
    alloc: Global,
    trees: &[TokenTree],
) -> Result<(List<Standing>, &[TokenTree]), Stop>
    ensures { PassesItems (map tree_view trees.now) result }
{
    let mut standing = List::new(alloc);
    let mut rest = trees;
    'items: loop {
        match item_at(alloc, rest) {
            Ok((item, after)) => {
                standing.append(stand_in(alloc, item)?)?;
                rest = after;
            }
            Err(Stop::Memory) => return Err(Stop::Memory),
            Err(Stop::At(_)) => return Ok((standing, rest)),
        }
    }
}

/// What stands of the trees, which are items.
#[cycle(standing)]
pub(crate) fn are_items(alloc: Global, trees: &[TokenTree]) -> Result<List<Standing>, Stop>
    ensures { Finds (AreItems (map tree_view trees.now)) (StopAt (map tree_view trees.now)) result }
{
    let (standing, rest) = pass_items(alloc, trees)?;
    if rest.is_empty() {
        Ok(standing)
    } else {
        Err(stop_of(rest))
    }
}

/// What stands of the trees in the brackets of a module.
#[cycle(standing)]
fn stand_inside(alloc: Global, trees: &[TokenTree]) -> Result<List<Standing>, Stop>
    ensures { Finds (StandInside (map tree_view trees.now)) (StopInside (map tree_view trees.now)) result }
{
    let rest = after_inner(trees);
    if is_for_tests(before(trees, rest)) {
        return Ok(List::new(alloc));
    }
    are_items(alloc, rest)
}
