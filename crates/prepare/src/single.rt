//! Single items, with their attributes.

ghost use Rattle.std.specs.Prelude.{◌≡◌, length, map, IfOk};
ghost use Rattle.tokens.specs.Trees.{tree_view, trees_view};
ghost use Rattle.words.specs.Words.{ident_of};
ghost use Rattle.prepare.specs.declared.item.Stop.TheVariants.{At};
ghost use Rattle.prepare.specs.Forms.{form_view};
ghost use Rattle.prepare.specs.Imports.{imports_of};
ghost use Rattle.prepare.specs.Items.{declared_of, item_view, read_view, written_of, named_of, item_of, item_at, stop_at, stop_of, ReadsItem};

use crate::attributes::{after_attributes, after_visibility, is_for_tests};
use crate::fields::push_declared;
use crate::form::{Form, form_at};
use crate::heads::{implemented, outside};
use crate::imports::push_all_imports;
use crate::item::{Item, Standing, Stands, Stop};
use crate::names::push_all_names;
use crate::parameters::{others_than, parameters};
use crate::traits::{Traits, are_deriving};
use crate::trees::{before, but_last, extent};
use crate::unread::unread_of;
use reaching::Node;
use std::alloc::{AllocError, Global};
use texts::{List, Span};
use tokens::{Token, TokenTree};
use words::{ident_of, start_of};

/// The declaration of the name, by its attributes, by what stands from its keyword on, and by what stands behind its name.
fn declared_of(
    alloc: Global,
    name: &Token,
    attributes: &[TokenTree],
    keyword: &[TokenTree],
    behind: &[TokenTree],
) -> Result<Node, AllocError>
    ensures { IfOk result
        (λ declared. declared
        ≡ declared_of (ident_of name.now) (map tree_view attributes.now) (map tree_view keyword.now)
        (map tree_view behind.now)) }
{
    let is_first = are_deriving(alloc, attributes, Traits::SerdeOrSchema)?;
    let own = parameters(alloc, behind)?;
    let mut names = List::new(alloc);
    push_declared(alloc, &mut names, keyword, behind)?;
    let ident = ident_of(alloc, name)?;
    Ok(Node {
        name: ident.text,
        is_first,
        names: others_than(alloc, own.as_slice(), names.as_slice())?,
    })
}

/// What is done with the impl of the head: it stands where it is of one of serde's traits and for a path.
fn written_of<'t>(alloc: Global, head: &[TokenTree]) -> Result<Item<'t>, AllocError>
    ensures { IfOk result (λ item. item_view item ≡ written_of (map tree_view head.now)) }
{
    let outside = outside(alloc, head)?;
    let Some((of, name)) = implemented(outside.as_slice()) else {
        return Ok(Item::Passed);
    };
    let ident = ident_of(alloc, name)?;
    Ok(Item::Stands(Standing {
        what: Stands::Written(of, ident.text),
        span: extent(head),
    }))
}

/// What stands of the type alias: from its keyword on up to its end, and from behind its `=` up to there.
fn named_of(
    alloc: Global,
    name: &Token,
    whole: &[TokenTree],
    of: &[TokenTree],
) -> Result<Standing, AllocError>
    ensures { IfOk result (λ standing. standing
        ≡ named_of (ident_of name.now) (map tree_view whole.now) (map tree_view of.now)) }
{
    let ident = ident_of(alloc, name)?;
    let own = but_last(of);
    let mut names = List::new(alloc);
    push_all_names(alloc, &mut names, own)?;
    let node = Node {
        name: ident.text,
        is_first: false,
        names,
    };
    Ok(Standing {
        what: Stands::Alias(node, extent(own), false),
        span: extent(but_last(whole)),
    })
}

/// What stands of the `use`.
fn imported(alloc: Global, trees: &[TokenTree]) -> Result<List<Standing>, AllocError>
    ensures { IfOk result (λ standing. standing ≡ imports_of (trees_view trees.now)) }
{
    let mut standing = List::new(alloc);
    push_all_imports(alloc, &mut standing, trees)?;
    Ok(standing)
}

/// What is done with the item of the form, which is not for tests and ends before the rest.
fn item_of<'t>(
    alloc: Global,
    trees: &'t [TokenTree],
    start: &'t [TokenTree],
    keyword: &'t [TokenTree],
    form: Form<'t>,
    rest: &'t [TokenTree],
) -> Result<Item<'t>, AllocError>
    ensures { IfOk result (λ item. item_view item
        ≡ item_of (map tree_view trees.now) (map tree_view start.now) (map tree_view keyword.now)
        (form_view form.entry) (map tree_view rest.now)) }
{
    match form {
        Form::Declares(name, behind) => {
            let attributes = before(trees, start);
            let behind = before(behind, rest);
            let declared = declared_of(alloc, name, attributes, keyword, behind)?;
            let unread = unread_of(alloc, attributes, keyword, behind)?;
            Ok(Item::Stands(Standing {
                what: Stands::Declared(declared, name.span, unread),
                span: extent(before(trees, rest)),
            }))
        }
        Form::Implements => written_of(alloc, but_last(before(keyword, rest))),
        Form::Holds(trees) => Ok(Item::Holds(trees)),
        Form::Names(name, behind) => {
            let of = before(behind, rest);
            Ok(Item::Stands(named_of(alloc, name, before(keyword, rest), of)?))
        }
        Form::Imports => Ok(Item::All(imported(alloc, before(keyword, rest))?)),
        Form::Passes => Ok(Item::Passed),
    }
}

/// Where no item begins: at the first of the trees behind its attributes, or else at the first of all.
fn stop_at(trees: &[TokenTree], start: &[TokenTree]) -> Stop
    ensures { result ≡ At (stop_at (map tree_view trees.now) (map tree_view start.now)) }
{
    match (trees, start) {
        (_, [first, ..]) => Stop::At(start_of(first)),
        ([first, ..], _) => Stop::At(start_of(first)),
        _ => Stop::At(Span::nowhere()),
    }
}

/// Where no item begins among the trees.
pub(crate) fn stop_of(trees: &[TokenTree]) -> Stop
    ensures { result ≡ At (stop_of (map tree_view trees.now)) }
{
    stop_at(trees, after_attributes(trees))
}

/// What is done with the item that the trees begin with, and what follows it.
#[tactic(auto, unfolding(crate::specs::Items::item_at))]
pub(crate) fn item_at(alloc: Global, trees: &[TokenTree]) -> Result<(Item<'_>, &[TokenTree]), Stop>
    ensures { ReadsItem result (map tree_view trees.now) }
{
    let start = after_attributes(trees);
    let keyword = after_visibility(start);
    match form_at(keyword) {
        Some((form, rest)) => {
            if is_for_tests(before(trees, start)) {
                return Ok((Item::Passed, rest));
            }
            Ok((item_of(alloc, trees, start, keyword, form, rest)?, rest))
        }
        None => Err(stop_at(trees, start)),
    }
}
