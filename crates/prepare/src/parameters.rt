//! The names of a declaration's parameters.

ghost use Rattle.std.specs.Prelude.{◌≡◌, ◌^◌, ◌<◌, ◌-◌, ◌++◌, map, true, is_some, cond, [], IfOk, OnOk};
ghost use Rattle.texts.specs.Names.{is_in};
ghost use Rattle.tokens.specs.Trees.{tree_view};
ghost use Rattle.words.specs.Words.{word_of};
ghost use Rattle.words.specs.Reading.{as_name};
ghost use Rattle.prepare.specs.declared.previous.Behind.TheVariants.{Other};
ghost use Rattle.prepare.specs.Names.{itself};
ghost use Rattle.prepare.specs.Parameters.{begins_behind, parameters_from, parameters, others_than};

use crate::ends::angles;
use crate::fields::is_comma;
use crate::names::push_name;
use crate::previous::Behind;
use crate::trees::is_sign;
use crate::unread::is_last;
use std::alloc::{AllocError, Global};
use texts::{List, Text};
use tokens::TokenTree;
use words::{Word, word_of};

/// Whether the tree is a name.
fn is_name(tree: &TokenTree) -> bool
    ensures { result ≡ is_some (as_name (word_of (tree_view tree.now))) }
{
    matches!(word_of(tree), Word::Name(_))
}

/// Whether a parameter begins behind the tree, or goes on to begin.
fn begins_behind(tree: &TokenTree, begins: bool, opened: usize) -> bool
    ensures { result ≡ begins_behind begins opened (tree_view tree.now) }
{
    is_comma(tree, opened) || (begins && !is_name(tree))
}

/// Adds the name that the tree is, where a parameter begins.
fn push_first(
    alloc: Global,
    names: &mut List<Text>,
    tree: &TokenTree,
    begins: bool,
) -> Result<(), AllocError>
    ensures { OnOk result (names.new ≡ names.old
        ++ cond begins (itself (as_name (word_of (tree_view tree.now)))) []) }
{
    if begins {
        return push_name(alloc, names, word_of(tree));
    }
    Ok(())
}

/// Adds the names of the parameters, whose trees these are, up to the `>` behind the last.
fn push_parameters(
    alloc: Global,
    names: &mut List<Text>,
    trees: &[TokenTree],
) -> Result<(), AllocError>
    ensures { OnOk result (names.new ≡ names.old
        ++ parameters_from true Other 0 (map tree_view trees.now)) }
{
    let mut begins = true;
    let mut opened: usize = 0;
    let mut was = Behind::Other;
    let mut rest = trees;
    'trees: while let [first, after @ ..] = rest {
        if is_last(first, was, opened) {
            return Ok(());
        }
        push_first(alloc, names, first, begins)?;
        begins = begins_behind(first, begins, opened);
        opened = angles(first, was, opened);
        was = was.past(first);
        rest = after;
    }
    Ok(())
}

/// The names of the parameters of a declaration, by what stands behind its name.
pub(crate) fn parameters(alloc: Global, behind: &[TokenTree]) -> Result<List<Text>, AllocError>
    ensures { IfOk result (λ names. names ≡ parameters (map tree_view behind.now)) }
{
    let mut names = List::new(alloc);
    match behind {
        [first, rest @ ..] if is_sign(first, "<") => push_parameters(alloc, &mut names, rest)?,
        _ => {}
    }
    Ok(names)
}

/// Whether the name is one of these.
pub fn is_in(name: &str, names: &[Text]) -> bool
    ensures { result ≡ is_in name.now names.now }
{
    let mut rest = names;
    'names: while let [first, after @ ..] = rest {
        if name == first.as_str() {
            return true;
        }
        rest = after;
    }
    false
}

/// The names that are none of a declaration's own parameters.
pub(crate) fn others_than(
    alloc: Global,
    own: &[Text],
    names: &[Text],
) -> Result<List<Text>, AllocError>
    ensures { IfOk result (λ others. others ≡ others_than own.now names.now) }
{
    let mut others = List::new(alloc);
    let mut rest = names;
    'names: while let [first, after @ ..] = rest {
        if !is_in(first.as_str(), own) {
            others.push(first.copy(alloc)?)?;
        }
        rest = after;
    }
    Ok(others)
}
