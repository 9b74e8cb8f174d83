//! The names that stand in trees, at any depth.

ghost use Rattle.std.specs.Prelude.{◌≡◌, ◌++◌, map, IfOk, OnOk};
ghost use Rattle.tokens.specs.Trees.{tree_view};
ghost use Rattle.words.specs.Reading.{word_view, as_name};
ghost use Rattle.prepare.specs.Names.{itself, names_in, all_names};

use std::alloc::{AllocError, Global};
use texts::{List, Text};
use tokens::TokenTree;
use words::{Word, ident_of, word_of};

/// Adds the name that the word is, if it is one.
pub(crate) fn push_name(
    alloc: Global,
    names: &mut List<Text>,
    word: Word<'_>,
) -> Result<(), AllocError>
    ensures { OnOk result (names.new ≡ names.old ++ itself (as_name (word_view word.entry))) }
{
    match word {
        Word::Name(token) => {
            let ident = ident_of(alloc, token)?;
            names.push(ident.text)
        }
        _ => Ok(()),
    }
}

/// Adds those of the tree.
#[cycle(names)]
fn push_names(alloc: Global, names: &mut List<Text>, tree: &TokenTree) -> Result<(), AllocError>
    ensures { OnOk result (names.new ≡ names.old ++ names_in (tree_view tree.now)) }
{
    match tree {
        TokenTree::Group(group) => push_all_names(alloc, names, group.trees.as_slice()),
        TokenTree::Token(_) => push_name(alloc, names, word_of(tree)),
    }
}

/// Adds those of the trees.
#[cycle(names)]
pub(crate) fn push_all_names(
    alloc: Global,
    names: &mut List<Text>,
    trees: &[TokenTree],
) -> Result<(), AllocError>
    ensures { OnOk result (names.new ≡ names.old ++ all_names (map tree_view trees.now)) }
{
    for tree in trees {
        push_names(alloc, names, tree)?;
    }
    Ok(())
}
