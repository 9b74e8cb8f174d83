//! The names that a `use` gives to what it brings in, at any depth.

ghost use Rattle.std.specs.Prelude.{◌≡◌, ◌++◌, OnOk};
ghost use Rattle.tokens.specs.Trees.{tree_view, trees_view};
ghost use Rattle.prepare.specs.Forms.{ident};
ghost use Rattle.prepare.specs.Imports.{import_of, import_at, imports_in, imports_of};

use crate::form::ident;
use crate::item::{Standing, Stands};
use crate::trees::{is_word, span_of};
use reaching::Node;
use std::alloc::{AllocError, Global};
use texts::List;
use tokens::TokenTree;
use words::{covering, ident_of};

/// Adds what `B as C` gives, for the two trees beside the `as`, where both are names.
fn push_import(
    alloc: Global,
    standing: &mut List<Standing>,
    of: &TokenTree,
    name: &TokenTree,
) -> Result<(), AllocError>
    ensures { OnOk result (standing.new ≡ standing.old
        ++ import_of (ident (tree_view of.now)) (ident (tree_view name.now)) (tree_view of.now)
        (tree_view name.now)) }
{
    match (ident(of), ident(name)) {
        (Some(of_token), Some(token)) => {
            let mut names = List::new(alloc);
            names.push(ident_of(alloc, of_token)?.text)?;
            let node = Node {
                name: ident_of(alloc, token)?.text,
                is_first: false,
                names,
            };
            standing.push(Standing {
                what: Stands::Alias(node, span_of(of), true),
                span: covering(span_of(of), span_of(name)),
            })
        }
        _ => Ok(()),
    }
}

/// Adds what the first three of the trees give.
fn push_import_at(
    alloc: Global,
    standing: &mut List<Standing>,
    trees: &[TokenTree],
) -> Result<(), AllocError>
    ensures { OnOk result (standing.new ≡ standing.old ++ import_at (trees_view trees.now)) }
{
    match trees {
        [of, word, name, ..] if is_word(word, "as") => push_import(alloc, standing, of, name),
        _ => Ok(()),
    }
}

/// Adds those inside of the tree.
#[cycle(imports)]
fn push_imports(
    alloc: Global,
    standing: &mut List<Standing>,
    tree: &TokenTree,
) -> Result<(), AllocError>
    ensures { OnOk result (standing.new ≡ standing.old ++ imports_in (tree_view tree.now)) }
{
    match tree {
        TokenTree::Group(group) => push_all_imports(alloc, standing, group.trees.as_slice()),
        TokenTree::Token(_) => Ok(()),
    }
}

/// Adds those of the trees, and those inside of them.
#[cycle(imports)]
pub(crate) fn push_all_imports(
    alloc: Global,
    standing: &mut List<Standing>,
    trees: &[TokenTree],
) -> Result<(), AllocError>
    ensures { OnOk result (standing.new ≡ standing.old ++ imports_of (trees_view trees.now)) }
{
    let mut rest = trees;
    'trees: while let [first, after @ ..] = rest {
        push_import_at(alloc, standing, rest)?;
        push_imports(alloc, standing, first)?;
        rest = after;
    }
    Ok(())
}
