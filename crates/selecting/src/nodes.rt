//! What names what among declarations and aliases.

ghost use Rattle.std.specs.Prelude.{◌≡◌, ◌++◌, map, IfOk, OnOk};
ghost use Rattle.std.specs.BTreeMap.{get_by_text};
ghost use Rattle.reaching.specs.Reached.{nodes_of, AreUnreached};
ghost use Rattle.texts.specs.Names.{is_in};
ghost use Rattle.selecting.specs.Selected.{is_first, item_node, alias_node};

use crate::selection::Selection;
use crate::standing::is_own;
use prepare::{FileAlias, FileItem, is_in};
use reaching::{NamesByName, Node, NodeRef, unreached_names};
use std::alloc::{AllocError, Global};
use texts::List;

/// Whether the declaration is selected for itself.
pub(crate) fn is_first(selection: &Selection, item: &FileItem) -> bool
    ensures { result ≡ is_first selection.now item.now }
{
    if selection.only.as_slice().is_empty() {
        is_own(selection, item.file) && (!selection.serde || item.declared.is_first)
    } else {
        is_in(item.declared.name.as_str(), selection.only.as_slice())
    }
}

/// Adds the nodes.
fn push_nodes<'n>(nodes: &mut List<NodeRef<'n>>, more: &'n [Node]) -> Result<(), AllocError>
    ensures { OnOk result (nodes_of nodes.new ≡ nodes_of nodes.old ++ more.now) }
{
    let mut rest = more;
    'nodes: while let [first, after @ ..] = rest {
        nodes.push(first.borrowed())?;
        rest = after;
    }
    Ok(())
}

/// Adds the declarations, each first where it is selected for itself.
fn push_items<'i>(
    nodes: &mut List<NodeRef<'i>>,
    selection: &Selection,
    items: &[&'i FileItem],
) -> Result<(), AllocError>
    ensures { OnOk result (nodes_of nodes.new ≡ nodes_of nodes.old
        ++ map (item_node selection.now) (map (λ i. i.now) items.now)) }
{
    let mut rest = items;
    'items: while let [first, after @ ..] = rest {
        let item = *first;
        nodes.push(NodeRef {
            name: item.declared.name.as_str(),
            is_first: is_first(selection, item),
            names: item.declared.names.as_slice(),
        })?;
        rest = after;
    }
    Ok(())
}

/// Adds the aliases.
fn push_aliases<'a>(
    nodes: &mut List<NodeRef<'a>>,
    aliases: &[&'a FileAlias],
) -> Result<(), AllocError>
    ensures { OnOk result (nodes_of nodes.new ≡ nodes_of nodes.old
        ++ map alias_node (map (λ a. a.now) aliases.now)) }
{
    let mut rest = aliases;
    'aliases: while let [first, after @ ..] = rest {
        let alias = *first;
        nodes.push(NodeRef {
            name: alias.declared.name.as_str(),
            is_first: false,
            names: alias.declared.names.as_slice(),
        })?;
        rest = after;
    }
    Ok(())
}

/// The names that are not reached.
pub(crate) fn unreached_in<'n>(
    alloc: Global,
    selection: &Selection,
    items: &[&'n FileItem],
    configured: &'n [Node],
    aliases: &[&'n FileAlias],
) -> Result<NamesByName<'n>, AllocError>
    ensures { IfOk result (λ unreached. AreUnreached
        (map (item_node selection.now) (map (λ i. i.now) items.now)
        ++ (configured.now ++ map alias_node (map (λ a. a.now) aliases.now)))
        (get_by_text unreached)) }
{
    let mut nodes = List::new(alloc);
    push_items(&mut nodes, selection, items)?;
    push_nodes(&mut nodes, configured)?;
    push_aliases(&mut nodes, aliases)?;
    unreached_names(alloc, nodes.as_slice())
}
