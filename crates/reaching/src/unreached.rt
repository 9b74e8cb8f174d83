//! The names of nodes that are not reached.

ghost use Rattle.std.specs.Prelude.{◌≡◌, ◌<◌, ◌++◌, ℕ, List as AnyList, option_map, IfOk, OnOk, OnSome};
ghost use Rattle.std.specs.BTreeMap.{get_by_text, btree_map_len};
ghost use Rattle.reaching.specs.Reached.{node_of, nodes_of, AreUnreached};
ghost use Rattle.reaching.specs.Taken.{texts_of, names_in, with_names, entry, first_names, Takes};

use crate::node::NodeRef;
use std::alloc::{AllocError, Global};
use std::collections::BTreeMap;
use texts::{List, Text};

/// The names that the nodes of each name name, by that name.
pub type NamesByName<'n> = BTreeMap<String, List<&'n str>>;

/// Adds the names.
fn push_names<'n>(names: &mut List<&'n str>, more: &'n [Text]) -> Result<(), AllocError>
    ensures { OnOk result (texts_of names.new ≡ texts_of names.old ++ more.now) }
{
    let mut rest = more;
    'names: while let [first, after @ ..] = rest {
        names.push(first.as_str())?;
        rest = after;
    }
    Ok(())
}

/// Adds the names that the node names.
fn add_names<'n>(
    alloc: Global,
    by_name: &mut NamesByName<'n>,
    node: &NodeRef<'n>,
) -> Result<(), AllocError>
    ensures { OnOk result ((name : AnyList ℕ) → names_in by_name.new name
        ≡ with_names (node_of node.now) (names_in by_name.old) name) }
{
    let mut names = match by_name.remove(node.name) {
        Some(names) => names,
        None => List::new(alloc),
    };
    push_names(&mut names, node.names)?;
    let key = String::from_str(alloc, node.name)?;
    match by_name.insert(key, names) {
        Ok(_) => Ok(()),
        Err(_) => Err(AllocError),
    }
}

/// The names that the nodes of each name name.
fn names_by_name<'n>(alloc: Global, nodes: &[NodeRef<'n>]) -> Result<NamesByName<'n>, AllocError>
    ensures { IfOk result (λ by_name. (name : AnyList ℕ)
        → names_in by_name name ≡ entry (nodes_of nodes.now) name) }
{
    let mut by_name = BTreeMap::new(alloc);
    let mut rest = nodes;
    'nodes: while let [first, after @ ..] = rest {
        add_names(alloc, &mut by_name, first)?;
        rest = after;
    }
    Ok(by_name)
}

/// The names that the first nodes name.
fn first_names<'n>(alloc: Global, nodes: &[NodeRef<'n>]) -> Result<List<&'n str>, AllocError>
    ensures { IfOk result (λ names. texts_of names ≡ first_names (nodes_of nodes.now)) }
{
    let mut names = List::new(alloc);
    let mut rest = nodes;
    'nodes: while let [first, after @ ..] = rest {
        if first.is_first {
            push_names(&mut names, first.names)?;
        }
        rest = after;
    }
    Ok(names)
}

/// Takes out the last of the reached names that has nodes left, with the names that these name; nothing where none has.
fn next_names<'n>(
    reached: &mut List<&'n str>,
    by_name: &mut NamesByName<'n>,
) -> Option<List<&'n str>>
    ensures takes { Takes (texts_of reached.old) (names_in by_name.old)
        (option_map texts_of result) (texts_of reached.new) (names_in by_name.new) }
    ensures fewer { OnSome result (btree_map_len by_name.new < btree_map_len by_name.old) }
{
    'reached: while !reached.is_empty() {
        let name = reached.remove(reached.len() - 1);
        if let Some(names) = by_name.remove(name) {
            return Some(names);
        }
    }
    None
}

/// The names of the nodes that are not reached, each with what its nodes name. Reached are the names that a first node
/// names, and those that a node of a reached name names; the name of a first node is reached only where it is named so.
/// No name is looked up more often than nodes name it. It can only want memory.
pub fn unreached_names<'n>(
    alloc: Global,
    nodes: &[NodeRef<'n>],
) -> Result<NamesByName<'n>, AllocError>
    ensures { IfOk result (λ unreached. AreUnreached (nodes_of nodes.now) (get_by_text unreached)) }
{
    let mut by_name = names_by_name(alloc, nodes)?;
    let mut reached = first_names(alloc, nodes)?;
    'reached: while let Some(names) = next_names(&mut reached, &mut by_name) {
        reached.append(names)?;
    }
    Ok(by_name)
}
