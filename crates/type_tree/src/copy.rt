//! Copies, with the same paths and spans.

ghost use Rattle.std.specs.Prelude.{◌≡◌, IfOk};
ghost use Rattle.type_tree.specs.TypeTrees.{tree_view, trees_view};

use crate::tree::TypeTree;
use std::alloc::{AllocError, Global};

impl<'t> TypeTree<'t> {
    /// Another tree with the same paths, spans, types and children.
    pub fn copy(&self, alloc: Global) -> Result<TypeTree<'t>, AllocError>
        ensures { IfOk result (λ copy. tree_view copy ≡ tree_view self.now) }
    {
        copy_tree(alloc, self)
    }
}

#[cycle(copy)]
fn copy_tree<'t>(alloc: Global, tree: &TypeTree<'t>) -> Result<TypeTree<'t>, AllocError>
    ensures { IfOk result (λ copy. tree_view copy ≡ tree_view tree.now) }
{
    let children = match &tree.children {
        None => None,
        Some(children) => Some(copy_trees(alloc, children.as_slice())?),
    };
    Ok(TypeTree {
        path: tree.path,
        span: tree.span,
        value_type: tree.value_type,
        generic_type: tree.generic_type,
        children,
    })
}

#[cycle(copy)]
fn copy_trees<'t>(alloc: Global, trees: &[TypeTree<'t>]) -> Result<Vec<TypeTree<'t>>, AllocError>
    ensures { IfOk result (λ copies. trees_view copies.items ≡ trees_view trees.now) }
{
    let mut copies = Vec::new(alloc);
    for tree in trees {
        copies.push(copy_tree(alloc, tree)?)?;
    }
    Ok(copies)
}
