//! Copies, with the same texts and spans.

ghost use Rattle.std.specs.Prelude.{◌≡◌, IfOk};
ghost use Rattle.tokens.specs.Trees.{tree_view, group_view, trees_view};

use crate::token::{Group, Token, TokenTree};
use std::alloc::{AllocError, Global};
use texts::List;

impl Token {
    /// Another token with the same kind, text and span.
    pub fn copy(&self, alloc: Global) -> Result<Token, AllocError>
        ensures { IfOk result (λ copy. copy ≡ self.now) }
    {
        Ok(Token {
            kind: self.kind,
            text: self.text.copy(alloc)?,
            span: self.span,
        })
    }
}

impl TokenTree {
    /// Another tree with the same tokens.
    pub fn copy(&self, alloc: Global) -> Result<TokenTree, AllocError>
        ensures { IfOk result (λ copy. tree_view copy ≡ tree_view self.now) }
    {
        copy_tree(alloc, self)
    }
}

impl Group {
    /// Another group with the same bracket, tokens and span.
    pub fn copy(&self, alloc: Global) -> Result<Group, AllocError>
        ensures { IfOk result (λ copy. group_view copy ≡ group_view self.now) }
    {
        copy_group(alloc, self)
    }
}

#[cycle(copy)]
fn copy_tree(alloc: Global, tree: &TokenTree) -> Result<TokenTree, AllocError>
    ensures { IfOk result (λ copy. tree_view copy ≡ tree_view tree.now) }
{
    match tree {
        TokenTree::Token(token) => Ok(TokenTree::Token(token.copy(alloc)?)),
        TokenTree::Group(group) => Ok(TokenTree::Group(copy_group(alloc, group)?)),
    }
}

#[cycle(copy)]
fn copy_group(alloc: Global, group: &Group) -> Result<Group, AllocError>
    ensures { IfOk result (λ copy. group_view copy ≡ group_view group.now) }
{
    Ok(Group {
        bracket: group.bracket,
        trees: copy_trees(alloc, group.trees.as_slice())?,
        span: group.span,
    })
}

/// Other trees with the same tokens.
#[cycle(copy)]
pub fn copy_trees(alloc: Global, trees: &[TokenTree]) -> Result<List<TokenTree>, AllocError>
    ensures { IfOk result (λ copies. trees_view copies ≡ trees_view trees.now) }
{
    let mut copies = List::new(alloc);
    for tree in trees {
        copies.push(copy_tree(alloc, tree)?)?;
    }
    Ok(copies)
}
