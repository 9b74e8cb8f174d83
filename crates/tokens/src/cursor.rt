ghost use Rattle.std.specs.Prelude.{◌≡◌, ◌∷◌, [], MatchOption, IsTrue, ◌↔◌};

use crate::token::TokenTree;
use std::marker::Model;

/// A place in a list of token trees. Contracts see the trees that are not read yet.
#[derive(Drop)]
pub struct Cursor<'a> {
    trees: &'a [TokenTree],
}

impl<'a> Model for Cursor<'a> {
    ghost use Rattle.std.specs.Prelude.{List};
    ghost use Rattle.std.specs.Coded.{coded_list};
    ghost use Rattle.tokens.specs.contracts.token.TokenTree as tree;
    ghost use Rattle.tokens.specs.declared.token.TokenTree.{TokenTree};

    ghost Value = { List TokenTree };

    ghost coded = { coded_list tree.the_row.coded };

    ghost view = { λ cursor. cursor.trees.now };
}

impl<'a> Cursor<'a> {
    /// The place before the first of the trees.
    pub fn new(trees: &'a [TokenTree]) -> Cursor<'a>
        ensures { result ≡ trees.now }
    {
        Cursor { trees }
    }

    /// Whether nothing is left to read.
    pub fn is_empty(&self) -> bool
        ensures { IsTrue result ↔ (self.now ≡ []) }
    {
        self.trees.is_empty()
    }

    /// The next tree, and the place after it; nothing where nothing is left.
    pub fn token_tree(&self) -> Option<(&'a TokenTree, Cursor<'a>)>
        ensures { MatchOption result (self.now ≡ []) (λ p. self.now ≡ p.0.now ∷ p.1) }
    {
        match self.trees.split_first() {
            None => None,
            Some((tree, trees)) => Some((tree, Cursor { trees })),
        }
    }
}
