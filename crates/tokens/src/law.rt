//! Laws of comparisons.

ghost use Rattle.std.specs.Prelude.{◌≡◌};
ghost use Rattle.std.specs.Bool.{Decides};
ghost use Rattle.tokens.specs.Trees.{tree_view, group_view};
ghost use Rattle.tokens.specs.Spanless.{token_without_span, tree_without_spans};
ghost use Rattle.tokens.specs.declared.token.Token.{Token};
ghost use Rattle.tokens.specs.declared.token.Group.{Group};
ghost use Rattle.tokens.specs.declared.token.TokenTree.{TokenTree};

use crate::token::{Group, Token, TokenTree};

/// Tokens, groups and token trees are equal exactly where they are the same without their spans.
pub fn trees_are_equal_by_text()
    ensures token { (t u : Token)
        → Decides (⟦<Token as PartialEq>⟧.eq t u)
        (token_without_span t ≡ token_without_span u) }
    ensures group { (g h : Group)
        → Decides (⟦<Group as PartialEq>⟧.eq g h)
        (tree_without_spans (group_view g) ≡ tree_without_spans (group_view h)) }
    ensures tree { (t u : TokenTree)
        → Decides (⟦<TokenTree as PartialEq>⟧.eq t u)
        (tree_without_spans (tree_view t) ≡ tree_without_spans (tree_view u)) }
{}
