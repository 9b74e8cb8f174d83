//! What a tree stands behind, as far as that says where an item ends.

ghost use Rattle.std.specs.Prelude.{◌≡◌};
ghost use Rattle.tokens.specs.Trees.{tree_view};
ghost use Rattle.prepare.specs.Ends.{behind, is_minus, is_name, is_call};

use crate::trees::is_sign;
use tokens::TokenTree;
use words::{Word, word_of};

/// What a tree stands behind.
#[derive(Clone, Copy)]
pub enum Behind {
    /// A `-`, so that a `>` is an arrow's.
    Minus,
    /// A name.
    Name,
    /// A `!` behind a name, so that a group is the argument of a macro.
    Call,
    /// Any other tree, or none.
    Other,
}

impl Behind {
    pub(crate) fn is_minus(self) -> bool
        ensures { result ≡ is_minus self }
    {
        matches!(self, Behind::Minus)
    }

    fn is_name(self) -> bool
        ensures { result ≡ is_name self }
    {
        matches!(self, Behind::Name)
    }

    pub(crate) fn is_call(self) -> bool
        ensures { result ≡ is_call self }
    {
        matches!(self, Behind::Call)
    }

    /// What the next tree stands behind: this tree.
    pub(crate) fn past(self, tree: &TokenTree) -> Behind
        ensures { result ≡ behind self (tree_view tree.now) }
    {
        if is_sign(tree, "-") {
            return Behind::Minus;
        }
        if let Word::Name(_) = word_of(tree) {
            return Behind::Name;
        }
        if is_sign(tree, "!") && self.is_name() {
            Behind::Call
        } else {
            Behind::Other
        }
    }
}
