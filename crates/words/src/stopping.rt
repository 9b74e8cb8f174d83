//! Why reading stops, and at which bytes.

ghost use Rattle.std.specs.Prelude.{◌≡◌};
ghost use Rattle.tokens.specs.Trees.{tree_view};
ghost use Rattle.words.specs.Words.{cover, opening, start_of, word_of};
ghost use Rattle.words.specs.Reading.{IsWrong, StopsAlike};

use std::alloc::{AllocError, AllocFailed};
use texts::Span;
use tokens::{Group, TokenTree};

/// Why reading stopped: at a word that is not of the grammar, where the words ended, at what nests too deep, or for want
/// of memory.
#[derive(Drop)]
pub enum Stop {
    Unexpected(Span),
    Ended,
    Deep(Span),
    Memory,
}

/// The byte of the bracket that opens the group.
#[tactic(auto, unfolding(crate::specs::Words::opening))]
fn opening(span: Span) -> Span
    ensures { result ≡ opening span }
{
    if span.start < span.end {
        return Span {
            start: span.start,
            end: span.start + 1,
        };
    }
    span
}

/// The byte of the bracket that closes the group.
fn closing(span: Span) -> Span {
    if span.start < span.end {
        return Span {
            start: span.end - 1,
            end: span.end,
        };
    }
    span
}

/// Where the tree begins: the bytes of a token, or the opening bracket of a group.
pub fn start_of(tree: &TokenTree) -> Span
    ensures { result ≡ start_of (word_of (tree_view tree.now)) }
{
    match tree {
        TokenTree::Token(token) => token.span,
        TokenTree::Group(group) => opening(group.span),
    }
}

/// Reading cannot go on with the first of these trees.
pub fn stop_at(trees: &[TokenTree]) -> Stop
    ensures { IsWrong result }
{
    match trees {
        [] => Stop::Ended,
        [first, ..] => Stop::Unexpected(start_of(first)),
    }
}

impl Stop {
    /// What stopped reading inside of the group. Where its trees ended, that is its closing bracket.
    pub fn inside(self, group: &Group) -> Stop
        ensures { StopsAlike self result }
    {
        match self {
            Stop::Unexpected(span) => Stop::Unexpected(span),
            Stop::Ended => Stop::Unexpected(closing(group.span)),
            Stop::Deep(span) => Stop::Deep(span),
            Stop::Memory => Stop::Memory,
        }
    }
}

impl From<AllocError> for Stop {
    ghost use Rattle.words.specs.declared.stopping.Stop.TheVariants.{Memory};

    ghost from_gives = { λ _ stop. stop ≡ Memory };

    fn from(_error: AllocError) -> Stop {
        Stop::Memory
    }
}

impl<T: Drop> From<AllocFailed<T>> for Stop {
    ghost use Rattle.words.specs.declared.stopping.Stop.TheVariants.{Memory};

    ghost from_gives = { λ _ stop. stop ≡ Memory };

    fn from(_error: AllocFailed<T>) -> Stop {
        Stop::Memory
    }
}

/// From the start of the first to the end of the last.
pub fn covering(first: Span, last: Span) -> Span
    ensures { result ≡ cover first last }
{
    Span {
        start: first.start,
        end: first.start.max(last.end),
    }
}
