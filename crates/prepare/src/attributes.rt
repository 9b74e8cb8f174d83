//! Attributes and doc comments, and visibilities.

ghost use Rattle.std.specs.Prelude.{◌≡◌, true, map, option_map};
ghost use Rattle.tokens.specs.Trees.{tree_view, trees_view};
ghost use Rattle.prepare.specs.Attributes.{square_at, bang_at, attribute_at, inner_at, after_attributes, after_inner, is_scope, after_scope, after_visibility, ends_predicate, ask_for_tests, asks_for_tests, round_asks, are_cfg_test, is_cfg_test, is_for_tests};

use crate::trees::{inside, is_inner_doc, is_outer_doc, is_round, is_sign, is_square, is_word};
use tokens::{Bracket, TokenTree};
use words::is_restriction;

/// What follows the group in square brackets that the trees begin with.
fn square_at(trees: &[TokenTree]) -> Option<&[TokenTree]>
    ensures { option_map (λ rest. map tree_view rest.now) result
        ≡ square_at (map tree_view trees.now) }
{
    match trees {
        [first, rest @ ..] if is_square(first) => Some(rest),
        _ => None,
    }
}

/// What follows the `!` and the group in square brackets that the trees begin with.
fn bang_at(trees: &[TokenTree]) -> Option<&[TokenTree]>
    ensures { option_map (λ rest. map tree_view rest.now) result
        ≡ bang_at (map tree_view trees.now) }
{
    match trees {
        [first, rest @ ..] if is_sign(first, "!") => square_at(rest),
        _ => None,
    }
}

/// What follows the outer attribute or doc comment that the trees begin with.
fn attribute_at(trees: &[TokenTree]) -> Option<&[TokenTree]>
    ensures { option_map (λ rest. map tree_view rest.now) result
        ≡ attribute_at (map tree_view trees.now) }
{
    match trees {
        [first, rest @ ..] if is_outer_doc(first) => Some(rest),
        [first, rest @ ..] if is_sign(first, "#") => square_at(rest),
        _ => None,
    }
}

/// What follows the inner attribute or doc comment that the trees begin with.
fn inner_at(trees: &[TokenTree]) -> Option<&[TokenTree]>
    ensures { option_map (λ rest. map tree_view rest.now) result
        ≡ inner_at (map tree_view trees.now) }
{
    match trees {
        [first, rest @ ..] if is_inner_doc(first) => Some(rest),
        [first, rest @ ..] if is_sign(first, "#") => bang_at(rest),
        _ => None,
    }
}

/// What follows the outer attributes and doc comments that the trees begin with.
#[tactic(auto, using(crate::proofs::Repeated::attributes_step, crate::proofs::Repeated::attributes_stop))]
pub(crate) fn after_attributes(trees: &[TokenTree]) -> &[TokenTree]
    ensures { map tree_view result.now ≡ after_attributes (map tree_view trees.now) }
{
    let mut rest = trees;
    'attributes: while let Some(after) = attribute_at(rest) {
        rest = after;
    }
    rest
}

/// What follows the inner attributes and doc comments that the trees begin with.
#[tactic(auto, using(crate::proofs::Repeated::inner_step, crate::proofs::Repeated::inner_stop))]
pub(crate) fn after_inner(trees: &[TokenTree]) -> &[TokenTree]
    ensures { map tree_view result.now ≡ after_inner (map tree_view trees.now) }
{
    let mut rest = trees;
    'inner: while let Some(after) = inner_at(rest) {
        rest = after;
    }
    rest
}

/// Whether the tree is a group that restricts a visibility.
#[tactic(auto, using(crate::proofs::Groups::restriction_view))]
fn is_scope(tree: &TokenTree) -> bool
    ensures { result ≡ is_scope (tree_view tree.now) }
{
    is_round(tree) && is_restriction(inside(tree))
}

/// What follows the group that restricts a visibility, if the trees begin with one.
fn after_scope(trees: &[TokenTree]) -> &[TokenTree]
    ensures { map tree_view result.now ≡ after_scope (map tree_view trees.now) }
{
    match trees {
        [first, rest @ ..] if is_scope(first) => rest,
        _ => trees,
    }
}

/// What follows the visibility that the trees begin with, if they do.
pub(crate) fn after_visibility(trees: &[TokenTree]) -> &[TokenTree]
    ensures { map tree_view result.now ≡ after_visibility (map tree_view trees.now) }
{
    match trees {
        [first, rest @ ..] if is_word(first, "pub") => after_scope(rest),
        _ => trees,
    }
}

/// Whether a predicate of `cfg` ends before the trees.
fn ends_predicate(trees: &[TokenTree]) -> bool
    ensures { result ≡ ends_predicate (trees_view trees.now) }
{
    match trees {
        [first, ..] => is_sign(first, ","),
        [] => true,
    }
}

/// Whether the predicate asks for tests that the tree begins and the rest goes on with: `test`, or `all(..)` with one that
/// does.
#[cycle(tests)]
fn asks_for_tests(tree: &TokenTree, rest: &[TokenTree]) -> bool
    ensures { result ≡ asks_for_tests (tree_view tree.now) (trees_view rest.now) }
{
    match rest {
        [TokenTree::Group(group), after @ ..] if matches!(group.bracket, Bracket::Round) => {
            is_word(tree, "all") && ends_predicate(after) && ask_for_tests(group.trees.as_slice())
        }
        _ => is_word(tree, "test") && ends_predicate(rest),
    }
}

/// Whether one of the predicates asks for tests, between which commas stand.
#[cycle(tests)]
fn ask_for_tests(trees: &[TokenTree]) -> bool
    ensures { result ≡ ask_for_tests true (trees_view trees.now) }
{
    let mut begins = true;
    let mut rest = trees;
    'trees: while let [first, after @ ..] = rest {
        if begins && asks_for_tests(first, after) {
            return true;
        }
        begins = is_sign(first, ",");
        rest = after;
    }
    false
}

/// Whether what stands in the group in round brackets asks for tests.
fn round_asks(tree: &TokenTree) -> bool
    ensures { result ≡ round_asks (tree_view tree.now) }
{
    match tree {
        TokenTree::Group(group) => match group.bracket {
            Bracket::Round => ask_for_tests(group.trees.as_slice()),
            _ => false,
        },
        TokenTree::Token(_) => false,
    }
}

/// Whether the trees are a `cfg(..)` that asks for tests.
fn are_cfg_test(trees: &[TokenTree]) -> bool
    ensures { result ≡ are_cfg_test (map tree_view trees.now) }
{
    match trees {
        [first, second] => is_word(first, "cfg") && round_asks(second),
        _ => false,
    }
}

/// Whether the tree is that in square brackets.
fn is_cfg_test(tree: &TokenTree) -> bool
    ensures { result ≡ is_cfg_test (tree_view tree.now) }
{
    is_square(tree) && are_cfg_test(inside(tree))
}

/// Whether a `cfg(..)` that asks for tests is among the attributes.
pub(crate) fn is_for_tests(attributes: &[TokenTree]) -> bool
    ensures { result ≡ is_for_tests (map tree_view attributes.now) }
{
    let mut rest = attributes;
    'trees: while let [first, after @ ..] = rest {
        if is_cfg_test(first) {
            return true;
        }
        rest = after;
    }
    false
}
