//! What is not read of a declaration.

ghost use Rattle.std.specs.Prelude.{◌≡◌, ◌^◌, ◌<◌, ◌-◌, ◌++◌, map, false, IfOk, OnOk};
ghost use Rattle.tokens.specs.Trees.{tree_view, trees_view};
ghost use Rattle.prepare.specs.declared.previous.Behind.TheVariants.{Other};
ghost use Rattle.prepare.specs.Unread.{is_repr, repr_at, repr_spans, begins_with, is_without_repr, is_last, in_default, default_spans, parameter_defaults, arguments_from, arguments_at, phantom_at, phantoms_in, phantoms_of, unread_of};

use crate::ends::angles;
use crate::fields::is_comma;
use crate::previous::Behind;
use crate::skipped::{push_if, push_skips};
use crate::traits::{Traits, are_deriving};
use crate::trees::{is_sign, is_word, span_of};
use std::alloc::{AllocError, Global};
use texts::{List, Span};
use tokens::{Bracket, TokenTree};
use words::covering;

/// Whether the tree is what stands behind the `#` of a `repr`.
fn is_repr(tree: &TokenTree) -> bool
    ensures { result ≡ is_repr (tree_view tree.now) }
{
    match tree {
        TokenTree::Group(group) => match (group.bracket, group.trees.as_slice()) {
            (Bracket::Square, [first, ..]) => is_word(first, "repr"),
            _ => false,
        },
        TokenTree::Token(_) => false,
    }
}

/// Adds the `repr` that the tree and the rest begin with, if they do.
fn push_repr(spans: &mut List<Span>, tree: &TokenTree, rest: &[TokenTree]) -> Result<(), AllocError>
    ensures { OnOk result (spans.new ≡ spans.old
        ++ repr_at (tree_view tree.now) (map tree_view rest.now)) }
{
    match rest {
        [second, ..] if is_repr(second) => spans.push(covering(span_of(tree), span_of(second))),
        _ => Ok(()),
    }
}

/// Adds each `repr` among the attributes.
fn push_reprs(spans: &mut List<Span>, attributes: &[TokenTree]) -> Result<(), AllocError>
    ensures { OnOk result (spans.new ≡ spans.old ++ repr_spans (map tree_view attributes.now)) }
{
    let mut rest = attributes;
    'trees: while let [first, after @ ..] = rest {
        push_repr(spans, first, after)?;
        rest = after;
    }
    Ok(())
}

/// Whether the trees begin with the word.
fn begins_with(trees: &[TokenTree], text: &str) -> bool
    ensures { result ≡ begins_with text.now (map tree_view trees.now) }
{
    match trees {
        [first, ..] => is_word(first, text),
        [] => false,
    }
}

/// Whether the JSON does not depend on `repr`: that of a struct, and that of which a derive of serde's makes the impl, and none
/// of serde_repr's.
fn is_without_repr(
    alloc: Global,
    attributes: &[TokenTree],
    keyword: &[TokenTree],
) -> Result<bool, AllocError>
    ensures { IfOk result (λ b. b
        ≡ is_without_repr (map tree_view attributes.now) (map tree_view keyword.now)) }
{
    if begins_with(keyword, "struct") {
        return Ok(true);
    }
    if are_deriving(alloc, attributes, Traits::SerdeRepr)? {
        return Ok(false);
    }
    are_deriving(alloc, attributes, Traits::Serde)
}

/// Whether the tree is the `>` behind the last of parameters, or of arguments.
pub(crate) fn is_last(tree: &TokenTree, was: Behind, opened: usize) -> bool
    ensures { result ≡ is_last was opened (tree_view tree.now) }
{
    opened == 0 && is_sign(tree, ">") && !was.is_minus()
}

/// Whether the tree is in a default: from its `=` to a comma, or to the end.
fn in_default(tree: &TokenTree, inside: bool, opened: usize) -> bool
    ensures { result ≡ in_default inside opened (tree_view tree.now) }
{
    (opened == 0 && is_sign(tree, "=")) || (inside && !is_comma(tree, opened))
}

/// Adds the defaults of the parameters, whose trees these are, up to the `>` behind the last.
fn push_defaults(spans: &mut List<Span>, trees: &[TokenTree]) -> Result<(), AllocError>
    ensures { OnOk result (spans.new ≡ spans.old
        ++ default_spans false Other 0 (map tree_view trees.now)) }
{
    let mut inside = false;
    let mut opened: usize = 0;
    let mut was = Behind::Other;
    let mut rest = trees;
    'trees: while let [first, after @ ..] = rest {
        if is_last(first, was, opened) {
            return Ok(());
        }
        inside = in_default(first, inside, opened);
        push_if(spans, inside, first)?;
        opened = angles(first, was, opened);
        was = was.past(first);
        rest = after;
    }
    Ok(())
}

/// Adds the defaults of the parameters that stand behind the name of a declaration, if there are any.
fn push_parameter_defaults(spans: &mut List<Span>, behind: &[TokenTree]) -> Result<(), AllocError>
    ensures { OnOk result (spans.new ≡ spans.old
        ++ parameter_defaults (map tree_view behind.now)) }
{
    match behind {
        [first, rest @ ..] if is_sign(first, "<") => push_defaults(spans, rest),
        _ => Ok(()),
    }
}

/// Adds the arguments, whose trees these are, up to the `>` behind the last.
fn push_arguments(spans: &mut List<Span>, trees: &[TokenTree]) -> Result<(), AllocError>
    ensures { OnOk result (spans.new ≡ spans.old ++ arguments_from Other 0 (trees_view trees.now)) }
{
    let mut opened: usize = 0;
    let mut was = Behind::Other;
    let mut rest = trees;
    'trees: while let [first, after @ ..] = rest {
        if is_last(first, was, opened) {
            return Ok(());
        }
        spans.push(span_of(first))?;
        opened = angles(first, was, opened);
        was = was.past(first);
        rest = after;
    }
    Ok(())
}

/// Adds the arguments that the trees begin with, if they do.
fn push_arguments_at(spans: &mut List<Span>, trees: &[TokenTree]) -> Result<(), AllocError>
    ensures { OnOk result (spans.new ≡ spans.old ++ arguments_at (trees_view trees.now)) }
{
    match trees {
        [first, rest @ ..] if is_sign(first, "<") => push_arguments(spans, rest),
        _ => Ok(()),
    }
}

/// Adds the arguments of the tree, where it is `PhantomData`.
fn push_phantom_at(
    spans: &mut List<Span>,
    tree: &TokenTree,
    rest: &[TokenTree],
) -> Result<(), AllocError>
    ensures { OnOk result (spans.new ≡ spans.old
        ++ phantom_at (tree_view tree.now) (trees_view rest.now)) }
{
    if is_word(tree, "PhantomData") {
        return push_arguments_at(spans, rest);
    }
    Ok(())
}

/// Adds the arguments of each `PhantomData` inside of the tree.
#[cycle(phantoms)]
fn push_phantoms(spans: &mut List<Span>, tree: &TokenTree) -> Result<(), AllocError>
    ensures { OnOk result (spans.new ≡ spans.old ++ phantoms_in (tree_view tree.now)) }
{
    match tree {
        TokenTree::Group(group) => push_all_phantoms(spans, group.trees.as_slice()),
        TokenTree::Token(_) => Ok(()),
    }
}

/// Adds those of each `PhantomData` among the trees, and inside of them.
#[cycle(phantoms)]
fn push_all_phantoms(spans: &mut List<Span>, trees: &[TokenTree]) -> Result<(), AllocError>
    ensures { OnOk result (spans.new ≡ spans.old ++ phantoms_of (trees_view trees.now)) }
{
    let mut rest = trees;
    'trees: while let [first, after @ ..] = rest {
        push_phantom_at(spans, first, after)?;
        push_phantoms(spans, first)?;
        rest = after;
    }
    Ok(())
}

/// What is not read of the declaration of these attributes, by what stands from its keyword on, and behind its name.
pub(crate) fn unread_of(
    alloc: Global,
    attributes: &[TokenTree],
    keyword: &[TokenTree],
    behind: &[TokenTree],
) -> Result<List<Span>, AllocError>
    ensures { IfOk result (λ spans. spans ≡ unread_of (map tree_view attributes.now)
        (map tree_view keyword.now) (map tree_view behind.now)) }
{
    let mut spans = List::new(alloc);
    if is_without_repr(alloc, attributes, keyword)? {
        push_reprs(&mut spans, attributes)?;
    }
    push_parameter_defaults(&mut spans, behind)?;
    push_all_phantoms(&mut spans, behind)?;
    push_skips(&mut spans, keyword, behind)?;
    Ok(spans)
}
