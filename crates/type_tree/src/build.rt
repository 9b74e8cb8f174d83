//! The tree of a written type.

ghost use Rattle.std.specs.Prelude.{◌≡◌, IfOk, option_and_then, option_map};
ghost use Rattle.written_types.specs.Written.{written_view, path_view, segment_view, segments_view, argument_view, arguments_view, writtens_view};
ghost use Rattle.type_tree.specs.TypeTrees.{tree_of, path_tree, segments_trees, segment_trees, argument_trees, argument_tree, item_trees, tree, tree_view, trees_view, shown_children, those, array_node, path_node, tuple_span, value_type_of, generic_type_of, last_segment};

use crate::path::{SchemaPath, last_of, name_of};
use crate::tree::{GenericType, TypeTree, ValueType};
use leaves::Leaf;
use open_types::Head;
use std::alloc::{AllocError, Global};
use texts::Span;
use written_types::{GenericArgument, Path, PathSegment, WrittenType};

impl<'t> TypeTree<'t> {
    /// The tree of a type. References are dropped, and of a path the last segment alone counts; lifetimes and constants
    /// are no children.
    pub fn from_type(alloc: Global, ty: &'t WrittenType) -> Result<TypeTree<'t>, AllocError>
        ensures { IfOk result (λ tree. tree_view tree ≡ tree_of (written_view ty.now)) }
    {
        type_tree(alloc, ty)
    }
}

#[cycle(build)]
fn type_tree<'t>(alloc: Global, ty: &'t WrittenType) -> Result<TypeTree<'t>, AllocError>
    ensures { IfOk result (λ tree. tree_view tree ≡ tree_of (written_view ty.now)) }
{
    match ty {
        WrittenType::Path(path) => path_tree(alloc, path),
        WrittenType::TraitObject(path, _) => path_tree(alloc, path),
        WrittenType::Reference(of) => type_tree(alloc, of),
        WrittenType::Tuple(items, span) => {
            let trees = item_trees(alloc, items.as_slice())?;
            Ok(tuple_tree(tuple_span(items.as_slice(), *span), trees))
        }
        WrittenType::Slice(item, span) => {
            let tree = type_tree(alloc, item)?;
            list_tree(alloc, tree, *span)
        }
        WrittenType::Array(item, span) => {
            let tree = type_tree(alloc, item)?;
            list_tree(alloc, tree, *span)
        }
    }
}

#[cycle(build)]
fn path_tree<'t>(alloc: Global, path: &'t Path) -> Result<TypeTree<'t>, AllocError>
    ensures { IfOk result (λ tree. tree_view tree ≡ path_tree (path_view path.now)) }
{
    let children = segments_trees(alloc, path.segments.as_slice())?;
    Ok(named_tree(path, children))
}

/// The trees of the types in the last segment's argument list.
#[cycle(build)]
fn segments_trees<'t>(
    alloc: Global,
    segments: &'t [PathSegment],
) -> Result<Vec<TypeTree<'t>>, AllocError>
    ensures { IfOk result
        (λ trees. trees_view trees.items ≡ segments_trees (segments_view segments.now)) }
{
    match segments.last() {
        None => Ok(Vec::new(alloc)),
        Some(segment) => segment_trees(alloc, segment),
    }
}

#[cycle(build)]
fn segment_trees<'t>(
    alloc: Global,
    segment: &'t PathSegment,
) -> Result<Vec<TypeTree<'t>>, AllocError>
    ensures { IfOk result
        (λ trees. trees_view trees.items ≡ segment_trees (segment_view segment.now)) }
{
    match &segment.arguments {
        None => Ok(Vec::new(alloc)),
        Some(arguments) => argument_trees(alloc, arguments.as_slice()),
    }
}

#[cycle(build)]
fn argument_trees<'t>(
    alloc: Global,
    arguments: &'t [GenericArgument],
) -> Result<Vec<TypeTree<'t>>, AllocError>
    ensures { IfOk result
        (λ trees. trees_view trees.items ≡ argument_trees (arguments_view arguments.now)) }
{
    let mut trees = Vec::new(alloc);
    for argument in arguments {
        if let Some(tree) = argument_tree(alloc, argument)? {
            trees.push(tree)?;
        }
    }
    Ok(trees)
}

#[cycle(build)]
fn argument_tree<'t>(
    alloc: Global,
    argument: &'t GenericArgument,
) -> Result<Option<TypeTree<'t>>, AllocError>
    ensures { IfOk result (λ found. option_map tree_view found
        ≡ argument_tree (argument_view argument.now)) }
{
    match argument {
        GenericArgument::Ty(ty) => Ok(Some(type_tree(alloc, ty)?)),
        GenericArgument::Lifetime(_) => Ok(None),
        GenericArgument::Constant(_) => Ok(None),
    }
}

#[cycle(build)]
fn item_trees<'t>(alloc: Global, items: &'t [WrittenType]) -> Result<Vec<TypeTree<'t>>, AllocError>
    ensures { IfOk result (λ trees. trees_view trees.items ≡ item_trees (writtens_view items.now)) }
{
    let mut trees = Vec::new(alloc);
    for item in items {
        trees.push(type_tree(alloc, item)?)?;
    }
    Ok(trees)
}

/// The tree of an array or a slice.
fn list_tree<'t>(alloc: Global, item: TypeTree<'t>, span: Span) -> Result<TypeTree<'t>, AllocError>
    ensures { IfOk result (λ list. tree_view list ≡ array_node span (tree_view item.entry)) }
{
    let mut children = Vec::new(alloc);
    children.push(item)?;
    Ok(TypeTree {
        path: Some(SchemaPath::Array),
        span: Some(span),
        value_type: ValueType::Object,
        generic_type: Some(GenericType::Vec),
        children: Some(children),
    })
}

/// The tree of a tuple.
fn tuple_tree<'t>(span: Option<Span>, items: Vec<TypeTree<'t>>) -> TypeTree<'t>
    ensures { tree_view result
        ≡ tree None span ValueType.Tuple None (those (trees_view items.entry.items)) }
{
    TypeTree {
        path: None,
        span,
        value_type: ValueType::Tuple,
        generic_type: None,
        children: some_children(items),
    }
}

/// The tree of a path with the children.
fn named_tree<'t>(path: &'t Path, children: Vec<TypeTree<'t>>) -> TypeTree<'t>
    ensures { tree_view result ≡ path_node (path_view path.now) (trees_view children.entry.items) }
{
    TypeTree {
        path: Some(SchemaPath::Written(path)),
        span: Some(path.span),
        value_type: value_type_of(name_of(path)),
        generic_type: generic_type_of(path.segments.as_slice()),
        children: some_children(children),
    }
}

/// The children, or none where there is no tree.
#[tactic(auto, using(crate::proofs::Joined::those_none, crate::proofs::Joined::those_some))]
fn some_children<'t>(trees: Vec<TypeTree<'t>>) -> Option<Vec<TypeTree<'t>>>
    ensures { shown_children result ≡ those (trees_view trees.entry.items) }
{
    if trees.is_empty() {
        return None;
    }
    Some(trees)
}

/// The span of a tuple, which the unit type does not have.
#[tactic(auto, using(crate::proofs::Joined::span_none, crate::proofs::Joined::span_some))]
fn tuple_span(items: &[WrittenType], span: Span) -> Option<Span>
    ensures { result ≡ tuple_span (writtens_view items.now) span }
{
    if items.is_empty() {
        return None;
    }
    Some(span)
}

/// The type of the values of a name.
fn value_type_of(name: &str) -> ValueType
    ensures { result ≡ value_type_of name.now }
{
    if Leaf::named(name).is_some() {
        ValueType::Primitive
    } else if name == "Value" {
        ValueType::Value
    } else {
        ValueType::Object
    }
}

/// The kind of the last segment's container, where an argument list stands.
fn generic_type_of(segments: &[PathSegment]) -> Option<GenericType>
    ensures { result ≡ option_and_then generic_type_of (last_segment (segments_view segments.now)) }
{
    match last_of(segments) {
        None => None,
        Some(segment) => container_type(segment),
    }
}

fn container_type(segment: &PathSegment) -> Option<GenericType>
    ensures { result ≡ generic_type_of (segment_view segment.now) }
{
    match &segment.arguments {
        None => None,
        Some(_) => match Head::named(segment.ident.text.as_str()) {
            Some(head) => Some(GenericType::of(head)),
            None => None,
        },
    }
}
