//! Objects with properties.

ghost use Rattle.std.specs.Prelude.{◌≡◌, IfOk};
ghost use Rattle.schema_trees.specs.Schema.{one_of, all_of, object_view, named_views, tree_views, additional_view};
ghost use Rattle.component.specs.Leaves.{leaf_view, term_view};
ghost use Rattle.terms.specs.Terms.{object_of};

use component::{Term, TermLeaf};
use schema_trees::{
    Additional, AllOfSchema, Annotations as SchemaAnnotations, Object, OneOfSchema,
    SchemaTypeInner, Tree, TypeWord,
};
use std::alloc::{AllocError, Global};
use texts::{List, Text};

/// An object with these properties, beside which others may be so.
fn object_of(
    alloc: Global,
    properties: List<(Text, Term)>,
    others: Additional<TermLeaf>,
    required: List<Text>,
    keywords: SchemaAnnotations,
) -> Object<TermLeaf>
    ensures { object_view leaf_view result ≡ object_of keywords
        (additional_view leaf_view others) required (named_views leaf_view properties) }
{
    Object {
        properties,
        required,
        additional: others,
        ..Object::new(alloc, TypeWord::One(SchemaTypeInner::Object), keywords)
    }
}

/// The object as a schema.
pub(crate) fn boxed(alloc: Global, object: Object<TermLeaf>) -> Result<Term, AllocError>
    ensures { IfOk result (λ t. term_view t ≡ object_view leaf_view object) }
{
    Ok(Tree::Object(Box::new(alloc, object)?))
}

/// One of the schemas.
pub(crate) fn one_of(
    alloc: Global,
    items: List<Term>,
    keywords: SchemaAnnotations,
) -> Result<Term, AllocError>
    ensures { IfOk result (λ t. term_view t ≡ one_of keywords (tree_views leaf_view items)) }
{
    let schema = OneOfSchema {
        items,
        annotations: keywords,
    };
    Ok(Tree::OneOf(Box::new(alloc, schema)?))
}

/// All of the schemas.
pub(crate) fn all_of(
    alloc: Global,
    items: List<Term>,
    keywords: SchemaAnnotations,
) -> Result<Term, AllocError>
    ensures { IfOk result (λ t. term_view t ≡ all_of keywords (tree_views leaf_view items)) }
{
    let schema = AllOfSchema {
        items,
        annotations: keywords,
    };
    Ok(Tree::AllOf(Box::new(alloc, schema)?))
}

/// The schema of such an object.
pub(crate) fn object_term(
    alloc: Global,
    properties: List<(Text, Term)>,
    others: Additional<TermLeaf>,
    required: List<Text>,
    keywords: SchemaAnnotations,
) -> Result<Term, AllocError>
    ensures { IfOk result (λ t. term_view t ≡ object_of keywords
        (additional_view leaf_view others) required (named_views leaf_view properties)) }
{
    boxed(
        alloc,
        object_of(alloc, properties, others, required, keywords),
    )
}
