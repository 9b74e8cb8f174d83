//! Schemas put at the leaves of a schema.

ghost use Rattle.std.specs.Prelude.{◌≡◌, IfOk};
ghost use Rattle.schema_trees.specs.Schema.{SchemaOf, bind, bind_schemas, bind_properties, bind_part, tree_view, object_view, array_view, one_of_view, all_of_view, additional_view, array_items_view, optional_view, tree_views, named_views};

use schema_trees::{Additional, AllOfSchema, Array, ArrayItems, Object, OneOfSchema, Tree};
use std::alloc::{AllocError, Global};
use texts::{List, Text};

/// What is put at each leaf of a schema.
pub trait Fill {
    /// A leaf of the schema that is filled.
    type Hole;

    /// A leaf of what is put there.
    type Leaf: Drop;

    /// What leaves of the schema that is filled stand for.
    ghost Origin: { Type 0 };

    /// What such a leaf stands for.
    ghost origin: { Self.Hole → Origin };

    /// What leaves of what is put there stand for.
    ghost Meaning: { Type 0 };

    /// What such a leaf stands for.
    ghost meaning: { Self.Leaf → Meaning };

    /// The schema that is put at a leaf.
    ghost put: { Self → Origin → SchemaOf Meaning };

    /// The schema at the leaf.
    fn fill(&self, alloc: Global, leaf: &Self::Hole) -> Result<Tree<Self::Leaf>, AllocError>
        ensures { IfOk result (λ t. tree_view meaning t ≡ put self.now (origin leaf.now)) };
}

/// The schema with another put at each of its leaves.
pub fn filled<F: Fill>(
    alloc: Global,
    tree: &Tree<F::Hole>,
    fill: &F,
) -> Result<Tree<F::Leaf>, AllocError>
    ensures { IfOk result
        (λ t. tree_view F.meaning t ≡ bind (F.put fill.now) (tree_view F.origin tree.now)) }
{
    filled_tree(alloc, tree, fill)
}

#[cycle(filled)]
fn filled_tree<F: Fill>(
    alloc: Global,
    tree: &Tree<F::Hole>,
    fill: &F,
) -> Result<Tree<F::Leaf>, AllocError>
    ensures { IfOk result
        (λ t. tree_view F.meaning t ≡ bind (F.put fill.now) (tree_view F.origin tree.now)) }
{
    match tree {
        Tree::Leaf(leaf) => fill.fill(alloc, leaf),
        Tree::Object(object) => {
            let object = filled_object(alloc, object, fill)?;
            Ok(Tree::Object(Box::new(alloc, object)?))
        }
        Tree::Array(array) => {
            let array = filled_array(alloc, array, fill)?;
            Ok(Tree::Array(Box::new(alloc, array)?))
        }
        Tree::OneOf(one_of) => {
            let one_of = filled_one_of(alloc, one_of, fill)?;
            Ok(Tree::OneOf(Box::new(alloc, one_of)?))
        }
        Tree::AllOf(all_of) => {
            let all_of = filled_all_of(alloc, all_of, fill)?;
            Ok(Tree::AllOf(Box::new(alloc, all_of)?))
        }
    }
}

#[cycle(filled)]
fn filled_object<F: Fill>(
    alloc: Global,
    object: &Object<F::Hole>,
    fill: &F,
) -> Result<Object<F::Leaf>, AllocError>
    ensures { IfOk result
        (λ o. object_view F.meaning o ≡ bind (F.put fill.now) (object_view F.origin object.now)) }
{
    let properties = filled_properties(alloc, object.properties.as_slice(), fill)?;
    let additional = filled_additional(alloc, &object.additional, fill)?;
    let property_names = filled_option(alloc, &object.property_names, fill)?;
    let facts = object.copy_facts(alloc)?;
    Ok(Object {
        properties,
        additional,
        property_names,
        ..facts
    })
}

#[cycle(filled)]
fn filled_properties<F: Fill>(
    alloc: Global,
    properties: &[(Text, Tree<F::Hole>)],
    fill: &F,
) -> Result<List<(Text, Tree<F::Leaf>)>, AllocError>
    ensures { IfOk result
        (λ ps. named_views F.meaning ps
        ≡ bind_properties (F.put fill.now) (named_views F.origin properties.now)) }
{
    let mut made = List::new(alloc);
    for property in properties {
        let schema = filled_tree(alloc, &property.1, fill)?;
        made.push((property.0.copy(alloc)?, schema))?;
    }
    Ok(made)
}

#[cycle(filled)]
fn filled_additional<F: Fill>(
    alloc: Global,
    additional: &Additional<F::Hole>,
    fill: &F,
) -> Result<Additional<F::Leaf>, AllocError>
    ensures { IfOk result (λ a. additional_view F.meaning a
        ≡ bind_part (F.put fill.now) (additional_view F.origin additional.now)) }
{
    match additional {
        Additional::Absent => Ok(Additional::Absent),
        Additional::Truth(truth) => Ok(Additional::Truth(*truth)),
        Additional::Of(schema) => Ok(Additional::Of(filled_tree(alloc, schema, fill)?)),
    }
}

#[cycle(filled)]
fn filled_option<F: Fill>(
    alloc: Global,
    tree: &Option<Tree<F::Hole>>,
    fill: &F,
) -> Result<Option<Tree<F::Leaf>>, AllocError>
    ensures { IfOk result
        (λ t. optional_view F.meaning t
        ≡ bind_part (F.put fill.now) (optional_view F.origin tree.now)) }
{
    match tree {
        None => Ok(None),
        Some(tree) => Ok(Some(filled_tree(alloc, tree, fill)?)),
    }
}

#[cycle(filled)]
fn filled_array<F: Fill>(
    alloc: Global,
    array: &Array<F::Hole>,
    fill: &F,
) -> Result<Array<F::Leaf>, AllocError>
    ensures { IfOk result
        (λ a. array_view F.meaning a ≡ bind (F.put fill.now) (array_view F.origin array.now)) }
{
    Ok(Array {
        nullable: array.nullable,
        items: filled_items(alloc, &array.items, fill)?,
        prefix_items: filled_trees(alloc, array.prefix_items.as_slice(), fill)?,
        unique: array.unique,
        max_items: array.max_items,
        min_items: array.min_items,
        annotations: array.annotations.copy(alloc)?,
    })
}

#[cycle(filled)]
fn filled_items<F: Fill>(
    alloc: Global,
    items: &ArrayItems<F::Hole>,
    fill: &F,
) -> Result<ArrayItems<F::Leaf>, AllocError>
    ensures { IfOk result (λ i. array_items_view F.meaning i
        ≡ bind_part (F.put fill.now) (array_items_view F.origin items.now)) }
{
    match items {
        ArrayItems::False => Ok(ArrayItems::False),
        ArrayItems::Each(schema) => Ok(ArrayItems::Each(filled_tree(alloc, schema, fill)?)),
    }
}

#[cycle(filled)]
fn filled_one_of<F: Fill>(
    alloc: Global,
    one_of: &OneOfSchema<F::Hole>,
    fill: &F,
) -> Result<OneOfSchema<F::Leaf>, AllocError>
    ensures { IfOk result
        (λ o. one_of_view F.meaning o ≡ bind (F.put fill.now) (one_of_view F.origin one_of.now)) }
{
    Ok(OneOfSchema {
        items: filled_trees(alloc, one_of.items.as_slice(), fill)?,
        annotations: one_of.annotations.copy(alloc)?,
    })
}

#[cycle(filled)]
fn filled_all_of<F: Fill>(
    alloc: Global,
    all_of: &AllOfSchema<F::Hole>,
    fill: &F,
) -> Result<AllOfSchema<F::Leaf>, AllocError>
    ensures { IfOk result
        (λ a. all_of_view F.meaning a ≡ bind (F.put fill.now) (all_of_view F.origin all_of.now)) }
{
    Ok(AllOfSchema {
        items: filled_trees(alloc, all_of.items.as_slice(), fill)?,
        annotations: all_of.annotations.copy(alloc)?,
    })
}

#[cycle(filled)]
fn filled_trees<F: Fill>(
    alloc: Global,
    trees: &[Tree<F::Hole>],
    fill: &F,
) -> Result<List<Tree<F::Leaf>>, AllocError>
    ensures { IfOk result
        (λ ts. tree_views F.meaning ts
        ≡ bind_schemas (F.put fill.now) (tree_views F.origin trees.now)) }
{
    let mut made = List::new(alloc);
    for tree in trees {
        made.push(filled_tree(alloc, tree, fill)?)?;
    }
    Ok(made)
}
