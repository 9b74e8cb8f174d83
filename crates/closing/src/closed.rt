//! The schemas of instances, in which those of others stand.

ghost use Rattle.std.specs.Prelude.{◌≡◌, ◌<◌, length, map, IfOk};
ghost use Rattle.schema_trees.specs.Schema.{schema_view, leaf};
ghost use Rattle.open_types.specs.Open.{open_view};
ghost use Rattle.component.specs.Leaves.{term_view};
ghost use Rattle.shapes.specs.InstanceNames.{instance_name};
ghost use Rattle.shapes.specs.Views.{declaration_view};
ghost use Rattle.inlining.specs.Inlining.{IsOrder};
ghost use Rattle.instances.specs.Lists.{AreInstances};
ghost use Rattle.closing.specs.Closed.{any_value, schema_in};
ghost use Rattle.closing.specs.Closed.{made_at};
ghost use Rattle.closing.specs.Described.{AreShallow};
ghost use Rattle.closing.specs.Links.{inlining_of};
ghost use Rattle.closing.specs.Made.{AreAlong, AreTerms, AreSchemas};

use component::{Term, TermLeaf};
use filling::{Fill, copy_schema, filled};
use instances::{Reach, instance_name};
use open_types::OpenType;
use schema_trees::{Annotations, Object, RefLeaf, Schema, Tree, TypeWord};
use shapes::Declaration;
use std::alloc::{AllocError, Global};
use texts::Text;

/// What stands at the leaves of a term: the schemas of instances, as far as they are made, and references to components.
#[derive(Drop)]
struct Closing<'s> {
    declared: &'s [Declaration],
    reach: &'s Reach,
    /// The schema of each instance; of one that is not made yet, what stands in its place.
    made: &'s [Schema],
}

/// A schema that says nothing.
pub(crate) fn any_value(alloc: Global) -> Result<Schema, AllocError>
    ensures { IfOk result (λ s. schema_view s ≡ any_value) }
{
    let object = Object::new(alloc, TypeWord::Any, Annotations::new());
    Ok(Tree::Object(Box::new(alloc, object)?))
}

/// What stands in the place of a schema that is not made yet, or that was taken: a reference to nothing. It takes no memory.
pub(crate) fn in_its_place(alloc: Global) -> Schema {
    Tree::Leaf(RefLeaf {
        name: Text::from(String::new(alloc)),
        annotations: Annotations::new(),
    })
}

/// The schema of the instance of a number; past the end, one that says nothing.
fn schema_at(alloc: Global, made: &[Schema], number: usize) -> Result<Schema, AllocError>
    ensures { IfOk result (λ s. schema_view s ≡ schema_in (map schema_view made.now) number) }
{
    if number < made.len() {
        copy_schema(alloc, &made[number])
    } else {
        any_value(alloc)
    }
}

/// The schema of the instance; where it has no number, one that says nothing.
fn made_at(
    alloc: Global,
    reach: &Reach,
    made: &[Schema],
    ty: &OpenType,
) -> Result<Schema, AllocError>
    ensures { IfOk result (λ s. schema_view s
        ≡ made_at reach.now (map schema_view made.now) (open_view ty.now)) }
{
    match reach.number(ty) {
        Some(number) => schema_at(alloc, made, number),
        None => any_value(alloc),
    }
}

/// A reference with the annotations to the component of the instance.
pub(crate) fn reference_to(
    alloc: Global,
    declared: &[Declaration],
    ty: &OpenType,
    annotations: &Annotations,
) -> Result<Schema, AllocError>
    ensures { IfOk result
        (λ s. schema_view s
        ≡ leaf (record {
          name = instance_name (map declaration_view declared.now) (open_view ty.now);
          annotations =
              annotations.now;
        })) }
{
    Ok(Tree::Leaf(RefLeaf {
        name: instance_name(alloc, declared, ty)?,
        annotations: annotations.copy(alloc)?,
    }))
}

impl Fill for Closing<'_> {
    ghost use Rattle.std.specs.Prelude.{map};
    ghost use Rattle.schema_trees.specs.declared.tree.RefLeaf.{RefLeaf as AnyReference};
    ghost use Rattle.schema_trees.specs.Schema.{schema_view};
    ghost use Rattle.component.specs.Leaves.{LeafOf, leaf_view};
    ghost use Rattle.closing.specs.Closed.{put, made_at};

    type Hole = TermLeaf;

    type Leaf = RefLeaf;

    ghost Origin = { LeafOf };

    ghost origin = { leaf_view };

    ghost Meaning = { AnyReference };

    ghost meaning = { λ l. l };

    ghost put = { λ c l. put (map declaration_view c.declared.now)
        (made_at c.reach.now (map schema_view c.made.now)) l };

    fn fill(&self, alloc: Global, leaf: &TermLeaf) -> Result<Schema, AllocError> {
        match leaf {
            TermLeaf::Param(_) => any_value(alloc),
            TermLeaf::Named {
                of,
                inline,
                annotations,
            } => {
                if *inline {
                    made_at(alloc, self.reach, self.made, of)
                } else {
                    reference_to(alloc, self.declared, of, annotations)
                }
            }
        }
    }
}

/// So many places of schemas that are not made yet.
fn none_made(alloc: Global, count: usize) -> Result<Vec<Schema>, AllocError>
    ensures { IfOk result (λ made. length made.items ≡ count) }
{
    let mut made = Vec::new(alloc);
    for _ in 0..count {
        made.push(in_its_place(alloc))?;
    }
    Ok(made)
}

/// The schema of each instance that is marked, where `order` has each behind those whose schemas stand in its own, and these
/// are marked too. A term is let go as soon as its place in the order is passed.
pub(crate) fn closed(
    alloc: Global,
    declared: &[Declaration],
    reach: &Reach,
    mut terms: Vec<Term>,
    order: &[usize],
    marks: &[bool],
) -> Result<Vec<Schema>, AllocError>
    requires instances { AreInstances (map declaration_view declared.now) reach.now }
    requires shallow { AreShallow (map declaration_view declared.now) }
    requires order { IsOrder (inlining_of (map declaration_view declared.now) reach.now)
        order.now }
    requires along { AreAlong marks.now
        (inlining_of (map declaration_view declared.now) reach.now) }
    requires as_many { length terms.items ≡ length reach.now }
    requires marked { length marks.now ≡ length reach.now }
    requires terms { AreTerms (map declaration_view declared.now) reach.now marks.now
        (map term_view terms.items) }
    ensures many { IfOk result (λ made. length made.items ≡ length reach.now) }
    ensures schemas { IfOk result
        (λ made. AreSchemas (map declaration_view declared.now) reach.now marks.now
        (map schema_view made.items)) }
{
    inlining::orders_stand();
    open_types::same_types_are_equal();
    open_types::types_stay_without_arguments();
    let mut made = none_made(alloc, reach.len())?;
    for number in order {
        let term = std::mem::replace(&mut terms[*number], Tree::Leaf(TermLeaf::Param(0)));
        if marks[*number] {
            let closing = Closing {
                declared,
                reach,
                made: made.as_slice(),
            };
            let schema = filled(alloc, &term, &closing)?;
            made[*number] = schema;
        }
    }
    Ok(made)
}
