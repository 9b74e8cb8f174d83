//! The terms of instances, and the instances that they name, by number.

ghost use Rattle.std.specs.Prelude.{◌≡◌, ◌<◌, ◌++◌, ◌∷◌, [], length, map, IfOk, OnOk};
ghost use Rattle.schema_trees.specs.Schema.{object_view, tree_views, named_views, additional_view, array_items_view, optional_view, array_view};
ghost use Rattle.component.specs.Leaves.{leaf_view, term_view};
ghost use Rattle.component.specs.References.{leaf_references, named_leaves, schema_leaves, property_leaves, part_leaves};
ghost use Rattle.terms.specs.InstanceTerms.{instance_term};
ghost use Rattle.shapes.specs.Declarations.{AreFitting};
ghost use Rattle.shapes.specs.Views.{declaration_view};
ghost use Rattle.instances.specs.Lists.{instance_at, AreInstances};
ghost use Rattle.closing.specs.Links.{numbered, numbered_inline, numbered_referred, targets_at, references_at, inlining_of, referring_of};

use component::{Place, Term, TermLeaf, place_term};
use filling::{Fill, filled};
use instances::Reach;
use open_types::{ClosedType, OpenType, substitute_first};
use schema_trees::{Additional, Array, ArrayItems, Object, Tree};
use shapes::Declaration;
use std::alloc::{AllocError, Global};
use terms::declaration_term;
use texts::{List, Text};

/// For each instance, the instances whose schemas stand in its own, and those that it refers to, as often as they stand there.
#[derive(Debug, Drop)]
pub struct Links {
    pub targets: List<List<usize>>,
    pub references: List<List<usize>>,
}

/// The instances that a term names: those whose schemas stand in it, and those that it refers to.
#[derive(Drop)]
struct Named {
    targets: List<usize>,
    references: List<usize>,
}

/// What stands at the leaves of a declaration's term, where the arguments are put in.
#[derive(Drop)]
struct WithArguments<'a> {
    arguments: &'a [ClosedType],
}

impl Fill for WithArguments<'_> {
    ghost use Rattle.component.specs.Leaves.{LeafOf, leaf_view};
    ghost use Rattle.open_types.specs.Open.{opens_view};
    ghost use Rattle.terms.specs.InstanceTerms.{with_arguments};

    type Hole = TermLeaf;

    type Leaf = TermLeaf;

    ghost Origin = { LeafOf };

    ghost origin = { leaf_view };

    ghost Meaning = { LeafOf };

    ghost meaning = { leaf_view };

    ghost put = { λ w l. with_arguments (opens_view w.arguments.now) l };

    fn fill(&self, alloc: Global, leaf: &TermLeaf) -> Result<Term, AllocError> {
        match leaf {
            TermLeaf::Param(place) => {
                let of = substitute_first(alloc, &OpenType::Param(*place), self.arguments)?;
                let at = Place {
                    nullable: false,
                    inline: true,
                    deprecated: false,
                    description: &None,
                };
                place_term(alloc, at, &of)
            }
            TermLeaf::Named {
                of,
                inline,
                annotations,
            } => Ok(Tree::Leaf(TermLeaf::Named {
                of: substitute_first(alloc, of, self.arguments)?,
                inline: *inline,
                annotations: annotations.copy(alloc)?,
            })),
        }
    }
}

/// The term of the instance.
pub(crate) fn term_of(
    alloc: Global,
    declared: &[Declaration],
    reach: &Reach,
    number: usize,
) -> Result<Term, AllocError>
    requires fitting { AreFitting (map declaration_view declared.now) }
    requires instances { AreInstances (map declaration_view declared.now) reach.now }
    requires number { number < length reach.now }
    ensures { IfOk result
        (λ t. term_view t
        ≡ instance_term (map declaration_view declared.now) (instance_at reach.now number)) }
{
    instances::reachable_fit();
    terms::root_terms();
    let arguments = reach.arguments(alloc, number)?;
    let term = declaration_term(alloc, &declared[reach.declaration(number)])?;
    if arguments.is_empty() {
        return Ok(term);
    }
    let with_arguments = WithArguments {
        arguments: arguments.as_slice(),
    };
    filled(alloc, &term, &with_arguments)
}

/// The instance of the leaf.
fn push_leaf(found: &mut Named, reach: &Reach, leaf: &TermLeaf) -> Result<(), AllocError>
    ensures targets { OnOk result (found.new.targets ≡ found.old.targets
        ++ numbered_inline reach.now (leaf_references (leaf_view leaf.now))) }
    ensures references { OnOk result (found.new.references ≡ found.old.references
        ++ numbered_referred reach.now (leaf_references (leaf_view leaf.now))) }
{
    match leaf {
        TermLeaf::Named { of, inline, .. } => match reach.number(of) {
            Some(number) if *inline => found.targets.push(number),
            Some(number) => found.references.push(number),
            None => Ok(()),
        },
        TermLeaf::Param(_) => Ok(()),
    }
}

#[cycle(links)]
fn push_links(found: &mut Named, reach: &Reach, term: &Term) -> Result<(), AllocError>
    ensures targets { OnOk result (found.new.targets ≡ found.old.targets
        ++ numbered_inline reach.now (named_leaves (term_view term.now))) }
    ensures references { OnOk result (found.new.references ≡ found.old.references
        ++ numbered_referred reach.now (named_leaves (term_view term.now))) }
{
    match term {
        Tree::Leaf(leaf) => push_leaf(found, reach, leaf),
        Tree::Object(object) => push_object(found, reach, object),
        Tree::Array(array) => push_array(found, reach, array),
        Tree::OneOf(one_of) => push_all(found, reach, one_of.items.as_slice()),
        Tree::AllOf(all_of) => push_all(found, reach, all_of.items.as_slice()),
    }
}

#[cycle(links)]
fn push_object(
    found: &mut Named,
    reach: &Reach,
    object: &Object<TermLeaf>,
) -> Result<(), AllocError>
    ensures targets { OnOk result (found.new.targets ≡ found.old.targets
        ++ numbered_inline reach.now (named_leaves (object_view leaf_view object.now))) }
    ensures references { OnOk result (found.new.references ≡ found.old.references
        ++ numbered_referred reach.now (named_leaves (object_view leaf_view object.now))) }
{
    push_properties(found, reach, object.properties.as_slice())?;
    push_names(found, reach, &object.property_names)?;
    push_values(found, reach, &object.additional)
}

#[cycle(links)]
fn push_properties(
    found: &mut Named,
    reach: &Reach,
    properties: &[(Text, Term)],
) -> Result<(), AllocError>
    ensures targets { OnOk result (found.new.targets ≡ found.old.targets
        ++ numbered_inline reach.now (property_leaves (named_views leaf_view properties.now))) }
    ensures references { OnOk result (found.new.references ≡ found.old.references
        ++ numbered_referred reach.now (property_leaves (named_views leaf_view properties.now))) }
{
    for property in properties {
        push_links(found, reach, &property.1)?;
    }
    Ok(())
}

#[cycle(links)]
fn push_names(found: &mut Named, reach: &Reach, names: &Option<Term>) -> Result<(), AllocError>
    ensures targets { OnOk result (found.new.targets ≡ found.old.targets
        ++ numbered_inline reach.now (part_leaves (optional_view leaf_view names.now))) }
    ensures references { OnOk result (found.new.references ≡ found.old.references
        ++ numbered_referred reach.now (part_leaves (optional_view leaf_view names.now))) }
{
    match names {
        Some(names) => push_links(found, reach, names),
        None => Ok(()),
    }
}

#[cycle(links)]
fn push_values(
    found: &mut Named,
    reach: &Reach,
    values: &Additional<TermLeaf>,
) -> Result<(), AllocError>
    ensures targets { OnOk result (found.new.targets ≡ found.old.targets
        ++ numbered_inline reach.now (part_leaves (additional_view leaf_view values.now))) }
    ensures references { OnOk result (found.new.references ≡ found.old.references
        ++ numbered_referred reach.now (part_leaves (additional_view leaf_view values.now))) }
{
    match values {
        Additional::Of(schema) => push_links(found, reach, schema),
        Additional::Absent | Additional::Truth(_) => Ok(()),
    }
}

#[cycle(links)]
fn push_array(found: &mut Named, reach: &Reach, array: &Array<TermLeaf>) -> Result<(), AllocError>
    ensures targets { OnOk result (found.new.targets ≡ found.old.targets
        ++ numbered_inline reach.now (named_leaves (array_view leaf_view array.now))) }
    ensures references { OnOk result (found.new.references ≡ found.old.references
        ++ numbered_referred reach.now (named_leaves (array_view leaf_view array.now))) }
{
    push_all(found, reach, array.prefix_items.as_slice())?;
    push_items(found, reach, &array.items)
}

#[cycle(links)]
fn push_items(
    found: &mut Named,
    reach: &Reach,
    items: &ArrayItems<TermLeaf>,
) -> Result<(), AllocError>
    ensures targets { OnOk result (found.new.targets ≡ found.old.targets
        ++ numbered_inline reach.now (part_leaves (array_items_view leaf_view items.now))) }
    ensures references { OnOk result (found.new.references ≡ found.old.references
        ++ numbered_referred reach.now (part_leaves (array_items_view leaf_view items.now))) }
{
    match items {
        ArrayItems::Each(schema) => push_links(found, reach, schema),
        ArrayItems::False => Ok(()),
    }
}

#[cycle(links)]
fn push_all(found: &mut Named, reach: &Reach, terms: &[Term]) -> Result<(), AllocError>
    ensures targets { OnOk result (found.new.targets ≡ found.old.targets
        ++ numbered_inline reach.now (schema_leaves (tree_views leaf_view terms.now))) }
    ensures references { OnOk result (found.new.references ≡ found.old.references
        ++ numbered_referred reach.now (schema_leaves (tree_views leaf_view terms.now))) }
{
    for term in terms {
        push_links(found, reach, term)?;
    }
    Ok(())
}

/// The instances that the term names, as often as they stand there.
fn named_in(alloc: Global, reach: &Reach, term: &Term) -> Result<Named, AllocError>
    ensures targets { IfOk result
        (λ n. n.targets ≡ numbered_inline reach.now (named_leaves (term_view term.now))) }
    ensures references { IfOk result
        (λ n. n.references ≡ numbered_referred reach.now (named_leaves (term_view term.now))) }
{
    let mut found = Named {
        targets: List::new(alloc),
        references: List::new(alloc),
    };
    push_links(&mut found, reach, term)?;
    Ok(found)
}

/// The term of the instance, whose links are added.
fn linked_term(
    alloc: Global,
    declared: &[Declaration],
    reach: &Reach,
    links: &mut Links,
    number: usize,
) -> Result<Term, AllocError>
    requires fitting { AreFitting (map declaration_view declared.now) }
    requires instances { AreInstances (map declaration_view declared.now) reach.now }
    requires number { number < length reach.now }
    ensures term { IfOk result (λ t. term_view t
        ≡ instance_term (map declaration_view declared.now) (instance_at reach.now number)) }
    ensures targets { OnOk result (links.new.targets ≡ links.old.targets
        ++ numbered reach.now (targets_at (map declaration_view declared.now)
        (instance_at reach.now number)) ∷ []) }
    ensures references { OnOk result (links.new.references ≡ links.old.references
        ++ numbered reach.now (references_at (map declaration_view declared.now)
        (instance_at reach.now number)) ∷ []) }
{
    let term = term_of(alloc, declared, reach, number)?;
    let named = named_in(alloc, reach, &term)?;
    links.targets.push(named.targets)?;
    links.references.push(named.references)?;
    Ok(term)
}

/// The terms of the instances, in their order, and their links.
pub fn linked_terms(
    alloc: Global,
    declared: &[Declaration],
    reach: &Reach,
) -> Result<(Vec<Term>, Links), AllocError>
    requires fitting { AreFitting (map declaration_view declared.now) }
    requires instances { AreInstances (map declaration_view declared.now) reach.now }
    ensures terms { IfOk result (λ p. map term_view p.0.items
        ≡ map (instance_term (map declaration_view declared.now)) reach.now) }
    ensures targets { IfOk result
        (λ p. p.1.targets ≡ inlining_of (map declaration_view declared.now) reach.now) }
    ensures references { IfOk result
        (λ p. p.1.references ≡ referring_of (map declaration_view declared.now) reach.now) }
{
    let mut terms = Vec::new(alloc);
    let mut links = Links {
        targets: List::new(alloc),
        references: List::new(alloc),
    };
    for number in 0..reach.len() {
        let term = linked_term(alloc, declared, reach, &mut links, number)?;
        terms.push(term)?;
    }
    Ok((terms, links))
}
