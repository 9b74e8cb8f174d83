//! The schema of one instance.

ghost use Rattle.std.specs.Prelude.{◌≡◌, ◌<◌, ℕ, length, map, IfOk, IsTrue};
ghost use Rattle.schema_trees.specs.Schema.{schema_view};
ghost use Rattle.component.specs.Leaves.{term_view};
ghost use Rattle.shapes.specs.Declarations.{AreFitting};
ghost use Rattle.shapes.specs.Views.{declaration_view};
ghost use Rattle.terms.specs.InstanceTerms.{instance_term};
ghost use Rattle.inlining.specs.Inlining.{IsAmong, IsOrder, targets_of};
ghost use Rattle.instances.specs.Lists.{AreInstances, instance_at};
ghost use Rattle.closing.specs.Closed.{instance_schema};
ghost use Rattle.closing.specs.Described.{AreShallow};
ghost use Rattle.closing.specs.Links.{inlining_of};
ghost use Rattle.closing.specs.Made.{AreTerms};

use crate::closed::{closed, in_its_place};
use crate::links::term_of;
use component::{Term, TermLeaf};
use inlining::find_shown;
use instances::Reach;
use schema_trees::{Schema, Tree};
use shapes::Declaration;
use std::alloc::{AllocError, Global};
use texts::List;

/// The term of the instance, where it is marked; else any leaf.
fn term_where(
    alloc: Global,
    declared: &[Declaration],
    reach: &Reach,
    number: usize,
    marked: bool,
) -> Result<Term, AllocError>
    requires fitting { AreFitting (map declaration_view declared.now) }
    requires instances { AreInstances (map declaration_view declared.now) reach.now }
    requires number { number < length reach.now }
    ensures { IfOk result (λ t. IsTrue marked → term_view t
        ≡ instance_term (map declaration_view declared.now) (instance_at reach.now number)) }
{
    if marked {
        term_of(alloc, declared, reach, number)
    } else {
        Ok(Tree::Leaf(TermLeaf::Param(0)))
    }
}

/// The terms of the instances that are marked.
fn marked_terms(
    alloc: Global,
    declared: &[Declaration],
    reach: &Reach,
    marks: &[bool],
) -> Result<Vec<Term>, AllocError>
    requires fitting { AreFitting (map declaration_view declared.now) }
    requires instances { AreInstances (map declaration_view declared.now) reach.now }
    requires marks { length marks.now ≡ length reach.now }
    ensures many { IfOk result (λ terms. length terms.items ≡ length reach.now) }
    ensures terms { IfOk result (λ terms. AreTerms (map declaration_view declared.now) reach.now
        marks.now (map term_view terms.items)) }
{
    let mut terms = Vec::new(alloc);
    for number in 0..marks.len() {
        terms.push(term_where(alloc, declared, reach, number, marks[number])?)?;
    }
    Ok(terms)
}

/// So many lists of no links.
fn no_links(alloc: Global, count: usize) -> Result<List<List<usize>>, AllocError>
    ensures many { IfOk result (λ links. length links ≡ count) }
    ensures none { IfOk result (λ links. (n m : ℕ) → ¬ (IsAmong m (targets_of links n))) }
{
    let mut links = List::new(alloc);
    for _ in 0..count {
        links.push(List::new(alloc))?;
    }
    Ok(links)
}

/// The schema of the instance of the number, where `targets` has those whose schemas stand in each, and `order` each behind
/// these. Nothing is made of what does not stand in it.
pub fn schema_of(
    alloc: Global,
    declared: &[Declaration],
    reach: &Reach,
    targets: &[List<usize>],
    order: &[usize],
    number: usize,
) -> Result<Schema, AllocError>
    requires fitting { AreFitting (map declaration_view declared.now) }
    requires instances { AreInstances (map declaration_view declared.now) reach.now }
    requires shallow { AreShallow (map declaration_view declared.now) }
    requires targets { targets.now
        ≡ inlining_of (map declaration_view declared.now) reach.now }
    requires order { IsOrder (inlining_of (map declaration_view declared.now) reach.now)
        order.now }
    requires number { number < length reach.now }
    ensures { IfOk result (λ s. schema_view s
        ≡ instance_schema (map declaration_view declared.now) (instance_at reach.now number)) }
{
    crate::law::numbers_stand();
    let none = no_links(alloc, targets.len())?;
    let shown = find_shown(alloc, &[number], targets, none.as_slice())?;
    let marks = shown.marks.as_slice();
    let terms = marked_terms(alloc, declared, reach, marks)?;
    let mut made = closed(alloc, declared, reach, terms, order, marks)?;
    Ok(std::mem::replace(&mut made[number], in_its_place(alloc)))
}
