//! Which instances are shown, and which of them are components, by number.

ghost use Rattle.std.specs.Prelude.{◌≡◌, ◌<◌, ◌↔◌, ℕ, length, map, IfOk, IsTrue};
ghost use Rattle.inlining.specs.Inlining.{IsAmong, AreOnce};
ghost use Rattle.inlining.specs.Marks.{mark};
ghost use Rattle.shapes.specs.Declarations.{AreFitting};
ghost use Rattle.shapes.specs.Views.{declaration_view};
ghost use Rattle.instances.specs.Lists.{instance_at, AreInstances};
ghost use Rattle.closing.specs.Made.{AreAlong};
ghost use Rattle.closing.specs.Links.{inlining_of, referring_of, IsFirst, IsShown, AreComponentsOf};

use crate::links::Links;
use inlining::{Shown, find_shown};
use instances::Reach;
use shapes::Declaration;
use std::alloc::{AllocError, Global};
use texts::List;

/// Whether the instance is shown whatever others are: a root is, and where all are collected each.
fn is_first(declared: &[Declaration], reach: &Reach, number: usize, all: bool) -> bool
    requires fitting { AreFitting (map declaration_view declared.now) }
    requires instances { AreInstances (map declaration_view declared.now) reach.now }
    requires number { number < length reach.now }
    ensures { IsTrue result
        ↔ IsFirst (map declaration_view declared.now) all (instance_at reach.now number) }
{
    instances::reachable_fit();
    all || declared[reach.declaration(number)].parameters == 0
}

/// The instances that are shown whatever others are.
fn first_of(
    alloc: Global,
    declared: &[Declaration],
    reach: &Reach,
    all: bool,
) -> Result<List<usize>, AllocError>
    requires fitting { AreFitting (map declaration_view declared.now) }
    requires instances { AreInstances (map declaration_view declared.now) reach.now }
    ensures { IfOk result (λ first. (n : ℕ) → IsAmong n first
        ↔ ((n < length reach.now)
        × IsFirst (map declaration_view declared.now) all (instance_at reach.now n))) }
{
    let mut first = List::new(alloc);
    for number in 0..reach.len() {
        if is_first(declared, reach, number, all) {
            first.push(number)?;
        }
    }
    Ok(first)
}

/// Which instances are shown, and which of them are components.
pub fn shown_of(
    alloc: Global,
    declared: &[Declaration],
    reach: &Reach,
    links: &Links,
    all: bool,
) -> Result<Shown, AllocError>
    requires fitting { AreFitting (map declaration_view declared.now) }
    requires instances { AreInstances (map declaration_view declared.now) reach.now }
    requires targets { links.now.targets
        ≡ inlining_of (map declaration_view declared.now) reach.now }
    requires references { links.now.references
        ≡ referring_of (map declaration_view declared.now) reach.now }
    ensures marks { IfOk result (λ s. (n : ℕ) → n < length reach.now → IsTrue (mark s.marks n)
        ↔ IsShown (map declaration_view declared.now) all (instance_at reach.now n)) }
    ensures many { IfOk result (λ s. length s.marks ≡ length reach.now) }
    ensures along { IfOk result (λ s. AreAlong s.marks
        (inlining_of (map declaration_view declared.now) reach.now)) }
    ensures shown { IfOk result
        (λ s. (n : ℕ) → IsAmong n s.components → IsTrue (mark s.marks n)) }
    ensures numbers { IfOk result
        (λ s. (n : ℕ) → IsAmong n s.components → n < length reach.now) }
    ensures once { IfOk result (λ s. AreOnce s.components) }
    ensures components { IfOk result
        (λ s. AreComponentsOf (map declaration_view declared.now) all
        (map (instance_at reach.now) s.components)) }
{
    open_types::same_types_are_equal();
    open_types::types_stay_without_arguments();
    let first = first_of(alloc, declared, reach, all)?;
    let targets = links.targets.as_slice();
    let references = links.references.as_slice();
    find_shown(alloc, first.as_slice(), targets, references)
}
