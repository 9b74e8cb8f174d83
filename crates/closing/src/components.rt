//! The components of declarations.

ghost use Rattle.std.specs.Prelude.{◌≡◌, ◌<◌, ℕ, length, map, IfOk, IsTrue};
ghost use Rattle.component.specs.Leaves.{term_view};
ghost use Rattle.inlining.specs.Inlining.{AreOnce, IsAmong, IsOrder};
ghost use Rattle.inlining.specs.Marks.{mark};
ghost use Rattle.instances.specs.Lists.{AreInstances};
ghost use Rattle.instances.specs.Names.{NamesDiffer, instance_names};
ghost use Rattle.shapes.specs.Views.{declaration_view};
ghost use Rattle.closing.specs.Described.{AreShallow};
ghost use Rattle.closing.specs.Links.{inlining_of};
ghost use Rattle.closing.specs.Made.{AreAlong, AreTerms, entries_at};

use crate::closed::{closed, in_its_place};
use component::Term;
use inlining::Shown;
use instances::Reach;
use schema_core::Components;
use shapes::Declaration;
use std::alloc::{AllocError, Global};
use texts::Text;

/// The components of the instances, where `names` has the names of all, which differ, `terms` the terms of those that are
/// shown, and `order` each instance behind those whose schemas stand in its own.
pub fn components_of(
    alloc: Global,
    declared: &[Declaration],
    reach: &Reach,
    names: &[Text],
    terms: Vec<Term>,
    order: &[usize],
    shown: &Shown,
) -> Result<Components, AllocError>
    requires instances { AreInstances (map declaration_view declared.now) reach.now }
    requires shallow { AreShallow (map declaration_view declared.now) }
    requires order { IsOrder (inlining_of (map declaration_view declared.now) reach.now)
        order.now }
    requires along { AreAlong shown.now.marks
        (inlining_of (map declaration_view declared.now) reach.now) }
    requires as_many { length terms.items ≡ length reach.now }
    requires marked { length shown.now.marks ≡ length reach.now }
    requires terms { AreTerms (map declaration_view declared.now) reach.now shown.now.marks
        (map term_view terms.items) }
    requires names { names.now ≡ instance_names (map declaration_view declared.now) reach.now }
    requires differ { NamesDiffer (map declaration_view declared.now) }
    requires once { AreOnce shown.now.components }
    requires within { (n : ℕ) → IsAmong n shown.now.components → n < length reach.now }
    requires shown { (n : ℕ) → IsAmong n shown.now.components → IsTrue (mark shown.now.marks n) }
    ensures { IfOk result (λ components. components
        ≡ entries_at (map declaration_view declared.now) reach.now shown.now.components) }
{
    let marks = shown.marks.as_slice();
    let mut made = closed(alloc, declared, reach, terms, order, marks)?;
    let mut components = Components::new(alloc);
    for number in shown.components.as_slice() {
        let schema = std::mem::replace(&mut made[*number], in_its_place(alloc));
        let name = names[*number].copy(alloc)?;
        components.insert(name, schema)?;
    }
    Ok(components)
}
