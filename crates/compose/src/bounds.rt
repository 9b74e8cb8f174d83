//! The bounds on instances.

ghost use Rattle.std.specs.Prelude.{◌≡◌, ◌<◌, ◌≤◌, ◌⊎◌, ℕ, length, map, IfOk};
ghost use Rattle.diag.specs.Refusal.{IsRefusal, Refuses};
ghost use Rattle.texts.specs.Span.{no_span};
ghost use Rattle.resolving.specs.Resolved.{most_names};
ghost use Rattle.shapes.specs.Declarations.{AreFitting};
ghost use Rattle.shapes.specs.Views.{declaration_view};
ghost use Rattle.inlining.specs.Inlining.{IsAmong, IsAtMost, IsOrder, copies, sum_of};
ghost use Rattle.instances.specs.Lists.{AreInstances};
ghost use Rattle.instances.specs.Names.{NamesDiffer, instance_names};
ghost use Rattle.instances.specs.Walk.{AreReached};
ghost use Rattle.closing.specs.Links.{inlining_of};
ghost use Rattle.closing.specs.Closed.{most_inlined};
ghost use Rattle.compose.specs.Bounds.{ArePlaced, IsCrowded, IsLarge, IsClash, IsDeep, copied_message};

use crate::refusals::{clash, too_deep, too_large, too_many_copies, too_many_instances};
use configuration::Config;
use diag::{DeriveError, Kind};
use inlining::{Depth, are_more_copies, inline_order};
use instances::{Names, Naming, Reach, WalkError, instance_names, reach_of};
use resolving::MAX_NAMES;
use shapes::Declaration;
use std::alloc::Global;
use texts::List;
use written_types::Ident;

/// An inline path has at most so many instances.
const MOST_INLINED: usize = 32;

/// The reachable instances of the declarations with these names; refuses more than may be, and one of more names than may be.
pub(crate) fn few_instances(
    alloc: Global,
    idents: &[Ident],
    resolved: &[Declaration],
    config: &Config,
) -> Result<Reach, DeriveError>
    requires fitting { AreFitting (map declaration_view resolved.now) }
    requires many { length idents.now ≡ length resolved.now }
    ensures reached { IfOk result
        (AreReached (map declaration_view resolved.now) config.now.limit most_names) }
    ensures placed { IfOk result (ArePlaced (length idents.now)) }
    ensures refused { Refuses result
        (λ e. IsCrowded config.now idents.now (map declaration_view resolved.now) e
        ⊎ IsLarge idents.now (map declaration_view resolved.now) e) }
{
    instances::reachable_fit();
    let limit = config.limit();
    match reach_of(alloc, resolved, limit, MAX_NAMES) {
        Ok(reach) => Ok(reach),
        Err(WalkError::Memory) => Err(DeriveError::Memory),
        Err(WalkError::TooMany(place)) => {
            Err(too_many_instances(alloc, idents[place].span, limit)?)
        }
        Err(WalkError::TooLarge(place)) => Err(too_large(alloc, idents[place].span)),
    }
}

/// The names of the instances; refuses two of one name.
pub(crate) fn names_apart(
    alloc: Global,
    idents: &[Ident],
    resolved: &[Declaration],
    reach: &Reach,
) -> Result<Names, DeriveError>
    requires instances { AreInstances (map declaration_view resolved.now) reach.now }
    requires placed { ArePlaced (length idents.now) reach.now }
    ensures names { IfOk result
        (λ names. names ≡ instance_names (map declaration_view resolved.now) reach.now) }
    ensures differ { IfOk result (λ _. NamesDiffer (map declaration_view resolved.now)) }
    ensures refused { Refuses result (IsClash idents.now (map declaration_view resolved.now)) }
{
    instances::distinct_names_differ();
    match instance_names(alloc, resolved, reach)? {
        Naming::Apart(names) => Ok(names),
        Naming::Clash(first, second) => {
            Err(clash(alloc, idents, resolved, reach, first, second)?)
        }
    }
}

/// An order in which each instance stands behind its targets; refuses an inline path that is too long.
pub(crate) fn shallow_order(
    alloc: Global,
    idents: &[Ident],
    resolved: &[Declaration],
    reach: &Reach,
    targets: &[List<usize>],
) -> Result<List<usize>, DeriveError>
    requires instances { AreInstances (map declaration_view resolved.now) reach.now }
    requires placed { ArePlaced (length idents.now) reach.now }
    requires targets { targets.now
        ≡ inlining_of (map declaration_view resolved.now) reach.now }
    ensures shallow { IfOk result (λ _. IsAtMost most_inlined targets.now) }
    ensures order { IfOk result (λ order. IsOrder targets.now order) }
    ensures refused { Refuses result (IsDeep idents.now (map declaration_view resolved.now)) }
{
    closing::numbers_stand();
    closing::paths_by_numbers();
    match inline_order(alloc, targets, MOST_INLINED)? {
        Depth::Within(order) => Ok(order),
        Depth::Beyond(path) => Err(too_deep(alloc, idents, reach, path.as_slice())?),
    }
}

/// Refuses more copies than may be inlined in the components.
pub(crate) fn few_copies(
    alloc: Global,
    targets: &[List<usize>],
    order: &[usize],
    components: &[usize],
    config: &Config,
) -> Result<(), DeriveError>
    requires shallow { IsAtMost most_inlined targets.now }
    requires order { IsOrder targets.now order.now }
    requires within { (n : ℕ) → IsAmong n components.now → n < length targets.now }
    ensures few { IfOk result (λ _. sum_of (copies targets.now most_inlined) components.now
        ≤ config.now.copies) }
    ensures refused { Refuses result
        (λ e. (config.now.copies < sum_of (copies targets.now most_inlined) components.now)
        × IsRefusal Kind.TooManyCopies no_span (copied_message config.now.copies) e) }
{
    let copies = config.copies();
    if are_more_copies(alloc, targets, order, components, MOST_INLINED, copies)? {
        return Err(too_many_copies(alloc, copies)?);
    }
    Ok(())
}
