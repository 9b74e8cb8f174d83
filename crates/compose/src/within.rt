//! Instances within their bounds.

ghost use Rattle.std.specs.Prelude.{◌≡◌, ◌≤◌, ◌⊎◌, length, map, IfOk};
ghost use Rattle.diag.specs.Refusal.{Refuses};
ghost use Rattle.shapes.specs.Declarations.{AreFitting};
ghost use Rattle.shapes.specs.Views.{declaration_view};
ghost use Rattle.instances.specs.Lists.{AreInstances, instance_at};
ghost use Rattle.closing.specs.Closed.{most_inlined};
ghost use Rattle.closing.specs.Copies.{instance_copies, sum_over};
ghost use Rattle.closing.specs.Described.{AreShallow};
ghost use Rattle.closing.specs.Links.{inlining_of, referring_of};
ghost use Rattle.compose.specs.Bounds.{AreBounded, ArePlaced, IsCopied, IsDeep, IsUnbounded, collects_all};
ghost use Rattle.compose.specs.Within.{AreShown, AreWithin};

use crate::bounds::{few_copies, few_instances, names_apart, shallow_order};
use closing::{Links, linked_terms, shown_of};
use component::Term;
use configuration::{Config, SchemaCollect};
use diag::DeriveError;
use inlining::Shown;
use instances::{Names, Reach};
use shapes::Declaration;
use std::alloc::Global;
use texts::List;
use written_types::Ident;

/// The instances of a source, within their bounds.
#[derive(Drop)]
pub(crate) struct Bounded {
    /// Whether each reachable instance is a component.
    pub(crate) all: bool,
    pub(crate) reach: Reach,
    pub(crate) names: Names,
    pub(crate) terms: Vec<Term>,
    pub(crate) links: Links,
    /// Each instance behind those whose schemas stand in its own.
    pub(crate) order: List<usize>,
    pub(crate) shown: Shown,
}

/// Whether each reachable instance is a component.
fn collects_all(config: &Config) -> bool
    ensures { result ≡ collects_all config.now.collect }
{
    match config.collect() {
        SchemaCollect::NonInlined => false,
        SchemaCollect::All => true,
    }
}

/// An order of the instances and what is shown of them, where no inline path is too long and the copies are not too many.
fn shown_within(
    alloc: Global,
    idents: &[Ident],
    resolved: &[Declaration],
    config: &Config,
    reach: &Reach,
    links: &Links,
) -> Result<(List<usize>, Shown), DeriveError>
    requires fitting { AreFitting (map declaration_view resolved.now) }
    requires instances { AreInstances (map declaration_view resolved.now) reach.now }
    requires placed { ArePlaced (length idents.now) reach.now }
    requires targets { links.now.targets ≡ inlining_of (map declaration_view resolved.now) reach.now }
    requires references { links.now.references
        ≡ referring_of (map declaration_view resolved.now) reach.now }
    ensures shallow { IfOk result (λ _. AreShallow (map declaration_view resolved.now)) }
    ensures shown { IfOk result (λ p. AreShown (map declaration_view resolved.now)
        (collects_all config.now.collect) reach.now p.0 p.1) }
    ensures copied { IfOk result (λ p. sum_over
        (instance_copies (map declaration_view resolved.now) most_inlined)
        (map (instance_at reach.now) p.1.components) ≤ config.now.copies) }
    ensures refused { Refuses result (λ e. IsDeep idents.now (map declaration_view resolved.now) e
        ⊎ (AreShallow (map declaration_view resolved.now)
        × IsCopied config.now (map declaration_view resolved.now) e)) }
{
    closing::shallow_by_numbers();
    closing::copies_by_numbers();
    let targets = links.targets.as_slice();
    let order = shallow_order(alloc, idents, resolved, reach, targets)?;
    let shown = shown_of(alloc, resolved, reach, links, collects_all(config))?;
    let components = shown.components.as_slice();
    few_copies(alloc, targets, order.as_slice(), components, config)?;
    Ok((order, shown))
}

/// The instances of the declarations with these names, where nothing is beyond its bound.
pub(crate) fn within_bounds(
    alloc: Global,
    idents: &[Ident],
    resolved: &[Declaration],
    config: &Config,
) -> Result<Bounded, DeriveError>
    requires fitting { AreFitting (map declaration_view resolved.now) }
    requires many { length idents.now ≡ length resolved.now }
    ensures bounded { IfOk result (λ _. AreBounded config.now (map declaration_view resolved.now)) }
    ensures all { IfOk result (λ b. b.all ≡ collects_all config.now.collect) }
    ensures within { IfOk result (AreWithin (map declaration_view resolved.now)) }
    ensures refused { Refuses result
        (IsUnbounded config.now idents.now (map declaration_view resolved.now)) }
{
    let reach = few_instances(alloc, idents, resolved, config)?;
    let names = names_apart(alloc, idents, resolved, &reach)?;
    let (terms, links) = linked_terms(alloc, resolved, &reach)?;
    let (order, shown) = shown_within(alloc, idents, resolved, config, &reach, &links)?;
    Ok(Bounded {
        all: collects_all(config),
        reach,
        names,
        terms,
        links,
        order,
        shown,
    })
}
