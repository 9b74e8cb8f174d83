//! From declarations, and from a source, to their components.

ghost use Rattle.std.specs.Prelude.{◌≡◌, map, IfOk};
ghost use Rattle.diag.specs.Refusal.{Refuses};
ghost use Rattle.schema_core.specs.declared.alternatives.Alternatives.{Alternatives};
ghost use Rattle.schema_core.specs.Document.{document, document_by};
ghost use Rattle.schema_core.specs.Entries.{entry_names};
ghost use Rattle.open_types.specs.Open.{open_view};
ghost use Rattle.syntax.specs.Items.{declarations_view};
ghost use Rattle.syntax.specs.Named.{AreNamed};
ghost use Rattle.shapes.specs.Views.{declaration_view};
ghost use Rattle.closing.specs.Described.{Describes};
ghost use Rattle.closing.specs.Made.{entries_at};
ghost use Rattle.compose.specs.Bounds.{collects_all};
ghost use Rattle.compose.specs.Faults.{AreDerived, AreRefused, IsDerived, IsRefused};
ghost use Rattle.compose.specs.Types.{AreTypesOf};
ghost use Rattle.compose.specs.Within.{AreWithin};

use crate::settled::{bounded_of, bounded_of_source};
use crate::types::types_of;
use crate::within::Bounded;
use closing::components_of;
use configuration::Config;
use diag::DeriveError;
use open_types::ClosedType;
use schema_core::Components;
use shapes::Declaration;
use std::alloc::{AllocError, Global};
use syntax::Declarations;
use texts::List;

/// What is derived of a source.
#[derive(Debug, Drop)]
pub struct Derived {
    /// The schema of each component under its name.
    pub components: Components,
    /// The type of each component, in the order of the components: an instance.
    pub types: List<ClosedType>,
}

/// The components of instances that are within their bounds, and their types.
pub(crate) fn derived_within(
    alloc: Global,
    resolved: &[Declaration],
    bounded: Bounded,
) -> Result<Derived, AllocError>
    requires { AreWithin (map declaration_view resolved.now) bounded }
    ensures components { IfOk result (λ d. d.components ≡ entries_at
        (map declaration_view resolved.now) bounded.reach bounded.shown.components) }
    ensures types { IfOk result (λ d. AreTypesOf (map declaration_view resolved.now) bounded.all
        (entry_names d.components) (map open_view d.types)) }
{
    let Bounded {
        reach,
        names,
        terms,
        order,
        shown,
        ..
    } = bounded;
    closing::components_are_reachable();
    closing::entries_are();
    let order = order.as_slice();
    let components = components_of(
        alloc,
        resolved,
        &reach,
        names.as_slice(),
        terms,
        order,
        &shown,
    )?;
    let types = types_of(alloc, &reach, &names, components.names())?;
    Ok(Derived { components, types })
}

/// The components of the declarations. Each field in braces has a name, as it has in declarations that are read.
///
/// A refusal is as for `terms`; else it is as for `instances`.
pub fn derive_declarations(
    alloc: Global,
    declarations: Declarations,
    config: &Config,
) -> Result<Derived, DeriveError>
    requires { AreNamed (declarations_view declarations) }
    ensures derived { IfOk result
        (λ d. AreDerived config.now (declarations_view declarations) d.components) }
    ensures refused { Refuses result (AreRefused config.now (declarations_view declarations)) }
    // The document of the components describes the declarations, with alternatives under either keyword.
    ensures describes { IfOk result
        (λ d. (made : AreDerived config.now (declarations_view declarations) d.components)
        × ((by : Alternatives) → Describes made.resolved (collects_all config.now.collect)
        (document_by by d.components))) }
    ensures types { IfOk result
        (λ d. (made : AreDerived config.now (declarations_view declarations) d.components)
        × AreTypesOf made.resolved (collects_all config.now.collect) (entry_names d.components)
        (map open_view d.types)) }
{
    closing::components_describe();
    closing::entries_are();
    derive_decl::resolved_are_apart();
    let (resolved, bounded) = bounded_of(alloc, declarations, config)?;
    Ok(derived_within(alloc, resolved.as_slice(), bounded)?)
}

/// The components of the source's declarations.
///
/// A refusal is of kind `TooDeep` or `Syntax`, where the source cannot be read; else it is as for `terms`; else it is as for
/// `instances`.
pub fn derive_components(
    alloc: Global,
    source: &str,
    config: &Config,
) -> Result<Derived, DeriveError>
    ensures derived { IfOk result (λ d. IsDerived config.now source.now d.components) }
    ensures refused { Refuses result (IsRefused config.now source.now) }
    // The document of the components describes the declarations of the source.
    ensures describes { IfOk result (λ d. (made : IsDerived config.now source.now d.components)
        × Describes made.derived.resolved (collects_all config.now.collect)
        (document d.components)) }
    ensures types { IfOk result (λ d. (made : IsDerived config.now source.now d.components)
        × AreTypesOf made.derived.resolved (collects_all config.now.collect)
        (entry_names d.components) (map open_view d.types)) }
{
    closing::components_describe();
    closing::entries_are();
    derive_decl::resolved_are_apart();
    let (resolved, bounded) = bounded_of_source(alloc, source, config)?;
    Ok(derived_within(alloc, resolved.as_slice(), bounded)?)
}
