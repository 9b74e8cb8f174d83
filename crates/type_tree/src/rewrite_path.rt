//! Paths in which the aliases of a configuration are replaced.

ghost use Rattle.std.specs.Prelude.{◌≡◌, ◌<◌, ◌⊎◌, ℕ, List, Some, None, IfOk};
ghost use Rattle.std.specs.BTreeMap.{get_by_text};
ghost use Rattle.diag.specs.Refusal.{Refuses};
ghost use Rattle.texts.specs.declared.span.Span.{Span as AnySpan};
ghost use Rattle.written_types.specs.Written.{written_view, path_view};
ghost use Rattle.resolving.specs.Names.{size, span_of};
ghost use Rattle.resolving.specs.Aliases.{expanded_type};
ghost use Rattle.resolving.specs.Resolved.{most_names, too_large, IsRefusedFor};
ghost use Rattle.type_tree.specs.Aliases.{known_aliases, rewritten_path, alias_left, IsRefusedAlias};

use crate::left::alias_left;
use configuration::Config;
use diag::{DeriveError, Kind};
use resolving::{KnownNames, expand_type};
use std::alloc::Global;
use std::collections::BTreeMap;
use texts::Span;
use written_types::{Path, WrittenType};

/// What the aliases of a configuration make of a path.
pub trait SynPathExt {
    /// The type that the path becomes where aliases of the configuration are replaced by their types until none is left.
    fn rewrite_path(&self, alloc: Global, config: &Config) -> Result<WrittenType, DeriveError>;
}

impl SynPathExt for Path {
    /// The type that the path becomes where aliases of the configuration are replaced by their types until none is left.
    /// What has more than 256 names is refused with the kind `TypeSize`, and an alias with type arguments with `Arity`,
    /// at the name.
    fn rewrite_path(&self, alloc: Global, config: &Config) -> Result<WrittenType, DeriveError>
        ensures rewritten { IfOk result
            (λ t. written_view t ≡ rewritten_path config.now.aliases (path_view self.now)) }
        ensures whole { IfOk result (λ _. alias_left config.now.aliases
            (rewritten_path config.now.aliases (path_view self.now)) ≡ None) }
        ensures refused { Refuses result (λ e. ((most_names < size (known_aliases config.now.aliases)
            (rewritten_path config.now.aliases (path_view self.now)))
            × IsRefusedFor
            (too_large (span_of (rewritten_path config.now.aliases (path_view self.now)))) e)
            ⊎ ((found : List ℕ × AnySpan) × (alias_left config.now.aliases
            (rewritten_path config.now.aliases (path_view self.now)) ≡ Some found)
            × IsRefusedAlias found e)) }
    {
        let ty = WrittenType::Path(self.copy(alloc)?);
        let expanded = expand(alloc, config, &ty)?;
        if let Some((name, span)) = alias_left(config, &expanded) {
            return Err(arity(alloc, name, span));
        }
        Ok(expanded)
    }
}

/// The type in which the aliases of the configuration are replaced.
fn expand(alloc: Global, config: &Config, ty: &WrittenType) -> Result<WrittenType, DeriveError>
    ensures expanded { IfOk result (λ t. written_view t
        ≡ expanded_type (known_aliases config.now.aliases) (written_view ty.now)) }
    ensures refused { Refuses result (λ e. (most_names
        < size (known_aliases config.now.aliases)
        (expanded_type (known_aliases config.now.aliases) (written_view ty.now)))
        × IsRefusedFor (too_large (span_of
        (expanded_type (known_aliases config.now.aliases) (written_view ty.now)))) e) }
{
    let nowhere = no_places(alloc);
    let names = KnownNames {
        aliases: config.alias_places(),
        alias_types: config.alias_types(),
        places: &nowhere,
        counts: &[],
        own: None,
        count: 0,
        parameters: &nowhere,
        constants: &nowhere,
    };
    expand_type(alloc, &names, ty)
}

/// The places of no names.
fn no_places(alloc: Global) -> BTreeMap<String, usize>
    ensures { (name : List ℕ) → get_by_text result name ≡ None }
{
    BTreeMap::new(alloc)
}

/// The refusal of an alias with type arguments, or want of memory.
fn arity(alloc: Global, name: &str, span: Span) -> DeriveError
    ensures { (result ≡ DeriveError.Memory) ⊎ IsRefusedAlias (name.now, span) result }
{
    match format!(in alloc; "wrong number of type arguments for {name}") {
        Ok(message) => DeriveError::refusal(alloc, Kind::Arity, span, message.as_str()),
        Err(error) => DeriveError::from(error),
    }
}
