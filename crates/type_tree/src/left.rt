//! Names in a type that are aliases.

ghost use Rattle.std.specs.Prelude.{◌≡◌, ◌∷◌, option_map};
ghost use Rattle.written_types.specs.Written.{written_view, path_view, segment_view, arguments_view, writtens_view};
ghost use Rattle.resolving.specs.Names.{names_in_path, names_in_segment, names_in_arguments, names_in_types};
ghost use Rattle.type_tree.specs.Aliases.{alias_at, known_aliases, first_alias, alias_left};

use crate::aliases::alias_type;
use configuration::Config;
use texts::Span;
use written_types::{GenericArgument, Path, PathSegment, WrittenType};

/// The first name in the type that is an alias of the configuration, and its span.
#[cycle(left)]
pub(crate) fn alias_left<'t>(config: &Config, ty: &'t WrittenType) -> Option<(&'t str, Span)>
    ensures { option_map (λ found. (found.0.now, found.1)) result
        ≡ alias_left config.now.aliases (written_view ty.now) }
{
    match ty {
        WrittenType::Path(path) | WrittenType::TraitObject(path, _) => left_in_path(config, path),
        WrittenType::Reference(of) => alias_left(config, of),
        WrittenType::Tuple(items, _) => left_in_types(config, items.as_slice()),
        WrittenType::Slice(item, _) | WrittenType::Array(item, _) => alias_left(config, item),
    }
}

/// The name and its span, where it is an alias.
fn alias_at<'t>(config: &Config, name: &'t str, span: Span) -> Option<(&'t str, Span)>
    ensures { option_map (λ found. (found.0.now, found.1)) result
        ≡ alias_at config.now.aliases name.now span }
{
    match alias_type(config, name) {
        Some(_) => Some((name, span)),
        None => None,
    }
}

#[cycle(left)]
fn left_in_path<'t>(config: &Config, path: &'t Path) -> Option<(&'t str, Span)>
    ensures { option_map (λ found. (found.0.now, found.1)) result
        ≡ first_alias config.now.aliases
        (names_in_path (known_aliases config.now.aliases) (path_view path.now)) }
{
    match path.segments.as_slice() {
        [] => alias_at(config, "", path.span),
        [.., segment] => left_in_segment(config, segment),
    }
}

#[cycle(left)]
fn left_in_segment<'t>(config: &Config, segment: &'t PathSegment) -> Option<(&'t str, Span)>
    ensures { option_map (λ found. (found.0.now, found.1)) result
        ≡ first_alias config.now.aliases (segment_view segment.now
        ∷ names_in_segment (known_aliases config.now.aliases) (segment_view segment.now)) }
{
    if let Some(found) = alias_at(config, segment.ident.text.as_str(), segment.ident.span) {
        return Some(found);
    }
    match &segment.arguments {
        None => None,
        Some(arguments) => left_in_arguments(config, arguments.as_slice()),
    }
}

#[cycle(left)]
fn left_in_arguments<'t>(
    config: &Config,
    arguments: &'t [GenericArgument],
) -> Option<(&'t str, Span)>
    ensures { option_map (λ found. (found.0.now, found.1)) result
        ≡ first_alias config.now.aliases
        (names_in_arguments (known_aliases config.now.aliases) (arguments_view arguments.now)) }
{
    for argument in arguments {
        match argument {
            GenericArgument::Ty(ty) => {
                if let Some(found) = alias_left(config, ty) {
                    return Some(found);
                }
            }
            GenericArgument::Lifetime(_) => {}
            GenericArgument::Constant(_) => {}
        }
    }
    None
}

#[cycle(left)]
fn left_in_types<'t>(config: &Config, types: &'t [WrittenType]) -> Option<(&'t str, Span)>
    ensures { option_map (λ found. (found.0.now, found.1)) result
        ≡ first_alias config.now.aliases
        (names_in_types (known_aliases config.now.aliases) (writtens_view types.now)) }
{
    for ty in types {
        if let Some(found) = alias_left(config, ty) {
            return Some(found);
        }
    }
    None
}
