//! Written types in which aliases are replaced.

ghost use Rattle.std.specs.Prelude.{option_map, ◌≡◌, ◌<◌, ◌≤◌, ◌+◌, ◌⊎◌, IfOk, not, MatchOption, Some, None};
ghost use Rattle.diag.specs.Refusal.{Refuses};
ghost use Rattle.written_types.specs.Written.{written_view, path_view, segment_view, argument_view, arguments_view, writtens_view, segments_view, segment_of, path_of, reference, slice, array, Written as AnyType};
ghost use Rattle.written_types.specs.declared.written.Path.{out-Path};
ghost use Rattle.resolving.specs.Known.{type_at, known};
ghost use Rattle.resolving.specs.Names.{types_of, arguments_of, size, path_size, segment_size, argument_size, arguments_size, sizes, span_of};
ghost use Rattle.texts.specs.declared.span.Span.{Span as AnySpan};
ghost use Rattle.resolving.specs.Aliases.{span_at, ident_at, are_none, expanded_type};
ghost use Rattle.resolving.specs.Resolved.{most_names, too_large, IsRefusedFor};
ghost use Rattle.resolving.specs.Expanding.{arguments_list, segment_alias_of, path_alias_of, type_alias_of, inside_here, expanded_here, path_here, segment_here, argument_here, list_here, types_here};

use crate::constant::is_constant;
use crate::known::KnownNames;
use crate::refusal::type_size;
use crate::resolve::MAX_NAMES;
use diag::DeriveError;
use std::alloc::{AllocError, Global};
use texts::{List, Span};
use written_types::{GenericArgument, Ident, Path, PathSegment, WrittenType};

/// How many aliases may stand one in the text of another.
const MAX_ALIASES: usize = 32;

/// Where a type stands whose aliases are replaced.
#[derive(Clone, Copy)]
pub(crate) struct Place {
    /// The span of the name that the type stands for, where it is that of an alias.
    at: Option<Span>,
    /// How many aliases may stand one in the text of another from here on.
    below: usize,
    /// The span of the whole type.
    whole: Span,
}

/// The type in which each name without type arguments that is an alias is replaced by the alias's type, until none is;
/// what comes from an alias has the span of the name. A type that then has more than `MAX_NAMES` names is refused with
/// the kind `TypeSize`, at the type without the references around it, before more are made.
pub fn expand_type(
    alloc: Global,
    names: &KnownNames<'_>,
    ty: &WrittenType,
) -> Result<WrittenType, DeriveError>
    ensures expanded { IfOk result
        (λ t. written_view t ≡ expanded_type (known names.now) (written_view ty.now)) }
    ensures fits { IfOk result (λ t. size (known names.now) (written_view t) ≤ most_names) }
    ensures refused { Refuses result (λ e. (most_names
        < size (known names.now) (expanded_type (known names.now) (written_view ty.now)))
        × IsRefusedFor
        (too_large (span_of (expanded_type (known names.now) (written_view ty.now)))) e) }
{
    let place = Place {
        at: None,
        below: MAX_ALIASES,
        whole: expanded_span(names, ty),
    };
    let (expanded, _) = expand(alloc, names, ty, place, MAX_NAMES)?;
    Ok(expanded)
}

/// The span of the type in which the aliases are replaced, without the references around it.
fn expanded_span(names: &KnownNames<'_>, ty: &WrittenType) -> Span
    ensures { result ≡ span_of (expanded_type (known names.now) (written_view ty.now)) }
{
    match type_alias(names, ty) {
        Some((_, span)) => span,
        None => match ty {
            WrittenType::Reference(of) => expanded_span(names, of),
            WrittenType::Path(path) => path.span,
            WrittenType::Tuple(_, span)
            | WrittenType::Slice(_, span)
            | WrittenType::Array(_, span)
            | WrittenType::TraitObject(_, span) => *span,
        },
    }
}

/// Whether a type stands among the arguments of the segment.
fn has_types(names: &KnownNames<'_>, segment: &PathSegment) -> bool
    ensures { result
        ≡ not (are_none (types_of (known names.now) (arguments_of (segment_view segment.now)))) }
{
    match &segment.arguments {
        None => false,
        Some(arguments) => hold_types(names, arguments.as_slice()),
    }
}

fn hold_types(names: &KnownNames<'_>, arguments: &[GenericArgument]) -> bool
    ensures { result ≡ not (are_none (types_of (known names.now) (arguments_view arguments.now))) }
{
    for argument in arguments {
        if let GenericArgument::Ty(ty) = argument {
            if !is_constant(names, ty) {
                return true;
            }
        }
    }
    false
}

/// The place of the type that the segment stands for as an alias, where it has no type arguments.
fn segment_alias(names: &KnownNames<'_>, segment: &PathSegment) -> Option<usize>
    ensures { MatchOption result
        (segment_alias_of (known names.now) (segment_view segment.now) ≡ None)
        (λ place. (t : AnyType) × (type_at names.now.alias_types.now place ≡ Some t)
        × (segment_alias_of (known names.now) (segment_view segment.now) ≡ Some t)) }
{
    if has_types(names, segment) {
        return None;
    }
    names.alias_of(segment.ident.text.as_str())
}

/// The place of the type that the path's last segment stands for as an alias, and the span of its name.
fn path_alias(names: &KnownNames<'_>, path: &Path) -> Option<(usize, Span)>
    ensures { MatchOption result (path_alias_of (known names.now) (path_view path.now) ≡ None)
        (λ found. (t : AnyType) × (type_at names.now.alias_types.now found.0 ≡ Some t)
        × (path_alias_of (known names.now) (path_view path.now) ≡ Some (t, found.1))) }
{
    match path.segments.as_slice() {
        [] => None,
        [.., segment] => match segment_alias(names, segment) {
            Some(place) => Some((place, segment.ident.span)),
            None => None,
        },
    }
}

/// The place of the type that the type stands for as an alias, and the span of its name.
fn type_alias(names: &KnownNames<'_>, ty: &WrittenType) -> Option<(usize, Span)>
    ensures { MatchOption result (type_alias_of (known names.now) (written_view ty.now) ≡ None)
        (λ found. (t : AnyType) × (type_at names.now.alias_types.now found.0 ≡ Some t)
        × (type_alias_of (known names.now) (written_view ty.now) ≡ Some (t, found.1))) }
{
    match ty {
        WrittenType::Path(path) | WrittenType::TraitObject(path, _) => path_alias(names, path),
        _ => None,
    }
}

/// The place of the type that the type stands for as an alias, and where it stands then, where one more may be replaced.
fn alias_at(names: &KnownNames<'_>, ty: &WrittenType, place: Place) -> Option<(usize, Place)>
    ensures { MatchOption result
        (expanded_here (known names.now) place (written_view ty.now)
        ≡ inside_here (known names.now) place (written_view ty.now))
        (λ found. (t : AnyType) × (type_at names.now.alias_types.now found.0 ≡ Some t)
        × (expanded_here (known names.now) found.1 t
        ≡ expanded_here (known names.now) place (written_view ty.now))
        × (found.1.below < place.below) × (found.1.whole ≡ place.whole)) }
{
    if place.below == 0 {
        return None;
    }
    match type_alias(names, ty) {
        Some((alias, span)) => {
            let there = Place {
                at: Some(place.span_at(span)),
                below: place.below - 1,
                whole: place.whole,
            };
            Some((alias, there))
        }
        None => None,
    }
}

impl Place {
    /// The span of a name there.
    fn span_at(&self, own: Span) -> Span
        ensures { result ≡ span_at self.now.at own }
    {
        match self.at {
            Some(replaced) => replaced,
            None => own,
        }
    }

    /// The path there, with these segments.
    fn path_at(&self, path: &Path, segments: List<PathSegment>) -> Path
        ensures { path_view result ≡ path_of (out-Path path.now).leading (segments_view segments)
            (span_at self.now.at (out-Path path.now).span) }
    {
        Path {
            leading: path.leading,
            segments,
            span: self.span_at(path.span),
        }
    }

    /// The identifier there.
    fn ident_at(&self, alloc: Global, ident: &Ident) -> Result<Ident, AllocError>
        ensures { IfOk result (λ x. x ≡ ident_at self.now.at ident.now) }
    {
        Ok(Ident {
            text: ident.text.copy(alloc)?,
            raw: ident.raw,
            span: self.span_at(ident.span),
        })
    }
}

fn reference_to(alloc: Global, of: WrittenType) -> Result<WrittenType, AllocError>
    ensures { IfOk result (λ t. written_view t ≡ reference (written_view of)) }
{
    Ok(WrittenType::Reference(Box::new(alloc, of)?))
}

fn slice_of(alloc: Global, item: WrittenType, span: Span) -> Result<WrittenType, AllocError>
    ensures { IfOk result (λ t. written_view t ≡ slice (written_view item) span) }
{
    Ok(WrittenType::Slice(Box::new(alloc, item)?, span))
}

fn array_of(alloc: Global, item: WrittenType, span: Span) -> Result<WrittenType, AllocError>
    ensures { IfOk result (λ t. written_view t ≡ array (written_view item) span) }
{
    Ok(WrittenType::Array(Box::new(alloc, item)?, span))
}

/// One name less than `left`; where none is left, the refusal of the whole type.
fn one_less(alloc: Global, left: usize, whole: Span) -> Result<usize, DeriveError>
    ensures taken { IfOk result (λ rest. rest + 1 ≡ left) }
    ensures refused { Refuses result (λ e. (left ≡ 0) × IsRefusedFor (too_large whole) e) }
{
    match left.checked_sub(1) {
        Some(rest) => Ok(rest),
        None => Err(type_size(alloc, whole)),
    }
}

/// The type in which the aliases are replaced, and how many of `left` names are left after its own.
#[cycle(expand)]
fn expand(
    alloc: Global,
    names: &KnownNames<'_>,
    ty: &WrittenType,
    place: Place,
    left: usize,
) -> Result<(WrittenType, usize), DeriveError>
    ensures expanded { IfOk result (λ made. written_view made.0
        ≡ expanded_here (known names.now) place (written_view ty.now)) }
    ensures rest { IfOk result (λ made. made.1
        + size (known names.now) (expanded_here (known names.now) place (written_view ty.now))
        ≡ left) }
    ensures refused { Refuses result (λ e. (left
        < size (known names.now) (expanded_here (known names.now) place (written_view ty.now)))
        × IsRefusedFor (too_large place.whole) e) }
{
    match alias_at(names, ty, place) {
        Some((alias, there)) => { expand(alloc, names, &names.alias_types[alias], there, left) }
        None => expand_inside(alloc, names, ty, place, left),
    }
}

/// What stands in the type, expanded, where the type itself is no alias.
#[cycle(expand)]
fn expand_inside(
    alloc: Global,
    names: &KnownNames<'_>,
    ty: &WrittenType,
    place: Place,
    left: usize,
) -> Result<(WrittenType, usize), DeriveError>
    ensures expanded { IfOk result (λ made. written_view made.0
        ≡ inside_here (known names.now) place (written_view ty.now)) }
    ensures rest { IfOk result (λ made. made.1
        + size (known names.now) (inside_here (known names.now) place (written_view ty.now))
        ≡ left) }
    ensures refused { Refuses result (λ e. (left
        < size (known names.now) (inside_here (known names.now) place (written_view ty.now)))
        × IsRefusedFor (too_large place.whole) e) }
{
    match ty {
        WrittenType::Path(path) => {
            let (path, rest) = expand_path(alloc, names, path, place, left)?;
            Ok((WrittenType::Path(path), rest))
        }
        WrittenType::TraitObject(path, span) => {
            let (path, rest) = expand_path(alloc, names, path, place, left)?;
            Ok((WrittenType::TraitObject(path, place.span_at(*span)), rest))
        }
        WrittenType::Reference(of) => {
            let (of, rest) = expand(alloc, names, of, place, left)?;
            Ok((reference_to(alloc, of)?, rest))
        }
        WrittenType::Tuple(items, span) => {
            let left = one_less(alloc, left, place.whole)?;
            let (items, rest) = expand_types(alloc, names, items.as_slice(), place, left)?;
            Ok((WrittenType::Tuple(items, place.span_at(*span)), rest))
        }
        WrittenType::Slice(item, span) => {
            let left = one_less(alloc, left, place.whole)?;
            let (item, rest) = expand(alloc, names, item, place, left)?;
            Ok((slice_of(alloc, item, place.span_at(*span))?, rest))
        }
        WrittenType::Array(item, span) => {
            let left = one_less(alloc, left, place.whole)?;
            let (item, rest) = expand(alloc, names, item, place, left)?;
            Ok((array_of(alloc, item, place.span_at(*span))?, rest))
        }
    }
}

/// The path with its type arguments expanded.
#[cycle(expand)]
fn expand_path(
    alloc: Global,
    names: &KnownNames<'_>,
    path: &Path,
    place: Place,
    left: usize,
) -> Result<(Path, usize), DeriveError>
    ensures expanded { IfOk result (λ made. path_view made.0
        ≡ path_here (known names.now) place (path_view path.now)) }
    ensures rest { IfOk result (λ made. made.1
        + path_size (known names.now) (path_here (known names.now) place (path_view path.now))
        ≡ left) }
    ensures refused { Refuses result (λ e. (left
        < path_size (known names.now) (path_here (known names.now) place (path_view path.now)))
        × IsRefusedFor (too_large place.whole) e) }
{
    let left = one_less(alloc, left, place.whole)?;
    match path.segments.as_slice() {
        [] => Ok((place.path_at(path, List::new(alloc)), left)),
        [prefix @ .., segment] => {
            let mut segments = copied(alloc, prefix)?;
            let (segment, rest) = expand_segment(alloc, names, segment, place, left)?;
            segments.push(segment)?;
            Ok((place.path_at(path, segments), rest))
        }
    }
}

/// The segment with its type arguments expanded.
#[cycle(expand)]
fn expand_segment(
    alloc: Global,
    names: &KnownNames<'_>,
    segment: &PathSegment,
    place: Place,
    left: usize,
) -> Result<(PathSegment, usize), DeriveError>
    ensures expanded { IfOk result (λ made. segment_view made.0
        ≡ segment_here (known names.now) place (segment_view segment.now)) }
    ensures rest { IfOk result (λ made. made.1
        + segment_size (known names.now)
        (segment_here (known names.now) place (segment_view segment.now)) ≡ left) }
    ensures refused { Refuses result (λ e. (left < segment_size (known names.now)
        (segment_here (known names.now) place (segment_view segment.now)))
        × IsRefusedFor (too_large place.whole) e) }
{
    let ident = place.ident_at(alloc, &segment.ident)?;
    match &segment.arguments {
        None => Ok((named(ident, None), left)),
        Some(arguments) => {
            let (arguments, rest) = expand_list(alloc, names, arguments.as_slice(), place, left)?;
            Ok((named(ident, Some(arguments)), rest))
        }
    }
}

fn named(ident: Ident, arguments: Option<List<GenericArgument>>) -> PathSegment
    ensures { segment_view result ≡ segment_of ident (option_map arguments_list arguments) }
{
    PathSegment { ident, arguments }
}

/// The arguments with their types expanded.
#[cycle(expand)]
fn expand_list(
    alloc: Global,
    names: &KnownNames<'_>,
    arguments: &[GenericArgument],
    place: Place,
    left: usize,
) -> Result<(List<GenericArgument>, usize), DeriveError>
    ensures expanded { IfOk result (λ made. arguments_view made.0
        ≡ list_here (known names.now) place (arguments_view arguments.now)) }
    ensures rest { IfOk result (λ made. made.1
        + arguments_size (known names.now)
        (list_here (known names.now) place (arguments_view arguments.now)) ≡ left) }
    ensures refused { Refuses result (λ e. (left < arguments_size (known names.now)
        (list_here (known names.now) place (arguments_view arguments.now)))
        × IsRefusedFor (too_large place.whole) e) }
{
    let mut expanded = List::new(alloc);
    let mut rest = left;
    for argument in arguments {
        let (made, after) = expand_argument(alloc, names, argument, place, rest)?;
        expanded.push(made)?;
        rest = after;
    }
    Ok((expanded, rest))
}

/// The argument with its type expanded. A constant takes no name, nor does an alias that stands for one.
#[cycle(expand)]
fn expand_argument(
    alloc: Global,
    names: &KnownNames<'_>,
    argument: &GenericArgument,
    place: Place,
    left: usize,
) -> Result<(GenericArgument, usize), DeriveError>
    ensures expanded { IfOk result (λ made. argument_view made.0
        ≡ argument_here (known names.now) place (argument_view argument.now)) }
    ensures rest { IfOk result (λ made. made.1
        + argument_size (known names.now)
        (argument_here (known names.now) place (argument_view argument.now)) ≡ left) }
    ensures refused { Refuses result (λ e. (left < argument_size (known names.now)
        (argument_here (known names.now) place (argument_view argument.now)))
        × IsRefusedFor (too_large place.whole) e) }
{
    let ty = match argument {
        GenericArgument::Ty(ty) if !is_constant(names, ty) => ty,
        _ => return Ok((argument.copy(alloc)?, left)),
    };
    let most = at_least_one(left);
    let (ty, rest) = expand(alloc, names, ty, place, most)?;
    if is_constant(names, &ty) {
        return Ok((GenericArgument::Ty(ty), left));
    }
    match left.checked_sub(most - rest) {
        Some(rest) => Ok((GenericArgument::Ty(ty), rest)),
        None => Err(type_size(alloc, place.whole)),
    }
}

fn at_least_one(left: usize) -> usize
    ensures one { 1 ≤ result }
    ensures more { left ≤ result }
    ensures same { 1 ≤ left → result ≡ left }
{
    if left == 0 { 1 } else { left }
}

/// The types, expanded.
#[cycle(expand)]
fn expand_types(
    alloc: Global,
    names: &KnownNames<'_>,
    types: &[WrittenType],
    place: Place,
    left: usize,
) -> Result<(List<WrittenType>, usize), DeriveError>
    ensures expanded { IfOk result (λ made. writtens_view made.0
        ≡ types_here (known names.now) place (writtens_view types.now)) }
    ensures rest { IfOk result (λ made. made.1
        + sizes (known names.now) (types_here (known names.now) place (writtens_view types.now))
        ≡ left) }
    ensures refused { Refuses result (λ e. (left
        < sizes (known names.now) (types_here (known names.now) place (writtens_view types.now)))
        × IsRefusedFor (too_large place.whole) e) }
{
    let mut expanded = List::new(alloc);
    let mut rest = left;
    for ty in types {
        let (made, after) = expand(alloc, names, ty, place, rest)?;
        expanded.push(made)?;
        rest = after;
    }
    Ok((expanded, rest))
}

/// The segments before the last, as they are.
fn copied(alloc: Global, segments: &[PathSegment]) -> Result<List<PathSegment>, AllocError>
    ensures { IfOk result (λ copy. segments_view copy ≡ segments_view segments.now) }
{
    let mut copy = List::new(alloc);
    for segment in segments {
        copy.push(segment.copy(alloc)?)?;
    }
    Ok(copy)
}
