//! The reader of types.

ghost use Rattle.std.specs.Prelude.{◌≡◌, ◌<◌, ◌≤◌, length, map, IfOk, IfSome, MatchOption, Ok, Err};
ghost use Rattle.written_types.specs.Written.{written_view, path_view, segment_view, argument_view};
ghost use Rattle.words.specs.Words.{words_view, ident_of};
ghost use Rattle.words.specs.Reading.{Gives};
ghost use Rattle.type_grammar.specs.Starts.{span_of};
ghost use Rattle.type_grammar.specs.Reading.{type_at, type_in, type_step, too_deep, path_at, segments_in, segment_at, segment_after, arguments_after, argument_at, list_of, reference_at, round_at, square_at, object_at, more_bounds, bounds_in, bound_at};
ghost use Rattle.type_grammar.specs.declared.starts.Bounds.TheVariants.{Any};

use crate::constants::plain_argument;
use crate::parts::{
    after_binding, after_lifetime, after_mut, after_question, after_sign, arguments_after,
    ends_list, first_bound, is_end,
};
use crate::starts::{Bounds, TypeStart, type_start};
use std::alloc::Global;
use texts::{List, Span};
use tokens::{Group, Token, TokenTree};
use words::{
    Sign, Stop, covering, ident_of, optional_lifetime, optional_sign, path_word_at, sign_at,
    start_of, stop_at,
};
use written_types::{GenericArgument, Path, PathSegment, WrittenType};

/// A type that nests at most `left` levels, and what follows it. It refuses trees that do not begin with a type, and those
/// in which a part of it begins deeper.
pub fn type_at(
    alloc: Global,
    trees: &[TokenTree],
    left: usize,
) -> Result<(WrittenType, &[TokenTree]), Stop>
    ensures value { Gives (λ p. (written_view p.0, words_view p.1.now)) result
        (type_at left (words_view trees.now)) }
    ensures shorter { IfOk result (λ p. length p.1.now < length trees.now) }
{
    type_in(alloc, trees, Bounds::Any, left)
}

fn span_of(path: &Path) -> Span
    ensures { result ≡ span_of (path_view path.now) }
{
    path.span
}

/// No level is left for a type.
fn too_deep(trees: &[TokenTree]) -> Result<(WrittenType, &[TokenTree]), Stop>
    ensures value { Gives (λ p. (written_view p.0, words_view p.1.now)) result
        (too_deep (words_view trees.now)) }
    ensures shorter { IfOk result (λ p. length p.1.now < length trees.now) }
{
    match trees {
        [] => Err(Stop::Ended),
        [first, ..] => match type_start(first) {
            TypeStart::NoType => Err(stop_at(trees)),
            _ => Err(Stop::Deep(start_of(first))),
        },
    }
}

/// A type that nests at most `left` levels, and what follows it.
#[cycle(types)]
#[tactic(auto, using(crate::proofs::Steps::type_in_zero, crate::proofs::Steps::type_in_suc))]
fn type_in(
    alloc: Global,
    trees: &[TokenTree],
    bounds: Bounds,
    left: usize,
) -> Result<(WrittenType, &[TokenTree]), Stop>
    ensures value { Gives (λ p. (written_view p.0, words_view p.1.now)) result
        (type_in left bounds (words_view trees.now)) }
    ensures shorter { IfOk result (λ p. length p.1.now < length trees.now) }
{
    if left > 0 {
        return type_step(alloc, trees, bounds, left - 1);
    }
    too_deep(trees)
}

/// A type whose parts nest at most `left` levels.
#[cycle(types)]
#[tactic(auto, unfolding(crate::specs::Reading::type_step))]
fn type_step(
    alloc: Global,
    trees: &[TokenTree],
    bounds: Bounds,
    left: usize,
) -> Result<(WrittenType, &[TokenTree]), Stop>
    ensures value { Gives (λ p. (written_view p.0, words_view p.1.now)) result
        (type_step bounds (type_in left) (words_view trees.now)) }
    ensures shorter { IfOk result (λ p. length p.1.now < length trees.now) }
{
    match trees {
        [] => Err(Stop::Ended),
        [first, rest @ ..] => match type_start(first) {
            TypeStart::Path => {
                let (path, after) = path_at(alloc, trees, false, left)?;
                Ok((WrittenType::Path(path), after))
            }
            TypeStart::Reference => reference_at(alloc, rest, left),
            TypeStart::Object(start) => object_at(alloc, start, rest, bounds, left),
            TypeStart::Round(group) => Ok((round_group(alloc, group, left)?, rest)),
            TypeStart::Square(group) => Ok((square_group(alloc, group, left)?, rest)),
            TypeStart::NoType => Err(stop_at(trees)),
        },
    }
}

/// A path, from its first to its last token.
#[cycle(types)]
#[tactic(auto, unfolding(crate::specs::Reading::path_at))]
fn path_at(
    alloc: Global,
    trees: &[TokenTree],
    bindings: bool,
    left: usize,
) -> Result<(Path, &[TokenTree]), Stop>
    ensures value { Gives (λ p. (path_view p.0, words_view p.1.now)) result
        (path_at bindings (type_in left) (words_view trees.now)) }
    ensures shorter { IfOk result (λ p. length p.1.now < length trees.now) }
{
    match trees {
        [] => Err(Stop::Ended),
        [first, ..] => match optional_sign(trees, Sign::Colons) {
            None => {
                let (segments, last, rest) = segments_at(alloc, trees, bindings, left)?;
                let span = covering(start_of(first), last);
                Ok((
                    Path {
                        leading: false,
                        segments,
                        span,
                    },
                    rest,
                ))
            }
            Some((start, inside)) => {
                let (segments, last, rest) = segments_at(alloc, inside, bindings, left)?;
                let span = covering(start, last);
                Ok((
                    Path {
                        leading: true,
                        segments,
                        span,
                    },
                    rest,
                ))
            }
        },
    }
}

/// Segments with `::` between them, and the last token.
#[cycle(types)]
fn segments_at(
    alloc: Global,
    trees: &[TokenTree],
    bindings: bool,
    left: usize,
) -> Result<(List<PathSegment>, Span, &[TokenTree]), Stop>
    ensures value { Gives (λ p. ((map segment_view p.0, p.1), words_view p.2.now)) result
        (segments_in bindings (type_in left) (words_view trees.now)) }
    ensures shorter { IfOk result (λ p. length p.2.now < length trees.now) }
{
    let mut segments = List::new(alloc);
    let mut rest = trees;
    'path: loop {
        let (segment, last, after) = segment_at(alloc, rest, bindings, left)?;
        segments.push(segment)?;
        match after_sign(after, Sign::Colons) {
            None => return Ok((segments, last, after)),
            Some(mid) => rest = mid,
        }
    }
}

/// A word, perhaps with arguments, and its last token.
#[cycle(types)]
#[tactic(auto, unfolding(crate::specs::Reading::segment_at))]
fn segment_at(
    alloc: Global,
    trees: &[TokenTree],
    bindings: bool,
    left: usize,
) -> Result<(PathSegment, Span, &[TokenTree]), Stop>
    ensures value { Gives (λ p. ((segment_view p.0, p.1), words_view p.2.now)) result
        (segment_at bindings (type_in left) (words_view trees.now)) }
    ensures shorter { IfOk result (λ p. length p.2.now < length trees.now) }
{
    let (word, rest) = path_word_at(trees)?;
    segment_after(alloc, word, rest, bindings, left)
}

/// The word of a segment was read.
#[cycle(types)]
fn segment_after<'t>(
    alloc: Global,
    word: &Token,
    trees: &'t [TokenTree],
    bindings: bool,
    left: usize,
) -> Result<(PathSegment, Span, &'t [TokenTree]), Stop>
    ensures value { Gives (λ p. ((segment_view p.0, p.1), words_view p.2.now)) result
        (segment_after bindings (type_in left) (ident_of word.now) (words_view trees.now)
        (arguments_after (words_view trees.now))) }
    ensures shorter { IfOk result (λ p. length p.2.now ≤ length trees.now) }
{
    match arguments_after(trees) {
        None => {
            let ident = ident_of(alloc, word)?;
            Ok((
                PathSegment {
                    ident,
                    arguments: None,
                },
                word.span,
                trees,
            ))
        }
        Some(inside) => {
            let (arguments, after) = arguments_at(alloc, inside, bindings, left)?;
            let (close, rest) = sign_at(after, Sign::Greater)?;
            let ident = ident_of(alloc, word)?;
            let arguments = Some(arguments);
            Ok((PathSegment { ident, arguments }, close, rest))
        }
    }
}

/// Arguments separated by commas.
#[cycle(types)]
fn arguments_at(
    alloc: Global,
    trees: &[TokenTree],
    bindings: bool,
    left: usize,
) -> Result<(List<GenericArgument>, &[TokenTree]), Stop>
    ensures value { Gives (λ p. (map argument_view p.0, words_view p.1.now)) result
        (list_of (argument_at bindings (type_in left)) (words_view trees.now)) }
    ensures shorter { IfOk result (λ p. length p.1.now ≤ length trees.now) }
{
    let mut arguments = List::new(alloc);
    let mut rest = trees;
    'list: while !ends_list(rest) {
        let (argument, after) = argument_at(alloc, rest, bindings, left)?;
        arguments.push(argument)?;
        match after_sign(after, Sign::Comma) {
            None => return Ok((arguments, after)),
            Some(mid) => rest = mid,
        }
    }
    Ok((arguments, rest))
}

/// A lifetime, a constant or a type.
#[cycle(types)]
#[tactic(auto, unfolding(crate::specs::Reading::argument_at))]
fn argument_at(
    alloc: Global,
    trees: &[TokenTree],
    bindings: bool,
    left: usize,
) -> Result<(GenericArgument, &[TokenTree]), Stop>
    ensures value { Gives (λ p. (argument_view p.0, words_view p.1.now)) result
        (argument_at bindings (type_in left) (words_view trees.now)) }
    ensures shorter { IfOk result (λ p. length p.1.now < length trees.now) }
{
    match plain_argument(alloc, trees)? {
        Some((argument, rest)) => Ok((argument, rest)),
        None => {
            let inside = after_binding(trees, bindings);
            let (ty, rest) = type_in(alloc, inside, Bounds::Any, left)?;
            Ok((GenericArgument::Ty(ty), rest))
        }
    }
}

/// `&` was read.
#[cycle(types)]
#[tactic(auto, unfolding(crate::specs::Reading::reference_at))]
fn reference_at(
    alloc: Global,
    trees: &[TokenTree],
    left: usize,
) -> Result<(WrittenType, &[TokenTree]), Stop>
    ensures value { Gives (λ p. (written_view p.0, words_view p.1.now)) result
        (reference_at (type_in left) (words_view trees.now)) }
    ensures shorter { IfOk result (λ p. length p.1.now < length trees.now) }
{
    let inside = after_mut(after_lifetime(trees));
    let (ty, rest) = type_in(alloc, inside, Bounds::One, left)?;
    Ok((WrittenType::Reference(Box::new(alloc, ty)?), rest))
}

/// `dyn` was read.
#[cycle(types)]
#[tactic(auto, unfolding(crate::specs::Reading::object_at))]
fn object_at(
    alloc: Global,
    start: Span,
    trees: &[TokenTree],
    bounds: Bounds,
    left: usize,
) -> Result<(WrittenType, &[TokenTree]), Stop>
    ensures value { Gives (λ p. (written_view p.0, words_view p.1.now)) result
        (object_at bounds (type_in left) start (words_view trees.now)) }
    ensures shorter { IfOk result (λ p. length p.1.now < length trees.now) }
{
    let (path, after) = path_at(alloc, first_bound(trees, bounds), false, left)?;
    let (last, rest) = more_bounds(alloc, span_of(&path), after, bounds, left)?;
    Ok((WrittenType::TraitObject(path, covering(start, last)), rest))
}

/// The end of the bounds, of which one was read.
#[cycle(types)]
fn more_bounds(
    alloc: Global,
    first: Span,
    trees: &[TokenTree],
    bounds: Bounds,
    left: usize,
) -> Result<(Span, &[TokenTree]), Stop>
    ensures value { Gives (λ p. (p.0, words_view p.1.now)) result
        (more_bounds bounds (type_in left) first (words_view trees.now)) }
    ensures shorter { IfOk result (λ p. length p.1.now ≤ length trees.now) }
{
    match bounds {
        Bounds::One => Ok((first, trees)),
        Bounds::Any => bounds_at(alloc, first, trees, left),
    }
}

/// Bounds, each behind `+`.
#[cycle(types)]
pub(crate) fn bounds_at(
    alloc: Global,
    first: Span,
    trees: &[TokenTree],
    left: usize,
) -> Result<(Span, &[TokenTree]), Stop>
    ensures value { Gives (λ p. (p.0, words_view p.1.now)) result
        (bounds_in (type_in left) first (words_view trees.now)) }
    ensures shorter { IfOk result (λ p. length p.1.now ≤ length trees.now) }
{
    let mut later = None;
    let mut rest = trees;
    'bounds: loop {
        match after_sign(rest, Sign::Plus) {
            None => return Ok((later.unwrap_or(first), rest)),
            Some(inside) => {
                let (bound, after) = bound_at(alloc, inside, left)?;
                later = Some(bound);
                rest = after;
            }
        }
    }
}

/// A bound whose arguments nest at most `left` levels: its bytes, without a `?` before them, and what follows it. Its
/// arguments may be bindings. It refuses trees that do not begin with a bound, and those whose arguments nest deeper.
#[cycle(types)]
#[tactic(auto, using(crate::proofs::Chains::bound_else), unfolding(crate::specs::Reading::bound_at))]
pub fn bound_at(
    alloc: Global,
    trees: &[TokenTree],
    left: usize,
) -> Result<(Span, &[TokenTree]), Stop>
    ensures value { Gives (λ p. (p.0, words_view p.1.now)) result
        (bound_at (type_in left) (words_view trees.now)) }
    ensures shorter { IfOk result (λ p. length p.1.now < length trees.now) }
{
    match optional_lifetime(trees) {
        Some((lifetime, rest)) => Ok((lifetime.span, rest)),
        None => {
            let (path, rest) = path_at(alloc, after_question(trees), true, left)?;
            Ok((span_of(&path), rest))
        }
    }
}

/// A round group as a type.
#[cycle(types)]
#[tactic(auto, using(crate::proofs::Steps::alike))]
fn round_group(alloc: Global, group: &Group, left: usize) -> Result<WrittenType, Stop>
    ensures { Gives written_view result
        (round_at (type_in left) group.now.span (words_view group.now.trees)) }
{
    match round_at(alloc, group.span, group.trees.as_slice(), left) {
        Ok(ty) => Ok(ty),
        Err(stop) => Err(stop.inside(group)),
    }
}

/// A square group as a type.
#[cycle(types)]
#[tactic(auto, using(crate::proofs::Steps::alike))]
fn square_group(alloc: Global, group: &Group, left: usize) -> Result<WrittenType, Stop>
    ensures { Gives written_view result
        (square_at (type_in left) group.now.span (words_view group.now.trees)) }
{
    match square_at(alloc, group.span, group.trees.as_slice(), left) {
        Ok(ty) => Ok(ty),
        Err(stop) => Err(stop.inside(group)),
    }
}

/// What stands between round brackets.
#[cycle(types)]
#[tactic(auto, unfolding(crate::specs::Reading::round_at))]
fn round_at(
    alloc: Global,
    span: Span,
    trees: &[TokenTree],
    left: usize,
) -> Result<WrittenType, Stop>
    ensures { Gives written_view result (round_at (type_in left) span (words_view trees.now)) }
{
    if is_end(trees) {
        return Ok(WrittenType::Tuple(List::new(alloc), span));
    }
    let (first, rest) = type_in(alloc, trees, Bounds::Any, left)?;
    if is_end(rest) {
        return Ok(first);
    }
    let (_, rest) = sign_at(rest, Sign::Comma)?;
    let (mut types, after) = types_at(alloc, rest, left)?;
    if !is_end(after) {
        return Err(stop_at(after));
    }
    types.insert(0, first)?;
    Ok(WrittenType::Tuple(types, span))
}

/// Types separated by commas.
#[cycle(types)]
fn types_at(
    alloc: Global,
    trees: &[TokenTree],
    left: usize,
) -> Result<(List<WrittenType>, &[TokenTree]), Stop>
    ensures value { Gives (λ p. (map written_view p.0, words_view p.1.now)) result
        (list_of (type_in left Any) (words_view trees.now)) }
    ensures shorter { IfOk result (λ p. length p.1.now ≤ length trees.now) }
{
    let mut types = List::new(alloc);
    let mut rest = trees;
    'list: while !ends_list(rest) {
        let (ty, after) = type_in(alloc, rest, Bounds::Any, left)?;
        types.push(ty)?;
        match after_sign(after, Sign::Comma) {
            None => return Ok((types, after)),
            Some(mid) => rest = mid,
        }
    }
    Ok((types, rest))
}

/// What stands between square brackets.
#[cycle(types)]
#[tactic(auto, unfolding(crate::specs::Reading::square_at))]
fn square_at(
    alloc: Global,
    span: Span,
    trees: &[TokenTree],
    left: usize,
) -> Result<WrittenType, Stop>
    ensures { Gives written_view result (square_at (type_in left) span (words_view trees.now)) }
{
    let (item, rest) = type_in(alloc, trees, Bounds::Any, left)?;
    if is_end(rest) {
        return Ok(WrittenType::Slice(Box::new(alloc, item)?, span));
    }
    let (_, length) = sign_at(rest, Sign::Semicolon)?;
    if is_end(length) {
        return Err(stop_at(length));
    }
    Ok(WrittenType::Array(Box::new(alloc, item)?, span))
}
