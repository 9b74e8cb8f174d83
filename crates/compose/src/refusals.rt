//! The refusals of what is beyond a bound.

ghost use Rattle.std.specs.Prelude.{◌≡◌, ◌≢◌, ◌<◌, ℕ, length, map, get_or, IfOk};
ghost use Rattle.diag.specs.Refusal.{IsErrorFor, IsRefusal};
ghost use Rattle.texts.specs.Span.{no_span};
ghost use Rattle.texts.specs.declared.span.Span.{Span as AnySpan};
ghost use Rattle.shapes.specs.InstanceNames.{instance_name};
ghost use Rattle.shapes.specs.InstanceShape.{IsReachable};
ghost use Rattle.shapes.specs.Views.{declaration_view};
ghost use Rattle.inlining.specs.Inlining.{IsAmong};
ghost use Rattle.instances.specs.Lists.{instance_at};
ghost use Rattle.compose.specs.Bounds.{IsAt, ArePlaced, instance_text, IsRefusalOf, IsClashOf, IsClash, crowded_message, large_message, deep_message, copied_message};

use diag::{DeriveError, Diagnostics, Kind};
use instances::{Reach, instance_name};
use scopes::text_of_type;
use shapes::Declaration;
use std::alloc::{AllocError, Global};
use std::cmp::Ordering;
use texts::{Span, Text};
use written_types::Ident;

/// The refusal of more instances than may be reachable, at the name of one.
pub(crate) fn too_many_instances(
    alloc: Global,
    span: Span,
    limit: usize,
) -> Result<DeriveError, AllocError>
    ensures { IfOk result
        (IsErrorFor (IsRefusal Kind.TooManyInstances span (crowded_message limit))) }
{
    let message = format!(in alloc; "more than {} instances are reachable", limit)?;
    let kind = Kind::TooManyInstances;
    Ok(DeriveError::refusal(alloc, kind, span, message.as_str()))
}

/// The refusal of an instance of more names than may be, at its name.
pub(crate) fn too_large(alloc: Global, span: Span) -> DeriveError
    ensures { IsErrorFor (IsRefusal Kind.TypeSize span large_message) result }
{
    let message = "a type has more than 256 names";
    DeriveError::refusal(alloc, Kind::TypeSize, span, message)
}

/// The refusal of more copies than may be inlined.
pub(crate) fn too_many_copies(alloc: Global, copies: usize) -> Result<DeriveError, AllocError>
    ensures { IfOk result
        (IsErrorFor (IsRefusal Kind.TooManyCopies no_span (copied_message copies))) }
{
    let message = format!(in alloc; "more than {} copies are inlined", copies)?;
    let kind = Kind::TooManyCopies;
    Ok(DeriveError::refusal(alloc, kind, Span::nowhere(), message.as_str()))
}

/// The span of the name of the instance's declaration.
pub(crate) fn span_of(idents: &[Ident], reach: &Reach, number: usize) -> Span
    requires placed { ArePlaced (length idents.now) reach.now }
    requires within { number < length reach.now }
    ensures { IsAt idents.now (instance_at reach.now number) result }
{
    idents[reach.declaration(number)].span
}

/// How the instance reads.
fn instance_text(
    alloc: Global,
    idents: &[Ident],
    reach: &Reach,
    number: usize,
) -> Result<Text, AllocError>
    requires { number < length reach.now }
    ensures { IfOk result
        (λ text. text ≡ instance_text idents.now (instance_at reach.now number)) }
{
    let ty = reach.type_of(alloc, number)?;
    text_of_type(alloc, idents, ty.as_open())
}

/// The refusal with these instances.
fn refusal_of(
    alloc: Global,
    kind: Kind,
    span: Span,
    message: &str,
    idents: &[Ident],
    reach: &Reach,
    numbers: &[usize],
) -> Result<DeriveError, AllocError>
    requires { (n : ℕ) → IsAmong n numbers.now → n < length reach.now }
    ensures { IfOk result (IsRefusalOf kind span message.now
        (map (instance_text idents.now) (map (instance_at reach.now) numbers.now))) }
{
    let mut diagnostics = Diagnostics::with_span(alloc, kind, span, message)?;
    for number in numbers {
        let text = instance_text(alloc, idents, reach, *number)?;
        diagnostics = diagnostics.instance(text.as_str())?;
    }
    Ok(DeriveError::Refused(diagnostics))
}

/// The refusal of an inline path that is too long, whose instances are those along it.
pub(crate) fn too_deep(
    alloc: Global,
    idents: &[Ident],
    reach: &Reach,
    path: &[usize],
) -> Result<DeriveError, AllocError>
    requires placed { ArePlaced (length idents.now) reach.now }
    requires within { (n : ℕ) → IsAmong n path.now → n < length reach.now }
    requires some { 0 < length path.now }
    ensures { IfOk result (λ e. (span : AnySpan)
        × IsAt idents.now (instance_at reach.now (get_or path.now 0 0)) span
        × IsRefusalOf Kind.InlineDepth span deep_message
        (map (instance_text idents.now) (map (instance_at reach.now) path.now)) e) }
{
    let message = "types are inlined deeper than 32";
    let span = span_of(idents, reach, path[0]);
    refusal_of(alloc, Kind::InlineDepth, span, message, idents, reach, path)
}

/// The refusal of two instances of one name, in this order.
fn ordered_clash(
    alloc: Global,
    idents: &[Ident],
    resolved: &[Declaration],
    reach: &Reach,
    first: usize,
    second: usize,
) -> Result<DeriveError, AllocError>
    requires placed { ArePlaced (length idents.now) reach.now }
    requires first { first < length reach.now }
    requires second { second < length reach.now }
    ensures { IfOk result (IsClashOf idents.now (map declaration_view resolved.now)
        (instance_at reach.now first) (instance_at reach.now second)) }
{
    let ty = reach.type_of(alloc, first)?;
    let name = instance_name(alloc, resolved, ty.as_open())?;
    let message = format!(in alloc; "two types have the component name {}", name.as_str())?;
    let span = span_of(idents, reach, first);
    let pair = [first, second];
    refusal_of(
        alloc,
        Kind::NameClash,
        span,
        message.as_str(),
        idents,
        reach,
        &pair,
    )
}

/// The refusal of two instances of one name, which are told in byte order of their texts.
pub(crate) fn clash(
    alloc: Global,
    idents: &[Ident],
    resolved: &[Declaration],
    reach: &Reach,
    first: usize,
    second: usize,
) -> Result<DeriveError, AllocError>
    requires placed { ArePlaced (length idents.now) reach.now }
    requires first { first < length reach.now }
    requires second { second < length reach.now }
    requires differ { instance_at reach.now first ≢ instance_at reach.now second }
    requires reachable { IsReachable (map declaration_view resolved.now) (instance_at reach.now first)
        × IsReachable (map declaration_view resolved.now) (instance_at reach.now second) }
    requires name { instance_name (map declaration_view resolved.now) (instance_at reach.now first)
        ≡ instance_name (map declaration_view resolved.now) (instance_at reach.now second) }
    ensures { IfOk result (IsClash idents.now (map declaration_view resolved.now)) }
{
    let text = instance_text(alloc, idents, reach, first)?;
    let other = instance_text(alloc, idents, reach, second)?;
    match text.as_str().cmp(other.as_str()) {
        Ordering::Greater => ordered_clash(alloc, idents, resolved, reach, second, first),
        Ordering::Less | Ordering::Equal => {
            ordered_clash(alloc, idents, resolved, reach, first, second)
        }
    }
}
