//! How resolved types read.

ghost use Rattle.std.specs.Prelude.{◌≡◌, ◌++◌, codes, map, IfOk, OnOk};
ghost use Rattle.open_types.specs.Open.{open_view, opens_view};
ghost use Rattle.syntax.specs.Items.{declarations_view};
ghost use Rattle.scopes.specs.Names.{declared_idents};
ghost use Rattle.scopes.specs.Texts.{name_at, applied, applied_to, tuple_end, separator, type_text, texts_from};

use crate::names::Named;
use open_types::{ClosedType, OpenType};
use std::alloc::{AllocError, Global};
use syntax::Declarations;
use texts::Text;

/// How the type reads, as `Page<Vec<User>>`, where the declarations have the names of its places. A place past the end has
/// no name.
pub fn type_text(
    alloc: Global,
    declarations: &Declarations,
    ty: &ClosedType,
) -> Result<Text, AllocError>
    ensures { IfOk result
        (λ text. text ≡ type_text (name_at (declared_idents (declarations_view declarations.now)))
        (open_view ty.now)) }
{
    text_of_type(alloc, declarations.items.as_slice(), ty.as_open())
}

/// How the type reads, where the items have the names of its places. A parameter has no text, nor has a place past the end
/// a name.
pub fn text_of_type<T: Named>(alloc: Global, items: &[T], ty: &OpenType) -> Result<Text, AllocError>
    ensures { IfOk result
        (λ text. text ≡ type_text (name_at (map T.ident_of items.now)) (open_view ty.now)) }
{
    let mut text = Text::new(alloc, "")?;
    push_type(&mut text, items, ty)?;
    Ok(text)
}

/// The name at the place; past the end, none.
fn name_at<T: Named>(items: &[T], place: usize) -> &str
    ensures { result.now ≡ name_at (map T.ident_of items.now) place }
{
    match items.get(place) {
        Some(item) => item.ident().text.as_str(),
        None => "",
    }
}

/// What ends a tuple of these items.
#[tactic(auto, using(crate::proofs::TextLaws::one_end, crate::proofs::TextLaws::other_end))]
fn tuple_end(items: &[OpenType]) -> &'static str
    ensures { result.now ≡ tuple_end (opens_view items.now) }
{
    if items.len() == 1 { ",)" } else { ")" }
}

/// Adds a name and what stands before its arguments.
fn push_opening(text: &mut Text, name: &str) -> Result<(), AllocError>
    ensures { OnOk result (text.new ≡ (text.old ++ name.now) ++ codes "<") }
{
    text.push(name)?;
    text.push("<")
}

/// Adds the type at the end of the text.
#[cycle(text)]
pub(crate) fn push_type<T: Named>(
    text: &mut Text,
    names: &[T],
    ty: &OpenType,
) -> Result<(), AllocError>
    ensures { OnOk result
        (text.new ≡ text.old ++ type_text (name_at (map T.ident_of names.now)) (open_view ty.now)) }
{
    match ty {
        OpenType::Leaf(leaf) => text.push(leaf.name()),
        OpenType::AnyValue => text.push("Value"),
        OpenType::FreeObject => text.push("Object"),
        OpenType::Unit => text.push("()"),
        OpenType::Tuple(items) => push_tuple(text, names, items.as_slice()),
        OpenType::Items(head, of) => push_applied(text, names, head.name(), of),
        OpenType::Set(head, of) => push_applied(text, names, head.name(), of),
        OpenType::Map(head, key, of) => {
            push_opening(text, head.name())?;
            push_type(text, names, key)?;
            text.push(", ")?;
            push_type(text, names, of)?;
            text.push(">")
        }
        OpenType::Option(of) => push_applied(text, names, "Option", of),
        OpenType::Through(head, of) => push_applied(text, names, head.name(), of),
        OpenType::Param(_) => Ok(()),
        OpenType::Named(place, arguments) => {
            text.push(name_at(names, *place))?;
            push_arguments(text, names, arguments.as_slice())
        }
    }
}

#[cycle(text)]
fn push_tuple<T: Named>(text: &mut Text, names: &[T], items: &[OpenType]) -> Result<(), AllocError>
    ensures { OnOk result
        (text.new
        ≡ text.old
        ++ (codes
        "(" ++ (texts_from (name_at (map T.ident_of names.now)) 0 (opens_view items.now)
        ++ tuple_end (opens_view items.now)))) }
{
    text.push("(")?;
    push_types(text, names, items)?;
    text.push(tuple_end(items))
}

/// Adds a name with one argument.
#[cycle(text)]
fn push_applied<T: Named>(
    text: &mut Text,
    names: &[T],
    name: &str,
    of: &OpenType,
) -> Result<(), AllocError>
    ensures { OnOk result
        (text.new
        ≡ text.old ++ applied name.now
        (type_text (name_at (map T.ident_of names.now)) (open_view of.now))) }
{
    push_opening(text, name)?;
    push_type(text, names, of)?;
    text.push(">")
}

/// Adds the arguments, if any, to a name that stands at the end.
#[cycle(text)]
fn push_arguments<T: Named>(
    text: &mut Text,
    names: &[T],
    arguments: &[OpenType],
) -> Result<(), AllocError>
    ensures { OnOk result
        (text.new
        ≡ applied_to text.old (opens_view arguments.now)
        (texts_from (name_at (map T.ident_of names.now)) 0 (opens_view arguments.now))) }
{
    if arguments.is_empty() {
        return Ok(());
    }
    text.push("<")?;
    push_types(text, names, arguments)?;
    text.push(">")
}

/// Adds the types, with `, ` between them.
#[cycle(text)]
fn push_types<T: Named>(text: &mut Text, names: &[T], types: &[OpenType]) -> Result<(), AllocError>
    ensures { OnOk result
        (text.new ≡ text.old ++ texts_from (name_at (map T.ident_of names.now)) 0
        (opens_view types.now)) }
{
    for (at, ty) in types.iter().enumerate() {
        push_separator(text, at)?;
        push_type(text, names, ty)?;
    }
    Ok(())
}

/// Adds what stands before the type at the place.
fn push_separator(text: &mut Text, at: usize) -> Result<(), AllocError>
    ensures { OnOk result (text.new ≡ text.old ++ separator at) }
{
    if at == 0 {
        return Ok(());
    }
    text.push(", ")
}
