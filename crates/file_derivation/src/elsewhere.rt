//! What is told at the names of declarations: of those that name what another file has.

ghost use Rattle.std.specs.Prelude.{◌≡◌, ◌++◌, List as AnyList, length, map, option_map, IfOk, OnOk};
ghost use Rattle.selecting.specs.Elsewhere.{found_by};
ghost use Rattle.syntax.specs.Items.{declaration_view, declarations_view};
ghost use Rattle.telling.specs.declared.told.Told.{Told as AnyTold};
ghost use Rattle.file_derivation.specs.Elsewhere.{told_at_name, elsewhere_message, told_elsewhere, told_all_elsewhere};
ghost use Rattle.file_derivation.specs.Warned.{AreFirst, IsToldFirst};

use crate::warned::{MOST_TOLD, Warnings};
use gathering::file_name;
use prepare::FileItem;
use selecting::Elsewhere;
use std::alloc::{AllocError, Global};
use syntax::{Declaration, Declarations};
use telling::{Told, told_in};
use texts::Text;

/// What is told of the declaration, which is read from the item, at its name.
pub(crate) fn told_at_name(
    alloc: Global,
    names: &[Text],
    declaration: &Declaration,
    item: &FileItem,
    message: &str,
) -> Result<Told, AllocError>
    ensures { IfOk result (λ told. told
        ≡ told_at_name names.now (declaration_view declaration.now) item.now message.now) }
{
    let (name, text) = (file_name(names, item.file), item.text.as_str());
    let span = declaration.ident.span;
    told_in(alloc, name, &item.place, text, span, "warning", message)
}

/// What is said of a declaration that names what another file has.
fn elsewhere_message(alloc: Global, name: &Text) -> Result<Text, AllocError>
    ensures { IfOk result (λ message. message ≡ elsewhere_message name.now) }
{
    let message = format!(in alloc;
        "{}, which it names, is that of another file: the one of this file is not described",
        name.as_str()
    )?;
    Ok(Text::from(message))
}

/// What is told of the declaration that names what another file has, where fewer than a hundred warnings are before it.
fn told_elsewhere(
    alloc: Global,
    count: usize,
    names: &[Text],
    declaration: &Declaration,
    item: &FileItem,
    name: &Text,
) -> Result<Option<Told>, AllocError>
    ensures { IfOk result (IsToldFirst count (told_at_name names.now
        (declaration_view declaration.now) item.now (elsewhere_message name.now))) }
{
    if count >= MOST_TOLD {
        return Ok(None);
    }
    let message = elsewhere_message(alloc, name)?;
    let told = told_at_name(alloc, names, declaration, item, message.as_str())?;
    Ok(Some(told))
}

/// Adds what is told of the declaration, which is read from the item, where it names what another file has.
fn add_elsewhere(
    alloc: Global,
    names: &[Text],
    declaration: &Declaration,
    item: &FileItem,
    name: Option<&Text>,
    warnings: &mut Warnings,
) -> Result<(), AllocError>
    ensures { OnOk result ((all : AnyList AnyTold) → AreFirst all warnings.old
        → AreFirst (all ++ told_elsewhere names.now (declaration_view declaration.now) item.now
        (option_map (λ n. n.now) name.entry)) warnings.new) }
{
    match name {
        None => Ok(()),
        Some(name) => {
            let told = told_elsewhere(alloc, warnings.count, names, declaration, item, name)?;
            warnings.push(told)
        }
    }
}

/// Adds what is told of the declarations, each read from the text of the item at the same place, that name what another
/// file has.
pub(crate) fn with_elsewhere(
    alloc: Global,
    names: &[Text],
    from: &[&FileItem],
    declarations: &Declarations,
    elsewhere: &Elsewhere,
    mut warnings: Warnings,
) -> Result<Warnings, AllocError>
    requires many { length from.now ≡ length (declarations_view declarations.now) }
    ensures { IfOk result (λ more. (front : AnyList AnyTold) → AreFirst front warnings
        → AreFirst (front ++ told_all_elsewhere names.now (found_by elsewhere.now)
        (declarations_view declarations.now) (map (λ i. i.now) from.now)) more) }
{
    let declared = declarations.items.as_slice();
    for at in 0..from.len() {
        let (declaration, item) = (&declared[at], from[at]);
        let name = elsewhere.name_of(alloc, item)?;
        add_elsewhere(alloc, names, declaration, item, name, &mut warnings)?;
    }
    Ok(warnings)
}
