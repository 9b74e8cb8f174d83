//! What is told of instances that are not plain.

ghost use Rattle.std.specs.Prelude.{◌≡◌, ◌++◌, [], List as AnyList, length, map, IfOk, OnOk};
ghost use Rattle.compose.specs.Faults.{AreRefused};
ghost use Rattle.compose.specs.Unplain.{AreDeclaredIn};
ghost use Rattle.diag.specs.Refusal.{Refuses};
ghost use Rattle.syntax.specs.Items.{declaration_view, declarations_view};
ghost use Rattle.syntax.specs.Named.{AreNamed};
ghost use Rattle.telling.specs.declared.told.Told.{Told as AnyTold};
ghost use Rattle.file_derivation.specs.Unplain.{misfit_text, obstacle_text, reason_text, unplain_message, told_unplain, AreUnplainTold, IsPlainTold};
ghost use Rattle.file_derivation.specs.Warned.{AreFirst, IsToldFirst};

use crate::elsewhere::told_at_name;
use crate::warned::{MOST_TOLD, Warnings};
use compose::unplain_of;
use configuration::Config;
use diag::DeriveError;
use plainness::{Misfit, Obstacle, Reason, Unplain};
use prepare::FileItem;
use selecting::Selection;
use std::alloc::{AllocError, Global};
use syntax::{Declaration, Declarations};
use telling::Told;
use texts::{List, Text};

/// What is said of the flattened field, behind its name.
fn misfit_text(misfit: Misfit) -> &'static str
    ensures { result.now ≡ misfit_text misfit }
{
    match misfit {
        Misfit::NoOpenMap => {
            "flattens neither a struct with named fields nor an enum with a tag, or one that has deny_unknown_fields or a flattened map"
        }
        Misfit::NoTexts => "flattens a map whose key is not String, str or char",
        Misfit::NotAlone => "flattens a map beside something else that is flattened",
        Misfit::Denied => "is flattened beside deny_unknown_fields",
    }
}

fn obstacle_text(alloc: Global, obstacle: &Obstacle) -> Result<Text, AllocError>
    ensures { IfOk result (λ text. text ≡ obstacle_text obstacle.now) }
{
    match obstacle {
        Obstacle::Float => Text::new(alloc, "f32 or f64 stands in the type of a field"),
        Obstacle::MapKey => Text::new(
            alloc,
            "a map's key is not String, str, char or an externally tagged enum of unit variants",
        ),
        Obstacle::TaggedNewtype => Text::new(
            alloc,
            "beside `tag`, a newtype variant holds no struct with named fields and without deny_unknown_fields",
        ),
        Obstacle::Flattened(name, misfit) => {
            let said = misfit_text(*misfit);
            Ok(Text::from(format!(in alloc; "`{}` {said}", name.as_str())?))
        }
        Obstacle::Unit => Text::new(
            alloc,
            "it is a unit struct, or () stands in the type of a field",
        ),
        Obstacle::NoVariant => Text::new(
            alloc,
            "it is untagged and has no variant that is not skipped",
        ),
    }
}

fn reason_text(alloc: Global, reason: &Reason) -> Result<Text, AllocError>
    ensures { IfOk result (λ text. text ≡ reason_text reason.now) }
{
    match reason {
        Reason::Body(obstacle) => obstacle_text(alloc, obstacle),
        Reason::Reaches(name) => Ok(Text::from(format!(in alloc; "it uses {}", name.as_str())?)),
    }
}

/// What is said of the instance.
fn unplain_message(alloc: Global, one: &Unplain) -> Result<Text, AllocError>
    ensures { IfOk result (λ message. message ≡ unplain_message one.now) }
{
    let reason = reason_text(alloc, &one.reason)?;
    let message = format!(in alloc; "{} is not plain: {}", one.name.as_str(), reason.as_str())?;
    Ok(Text::from(message))
}

/// What is told of the instance, whose declaration is read from the item, where fewer than a hundred warnings are before it.
fn told_unplain(
    alloc: Global,
    count: usize,
    names: &[Text],
    declaration: &Declaration,
    item: &FileItem,
    one: &Unplain,
) -> Result<Option<Told>, AllocError>
    ensures { IfOk result (IsToldFirst count
        (told_unplain names.now (declaration_view declaration.now) item.now one.now)) }
{
    if count >= MOST_TOLD {
        return Ok(None);
    }
    let message = unplain_message(alloc, one)?;
    let told = told_at_name(alloc, names, declaration, item, message.as_str())?;
    Ok(Some(told))
}

/// Adds what is told of the instances, each of whose declarations is read from the text of the item at the same place.
fn push_unplain(
    alloc: Global,
    names: &[Text],
    from: &[&FileItem],
    declarations: &Declarations,
    unplain: &[Unplain],
    warnings: &mut Warnings,
) -> Result<(), AllocError>
    requires many { length from.now ≡ length (declarations_view declarations.now) }
    requires declared { AreDeclaredIn (length (declarations_view declarations.now)) unplain.now }
    ensures { OnOk result ((front : AnyList AnyTold) → AreFirst front warnings.old
        → (told : AnyList AnyTold) × AreUnplainTold names.now (declarations_view declarations.now)
        (map (λ i. i.now) from.now) unplain.now told × AreFirst (front ++ told) warnings.new) }
{
    let declared = declarations.items.as_slice();
    for at in 0..unplain.len() {
        let one = &unplain[at];
        let place = one.declaration;
        let (declaration, item) = (&declared[place], from[place]);
        let told = told_unplain(alloc, warnings.count, names, declaration, item, one)?;
        warnings.push(told)?;
    }
    Ok(())
}

/// Adds what is told of the instances of the declarations that are not plain, where the selection asks for that.
pub(crate) fn with_unplain(
    alloc: Global,
    names: &[Text],
    from: &[&FileItem],
    declarations: &Declarations,
    asked: bool,
    config: &Config,
    mut warnings: Warnings,
) -> Result<Warnings, DeriveError>
    requires many { length from.now ≡ length (declarations_view declarations.now) }
    requires named { AreNamed (declarations_view declarations.now) }
    ensures told { IfOk result (λ more. (front : AnyList AnyTold) → AreFirst front warnings
        → (told : AnyList AnyTold) × IsPlainTold asked config.now names.now
        (declarations_view declarations.now) (map (λ i. i.now) from.now) told
        × AreFirst (front ++ told) more) }
    ensures refused { Refuses result (AreRefused config.now (declarations_view declarations.now)) }
{
    if !asked {
        return Ok(warnings);
    }
    let unplain = unplain_of(alloc, declarations, config)?;
    let unplain = unplain.as_slice();
    push_unplain(alloc, names, from, declarations, unplain, &mut warnings)?;
    Ok(warnings)
}
