//! The declarations that the schema of a place names.

ghost use Rattle.std.specs.Prelude.{◌≡◌, ◌++◌, map, IfOk, OnOk};
ghost use Rattle.open_types.specs.Open.{open_view, opens_view};
ghost use Rattle.component.specs.References.{reference_view, references, item_references};

use open_types::OpenType;
use std::alloc::{AllocError, Global};
use texts::List;

/// A declaration that a schema names.
#[derive(Debug, Drop)]
pub struct SchemaReference {
    /// The declaration with its arguments.
    pub of: OpenType,
    /// Whether its schema stands there itself, in place of a reference.
    pub is_inline: bool,
    /// Whether the place asks that the declaration is not followed.
    pub no_recursion: bool,
}

/// The declarations that the schema of a place of the type names, in the order in which it is made.
pub fn references_of(
    alloc: Global,
    inline: bool,
    ty: &OpenType,
) -> Result<List<SchemaReference>, AllocError>
    ensures { IfOk result (λ rs. map reference_view rs ≡ references inline (open_view ty.now)) }
{
    let mut found = List::new(alloc);
    push_references(alloc, &mut found, inline, ty)?;
    Ok(found)
}

#[cycle(references)]
fn push_references(
    alloc: Global,
    found: &mut List<SchemaReference>,
    inline: bool,
    ty: &OpenType,
) -> Result<(), AllocError>
    ensures { OnOk result
        (map reference_view found.new ≡ map reference_view found.old ++ references inline
        (open_view ty.now)) }
{
    match ty {
        OpenType::Leaf(_) | OpenType::AnyValue | OpenType::FreeObject => Ok(()),
        OpenType::Unit | OpenType::Param(_) => Ok(()),
        OpenType::Tuple(items) => push_item_references(alloc, found, items.as_slice()),
        OpenType::Items(_, of) | OpenType::Set(_, of) => {
            push_references(alloc, found, inline, of)
        }
        OpenType::Option(of) | OpenType::Through(_, of) => {
            push_references(alloc, found, inline, of)
        }
        OpenType::Map(_, key, value) => {
            push_references(alloc, found, true, key)?;
            push_references(alloc, found, inline, value)
        }
        OpenType::Named(_, _) => {
            let of = ty.copy(alloc)?;
            found.push(SchemaReference {
                of,
                is_inline: inline,
                no_recursion: false,
            })
        }
    }
}

#[cycle(references)]
fn push_item_references(
    alloc: Global,
    found: &mut List<SchemaReference>,
    types: &[OpenType],
) -> Result<(), AllocError>
    ensures { OnOk result
        (map reference_view found.new
        ≡ map reference_view found.old ++ item_references (opens_view types.now)) }
{
    for ty in types {
        push_references(alloc, found, true, ty)?;
    }
    Ok(())
}
