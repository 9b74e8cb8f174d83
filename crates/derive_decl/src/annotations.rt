//! What is said of a declaration or a field beside its type: that it is deprecated, and its docs.

ghost use Rattle.std.specs.Prelude.{◌≡◌, map, IfOk};
ghost use Rattle.attributes.specs.Attributes.{attribute_view};
ghost use Rattle.derive_decl.specs.Fields.{is_deprecated};
ghost use Rattle.derive_decl.specs.Resolved.{description_of, annotations_of};

use scopes::ComponentDescription;
use shapes::Annotations;
use std::alloc::{AllocError, Global};
use syntax::{Attribute, CommentAttributes};
use texts::Text;

/// Whether Rust's attribute `deprecated` is among these.
fn is_deprecated(attributes: &[Attribute]) -> bool
    ensures { result ≡ is_deprecated (map attribute_view attributes.now) }
{
    for attribute in attributes {
        if attribute.is("deprecated") {
            return true;
        }
    }
    false
}

/// Doc comments as a description, where they say something.
fn description_of(alloc: Global, attributes: &[Attribute]) -> Result<Option<Text>, AllocError>
    ensures { IfOk result (λ description.
        description ≡ description_of (map attribute_view attributes.now)) }
{
    let comments = CommentAttributes::from_attributes(alloc, attributes)?;
    ComponentDescription::CommentAttributes(&comments).text(alloc)
}

/// What the attributes say of the declaration, the variant or the field that they stand before.
pub fn annotations_of(alloc: Global, attributes: &[Attribute]) -> Result<Annotations, AllocError>
    ensures { IfOk result
        (λ annotations. annotations ≡ annotations_of (map attribute_view attributes.now)) }
{
    Ok(Annotations {
        deprecated: is_deprecated(attributes),
        description: description_of(alloc, attributes)?,
    })
}
