//! The schemas of what stands in a body, by their forms.

use crate::declared::{TermForm, form};
use crate::flattened::{member, variant};
use declaration_schemas::{
    InternallyTaggedUnnamedSchema, MixedEnumContent, ObjectSchema, OneOf, PlainSchema, Property,
};
use diag::DeriveError;
use leaves::Leaf;
use open_types::OpenType;
use shapes::{Form, Member, Tagging, Variant};
use std::alloc::Global;
use std::slice;
use texts::Text;

/// The form of an object around the member.
fn object(alloc: Global, member: &Member) -> Result<TermForm, DeriveError> {
    let property = Property::new(member);
    form(alloc, &ObjectSchema::new(&member.name, &property))
}

/// The form of the name as one of several.
fn one_of(alloc: Global, name: &Text) -> Result<TermForm, DeriveError> {
    let items = [PlainSchema::new(slice::from_ref(name))];
    form(alloc, &OneOf::new(items.as_slice()))
}

/// The form of the variant with a tag.
fn content(alloc: Global, tagging: &Tagging, variant: &Variant) -> Result<TermForm, DeriveError> {
    form(alloc, &MixedEnumContent::new(tagging, variant))
}

/// The form of a number in the place of the variant, with its name as the tag.
fn tagged(alloc: Global, variant: &Variant, ty: &OpenType) -> Result<TermForm, DeriveError> {
    let (name, said) = (&variant.name, &variant.annotations);
    form(
        alloc,
        &InternallyTaggedUnnamedSchema::new(name, name, said, ty),
    )
}

fn of_member(alloc: Global) -> Result<(TermForm, TermForm), DeriveError> {
    let member = member(alloc)?;
    Ok((object(alloc, &member)?, one_of(alloc, &member.name)?))
}

fn of_variant(alloc: Global) -> Result<(TermForm, TermForm), DeriveError> {
    let variant = variant(alloc, Form::Unit)?;
    let number = OpenType::Leaf(Leaf::U8);
    let content = content(alloc, &Tagging::Untagged, &variant)?;
    Ok((content, tagged(alloc, &variant, &number)?))
}

pub(crate) fn told(alloc: Global) -> Result<String, DeriveError> {
    let (object, one_of) = of_member(alloc)?;
    let (content, tagged) = of_variant(alloc)?;
    Ok(format!(in alloc; "parts {object:?} {one_of:?} {content:?} {tagged:?}")?)
}
