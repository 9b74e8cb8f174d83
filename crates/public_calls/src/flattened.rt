//! Declarations with flattened fields, and one of numbers: how many places they have, and their forms.

use crate::declared::form_of;
use diag::DeriveError;
use leaves::Leaf;
use open_types::OpenType;
use schema_trees::Bound;
use shapes::{
    Annotations, Beside, Body, Declaration, Flattened, FlattenedMap, Form, Member, Tagging, Variant,
};
use std::alloc::{AllocError, Global};
use terms::declaration_term;
use texts::{List, Text};

fn unannotated() -> Annotations {
    Annotations {
        deprecated: false,
        description: None,
    }
}

/// A member `x`.
pub(crate) fn member(alloc: Global) -> Result<Member, AllocError> {
    Ok(Member {
        name: Text::new(alloc, "x")?,
        required: true,
        annotations: unannotated(),
        ty: OpenType::Leaf(Leaf::Bool),
    })
}

/// A variant `V`.
pub(crate) fn variant(alloc: Global, form: Form) -> Result<Variant, AllocError> {
    Ok(Variant {
        name: Text::new(alloc, "V")?,
        annotations: unannotated(),
        form,
    })
}

/// By a tag `t`.
fn tag(alloc: Global) -> Result<Tagging, AllocError> {
    Ok(Tagging::Internal {
        tag: Text::new(alloc, "t")?,
    })
}

/// A map of numbers.
fn map(alloc: Global) -> Result<FlattenedMap, AllocError> {
    Ok(FlattenedMap {
        name: Text::new(alloc, "rest")?,
        annotations: unannotated(),
        key: OpenType::Leaf(Leaf::String),
        value: OpenType::Leaf(Leaf::U8),
    })
}

/// Any value and a map, flattened.
fn beside(alloc: Global) -> Result<Box<Beside>, AllocError> {
    let mut flattened = List::new(alloc);
    flattened.push(Flattened {
        name: Text::new(alloc, "a")?,
        annotations: unannotated(),
        ty: OpenType::AnyValue,
    })?;
    let map = Some(map(alloc)?);
    Ok(Box::new(alloc, Beside { flattened, map })?)
}

/// Any value and a map, flattened beside a member.
fn form(alloc: Global) -> Result<Form, AllocError> {
    let mut members = List::new(alloc);
    members.push(member(alloc)?)?;
    Ok(Form::Named {
        denies_others: false,
        beside: Some(beside(alloc)?),
        members,
    })
}

/// An enum of a variant with that, by a tag.
fn variants(alloc: Global) -> Result<Body, AllocError> {
    let mut variants = List::new(alloc);
    variants.push(variant(alloc, form(alloc)?)?)?;
    let tagging = tag(alloc)?;
    Ok(Body::Variants { tagging, variants })
}

/// An enum of the number 0.
fn numbers(alloc: Global) -> Result<Body, AllocError> {
    let mut numbers = List::new(alloc);
    numbers.push(Bound::zero())?;
    let tagging = Tagging::External;
    Ok(Body::Numbers { tagging, numbers })
}

/// How many places the declaration has, and its form.
fn of_declaration(alloc: Global, declaration: &Declaration) -> Result<String, AllocError> {
    let places = declaration.types(alloc)?.len();
    let form = form_of(&declaration_term(alloc, declaration)?);
    format!(in alloc; "{places} {form:?}")
}

fn of_body(alloc: Global, body: Body) -> Result<String, AllocError> {
    let declaration = Declaration {
        name: Text::new(alloc, "S")?,
        parameters: 0,
        annotations: unannotated(),
        body,
    };
    of_declaration(alloc, &declaration)
}

pub(crate) fn told(alloc: Global) -> Result<String, DeriveError> {
    let fields = of_body(alloc, Body::Fields(form(alloc)?))?;
    let variants = of_body(alloc, variants(alloc)?)?;
    let numbers = of_body(alloc, numbers(alloc)?)?;
    Ok(format!(in alloc; "flattened {fields} {variants} {numbers}")?)
}
