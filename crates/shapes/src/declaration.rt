//! Declarations with resolved types.

ghost use Rattle.std.specs.Prelude.{◌≡◌, false, map, option_map, is_some, IfOk};
ghost use Rattle.open_types.specs.Open.{open_view};
ghost use Rattle.shapes.specs.Declarations.{member_types, flattened_types, map_types, types_beside, form_types, variant_types, body_types};
ghost use Rattle.shapes.specs.Views.{member_view, flattened_view, flattened_map_view, beside_view, form_view, variant_view, body_view, declaration_view};

use crate::annotations::Annotations;
use crate::tagging::Tagging;
use open_types::OpenType;
use schema_trees::Bound;
use std::alloc::{AllocError, Global};
use texts::{List, Text};

/// A field.
#[derive(Debug, Drop)]
pub struct Member {
    /// Its name in JSON.
    pub name: Text,
    /// Whether its member must be there.
    pub required: bool,
    pub annotations: Annotations,
    pub ty: OpenType,
}

/// A flattened field that is no map.
#[derive(Debug, Drop)]
pub struct Flattened {
    /// The field's identifier, for reports: it has no name in JSON.
    pub name: Text,
    pub annotations: Annotations,
    pub ty: OpenType,
}

/// A flattened map: the members that have no name of their own are its entries.
#[derive(Debug, Drop)]
pub struct FlattenedMap {
    /// The field's identifier, for reports: it has no name in JSON.
    pub name: Text,
    pub annotations: Annotations,
    /// The type of its keys.
    pub key: OpenType,
    /// The type of its values.
    pub value: OpenType,
}

/// What is flattened into named fields.
#[derive(Debug, Drop)]
pub struct Beside {
    /// The flattened fields that are no maps, in order.
    pub flattened: List<Flattened>,
    pub map: Option<FlattenedMap>,
}

/// The fields of a struct or of a variant.
#[derive(Debug, Drop)]
pub enum Form {
    /// Named fields.
    Named {
        /// Whether members that none of them has are refused.
        denies_others: bool,
        /// What is flattened, where something is.
        beside: Option<Box<Beside>>,
        /// The fields that have a name of their own.
        members: List<Member>,
    },
    /// Unnamed fields by their types.
    Unnamed(List<OpenType>),
    /// No fields.
    Unit,
}

/// A variant of an enum.
#[derive(Debug, Drop)]
pub struct Variant {
    /// Its name in JSON.
    pub name: Text,
    pub annotations: Annotations,
    pub form: Form,
}

/// What a declaration declares.
#[derive(Debug, Drop)]
pub enum Body {
    /// The fields of a struct.
    Fields(Form),
    /// An enum whose variants have no fields, by their names in JSON.
    Units {
        tagging: Tagging,
        names: List<Text>,
    },
    /// An enum whose variants have no fields, by the numbers that stand for them.
    Numbers {
        tagging: Tagging,
        numbers: List<Bound>,
    },
    /// An enum of which a variant has fields.
    Variants {
        tagging: Tagging,
        variants: List<Variant>,
    },
}

/// A struct or an enum.
#[derive(Debug, Drop)]
pub struct Declaration {
    pub name: Text,
    /// How many type parameters it has.
    pub parameters: usize,
    pub annotations: Annotations,
    pub body: Body,
}

/// The flattened fields that are no maps.
pub fn flattened_of(beside: &Option<Box<Beside>>) -> &[Flattened]
    ensures { map flattened_view result.now ≡ (beside_view false beside.now).flattened }
{
    match beside {
        Some(beside) => beside.flattened.as_slice(),
        None => &[],
    }
}

/// Whether a map is flattened.
pub fn has_map(beside: &Option<Box<Beside>>) -> bool
    ensures { result ≡ is_some (beside_view false beside.now).map }
{
    match beside {
        Some(beside) => beside.map.is_some(),
        None => false,
    }
}

/// The types of the members.
fn member_types(alloc: Global, members: &[Member]) -> Result<Vec<&OpenType>, AllocError>
    ensures { IfOk result (λ ts. map (λ ty. open_view ty.now) ts.items
        ≡ member_types (map member_view members.now)) }
{
    members.iter().map(|member| &member.ty).collect(alloc)
}

/// The types of flattened fields.
fn flattened_types(alloc: Global, flattened: &[Flattened]) -> Result<Vec<&OpenType>, AllocError>
    ensures { IfOk result (λ ts. map (λ ty. open_view ty.now) ts.items
        ≡ flattened_types (map flattened_view flattened.now)) }
{
    flattened.iter().map(|field| &field.ty).collect(alloc)
}

/// The types of a flattened map's names and of its values.
fn map_types(alloc: Global, entries: &Option<FlattenedMap>) -> Result<Vec<&OpenType>, AllocError>
    ensures { IfOk result (λ ts. map (λ ty. open_view ty.now) ts.items
        ≡ map_types (option_map flattened_map_view entries.now)) }
{
    let mut types = Vec::new(alloc);
    if let Some(map) = entries {
        types.push(&map.key)?;
        types.push(&map.value)?;
    }
    Ok(types)
}

/// The types of what is flattened, in front of those of the members.
fn types_beside<'a>(
    alloc: Global,
    beside: &'a Option<Box<Beside>>,
    members: &'a [Member],
) -> Result<Vec<&'a OpenType>, AllocError>
    ensures { IfOk result (λ ts. map (λ ty. open_view ty.now) ts.items
        ≡ types_beside (beside_view false beside.now) (member_types (map member_view members.now))) }
{
    let Some(beside) = beside else {
        return member_types(alloc, members);
    };
    let mut types = flattened_types(alloc, beside.flattened.as_slice())?;
    let mut of_map = map_types(alloc, &beside.map)?;
    let mut of_members = member_types(alloc, members)?;
    types.append(&mut of_map)?;
    types.append(&mut of_members)?;
    Ok(types)
}

/// Each of the types.
fn each_type(alloc: Global, types: &[OpenType]) -> Result<Vec<&OpenType>, AllocError>
    ensures { IfOk result
        (λ ts. map (λ ty. open_view ty.now) ts.items ≡ map open_view types.now) }
{
    types.iter().collect(alloc)
}

fn form_types(alloc: Global, form: &Form) -> Result<Vec<&OpenType>, AllocError>
    ensures { IfOk result
        (λ ts. map (λ ty. open_view ty.now) ts.items ≡ form_types (form_view form.now)) }
{
    match form {
        Form::Named {
            beside,
            members,
            ..
        } => types_beside(alloc, beside, members.as_slice()),
        Form::Unnamed(types) => each_type(alloc, types.as_slice()),
        Form::Unit => Ok(Vec::new(alloc)),
    }
}

fn variant_types(alloc: Global, variants: &[Variant]) -> Result<Vec<&OpenType>, AllocError>
    ensures { IfOk result (λ ts. map (λ ty. open_view ty.now) ts.items
        ≡ variant_types (map variant_view variants.now)) }
{
    let mut types = Vec::new(alloc);
    for variant in variants {
        let mut of_variant = form_types(alloc, &variant.form)?;
        types.append(&mut of_variant)?;
    }
    Ok(types)
}

impl Body {
    /// The types of the places, in order; of a form with flattened fields those of these in front, of a flattened map its
    /// key and its value.
    pub fn types(&self, alloc: Global) -> Result<Vec<&OpenType>, AllocError>
        ensures { IfOk result
            (λ types. map (λ ty. open_view ty.now) types.items ≡ body_types (body_view self.now)) }
    {
        match self {
            Body::Fields(form) => form_types(alloc, form),
            Body::Units { .. } | Body::Numbers { .. } => Ok(Vec::new(alloc)),
            Body::Variants { variants, .. } => variant_types(alloc, variants.as_slice()),
        }
    }
}

impl Declaration {
    /// The types of the places of its body.
    pub fn types(&self, alloc: Global) -> Result<Vec<&OpenType>, AllocError>
        ensures { IfOk result (λ types. map (λ ty. open_view ty.now) types.items
            ≡ body_types (declaration_view self.now).body) }
    {
        self.body.types(alloc)
    }
}
