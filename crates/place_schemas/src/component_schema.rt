//! The schema of a place by its written type.

ghost use Rattle.std.specs.Prelude.{◌≡◌, IfOk, true};
ghost use Rattle.diag.specs.Refusal.{Refuses};
ghost use Rattle.open_types.specs.Open.{open_view};
ghost use Rattle.scopes.specs.Descriptions.{described_by};
ghost use Rattle.component.specs.Leaves.{term_view};
ghost use Rattle.component.specs.Places.{place, without_option};
ghost use Rattle.place_schemas.specs.Schemas.{place_of, IsSchemaOf, IsRefusedPlace};

use crate::to_term::ToTerm;
use component::{Place, SchemaReference, Term, copy_term, place_term, references_of};
use diag::{DeriveError, Diagnostics};
use open_types::OpenType;
use scopes::{ComponentDescription, Container, resolve};
use std::alloc::{AllocError, Global};
use texts::{List, Text};
use type_tree::TypeTree;
use written_types::WrittenType;

/// A place by its written type, and what is said of it.
#[derive(Clone, Copy)]
pub struct ComponentSchemaProps<'c, 't> {
    pub container: &'c Container<'c>,
    /// The tree of `written`.
    pub type_tree: &'c TypeTree<'t>,
    pub written: &'c WrittenType,
    /// Whether null may stand there.
    pub nullable: bool,
    /// Whether the schema of a declaration stands there itself, in place of a reference.
    pub inline: bool,
    pub deprecated: bool,
    pub description: Option<&'c ComponentDescription<'c>>,
}

/// The schema of a place, the declarations that it names, and what a reader should know of it.
#[derive(Drop)]
pub struct ComponentSchema {
    /// One entry for each declaration that the term names, tuple items by position and a map's key before its value.
    pub schema_references: List<SchemaReference>,
    pub warnings: List<Diagnostics>,
    pub term: Term,
}

/// The text of the place's description, where it has one.
fn description_of(
    alloc: Global,
    description: Option<&ComponentDescription<'_>>,
) -> Result<Option<Text>, AllocError>
    ensures { IfOk result (λ text. text ≡ described_by description.entry) }
{
    match description {
        None => Ok(None),
        Some(description) => description.text(alloc),
    }
}

/// The type, without its option where it is one.
fn without_option(ty: &OpenType) -> &OpenType
    ensures { open_view result.now ≡ without_option (open_view ty.now) }
{
    match ty {
        OpenType::Option(of) => of,
        _ => ty,
    }
}

/// The term of the place for the type.
fn term_of(
    alloc: Global,
    props: ComponentSchemaProps<'_, '_>,
    ty: &OpenType,
) -> Result<Term, AllocError>
    ensures { IfOk result (λ t. term_view t ≡ place (place_of props.entry) (open_view ty.now)) }
{
    let description = description_of(alloc, props.description)?;
    let place = Place {
        nullable: props.nullable,
        inline: props.inline,
        deprecated: props.deprecated,
        description: &description,
    };
    place_term(alloc, place, ty)
}

impl ComponentSchema {
    /// The schema of the place.
    ///
    /// A refusal is of kind `UnknownType`, `Arity` or `BadArgument`, at a name of the type, or `TypeSize`, at the type
    /// without the references around it.
    pub fn new(
        alloc: Global,
        props: ComponentSchemaProps<'_, '_>,
    ) -> Result<ComponentSchema, DeriveError>
        ensures schema { IfOk result (IsSchemaOf true props.entry) }
        ensures refused { Refuses result (IsRefusedPlace props.entry) }
    {
        ComponentSchema::for_params(alloc, props, true)
    }

    /// The schema of the place of a request's parameter. Where `option_is_nullable` is false, a type that is itself an
    /// `Option` does not say that null may stand there. It refuses as `new` does.
    pub fn for_params(
        alloc: Global,
        props: ComponentSchemaProps<'_, '_>,
        option_is_nullable: bool,
    ) -> Result<ComponentSchema, DeriveError>
        ensures schema { IfOk result (IsSchemaOf option_is_nullable props.entry) }
        ensures refused { Refuses result (IsRefusedPlace props.entry) }
    {
        let container = props.container;
        let resolved = resolve(alloc, container.scope, props.written, container.config)?;
        let ty = if option_is_nullable {
            &resolved
        } else {
            without_option(&resolved)
        };
        let schema_references = references_of(alloc, props.inline, ty)?;
        let term = term_of(alloc, props, ty)?;
        Ok(ComponentSchema {
            schema_references,
            warnings: List::new(alloc),
            term,
        })
    }
}

impl ToTerm for ComponentSchema {
    ghost use Rattle.std.specs.Prelude.{◌≡◌};
    ghost use Rattle.component.specs.Leaves.{term_view};

    ghost has_term = { λ made s. s ≡ term_view made.term };

    fn to_term(&self, alloc: Global) -> Result<Term, DeriveError> {
        Ok(copy_term(alloc, &self.term)?)
    }
}
