//! The schemas of structs, by the form of their fields.

ghost use Rattle.std.specs.Prelude.{◌≡◌, map, IfOk, IfErr};
ghost use Rattle.std.specs.List.{AllByRecursion};
ghost use Rattle.diag.specs.Refusal.{Refuses};
ghost use Rattle.syntax.specs.Items.{field_view, named, unnamed, unit};
ghost use Rattle.syntax.specs.Named.{HasName};
ghost use Rattle.derive_decl.specs.Faults.{AreFaultyNamed, AreFaultyTypes};
ghost use Rattle.derive_decl.specs.Views.{items_of, known};
ghost use Rattle.declaration_schemas.specs.Made.{IsMadeOf, struct_of};

use crate::body_schema::BodySchema;
use crate::kinds::{NamedFields, NoFields, UnnamedFields};
use derive_decl::{Root, named_form, unnamed_form};
use diag::DeriveError;
use shapes::{Body, Form};
use std::alloc::Global;
use syntax::Field;

/// A struct without fields. Its schema has null as its default, which does not say that it is deprecated.
pub type UnitStructVariant = BodySchema<NoFields>;

/// A struct with named fields. Its schema is an object with a property for each field that serde neither skips nor flattens;
/// beside flattened fields that are no maps it is an `allOf` of their schemas and of this object.
pub type NamedStructSchema = BodySchema<NamedFields>;

/// A struct with unnamed fields. One field is read as its content, several as a list.
pub type UnnamedStructSchema = BodySchema<UnnamedFields>;

impl BodySchema<NoFields> {
    /// The struct of the root. Only memory can be wanted.
    pub fn new(alloc: Global, root: &Root<'_>) -> Result<Self, DeriveError>
        ensures made { IfOk result (IsMadeOf root.now (struct_of root.now unit)) }
        ensures refused { IfErr result (λ e. e ≡ DeriveError.Memory) }
    {
        BodySchema::annotated(alloc, root, Body::Fields(Form::Unit))
    }
}

impl BodySchema<NamedFields> {
    /// The struct of the root with these fields, of which each has a name.
    ///
    /// A refusal is of kind `SerdeTag` or `BadValue`, for serde's attributes of the struct; or, of the fields that are
    /// kept, `UnknownType`, `Arity`, `BadArgument` or `TypeSize`, for the type of one; `MissingRow`, at an identifier whose
    /// name is that of a row that there is not; `DuplicateName`, at the first identifier whose name stands before it; or
    /// `FlattenedMaps`, at the second flattened field whose type is a map.
    pub fn new(alloc: Global, root: &Root<'_>, fields: &[Field]) -> Result<Self, DeriveError>
        requires { AllByRecursion HasName (map field_view fields.now) }
        ensures made { IfOk result
            (IsMadeOf root.now (struct_of root.now (named (map field_view fields.now)))) }
        ensures refused { Refuses result
            (AreFaultyNamed (known root.now.container.now) (items_of root.now) root.now.ident.now
            (map field_view fields.now)) }
    {
        let form = named_form(alloc, root, fields)?;
        BodySchema::annotated(alloc, root, Body::Fields(form))
    }
}

impl BodySchema<UnnamedFields> {
    /// The struct of the root with these fields, of which none has a name.
    ///
    /// A refusal is of kind `UnknownType`, `Arity`, `BadArgument` or `TypeSize`, for the type of a field; or `Arity`, at the
    /// name of the struct, where there is no field.
    pub fn new(alloc: Global, root: &Root<'_>, fields: &[Field]) -> Result<Self, DeriveError>
        ensures made { IfOk result
            (IsMadeOf root.now (struct_of root.now (unnamed (map field_view fields.now)))) }
        ensures refused { Refuses result
            (AreFaultyTypes (known root.now.container.now) root.now.ident.now
            (map field_view fields.now)) }
    {
        let form = unnamed_form(alloc, root, fields)?;
        BodySchema::annotated(alloc, root, Body::Fields(form))
    }
}
