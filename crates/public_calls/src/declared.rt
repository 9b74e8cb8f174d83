//! The schemas of declarations and of what is written in them, by their forms.

ghost use Rattle.std.specs.Prelude.{◌<◌, length, map};
ghost use Rattle.std.specs.List.{AllByRecursion};
ghost use Rattle.syntax.specs.Items.{body_view, declaration_view, declarations_view, field_view, fields_view, variant_view};
ghost use Rattle.syntax.specs.Named.{AreNamed, HasName, HaveNames, IsNamedBody};

use component::{Term, copy_term};
use configuration::Config;
use declaration_schemas::{
    EnumSchema, MixedEnum, NamedStructSchema, PlainEnum, Schema, SchemaVariant, UnitStructVariant,
    UnnamedStructSchema,
};
use derive_decl::Root;
use diag::DeriveError;
use place_schemas::{ComponentSchema, ComponentSchemaProps, ToTerm};
use schema_trees::Tree;
use scopes::{ComponentDescription, Container, Places, Scope};
use shapes::{Annotations, Body as Resolved};
use std::alloc::{AllocError, Global};
use syntax::{
    Body, CommentAttributes, Declaration, Declarations, Field, Fields, Variant, parse_declarations,
    parse_type,
};
use terms::{declaration_term, form_term};
use texts::List;
use type_tree::TypeTree;

/// The form of a term.
#[derive(Clone, Copy, Debug)]
pub(crate) enum TermForm {
    Leaf,
    Object,
    Array,
    OneOf,
    AllOf,
}

/// The form of the term.
pub(crate) fn form_of(term: &Term) -> TermForm {
    match term {
        Tree::Leaf(_) => TermForm::Leaf,
        Tree::Object(_) => TermForm::Object,
        Tree::Array(_) => TermForm::Array,
        Tree::OneOf(_) => TermForm::OneOf,
        Tree::AllOf(_) => TermForm::AllOf,
    }
}

/// The form of what has a term.
pub(crate) fn form<T: ToTerm>(alloc: Global, made: &T) -> Result<TermForm, DeriveError>
    requires { T.is_ready made.now }
{
    Ok(form_of(&made.to_term(alloc)?))
}

fn named_struct(alloc: Global, root: &Root<'_>, fields: &[Field]) -> Result<TermForm, DeriveError>
    requires { AllByRecursion HasName (map field_view fields.now) }
{
    form(alloc, &NamedStructSchema::new(alloc, root, fields)?)
}

fn unnamed_struct(
    alloc: Global,
    root: &Root<'_>,
    fields: &[Field],
) -> Result<TermForm, DeriveError> {
    form(alloc, &UnnamedStructSchema::new(alloc, root, fields)?)
}

fn unit_struct(alloc: Global, root: &Root<'_>) -> Result<TermForm, DeriveError> {
    form(alloc, &UnitStructVariant::new(alloc, root)?)
}

/// The form of a struct with these fields.
fn of_fields(alloc: Global, root: &Root<'_>, fields: &Fields) -> Result<TermForm, DeriveError>
    requires { HaveNames (fields_view fields.now) }
{
    match fields {
        Fields::Named(fields) => named_struct(alloc, root, fields.as_slice()),
        Fields::Unnamed(fields) => unnamed_struct(alloc, root, fields.as_slice()),
        Fields::Unit => unit_struct(alloc, root),
    }
}

fn any_enum(alloc: Global, root: &Root<'_>, variants: &[Variant]) -> Result<TermForm, DeriveError>
    requires { AllByRecursion (λ v. HaveNames v.fields) (map variant_view variants.now) }
{
    form(alloc, &EnumSchema::new(alloc, root, variants)?)
}

fn plain_enum(
    alloc: Global,
    root: &Root<'_>,
    variants: &[Variant],
) -> Result<TermForm, DeriveError> {
    form(alloc, &PlainEnum::new(alloc, root, variants)?)
}

fn mixed_enum(alloc: Global, root: &Root<'_>, variants: &[Variant]) -> Result<TermForm, DeriveError>
    requires { AllByRecursion (λ v. HaveNames v.fields) (map variant_view variants.now) }
{
    form(alloc, &MixedEnum::new(alloc, root, variants)?)
}

/// The form of any enum with these variants, and that of one by its names, where it has one, or else by its variants.
fn of_variants(
    alloc: Global,
    root: &Root<'_>,
    variants: &[Variant],
) -> Result<(TermForm, TermForm), DeriveError>
    requires { AllByRecursion (λ v. HaveNames v.fields) (map variant_view variants.now) }
{
    let any = any_enum(alloc, root, variants)?;
    let own = match variants {
        [_] => plain_enum(alloc, root, variants)?,
        _ => mixed_enum(alloc, root, variants)?,
    };
    Ok((any, own))
}

/// The form of what is written in the body.
fn of_written(
    alloc: Global,
    root: &Root<'_>,
    body: &Body,
) -> Result<(TermForm, TermForm), DeriveError>
    requires { IsNamedBody (body_view body.now) }
{
    match body {
        Body::Struct(fields) => {
            let form = of_fields(alloc, root, fields)?;
            Ok((form, form))
        }
        Body::Enum(variants) => of_variants(alloc, root, variants.as_slice()),
    }
}

/// The form of fields, where the body has them, and else that of an enum.
fn of_form(
    alloc: Global,
    annotations: &Annotations,
    body: &Resolved,
) -> Result<TermForm, DeriveError> {
    match body {
        Resolved::Fields(form) => Ok(form_of(&form_term(alloc, annotations, form)?)),
        _ => Ok(TermForm::OneOf),
    }
}

/// The form of what the body is resolved to, and of its fields.
fn of_resolved(
    alloc: Global,
    root: &Root<'_>,
    body: &Body,
) -> Result<(TermForm, TermForm), DeriveError>
    requires { IsNamedBody (body_view body.now) }
{
    let made = SchemaVariant::new(alloc, body, root)?;
    Ok((
        form(alloc, &made)?,
        of_form(alloc, &made.annotations, &made.body)?,
    ))
}

/// How many places the declaration has.
fn count_places(alloc: Global, schema: &Schema<'_>) -> Result<usize, DeriveError>
    requires { IsNamedBody (body_view schema.now.body.now) }
{
    Ok(schema.place_types(alloc)?.len())
}

/// The form of what the declaration is resolved to.
fn of_declared(alloc: Global, schema: &Schema<'_>) -> Result<TermForm, DeriveError>
    requires { IsNamedBody (body_view schema.now.body.now) }
{
    let resolved = schema.resolve(alloc)?;
    Ok(form_of(&declaration_term(alloc, &resolved)?))
}

/// How many places the declaration has, its form, and that of what it is resolved to.
fn of_schema(alloc: Global, schema: &Schema<'_>) -> Result<(usize, TermForm, TermForm), DeriveError>
    requires { IsNamedBody (body_view schema.now.body.now) }
{
    let places = count_places(alloc, schema)?;
    let own = form(alloc, schema)?;
    Ok((places, own, of_declared(alloc, schema)?))
}

/// The form of a copy of the place's term, and of the place.
fn of_made(alloc: Global, made: &ComponentSchema) -> Result<(TermForm, TermForm), DeriveError> {
    let copy = form_of(&copy_term(alloc, &made.term)?);
    Ok((form(alloc, made)?, copy))
}

/// The forms of the place, where it is that of a parameter and where it is not, and of a copy.
fn of_props(
    alloc: Global,
    props: ComponentSchemaProps<'_, '_>,
    is_parameter: bool,
) -> Result<(TermForm, TermForm), DeriveError> {
    let made = if is_parameter {
        ComponentSchema::for_params(alloc, props, true)
    } else {
        ComponentSchema::new(alloc, props)
    };
    of_made(alloc, &made?)
}

/// The forms of a place of a list, perhaps of a parameter.
fn of_place(
    alloc: Global,
    container: &Container<'_>,
    is_parameter: bool,
) -> Result<(TermForm, TermForm), DeriveError> {
    let written = parse_type(alloc, "Vec<u8>")?;
    let tree = TypeTree::from_type(alloc, &written)?;
    let comments = CommentAttributes(List::new(alloc));
    let comments = ComponentDescription::CommentAttributes(&comments);
    let description = Some(&comments);
    let props = ComponentSchemaProps {
        container: &*container,
        type_tree: &tree,
        written: &written,
        nullable: false,
        inline: false,
        deprecated: false,
        description,
    };
    of_props(alloc, props, is_parameter)
}

/// The forms of places of a list.
fn places_text(alloc: Global, container: &Container<'_>) -> Result<String, DeriveError> {
    let place = of_place(alloc, container, false)?;
    let parameter = of_place(alloc, container, true)?;
    Ok(format!(in alloc;
        "places {:?} {:?} {:?} {:?}",
        place.0, place.1, parameter.0, parameter.1
    )?)
}

/// What is said of the declaration.
fn declaration_text(
    alloc: Global,
    first: &Declaration,
    container: &Container<'_>,
) -> Result<String, DeriveError>
    requires { IsNamedBody (declaration_view first.now).body }
{
    let attributes = first.attrs.as_slice();
    let schema = Schema::new(&first.body, attributes, &first.ident, container);
    let root = Root {
        ident: &first.ident,
        attributes,
        container,
    };
    let of_schema = of_schema(alloc, &schema)?;
    let resolved = of_resolved(alloc, &root, &first.body)?;
    let written = of_written(alloc, &root, &first.body)?;
    let (places, own, declared) = of_schema;
    let (body, form) = resolved;
    Ok(format!(in alloc;
        "{places} {own:?} {declared:?} {body:?} {form:?} {:?} {:?}",
        written.0, written.1
    )?)
}

/// What is said of the declarations, of which there is one, or else of places.
fn first_text(
    alloc: Global,
    places: &Places<'_>,
    first: &Declaration,
    is_alone: bool,
) -> Result<String, DeriveError>
    requires first { 0 < length (declarations_view places.now.declarations.now) }
    requires named { IsNamedBody (declaration_view first.now).body }
{
    let scope = Scope::new(alloc, &*places, 0)?;
    let config = Config::new(alloc);
    let container = Container {
        scope: &scope,
        config: &config,
    };
    if is_alone {
        declaration_text(alloc, first, &container)
    } else {
        places_text(alloc, &container)
    }
}

/// What is said of the first of the declarations, or of places where there are more.
fn places_or_first(alloc: Global, places: &Places<'_>) -> Result<String, DeriveError>
    requires { AreNamed (declarations_view places.now.declarations.now) }
{
    match places.declarations.items.as_slice() {
        [first, rest @ ..] => first_text(alloc, places, first, rest.is_empty()),
        [] => Ok(String::from_str(alloc, "no declaration")?),
    }
}

fn declarations_text(alloc: Global, declarations: &Declarations) -> Result<String, DeriveError>
    requires { AreNamed (declarations_view declarations.now) }
{
    let places = Places::new(alloc, declarations)?;
    places_or_first(alloc, &places)
}

fn source_text(alloc: Global, source: &str) -> Result<String, DeriveError> {
    syntax::read_fields_are_named();
    let declarations = parse_declarations(alloc, source)?;
    declarations_text(alloc, &declarations)
}

/// Adds a line of what is said of the one declaration of the source, or of places where it has several.
fn push_line(alloc: Global, text: &mut String, source: &str) -> Result<(), DeriveError> {
    let line = source_text(alloc, source)?;
    push_text(text, line.as_str())?;
    Ok(())
}

fn push_text(text: &mut String, line: &str) -> Result<(), AllocError> {
    text.push_str("\n")?;
    text.push_str(line)
}

pub(crate) fn told(alloc: Global) -> Result<String, DeriveError> {
    let mut text = String::from_str(alloc, "declarations")?;
    let sources = [
        "struct S { a: bool }",
        "struct W(u8, bool);",
        "struct U;",
        "enum E { A }",
        "enum M { A, B(u8) }",
        "struct A; struct B;",
    ];
    for source in sources.as_slice() {
        push_line(alloc, &mut text, source)?;
    }
    Ok(text)
}
