//! The schema of a declaration.

ghost use Rattle.std.specs.Prelude.{◌≡◌, map, IfOk, Some, option_map};
ghost use Rattle.diag.specs.Refusal.{Refuses};
ghost use Rattle.open_types.specs.Open.{open_view};
ghost use Rattle.syntax.specs.Items.{body_view, generics_view};
ghost use Rattle.syntax.specs.Named.{IsNamedBody};
ghost use Rattle.scopes.specs.Scopes.{generics_in};
ghost use Rattle.shapes.specs.Declarations.{body_types};
ghost use Rattle.shapes.specs.Views.{declaration_view};
ghost use Rattle.declaration_schemas.specs.Schemas.{IsFaultySchema, resolved_schema};

use component::Term;
use derive_decl::{Root, distinct_parameters, resolve_declaration};
use diag::DeriveError;
use open_types::OpenType;
use place_schemas::ToTerm;
use scopes::Container;
use shapes::Declaration;
use std::alloc::{AllocError, Global};
use syntax::{Attribute, Body, Generics, Ident};
use terms::declaration_term;
use texts::List;

/// A declaration whose schema is asked for.
#[derive(Clone, Copy)]
pub struct Schema<'a> {
    pub body: &'a Body,
    pub attributes: &'a [Attribute],
    pub ident: &'a Ident,
    pub container: &'a Container<'a>,
}

impl<'a> Schema<'a> {
    /// The declaration with this body, these attributes and this name, where it stands.
    pub fn new(
        body: &'a Body,
        attributes: &'a [Attribute],
        ident: &'a Ident,
        container: &'a Container<'a>,
    ) -> Schema<'a>
        ensures body { result.body.now ≡ body.now }
        ensures attributes { result.attributes.now ≡ attributes.now }
        ensures ident { result.ident.now ≡ ident.now }
        ensures container { result.container.now ≡ container.now }
    {
        Schema {
            body,
            attributes,
            ident,
            container,
        }
    }

    /// The declaration with its types resolved.
    ///
    /// A refusal is of kind `DuplicateName`, at the first type or constant parameter of the declaration that the container
    /// stands for which has the name of one before it, or at the first such lifetime; or it is one of
    /// `derive_decl::resolve_declaration`.
    pub fn resolve(&self, alloc: Global) -> Result<Declaration, DeriveError>
        requires { IsNamedBody (body_view self.now.body.now) }
        ensures resolved { IfOk result (λ s. resolved_schema self.now
            ≡ Some (declaration_view s)) }
        ensures refused { Refuses result (IsFaultySchema self.now) }
    {
        distinct_parameters(alloc, generics_of(self.container))?;
        let root = Root {
            ident: self.ident,
            attributes: self.attributes,
            container: self.container,
        };
        resolve_declaration(alloc, &root, self.body)
    }

    /// The types of the declaration's places, in order; of named fields those that are flattened come first, and of a flattened
    /// map both of its types. It is refused as `resolve` is.
    pub fn place_types(&self, alloc: Global) -> Result<List<OpenType>, DeriveError>
        requires { IsNamedBody (body_view self.now.body.now) }
        ensures types { IfOk result (λ ts. option_map (λ of. body_types of.body)
            (resolved_schema self.now) ≡ Some (map open_view ts)) }
        ensures refused { Refuses result (IsFaultySchema self.now) }
    {
        let resolved = self.resolve(alloc)?;
        Ok(copied_types(alloc, &resolved)?)
    }
}

/// The generics of the declaration that the container stands for.
fn generics_of<'a>(container: &'a Container<'_>) -> &'a Generics
    ensures { generics_view result.now ≡ generics_in container.now.scope.now }
{
    let scope = container.scope;
    let declaration = &scope.places.declarations.items.as_slice()[scope.owner];
    &declaration.generics
}

/// Other types that are equal to those of the places, in order.
fn copied_types(alloc: Global, declaration: &Declaration) -> Result<List<OpenType>, AllocError>
    ensures { IfOk result
        (λ ts. map open_view ts ≡ body_types (declaration_view declaration.now).body) }
{
    let types = declaration.types(alloc)?;
    let mut copies = List::new(alloc);
    for ty in types.as_slice() {
        copies.push(ty.copy(alloc)?)?;
    }
    Ok(copies)
}

impl ToTerm for Schema<'_> {
    ghost use Rattle.std.specs.Prelude.{◌≡◌, Some, option_map};
    ghost use Rattle.syntax.specs.Items.{body_view};
    ghost use Rattle.syntax.specs.Named.{IsNamedBody};
    ghost use Rattle.terms.specs.Terms.{term};
    ghost use Rattle.declaration_schemas.specs.Schemas.{IsFaultySchema, resolved_schema};

    ghost is_ready = { λ s. IsNamedBody (body_view s.body.now) };

    ghost has_term = { λ s t. option_map term (resolved_schema s) ≡ Some t };

    ghost is_refused = { IsFaultySchema };

    fn to_term(&self, alloc: Global) -> Result<Term, DeriveError> {
        let resolved = self.resolve(alloc)?;
        Ok(declaration_term(alloc, &resolved)?)
    }
}
