//! Scopes, and the places of names.

ghost use Rattle.std.specs.Prelude.{◌≡◌, ◌<◌, ℕ, List as Items, length, IfOk};
ghost use Rattle.std.specs.BTreeMap.{get_by_text};
ghost use Rattle.texts.specs.Names.{place_in};
ghost use Rattle.syntax.specs.Items.{declarations_view};
ghost use Rattle.scopes.specs.Names.{texts, declared_name, place_among};
ghost use Rattle.scopes.specs.declared.parameters.ParameterKind.TheVariants as kinds;
ghost use Rattle.scopes.specs.Parameters.{parameters_of, type_parameters, parameter_counts as counts_of, generics_at};

use crate::names::first_places;
use crate::parameters::{ParameterKind, parameter_counts, parameters_of};
use std::alloc::{AllocError, Global};
use std::collections::BTreeMap;
use syntax::{Declarations, Ident};
use texts::List;

/// The places of the names that declarations give.
#[derive(Drop)]
pub struct Places<'a> {
    /// The declarations of the source.
    pub declarations: &'a Declarations,
    /// The place of each name; of several declarations of one name, that of the first.
    pub by_name: BTreeMap<String, usize>,
    /// How many type parameters each declaration has.
    pub counts: List<usize>,
    pub ghost placed: { (name : Items ℕ)
        → get_by_text by_name name ≡ place_among (declarations_view declarations.now) name },
    pub ghost counted: { counts ≡ counts_of (declarations_view declarations.now) },
}

impl<'a> Places<'a> {
    /// The places of the names of these declarations.
    pub fn new(alloc: Global, declarations: &'a Declarations) -> Result<Places<'a>, AllocError>
        ensures { IfOk result (λ places. places.declarations.now ≡ declarations.now) }
    {
        let by_name = first_places(alloc, declarations.items.as_slice())?;
        let counts = parameter_counts(alloc, declarations.items.as_slice())?;
        Ok(Places {
            declarations,
            by_name,
            counts,
        })
    }

    /// The places of the names of these declarations, where they are known already.
    pub fn of_names(
        alloc: Global,
        declarations: &'a Declarations,
        by_name: BTreeMap<String, usize>,
    ) -> Result<Places<'a>, AllocError>
        requires { (name : Items ℕ)
            → get_by_text by_name name ≡ place_among (declarations_view declarations.now) name }
        ensures declarations { IfOk result (λ places. places.declarations.now ≡ declarations.now) }
        ensures names { IfOk result (λ places. places.by_name ≡ by_name) }
    {
        let counts = parameter_counts(alloc, declarations.items.as_slice())?;
        Ok(Places {
            declarations,
            by_name,
            counts,
        })
    }

    /// The place of the first declaration of the identifier's name.
    pub fn place_of(&self, ident: &Ident) -> Option<usize>
        ensures { result
            ≡ place_among (declarations_view self.now.declarations.now) ident.now.text }
    {
        match self.by_name.get(ident.text.as_str()) {
            Some(place) => Some(*place),
            None => None,
        }
    }
}

/// Where a written type stands.
#[derive(Drop)]
pub struct Scope<'a> {
    /// The declarations of the source, and the places of their names.
    pub places: &'a Places<'a>,
    /// The place of the declaration in which the type is written.
    pub owner: usize,
    /// The place of the first declaration of its name, which is `Self`: it is the owner where no name is given twice.
    pub own: Option<usize>,
    /// How many type parameters the owner has.
    pub count: usize,
    /// The place of each of its type parameters; of several of one name, that of the first.
    pub parameters: BTreeMap<String, usize>,
    /// The place of each of its constant parameters, likewise.
    pub constants: BTreeMap<String, usize>,
    pub ghost owned: { owner < length (declarations_view places.now.declarations.now) },
    pub ghost itself: { own ≡ place_among (declarations_view places.now.declarations.now)
        (declared_name (declarations_view places.now.declarations.now) owner) },
    pub ghost counted: { count ≡ length
        (type_parameters (generics_at (declarations_view places.now.declarations.now) owner)) },
    pub ghost typed: { (name : Items ℕ) → get_by_text parameters name ≡ place_in name (texts
        (type_parameters (generics_at (declarations_view places.now.declarations.now) owner))) },
    pub ghost constant: { (name : Items ℕ) → get_by_text constants name ≡ place_in name (texts
        (parameters_of kinds.Constants
        (generics_at (declarations_view places.now.declarations.now) owner))) },
}

impl<'a> Scope<'a> {
    /// Where types are written in the declaration at the place `owner`.
    pub fn new(alloc: Global, places: &'a Places<'a>, owner: usize) -> Result<Scope<'a>, AllocError>
        requires { owner < length (declarations_view places.now.declarations.now) }
        ensures places { IfOk result (λ scope. scope.places.now ≡ places.now) }
        ensures owner { IfOk result (λ scope. scope.owner ≡ owner) }
    {
        let declaration = &places.declarations.items.as_slice()[owner];
        let params = declaration.generics.params.as_slice();
        let types = parameters_of(alloc, ParameterKind::Types, params)?;
        let constants = parameters_of(alloc, ParameterKind::Constants, params)?;
        Ok(Scope {
            places,
            owner,
            own: places.place_of(&declaration.ident),
            count: types.len(),
            parameters: first_places(alloc, types.as_slice())?,
            constants: first_places(alloc, constants.as_slice())?,
        })
    }
}
