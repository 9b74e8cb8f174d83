//! Names and their places.

ghost use Rattle.std.specs.Prelude.{◌≡◌, ◌⊎◌, ℕ, List, map, IfOk};
ghost use Rattle.std.specs.BTreeMap.{get_by_text};
ghost use Rattle.diag.specs.Refusal.{IsErrorFor, IsRefusal, Refuses, RefusesNone};
ghost use Rattle.texts.specs.Names.{IsDistinct, place_in};
ghost use Rattle.written_types.specs.declared.written.Ident.{Ident as AnyIdent};
ghost use Rattle.syntax.specs.Items.{declarations_view};
ghost use Rattle.scopes.specs.Names.{place_among, declared_names, declared_idents, texts, duplicate_message, Repeats, IsGivenTwice};

use diag::{DeriveError, Kind};
use std::alloc::{AllocError, Global};
use std::collections::BTreeMap;
use syntax::{Declaration, Declarations, Ident};
use texts::{Span, Text};

/// What is declared under an identifier.
pub trait Named {
    ghost ident_of: { Self → AnyIdent };

    fn ident(&self) -> &Ident
        ensures { result.now ≡ ident_of self.now };
}

impl Named for Declaration {
    ghost ident_of = { λ declaration. declaration.ident };

    fn ident(&self) -> &Ident {
        &self.ident
    }
}

impl Named for Ident {
    ghost ident_of = { λ ident. ident };

    fn ident(&self) -> &Ident {
        self
    }
}

/// The refusal of a name that was given before, at the span.
pub fn duplicate_name(alloc: Global, name: &Text, span: Span) -> Result<DeriveError, AllocError>
    ensures { IfOk result
        (IsErrorFor (IsRefusal Kind.DuplicateName span (duplicate_message name.now))) }
{
    let message = format!(in alloc; "name {} is given twice", name.as_str())?;
    let kind = Kind::DuplicateName;
    Ok(DeriveError::refusal(alloc, kind, span, message.as_str()))
}

/// The place of each name, where no two are equal. A name given twice is refused with the kind `DuplicateName`, at the
/// first identifier whose name stands before it.
pub fn places_of<T: Named>(
    alloc: Global,
    items: &[T],
) -> Result<BTreeMap<String, usize>, DeriveError>
    ensures places { IfOk result (λ places. (name : List ℕ)
        → get_by_text places name ≡ place_in name (texts (map T.ident_of items.now))) }
    ensures distinct { IfOk result (λ _. IsDistinct (texts (map T.ident_of items.now))) }
    ensures once { IfOk result (λ _. RefusesNone (IsGivenTwice (map T.ident_of items.now))) }
    ensures refused { Refuses result (IsGivenTwice (map T.ident_of items.now)) }
{
    let mut places = BTreeMap::new(alloc);
    for at in 0..items.len() {
        let ident = items[at].ident();
        let name = String::from_str(alloc, ident.text.as_str())?;
        if let Some(_) = places.insert(name, at).map_err(AllocError::from)? {
            return Err(duplicate_name(alloc, &ident.text, ident.span)?);
        }
    }
    Ok(places)
}

/// The place of each name; of several that are equal, that of the first.
pub fn first_places<T: Named>(
    alloc: Global,
    items: &[T],
) -> Result<BTreeMap<String, usize>, AllocError>
    ensures { IfOk result (λ places. (name : List ℕ)
        → get_by_text places name ≡ place_in name (texts (map T.ident_of items.now))) }
{
    let mut places = BTreeMap::new(alloc);
    for at in 0..items.len() {
        let name = items[at].ident().text.as_str();
        if let Some(_) = places.get(name) {
            continue;
        }
        let name = String::from_str(alloc, name)?;
        let _ = places.insert(name, at).map_err(AllocError::from)?;
    }
    Ok(places)
}

/// The place of the name of each declaration, as `places_of`.
pub fn declared_places(
    alloc: Global,
    declarations: &Declarations,
) -> Result<BTreeMap<String, usize>, DeriveError>
    ensures places { IfOk result (λ places. (name : List ℕ)
        → get_by_text places name ≡ place_among (declarations_view declarations.now) name) }
    ensures distinct { IfOk result
        (λ _. IsDistinct (declared_names (declarations_view declarations.now))) }
    ensures once { IfOk result
        (λ _. RefusesNone (IsGivenTwice (declared_idents (declarations_view declarations.now)))) }
    ensures refused { Refuses result
        (IsGivenTwice (declared_idents (declarations_view declarations.now))) }
{
    places_of(alloc, declarations.items.as_slice())
}

/// Names are distinct, or one identifier is the first that repeats one.
pub fn names_repeat_or_not()
    ensures decided { (xs : List AnyIdent)
        → IsDistinct (texts xs) ⊎ ((x : AnyIdent) × Repeats xs x) }
    ensures once { (xs : List AnyIdent) → IsDistinct (texts xs) → RefusesNone (IsGivenTwice xs) }
    ensures one { (xs : List AnyIdent) (x y : AnyIdent) → Repeats xs x → Repeats xs y → x ≡ y }
{}
