//! Aliases: names, and the types that they stand for.

ghost use Rattle.std.specs.Prelude.{◌≡◌, ◌<◌, ◌-◌, ◌↔◌, ℕ, List as Items, [], ◌∷◌, ◌++◌, length, map, remove, None, cond, IfOk, IsTrue, OnOk, OnErr, Some, bytes_eq, string_bytes};
ghost use Rattle.std.specs.BTreeMap.{get_by_text, IsUnchanged};
ghost use Rattle.std.specs.Map.{update};
ghost use Rattle.texts.specs.Names.{place_in};
ghost use Rattle.diag.specs.Refusal.{IsErrorFor, Refuses};
ghost use Rattle.written_types.specs.Written.{Written, written_view};
ghost use Rattle.configuration.specs.Aliases.{alias_names, alias_types, bare, AreDeep, IsBadRow, IsTypeText};
ghost use Rattle.configuration.specs.Stored.{aliases_of};

use crate::bare::{bare_type, bare_types};
use crate::targets::targets_of;
use diag::{DeriveError, Kind};
use inlining::{Depth, inline_order};
use std::alloc::{AllocError, Global};
use std::collections::BTreeMap;
use std::marker::Model;
use texts::{List, Span, Text};
use type_grammar::parse_type;
use written_types::WrittenType;

/// How many aliases may stand in each other.
const MAX_DEPTH: usize = 32;

/// Aliases in the order of their names: what they stand for, the same without what nothing is resolved from, and the
/// places of the names. Contracts see the list of the aliases.
#[derive(Debug)]
pub struct Aliases {
    names: List<Text>,
    types: List<WrittenType>,
    bare: List<WrittenType>,
    places: BTreeMap<String, usize>,
}

// by hand, so that a function that drops aliases makes one call for it
impl Drop for Aliases {
    fn drop(self) {
        let Aliases {
            names: _,
            types: _,
            bare: _,
            places: _,
        } = self;
    }
}

impl Model for Aliases {
    ghost use Rattle.std.specs.Prelude.{List as Items};
    ghost use Rattle.std.specs.Coded.{coded_list};
    ghost use Rattle.std.specs.BTreeMap.{get_by_text};
    ghost use Rattle.configuration.specs.Configuration.{Alias};
    ghost use Rattle.configuration.specs.proved.Code.{coded_alias};
    ghost use Rattle.configuration.specs.Stored.{aliases_of, AreStored};

    ghost Value = { Items Alias };

    ghost coded = { coded_list coded_alias };

    ghost view = { λ aliases. aliases_of aliases.names aliases.types };

    ghost invariant = { λ aliases. AreStored aliases.names aliases.types aliases.bare (get_by_text aliases.places) };
}

impl Aliases {
    /// No aliases. It takes no memory.
    pub fn new(alloc: Global) -> Aliases
        ensures { result ≡ [] }
    {
        Aliases {
            names: List::new(alloc),
            types: List::new(alloc),
            bare: List::new(alloc),
            places: BTreeMap::new(alloc),
        }
    }

    /// The aliases of these names, each with the type in its place.
    pub fn of(
        alloc: Global,
        names: List<Text>,
        types: List<WrittenType>,
    ) -> Result<Aliases, AllocError>
        requires { length names ≡ length types }
        ensures { IfOk result (λ aliases. aliases ≡ aliases_of names types) }
    {
        let bare = bare_types(alloc, types.as_slice())?;
        let places = name_places(alloc, names.as_slice())?;
        Ok(Aliases {
            names,
            types,
            bare,
            places,
        })
    }

    /// Puts the alias behind the others where its name is new, and tells whether it is. A name that they have, or a
    /// refused call, changes nothing.
    pub fn push(&mut self, alloc: Global, name: &str, ty: WrittenType) -> Result<bool, AllocError>
        ensures ok { IfOk result (λ added. self.new
            ≡ cond added (self.old ++ record { name = name.now; of = written_view ty } ∷ []) self.old) }
        ensures new { IfOk result (λ added. IsTrue added
            ↔ (place_in name.now (alias_names self.old) ≡ None)) }
        ensures err { OnErr result (self.new ≡ self.old) }
    {
        if let Some(_) = self.places.get(name) {
            return Ok(false);
        }
        let at = self.names.len();
        let key = String::from_str(alloc, name)?;
        let name = Text::new(alloc, name)?;
        let bare = bare_type(alloc, &ty)?;
        push_both(&mut self.names, name, &mut self.types, ty)?;
        if push_placed(&mut self.bare, bare, &mut self.places, key, at).is_ok() {
            return Ok(true);
        }
        take_last(&mut self.names);
        take_last(&mut self.types);
        Err(AllocError)
    }

    /// Whether more aliases than may stand in each other.
    pub fn are_deep(&self, alloc: Global) -> Result<bool, AllocError>
        ensures { IfOk result (λ deep. IsTrue deep ↔ AreDeep self.now) }
    {
        let targets = targets_of(alloc, &self.places, self.types.as_slice())?;
        match inline_order(alloc, targets.as_slice(), MAX_DEPTH)? {
            Depth::Within(_) => Ok(false),
            Depth::Beyond(_) => Ok(true),
        }
    }

    /// The names, in order.
    pub fn names(&self) -> &[Text]
        ensures { result.now ≡ alias_names self.now }
    {
        self.names.as_slice()
    }

    /// The types of the names, in their order.
    pub fn types(&self) -> &[WrittenType]
        ensures { map written_view result.now ≡ alias_types self.now }
    {
        self.types.as_slice()
    }

    /// The same types without what nothing is resolved from.
    pub fn bare_types(&self) -> &[WrittenType]
        ensures { map written_view result.now ≡ map bare (alias_types self.now) }
    {
        self.bare.as_slice()
    }

    /// The place of each name.
    pub fn places(&self) -> &BTreeMap<String, usize>
        ensures { (name : Items ℕ) → get_by_text result.now name
            ≡ place_in name (alias_names self.now) }
    {
        &self.places
    }
}

/// The refusal of an alias that is no type, or want of memory.
pub fn bad_row(alloc: Global) -> DeriveError
    ensures { IsErrorFor IsBadRow result }
{
    DeriveError::refusal(
        alloc,
        Kind::BadRow,
        Span::nowhere(),
        "a row of `aliases` is no type",
    )
}

/// The type that the text of an alias is. A text that is none, or nests deeper than 64 levels, is refused with the kind
/// `BadRow`.
pub fn aliased_type(alloc: Global, text: &str) -> Result<WrittenType, DeriveError>
    ensures said { IfOk result (λ ty. IsTypeText text.now (written_view ty)) }
    ensures refused { Refuses result
        (λ e. (IsBadRow e × ((t : Written) → ¬ IsTypeText text.now t))) }
{
    match parse_type(alloc, text) {
        Ok(ty) => Ok(ty),
        Err(DeriveError::Memory) => Err(DeriveError::Memory),
        Err(DeriveError::Refused(_)) => Err(bad_row(alloc)),
    }
}

/// The place of each name; of several that are equal, that of the first.
pub fn name_places(alloc: Global, names: &[Text]) -> Result<BTreeMap<String, usize>, AllocError>
    ensures { IfOk result (λ places. (name : Items ℕ)
        → get_by_text places name ≡ place_in name names.now) }
{
    let mut places = BTreeMap::new(alloc);
    for at in 0..names.len() {
        let name = names[at].as_str();
        if let Some(_) = places.get(name) {
            continue;
        }
        let name = String::from_str(alloc, name)?;
        let _ = places.insert(name, at).map_err(AllocError::from)?;
    }
    Ok(places)
}

/// Adds the items at the ends of the lists. A refused call changes nothing.
fn push_both<T: Drop, U: Drop>(
    ones: &mut List<T>,
    one: T,
    others: &mut List<U>,
    other: U,
) -> Result<(), AllocError>
    ensures ones { OnOk result (ones.new ≡ ones.old ++ one ∷ []) }
    ensures others { OnOk result (others.new ≡ others.old ++ other ∷ []) }
    ensures ones_kept { OnErr result (ones.new ≡ ones.old) }
    ensures others_kept { OnErr result (others.new ≡ others.old) }
{
    ones.push(one)?;
    match others.push(other) {
        Ok(()) => Ok(()),
        Err(error) => {
            take_last(ones);
            Err(error)
        }
    }
}

/// Takes out the last item.
fn take_last<T: Drop>(list: &mut List<T>)
    requires { 0 < length list.old }
    ensures { list.new ≡ remove list.old (length list.old - 1) }
{
    let _ = list.remove(list.len() - 1);
}

/// Adds the type at the end of the list, and the place of the name. A refused call changes nothing.
fn push_placed(
    bare: &mut List<WrittenType>,
    ty: WrittenType,
    places: &mut BTreeMap<String, usize>,
    name: String,
    at: usize,
) -> Result<(), AllocError>
    ensures bare { OnOk result (bare.new ≡ bare.old ++ ty ∷ []) }
    ensures places { OnOk result ((k : Items ℕ) → get_by_text places.new k
        ≡ update bytes_eq (get_by_text places.old) (string_bytes name) (Some at) k) }
    ensures bare_kept { OnErr result (bare.new ≡ bare.old) }
    ensures places_kept { OnErr result (IsUnchanged places.old places.new) }
{
    bare.push(ty)?;
    match places.insert(name, at) {
        Ok(_) => Ok(()),
        Err(_) => {
            take_last(bare);
            Err(AllocError)
        }
    }
}
