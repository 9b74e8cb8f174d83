//! The names that are known where a type is written.

ghost use Rattle.std.specs.Prelude.{◌≡◌, MatchOption, Some, None};
ghost use Rattle.written_types.specs.Written.{Written as AnyType};
ghost use Rattle.resolving.specs.Known.{type_at, known};

use std::collections::BTreeMap;
use written_types::WrittenType;

/// The names that are known where a type is written.
#[derive(Clone, Copy)]
pub struct KnownNames<'k> {
    /// The places of the aliases.
    pub aliases: &'k BTreeMap<String, usize>,
    /// The types that aliases stand for, by their places.
    pub alias_types: &'k [WrittenType],
    /// The places of the declarations.
    pub places: &'k BTreeMap<String, usize>,
    /// How many type parameters each declaration has, by its place.
    pub counts: &'k [usize],
    /// The place of the declaration in which the type is written, which is `Self` there.
    pub own: Option<usize>,
    /// How many type parameters that declaration has.
    pub count: usize,
    /// The places of its type parameters.
    pub parameters: &'k BTreeMap<String, usize>,
    /// The places of its constant parameters.
    pub constants: &'k BTreeMap<String, usize>,
}

impl KnownNames<'_> {
    /// How many type parameters the declaration at the place has; past the end, none.
    pub(crate) fn parameters_at(&self, place: usize) -> usize
        ensures { result ≡ (known self.now).parameters_at place }
    {
        match self.counts.get(place) {
            Some(count) => *count,
            None => 0,
        }
    }

    /// The place of the type that the name stands for as an alias.
    pub(crate) fn alias_of(&self, name: &str) -> Option<usize>
        ensures { MatchOption result ((known self.now).alias_of name.now ≡ None)
            (λ place. (t : AnyType) × (type_at self.now.alias_types.now place ≡ Some t)
            × ((known self.now).alias_of name.now ≡ Some t)) }
    {
        match self.aliases.get(name) {
            Some(place) => match self.alias_types.get(*place) {
                Some(_) => Some(*place),
                None => None,
            },
            None => None,
        }
    }

    /// Whether a constant parameter has the name.
    pub(crate) fn is_constant(&self, name: &str) -> bool
        ensures { result ≡ (known self.now).is_constant name.now }
    {
        match self.constants.get(name) {
            Some(_) => true,
            None => false,
        }
    }
}
