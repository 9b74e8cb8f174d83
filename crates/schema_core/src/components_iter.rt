//! Components one by one.

ghost use Rattle.std.specs.Prelude.{◌≡◌, length, map as map_list};
ghost use Rattle.std.specs.Iterator.{YieldsFirstBy, item_count};
ghost use Rattle.schema_trees.specs.Schema.{schema_view};
ghost use Rattle.schema_core.specs.Entries.{entries_of};
ghost use Rattle.schema_core.specs.Lent.{lent_entry};

use schema_trees::Schema;
use std::iter::FusedIterator;
use std::marker::Model;
use texts::Text;

/// The components that are left, by name and schema. Contracts see the list of these.
#[derive(Debug, Drop)]
pub struct ComponentsIter<'a> {
    names: &'a [Text],
    schemas: &'a [Schema],
}

impl<'a> Model for ComponentsIter<'a> {
    ghost use Rattle.std.specs.Prelude.{◌≡◌, ℕ, List as Items, length, map};
    ghost use Rattle.std.specs.Coded.{coded_list, coded×, coded_ℕ};
    ghost use Rattle.schema_trees.specs.proved.Code.{coded_schema};
    ghost use Rattle.schema_core.specs.Entries.{entries_of};
    ghost use Rattle.schema_trees.specs.Schema.{SchemaOf, schema_view};
    ghost use Rattle.schema_trees.specs.contracts.tree.RefLeaf as reference;
    ghost use Rattle.schema_trees.specs.declared.tree.RefLeaf.{RefLeaf};

    ghost Value = { Items (Items ℕ × SchemaOf RefLeaf) };

    ghost coded = { coded_list (coded× (coded_list coded_ℕ) (coded_schema reference.the_row.coded)) };

    ghost view = { λ left. entries_of left.names.now (map schema_view left.schemas.now) };

    ghost invariant = { λ left. length left.names.now ≡ length left.schemas.now };
}

impl<'a> ComponentsIter<'a> {
    /// The schemas under the names at their places.
    pub(crate) fn new(names: &'a [Text], schemas: &'a [Schema]) -> ComponentsIter<'a>
        requires { length names.now ≡ length schemas.now }
        ensures { result ≡ entries_of names.now (map_list schema_view schemas.now) }
    {
        ComponentsIter { names, schemas }
    }
}

impl<'a> Iterator for ComponentsIter<'a> {
    type Item = (&'a str, &'a Schema);

    ghost next_gives = { YieldsFirstBy lent_entry (λ left. left) };

    ghost remaining = { item_count (λ left. left) };

    fn next(&mut self) -> Option<(&'a str, &'a Schema)> {
        let (name, names) = self.names.split_first()?;
        let (schema, schemas) = self.schemas.split_first()?;
        self.names = names;
        self.schemas = schemas;
        Some((name.as_str(), schema))
    }

    fn size_hint(&self) -> (usize, Option<usize>) {
        (self.names.len(), Some(self.names.len()))
    }
}

impl<'a> ExactSizeIterator for ComponentsIter<'a> {
    fn len(&self) -> usize {
        self.names.len()
    }
}

impl<'a> FusedIterator for ComponentsIter<'a> {}
