//! Components by name, and their document.

ghost use Rattle.std.specs.Prelude.{◌≡◌, ◌<◌, ◌≤◌, ℕ, List as Items, [], length, take, drop, get_or, insert, ◌++◌, map as map_list, option_map, None, Some, MatchResult, IfOk, OnOk, OnErr, IsTrue, ◌↔◌, if◌then◌else◌, string_bytes, true, false};
ghost use Rattle.std.specs.declared.cmp.Ordering.TheVariants.{Less, Greater};
ghost use Rattle.std.specs.Cmp.Lexicographic.{slice_cmp};
ghost use Rattle.std.specs.Ordering.{nat_cmp};
ghost use Rattle.std.specs.Iterator.{AlwaysYields, YieldsFirstBy};
ghost use Rattle.serde_json.specs.View.{view, members_view};
ghost use Rattle.acceptance.specs.Json.{put_all, no_members};
ghost use Rattle.acceptance.specs.Data.{data_of, members_data};
ghost use Rattle.schema_trees.specs.Held.{IsHeld, IsInOrder};
ghost use Rattle.schema_trees.specs.Schema.{schema_view};
ghost use Rattle.schema_core.specs.Document.{document, document_by, entry_form, text_of};
ghost use Rattle.schema_core.specs.Entries.{entries_of, entry_names, find, with_entry};
ghost use Rattle.schema_core.specs.Lent.{lent_entry};

use crate::alternatives::Alternatives;
use crate::components_iter::ComponentsIter;
use crate::document_text::DocumentText;
use crate::form::schema_value;
use crate::members::{object_of, put};
use crate::write_leaf::References;
use schema_trees::Schema;
use serde_json::{Map, Value};
use std::alloc::{AllocError, Global};
use std::cmp::Ordering;
use std::fmt;
use std::marker::Model;
use texts::{List, Text};

/// Schemas under their names. The names are distinct and in byte order.
#[derive(Drop)]
pub struct Components {
    names: List<Text>,
    schemas: List<Schema>,
}

impl Model for Components {
    ghost use Rattle.std.specs.Prelude.{◌≡◌, ℕ, List as Items, length, map};
    ghost use Rattle.std.specs.Coded.{coded_list, coded×, coded_ℕ};
    ghost use Rattle.schema_trees.specs.proved.Code.{coded_schema};
    ghost use Rattle.schema_core.specs.Entries.{entries_of, IsInOrder};
    ghost use Rattle.schema_trees.specs.Schema.{SchemaOf, schema_view};
    ghost use Rattle.schema_trees.specs.contracts.tree.RefLeaf as reference;
    ghost use Rattle.schema_trees.specs.declared.tree.RefLeaf.{RefLeaf};

    ghost Value = { Items (Items ℕ × SchemaOf RefLeaf) };

    ghost coded = { coded_list (coded× (coded_list coded_ℕ) (coded_schema reference.the_row.coded)) };

    ghost view = { λ c. entries_of c.names (map schema_view c.schemas) };

    ghost invariant = { λ c. (length c.names ≡ length c.schemas) × IsInOrder c.names };
}

/// Where the name stands, or where it belongs.
fn place_of(names: &[Text], name: &str) -> Result<usize, usize>
    requires { IsInOrder names.now }
    ensures bound { MatchResult result (λ at. at < length names.now) (λ at. at ≤ length names.now) }
    ensures found { IfOk result (λ at. get_or names.now at [] ≡ name.now) }
    ensures before { (i at : ℕ) → result ≡ Err at → i < at
        → slice_cmp nat_cmp (get_or names.now i []) name.now ≡ Less }
    ensures after { (i at : ℕ) → result ≡ Err at → at ≤ i → i < length names.now
        → slice_cmp nat_cmp (get_or names.now i []) name.now ≡ Greater }
{
    names.binary_search_by(
        |other: &Text| -> Ordering
            ensures { result ≡ slice_cmp nat_cmp other.now name.entry.now }
        { other.as_str().cmp(name) },
    )
}

/// Puts the name and the schema at one place of both lists, or changes neither.
#[tactic(auto, using(crate::proofs::EntryLaws::removed))]
fn insert_both(
    names: &mut List<Text>,
    schemas: &mut List<Schema>,
    at: usize,
    name: Text,
    schema: Schema,
) -> Result<(), AllocError>
    requires names { at ≤ length names.old }
    requires schemas { at ≤ length schemas.old }
    ensures names { OnOk result (names.new ≡ insert names.old at name) }
    ensures schemas { OnOk result (schemas.new ≡ insert schemas.old at schema) }
    ensures names_kept { OnErr result (names.new ≡ names.old) }
    ensures schemas_kept { OnErr result (schemas.new ≡ schemas.old) }
{
    names.insert(at, name)?;
    if schemas.insert(at, schema).is_err() {
        let _ = names.remove(at);
        return Err(AllocError);
    }
    Ok(())
}

impl Components {
    /// No components. It takes no memory.
    pub fn new(alloc: Global) -> Components
        ensures { result ≡ [] }
    {
        Components {
            names: List::new(alloc),
            schemas: List::new(alloc),
        }
    }

    /// Adds the schema under the name and answers true, exactly where the name is new. Else nothing changes, and nothing
    /// changes where memory is wanted.
    pub fn insert(&mut self, name: Text, schema: Schema) -> Result<bool, AllocError>
        ensures new { IfOk result (λ added. IsTrue added ↔ (find name self.old ≡ None)) }
        ensures entries { IfOk result
            (λ added. self.new
            ≡ (if added then with_entry name (schema_view schema) self.old else self.old)) }
        ensures err { OnErr result (self.new ≡ self.old) }
    {
        match place_of(self.names.as_slice(), name.as_str()) {
            Ok(_) => Ok(false),
            Err(at) => {
                insert_both(&mut self.names, &mut self.schemas, at, name, schema)?;
                Ok(true)
            }
        }
    }

    /// The schema under the name.
    pub fn get(&self, name: &str) -> Option<&Schema>
        ensures { option_map (λ schema. schema_view schema.now) result ≡ find name.now self.now }
    {
        match place_of(self.names.as_slice(), name) {
            Ok(at) => Some(&self.schemas.as_slice()[at]),
            Err(_) => None,
        }
    }

    /// The names, in byte order.
    pub fn names(&self) -> &[Text]
        ensures names { result.now ≡ entry_names self.now }
        ensures order { IsInOrder result.now }
    {
        self.names.as_slice()
    }

    /// The components by name and schema, in byte order of their names.
    pub fn iter(&self) -> ComponentsIter<'_>
        ensures left { result ≡ self.now }
        // One after the other, these come and no others.
        ensures all { AlwaysYields (YieldsFirstBy lent_entry (λ left. left)) lent_entry result
            self.now }
        ensures order { IsInOrder (entry_names result) }
    {
        ComponentsIter::new(self.names.as_slice(), self.schemas.as_slice())
    }

    /// The forms of the schemas under their names.
    fn schemas(&self, alloc: Global, by: Alternatives) -> Result<Map<String, Value>, AllocError>
        ensures { IfOk result
            (λ m. members_view m.entries
            ≡ members_data (put_all (map_list (entry_form by) self.now) no_members)) }
    {
        schema_values(alloc, self.names.as_slice(), self.schemas.as_slice(), by)
    }

    /// The document: `{"components":{"schemas":{..}}}` with each schema under its name, and alternatives under `oneOf`.
    pub fn to_value(&self, alloc: Global) -> Result<Value, AllocError>
        ensures { IfOk result (λ value. view value ≡ data_of (document self.now)) }
    {
        self.to_value_by(alloc, Alternatives::OneOf)
    }

    /// The document, with alternatives under the keyword `by`.
    pub fn to_value_by(&self, alloc: Global, by: Alternatives) -> Result<Value, AllocError>
        ensures { IfOk result (λ value. view value ≡ data_of (document_by by self.now)) }
    {
        let schemas = Value::Object(self.schemas(alloc, by)?);
        let components = object_of(alloc, "schemas", schemas)?;
        Ok(object_of(alloc, "components", components)?)
    }

    /// The text of the document with alternatives under `oneOf`: compact, members in byte order of their names, and one new
    /// line at the end. The document is a value that `serde_json` can hold.
    pub fn to_text(&self, alloc: Global) -> Result<Text, AllocError>
        ensures text { IfOk result (λ text. text ≡ text_of (document self.now)) }
        ensures held { IfOk result (λ _. IsHeld (document self.now)) }
    {
        self.to_text_by(alloc, Alternatives::OneOf)
    }

    /// The text of the document with alternatives under the keyword `by`, else as `to_text` is.
    pub fn to_text_by(&self, alloc: Global, by: Alternatives) -> Result<Text, AllocError>
        ensures text { IfOk result (λ text. text ≡ text_of (document_by by self.now)) }
        ensures held { IfOk result (λ _. IsHeld (document_by by self.now)) }
    {
        let mut text = DocumentText::new(alloc, by)?;
        for (name, schema) in self.iter() {
            text.push(alloc, name, schema, &References)?;
        }
        text.finish()
    }
}

impl<'a> IntoIterator for &'a Components {
    type Item = (&'a str, &'a Schema);

    type IntoIter = ComponentsIter<'a>;

    ghost into_iter_gives = { λ components left. left ≡ components.now };

    fn into_iter(self) -> ComponentsIter<'a> {
        self.iter()
    }
}

// as a map from names to schemas
impl fmt::Debug for Components {
    fn fmt<W: fmt::Write>(&self, f: &mut fmt::Formatter<W>) -> fmt::Result {
        f.debug_map().entries(self.iter()).finish()
    }
}

/// The forms of the schemas under the names at their places.
fn schema_values(
    alloc: Global,
    names: &[Text],
    schemas: &[Schema],
    by: Alternatives,
) -> Result<Map<String, Value>, AllocError>
    requires { length names.now ≡ length schemas.now }
    ensures { IfOk result
        (λ m. members_view m.entries
        ≡ members_data
        (put_all
        (map_list (entry_form by) (entries_of names.now (map_list schema_view schemas.now)))
        no_members)) }
{
    let mut values = Map::new(alloc);
    for i in 0..names.len() {
        let value = schema_value(alloc, &schemas[i], by)?;
        put(alloc, &mut values, names[i].as_str(), value)?;
    }
    Ok(values)
}
