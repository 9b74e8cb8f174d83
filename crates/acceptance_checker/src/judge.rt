ghost use Rattle.std.specs.Prelude.{◌≡◌};
ghost use Rattle.std.specs.List.{list_all};
ghost use Rattle.acceptance.specs.Acceptance.{keyword_holds, others_pass, names_pass, named, accepts_with, members_hold, each_property, in_order, each_accepts, some_accepts, readings_of};
ghost use Rattle.acceptance.specs.Acceptance.{accepts as accepts_at, component_accepts as accepts_by_name};
ghost use Rattle.acceptance.specs.Json.{elements, on_map, on_list};
ghost use Rattle.acceptance_checker.specs.Judge.{components_at};
ghost use Rattle.acceptance.specs.Keyword.{keyword_of};
ghost use Rattle.acceptance_checker.specs.Kinds.{applicator_meant};
ghost use Rattle.acceptance_checker.specs.Layer.{json_of_layer, json_of_values, json_of_entries};

use crate::assertions::assertion_holds;
use crate::keyword::{Applicator, Keyword, keyword_named};
use crate::layer::{Layer, layer_of, member_at};
use crate::references::{component_schema, target_of};
use crate::siblings::{is_named, rest_items};
use schema_trees::Json;
use serde_json::{Map, Value};

/// Whether the schema of the document accepts the value, where references are followed at most
/// `depth` times, one behind the other. It takes no memory, and may look at a part of the value once
/// for each path of the schema to it.
pub fn accepts(document: &Json, schema: &Json, value: &Json, depth: usize) -> bool
    ensures { result ≡ accepts_at document.now schema.now value.now depth }
{
    let (schema, value) = (layer_of(schema.value()), layer_of(value.value()));
    schema_accepts(document.value(), depth, schema, value)
}

/// Whether the document's component of the name accepts the value, where references are followed
/// at most `depth` times, the one to the component among them.
pub fn component_accepts(document: &Json, name: &str, value: &Json, depth: usize) -> bool
    ensures { result ≡ accepts_by_name document.now depth name.now value.now }
{
    component_holds(document.value(), depth, name, layer_of(value.value()))
}

#[cycle(judge)]
fn component_holds(document: &Value, depth: usize, name: &str, value: Layer<'_>) -> bool
    ensures { result ≡ components_at document.now depth name.now (json_of_layer value.entry) }
{
    if depth == 0 {
        return false;
    }
    match component_schema(document, name) {
        Some(schema) => schema_accepts(document, depth - 1, schema, value),
        None => false,
    }
}

#[cycle(judge)]
fn schema_accepts(document: &Value, depth: usize, schema: Layer<'_>, value: Layer<'_>) -> bool
    ensures { result ≡ accepts_with (components_at document.now depth) (json_of_layer schema.entry)
        (json_of_layer value.entry) }
{
    match schema {
        Layer::Boolean(verdict) => verdict,
        Layer::Map(members) => members_hold(document, depth, members, value),
        _ => false,
    }
}

#[cycle(judge)]
fn members_hold(
    document: &Value,
    depth: usize,
    schema: &Map<String, Value>,
    value: Layer<'_>,
) -> bool
    ensures { result ≡ members_hold (components_at document.now depth)
        (json_of_entries schema.now.entries) (json_of_entries schema.now.entries)
        (json_of_layer value.entry) }
{
    for (name, x) in schema.iter() {
        if !member_holds(document, depth, schema, name.as_str(), layer_of(x), value) {
            return false;
        }
    }
    true
}

#[cycle(judge)]
fn member_holds(
    document: &Value,
    depth: usize,
    schema: &Map<String, Value>,
    name: &str,
    x: Layer<'_>,
    value: Layer<'_>,
) -> bool
    ensures { result ≡ keyword_holds (keyword_of name.now) (json_of_entries schema.now.entries)
        (json_of_layer x.entry)
        (readings_of (components_at document.now depth) (json_of_layer x.entry))
        (json_of_layer value.entry) }
{
    match keyword_named(name) {
        Keyword::Assertion(assertion) => assertion_holds(assertion, x, value),
        Keyword::Applicator(applicator) => applicator_holds(
            document, depth, schema, applicator, x, value,
        ),
        Keyword::Other => true,
    }
}

#[cycle(judge)]
fn applicator_holds(
    document: &Value,
    depth: usize,
    schema: &Map<String, Value>,
    applicator: Applicator,
    x: Layer<'_>,
    value: Layer<'_>,
) -> bool
    ensures { result ≡ keyword_holds (applicator_meant applicator)
        (json_of_entries schema.now.entries) (json_of_layer x.entry)
        (readings_of (components_at document.now depth) (json_of_layer x.entry))
        (json_of_layer value.entry) }
{
    match applicator {
        Applicator::Properties => match x {
            Layer::Map(schemas) => each_property(document, depth, schemas, value),
            _ => true,
        },
        Applicator::AdditionalProperties => others_pass(document, depth, schema, x, value),
        Applicator::PropertyNames => names_pass(document, depth, x, value),
        Applicator::PrefixItems => match x {
            Layer::List(schemas) => in_order(document, depth, schemas, value),
            _ => true,
        },
        Applicator::Items => match value {
            Layer::List(items) => items_pass(document, depth, x, rest_items(schema, items)),
            _ => true,
        },
        Applicator::AllOf => match x {
            Layer::List(schemas) => each_accepts(document, depth, schemas, value),
            _ => true,
        },
        Applicator::AnyOf | Applicator::OneOf => match x {
            Layer::List(schemas) => some_accepts(document, depth, schemas, value),
            _ => true,
        },
        Applicator::Reference => match x {
            Layer::Text(reference) => match target_of(reference) {
                Some(name) => component_holds(document, depth, name, value),
                None => false,
            },
            _ => true,
        },
    }
}

// each member that one of the schemas is named for is accepted by it
#[cycle(judge)]
fn each_property(
    document: &Value,
    depth: usize,
    schemas: &Map<String, Value>,
    value: Layer<'_>,
) -> bool
    ensures { result ≡ on_map (json_of_layer value.entry)
        (each_property (components_at document.now depth) (json_of_entries schemas.now.entries)) }
{
    let Layer::Map(members) = value else {
        return true;
    };
    for (name, schema) in schemas.iter() {
        match member_at(members, name.as_str()) {
            Some(member) => {
                if !schema_accepts(document, depth, layer_of(schema), member) {
                    return false;
                }
            }
            None => {}
        }
    }
    true
}

// `x` accepts each member that `properties` does not speak of
#[cycle(judge)]
fn others_pass(
    document: &Value,
    depth: usize,
    schema: &Map<String, Value>,
    x: Layer<'_>,
    value: Layer<'_>,
) -> bool
    ensures { result ≡ on_map (json_of_layer value.entry)
        (others_pass (named (json_of_entries schema.now.entries))
        (accepts_with (components_at document.now depth) (json_of_layer x.entry))) }
{
    let Layer::Map(members) = value else {
        return true;
    };
    for (name, member) in members.iter() {
        if !is_named(schema, name.as_str())
            && !schema_accepts(document, depth, x, layer_of(member))
        {
            return false;
        }
    }
    true
}

// `x` accepts the name of each member
#[cycle(judge)]
fn names_pass(document: &Value, depth: usize, x: Layer<'_>, value: Layer<'_>) -> bool
    ensures { result ≡ on_map (json_of_layer value.entry)
        (names_pass (accepts_with (components_at document.now depth) (json_of_layer x.entry))) }
{
    let Layer::Map(members) = value else {
        return true;
    };
    for (name, _member) in members.iter() {
        if !schema_accepts(document, depth, x, Layer::Text(name.as_str())) {
            return false;
        }
    }
    true
}

// the schemas accept the items by position, as far as both go
#[cycle(judge)]
fn in_order(document: &Value, depth: usize, schemas: &[Value], value: Layer<'_>) -> bool
    ensures { result ≡ on_list (json_of_layer value.entry)
        (in_order (components_at document.now depth) (json_of_values schemas.now)) }
{
    let Layer::List(items) = value else {
        return true;
    };
    for (i, schema) in schemas.iter().enumerate() {
        if i == items.len() {
            return true;
        }
        if !schema_accepts(document, depth, layer_of(schema), layer_of(&items[i])) {
            return false;
        }
    }
    true
}

#[cycle(judge)]
fn items_pass(document: &Value, depth: usize, x: Layer<'_>, items: &[Value]) -> bool
    ensures { result ≡ list_all
        (accepts_with (components_at document.now depth) (json_of_layer x.entry))
        (elements (json_of_values items.now)) }
{
    for item in items {
        if !schema_accepts(document, depth, x, layer_of(item)) {
            return false;
        }
    }
    true
}

#[cycle(judge)]
fn each_accepts(document: &Value, depth: usize, schemas: &[Value], value: Layer<'_>) -> bool
    ensures { result ≡ each_accepts (components_at document.now depth) (json_of_values schemas.now)
        (json_of_layer value.entry) }
{
    for schema in schemas {
        if !schema_accepts(document, depth, layer_of(schema), value) {
            return false;
        }
    }
    true
}

#[cycle(judge)]
fn some_accepts(document: &Value, depth: usize, schemas: &[Value], value: Layer<'_>) -> bool
    ensures { result ≡ some_accepts (components_at document.now depth) (json_of_values schemas.now)
        (json_of_layer value.entry) }
{
    for schema in schemas {
        if schema_accepts(document, depth, layer_of(schema), value) {
            return true;
        }
    }
    false
}
