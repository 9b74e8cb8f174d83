ghost use Rattle.std.specs.Prelude.{◌≡◌, drop};
ghost use Rattle.acceptance.specs.Acceptance.{named, prefix_count};
ghost use Rattle.acceptance.specs.Json.{elements};
ghost use Rattle.texts.specs.Names.{is_in};
ghost use Rattle.acceptance_checker.specs.Layer.{json_of_entries, json_of_values};

use crate::layer::{Layer, has_member, item_count, member_at};
use serde_json::{Map, Value};

/// Whether `properties` of the schema speaks of the name.
pub fn is_named(schema: &Map<String, Value>, name: &str) -> bool
    ensures { result ≡ is_in name.now (named (json_of_entries schema.now.entries)) }
{
    match member_at(schema, "properties") {
        Some(Layer::Map(properties)) => has_member(properties, name),
        _ => false,
    }
}

// how many items `prefixItems` of the schema speaks of
fn prefix_count(schema: &Map<String, Value>) -> usize
    ensures { result ≡ prefix_count (json_of_entries schema.now.entries) }
{
    match member_at(schema, "prefixItems") {
        Some(Layer::List(items)) => item_count(items),
        _ => 0,
    }
}

/// The items past those that `prefixItems` of the schema speaks of.
pub fn rest_items<'a>(schema: &Map<String, Value>, items: &'a [Value]) -> &'a [Value]
    ensures { elements (json_of_values result.now)
        ≡ drop (prefix_count (json_of_entries schema.now.entries))
        (elements (json_of_values items.now)) }
{
    let count = prefix_count(schema);
    if count < items.len() {
        &items[count..]
    } else {
        &[]
    }
}
