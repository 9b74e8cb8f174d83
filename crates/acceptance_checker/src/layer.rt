ghost use Rattle.std.specs.Prelude.{◌≡◌, option_map, length};
ghost use Rattle.serde_json.specs.View.{number_view};
ghost use Rattle.acceptance.specs.Data.{number_of};
ghost use Rattle.acceptance.specs.Json.{look, names, entries, elements};
ghost use Rattle.texts.specs.Names.{is_in};
ghost use Rattle.acceptance_checker.specs.Layer.{json_of_layer, json_of_value, json_of_values, json_of_entries};

use serde_json::{Map, Number, Value};

/// What a JSON value is, and what it holds. A name of a map is a text too.
#[derive(Clone, Copy)]
pub enum Layer<'a> {
    Null,
    Boolean(bool),
    Whole(i128),
    Text(&'a str),
    List(&'a [Value]),
    Map(&'a Map<String, Value>),
}

/// The outermost layer of the value. A float reads as null.
pub fn layer_of(value: &Value) -> Layer<'_>
    ensures { json_of_layer result ≡ json_of_value value.now }
{
    match value {
        Value::Null => Layer::Null,
        Value::Bool(b) => Layer::Boolean(*b),
        Value::Number(number) => layer_of_number(number),
        Value::String(text) => Layer::Text(text.as_str()),
        Value::Array(items) => Layer::List(items.as_slice()),
        Value::Object(members) => Layer::Map(members),
    }
}

fn layer_of_number<'a>(number: &Number) -> Layer<'a>
    ensures { json_of_layer result ≡ number_of (number_view number.now) }
{
    match number.as_i128() {
        Some(n) => Layer::Whole(n),
        None => Layer::Null,
    }
}

/// The member of the name.
pub fn member_at<'a>(members: &'a Map<String, Value>, name: &str) -> Option<Layer<'a>>
    ensures { option_map json_of_layer result
        ≡ look name.now (entries (json_of_entries members.now.entries)) }
{
    match members.get(name) {
        Some(value) => Some(layer_of(value)),
        None => None,
    }
}

pub fn has_member(members: &Map<String, Value>, name: &str) -> bool
    ensures { result ≡ is_in name.now (names (entries (json_of_entries members.now.entries))) }
{
    members.contains_key(name)
}

pub fn member_count(members: &Map<String, Value>) -> usize
    ensures { result ≡ length (entries (json_of_entries members.now.entries)) }
{
    members.len()
}

pub fn item_count(items: &[Value]) -> usize
    ensures { result ≡ length (elements (json_of_values items.now)) }
{
    items.len()
}
