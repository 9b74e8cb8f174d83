ghost use Rattle.std.specs.Prelude.{◌≡◌};
ghost use Rattle.std.specs.List.{list_any, list_all};
ghost use Rattle.acceptance.specs.Json.{same, same_items, same_members, elements, entries, names, distinct};
ghost use Rattle.texts.specs.Names.{is_in};
ghost use Rattle.acceptance_checker.specs.Layer.{json_of_layer, json_of_values, json_of_entries};

use crate::layer::{Layer, has_member, layer_of, member_at};
use serde_json::{Map, Value};

/// Whether the values are equal. The order of a map's members counts for nothing.
#[cycle(same)]
pub fn same(a: Layer<'_>, b: Layer<'_>) -> bool
    ensures { result ≡ same (json_of_layer a.entry) (json_of_layer b.entry) }
{
    match a {
        Layer::Null => matches!(b, Layer::Null),
        Layer::Boolean(x) => match b {
            Layer::Boolean(y) => x == y,
            _ => false,
        },
        Layer::Whole(m) => match b {
            Layer::Whole(n) => m == n,
            _ => false,
        },
        Layer::Text(s) => match b {
            Layer::Text(t) => s == t,
            _ => false,
        },
        Layer::List(xs) => match b {
            Layer::List(ys) => same_items(xs, ys),
            _ => false,
        },
        Layer::Map(ms) => match b {
            Layer::Map(ns) => same_members(ms, ns) && has_each_name(ms, ns),
            _ => false,
        },
    }
}

#[cycle(same)]
fn same_items(xs: &[Value], ys: &[Value]) -> bool
    ensures { result ≡ same_items (json_of_values xs.now) (json_of_values ys.now) }
{
    if xs.len() != ys.len() {
        return false;
    }
    for (i, x) in xs.iter().enumerate() {
        if !same(layer_of(x), layer_of(&ys[i])) {
            return false;
        }
    }
    true
}

// each member of the first has an equal one of its name in the second
#[cycle(same)]
fn same_members(ms: &Map<String, Value>, ns: &Map<String, Value>) -> bool
    ensures { result ≡ same_members (json_of_entries ms.now.entries)
        (entries (json_of_entries ns.now.entries)) }
{
    for (name, x) in ms.iter() {
        match member_at(ns, name.as_str()) {
            Some(y) => {
                if !same(layer_of(x), y) {
                    return false;
                }
            }
            None => return false,
        }
    }
    true
}

// the first has each name of the second
fn has_each_name(ms: &Map<String, Value>, ns: &Map<String, Value>) -> bool
    ensures { result ≡ list_all (λ k. is_in k (names (entries (json_of_entries ms.now.entries))))
        (names (entries (json_of_entries ns.now.entries))) }
{
    for (name, _value) in ns.iter() {
        if !has_member(ms, name.as_str()) {
            return false;
        }
    }
    true
}

/// Whether the value is equal to one of the items.
pub fn is_among(value: Layer<'_>, items: &[Value]) -> bool
    ensures { result ≡ list_any (same (json_of_layer value.entry))
        (elements (json_of_values items.now)) }
{
    for item in items {
        if same(value, layer_of(item)) {
            return true;
        }
    }
    false
}

/// Whether no two of the items are equal.
pub fn are_distinct(items: &[Value]) -> bool
    ensures { result ≡ distinct (elements (json_of_values items.now)) }
{
    for (i, item) in items.iter().enumerate() {
        if is_among(layer_of(item), &items[i + 1..]) {
            return false;
        }
    }
    true
}
