//! The schemas of a document.

ghost use Rattle.std.specs.Prelude.{◌≡◌, option_map};
ghost use Rattle.serde_json.specs.Find.{as_object};
ghost use Rattle.serde_json.specs.View.{view, members_view};
ghost use Rattle.documents.specs.Components.{schemas_found};

use serde_json::{Map, Value};

/// The members of the value, where it is an object.
pub(crate) fn into_members(value: Value) -> Option<Map<String, Value>>
    ensures { option_map (λ m. members_view m.entries) result ≡ as_object (view value) }
{
    match value {
        Value::Object(members) => Some(members),
        _ => None,
    }
}

/// The schemas of the document under their names, where it has an object of them.
pub(crate) fn schemas_of(document: &Value) -> Option<&Map<String, Value>>
    ensures { option_map (λ m. members_view m.now.entries) result
        ≡ schemas_found (view document.now) }
{
    document.get("components")?.get("schemas")?.as_object()
}
