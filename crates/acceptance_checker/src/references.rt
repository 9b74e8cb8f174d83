ghost use Rattle.std.specs.Prelude.{◌≡◌, option_map};
ghost use Rattle.acceptance.specs.Acceptance.{target_of, component_schema};
ghost use Rattle.acceptance.specs.Json.{member_of};
ghost use Rattle.acceptance_checker.specs.Layer.{json_of_layer, json_of_value};

use crate::layer::{Layer, layer_of, member_at};
use serde_json::Value;

/// The name of the component that a reference leads to.
pub fn target_of(reference: &str) -> Option<&str>
    ensures { option_map (λ name. name.now) result ≡ target_of reference.now }
{
    reference.strip_prefix("#/components/schemas/")
}

/// The schema of the component of the name.
pub fn component_schema<'a>(document: &'a Value, name: &str) -> Option<Layer<'a>>
    ensures { option_map json_of_layer result
        ≡ component_schema (json_of_value document.now) name.now }
{
    let components = member_of(layer_of(document), "components")?;
    let schemas = member_of(components, "schemas")?;
    member_of(schemas, name)
}

fn member_of<'a>(value: Layer<'a>, name: &str) -> Option<Layer<'a>>
    ensures { option_map json_of_layer result ≡ member_of name.now (json_of_layer value.entry) }
{
    match value {
        Layer::Map(members) => member_at(members, name),
        _ => None,
    }
}
