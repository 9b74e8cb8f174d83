//! The steps from declarations to one component, each a call of its own.

ghost use Rattle.syntax.specs.Items.{declarations_view};
ghost use Rattle.syntax.specs.Named.{AreNamed};
ghost use Rattle.compose.specs.Sets.{AreInstancesOf, AreTermsOf, declarations_of};

use compose::{InstanceSet, TermSet, component_name, compose, instances, terms};
use configuration::Config;
use diag::DeriveError;
use open_types::ClosedType;
use schema_core::Components;
use std::alloc::Global;
use syntax::{Declarations, parse_declarations};

/// The component of the first declaration, where that is an instance without arguments.
fn component(
    alloc: Global,
    declarations: &Declarations,
    terms: &TermSet,
    set: &InstanceSet,
    config: &Config,
) -> Result<Components, DeriveError>
    requires terms { AreTermsOf config.now (declarations_view declarations.now) terms.now }
    requires instances { AreInstancesOf (declarations_of terms.now) set.now }
{
    let mut components = Components::new(alloc);
    let ty = ClosedType::declared(alloc, 0);
    if set.contains(&ty) {
        let name = component_name(alloc, declarations, &ty)?;
        let schema = compose(alloc, declarations, terms, set, config, &ty)?;
        components.insert(name, schema)?;
    }
    Ok(components)
}

fn of_declarations(alloc: Global, declarations: &Declarations) -> Result<Components, DeriveError>
    requires { AreNamed (declarations_view declarations.now) }
{
    let config = Config::new(alloc);
    let terms = terms(alloc, declarations, &config)?;
    let set = instances(alloc, declarations, &terms, &config)?;
    component(alloc, declarations, &terms, &set, &config)
}

fn of_text(alloc: Global, source: &str) -> Result<Components, DeriveError> {
    syntax::read_fields_are_named();
    let declarations = parse_declarations(alloc, source)?;
    of_declarations(alloc, &declarations)
}

pub(crate) fn told(alloc: Global) -> Result<String, DeriveError> {
    let components = of_text(alloc, "struct A { b: B } struct B;")?;
    let text = components.to_text(alloc)?;
    Ok(format!(in alloc; "component {}", text.as_str().trim_end())?)
}
