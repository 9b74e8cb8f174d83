//! Where the names in declarations are looked up.

ghost use Rattle.std.specs.Prelude.{◌≡◌, ◌<◌, Some, length, slice_get, IfOk};
ghost use Rattle.syntax.specs.Items.{declarations_view, DeclaredItem as AnyDeclared};
ghost use Rattle.warnings.specs.Flat.{flat_view, flat_at};
ghost use Rattle.warnings.specs.Warned.{IsKnown};

use crate::flat::{Flat, flat_of};
use configuration::Config;
use scopes::{Container, Places, Scope};
use std::alloc::{AllocError, Global};
use texts::List;

/// Where the names in declarations are looked up: among the declarations of their source, and among the aliases of a
/// configuration.
#[derive(Drop)]
pub struct Lookup<'a> {
    /// The declarations, and the places of their names.
    pub places: &'a Places<'a>,
    /// The configuration.
    pub config: &'a Config,
    /// What each of the declarations is where a field of its type is flattened.
    pub flats: List<Flat>,
}

/// What the declaration at the place is where a field of its type is flattened.
fn flat_at<'a>(
    alloc: Global,
    places: &'a Places<'a>,
    config: &Config,
    at: usize,
) -> Result<Flat, AllocError>
    requires { at < length (declarations_view places.now.declarations.now) }
    ensures { IfOk result (λ flat. (d : AnyDeclared)
        × (slice_get (declarations_view places.now.declarations.now) at ≡ Some d)
        × (flat_view flat
        ≡ flat_at config.now (declarations_view places.now.declarations.now) d)) }
{
    let scope = Scope::new(alloc, places, at)?;
    let container = Container {
        scope: &scope,
        config,
    };
    flat_of(alloc, &container, &places.declarations.items.as_slice()[at])
}

impl<'a> Lookup<'a> {
    /// Where the names in these declarations are looked up.
    pub fn new(
        alloc: Global,
        places: &'a Places<'a>,
        config: &'a Config,
    ) -> Result<Lookup<'a>, AllocError>
        ensures places { IfOk result (λ lookup. lookup.places.now ≡ places.now) }
        ensures config { IfOk result (λ lookup. lookup.config.now ≡ config.now) }
        ensures known { IfOk result IsKnown }
    {
        let mut flats = List::new(alloc);
        for at in 0..places.declarations.items.len() {
            flats.push(flat_at(alloc, places, config, at)?)?;
        }
        Ok(Lookup {
            places,
            config,
            flats,
        })
    }
}
