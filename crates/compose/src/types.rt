//! The types of components.

ghost use Rattle.std.specs.Prelude.{◌≡◌, ◌++◌, [], length, map, option_map, IfOk, OnOk};
ghost use Rattle.std.specs.List.{cons_option, filter_map};
ghost use Rattle.texts.specs.Names.{place_in};
ghost use Rattle.open_types.specs.Open.{open_view};
ghost use Rattle.instances.specs.Lists.{instance_at};

use instances::{Names, Reach};
use open_types::ClosedType;
use std::alloc::{AllocError, Global};
use texts::{List, Text};

/// Adds the instance of the name, where there is one.
fn push_named(
    alloc: Global,
    types: &mut List<ClosedType>,
    reach: &Reach,
    names: &Names,
    name: &str,
) -> Result<(), AllocError>
    requires { length names.now ≡ length reach.now }
    ensures { OnOk result
        (map open_view types.new ≡ map open_view types.old
        ++ cons_option (option_map (instance_at reach.now) (place_in name.now names.now)) []) }
{
    match names.number(name) {
        Some(number) => types.push(reach.type_of(alloc, number)?),
        None => Ok(()),
    }
}

/// The instances of the names, in the order of the names; `known` has the names of all instances. A name that none has is left
/// out.
pub(crate) fn types_of(
    alloc: Global,
    reach: &Reach,
    known: &Names,
    names: &[Text],
) -> Result<List<ClosedType>, AllocError>
    requires { length known.now ≡ length reach.now }
    ensures { IfOk result
        (λ types. map open_view types
        ≡ filter_map (λ name. option_map (instance_at reach.now) (place_in name known.now))
        names.now) }
{
    let mut types = List::new(alloc);
    for name in names {
        push_named(alloc, &mut types, reach, known, name.as_str())?;
    }
    Ok(types)
}
