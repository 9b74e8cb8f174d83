//! Which aliases stand in the types of aliases.

ghost use Rattle.std.specs.Prelude.{◌≡◌, ◌++◌, [], map, IfOk, OnOk};
ghost use Rattle.std.specs.BTreeMap.{get_by_text};
ghost use Rattle.std.specs.List.{filter_map, cons_option};
ghost use Rattle.written_types.specs.Written.{written_view};
ghost use Rattle.configuration.specs.Aliases.{last_names};

use crate::names::last_names;
use std::alloc::{AllocError, Global};
use std::collections::BTreeMap;
use texts::{List, Text};
use written_types::WrittenType;

/// Of each type the places of the names that stand last in its paths.
pub fn targets_of(
    alloc: Global,
    places: &BTreeMap<String, usize>,
    types: &[WrittenType],
) -> Result<List<List<usize>>, AllocError>
    ensures { IfOk result (λ targets. targets
        ≡ map (λ t. filter_map (get_by_text places.now) (last_names (written_view t))) types.now) }
{
    let mut targets = List::new(alloc);
    for ty in types {
        let names = last_names(alloc, ty)?;
        targets.push(places_among(alloc, places, names.as_slice())?)?;
    }
    Ok(targets)
}

/// The places of those of the names that have one.
fn places_among(
    alloc: Global,
    places: &BTreeMap<String, usize>,
    names: &[Text],
) -> Result<List<usize>, AllocError>
    ensures { IfOk result (λ found. found ≡ filter_map (get_by_text places.now) names.now) }
{
    let mut found = List::new(alloc);
    for name in names {
        push_place(places, name, &mut found)?;
    }
    Ok(found)
}

/// Adds the place of the name, if it has one.
fn push_place(
    places: &BTreeMap<String, usize>,
    name: &Text,
    found: &mut List<usize>,
) -> Result<(), AllocError>
    ensures { OnOk result
        (found.new ≡ found.old ++ cons_option (get_by_text places.now name.now) []) }
{
    if let Some(place) = places.get(name.as_str()) {
        found.push(*place)?;
    }
    Ok(())
}
