//! Names that a `use` gives: each is an alias where what it is for is a type that is known.

ghost use Rattle.std.specs.Prelude.{◌≡◌, ◌++◌, map, not, IfOk, OnOk};
ghost use Rattle.std.specs.BTreeMap.{get_by_text};
ghost use Rattle.std.specs.List.{filter, list_any};
ghost use Rattle.selecting.specs.Standing.{item_names, alias_names};
ghost use Rattle.selecting.specs.Imports.{type_names, is_type, is_alias, aliases_among};

use leaves::Leaf;
use prepare::{FileAlias, FileItem};
use std::alloc::{AllocError, Global};
use std::collections::BTreeMap;
use texts::{List, Text};

/// Whether a type of the name is known that takes no arguments: the map has the name, or it is built in.
fn is_type(found: &BTreeMap<String, usize>, name: &str) -> bool
    ensures { result ≡ is_type (get_by_text found.now) name.now }
{
    found.contains_key(name) || Leaf::named(name).is_some() || name == "Value"
}

/// Whether one of the names is that of such a type.
fn has_type(found: &BTreeMap<String, usize>, names: &[Text]) -> bool
    ensures { result ≡ list_any (is_type (get_by_text found.now)) names.now }
{
    let mut rest = names;
    'names: while let [first, after @ ..] = rest {
        if is_type(found, first.as_str()) {
            return true;
        }
        rest = after;
    }
    false
}

/// Adds the names of the declarations.
pub(crate) fn push_declared(
    alloc: Global,
    names: &mut List<Text>,
    items: &[&FileItem],
) -> Result<(), AllocError>
    ensures { OnOk result (names.new ≡ names.old ++ item_names (map (λ i. i.now) items.now)) }
{
    let mut rest = items;
    'items: while let [first, after @ ..] = rest {
        names.push(first.declared.name.copy(alloc)?)?;
        rest = after;
    }
    Ok(())
}

/// Adds the names that `type` items give.
fn push_given(
    alloc: Global,
    names: &mut List<Text>,
    aliases: &[&FileAlias],
) -> Result<(), AllocError>
    ensures { OnOk result (names.new ≡ names.old ++ alias_names
        (filter (λ a. not a.is_import) (map (λ a. a.now) aliases.now))) }
{
    let mut rest = aliases;
    'aliases: while let [first, after @ ..] = rest {
        if !first.is_import {
            names.push(first.declared.name.copy(alloc)?)?;
        }
        rest = after;
    }
    Ok(())
}

/// The names of the declarations and of the `type` items.
pub(crate) fn type_names(
    alloc: Global,
    items: &[&FileItem],
    aliases: &[&FileAlias],
) -> Result<List<Text>, AllocError>
    ensures { IfOk result (λ names. names
        ≡ type_names (map (λ i. i.now) items.now) (map (λ a. a.now) aliases.now)) }
{
    let mut names = List::new(alloc);
    push_declared(alloc, &mut names, items)?;
    push_given(alloc, &mut names, aliases)?;
    Ok(names)
}

/// Whether the alias is one: a `type` item is, and a name for a type that is known, where the map has the names that are declared.
fn is_alias(found: &BTreeMap<String, usize>, alias: &FileAlias) -> bool
    ensures { result ≡ is_alias (get_by_text found.now) alias.now }
{
    !alias.is_import || has_type(found, alias.declared.names.as_slice())
}

/// Those that are aliases, where the map has the names that are declared.
pub(crate) fn aliases_among<'a>(
    alloc: Global,
    found: &BTreeMap<String, usize>,
    aliases: &[&'a FileAlias],
) -> Result<List<&'a FileAlias>, AllocError>
    ensures { IfOk result (λ among. map (λ a. a.now) among
        ≡ aliases_among (get_by_text found.now) (map (λ a. a.now) aliases.now)) }
{
    let mut among = List::new(alloc);
    let mut rest = aliases;
    'aliases: while let [first, after @ ..] = rest {
        if is_alias(found, first) {
            among.push(*first)?;
        }
        rest = after;
    }
    Ok(among)
}
