//! Names that mean, in a file, what another file has.

ghost use Rattle.std.specs.Prelude.{◌≡◌, ◌++◌, option_map, map, IfOk, OnOk};
ghost use Rattle.std.specs.BTreeMap.{get_by_text};
ghost use Rattle.std.specs.List.{filter};
ghost use Rattle.selecting.specs.Elsewhere.{name_in, item_name_in, alias_name_in, names_in, names_after, is_elsewhere, elsewhere_name, found_by};
ghost use Rattle.selecting.specs.Standing.{item_names, alias_names, names_itself};
ghost use Rattle.texts.specs.Names.{place_in};

use crate::imports::push_declared;
use crate::selected::Selected;
use crate::standing::names_itself;
use configuration::name_places;
use prepare::{FileAlias, FileItem};
use std::alloc::{AllocError, Global};
use std::collections::BTreeMap;
use texts::{List, Text};

/// The names of what is selected, and each name that a file has, in its file.
#[derive(Debug, Drop)]
pub struct Elsewhere {
    /// Of all that is selected.
    selected: BTreeMap<String, usize>,
    /// In their files, of all that these have.
    before: BTreeMap<String, usize>,
    /// In their files, of what is selected, and of aliases that say that another file's is meant.
    after: BTreeMap<String, usize>,
}

/// The name in the file of the number.
fn name_in(alloc: Global, file: usize, name: &str) -> Result<Text, AllocError>
    ensures { IfOk result (λ text. text ≡ name_in file name.now) }
{
    let text = format!(in alloc; "{file}:{name}")?;
    Ok(Text::from(text))
}

/// References to all of these.
fn each<'a, A>(alloc: Global, all: &'a [A]) -> Result<List<&'a A>, AllocError>
    ensures { IfOk result (λ each. map (λ a. a.now) each ≡ all.now) }
{
    let mut each = List::new(alloc);
    let mut rest = all;
    'all: while let [first, after @ ..] = rest {
        each.push(first)?;
        rest = after;
    }
    Ok(each)
}

/// Adds the names of the aliases.
fn push_aliases(
    alloc: Global,
    names: &mut List<Text>,
    aliases: &[&FileAlias],
) -> Result<(), AllocError>
    ensures { OnOk result (names.new ≡ names.old ++ alias_names (map (λ a. a.now) aliases.now)) }
{
    let mut rest = aliases;
    'aliases: while let [first, after @ ..] = rest {
        names.push(first.declared.name.copy(alloc)?)?;
        rest = after;
    }
    Ok(())
}

/// Adds the names of the declarations, each in its file.
fn push_items_in(
    alloc: Global,
    names: &mut List<Text>,
    items: &[&FileItem],
) -> Result<(), AllocError>
    ensures { OnOk result (names.new ≡ names.old ++ map item_name_in (map (λ i. i.now) items.now)) }
{
    let mut rest = items;
    'items: while let [first, after @ ..] = rest {
        names.push(name_in(alloc, first.file, first.declared.name.as_str())?)?;
        rest = after;
    }
    Ok(())
}

/// Adds the names of the aliases, each in its file.
fn push_aliases_in(
    alloc: Global,
    names: &mut List<Text>,
    aliases: &[&FileAlias],
) -> Result<(), AllocError>
    ensures { OnOk result (names.new
        ≡ names.old ++ map alias_name_in (map (λ a. a.now) aliases.now)) }
{
    let mut rest = aliases;
    'aliases: while let [first, after @ ..] = rest {
        names.push(name_in(alloc, first.file, first.declared.name.as_str())?)?;
        rest = after;
    }
    Ok(())
}

/// Adds the names of the aliases that have their own in their types, each in its file.
fn push_themselves(
    alloc: Global,
    names: &mut List<Text>,
    aliases: &[&FileAlias],
) -> Result<(), AllocError>
    ensures { OnOk result (names.new ≡ names.old ++ map alias_name_in
        (filter names_itself (map (λ a. a.now) aliases.now))) }
{
    let mut rest = aliases;
    'aliases: while let [first, after @ ..] = rest {
        if names_itself(first) {
            names.push(name_in(alloc, first.file, first.declared.name.as_str())?)?;
        }
        rest = after;
    }
    Ok(())
}

/// The names of these declarations and aliases, each in its file.
fn names_in(
    alloc: Global,
    items: &[&FileItem],
    aliases: &[&FileAlias],
) -> Result<BTreeMap<String, usize>, AllocError>
    ensures { IfOk result (λ places. get_by_text places ≡ (λ name. place_in name
        (names_in (map (λ i. i.now) items.now) (map (λ a. a.now) aliases.now)))) }
{
    let mut names = List::new(alloc);
    push_items_in(alloc, &mut names, items)?;
    push_aliases_in(alloc, &mut names, aliases)?;
    name_places(alloc, names.as_slice())
}

/// The names of what is selected, each in its file, and of the aliases that have their own in their types.
fn names_after(
    alloc: Global,
    chosen: &[&FileItem],
    needed: &[&FileAlias],
    aliases: &[&FileAlias],
) -> Result<BTreeMap<String, usize>, AllocError>
    ensures { IfOk result (λ places. get_by_text places ≡ (λ name. place_in name (names_after
        (map (λ i. i.now) chosen.now) (map (λ a. a.now) needed.now) (map (λ a. a.now) aliases.now)))) }
{
    let mut names = List::new(alloc);
    push_items_in(alloc, &mut names, chosen)?;
    push_aliases_in(alloc, &mut names, needed)?;
    push_themselves(alloc, &mut names, aliases)?;
    name_places(alloc, names.as_slice())
}

/// The names of these declarations and aliases.
fn names_of(
    alloc: Global,
    items: &[&FileItem],
    aliases: &[&FileAlias],
) -> Result<BTreeMap<String, usize>, AllocError>
    ensures { IfOk result (λ places. get_by_text places ≡ (λ name. place_in name
        (item_names (map (λ i. i.now) items.now) ++ alias_names (map (λ a. a.now) aliases.now)))) }
{
    let mut names = List::new(alloc);
    push_declared(alloc, &mut names, items)?;
    push_aliases(alloc, &mut names, aliases)?;
    name_places(alloc, names.as_slice())
}

impl Elsewhere {
    /// Where files have these declarations and aliases, and this is selected of them.
    pub fn new(
        alloc: Global,
        items: &[FileItem],
        aliases: &[FileAlias],
        selected: &Selected<'_>,
    ) -> Result<Elsewhere, AllocError>
        ensures { IfOk result (λ e. found_by e ≡ elsewhere_name
            items.now (map (λ i. i.now) selected.now.items)
            aliases.now (map (λ a. a.now) selected.now.aliases)) }
    {
        let all = each(alloc, items)?;
        let given = each(alloc, aliases)?;
        let (chosen, needed) = (selected.items.as_slice(), selected.aliases.as_slice());
        let (items, aliases) = (all.as_slice(), given.as_slice());
        let selected = names_of(alloc, chosen, needed)?;
        let before = names_in(alloc, items, aliases)?;
        let after = names_after(alloc, chosen, needed, aliases)?;
        Ok(Elsewhere {
            selected,
            before,
            after,
        })
    }

    /// Whether the name means, in the file, what another file has.
    fn is_elsewhere(&self, alloc: Global, file: usize, name: &str) -> Result<bool, AllocError>
        ensures { IfOk result (λ b. b ≡ is_elsewhere (get_by_text self.now.selected)
            (get_by_text self.now.before) (get_by_text self.now.after) file name.now) }
    {
        if !self.selected.contains_key(name) {
            return Ok(false);
        }
        let name = name_in(alloc, file, name)?;
        let name = name.as_str();
        Ok(self.before.contains_key(name) && !self.after.contains_key(name))
    }

    /// Of the names in the types of the declaration's fields the first that means what another file has: its own file has
    /// something of the name, but nothing of that is selected, nor does it say by an alias that another's is meant.
    pub fn name_of<'i>(
        &self,
        alloc: Global,
        item: &'i FileItem,
    ) -> Result<Option<&'i Text>, AllocError>
        ensures { IfOk result
            (λ name. option_map (λ n. n.now) name ≡ found_by self.now item.now) }
    {
        let mut rest = item.declared.names.as_slice();
        'names: while let [first, after @ ..] = rest {
            if self.is_elsewhere(alloc, item.file, first.as_str())? {
                return Ok(Some(first));
            }
            rest = after;
        }
        Ok(None)
    }
}
