//! Which of what files have counts.

ghost use Rattle.std.specs.Prelude.{◌≡◌, ◌&&◌, ◌++◌, not, map, IfOk, OnOk};
ghost use Rattle.std.specs.BTreeMap.{get_by_text};
ghost use Rattle.std.specs.List.{filter};
ghost use Rattle.selecting.specs.Standing.{item_names, alias_names, line_text, item_line, alias_line, is_excluded, items_left, aliases_left, is_own, names_itself, own_names, counts, items_counting, aliases_counting};

use crate::selection::Selection;
use gathering::file_name;
use prepare::{FileAlias, FileItem, is_in};
use std::alloc::{AllocError, Global};
use std::collections::BTreeMap;
use texts::{List, Text};

/// The line of the file of the path, as compilers tell it.
fn line_text(alloc: Global, path: &str, line: usize) -> Result<Text, AllocError>
    ensures { IfOk result (λ text. text ≡ line_text path.now line) }
{
    let text = format!(in alloc; "{path}:{line}")?;
    Ok(Text::from(text))
}

/// The line where the name of the declaration stands.
pub(crate) fn item_line(alloc: Global, names: &[Text], item: &FileItem) -> Result<Text, AllocError>
    ensures { IfOk result (λ text. text ≡ item_line names.now item.now) }
{
    line_text(alloc, file_name(names, item.file), item.line)
}

/// The line where the alias stands.
pub(crate) fn alias_line(
    alloc: Global,
    names: &[Text],
    alias: &FileAlias,
) -> Result<Text, AllocError>
    ensures { IfOk result (λ text. text ≡ alias_line names.now alias.now) }
{
    line_text(alloc, file_name(names, alias.file), alias.place.line)
}

/// Whether what has this name at this line is excluded by either.
fn is_excluded(selection: &Selection, name: &str, line: &str) -> bool
    ensures { result ≡ is_excluded selection.now name.now line.now }
{
    let exclude = selection.exclude.as_slice();
    is_in(name, exclude) || is_in(line, exclude)
}

/// The declarations that are not excluded.
pub(crate) fn items_left<'i>(
    alloc: Global,
    selection: &Selection,
    names: &[Text],
    items: &'i [FileItem],
) -> Result<List<&'i FileItem>, AllocError>
    ensures { IfOk result (λ left. map (λ i. i.now) left
        ≡ items_left selection.now names.now items.now) }
{
    let mut left = List::new(alloc);
    let mut rest = items;
    'items: while let [first, after @ ..] = rest {
        let line = item_line(alloc, names, first)?;
        if !is_excluded(selection, first.declared.name.as_str(), line.as_str()) {
            left.push(first)?;
        }
        rest = after;
    }
    Ok(left)
}

/// The aliases that are not excluded.
pub(crate) fn aliases_left<'a>(
    alloc: Global,
    selection: &Selection,
    names: &[Text],
    aliases: &'a [FileAlias],
) -> Result<List<&'a FileAlias>, AllocError>
    ensures { IfOk result (λ left. map (λ a. a.now) left
        ≡ aliases_left selection.now names.now aliases.now) }
{
    let mut left = List::new(alloc);
    let mut rest = aliases;
    'aliases: while let [first, after @ ..] = rest {
        let line = alias_line(alloc, names, first)?;
        if !is_excluded(selection, first.declared.name.as_str(), line.as_str()) {
            left.push(first)?;
        }
        rest = after;
    }
    Ok(left)
}

/// Whether the file is one of the user's own.
pub(crate) fn is_own(selection: &Selection, file: usize) -> bool
    ensures { result ≡ is_own selection.now file }
{
    file < selection.own
}

/// Adds the names of the user's own declarations.
fn push_item_names(
    alloc: Global,
    own: &mut List<Text>,
    selection: &Selection,
    items: &[&FileItem],
) -> Result<(), AllocError>
    ensures { OnOk result (own.new ≡ own.old ++ item_names
        (filter (λ i. is_own selection.now i.file) (map (λ i. i.now) items.now))) }
{
    let mut rest = items;
    'items: while let [first, after @ ..] = rest {
        if is_own(selection, first.file) {
            own.push(first.declared.name.copy(alloc)?)?;
        }
        rest = after;
    }
    Ok(())
}

/// Whether the alias has its own name in its type.
pub(crate) fn names_itself(alias: &FileAlias) -> bool
    ensures { result ≡ names_itself alias.now }
{
    is_in(
        alias.declared.name.as_str(),
        alias.declared.names.as_slice(),
    )
}

/// Whether the user's own files declare something by the alias: it is theirs, and names another type than one of its name.
fn declares(selection: &Selection, alias: &FileAlias) -> bool
    ensures { result ≡ (is_own selection.now alias.now.file && not (names_itself alias.now)) }
{
    is_own(selection, alias.file) && !names_itself(alias)
}

/// Adds the names of the user's own aliases that declare something.
fn push_alias_names(
    alloc: Global,
    own: &mut List<Text>,
    selection: &Selection,
    aliases: &[&FileAlias],
) -> Result<(), AllocError>
    ensures { OnOk result (own.new ≡ own.old ++ alias_names
        (filter (λ a. is_own selection.now a.file && not (names_itself a))
        (map (λ a. a.now) aliases.now))) }
{
    let mut rest = aliases;
    'aliases: while let [first, after @ ..] = rest {
        if declares(selection, first) {
            own.push(first.declared.name.copy(alloc)?)?;
        }
        rest = after;
    }
    Ok(())
}

/// The names that the user's own files declare.
pub(crate) fn own_names(
    alloc: Global,
    selection: &Selection,
    items: &[&FileItem],
    aliases: &[&FileAlias],
) -> Result<List<Text>, AllocError>
    ensures { IfOk result (λ own. own ≡ own_names selection.now
        (map (λ i. i.now) items.now) (map (λ a. a.now) aliases.now)) }
{
    let mut own = List::new(alloc);
    push_item_names(alloc, &mut own, selection, items)?;
    push_alias_names(alloc, &mut own, selection, aliases)?;
    Ok(own)
}

/// Whether what has the name counts, where the map has the names that the user's own files declare.
fn counts(selection: &Selection, own: &BTreeMap<String, usize>, file: usize, name: &str) -> bool
    ensures { result ≡ counts (get_by_text own.now) selection.now file name.now }
{
    is_own(selection, file) || !own.contains_key(name)
}

/// The declarations that count, where the map has the names that the user's own files declare.
pub(crate) fn items_counting<'i>(
    alloc: Global,
    selection: &Selection,
    own: &BTreeMap<String, usize>,
    items: &[&'i FileItem],
) -> Result<List<&'i FileItem>, AllocError>
    ensures { IfOk result (λ left. map (λ i. i.now) left
        ≡ items_counting (get_by_text own.now) selection.now (map (λ i. i.now) items.now)) }
{
    let mut left = List::new(alloc);
    let mut rest = items;
    'items: while let [first, after @ ..] = rest {
        if counts(selection, own, first.file, first.declared.name.as_str()) {
            left.push(*first)?;
        }
        rest = after;
    }
    Ok(left)
}

/// The aliases that count, where the map has the names that the user's own files declare.
pub(crate) fn aliases_counting<'a>(
    alloc: Global,
    selection: &Selection,
    own: &BTreeMap<String, usize>,
    aliases: &[&'a FileAlias],
) -> Result<List<&'a FileAlias>, AllocError>
    ensures { IfOk result (λ left. map (λ a. a.now) left
        ≡ aliases_counting (get_by_text own.now) selection.now (map (λ a. a.now) aliases.now)) }
{
    let mut left = List::new(alloc);
    let mut rest = aliases;
    'aliases: while let [first, after @ ..] = rest {
        if counts(selection, own, first.file, first.declared.name.as_str()) {
            left.push(*first)?;
        }
        rest = after;
    }
    Ok(left)
}
