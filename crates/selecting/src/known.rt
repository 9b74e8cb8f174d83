//! Names by which nothing is selected and nothing excluded.

ghost use Rattle.std.specs.Prelude.{◌≡◌, option_map, map, IfOk};
ghost use Rattle.texts.specs.Names.{is_in};
ghost use Rattle.selecting.specs.Standing.{item_names, alias_names, item_line, alias_line, excludes, unknown_only, unknown_exclude};

use crate::standing::{alias_line, item_line};
use prepare::{FileAlias, FileItem};
use std::alloc::{AllocError, Global};
use texts::Text;

/// Whether a declaration has the name.
fn is_declared(name: &str, items: &[FileItem]) -> bool
    ensures { result ≡ is_in name.now (item_names items.now) }
{
    let mut rest = items;
    'items: while let [first, after @ ..] = rest {
        if name == first.declared.name.as_str() {
            return true;
        }
        rest = after;
    }
    false
}

/// Whether an alias has the name.
fn is_alias(name: &str, aliases: &[FileAlias]) -> bool
    ensures { result ≡ is_in name.now (alias_names aliases.now) }
{
    let mut rest = aliases;
    'aliases: while let [first, after @ ..] = rest {
        if name == first.declared.name.as_str() {
            return true;
        }
        rest = after;
    }
    false
}

/// Whether the text is the line of a declaration's name.
fn is_item_line(
    alloc: Global,
    names: &[Text],
    items: &[FileItem],
    text: &str,
) -> Result<bool, AllocError>
    ensures { IfOk result (λ b. b ≡ is_in text.now (map (item_line names.now) items.now)) }
{
    let mut rest = items;
    'items: while let [first, after @ ..] = rest {
        if text == item_line(alloc, names, first)?.as_str() {
            return Ok(true);
        }
        rest = after;
    }
    Ok(false)
}

/// Whether the text is the line of an alias.
fn is_alias_line(
    alloc: Global,
    names: &[Text],
    aliases: &[FileAlias],
    text: &str,
) -> Result<bool, AllocError>
    ensures { IfOk result (λ b. b ≡ is_in text.now (map (alias_line names.now) aliases.now)) }
{
    let mut rest = aliases;
    'aliases: while let [first, after @ ..] = rest {
        if text == alias_line(alloc, names, first)?.as_str() {
            return Ok(true);
        }
        rest = after;
    }
    Ok(false)
}

/// Whether the text excludes something: it is the name of a declaration or an alias, or the line of one.
fn excludes(
    alloc: Global,
    names: &[Text],
    items: &[FileItem],
    aliases: &[FileAlias],
    text: &str,
) -> Result<bool, AllocError>
    ensures { IfOk result (λ b. b ≡ excludes names.now items.now aliases.now text.now) }
{
    if is_declared(text, items) || is_alias(text, aliases) {
        return Ok(true);
    }
    Ok(is_item_line(alloc, names, items, text)? || is_alias_line(alloc, names, aliases, text)?)
}

/// The first of the names that no declaration has.
pub fn unknown_only<'n>(items: &[FileItem], only: &'n [Text]) -> Option<&'n Text>
    ensures { option_map (λ name. name.now) result ≡ unknown_only items.now only.now }
{
    let mut rest = only;
    'names: while let [first, after @ ..] = rest {
        if !is_declared(first.as_str(), items) {
            return Some(first);
        }
        rest = after;
    }
    None
}

/// The first of the texts that is neither the name of a declaration or an alias of the files of these names, nor the line
/// of one.
pub fn unknown_exclude<'n>(
    alloc: Global,
    names: &[Text],
    items: &[FileItem],
    aliases: &[FileAlias],
    exclude: &'n [Text],
) -> Result<Option<&'n Text>, AllocError>
    ensures { IfOk result (λ found. option_map (λ text. text.now) found
        ≡ unknown_exclude names.now items.now aliases.now exclude.now) }
{
    let mut rest = exclude;
    'texts: while let [first, after @ ..] = rest {
        if !excludes(alloc, names, items, aliases, first.as_str())? {
            return Ok(Some(first));
        }
        rest = after;
    }
    Ok(None)
}
