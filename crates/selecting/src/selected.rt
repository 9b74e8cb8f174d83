//! Which of the declarations are selected, and which aliases they need.

ghost use Rattle.std.specs.Prelude.{◌≡◌, ◌++◌, map, IfOk};
ghost use Rattle.std.specs.BTreeMap.{get_by_text};
ghost use Rattle.std.specs.List.{filter};
ghost use Rattle.selecting.specs.Lists.{AreThose};
ghost use Rattle.selecting.specs.Selected.{item_node, alias_node, is_chosen, is_needed, IsChosen, IsNeeded, AreChosen, AreSelected};
ghost use Rattle.selecting.specs.Types.{Adds};

use crate::derives::{deriving_names, items_staying};
use crate::imports::{aliases_among, type_names};
use crate::nodes::{is_first, unreached_in};
use crate::selection::Selection;
use crate::standing::{aliases_counting, aliases_left, items_counting, items_left, own_names};
use crate::types::{configured_nodes, push_needed, typed};
use configuration::{Config, name_places};
use prepare::{FileAlias, FileItem};
use reaching::{NamesByName, Node};
use std::alloc::{AllocError, Global};
use texts::{List, Text};

/// Declarations that are selected, and the aliases that they need.
#[derive(Debug, Drop)]
pub struct Selected<'f> {
    /// The declarations, in their order.
    pub items: List<&'f FileItem>,
    /// The aliases, in their order.
    pub aliases: List<&'f FileAlias>,
}

/// Whether the declaration is selected, where the map has the names that are not reached.
fn is_chosen(unreached: &NamesByName<'_>, selection: &Selection, item: &FileItem) -> bool
    ensures { result ≡ is_chosen (get_by_text unreached.now) selection.now item.now }
{
    is_first(selection, item) || !unreached.contains_key(item.declared.name.as_str())
}

/// The declarations that are selected, where the map has the names that are not reached.
fn chosen_by<'f>(
    alloc: Global,
    unreached: &NamesByName<'_>,
    selection: &Selection,
    items: &[&'f FileItem],
) -> Result<List<&'f FileItem>, AllocError>
    ensures { IfOk result (λ chosen. map (λ i. i.now) chosen ≡ filter
        (is_chosen (get_by_text unreached.now) selection.now) (map (λ i. i.now) items.now)) }
{
    let mut chosen = List::new(alloc);
    let mut rest = items;
    'items: while let [first, after @ ..] = rest {
        if is_chosen(unreached, selection, first) {
            chosen.push(*first)?;
        }
        rest = after;
    }
    Ok(chosen)
}

/// Whether the alias is needed, where the map has the names that are not reached.
fn is_needed(unreached: &NamesByName<'_>, alias: &FileAlias) -> bool
    ensures { result ≡ is_needed (get_by_text unreached.now) alias.now }
{
    !unreached.contains_key(alias.declared.name.as_str())
}

/// The aliases that are needed, where the map has the names that are not reached.
fn needed_by<'f>(
    alloc: Global,
    unreached: &NamesByName<'_>,
    aliases: &[&'f FileAlias],
) -> Result<List<&'f FileAlias>, AllocError>
    ensures { IfOk result (λ needed. map (λ a. a.now) needed ≡ filter
        (is_needed (get_by_text unreached.now)) (map (λ a. a.now) aliases.now)) }
{
    let mut needed = List::new(alloc);
    let mut rest = aliases;
    'aliases: while let [first, after @ ..] = rest {
        if is_needed(unreached, first) {
            needed.push(*first)?;
        }
        rest = after;
    }
    Ok(needed)
}

/// What is selected of the declarations and the aliases, which name types, beside the aliases of a configuration.
fn selected_by<'f>(
    alloc: Global,
    selection: &Selection,
    items: &[&'f FileItem],
    configured: &[Node],
    typed: &[&'f FileAlias],
) -> Result<Selected<'f>, AllocError>
    ensures items { IfOk result (λ s. AreThose (IsChosen selection.now
        (map (item_node selection.now) (map (λ i. i.now) items.now)
        ++ (configured.now ++ map alias_node (map (λ a. a.now) typed.now))))
        (map (λ i. i.now) items.now) (map (λ i. i.now) s.items)) }
    ensures aliases { IfOk result (λ s. AreThose (IsNeeded
        (map (item_node selection.now) (map (λ i. i.now) items.now)
        ++ (configured.now ++ map alias_node (map (λ a. a.now) typed.now))))
        (map (λ a. a.now) typed.now) (map (λ a. a.now) s.aliases)) }
{
    let unreached = unreached_in(alloc, selection, items, configured, typed)?;
    Ok(Selected {
        items: chosen_by(alloc, &unreached, selection, items)?,
        aliases: needed_by(alloc, &unreached, typed)?,
    })
}

/// What is selected of the declarations and the aliases that count.
fn choose<'f>(
    alloc: Global,
    selection: &Selection,
    config: &Config,
    items: &[&'f FileItem],
    aliases: &[&'f FileAlias],
) -> Result<Selected<'f>, AllocError>
    ensures { IfOk result (λ s. AreChosen selection.now config.now (map (λ i. i.now) items.now)
        (map (λ i. i.now) s.items) (map (λ a. a.now) aliases.now) (map (λ a. a.now) s.aliases)) }
{
    let configured = configured_nodes(alloc, config)?;
    let typed = typed(alloc, config, aliases)?;
    selected_by(
        alloc,
        selection,
        items,
        configured.as_slice(),
        typed.as_slice(),
    )
}

/// What is selected of the files of these names.
fn select_in<'f>(
    alloc: Global,
    selection: &Selection,
    names: &[Text],
    items: &'f [FileItem],
    aliases: &'f [FileAlias],
    config: &Config,
) -> Result<Selected<'f>, AllocError>
    ensures { IfOk result (λ s. AreSelected selection.now config.now names.now
        items.now (map (λ i. i.now) s.items) aliases.now (map (λ a. a.now) s.aliases)) }
{
    let items = items_left(alloc, selection, names, items)?;
    let aliases = aliases_left(alloc, selection, names, aliases)?;
    let own = own_names(alloc, selection, items.as_slice(), aliases.as_slice())?;
    let own = name_places(alloc, own.as_slice())?;
    let items = items_counting(alloc, selection, &own, items.as_slice())?;
    let with_traits = deriving_names(alloc, items.as_slice())?;
    let with_traits = name_places(alloc, with_traits.as_slice())?;
    let items = items_staying(alloc, selection, &with_traits, items.as_slice())?;
    let aliases = aliases_counting(alloc, selection, &own, aliases.as_slice())?;
    let declared = type_names(alloc, items.as_slice(), aliases.as_slice())?;
    let declared = name_places(alloc, declared.as_slice())?;
    let aliases = aliases_among(alloc, &declared, aliases.as_slice())?;
    choose(
        alloc,
        selection,
        config,
        items.as_slice(),
        aliases.as_slice(),
    )
}

/// The declarations that are selected of the files of these names, in their order, and the aliases that they need, which
/// are put behind those of the configuration.
///
/// Declarations are selected for themselves, and those that these name, and so on; what names an alias names what its type
/// names. What is excluded is not selected, and nothing is for its sake. A declaration or an alias of a stand-in does not
/// count where the user's own files have one of its name, nor, where those are asked for that derive serde's traits, a
/// declaration that does not beside one of its name that does; nor does an alias where the configuration has one of its name,
/// one whose text is no type, or a path to a type of its own name, and one that a `use` gives to what is no type that is
/// declared, by a declaration or a `type` item, or that is known without one and takes no arguments.
pub fn select<'f>(
    alloc: Global,
    selection: &Selection,
    names: &[Text],
    items: &'f [FileItem],
    aliases: &'f [FileAlias],
    config: &mut Config,
) -> Result<Selected<'f>, AllocError>
    ensures selected { IfOk result (λ s. AreSelected selection.now config.old names.now
        items.now (map (λ i. i.now) s.items) aliases.now (map (λ a. a.now) s.aliases)) }
    ensures added { IfOk result
        (λ s. Adds config.old (map (λ a. a.now) s.aliases) config.new) }
{
    let selected = select_in(alloc, selection, names, items, aliases, config)?;
    push_needed(alloc, config, selected.aliases.as_slice())?;
    Ok(selected)
}
