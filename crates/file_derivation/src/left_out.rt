//! What is left out in a round, and what is told of it.

ghost use Rattle.std.specs.Prelude.{◌≡◌, ◌≢◌, ◌<◌, ◌++◌, ◌∷◌, [], List as AnyList, length, map, find, option_map, IfOk, OnOk};
ghost use Rattle.std.specs.BTreeMap.{get_by_text};
ghost use Rattle.std.specs.List.{flat_map, AllByRecursion};
ghost use Rattle.reaching.specs.Reached.{nodes_of, AreUnreached};
ghost use Rattle.telling.specs.declared.told.Told.{Told as AnyTold};
ghost use Rattle.file_derivation.specs.LeftOut.{IsItemIn, faulty_names, label, told_of_file, told_faulty, is_needed, why, reason, told_needing, line, picks, line_if, lines_of, kept_by, IsRound};
ghost use Rattle.file_derivation.specs.OutNodes.{is_fault, judged_node, needs_node, needs_nodes, out_nodes, is_reached};

use crate::judged::{Judged, Verdict};
use gathering::file_name;
use prepare::FileItem;
use reaching::{NamesByName, Node, NodeRef, unreached_names};
use std::alloc::{AllocError, Global};
use std::slice;
use telling::{Shown, Told, told_in};
use texts::{List, Span, Text};

/// What stands where the kind of a fault would.
const LABEL: &str = "left out";

// ---- names

/// Adds the items, each first where it is at fault.
fn push_judged<'i>(nodes: &mut List<NodeRef<'i>>, judged: &[Judged<'i>]) -> Result<(), AllocError>
    ensures { OnOk result (nodes_of nodes.new ≡ nodes_of nodes.old ++ map judged_node judged.now) }
{
    let mut rest = judged;
    'judged: while let [first, after @ ..] = rest {
        nodes.push(NodeRef {
            name: first.item.declared.name.as_str(),
            is_first: is_fault(&first.verdict),
            names: slice::from_ref(&first.item.declared.name),
        })?;
        rest = after;
    }
    Ok(())
}

fn is_fault(verdict: &Verdict) -> bool
    ensures { result ≡ is_fault verdict.now }
{
    match verdict {
        Verdict::Fault(_) => true,
        Verdict::Sound(_) => false,
    }
}

/// Adds that the item needs what has the name.
fn push_need<'i>(
    nodes: &mut List<NodeRef<'i>>,
    item: &'i FileItem,
    name: &'i Text,
) -> Result<(), AllocError>
    ensures { OnOk result (nodes_of nodes.new
        ≡ nodes_of nodes.old ++ needs_node item.now name.now ∷ []) }
{
    nodes.push(NodeRef {
        name: name.as_str(),
        is_first: false,
        names: slice::from_ref(&item.declared.name),
    })
}

/// Adds what the item needs.
fn push_needs<'i>(nodes: &mut List<NodeRef<'i>>, item: &'i FileItem) -> Result<(), AllocError>
    ensures { OnOk result (nodes_of nodes.new ≡ nodes_of nodes.old ++ needs_nodes item.now) }
{
    push_need(nodes, item, &item.declared.name)?;
    let mut rest = item.declared.names.as_slice();
    'names: while let [first, after @ ..] = rest {
        push_need(nodes, item, first)?;
        rest = after;
    }
    Ok(())
}

/// The names that are not reached from those of the items at fault, where each item is reached from what it names.
fn unreached_in<'i>(
    alloc: Global,
    items: &[&'i FileItem],
    judged: &[Judged<'i>],
) -> Result<NamesByName<'i>, AllocError>
    ensures { IfOk result (λ unreached. AreUnreached
        (out_nodes (map (λ i. i.now) items.now) judged.now) (get_by_text unreached)) }
{
    let mut nodes = List::new(alloc);
    push_judged(&mut nodes, judged)?;
    let mut rest = items;
    'items: while let [first, after @ ..] = rest {
        push_needs(&mut nodes, first)?;
        rest = after;
    }
    unreached_names(alloc, nodes.as_slice())
}

/// Whether the name is reached, where the map has those that are not.
fn is_reached(unreached: &NamesByName<'_>, name: &Text) -> bool
    ensures { result ≡ is_reached (get_by_text unreached.now) name.now }
{
    !unreached.contains_key(name.as_str())
}

/// The first of the others that is reached, and has not the name.
fn first_needed<'n>(
    unreached: &NamesByName<'_>,
    name: &Text,
    others: &'n [Text],
) -> Option<&'n Text>
    ensures { option_map (λ other. other.now) result
        ≡ find (is_needed (is_reached (get_by_text unreached.now)) name.now) others.now }
{
    let mut rest = others;
    'others: while let [first, after @ ..] = rest {
        if is_reached(unreached, first) && first.as_str() != name.as_str() {
            return Some(first);
        }
        rest = after;
    }
    None
}

// ---- what is told

/// Another of the same.
fn copy_of(alloc: Global, shown: &Option<Shown>) -> Result<Option<Shown>, AllocError>
    ensures { IfOk result (λ copy. copy ≡ shown.now) }
{
    match shown {
        Some(shown) => Ok(Some(Shown {
            line: shown.line,
            column: shown.column,
            text: shown.text.copy(alloc)?,
            marks: shown.marks.copy(alloc)?,
        })),
        None => Ok(None),
    }
}

/// Another of the same.
fn copy_of_help(alloc: Global, help: &Option<Text>) -> Result<Option<Text>, AllocError>
    ensures { IfOk result (λ copy. copy ≡ help.now) }
{
    match help {
        Some(help) => Ok(Some(help.copy(alloc)?)),
        None => Ok(None),
    }
}

/// What is told with this message of what is left out for the fault.
fn told_with(alloc: Global, told: &Told, message: Text) -> Result<Told, AllocError>
    ensures { IfOk result
        (λ line. line ≡ record told.now { label = label; message = message }) }
{
    Ok(Told {
        path: told.path.copy(alloc)?,
        shown: copy_of(alloc, &told.shown)?,
        label: Text::new(alloc, LABEL)?,
        message,
        help: copy_of_help(alloc, &told.help)?,
    })
}

/// What is told of files that are left out, of whose faults this is told.
pub(crate) fn told_of_files(alloc: Global, faults: &[Told]) -> Result<List<Told>, AllocError>
    ensures { IfOk result (λ lines. lines ≡ map told_of_file faults.now) }
{
    let mut lines = List::new(alloc);
    let mut rest = faults;
    'faults: while let [first, after @ ..] = rest {
        let message = first.message.copy(alloc)?;
        lines.push(told_with(alloc, first, message)?)?;
        rest = after;
    }
    Ok(lines)
}

/// What is told of the item at fault.
fn told_faulty(alloc: Global, item: &FileItem, told: &Told) -> Result<Told, AllocError>
    ensures { IfOk result (λ line. line ≡ told_faulty item.now told.now) }
{
    let (name, fault) = (item.declared.name.as_str(), told.message.as_str());
    let message = format!(in alloc; "{name}: {fault}")?;
    told_with(alloc, told, Text::from(message))
}

/// Why an item of the name is left out, which needs the other, where there is one.
fn why(alloc: Global, name: &str, other: Option<&Text>) -> Result<Text, AllocError>
    ensures { IfOk result
        (λ message. message ≡ why name.now (option_map (λ o. o.now) other.entry)) }
{
    let message = match other {
        Some(other) => format!(in alloc; "{name} needs {}", other.as_str())?,
        None => format!(in alloc; "{name}: name {name} is given twice")?,
    };
    Ok(Text::from(message))
}

/// Why the item of the node is left out, where the maps have the names that are not left out, and those not at fault.
fn reason(
    alloc: Global,
    left: &NamesByName<'_>,
    sound: &NamesByName<'_>,
    node: &Node,
) -> Result<Text, AllocError>
    ensures { IfOk result (λ message. message ≡ reason (is_reached (get_by_text left.now))
        (is_reached (get_by_text sound.now)) node.now) }
{
    let other = if is_reached(sound, &node.name) {
        None
    } else {
        first_needed(left, &node.name, node.names.as_slice())
    };
    why(alloc, node.name.as_str(), other)
}

/// What is told with the message of the item without a fault of its own, at its name.
fn told_needing(
    alloc: Global,
    names: &[Text],
    item: &FileItem,
    span: Span,
    message: &str,
) -> Result<Told, AllocError>
    ensures { IfOk result
        (λ line. line ≡ told_needing names.now item.now span message.now) }
{
    let (name, text) = (file_name(names, item.file), item.text.as_str());
    told_in(alloc, name, &item.place, text, span, LABEL, message)
}

/// What is told of the item, which is left out.
fn line(
    alloc: Global,
    names: &[Text],
    left: &NamesByName<'_>,
    sound: &NamesByName<'_>,
    one: &Judged<'_>,
) -> Result<Told, AllocError>
    ensures { IfOk result (λ told. told ≡ line names.now (is_reached (get_by_text left.now))
        (is_reached (get_by_text sound.now)) one.now.item.now one.now.verdict) }
{
    match &one.verdict {
        Verdict::Fault(told) => told_faulty(alloc, one.item, told),
        Verdict::Sound(span) => {
            let message = reason(alloc, left, sound, &one.item.declared)?;
            told_needing(alloc, names, one.item, *span, message.as_str())
        }
    }
}

/// Whether the name is that of one at fault, or else of another that is left out.
fn picks(at_fault: bool, left: &NamesByName<'_>, sound: &NamesByName<'_>, name: &Text) -> bool
    ensures { result ≡ picks at_fault (is_reached (get_by_text left.now) name.now)
        (is_reached (get_by_text sound.now) name.now) }
{
    let is_faulty = is_reached(sound, name);
    if at_fault {
        is_faulty
    } else {
        is_reached(left, name) && !is_faulty
    }
}

/// Adds what is told of the item, if its name is picked.
fn push_line(
    alloc: Global,
    at_fault: bool,
    names: &[Text],
    left: &NamesByName<'_>,
    sound: &NamesByName<'_>,
    one: &Judged<'_>,
    lines: &mut List<Told>,
) -> Result<(), AllocError>
    ensures { OnOk result (lines.new ≡ lines.old ++ line_if (picks at_fault
        (is_reached (get_by_text left.now) one.now.item.now.declared.name)
        (is_reached (get_by_text sound.now) one.now.item.now.declared.name))
        (line names.now (is_reached (get_by_text left.now))
        (is_reached (get_by_text sound.now)) one.now.item.now one.now.verdict)) }
{
    if picks(at_fault, left, sound, &one.item.declared.name) {
        lines.push(line(alloc, names, left, sound, one)?)?;
    }
    Ok(())
}

/// Adds what is told of the items of the names at fault, or else of the others that are left out.
fn push_lines(
    alloc: Global,
    at_fault: bool,
    names: &[Text],
    left: &NamesByName<'_>,
    sound: &NamesByName<'_>,
    judged: &[Judged<'_>],
    lines: &mut List<Told>,
) -> Result<(), AllocError>
    ensures { OnOk result (lines.new ≡ lines.old ++ lines_of at_fault names.now
        (is_reached (get_by_text left.now)) (is_reached (get_by_text sound.now)) judged.now) }
{
    let mut rest = judged;
    'judged: while let [first, after @ ..] = rest {
        push_line(alloc, at_fault, names, left, sound, first, lines)?;
        rest = after;
    }
    Ok(())
}

// ---- a round

/// The items whose names are not reached.
fn kept_of<'i>(
    alloc: Global,
    items: &[&'i FileItem],
    left: &NamesByName<'_>,
) -> Result<List<&'i FileItem>, AllocError>
    ensures { IfOk result (λ kept. map (λ i. i.now) kept
        ≡ kept_by (is_reached (get_by_text left.now)) (map (λ i. i.now) items.now)) }
{
    let mut kept = List::new(alloc);
    let mut rest = items;
    'items: while let [first, after @ ..] = rest {
        if !is_reached(left, &first.declared.name) {
            kept.push(*first)?;
        }
        rest = after;
    }
    Ok(kept)
}

/// The items that are kept where these of them are judged so. Of the others is told why they are left out.
pub(crate) fn leave_out<'i>(
    alloc: Global,
    names: &[Text],
    items: &[&'i FileItem],
    judged: &[Judged<'i>],
    lines: &mut List<Told>,
) -> Result<List<&'i FileItem>, AllocError>
    requires within { AllByRecursion (λ j. IsItemIn (map (λ i. i.now) items.now) j.item.now)
        judged.now }
    ensures round { IfOk result (λ kept. (told : AnyList AnyTold)
        × IsRound names.now (map (λ i. i.now) items.now) judged.now told (map (λ i. i.now) kept)
        × (lines.new ≡ lines.old ++ told)) }
    ensures fewer { IfOk result (λ kept. faulty_names judged.now ≢ []
        → length kept < length items.now) }
{
    let sound = unreached_in(alloc, &[], judged)?;
    let left = unreached_in(alloc, items, judged)?;
    push_lines(alloc, true, names, &left, &sound, judged, lines)?;
    push_lines(alloc, false, names, &left, &sound, judged, lines)?;
    Ok(kept_of(alloc, items, &left)?)
}
