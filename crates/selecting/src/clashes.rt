//! Aliases whose names something else has, too, and aliases that are replaced too often.

ghost use Rattle.std.specs.Prelude.{◌≡◌, ◌++◌, ℕ, List as AnyList, is_some, map, option_map, IfOk, OnOk};
ghost use Rattle.std.specs.BTreeMap.{get_by_text};
ghost use Rattle.std.specs.List.{filter};
ghost use Rattle.texts.specs.Names.{place_in};
ghost use Rattle.scopes.specs.Names.{declared_names, texts};
ghost use Rattle.syntax.specs.Items.{declarations_view};
ghost use Rattle.selecting.specs.Standing.{alias_names};
ghost use Rattle.selecting.specs.Clashes.{parameter_names, is_other, finds_one, clashes_by, told_alias, told_clash, clash_lines, told_first, told_deep};

use crate::standing::alias_line;
use configuration::name_places;
use gathering::{file_name, told_plainly};
use prepare::FileAlias;
use scopes::{ParameterKind, parameters_of};
use std::alloc::{AllocError, Global};
use std::collections::BTreeMap;
use syntax::{Declarations, Ident};
use telling::{Told, told_in};
use texts::{List, Span, Text};

/// Adds the names.
fn push_texts(alloc: Global, names: &mut List<Text>, idents: &[Ident]) -> Result<(), AllocError>
    ensures { OnOk result (names.new ≡ names.old ++ texts idents.now) }
{
    let mut rest = idents;
    'idents: while let [first, after @ ..] = rest {
        names.push(first.text.copy(alloc)?)?;
        rest = after;
    }
    Ok(())
}

/// The names of the declarations.
fn declared_names(alloc: Global, declarations: &Declarations) -> Result<List<Text>, AllocError>
    ensures { IfOk result (λ names. names ≡ declared_names (declarations_view declarations.now)) }
{
    let mut names = List::new(alloc);
    let mut rest = declarations.items.as_slice();
    'items: while let [first, after @ ..] = rest {
        names.push(first.ident.text.copy(alloc)?)?;
        rest = after;
    }
    Ok(names)
}

/// The names of the type parameters of the declarations.
fn parameter_names(alloc: Global, declarations: &Declarations) -> Result<List<Text>, AllocError>
    ensures { IfOk result (λ names. names ≡ parameter_names (declarations_view declarations.now)) }
{
    let mut names = List::new(alloc);
    let mut rest = declarations.items.as_slice();
    'items: while let [first, after @ ..] = rest {
        let params = first.generics.params.as_slice();
        let parameters = parameters_of(alloc, ParameterKind::Types, params)?;
        push_texts(alloc, &mut names, parameters.as_slice())?;
        rest = after;
    }
    Ok(names)
}

/// The names of the aliases.
fn alias_names(alloc: Global, aliases: &[&FileAlias]) -> Result<List<Text>, AllocError>
    ensures { IfOk result (λ names. names ≡ alias_names (map (λ a. a.now) aliases.now)) }
{
    let mut names = List::new(alloc);
    let mut rest = aliases;
    'aliases: while let [first, after @ ..] = rest {
        names.push(first.declared.name.copy(alloc)?)?;
        rest = after;
    }
    Ok(names)
}

/// Whether the alias at the place, where there is one, has another type.
fn is_other(aliases: &[&FileAlias], of: &str, at: Option<&usize>) -> bool
    ensures { result ≡ is_other (map (λ a. a.now) aliases.now) of.now
        (option_map (λ at. at.now) at.entry) }
{
    match at {
        Some(at) => match aliases.get(*at) {
            Some(first) => first.of.as_str() != of,
            None => !of.is_empty(),
        },
        None => false,
    }
}

/// Whether the map has the name.
fn has(found: &BTreeMap<String, usize>, name: &str) -> bool
    ensures { result ≡ is_some (get_by_text found.now name.now) }
{
    found.contains_key(name)
}

/// Whether the map has one of the names.
fn finds_one(found: &BTreeMap<String, usize>, names: &[Text]) -> bool
    ensures { result ≡ finds_one (get_by_text found.now) names.now }
{
    let mut rest = names;
    'names: while let [first, after @ ..] = rest {
        if has(found, first.as_str()) {
            return true;
        }
        rest = after;
    }
    false
}

/// The names of declarations, of their type parameters, and of aliases, each with its place.
#[derive(Drop)]
struct Names {
    declared: BTreeMap<String, usize>,
    parameters: BTreeMap<String, usize>,
    aliases: BTreeMap<String, usize>,
}

/// Whether something else has the alias's name, or a name in its type, too, where the maps have those that there are.
fn clashes(aliases: &[&FileAlias], names: &Names, alias: &FileAlias) -> bool
    ensures { result ≡ clashes_by (get_by_text names.now.declared)
        (get_by_text names.now.parameters) (get_by_text names.now.aliases)
        (map (λ a. a.now) aliases.now) alias.now }
{
    let name = alias.declared.name.as_str();
    if has(&names.declared, name) || has(&names.parameters, name) {
        return true;
    }
    finds_one(&names.parameters, alias.declared.names.as_slice())
        || is_other(aliases, alias.of.as_str(), names.aliases.get(name))
}

/// What is told of the alias, at its own text.
fn told_alias(
    alloc: Global,
    names: &[Text],
    alias: &FileAlias,
    label: &str,
    message: &str,
    help: Text,
) -> Result<Told, AllocError>
    ensures { IfOk result (λ told. told
        ≡ told_alias names.now alias.now label.now message.now help) }
{
    let text = alias.text.as_str();
    let whole = Span::new(0, text.len());
    let name = file_name(names, alias.file);
    let mut told = told_in(alloc, name, &alias.place, text, whole, label, message)?;
    told.help = Some(help);
    Ok(told)
}

/// What is told of the alias whose name something else has, too.
fn told_clash(alloc: Global, names: &[Text], alias: &FileAlias) -> Result<Told, AllocError>
    ensures { IfOk result (λ told. told ≡ told_clash names.now alias.now) }
{
    let line = alias_line(alloc, names, alias)?;
    let help = format!(in alloc;
        "another alias, a declaration or a type parameter has this name, too, or a type parameter one in its type; leave this one out by --exclude {}",
        line.as_str()
    )?;
    let message = format!(in alloc; "name {} is given twice", alias.declared.name.as_str())?;
    let help = Text::from(help);
    told_alias(alloc, names, alias, "DuplicateName", message.as_str(), help)
}

/// The aliases that clash, where the maps have the names that there are.
fn clashing<'a>(
    alloc: Global,
    aliases: &[&'a FileAlias],
    names: &Names,
) -> Result<List<&'a FileAlias>, AllocError>
    ensures { IfOk result (λ found. map (λ a. a.now) found ≡ filter (clashes_by
        (get_by_text names.now.declared) (get_by_text names.now.parameters)
        (get_by_text names.now.aliases) (map (λ a. a.now) aliases.now))
        (map (λ a. a.now) aliases.now)) }
{
    let mut found = List::new(alloc);
    let mut rest = aliases;
    'aliases: while let [first, after @ ..] = rest {
        if clashes(aliases, names, first) {
            found.push(*first)?;
        }
        rest = after;
    }
    Ok(found)
}

/// What is told of these aliases.
fn told_clashes(
    alloc: Global,
    paths: &[Text],
    aliases: &[&FileAlias],
) -> Result<List<Told>, AllocError>
    ensures { IfOk result (λ lines. lines
        ≡ map (told_clash paths.now) (map (λ a. a.now) aliases.now)) }
{
    let mut lines = List::new(alloc);
    let mut rest = aliases;
    'aliases: while let [first, after @ ..] = rest {
        lines.push(told_clash(alloc, paths, first)?)?;
        rest = after;
    }
    Ok(lines)
}

/// The names of the declarations, of their type parameters, and of the aliases.
fn names_of(
    alloc: Global,
    declarations: &Declarations,
    aliases: &[&FileAlias],
) -> Result<Names, AllocError>
    ensures declared { IfOk result (λ names. (name : AnyList ℕ) → get_by_text names.declared name
        ≡ place_in name (declared_names (declarations_view declarations.now))) }
    ensures parameters { IfOk result (λ names. (name : AnyList ℕ)
        → get_by_text names.parameters name
        ≡ place_in name (parameter_names (declarations_view declarations.now))) }
    ensures aliases { IfOk result (λ names. (name : AnyList ℕ) → get_by_text names.aliases name
        ≡ place_in name (alias_names (map (λ a. a.now) aliases.now))) }
{
    let declared = declared_names(alloc, declarations)?;
    let parameters = parameter_names(alloc, declarations)?;
    let named = alias_names(alloc, aliases)?;
    Ok(Names {
        declared: name_places(alloc, declared.as_slice())?,
        parameters: name_places(alloc, parameters.as_slice())?,
        aliases: name_places(alloc, named.as_slice())?,
    })
}

/// What is told of the aliases whose names a declaration, a type parameter or an alias of another type has, too, or of whose
/// types a type parameter has a name.
pub fn clash_lines(
    alloc: Global,
    paths: &[Text],
    declarations: &Declarations,
    aliases: &[&FileAlias],
) -> Result<List<Told>, AllocError>
    ensures { IfOk result (λ lines. lines ≡ clash_lines paths.now
        (declarations_view declarations.now) (map (λ a. a.now) aliases.now)) }
{
    let names = names_of(alloc, declarations, aliases)?;
    let found = clashing(alloc, aliases, &names)?;
    told_clashes(alloc, paths, found.as_slice())
}

/// What is told at the alias, which is the first that is named, where some are replaced too often.
fn told_first(alloc: Global, names: &[Text], alias: &FileAlias) -> Result<Told, AllocError>
    ensures { IfOk result (λ told. told ≡ told_first names.now alias.now) }
{
    let line = alias_line(alloc, names, alias)?;
    let help = format!(in alloc;
        "this alias, or another that is named, stands in itself or too deep; leave that one out by --exclude, this one by {}",
        line.as_str()
    )?;
    let message = "aliases are replaced more than 32 times";
    told_alias(alloc, names, alias, "AliasDepth", message, Text::from(help))
}

/// What is told of the aliases, of which some are replaced more than 32 times: at the first that is named.
pub fn told_deep(alloc: Global, names: &[Text], aliases: &[&FileAlias]) -> Result<Told, AllocError>
    ensures { IfOk result (λ told. told ≡ told_deep names.now (map (λ a. a.now) aliases.now)) }
{
    match aliases {
        [first, ..] => told_first(alloc, names, first),
        [] => {
            let message = "aliases are replaced more than 32 times";
            told_plainly(alloc, "", "AliasDepth", message)
        }
    }
}
