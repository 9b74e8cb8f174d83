//! The types that aliases name.

ghost use Rattle.std.specs.Prelude.{◌≡◌, map, IfOk, OnOk, MatchBool};
ghost use Rattle.written_types.specs.Written.{written_view};
ghost use Rattle.selecting.specs.Lists.{AreThose};
ghost use Rattle.selecting.specs.Selected.{configured_node};
ghost use Rattle.selecting.specs.Types.{is_alone, is_path_to, NamesType, Adds};

use configuration::{Config, last_names};
use diag::DeriveError;
use prepare::FileAlias;
use reaching::Node;
use std::alloc::{AllocError, Global};
use texts::{List, Text};
use type_grammar::{one_type_reading, parse_type};
use written_types::WrittenType;

/// Whether the names are this one alone.
fn is_alone(name: &str, names: &[Text]) -> bool
    ensures { result ≡ is_alone name.now names.now }
{
    match names {
        [one] => one.as_str() == name,
        _ => false,
    }
}

/// Whether the type is a path to a type of the name.
fn is_path_to(alloc: Global, name: &str, ty: &WrittenType) -> Result<bool, AllocError>
    ensures { IfOk result (λ b. b ≡ is_path_to name.now (written_view ty.now)) }
{
    match ty {
        WrittenType::Path(_) => Ok(is_alone(name, last_names(alloc, ty)?.as_slice())),
        _ => Ok(false),
    }
}

/// Whether the alias names a type: the configuration has no alias of its name, and its text is a type, which is another than
/// one of its own name.
fn names_type(alloc: Global, config: &Config, alias: &FileAlias) -> Result<bool, AllocError>
    ensures { IfOk result (λ b. MatchBool b (NamesType config.now alias.now)
        (¬ (NamesType config.now alias.now))) }
{
    // The text is no other type.
    one_type_reading();
    if config
        .alias_places()
        .contains_key(alias.declared.name.as_str())
    {
        return Ok(false);
    }
    match parse_type(alloc, alias.of.as_str()) {
        Ok(ty) => Ok(!is_path_to(alloc, alias.declared.name.as_str(), &ty)?),
        Err(DeriveError::Memory) => Err(AllocError),
        Err(DeriveError::Refused(_)) => Ok(false),
    }
}

/// The aliases of the configuration.
pub(crate) fn configured_nodes(alloc: Global, config: &Config) -> Result<List<Node>, AllocError>
    ensures { IfOk result (λ nodes. nodes ≡ map configured_node config.now.aliases) }
{
    let names = config.alias_names();
    let types = config.alias_types();
    let mut nodes = List::new(alloc);
    for at in 0..names.len() {
        nodes.push(Node {
            name: names[at].copy(alloc)?,
            is_first: false,
            names: last_names(alloc, &types[at])?,
        })?;
    }
    Ok(nodes)
}

/// Those of the aliases that name types.
pub(crate) fn typed<'a>(
    alloc: Global,
    config: &Config,
    aliases: &[&'a FileAlias],
) -> Result<List<&'a FileAlias>, AllocError>
    ensures { IfOk result (λ typed. AreThose (NamesType config.now) (map (λ a. a.now) aliases.now)
        (map (λ a. a.now) typed)) }
{
    let mut typed = List::new(alloc);
    let mut rest = aliases;
    'aliases: while let [first, after @ ..] = rest {
        if names_type(alloc, config, first)? {
            typed.push(*first)?;
        }
        rest = after;
    }
    Ok(typed)
}

/// Puts the aliases, which name types, behind those of the configuration.
pub(crate) fn push_needed(
    alloc: Global,
    config: &mut Config,
    needed: &[&FileAlias],
) -> Result<(), AllocError>
    ensures { OnOk result (Adds config.old (map (λ a. a.now) needed.now) config.new) }
{
    let mut rest = needed;
    'aliases: while let [first, after @ ..] = rest {
        // It was read as a type before, so that only memory can be wanted.
        let Ok(ty) = parse_type(alloc, first.of.as_str()) else {
            return Err(AllocError);
        };
        let _is_new = config.push_alias(alloc, first.declared.name.as_str(), ty)?;
        rest = after;
    }
    Ok(())
}
