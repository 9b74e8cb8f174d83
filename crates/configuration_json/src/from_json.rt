ghost use Rattle.std.specs.Prelude.{◌≡◌, ◌≤◌, ◌⊎◌, ◌↔◌, [], IsTrue, IfOk, IfSome, IsSomeAnd, OnOk, MatchOption, codes};
ghost use Rattle.diag.specs.Refusal.{Refuses, IsErrorFor};
ghost use Rattle.serde_json.specs.Find.{get};
ghost use Rattle.serde_json.specs.View.{view as view_of};
ghost use Rattle.configuration.specs.Configuration.{Configuration, with_only_aliases};
ghost use Rattle.configuration.specs.Aliases.{AreDeep, IsBadRow};
ghost use Rattle.configuration_json.specs.Form.{KeepsEmpty, HoldsTexts, LacksType, SaysOthers, SaysAliases, HasForm, IsConfiguration, IsConfigurationText, IsBadConfig, IsAliasDepth, IsRefusedConfiguration, IsRefusedText};

use crate::aliases::aliases_at;
use crate::members::{
    collect_at, holds_texts_at, is_empty_list_at, is_empty_object_at, is_object_of, whole_at,
};
use crate::renames::renames_at;
use crate::value::value_of;
use configuration::{Config, SchemaCollect};
use diag::{DeriveError, Kind, RenameTable};
use serde_json::Value;
use std::alloc::{AllocError, Global};
use texts::Span;
use type_grammar::one_type_reading;

/// The names of a configuration's members.
pub const MEMBERS: [&str; 8] = [
    "version",
    "limit",
    "copies",
    "schema_collect",
    "renames",
    "aliases",
    "schemas",
    "defaults",
];

/// What JSON says. Each impl has clauses of its own.
pub trait FromJson: Sized {
    /// What the JSON value says, or a refusal where it says none.
    fn from_value(alloc: Global, value: &Value) -> Result<Self, DeriveError>;

    /// What the bytes say as a JSON text, or a refusal where they say none.
    fn from_slice(alloc: Global, bytes: &[u8]) -> Result<Self, DeriveError>;
}

impl FromJson for Config {
    /// The configuration that the JSON value says. A value that says none is refused: with the kind `BadConfig` where it
    /// is not of the stated form, else with `BadRow` where an alias is no type, else with `AliasDepth` where more than 32
    /// aliases stand in each other.
    fn from_value(alloc: Global, value: &Value) -> Result<Config, DeriveError>
        ensures configured { IfOk result (IsConfiguration (view_of value.now)) }
        ensures refused { Refuses result
            (λ e. (IsRefusedConfiguration (view_of value.now) e
            × ((c : Configuration) → ¬ IsConfiguration (view_of value.now) c))) }
    {
        let Some(mut config) = others_of(alloc, value)? else {
            return Err(bad_config(alloc));
        };
        // Aliases that are too deep are the only ones that the value says.
        one_type_reading();
        read_aliases(alloc, value, &mut config)?;
        Ok(config)
    }

    /// The configuration that the bytes say as a JSON text. Bytes that are no JSON, or more than 1,048,576, are refused
    /// with the kind `BadConfig`, and others as `from_value` does.
    fn from_slice(alloc: Global, bytes: &[u8]) -> Result<Config, DeriveError>
        ensures configured { IfOk result (IsConfigurationText bytes.now) }
        ensures refused { Refuses result
            (λ e. (IsRefusedText bytes.now e
            × ((c : Configuration) → ¬ IsConfigurationText bytes.now c))) }
    {
        match value_of(alloc, bytes)? {
            Some(value) => Config::from_value(alloc, &value),
            None => Err(bad_config(alloc)),
        }
    }
}

/// Gives the configuration the aliases that the value says. Those of which one is no type are refused with the kind `BadRow`,
/// and those that stand too deep in each other with `AliasDepth`.
fn read_aliases(alloc: Global, value: &Value, config: &mut Config) -> Result<(), DeriveError>
    requires { IfSome (get (codes "aliases") (view_of value.now)) HoldsTexts }
    ensures said { OnOk result (SaysAliases (view_of value.now) config.new.aliases) }
    ensures shallow { OnOk result (¬ AreDeep config.new.aliases) }
    ensures others { OnOk result (config.new ≡ with_only_aliases config.old config.new.aliases) }
    ensures refused { Refuses result (λ e.
        (IsBadRow e × IsSomeAnd (get (codes "aliases") (view_of value.now)) LacksType)
        ⊎ (IsAliasDepth e × SaysAliases (view_of value.now) config.new.aliases
        × AreDeep config.new.aliases)) }
{
    let (names, types) = aliases_at(alloc, value, "aliases")?;
    config.set_aliases(alloc, names, types)?;
    if config.deep_aliases(alloc)? {
        return Err(alias_depth(alloc));
    }
    Ok(())
}

/// The configuration without aliases that the value says, where it is of the stated form.
fn others_of(alloc: Global, value: &Value) -> Result<Option<Config>, AllocError>
    ensures { IfOk result (λ found. MatchOption found (¬ HasForm (view_of value.now))
        (λ config. (SaysOthers (view_of value.now) config
        × IfSome (get (codes "aliases") (view_of value.now)) HoldsTexts))) }
{
    if !is_object_of(value, &MEMBERS) || !keeps_empty(value) || !holds_texts_at(value, "aliases") {
        return Ok(None);
    }
    let Some(_version) = whole_at(value, "version", 1, 1, 1) else {
        return Ok(None);
    };
    let Some(limit) = whole_at(value, "limit", 1, 4096, 1000) else {
        return Ok(None);
    };
    let Some(copies) = whole_at(value, "copies", 1, 100_000, 10_000) else {
        return Ok(None);
    };
    let Some(collect) = collect_at(value, "schema_collect") else {
        return Ok(None);
    };
    let Some(renames) = renames_at(alloc, value, "renames")? else {
        return Ok(None);
    };
    Ok(of_parts(alloc, limit, copies, collect, renames))
}

/// The configuration of these parts, and without aliases, where the numbers may be set.
fn of_parts(
    alloc: Global,
    limit: usize,
    copies: usize,
    collect: SchemaCollect,
    renames: RenameTable,
) -> Option<Config>
    ensures { MatchOption result
        (¬ ((1 ≤ limit) × (limit ≤ 4096) × (1 ≤ copies) × (copies ≤ 100000)))
        (λ config. config ≡ record {
          limit = limit;
          copies = copies;
          collect = collect;
          renames = renames;
          aliases = [];
        }) }
{
    let mut config = Config::new(alloc);
    if config.set_limit(limit).is_err() || config.set_copies(copies).is_err() {
        return None;
    }
    config.set_collect(collect);
    config.set_renames(renames);
    Some(config)
}

/// Whether the members that must be empty are.
fn keeps_empty(value: &Value) -> bool
    ensures { IsTrue result ↔ KeepsEmpty (view_of value.now) }
{
    is_empty_object_at(value, "schemas") && is_empty_list_at(value, "defaults")
}

/// The refusal of what is no configuration, or want of memory.
pub fn bad_config(alloc: Global) -> DeriveError
    ensures { (result ≡ DeriveError.Memory) ⊎ IsBadConfig result }
{
    DeriveError::refusal(
        alloc,
        Kind::BadConfig,
        Span::nowhere(),
        "the configuration is not of the stated form",
    )
}

/// The refusal of aliases that stand too deep in each other, or want of memory.
fn alias_depth(alloc: Global) -> DeriveError
    ensures { IsErrorFor IsAliasDepth result }
{
    DeriveError::refusal(
        alloc,
        Kind::AliasDepth,
        Span::nowhere(),
        "aliases are replaced more than 32 times",
    )
}
