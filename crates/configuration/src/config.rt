ghost use Rattle.std.specs.Prelude.{◌≡◌, ◌≤◌, ◌↔◌, ℕ, List as Items, [], ◌∷◌, length, map, IsTrue, IfOk, OnOk, OnErr, IfErr, IsOk, None, cond};
ghost use Rattle.std.specs.BTreeMap.{get_by_text};
ghost use Rattle.diag.specs.Refusal.{Refuses};
ghost use Rattle.texts.specs.Names.{place_in};
ghost use Rattle.written_types.specs.Written.{Written, written_view};
ghost use Rattle.configuration.specs.Configuration.{empty_configuration, with_limit, with_copies, with_collect, with_renames, with_rows, with_only_aliases, with_aliases};
ghost use Rattle.configuration.specs.Aliases.{alias_names, alias_types, bare, AreDeep, IsBadRow, IsTypeText};
ghost use Rattle.configuration.specs.Stored.{aliases_of};

use crate::aliases::{Aliases, aliased_type};
use crate::collect::SchemaCollect;
use crate::range::{OutOfRange, within};
use diag::{DeriveError, RenameRow, RenameTable};
use std::alloc::{AllocError, Global};
use std::collections::BTreeMap;
use std::marker::Model;
use texts::{List, Text};
use written_types::WrittenType;

/// A configuration. Contracts see the record of what is configured.
#[derive(Debug)]
pub struct Config {
    limit: usize,
    copies: usize,
    collect: SchemaCollect,
    renames: RenameTable,
    aliases: Aliases,
}

// by hand, so that a function that drops a configuration makes one call for it
impl Drop for Config {
    fn drop(self) {
        let Config {
            limit: _,
            copies: _,
            collect: _,
            renames: _,
            aliases: _,
        } = self;
    }
}

impl Model for Config {
    ghost use Rattle.std.specs.Prelude.{◌≤◌};
    ghost use Rattle.configuration.specs.Configuration.{Configuration};
    ghost use Rattle.configuration.specs.proved.Code.{coded_configuration};

    ghost Value = { Configuration };

    ghost coded = { coded_configuration };

    ghost view = { λ config. record { limit = config.limit; copies = config.copies; collect = config.collect; renames = config.renames; aliases = config.aliases } };

    ghost invariant = { λ config. (1 ≤ config.limit) × (config.limit ≤ 4096) × (1 ≤ config.copies) × (config.copies ≤ 100000) };
}

impl Config {
    /// The empty configuration: what holds where nothing is configured. It takes no memory.
    pub fn new(alloc: Global) -> Config
        ensures { result ≡ empty_configuration }
    {
        Config {
            limit: 1000,
            copies: 10000,
            collect: SchemaCollect::NonInlined,
            renames: RenameTable::new(alloc),
            aliases: Aliases::new(alloc),
        }
    }

    /// Sets the most instances that may be reachable. A number that is not from 1 to 4096 is refused, and changes nothing.
    pub fn set_limit(&mut self, limit: usize) -> Result<(), OutOfRange>
        ensures ok { OnOk result (self.new ≡ with_limit self.old limit) }
        ensures within { IsOk result ↔ ((1 ≤ limit) × (limit ≤ 4096)) }
        ensures err { OnErr result (self.new ≡ self.old) }
        ensures told { IfErr result (λ e. e ≡ record { value = limit; least = 1; most = 4096 }) }
    {
        within(limit, 1, 4096)?;
        self.limit = limit;
        Ok(())
    }

    /// Sets the most copies of schemas that may be inlined. A number that is not from 1 to 100000 is refused, and changes
    /// nothing.
    pub fn set_copies(&mut self, copies: usize) -> Result<(), OutOfRange>
        ensures ok { OnOk result (self.new ≡ with_copies self.old copies) }
        ensures within { IsOk result ↔ ((1 ≤ copies) × (copies ≤ 100000)) }
        ensures err { OnErr result (self.new ≡ self.old) }
        ensures told { IfErr result
            (λ e. e ≡ record { value = copies; least = 1; most = 100000 }) }
    {
        within(copies, 1, 100_000)?;
        self.copies = copies;
        Ok(())
    }

    /// Sets which instances get a component beside the roots.
    pub fn set_collect(&mut self, collect: SchemaCollect)
        ensures { self.new ≡ with_collect self.old collect }
    {
        self.collect = collect;
    }

    /// Sets what names become by rename rules.
    pub fn set_renames(&mut self, renames: RenameTable)
        ensures { self.new ≡ with_renames self.old renames }
    {
        self.renames = renames;
    }

    /// Puts a row behind those of the configuration. It counts where none of these is for the same name. A refused call
    /// changes nothing.
    pub fn push_row(&mut self, row: RenameRow) -> Result<(), AllocError>
        ensures ok { OnOk result (self.new ≡ with_rows self.old (row ∷ [])) }
        ensures err { OnErr result (self.new ≡ self.old) }
    {
        self.renames.push(row)
    }

    /// Sets the aliases: of each name the type in its place, so the lists have one length. A refused call changes nothing. How
    /// deep the aliases stand in each other is not judged.
    pub fn set_aliases(
        &mut self,
        alloc: Global,
        names: List<Text>,
        types: List<WrittenType>,
    ) -> Result<(), AllocError>
        requires { length names ≡ length types }
        ensures ok { OnOk result (self.new ≡ with_only_aliases self.old (aliases_of names types)) }
        ensures err { OnErr result (self.new ≡ self.old) }
    {
        self.aliases = Aliases::of(alloc, names, types)?;
        Ok(())
    }

    /// Puts an alias behind those of the configuration where its name is new, and tells whether it is. A name that the
    /// configuration has, or a refused call, changes nothing. How deep the aliases stand in each other is not judged.
    pub fn push_alias(
        &mut self,
        alloc: Global,
        name: &str,
        ty: WrittenType,
    ) -> Result<bool, AllocError>
        ensures ok { IfOk result (λ added. self.new ≡ cond added
            (with_aliases self.old (record { name = name.now; of = written_view ty } ∷ []))
            self.old) }
        ensures new { IfOk result (λ added. IsTrue added
            ↔ (place_in name.now (alias_names self.old.aliases) ≡ None)) }
        ensures err { OnErr result (self.new ≡ self.old) }
    {
        self.aliases.push(alloc, name, ty)
    }

    /// Reads the text as a type, and puts an alias for it behind those of the configuration where its name is new, and tells
    /// whether it is. A text that is no type, or nests deeper than 64 levels, is refused with the kind `BadRow`. A name that
    /// the configuration has, or a refused call, changes nothing. How deep the aliases stand in each other is not judged.
    pub fn add_alias(&mut self, alloc: Global, name: &str, of: &str) -> Result<bool, DeriveError>
        ensures ok { IfOk result (λ added. (t : Written) × IsTypeText of.now t
            × (self.new ≡ cond added
            (with_aliases self.old (record { name = name.now; of = t } ∷ [])) self.old)) }
        ensures new { IfOk result (λ added. IsTrue added
            ↔ (place_in name.now (alias_names self.old.aliases) ≡ None)) }
        ensures refused { Refuses result
            (λ e. (IsBadRow e × ((t : Written) → ¬ IsTypeText of.now t))) }
        ensures err { OnErr result (self.new ≡ self.old) }
    {
        let ty = aliased_type(alloc, of)?;
        Ok(self.push_alias(alloc, name, ty)?)
    }

    /// Whether more than 32 aliases stand in each other.
    pub fn deep_aliases(&self, alloc: Global) -> Result<bool, AllocError>
        ensures { IfOk result (λ deep. IsTrue deep ↔ AreDeep self.now.aliases) }
    {
        self.aliases.are_deep(alloc)
    }

    /// The most instances that may be reachable.
    pub fn limit(&self) -> usize
        ensures value { result ≡ self.now.limit }
        ensures least { 1 ≤ result }
        ensures most { result ≤ 4096 }
    {
        self.limit
    }

    /// The most copies of schemas that may be inlined.
    pub fn copies(&self) -> usize
        ensures value { result ≡ self.now.copies }
        ensures least { 1 ≤ result }
        ensures most { result ≤ 100000 }
    {
        self.copies
    }

    /// Which instances get a component beside the roots.
    pub fn collect(&self) -> SchemaCollect
        ensures { result ≡ self.now.collect }
    {
        self.collect
    }

    /// What names become by rename rules.
    pub fn renames(&self) -> &RenameTable
        ensures { result.now ≡ self.now.renames }
    {
        &self.renames
    }

    /// The names of the aliases, in order.
    pub fn alias_names(&self) -> &[Text]
        ensures { result.now ≡ alias_names self.now.aliases }
    {
        self.aliases.names()
    }

    /// The place of each name of an alias.
    pub fn alias_places(&self) -> &BTreeMap<String, usize>
        ensures { (name : Items ℕ)
            → get_by_text result.now name ≡ place_in name (alias_names self.now.aliases) }
    {
        self.aliases.places()
    }

    /// The types that the aliases stand for, in the order of the names.
    pub fn alias_types(&self) -> &[WrittenType]
        ensures { map written_view result.now ≡ alias_types self.now.aliases }
    {
        self.aliases.types()
    }

    /// The same types without what nothing is resolved from: of each path the last segment alone, and of its arguments the
    /// types.
    pub fn bare_types(&self) -> &[WrittenType]
        ensures { map written_view result.now ≡ map bare (alias_types self.now.aliases) }
    {
        self.aliases.bare_types()
    }
}
