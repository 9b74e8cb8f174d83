//! What the aliases of a configuration stand for.

ghost use Rattle.std.specs.Prelude.{◌≡◌, option_map, IfOk};
ghost use Rattle.written_types.specs.Written.{written_view};
ghost use Rattle.type_tree.specs.TypeTrees.{tree_view, schema_path_view};
ghost use Rattle.type_tree.specs.Aliases.{alias_named, path_alias, tree_alias};

use crate::path::{SchemaPath, last_of, name_of_segment};
use crate::tree::TypeTree;
use configuration::Config;
use std::alloc::{AllocError, Global};
use written_types::WrittenType;

impl<'t> TypeTree<'t> {
    /// The type, as it was read, that the last segment of the tree's path stands for as an alias of the configuration;
    /// names in it that are aliases stay. None where the tree has no written path, or the segment's name is no alias.
    pub fn get_alias_type(
        &self,
        alloc: Global,
        config: &Config,
    ) -> Result<Option<WrittenType>, AllocError>
        ensures { IfOk result (λ found. option_map written_view found
            ≡ tree_alias config.now.aliases (tree_view self.now)) }
    {
        let Some(path) = &self.path else {
            return Ok(None);
        };
        match path_alias(config, path) {
            None => Ok(None),
            Some(ty) => Ok(Some(ty.copy(alloc)?)),
        }
    }
}

/// The type that the path's last segment stands for as an alias.
fn path_alias<'c>(config: &'c Config, path: &SchemaPath<'_>) -> Option<&'c WrittenType>
    ensures { option_map (λ ty. written_view ty.now) result
        ≡ path_alias config.now.aliases (schema_path_view path.now) }
{
    match path {
        SchemaPath::Array => None,
        SchemaPath::Written(path) => match last_of(path.segments.as_slice()) {
            None => None,
            Some(segment) => alias_type(config, name_of_segment(segment)),
        },
    }
}

/// The type that the name stands for as an alias.
pub(crate) fn alias_type<'c>(config: &'c Config, name: &str) -> Option<&'c WrittenType>
    ensures { option_map (λ ty. written_view ty.now) result
        ≡ alias_named config.now.aliases name.now }
{
    match config.alias_places().get(name) {
        Some(place) => match config.alias_types().get(*place) {
            Some(ty) => Some(ty),
            None => None,
        },
        None => None,
    }
}
