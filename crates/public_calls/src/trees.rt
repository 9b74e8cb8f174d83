//! Trees of written types, and aliases.

use configuration::Config;
use diag::DeriveError;
use std::alloc::{AllocError, Global};
use syntax::parse_type;
use type_tree::{SynPathExt, TypeTree};
use written_types::{Path, WrittenType};

/// The tests of a copy of the tree that hold, and how many trees stand below it.
fn tests(alloc: Global, tree: &TypeTree<'_>) -> Result<String, AllocError> {
    let copy = tree.copy(alloc)?;
    let below = match &copy.children {
        Some(children) => children.len(),
        None => 0,
    };
    let (is_option, is_map) = (copy.is_option(), copy.is_map());
    let (is_value, is_object, is) = (copy.is_value(), copy.is_object(), copy.is("HashMap"));
    format!(in alloc; "tree {below} {is_option} {is_map} {is_value} {is_object} {is}")
}

/// How many generic parameters the arguments of the tree's path name.
fn generics(alloc: Global, tree: &TypeTree<'_>) -> Result<usize, AllocError> {
    match tree.get_path_generics(alloc)? {
        Some(generics) => Ok(generics.params.as_slice().len()),
        None => Ok(0),
    }
}

fn of_type(alloc: Global, ty: &WrittenType) -> Result<String, AllocError> {
    let tree = TypeTree::from_type(alloc, ty)?;
    let tests = tests(alloc, &tree)?;
    format!(in alloc; "{tests}, generics {}", generics(alloc, &tree)?)
}

fn is_alias(alloc: Global, config: &Config, ty: &WrittenType) -> Result<bool, DeriveError> {
    let tree = TypeTree::from_type(alloc, ty)?;
    Ok(tree.get_alias_type(alloc, config)?.is_some())
}

/// Whether the path becomes another, its aliases replaced.
fn is_rewritten(alloc: Global, config: &Config, path: &Path) -> Result<bool, DeriveError> {
    Ok(matches!(path.rewrite_path(alloc, config)?, WrittenType::Path(_)))
}

fn of_alias(alloc: Global, config: &Config, ty: &WrittenType) -> Result<String, DeriveError> {
    let is_rewritten = match ty {
        WrittenType::Path(path) => is_rewritten(alloc, config, path)?,
        _ => false,
    };
    let is_alias = is_alias(alloc, config, ty)?;
    Ok(format!(in alloc; "alias {is_alias} {is_rewritten}")?)
}

/// What is said of `Id`, an alias of `u64`.
fn aliased(alloc: Global) -> Result<String, DeriveError> {
    let mut config = Config::new(alloc);
    let _is_new = config.add_alias(alloc, "Id", "u64")?;
    let ty = parse_type(alloc, "Id")?;
    of_alias(alloc, &config, &ty)
}

/// What is said of a map.
fn mapped(alloc: Global) -> Result<String, DeriveError> {
    let ty = parse_type(alloc, "HashMap<K, V>")?;
    Ok(of_type(alloc, &ty)?)
}

pub(crate) fn told(alloc: Global) -> Result<String, DeriveError> {
    let map = mapped(alloc)?;
    let alias = aliased(alloc)?;
    Ok(format!(in alloc; "{map}, {alias}")?)
}
