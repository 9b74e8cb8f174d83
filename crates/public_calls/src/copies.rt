//! Copies, which are equal, and single words.

use configuration::{Config, SchemaCollect};
use diag::DeriveError;
use lexing::lex;
use serde_rules::SerdeEnumRepr;
use std::alloc::{AllocError, Global};
use syntax::parse_type;
use texts::Text;
use tokens::{Cursor, TokenTree};
use words::lifetime_at;
use written_types::{Path, WrittenType};

fn path_copies(alloc: Global, path: &Path) -> Result<bool, AllocError> {
    Ok(path.copy(alloc)? == *path)
}

fn type_copies(alloc: Global, ty: &WrittenType) -> Result<bool, AllocError> {
    Ok(ty.copy(alloc)? == *ty)
}

/// Whether copies of a path as a path and as a type are equal to it.
fn written_copies(alloc: Global) -> Result<bool, DeriveError> {
    let ty = parse_type(alloc, "a::B<C>")?;
    match &ty {
        WrittenType::Path(path) => Ok(path_copies(alloc, path)? && type_copies(alloc, &ty)?),
        _ => Ok(false),
    }
}

fn tree_copies(alloc: Global, tree: &TokenTree) -> Result<bool, AllocError> {
    Ok(tree.copy(alloc)? == *tree)
}

/// Whether a copy of the first tree is equal, and whether a lifetime stands in front.
fn first_tree(alloc: Global, trees: &[TokenTree]) -> Result<bool, AllocError> {
    match Cursor::new(trees).token_tree() {
        Some((tree, _)) => Ok(tree_copies(alloc, tree)? && lifetime_at(trees).is_ok()),
        None => Ok(false),
    }
}

fn token_copies(alloc: Global) -> Result<bool, DeriveError> {
    let trees = lex(alloc, "'a b")?;
    Ok(first_tree(alloc, trees.as_slice())?)
}

fn representation_copies(alloc: Global) -> Result<bool, AllocError> {
    let of = SerdeEnumRepr::InternallyTagged {
        tag: Text::new(alloc, "t")?,
    };
    Ok(of.copy(alloc)? == of)
}

/// Whether instances that stand inline alone get no component where no configuration is given.
fn collects_few(alloc: Global) -> bool {
    matches!(Config::new(alloc).collect(), SchemaCollect::NonInlined)
}

pub(crate) fn told(alloc: Global) -> Result<String, DeriveError> {
    let (written, tokens) = (written_copies(alloc)?, token_copies(alloc)?);
    let representation = representation_copies(alloc)?;
    let collects = collects_few(alloc);
    Ok(format!(in alloc; "copies {written} {tokens} {representation}, collect {collects}")?)
}
