//! What the last name of a path says, and formats.

use diag::DeriveError;
use lexing::lex;
use std::alloc::{AllocError, Global};
use syntax::parse_type;
use tokens::TokenTree;
use type_tree::{KnownFormat, PrimitiveType, SchemaPath, SchemaType, TypeTree};
use words::ident_of;
use written_types::WrittenType;

fn is_unsigned(path: &SchemaPath<'_>) -> bool {
    match PrimitiveType::new(path) {
        Some(primitive) => primitive.ty.is_unsigned(),
        None => false,
    }
}

/// The tests of the type that hold of an unsigned integer, and those that do not.
fn tests(ty: &SchemaType<'_>) -> (bool, bool) {
    let numbers = ty.is_primitive()
        && ty.is_integer()
        && ty.is_unsigned_integer()
        && ty.is_number();
    (
        numbers && is_unsigned(&ty.path),
        ty.is_string() || ty.is_byte() || ty.is_value(),
    )
}

/// Whether the format, of which a copy is equal, is known.
fn is_known(alloc: Global, format: &KnownFormat) -> Result<bool, AllocError> {
    let copy = format.copy(alloc)?;
    Ok(copy == *format && copy.is_known_format())
}

fn of_path(alloc: Global, path: SchemaPath<'_>) -> Result<String, AllocError> {
    let is_known = is_known(alloc, &KnownFormat::from_path(&path))?;
    let nullable = false;
    let (holds, fails) = tests(&SchemaType { path, nullable });
    format!(in alloc; "type {holds} {fails}, format {is_known}")
}

fn of_type(alloc: Global, ty: &WrittenType) -> Result<String, AllocError> {
    match TypeTree::from_type(alloc, ty)?.path {
        Some(path) => of_path(alloc, path),
        None => String::from_str(alloc, "no path"),
    }
}

fn of_number(alloc: Global) -> Result<String, DeriveError> {
    let ty = parse_type(alloc, "u32")?;
    Ok(of_type(alloc, &ty)?)
}

/// The format behind the name and `=`.
fn parsed(alloc: Global, trees: &[TokenTree]) -> Result<KnownFormat, DeriveError> {
    match trees {
        [TokenTree::Token(token), _, value @ ..] => {
            KnownFormat::parse(alloc, value, &ident_of(alloc, token)?)
        }
        _ => Err(DeriveError::Memory),
    }
}

fn is_parsed(alloc: Global) -> Result<bool, DeriveError> {
    let trees = lex(alloc, "format = Int32")?;
    Ok(is_known(alloc, &parsed(alloc, trees.as_slice())?)?)
}

pub(crate) fn told(alloc: Global) -> Result<String, DeriveError> {
    let is_parsed = is_parsed(alloc)?;
    Ok(format!(in alloc; "{} {is_parsed}", of_number(alloc)?)?)
}
