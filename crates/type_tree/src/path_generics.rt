//! The generic parameters that the arguments of a tree's path name.

ghost use Rattle.std.specs.Prelude.{◌≡◌, Some, None, IfOk, MatchOption, map, option_map};
ghost use Rattle.written_types.specs.Written.{written_view, path_view, segment_view, argument_view, arguments_view};
ghost use Rattle.syntax.specs.Items.{parameter_view, generics_view};
ghost use Rattle.type_tree.specs.TypeTrees.{tree_view, schema_path_view};
ghost use Rattle.type_tree.specs.PathGenerics.{last_ident, type_ident, argument_parameter, argument_parameters, segment_parameters, path_parameters, path_generics};

use crate::path::{SchemaPath, last_of};
use crate::tree::TypeTree;
use std::alloc::{AllocError, Global};
use syntax::{GenericParam, Generics};
use texts::List;
use written_types::{GenericArgument, Ident, Path, PathSegment, WrittenType};

impl<'t> TypeTree<'t> {
    /// The lifetimes in the last argument list of the tree's path, and the last identifiers of the types that are paths
    /// or references to paths, in order. An array or a slice has none. None where the tree has no path: exactly for a
    /// tuple and the unit type.
    pub fn get_path_generics(&self, alloc: Global) -> Result<Option<Generics>, AllocError>
        ensures { IfOk result (λ found. option_map generics_view found
            ≡ path_generics (tree_view self.now)) }
    {
        match &self.path {
            None => Ok(None),
            Some(path) => {
                let params = path_parameters(alloc, path)?;
                Ok(Some(Generics { params }))
            }
        }
    }
}

/// The parameters that the path's arguments name.
fn path_parameters(alloc: Global, path: &SchemaPath<'_>) -> Result<List<GenericParam>, AllocError>
    ensures { IfOk result (λ params. map parameter_view params
        ≡ path_parameters (schema_path_view path.now)) }
{
    match path {
        SchemaPath::Array => Ok(List::new(alloc)),
        SchemaPath::Written(path) => match last_of(path.segments.as_slice()) {
            None => Ok(List::new(alloc)),
            Some(segment) => segment_parameters(alloc, segment),
        },
    }
}

/// The parameters that the segment's arguments name.
fn segment_parameters(
    alloc: Global,
    segment: &PathSegment,
) -> Result<List<GenericParam>, AllocError>
    ensures { IfOk result (λ params. map parameter_view params
        ≡ segment_parameters (Some (segment_view segment.now))) }
{
    match &segment.arguments {
        None => Ok(List::new(alloc)),
        Some(arguments) => argument_parameters(alloc, arguments.as_slice()),
    }
}

/// The parameters that the arguments name, in order.
fn argument_parameters(
    alloc: Global,
    arguments: &[GenericArgument],
) -> Result<List<GenericParam>, AllocError>
    ensures { IfOk result (λ params. map parameter_view params
        ≡ argument_parameters (arguments_view arguments.now)) }
{
    let mut params = List::new(alloc);
    for argument in arguments {
        if let Some(param) = argument_parameter(alloc, argument)? {
            params.push(param)?;
        }
    }
    Ok(params)
}

/// The parameter that the argument names. A constant names none, and a type one where it has an identifier.
fn argument_parameter(
    alloc: Global,
    argument: &GenericArgument,
) -> Result<Option<GenericParam>, AllocError>
    ensures { IfOk result (λ param. option_map parameter_view param
        ≡ argument_parameter (argument_view argument.now)) }
{
    match argument {
        GenericArgument::Lifetime(ident) => Ok(Some(GenericParam::Lifetime(ident.copy(alloc)?))),
        GenericArgument::Constant(_) => Ok(None),
        GenericArgument::Ty(ty) => match type_ident(ty) {
            None => Ok(None),
            Some(ident) => Ok(Some(GenericParam::Ty(ident.copy(alloc)?))),
        },
    }
}

/// The last identifier of a path, also behind references.
fn type_ident(ty: &WrittenType) -> Option<&Ident>
    ensures { MatchOption result (type_ident (written_view ty.now) ≡ None)
        (λ ident. type_ident (written_view ty.now) ≡ Some ident.now) }
{
    match ty {
        WrittenType::Path(path) => last_ident(path),
        WrittenType::Reference(of) => type_ident(of),
        WrittenType::Tuple(_, _)
        | WrittenType::Slice(_, _)
        | WrittenType::Array(_, _)
        | WrittenType::TraitObject(_, _) => None,
    }
}

/// The last identifier of a path, which is never empty.
fn last_ident(path: &Path) -> Option<&Ident>
    ensures { MatchOption result (last_ident (path_view path.now) ≡ None)
        (λ ident. last_ident (path_view path.now) ≡ Some ident.now) }
{
    match last_of(path.segments.as_slice()) {
        None => None,
        Some(segment) => Some(&segment.ident),
    }
}
