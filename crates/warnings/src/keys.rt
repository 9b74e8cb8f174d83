//! What is said of types that stand as keys: those of maps, and arguments of a declared type at type parameters that its
//! declaration uses as keys. It does so where a map in the type of one of its own fields, at any depth, has a key that
//! stands for the parameter, by its name; fields and variants that serde skips do not count. A parameter that is only handed
//! on to another declared type is not looked for.

ghost use Rattle.std.specs.Prelude.{◌≡◌, ◌++◌, map, option_map, IfOk, OnOk};
ghost use Rattle.std.specs.List.{flat_map};
ghost use Rattle.texts.specs.Names.{is_in};
ghost use Rattle.written_types.specs.Written.{written_view, segment_view, argument_view, arguments_view};
ghost use Rattle.syntax.specs.Items.{declaration_view};
ghost use Rattle.warnings.specs.Rules.{warning_view};
ghost use Rattle.warnings.specs.Through.{declarations_of};
ghost use Rattle.warnings.specs.Applications.{applications_view};
ghost use Rattle.warnings.specs.Keys.{names_view, map_key, key_name, key_names, key_at, left_behind, keys_at, keys_of_declared, key_warnings, application_warnings, warnings_of_keys};

use crate::applications::{applications_of, push_in_type};
use crate::through::{Role, argument_of, declared, last_name, through};
use crate::types::{is_map, is_number_key, span_of};
use crate::warning::Warning;
use scopes::{ParameterKind, Places, parameters_of};
use std::alloc::{AllocError, Global};
use syntax::Declaration;
use texts::List;
use written_types::{GenericArgument, Ident, PathSegment, WrittenType};

/// What is said of keys that stand for numbers or truth values.
pub const NO_TEXTS_AS_KEYS: &str = "serde writes these keys as texts; the schema refuses each name";

/// The key, where the application is that of a map.
fn map_key(application: &PathSegment) -> Option<&WrittenType>
    ensures { option_map (λ t. written_view t.now) result ≡ map_key (segment_view application.now) }
{
    if is_map(application.ident.text.as_str()) {
        argument_of(application)
    } else {
        None
    }
}

/// The name that the key stands for, where the application is that of a map.
fn key_name<'a>(places: &'a Places<'_>, application: &'a PathSegment) -> Option<&'a str>
    ensures { option_map (λ name. name.now) result
        ≡ key_name (declarations_of places.now) (segment_view application.now) }
{
    last_name(through(Role::Key, places, map_key(application)?))
}

/// The names that the keys of the maps in the declaration stand for.
fn key_names<'a>(
    alloc: Global,
    places: &'a Places<'_>,
    declaration: &'a Declaration,
) -> Result<List<&'a str>, AllocError>
    ensures { IfOk result (λ names. names_view names
        ≡ key_names (declarations_of places.now) (declaration_view declaration.now)) }
{
    let applications = applications_of(alloc, &declaration.body)?;
    let mut names = List::new(alloc);
    for application in applications.as_slice() {
        if let Some(name) = key_name(places, application) {
            names.push(name)?;
        }
    }
    Ok(names)
}

/// Whether the name is one of these.
fn is_in(name: &str, names: &[&str]) -> bool
    ensures { result ≡ is_in name.now (names_view names.now) }
{
    for other in names {
        if name == *other {
            return true;
        }
    }
    false
}

/// Adds what is said of the key.
fn push_key(
    warnings: &mut List<Warning>,
    places: &Places<'_>,
    key: &WrittenType,
) -> Result<(), AllocError>
    ensures { OnOk result (map warning_view warnings.new ≡ map warning_view warnings.old
        ++ key_warnings (declarations_of places.now) (written_view key.now)) }
{
    if is_number_key(places, key) {
        warnings.push(Warning {
            span: span_of(key),
            message: NO_TEXTS_AS_KEYS,
        })
    } else {
        Ok(())
    }
}

/// Adds what is said of the argument, if the first of the parameters has one of the names.
fn push_key_at(
    warnings: &mut List<Warning>,
    places: &Places<'_>,
    names: &[&str],
    parameters: &[Ident],
    argument: &GenericArgument,
) -> Result<(), AllocError>
    ensures { OnOk result (map warning_view warnings.new ≡ map warning_view warnings.old
        ++ flat_map (key_warnings (declarations_of places.now))
        (key_at (names_view names.now) parameters.now (argument_view argument.now))) }
{
    match (argument, parameters) {
        (GenericArgument::Ty(ty), [first, ..]) if is_in(first.text.as_str(), names) => {
            push_key(warnings, places, ty)
        }
        _ => Ok(()),
    }
}

/// The parameters behind that of the argument. A lifetime is at none of them.
fn left_behind<'a>(parameters: &'a [Ident], argument: &GenericArgument) -> &'a [Ident]
    ensures { result.now ≡ left_behind parameters.now (argument_view argument.now) }
{
    match (argument, parameters) {
        (GenericArgument::Lifetime(_), _) | (_, []) => parameters,
        (_, [_, left @ ..]) => left,
    }
}

/// Adds what is said of the arguments at parameters of these names.
fn push_keys_at(
    warnings: &mut List<Warning>,
    places: &Places<'_>,
    names: &[&str],
    parameters: &[Ident],
    arguments: &[GenericArgument],
) -> Result<(), AllocError>
    ensures { OnOk result (map warning_view warnings.new ≡ map warning_view warnings.old
        ++ flat_map (key_warnings (declarations_of places.now))
        (keys_at (names_view names.now) parameters.now (arguments_view arguments.now))) }
{
    let mut left = parameters;
    for argument in arguments {
        push_key_at(warnings, places, names, left, argument)?;
        left = left_behind(left, argument);
    }
    Ok(())
}

/// Adds what is said of the arguments at parameters of the declaration that it uses as keys.
fn push_keys_of_declared(
    alloc: Global,
    warnings: &mut List<Warning>,
    places: &Places<'_>,
    declaration: &Declaration,
    arguments: &[GenericArgument],
) -> Result<(), AllocError>
    ensures { OnOk result (map warning_view warnings.new ≡ map warning_view warnings.old
        ++ flat_map (key_warnings (declarations_of places.now))
        (keys_of_declared (declarations_of places.now) (arguments_view arguments.now)
        (declaration_view declaration.now))) }
{
    let names = key_names(alloc, places, declaration)?;
    let params = declaration.generics.params.as_slice();
    let parameters = parameters_of(alloc, ParameterKind::TypesAndConstants, params)?;
    push_keys_at(
        warnings,
        places,
        names.as_slice(),
        parameters.as_slice(),
        arguments,
    )
}

/// Adds what is said of the arguments of the application that stand as keys.
fn push_application(
    alloc: Global,
    warnings: &mut List<Warning>,
    places: &Places<'_>,
    application: &PathSegment,
) -> Result<(), AllocError>
    ensures { OnOk result (map warning_view warnings.new ≡ map warning_view warnings.old
        ++ application_warnings (declarations_of places.now) (segment_view application.now)) }
{
    let Some(arguments) = &application.arguments else {
        return Ok(());
    };
    if let Some(key) = map_key(application) {
        return push_key(warnings, places, key);
    }
    match declared(places, &application.ident) {
        Some(declaration) => push_keys_of_declared(
            alloc,
            warnings,
            places,
            declaration,
            arguments.as_slice(),
        ),
        None => Ok(()),
    }
}

/// Adds what is said of the arguments of the applications that stand as keys.
pub(crate) fn push_applications(
    alloc: Global,
    warnings: &mut List<Warning>,
    places: &Places<'_>,
    applications: &[&PathSegment],
) -> Result<(), AllocError>
    ensures { OnOk result (map warning_view warnings.new ≡ map warning_view warnings.old
        ++ flat_map (application_warnings (declarations_of places.now))
        (applications_view applications.now)) }
{
    for application in applications {
        push_application(alloc, warnings, places, application)?;
    }
    Ok(())
}

/// Adds what is said of the types that stand as keys in the type, at any depth.
pub(crate) fn push_keys(
    alloc: Global,
    warnings: &mut List<Warning>,
    places: &Places<'_>,
    ty: &WrittenType,
) -> Result<(), AllocError>
    ensures { OnOk result (map warning_view warnings.new ≡ map warning_view warnings.old
        ++ warnings_of_keys (declarations_of places.now) (written_view ty.now)) }
{
    let mut applications = List::new(alloc);
    push_in_type(&mut applications, ty)?;
    push_applications(alloc, warnings, places, applications.as_slice())
}
