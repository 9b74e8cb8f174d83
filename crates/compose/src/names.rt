//! The names of components, for callers who have declarations.

ghost use Rattle.std.specs.Prelude.{◌≡◌, map, IfOk, IfErr};
ghost use Rattle.open_types.specs.Open.{open_view};
ghost use Rattle.open_types.specs.TypeNames.{type_name};
ghost use Rattle.scopes.specs.Names.{declared_idents, declared_names};
ghost use Rattle.scopes.specs.Texts.{name_at};
ghost use Rattle.shapes.specs.Declarations.{declaration_names};
ghost use Rattle.syntax.specs.Items.{declarations_view};
ghost use Rattle.shapes.specs.Views.{declaration_view};

use diag::DeriveError;
use instances::instance_name;
use open_types::ClosedType;
use shapes::{Annotations, Body, Declaration, Form};
use std::alloc::{AllocError, Global};
use syntax::Declarations;
use texts::{List, Text};
use written_types::Ident;

/// A declaration of the name, of which nothing else is known.
fn named(alloc: Global, ident: &Ident) -> Result<Declaration, AllocError>
    ensures { IfOk result (λ s. (declaration_view s).name ≡ ident.now.text) }
{
    Ok(Declaration {
        name: ident.text.copy(alloc)?,
        parameters: 0,
        annotations: Annotations {
            deprecated: false,
            description: None,
        },
        body: Body::Fields(Form::Unit),
    })
}

/// The declarations by their names alone.
fn by_name(alloc: Global, declarations: &Declarations) -> Result<List<Declaration>, AllocError>
    ensures { IfOk result (λ ss. declaration_names (map declaration_view ss)
        ≡ declared_names (declarations_view declarations.now)) }
{
    let mut resolved = List::new(alloc);
    for declaration in declarations.items.as_slice() {
        resolved.push(named(alloc, &declaration.ident)?)?;
    }
    Ok(resolved)
}

/// The name of the component of a type, which is an instance of these declarations: the identifier of its declaration, and
/// behind it `_` and the name of each argument, as in `Page_Vec_User`. It can only want memory.
pub fn component_name(
    alloc: Global,
    declarations: &Declarations,
    ty: &ClosedType,
) -> Result<Text, DeriveError>
    ensures named { IfOk result (λ name. name
        ≡ type_name (name_at (declared_idents (declarations_view declarations.now)))
        (open_view ty.now)) }
    ensures memory { IfErr result (λ e. e ≡ DeriveError.Memory) }
{
    let resolved = by_name(alloc, declarations)?;
    let name = instance_name(alloc, resolved.as_slice(), ty.as_open())?;
    Ok(name)
}
