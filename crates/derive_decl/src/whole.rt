//! All declarations of a source.

ghost use Rattle.std.specs.Prelude.{◌≡◌, map, IfOk, None, Some};
ghost use Rattle.diag.specs.Refusal.{Refuses};
ghost use Rattle.syntax.specs.Items.{body_view, declaration_view, declarations_view};
ghost use Rattle.syntax.specs.Named.{AreNamed, IsNamedBody};
ghost use Rattle.scopes.specs.Names.{declared_names};
ghost use Rattle.shapes.specs.Declarations.{declaration_names, AreFitting};
ghost use Rattle.shapes.specs.Views.{body_view as resolved_body_view, declaration_view as resolved_view};
ghost use Rattle.derive_decl.specs.Attributed.{attributes_in, first_other};
ghost use Rattle.derive_decl.specs.Resolved.{declaration_from, declaration_of, resolved_of};
ghost use Rattle.derive_decl.specs.Faults.{AreDerivable, IsFaultyDeclaration, IsFaultyItem, AreFaultyItems};
ghost use Rattle.derive_decl.specs.Views.{attributes_of, known};
ghost use Rattle.derive_decl.specs.Whole.{resolved_declarations};

use crate::annotations::annotations_of;
use crate::bodies::{body_of, resolve_body};
use crate::parameters::distinct_parameters;
use crate::root::Root;
use configuration::Config;
use diag::DeriveError;
use scopes::{Container, Places, Scope};
use shapes::{Body, Declaration as Resolved};
use std::alloc::{AllocError, Global};
use syntax::{Body as Written, Declaration};
use texts::List;

/// The declaration of the root with this body.
fn with_body(alloc: Global, root: &Root<'_>, body: Body) -> Result<Resolved, AllocError>
    ensures { IfOk result
        (λ s. resolved_view s ≡ declaration_from (known root.now.container.now)
        (attributes_of root.now) root.now.ident.now (resolved_body_view body)) }
{
    Ok(Resolved {
        name: root.ident.text.copy(alloc)?,
        parameters: root.container.scope.count,
        annotations: annotations_of(alloc, root.attributes)?,
        body,
    })
}

/// What the declaration of this body is resolved to, where its generic parameters are not looked at.
///
/// A refusal is of kind `Syntax`, at the first attribute of the declaration, its fields or its variants from which nothing is
/// derived. Else it is `UnknownType`, `Arity`, `BadArgument` or `TypeSize`, for the type of a field; or `Arity`, at the name
/// of a declaration or variant whose form is unnamed fields without a field. Of an enum, and of a struct or a variant with
/// named fields, it may be `SerdeTag` or `BadValue`, for serde's attributes of it; or, of the fields or variants that are
/// kept, `MissingRow`, at an identifier whose name is that of a row that there is not; `DuplicateName`, at the first
/// identifier whose name stands before it; or `FlattenedMaps`, at the second flattened field whose type is a map. Of a
/// variant that a tag tells it may be `TaggedTuple`, at the variant, where a tag alone should stand among several unnamed
/// fields, in a tuple or in the unit; or `DuplicateName`, at its identifier, where the tag has the name of what stands
/// beside it.
pub fn resolve_declaration(
    alloc: Global,
    root: &Root<'_>,
    body: &Written,
) -> Result<Resolved, DeriveError>
    requires { IsNamedBody (body_view body.now) }
    ensures resolved { IfOk result
        (λ s. declaration_of (known root.now.container.now) (attributes_of root.now)
        root.now.ident.now (body_view body.now) ≡ Some (resolved_view s)) }
    ensures refused { Refuses result
        (IsFaultyDeclaration (known root.now.container.now) (attributes_of root.now)
        root.now.ident.now (body_view body.now)) }
{
    let body = resolve_body(alloc, root, body)?;
    Ok(with_body(alloc, root, body)?)
}

/// What the declaration is resolved to, of which each attribute is one that something is derived from.
fn resolved_of(
    alloc: Global,
    container: &Container<'_>,
    declaration: &Declaration,
) -> Result<Resolved, DeriveError>
    requires named { IsNamedBody (declaration_view declaration.now).body }
    requires derivable { first_other (attributes_in (declaration_view declaration.now)) ≡ None }
    ensures resolved { IfOk result
        (λ s. resolved_of (known container.now) (declaration_view declaration.now)
        ≡ Some (resolved_view s)) }
    ensures refused { Refuses result
        (IsFaultyItem (known container.now) (declaration_view declaration.now)) }
{
    distinct_parameters(alloc, &declaration.generics)?;
    let root = Root {
        ident: &declaration.ident,
        attributes: declaration.attrs.as_slice(),
        container,
    };
    let body = body_of(alloc, &root, &declaration.body)?;
    Ok(with_body(alloc, &root, body)?)
}

/// What the declarations are resolved to, in their order, where each field in braces has a name, and where something is
/// derived from each attribute: of that `only_derivable` is the test.
///
/// It refuses a declaration in which a type or constant parameter has the name of one before it, or a lifetime has, with
/// the kind `DuplicateName`, at the first that has; and one that `resolve_declaration` refuses, as that does.
pub fn resolved_declarations(
    alloc: Global,
    places: &Places<'_>,
    config: &Config,
) -> Result<List<Resolved>, DeriveError>
    requires named { AreNamed (declarations_view places.now.declarations.now) }
    requires derivable { AreDerivable (declarations_view places.now.declarations.now) }
    ensures resolved { IfOk result
        (λ ss. resolved_declarations config.now
        (declarations_view places.now.declarations.now) ≡ Some (map resolved_view ss)) }
    ensures names { IfOk result (λ ss. declaration_names (map resolved_view ss)
        ≡ declared_names (declarations_view places.now.declarations.now)) }
    ensures fitting { IfOk result (λ ss. AreFitting (map resolved_view ss)) }
    ensures refused { Refuses result
        (AreFaultyItems config.now (declarations_view places.now.declarations.now)) }
{
    resolving::resolved_are_over();
    let mut resolved = List::new(alloc);
    for owner in 0..places.declarations.items.len() {
        let scope = Scope::new(alloc, places, owner)?;
        let container = Container {
            scope: &scope,
            config,
        };
        let declaration = &places.declarations.items.as_slice()[owner];
        resolved.push(resolved_of(alloc, &container, declaration)?)?;
    }
    Ok(resolved)
}
