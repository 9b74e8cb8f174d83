//! The terms and the instances of a source, and the schemas of instances.

ghost use Rattle.std.specs.Prelude.{◌≡◌, ◌↔◌, map, IfOk, IsTrue};
ghost use Rattle.diag.specs.Refusal.{Refuses};
ghost use Rattle.schema_trees.specs.Schema.{schema_view};
ghost use Rattle.open_types.specs.Open.{open_view};
ghost use Rattle.scopes.specs.Names.{declared_idents};
ghost use Rattle.syntax.specs.Items.{declarations_view};
ghost use Rattle.syntax.specs.Named.{AreNamed};
ghost use Rattle.shapes.specs.Views.{declaration_view};
ghost use Rattle.instances.specs.Lists.{IsOneOf};
ghost use Rattle.closing.specs.Closed.{instance_schema};
ghost use Rattle.compose.specs.Bounds.{AreBounded, IsUnbounded};
ghost use Rattle.compose.specs.Faults.{AreAtFault};
ghost use Rattle.compose.specs.Sets.{AreTermsOf, AreInstancesOf, declarations_of};
ghost use Rattle.compose.specs.Settled.{IsSettled};

use crate::within::{Bounded, within_bounds};
use closing::{Links, schema_of};
use configuration::Config;
use derive_decl::{only_derivable, resolution_is_exact, resolved_declarations};
use diag::DeriveError;
use instances::{Names, Reach};
use open_types::ClosedType;
use schema_trees::Schema;
use scopes::{Places, declared_places};
use shapes::Declaration;
use std::alloc::{AllocError, Global};
use syntax::Declarations;
use texts::List;
use written_types::Ident;

/// What the declarations of a source are resolved to: each gives a term and the types of its places.
#[derive(Debug, Drop)]
pub struct TermSet {
    /// The declarations, in their order.
    pub resolved: List<Declaration>,
    /// Their names.
    pub idents: List<Ident>,
}

/// The reachable instances of a source.
#[derive(Drop)]
pub struct InstanceSet {
    /// The instances, each once.
    pub reach: Reach,
    /// Of each, its component name.
    pub names: Names,
    /// Of each, those whose schemas stand in its own, by number.
    pub targets: List<List<usize>>,
    /// Each once, behind its targets.
    pub order: List<usize>,
}

impl InstanceSet {
    /// Whether the instance is there. It takes no memory.
    pub fn contains(&self, instance: &ClosedType) -> bool
        ensures { IsTrue result ↔ IsOneOf (open_view instance.now) self.now.reach }
    {
        self.reach.contains(instance.as_open())
    }
}

/// The names of the declarations.
fn idents_of(alloc: Global, declarations: &Declarations) -> Result<List<Ident>, AllocError>
    ensures { IfOk result
        (λ idents. idents ≡ declared_idents (declarations_view declarations.now)) }
{
    let mut idents = List::new(alloc);
    for declaration in declarations.items.as_slice() {
        idents.push(declaration.ident.copy(alloc)?)?;
    }
    Ok(idents)
}

/// What the declarations are resolved to.
fn settle(
    alloc: Global,
    declarations: &Declarations,
    config: &Config,
) -> Result<List<Declaration>, DeriveError>
    requires { AreNamed (declarations_view declarations.now) }
    ensures settled { IfOk result
        (λ resolved. IsSettled config.now (declarations_view declarations.now)
        (map declaration_view resolved)) }
    ensures refused { Refuses result
        (AreAtFault config.now (declarations_view declarations.now)) }
{
    only_derivable(alloc, declarations)?;
    let by_name = declared_places(alloc, declarations)?;
    let places = Places::of_names(alloc, declarations, by_name)?;
    let resolved = resolved_declarations(alloc, &places, config)?;
    resolution_is_exact();
    Ok(resolved)
}

/// The terms of the declarations.
///
/// A refusal is of kind `Syntax`, at the first attribute of `schema` or `repr`: nothing is derived from these. Else it is of
/// kind `DuplicateName`, `SerdeTag`, `BadValue`, `MissingRow`, `UnknownType`, `Arity`, `BadArgument`, `TypeSize`,
/// `FlattenedMaps` or `TaggedTuple`: a name that two declarations have comes first; then, declaration by declaration, a
/// parameter given twice, what serde's attributes of a struct, an enum or a variant contradict, what is wrong with flattened
/// fields, with the name of a field or a variant, with a field's type or with a variant's tag, before a name that two of them
/// have; a form of unnamed fields without a field is `Arity`.
pub fn terms(
    alloc: Global,
    declarations: &Declarations,
    config: &Config,
) -> Result<TermSet, DeriveError>
    requires { AreNamed (declarations_view declarations.now) }
    ensures terms { IfOk result (AreTermsOf config.now (declarations_view declarations.now)) }
    ensures refused { Refuses result
        (AreAtFault config.now (declarations_view declarations.now)) }
{
    let resolved = settle(alloc, declarations, config)?;
    let idents = idents_of(alloc, declarations)?;
    Ok(TermSet { resolved, idents })
}

/// The reachable instances of the declarations, whose terms are these.
///
/// A refusal is of kind `TooManyInstances`, at the name of one, where more instances are reachable than the configuration's
/// limit, or `TypeSize`, at its name, where one has more than 256 names; else `NameClash`, at the name of the first of two
/// that have one component name; else `InlineDepth`, at the name of the first of 33 instances of which the schema of each
/// stands in that of the one before; else `TooManyCopies`, without a span, where more schemas stand in the components than
/// the configuration's copies. The instances that it speaks of are those of the refusal.
pub fn instances(
    alloc: Global,
    declarations: &Declarations,
    terms: &TermSet,
    config: &Config,
) -> Result<InstanceSet, DeriveError>
    requires { AreTermsOf config.now (declarations_view declarations.now) terms.now }
    ensures bounded { IfOk result (λ _. AreBounded config.now (declarations_of terms.now)) }
    ensures instances { IfOk result (AreInstancesOf (declarations_of terms.now)) }
    ensures refused { Refuses result
        (IsUnbounded config.now (declared_idents (declarations_view declarations.now))
        (declarations_of terms.now)) }
{
    let (idents, resolved) = (terms.idents.as_slice(), terms.resolved.as_slice());
    let within = within_bounds(alloc, idents, resolved, config)?;
    let Bounded {
        reach,
        names,
        links,
        order,
        ..
    } = within;
    let Links { targets, .. } = links;
    Ok(InstanceSet {
        reach,
        names,
        targets,
        order,
    })
}

/// The schema of the instance, which is one of the instances of these declarations.
pub fn compose(
    alloc: Global,
    _declarations: &Declarations,
    terms: &TermSet,
    instances: &InstanceSet,
    _config: &Config,
    instance: &ClosedType,
) -> Result<Schema, AllocError>
    requires terms { AreTermsOf _config.now (declarations_view _declarations.now) terms.now }
    requires instances { AreInstancesOf (declarations_of terms.now) instances.now }
    requires contained { IsOneOf (open_view instance.now) instances.now.reach }
    ensures { IfOk result (λ s. schema_view s
        ≡ instance_schema (declarations_of terms.now) (open_view instance.now)) }
{
    let InstanceSet {
        reach,
        targets,
        order,
        ..
    } = instances;
    let number = reach.number_of(instance.as_open());
    let resolved = terms.resolved.as_slice();
    let (targets, order) = (targets.as_slice(), order.as_slice());
    let schema = schema_of(alloc, resolved, reach, targets, order, number)?;
    Ok(schema)
}
