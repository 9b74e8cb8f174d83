//! What names stand for.

ghost use Rattle.std.specs.Prelude.{◌≡◌};
ghost use Rattle.written_types.specs.Written.{segment_view};
ghost use Rattle.resolving.specs.Known.{known};
ghost use Rattle.resolving.specs.Names.{own_or_unknown, parameter_or, declared_or_unknown, other_meaning, name_meaning, written_meaning, meaning};

use crate::known::KnownNames;
use leaves::Leaf;
use open_types::Head;
use written_types::PathSegment;

/// What a name stands for.
#[derive(Clone, Copy, Debug, PartialEq, Eq)]
pub enum Meaning {
    /// What an alias stands for, which is replaced where it has no type arguments.
    Alias,
    Container(Head),
    Leaf(Leaf),
    /// Any JSON value.
    Value,
    /// Any JSON object.
    Object,
    /// The type parameter at this place of the declaration in which the type is written, from 0 on.
    Parameter(usize),
    /// The declaration at this place of the source, in which the type is written, with its own type parameters.
    Own(usize),
    /// The declaration at this place of the source, from 0 on.
    Declared(usize),
    Unknown,
}

/// What a name stands for that a parameter or a declaration may have.
fn given_meaning(names: &KnownNames<'_>, name: &str) -> Meaning
    ensures { result ≡ parameter_or ((known names.now).parameter_of name.now)
        (declared_or_unknown ((known names.now).place_of name.now)) }
{
    if let Some(place) = names.parameters.get(name) {
        return Meaning::Parameter(*place);
    }
    match names.places.get(name) {
        Some(place) => Meaning::Declared(*place),
        None => Meaning::Unknown,
    }
}

/// What `Self` stands for.
fn own_meaning(names: &KnownNames<'_>) -> Meaning
    ensures { result ≡ own_or_unknown (known names.now).own }
{
    match names.own {
        Some(place) => Meaning::Own(place),
        None => Meaning::Unknown,
    }
}

fn other_meaning(names: &KnownNames<'_>, name: &str) -> Meaning
    ensures { result ≡ other_meaning (known names.now) name.now }
{
    match name {
        "Value" => Meaning::Value,
        "Object" => Meaning::Object,
        "Self" => own_meaning(names),
        _ => given_meaning(names, name),
    }
}

/// What a name without an argument list stands for.
pub(crate) fn name_meaning(names: &KnownNames<'_>, name: &str) -> Meaning
    ensures { result ≡ name_meaning (known names.now) name.now }
{
    match Leaf::named(name) {
        Some(leaf) => Meaning::Leaf(leaf),
        None => other_meaning(names, name),
    }
}

/// What a segment's name stands for that is no alias. With an argument list it may be a container.
fn written_meaning(names: &KnownNames<'_>, segment: &PathSegment) -> Meaning
    ensures { result ≡ written_meaning (known names.now) (segment_view segment.now) }
{
    let name = segment.ident.text.as_str();
    match &segment.arguments {
        None => name_meaning(names, name),
        Some(_) => match Head::named(name) {
            Some(head) => Meaning::Container(head),
            None => name_meaning(names, name),
        },
    }
}

/// What a segment's name stands for, an alias before all else.
pub(crate) fn segment_meaning(names: &KnownNames<'_>, segment: &PathSegment) -> Meaning
    ensures { result ≡ meaning (known names.now) (segment_view segment.now) }
{
    match names.alias_of(segment.ident.text.as_str()) {
        Some(_) => Meaning::Alias,
        None => written_meaning(names, segment),
    }
}
