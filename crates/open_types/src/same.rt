//! Equality.

ghost use Rattle.std.specs.Prelude.{◌≡◌, ◌↔◌, IsTrue};
ghost use Rattle.open_types.specs.Open.{open_view, opens_view};
ghost use Rattle.open_types.specs.Same.{same_type, same_types};

use crate::open_type::OpenType;

impl OpenType {
    /// Whether the other is the same type: equal names, equal places, and the same types in them.
    #[tactic(auto, using(crate::specs::proved::SameLaws::same_decides))]
    pub fn is_same(&self, other: &OpenType) -> bool
        ensures { IsTrue result ↔ (open_view self.now ≡ open_view other.now) }
    {
        self == other
    }
}

impl PartialEq for OpenType {
    ghost use Rattle.std.specs.Ordering.{on};
    ghost use Rattle.open_types.specs.Open.{open_view};
    ghost use Rattle.open_types.specs.Same.{same_type};
    ghost use Rattle.open_types.specs.proved.SameLaws.{views_partial_equiv};

    ghost eq = { on open_view same_type };

    ghost laws = { views_partial_equiv };

    fn eq(&self, other: &OpenType) -> bool {
        same(self, other)
    }
}

impl Eq for OpenType {
    ghost use Rattle.open_types.specs.proved.SameLaws.{views_equiv};

    ghost laws = { views_equiv };
}

#[cycle(same)]
fn same(ty: &OpenType, other: &OpenType) -> bool
    ensures { result ≡ same_type (open_view ty.now) (open_view other.now) }
{
    match (ty, other) {
        (OpenType::Leaf(leaf), OpenType::Leaf(of)) => leaf == of,
        (OpenType::AnyValue, OpenType::AnyValue) => true,
        (OpenType::FreeObject, OpenType::FreeObject) => true,
        (OpenType::Unit, OpenType::Unit) => true,
        (OpenType::Tuple(items), OpenType::Tuple(of)) => same_all(items.as_slice(), of.as_slice()),
        (OpenType::Items(head, item), OpenType::Items(name, of)) => head == name && same(item, of),
        (OpenType::Set(head, item), OpenType::Set(name, of)) => head == name && same(item, of),
        (OpenType::Map(head, key, value), OpenType::Map(name, from, to)) => {
            head == name && same(key, from) && same(value, to)
        }
        (OpenType::Option(item), OpenType::Option(of)) => same(item, of),
        (OpenType::Through(head, item), OpenType::Through(name, of)) => {
            head == name && same(item, of)
        }
        (OpenType::Param(place), OpenType::Param(of)) => place == of,
        (OpenType::Named(place, arguments), OpenType::Named(name, of)) => {
            place == name && same_all(arguments.as_slice(), of.as_slice())
        }
        _ => false,
    }
}

#[cycle(same)]
#[tactic(auto, using(crate::proofs::SameLists::same_types_lengths))]
fn same_all(types: &[OpenType], others: &[OpenType]) -> bool
    ensures { result ≡ same_types (opens_view types.now) (opens_view others.now) }
{
    if types.len() != others.len() {
        return false;
    }
    for (ty, other) in types.iter().zip(others) {
        if !same(ty, other) {
            return false;
        }
    }
    true
}
