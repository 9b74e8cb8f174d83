//! Types that hold the free object.

ghost use Rattle.std.specs.Prelude.{◌≡◌};
ghost use Rattle.open_types.specs.Open.{open_view, opens_view};
ghost use Rattle.resolving.specs.Free.{holds_free, hold_free};

use open_types::OpenType;

/// Whether the free object stands in the type, at any depth.
#[cycle(free)]
fn holds_free(ty: &OpenType) -> bool
    ensures { result ≡ holds_free (open_view ty.now) }
{
    match ty {
        OpenType::FreeObject => true,
        OpenType::Leaf(_) | OpenType::AnyValue | OpenType::Unit | OpenType::Param(_) => false,
        OpenType::Items(_, of) => holds_free(of),
        OpenType::Set(_, of) => holds_free(of),
        OpenType::Option(of) => holds_free(of),
        OpenType::Through(_, of) => holds_free(of),
        OpenType::Map(_, key, value) => holds_free(key) || holds_free(value),
        OpenType::Tuple(types) => hold_free(types.as_slice()),
        OpenType::Named(_, arguments) => hold_free(arguments.as_slice()),
    }
}

/// Whether the free object stands in one of the types, at any depth.
#[cycle(free)]
pub(crate) fn hold_free(types: &[OpenType]) -> bool
    ensures { result ≡ hold_free (opens_view types.now) }
{
    for ty in types {
        if holds_free(ty) {
            return true;
        }
    }
    false
}
