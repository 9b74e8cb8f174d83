use crate::serde_trait::SerdeTrait;
use reaching::Node;
use std::alloc::AllocError;
use texts::{List, Span, Text};
use tokens::TokenTree;

/// What stands of a file.
#[derive(Debug, Drop)]
pub enum Stands {
    /// A declaration of a struct or an enum. It is first where it derives one of the traits by which declarations are chosen,
    /// and it names the identifiers in the types of its fields, but for its own parameters and for fields that serde skips.
    /// The span is that of its name. The others are those of its trees that are not read.
    Declared(Node, Span, List<Span>),
    /// An impl of the trait that is written by hand, with the last name of the path of the type that it is for.
    Written(SerdeTrait, Text),
    /// A name for a type, with the identifiers in that, and the bytes of the type. It is not first. Last stands whether a
    /// `use` gives it.
    Alias(Node, Span, bool),
}

/// What stands, with its bytes: of a declaration from the first attribute or doc comment to the end, of an impl from the word
/// `impl` to the end of what stands before its block, of a type alias from the word `type` to the end of the type, and of a
/// name in a `use` what `B as C` is.
#[derive(Debug, Drop)]
pub struct Standing {
    pub what: Stands,
    pub span: Span,
}

/// What is done with an item.
#[derive(Drop)]
pub enum Item<'t> {
    Stands(Standing),
    /// Several things stand.
    All(List<Standing>),
    /// A module, with what stands in its brackets.
    Holds(&'t [TokenTree]),
    /// It does not stand.
    Passed,
}

/// Why a file is not cut into items.
#[derive(Drop)]
pub enum Stop {
    Memory,
    /// No item begins at the span.
    At(Span),
}

impl From<AllocError> for Stop {
    ghost use Rattle.std.specs.Prelude.{◌≡◌};
    ghost use Rattle.prepare.specs.declared.item.Stop.TheVariants.{Memory};

    ghost from_gives = { λ _ stop. stop ≡ Memory };

    fn from(_error: AllocError) -> Stop {
        Stop::Memory
    }
}
