ghost use Rattle.std.specs.Prelude.{◌≡◌, IfOk};

use std::alloc::{AllocError, Global};
use texts::Text;

/// Why a schema cannot say a flattened field whole.
#[derive(Clone, Copy, Debug, PartialEq, Eq)]
pub enum Misfit {
    /// It holds neither a struct with named fields nor an enum with a tag that lets others stand beside its members.
    NoOpenMap,
    /// It is a map whose keys are no texts.
    NoTexts,
    /// It is a map beside which something else is flattened.
    NotAlone,
    /// Others are denied beside it.
    Denied,
}

/// What in the body of an instance its schema cannot say whole.
#[derive(Debug, Drop, PartialEq, Eq)]
pub enum Obstacle {
    /// A float.
    Float,
    /// A map with other keys than texts and externally tagged enums with unit variants alone.
    MapKey,
    /// An internally tagged newtype variant that holds no struct with named fields that lets others stand beside them.
    TaggedNewtype,
    /// A flattened field of this name, for this reason.
    Flattened(Text, Misfit),
    /// The unit, or no fields where it is a struct.
    Unit,
    /// An untagged enum that keeps no variant.
    NoVariant,
}

impl Obstacle {
    /// Another with an equal name.
    pub(crate) fn copy(&self, alloc: Global) -> Result<Obstacle, AllocError>
        ensures { IfOk result (λ copy. copy ≡ self.now) }
    {
        Ok(match self {
            Obstacle::Float => Obstacle::Float,
            Obstacle::MapKey => Obstacle::MapKey,
            Obstacle::TaggedNewtype => Obstacle::TaggedNewtype,
            Obstacle::Flattened(name, misfit) => Obstacle::Flattened(name.copy(alloc)?, *misfit),
            Obstacle::Unit => Obstacle::Unit,
            Obstacle::NoVariant => Obstacle::NoVariant,
        })
    }
}

/// Why an instance is not plain.
#[derive(Debug, Drop)]
pub enum Reason {
    /// By its own body.
    Body(Obstacle),
    /// By nothing in its own body, but an instance of this component name that it reaches, over any number of steps, and in
    /// whose body something is in the way.
    Reaches(Text),
}

/// An instance that is not plain.
#[derive(Debug, Drop)]
pub struct Unplain {
    /// The place of its declaration among all.
    pub declaration: usize,
    /// Its component name.
    pub name: Text,
    pub reason: Reason,
}
