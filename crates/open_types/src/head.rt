ghost use Rattle.std.specs.Prelude.{◌≡◌};
ghost use Rattle.open_types.specs.Heads.{container_of};

use crate::open_type::{ListHead, MapHead, SetHead, ThroughHead};

/// The containers, which count as such only with an argument list.
#[derive(Clone, Copy, Debug, PartialEq, Eq)]
pub enum Head {
    List(ListHead),
    Set(SetHead),
    Map(MapHead),
    Option,
    Through(ThroughHead),
}

impl Head {
    /// The container of the name, which is `None` where no container has that name.
    pub fn named(name: &str) -> Option<Head>
        ensures { result ≡ container_of name.now }
    {
        match name {
            "Vec" => Some(Head::List(ListHead::Vec)),
            "LinkedList" => Some(Head::List(ListHead::LinkedList)),
            "SmallVec" => Some(Head::List(ListHead::SmallVec)),
            "BTreeSet" => Some(Head::Set(SetHead::BTreeSet)),
            "HashSet" => Some(Head::Set(SetHead::HashSet)),
            "HashMap" => Some(Head::Map(MapHead::HashMap)),
            "BTreeMap" => Some(Head::Map(MapHead::BTreeMap)),
            "Map" => Some(Head::Map(MapHead::Map)),
            "IndexMap" => Some(Head::Map(MapHead::IndexMap)),
            "Option" => Some(Head::Option),
            "Cow" => Some(Head::Through(ThroughHead::Cow)),
            "Box" => Some(Head::Through(ThroughHead::Box)),
            "RefCell" => Some(Head::Through(ThroughHead::RefCell)),
            "Arc" => Some(Head::Through(ThroughHead::Arc)),
            "Rc" => Some(Head::Through(ThroughHead::Rc)),
            _ => None,
        }
    }
}
