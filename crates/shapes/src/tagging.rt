use texts::Text;

/// How the values of an enum tell their variant (serde.rs, "Enum representations").
#[derive(Debug, Drop)]
pub enum Tagging {
    /// By its name: a variant without fields is the name, and one with fields a member of this name.
    External,
    /// By a tag among the members.
    Internal { tag: Text },
    /// By a tag beside a content.
    Adjacent { tag: Text, content: Text },
    /// By nothing.
    Untagged,
}
