use texts::Text;

/// What is said of a declaration, a variant or a member beside its type.
#[derive(Debug, Drop)]
pub struct Annotations {
    /// Whether it is deprecated.
    pub deprecated: bool,
    /// What it is for.
    pub description: Option<Text>,
}
