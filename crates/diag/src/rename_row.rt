use crate::rename_rule::RenameRule;
use texts::Text;

/// What is renamed.
#[derive(Clone, Copy, Debug, PartialEq, Eq)]
pub enum RenamePlace {
    /// A field of a struct.
    Field,
    /// A variant of an enum.
    Variant,
}

/// What a name becomes by a rule.
#[derive(Debug, Drop)]
pub struct RenameRow {
    pub rule: RenameRule,
    pub place: RenamePlace,
    /// The name as it is declared.
    pub from: Text,
    /// The name as it is written in JSON.
    pub to: Text,
}
