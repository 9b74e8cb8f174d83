//! Which declarations are asked for.

use texts::{List, Text};

/// Which declarations are selected: all, or by their traits, or by their names; and those that these name, and so on.
#[derive(Debug, Drop)]
pub struct Selection {
    /// Of the user's own those that derive `Serialize`, `Deserialize` or `ToSchema`, where no names are given.
    pub serde: bool,
    /// Those of these names, where there are any, also of stand-ins.
    pub only: List<Text>,
    /// Nothing of these names, nor a declaration whose name stands at one of these lines, each `PATH:LINE`, nor an alias
    /// that begins there; and nothing for its sake.
    pub exclude: List<Text>,
    /// What is refused is left out, and what needs it.
    pub skip_refused: bool,
    /// Of what is described, each instance that is not plain is warned of: its component is not proved to accept exactly the
    /// JSON of its shape.
    pub not_plain: bool,
    /// How many of the files, from the first on, are the user's own. Those behind them are stand-ins: what they declare is
    /// described where it is named, unless the user's own files have a declaration or an alias of the name.
    pub own: usize,
}
