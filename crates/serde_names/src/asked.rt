use diag::{RenamePlace, RenameRule};
use syntax::Ident;

/// A name that needs a row: the rule that it stands under, whether it is of a field or of a variant, and its identifier.
#[derive(Debug, Drop)]
pub struct Asked {
    pub rule: RenameRule,
    pub place: RenamePlace,
    pub ident: Ident,
}
