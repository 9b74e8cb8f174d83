use scopes::Container;
use syntax::{Attribute, Ident};

/// A declaration by its name and attributes, and where it stands.
#[derive(Clone, Copy)]
pub struct Root<'p> {
    pub ident: &'p Ident,
    pub attributes: &'p [Attribute],
    pub container: &'p Container<'p>,
}
