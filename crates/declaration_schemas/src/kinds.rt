//! What the body of a declaration was made as.

/// Any body.
#[derive(Clone, Copy, Debug)]
pub struct AnyBody;

/// The body of a struct without fields.
#[derive(Clone, Copy, Debug)]
pub struct NoFields;

/// The body of a struct with named fields.
#[derive(Clone, Copy, Debug)]
pub struct NamedFields;

/// The body of a struct with unnamed fields.
#[derive(Clone, Copy, Debug)]
pub struct UnnamedFields;

/// The body of an enum.
#[derive(Clone, Copy, Debug)]
pub struct AnyVariants;

/// The body of an enum by the names of its variants.
#[derive(Clone, Copy, Debug)]
pub struct VariantNames;

/// The body of an enum by the fields of its variants.
#[derive(Clone, Copy, Debug)]
pub struct VariantFields;
