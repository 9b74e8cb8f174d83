use texts::Span;

/// A place in a source, and what is said of it.
#[derive(Clone, Copy, Debug, PartialEq, Eq)]
pub struct Warning {
    pub span: Span,
    pub message: &'static str,
}
