ghost use Rattle.std.specs.Prelude.{◌≤◌};

/// Byte offsets into a source's UTF-8: from `start` up to, and without, `end`.
#[derive(Clone, Copy, Debug, PartialEq, Eq)]
pub struct Span {
    pub start: usize,
    pub end: usize,
    ghost ordered: { start ≤ end },
}

impl Span {
    ghost use Rattle.std.specs.Prelude.{◌≡◌};
    ghost use Rattle.texts.specs.Span.{no_span};

    /// The span from `start` up to, and without, `end`.
    pub fn new(start: usize, end: usize) -> Span
        requires { start ≤ end }
        ensures start { result.start ≡ start }
        ensures end { result.end ≡ end }
    {
        Span { start, end }
    }

    /// The span `0..0`, of what stands nowhere in a source.
    pub fn nowhere() -> Span
        ensures { result ≡ no_span }
    {
        Span { start: 0, end: 0 }
    }
}
