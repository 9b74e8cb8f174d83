ghost use Rattle.std.specs.Prelude.{◌<◌, ◌-◌, ◌^◌};

/// How many instances there may be, and of how many names each.
#[derive(Clone, Copy)]
pub(crate) struct Bounds {
    pub(crate) limit: usize,
    pub(crate) most: usize,
    /// A size that a table counts no further is too large.
    pub(crate) ghost counted: { most < 2 ^ 64 - 1 },
}
