//! Numbers that a caller sets, and the bounds between which they may be.

ghost use Rattle.std.specs.Prelude.{◌≡◌, ◌≤◌, OnOk, IfErr};

use thiserror::Error;

/// A number that may not be set: it is not from the least to the most.
#[derive(Clone, Copy, Debug, PartialEq, Eq, Error)]
#[error("{value} is not a whole number from {least} to {most}")]
pub struct OutOfRange {
    /// What was to be set.
    pub value: usize,
    /// The least that may be set.
    pub least: usize,
    /// The most that may be set.
    pub most: usize,
}

/// Whether the number is from the least to the most; one that is not is told with its bounds.
pub fn within(value: usize, least: usize, most: usize) -> Result<(), OutOfRange>
    ensures ok { OnOk result ((least ≤ value) × (value ≤ most)) }
    ensures err { IfErr result
        (λ e. ((e ≡ record { value = value; least = least; most = most })
        × ¬ ((least ≤ value) × (value ≤ most)))) }
{
    if least <= value && value <= most {
        Ok(())
    } else {
        Err(OutOfRange { value, least, most })
    }
}
