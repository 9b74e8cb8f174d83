ghost use Rattle.std.specs.Prelude.{◌≡◌, ℤ, pos, MatchOption};
ghost use Rattle.serde_json.specs.View.{number_view};
ghost use Rattle.acceptance.specs.Data.{num_of};
ghost use Rattle.schema_trees.specs.Bound.{IsShort};

use serde_json::Number;
use std::marker::Model;

/// A whole number from -2^63 to 2^64 - 1, as `serde_json` holds them.
#[derive(Clone, Copy, Debug)]
pub struct Bound {
    value: i128,
}

impl Model for Bound {
    ghost Value = { ℤ };

    ghost view = { λ bound. bound.value };

    ghost invariant = { λ bound. IsShort bound.value };

    ghost inverse = { λ value. record { value = value } };
}

impl Bound {
    /// None exactly outside of the range. It takes no memory.
    pub fn new(value: i128) -> Option<Bound>
        ensures { MatchOption result (¬ IsShort value) (λ bound. (bound ≡ value) × IsShort value) }
    {
        if -(1 << 63) <= value && value < 1 << 64 {
            Some(Bound { value })
        } else {
            None
        }
    }

    /// The bound 0.
    pub fn zero() -> Bound
        ensures { result ≡ pos 0 }
    {
        Bound { value: 0 }
    }

    /// The number.
    pub fn value(&self) -> i128
        ensures value { result ≡ self.now }
        ensures short { IsShort self.now }
    {
        self.value
    }

    /// The number as `serde_json` holds it.
    pub fn number(&self) -> Number
        ensures number { number_view result ≡ num_of self.now }
        ensures short { IsShort self.now }
    {
        match Number::from_i128(self.value) {
            Some(number) => number,
            None => unreachable!(),
        }
    }
}
