//! Laws of the definitions that contracts cite.

ghost use Rattle.std.specs.Prelude.{◌≡◌, ℕ, List};
ghost use Rattle.diag.specs.declared.error.DeriveError.{DeriveError};
ghost use Rattle.configuration.specs.Configuration.{Configuration};
ghost use Rattle.reporting.specs.Beginning.{Beginning};
ghost use Rattle.schema_gen.specs.Derived.{IsDocument};
ghost use Rattle.schema_gen.specs.Owed.{IsTold};
ghost use Rattle.schema_gen.specs.Refusals.{IsRefusedSource, IsSound};

use compose::{bounded_are_not_refused, components_are_one};
use configuration_json::configurations_are_one;
use reporting::texts_are_read;
use syntax::one_reading;

/// Nothing refuses a source that is sound with a configuration.
pub fn sound_is_not_refused()
    ensures { (c : Configuration) (source : List ℕ) (e : DeriveError)
        → IsSound c source → ¬ (IsRefusedSource c source e) }
{
    one_reading();
    bounded_are_not_refused();
    texts_are_read();
}

/// Where a run is told what it is given, the text of its document is fixed, to the byte.
pub fn told_texts_are_one()
    ensures { (begun : Beginning) (text other : List ℕ)
        → IsTold begun → IsDocument begun text → IsDocument begun other → text ≡ other }
{
    components_are_one();
    configurations_are_one();
}
