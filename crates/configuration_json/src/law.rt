//! Laws of the definitions that contracts cite.

ghost use Rattle.std.specs.Prelude.{◌≡◌, ℕ, List, Some, None};
ghost use Rattle.serde_json.specs.Data.{Data};
ghost use Rattle.diag.specs.Diagnostics.{HasFirst};
ghost use Rattle.diag.specs.declared.diagnostics.DiangosticsInner.{DiangosticsInner};
ghost use Rattle.diag.specs.declared.error.DeriveError.TheVariants as error;
ghost use Rattle.diag.specs.declared.kind.Kind.{Kind};
ghost use Rattle.diag.specs.declared.kind.Kind.TheVariants.{BadConfig};
ghost use Rattle.configuration.specs.Configuration.{Configuration};
ghost use Rattle.configuration_json.specs.Form.{IsConfiguration, IsConfigurationText, IsRefusedText, SaysInText};
ghost use Rattle.configuration_json.specs.Said.{HaveFault};
ghost use Rattle.configuration_json.specs.declared.part.ConfigPart.{ConfigPart as AnyPart};
ghost use Rattle.configuration_json.specs.Parts.{IsFaultyPart};

use diag::rules_have_own_names;
use type_grammar::one_type_reading;

/// A JSON value says at most one configuration, and so does a text.
pub fn configurations_are_one()
    ensures of_value { (value : Data) (c d : Configuration) → IsConfiguration value c
        → IsConfiguration value d → c ≡ d }
    ensures of_text { (bytes : List ℕ) (c d : Configuration) → IsConfigurationText bytes c
        → IsConfigurationText bytes d → c ≡ d }
{
    rules_have_own_names();
    one_type_reading();
}

/// A text of a configuration says it, whatever is judged beside.
pub fn configurations_are_said()
    ensures { (bytes : List ℕ) (c : Configuration) → IsConfigurationText bytes c
        → SaysInText bytes c }
{}

/// Bytes that are refused with a kind have the fault of this kind.
pub fn refused_texts_have_faults()
    ensures { (kind : Kind) (ds : List DiangosticsInner) (bytes : List ℕ)
        → HasFirst ds (λ d. d.kind ≡ kind) → IsRefusedText bytes (error.Refused ds)
        → HaveFault kind bytes }
{}

/// A part is at fault exactly where bytes have the fault `BadConfig`.
pub fn bad_configs_have_faulty_parts()
    ensures faulty { (bytes : List ℕ) (part : AnyPart) → IsFaultyPart bytes (Some part)
        → HaveFault BadConfig bytes }
    ensures sound { (bytes : List ℕ) → IsFaultyPart bytes None → ¬ HaveFault BadConfig bytes }
{}
