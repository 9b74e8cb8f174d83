//! What rests on the definitions alone: laws that callers rely on, as contracts of functions that do nothing.

ghost use Rattle.std.specs.Prelude.{◌<◌, ◌≤◌, ◌^◌, ℕ};
ghost use Rattle.samples.specs.Rings.{IsOpenRing};
ghost use Rattle.samples.specs.Samples.{most_declarations};
ghost use Rattle.samples.specs.Sound.{IsSoundSample};
ghost use Rattle.samples.specs.Spelling.{SpelledAreCut};

/// A text of ASCII characters whose pieces are found where its spelling says is cut into the trees of the spelling.
pub(crate) fn spelled_are_cut()
    ensures { SpelledAreCut }
{}

/// Each declaration of a ring of 1 to 2^64 - 1 declarations has one instance, whose name is its own, and none of them stands in
/// the schema of another.
pub(crate) fn rings_are_open()
    ensures { (many : ℕ) → 0 < many → many < 2 ^ 64 → IsOpenRing many }
{
    instances::whole_are_instances();
    closing::components_are_reachable();
}

/// A sample of 1 to 1000 declarations is read as declarations, and without a configuration nothing refuses it.
pub fn samples_are_sound()
    ensures { (many : ℕ) → 0 < many → many ≤ most_declarations → IsSoundSample many }
{
    spelled_are_cut();
    syntax::trees_are_read();
    syntax::read_fields_are_named();
    scopes::names_repeat_or_not();
    derive_decl::resolution_is_exact();
    rings_are_open();
}
