//! What rests on the definitions alone: laws that callers rely on, as contracts of functions that do nothing.

ghost use Rattle.derive_decl.specs.Law.{FormsAreExact, UnitsAreExact, VariantsAreExact, PlainAreExact, MixedAreExact, BodiesAreExact, DerivedAreExact, ItemsAreExact, DeclarationsAreExact, FormsAreApart, UnitsAreApart, VariantsAreApart, PlainAreApart, MixedAreApart, BodiesAreApart, ItemsAreApart, DeclarationsAreApart, ItemsLookUpRows, DeclarationsLookUpRows, ResolvedIsMeant};

use scopes::names_repeat_or_not;
use serde_rules::container_rules_are_one;

/// What is resolved to something is what nothing refuses: fields, enums, bodies and declarations, of which each field in
/// braces has a name.
pub fn resolution_is_exact()
    ensures forms { FormsAreExact }
    ensures units { UnitsAreExact }
    ensures variants { VariantsAreExact }
    ensures plain { PlainAreExact }
    ensures mixed { MixedAreExact }
    ensures bodies { BodiesAreExact }
    ensures derived { DerivedAreExact }
    ensures items { ItemsAreExact }
    ensures declarations { DeclarationsAreExact }
{
    resolving::resolution_is_exact();
    names_repeat_or_not();
    container_rules_are_one();
}

/// In what is resolved no two members have one name, nor two variants, where names tell them apart, nor has what is known
/// beside a tag the tag's name.
pub fn resolved_are_apart()
    ensures forms { FormsAreApart }
    ensures units { UnitsAreApart }
    ensures variants { VariantsAreApart }
    ensures plain { PlainAreApart }
    ensures mixed { MixedAreApart }
    ensures bodies { BodiesAreApart }
    ensures items { ItemsAreApart }
    ensures declarations { DeclarationsAreApart }
{}

/// A derivation is refused for a missing row exactly where one of the names that `serde_names` says to need a row has none,
/// and with the refusal of that name.
pub fn rows_are_looked_up()
    ensures items { ItemsLookUpRows }
    ensures declarations { DeclarationsLookUpRows }
{}

/// What declarations are resolved to is what they mean.
pub fn resolved_is_meant()
    ensures { ResolvedIsMeant }
{}
