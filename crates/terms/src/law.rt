//! What rests on the definitions alone: laws that callers rely on, as contracts of functions that do nothing.

ghost use Rattle.terms.specs.InstanceTerms.{RootTerms};
ghost use Rattle.terms.specs.Meaning.{TermsAccept, InstanceTermsAccept, PlacesAccept};
ghost use Rattle.terms.specs.Telling.{HasOneName, NumbersTell, SchemasTell, TagsTell};

/// The term of a declaration with a plain body accepts a value exactly if the value has the body's shape, where each leaf
/// accepts what has the shape of its instance.
pub fn terms_accept()
    ensures { TermsAccept }
{
    open_types::same_types_are_equal();
    open_types::types_stay_without_arguments();
}

/// The term of an instance accepts a value exactly if the value has the shape of the declaration's body with the arguments,
/// where that is plain and each leaf accepts what has the shape of its instance.
pub fn instance_terms_accept()
    ensures { InstanceTermsAccept }
{
    open_types::same_types_are_equal();
    open_types::types_stay_without_arguments();
}

/// The schema of a place of a closed plain type accepts a value exactly if the value has the shape of the type or is null
/// where it may be, whether names are inline there or not.
pub fn places_accept()
    ensures { PlacesAccept }
{
    open_types::types_stay_without_arguments();
}

/// What the schema of a variant accepts tells the variant, whatever its leaves accept; so does that of a tag with a name or a
/// number. Of names whose variants it tells a value has one alone: with a tag any value, without one a text or a map of one
/// member.
pub fn schemas_tell()
    ensures told { SchemasTell }
    ensures tags { TagsTell }
    ensures numbers { NumbersTell }
    ensures names { HasOneName }
{
    shapes::variants_are_told();
}

/// The term of an instance without arguments is its declaration's.
pub fn root_terms()
    ensures { RootTerms }
{
    open_types::types_stay_without_arguments();
}
