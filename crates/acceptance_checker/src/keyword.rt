ghost use Rattle.std.specs.Prelude.{◌≡◌};
ghost use Rattle.acceptance.specs.Keyword.{keyword_of};
ghost use Rattle.acceptance_checker.specs.Kinds.{keyword_meant};

/// What a member of a schema is, by its name.
#[derive(Clone, Copy)]
pub enum Keyword {
    Assertion(Assertion),
    Applicator(Applicator),
    Other,
}

/// A member that holds no schema.
#[derive(Clone, Copy)]
pub enum Assertion {
    Types,
    Enumeration,
    Number(Comparison),
    Length(Limit),
    Required,
    Properties(Limit),
    UniqueItems,
    Items(Limit),
}

/// What a member asks of a number.
#[derive(Clone, Copy)]
pub enum Comparison {
    Minimum,
    Maximum,
    ExclusiveMinimum,
    ExclusiveMaximum,
    MultipleOf,
}

/// What a member asks of a count.
#[derive(Clone, Copy)]
pub enum Limit {
    AtLeast,
    AtMost,
}

/// A member that holds schemas, or leads to one.
#[derive(Clone, Copy)]
pub enum Applicator {
    Properties,
    AdditionalProperties,
    PropertyNames,
    PrefixItems,
    Items,
    AllOf,
    AnyOf,
    OneOf,
    Reference,
}

pub fn keyword_named(name: &str) -> Keyword
    ensures { keyword_meant result ≡ keyword_of name.now }
{
    match name {
        "type" => Keyword::Assertion(Assertion::Types),
        "enum" => Keyword::Assertion(Assertion::Enumeration),
        "minimum" => Keyword::Assertion(Assertion::Number(Comparison::Minimum)),
        "maximum" => Keyword::Assertion(Assertion::Number(Comparison::Maximum)),
        "exclusiveMinimum" => Keyword::Assertion(Assertion::Number(Comparison::ExclusiveMinimum)),
        "exclusiveMaximum" => Keyword::Assertion(Assertion::Number(Comparison::ExclusiveMaximum)),
        "multipleOf" => Keyword::Assertion(Assertion::Number(Comparison::MultipleOf)),
        "minLength" => Keyword::Assertion(Assertion::Length(Limit::AtLeast)),
        "maxLength" => Keyword::Assertion(Assertion::Length(Limit::AtMost)),
        "properties" => Keyword::Applicator(Applicator::Properties),
        "required" => Keyword::Assertion(Assertion::Required),
        "additionalProperties" => Keyword::Applicator(Applicator::AdditionalProperties),
        "propertyNames" => Keyword::Applicator(Applicator::PropertyNames),
        "minProperties" => Keyword::Assertion(Assertion::Properties(Limit::AtLeast)),
        "maxProperties" => Keyword::Assertion(Assertion::Properties(Limit::AtMost)),
        "prefixItems" => Keyword::Applicator(Applicator::PrefixItems),
        "items" => Keyword::Applicator(Applicator::Items),
        "uniqueItems" => Keyword::Assertion(Assertion::UniqueItems),
        "minItems" => Keyword::Assertion(Assertion::Items(Limit::AtLeast)),
        "maxItems" => Keyword::Assertion(Assertion::Items(Limit::AtMost)),
        "allOf" => Keyword::Applicator(Applicator::AllOf),
        "anyOf" => Keyword::Applicator(Applicator::AnyOf),
        "oneOf" => Keyword::Applicator(Applicator::OneOf),
        "$ref" => Keyword::Applicator(Applicator::Reference),
        _ => Keyword::Other,
    }
}
