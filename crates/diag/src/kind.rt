use std::fmt;

/// What a diagnostic is about. A refusal has any kind but `Warning`.
#[derive(Clone, Copy, Debug, PartialEq, Eq)]
pub enum Kind {
    /// The configuration has another form, or is too long. Write an object with the members that there are.
    BadConfig,
    /// The text of an alias is no type, or nests deeper than 64 levels. Write a type, as it stands behind the `:` of a
    /// field.
    BadRow,
    /// Of 33 aliases each names the next, or one names itself. Leave one out, and declare a struct of its name.
    AliasDepth,
    /// The source has more bytes than may be read. Leave out what no schema needs.
    TooLong,
    /// Brackets or the parts of a type nest deeper than 64 levels. Give an inner type a struct of its own.
    TooDeep,
    /// The text is no declaration that can be read, or has an attribute that is refused. Cut it out, or rewrite it.
    Syntax,
    /// An attribute of the schema has a name that is not known. Not raised so far: such attributes are `Syntax`.
    /// Leave it out.
    UnknownAttribute,
    /// An attribute of the schema is given twice. Not raised so far: such attributes are `Syntax`. Leave one
    /// out.
    DuplicateFeature,
    /// An attribute has a value that it cannot have, as a rename rule or a format that there is not. Write one that the
    /// message lists.
    BadValue,
    /// The `tag`, `content` and `untagged` of serde contradict each other, or `content` has no `tag`. Keep one, or add
    /// a `tag`.
    SerdeTag,
    /// No name in JSON is known for a field or a variant, by the rename rule above it. Give it a `rename`, or add the
    /// row.
    MissingRow,
    /// Two have one name: two declarations, two parameters of one, or in JSON two members, tags or variants. Rename
    /// one, or leave it out.
    DuplicateName,
    /// A type's name is not built in, no alias, no parameter and not declared. Declare it, or name it in `aliases`.
    UnknownType,
    /// A type has too many or too few arguments, or a tuple form has no field. Write as many as there must be.
    Arity,
    /// A tuple, the unit, an array or a slice stands in an argument of a declared type. Give it a struct of its own.
    BadArgument,
    /// A type has more than 256 names, aliases and arguments put in. Give a part of it a struct of its own.
    TypeSize,
    /// A struct has two flattened maps. Not raised so far: `flatten` is `Syntax`. Keep one.
    FlattenedMaps,
    /// A discriminator stands where there can be none. Not raised so far: attributes of the schema are `Syntax`.
    /// Leave it out.
    Discriminator,
    /// An attribute of the schema stands on a tuple struct of several fields. Not raised so far: such are
    /// `Syntax`. Leave it out.
    TupleBound,
    /// A variant of an enum with a `tag` alone has several unnamed fields, or a tuple or the unit. Add a `content`.
    TaggedTuple,
    /// An attribute of the schema stands where it has no meaning. Not raised so far: such attributes are
    /// `Syntax`. Leave it out.
    NotSupported,
    /// More instances of types are reachable than `limit` allows. Raise it in the configuration, or end arguments that
    /// grow.
    TooManyInstances,
    /// Two instances have one component name, as `Page<User>` and `Page_User`. Rename a declaration.
    NameClash,
    /// Instances stand in each other, by tuples, keys or parameters, more than 32 deep. Take one out.
    InlineDepth,
    /// Schemas stand in others more often than `copies` allows. Raise it in the configuration.
    TooManyCopies,
    /// What a reader should know of a source that is not refused. Not raised so far.
    Warning,
}

impl Kind {
    ghost use Rattle.std.specs.Prelude.{◌≡◌};
    ghost use Rattle.diag.specs.Kind.{name_of};

    /// The kind's name, as reports print it.
    pub fn name(&self) -> &'static str
        ensures { result.now ≡ name_of self.now }
    {
        match self {
            Kind::BadConfig => "BadConfig",
            Kind::BadRow => "BadRow",
            Kind::AliasDepth => "AliasDepth",
            Kind::TooLong => "TooLong",
            Kind::TooDeep => "TooDeep",
            Kind::Syntax => "Syntax",
            Kind::UnknownAttribute => "UnknownAttribute",
            Kind::DuplicateFeature => "DuplicateFeature",
            Kind::BadValue => "BadValue",
            Kind::SerdeTag => "SerdeTag",
            Kind::MissingRow => "MissingRow",
            Kind::DuplicateName => "DuplicateName",
            Kind::UnknownType => "UnknownType",
            Kind::Arity => "Arity",
            Kind::BadArgument => "BadArgument",
            Kind::TypeSize => "TypeSize",
            Kind::FlattenedMaps => "FlattenedMaps",
            Kind::Discriminator => "Discriminator",
            Kind::TupleBound => "TupleBound",
            Kind::TaggedTuple => "TaggedTuple",
            Kind::NotSupported => "NotSupported",
            Kind::TooManyInstances => "TooManyInstances",
            Kind::NameClash => "NameClash",
            Kind::InlineDepth => "InlineDepth",
            Kind::TooManyCopies => "TooManyCopies",
            Kind::Warning => "Warning",
        }
    }
}

impl fmt::Display for Kind {
    ghost use Rattle.std.specs.Prelude.{Some};
    ghost use Rattle.diag.specs.Kind.{name_of};

    ghost output = { λ kind. Some (name_of kind) };

    fn fmt<W: fmt::Write>(&self, f: &mut fmt::Formatter<W>) -> fmt::Result {
        f.write_str(self.name())
    }
}
