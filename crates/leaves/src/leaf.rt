ghost use Rattle.std.specs.Prelude.{◌≡◌, ◌≢◌, ◌↔◌, IsTrue, MatchOption, option_map};
ghost use Rattle.leaves.specs.Leaves.{leaf_of, name_of, kind_of, word_of, format_of};
ghost use Rattle.leaves.specs.declared.leaf.Leaf.{Leaf};
ghost use Rattle.leaves.specs.declared.leaf.LeafKind.{LeafKind};

/// A built-in name that serde reads as a text, a truth value or a number.
#[derive(Clone, Copy, Debug, PartialEq, Eq)]
pub enum Leaf {
    String,
    Str,
    Char,
    Bool,
    I8,
    I16,
    I32,
    I64,
    I128,
    Isize,
    U8,
    U16,
    U32,
    U64,
    U128,
    Usize,
    F32,
    F64,
}

/// What serde reads for a leaf: a text, a truth value, a whole number, a whole number from 0 on, or any number.
#[derive(Clone, Copy, Debug, PartialEq, Eq)]
pub enum LeafKind {
    Text,
    Boolean,
    Signed,
    Unsigned,
    Float,
}

impl Leaf {
    /// The leaf of the name, which is `None` where no leaf has that name.
    #[tactic(auto, using(crate::proofs::Names::exact_of))]
    pub fn named(name: &str) -> Option<Leaf>
        ensures found { result ≡ leaf_of name.now }
        ensures exact { MatchOption result ((leaf : Leaf) → name_of leaf ≢ name.now)
            (λ leaf. name_of leaf ≡ name.now) }
    {
        leaf_among(name)
    }

    /// The name, as it is written in a source.
    pub fn name(&self) -> &'static str
        ensures { result.now ≡ name_of self.now }
    {
        match self {
            Leaf::String => "String",
            Leaf::Str => "str",
            Leaf::Char => "char",
            Leaf::Bool => "bool",
            Leaf::I8 => "i8",
            Leaf::I16 => "i16",
            Leaf::I32 => "i32",
            Leaf::I64 => "i64",
            Leaf::I128 => "i128",
            Leaf::Isize => "isize",
            Leaf::U8 => "u8",
            Leaf::U16 => "u16",
            Leaf::U32 => "u32",
            Leaf::U64 => "u64",
            Leaf::U128 => "u128",
            Leaf::Usize => "usize",
            Leaf::F32 => "f32",
            Leaf::F64 => "f64",
        }
    }

    /// What serde reads for it.
    pub fn kind(&self) -> LeafKind
        ensures { result ≡ kind_of self.now }
    {
        match self {
            Leaf::String | Leaf::Str | Leaf::Char => LeafKind::Text,
            Leaf::Bool => LeafKind::Boolean,
            Leaf::I8 | Leaf::I16 | Leaf::I32 | Leaf::I64 | Leaf::I128 | Leaf::Isize => {
                LeafKind::Signed
            }
            Leaf::U8 | Leaf::U16 | Leaf::U32 | Leaf::U64 | Leaf::U128 | Leaf::Usize => {
                LeafKind::Unsigned
            }
            Leaf::F32 | Leaf::F64 => LeafKind::Float,
        }
    }

    /// The word of `type`, as it is printed.
    pub fn type_word(&self) -> &'static str
        ensures { result.now ≡ word_of (kind_of self.now) }
    {
        match self.kind() {
            LeafKind::Text => "string",
            LeafKind::Boolean => "boolean",
            LeafKind::Signed | LeafKind::Unsigned => "integer",
            LeafKind::Float => "number",
        }
    }

    /// The name of the format, where there is one.
    pub fn format(&self) -> Option<&'static str>
        ensures { option_map (λ name. name.now) result ≡ format_of self.now }
    {
        match self {
            Leaf::I8 | Leaf::I16 | Leaf::I32 | Leaf::U8 | Leaf::U16 | Leaf::U32 => Some("int32"),
            Leaf::I64 | Leaf::U64 => Some("int64"),
            Leaf::F32 => Some("float"),
            Leaf::F64 => Some("double"),
            _ => None,
        }
    }

    /// Whether it is a whole number from 0 on.
    pub fn is_unsigned(&self) -> bool
        ensures { IsTrue result ↔ (kind_of self.now ≡ LeafKind.Unsigned) }
    {
        self.kind() == LeafKind::Unsigned
    }
}

/// The first leaf of the name.
fn leaf_among(name: &str) -> Option<Leaf>
    ensures { result ≡ leaf_of name.now }
{
    match name {
        "String" => Some(Leaf::String),
        "str" => Some(Leaf::Str),
        "char" => Some(Leaf::Char),
        "bool" => Some(Leaf::Bool),
        "i8" => Some(Leaf::I8),
        "i16" => Some(Leaf::I16),
        "i32" => Some(Leaf::I32),
        "i64" => Some(Leaf::I64),
        "i128" => Some(Leaf::I128),
        "isize" => Some(Leaf::Isize),
        "u8" => Some(Leaf::U8),
        "u16" => Some(Leaf::U16),
        "u32" => Some(Leaf::U32),
        "u64" => Some(Leaf::U64),
        "u128" => Some(Leaf::U128),
        "usize" => Some(Leaf::Usize),
        "f32" => Some(Leaf::F32),
        "f64" => Some(Leaf::F64),
        _ => None,
    }
}
