//! The kinds of items.

ghost use Rattle.std.specs.Prelude.{◌≡◌, option_map};
ghost use Rattle.prepare.specs.Kinds.{is_function_word, const_kind, weak_kind, kind_of};

/// What an item is, by the words that it begins with.
#[derive(Clone, Copy)]
pub enum Kind {
    /// A struct or an enum.
    Declaration,
    Impl,
    Use,
    Module,
    /// A type alias, which goes to a semicolon.
    Alias,
    /// Another that goes to a semicolon.
    Line,
    /// What goes to a block, as a function.
    Block,
    /// The call of a macro, or none of these.
    Call,
}

/// Whether what follows a `const` that the word stands behind goes to a block.
fn is_function_word(word: &str) -> bool
    ensures { result ≡ is_function_word word.now }
{
    matches!(
        word,
        "fn" | "unsafe" | "async" | "extern" | "trait" | "impl"
    )
}

/// What an item that begins with `const` is, by the word behind it.
fn const_kind(next: Option<&str>) -> Kind
    ensures { result ≡ const_kind (option_map (λ word. word.now) next.entry) }
{
    match next {
        Some(word) if is_function_word(word) => Kind::Block,
        _ => Kind::Line,
    }
}

/// What an item is that begins with a word which is a keyword in front of another word alone.
fn weak_kind(next: Option<&str>) -> Kind
    ensures { result ≡ weak_kind (option_map (λ word. word.now) next.entry) }
{
    match next {
        Some(_) => Kind::Block,
        None => Kind::Call,
    }
}

/// What an item is, by the word that it begins with and the word behind that.
#[tactic(auto, unfolding(crate::specs::Kinds::kind_of))]
pub(crate) fn kind_of(first: &str, next: Option<&str>) -> Kind
    ensures { result ≡ kind_of first.now (option_map (λ word. word.now) next.entry) }
{
    match first {
        "struct" | "enum" => Kind::Declaration,
        "impl" => Kind::Impl,
        "use" => Kind::Use,
        "mod" => Kind::Module,
        "type" => Kind::Alias,
        "static" => Kind::Line,
        "fn" | "trait" | "unsafe" | "async" | "extern" | "macro" => Kind::Block,
        "const" => const_kind(next),
        "union" | "auto" | "safe" | "default" | "gen" => weak_kind(next),
        _ => Kind::Call,
    }
}
