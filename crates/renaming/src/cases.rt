//! The cases of names, over their characters.

ghost use Rattle.std.specs.Prelude.{◌≡◌, ◌++◌, true, option_map, IfOk, OnOk};
ghost use Rattle.renaming.specs.Cases.{in_lowercase, in_uppercase, hyphen_for, with_hyphens, first_in_lowercase, of_word, joined_words, parted, in_snake_case};

use std::alloc::{AllocError, Global};

/// The characters, ASCII letters in lower case.
pub(crate) fn in_lowercase(alloc: Global, name: &[char]) -> Result<Vec<char>, AllocError>
    ensures { IfOk result (λ cs. cs.items ≡ in_lowercase name.now) }
{
    name.iter().map(|c| c.to_ascii_lowercase()).collect(alloc)
}

/// The characters, ASCII letters in upper case.
pub(crate) fn in_uppercase(alloc: Global, name: &[char]) -> Result<Vec<char>, AllocError>
    ensures { IfOk result (λ cs. cs.items ≡ in_uppercase name.now) }
{
    name.iter().map(|c| c.to_ascii_uppercase()).collect(alloc)
}

/// A hyphen for an underscore, and any other character for itself.
fn hyphen_for(c: char) -> char
    ensures { result ≡ hyphen_for c }
{
    if c == '_' { '-' } else { c }
}

/// The characters with hyphens for underscores.
pub(crate) fn with_hyphens(alloc: Global, name: &[char]) -> Result<Vec<char>, AllocError>
    ensures { IfOk result (λ cs. cs.items ≡ with_hyphens name.now) }
{
    name.iter().map(|c| hyphen_for(*c)).collect(alloc)
}

/// The characters, the first in lower case, where it is ASCII. serde has no answer to any other.
pub(crate) fn first_in_lowercase(
    alloc: Global,
    name: &[char],
) -> Result<Option<Vec<char>>, AllocError>
    ensures { IfOk result (λ found. option_map (λ cs. cs.items) found ≡ first_in_lowercase name.now) }
{
    match name {
        [first, rest @ ..] if first.is_ascii() => {
            let mut lowered = vec![in alloc; first.to_ascii_lowercase()]?;
            lowered.extend_from_slice(rest)?;
            Ok(Some(lowered))
        }
        _ => Ok(None),
    }
}

/// The character as it stands in a word that begins with it, or does not.
fn of_word(begins: bool, c: char) -> char
    ensures { result ≡ of_word begins c }
{
    if begins { c.to_ascii_uppercase() } else { c }
}

/// The words of a field without the underscores that part them, the first character of each in upper case.
pub(crate) fn joined_words(alloc: Global, name: &[char]) -> Result<Vec<char>, AllocError>
    ensures { IfOk result (λ cs. cs.items ≡ joined_words true name.now) }
{
    let mut joined = Vec::new(alloc);
    let mut begins = true;
    for c in name {
        if *c == '_' {
            begins = true;
        } else {
            joined.push(of_word(begins, *c))?;
            begins = false;
        }
    }
    Ok(joined)
}

/// Adds the character of a variant's name in lower case, a capital behind an underscore.
fn push_parted(snake: &mut Vec<char>, c: char) -> Result<(), AllocError>
    ensures { OnOk result (snake.new.items ≡ snake.old.items ++ parted c) }
{
    if c.is_uppercase() {
        snake.push('_')?;
    }
    snake.push(c.to_ascii_lowercase())?;
    Ok(())
}

/// The words of a variant in lower case, with an underscore before each capital but the first character.
pub(crate) fn in_snake_case(alloc: Global, name: &[char]) -> Result<Vec<char>, AllocError>
    ensures { IfOk result (λ cs. cs.items ≡ in_snake_case name.now) }
{
    let mut snake = Vec::new(alloc);
    if let [first, rest @ ..] = name {
        snake.push(first.to_ascii_lowercase())?;
        for c in rest {
            push_parted(&mut snake, *c)?;
        }
    }
    Ok(snake)
}
