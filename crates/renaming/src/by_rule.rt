//! What serde makes of names by its rules.

ghost use Rattle.std.specs.Prelude.{◌≡◌, chars, encode_utf8_all, option_map, IfOk};
ghost use Rattle.renaming.specs.Cases.{field_by, variant_by, characters_by, renamed};

use crate::cases::{
    first_in_lowercase, in_lowercase, in_snake_case, in_uppercase, joined_words, with_hyphens,
};
use diag::{RenamePlace, RenameRule};
use std::alloc::{AllocError, Global};
use texts::Text;

/// What serde makes of a field's name by the rule.
fn field_by(
    alloc: Global,
    rule: RenameRule,
    name: Vec<char>,
) -> Result<Option<Vec<char>>, AllocError>
    ensures { IfOk result
        (λ found. option_map (λ cs. cs.items) found ≡ field_by rule name.items) }
{
    let name = match rule {
        RenameRule::Lower | RenameRule::Snake => name,
        RenameRule::Upper | RenameRule::ScreamingSnake => in_uppercase(alloc, &name)?,
        RenameRule::Pascal => joined_words(alloc, &name)?,
        RenameRule::Camel => return first_in_lowercase(alloc, &joined_words(alloc, &name)?),
        RenameRule::Kebab => with_hyphens(alloc, &name)?,
        RenameRule::ScreamingKebab => with_hyphens(alloc, &in_uppercase(alloc, &name)?)?,
    };
    Ok(Some(name))
}

/// What serde makes of a variant's name by the rule.
fn variant_by(
    alloc: Global,
    rule: RenameRule,
    name: Vec<char>,
) -> Result<Option<Vec<char>>, AllocError>
    ensures { IfOk result
        (λ found. option_map (λ cs. cs.items) found ≡ variant_by rule name.items) }
{
    let name = match rule {
        RenameRule::Lower => in_lowercase(alloc, &name)?,
        RenameRule::Upper => in_uppercase(alloc, &name)?,
        RenameRule::Pascal => name,
        RenameRule::Camel => return first_in_lowercase(alloc, &name),
        RenameRule::Snake => in_snake_case(alloc, &name)?,
        RenameRule::ScreamingSnake => in_uppercase(alloc, &in_snake_case(alloc, &name)?)?,
        RenameRule::Kebab => with_hyphens(alloc, &in_snake_case(alloc, &name)?)?,
        RenameRule::ScreamingKebab => {
            let snake = in_snake_case(alloc, &name)?;
            with_hyphens(alloc, &in_uppercase(alloc, &snake)?)?
        }
    };
    Ok(Some(name))
}

/// What serde makes of the name of a field or a variant by the rule.
fn characters_by(
    alloc: Global,
    rule: RenameRule,
    place: RenamePlace,
    name: Vec<char>,
) -> Result<Option<Vec<char>>, AllocError>
    ensures { IfOk result
        (λ found. option_map (λ cs. cs.items) found ≡ characters_by rule place name.items) }
{
    match place {
        RenamePlace::Field => field_by(alloc, rule, name),
        RenamePlace::Variant => variant_by(alloc, rule, name),
    }
}

/// The characters of the text.
#[tactic(auto, using(std::proofs::lemmas::Str::chars_from_encodes))]
fn characters_of(alloc: Global, text: &str) -> Result<Vec<char>, AllocError>
    ensures { IfOk result (λ cs. cs.items ≡ chars text.now) }
{
    text.chars().collect(alloc)
}

/// The text of the characters.
fn text_of(alloc: Global, characters: &[char]) -> Result<Text, AllocError>
    ensures { IfOk result (λ text. text ≡ encode_utf8_all characters.now) }
{
    let text: String = characters.iter().copied().collect(alloc)?;
    Ok(Text::from(text))
}

/// What serde makes of the name of a field or a variant by the rule. It makes nothing of a name whose first character,
/// under `camelCase`, is none of ASCII, or which is then empty: its derive does not compile there.
#[tactic(auto, unfolding(crate::specs::Cases::renamed))]
pub fn renamed(
    alloc: Global,
    rule: RenameRule,
    place: RenamePlace,
    name: &str,
) -> Result<Option<Text>, AllocError>
    ensures { IfOk result (λ found. found ≡ renamed rule place name.now) }
{
    let characters = characters_of(alloc, name)?;
    match characters_by(alloc, rule, place, characters)? {
        Some(characters) => Ok(Some(text_of(alloc, &characters)?)),
        None => Ok(None),
    }
}
