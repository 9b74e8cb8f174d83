//! The text of a sample.

ghost use Rattle.std.specs.Prelude.{◌≡◌, ◌<◌, ◌≤◌, ◌++◌, OnOk, IfOk, string_bytes};
ghost use Rattle.samples.specs.Rings.{turn, name};
ghost use Rattle.samples.specs.Samples.{declaration_text, most_declarations, sample_text, type_text};

use std::alloc::{AllocError, Global};
use texts::Text;

/// The most declarations of a sample.
pub const MOST_DECLARATIONS: usize = 1000;

/// The name of the declaration of the number: `S`, `G` or `E` and the number.
fn name_of(alloc: Global, number: usize) -> Result<String, AllocError>
    ensures { IfOk result (λ text. string_bytes text ≡ name number) }
{
    match number % 3 {
        0 => format!(in alloc; "S{}", number),
        1 => format!(in alloc; "G{}", number),
        _ => format!(in alloc; "E{}", number),
    }
}

/// How its type is written.
fn type_of(alloc: Global, number: usize) -> Result<String, AllocError>
    ensures { IfOk result (λ text. string_bytes text ≡ type_text number) }
{
    let name = name_of(alloc, number)?;
    if number % 3 == 1 {
        return format!(in alloc; "{}<bool>", name);
    }
    Ok(name)
}

/// Its declaration, which names the declaration of the next number.
fn declaration_of(alloc: Global, number: usize, next: usize) -> Result<String, AllocError>
    ensures { IfOk result (λ text. string_bytes text
        ≡ declaration_text (turn number) (name number) (type_text next)) }
{
    let name = name_of(alloc, number)?;
    let ty = type_of(alloc, next)?;
    match number % 3 {
        0 => {
            format!(in alloc;
                "struct {} {{ id: u64, name: Option<String>, next: Option<Box<{}>> }}\n",
                name, ty
            )
        }
        1 => format!(in alloc;
            "struct {}<T> {{ item: T, next: Option<Box<{}>> }}\n",
            name, ty
        ),
        _ => {
            format!(in alloc;
                "#[serde(tag = \"t\")] enum {} {{ A, B {{ next: Vec<{}> }} }}\n",
                name, ty
            )
        }
    }
}

/// The source of `n` declarations, from 1 to `MOST_DECLARATIONS`, a line each, of which each names the next and the last the
/// first: in turn a struct, a struct over a type parameter and an enum with an internal tag. It can only want memory.
pub fn sample_source(alloc: Global, n: usize) -> Result<Text, AllocError>
    requires some { 0 < n }
    requires few { n ≤ most_declarations }
    ensures { IfOk result (λ text. text ≡ sample_text n) }
{
    let mut text = Text::new(alloc, "")?;
    for number in 0..n {
        let declaration = declaration_of(alloc, number, (number + 1) % n)?;
        text.push(declaration.as_str())?;
    }
    Ok(text)
}
