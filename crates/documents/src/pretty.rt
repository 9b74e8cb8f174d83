//! The pretty text of a compact one.

ghost use Rattle.std.specs.Prelude.{◌≡◌, ◌++◌, IfOk, false, true};
ghost use Rattle.serde_json.specs.Data.{Data};
ghost use Rattle.documents.specs.Text.{IsTextOf};

use json::{Pretty, Reader, Scratch, Token};
use std::alloc::{AllocError, Global};
use texts::Text;

/// The pretty text of the value whose compact text this is: each item and member on a line of its own, with two spaces of
/// indent, and one new line at the end. It makes no tree, so it takes as much stack for a text of any depth.
pub fn pretty_text(alloc: Global, text: &str) -> Result<Text, AllocError>
    ensures { IfOk result (λ pretty. (value : Data) → IsTextOf false value text.now
        → IsTextOf true value pretty) }
{
    let mut scratch = Scratch::new(alloc);
    let mut reader = Reader::new(text, &mut scratch)?;
    let mut out = Pretty::new(alloc);
    'tokens: while let Some(token) = reader.next() {
        // No token of a value.
        if let Token::Bad = token {
            break 'tokens;
        }
        out.token(token)?;
    }
    let json = String::from_utf8(out.into_inner()).unwrap();
    let mut pretty = Text::from(json);
    pretty.push("\n")?;
    Ok(pretty)
}
