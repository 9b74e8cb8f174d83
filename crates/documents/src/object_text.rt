//! The text of an object, from the texts of its members.

ghost use Rattle.std.specs.Prelude.{◌≡◌, ◌++◌, IfOk, OnOk, false};
ghost use Rattle.json.specs.Lex.{tokens};
ghost use Rattle.serde_json.specs.Data.{Data, Members, object};
ghost use Rattle.serde_json.specs.View.{members_view};
ghost use Rattle.documents.specs.Text.{IsJsonOf};
ghost use Rattle.documents.specs.Written.{AreTextsOf};

use json::{Reader, Scratch, Token, Writer};
use serde_json::{Map, Value};
use std::alloc::{AllocError, Global};
use std::collections::BTreeMap;
use texts::Text;

/// The compact text of each member, under its name.
pub(crate) fn member_texts(
    alloc: Global,
    members: &Map<String, Value>,
) -> Result<BTreeMap<Text, Text>, AllocError>
    ensures { IfOk result (λ texts. AreTextsOf (members_view members.now.entries) texts.entries) }
{
    let mut texts = BTreeMap::new(alloc);
    for (name, value) in members.iter() {
        let text = Text::from(value.to_string(alloc)?);
        texts.insert(Text::new(alloc, name.as_str())?, text)?;
    }
    Ok(texts)
}

/// Writes the tokens of the text, which is JSON of a value. It makes no tree, so it takes as much stack for a text of any
/// depth.
fn write_text(alloc: Global, out: &mut Writer, text: &str) -> Result<(), AllocError>
    ensures before { OnOk result (out.new.before ≡ out.old.before) }
    ensures tokens { OnOk result ((value : Data) → IsJsonOf false value text.now
        → out.new.tokens ≡ out.old.tokens ++ tokens text.now) }
{
    let mut scratch = Scratch::new(alloc);
    let mut reader = Reader::new(text, &mut scratch)?;
    'tokens: while let Some(token) = reader.next() {
        // No token of a value.
        if let Token::Bad = token {
            break 'tokens;
        }
        out.token(token)?;
    }
    Ok(())
}

/// The compact text of the object whose members have these texts, in byte order of names.
pub(crate) fn object_text(alloc: Global, members: &BTreeMap<Text, Text>) -> Result<Text, AllocError>
    ensures { IfOk result (λ json. (values : Members) → AreTextsOf values members.now.entries
        → IsJsonOf false (object values) json) }
{
    let mut out = Writer::new(Vec::new(alloc));
    out.begin_object()?;
    for (name, text) in members.iter() {
        out.key(name.as_str())?;
        write_text(alloc, &mut out, text.as_str())?;
    }
    out.end_object()?;
    Ok(Text::from(String::from_utf8(out.into_inner()).unwrap()))
}
