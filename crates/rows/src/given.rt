//! Parts of what a row gives: members, texts, numbers, lists and words that it says.

ghost use Rattle.std.specs.Prelude.{◌≡◌, ◌↔◌, true, None, Some, IfOk, IfErr, IsTrue, option_and_then};
ghost use Rattle.serde_json.specs.Data.{no_items, item};
ghost use Rattle.serde_json.specs.Find.{get, as_array, as_bool, as_str};
ghost use Rattle.serde_json.specs.View.{view, items_view};
ghost use Rattle.rows.specs.Given.{count_at, count_of, items_at, list_at, text_at, IsNoPair, IsWanted};

use crate::error::{Part, RowError};
use serde_json::Value;

/// The member of the name. Where there is none it is wanted.
pub fn member<'v>(given: &'v Value, name: &'static str) -> Result<&'v Value, RowError>
    ensures found { IfOk result (λ part. get name.now (view given.now) ≡ Some (view part.now)) }
    ensures wanted { IfErr result (λ error. (error ≡ RowError.Wanted (Part.Member name.entry))
        × (get name.now (view given.now) ≡ None)) }
{
    given.get(name).ok_or(RowError::Wanted(Part::Member(name)))
}

/// The text that is given. Where it is no text, one is wanted.
pub fn text_of(given: &Value) -> Result<&str, RowError>
    ensures found { IfOk result (λ text. as_str (view given.now) ≡ Some text.now) }
    ensures wanted { IfErr result (λ error. (error ≡ RowError.Wanted Part.Text)
        × (as_str (view given.now) ≡ None)) }
{
    given.as_str().ok_or(RowError::Wanted(Part::Text))
}

/// The text of the member. Where there is no member of the name, or it is no text, that is wanted.
pub fn text_at<'v>(given: &'v Value, name: &'static str) -> Result<&'v str, RowError>
    ensures found { IfOk result (λ text. text_at name.now (view given.now) ≡ Some text.now) }
    ensures wanted { IfErr result (λ error. IsWanted error
        × (text_at name.now (view given.now) ≡ None)) }
{
    text_of(member(given, name)?)
}

/// The number that is given, from 0 on and below 2^64. Where it is no such number, one is wanted.
pub fn count_of(given: &Value) -> Result<usize, RowError>
    ensures found { IfOk result (λ count. count_of (view given.now) ≡ Some count) }
    ensures wanted { IfErr result (λ error. (error ≡ RowError.Wanted Part.Number)
        × (count_of (view given.now) ≡ None)) }
{
    let number = given.as_u64().ok_or(RowError::Wanted(Part::Number))?;
    Ok(number as usize)
}

/// The number of the member. Where there is no member of the name, or it is no number, that is wanted.
pub fn count_at(given: &Value, name: &'static str) -> Result<usize, RowError>
    ensures found { IfOk result (λ count. count_at name.now (view given.now) ≡ Some count) }
    ensures wanted { IfErr result (λ error. IsWanted error
        × (count_at name.now (view given.now) ≡ None)) }
{
    count_of(member(given, name)?)
}

/// The items of the list. Where no list is given, one is wanted.
pub fn list_of(given: &Value) -> Result<&[Value], RowError>
    ensures found { IfOk result (λ items. as_array (view given.now) ≡ Some (items_view items.now)) }
    ensures wanted { IfErr result (λ error. (error ≡ RowError.Wanted Part.List)
        × (as_array (view given.now) ≡ None)) }
{
    let items = given.as_array().ok_or(RowError::Wanted(Part::List))?;
    Ok(items.as_slice())
}

/// The items of the member. Where there is no member of the name, or it is no list, that is wanted.
pub fn list_at<'v>(given: &'v Value, name: &'static str) -> Result<&'v [Value], RowError>
    ensures found { IfOk result (λ items. list_at name.now (view given.now)
        ≡ Some (items_view items.now)) }
    ensures wanted { IfErr result (λ error. IsWanted error
        × (list_at name.now (view given.now) ≡ None)) }
{
    list_of(member(given, name)?)
}

/// The items of the member, or none where there is no member of the name. Where it is no list, one is wanted.
pub fn items_at<'v>(given: &'v Value, name: &'static str) -> Result<&'v [Value], RowError>
    ensures found { IfOk result (λ items. items_at name.now (view given.now)
        ≡ Some (items_view items.now)) }
    ensures wanted { IfErr result (λ error. (error ≡ RowError.Wanted Part.List)
        × (items_at name.now (view given.now) ≡ None)) }
{
    match given.get(name) {
        Some(member) => list_of(member),
        None => Ok(&[]),
    }
}

/// The two items of the list. Where no list of two is given, one is wanted.
#[tactic(auto, using(crate::proofs::RowLaws::others_are_no_pair))]
pub fn pair_of(given: &Value) -> Result<(&Value, &Value), RowError>
    ensures found { IfOk result (λ pair. as_array (view given.now)
        ≡ Some (item (view pair.0.now) (item (view pair.1.now) no_items))) }
    ensures wanted { IfErr result (λ error. IsWanted error × IsNoPair (view given.now)) }
{
    let items = list_of(given)?;
    if items.len() != 2 {
        return Err(RowError::Wanted(Part::Pair));
    }
    Ok((&items[0], &items[1]))
}

/// Whether the member of the name is `true`.
pub fn is_said(given: &Value, word: &str) -> bool
    ensures { IsTrue result
        ↔ (option_and_then as_bool (get word.now (view given.now)) ≡ Some true) }
{
    given.get(word).and_then(Value::as_bool) == Some(true)
}
