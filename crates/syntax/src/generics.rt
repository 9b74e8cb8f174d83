//! Generic parameters.

ghost use Rattle.std.specs.Prelude.{◌≡◌, ◌≤◌, ◌<◌, length, IfOk};
ghost use Rattle.words.specs.Words.{words_view};
ghost use Rattle.words.specs.Reading.{Gives};
ghost use Rattle.syntax.specs.Items.{parameter_view, generics_view};
ghost use Rattle.syntax.specs.ItemDepth.{within_levels};
ghost use Rattle.syntax.specs.GenericReading.{after_lifetimes, after_outlived, after_bounded, type_at, const_at, const_or_type, bare_parameter_at, generics_at};

use crate::item::{GenericParam, Generics};
use attributes::attributes_at;
use std::alloc::Global;
use texts::List;
use tokens::TokenTree;
use type_grammar::{ListEnd, MAX_LEVELS, after_bounds, list_until, type_at};
use words::{
    Keyword, ReadItem, Sign, Stop, ident_of, lifetime_at, lifetime_of, name_at, optional_keyword,
    optional_lifetime, optional_sign, sign_at,
};

/// How many levels types may nest in the arguments of a path among bounds, which is a level itself.
pub(crate) const LEVELS_IN_BOUNDS: usize = MAX_LEVELS - 1;

/// What follows lifetimes with `+` between them.
fn after_lifetimes(trees: &[TokenTree]) -> Result<&[TokenTree], Stop>
    ensures value { Gives (λ rest. words_view rest.now) result
        (after_lifetimes (words_view trees.now)) }
    ensures shorter { IfOk result (λ rest. length rest.now ≤ length trees.now) }
{
    let mut rest = trees;
    'chain: loop {
        let (_, after) = lifetime_at(rest)?;
        match optional_sign(after, Sign::Plus) {
            None => return Ok(after),
            Some((_, next)) => rest = next,
        }
    }
}

/// What follows a colon and lifetimes, of which there may be none, where the colon stands.
#[tactic(auto, unfolding(crate::specs::GenericReading::after_outlived))]
fn after_outlived(trees: &[TokenTree]) -> Result<&[TokenTree], Stop>
    ensures value { Gives (λ rest. words_view rest.now) result
        (after_outlived (words_view trees.now)) }
    ensures shorter { IfOk result (λ rest. length rest.now ≤ length trees.now) }
{
    match optional_sign(trees, Sign::Colon) {
        None => Ok(trees),
        Some((_, rest)) => match optional_lifetime(rest) {
            None => Ok(rest),
            Some(_) => after_lifetimes(rest),
        },
    }
}

/// What follows a colon and bounds, where the colon stands.
#[tactic(auto, unfolding(crate::specs::GenericReading::after_bounded))]
fn after_bounded(alloc: Global, trees: &[TokenTree]) -> Result<&[TokenTree], Stop>
    ensures value { Gives (λ rest. words_view rest.now) result
        (after_bounded within_levels (words_view trees.now)) }
    ensures shorter { IfOk result (λ rest. length rest.now ≤ length trees.now) }
{
    match optional_sign(trees, Sign::Colon) {
        None => Ok(trees),
        Some((_, rest)) => after_bounds(alloc, rest, LEVELS_IN_BOUNDS),
    }
}

/// A type parameter.
fn type_parameter_at(
    alloc: Global,
    trees: &[TokenTree],
) -> Result<(GenericParam, &[TokenTree]), Stop>
    ensures value { Gives (λ p. (parameter_view p.0, words_view p.1.now)) result
        (type_at within_levels (words_view trees.now)) }
    ensures shorter { IfOk result (λ p. length p.1.now < length trees.now) }
{
    let (name, rest) = name_at(trees)?;
    let rest = after_bounded(alloc, rest)?;
    Ok((GenericParam::Ty(ident_of(alloc, name)?), rest))
}

/// A constant parameter, whose `const` was read.
fn const_parameter_at(
    alloc: Global,
    trees: &[TokenTree],
) -> Result<(GenericParam, &[TokenTree]), Stop>
    ensures value { Gives (λ p. (parameter_view p.0, words_view p.1.now)) result
        (const_at within_levels (words_view trees.now)) }
    ensures shorter { IfOk result (λ p. length p.1.now < length trees.now) }
{
    let (name, rest) = name_at(trees)?;
    let (_, rest) = sign_at(rest, Sign::Colon)?;
    let (_, rest) = type_at(alloc, rest, MAX_LEVELS)?;
    Ok((GenericParam::Constant(ident_of(alloc, name)?), rest))
}

/// A parameter without its attributes.
#[tactic(auto, unfolding(crate::specs::GenericReading::bare_parameter_at))]
fn bare_parameter_at(
    alloc: Global,
    trees: &[TokenTree],
) -> Result<(GenericParam, &[TokenTree]), Stop>
    ensures value { Gives (λ p. (parameter_view p.0, words_view p.1.now)) result
        (bare_parameter_at within_levels (words_view trees.now)) }
    ensures shorter { IfOk result (λ p. length p.1.now < length trees.now) }
{
    match optional_lifetime(trees) {
        Some((token, rest)) => {
            let rest = after_outlived(rest)?;
            Ok((GenericParam::Lifetime(lifetime_of(alloc, token)?), rest))
        }
        None => match optional_keyword(trees, Keyword::Const) {
            Some((_, rest)) => const_parameter_at(alloc, rest),
            None => type_parameter_at(alloc, trees),
        },
    }
}

/// How parameters are read.
struct Parameter;

impl ReadItem for Parameter {
    ghost use Rattle.syntax.specs.Items.{ParameterItem, parameter_view};
    ghost use Rattle.syntax.specs.ItemDepth.{within_levels};
    ghost use Rattle.syntax.specs.GenericReading.{parameter_at};

    type Item = GenericParam;

    ghost Form = { ParameterItem };

    ghost form_of = { parameter_view };

    ghost reader = { parameter_at within_levels };

    #[tactic(auto, unfolding(crate::specs::GenericReading::parameter_at))]
    fn item_at(alloc: Global, trees: &[TokenTree]) -> Result<(GenericParam, &[TokenTree]), Stop> {
        let (_attrs, start) = attributes_at(alloc, trees)?;
        bare_parameter_at(alloc, start)
    }
}

/// The generic parameters, where `<` stands, and what follows them.
#[tactic(auto, unfolding(crate::specs::GenericReading::generics_at))]
pub(crate) fn generics_at(
    alloc: Global,
    trees: &[TokenTree],
) -> Result<(Generics, &[TokenTree]), Stop>
    ensures value { Gives (λ p. (generics_view p.0, words_view p.1.now)) result
        (generics_at within_levels (words_view trees.now)) }
    ensures shorter { IfOk result (λ p. length p.1.now ≤ length trees.now) }
{
    match optional_sign(trees, Sign::Less) {
        None => {
            let params = List::new(alloc);
            Ok((Generics { params }, trees))
        }
        Some((_, inside)) => {
            let (params, rest) = list_until::<Parameter>(alloc, inside, ListEnd::Angle)?;
            let (_, rest) = sign_at(rest, Sign::Greater)?;
            Ok((Generics { params }, rest))
        }
    }
}
