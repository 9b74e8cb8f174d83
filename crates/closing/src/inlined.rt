//! The texts of schemas that stand in those of others.

ghost use Rattle.std.specs.Prelude.{◌≡◌, ◌<◌, ◌≤◌, ◌⊎◌, ℕ, length, map, get_or, option_map, None, IfOk, IsTrue};
ghost use Rattle.component.specs.Leaves.{term_view};
ghost use Rattle.open_types.specs.Open.{open_view};
ghost use Rattle.shapes.specs.Views.{declaration_view};
ghost use Rattle.inlining.specs.Inlining.{AreTargets, IsAmong, IsOrder, targets_of};
ghost use Rattle.inlining.specs.Marks.{mark};
ghost use Rattle.instances.specs.Lists.{AreInstances, number_in};
ghost use Rattle.closing.specs.Described.{AreShallow};
ghost use Rattle.closing.specs.Links.{inlining_of};
ghost use Rattle.closing.specs.Made.{AreAlong, AreTerms};
ghost use Rattle.closing.specs.Texts.{AreNeeded, AreNeededTo, AreTargetsOf, AreTargetsTo, AreTexts, IsThere, text_in};

use crate::closed::{any_value, reference_to};
use component::{Term, TermLeaf};
use inlining::Shown;
use instances::Reach;
use open_types::OpenType;
use schema_core::{Alternatives, WriteLeaf, push_schema_text, text_of_schema};
use schema_trees::Schema;
use shapes::Declaration;
use std::alloc::{AllocError, Global};
use texts::{List, Text};

/// What is written at the leaves of a term: the texts of the schemas of instances, as far as they are there, and references to
/// components.
#[derive(Drop)]
pub(crate) struct Texts<'s> {
    pub(crate) declared: &'s [Declaration],
    pub(crate) reach: &'s Reach,
    /// The text of the schema of each instance, where it is there.
    pub(crate) made: &'s [Option<Text>],
}

/// The text of the schema of the instance, where it is there.
fn text_at<'s>(reach: &Reach, made: &'s [Option<Text>], ty: &OpenType) -> Option<&'s str>
    ensures { option_map (λ text. text.now) result
        ≡ text_in made.now (number_in reach.now (open_view ty.now)) }
{
    match reach.number(ty) {
        Some(number) if number < made.len() => match &made[number] {
            Some(text) => Some(text.as_str()),
            None => None,
        },
        _ => None,
    }
}

impl WriteLeaf for Texts<'_> {
    ghost use Rattle.std.specs.Prelude.{map};
    ghost use Rattle.component.specs.Leaves.{LeafOf, leaf_view};
    ghost use Rattle.closing.specs.Closed.{put};
    ghost use Rattle.closing.specs.Texts.{there_at};

    type Leaf = TermLeaf;

    ghost Meaning = { LeafOf };

    ghost meaning = { leaf_view };

    ghost put = { λ c l. put (map declaration_view c.declared.now)
        (there_at (map declaration_view c.declared.now) c.reach.now c.made.now) l };

    ghost ready = { λ by c. AreTexts (map declaration_view c.declared.now) c.reach.now by
        c.made.now };

    fn push_leaf(
        &self,
        alloc: Global,
        text: &mut String,
        leaf: &TermLeaf,
        by: Alternatives,
    ) -> Result<(), AllocError> {
        match leaf {
            TermLeaf::Param(_) => push_schema_text(alloc, text, &any_value(alloc)?, by),
            TermLeaf::Named {
                of,
                inline,
                annotations,
            } => {
                if !*inline {
                    let schema = reference_to(alloc, self.declared, of, annotations)?;
                    return push_schema_text(alloc, text, &schema, by);
                }
                match text_at(self.reach, self.made, of) {
                    Some(found) => text.push_str(found),
                    None => push_schema_text(alloc, text, &any_value(alloc)?, by),
                }
            }
        }
    }
}

/// Each of the targets is needed up to the turn, whatever was known of it before.
fn raise(until: &mut Vec<usize>, targets: &[usize], turn: usize)
    requires { (n : ℕ) → IsAmong n targets.now → n < length until.old.items }
    ensures many { length until.new.items ≡ length until.old.items }
    ensures targets { (n : ℕ) → IsAmong n targets.now → get_or until.new.items n 0 ≡ turn }
    ensures others { (n : ℕ) → ¬ (IsAmong n targets.now)
        → get_or until.new.items n 0 ≡ get_or until.old.items n 0 }
{
    for target in targets {
        until[*target] = turn;
    }
}

/// Of each instance the turn from which on its text is needed no more: the instances of the order have the turns from one on,
/// and behind them all the components have one. Where it is needed nowhere, that is zero.
pub(crate) fn needed_until(
    alloc: Global,
    targets: &[List<usize>],
    order: &[usize],
    components: &[usize],
) -> Result<Vec<usize>, AllocError>
    requires targets { AreTargets targets.now }
    requires order { (n : ℕ) → IsAmong n order.now → n < length targets.now }
    requires components { (n : ℕ) → IsAmong n components.now → n < length targets.now }
    ensures many { IfOk result (λ until. length until.items ≡ length targets.now) }
    ensures needed { IfOk result (λ until. AreNeeded targets.now order.now until.items) }
    ensures last { IfOk result
        (λ until. AreNeededTo targets.now (length order.now) components.now until.items) }
    ensures no_longer { IfOk result
        (λ until. AreTargetsTo targets.now order.now (length order.now) until.items) }
    ensures by_components { IfOk result
        (λ until. AreTargetsOf targets.now (length order.now) components.now until.items) }
{
    let mut until = Vec::new(alloc);
    for _ in 0..targets.len() {
        until.push(0)?;
    }
    for turn in 0..order.len() {
        raise(&mut until, targets[order[turn]].as_slice(), turn + 1);
    }
    for number in components {
        raise(&mut until, targets[*number].as_slice(), order.len() + 1);
    }
    Ok(until)
}

/// Drops the texts of those targets that are needed no more from the turn on.
fn drop_done(made: &mut Vec<Option<Text>>, targets: &[usize], until: &[usize], turn: usize)
    requires until { (n : ℕ) → IsAmong n targets.now → n < length until.now }
    requires made { (n : ℕ) → IsAmong n targets.now → n < length made.old.items }
    ensures many { length made.new.items ≡ length made.old.items }
    ensures done { (n : ℕ) → IsAmong n targets.now → get_or until.now n 0 ≤ turn
        → get_or made.new.items n None ≡ None }
    ensures others { (n : ℕ) → (get_or made.new.items n None ≡ get_or made.old.items n None)
        ⊎ ((get_or made.new.items n None ≡ None) × (get_or until.now n 0 ≤ turn)) }
{
    for target in targets {
        if until[*target] <= turn {
            made[*target] = None;
        }
    }
}

/// The text of the schema of each instance that is marked and stands in the schema of a component. That of any other is let
/// go as soon as the last in whose schema it stands is made.
pub(crate) fn inline_texts(
    alloc: Global,
    declared: &[Declaration],
    reach: &Reach,
    terms: &[Term],
    targets: &[List<usize>],
    order: &[usize],
    marks: &[bool],
    until: &[usize],
    by: Alternatives,
) -> Result<Vec<Option<Text>>, AllocError>
    requires instances { AreInstances (map declaration_view declared.now) reach.now }
    requires shallow { AreShallow (map declaration_view declared.now) }
    requires targets { targets.now ≡ inlining_of (map declaration_view declared.now) reach.now }
    requires order { IsOrder (inlining_of (map declaration_view declared.now) reach.now)
        order.now }
    requires along { AreAlong marks.now
        (inlining_of (map declaration_view declared.now) reach.now) }
    requires as_many { length terms.now ≡ length reach.now }
    requires marked { length marks.now ≡ length reach.now }
    requires terms { AreTerms (map declaration_view declared.now) reach.now marks.now
        (map term_view terms.now) }
    requires until { length until.now ≡ length reach.now }
    requires needed { AreNeeded targets.now order.now until.now }
    requires no_longer { AreTargetsTo targets.now order.now (length order.now) until.now }
    ensures texts { IfOk result
        (λ made. AreTexts (map declaration_view declared.now) reach.now by made.items) }
    ensures there { IfOk result (λ made. (n : ℕ) → n < length reach.now
        → IsTrue (mark marks.now n) → length order.now < get_or until.now n 0
        → IsThere made.items n) }
    ensures needed { IfOk result (λ made. (n : ℕ) → IsThere made.items n
        → length order.now < get_or until.now n 0) }
{
    inlining::orders_stand();
    open_types::same_types_are_equal();
    open_types::types_stay_without_arguments();
    let mut made = Vec::new(alloc);
    for _ in 0..reach.len() {
        made.push(None)?;
    }
    for turn in 0..order.len() {
        let number = order[turn];
        if marks[number] && until[number] > 0 {
            let writer = Texts {
                declared,
                reach,
                made: made.as_slice(),
            };
            let text = text_of_schema(alloc, &terms[number], &writer, by)?;
            made[number] = Some(text);
        }
        drop_done(&mut made, targets[number].as_slice(), until, turn + 1);
    }
    Ok(made)
}

/// The texts of the schemas that stand in those of the components, each at the number of its instance.
pub(crate) fn texts_in_components(
    alloc: Global,
    declared: &[Declaration],
    reach: &Reach,
    terms: &[Term],
    targets: &[List<usize>],
    order: &[usize],
    shown: &Shown,
    by: Alternatives,
) -> Result<Vec<Option<Text>>, AllocError>
    requires instances { AreInstances (map declaration_view declared.now) reach.now }
    requires shallow { AreShallow (map declaration_view declared.now) }
    requires targets { targets.now ≡ inlining_of (map declaration_view declared.now) reach.now }
    requires order { IsOrder (inlining_of (map declaration_view declared.now) reach.now)
        order.now }
    requires along { AreAlong shown.now.marks
        (inlining_of (map declaration_view declared.now) reach.now) }
    requires as_many { length terms.now ≡ length reach.now }
    requires marked { length shown.now.marks ≡ length reach.now }
    requires terms { AreTerms (map declaration_view declared.now) reach.now shown.now.marks
        (map term_view terms.now) }
    requires within { (n : ℕ) → IsAmong n shown.now.components → n < length reach.now }
    requires shown { (n : ℕ) → IsAmong n shown.now.components → IsTrue (mark shown.now.marks n) }
    ensures texts { IfOk result
        (λ made. AreTexts (map declaration_view declared.now) reach.now by made.items) }
    ensures there { IfOk result (λ made. (n m : ℕ) → IsAmong n shown.now.components
        → IsAmong m (targets_of (inlining_of (map declaration_view declared.now) reach.now) n)
        → IsThere made.items m) }
{
    let components = shown.components.as_slice();
    let until = needed_until(alloc, targets, order, components)?;
    let marks = shown.marks.as_slice();
    inline_texts(
        alloc,
        declared,
        reach,
        terms,
        targets,
        order,
        marks,
        until.as_slice(),
        by,
    )
}
