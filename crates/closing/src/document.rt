//! The document of components, written without the trees of their schemas.

ghost use Rattle.std.specs.Prelude.{◌≡◌, ◌<◌, ℕ, [], length, map, IfOk, IsTrue};
ghost use Rattle.component.specs.Leaves.{term_view};
ghost use Rattle.inlining.specs.Inlining.{AreOnce, IsAmong, IsOrder};
ghost use Rattle.inlining.specs.Marks.{mark};
ghost use Rattle.instances.specs.Lists.{AreInstances};
ghost use Rattle.instances.specs.Names.{NamesDiffer, instance_names};
ghost use Rattle.schema_trees.specs.Held.{IsHeld};
ghost use Rattle.schema_core.specs.Document.{document_by, text_of};
ghost use Rattle.shapes.specs.Views.{declaration_view};
ghost use Rattle.closing.specs.Described.{AreShallow};
ghost use Rattle.closing.specs.Links.{inlining_of};
ghost use Rattle.closing.specs.Made.{AreAlong, AreTerms, entries_at};
ghost use Rattle.closing.specs.Texts.{AreSchemaTexts, numbers_from};

use crate::inlined::{Texts, texts_in_components};
use component::Term;
use inlining::Shown;
use instances::Reach;
use schema_core::{Alternatives, DocumentText, text_of_schema};
use shapes::Declaration;
use std::alloc::{AllocError, Global};
use std::collections::BTreeMap;
use texts::{List, Text};

/// The numbers of the components by their names.
fn by_name<'n>(
    alloc: Global,
    names: &'n [Text],
    components: &[usize],
) -> Result<BTreeMap<&'n str, usize>, AllocError>
    requires { (n : ℕ) → IsAmong n components.now → n < length names.now }
    ensures { IfOk result (λ numbers. map (λ e. (e.0.now, e.1)) numbers.entries
        ≡ numbers_from names.now [] components.now) }
{
    let mut numbers = BTreeMap::new(alloc);
    for number in components {
        numbers.insert(names[*number].as_str(), *number)?;
    }
    Ok(numbers)
}

/// The text of the document of the components, with alternatives under the keyword `by`: compact, members in byte order of
/// their names, and one new line at the end. `names` has the names of all instances, which differ, `terms` the terms of those
/// that are shown, `targets` those whose schemas stand in each, and `order` each instance behind these. No tree of a schema
/// is made: a schema that stands in others is a text, for as long as it is needed.
pub fn document_of(
    alloc: Global,
    declared: &[Declaration],
    reach: &Reach,
    names: &[Text],
    terms: &[Term],
    targets: &[List<usize>],
    order: &[usize],
    shown: &Shown,
    by: Alternatives,
) -> Result<Text, AllocError>
    requires instances { AreInstances (map declaration_view declared.now) reach.now }
    requires shallow { AreShallow (map declaration_view declared.now) }
    requires targets { targets.now ≡ inlining_of (map declaration_view declared.now) reach.now }
    requires order { IsOrder (inlining_of (map declaration_view declared.now) reach.now)
        order.now }
    requires along { AreAlong shown.now.marks
        (inlining_of (map declaration_view declared.now) reach.now) }
    requires as_many { length terms.now ≡ length reach.now }
    requires marked { length shown.now.marks ≡ length reach.now }
    requires terms { AreTerms (map declaration_view declared.now) reach.now shown.now.marks
        (map term_view terms.now) }
    requires names { names.now ≡ instance_names (map declaration_view declared.now) reach.now }
    requires differ { NamesDiffer (map declaration_view declared.now) }
    requires once { AreOnce shown.now.components }
    requires within { (n : ℕ) → IsAmong n shown.now.components → n < length reach.now }
    requires shown { (n : ℕ) → IsAmong n shown.now.components → IsTrue (mark shown.now.marks n) }
    ensures text { IfOk result (λ text. text ≡ text_of (document_by by
        (entries_at (map declaration_view declared.now) reach.now shown.now.components))) }
    ensures held { IfOk result (λ _. IsHeld (document_by by
        (entries_at (map declaration_view declared.now) reach.now shown.now.components))) }
{
    open_types::same_types_are_equal();
    open_types::types_stay_without_arguments();
    let made = texts_in_components(alloc, declared, reach, terms, targets, order, shown, by)?;
    let writer = Texts {
        declared,
        reach,
        made: made.as_slice(),
    };
    let mut text = DocumentText::new(alloc, by)?;
    for (name, number) in by_name(alloc, names, shown.components.as_slice())?.iter() {
        text.push(alloc, name, &terms[*number], &writer)?;
    }
    text.finish()
}

/// The name of each component and the compact text of its schema, with alternatives under the keyword `by`, in byte order of
/// the names. The schemas are those of `document_of`, and no tree of one is made.
pub fn schema_texts(
    alloc: Global,
    declared: &[Declaration],
    reach: &Reach,
    names: &[Text],
    terms: &[Term],
    targets: &[List<usize>],
    order: &[usize],
    shown: &Shown,
    by: Alternatives,
) -> Result<List<(Text, Text)>, AllocError>
    requires instances { AreInstances (map declaration_view declared.now) reach.now }
    requires shallow { AreShallow (map declaration_view declared.now) }
    requires targets { targets.now ≡ inlining_of (map declaration_view declared.now) reach.now }
    requires order { IsOrder (inlining_of (map declaration_view declared.now) reach.now)
        order.now }
    requires along { AreAlong shown.now.marks
        (inlining_of (map declaration_view declared.now) reach.now) }
    requires as_many { length terms.now ≡ length reach.now }
    requires marked { length shown.now.marks ≡ length reach.now }
    requires terms { AreTerms (map declaration_view declared.now) reach.now shown.now.marks
        (map term_view terms.now) }
    requires names { names.now ≡ instance_names (map declaration_view declared.now) reach.now }
    requires differ { NamesDiffer (map declaration_view declared.now) }
    requires once { AreOnce shown.now.components }
    requires within { (n : ℕ) → IsAmong n shown.now.components → n < length reach.now }
    requires shown { (n : ℕ) → IsAmong n shown.now.components → IsTrue (mark shown.now.marks n) }
    ensures { IfOk result (AreSchemaTexts by
        (entries_at (map declaration_view declared.now) reach.now shown.now.components)) }
{
    open_types::same_types_are_equal();
    open_types::types_stay_without_arguments();
    let made = texts_in_components(alloc, declared, reach, terms, targets, order, shown, by)?;
    let writer = Texts {
        declared,
        reach,
        made: made.as_slice(),
    };
    let mut texts = List::new(alloc);
    for (name, number) in by_name(alloc, names, shown.components.as_slice())?.iter() {
        let text = text_of_schema(alloc, &terms[*number], &writer, by)?;
        texts.push((Text::new(alloc, name)?, text))?;
    }
    Ok(texts)
}
