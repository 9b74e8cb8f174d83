//! The schemas of named fields.

ghost use Rattle.std.specs.Prelude.{◌≡◌, ◌++◌, [], ◌∷◌, map, IfOk, OnOk};
ghost use Rattle.schema_trees.specs.Schema.{named_views, tree_views, schema, no_schemas};
ghost use Rattle.component.specs.Leaves.{leaf_view, term_view};
ghost use Rattle.shapes.specs.Declarations.{named_fields, others_of};
ghost use Rattle.shapes.specs.Views.{member_view, beside_view};
ghost use Rattle.open_types.specs.Open.{open_view};
ghost use Rattle.terms.specs.Terms.{keywords_of, field_term, properties_of, required_names, others_part, object_of, own_term, own_beside, flattened_terms, form_term, internal_term, tag_alone, tag_schema, with_property};

use crate::field::{field_term, keywords_of};
use crate::flattened::{flattened_terms, others_of};
use crate::object::{all_of, object_term};
use crate::tagged::{push_name, push_tag, tag_alone};
use component::Term;
use schema_trees::Annotations as SchemaAnnotations;
use shapes::{Annotations, Beside, Member, flattened_of, has_map};
use std::alloc::{AllocError, Global};
use texts::{List, Text};

/// Named fields: whether they deny other members, what is flattened into them, and the members.
#[derive(Clone, Copy)]
pub(crate) struct NamedFields<'a> {
    pub(crate) denies_others: bool,
    pub(crate) beside: &'a Option<Box<Beside>>,
    pub(crate) members: &'a [Member],
}

/// The property of a member.
fn property_of(alloc: Global, member: &Member) -> Result<(Text, Term), AllocError>
    ensures name { IfOk result (λ p. p.0 ≡ member.now.name) }
    ensures term { IfOk result (λ p. term_view p.1
        ≡ field_term member.now.annotations (open_view member.now.ty)) }
{
    let name = member.name.copy(alloc)?;
    let term = field_term(alloc, &member.annotations, &member.ty)?;
    Ok((name, term))
}

/// A property for each member.
fn properties_of(alloc: Global, members: &[Member]) -> Result<List<(Text, Term)>, AllocError>
    ensures { IfOk result
        (λ ps. named_views leaf_view ps ≡ properties_of (map member_view members.now)) }
{
    let mut properties = List::new(alloc);
    for member in members {
        properties.push(property_of(alloc, member)?)?;
    }
    Ok(properties)
}

/// Adds the name of the member, where it must be there.
fn push_required(
    alloc: Global,
    required: &mut List<Text>,
    member: &Member,
) -> Result<(), AllocError>
    ensures { OnOk result
        (required.new ≡ required.old ++ required_names (member_view member.now ∷ [])) }
{
    if member.required {
        required.push(member.name.copy(alloc)?)?;
    }
    Ok(())
}

/// The names of the members that must be there.
fn required_of(alloc: Global, members: &[Member]) -> Result<List<Text>, AllocError>
    ensures { IfOk result (λ names. names ≡ required_names (map member_view members.now)) }
{
    let mut required = List::new(alloc);
    for member in members {
        push_required(alloc, &mut required, member)?;
    }
    Ok(required)
}

/// The names of the members that must be there, and the tag behind them.
fn tagged_required(alloc: Global, members: &[Member], tag: &Text) -> Result<List<Text>, AllocError>
    ensures { IfOk result
        (λ names. names ≡ required_names (map member_view members.now) ++ tag.now ∷ []) }
{
    let mut required = required_of(alloc, members)?;
    push_name(alloc, &mut required, tag)?;
    Ok(required)
}

/// A property for each member, and the tag behind them, whose text is the name.
fn tagged_properties(
    alloc: Global,
    members: &[Member],
    tag: &Text,
    name: &Text,
) -> Result<List<(Text, Term)>, AllocError>
    ensures { IfOk result (λ ps. named_views leaf_view ps ≡ with_property
        (properties_of (map member_view members.now)) tag.now (tag_schema name.now)) }
{
    let mut properties = properties_of(alloc, members)?;
    push_tag(alloc, &mut properties, tag, name)?;
    Ok(properties)
}

impl NamedFields<'_> {
    /// The object of the members, beside which others may be so.
    fn own_term(self, alloc: Global, keywords: SchemaAnnotations) -> Result<Term, AllocError>
        ensures { let b = beside_view self.entry.denies_others self.entry.beside.now in
            IfOk result (λ t. term_view t
            ≡ own_term keywords (others_of b) (map member_view self.entry.members.now)) }
    {
        let required = required_of(alloc, self.members)?;
        let properties = properties_of(alloc, self.members)?;
        let others = others_of(alloc, self.denies_others, self.beside)?;
        object_term(alloc, properties, others, required, keywords)
    }

    /// The object of the members beside what is flattened, where it has a property or a map.
    fn own_items(self, alloc: Global) -> Result<List<Term>, AllocError>
        ensures { let b = beside_view self.entry.denies_others self.entry.beside.now in
            IfOk result (λ items. tree_views leaf_view items
            ≡ own_beside b.map (others_of b) (map member_view self.entry.members.now) no_schemas) }
    {
        let mut items = List::new(alloc);
        if has_map(self.beside) || !self.members.is_empty() {
            items.push(self.own_term(alloc, SchemaAnnotations::new())?)?;
        }
        Ok(items)
    }

    /// The schemas of what is flattened, and the object of the members behind them.
    fn items_beside(self, alloc: Global) -> Result<List<Term>, AllocError>
        ensures { let b = beside_view self.entry.denies_others self.entry.beside.now in
            IfOk result (λ items. tree_views leaf_view items ≡ flattened_terms b.flattened
            (own_beside b.map (others_of b) (map member_view self.entry.members.now) no_schemas)) }
    {
        let mut items = flattened_terms(alloc, flattened_of(self.beside))?;
        items.append(self.own_items(alloc)?)?;
        Ok(items)
    }

    /// The schema of the fields.
    pub(crate) fn term(self, alloc: Global, annotations: &Annotations) -> Result<Term, AllocError>
        ensures { let b = beside_view self.entry.denies_others self.entry.beside.now in
            IfOk result (λ t. term_view t ≡ form_term annotations.now
            (named_fields b (map member_view self.entry.members.now))) }
    {
        let keywords = keywords_of(alloc, annotations)?;
        if flattened_of(self.beside).is_empty() {
            return self.own_term(alloc, keywords);
        }
        let items = self.items_beside(alloc)?;
        all_of(alloc, items, keywords)
    }

    /// The object of the members with the tag behind them, whose text is the name, beside which others may be so.
    fn tagged_own_term(
        self,
        alloc: Global,
        keywords: SchemaAnnotations,
        tag: &Text,
        name: &Text,
    ) -> Result<Term, AllocError>
        ensures { let b = beside_view self.entry.denies_others self.entry.beside.now in
            let ms = map member_view self.entry.members.now in
            IfOk result (λ t. term_view t ≡ object_of keywords
            (others_part (others_of b)) (required_names ms ++ tag.now ∷ [])
            (with_property (properties_of ms) tag.now (tag_schema name.now))) }
    {
        let required = tagged_required(alloc, self.members, tag)?;
        let properties = tagged_properties(alloc, self.members, tag, name)?;
        let others = others_of(alloc, self.denies_others, self.beside)?;
        object_term(alloc, properties, others, required, keywords)
    }

    /// The schemas of what is flattened and the object of the members, and behind them an object that has the tag.
    fn tagged_items(
        self,
        alloc: Global,
        annotations: &Annotations,
        tag: &Text,
        name: &Text,
    ) -> Result<List<Term>, AllocError>
        ensures { let b = beside_view self.entry.denies_others self.entry.beside.now in
            IfOk result (λ items. tree_views leaf_view items ≡ flattened_terms b.flattened
            (own_beside b.map (others_of b) (map member_view self.entry.members.now)
            (schema (tag_alone (keywords_of annotations.now) tag.now name.now) no_schemas))) }
    {
        let keywords = keywords_of(alloc, annotations)?;
        let last = tag_alone(alloc, keywords, tag, name)?;
        let mut items = self.items_beside(alloc)?;
        items.push(last)?;
        Ok(items)
    }

    /// The schema of the fields with a tag, whose text is the name.
    pub(crate) fn tagged_term(
        self,
        alloc: Global,
        annotations: &Annotations,
        tag: &Text,
        name: &Text,
    ) -> Result<Term, AllocError>
        ensures { let b = beside_view self.entry.denies_others self.entry.beside.now in
            IfOk result (λ t. term_view t ≡ internal_term annotations.now tag.now name.now
            (named_fields b (map member_view self.entry.members.now))) }
    {
        let keywords = keywords_of(alloc, annotations)?;
        if flattened_of(self.beside).is_empty() {
            return self.tagged_own_term(alloc, keywords, tag, name);
        }
        let items = self.tagged_items(alloc, annotations, tag, name)?;
        all_of(alloc, items, keywords)
    }
}
