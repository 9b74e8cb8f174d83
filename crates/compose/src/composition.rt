//! The components of declarations, as long as their schemas are not made.

ghost use Rattle.std.specs.Prelude.{◌≡◌, ◌↔◌, [], length, IfOk, IsTrue};
ghost use Rattle.diag.specs.Refusal.{Refuses};
ghost use Rattle.schema_trees.specs.Held.{IsHeld};
ghost use Rattle.schema_core.specs.declared.alternatives.Alternatives.{Alternatives as Keyword};
ghost use Rattle.schema_core.specs.Document.{document, document_by, text_of};
ghost use Rattle.schema_core.specs.Entries.{entry_names, IsInOrder};
ghost use Rattle.syntax.specs.Items.{declarations_view};
ghost use Rattle.syntax.specs.Named.{AreNamed};
ghost use Rattle.closing.specs.Described.{Describes};
ghost use Rattle.closing.specs.Texts.{AreSchemaTexts};
ghost use Rattle.compose.specs.Bounds.{collects_all};
ghost use Rattle.compose.specs.Faults.{AreDerived, AreRefused, IsDerived, IsRefused};

use crate::derive::{Derived, derived_within};
use crate::settled::{bounded_of, bounded_of_source};
use crate::within::Bounded;
use closing::{components_of, document_of, schema_texts};
use configuration::Config;
use diag::DeriveError;
use schema_core::{Alternatives, Components};
use shapes::Declaration;
use std::alloc::{AllocError, Global};
use std::marker::Model;
use syntax::Declarations;
use texts::{List, Text};

/// The components of declarations, whose schemas are not made yet: the text of their document takes no trees of them.
#[derive(Drop)]
pub struct Composition {
    resolved: List<Declaration>,
    bounded: Bounded,
}

// seen as the components' names and schemas
impl Model for Composition {
    ghost use Rattle.std.specs.Prelude.{ℕ, List as Items, map};
    ghost use Rattle.std.specs.Coded.{coded_list, coded×, coded_ℕ};
    ghost use Rattle.schema_trees.specs.proved.Code.{coded_schema};
    ghost use Rattle.schema_trees.specs.Schema.{SchemaOf};
    ghost use Rattle.schema_trees.specs.contracts.tree.RefLeaf as reference;
    ghost use Rattle.schema_trees.specs.declared.tree.RefLeaf.{RefLeaf};
    ghost use Rattle.shapes.specs.Views.{declaration_view};
    ghost use Rattle.closing.specs.Made.{entries_at};
    ghost use Rattle.compose.specs.Within.{AreWithin};

    ghost Value = { Items (Items ℕ × SchemaOf RefLeaf) };

    ghost coded = { coded_list (coded× (coded_list coded_ℕ) (coded_schema reference.the_row.coded)) };

    ghost view = { λ c. entries_at (map declaration_view c.resolved) c.bounded.reach
        c.bounded.shown.components };

    ghost invariant = { λ c. AreWithin (map declaration_view c.resolved) c.bounded };
}

impl Composition {
    /// How many components there are.
    pub fn len(&self) -> usize
        ensures { result ≡ length self.now }
    {
        closing::entries_are();
        self.bounded.shown.components.len()
    }

    /// Whether there is no component.
    pub fn is_empty(&self) -> bool
        ensures { IsTrue result ↔ (self.now ≡ []) }
    {
        self.len() == 0
    }

    /// The text of the document, with alternatives under the keyword `by`: compact, members in byte order of their names, and
    /// one new line at the end. The document is a value that `serde_json` can hold. It can only want memory.
    pub fn to_text(&self, alloc: Global, by: Alternatives) -> Result<Text, AllocError>
        ensures text { IfOk result (λ text. text ≡ text_of (document_by by self.now)) }
        ensures held { IfOk result (λ _. IsHeld (document_by by self.now)) }
    {
        let Bounded {
            reach,
            names,
            terms,
            links,
            order,
            shown,
            ..
        } = &self.bounded;
        document_of(
            alloc,
            self.resolved.as_slice(),
            reach,
            names.as_slice(),
            terms.as_slice(),
            links.targets.as_slice(),
            order.as_slice(),
            shown,
            by,
        )
    }

    /// The name of each component and the compact text of its schema, with alternatives under the keyword `by`, in byte order
    /// of the names. It can only want memory.
    pub fn schema_texts(
        &self,
        alloc: Global,
        by: Alternatives,
    ) -> Result<List<(Text, Text)>, AllocError>
        ensures texts { IfOk result (AreSchemaTexts by self.now) }
        ensures order { IsInOrder (entry_names self.now) }
    {
        closing::entries_are();
        let Bounded {
            reach,
            names,
            terms,
            links,
            order,
            shown,
            ..
        } = &self.bounded;
        schema_texts(
            alloc,
            self.resolved.as_slice(),
            reach,
            names.as_slice(),
            terms.as_slice(),
            links.targets.as_slice(),
            order.as_slice(),
            shown,
            by,
        )
    }

    /// The components, with their schemas made. It can only want memory.
    pub fn components(self, alloc: Global) -> Result<Components, AllocError>
        ensures { IfOk result (λ components. components ≡ self) }
    {
        let Composition { resolved, bounded } = self;
        let Bounded {
            reach,
            names,
            terms,
            order,
            shown,
            ..
        } = bounded;
        components_of(
            alloc,
            resolved.as_slice(),
            &reach,
            names.as_slice(),
            terms,
            order.as_slice(),
            &shown,
        )
    }

    /// The components, with their schemas made, and their types. It can only want memory.
    pub fn derived(self, alloc: Global) -> Result<Derived, AllocError>
        ensures { IfOk result (λ d. d.components ≡ self) }
    {
        let Composition { resolved, bounded } = self;
        derived_within(alloc, resolved.as_slice(), bounded)
    }
}

/// The components of the declarations, whose schemas are not made yet. Each field in braces has a name, as it has in
/// declarations that are read.
///
/// A refusal is as for `derive_declarations`.
pub fn composition_of(
    alloc: Global,
    declarations: Declarations,
    config: &Config,
) -> Result<Composition, DeriveError>
    requires { AreNamed (declarations_view declarations) }
    ensures derived { IfOk result
        (λ c. AreDerived config.now (declarations_view declarations) c) }
    ensures refused { Refuses result (AreRefused config.now (declarations_view declarations)) }
    // The document of the components describes the declarations, with alternatives under either keyword.
    ensures describes { IfOk result
        (λ c. (made : AreDerived config.now (declarations_view declarations) c)
        × ((by : Keyword) → Describes made.resolved (collects_all config.now.collect)
        (document_by by c))) }
{
    closing::components_describe();
    closing::entries_are();
    derive_decl::resolved_are_apart();
    let (resolved, bounded) = bounded_of(alloc, declarations, config)?;
    Ok(Composition { resolved, bounded })
}

/// The components of the source's declarations, whose schemas are not made yet.
///
/// A refusal is as for `derive_components`.
pub fn composition_of_source(
    alloc: Global,
    source: &str,
    config: &Config,
) -> Result<Composition, DeriveError>
    ensures derived { IfOk result (λ c. IsDerived config.now source.now c) }
    ensures refused { Refuses result (IsRefused config.now source.now) }
    // The document of the components describes the declarations of the source.
    ensures describes { IfOk result (λ c. (made : IsDerived config.now source.now c)
        × Describes made.derived.resolved (collects_all config.now.collect) (document c)) }
{
    closing::components_describe();
    closing::entries_are();
    derive_decl::resolved_are_apart();
    let (resolved, bounded) = bounded_of_source(alloc, source, config)?;
    Ok(Composition { resolved, bounded })
}
